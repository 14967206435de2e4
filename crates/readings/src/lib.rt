// No code: in proofs/ further cases of crate rule's definitions, played as crate cases plays them: those of the readings, and of wrong versions.
#![tactic(auto)]
