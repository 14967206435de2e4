// No code: in proofs/ rules with their calls, and the whole answers that the definitions of crate rule give them.
#![tactic(auto)]
