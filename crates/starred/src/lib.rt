// No code: document 01's starred charts, and a proof that the definitions of crate rule give their answers.
#![tactic(auto)]
