// No code: how a record and a cursor stand in bytes, what C is answered, and what is proved of both. The code is crate panel.
#![tactic(auto)]
