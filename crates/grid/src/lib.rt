// No code: in proofs/ a grid of cases. In each one list at one frequency, one filling in, refusal, bound of a cursor or first week decides the answer.
#![tactic(auto)]
