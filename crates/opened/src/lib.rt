// No code: what a call of a good record finds is the rule's own: its plan, its periods opened, and the test of a cursor there.
#![tactic(auto)]
