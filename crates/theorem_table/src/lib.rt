// No code: the tester's table.
#![tactic(auto)]
