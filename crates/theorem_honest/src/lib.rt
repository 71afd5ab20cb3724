// No code: a recovery run with honest nodes, whole.
#![tactic(auto)]
