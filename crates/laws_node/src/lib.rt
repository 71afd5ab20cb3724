// No code: laws about the node's rules. Nothing here is to be believed.
#![tactic(auto)]
