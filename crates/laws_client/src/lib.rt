// No code: laws about the client's rules, each stated once. Nothing here is to be believed.
#![tactic(auto)]
