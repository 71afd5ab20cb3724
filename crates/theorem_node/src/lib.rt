// No code: what holds of all of a node's events, and which of them may change places.
#![tactic(auto)]
