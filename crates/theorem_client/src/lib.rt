// No code: what holds of all of the client's events.
#![tactic(auto)]
