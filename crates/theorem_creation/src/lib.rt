// No code: the creation hole is closed.
#![tactic(auto)]
