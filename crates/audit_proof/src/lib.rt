// No code: which logs are accepted, and that those of our own client are.
#![tactic(auto)]
