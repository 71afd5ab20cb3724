// No code: no missed chunk is forgotten.
#![tactic(auto)]
