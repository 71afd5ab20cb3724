// No code: a history that meets the premises.
#![tactic(auto)]
