// No code: what holds of a row written as descriptors and read back.
#![tactic(auto)]
