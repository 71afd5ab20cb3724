// No code: pools and nodes for which the theorems' premises hold, computed; apart, so that no edit pays for them.
#![tactic(auto)]
