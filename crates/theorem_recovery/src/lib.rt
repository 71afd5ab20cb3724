// No code: the two halves of demand 3 as one; the leg that extend adds.
#![tactic(auto)]
