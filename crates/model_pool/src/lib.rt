// No code, nothing to believe: a simplified pool with its invariant, and the pool of the rules seen as that one.
#![tactic(auto)]
