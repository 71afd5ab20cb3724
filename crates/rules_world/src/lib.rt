// No code: one client with its nodes, and the histories of such a pool.
#![tactic(auto)]
