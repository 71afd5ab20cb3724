// No code: map check over a history; a row that it zeroes is still empty at the node.
#![tactic(auto)]
