// No code: how long a recovery run lasts.
#![tactic(auto)]
