// No code: recovery runs, removals and jobs, sentence by sentence.
#![tactic(auto)]
