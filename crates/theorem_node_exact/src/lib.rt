// No code: when a node takes an event, which number it gives where it does not, and what becomes of every field.
#![tactic(auto)]
