// No code: when the client takes an event, which number it gives, what becomes of every field.
#![tactic(auto)]
