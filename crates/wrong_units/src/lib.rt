// Wrong units, and that the claims refuse each; no code.
#![tactic(auto)]
