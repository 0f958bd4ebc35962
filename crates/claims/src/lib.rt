// The claims about the unit over whole runs; no code.
#![tactic(auto)]
