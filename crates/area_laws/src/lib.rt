// Laws of the table area, by paths; no code.
#![tactic(auto)]
