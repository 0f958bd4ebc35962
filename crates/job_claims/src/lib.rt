// The claim about a whole job: the bytes that it writes are the specification's; no code.
#![tactic(auto)]
