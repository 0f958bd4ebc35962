// The claim about a load: the job program reads back the calls that were drawn, and its lines are the specification's; no code.
#![tactic(auto)]
