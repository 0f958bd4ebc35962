// Laws of the shadow tables: the drops, watching, looking up and filling are the book's; no code.
#![tactic(auto)]
