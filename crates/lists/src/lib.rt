// No code: the lists that the definitions of the other crates speak of, and their laws.
#![tactic(auto)]
