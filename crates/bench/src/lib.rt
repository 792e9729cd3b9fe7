// No code: the bench sheet, computed through the definitions.
#![tactic(auto)]
