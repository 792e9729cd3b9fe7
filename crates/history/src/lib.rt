// No code: runs of calls, and what holds of them.
#![tactic(auto)]
