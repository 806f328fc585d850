// Demands 2 and 3 over the calls of the entries, by what their callers learn.
#![tactic(auto)]
