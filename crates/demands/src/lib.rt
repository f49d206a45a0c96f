// Demand 3 of the calls: what a list of insertions, by their promises alone, leaves of every reading. No code.
#![tactic(auto)]
