// Finite sums, minima, tables and binary digits, and the laws of the integers: definitions and proofs only, no code.
#![tactic(auto)]
