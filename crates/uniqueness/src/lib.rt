// Tables with one tree and the same exact readings have the same coefficients. No code.
#![tactic(auto)]
