// The bench sheet of document 01 and further cases, proved of the definitions. No code.
#![tactic(auto)]
