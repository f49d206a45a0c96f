// What saving and loading keep between them, from the promises of the calls alone. No code.
#![tactic(auto)]
