// What a run of records leaves in a window, from the definitions and from the promises of the calls. No code.
#![tactic(auto)]
