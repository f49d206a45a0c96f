// What both converters of the full-grid dialect keep, from the definitions and from the promises of the calls. No code.
#![tactic(auto)]
