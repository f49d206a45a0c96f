// The check of a whole table, as readings, setting and insertion make it: causes 1 to 5 of document 01, the lowest
// first.
#![tactic(auto)]

pub mod cause;
