// Region trees as document 01 writes them: their form with their regions.
#![tactic(auto)]

pub mod walk;
