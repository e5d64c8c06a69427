//! Well-formed programs run by the steps of the manual: their values have the types that the program says, so no action is without a meaning.
#![tactic(auto)]

pub mod laws;
