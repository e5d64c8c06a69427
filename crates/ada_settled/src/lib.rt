//! That what the declarations of bodies create comes to an end, where no body leads back to itself by it (7.6, 3.3.1).
#![tactic(auto)]

pub mod laws;
