//! The runs of programs follow storage: event by event, `ada_storage` makes some steps that show nothing, and then at most one
//! that shows the same event. What is left to do in a program, with its masters and its heap, is read as what storage has
//! under way (`specs::Reading`). So the laws of storage are those of programs, and none needs a rule of flow. Nothing here
//! runs: each function of [`laws`] is a theorem, and its contract is the statement.
#![tactic(auto)]

pub mod laws;
