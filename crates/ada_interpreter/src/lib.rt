//! The machine that runs programs over names.
//!
//! [`Machine`] makes one step of the definition in `ada_meaning` at a time. What a step leaves open, [`Choices`]
//! answers: whether a request for storage is granted, and which member of a collection is taken. [`RefuseOne`] refuses
//! one request at most, and takes the newest member; [`Listed`] follows a list of answers.
//!
//! A step costs constant time, whatever the program has allocated and entered: a collection knows its members and its
//! pool, an object its collection, an access type its newest open collection, a declaration of a pool the newest pool of
//! it, and a table the record types that have controlled parts. An exception looks at the handlers that it comes to, the
//! step that copies or fills a record costs as much as the record is long, the step that creates an object as much as
//! records with controlled parts lie in it at any depth, the step in which a Free begins as much as its object has
//! controlled parts, the step in which an exception leaves an Initialize as much as its object has parts that have values,
//! the step that begins a treatment of controlled parts as much as the record has components that have some, the steps in
//! which a call begins cost as much as it has actual parameters and its procedure has variables, and the step in which it
//! ends costs as much as it has actual parameters. Once the machine's stacks have grown, a call takes no memory; that of
//! an operation does where operands of its caller wait.
//!
//! Memory follows the objects that there are, and not all that ever were, if past ones are forgotten by
//! [`Machine::forget`]. Objects lie in a hash table by their names, and a collection drops the names of those that left it
//! once they are more than its members: so where a step looks for an object, or one leaves its collection, the constant
//! time is that on the average.
#![tactic(auto)]

mod activations;
mod allocators;
mod assignments;
mod at_once;
mod branches;
mod calls;
mod choices;
mod common_branches;
mod common_loops;
mod common_steps;
mod common_turns;
mod common_values;
mod components;
mod control;
mod endings;
mod expressions;
mod frame;
mod frees;
mod given;
mod handling;
mod input;
mod jumps;
mod layouts;
mod listed;
mod loaded;
mod machine;
mod masters;
mod newest;
mod numbers;
mod objects;
mod operations;
mod operators;
mod parameters;
mod pools;
mod process;
mod records;
mod remembered;
mod rights;
mod shelves;
mod stack;
mod steps;
mod tables;
mod treatment;
mod treats;
mod turn;
mod values;

pub use crate::choices::{Choices, RefuseOne};
pub use crate::listed::Listed;
pub use crate::machine::Machine;
