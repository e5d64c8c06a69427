//! The resolver: the program of a tree, or the first fault of its names.
#![tactic(auto)]

mod allocators;
mod arguments;
mod assignments;
mod borrowers;
mod calls;
mod choices;
mod clauses;
mod components;
mod declarations;
mod derived;
mod exceptions;
mod expressions;
mod fault;
mod formals;
mod given;
mod instances;
mod items;
pub mod laws;
mod library;
mod lines;
mod loops;
mod meant;
mod notes;
mod objects;
mod operators;
mod part;
mod paths;
mod pools;
mod primitives;
mod procedures;
mod program;
mod records;
mod resolver;
mod rights;
mod scope;
mod selectors;
mod specifications;
mod spots;
mod statements;
mod statics;
mod types;

pub use crate::fault::{NameFault, NameRule};
pub use crate::program::resolve;
