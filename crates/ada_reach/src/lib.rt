//! Reaching: which nodes of a directed graph are reached from given ones, along its edges.
//!
//! [`reached`] marks them, in time linear in nodes and edges, whether or not there are cycles. The laws of reaching stand in
//! [`laws`]: what is reached is the least set that has the starts and that no edge leaves.
#![tactic(auto)]

mod graph;
pub mod laws;
mod search;

pub use crate::graph::reached;
