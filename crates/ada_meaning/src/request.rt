//! What a run asks of the pools, and tells them.

use crate::state::Id;
use ada_program::PoolNo;

/// What the machine asks or tells. Of the answers only those to `Allocate` and `Open` are looked at.
#[derive(Clone, Copy)]
pub enum Request {
    /// Words for a new object are wanted in a pool, for a subpool's number or 0 (13.11). Where they are granted, the
    /// object has this name, which no other object ever had.
    Allocate {
        pool: usize,
        owner: u32,
        words: usize,
        object: Id,
    },
    /// A subpool is to be opened under a number (13.11.4). No program asks for one yet.
    Open {
        pool: usize,
        owner: u32,
    },
    /// The words of an object go back (13.11.2).
    Back {
        object: Id,
    },
    /// A subpool is closed (13.11.5). No program has one yet.
    Close {
        pool: usize,
        owner: u32,
    },
    /// A declared pool begins, under a number that no other has that exists: one more than the newest of them (13.11).
    New {
        pool: usize,
        declaration: PoolNo,
    },
    /// A declared pool is gone: the newest of those that exist. The words of all its objects are back.
    Gone {
        pool: usize,
    },
}
