//! The checker: from the bytes of a source to an accepted program, or to the first fault.
//!
//! `check` accepts a source exactly where it is a program that obeys the rules, and what it accepts is safe: no run of
//! it comes to an erroneous action, and every run keeps the laws of finalization. Otherwise it answers a `Verdict`, the
//! first fault of the first phase that has one; the phases are text, syntax, names, which operations call themselves, the rules on
//! what operations of controlled types do, flow, and which operations are in use. Which operations call themselves is asked of what stands
//! before a fault of the names, too, and told instead of that. The last phase asks, besides, that no body leads back to
//! itself by what its own declarations create, and that no component of a record frees an object whose end may reach the object in which
//! another such component lies. Only `check` makes an `Accepted`.
#![tactic(auto)]

mod accepted;
mod early;
mod fault;
pub mod laws;
mod refusal;
pub mod rules;

pub use crate::accepted::{Accepted, check};
pub use crate::fault::Verdict;
pub use crate::refusal::Refusal;
