//! Effects: what a form may do beside its normal end, whatever its variables hold: which exceptions it may raise, and of
//! which access types it may free objects.
//!
//! `passes` answers whether statements may raise an exception that none of their handlers takes, and `effect_of` what is known
//! of the calls of a procedure, by its body and by what is known of those before it. Each goes through a statement once for
//! exceptions, `effect_of` once more for what is freed, and through the choices of each handler no more than twice: what the
//! handlers of a block take joins one set for the statements of that block, and leaves it again behind them. A call costs
//! the size of what is known of it.
//!
//! What the operations of controlled types may do that are called implicitly (7.6) is known by the number of a type
//! (`Implicit`): which exceptions may come out where an object is initialized, and of which access types objects may be freed
//! there, where a record is copied, and where an object ends. Allocators, declarations, assignments of records, Frees and the
//! leaving of masters do what is known of the operations that they call.
#![tactic(auto)]

mod effect;
mod expressions;
mod found;
mod freed;
mod frees;
mod implicit;
pub mod laws;
mod raised;
mod taken;

pub use crate::effect::{Effect, effect_of};
pub use crate::expressions::{
    actuals_raise, condition_raises, expression_raises, items_raise, path_raises,
    record_path_raises,
};
pub use crate::implicit::{AccessTypes, Effects, Implicit};
pub use crate::raised::passes;
