//! Rules on the bodies that override Adjust and Finalize of controlled types (7.6), which are called implicitly.
//!
//! `operations` answers exactly: either no body breaks a rule, or this is the rule that is broken first, and where, want of memory
//! aside. Finalize is called where an object ends, at a place that the program does not choose: so neither it nor Adjust uses
//! objects whose collection may have ended before (S8), neither lets an exception out (S9), and Finalize creates no object
//! (S10). What a body does it may do by calls, implicit ones too (`ada_deeds`). A fault is told at the first token of the body:
//! that which stands first in the text, and there the rule with the least number. Where no rule is broken, it answers besides what
//! operations may do that are called implicitly, for the rules of flow.
//!
//! S8: an access type is used where objects of it are freed, or its values are followed. The collections of a program end in the
//! order against that in which they are created; so for each access type T, the objects of which have a part R at any depth, an
//! access type that Adjust or Finalize of R uses has its collection created before that of T.
#![tactic(auto)]

mod check;
mod components;
mod created;
mod facts;
mod fault;
mod late;
pub mod laws;
mod places;
mod rule;

pub use crate::check::operations;
pub use crate::fault::OperationFault;
pub use crate::rule::OperationRule;
