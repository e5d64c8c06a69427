//! Values of the predefined types Integer and Boolean, and what the predefined operators give of them (Ada 4.5).
//!
//! To the crate above it promises:
//! - [`unary`] and [`binary`] give exactly the value that the definition in `specs/Operators.antt` gives, or exactly
//!   the fault that it has, and every operator has just one of these for any operands ([`laws`]);
//! - that value or fault is also a function of the operands, in `specs/Outcome.antt`, which the crate above cites;
//! - `/`, `rem` and `mod` are defined by the manual's sentences on them, and its notes follow ([`laws`]).
//!
//! Both operands were evaluated before: a short-circuit form combines two truth values as its operator does.
//!
//! ```
//! let seven = Value::Integer(7);
//! let sum = binary(BinaryOperator::Add, seven, Value::Integer(5))?;
//! ```
#![tactic(auto)]

mod fault;
pub mod laws;
pub mod operator;
mod operators;
mod value;

pub use fault::OperatorFault;
pub use operator::{BinaryOperator, UnaryOperator};
pub use operators::{binary, unary};
pub use value::Value;
