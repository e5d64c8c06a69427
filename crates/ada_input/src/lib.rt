//! The numbers of a run's input, which a program takes with `Run_Input.Get`.
//!
//! [`numbers`] promises the numbers of all words of the input, in order, or the place of the first word that is no
//! number of the type Integer. Words stand apart by tabs, line feeds, carriage returns and blanks.
//!
//! ```text
//! numbers(alloc, b" 7 -2147483648\n")  // Ok([7, -2147483648])
//! numbers(alloc, b"7 -2147483649")     // Err(BadWord { place: 3 })
//! ```
#![tactic(auto)]

mod fault;
mod laws;
mod number;
mod reader;

pub use crate::fault::InputFault;
pub use crate::laws::{
    first_bad_words_are_told, inputs_have_their_numbers, numbers_are_integers,
    numbers_are_read_again, other_words_are_bad, words_stand_at_their_places,
};
pub use crate::reader::numbers;
