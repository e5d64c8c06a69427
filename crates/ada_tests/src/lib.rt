//! Tests of what no contract says, each a table with one loop and one assertion.
//!
//! - [`tokens`]: the tokens of short texts, and their first faults;
//! - [`limits`]: sources that are too long to be kept as files;
//! - [`streams`]: readers and writers that move one byte a call, and fail at each call in turn;
//! - [`runs`]: runs with a limit of statements, with one request for storage refused, and with an input;
//! - [`asked`]: runs with pools of other sizes, and traced runs, as words ask for them;
//! - [`controlled`]: runs of programs with controlled types, made by hand;
//! - [`words`]: the words after the program's name, and the exit statuses;
//! - [`unchecked`]: programs run without the rules, and with requests refused.
//!
//! Whole answers to sources are data of `ada_examples`.
#![tactic(auto)]

#[cfg(test)]
mod asked;
#[cfg(test)]
mod controlled;
#[cfg(test)]
mod limits;
#[cfg(test)]
mod runs;
#[cfg(test)]
mod streams;
#[cfg(test)]
mod tokens;
#[cfg(test)]
mod unchecked;
#[cfg(test)]
mod words;
