//! The answer to a source, and the words and streams around it.
//!
//! To the program above it promises:
//! - [`serve::serve`] writes exactly the answer to the bytes that its source and its input give: the line of the first
//!   fault, `accepted`, or the lines of the run and how it ended. After a failure of reading, writing or memory, what it
//!   wrote is a front of that answer; where the input has a word that is no number, or is too long, it wrote nothing;
//! - [`command_line::options`] reads the words after the program's name;
//! - [`exit::code_of`] and [`exit::fault_code`] give the exit statuses.
//!
//! ```
//! let mut source = MemoryReader::new(b"procedure Main is begin null; end Main;");
//! let mut input = MemoryReader::new(b"");
//! let mut out = MemoryWriter::new(alloc);
//! let status = serve(alloc, &mut source, &mut input, &Options::new(true), &mut out)?;
//! ```
//!
//! Then `status` is [`serve::Status::Finished`], and `out` holds the line `finished`.
#![tactic(auto)]

pub mod command_line;
pub mod exit;
mod output;
pub mod serve;
pub mod settings;
pub mod streams;
mod texts;
