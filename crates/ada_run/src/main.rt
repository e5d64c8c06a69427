//! `ada_run check [--source FILE]` and
//! `ada_run run [--source FILE] [--input FILE] [--standard WORDS] [--steps N] [--refuse K] [--trace] [NAME=WORDS]...`:
//! checks a source, or runs it on its input if it is accepted.
//!
//! The exit status tells how that ended, even where the standard error cannot be written.
#![tactic(auto)]

use ada_serve::command_line::{UsageFault, options};
use ada_serve::exit::{NO_MEMORY, USAGE, code_of, fault_code};
use ada_serve::serve::serve;
use ada_serve::settings::{Options, Paths};
use ada_serve::streams::{ByteReader, MemoryReader, SystemReader, SystemWriter};
use std::fs::File;
use std::io;
use std::process::ExitCode;

fn main(rt: HostRuntime) -> ExitCode {
    let code = match obey(&rt) {
        Ok(code) => code,
        Err(error) if error.kind() == io::ErrorKind::OutOfMemory => no_memory(&rt),
        Err(error) => {
            let _ = eprintln!(rt; "error: the words cannot be read: {error}");
            USAGE
        }
    };
    ExitCode::from(code)
}

/// Does what the words say, and returns the exit status.
///
/// # Errors
/// Where the words are not text, or memory ran out for them.
fn obey(rt: &HostRuntime) -> io::Result<u8> {
    let mut words = Vec::new(rt.alloc());
    for word in std::env::args(rt)?.skip(1) {
        words.push(word)?;
    }
    let mut texts = Vec::new(rt.alloc());
    for word in &words {
        texts.push(word.as_str())?;
    }
    Ok(match options(rt.alloc(), &texts) {
        Ok((options, paths)) => open_source(rt, &options, paths),
        Err(UsageFault::Usage(error)) => {
            let _ = eprint!(rt; "{error}");
            USAGE
        }
        Err(UsageFault::NoMemory) => no_memory(rt),
    })
}

/// Reports that memory ran out.
fn no_memory(rt: &HostRuntime) -> u8 {
    let _ = eprintln!(rt; "failed F90 no-memory");
    NO_MEMORY
}

/// Answers the source in this file, or the one on the standard input where no file is named.
fn open_source(rt: &HostRuntime, options: &Options, paths: Paths<'_>) -> u8 {
    match paths.source {
        Some(path) => open_input(rt, &mut reader_of(rt, path), options, paths.input),
        None => open_input(
            rt,
            &mut SystemReader::new(Some(rt.stdin())),
            options,
            paths.input,
        ),
    }
}

/// Answers a source with the input in this file, or with an empty one where no file is named.
fn open_input<S: ByteReader>(
    rt: &HostRuntime,
    source: &mut S,
    options: &Options,
    input: Option<&str>,
) -> u8 {
    match input {
        Some(path) => answer(rt, source, &mut reader_of(rt, path), options),
        None => answer(rt, source, &mut MemoryReader::new(b""), options),
    }
}

/// Reads this file; where it cannot be opened, each read fails.
fn reader_of(rt: &HostRuntime, path: &str) -> SystemReader<File> {
    SystemReader::new(File::open(rt, path).ok())
}

/// Answers a source on the standard output, and reports a fault on the standard error.
fn answer<S: ByteReader, I: ByteReader>(
    rt: &HostRuntime,
    source: &mut S,
    input: &mut I,
    options: &Options,
) -> u8 {
    let mut out = SystemWriter::new(rt.stdout());
    match serve(rt.alloc(), source, input, options, &mut out) {
        Ok(status) => code_of(status),
        Err(fault) => {
            let _ = eprintln!(rt; "failed {fault}");
            fault_code(fault)
        }
    }
}
