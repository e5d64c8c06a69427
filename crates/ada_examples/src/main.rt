//! Answers every source in the folders that its words name: as `check` does, and again as `run` does where it is
//! accepted. Folders are answered in the order of the words, and the sources of a folder in the order of their names.
//!
//! Each run has the same input. The folders lie in `data/`, their names in `args`, and the wanted answers in `stdout`: a new case adds a file and its
//! answer, and no function.
#![tactic(auto)]

use ada_serve::serve::{Status, serve};
use ada_serve::settings::Options;
use ada_serve::streams::{MemoryReader, SystemWriter};
use std::{fs, io};

/// The input of each run.
const INPUT: &[u8] = b"7 -3\n2\n";

fn main(rt: HostRuntime) -> io::Result<()> {
    for folder in std::env::args(&rt)?.skip(1) {
        answer_folder(&rt, folder.as_str())?;
    }
    Ok(())
}

/// Answers the sources of a folder.
///
/// # Errors
/// Where the folder or one of its files cannot be read.
fn answer_folder(rt: &HostRuntime, folder: &str) -> io::Result<()> {
    let mut paths = Vec::new(rt.alloc());
    for entry in fs::read_dir(rt, folder)? {
        paths.push(String::from_str(rt.alloc(), entry?.path().as_str())?)?;
    }
    paths.sort()?;
    for path in &paths {
        println!(rt; "{path}")?;
        let source = fs::read(rt, path.as_str())?;
        if answer(rt, &source, false)? == Some(Status::Accepted) {
            answer(rt, &source, true)?;
        }
    }
    Ok(())
}

/// Writes the answer to a source, and returns how it ended; a fault is written in its place, and ends it with none.
///
/// # Errors
/// Where the fault cannot be written.
fn answer(rt: &HostRuntime, source: &[u8], run: bool) -> io::Result<Option<Status>> {
    let mut reader = MemoryReader::new(source);
    let mut input = MemoryReader::new(INPUT);
    let mut out = SystemWriter::new(rt.stdout());
    match serve(
        rt.alloc(),
        &mut reader,
        &mut input,
        &Options::new(rt.alloc(), run),
        &mut out,
    ) {
        Ok(status) => Ok(Some(status)),
        Err(fault) => {
            println!(rt; "failed {fault}")?;
            Ok(None)
        }
    }
}
