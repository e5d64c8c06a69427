//! Worked rows of the pools and of chains: each prints its answers on one line, and `stdout` has what the rules give.
#![tactic(auto)]

mod chains;
mod mixed;
mod pools;
mod words;

use std::io;

/// What a call answered.
#[derive(Clone, Copy)]
pub enum Answer {
    /// A block at this place, an owner of this number, or a word.
    Number(u64),
    /// There is no room.
    Full,
    /// The owner is not the newest.
    NotNewest,
    /// There is none.
    Nothing,
}

fn main(rt: HostRuntime) -> io::Result<()> {
    first_fit_rows(&rt)?;
    owner_rows(&rt)?;
    list_rows(&rt)
}

/// Blocks of pools without owners.
fn first_fit_rows(rt: &HostRuntime) -> io::Result<()> {
    row(
        rt,
        "first fit reuses and merges",
        &pools::first_fit(rt.alloc())?,
    )?;
    row(
        rt,
        "a pool smaller than a header has no room",
        &pools::small_pools(rt.alloc())?,
    )?;
    row(
        rt,
        "a new object is zero and keeps what is written",
        &pools::objects(rt.alloc())?,
    )?;
    row(
        rt,
        "20,000 mixed takes and returns",
        &mixed::takes_and_returns(rt.alloc())?,
    )
}

/// Blocks of subpools and marks.
fn owner_rows(rt: &HostRuntime) -> io::Result<()> {
    row(
        rt,
        "a subpool closes all its blocks",
        &pools::subpools(rt.alloc())?,
    )?;
    row(
        rt,
        "a closed subpool leaves one hole",
        &pools::subpools_merge(rt.alloc())?,
    )?;
    row(
        rt,
        "a closed mark sets the cursor back",
        &pools::marks(rt.alloc())?,
    )?;
    row(rt, "an older mark stays", &pools::older_mark(rt.alloc())?)?;
    row(
        rt,
        "ten marks and a thousand subpools are open at most",
        &pools::limits(rt.alloc())?,
    )
}

/// Chains, lists and words.
fn list_rows(rt: &HostRuntime) -> io::Result<()> {
    row(
        rt,
        "a chain gives its newest block first",
        &chains::chains(rt.alloc())?,
    )?;
    row(
        rt,
        "a list gives its newest item first",
        &chains::lists(rt.alloc())?,
    )?;
    row(
        rt,
        "words are zero, then what was written",
        &words::region(rt.alloc())?,
    )
}

/// Prints a row: its name and its answers.
fn row(rt: &HostRuntime, name: &str, answers: &[Answer]) -> io::Result<()> {
    print!(rt; "{name}:")?;
    for answer in answers {
        match answer {
            Answer::Number(number) => print!(rt; " {number}")?,
            Answer::Full => print!(rt; " full")?,
            Answer::NotNewest => print!(rt; " not-newest")?,
            Answer::Nothing => print!(rt; " none")?,
        }
    }
    println!(rt;)
}
