//! Readers and writers that move one byte a call, and fail at a given call.

use ada_serve::serve::{ServeFault, Status, serve};
use ada_serve::settings::Options;
use ada_serve::streams::{ByteReader, ByteWriter, Failed};
use std::alloc::Global;
use std::test::Fail;

/// Gives one byte a call until its calls are used up, and then fails.
#[derive(Drop)]
struct Drip<'a> {
    bytes: &'a [u8],
    calls: u32,
}

impl<'a> ByteReader for Drip<'a> {
    ghost use Rattle.std.specs.Prelude.{Some};

    ghost remaining = { λ r. Some r.bytes.now };

    ghost reads = { λ _ _ _. Unit {0} };

    fn read(&mut self, buffer: &mut [u8]) -> Result<usize, Failed> {
        if self.calls == 0 {
            return Err(Failed);
        }
        self.calls -= 1;
        let count = buffer.len().min(self.bytes.len()).min(1);
        let (front, rest) = self.bytes.split_at(count);
        buffer[..count].copy_from_slice(front);
        self.bytes = rest;
        Ok(count)
    }
}

/// Takes one byte a call until its calls are used up, and then fails, or takes nothing.
#[derive(Drop)]
struct Trickle {
    bytes: Vec<u8>,
    calls: u32,
    fails: bool,
}

impl ByteWriter for Trickle {
    ghost use Rattle.std.specs.Prelude.{Some};

    ghost contents = { λ w. Some w.bytes.items };

    ghost writes = { λ _ _ _. Unit {0} };

    fn write(&mut self, bytes: &[u8]) -> Result<usize, Failed> {
        if self.calls == 0 {
            return if self.fails { Err(Failed) } else { Ok(0) };
        }
        self.calls -= 1;
        let count = bytes.len().min(1);
        match self.bytes.extend_from_slice(&bytes[..count]) {
            Ok(()) => Ok(count),
            Err(_) => Err(Failed),
        }
    }
}

/// How a reader of the source, a reader of the input and a writer work, and what is wanted then.
#[derive(Drop)]
struct Row {
    run: bool,
    source_calls: u32,
    input_calls: u32,
    writer_calls: u32,
    writer_fails: bool,
    wanted: Result<Status, ServeFault>,
    /// How many bytes of the answer are written.
    written: usize,
}

const SOURCE: &[u8] = b"procedure Main is begin null; end Main;";

const FINISHED: &[u8] = b"finished\n";

/// Nothing fails.
const fn whole() -> Row {
    Row {
        run: true,
        source_calls: u32::MAX,
        input_calls: u32::MAX,
        writer_calls: u32::MAX,
        writer_fails: true,
        wanted: Ok(Status::Finished),
        written: 9,
    }
}

/// Each way to fail, at each call: the source has 39 bytes, the input 2, and the answer 9.
fn rows(alloc: Global) -> Result<Vec<Row>, Fail> {
    let mut rows = vec![in alloc; whole()]?;
    for calls in 0..40 {
        let mut row = whole();
        row.source_calls = calls;
        row.wanted = Err(ServeFault::ReadFailed);
        row.written = 0;
        rows.push(row)?;
    }
    for calls in 0..3 {
        let mut row = whole();
        row.input_calls = calls;
        row.wanted = Err(ServeFault::ReadFailed);
        row.written = 0;
        rows.push(row)?;
    }
    for calls in 0..18u8 {
        let mut row = whole();
        row.writer_calls = u32::from(calls / 2);
        row.writer_fails = calls % 2 == 0;
        row.wanted = Err(ServeFault::WriteFailed);
        row.written = usize::from(calls / 2);
        rows.push(row)?;
    }
    Ok(rows)
}

/// Runs the program that does nothing, and tells how that ended and what was written.
fn served(alloc: Global, row: &Row) -> Result<(Result<Status, ServeFault>, Vec<u8>), Fail> {
    let mut source = Drip {
        bytes: SOURCE,
        calls: row.source_calls,
    };
    let mut input = Drip {
        bytes: b"12",
        calls: row.input_calls,
    };
    let mut out = Trickle {
        bytes: Vec::new(alloc),
        calls: row.writer_calls,
        fails: row.writer_fails,
    };
    let found = serve(
        alloc,
        &mut source,
        &mut input,
        &Options::new(alloc, row.run),
        &mut out,
    );
    Ok((found, out.bytes))
}

#[test]
fn each_call_fails_in_turn(rt: HostRuntime) -> Result<(), Fail> {
    for row in rows(rt.alloc())? {
        let (found, written) = served(rt.alloc(), &row)?;
        let front = FINISHED.get(..row.written).ok_or("too long")?;
        assert!(rt; found == row.wanted && written.as_slice() == front);
    }
    Ok(())
}
