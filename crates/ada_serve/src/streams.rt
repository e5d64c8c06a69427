//! Readers and writers of bytes with one method each: over memory, and over files and streams of the system.

ghost use Rattle.std.specs.Prelude.{◌≡◌, ℕ, false, List, [], Option};
ghost use Rattle.std.specs.Io.{ReadsAtMost, WritesAtMost};
ghost use Rattle.std.specs.Io.KnownBytes.{ReadConsumes, WriteAppends};
ghost use Rattle.ada_serve.specs.Calls.{moved};

use std::alloc::Global;
use std::io::{Read, Write};

/// A read or a write that failed.
#[derive(Clone, Copy, Debug, PartialEq, Eq)]
pub struct Failed;

/// Gives some bytes at each call.
pub trait ByteReader {
    /// The bytes that it will give, where they are known.
    ghost remaining: { Self → Option (List ℕ) };

    /// What one call does: the state before, the bytes that it gives or none where it fails, and the state after.
    ghost reads: { Self → Option (List ℕ) → Self → Type 0 };

    /// Puts some bytes at the front of the buffer and returns how many; 0 at the end.
    ///
    /// # Errors
    /// Where the read failed. It took no byte then.
    fn read(&mut self, buffer: &mut [u8]) -> Result<usize, Failed>
        ensures bound { ReadsAtMost result buffer.new }
        ensures bytes { ReadConsumes (remaining self.old) (remaining self.new) result buffer.new }
        ensures call { reads self.old (moved result buffer.new) self.new };
}

/// Takes some bytes at each call.
pub trait ByteWriter {
    /// The bytes that it has taken, where they are known.
    ghost contents: { Self → Option (List ℕ) };

    /// What one call does: the state before, the bytes that it takes or none where it fails, and the state after.
    ghost writes: { Self → Option (List ℕ) → Self → Type 0 };

    /// Takes some bytes from the front and returns how many.
    ///
    /// # Errors
    /// Where the write failed. It took no byte then.
    fn write(&mut self, bytes: &[u8]) -> Result<usize, Failed>
        ensures bound { WritesAtMost result bytes.now }
        ensures written { WriteAppends (contents self.old) (contents self.new) result bytes.now }
        ensures call { writes self.old (moved result bytes.now) self.new };
}

/// Reads bytes in memory.
#[derive(Clone, Copy, Debug)]
pub struct MemoryReader<'a> {
    bytes: &'a [u8],
}

impl<'a> MemoryReader<'a> {
    /// Reads these bytes.
    pub fn new(bytes: &'a [u8]) -> MemoryReader<'a>
        ensures { result.bytes.now ≡ bytes.now }
    {
        MemoryReader { bytes }
    }
}

impl<'a> ByteReader for MemoryReader<'a> {
    ghost use Rattle.std.specs.Prelude.{Some};
    ghost use Rattle.ada_serve.specs.Calls.{LosesFront};

    ghost remaining = { λ r. Some r.bytes.now };

    ghost reads = { λ before given after. LosesFront before.bytes.now given after.bytes.now };

    fn read(&mut self, buffer: &mut [u8]) -> Result<usize, Failed> {
        let count = buffer.len().min(self.bytes.len());
        let (front, rest) = self.bytes.split_at(count);
        buffer[..count].copy_from_slice(front);
        self.bytes = rest;
        Ok(count)
    }
}

/// A reader of the system. One that could not be opened fails at each read.
#[derive(Debug, Drop)]
pub struct SystemReader<R: Read + Drop> {
    reader: Option<R>,
    /// A read has failed.
    failed: bool,
}

impl<R: Read + Drop> SystemReader<R> {
    /// Reads what this reader reads, or fails at each read where it is none.
    pub fn new(reader: Option<R>) -> SystemReader<R>
        ensures reader { result.reader ≡ reader }
        ensures failed { result.failed ≡ false }
    {
        SystemReader {
            reader,
            failed: false,
        }
    }
}

impl<R: Read + Drop> ByteReader for SystemReader<R> {
    ghost use Rattle.ada_serve.specs.Calls.{GivesOpen, MarksFailure, remaining_of};

    ghost remaining = { λ r. remaining_of R.remaining r.reader };

    ghost reads = { λ before given after. GivesOpen before.reader given × MarksFailure before.failed given after.failed };

    fn read(&mut self, buffer: &mut [u8]) -> Result<usize, Failed> {
        let Some(reader) = &mut self.reader else {
            self.failed = true;
            return Err(Failed);
        };
        match reader.read(buffer) {
            Ok(count) => Ok(count),
            Err(_) => {
                self.failed = true;
                Err(Failed)
            }
        }
    }
}

/// Writes to memory.
#[derive(Debug, Drop)]
pub struct MemoryWriter {
    pub bytes: Vec<u8>,
}

impl MemoryWriter {
    /// Nothing is written yet.
    pub fn new(alloc: Global) -> MemoryWriter
        ensures { result.bytes.items ≡ [] }
    {
        MemoryWriter {
            bytes: Vec::new(alloc),
        }
    }
}

impl ByteWriter for MemoryWriter {
    ghost use Rattle.std.specs.Prelude.{Some};
    ghost use Rattle.ada_serve.specs.Calls.{GainsEnd};

    ghost contents = { λ w. Some w.bytes.items };

    ghost writes = { λ before taken after. GainsEnd before.bytes.items taken after.bytes.items };

    fn write(&mut self, bytes: &[u8]) -> Result<usize, Failed> {
        match self.bytes.extend_from_slice(bytes) {
            Ok(()) => Ok(bytes.len()),
            Err(_) => Err(Failed),
        }
    }
}

/// A writer of the system.
#[derive(Debug, Drop)]
pub struct SystemWriter<W: Write + Drop> {
    writer: W,
    /// A write has failed.
    failed: bool,
}

impl<W: Write + Drop> SystemWriter<W> {
    /// Writes to the writer.
    pub fn new(writer: W) -> SystemWriter<W>
        ensures writer { result.writer ≡ writer }
        ensures failed { result.failed ≡ false }
    {
        SystemWriter {
            writer,
            failed: false,
        }
    }
}

impl<W: Write + Drop> ByteWriter for SystemWriter<W> {
    ghost use Rattle.ada_serve.specs.Calls.{MarksFailure};

    ghost contents = { λ w. W.contents w.writer };

    ghost writes = { λ before taken after. MarksFailure before.failed taken after.failed };

    fn write(&mut self, bytes: &[u8]) -> Result<usize, Failed> {
        match self.writer.write(bytes) {
            Ok(count) => Ok(count),
            Err(_) => {
                self.failed = true;
                Err(Failed)
            }
        }
    }
}
