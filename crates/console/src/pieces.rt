// A reader and a writer that move one byte a call, for tests: what a program does must not hang on the pieces in which bytes come and go.
ghost use Rattle.std.specs.Prelude.{◌≡◌, [], Some};

use std::alloc::{AllocError, Global};
use std::io;
use std::io::{Read, Write};

/// Gives the bytes one a call.
#[derive(Drop)]
pub struct OneByteReader<'a> {
    rest: &'a [u8],
}

impl<'a> OneByteReader<'a> {
    /// A reader of these bytes.
    pub fn new(bytes: &'a [u8]) -> Self
        ensures { result.rest.now ≡ bytes.now }
    {
        OneByteReader { rest: bytes }
    }
}

impl Read for OneByteReader<'_> {
    ghost remaining = { λ reader. Some reader.rest.now };

    fn read(&mut self, buf: &mut [u8]) -> io::Result<usize> {
        let all: &[u8] = self.rest;
        if buf.is_empty() || all.is_empty() {
            return Ok(0);
        }
        buf[0] = all[0];
        self.rest = &all[1..];
        Ok(1)
    }
}

/// Takes one byte a call, and keeps them all.
#[derive(Drop)]
pub struct OneByteWriter {
    taken: Vec<u8>,
}

impl OneByteWriter {
    /// A writer that holds nothing yet.
    pub fn new(heap: Global) -> Self
        ensures { result.taken.items ≡ [] }
    {
        OneByteWriter {
            taken: Vec::new(heap),
        }
    }

    /// The bytes that it was given.
    pub fn taken(&self) -> &[u8]
        ensures { result.now ≡ self.now.taken.items }
    {
        self.taken.as_slice()
    }
}

impl Write for OneByteWriter {
    ghost contents = { λ writer. Some writer.taken.items };

    fn write(&mut self, buf: &[u8]) -> io::Result<usize> {
        let Some(first) = buf.first() else {
            return Ok(0);
        };
        self.taken.push(*first).map_err(AllocError::from)?;
        Ok(1)
    }

    fn flush(&mut self) -> io::Result<()> {
        Ok(())
    }
}
