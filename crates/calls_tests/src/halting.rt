//! Readers and writers of std over memory, and ones that halt once.

use std::io::{self, Error, ErrorKind, Read, Write};

/// Reads a slice.
#[derive(Drop)]
pub(crate) struct Front<'a> {
    pub(crate) left: &'a [u8],
}

impl Read for Front<'_> {
    fn read(&mut self, buffer: &mut [u8]) -> io::Result<usize> {
        let n = buffer.len().min(self.left.len());
        let (front, left) = self.left.split_at(n);
        buffer[..n].copy_from_slice(front);
        self.left = left;
        Ok(n)
    }
}

/// Keeps what is written.
#[derive(Drop)]
pub(crate) struct Sheet {
    pub(crate) bytes: Vec<u8>,
}

impl Write for Sheet {
    fn write(&mut self, bytes: &[u8]) -> io::Result<usize> {
        match self.bytes.extend_from_slice(bytes) {
            Ok(()) => Ok(bytes.len()),
            Err(_) => Err(Error::from(ErrorKind::OutOfMemory)),
        }
    }

    fn flush(&mut self) -> io::Result<()> {
        Ok(())
    }
}

/// Moves this many bytes a call but for one call, which fails or moves none; after it a call works again.
#[derive(Drop)]
pub(crate) struct Halting<T: Drop> {
    pub(crate) inner: T,
    step: usize,
    calls: usize,
    halt_at: usize,
    fault: Option<ErrorKind>,
}

impl<T: Drop> Halting<T> {
    /// It halts at the call after this many, with an error of this kind if there is one.
    pub(crate) fn new(
        inner: T,
        step: usize,
        halt_at: usize,
        fault: Option<ErrorKind>,
    ) -> Halting<T> {
        Halting {
            inner,
            step,
            calls: 0,
            halt_at,
            fault,
        }
    }

    /// How many bytes this call may move.
    fn turn(&mut self) -> io::Result<usize> {
        let halts = self.calls == self.halt_at;
        self.calls = self.calls.saturating_add(1);
        match self.fault {
            _ if !halts => Ok(self.step),
            Some(kind) => Err(Error::from(kind)),
            None => Ok(0),
        }
    }
}

impl<R: Read + Drop> Read for Halting<R> {
    fn read(&mut self, buffer: &mut [u8]) -> io::Result<usize> {
        let n = self.turn()?.min(buffer.len());
        self.inner.read(&mut buffer[..n])
    }
}

impl<W: Write + Drop> Write for Halting<W> {
    fn write(&mut self, bytes: &[u8]) -> io::Result<usize> {
        let n = self.turn()?.min(bytes.len());
        self.inner.write(&bytes[..n])
    }

    fn flush(&mut self) -> io::Result<()> {
        self.inner.flush()
    }
}
