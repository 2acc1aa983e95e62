//! How far a replay of a long input has come, shown on a terminal.

ghost use Rattle.std.specs.Prelude.{◌≡◌};

use kubelet_replay::{Gate, PodPiece};
use std::alloc::AllocError;
use std::io::{self, IsTerminal, Read, Write};
use std::sync::atomic::{AtomicUsize, Ordering};

/// Shorter inputs are read and replayed before a line could be read, 8 MiB.
const WORTH_TELLING: usize = 8 << 20;

/// A line is shown for this many bytes more, 1 MiB.
const BYTES_A_LINE: usize = 1 << 20;

/// A line is shown for this many ticks more.
const TICKS_A_LINE: usize = 1_000;

/// How many bytes were read and how many ticks begun. It is shown if standard error is a terminal and the input is
/// long, each line in the place of the one before.
#[derive(Drop)]
pub(crate) struct Progress<'h, E> {
    rt: &'h E,
    is_shown: bool,
    read: AtomicUsize,
    ticks: AtomicUsize,
}

impl<'h, E: Eprint> Progress<'h, E> {
    /// Nothing was read yet.
    pub(crate) fn new(rt: &'h E, terminal: &impl IsTerminal) -> Progress<'h, E> {
        Progress {
            rt,
            is_shown: terminal.is_terminal(),
            read: AtomicUsize::new(0),
            ticks: AtomicUsize::new(0),
        }
    }

    fn is_long(&self) -> bool {
        self.is_shown && self.read.load(Ordering::SeqCst) >= WORTH_TELLING
    }

    /// This many bytes more were read.
    fn add_bytes(&self, count: usize) {
        let before = self.read.fetch_add(count, Ordering::SeqCst);
        let now = before.wrapping_add(count);
        if now / BYTES_A_LINE != before / BYTES_A_LINE && self.is_long() {
            let _told = eprint!(self.rt; "\r{} MiB read", now / BYTES_A_LINE);
        }
    }

    /// One tick more has begun.
    fn add_tick(&self) {
        let ticks = self.ticks.fetch_add(1, Ordering::SeqCst).wrapping_add(1);
        if ticks % TICKS_A_LINE == 0 && self.is_long() {
            let read = self.read.load(Ordering::SeqCst);
            let _told = eprint!(self.rt;
                "\r{} MiB read, {} ticks replayed",
                read / BYTES_A_LINE,
                ticks
            );
        }
    }

    /// Clears the line, so that the next output is on a line of its own.
    pub(crate) fn clear(&self) {
        if self.is_long() {
            let _told = eprint!(self.rt; "\r\x1b[K");
        }
    }
}

/// It counts a tick by the first of its updates.
impl<E: Eprint + Sync> Gate for Progress<'_, E> {
    ghost use Rattle.std.specs.Prelude.{false};

    ghost may_wait = { λ _. false };

    fn waits(&self) -> bool {
        false
    }

    fn update(&self, piece: &mut PodPiece) -> Result<(), AllocError> {
        // The gate counts, so that no contract and no byte of a report changes by it.
        // (docs/decisions/program.md)
        if piece.status().number == 0 {
            self.add_tick();
        }
        piece.update_in_place()
    }
}

/// A reader whose bytes are counted.
#[derive(Drop)]
pub(crate) struct Input<'p, E, R: Drop> {
    progress: &'p Progress<'p, E>,
    inner: R,
}

impl<'p, E, R: Drop> Input<'p, E, R> {
    pub(crate) fn new(progress: &'p Progress<'p, E>, inner: R) -> Input<'p, E, R>
        ensures { result.inner ≡ inner }
    {
        Input { progress, inner }
    }
}

impl<E: Eprint, R: Read + Drop> Read for Input<'_, E, R> {
    ghost remaining = { λ s. R.remaining s.inner };

    fn read(&mut self, buffer: &mut [u8]) -> io::Result<usize> {
        let count = self.inner.read(buffer)?;
        self.progress.add_bytes(count);
        Ok(count)
    }
}

/// A writer before whose first bytes the line of progress goes.
#[derive(Drop)]
pub(crate) struct Output<'p, E, W: Drop> {
    progress: &'p Progress<'p, E>,
    inner: W,
    has_begun: bool,
}

impl<'p, E, W: Drop> Output<'p, E, W> {
    pub(crate) fn new(progress: &'p Progress<'p, E>, inner: W) -> Output<'p, E, W> {
        Output {
            progress,
            inner,
            has_begun: false,
        }
    }
}

impl<E: Eprint, W: Write + Drop> Write for Output<'_, E, W> {
    ghost contents = { λ s. W.contents s.inner };

    fn write(&mut self, bytes: &[u8]) -> io::Result<usize> {
        if !self.has_begun {
            self.progress.clear();
            self.has_begun = true;
        }
        self.inner.write(bytes)
    }

    fn flush(&mut self) -> io::Result<()> {
        self.inner.flush()
    }
}
