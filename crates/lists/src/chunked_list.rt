//! A list in chunks.

ghost use Rattle.std.specs.Prelude.{◌≡◌, ◌<◌, ◌≤◌, ◌++◌, ◌∷◌, [], length, get_or, OnOk, OnErr};
ghost use Rattle.lists.specs.state.Chunks.{chunk_length, joined, AreFull};

use std::alloc::{AllocError, Global};
use std::marker::Model;
use std::mem;

/// How many items a chunk has.
const CHUNK: usize = 64;

/// The item at the place of full chunks and a last one.
fn item_at<'a, T>(full: &'a [Vec<T>], last: &'a [T], place: usize) -> &'a T
    requires full { AreFull full.now }
    requires fits { length last.now ≤ chunk_length }
    requires within { place < length (joined full.now last.now) }
    ensures { result.now ≡ get_or (joined full.now last.now) place result.now }
{
    let (chunk, within) = (place / CHUNK, place % CHUNK);
    if chunk < full.len() {
        &full[chunk][within]
    } else {
        &last[within]
    }
}

/// Makes room for one item more in the last chunk. An `Err` changes nothing.
fn make_room<T: Drop>(
    alloc: Global,
    full: &mut Vec<Vec<T>>,
    last: &mut Vec<T>,
) -> Result<(), AllocError>
    requires full { AreFull full.old.items }
    requires fits { length last.old.items ≤ chunk_length }
    ensures same { joined full.new.items last.new.items ≡ joined full.old.items last.old.items }
    ensures full { AreFull full.new.items }
    ensures fits { length last.new.items ≤ chunk_length }
    ensures room { OnOk result (length last.new.items < chunk_length) }
{
    if last.len() < CHUNK {
        return Ok(());
    }
    full.reserve(1)?;
    let next = Vec::with_capacity(alloc, CHUNK)?;
    full.push_reserved(mem::replace(last, next));
    Ok(())
}

/// A list that only grows. It grows by chunks of 64 items: a growth moves no item, and room is kept for fewer than 64
/// items to come. Contracts see the list of its items.
#[derive(Drop)]
pub struct ChunkedList<T: Drop> {
    alloc: Global,
    full: Vec<Vec<T>>,
    last: Vec<T>,
    length: usize,
}

impl<T: Drop> Model for ChunkedList<T> {
    ghost use Rattle.std.specs.Prelude.{List};
    ghost use Rattle.lists.specs.state.Chunks.{joined, AreChunks};

    ghost Value = { List T };

    ghost view = { λ l. joined l.full.items l.last.items };

    ghost invariant = { λ l. AreChunks l.full.items l.last.items l.length };
}

impl<T: Drop> ChunkedList<T> {
    /// No items. It takes no memory.
    pub fn new(alloc: Global) -> ChunkedList<T>
        ensures { result ≡ [] }
    {
        ChunkedList {
            alloc,
            full: Vec::new(alloc),
            last: Vec::new(alloc),
            length: 0,
        }
    }

    /// How many items there are.
    pub fn len(&self) -> usize
        ensures { result ≡ length self.now }
    {
        self.length
    }

    /// The item at the place, counted from 0.
    pub fn at(&self, place: usize) -> &T
        requires { place < length self.now }
        ensures { result.now ≡ get_or self.now place result.now }
    {
        item_at(&self.full, &self.last, place)
    }

    /// Adds an item at the end. An `Err` changes nothing.
    pub fn push(&mut self, item: T) -> Result<(), AllocError>
        ensures ok { OnOk result (self.new ≡ self.old ++ item ∷ []) }
        ensures err { OnErr result (self.new ≡ self.old) }
    {
        let Some(length) = self.length.checked_add(1) else {
            // no memory holds items whose number no usize holds
            return Err(AllocError);
        };
        make_room(self.alloc, &mut self.full, &mut self.last)?;
        self.last.push(item)?;
        self.length = length;
        Ok(())
    }
}
