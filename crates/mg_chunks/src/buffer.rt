//! Bytes that are cut into chunks as they are taken.
ghost use Rattle.std.specs.Prelude.{◌≡◌, ◌++◌, ◌∷◌, ◌+◌, ◌<◌, ◌≤◌, [], IfOk, IfSome, IfNone, OnErr, OnOk, length};
ghost use Rattle.std.specs.VecDeque.{deque_capacity, deque_len};
ghost use Rattle.mg_chunks.specs.Buffers.{HasRoomForCut, HoldsCut, IsCutOf, full_of, held_of, items_of, rest_of, size_of};

use std::alloc::{AllocError, Global};
use std::collections::VecDeque;
use std::mem;

/// Bytes that were taken: full chunks, and less than one behind them. Each byte is copied into its chunk as it is taken, and moves with
/// the chunk from then on.
pub struct Buffer {
    alloc: Global,
    size: usize,
    full: VecDeque<Vec<u8>>,
    rest: Vec<u8>,
}

// By hand, so that letting one go is one call.
impl Drop for Buffer {
    fn drop(self) {
        let Buffer {
            alloc: _,
            size: _,
            full: _,
            rest: _,
        } = self;
    }
}

// Bytes in full chunks, and what is left of them.
#[derive(Drop)]
struct Cut {
    full: VecDeque<Vec<u8>>,
    rest: Vec<u8>,
}

// Copies the bytes into chunks of this size.
fn in_chunks(alloc: Global, size: usize, bytes: &[u8]) -> Result<Cut, AllocError>
    requires { 0 < size }
    ensures { IfOk result (λ c. IsCutOf size bytes.now c) }
{
    let mut full = VecDeque::new(alloc);
    let mut left = bytes;
    'chunks: while left.len() >= size {
        let (front, behind) = left.split_at(size);
        let chunk = Vec::from_slice(alloc, front)?;
        full.push_back(chunk)?;
        left = behind;
    }
    let rest = Vec::from_slice(alloc, left)?;
    Ok(Cut { full, rest })
}

// Puts a chunk behind others that have room for it.
fn push_reserved(chunks: &mut VecDeque<Vec<u8>>, added: Vec<u8>)
    requires { deque_len chunks.old < deque_capacity chunks.old }
    ensures items { chunks.new.items ≡ chunks.old.items ++ added ∷ [] }
    ensures len { deque_len chunks.new ≡ deque_len chunks.old + 1 }
    ensures capacity { deque_capacity chunks.new ≡ deque_capacity chunks.old }
{
    match chunks.push_back(added) {
        Ok(()) => {}
        Err(_) => unreachable!(),
    }
}

// Puts chunks behind others that have room for them.
fn append_reserved(chunks: &mut VecDeque<Vec<u8>>, more: &mut VecDeque<Vec<u8>>)
    requires { deque_len chunks.old + deque_len more.old ≤ deque_capacity chunks.old }
    ensures { chunks.new.items ≡ chunks.old.items ++ more.old.items }
{
    match chunks.append(more) {
        Ok(()) => {}
        Err(_) => unreachable!(),
    }
}

impl Buffer {
    /// Nothing was taken. It takes no memory.
    pub fn new(alloc: Global, size: usize) -> Buffer
        requires { 0 < size }
        ensures held { held_of result ≡ [] }
        ensures size { size_of result ≡ size }
        ensures cut { HoldsCut result }
    {
        Buffer {
            alloc,
            size,
            full: VecDeque::new(alloc),
            rest: Vec::new(alloc),
        }
    }

    /// Takes bytes behind those that it holds. Where memory runs out it takes none.
    pub fn take(&mut self, bytes: &[u8]) -> Result<(), AllocError>
        requires { HoldsCut self.old }
        ensures ok { OnOk result (held_of self.new ≡ held_of self.old ++ bytes.now) }
        ensures same { OnErr result (held_of self.new ≡ held_of self.old) }
        ensures size { size_of self.new ≡ size_of self.old }
        ensures keeps { HoldsCut self.new }
    {
        let begun = self.rest_len();
        let room = self.size - begun;
        let len = bytes.len();
        if len < room {
            self.rest.extend_from_slice(bytes)?;
            return Ok(());
        }
        let (first, behind) = bytes.split_at(room);
        self.fill(first, behind)
    }

    // Takes bytes that fill the chunk that was begun, and others behind them.
    fn fill(&mut self, first: &[u8], behind: &[u8]) -> Result<(), AllocError>
        requires cut { HoldsCut self.old }
        requires filled { length self.old.rest.items + length first.now ≡ self.old.size }
        ensures ok { OnOk result (held_of self.new ≡ held_of self.old ++ (first.now ++ behind.now)) }
        ensures same { OnErr result (held_of self.new ≡ held_of self.old) }
        ensures size { size_of self.new ≡ size_of self.old }
        ensures keeps { HoldsCut self.new }
    {
        let added = in_chunks(self.alloc, self.size, behind)?;
        let held = added.full.len();
        let places = held + 1;
        self.full.reserve(places)?;
        self.rest.extend_from_slice(first)?;
        self.add(added);
        Ok(())
    }

    // The chunk that was begun is full, and more stand behind it. There is room for them.
    fn add(&mut self, added: Cut)
        requires { HasRoomForCut self.old added }
        ensures full { items_of self.new.full.items ≡ items_of self.old.full.items ++ self.old.rest.items ∷ items_of added.full.items }
        ensures rest { self.new.rest.items ≡ added.rest.items }
        ensures size { size_of self.new ≡ size_of self.old }
    {
        let Cut { mut full, rest } = added;
        let begun = mem::replace(&mut self.rest, rest);
        push_reserved(&mut self.full, begun);
        append_reserved(&mut self.full, &mut full);
    }

    /// The first full chunk.
    pub fn pop(&mut self) -> Option<Vec<u8>>
        requires { HoldsCut self.old }
        ensures some { IfSome result (λ chunk. (held_of self.old ≡ chunk.items ++ held_of self.new) × (length chunk.items ≡ size_of self.old)) }
        ensures none { IfNone result ((held_of self.new ≡ held_of self.old) × (length (held_of self.old) < size_of self.old)) }
        ensures size { size_of self.new ≡ size_of self.old }
        ensures keeps { HoldsCut self.new }
    {
        self.full.pop_front()
    }

    /// How many full chunks it holds.
    pub fn full_chunks(&self) -> usize
        ensures { result ≡ length (full_of self.now) }
    {
        self.full.len()
    }

    /// How many bytes are left behind the full chunks.
    pub fn rest_len(&self) -> usize
        ensures { result ≡ length (rest_of self.now) }
    {
        self.rest.len()
    }

    /// What is left behind the full chunks, of which there are none.
    pub fn take_rest(&mut self) -> Vec<u8>
        requires cut { HoldsCut self.old }
        requires none { full_of self.old ≡ [] }
        ensures taken { result.items ≡ held_of self.old }
        ensures left { held_of self.new ≡ [] }
        ensures size { size_of self.new ≡ size_of self.old }
        ensures keeps { HoldsCut self.new }
    {
        mem::replace(&mut self.rest, Vec::new(self.alloc))
    }
}
