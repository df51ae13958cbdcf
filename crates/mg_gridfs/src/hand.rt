//! The bytes of a file that were received and not given.
ghost use Rattle.std.specs.Prelude.{◌≡◌, ◌↔◌, ◌++◌, ◌≤◌, ◌<◌, ◌+◌, ◌-◌, [], IsTrue, OnErr, OnOk, None, drop, length, min, take};
ghost use Rattle.mg_cursor.specs.View.{behind_of, current_of};
ghost use Rattle.mg_gridfs.specs.DownloadView.{AreLater, HoldsBytes, IsLater, IsPassed, bytes_in, bytes_of, data_in, front_in, hand_of, rest_of};

use mg_bson::RawDocument;
use mg_chunks::data_of;
use mg_cursor::BatchBuffer;
use std::alloc::{AllocError, Global};
use std::collections::VecDeque;
use std::mem;

// Batches of chunks, in the replies that they came in. A byte is copied once: as it is given. A batch that was given is let go.
pub(crate) struct Hand {
    batch: BatchBuffer,
    // How many bytes of the current chunk were given.
    given: usize,
    // The batches behind it, which are there where a read has room for more than one.
    later: VecDeque<BatchBuffer>,
}

// By hand, so that letting one go is one call.
impl Drop for Hand {
    fn drop(self) {
        let Hand {
            batch: _,
            given: _,
            later: _,
        } = self;
    }
}

// The bytes of a chunk; none where it is none.
fn data_in<'a>(chunk: &RawDocument<'a>) -> &'a [u8]
    ensures { result.now ≡ data_in chunk.now }
{
    match data_of(chunk) {
        Some(bytes) => bytes,
        None => &[],
    }
}

// The bytes of the current chunk of a batch.
fn front_in(batch: &BatchBuffer) -> &[u8]
    ensures { result.now ≡ front_in batch.now }
{
    match batch.current() {
        Some(chunk) => data_in(&chunk),
        None => &[],
    }
}

// Those from this place on.
fn from(bytes: &[u8], given: usize) -> &[u8]
    requires { given ≤ length bytes.now }
    ensures { result.now ≡ drop given bytes.now }
{
    &bytes[given..]
}

// Copies as many bytes as fit into the room from this place on.
fn copy_front(bytes: &[u8], room: &mut [u8], at: usize) -> usize
    requires { at ≤ length room.old }
    ensures count { result ≡ min (length bytes.now) (length room.old - at) }
    ensures copied { room.new ≡ take at room.old ++ (take result bytes.now ++ drop (at + result) room.old) }
{
    let count = bytes.len().min(room.len() - at);
    room[at..at + count].copy_from_slice(&bytes[..count]);
    count
}

impl Hand {
    // Nothing is in it. It takes no memory.
    pub(crate) fn new(alloc: Global) -> Hand
        ensures empty { hand_of result ≡ [] }
        ensures holds { HoldsBytes result }
    {
        let batch = BatchBuffer::new();
        let later = VecDeque::new(alloc);
        Hand {
            batch,
            given: 0,
            later,
        }
    }

    // Whether nothing is in it.
    pub(crate) fn is_empty(&self) -> bool
        requires { HoldsBytes self.now }
        ensures { IsTrue result ↔ (hand_of self.now ≡ []) }
    {
        match self.batch.current() {
            Some(_chunk) => false,
            None => true,
        }
    }

    // Takes a batch of chunks behind those that it holds. Where memory runs out it holds what it held.
    pub(crate) fn take(&mut self, batch: BatchBuffer) -> Result<(), AllocError>
        requires holds { HoldsBytes self.old }
        requires later { IsLater batch }
        ensures ok { OnOk result (hand_of self.new ≡ hand_of self.old ++ bytes_in batch) }
        ensures same { OnErr result (hand_of self.new ≡ hand_of self.old) }
        ensures keeps { HoldsBytes self.new }
    {
        if self.is_empty() {
            self.begin(batch);
            return Ok(());
        }
        match self.later.push_back(batch) {
            Ok(()) => Ok(()),
            Err(_refused) => Err(AllocError),
        }
    }

    // Gives as many bytes as there is room for.
    pub(crate) fn give(&mut self, room: &mut [u8]) -> usize
        requires { HoldsBytes self.old }
        ensures count { result ≡ min (length room.old) (length (hand_of self.old)) }
        ensures given { room.new ≡ take result (hand_of self.old) ++ drop result room.old }
        ensures left { hand_of self.new ≡ drop result (hand_of self.old) }
        ensures keeps { HoldsBytes self.new }
    {
        let mut filled = 0;
        'chunks: while filled < room.len() {
            let (bytes, whole) = self.front();
            let count = copy_front(bytes, room, filled);
            if count == 0 {
                return filled;
            }
            self.pass(count, whole);
            filled += count;
        }
        filled
    }

    // Begins with a batch, where nothing is in it.
    fn begin(&mut self, batch: BatchBuffer)
        requires given { self.old.given ≡ 0 }
        requires later { AreLater self.old.later.items }
        requires batch { IsLater batch }
        ensures begun { hand_of self.new ≡ bytes_in batch ++ bytes_of self.old.later.items }
        ensures keeps { HoldsBytes self.new }
    {
        drop(mem::replace(&mut self.batch, batch));
        self.batch.advance();
    }

    // What is left of the current chunk, and how long it is as a whole.
    fn front(&self) -> (&[u8], usize)
        requires { HoldsBytes self.now }
        ensures left { result.0.now ≡ drop self.now.given (front_in self.now.batch) }
        ensures whole { result.1 ≡ length (front_in self.now.batch) }
    {
        let chunk = front_in(&self.batch);
        (from(chunk, self.given), chunk.len())
    }

    // So many bytes of the current chunk, which has this length, were given.
    fn pass(&mut self, count: usize, whole: usize)
        requires holds { HoldsBytes self.old }
        requires whole { whole ≡ length (front_in self.old.batch) }
        requires there { count ≤ length (drop self.old.given (front_in self.old.batch)) }
        ensures left { hand_of self.new ≡ drop count (hand_of self.old) }
        ensures keeps { HoldsBytes self.new }
    {
        let at = self.given + count;
        if at < whole {
            self.given = at;
            return;
        }
        self.given = 0;
        self.advance();
    }

    // Goes on to the next chunk.
    fn advance(&mut self)
        requires given { self.old.given ≡ 0 }
        requires passed { IsPassed self.old }
        ensures left { hand_of self.new ≡ rest_of self.old }
        ensures keeps { HoldsBytes self.new }
    {
        if self.batch.advance() {
            return;
        }
        self.turn();
    }

    // Goes on to the next batch.
    fn turn(&mut self)
        requires given { self.old.given ≡ 0 }
        requires current { current_of self.old.batch ≡ None }
        requires behind { behind_of self.old.batch ≡ [] }
        requires later { AreLater self.old.later.items }
        ensures left { hand_of self.new ≡ bytes_of self.old.later.items }
        ensures keeps { HoldsBytes self.new }
    {
        match self.later.pop_front() {
            Some(batch) => self.begin(batch),
            None => {}
        }
    }
}
