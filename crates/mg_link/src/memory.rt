//! Ends over memory, with the numbers of the calls that are to fail.
ghost use Rattle.std.specs.Prelude.{◌≡◌, ◌<◌, ◌≤◌, vec_len};

use crate::ends::{ReadFailed, Sink, Source, WriteFailed};
use std::alloc::Global;

/// A source over bytes in memory, which are read a piece at a time.
#[derive(Drop)]
pub struct MemSource {
    pub(crate) bytes: Vec<u8>,
    pub(crate) at: usize,
    pub(crate) piece: usize,
    pub(crate) failing: Vec<u64>,
    pub(crate) calls: u64,
    pub(crate) faults: u64,
    ghost some: { 0 < piece },
    ghost within: { at ≤ vec_len bytes },
}

impl MemSource {
    ghost use Rattle.std.specs.Prelude.{◌≡◌, ◌<◌};
    ghost use Rattle.mg_link.specs.Memory.{source_faults, source_left};

    /// A source that gives at most `piece` bytes a call, and fails the calls of these numbers, from 0.
    pub fn new(bytes: Vec<u8>, piece: u32, failing: Vec<u64>) -> MemSource
        requires { 0 < piece }
        ensures left { source_left result ≡ bytes.items }
        ensures faults { source_faults result ≡ 0 }
    {
        MemSource {
            bytes,
            at: 0,
            piece: piece as usize,
            failing,
            calls: 0,
            faults: 0,
        }
    }
}

impl Source for MemSource {
    ghost use Rattle.std.specs.Prelude.{Some};
    ghost use Rattle.mg_link.specs.Memory.{source_faults, source_left};

    ghost left = { λ s. Some (source_left s) };

    ghost faults = { source_faults };

    fn read(&mut self, buf: &mut [u8]) -> Result<usize, ReadFailed> {
        let call = self.calls;
        self.calls = self.calls.saturating_add(1);
        if self.failing.contains(&call) {
            self.faults = self.faults.saturating_add(1);
            return Err(ReadFailed);
        }
        let rest = &self.bytes[self.at..];
        let count = rest.len().min(buf.len()).min(self.piece);
        buf[..count].copy_from_slice(&rest[..count]);
        self.at += count;
        Ok(count)
    }
}

/// A sink that keeps what is written, a piece at a time. Want of memory is a fault.
#[derive(Drop)]
pub struct MemSink {
    pub(crate) bytes: Vec<u8>,
    pub(crate) piece: usize,
    pub(crate) failing: Vec<u64>,
    pub(crate) calls: u64,
    pub(crate) faults: u64,
    ghost some: { 0 < piece },
}

impl MemSink {
    ghost use Rattle.std.specs.Prelude.{◌≡◌, ◌<◌, []};
    ghost use Rattle.mg_link.specs.Memory.{sink_faults, sink_taken};

    /// An empty sink that takes at most `piece` bytes a call, and fails the calls of these numbers, from 0.
    pub fn new(alloc: Global, piece: u32, failing: Vec<u64>) -> MemSink
        requires { 0 < piece }
        ensures taken { sink_taken result ≡ [] }
        ensures faults { sink_faults result ≡ 0 }
    {
        MemSink {
            bytes: Vec::new(alloc),
            piece: piece as usize,
            failing,
            calls: 0,
            faults: 0,
        }
    }

    /// What was taken, handed back.
    pub fn into_bytes(self) -> Vec<u8>
        ensures { result.items ≡ sink_taken self }
    {
        self.bytes
    }

    /// What was taken.
    pub fn bytes(&self) -> &[u8]
        ensures { result.now ≡ sink_taken self.now }
    {
        self.bytes.as_slice()
    }
}

impl Sink for MemSink {
    ghost use Rattle.std.specs.Prelude.{Some};
    ghost use Rattle.mg_link.specs.Memory.{sink_faults, sink_taken};

    ghost taken = { λ s. Some (sink_taken s) };

    ghost faults = { sink_faults };

    fn write(&mut self, bytes: &[u8]) -> Result<usize, WriteFailed> {
        let call = self.calls;
        self.calls = self.calls.saturating_add(1);
        if self.failing.contains(&call) {
            self.faults = self.faults.saturating_add(1);
            return Err(WriteFailed);
        }
        let count = bytes.len().min(self.piece);
        match self.bytes.extend_from_slice(&bytes[..count]) {
            Ok(()) => Ok(count),
            Err(_) => {
                self.faults = self.faults.saturating_add(1);
                Err(WriteFailed)
            }
        }
    }
}
