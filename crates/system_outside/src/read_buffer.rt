//! The bytes that a link has received and its callers haven't taken yet.
ghost use Rattle.std.specs.Prelude.{◌≡◌, ◌<◌, ◌++◌, ◌↔◌, [], length, take, IsTrue, IfOk, OnOk, OnErr};
ghost use Rattle.std.specs.Io.KnownBytes.{Consumes};
ghost use Rattle.link_traits.specs.Link.{IsWithin};

use crate::transfer::read_some;
use plain_data::OutOfMemory;
use std::alloc::Global;
use std::io;
use std::io::Read;
use std::marker::Model;

/// How many bytes a link asks its connection for at once.
pub(crate) const READ_SIZE: usize = 65_536;

/// Bytes that were received and are not taken yet. Contracts see the list of them.
#[derive(Drop)]
pub(crate) struct ReadBuffer {
    bytes: Vec<u8>,
    start: usize,
    end: usize,
}

impl Model for ReadBuffer {
    ghost use Rattle.std.specs.Prelude.{◌≡◌, ◌≤◌, ◌-◌, ℕ, List, take, drop, vec_len};
    ghost use Rattle.std.specs.Coded.{coded_list, coded_ℕ};

    ghost Value = { List ℕ };

    ghost coded = { coded_list coded_ℕ };

    ghost view = { λ b. take (b.end - b.start) (drop b.start b.bytes.items) };

    ghost invariant = { λ b. (vec_len b.bytes ≡ 65536) × (b.start ≤ b.end) × (b.end ≤ 65536) };
}

impl ReadBuffer {
    /// A buffer in which nothing waits. It is refused only for want of memory.
    pub(crate) fn new(alloc: Global) -> Result<ReadBuffer, OutOfMemory>
        ensures { IfOk result (λ made. made ≡ []) }
    {
        Ok(ReadBuffer {
            bytes: vec![in alloc; 0; READ_SIZE]?,
            start: 0,
            end: 0,
        })
    }

    /// Whether nothing waits. Takes no memory.
    pub(crate) fn is_empty(&self) -> bool
        ensures { IsTrue result ↔ (self.now ≡ []) }
    {
        self.start == self.end
    }

    /// Receives some bytes by one read. Its condition is that nothing waits. Takes no memory.
    pub(crate) fn refill<R: Read>(&mut self, from: &mut R) -> io::Result<()>
        requires { self.old ≡ [] }
        ensures some { OnOk result (0 < length self.new) }
        ensures bytes { OnOk result
            (Consumes (R.remaining from.old) (R.remaining from.new) self.new) }
        ensures err { OnErr result (self.new ≡ []) }
    {
        let count = read_some(from, self.bytes.as_mut_slice())?;
        self.start = 0;
        self.end = count;
        Ok(())
    }

    /// Takes bytes off the front, as many as wait and fit. Takes no memory.
    pub(crate) fn take_front(&mut self, into: &mut [u8]) -> usize
        requires some { 0 < length self.old }
        requires room { 0 < length into.old }
        ensures within { IsWithin into.new result }
        ensures bytes { self.old ≡ take result into.new ++ self.new }
    {
        let waiting = &self.bytes[self.start..self.end];
        let count = waiting.len().min(into.len());
        into[..count].copy_from_slice(&waiting[..count]);
        self.start += count;
        count
    }
}
