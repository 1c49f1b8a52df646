//! Bytes with reserved room.
ghost use Rattle.std.specs.Prelude.{◌≡◌, ◌+◌, ◌<◌, ◌≤◌, [], ◌∷◌, ◌++◌, length, IfOk, IsOk, OnOk, OnErr};

use crate::memory::OutOfMemory;
use std::alloc::Global;
use std::marker::Model;

/// Bytes, and reserved room for more, which appending uses up without asking for memory.
///
/// The store is filled to its length with what was written and zeros, and a cursor says how much was written.
#[derive(Debug, Drop)]
pub struct Buffer {
    store: Vec<u8>,
    cursor: usize,
}

impl Model for Buffer {
    ghost use Rattle.std.specs.Prelude.{◌-◌, ◌≤◌, take, vec_len};
    ghost use Rattle.plain_data.specs.Buffer.{BufferView};

    ghost Value = { BufferView };

    ghost view = { λ b. record { bytes = take b.cursor b.store.items; spare = vec_len b.store - b.cursor } };

    ghost invariant = { λ b. b.cursor ≤ vec_len b.store };
}

impl Buffer {
    /// A buffer of no bytes and no room. Takes no memory.
    pub fn new(alloc: Global) -> Buffer
        ensures bytes { result.bytes ≡ [] }
        ensures spare { result.spare ≡ 0 }
    {
        Buffer {
            store: Vec::new(alloc),
            cursor: 0,
        }
    }

    /// A buffer of no bytes, with room for so many. It is refused only for want of memory; a buffer
    /// without room takes none.
    pub fn with_room(alloc: Global, room: usize) -> Result<Buffer, OutOfMemory>
        ensures ok { IfOk result (λ made. made ≡ record { bytes = []; spare = room }) }
        ensures none { room ≡ 0 → IsOk result }
    {
        let mut made = Buffer::new(alloc);
        if 0 < room {
            made.store.reserve_exact(room)?;
            made.store.resize(room, 0)?;
        }
        Ok(made)
    }

    /// Makes room for `more` further bytes, if there isn't yet. It is refused only for want of
    /// memory, and leaves the buffer as it was then. Where the room is there it takes no memory.
    pub fn reserve(&mut self, more: usize) -> Result<(), OutOfMemory>
        ensures bytes { self.new.bytes ≡ self.old.bytes }
        ensures room { OnOk result (more ≤ self.new.spare) }
        ensures grows { OnOk result (self.old.spare ≤ self.new.spare) }
        ensures enough { more ≤ self.old.spare → IsOk result × (self.new ≡ self.old) }
        ensures err { OnErr result (self.new ≡ self.old) }
    {
        let spare = self.store.len() - self.cursor;
        if more > spare {
            self.store.reserve(more - spare)?;
            let whole = self.store.capacity();
            self.store.resize(whole, 0)?;
        }
        Ok(())
    }

    /// Appends `bytes`. Takes no memory.
    #[inline]
    pub fn push(&mut self, bytes: &[u8])
        requires { length bytes.now ≤ self.old.spare }
        ensures bytes { self.new.bytes ≡ self.old.bytes ++ bytes.now }
        ensures spare { self.new.spare + length bytes.now ≡ self.old.spare }
    {
        let end = self.cursor + bytes.len();
        self.store[self.cursor..end].copy_from_slice(bytes);
        self.cursor = end;
    }

    /// Appends one byte. Takes no memory.
    #[inline]
    pub fn push_byte(&mut self, byte: u8)
        requires { 0 < self.old.spare }
        ensures bytes { self.new.bytes ≡ self.old.bytes ++ byte ∷ [] }
        ensures spare { self.new.spare + 1 ≡ self.old.spare }
    {
        self.store[self.cursor] = byte;
        self.cursor += 1;
    }

    /// Gives up its bytes, whose room can be used again. Takes no memory.
    pub fn clear(&mut self)
        ensures bytes { self.new.bytes ≡ [] }
        ensures spare { self.new.spare ≡ self.old.spare + length self.old.bytes }
    {
        self.cursor = 0;
    }

    /// Its bytes. Takes no memory.
    #[inline]
    pub fn as_slice(&self) -> &[u8]
        ensures { result.now ≡ self.now.bytes }
    {
        &self.store[..self.cursor]
    }

    /// How many bytes it has. Takes no memory.
    #[inline]
    pub fn len(&self) -> usize
        ensures { result ≡ length self.now.bytes }
    {
        self.cursor
    }

    /// How many further bytes it takes without asking for memory. Takes no memory.
    #[inline]
    pub fn spare(&self) -> usize
        ensures { result ≡ self.now.spare }
    {
        self.store.len() - self.cursor
    }
}
