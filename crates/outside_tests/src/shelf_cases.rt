//! Cases of a shelf in memory.

use crate::words::{bytes_of, said, said_of, spelled};
use link_traits::{FolderFailed, Shelf};
use memory_outside::MemoryShelf;
use plain_data::OutOfMemory;
use std::alloc::Global;
use std::marker::Model;

/// A shelf, and whether a file is begun on it, and one open.
#[derive(Drop)]
pub struct ShelfCases {
    alloc: Global,
    shelf: MemoryShelf,
    is_begun: bool,
    is_open: bool,
}

impl Model for ShelfCases {
    ghost use Rattle.std.specs.Prelude.{◌≡◌, is_some};
    ghost use Rattle.memory_outside.specs.Memory.{ShelfState};

    ghost Value = { ShelfState };

    ghost view = { λ s. s.shelf };

    ghost invariant = { λ s. (is_some s.shelf.begun ≡ s.is_begun) × (is_some s.shelf.opened ≡ s.is_open) };
}

impl ShelfCases {
    ghost use Rattle.std.specs.Prelude.{◌≡◌, is_some, false};

    /// A shelf on which nothing is begun, and nothing open.
    pub fn of(alloc: Global, shelf: MemoryShelf) -> ShelfCases
        requires none_begun { is_some shelf.begun ≡ false }
        requires none_open { is_some shelf.opened ≡ false }
    {
        ShelfCases {
            alloc,
            shelf,
            is_begun: false,
            is_open: false,
        }
    }

    /// The shelf.
    pub fn shelf(&self) -> &MemoryShelf
        ensures { result.now ≡ self.now }
    {
        &self.shelf
    }

    /// The shelf, which comes back.
    pub fn close(self) -> MemoryShelf
        ensures { result ≡ self }
    {
        let ShelfCases {
            alloc: _,
            shelf,
            is_begun: _,
            is_open: _,
        } = self;
        shelf
    }

    /// What comes of a call.
    pub fn answer(&mut self, call: &str, words: &str) -> Result<String, OutOfMemory> {
        match call {
            "create" => self.create(words),
            "append" => self.append(words),
            "finish" => self.finish(),
            "open" => self.open(words),
            "read" => self.read(words),
            _ => said(self.alloc, "no call"),
        }
    }

    fn create(&mut self, name: &str) -> Result<String, OutOfMemory> {
        if self.is_begun {
            return said(self.alloc, "one is begun");
        }
        self.is_begun = self.shelf.create(name).is_ok();
        said_of(self.alloc, self.is_begun, "begun")
    }

    fn append(&mut self, words: &str) -> Result<String, OutOfMemory> {
        if !self.is_begun {
            return said(self.alloc, "none is begun");
        }
        let bytes = bytes_of(self.alloc, words)?;
        said_of(self.alloc, self.shelf.append(&bytes).is_ok(), "appended")
    }

    fn finish(&mut self) -> Result<String, OutOfMemory> {
        if !self.is_begun {
            return said(self.alloc, "none is begun");
        }
        self.is_begun = self.shelf.finish().is_err();
        said_of(self.alloc, !self.is_begun, "made")
    }

    fn open(&mut self, name: &str) -> Result<String, OutOfMemory> {
        match self.shelf.open(name) {
            Ok(found) => {
                self.is_open = found;
                said(self.alloc, if found { "open" } else { "no file" })
            }
            Err(FolderFailed) => said(self.alloc, "failed"),
        }
    }

    fn read(&mut self, room: &str) -> Result<String, OutOfMemory> {
        let mut buffer = vec![in self.alloc; 0; room.parse().unwrap_or(0)]?;
        if !self.is_open || buffer.is_empty() {
            return said(self.alloc, "none is open");
        }
        match self.shelf.read(buffer.as_mut_slice()) {
            Ok(0) => said(self.alloc, "the end"),
            Ok(count) => spelled(self.alloc, &buffer[..count]),
            Err(FolderFailed) => said(self.alloc, "failed"),
        }
    }
}
