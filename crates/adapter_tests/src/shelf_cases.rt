//! Cases of a shelf that writes into a directory.

use crate::trap_disk::TrapDisk;
use crate::words::{bytes_of, digits, number_of, said, said_of, spelled};
use link_traits::{FolderFailed, Shelf};
use std::alloc::Global;
use std::io;
use std::marker::Model;
use system_outside::DiskShelf;

/// A shelf, and whether a file is begun on it, and one open.
#[derive(Drop)]
pub struct ShelfCases {
    alloc: Global,
    shelf: DiskShelf<TrapDisk>,
    is_begun: bool,
    is_open: bool,
}

impl Model for ShelfCases {
    ghost use Rattle.std.specs.Prelude.{◌≡◌, is_some};
    ghost use Rattle.system_outside.specs.Status.{ShelfStatus};

    ghost Value = { ShelfStatus };

    ghost view = { λ s. s.shelf };

    ghost invariant = { λ s. (s.shelf.begun ≡ s.is_begun) × (is_some s.shelf.reading ≡ s.is_open) };
}

impl ShelfCases {
    ghost use Rattle.std.specs.Prelude.{◌≡◌, false, is_some};

    /// A shelf on which nothing is begun, and nothing open.
    pub fn of(alloc: Global, shelf: DiskShelf<TrapDisk>) -> ShelfCases
        requires none_begun { shelf.begun ≡ false }
        requires none_open { is_some shelf.reading ≡ false }
    {
        ShelfCases {
            alloc,
            shelf,
            is_begun: false,
            is_open: false,
        }
    }

    /// The shelf.
    pub fn close(self) -> DiskShelf<TrapDisk> {
        let ShelfCases {
            alloc: _,
            shelf,
            is_begun: _,
            is_open: _,
        } = self;
        shelf
    }

    /// What comes of a call.
    pub fn answer(&mut self, call: &str, words: &str) -> io::Result<String> {
        match call {
            "create" => self.create(words),
            "append" => self.append(words),
            "finish" => self.finish(),
            "open" => self.open(words),
            "read" => self.read(words),
            "faults" => digits(self.alloc, self.shelf.faults()),
            _ => said(self.alloc, "no call"),
        }
    }

    fn create(&mut self, name: &str) -> io::Result<String> {
        if self.is_begun {
            return said(self.alloc, "one is begun");
        }
        self.is_begun = self.shelf.create(name).is_ok();
        said_of(self.alloc, self.is_begun, "begun")
    }

    fn append(&mut self, words: &str) -> io::Result<String> {
        if !self.is_begun {
            return said(self.alloc, "none is begun");
        }
        let bytes = bytes_of(self.alloc, words)?;
        said_of(self.alloc, self.shelf.append(&bytes).is_ok(), "appended")
    }

    fn finish(&mut self) -> io::Result<String> {
        if !self.is_begun {
            return said(self.alloc, "none is begun");
        }
        self.is_begun = self.shelf.finish().is_err();
        said_of(self.alloc, !self.is_begun, "made")
    }

    fn open(&mut self, name: &str) -> io::Result<String> {
        match self.shelf.open(name) {
            Ok(found) => {
                self.is_open = found;
                said(self.alloc, if found { "open" } else { "no file" })
            }
            Err(FolderFailed) => said(self.alloc, "failed"),
        }
    }

    fn read(&mut self, room: &str) -> io::Result<String> {
        let mut buffer = vec![in self.alloc; 0; number_of(room) as usize]?;
        if !self.is_open || buffer.is_empty() {
            return said(self.alloc, "none is open");
        }
        match self.shelf.read(buffer.as_mut_slice()) {
            Ok(0) => said(self.alloc, "the end"),
            Ok(count) => spelled(self.alloc, &buffer[..count]),
            Err(FolderFailed) => said(self.alloc, "failed"),
        }
    }
}
