//! Cases of a folder in memory, and of the shelf of it that is out.

use crate::shelf_cases::ShelfCases;
use crate::words::{bytes_of, first_word, numbers_of, or_nothing, said, said_of, spelled};
use link_traits::{Folder, FolderFailed, ListFault};
use memory_outside::MemoryFolder;
use plain_data::{NameList, NumberList, OutOfMemory};
use std::alloc::Global;
use std::marker::Model;

/// A folder, and its shelf while one is out.
#[derive(Drop)]
pub struct FolderCases {
    alloc: Global,
    folder: MemoryFolder,
    shelf: Option<ShelfCases>,
}

impl Model for FolderCases {
    ghost use Rattle.std.specs.Prelude.{◌≡◌, is_some, if◌then◌else◌};
    ghost use Rattle.memory_outside.specs.Memory.{FolderState};

    ghost Value = { FolderState };

    ghost view = { λ f. f.folder };

    ghost invariant = { λ f. f.folder.out ≡ (if is_some f.shelf then 1 else 0) };
}

impl FolderCases {
    /// An empty folder.
    pub fn new(alloc: Global) -> FolderCases {
        FolderCases {
            alloc,
            folder: MemoryFolder::new(alloc, NumberList::new(alloc)),
            shelf: None,
        }
    }

    /// What comes of a call of the folder.
    pub fn answer(&mut self, call: &str, words: &str) -> Result<String, OutOfMemory> {
        match call {
            "new" => self.begin(words),
            "aim" => self.aim(words),
            "put" => self.put(words),
            "file" => self.file(words),
            "list" => self.list(),
            "rename" => self.rename(words),
            "shelf" => self.shelf(),
            "take_back" => self.take_back(),
            _ => said(self.alloc, "no call"),
        }
    }

    /// What comes of a call of the shelf that is out.
    pub fn answer_shelf(&mut self, call: &str, words: &str) -> Result<String, OutOfMemory> {
        match &mut self.shelf {
            Some(shelf) => shelf.answer(call, words),
            None => said(self.alloc, "no shelf"),
        }
    }

    // Begins a folder of which these calls fail.
    fn begin(&mut self, words: &str) -> Result<String, OutOfMemory> {
        self.folder = MemoryFolder::new(self.alloc, numbers_of(self.alloc, words)?);
        self.shelf = None;
        said(self.alloc, "a folder")
    }

    fn aim(&mut self, path: &str) -> Result<String, OutOfMemory> {
        self.folder.aim(path)?;
        said(self.alloc, "aimed")
    }

    fn put(&mut self, words: &str) -> Result<String, OutOfMemory> {
        if self.shelf.is_some() {
            return said(self.alloc, "a shelf is out");
        }
        let (name, bytes) = first_word(words);
        let bytes = bytes_of(self.alloc, bytes)?;
        self.folder.put(name, &bytes)?;
        said(self.alloc, "put")
    }

    fn file(&self, name: &str) -> Result<String, OutOfMemory> {
        match self.folder.file(name) {
            Some(bytes) => spelled(self.alloc, bytes),
            None => said(self.alloc, "no file"),
        }
    }

    fn list(&mut self) -> Result<String, OutOfMemory> {
        match self.folder.list() {
            Ok(names) => listed(self.alloc, &names),
            Err(ListFault::Failed) => said(self.alloc, "failed"),
            Err(ListFault::OutOfMemory) => Err(OutOfMemory),
        }
    }

    fn rename(&mut self, words: &str) -> Result<String, OutOfMemory> {
        let (from, to) = first_word(words);
        said_of(self.alloc, self.folder.rename(from, to).is_ok(), "renamed")
    }

    fn shelf(&mut self) -> Result<String, OutOfMemory> {
        if self.shelf.is_some() {
            return said(self.alloc, "a shelf is out");
        }
        match self.folder.shelf() {
            Ok(shelf) => {
                self.shelf = Some(ShelfCases::of(self.alloc, shelf));
                said(self.alloc, "a shelf")
            }
            Err(FolderFailed) => said(self.alloc, "failed"),
        }
    }

    fn take_back(&mut self) -> Result<String, OutOfMemory> {
        let Some(shelf) = self.shelf.take() else {
            return said(self.alloc, "no shelf");
        };
        if self.folder.has_any_of(shelf.shelf()) {
            self.shelf = Some(shelf);
            return said(self.alloc, "a name is there");
        }
        self.folder.take_back(shelf.close());
        said(self.alloc, "taken back")
    }
}

// The names, with bars between them.
fn listed(alloc: Global, names: &NameList) -> Result<String, OutOfMemory> {
    let mut words = String::new(alloc);
    for name in names.as_slice() {
        words.push_str(name.as_str())?;
        words.push('|')?;
    }
    or_nothing(words)
}
