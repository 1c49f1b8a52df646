//! Cases of a directory, and of the shelf of it that is out.

use crate::shelf_cases::ShelfCases;
use crate::trap_disk::TrapDisk;
use crate::words::{digits, first_word, or_nothing, said, said_of};
use link_traits::{Folder, FolderFailed};
use plain_data::NameList;
use std::alloc::Global;
use std::marker::Model;
use std::os::unix::fs::MetadataExt;
use std::{fs, io};
use system_outside::DiskFolder;

/// A folder, and its shelf while one is out.
#[derive(Drop)]
pub struct DiskCases {
    rt: HostRuntime,
    folder: DiskFolder<TrapDisk>,
    shelf: Option<ShelfCases>,
}

impl Model for DiskCases {
    ghost use Rattle.std.specs.Prelude.{◌≡◌, is_some, if◌then◌else◌};
    ghost use Rattle.system_outside.specs.Status.{FolderStatus};

    ghost Value = { FolderStatus };

    ghost view = { λ d. d.folder };

    ghost invariant = { λ d. d.folder.out ≡ (if is_some d.shelf then 1 else 0) };
}

impl DiskCases {
    /// A folder that is still to be aimed.
    pub fn new(rt: HostRuntime) -> DiskCases {
        DiskCases {
            rt,
            folder: DiskFolder::new(TrapDisk::new(rt)),
            shelf: None,
        }
    }

    /// What comes of a call of the folder.
    pub fn answer(&mut self, call: &str, words: &str) -> io::Result<String> {
        match call {
            "new" => self.begin(),
            "aim" => self.aim(words),
            "list" => self.list(),
            "rename" => self.rename(words),
            "shelf" => self.shelf(),
            "take_back" => self.take_back(),
            "faults" => digits(self.rt.alloc(), self.folder.faults()),
            _ => said(self.rt.alloc(), "no call"),
        }
    }

    /// What comes of a call of the shelf that is out.
    pub fn answer_shelf(&mut self, call: &str, words: &str) -> io::Result<String> {
        match &mut self.shelf {
            Some(shelf) => shelf.answer(call, words),
            None => said(self.rt.alloc(), "no shelf"),
        }
    }

    /// What stands on the disk.
    pub fn answer_disk(&self, call: &str, path: &str) -> io::Result<String> {
        match call {
            "clear" => self.clear(path),
            "write" => self.write(path),
            "read" => fs::read_to_string(&self.rt, path),
            "is_dir" => self.is_dir(path),
            "mode" => self.mode(path),
            _ => said(self.rt.alloc(), "no call"),
        }
    }

    fn begin(&mut self) -> io::Result<String> {
        self.folder = DiskFolder::new(TrapDisk::new(self.rt));
        self.shelf = None;
        said(self.rt.alloc(), "a folder")
    }

    fn aim(&mut self, path: &str) -> io::Result<String> {
        let aimed = self.folder.aim(path).is_ok();
        said_of(self.rt.alloc(), aimed, "aimed")
    }

    fn list(&mut self) -> io::Result<String> {
        match self.folder.list() {
            Ok(names) => listed(self.rt.alloc(), &names),
            Err(fault) => Ok(format!(in self.rt.alloc(); "{fault}")?),
        }
    }

    fn rename(&mut self, words: &str) -> io::Result<String> {
        let (from, to) = first_word(words);
        let renamed = self.folder.rename(from, to).is_ok();
        said_of(self.rt.alloc(), renamed, "renamed")
    }

    fn shelf(&mut self) -> io::Result<String> {
        if self.shelf.is_some() {
            return said(self.rt.alloc(), "a shelf is out");
        }
        match self.folder.shelf() {
            Ok(shelf) => {
                self.shelf = Some(ShelfCases::of(self.rt.alloc(), shelf));
                said(self.rt.alloc(), "a shelf")
            }
            Err(FolderFailed) => said(self.rt.alloc(), "failed"),
        }
    }

    fn take_back(&mut self) -> io::Result<String> {
        let Some(shelf) = self.shelf.take() else {
            return said(self.rt.alloc(), "no shelf");
        };
        self.folder.take_back(shelf.close());
        said(self.rt.alloc(), "taken back")
    }

    // Takes away a directory, if there is one.
    fn clear(&self, path: &str) -> io::Result<String> {
        let _ = fs::remove_dir_all(&self.rt, path);
        said(self.rt.alloc(), "clear")
    }

    fn write(&self, path: &str) -> io::Result<String> {
        fs::write(&self.rt, path, "a file")?;
        said(self.rt.alloc(), "written")
    }

    // Who may do what with a file or a directory.
    fn mode(&self, path: &str) -> io::Result<String> {
        let mode = fs::metadata(&self.rt, path)?.mode() & 0o777;
        Ok(format!(in self.rt.alloc(); "{mode:o}")?)
    }

    fn is_dir(&self, path: &str) -> io::Result<String> {
        let is_dir = fs::metadata(&self.rt, path)?.is_dir();
        said(self.rt.alloc(), if is_dir { "yes" } else { "no" })
    }
}

// The names, with bars after them.
fn listed(alloc: Global, names: &NameList) -> io::Result<String> {
    let mut words = String::new(alloc);
    for name in names.as_slice() {
        words.push_str(name.as_str())?;
        words.push('|')?;
    }
    or_nothing(words)
}
