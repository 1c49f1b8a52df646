//! A shelf that writes files into a directory, and reads them.
ghost use Rattle.std.specs.Prelude.{◌≡◌, ◌<◌, ◌≤◌, ◌+◌, ◌-◌, ◌^◌, [], None, Some, length, take, true, is_some, IfOk, OnOk};
ghost use Rattle.std.specs.Io.KnownBytes.{Appends, Consumes, IsAtEnd};
ghost use Rattle.link_traits.specs.Cause.{HasCause};
ghost use Rattle.link_traits.specs.Folder.{CountsRead};
ghost use Rattle.system_outside.specs.Status.{fresh_shelf, one_fault_more};

use crate::transfer::{read_next, write_front};
use link_traits::{FolderFailed, Shelf};
use std::fs::{OpenFile, OpenOptions};
use std::io;
use std::io::{ErrorKind, Write};
use std::marker::Model;
use std::os::unix::fs::OpenOptionsExt;
use std::rt::Files;

// No file reaches this many bytes.
const SIZE_LIMIT: u64 = 1 << 62;

// A file is read and written by its owner alone, for it holds all data.
const FILE_MODE: u32 = 0o600;

/// Writes files into a directory and reads them, and doesn't tell what they hold. A file is made with
/// the mode 0600, and ended only once the disk has it. `open` answers whether the file is there now:
/// the directory keeps nothing of what it had when it gave the shelf. A name is put after the
/// directory's path and a slash as it is. `append`, `finish` and `read` take no memory.
#[derive(Drop)]
pub struct DiskShelf<R: Files> {
    rt: R,
    path: String,
    begun: Option<R::File>,
    size: u64,
    opened: Option<R::File>,
    // How many bytes were read of the open file.
    place: u64,
    faults: u64,
}

impl<R: Files> Model for DiskShelf<R> {
    ghost use Rattle.std.specs.Prelude.{◌<◌, ◌^◌, is_some, option_map, option_and_then};
    ghost use Rattle.system_outside.specs.Status.{ShelfStatus};

    ghost Value = { ShelfStatus };

    ghost view = { λ s. record {
      begun = is_some s.begun;
      size = s.size;
      reading = option_map (λ _. s.place) s.opened;
      faults = s.faults;
      written = option_and_then R.File.contents s.begun;
      unread = option_and_then R.File.remaining s.opened;
    } };

    ghost invariant = { λ s. (s.size < 2 ^ 62) × (s.place < 2 ^ 62) };
}

impl<R: Files> DiskShelf<R> {
    /// A shelf for the directory of this path. Takes no memory.
    pub(crate) fn new(rt: R, path: String) -> DiskShelf<R>
        ensures { result ≡ fresh_shelf }
    {
        DiskShelf {
            rt,
            path,
            begun: None,
            size: 0,
            opened: None,
            place: 0,
            faults: 0,
        }
    }

    /// How often the shelf has failed. Takes no memory.
    pub fn faults(&self) -> u64
        ensures { result ≡ self.now.faults }
    {
        self.faults
    }

    // Counts a failure.
    fn fail(&mut self) -> FolderFailed
        ensures failed { self.new ≡ record self.old { faults = one_fault_more self.old.faults } }
        ensures later { self.old.faults ≤ self.new.faults }
    {
        self.faults = self.faults.saturating_add(1);
        FolderFailed
    }
}

impl<R: Files + AllocGlobal> DiskShelf<R> {
    // The file of this name, as the options open it.
    fn file(&self, options: &OpenOptions, name: &str) -> io::Result<R::File> {
        let directory = &self.path;
        let path = format!(in self.rt.alloc(); "{directory}/{name}")?;
        options.open(&self.rt, path)
    }

    // A new file of this name, to be written. One that is there already is a failure.
    fn create_file(&self, name: &str) -> io::Result<R::File> {
        let mut options = OpenOptions::new();
        options.write(true).create_new(true).mode(FILE_MODE);
        self.file(&options, name)
    }

    // The file of this name, to be read, if it is there.
    fn open_file(&self, name: &str) -> io::Result<Option<R::File>> {
        let mut options = OpenOptions::new();
        options.read(true);
        match self.file(&options, name) {
            Ok(file) => Ok(Some(file)),
            Err(error) if error.kind() == ErrorKind::NotFound => Ok(None),
            Err(error) => Err(error),
        }
    }
}

// Brings the file to the disk.
fn keep<F: Write + OpenFile>(file: &mut F) -> io::Result<()> {
    file.flush()?;
    file.sync_all()
}

impl<R: Files + AllocGlobal + Drop> Shelf for DiskShelf<R> {
    ghost tells = { λ _. ⊥ };

    ghost told = { λ _. record {
      seen = [];
      opened = record { read = []; left = [] };
      made = [];
      begun = record { name = []; bytes = [] };
    } };

    ghost is_begun = { λ shelf. shelf.begun };

    ghost size = { λ shelf. shelf.size };

    ghost reading = { λ shelf. shelf.reading };

    ghost faults = { λ shelf. shelf.faults };

    ghost own_names = { λ _ tells. absurd tells };

    fn create(&mut self, name: &str) -> Result<(), FolderFailed> {
        let Ok(file) = self.create_file(name) else {
            return Err(self.fail());
        };
        self.begun = Some(file);
        self.size = 0;
        Ok(())
    }

    fn append(&mut self, bytes: &[u8]) -> Result<(), FolderFailed>
        requires begun { self.old.begun ≡ true }
        ensures begun { self.new.begun ≡ true }
        ensures size { OnOk result (self.new.size ≡ self.old.size + length bytes.now) }
        ensures small { OnOk result (self.new.size < 2 ^ 62) }
        ensures written { OnOk result (Appends self.old.written self.new.written bytes.now) }
        ensures reading { self.new.reading ≡ self.old.reading }
        ensures cause { HasCause self.old.faults self.new.faults result }
    {
        let Some(file) = &mut self.begun else {
            unreachable!();
        };
        let length = bytes.len() as u64;
        if length >= SIZE_LIMIT - self.size {
            return Err(self.fail());
        }
        let written = write_front(file, bytes);
        self.size += written as u64;
        if written < bytes.len() {
            return Err(self.fail());
        }
        Ok(())
    }

    fn finish(&mut self) -> Result<(), FolderFailed> {
        let Some(file) = &mut self.begun else {
            unreachable!();
        };
        if keep(file).is_err() {
            return Err(self.fail());
        }
        self.begun = None;
        Ok(())
    }

    fn open(&mut self, name: &str) -> Result<bool, FolderFailed> {
        let Ok(opened) = self.open_file(name) else {
            return Err(self.fail());
        };
        let found = opened.is_some();
        self.opened = opened;
        self.place = 0;
        Ok(found)
    }

    fn read(&mut self, buffer: &mut [u8]) -> Result<usize, FolderFailed>
        requires opened { is_some self.old.reading ≡ true }
        requires room { 0 < length buffer.old }
        ensures reading { CountsRead self.old.reading buffer.old result self.new.reading }
        ensures bytes { IfOk result (λ count.
            Consumes self.old.unread self.new.unread (take count buffer.new)) }
        ensures end { IfOk result (λ count. count ≡ 0 → IsAtEnd self.new.unread) }
        ensures begun { self.new.begun ≡ self.old.begun }
        ensures size { self.new.size ≡ self.old.size }
        ensures cause { HasCause self.old.faults self.new.faults result }
    {
        let Some(file) = &mut self.opened else {
            unreachable!();
        };
        let room = buffer.len().min((SIZE_LIMIT - 1 - self.place) as usize);
        if room == 0 {
            return Err(self.fail());
        }
        match read_next(file, &mut buffer[..room]) {
            Ok(count) => {
                self.place += count as u64;
                Ok(count)
            }
            Err(_) => Err(self.fail()),
        }
    }
}
