//! A shelf of a folder in memory.
ghost use Rattle.std.specs.Prelude.{◌≡◌, ◌<◌, ◌↔◌, [], Some, None, true, false, length, is_some, is_ok, MatchOption, OnOk, OnErr, IfOk};
ghost use Rattle.std.specs.List.{list_any};
ghost use Rattle.link_traits.specs.Contents.{HaveOwnNames, has_name, contents_of};
ghost use Rattle.memory_outside.specs.Memory.{ShelfState, HoldsOwnNames, TakesFront, begun_of, with_bytes, opened_in, opened_of, place_after, shelf_told, bytes_read, new_shelf, has_no_room_for, reads_to_limit, shelf_after_create, shelf_after_append, shelf_after_finish, shelf_after_open, shelf_after_read};
ghost use Rattle.memory_outside.specs.Script.{faults_of, Counted};

use crate::memory_file::{FileReader, MemoryFile};
use crate::script::Script;
use link_traits::{FolderFailed, Shelf};
use plain_data::OutOfMemory;
use std::alloc::Global;
use std::marker::Model;

// The bytes of the first file of this name.
pub(crate) fn file_in<'a>(files: &'a [MemoryFile], name: &str) -> Option<&'a [u8]>
    ensures { MatchOption result (contents_of files.now name.now ≡ None)
        (λ bytes. contents_of files.now name.now ≡ Some bytes.now) }
{
    'files: for file in files {
        if file.name() == name {
            return Some(file.bytes());
        }
    }
    None
}

// Whether one of the files has this name.
pub(crate) fn has_name(files: &[MemoryFile], name: &str) -> bool
    ensures { result ≡ has_name name.now files.now }
{
    files.iter().any(|file| file.name() == name)
}

// The file of this name from its start, if there is one.
fn reader_in(
    alloc: Global,
    files: &[MemoryFile],
    name: &str,
) -> Result<Option<FileReader>, OutOfMemory>
    ensures { IfOk result (λ reader. reader ≡ opened_in files.now name.now) }
{
    match file_in(files, name) {
        Some(bytes) => Ok(Some(FileReader::of(alloc, bytes)?)),
        None => Ok(None),
    }
}

/// What the files of a folder in memory are made by, and read.
#[derive(Drop)]
pub struct MemoryShelf {
    alloc: Global,
    seen: Vec<MemoryFile>,
    opened: Option<FileReader>,
    made: Vec<MemoryFile>,
    begun: Option<MemoryFile>,
    script: Script,
}

impl Model for MemoryShelf {
    ghost use Rattle.memory_outside.specs.Memory.{ShelfState, HoldsOwnNames};

    ghost Value = { ShelfState };

    ghost view = { λ s. record {
      seen = s.seen.items;
      opened = s.opened;
      made = s.made.items;
      begun = s.begun;
      script = s.script;
    } };

    ghost invariant = { λ s. HoldsOwnNames (record {
      seen = s.seen.items;
      opened = s.opened;
      made = s.made.items;
      begun = s.begun;
      script = s.script;
    }) };
}

impl MemoryShelf {
    // A shelf that sees these files.
    pub(crate) fn new(alloc: Global, seen: Vec<MemoryFile>, script: Script) -> MemoryShelf
        requires { HaveOwnNames seen.items }
        ensures { result ≡ new_shelf seen.items script }
    {
        MemoryShelf {
            alloc,
            seen,
            opened: None,
            made: Vec::new(alloc),
            begun: None,
            script,
        }
    }

    // Whether a file of this name was made.
    fn has_made(&self, name: &str) -> bool
        ensures { result ≡ has_name name.now self.now.made }
    {
        has_name(self.made.as_slice(), name)
    }

    // Whether a file of one of these names was made.
    pub(crate) fn has_any_of(&self, files: &[MemoryFile]) -> bool
        ensures { result ≡ list_any (λ file. has_name file.name self.now.made) files.now }
    {
        files.iter().any(|file| self.has_made(file.name()))
    }

    // Begins an empty file of this name.
    fn begin(&mut self, name: &str) -> Result<(), OutOfMemory>
        requires none_begun { is_some self.old.begun ≡ false }
        requires new_name { has_name name.now self.old.made ≡ false }
        ensures ok { OnOk result (self.new
            ≡ record self.old { begun = Some (record { name = name.now; bytes = [] }) }) }
        ensures err { OnErr result (self.new ≡ self.old) }
        ensures own_names { HoldsOwnNames self.new }
    {
        let file = MemoryFile::of(self.alloc, name, &[])?;
        self.begun = Some(file);
        Ok(())
    }

    // How many bytes the begun file has.
    fn size(&self) -> usize
        ensures { result ≡ length (begun_of self.now.begun).bytes }
    {
        match &self.begun {
            Some(file) => file.bytes().len(),
            None => 0,
        }
    }

    // Adds bytes to the begun file.
    fn extend(&mut self, bytes: &[u8]) -> Result<(), OutOfMemory>
        requires { is_some self.old.begun ≡ true }
        ensures ok { OnOk result (self.new
            ≡ record self.old { begun = Some (with_bytes (begun_of self.old.begun) bytes.now) }) }
        ensures err { OnErr result (self.new ≡ self.old) }
        ensures own_names { HoldsOwnNames self.new }
    {
        match &mut self.begun {
            Some(file) => file.extend(bytes),
            None => Ok(()),
        }
    }

    // Puts the begun file among those made.
    fn end(&mut self) -> Result<(), OutOfMemory>
        requires { is_some self.old.begun ≡ true }
        ensures ok { OnOk result (self.new ≡ shelf_after_finish self.old true self.old.script) }
        ensures err { OnErr result (self.new ≡ self.old) }
        ensures own_names { HoldsOwnNames self.new }
    {
        self.made.reserve(1)?;
        if let Some(file) = self.begun.take() {
            self.made.push_reserved(file);
        }
        Ok(())
    }

    // Opens the file of this name, if there is one.
    fn find(&mut self, name: &str) -> Result<bool, OutOfMemory>
        ensures found { IfOk result
            (λ found. found ≡ is_some (contents_of self.old.seen name.now)) }
        ensures ok { OnOk result (self.new
            ≡ record self.old { opened = opened_in self.old.seen name.now }) }
        ensures err { OnErr result (self.new ≡ self.old) }
        ensures own_names { HoldsOwnNames self.new }
    {
        let opened = reader_in(self.alloc, self.seen.as_slice(), name)?;
        let found = opened.is_some();
        self.opened = opened;
        Ok(found)
    }

    // How many bytes were read of the open file once a read has filled so much room.
    fn place_after(&self, room: usize) -> usize
        ensures { result ≡ place_after (opened_of self.now.opened) room }
    {
        match &self.opened {
            Some(file) => file.place_after(room),
            None => 0,
        }
    }

    // Copies the next bytes of the open file to the front of the buffer.
    fn take_front(&mut self, buffer: &mut [u8]) -> usize
        requires { is_some self.old.opened ≡ true }
        ensures front { TakesFront (opened_of self.old.opened) buffer.new result
            (opened_of self.new.opened) }
        ensures len { length buffer.new ≡ length buffer.old }
        ensures opened { is_some self.new.opened ≡ true }
        ensures others { self.new ≡ record self.old { opened = self.new.opened } }
        ensures own_names { HoldsOwnNames self.new }
    {
        match &mut self.opened {
            Some(file) => file.take_front(buffer),
            None => 0,
        }
    }

    // The files that were made, and the counts.
    pub(crate) fn close(self) -> (Vec<MemoryFile>, Script)
        ensures made { result.0.items ≡ self.made }
        ensures script { result.1 ≡ self.script }
        ensures own_names { HaveOwnNames self.made }
    {
        let MemoryShelf {
            alloc: _,
            seen: _,
            opened: _,
            made,
            begun: _,
            script,
        } = self;
        (made, script)
    }
}

impl Shelf for MemoryShelf {
    ghost tells = { HoldsOwnNames };

    ghost told = { shelf_told };

    ghost is_begun = { λ shelf. is_some shelf.begun };

    ghost size = { λ shelf. length (begun_of shelf.begun).bytes };

    ghost reading = { bytes_read };

    ghost faults = { λ shelf. faults_of shelf.script };

    ghost own_names = { λ _ own_names. record { seen = own_names.seen; made = own_names.made } };

    fn create(&mut self, name: &str) -> Result<(), FolderFailed>
        requires none_begun { is_some self.old.begun ≡ false }

        ensures tells { HoldsOwnNames self.old ↔ HoldsOwnNames self.new }
        ensures shelf { self.new
            ≡ shelf_after_create self.old (is_ok result) name.now self.new.script }
        ensures counts { Counted self.old.script (has_name name.now self.old.made) result
            self.new.script }
    {
        if self.script.fails() {
            return Err(FolderFailed);
        }
        if self.has_made(name) {
            self.script.fail();
            return Err(FolderFailed);
        }
        if self.begin(name).is_err() {
            self.script.lack_memory();
            return Err(FolderFailed);
        }
        Ok(())
    }

    fn append(&mut self, bytes: &[u8]) -> Result<(), FolderFailed>
        requires begun { is_some self.old.begun ≡ true }

        ensures tells { HoldsOwnNames self.old ↔ HoldsOwnNames self.new }
        ensures shelf { self.new
            ≡ shelf_after_append self.old (is_ok result) bytes.now self.new.script }
        ensures counts { Counted self.old.script (has_no_room_for self.old bytes.now) result
            self.new.script }
    {
        if self.script.fails() {
            return Err(FolderFailed);
        }
        if self.size().saturating_add(bytes.len()) >= 1 << 62 {
            self.script.fail();
            return Err(FolderFailed);
        }
        if self.extend(bytes).is_err() {
            self.script.lack_memory();
            return Err(FolderFailed);
        }
        Ok(())
    }

    fn finish(&mut self) -> Result<(), FolderFailed>
        requires begun { is_some self.old.begun ≡ true }

        ensures tells { HoldsOwnNames self.old ↔ HoldsOwnNames self.new }
        ensures shelf { self.new ≡ shelf_after_finish self.old (is_ok result) self.new.script }
        ensures counts { Counted self.old.script false result self.new.script }
    {
        if self.script.fails() {
            return Err(FolderFailed);
        }
        if self.end().is_err() {
            self.script.lack_memory();
            return Err(FolderFailed);
        }
        Ok(())
    }

    fn open(&mut self, name: &str) -> Result<bool, FolderFailed>
        ensures tells { HoldsOwnNames self.old ↔ HoldsOwnNames self.new }
        ensures found { IfOk result
            (λ found. found ≡ is_some (contents_of self.old.seen name.now)) }
        ensures shelf { self.new
            ≡ shelf_after_open self.old (is_ok result) name.now self.new.script }
        ensures counts { Counted self.old.script false result self.new.script }
    {
        if self.script.fails() {
            return Err(FolderFailed);
        }
        match self.find(name) {
            Ok(found) => Ok(found),
            Err(OutOfMemory) => {
                self.script.lack_memory();
                Err(FolderFailed)
            }
        }
    }

    fn read(&mut self, buffer: &mut [u8]) -> Result<usize, FolderFailed>
        requires opened { is_some (bytes_read self.old) ≡ true }
        requires room { 0 < length buffer.old }

        ensures tells { HoldsOwnNames self.old ↔ HoldsOwnNames self.new }
        ensures ok { IfOk result (λ count. TakesFront (opened_of self.old.opened) buffer.new count
            (opened_of self.new.opened)) }
        ensures len { length buffer.new ≡ length buffer.old }
        ensures opened { is_some self.new.opened ≡ true }
        ensures others { self.new
            ≡ shelf_after_read self.old (is_ok result) self.new.opened self.new.script }
        ensures counts { Counted self.old.script (reads_to_limit self.old buffer.old) result
            self.new.script }
    {
        if self.script.fails() {
            return Err(FolderFailed);
        }
        if self.place_after(buffer.len()) >= 1 << 62 {
            self.script.fail();
            return Err(FolderFailed);
        }
        Ok(self.take_front(buffer))
    }
}
