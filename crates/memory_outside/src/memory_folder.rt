//! A folder in memory.
ghost use Rattle.std.specs.Prelude.{◌≡◌, ◌≤◌, ◌<◌, ◌+◌, ◌-◌, ◌++◌, ◌↔◌, Some, None, true, false, is_ok, if◌then◌else◌, position, IsPermutation, IsSorted, vec_len, vec_capacity, string_bytes, IfOk, OnOk, OnErr, MatchOption};
ghost use Rattle.std.specs.Cmp.Lexicographic.{slice_cmp};
ghost use Rattle.std.specs.Ordering.{nat_cmp};
ghost use Rattle.std.specs.List.{list_any, flat_map};
ghost use Rattle.link_traits.specs.Contents.{file_names, IsListing, ShareNoName, HaveOwnNames, is_named, contents_of, has_name};
ghost use Rattle.link_traits.specs.Folder.{without, with_name, files_after_rename};
ghost use Rattle.memory_outside.specs.Memory.{FolderState, with_file, new_folder, next_shelf, folder_after_put, folder_after_rename, folder_after_shelf, folder_after_return};
ghost use Rattle.memory_outside.specs.Script.{faults_of, is_listed, after_call, Counted};

use crate::memory_file::MemoryFile;
use crate::memory_shelf::{MemoryShelf, file_in, has_name};
use crate::script::Script;
use link_traits::{Folder, FolderFailed, ListFault};
use plain_data::{Name, NameList, NumberList, OutOfMemory};
use std::alloc::Global;
use std::marker::Model;

/// A folder in memory, which tells its files.
#[derive(Drop)]
pub struct MemoryFolder {
    alloc: Global,
    // The files in parts: those that were put, and those of each shelf that came back.
    parts: Vec<Vec<MemoryFile>>,
    path: Option<Name>,
    out: usize,
    // How many shelves there were.
    shelves: u64,
    script: Script,
}

impl Model for MemoryFolder {
    ghost use Rattle.std.specs.Prelude.{◌≤◌, ◌+◌, vec_len, vec_capacity};
    ghost use Rattle.std.specs.List.{flat_map};
    ghost use Rattle.link_traits.specs.Contents.{HaveOwnNames};
    ghost use Rattle.memory_outside.specs.Memory.{FolderState};

    ghost Value = { FolderState };

    ghost view = { λ f. record {
      contents = flat_map (λ part. part.items) f.parts.items;
      path = f.path;
      out = f.out;
      shelves = f.shelves;
      script = f.script;
    } };

    ghost invariant = { λ f. (vec_len f.parts + f.out ≤ vec_capacity f.parts)
        × HaveOwnNames (flat_map (λ part. part.items) f.parts.items) };
}

impl MemoryFolder {
    /// An empty folder. `faults` numbers the calls that are to fail as `object * 1000000 + call`, with
    /// calls from 0: object 0 is the folder, whose calls are `list`, `rename` and `shelf`, and object i
    /// its i-th shelf, from 1, whose calls are `create`, `append`, `finish`, `open` and `read`. Want of
    /// memory fails a call too. Both are counted, and the count stops at 2^64 - 1. Takes no memory.
    pub fn new(alloc: Global, faults: NumberList) -> MemoryFolder
        ensures { result ≡ new_folder faults }
    {
        MemoryFolder {
            alloc,
            parts: Vec::new(alloc),
            path: None,
            out: 0,
            shelves: 0,
            script: Script::new(faults),
        }
    }

    /// Puts a file, in the place of the one of its name if there is one, and else at the end. Its
    /// condition is that no shelf is out. A refusal, for want of memory, changes nothing.
    pub fn put(&mut self, name: &str, bytes: &[u8]) -> Result<(), OutOfMemory>
        requires { self.old.out ≡ 0 }
        ensures ok { OnOk result (self.new ≡ folder_after_put self.old name.now bytes.now) }
        ensures err { OnErr result (self.new ≡ self.old) }
    {
        let file = MemoryFile::of(self.alloc, name, bytes)?;
        if let Some(part) = part_of(self.parts.as_slice(), name) {
            put_among(&mut self.parts, part, file);
            return Ok(());
        }
        put_after(self.alloc, &mut self.parts, file)
    }

    /// The bytes of the file of this name, if there is one. Takes no memory.
    pub fn file(&self, name: &str) -> Option<&[u8]>
        ensures { MatchOption result (contents_of self.now.contents name.now ≡ None)
            (λ bytes. contents_of self.now.contents name.now ≡ Some bytes.now) }
    {
        'parts: for part in self.parts.as_slice() {
            if let Some(bytes) = file_in(part.as_slice(), name) {
                return Some(bytes);
            }
        }
        None
    }

    // The names of all files, in order.
    fn names(&self) -> Result<NameList, OutOfMemory>
        ensures { IfOk result (λ found. IsListing found self.now.contents) }
    {
        let mut found = self.copied_names()?;
        sort(&mut found);
        Ok(found)
    }

    // The names of all files, in the order of the files.
    fn copied_names(&self) -> Result<NameList, OutOfMemory>
        ensures { IfOk result (λ found. found ≡ file_names self.now.contents) }
    {
        let mut found = NameList::new(self.alloc);
        'parts: for part in self.parts.as_slice() {
            names_into(self.alloc, part.as_slice(), &mut found)?;
        }
        Ok(found)
    }

    /// Whether one of the files that the shelf has made has the name of a file that is here. Takes no
    /// memory.
    pub fn has_any_of(&self, shelf: &MemoryShelf) -> bool
        ensures is { result ≡ list_any (λ file. has_name file.name shelf.now.made) self.now.contents }
        ensures apart { result ≡ false → ShareNoName shelf.now.made self.now.contents }
    {
        has_any(self.parts.as_slice(), shelf)
    }

    // A shelf that sees all files, for which room is kept.
    fn begin(&mut self) -> Result<MemoryShelf, OutOfMemory>
        ensures shelf { IfOk result (λ shelf. shelf ≡ next_shelf self.old self.new.shelves) }
        ensures ok { OnOk result (self.new ≡ folder_after_shelf self.old true self.old.script) }
        ensures err { OnErr result (self.new ≡ self.old) }
        ensures own_names { HaveOwnNames self.new.contents }
    {
        let object = self.shelves.saturating_add(1);
        let script = self.script.of(object, 0)?;
        let seen = copied_files(self.alloc, self.parts.as_slice())?;
        let room = self.out.saturating_add(1);
        self.parts.reserve(room)?;
        self.out += 1;
        self.shelves = object;
        Ok(MemoryShelf::new(self.alloc, seen, script))
    }

    // Gives a file another name.
    fn change_name(&mut self, from: &str, to: &str) -> Result<(), OutOfMemory>
        ensures ok { OnOk result (self.new
            ≡ record self.old { contents = files_after_rename from.now to.now self.old.contents }) }
        ensures err { OnErr result (self.new ≡ self.old) }
        ensures own_names { HaveOwnNames self.new.contents }
    {
        let name = String::from_str(self.alloc, to)?;
        if from != to {
            take_out(&mut self.parts, to);
            put_under(&mut self.parts, from, name);
        }
        Ok(())
    }
}

// Whether one of the files has the name of one that the shelf has made.
fn has_any(parts: &[Vec<MemoryFile>], shelf: &MemoryShelf) -> bool
    ensures { result ≡ list_any (λ part. list_any (λ file. has_name file.name shelf.now.made)
        part.items) parts.now }
{
    parts.iter().any(|part| shelf.has_any_of(part.as_slice()))
}

// A copy of all files.
fn copied_files(alloc: Global, parts: &[Vec<MemoryFile>]) -> Result<Vec<MemoryFile>, OutOfMemory>
    ensures { IfOk result (λ files. files.items ≡ flat_map (λ part. part.items) parts.now) }
{
    let mut copies = Vec::new(alloc);
    'parts: for part in parts {
        files_into(alloc, part.as_slice(), &mut copies)?;
    }
    Ok(copies)
}

// Copies each file.
fn files_into(
    alloc: Global,
    files: &[MemoryFile],
    copies: &mut Vec<MemoryFile>,
) -> Result<(), OutOfMemory>
    ensures { OnOk result (copies.new.items ≡ copies.old.items ++ files.now) }
{
    'files: for file in files {
        copies.push(file.copy(alloc)?)?;
    }
    Ok(())
}

// Takes the file of this name out, if there is one.
fn take_out(parts: &mut Vec<Vec<MemoryFile>>, name: &str)
    ensures files { flat_map (λ part. part.items) parts.new.items
        ≡ without name.now (flat_map (λ part. part.items) parts.old.items) }
    ensures len { vec_len parts.new ≡ vec_len parts.old }
    ensures capacity { vec_capacity parts.new ≡ vec_capacity parts.old }
{
    if let Some(part) = part_of(parts.as_slice(), name) {
        take_out_of(&mut parts[part], name);
    }
}

// Takes the first file of this name out of a part.
fn take_out_of(files: &mut Vec<MemoryFile>, name: &str)
    ensures { files.new.items ≡ without name.now files.old.items }
{
    if let Some(place) = place_of(files.as_slice(), name) {
        drop(files.remove(place));
    }
}

// Puts the file of the one name under the other.
fn put_under(parts: &mut Vec<Vec<MemoryFile>>, from: &str, to: String)
    ensures files { flat_map (λ part. part.items) parts.new.items
        ≡ with_name from.now (string_bytes to) (flat_map (λ part. part.items) parts.old.items) }
    ensures len { vec_len parts.new ≡ vec_len parts.old }
    ensures capacity { vec_capacity parts.new ≡ vec_capacity parts.old }
{
    if let Some(part) = part_of(parts.as_slice(), from) {
        put_under_in(&mut parts[part], from, to);
    }
}

// Puts the first file of the one name in a part under the other.
fn put_under_in(files: &mut Vec<MemoryFile>, from: &str, to: String)
    ensures { files.new.items ≡ with_name from.now (string_bytes to) files.old.items }
{
    if let Some(place) = place_of(files.as_slice(), from) {
        let file = &mut files[place];
        file.set_name(to);
    }
}

// The place of the first file of this name.
fn place_of(files: &[MemoryFile], name: &str) -> Option<usize>
    ensures { result ≡ position (is_named name.now) files.now }
{
    files.iter().position(|file| file.name() == name)
}

// The first part with a file of this name.
fn part_of(parts: &[Vec<MemoryFile>], name: &str) -> Option<usize>
    ensures { result ≡ position (λ part. has_name name.now part.items) parts.now }
{
    parts
        .iter()
        .position(|part| has_name(part.as_slice(), name))
}

// Puts a file in the place of the one of its name.
fn put_in(files: &mut Vec<MemoryFile>, file: MemoryFile)
    requires { has_name file.name files.old.items ≡ true }
    ensures { files.new.items ≡ with_file files.old.items file }
{
    if let Some(place) = place_of(files.as_slice(), file.name()) {
        files[place] = file;
    }
}

// Puts a file in the place of the one of its name, in the first part that has it.
fn put_among(parts: &mut Vec<Vec<MemoryFile>>, part: usize, file: MemoryFile)
    requires { position (λ part. has_name file.name part.items) parts.old.items ≡ Some part }
    ensures files { flat_map (λ part. part.items) parts.new.items
        ≡ with_file (flat_map (λ part. part.items) parts.old.items) file }
    ensures len { vec_len parts.new ≡ vec_len parts.old }
    ensures capacity { vec_capacity parts.new ≡ vec_capacity parts.old }
{
    put_in(&mut parts[part], file);
}

// Puts a file whose name stands nowhere yet after all others.
fn put_after(
    alloc: Global,
    parts: &mut Vec<Vec<MemoryFile>>,
    file: MemoryFile,
) -> Result<(), OutOfMemory>
    requires { position (λ part. has_name file.name part.items) parts.old.items ≡ None }
    ensures ok { OnOk result (flat_map (λ part. part.items) parts.new.items
        ≡ with_file (flat_map (λ part. part.items) parts.old.items) file) }
    ensures err { OnErr result (parts.new.items ≡ parts.old.items) }
{
    let mut last = Vec::new(alloc);
    last.reserve(1)?;
    parts.reserve(1)?;
    last.push_reserved(file);
    parts.push_reserved(last);
    Ok(())
}

// Puts names in the order of their bytes.
fn sort(names: &mut NameList)
    ensures permutation { IsPermutation names.new names.old }
    ensures sorted { IsSorted (slice_cmp nat_cmp) names.new }
{
    names.as_mut_slice().sort_unstable();
}

// Copies each name.
fn names_into(alloc: Global, files: &[MemoryFile], found: &mut NameList) -> Result<(), OutOfMemory>
    ensures { OnOk result (found.new ≡ found.old ++ file_names files.now) }
{
    'files: for file in files {
        found.push(Name::of(alloc, file.name())?)?;
    }
    Ok(())
}

impl Folder for MemoryFolder {
    type Shelf = MemoryShelf;

    ghost tells = { λ folder. HaveOwnNames folder.contents };

    ghost contents = { λ folder. folder.contents };

    ghost path_of = { λ folder. folder.path };

    ghost out = { λ folder. folder.out };

    ghost faults = { λ folder. faults_of folder.script };

    ghost own_names = { λ _ own_names. own_names };

    fn aim(&mut self, path: &str) -> Result<(), OutOfMemory>
        ensures { self.new
            ≡ record self.old { path = if is_ok result then Some path.now else self.old.path } }
    {
        let path = Name::of(self.alloc, path)?;
        self.path = Some(path);
        Ok(())
    }

    fn list(&mut self) -> Result<NameList, ListFault>
        ensures names { IfOk result (λ found. IsListing found self.old.contents) }
        ensures folder { self.new ≡ record self.old { script = after_call self.old.script } }
        ensures listed { is_listed self.old.script ≡ true → result ≡ Err ListFault.Failed }
        ensures failed { result ≡ Err ListFault.Failed → is_listed self.old.script ≡ true }
    {
        if self.script.fails() {
            return Err(ListFault::Failed);
        }
        match self.names() {
            Ok(names) => Ok(names),
            Err(OutOfMemory) => Err(ListFault::OutOfMemory),
        }
    }

    fn rename(&mut self, from: &str, to: &str) -> Result<(), FolderFailed>
        ensures tells { HaveOwnNames self.old.contents ↔ HaveOwnNames self.new.contents }
        ensures folder { self.new
            ≡ folder_after_rename self.old (is_ok result) from.now to.now self.new.script }
        ensures counts { Counted self.old.script false result self.new.script }
    {
        if self.script.fails() {
            return Err(FolderFailed);
        }
        if self.change_name(from, to).is_err() {
            self.script.lack_memory();
            return Err(FolderFailed);
        }
        Ok(())
    }

    fn shelf(&mut self) -> Result<MemoryShelf, FolderFailed>
        ensures tells { HaveOwnNames self.old.contents × HaveOwnNames self.new.contents }
        ensures shelf { IfOk result (λ shelf. shelf ≡ next_shelf self.old self.new.shelves) }
        ensures folder { self.new ≡ folder_after_shelf self.old (is_ok result) self.new.script }
        ensures counts { Counted self.old.script false result self.new.script }
    {
        if self.script.fails() {
            return Err(FolderFailed);
        }
        match self.begin() {
            Ok(shelf) => Ok(shelf),
            Err(OutOfMemory) => {
                self.script.lack_memory();
                Err(FolderFailed)
            }
        }
    }

    fn take_back(&mut self, shelf: MemoryShelf)
        requires out { 0 < self.old.out }
        requires new_names { HaveOwnNames self.old.contents →
            ShareNoName shelf.made self.old.contents }

        ensures tells { HaveOwnNames self.old.contents ↔ HaveOwnNames self.new.contents }
        ensures folder { self.new ≡ folder_after_return self.old shelf }
    {
        let (made, script) = shelf.close();
        self.out -= 1;
        self.parts.push_reserved(made);
        self.script.add(&script);
    }
}
