//! A folder that is a directory of the disk.
ghost use Rattle.std.specs.Prelude.{◌≡◌, ◌≤◌, ◌+◌, ◌-◌, [], None, IfOk, IfSome, IsSorted};
ghost use Rattle.std.specs.Ordering.{nat_cmp};
ghost use Rattle.std.specs.Cmp.Lexicographic.{slice_cmp};
ghost use Rattle.link_traits.specs.Cause.{Rose};
ghost use Rattle.system_outside.specs.Status.{fresh_shelf, one_fault_more};

use crate::disk_shelf::DiskShelf;
use link_traits::{Folder, FolderFailed, ListFault};
use plain_data::{Name, NameList, OutOfMemory};
use std::alloc::Global;
use std::fs::{DirBuilder, OpenFile};
use std::io::ErrorKind;
use std::marker::Model;
use std::os::unix::fs::DirBuilderExt;
use std::rt::Files;
use std::{fs, io};

// A directory is listed and entered by its owner alone, for its files hold all data.
const DIRECTORY_MODE: u32 = 0o700;

/// A directory of the disk. It doesn't tell the files in it. Where it isn't there, `list` and `shelf`
/// make it, with the mode 0700, and bring its entry to the disk; one that is there keeps its mode.
///
/// `rename` brings the directory to the disk before it renames, and after it. So where it answers Ok,
/// what was made by then and the new name outlive a power cut. Where the directory doesn't get to the
/// disk after the rename, the call fails, and the file has its new name: whether it has it after a
/// power cut isn't known.
#[derive(Drop)]
pub struct DiskFolder<R> {
    rt: R,
    path: Option<String>,
    out: u64,
    faults: u64,
}

impl<R> Model for DiskFolder<R> {
    ghost use Rattle.std.specs.Prelude.{string_bytes};
    ghost use Rattle.std.specs.Option.{option_map};
    ghost use Rattle.system_outside.specs.Status.{FolderStatus};

    ghost Value = { FolderStatus };

    ghost view = { λ f. record {
      path = option_map string_bytes f.path;
      out = f.out;
      faults = f.faults;
    } };
}

impl<R> DiskFolder<R> {
    /// A folder that is still to be aimed. Takes no memory.
    pub fn new(rt: R) -> DiskFolder<R>
        ensures { result ≡ record { path = None; out = 0; faults = 0 } }
    {
        DiskFolder {
            rt,
            path: None,
            out: 0,
            faults: 0,
        }
    }

    /// How often the folder has failed, and each shelf that came back. Takes no memory.
    pub fn faults(&self) -> u64
        ensures { result ≡ self.now.faults }
    {
        self.faults
    }

    // Counts a failure.
    fn fail(&mut self) -> FolderFailed
        ensures failed { self.new ≡ record self.old { faults = one_fault_more self.old.faults } }
        ensures later { self.old.faults ≤ self.new.faults }
    {
        self.faults = self.faults.saturating_add(1);
        FolderFailed
    }
}

// Brings the entry of a directory to the disk: what its parent holds.
fn keep_entry_of<R: Files + AllocGlobal>(rt: &R, path: &str) -> io::Result<()> {
    let parent = format!(in rt.alloc(); "{path}/..")?;
    fs::open(rt, parent)?.sync_all()
}

// Gives a file of a directory another name, and brings that to the disk.
fn rename_in<R: Files + AllocGlobal>(
    rt: &R,
    directory: &str,
    from: &str,
    to: &str,
) -> io::Result<()> {
    let entries = fs::open(rt, directory)?;
    entries.sync_all()?;
    move_in(rt, directory, from, to)?;
    entries.sync_all()
}

// Gives a file of a directory another name.
fn move_in<R: Files + AllocGlobal>(
    rt: &R,
    directory: &str,
    from: &str,
    to: &str,
) -> io::Result<()> {
    let from = format!(in rt.alloc(); "{directory}/{from}")?;
    let to = format!(in rt.alloc(); "{directory}/{to}")?;
    fs::rename(rt, from, to)
}

// Makes the directory where it isn't there.
fn make_directory<R: Files + AllocGlobal>(rt: &R, path: &str) -> io::Result<()> {
    let mut builder = DirBuilder::new();
    builder.mode(DIRECTORY_MODE);
    match builder.create(rt, path) {
        Ok(()) => keep_entry_of(rt, path),
        Err(error) => {
            if fs::metadata(rt, path)?.is_dir() {
                Ok(())
            } else {
                Err(error)
            }
        }
    }
}

// What a failing call of the system is to a list.
fn list_fault(error: io::Error) -> ListFault {
    if error.kind() == ErrorKind::OutOfMemory {
        ListFault::OutOfMemory
    } else {
        ListFault::Failed
    }
}

// The names of a directory's entries, in no order.
fn entry_names<R: Files + AllocGlobal + Clone + Drop>(
    rt: &R,
    path: &str,
) -> Result<NameList, ListFault> {
    let mut names = NameList::new(rt.alloc());
    for entry in fs::read_dir(rt, path).map_err(list_fault)? {
        let entry = entry.map_err(list_fault)?;
        if push_name(rt.alloc(), &mut names, entry.file_name()).is_err() {
            return Err(ListFault::OutOfMemory);
        }
    }
    Ok(names)
}

// Adds a copy of the name.
fn push_name(alloc: Global, names: &mut NameList, name: &str) -> Result<(), OutOfMemory> {
    names.push(Name::of(alloc, name)?)
}

impl<R: Files + AllocGlobal + Clone + Drop> DiskFolder<R> {
    // The names of the directory's entries, in the order of their bytes.
    fn names(&self) -> Result<NameList, ListFault>
        ensures { IfOk result (λ found. IsSorted (slice_cmp nat_cmp) found) }
    {
        let path = self.path.as_ref().ok_or(ListFault::Failed)?;
        make_directory(&self.rt, path.as_str()).map_err(list_fault)?;
        let mut names = entry_names(&self.rt, path.as_str())?;
        names.as_mut_slice().sort_unstable();
        Ok(names)
    }

    // Gives a file of the directory another name.
    fn change_name(&self, from: &str, to: &str) -> Option<()> {
        let path = self.path.as_ref()?;
        rename_in(&self.rt, path.as_str(), from, to).ok()
    }

    // A shelf for the directory.
    fn new_shelf(&self) -> Option<DiskShelf<R>>
        ensures { IfSome result (λ shelf. shelf ≡ fresh_shelf) }
    {
        let path = self.path.as_ref()?;
        make_directory(&self.rt, path.as_str()).ok()?;
        Some(DiskShelf::new(self.rt.clone().ok()?, path.clone().ok()?))
    }
}

impl<R: Files + AllocGlobal + Clone + Drop + Send> Folder for DiskFolder<R>
where
    R::File: Send,
{
    type Shelf = DiskShelf<R>;

    ghost tells = { λ _. ⊥ };

    ghost contents = { λ _. [] };

    ghost path_of = { λ folder. folder.path };

    ghost out = { λ folder. folder.out };

    ghost faults = { λ folder. folder.faults };

    ghost own_names = { λ _ tells. absurd tells };

    fn aim(&mut self, path: &str) -> Result<(), OutOfMemory> {
        self.path = Some(String::from_str(self.rt.alloc(), path)?);
        Ok(())
    }

    fn list(&mut self) -> Result<NameList, ListFault>
        ensures sorted { IfOk result (λ found. IsSorted (slice_cmp nat_cmp) found) }
        ensures path { self.new.path ≡ self.old.path }
        ensures out { self.new.out ≡ self.old.out }
        ensures later { self.old.faults ≤ self.new.faults }
        ensures cause { result ≡ Err ListFault.Failed → Rose self.old.faults self.new.faults }
    {
        let found = self.names();
        if let Err(ListFault::Failed) = &found {
            self.fail();
        }
        found
    }

    fn rename(&mut self, from: &str, to: &str) -> Result<(), FolderFailed> {
        if self.change_name(from, to).is_none() {
            return Err(self.fail());
        }
        Ok(())
    }

    fn shelf(&mut self) -> Result<DiskShelf<R>, FolderFailed> {
        let Some(out) = self.out.checked_add(1) else {
            return Err(self.fail());
        };
        let Some(shelf) = self.new_shelf() else {
            return Err(self.fail());
        };
        self.out = out;
        Ok(shelf)
    }

    fn take_back(&mut self, shelf: DiskShelf<R>) {
        self.out -= 1;
        self.faults = self.faults.saturating_add(shelf.faults());
    }
}
