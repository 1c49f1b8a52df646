//! A folder, and the shelves by which it is written and read.
ghost use Rattle.std.specs.Prelude.{◌≡◌, ◌<◌, ◌≤◌, ◌+◌, ◌-◌, ◌^◌, ◌++◌, ◌↔◌, ℕ, Bool, true, false, List, Option, Some, Contains, length, is_some, IfOk, IsSorted, OnOk, OnErr, min};
ghost use Rattle.std.specs.Cmp.Lexicographic.{slice_cmp};
ghost use Rattle.std.specs.Ordering.{nat_cmp};
ghost use Rattle.link_traits.specs.Cause.{Rose, HasCause};
ghost use Rattle.link_traits.specs.Contents.{File, ShelfTold, file_names, HaveOwnNames, IsSoundShelf, IsListing, ShareNoName};
ghost use Rattle.link_traits.specs.Folder.{BeginsFile, BeginsEmpty, AddsBytes, EndsFile, OpensFile, none_read, ReadsOff, CountsRead, IsIdle, IsNewShelf, CountsOut, RenamesFile};

use plain_data::{NameList, OutOfMemory};
use thiserror::Error;

/// The folder or one of its files failed. The object has counted it.
#[derive(Clone, Copy, Debug, PartialEq, Eq, Error)]
#[error("file access failed")]
pub struct FolderFailed;

/// Why a folder wasn't listed.
#[derive(Clone, Copy, Debug, PartialEq, Eq, Error)]
pub enum ListFault {
    /// The folder failed, and has counted it.
    #[error("file access failed")]
    Failed,
    #[error("out of memory")]
    OutOfMemory,
}

/// What one worker writes the files of a folder by, and reads them. Writing and reading don't
/// disturb each other.
pub trait Shelf: Drop {
    /// Whether the shelf tells its files. The adapter of a real folder doesn't.
    ghost tells: { Self → Type 0 };

    /// Its files, where it tells them: what it saw of the folder, and what it has made.
    ghost told: { Self → ShelfTold };

    /// Whether a file is begun. Every shelf tells it.
    ghost is_begun: { Self → Bool };

    /// How many bytes the begun file has. Every shelf tells it.
    ghost size: { Self → ℕ };

    /// How many bytes were read of the open file, if one is open. Every shelf tells it.
    ghost reading: { Self → Option ℕ };

    /// How often the shelf has failed.
    ghost faults: { Self → ℕ };

    /// Begins a file. Its conditions are that none is begun, and that the shelf hasn't made one of
    /// this name. A failure begins none.
    fn create(&mut self, name: &str) -> Result<(), FolderFailed>
        requires none_begun { is_begun self.old ≡ false }
        requires new_name { tells self.old → Contains (file_names (told self.old).made) name.now →
            ⊥ }

        ensures tells { tells self.old ↔ tells self.new }
        ensures told { tells self.old → BeginsFile (told self.old) name.now result (told self.new) }
        ensures begun { BeginsEmpty result (is_begun self.new) (size self.new) }
        ensures reading { reading self.new ≡ reading self.old }
        ensures cause { HasCause (faults self.old) (faults self.new) result };

    /// Adds bytes to the begun file. Its condition is that one is begun. A file has fewer than 2^62
    /// bytes: at that number the shelf fails. A failure leaves the file begun, and it isn't said
    /// which bytes it has then.
    fn append(&mut self, bytes: &[u8]) -> Result<(), FolderFailed>
        requires begun { is_begun self.old ≡ true }

        ensures tells { tells self.old ↔ tells self.new }
        ensures told { tells self.old → AddsBytes (told self.old) bytes.now result (told self.new) }
        ensures begun { is_begun self.new ≡ true }
        ensures size { OnOk result (size self.new ≡ size self.old + length bytes.now) }
        ensures small { OnOk result (size self.new < 2 ^ 62) }
        ensures reading { reading self.new ≡ reading self.old }
        ensures cause { HasCause (faults self.old) (faults self.new) result };

    /// Ends the begun file, which counts as made from then on. Its condition is that one is begun.
    /// A failure leaves it begun.
    fn finish(&mut self) -> Result<(), FolderFailed>
        requires begun { is_begun self.old ≡ true }

        ensures tells { tells self.old ↔ tells self.new }
        ensures told { tells self.old → EndsFile (told self.old) result (told self.new) }
        ensures made { OnOk result (is_begun self.new ≡ false) }
        ensures still_begun { OnErr result (is_begun self.new ≡ true) }
        ensures reading { reading self.new ≡ reading self.old }
        ensures cause { HasCause (faults self.old) (faults self.new) result };

    /// Opens a file from its start, and answers whether it is there: exactly where its name is
    /// among the files that the folder had when it gave the shelf. It is open until the next `open`
    /// that answers. Where the file isn't there, none is open then. After a failure the file that
    /// was open still is, at the same place.
    fn open(&mut self, name: &str) -> Result<bool, FolderFailed>
        ensures tells { tells self.old ↔ tells self.new }
        ensures told { tells self.old → OpensFile (told self.old) name.now result (told self.new) }
        ensures ok { IfOk result (λ found. reading self.new ≡ none_read found) }
        ensures err { OnErr result (reading self.new ≡ reading self.old) }
        ensures begun { is_begun self.new ≡ is_begun self.old }
        ensures size { size self.new ≡ size self.old }
        ensures cause { HasCause (faults self.old) (faults self.new) result };

    /// Fills a front of the buffer with the next bytes of the open file, and answers how many: 0
    /// exactly at the file's end. Its conditions are that a file is open, and that the buffer isn't
    /// empty. Fewer than 2^62 bytes are read of one file: at that number the shelf fails. A failure
    /// reads nothing, and the file stays open.
    fn read(&mut self, buffer: &mut [u8]) -> Result<usize, FolderFailed>
        requires opened { is_some (reading self.old) ≡ true }
        requires room { 0 < length buffer.old }

        ensures tells { tells self.old ↔ tells self.new }
        ensures told { tells self.old → ReadsOff (told self.old) buffer.new result (told self.new) }
        ensures reading { CountsRead (reading self.old) buffer.old result (reading self.new) }
        ensures begun { is_begun self.new ≡ is_begun self.old }
        ensures size { size self.new ≡ size self.old }
        ensures cause { HasCause (faults self.old) (faults self.new) result };

    /// A shelf that tells its files sees each name once, and has made each once.
    ghost own_names: { (shelf : Self) → tells shelf → IsSoundShelf (told shelf) };
}

/// A folder of files.
pub trait Folder {
    type Shelf: Shelf + Send;

    /// Whether the folder tells its contents. The adapter of a real folder doesn't.
    ghost tells: { Self → Type 0 };

    /// Its files, where it tells them: one map for every path.
    ghost contents: { Self → List File };

    /// The folder's path, once that was said. Every folder tells it.
    ghost path_of: { Self → Option (List ℕ) };

    /// How many shelves are out.
    ghost out: { Self → ℕ };

    /// How often the folder has failed, and each shelf that came back.
    ghost faults: { Self → ℕ };

    /// Sets the path. A refusal, for want of memory, changes nothing.
    fn aim(&mut self, path: &str) -> Result<(), OutOfMemory>
        ensures ok { OnOk result (path_of self.new ≡ Some path.now) }
        ensures err { OnErr result (path_of self.new ≡ path_of self.old) }
        ensures tells { tells self.old ↔ tells self.new }
        ensures contents { contents self.new ≡ contents self.old }
        ensures out { out self.new ≡ out self.old }
        ensures faults { faults self.new ≡ faults self.old };

    /// The names of all files, in the order of their bytes.
    fn list(&mut self) -> Result<NameList, ListFault>
        ensures tells { tells self.old ↔ tells self.new }
        ensures names { tells self.old → IfOk result (λ list. IsListing list (contents self.old)) }
        ensures sorted { IfOk result (λ list. IsSorted (slice_cmp nat_cmp) list) }
        ensures contents { contents self.new ≡ contents self.old }
        ensures path { path_of self.new ≡ path_of self.old }
        ensures out { out self.new ≡ out self.old }
        ensures later { faults self.old ≤ faults self.new }
        ensures cause { result ≡ Err ListFault.Failed → Rose (faults self.old) (faults self.new) };

    /// Gives the file of the name `from` the name `to`. Its condition is that this file is there. A
    /// file that has the name `to` is replaced; where both names are one, all stays as it is. A
    /// failure leaves the contents as they were. The files that a shelf has made are in the folder
    /// once the shelf was taken back, and aren't renamed before that.
    fn rename(&mut self, from: &str, to: &str) -> Result<(), FolderFailed>
        requires there { tells self.old → Contains (file_names (contents self.old)) from.now }

        ensures tells { tells self.old ↔ tells self.new }
        ensures contents { tells self.old →
            RenamesFile from.now to.now (contents self.old) result (contents self.new) }
        ensures path { path_of self.new ≡ path_of self.old }
        ensures out { out self.new ≡ out self.old }
        ensures cause { HasCause (faults self.old) (faults self.new) result };

    /// A shelf, by which files are made, and by which those are read that the folder has now. No
    /// file is begun on it, and none is open.
    fn shelf(&mut self) -> Result<Self::Shelf, FolderFailed>
        ensures tells { tells self.old ↔ tells self.new }
        ensures shelf { tells self.old → IfOk result (λ shelf. Self.Shelf.tells shelf) }
        ensures told { IfOk result (λ shelf. Self.Shelf.tells shelf →
            IsNewShelf (contents self.old) (Self.Shelf.told shelf)) }
        ensures idle { IfOk result (λ shelf.
            IsIdle (Self.Shelf.is_begun shelf) (Self.Shelf.reading shelf)) }
        ensures contents { contents self.new ≡ contents self.old }
        ensures path { path_of self.new ≡ path_of self.old }
        ensures out { CountsOut (out self.old) result (out self.new) }
        ensures cause { HasCause (faults self.old) (faults self.new) result };

    /// Takes the files that the shelf has made, and adds its faults to the folder's. Its conditions
    /// are that a shelf is out, and that none of these files is in the folder. It never fails.
    fn take_back(&mut self, shelf: Self::Shelf)
        requires out { 0 < out self.old }
        requires new_names { tells self.old →
            ShareNoName (Self.Shelf.told shelf).made (contents self.old) }

        ensures tells { tells self.old ↔ tells self.new }
        ensures contents { tells self.old →
            contents self.new ≡ contents self.old ++ (Self.Shelf.told shelf).made }
        ensures path { path_of self.new ≡ path_of self.old }
        ensures out { out self.new + 1 ≡ out self.old }
        ensures later { faults self.old ≤ faults self.new }
        ensures faults { min (faults self.old + Self.Shelf.faults shelf) (2 ^ 64 - 1)
            ≤ faults self.new };

    /// A folder that tells its contents holds each name once.
    ghost own_names: { (folder : Self) → tells folder → HaveOwnNames (contents folder) };
}
