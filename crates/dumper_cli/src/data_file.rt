//! The data file of a table.
ghost use Rattle.std.specs.Prelude.{◌≡◌, ◌<◌, ◌≤◌, ◌↔◌, ◌∷◌, ◌++◌, [], ℕ, List, true, false, length, IfOk, IfErr, OnOk, OnErr};
ghost use Rattle.link_traits.specs.Cause.{Rose, HasCause};
ghost use Rattle.link_traits.specs.Folder.{told_after_append, files_after_finish};
ghost use Rattle.result_rows.specs.RowCells.{row_cells};
ghost use Rattle.dumper_cli.specs.Columns.{is_row_of};
ghost use Rattle.dumper_cli.specs.DataFile.{FileText, row_text, first_row, text_with_row, insert_head, file_name, table_files};

use crate::column::Column;
use crate::row_text::{RowFault, bytes_into, later_row_into, names_into, row_into, statement_into};
use link_traits::{FolderFailed, Shelf};
use plain_data::{Buffer, Name, OutOfMemory};
use result_rows::Row;
use sql_literals::name_into;
use std::alloc::{AllocError, Global};

/// The lines that a data file begins with.
pub const PREAMBLE: &[u8] =
    b"SET NAMES binary;\nSET FOREIGN_KEY_CHECKS=0;\nSET TIME_ZONE='+00:00';\n";

/// The most bytes of a statement of more than one row.
pub const STATEMENT_SIZE: usize = 1000000;

/// Once so many bytes wait, they are appended to the shelf.
pub const WAITING_SIZE: usize = 65536;

/// Why a row wasn't written, or a file wasn't ended.
#[derive(Clone, Copy, Debug)]
pub enum WriteFault {
    /// The shelf failed, and has counted it.
    File,
    /// The row has another number of cells than there are columns, or the cell of a numeric column
    /// isn't a number.
    Mismatch,
    OutOfMemory,
}

/// A data file to which rows are written. It is begun with its first row, and its bytes go to the
/// shelf in pieces of 64 KiB or a little more.
#[derive(Drop)]
pub struct DataFile<S: Shelf> {
    pub shelf: S,
    pub begun: bool,
    pub name: Name,
    // What an INSERT begins with.
    pub head: Buffer,
    // The text of the row that is being written.
    pub spelled: Buffer,
    // The bytes that are still to be appended to the shelf.
    pub waiting: Buffer,
    // How many bytes the last statement has.
    pub size: usize,
    ghost same: { S.is_begun shelf ≡ begun },
    ghost none_made: { S.tells shelf → (S.told shelf).made ≡ [] },
}

// The name of a table's data file.
fn name_of(alloc: Global, schema: &Name, table: &Name) -> Result<Name, OutOfMemory>
    ensures { IfOk result (λ made. made ≡ file_name schema.now table.now) }
{
    let mut text = String::from_str(alloc, schema.as_str())?;
    text.push_str(".")?;
    text.push_str(table.as_str())?;
    text.push_str(".00000.sql")?;
    Name::of(alloc, text.as_str())
}

// What an INSERT into a table begins with.
fn head_of(alloc: Global, table: &Name, columns: &[Column]) -> Result<Buffer, OutOfMemory>
    ensures { IfOk result (λ made. made.bytes ≡ insert_head table.now columns.now) }
{
    let mut head = Buffer::new(alloc);
    bytes_into(b"INSERT INTO ", &mut head)?;
    name_into(table.as_slice(), &mut head)?;
    bytes_into(b" ", &mut head)?;
    names_into(b'(', columns, &mut head)?;
    bytes_into(b") VALUES\n", &mut head)?;
    Ok(head)
}

// Spells a row.
fn spell(columns: &[Column], row: &Row<'_>, out: &mut Buffer) -> Result<(), WriteFault>
    ensures ok { OnOk result (out.new.bytes ≡ row_text columns.now (row_cells row.now)) }
    ensures mismatch { result ≡ Err WriteFault.Mismatch
        ↔ is_row_of columns.now (row_cells row.now) ≡ false }
    ensures not_file { result ≡ Err WriteFault.File → ⊥ }
{
    out.clear();
    match row_into(columns, row, out) {
        Ok(()) => Ok(()),
        Err(RowFault::Mismatch) => Err(WriteFault::Mismatch),
        Err(RowFault::OutOfMemory) => Err(WriteFault::OutOfMemory),
    }
}

// Appends bytes to the begun file and ends it.
fn finish<S: Shelf>(shelf: &mut S, bytes: &[u8]) -> Result<(), FolderFailed>
    requires { S.is_begun shelf.old ≡ true }

    ensures tells { S.tells shelf.old ↔ S.tells shelf.new }
    ensures ok { OnOk result (S.tells shelf.old → (S.told shelf.new).made
        ≡ files_after_finish (told_after_append (S.told shelf.old) bytes.now)) }
    ensures err { OnErr result
        (S.tells shelf.old → (S.told shelf.new).made ≡ (S.told shelf.old).made) }
    ensures cause { HasCause (S.faults shelf.old) (S.faults shelf.new) result }
{
    shelf.append(bytes)?;
    shelf.finish()
}

impl<S: Shelf> DataFile<S> {
    ghost use Rattle.plain_data.specs.Cell.{Cell};
    ghost use Rattle.dumper_cli.specs.Writing.{Holds, HoldsRows, IsWriting, KeepsFile, IsSame};

    /// The file of a table's rows before there is one. It is refused only for want of memory, and gives
    /// the shelf back then.
    pub fn new(
        alloc: Global,
        shelf: S,
        schema: &Name,
        table: &Name,
        columns: &[Column],
    ) -> Result<DataFile<S>, (S, OutOfMemory)>
        requires none_begun { S.is_begun shelf ≡ false }
        requires none_made { S.tells shelf → (S.told shelf).made ≡ [] }

        ensures shelf { IfOk result (λ file. file.shelf ≡ shelf) }
        ensures ok { IfOk result
            (λ file. IsWriting S.Shelf schema.now table.now columns.now [] file) }
        ensures err { IfErr result (λ refused. refused.0 ≡ shelf) }
    {
        let Ok(name) = name_of(alloc, schema, table) else {
            return Err((shelf, OutOfMemory));
        };
        let Ok(head) = head_of(alloc, table, columns) else {
            return Err((shelf, OutOfMemory));
        };
        Ok(DataFile {
            shelf,
            begun: false,
            name,
            head,
            spelled: Buffer::new(alloc),
            waiting: Buffer::new(alloc),
            size: 0,
        })
    }

    /// Gives the shelf back, which has made nothing, as after a fault. Takes no memory.
    pub fn into_shelf(self) -> S
        ensures shelf { result ≡ self.shelf }
        ensures none_made { S.tells result → (S.told result).made ≡ [] }
    {
        let DataFile {
            shelf,
            begun: _,
            name: _,
            head: _,
            spelled: _,
            waiting: _,
            size: _,
        } = self;
        shelf
    }

    // Begins the file with the row that was spelled.
    fn begin(&mut self) -> Result<(), WriteFault>
        requires { self.old.begun ≡ false }

        ensures kept { KeepsFile S.Shelf self.old self.new }
        ensures begun { OnOk result (self.new.begun ≡ true) }
        ensures ok { OnOk result (self.old.waiting.bytes ≡ [] →
            Holds S.Shelf (first_row self.old.head.bytes self.old.spelled.bytes) self.new) }
        ensures same { IfErr result
            (λ fault. (fault ≡ WriteFault.File → ⊥) → IsSame S.Shelf self.old self.new) }
        ensures mismatch { result ≡ Err WriteFault.Mismatch → ⊥ }
        ensures cause { result ≡ Err WriteFault.File →
            Rose (S.faults self.old.shelf) (S.faults self.new.shelf) }
    {
        let Ok(size) = statement_into(
            PREAMBLE,
            self.head.as_slice(),
            self.spelled.as_slice(),
            &mut self.waiting,
        ) else {
            return Err(WriteFault::OutOfMemory);
        };
        if self.shelf.create(self.name.as_str()).is_err() {
            return Err(WriteFault::File);
        }
        self.begun = true;
        self.size = size;
        Ok(())
    }

    // Adds the row that was spelled after others.
    fn go_on(&mut self) -> Result<(), WriteFault>
        ensures kept { KeepsFile S.Shelf self.old self.new }
        ensures begun { self.new.begun ≡ self.old.begun }
        ensures ok { OnOk result ((text : FileText) → Holds S.Shelf text self.old → Holds S.Shelf
            (text_with_row self.old.head.bytes text self.old.spelled.bytes) self.new) }
        ensures same { OnErr result (IsSame S.Shelf self.old self.new) }
        ensures out_of_memory { IfErr result (λ fault. fault ≡ WriteFault.OutOfMemory) }
    {
        let Ok(size) = later_row_into(
            self.size,
            self.head.as_slice(),
            self.spelled.as_slice(),
            &mut self.waiting,
        ) else {
            return Err(WriteFault::OutOfMemory);
        };
        self.size = size;
        Ok(())
    }

    // Adds the row that was spelled.
    #[tactic(auto, using(crate::proofs::Writing::HoldsRows_more))]
    fn add(&mut self) -> Result<(), WriteFault>
        ensures kept { KeepsFile S.Shelf self.old self.new }
        ensures begun { OnOk result (self.new.begun ≡ true) }
        ensures ok { OnOk result ((rows : List (List ℕ)) → HoldsRows S.Shelf rows self.old →
            HoldsRows S.Shelf (rows ++ self.old.spelled.bytes ∷ []) self.new) }
        ensures same { IfErr result
            (λ fault. (fault ≡ WriteFault.File → ⊥) → IsSame S.Shelf self.old self.new) }
        ensures mismatch { result ≡ Err WriteFault.Mismatch → ⊥ }
        ensures cause { result ≡ Err WriteFault.File →
            Rose (S.faults self.old.shelf) (S.faults self.new.shelf) }
    {
        if self.begun {
            self.go_on()
        } else {
            self.begin()
        }
    }

    // Appends what waits to the shelf, once it is enough.
    fn pass_on(&mut self) -> Result<(), WriteFault>
        requires { self.old.begun ≡ true }

        ensures kept { KeepsFile S.Shelf self.old self.new }
        ensures ok { OnOk result
            ((text : FileText) → Holds S.Shelf text self.old → Holds S.Shelf text self.new) }
        ensures waits { OnOk result (length self.new.waiting.bytes < WAITING_SIZE) }
        ensures file { IfErr result (λ fault. fault ≡ WriteFault.File) }
        ensures cause { result ≡ Err WriteFault.File →
            Rose (S.faults self.old.shelf) (S.faults self.new.shelf) }
    {
        if self.waiting.len() < WAITING_SIZE {
            return Ok(());
        }
        if self.shelf.append(self.waiting.as_slice()).is_err() {
            return Err(WriteFault::File);
        }
        self.waiting.clear();
        Ok(())
    }

    /// Writes a row of these columns, which are those that the file was made with. It is a mismatch
    /// exactly where it isn't one, and a fault of the file only where the shelf has failed; else only
    /// want of memory refuses it. A mismatch and want of memory leave the file as it was; after a fault
    /// of the file no more is to be written to it.
    pub fn row(&mut self, columns: &[Column], row: &Row<'_>) -> Result<(), WriteFault>
        ensures kept { KeepsFile S.Shelf self.old self.new }
        ensures ok { OnOk result
            ((schema table : List ℕ) (rows : List (List Cell)) →
            IsWriting S.Shelf schema table columns.now rows self.old →
            IsWriting S.Shelf schema table columns.now
            (rows ++ (row_cells row.now) ∷ []) self.new) }
        ensures waits { OnOk result (length self.new.waiting.bytes < WAITING_SIZE) }
        ensures same { IfErr result
            (λ fault. (fault ≡ WriteFault.File → ⊥) → IsSame S.Shelf self.old self.new) }
        ensures mismatch { result ≡ Err WriteFault.Mismatch
            ↔ is_row_of columns.now (row_cells row.now) ≡ false }
        ensures cause { result ≡ Err WriteFault.File →
            Rose (S.faults self.old.shelf) (S.faults self.new.shelf) }
    {
        spell(columns, row, &mut self.spelled)?;
        self.add()?;
        self.pass_on()
    }

    /// Ends the file: what waits is appended, and the shelf has made the file then. Where no row was
    /// written, nothing is made. It is a fault of the file only where the shelf has failed; else only
    /// want of memory refuses it. After a refusal nothing is made.
    #[tactic(auto, using(crate::proofs::Writing::IsWriting_ended))]
    pub fn end(self) -> (S, Result<(), WriteFault>)
        ensures tells { S.tells self.shelf ↔ S.tells result.0 }
        ensures later { S.faults self.shelf ≤ S.faults result.0 }
        ensures ok { OnOk result.1
            ((schema table : List ℕ) (columns : List Column) (rows : List (List Cell)) →
            IsWriting S.Shelf schema table columns rows self → S.tells self.shelf →
            (S.told result.0).made ≡ table_files schema table columns rows) }
        ensures err { OnErr result.1 (S.tells self.shelf → (S.told result.0).made ≡ []) }
        ensures mismatch { result.1 ≡ Err WriteFault.Mismatch → ⊥ }
        ensures cause { result.1 ≡ Err WriteFault.File →
            Rose (S.faults self.shelf) (S.faults result.0) }
    {
        let DataFile {
            mut shelf,
            begun,
            name: _,
            head: _,
            spelled: _,
            mut waiting,
            size: _,
        } = self;
        if !begun {
            return (shelf, Ok(()));
        }
        if bytes_into(b";\n", &mut waiting).is_err() {
            return (shelf, Err(WriteFault::OutOfMemory));
        }
        if finish(&mut shelf, waiting.as_slice()).is_err() {
            return (shelf, Err(WriteFault::File));
        }
        (shelf, Ok(()))
    }
}
