//! The plainest store.
ghost use Rattle.std.specs.Prelude.{◌≡◌, [], Some, true, is_some, option_and_then, option_copied, IfOk, IfSome};
ghost use Rattle.server_data.specs.Fold.{changes_db, empty_db};
ghost use Rattle.version_store.specs.Read.{ReadsTable, two_bounds, may_read, table_in};
ghost use Rattle.version_store.specs.Slots.{held_by, live_in, shown_in};
ghost use Rattle.version_store.specs.Store.{fits_in, table_at};

use crate::rows::{Limits, read_rows};
use crate::slots::{live, put_into, shown};
use crate::store::{SnapshotId, Store};
use object_forms::Kind;
use plain_data::{OutOfMemory, PlainList};
use server_data::{Database, Need, Object, RowList, Transaction};
use server_model::{apply_changes, may_apply, object_in};
use std::alloc::Global;
use std::marker::Model;

/// A store that keeps the present database, and a copy of it for each live snapshot. It is a reference for
/// other stores: a transaction and a snapshot take the time and the memory of a copy of the whole database.
#[derive(Drop)]
pub struct PlainStore {
    alloc: Global,
    present: Database,
    slots: Vec<Option<Database>>,
}

impl Model for PlainStore {
    ghost use Rattle.version_store.specs.Slots.{PlainState};

    ghost Value = { PlainState };

    ghost view = { λ s. record { present = s.present; slots = s.slots.items } };
}

impl PlainStore {
    /// The store before any transaction, without snapshots. Takes no memory.
    pub fn new(alloc: Global) -> PlainStore
        ensures { result ≡ record { present = empty_db; slots = [] } }
    {
        PlainStore {
            alloc,
            present: Database {
                objects: PlainList::new(alloc),
                rows: PlainList::new(alloc),
            },
            slots: Vec::new(alloc),
        }
    }

    /// The objects of the present database. Takes no memory.
    pub fn objects(&self) -> &[Object]
        ensures { result.now ≡ self.now.present.objects }
    {
        self.present.objects.as_slice()
    }

    /// How many snapshots are live. Takes no memory.
    pub fn live(&self) -> usize
        ensures { result ≡ live_in self.now.slots }
    {
        live(self.slots.as_slice())
    }

    /// Whether the snapshot is live. Takes no memory.
    pub fn is_live(&self, id: SnapshotId) -> bool
        ensures { result ≡ is_some (shown_in self.now.slots id.number) }
    {
        shown(self.slots.as_slice(), id.number as usize).is_some()
    }

    /// The table at a snapshot; None also where the snapshot isn't live. Takes no memory.
    pub fn table(&self, id: SnapshotId, table: &Need) -> Option<&Object>
        ensures { option_copied result ≡ table_at (held_by self.now) id.number table.now }
    {
        table_of(shown(self.slots.as_slice(), id.number as usize), table)
    }

    /// Whether `read` may be asked so: the snapshot is live and has the table, and there are no bounds
    /// where that has no key. Takes no memory.
    pub fn may_read(
        &self,
        id: SnapshotId,
        table: &Need,
        above: Option<i128>,
        upto: Option<i128>,
    ) -> bool
        ensures { result
            ≡ may_read (table_at (held_by self.now) id.number table.now) (two_bounds above upto) }
    {
        match self.table(id, table) {
            None => false,
            Some(object) => object.key.is_some() || (above.is_none() && upto.is_none()),
        }
    }

    /// The objects at a snapshot. Its condition is that the snapshot is live. Takes no memory.
    pub fn objects_at(&self, id: SnapshotId) -> &[Object]
        requires { is_some (shown_in self.now.slots id.number) ≡ true }
        ensures { IfSome (shown_in self.now.slots id.number)
            (λ database. result.now ≡ database.objects) }
    {
        match shown(self.slots.as_slice(), id.number as usize) {
            None => &[],
            Some(database) => database.objects.as_slice(),
        }
    }
}

impl Store for PlainStore {
    ghost held = { held_by };

    fn fits(&self, transaction: &Transaction) -> bool {
        may_apply(&self.present, transaction.changes.as_slice())
    }

    fn apply(&mut self, transaction: &Transaction) -> Result<(), OutOfMemory> {
        self.present = after(self.alloc, &self.present, transaction)?;
        Ok(())
    }

    fn snapshot(&mut self) -> Result<SnapshotId, OutOfMemory> {
        let database = self.present.copy()?;
        let number = put_into(&mut self.slots, database)?;
        Ok(SnapshotId { number })
    }

    fn read(
        &self,
        id: SnapshotId,
        table: &Need,
        above: Option<i128>,
        upto: Option<i128>,
    ) -> Result<RowList, OutOfMemory> {
        match shown(self.slots.as_slice(), id.number as usize) {
            None => Ok(PlainList::new(self.alloc)),
            Some(database) => read_table(self.alloc, database, table, Limits { above, upto }),
        }
    }

    fn end(&mut self, id: SnapshotId) {
        self.slots[id.number as usize] = None;
    }
}

// The table of a database that may be there.
fn table_of<'a>(shown: Option<&'a Database>, table: &Need) -> Option<&'a Object>
    ensures { option_copied result ≡ option_and_then (λ database. table_in database table.now)
        (option_copied shown.entry) }
{
    match shown {
        None => None,
        Some(database) => object_in(
            database.objects.as_slice(),
            Kind::Table,
            table.schema.as_slice(),
            table.name.as_slice(),
        ),
    }
}

// The database after a transaction that fits.
fn after(
    alloc: Global,
    database: &Database,
    transaction: &Transaction,
) -> Result<Database, OutOfMemory>
    requires { fits_in database.now transaction.now ≡ true }
    ensures { IfOk result (λ next. changes_db database.now transaction.now.changes ≡ Some next) }
{
    let mut next = database.copy()?;
    let _ = apply_changes(alloc, &mut next, transaction.changes.as_slice())?;
    Ok(next)
}

// What is read of a table of a database.
fn read_table(
    alloc: Global,
    database: &Database,
    table: &Need,
    limits: Limits,
) -> Result<RowList, OutOfMemory>
    ensures { IfOk result (λ read.
        ReadsTable database.now table.now (two_bounds limits.above limits.upto) read) }
{
    let objects = database.objects.as_slice();
    let found = object_in(
        objects,
        Kind::Table,
        table.schema.as_slice(),
        table.name.as_slice(),
    );
    match found {
        None => Ok(PlainList::new(alloc)),
        Some(object) => read_rows(alloc, database, table, object, limits),
    }
}
