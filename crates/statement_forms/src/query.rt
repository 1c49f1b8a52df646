//! The statements that are answered by rows or ERR.
ghost use Rattle.std.specs.Prelude.{◌≡◌};

use crate::form::Form;
use crate::number_row::NumberRow;
use crate::part::{Part, PartList};

/// A statement that is answered by rows or ERR, one variant for each text. Its fields stand in the
/// order of the text.
#[derive(Drop)]
pub enum Query<'a> {
    /// `SHOW MASTER STATUS`
    MasterStatus,
    /// `SHOW BINARY LOG STATUS`
    BinaryLogStatus,
    /// The schemas.
    Schemas,
    /// The tables and views of a schema.
    Tables {
        schema: Part<'a>,
    },
    /// The columns of a table, in order.
    Columns {
        schema: Part<'a>,
        table: Part<'a>,
    },
    /// The columns of a table's primary key, in order.
    PrimaryKey {
        schema: Part<'a>,
        table: Part<'a>,
    },
    /// The triggers of a schema.
    Triggers {
        schema: Part<'a>,
    },
    /// The procedures and functions of a schema.
    Routines {
        schema: Part<'a>,
    },
    /// What the views of a schema need.
    ViewNeeds {
        schema: Part<'a>,
    },
    /// The events of a schema.
    Events {
        schema: Part<'a>,
    },
    /// `SHOW CREATE DATABASE`
    CreateDatabase {
        schema: Part<'a>,
    },
    /// `SHOW CREATE TABLE`
    CreateTable {
        schema: Part<'a>,
        name: Part<'a>,
    },
    /// `SHOW CREATE VIEW`
    CreateView {
        schema: Part<'a>,
        name: Part<'a>,
    },
    /// `SHOW CREATE PROCEDURE`
    CreateProcedure {
        schema: Part<'a>,
        name: Part<'a>,
    },
    /// `SHOW CREATE FUNCTION`
    CreateFunction {
        schema: Part<'a>,
        name: Part<'a>,
    },
    /// `SHOW CREATE TRIGGER`
    CreateTrigger {
        schema: Part<'a>,
        name: Part<'a>,
    },
    /// `SHOW CREATE EVENT`
    CreateEvent {
        schema: Part<'a>,
        name: Part<'a>,
    },
    /// One key of a table, in order, after `skipped` others.
    Key {
        key: Part<'a>,
        schema: Part<'a>,
        table: Part<'a>,
        skipped: u64,
    },
    /// One key above a bound, after `skipped` others.
    KeyAbove {
        key: Part<'a>,
        schema: Part<'a>,
        table: Part<'a>,
        above: i128,
        skipped: u64,
    },
    /// The rows of a table without a key, in any order. At least one column.
    Rows {
        columns: PartList<'a>,
        schema: Part<'a>,
        table: Part<'a>,
    },
    /// The rows of a table in the order of its key.
    RowsByKey {
        columns: PartList<'a>,
        schema: Part<'a>,
        table: Part<'a>,
        key: Part<'a>,
    },
    /// Those whose key is above a bound.
    RowsAbove {
        columns: PartList<'a>,
        schema: Part<'a>,
        table: Part<'a>,
        key: Part<'a>,
        above: i128,
    },
    /// Those whose key is at most a bound.
    RowsUpTo {
        columns: PartList<'a>,
        schema: Part<'a>,
        table: Part<'a>,
        key: Part<'a>,
        up_to: i128,
    },
    /// Those whose key is above one bound and at most another.
    RowsBetween {
        columns: PartList<'a>,
        schema: Part<'a>,
        table: Part<'a>,
        key: Part<'a>,
        above: i128,
        up_to: i128,
    },
    /// One key of two to four columns, in order, after `skipped` others.
    WideKey {
        keys: PartList<'a>,
        schema: Part<'a>,
        table: Part<'a>,
        skipped: u64,
    },
    /// One such key above a bound of as many numbers as columns, after `skipped` others.
    WideKeyAbove {
        keys: PartList<'a>,
        schema: Part<'a>,
        table: Part<'a>,
        above: NumberRow,
        skipped: u64,
    },
    /// The rows of a table in the order of its key of two to four columns. At least one column is
    /// read.
    RowsByWideKey {
        columns: PartList<'a>,
        schema: Part<'a>,
        table: Part<'a>,
        keys: PartList<'a>,
    },
    /// Those whose key is above a bound of as many numbers as columns.
    RowsAboveWide {
        columns: PartList<'a>,
        schema: Part<'a>,
        table: Part<'a>,
        keys: PartList<'a>,
        above: NumberRow,
    },
    /// Those whose key is at most such a bound.
    RowsUpToWide {
        columns: PartList<'a>,
        schema: Part<'a>,
        table: Part<'a>,
        keys: PartList<'a>,
        up_to: NumberRow,
    },
    /// Those whose key is above one such bound and at most another.
    RowsBetweenWide {
        columns: PartList<'a>,
        schema: Part<'a>,
        table: Part<'a>,
        keys: PartList<'a>,
        above: NumberRow,
        up_to: NumberRow,
    },
    /// The digest of the dump that is being loaded.
    ProgressDump,
    /// The names of the loaded files.
    ProgressFiles,
}

impl Query<'_> {
    ghost use Rattle.statement_forms.specs.Form.{query_form};

    /// The form of the query. Takes no memory.
    pub fn form(&self) -> Form
        ensures { result ≡ query_form self.now }
    {
        match self {
            Query::MasterStatus => Form::ShowMasterStatus,
            Query::BinaryLogStatus => Form::ShowBinaryLogStatus,
            Query::CreateDatabase { .. }
            | Query::CreateTable { .. }
            | Query::CreateView { .. }
            | Query::CreateProcedure { .. }
            | Query::CreateFunction { .. }
            | Query::CreateTrigger { .. }
            | Query::CreateEvent { .. } => Form::ShowCreate,
            Query::Schemas
            | Query::Tables { .. }
            | Query::Columns { .. }
            | Query::PrimaryKey { .. }
            | Query::Triggers { .. }
            | Query::Routines { .. }
            | Query::ViewNeeds { .. }
            | Query::Events { .. }
            | Query::Key { .. }
            | Query::KeyAbove { .. }
            | Query::Rows { .. }
            | Query::RowsByKey { .. }
            | Query::RowsAbove { .. }
            | Query::RowsUpTo { .. }
            | Query::RowsBetween { .. }
            | Query::WideKey { .. }
            | Query::WideKeyAbove { .. }
            | Query::RowsByWideKey { .. }
            | Query::RowsAboveWide { .. }
            | Query::RowsUpToWide { .. }
            | Query::RowsBetweenWide { .. }
            | Query::ProgressDump
            | Query::ProgressFiles => Form::Select,
        }
    }
}
