//! What a server holds, and how it changes.
ghost use Rattle.std.specs.Prelude.{◌≡◌, IfOk};

use crate::rows::{CellList, RowList};
use object_forms::{ColumnList, Kind};
use plain_data::{Bytes, Name, OutOfMemory, Plain, PlainList};

/// The settings of a session under which a procedure, a function, a view, a trigger or an event was made.
/// (MySQL 8.0 Reference Manual, 15.1.13, 15.1.17, 15.1.22, 15.1.23.)
#[derive(Drop)]
pub struct Settings {
    /// The mode; a view's is empty.
    pub sql_mode: Bytes,
    /// The character set of the client.
    pub client: Bytes,
    /// The collation of the connection.
    pub collation: Bytes,
    /// The time zone of an event; empty for other kinds.
    pub zone: Bytes,
}

impl Settings {
    /// Equal settings. It is refused only for want of memory.
    pub fn copy(&self) -> Result<Settings, OutOfMemory>
        ensures { IfOk result (λ made. made ≡ self.now) }
    {
        Ok(Settings {
            sql_mode: self.sql_mode.copy()?,
            client: self.client.copy()?,
            collation: self.collation.copy()?,
            zone: self.zone.copy()?,
        })
    }
}

impl Plain for Settings {
    fn duplicate(&self) -> Result<Settings, OutOfMemory> {
        self.copy()
    }
}

// Equal settings, where there are any.
fn settings_copy(settings: &Option<Settings>) -> Result<Option<Settings>, OutOfMemory>
    ensures { IfOk result (λ made. made ≡ settings.now) }
{
    match settings {
        None => Ok(None),
        Some(settings) => Ok(Some(settings.copy()?)),
    }
}

/// A table or a view that something needs, by its schema and its name.
#[derive(Drop)]
pub struct Need {
    pub schema: Name,
    pub name: Name,
}

impl Need {
    /// An equal need. It is refused only for want of memory.
    pub fn copy(&self) -> Result<Need, OutOfMemory>
        ensures { IfOk result (λ made. made ≡ self.now) }
    {
        Ok(Need {
            schema: self.schema.copy()?,
            name: self.name.copy()?,
        })
    }
}

impl Plain for Need {
    fn duplicate(&self) -> Result<Need, OutOfMemory> {
        self.copy()
    }
}

pub type NeedList = PlainList<Need>;

/// A schema, table, view, procedure, function, trigger or event.
#[derive(Drop)]
pub struct Object {
    pub kind: Kind,
    /// The schema that it stands in; a schema stands in itself.
    pub schema: Name,
    pub name: Name,
    /// The text that makes it, as SHOW CREATE gives it.
    pub text: Bytes,
    pub settings: Option<Settings>,
    /// A table's columns; empty for other kinds.
    pub columns: ColumnList,
    /// Which column is the key.
    pub key: Option<u32>,
    /// A trigger's place among the triggers of its table, from 1 on.
    pub rank: u32,
    /// What a view needs; a trigger needs its table, which is the first here.
    pub needs: NeedList,
}

impl Object {
    /// An equal object. It is refused only for want of memory.
    pub fn copy(&self) -> Result<Object, OutOfMemory>
        ensures { IfOk result (λ made. made ≡ self.now) }
    {
        let (schema, name) = names_copy(&self.schema, &self.name)?;
        let (text, settings) = text_copy(&self.text, &self.settings)?;
        let (columns, needs) = columns_copy(&self.columns, &self.needs)?;
        Ok(Object {
            kind: self.kind,
            schema,
            name,
            text,
            settings,
            columns,
            key: self.key,
            rank: self.rank,
            needs,
        })
    }
}

// An equal text, and equal settings.
fn text_copy(
    text: &Bytes,
    settings: &Option<Settings>,
) -> Result<(Bytes, Option<Settings>), OutOfMemory>
    ensures { IfOk result (λ made. (made.0 ≡ text.now) × (made.1 ≡ settings.now)) }
{
    Ok((text.copy()?, settings_copy(settings)?))
}

// Equal columns, and equal needs.
fn columns_copy(
    columns: &ColumnList,
    needs: &NeedList,
) -> Result<(ColumnList, NeedList), OutOfMemory>
    ensures { IfOk result (λ made. (made.0 ≡ columns.now) × (made.1 ≡ needs.now)) }
{
    Ok((columns.copy()?, needs.copy()?))
}

impl Plain for Object {
    fn duplicate(&self) -> Result<Object, OutOfMemory> {
        self.copy()
    }
}

pub type ObjectList = PlainList<Object>;

/// A position of the binary log. (MySQL 8.0 Reference Manual, 15.7.7.23 "SHOW MASTER STATUS Statement".)
#[derive(Drop)]
pub struct Position {
    pub file: Bytes,
    pub offset: u64,
    /// The GTID set, without line feeds.
    pub gtid: Bytes,
}

impl Position {
    /// An equal position. It is refused only for want of memory.
    pub fn copy(&self) -> Result<Position, OutOfMemory>
        ensures { IfOk result (λ made. made ≡ self.now) }
    {
        Ok(Position {
            file: self.file.copy()?,
            offset: self.offset,
            gtid: self.gtid.copy()?,
        })
    }
}

impl Plain for Position {
    fn duplicate(&self) -> Result<Position, OutOfMemory> {
        self.copy()
    }
}

// An equal position, where there is one.
fn position_copy(position: &Option<Position>) -> Result<Option<Position>, OutOfMemory>
    ensures { IfOk result (λ made. made ≡ position.now) }
{
    match position {
        None => Ok(None),
        Some(position) => Ok(Some(position.copy()?)),
    }
}

/// A change of what a server holds.
#[derive(Drop)]
pub enum Change {
    /// An object is made.
    Make(Object),
    /// An object is dropped, a table with its rows.
    Drop {
        kind: Kind,
        schema: Name,
        name: Name,
    },
    /// A row is put into a table.
    Put {
        schema: Name,
        table: Name,
        row: CellList,
    },
    /// A row is taken out of a table, once.
    Remove {
        schema: Name,
        table: Name,
        row: CellList,
    },
}

impl Change {
    /// An equal change. It is refused only for want of memory.
    pub fn copy(&self) -> Result<Change, OutOfMemory>
        ensures { IfOk result (λ made. made ≡ self.now) }
    {
        match self {
            Change::Make(object) => Ok(Change::Make(object.copy()?)),
            Change::Drop { kind, schema, name } => {
                let (schema, name) = names_copy(schema, name)?;
                let kind = *kind;
                Ok(Change::Drop { kind, schema, name })
            }
            Change::Put { schema, table, row } => {
                let (schema, table, row) = row_copy(schema, table, row)?;
                Ok(Change::Put { schema, table, row })
            }
            Change::Remove { schema, table, row } => {
                let (schema, table, row) = row_copy(schema, table, row)?;
                Ok(Change::Remove { schema, table, row })
            }
        }
    }
}

// Equal names.
fn names_copy(schema: &Name, name: &Name) -> Result<(Name, Name), OutOfMemory>
    ensures { IfOk result (λ made. (made.0 ≡ schema.now) × (made.1 ≡ name.now)) }
{
    Ok((schema.copy()?, name.copy()?))
}

// Equal names of a table, and an equal row.
fn row_copy(
    schema: &Name,
    table: &Name,
    row: &CellList,
) -> Result<(Name, Name, CellList), OutOfMemory>
    ensures { IfOk result (λ m. (m.0 ≡ schema.now) × (m.1 ≡ table.now) × (m.2 ≡ row.now)) }
{
    Ok((schema.copy()?, table.copy()?, row.copy()?))
}

impl Plain for Change {
    fn duplicate(&self) -> Result<Change, OutOfMemory> {
        self.copy()
    }
}

pub type ChangeList = PlainList<Change>;

/// What is committed at once, and the position of the binary log after it, where one is known.
#[derive(Drop)]
pub struct Transaction {
    pub changes: ChangeList,
    pub mark: Option<Position>,
}

impl Transaction {
    /// An equal transaction. It is refused only for want of memory.
    pub fn copy(&self) -> Result<Transaction, OutOfMemory>
        ensures { IfOk result (λ made. made ≡ self.now) }
    {
        Ok(Transaction {
            changes: self.changes.copy()?,
            mark: position_copy(&self.mark)?,
        })
    }
}

impl Plain for Transaction {
    fn duplicate(&self) -> Result<Transaction, OutOfMemory> {
        self.copy()
    }
}

/// Committed transactions, in their order.
pub type History = PlainList<Transaction>;

/// Rows of a table.
#[derive(Drop)]
pub struct TableRows {
    pub table: Need,
    pub rows: RowList,
}

impl TableRows {
    /// An equal list of rows of the same table. It is refused only for want of memory.
    pub fn copy(&self) -> Result<TableRows, OutOfMemory>
        ensures { IfOk result (λ made. made ≡ self.now) }
    {
        Ok(TableRows {
            table: self.table.copy()?,
            rows: self.rows.copy()?,
        })
    }
}

impl Plain for TableRows {
    fn duplicate(&self) -> Result<TableRows, OutOfMemory> {
        self.copy()
    }
}

pub type TableList = PlainList<TableRows>;

/// Objects and rows. A table that stands in `rows` twice has the rows of both.
#[derive(Drop)]
pub struct Database {
    pub objects: ObjectList,
    pub rows: TableList,
}

impl Database {
    /// An equal database. It is refused only for want of memory.
    pub fn copy(&self) -> Result<Database, OutOfMemory>
        ensures { IfOk result (λ made. made ≡ self.now) }
    {
        Ok(Database {
            objects: self.objects.copy()?,
            rows: self.rows.copy()?,
        })
    }
}

impl Plain for Database {
    fn duplicate(&self) -> Result<Database, OutOfMemory> {
        self.copy()
    }
}
