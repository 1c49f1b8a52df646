//! Histories, databases and choices out of the words of a case.
use crate::fault::CaseFault;
use object_forms::{Column, ColumnList, Kind};
use plain_data::{Bytes, Name, NameList};
use server_data::{
    CellList, Change, ChangeList, Choice, Database, History, Need, NeedList, Object, ObjectList,
    RowList, Settings, TableList, TableRows, Transaction,
};
use sql_cells::Cell;
use std::alloc::Global;

fn kind_of(word: &str) -> Result<Kind, CaseFault> {
    match word {
        "schema" => Ok(Kind::Schema),
        "table" => Ok(Kind::Table),
        "procedure" => Ok(Kind::Procedure),
        "function" => Ok(Kind::Function),
        "view" => Ok(Kind::View),
        "trigger" => Ok(Kind::Trigger),
        "event" => Ok(Kind::Event),
        _ => Err(CaseFault::Unread),
    }
}

// What stands around the first of these separators; both are the whole where there is none.
fn parts<'a>(words: &'a str, separator: &str) -> (&'a str, &'a str) {
    match words.split_once(separator) {
        Some(parts) => parts,
        None => (words, words),
    }
}

// The same, and nothing after the whole where there is none.
fn around<'a>(words: &'a str, separator: &str) -> (&'a str, &'a str) {
    match words.split_once(separator) {
        Some(parts) => parts,
        None => (words, ""),
    }
}

fn need(alloc: Global, schema: &str, name: &str) -> Result<Need, CaseFault> {
    Ok(Need {
        schema: Name::of(alloc, schema)?,
        name: Name::of(alloc, name)?,
    })
}

// The place `s.t` of a table.
fn table_of(alloc: Global, place: &str) -> Result<Need, CaseFault> {
    let (schema, name) = parts(place, ".");
    need(alloc, schema, name)
}

// The one column that each object has.
fn columns_of(alloc: Global) -> Result<ColumnList, CaseFault> {
    let mut columns = ColumnList::new(alloc);
    columns.push(Column {
        name: Name::of(alloc, "a")?,
        data_type: Bytes::of(alloc, b"int")?,
        unsigned: false,
        generated: false,
    })?;
    Ok(columns)
}

// What an object needs: nothing, or this table of its schema.
fn needs_of(alloc: Global, schema: &str, table: &str) -> Result<NeedList, CaseFault> {
    let mut needs = NeedList::new(alloc);
    if !table.is_empty() {
        needs.push(need(alloc, schema, table)?)?;
    }
    Ok(needs)
}

// Settings with this time zone.
fn settings_of(alloc: Global, zone: &str) -> Result<Settings, CaseFault> {
    Ok(Settings {
        sql_mode: Bytes::of(alloc, b"")?,
        client: Bytes::of(alloc, b"utf8mb4")?,
        collation: Bytes::of(alloc, b"utf8mb4_bin")?,
        zone: Bytes::of(alloc, zone.as_bytes())?,
    })
}

// None, where no zone is named.
fn settings_with(alloc: Global, zone: &str) -> Result<Option<Settings>, CaseFault> {
    if zone.is_empty() {
        return Ok(None);
    }
    Ok(Some(settings_of(alloc, zone)?))
}

// An object of this place, `s` of a schema or `s.t`, which needs this table, or nothing, and has
// settings of this time zone, or none.
fn placed(
    alloc: Global,
    kind: Kind,
    place: &str,
    table: &str,
    zone: &str,
) -> Result<Object, CaseFault> {
    let (schema, name) = parts(place, ".");
    let needs = needs_of(alloc, schema, table)?;
    let settings = settings_with(alloc, zone)?;
    let Need { schema, name } = need(alloc, schema, name)?;
    let columns = columns_of(alloc)?;
    Ok(Object {
        kind,
        schema,
        name,
        text: Bytes::of(alloc, b"")?,
        settings,
        columns,
        key: None,
        rank: 0,
        needs,
    })
}

// An object, as `table s.t`, `trigger s.r on t`, or `event s.e at +00:00`.
fn object_of(alloc: Global, words: &str) -> Result<Object, CaseFault> {
    let (kind, place) = parts(words, " ");
    let kind = kind_of(kind)?;
    let (place, zone) = around(place, " at ");
    let (place, table) = around(place, " on ");
    placed(alloc, kind, place, table, zone)
}

fn cell_of(alloc: Global, word: &str) -> Result<Cell, CaseFault> {
    if word == "NULL" {
        return Ok(Cell::Null);
    }
    Ok(Cell::Value(Bytes::of(alloc, word.as_bytes())?))
}

// The cells of a row, with a blank between them.
fn row_of(alloc: Global, words: &str) -> Result<CellList, CaseFault> {
    let mut row = CellList::new(alloc);
    for word in words.split(' ') {
        row.push(cell_of(alloc, word)?)?;
    }
    Ok(row)
}

fn drop_of(alloc: Global, words: &str) -> Result<Change, CaseFault> {
    let (kind, place) = parts(words, " ");
    let kind = kind_of(kind)?;
    let Need { schema, name } = table_of(alloc, place)?;
    Ok(Change::Drop { kind, schema, name })
}

fn put_of(alloc: Global, words: &str) -> Result<Change, CaseFault> {
    let (place, row) = parts(words, " ");
    let row = row_of(alloc, row)?;
    let Need { schema, name } = table_of(alloc, place)?;
    Ok(Change::Put {
        schema,
        table: name,
        row,
    })
}

fn remove_of(alloc: Global, words: &str) -> Result<Change, CaseFault> {
    let (place, row) = parts(words, " ");
    let row = row_of(alloc, row)?;
    let Need { schema, name } = table_of(alloc, place)?;
    Ok(Change::Remove {
        schema,
        table: name,
        row,
    })
}

// A change, as `make table s.t`, `drop table s.t`, `put s.t 1` or `remove s.t 1`.
fn change_of(alloc: Global, words: &str) -> Result<Change, CaseFault> {
    let (call, words) = parts(words, " ");
    match call {
        "make" => Ok(Change::Make(object_of(alloc, words)?)),
        "drop" => drop_of(alloc, words),
        "put" => put_of(alloc, words),
        "remove" => remove_of(alloc, words),
        _ => Err(CaseFault::Unread),
    }
}

// A transaction: changes with commas between them.
fn transaction_of(alloc: Global, words: &str) -> Result<Transaction, CaseFault> {
    let mut changes = ChangeList::new(alloc);
    for words in words.split(", ") {
        changes.push(change_of(alloc, words)?)?;
    }
    Ok(Transaction {
        changes,
        mark: None,
    })
}

/// A history: transactions with semicolons between them.
pub fn history_of(alloc: Global, words: &str) -> Result<History, CaseFault> {
    let mut history = History::new(alloc);
    for words in words.split("; ") {
        history.push(transaction_of(alloc, words)?)?;
    }
    Ok(history)
}

// A row of a table, as `s.t 1`.
fn rows_of(alloc: Global, words: &str) -> Result<TableRows, CaseFault> {
    let (place, row) = parts(words, " ");
    let mut rows = RowList::new(alloc);
    rows.push(row_of(alloc, row)?)?;
    Ok(TableRows {
        table: table_of(alloc, place)?,
        rows,
    })
}

// Adds a row or an object.
fn add(alloc: Global, words: &str, database: &mut Database) -> Result<(), CaseFault> {
    match words.strip_prefix("row ") {
        Some(words) => database.rows.push(rows_of(alloc, words)?)?,
        None => database.objects.push(object_of(alloc, words)?)?,
    }
    Ok(())
}

/// A database: objects and rows, as `row s.t 1`, with commas between them.
pub fn database_of(alloc: Global, words: &str) -> Result<Database, CaseFault> {
    let mut database = Database {
        objects: ObjectList::new(alloc),
        rows: TableList::new(alloc),
    };
    for words in words.split(", ") {
        add(alloc, words, &mut database)?;
    }
    Ok(database)
}

// Adds a name to those that a choice names, or sets its pattern or one of its switches.
fn choose(alloc: Global, words: &str, choice: &mut Choice) -> Result<(), CaseFault> {
    let (call, name) = parts(words, " ");
    match call {
        "everything" => (),
        "database" => choice.databases.push(Name::of(alloc, name)?)?,
        "table" => choice.tables.push(table_of(alloc, name)?)?,
        "no-schemas" => choice.no_schemas = true,
        "no-data" => choice.no_data = true,
        "triggers" => choice.triggers = true,
        "routines" => choice.routines = true,
        "events" => choice.events = true,
        "like" => choice.pattern = Some(Bytes::of(alloc, name.as_bytes())?),
        _ => return Err(CaseFault::Unread),
    }
    Ok(())
}

/// A choice: its names, as `database s` or `table s.t`, its pattern, as `like s.t*`, and its switches, with
/// commas between them.
pub fn choice_of(alloc: Global, words: &str) -> Result<Choice, CaseFault> {
    let mut choice = Choice {
        databases: NameList::new(alloc),
        tables: NeedList::new(alloc),
        pattern: None,
        no_schemas: false,
        no_data: false,
        triggers: false,
        routines: false,
        events: false,
    };
    for words in words.split(", ") {
        choose(alloc, words, &mut choice)?;
    }
    Ok(choice)
}
