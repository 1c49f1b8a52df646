//! Columns.
ghost use Rattle.std.specs.Prelude.{◌≡◌, true, false, IfOk, MatchOption, bytes_eq, option_copied};
ghost use Rattle.std.specs.List.{list_any};
ghost use Rattle.result_rows.specs.RowCells.{row_cells};
ghost use Rattle.dumper_cli.specs.Columns.{cell_kind_of, is_utf8, described, column_from};
ghost use Rattle.honest_server.specs.Answer.{has_bytes, says_generated};

use plain_data::{Name, OutOfMemory, Plain, PlainList};
use result_rows::Row;
use sql_cells::CellKind;
use std::alloc::Global;

// Types whose cells are written as numbers.
const NUMBER_TYPES: [&str; 7] = [
    "tinyint",
    "smallint",
    "mediumint",
    "int",
    "bigint",
    "decimal",
    "year",
];

// Types whose cells are written as text.
const TEXT_TYPES: [&str; 12] = [
    "char",
    "varchar",
    "tinytext",
    "text",
    "mediumtext",
    "longtext",
    "enum",
    "set",
    "date",
    "time",
    "datetime",
    "timestamp",
];

/// A column of a table: its name, and how its cells are spelled.
#[derive(Debug, Drop)]
pub struct Column {
    pub name: Name,
    pub kind: CellKind,
}

impl Plain for Column {
    fn duplicate(&self) -> Result<Column, OutOfMemory> {
        Ok(Column {
            name: self.name.copy()?,
            kind: self.kind,
        })
    }
}

/// Columns in their table's order.
pub type ColumnList = PlainList<Column>;

fn is_among(name: &[u8], names: &[&str]) -> bool
    ensures { result ≡ list_any (λ other. bytes_eq name.now other.now) names.now }
{
    names.iter().any(|other| name == other.as_bytes())
}

// How the cells of a type are written, where they can be.
fn kind_of(data_type: &[u8]) -> Option<CellKind>
    ensures { result ≡ cell_kind_of data_type.now }
{
    if is_among(data_type, &NUMBER_TYPES) {
        return Some(CellKind::Number);
    }
    if is_among(data_type, &TEXT_TYPES) {
        return Some(CellKind::Text);
    }
    None
}

// Whether the bytes hold these bytes at some place.
fn holds(needle: &[u8], bytes: &[u8]) -> bool
    ensures { result ≡ has_bytes needle.now bytes.now }
{
    let mut rest = bytes;
    'places: while let [_, later @ ..] = rest {
        if rest.starts_with(needle) {
            return true;
        }
        rest = later;
    }
    needle.is_empty()
}

fn says_generated(extra: &[u8]) -> bool
    ensures { result ≡ says_generated extra.now }
{
    holds(b"VIRTUAL GENERATED", extra) || holds(b"STORED GENERATED", extra)
}

// The text that the bytes spell, where they are UTF-8.
#[tactic(auto, using(crate::proofs::Utf8::valid_whole))]
fn text_of(bytes: &[u8]) -> Option<&str>
    ensures { MatchOption result (is_utf8 bytes.now ≡ false)
        (λ text. (is_utf8 bytes.now ≡ true) × (text.now ≡ bytes.now)) }
{
    match str::from_utf8(bytes) {
        Ok(text) => Some(text),
        Err(_) => None,
    }
}

// The column of these four cells.
fn described(
    alloc: Global,
    name: Option<&[u8]>,
    data_type: Option<&[u8]>,
    column_type: Option<&[u8]>,
    extra: Option<&[u8]>,
) -> Result<Option<Column>, OutOfMemory>
    ensures { IfOk result (λ found. found ≡ described (option_copied name.entry) (option_copied
        data_type.entry) (option_copied column_type.entry) (option_copied extra.entry)) }
{
    let (Some(name), Some(data_type), Some(_), Some(extra)) = (name, data_type, column_type, extra)
    else {
        return Ok(None);
    };
    let Some(name) = text_of(name) else {
        return Ok(None);
    };
    if says_generated(extra) {
        return Ok(None);
    }
    let Some(kind) = kind_of(data_type) else {
        return Ok(None);
    };
    let name = Name::of(alloc, name)?;
    Ok(Some(Column { name, kind }))
}

/// The column that a row of COLUMN_NAME, DATA_TYPE, COLUMN_TYPE and EXTRA describes. `None` exactly where
/// it can't be dumped: one of these cells is missing or NULL, the name isn't UTF-8, the column is
/// generated, or its type is none of those that are written as numbers or text. (MySQL 8.0 Reference
/// Manual, 28.3.8.)
#[tactic(auto, using(crate::proofs::Rows::column_of_cells, crate::proofs::Rows::too_short))]
pub fn column_of(alloc: Global, row: &Row<'_>) -> Result<Option<Column>, OutOfMemory>
    ensures { IfOk result (λ found. found ≡ column_from (row_cells row.now)) }
{
    if row.columns() < 4 {
        return Ok(None);
    }
    described(alloc, row.cell(0), row.cell(1), row.cell(2), row.cell(3))
}
