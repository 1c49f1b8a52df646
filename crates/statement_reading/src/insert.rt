//! The INSERT statements of data files, checked against their grammar.
ghost use Rattle.std.specs.Prelude.{◌≡◌, ℕ, ◌++◌, codes, take, IfOk, MatchResult};
ghost use Rattle.grammar.specs.Language.{Reads, Refused, Fixed, Then, Many};
ghost use Rattle.sql_cells.specs.Name.{name_byte, quoted_name};
ghost use Rattle.statement_forms.specs.Insert.{QuotedName, NamesAnd, NextName, NextLiteral, Row, FurtherRow, Rows, Filled, AnyInsert, InsertInto, HasRows};
ghost use Rattle.statement_reading.specs.InsertReading.{RowInside, RowRest, Values, IsRunOf, IsRows, HasValues, IsFilled, run_size, filled_size};
ghost use Rattle.statement_reading.specs.Parts.{Names};

use crate::reading::names::{read_name, read_next_name};
use grammar::{after, read_fixed};
use sql_literals::read_literal;

/// What an INSERT has: how many rows, and the columns as they are named in it, between the
/// parentheses.
#[derive(Clone, Copy, Debug, PartialEq, Eq)]
pub struct InsertParts<'a> {
    pub rows: u64,
    pub columns: &'a [u8],
}

// So many texts one after another, and how many bytes they have.
#[derive(Clone, Copy)]
pub(crate) struct Run {
    pub(crate) count: u64,
    pub(crate) size: usize,
}

// The columns and rows of an INSERT: where the columns end, after the space and the parenthesis, how
// many rows there are, and how many bytes in all.
#[derive(Clone, Copy)]
pub(crate) struct FilledSize {
    pub(crate) columns: usize,
    pub(crate) rows: u64,
    pub(crate) size: usize,
}

#[inline]
fn read_next_literal(bytes: &[u8]) -> Result<usize, usize>
    ensures { Reads NextLiteral bytes.now result }
{
    let comma = read_fixed(bytes, b",")?;
    after(comma, read_literal(&bytes[comma..]))
}

// So many literals, each after a comma, and the closing parenthesis.
fn read_row_rest(bytes: &[u8], more: u64) -> Result<usize, usize>
    ensures { Reads (RowRest more) bytes.now result }
{
    let mut at = 0;
    for i in 0..more {
        match read_next_literal(&bytes[at..]) {
            Ok(size) => at += size,
            Err(place) => return Err(at + place),
        }
    }
    after(at, read_fixed(&bytes[at..], b")"))
}

fn read_row_inside(bytes: &[u8], more: u64) -> Result<usize, usize>
    ensures { Reads (RowInside more) bytes.now result }
{
    let first = read_literal(bytes)?;
    after(first, read_row_rest(&bytes[first..], more))
}

// One more than so many literals, in parentheses.
fn read_row(bytes: &[u8], more: u64) -> Result<usize, usize>
    ensures { Reads (Row more) bytes.now result }
{
    let begin = read_fixed(bytes, b"(")?;
    after(begin, read_row_inside(&bytes[begin..], more))
}

fn read_next_row(bytes: &[u8], more: u64) -> Result<usize, usize>
    ensures { Reads (FurtherRow more) bytes.now result }
{
    let comma = read_fixed(bytes, b",\n")?;
    after(comma, read_row(&bytes[comma..], more))
}

// The rows after the first.
fn read_next_rows(bytes: &[u8], more: u64) -> Result<Run, usize>
    ensures reads { Reads (Many (FurtherRow more)) bytes.now (run_size result) }
    ensures rows { IfOk result (λ run. IsRunOf (FurtherRow more) run bytes.now) }
{
    let mut size = 0;
    let mut count = 0;
    'rows: loop {
        match read_next_row(&bytes[size..], more) {
            Ok(next) => {
                size += next;
                count += 1;
            }
            Err(0) => return Ok(Run { count, size }),
            Err(place) => return Err(size + place),
        }
    }
}

// The names after the first.
fn read_counted_names(bytes: &[u8]) -> Result<Run, usize>
    ensures reads { Reads (Many NextName) bytes.now (run_size result) }
    ensures names { IfOk result (λ run. IsRunOf NextName run bytes.now) }
{
    let mut size = 0;
    let mut count = 0;
    'names: loop {
        match read_next_name(&bytes[size..]) {
            Ok(next) => {
                size += next;
                count += 1;
            }
            Err(0) => return Ok(Run { count, size }),
            Err(place) => return Err(size + place),
        }
    }
}

// Names with commas between them, at least one.
fn read_all_names(bytes: &[u8]) -> Result<Run, usize>
    ensures reads { Reads Names bytes.now (run_size result) }
    ensures names { IfOk result (λ run. NamesAnd run.count (take run.size bytes.now)) }
{
    let first = read_name(bytes)?;
    match read_counted_names(&bytes[first..]) {
        Ok(run) => Ok(Run {
            count: run.count,
            size: first + run.size,
        }),
        Err(place) => Err(first + place),
    }
}

// Rows with a comma and a line feed between them, at least one.
fn read_rows(bytes: &[u8], more: u64) -> Result<Run, usize>
    ensures reads { Reads (Rows more) bytes.now (run_size result) }
    ensures rows { IfOk result (λ run. IsRows more run.count (take run.size bytes.now)) }
{
    let first = read_row(bytes, more)?;
    match read_next_rows(&bytes[first..], more) {
        Ok(run) => Ok(Run {
            count: run.count + 1,
            size: first + run.size,
        }),
        Err(place) => Err(first + place),
    }
}

// The words after the columns, and rows.
fn read_values(bytes: &[u8], more: u64) -> Result<Run, usize>
    ensures reads { Reads (Values more) bytes.now (run_size result) }
    ensures rows { IfOk result (λ run. HasValues more run.count (take run.size bytes.now)) }
{
    let word = read_fixed(bytes, b") VALUES\n")?;
    match read_rows(&bytes[word..], more) {
        Ok(run) => Ok(Run {
            count: run.count,
            size: word + run.size,
        }),
        Err(place) => Err(word + place),
    }
}

// The columns in parentheses, and rows of as many literals.
fn read_filled(bytes: &[u8]) -> Result<FilledSize, usize>
    ensures reads { Reads Filled bytes.now (filled_size result) }
    ensures parts { IfOk result (λ found. IsFilled bytes.now found.columns found.rows found.size) }
{
    let begin = read_fixed(bytes, b" (")?;
    let names = match read_all_names(&bytes[begin..]) {
        Ok(names) => names,
        Err(place) => return Err(begin + place),
    };
    let columns = begin + names.size;
    match read_values(&bytes[columns..], names.count) {
        Ok(rows) => Ok(FilledSize {
            columns,
            rows: rows.count,
            size: columns + rows.size,
        }),
        Err(place) => Err(columns + place),
    }
}

// The table's name, and all after it.
fn read_named(bytes: &[u8]) -> Result<usize, usize>
    ensures { Reads (Then QuotedName Filled) bytes.now result }
{
    let name = read_name(bytes)?;
    match read_filled(&bytes[name..]) {
        Ok(found) => Ok(name + found.size),
        Err(place) => Err(name + place),
    }
}

fn read_any_insert(bytes: &[u8]) -> Result<usize, usize>
    ensures { Reads AnyInsert bytes.now result }
{
    let word = read_fixed(bytes, b"INSERT INTO ")?;
    after(word, read_named(&bytes[word..]))
}

/// Whether the text is an INSERT into some table.
pub(crate) fn check_any_insert(text: &[u8]) -> Result<(), usize>
    ensures { MatchResult result (λ _. AnyInsert text.now) (Refused AnyInsert text.now) }
{
    let size = read_any_insert(text)?;
    if size == text.len() {
        Ok(())
    } else {
        Err(size)
    }
}

// A byte of a name, between backquotes.
fn read_name_byte(bytes: &[u8], byte: u8) -> Result<usize, usize>
    ensures { Reads (Fixed (name_byte byte)) bytes.now result }
{
    if byte == b'`' {
        return read_fixed(bytes, b"``");
    }
    read_fixed(bytes, &[byte])
}

// This name between backquotes.
fn read_this_name(bytes: &[u8], name: &[u8]) -> Result<usize, usize>
    ensures { Reads (Fixed (quoted_name name.now)) bytes.now result }
{
    let mut at = read_fixed(bytes, b"`")?;
    for byte in name {
        match read_name_byte(&bytes[at..], *byte) {
            Ok(size) => at += size,
            Err(place) => return Err(at + place),
        }
    }
    after(at, read_fixed(&bytes[at..], b"`"))
}

fn read_insert_into(bytes: &[u8], table: &[u8]) -> Result<usize, usize>
    ensures { Reads (Fixed (codes "INSERT INTO " ++ quoted_name table.now)) bytes.now result }
{
    let word = read_fixed(bytes, b"INSERT INTO ")?;
    after(word, read_this_name(&bytes[word..], table))
}

/// The rows and the columns of an INSERT into this table. `Err` is the place where the text leaves
/// them: the length of the longest prefix with which an INSERT into this table begins. Takes no
/// memory.
pub fn insert_check<'a>(text: &'a [u8], table: &[u8]) -> Result<InsertParts<'a>, usize>
    ensures ok { IfOk result (λ parts. HasRows table.now text.now parts.columns.now parts.rows) }
    ensures bad { (place : ℕ) → result ≡ Err place → Refused (InsertInto table.now) text.now place }
{
    let head = read_insert_into(text, table)?;
    match read_filled(&text[head..]) {
        Ok(found) if head + found.size == text.len() => Ok(InsertParts {
            rows: found.rows,
            columns: &text[head + 2..head + found.columns],
        }),
        Ok(found) => Err(head + found.size),
        Err(place) => Err(head + place),
    }
}
