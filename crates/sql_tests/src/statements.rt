//! Statements that are read and written again, their variable parts, and the INSERTs of data files.
use crate::words::{bytes_of, plain, push_bytes, words_of};
use plain_data::{Buffer, Bytes, OutOfMemory};
use sql_statements::{command_into, query_into};
use statement_forms::{Command, Part, PartList, Statement};
use statement_reading::{insert_check, statement_read};
use std::alloc::Global;

/// What comes of a call on a statement's text, in words: `call` names it, and `rest` is what stands
/// after it on the case's line, with bytes in percent-encoding. A call that isn't there is answered by
/// `no call`. It is refused only for want of memory.
pub fn statement_case(alloc: Global, call: &str, rest: &str) -> Result<String, OutOfMemory> {
    match call {
        "read" => read(alloc, &bytes_of(alloc, rest)?),
        "progress" => progress(alloc, &bytes_of(alloc, rest)?),
        "zone" => zone(alloc, &bytes_of(alloc, rest)?),
        "parts" => parts(alloc, rest),
        "insert" => inserted(alloc, rest),
        _ => plain(alloc, "no call"),
    }
}

// The form of the statement that the text is, and its text where that is written otherwise.
fn read(alloc: Global, text: &[u8]) -> Result<String, OutOfMemory> {
    let statement = match statement_read(alloc, text) {
        Ok(statement) => statement,
        Err(fault) => return Ok(format!(in alloc; "{fault}")?),
    };
    let mut again = Buffer::new(alloc);
    let written = match &statement {
        Statement::Command(command) => command_into(command, &mut again),
        Statement::Query(query) => query_into(query, &mut again),
    };
    let form = statement.form().word();
    drop(statement);
    written?;
    if again.as_slice() == text {
        return plain(alloc, form);
    }
    let words = words_of(alloc, again.as_slice())?;
    Ok(format!(in alloc; "{form}, written {words}")?)
}

fn is_progress(alloc: Global, text: &[u8]) -> bool {
    match statement_read(alloc, text) {
        Ok(statement) => {
            let is = matches!(&statement, Statement::Command(Command::CreateProgress));
            drop(statement);
            is
        }
        Err(_) => false,
    }
}

// Whether the text makes the progress schema: it could be read as any object's text as well.
fn progress(alloc: Global, text: &[u8]) -> Result<String, OutOfMemory> {
    let word = if is_progress(alloc, text) {
        "yes"
    } else {
        "no"
    };
    plain(alloc, word)
}

fn is_zone(alloc: Global, text: &[u8]) -> bool {
    match statement_read(alloc, text) {
        Ok(statement) => {
            let is = matches!(&statement, Statement::Command(Command::TimeZone(_)));
            drop(statement);
            is
        }
        Err(_) => false,
    }
}

// Whether the text sets any time zone: that of UTC has a statement of its own as well.
fn zone(alloc: Global, text: &[u8]) -> Result<String, OutOfMemory> {
    let word = if is_zone(alloc, text) { "yes" } else { "no" };
    plain(alloc, word)
}

// Each name is borrowed and owned.
fn parts_of(alloc: Global, rest: &str) -> Result<PartList<'_>, OutOfMemory> {
    let mut parts = PartList::new(alloc);
    for name in rest.split(',') {
        parts.push(Part::of(name.as_bytes()))?;
        parts.push(Part::owned(Bytes::of(alloc, name.as_bytes())?))?;
    }
    Ok(parts)
}

// A copy of a list of parts.
fn parts(alloc: Global, rest: &str) -> Result<String, OutOfMemory> {
    let copy = parts_of(alloc, rest)?.copy()?;
    let mut words = String::new(alloc);
    for part in copy.as_slice() {
        push_bytes(&mut words, part.bytes())?;
        words.push(';')?;
    }
    Ok(words)
}

// The rows and columns of an INSERT into a table.
fn inserted(alloc: Global, rest: &str) -> Result<String, OutOfMemory> {
    let Some((table, text)) = rest.split_once(' ') else {
        return plain(alloc, "no table");
    };
    match insert_check(&bytes_of(alloc, text)?, table.as_bytes()) {
        Ok(found) => {
            let columns = words_of(alloc, found.columns)?;
            Ok(format!(in alloc; "{} rows of {columns}", found.rows)?)
        }
        Err(place) => Ok(format!(in alloc; "leaves at {place}")?),
    }
}
