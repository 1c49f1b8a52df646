//! Names and literals, as they are written and read, and the buffer that they are written into.
use crate::words::{bytes_of, plain, push_bytes, words_of};
use plain_data::{Buffer, Name, NameList, OutOfMemory};
use sql_cells::{Cell, CellKind};
use sql_literals::{
    NotANumber, cell_into, cell_length, literal_read, literal_skip, name_into, name_length,
    read_literal, read_text, text_length_checked, unescape,
};
use std::alloc::Global;

// The longest cell of which the length may be asked.
const LONGEST_CELL: usize = 67_108_864;

/// What comes of a call on names, cells or literals, in words: `call` names it, and `rest` is what
/// stands after it on the case's line, with bytes in percent-encoding. A call that isn't there leaves
/// the literals at the greatest place. It is refused only for want of memory.
pub fn literal_case(alloc: Global, call: &str, rest: &str) -> Result<String, OutOfMemory> {
    match call {
        "name" => named(alloc, rest),
        "sort" => sorted(alloc, rest),
        "copy" => copied(alloc, rest),
        "buffer" => buffered(alloc, rest),
        "reserve" => reserved(alloc, rest),
        "null" => null(alloc, rest),
        "write" => written(alloc, rest),
        "read" => read(alloc, rest),
        "unescape" => unescaped(alloc, rest),
        _ => sized(alloc, call, &bytes_of(alloc, rest)?),
    }
}

fn named(alloc: Global, rest: &str) -> Result<String, OutOfMemory> {
    let name = bytes_of(alloc, rest)?;
    let mut out = Buffer::new(alloc);
    name_into(&name, &mut out)?;
    let size = name_length(&name).unwrap_or(0);
    let quoted = words_of(alloc, out.as_slice())?;
    Ok(format!(in alloc; "{quoted} in {size} bytes")?)
}

// The names, each with a semicolon after it.
fn names_words(alloc: Global, names: &[Name]) -> Result<String, OutOfMemory> {
    let mut words = String::new(alloc);
    for name in names {
        words.push_str(name.as_str())?;
        words.push(';')?;
    }
    Ok(words)
}

// Names with commas between them, in their order.
fn sorted(alloc: Global, rest: &str) -> Result<String, OutOfMemory> {
    let mut names = Vec::new(alloc);
    for text in rest.split(',') {
        names.push(Name::of(alloc, text)?)?;
    }
    names.sort()?;
    names_words(alloc, names.as_slice())
}

fn list_of(alloc: Global, rest: &str) -> Result<NameList, OutOfMemory> {
    let mut names = NameList::new(alloc);
    for text in rest.split(',') {
        names.push(Name::of(alloc, text)?)?;
    }
    Ok(names)
}

// A copy of a list of names.
fn copied(alloc: Global, rest: &str) -> Result<String, OutOfMemory> {
    let names = list_of(alloc, rest)?;
    let copy = names.copy()?;
    names_words(alloc, copy.as_slice())
}

// A buffer that is filled from words with commas between them, and then cleared.
fn buffered(alloc: Global, rest: &str) -> Result<String, OutOfMemory> {
    let mut out = Buffer::new(alloc);
    for word in rest.split(',') {
        let room = word.len();
        out.reserve(room)?;
        let spare = out.spare();
        if spare < room {
            return plain(alloc, "no room");
        }
        out.push(word.as_bytes());
    }
    let (length, spare) = (out.len(), out.spare());
    let words = words_of(alloc, out.as_slice())?;
    out.clear();
    let given_back = out.spare().saturating_sub(spare);
    Ok(format!(in alloc;
        "{words} in {length} bytes, {given_back} bytes given back, {} left",
        out.len()
    )?)
}

// Room for so many bytes after four.
fn reserved(alloc: Global, rest: &str) -> Result<String, OutOfMemory> {
    let more: usize = rest.parse().unwrap_or(0);
    let mut out = Buffer::new(alloc);
    name_into(b"id", &mut out)?;
    if let Err(fault) = out.reserve(more) {
        return Ok(format!(in alloc; "{fault}, {} bytes left", out.len())?);
    }
    let spare = out.spare();
    if spare < more || spare == 0 {
        return plain(alloc, "no room");
    }
    out.push_byte(b';');
    let used = spare.saturating_sub(out.spare());
    let words = words_of(alloc, out.as_slice())?;
    Ok(format!(in alloc; "room after {words}, of which {used} is used")?)
}

fn kind_of(word: &str) -> CellKind {
    match word {
        "number" => CellKind::Number,
        "text" => CellKind::Text,
        "converted" => CellKind::Converted,
        _ => CellKind::Hex,
    }
}

// The literal of a cell after a comma, its length, and whether it is read back.
fn literal_words(
    alloc: Global,
    kind: CellKind,
    cell: Option<&[u8]>,
) -> Result<String, OutOfMemory> {
    let mut out = Buffer::new(alloc);
    name_into(b"", &mut out)?;
    let after = out.len();
    if let Err(fault) = cell_into(kind, cell, &mut out) {
        return Ok(format!(in alloc; "{fault}, {} bytes left", out.len())?);
    }
    let literal = out.as_slice().get(after..).unwrap_or(b"");
    let words = words_of(alloc, literal)?;
    let is_same = match literal_read(alloc, literal) {
        Ok((read, size)) => read.as_slice() == cell && size == literal.len(),
        Err(_) => false,
    };
    let is_read_back = if is_same { "" } else { ", read otherwise" };
    Ok(format!(in alloc; "{words}{is_read_back}")?)
}

// How long the literal is, or why there is none.
fn length_words(alloc: Global, length: Result<usize, NotANumber>) -> Result<String, OutOfMemory> {
    match length {
        Ok(size) => Ok(format!(in alloc; "{size} bytes: ")?),
        Err(fault) => Ok(format!(in alloc; "{fault}: ")?),
    }
}

fn null(alloc: Global, rest: &str) -> Result<String, OutOfMemory> {
    let kind = kind_of(rest);
    let mut words = length_words(alloc, cell_length(kind, None))?;
    words.push_str(literal_words(alloc, kind, None)?.as_str())?;
    Ok(words)
}

// The literal of a cell whose kind and bytes are given.
fn written(alloc: Global, rest: &str) -> Result<String, OutOfMemory> {
    let Some((word, cell)) = rest.split_once(' ') else {
        return plain(alloc, "no cell");
    };
    let kind = kind_of(word);
    let cell = bytes_of(alloc, cell)?;
    if cell.len() > LONGEST_CELL {
        return plain(alloc, "too long a cell");
    }
    let mut words = length_words(alloc, cell_length(kind, Some(&cell)))?;
    words.push_str(literal_words(alloc, kind, Some(&cell))?.as_str())?;
    Ok(words)
}

fn cell_words(alloc: Global, cell: &Cell) -> Result<String, OutOfMemory> {
    let mut words = String::new(alloc);
    match cell.as_slice() {
        None => words.push_str("NULL")?,
        Some(bytes) => {
            words.push_str("value ")?;
            push_bytes(&mut words, bytes)?;
        }
    }
    Ok(words)
}

// A copy of the cell that is read.
fn read(alloc: Global, rest: &str) -> Result<String, OutOfMemory> {
    match literal_read(alloc, &bytes_of(alloc, rest)?) {
        Ok((cell, size)) => {
            let words = cell_words(alloc, &cell.copy()?)?;
            Ok(format!(in alloc; "{words} in {size} bytes")?)
        }
        Err(fault) => Ok(format!(in alloc; "{fault}")?),
    }
}

fn unescaped(alloc: Global, rest: &str) -> Result<String, OutOfMemory> {
    let inner = bytes_of(alloc, rest)?;
    let copy = unescape(alloc, &inner)?.copy()?;
    let mut words = plain(alloc, "value ")?;
    push_bytes(&mut words, copy.as_slice())?;
    Ok(words)
}

// How many bytes are read or passed over, or where the bytes leave the literals.
fn sized(alloc: Global, call: &str, bytes: &[u8]) -> Result<String, OutOfMemory> {
    let found = match call {
        "skip" => literal_skip(bytes),
        "along" => read_literal(bytes),
        "text" => read_text(bytes),
        "quoted" => text_length_checked(bytes).ok_or(0),
        _ => Err(usize::MAX),
    };
    match found {
        Ok(size) => Ok(format!(in alloc; "{size} bytes")?),
        Err(place) => Ok(format!(in alloc; "leaves at {place}")?),
    }
}
