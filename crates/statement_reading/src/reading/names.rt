//! Readers of quoted names, and of lists of them.
ghost use Rattle.std.specs.Prelude.{Ok};
ghost use Rattle.grammar.specs.Language.{Reads, Many, One};
ghost use Rattle.statement_forms.specs.Insert.{is_inside, OpenedName, NamePart, QuotedName, NextName};
ghost use Rattle.statement_reading.specs.Parts.{Names};

use grammar::{after, read_fixed};

// How many bytes come before the next backquote.
fn inside_size(bytes: &[u8]) -> usize
    ensures { Reads (Many (One is_inside)) bytes.now (Ok result) }
{
    for (i, byte) in bytes.iter().enumerate() {
        if *byte == b'`' {
            return i;
        }
    }
    bytes.len()
}

fn read_opened_name(bytes: &[u8]) -> Result<usize, usize>
    ensures { Reads OpenedName bytes.now result }
{
    let open = read_fixed(bytes, b"`")?;
    after(open, Ok(inside_size(&bytes[open..])))
}

fn read_name_part(bytes: &[u8]) -> Result<usize, usize>
    ensures { Reads NamePart bytes.now result }
{
    let opened = read_opened_name(bytes)?;
    after(opened, read_fixed(&bytes[opened..], b"`"))
}

fn read_name_parts(bytes: &[u8]) -> Result<usize, usize>
    ensures { Reads (Many NamePart) bytes.now result }
{
    let mut at = 0;
    'parts: loop {
        match read_name_part(&bytes[at..]) {
            Ok(size) => at += size,
            Err(0) => return Ok(at),
            Err(place) => return Err(at + place),
        }
    }
}

// A name between backquotes.
pub(crate) fn read_name(bytes: &[u8]) -> Result<usize, usize>
    ensures { Reads QuotedName bytes.now result }
{
    let first = read_name_part(bytes)?;
    after(first, read_name_parts(&bytes[first..]))
}

// A comma and a name.
pub(crate) fn read_next_name(bytes: &[u8]) -> Result<usize, usize>
    ensures { Reads NextName bytes.now result }
{
    let comma = read_fixed(bytes, b",")?;
    after(comma, read_name(&bytes[comma..]))
}

fn read_next_names(bytes: &[u8]) -> Result<usize, usize>
    ensures { Reads (Many NextName) bytes.now result }
{
    let mut at = 0;
    'names: loop {
        match read_next_name(&bytes[at..]) {
            Ok(size) => at += size,
            Err(0) => return Ok(at),
            Err(place) => return Err(at + place),
        }
    }
}

// Names with commas between them.
pub(crate) fn read_names(bytes: &[u8]) -> Result<usize, usize>
    ensures { Reads Names bytes.now result }
{
    let first = read_name(bytes)?;
    after(first, read_next_names(&bytes[first..]))
}
