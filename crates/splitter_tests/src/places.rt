//! Where the statements of a file begin, which of them are too long, and whether the file may end.
ghost use Rattle.std.specs.Prelude.{◌<◌, ◌≤◌, ◌^◌, length, IfOk};
ghost use Rattle.statement_splitter.specs.Splits.{IsEven};

use crate::words::{Stopped, add_bytes, add_text, bytes_of, number_and_rest, text_of};
use plain_data::OutOfMemory;
use statement_splitter::{Piece, Splitter};
use std::alloc::Global;

// No case has so many bytes.
const MOST: usize = 100_000_000;

// Adds a statement: its offset, and its text, or its length where that is over 100.
fn add_piece(words: &mut String, alloc: Global, piece: Piece<'_>) -> Result<(), OutOfMemory> {
    let offset = format!(in alloc; "{}:", piece.offset)?;
    add_text(words, offset.as_str())?;
    if piece.text.len() > 100 {
        let length = format!(in alloc; "{} bytes", piece.text.len())?;
        add_text(words, length.as_str())?;
    } else {
        add_bytes(words, piece.text)?;
    }
    add_text(words, "|")
}

// Adds each statement that is ended, and the fault, unless it was added before; answers whether there is
// one.
fn add_all(
    words: &mut String,
    alloc: Global,
    splitter: &mut Splitter,
    was_wrong: bool,
) -> Result<bool, OutOfMemory>
    ensures even { IfOk result (λ _. IsEven splitter.old.unread splitter.new.unread) }
{
    'pieces: for _ in 0..MOST {
        match splitter.next() {
            Ok(Some(piece)) => add_piece(words, alloc, piece)?,
            Ok(None) => return Ok(false),
            Err(fault) => {
                if !was_wrong {
                    let fault = format!(in alloc; "{fault}|")?;
                    add_text(words, fault.as_str())?;
                }
                return Ok(true);
            }
        }
    }
    Ok(false)
}

// The same; whether the file may end has to be answered alike before and after it.
fn add_turn(
    words: &mut String,
    alloc: Global,
    splitter: &mut Splitter,
    was_wrong: bool,
) -> Result<bool, OutOfMemory>
    ensures even { IfOk result (λ _. IsEven splitter.old.unread splitter.new.unread) }
{
    let before = splitter.end();
    let is_wrong = add_all(words, alloc, splitter, was_wrong)?;
    if splitter.end() != before {
        add_text(words, "another end|")?;
    }
    Ok(is_wrong)
}

// Adds whether the file may end.
fn add_end(words: &mut String, alloc: Global, splitter: &Splitter) -> Result<(), OutOfMemory> {
    match splitter.end() {
        Ok(()) => add_text(words, "ends"),
        Err(offset) => {
            let begun = format!(in alloc; "begun at {offset}")?;
            add_text(words, begun.as_str())
        }
    }
}

// What comes of a file that is fed so many bytes first, and then so many at a time: its statements with
// their offsets, a fault, and whether it may end.
fn places_of(
    alloc: Global,
    limit: u32,
    file: &[u8],
    first: usize,
    size: usize,
) -> Result<String, OutOfMemory>
    requires first { 0 < first }
    requires some { 0 < size }
    requires small { length file.now ≤ 2 ^ 62 }
{
    let mut words = String::new(alloc);
    let mut splitter = Splitter::new(alloc, limit);
    let mut wrong = false;
    let mut at = 0;
    let mut count = first;
    'cuts: while at < file.len() {
        let here = count.min(file.len() - at);
        splitter.feed(&file[at..at + here])?;
        wrong = add_turn(&mut words, alloc, &mut splitter, wrong)?;
        at += here;
        count = size;
    }
    add_end(&mut words, alloc, &splitter)?;
    Ok(words)
}

/// `places LIMIT FILE`: what comes of a file, the same in two pieces that are cut at each place, and in
/// pieces of each size. It is refused only for want of memory.
pub fn places_anywhere(alloc: Global, words: &str) -> Result<String, Stopped> {
    let (limit, rest) = number_and_rest(words);
    let file = bytes_of(alloc, rest)?;
    if file.len() > MOST {
        return Ok(text_of(alloc, "too long a case")?);
    }
    let whole = places_of(alloc, limit, &file, MOST, MOST)?;
    for cut in 1..file.len() {
        let found = places_of(alloc, limit, &file, cut, MOST)?;
        if found.as_str() != whole.as_str() {
            return Ok(format!(in alloc; "{whole}, and cut at {cut} {found}")?);
        }
        let found = places_of(alloc, limit, &file, cut, cut)?;
        if found.as_str() != whole.as_str() {
            return Ok(format!(in alloc; "{whole}, and in pieces of {cut} bytes {found}")?);
        }
    }
    Ok(whole)
}

/// `long LIMIT SIZE PIECE`: what comes of a file in pieces of so many bytes. It holds `a` with a string of
/// so many semicolons, and `b`. It is refused only for want of memory.
pub fn long_place(alloc: Global, words: &str) -> Result<String, Stopped> {
    let (limit, rest) = number_and_rest(words);
    let (size, rest) = number_and_rest(rest);
    let (piece, _) = number_and_rest(rest);
    let piece = piece as usize;
    let mut file = Vec::new(alloc);
    file.extend_from_slice(b"a '")?;
    for _ in 0..size {
        file.push(b';')?;
    }
    file.extend_from_slice(b"';b;")?;
    if piece == 0 || file.len() > MOST {
        return Ok(text_of(alloc, "too long a case")?);
    }
    Ok(places_of(alloc, limit, &file, piece, piece)?)
}
