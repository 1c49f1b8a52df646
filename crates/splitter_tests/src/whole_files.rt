//! The statements of whole files, however their bytes are cut.
ghost use Rattle.std.specs.Prelude.{◌≡◌, ◌+◌, ◌<◌, ◌≤◌, ◌^◌, length, IfOk};
ghost use Rattle.splitter_forms.specs.Pieces.{pieces, unread_file};
ghost use Rattle.statement_splitter.specs.Laws.{written, WritesOut};
ghost use Rattle.statement_splitter.specs.Splits.{IsEven};

use crate::words::{Stopped, add_bytes, add_text, bytes_of, text_of};
use statement_splitter::Splitter;
use std::alloc::Global;

// No case has so many bytes.
const MOST: usize = 1_000_000;

// Writes out each statement that is ended, with a `|` after it.
fn take_all(splitter: &mut Splitter, out: &mut Vec<u8>) -> Result<(), Stopped>
    requires { splitter.old.unread.offset + length splitter.old.unread.rest ≤ 2 ^ 62 }

    ensures writes { IfOk result (λ _.
        WritesOut splitter.old.unread out.old.items splitter.new.unread out.new.items) }
    ensures even { IfOk result (λ _. IsEven splitter.old.unread splitter.new.unread) }
{
    'pieces: loop {
        match splitter.next()? {
            Some(piece) => {
                out.extend_from_slice(piece.text)?;
                out.push(b'|')?;
            }
            None => return Ok(()),
        }
    }
}

// The statements of a file, each with a `|` after it, where the file is fed so many bytes at a time.
fn divided(alloc: Global, file: &[u8], cut: usize) -> Result<Vec<u8>, Stopped>
    requires some { 0 < cut }
    requires small { length file.now ≤ 2 ^ 62 }

    ensures { IfOk result (λ out. out.items ≡ written (pieces (unread_file file.now))) }
{
    let mut splitter = Splitter::new(alloc, 1000);
    let mut out = Vec::new(alloc);
    let mut at = 0;
    'cuts: while at < file.len() {
        let size = cut.min(file.len() - at);
        splitter.feed(&file[at..at + size])?;
        take_all(&mut splitter, &mut out)?;
        at += size;
    }
    Ok(out)
}

fn divided_words(alloc: Global, file: &[u8], cut: usize) -> Result<String, Stopped>
    requires some { 0 < cut }
    requires small { length file.now ≤ 2 ^ 62 }
{
    let mut words = String::new(alloc);
    let out = divided(alloc, file, cut)?;
    add_bytes(&mut words, &out)?;
    Ok(words)
}

/// `texts FILE`: the statements of a file, each with a `|` after it, the same in pieces of each size. It
/// is refused for want of memory, and where a statement has over 1,000 bytes.
pub fn texts_anywhere(alloc: Global, words: &str) -> Result<String, Stopped> {
    let file = bytes_of(alloc, words)?;
    if file.is_empty() || file.len() > MOST {
        return Ok(text_of(alloc, "too long a case, or none")?);
    }
    let whole = divided_words(alloc, &file, file.len())?;
    for cut in 1..file.len() {
        let found = divided_words(alloc, &file, cut)?;
        if found.as_str() != whole.as_str() {
            return Ok(format!(in alloc; "{whole}, and in pieces of {cut} bytes {found}")?);
        }
    }
    Ok(whole)
}
