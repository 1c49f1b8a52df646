//! Texts that are changed.

use percent_encoding::percent_decode;
use plain_data::{Buffer, OutOfMemory};
use std::alloc::Global;

/// The text after a change: `cut 9` leaves its first nine lines, `change A|B` puts the second bytes in
/// place of where the first come first, and `behind A` puts bytes behind it. Bytes stand in
/// percent-encoding. It is refused only for want of memory.
pub fn changed(alloc: Global, text: &str, change: &str) -> Result<Buffer, OutOfMemory> {
    let mut out = Buffer::new(alloc);
    match change.split_once(' ') {
        Some(("cut", lines)) => {
            append(first_lines(text.as_bytes(), number_of(lines)), &mut out)?;
        }
        Some(("change", words)) => append_replaced(alloc, text, words, &mut out)?,
        Some(("behind", words)) => {
            append(text.as_bytes(), &mut out)?;
            append(decoded(alloc, words)?.as_slice(), &mut out)?;
        }
        _ => append(text.as_bytes(), &mut out)?,
    }
    Ok(out)
}

// Appends bytes.
fn append(bytes: &[u8], out: &mut Buffer) -> Result<(), OutOfMemory> {
    out.reserve(bytes.len())?;
    out.push(bytes);
    Ok(())
}

// A number; 0 where there is none.
fn number_of(word: &str) -> u64 {
    match word.parse() {
        Ok(number) => number,
        Err(_) => 0,
    }
}

// So many lines in front.
fn first_lines(text: &[u8], lines: u64) -> &[u8] {
    let mut left = lines;
    for (index, byte) in text.iter().enumerate() {
        if left == 0 {
            return &text[..index];
        }
        if *byte == b'\n' {
            left -= 1;
        }
    }
    text
}

// The bytes that stand there in percent-encoding.
fn decoded(alloc: Global, word: &str) -> Result<Vec<u8>, OutOfMemory> {
    let mut bytes = Vec::new(alloc);
    percent_decode(word.as_bytes()).append_to(&mut bytes)?;
    Ok(bytes)
}

// Appends a text with bytes in place of others, where these are in it.
fn append_replaced(
    alloc: Global,
    text: &str,
    words: &str,
    out: &mut Buffer,
) -> Result<(), OutOfMemory> {
    let (from, to) = match words.split_once('|') {
        Some(parts) => parts,
        None => (words, ""),
    };
    let from = decoded(alloc, from)?;
    let to = decoded(alloc, to)?;
    let Ok(from) = std::str::from_utf8(from.as_slice()) else {
        return Ok(());
    };
    match text.split_once(from) {
        Some((front, rest)) => {
            append(front.as_bytes(), out)?;
            append(to.as_slice(), out)?;
            append(rest.as_bytes(), out)
        }
        None => append(text.as_bytes(), out),
    }
}
