//! A file of cases.
use crate::words::first_and_rest;
use crate::{logins, numbers, packets, readers, replies};
use plain_data::OutOfMemory;
use result_rows::RowReader;
use std::alloc::Global;
use std::io;
use wire_forms::Ends;

/// Prints each case of the file of this name that differs, and how many cases it has. A line without
/// ` => ` is a heading. An error is one of printing.
pub fn try_all(rt: &HostRuntime, name: &str, text: &str) -> io::Result<()> {
    let mut reader = RowReader::new(Ends::Eof);
    let mut found = String::new(rt.alloc());
    let mut cases: u64 = 0;
    for line in text.lines() {
        let is_case = try_line(rt, name, &mut reader, &mut found, line)?;
        cases = cases.wrapping_add(is_case as u64);
    }
    println!(rt; "{name}: {cases} cases")
}

// Prints a case that differs, and answers whether the line is one. What is found is written to `found`.
fn try_line(
    rt: &HostRuntime,
    name: &str,
    reader: &mut RowReader,
    found: &mut String,
    line: &str,
) -> io::Result<bool> {
    let Some((case, wanted)) = line.split_once(" => ") else {
        return Ok(false);
    };
    found.clear();
    match answer(found, rt.alloc(), name, reader, case) {
        Ok(()) if found.as_str() == wanted => (),
        Ok(()) => println!(rt; "{case} => {found}, and not {wanted}")?,
        Err(fault) => println!(rt; "{case}: {fault}")?,
    }
    Ok(true)
}

// Adds what comes of a case. Replies are read by one reader, message after message.
fn answer(
    out: &mut String,
    alloc: Global,
    name: &str,
    reader: &mut RowReader,
    case: &str,
) -> Result<(), OutOfMemory> {
    let (call, words) = first_and_rest(case);
    match name {
        "numbers.txt" => numbers::answer(out, alloc, call, words),
        "packets.txt" => packets::answer(out, alloc, call, words),
        "replies.txt" => replies::answer(out, alloc, reader, call, words),
        "logins.txt" => logins::answer(out, alloc, call, words),
        _ => readers::answer(out, alloc, call, words),
    }
}
