//! Tries the cases of `cases.txt`: texts of `metadata`, whole, cut or changed, as they are read and written
//! back. It prints each case of which something else comes than is wanted, and how many there are.
#![tactic(auto)]

mod changes;
mod words;

use crate::changes::changed;
use crate::words::read_words;
use plain_data::OutOfMemory;
use std::alloc::Global;
use std::{fs, io};

fn main(rt: HostRuntime) -> io::Result<()> {
    let first = fs::read_to_string(&rt, "version_1.txt")?;
    let second = fs::read_to_string(&rt, "version_2.txt")?;
    let text = fs::read_to_string(&rt, "cases.txt")?;
    let mut cases: u64 = 0;
    for line in text.lines() {
        if let Some((case, wanted)) = line.split_once(" => ") {
            let found = answer(rt.alloc(), first.as_str(), second.as_str(), case);
            compare(rt, case, found, wanted)?;
            cases = cases.wrapping_add(1);
        }
    }
    println!(rt; "{cases} cases")
}

// Prints a case of which something else comes than is wanted.
fn compare(
    rt: HostRuntime,
    case: &str,
    found: Result<String, OutOfMemory>,
    wanted: &str,
) -> io::Result<()> {
    match found {
        Ok(found) if found.as_str() == wanted => Ok(()),
        Ok(found) => println!(rt; "{case} => {found}, and not {wanted}"),
        Err(fault) => println!(rt; "{case}: {fault}"),
    }
}

// What comes of a case: of the text of a version, after a change.
fn answer(alloc: Global, first: &str, second: &str, case: &str) -> Result<String, OutOfMemory> {
    let (version, change) = match case.split_once(' ') {
        Some(parts) => parts,
        None => (case, ""),
    };
    let text = if version == "1" { first } else { second };
    let text = changed(alloc, text, change)?;
    read_words(alloc, text.as_slice())
}
