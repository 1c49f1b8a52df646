//! Tries the cases of the file in `data`: the chunks between bounds, and the wide keys of tables. It prints
//! each case that differs, and how many there are.
#![tactic(auto)]

mod bounds;
mod tables;
mod words;

use crate::bounds::chunk_words;
use crate::tables::key_words;
use crate::words::plain;
use plain_data::OutOfMemory;
use std::alloc::Global;
use std::{fs, io};

fn main(rt: HostRuntime) -> io::Result<()> {
    let mut cases: u64 = 0;
    let text = fs::read_to_string(&rt, "cases.txt")?;
    for line in text.lines() {
        let Some((case, wanted)) = line.split_once(" => ") else {
            continue;
        };
        cases = cases.wrapping_add(1);
        match answer(rt.alloc(), case) {
            Ok(found) if found.as_str() == wanted => (),
            Ok(found) => println!(rt; "{case} => {found}, and not {wanted}")?,
            Err(fault) => println!(rt; "{case}: {fault}")?,
        }
    }
    println!(rt; "{cases} cases")
}

// What comes of a case: a word for the call, and bounds or a table's text.
fn answer(alloc: Global, case: &str) -> Result<String, OutOfMemory> {
    match case.split_once(' ') {
        Some(("chunks", bounds)) => chunk_words(alloc, bounds),
        Some(("key", text)) => key_words(alloc, text.as_bytes()),
        _ => plain(alloc, "no case"),
    }
}
