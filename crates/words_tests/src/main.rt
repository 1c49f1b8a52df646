//! Tries the cases of `cases.txt`: the words of a command line, and what they ask for or why they aren't
//! read. It prints each case that differs, and how many there are.
#![tactic(auto)]

mod asked;
mod lists;
mod words;

use crate::asked::{dump_answer, load_answer};
use crate::words::words_of;
use command_words::{read_dump_words, read_load_words};
use plain_data::OutOfMemory;
use std::alloc::Global;
use std::{fs, io};

fn main(rt: HostRuntime) -> io::Result<()> {
    let text = fs::read_to_string(&rt, "cases.txt")?;
    let mut cases: u64 = 0;
    for line in text.lines() {
        if let Some((case, wanted)) = line.split_once(" => ") {
            compare(rt, case, answer(rt.alloc(), case), wanted)?;
            cases = cases.wrapping_add(1);
        }
    }
    println!(rt; "{cases} cases")
}

// Prints a case of which something else comes than is wanted.
fn compare(
    rt: HostRuntime,
    case: &str,
    found: Result<String, OutOfMemory>,
    wanted: &str,
) -> io::Result<()> {
    match found {
        Ok(found) if found.as_str() == wanted => Ok(()),
        Ok(found) => println!(rt; "{case} => {found}, and not {wanted}"),
        Err(fault) => println!(rt; "{case}: {fault}"),
    }
}

// What comes of a case: a program, and the words that it is given.
fn answer(alloc: Global, case: &str) -> Result<String, OutOfMemory> {
    let (program, words) = match case.split_once(' ') {
        Some(parts) => parts,
        None => (case, ""),
    };
    match program {
        "mydumper" => dump_case(alloc, words),
        "myloader" => load_case(alloc, words),
        _ => Ok(String::from_str(alloc, "no such program")?),
    }
}

fn dump_case(alloc: Global, words: &str) -> Result<String, OutOfMemory> {
    let words = words_of(alloc, words)?;
    dump_answer(alloc, &read_dump_words(alloc, &words))
}

fn load_case(alloc: Global, words: &str) -> Result<String, OutOfMemory> {
    let words = words_of(alloc, words)?;
    load_answer(alloc, &read_load_words(alloc, &words))
}
