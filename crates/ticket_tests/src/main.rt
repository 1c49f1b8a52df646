//! Tries the cases of `cases.txt`: numbers that seats draw one after the other, and numbers that threads
//! draw. It prints each case that differs, and how many there are.
#![tactic(auto)]

mod in_order;
mod threads;
mod words;

use crate::in_order::one_after_the_other;
use crate::threads::drawn_by_threads;
use crate::words::{first_word, numbers_of, said};
use plain_data::OutOfMemory;
use std::alloc::Global;
use std::thread::Threads;
use std::{fs, io};

fn main(rt: HostRuntime) -> io::Result<()> {
    let text = fs::read_to_string(&rt, "cases.txt")?;
    let mut cases: u64 = 0;
    for line in text.lines() {
        if let Some((case, wanted)) = line.split_once(" => ") {
            compare(rt, case, answer(&rt, rt.alloc(), case), wanted)?;
            cases = cases.wrapping_add(1);
        }
    }
    println!(rt; "{cases} cases")
}

// Prints a case of which something else comes than is wanted.
fn compare(
    rt: HostRuntime,
    case: &str,
    found: Result<String, OutOfMemory>,
    wanted: &str,
) -> io::Result<()> {
    match found {
        Ok(found) if found.as_str() == wanted => Ok(()),
        Ok(found) => println!(rt; "{case} => {found}, and not {wanted}"),
        Err(fault) => println!(rt; "{case}: {fault}"),
    }
}

// What comes of a case.
fn answer<R: Threads + Sync>(rt: &R, alloc: Global, case: &str) -> Result<String, OutOfMemory> {
    let (call, words) = first_word(case);
    let numbers = numbers_of(alloc, words)?;
    match (call, numbers.as_slice()) {
        ("order", draws) => one_after_the_other(alloc, draws),
        ("threads", [seats, jobs]) => drawn_by_threads(rt, alloc, *seats, *jobs),
        _ => said(alloc, "no such call"),
    }
}
