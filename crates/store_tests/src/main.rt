//! Tries the cases of `cases.txt`: what is read at snapshots, before and after further transactions and the
//! ends of other snapshots. It prints each case that differs, and how many there are.
#![tactic(auto)]

mod fault;
mod reading;
mod steps;
mod words;

use fault::CaseFault;
use std::alloc::Global;
use std::{fs, io};
use steps::taken;

fn main(rt: HostRuntime) -> io::Result<()> {
    let text = fs::read_to_string(&rt, "cases.txt")?;
    let mut cases: u64 = 0;
    for line in text.lines() {
        let Some((case, wanted)) = line.split_once(" => ") else {
            continue;
        };
        if let Some(words) = difference(rt.alloc(), case, wanted) {
            println!(rt; "{case} => {words}, and not {wanted}")?;
        }
        cases = cases.wrapping_add(1);
    }
    println!(rt; "{cases} cases")
}

// What comes of a case, where that isn't what is wanted.
fn difference(alloc: Global, case: &str, wanted: &str) -> Option<String> {
    match taken(alloc, case) {
        Ok(found) if found.as_str() == wanted => None,
        Ok(found) => Some(found),
        Err(fault) => Some(fault_words(alloc, fault)),
    }
}

fn fault_words(alloc: Global, fault: CaseFault) -> String {
    match format!(in alloc; "{fault}") {
        Ok(words) => words,
        Err(_) => String::new(alloc),
    }
}
