//! Whole runs of the programs over sites, folders, sinks and clocks in memory, as `cases.txt` describes
//! them. It prints each line whose run differs, and how many there were.
#![tactic(auto)]

mod case;
mod fault;
mod run;
mod site;
mod words;

use case::{Case, Cases};
use fault::CaseFault;
use run::run;
use std::alloc::Global;
use std::thread::Threads;
use std::{fs, io};
use words::{bytes_of, number, spelled};

fn main(rt: HostRuntime) -> io::Result<()> {
    let text = fs::read_to_string(&rt, "cases.txt")?;
    let mut cases = Cases::new();
    let mut count: u64 = 0;
    for line in text.lines() {
        if line.contains(" => ") {
            count = count.wrapping_add(1);
        }
        if let Some(words) = tried(&rt, rt.alloc(), &mut cases, line) {
            println!(rt; "{line}: {words}")?;
        }
    }
    println!(rt; "{count} cases")
}

// Takes a line: a call and what is wanted of it, or a part of what a run meets. What is wrong with it, if
// anything is.
fn tried<'a, R: Threads + Sync>(
    rt: &R,
    alloc: Global,
    cases: &mut Cases<'a>,
    line: &'a str,
) -> Option<String> {
    let told = match line.split_once(" => ") {
        Some((call, wanted)) => difference(rt, alloc, &cases.case, call, wanted),
        None if cases.set(line) => Ok(None),
        None => Err(CaseFault::Unread),
    };
    match told {
        Ok(words) => words,
        Err(fault) => Some(fault_words(alloc, fault)),
    }
}

fn fault_words(alloc: Global, fault: CaseFault) -> String {
    match format!(in alloc; "{fault}") {
        Ok(words) => words,
        Err(_) => String::new(alloc),
    }
}

// What a call finds in place of what is wanted, at some greatest answer of a `recv`.
fn difference<R: Threads + Sync>(
    rt: &R,
    alloc: Global,
    case: &Case<'_>,
    call: &str,
    wanted: &str,
) -> Result<Option<String>, CaseFault> {
    let wanted = bytes_of(alloc, wanted)?;
    for cut in case.cuts.split(' ') {
        let found = run(rt, alloc, case, number(cut), call)?;
        if found != wanted {
            return Ok(Some(spelled(alloc, cut, &found)?));
        }
    }
    Ok(None)
}
