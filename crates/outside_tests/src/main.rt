//! Tries the cases of `cases.txt` on the objects in memory: a call of an object, and what comes of it. It
//! prints each case that differs, and how many there are.
#![tactic(auto)]

mod folder_cases;
mod objects;
mod report_cases;
mod shelf_cases;
mod site_cases;
mod words;

use crate::objects::Objects;
use plain_data::OutOfMemory;
use std::{fs, io};

fn main(rt: HostRuntime) -> io::Result<()> {
    let text = fs::read_to_string(&rt, "cases.txt")?;
    let mut objects = Objects::new(rt.alloc());
    let cases = try_all(rt, &mut objects, text.as_str());
    drop(objects);
    let cases = cases?;
    println!(rt; "{cases} cases")
}

// Tries the cases, one on each line with an arrow, and answers how many there are.
fn try_all(rt: HostRuntime, objects: &mut Objects, text: &str) -> io::Result<u64> {
    let mut cases: u64 = 0;
    for line in text.lines() {
        if let Some((case, wanted)) = line.split_once(" => ") {
            compare(rt, case, objects.answer(case), wanted)?;
            cases = cases.wrapping_add(1);
        }
    }
    Ok(cases)
}

// Prints a case of which something else comes than is wanted.
fn compare(
    rt: HostRuntime,
    case: &str,
    found: Result<String, OutOfMemory>,
    wanted: &str,
) -> io::Result<()> {
    match found {
        Ok(found) if found.as_str() == wanted => Ok(()),
        Ok(found) => println!(rt; "{case} => {found}, and not {wanted}"),
        Err(fault) => println!(rt; "{case}: {fault}"),
    }
}
