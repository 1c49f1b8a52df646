//! Tries the cases of `cases.txt` on the adapters: a call, and what comes of it. The server is a peer in
//! this program, over the loopback, and the folder a directory where it runs. It prints each case that
//! differs, and how many there are.
#![tactic(auto)]

mod disk_cases;
mod link_cases;
mod outside;
mod peer;
mod report_cases;
mod shelf_cases;
mod site_cases;
mod trap_disk;
mod wire;
mod words;

use crate::outside::Outside;
use std::{fs, io};

fn main(rt: HostRuntime) -> io::Result<()> {
    let text = fs::read_to_string(&rt, "cases.txt")?;
    let mut outside = Outside::new(rt);
    let cases = try_all(rt, &mut outside, text.as_str());
    drop(outside);
    let cases = cases?;
    println!(rt; "{cases} cases")
}

// Tries the cases, one on each line with an arrow, and answers how many there are.
fn try_all(rt: HostRuntime, outside: &mut Outside, text: &str) -> io::Result<u64> {
    let mut cases: u64 = 0;
    for line in text.lines() {
        if let Some((case, wanted)) = line.split_once(" => ") {
            compare(rt, case, outside.answer(case), wanted)?;
            cases = cases.wrapping_add(1);
        }
    }
    Ok(cases)
}

// Prints a case of which something else comes than is wanted.
fn compare(rt: HostRuntime, case: &str, found: io::Result<String>, wanted: &str) -> io::Result<()> {
    match found {
        Ok(found) if found.as_str() == wanted => Ok(()),
        Ok(found) => println!(rt; "{case} => {found}, and not {wanted}"),
        Err(fault) => println!(rt; "{case}: {fault}"),
    }
}
