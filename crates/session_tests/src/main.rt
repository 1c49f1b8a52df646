//! Tries the cases of `cases.txt` on sessions over links in memory: what a server says, the calls of a
//! session, and what comes of them. It prints each case that differs, and how many there are.
#![tactic(auto)]

mod asking;
mod names;
mod script;
mod talk;
mod words;

use crate::talk::Talk;
use std::{fs, io};

fn main(rt: HostRuntime) -> io::Result<()> {
    let text = fs::read_to_string(&rt, "cases.txt")?;
    let mut talk = Talk::new(rt.alloc());
    let mut cases: u64 = 0;
    for line in text.lines() {
        let Some((case, wanted)) = line.split_once(" => ") else {
            if let Err(fault) = talk.say(line) {
                println!(rt; "{line}: {fault}")?;
            }
            continue;
        };
        match talk.answer(case) {
            Ok(found) if found.as_str() == wanted => (),
            Ok(found) => println!(rt; "{case} => {found}, and not {wanted}")?,
            Err(fault) => println!(rt; "{case}: {fault}")?,
        }
        cases = cases.wrapping_add(1);
    }
    println!(rt; "{cases} cases")
}
