//! Tries the cases of the files in `data`: names and literals, statements and the INSERTs of data files, and the texts
//! of objects. It prints each case that differs, and how many there are.
#![tactic(auto)]

mod literals;
mod objects;
mod statements;
mod words;

use crate::literals::literal_case;
use crate::objects::object_case;
use crate::statements::statement_case;
use crate::words::plain;
use plain_data::OutOfMemory;
use std::alloc::Global;
use std::{fs, io};

const FILES: [&str; 6] = [
    "literals.txt",
    "statements.txt",
    "refusals.txt",
    "inserts.txt",
    "heads.txt",
    "shapes.txt",
];

fn main(rt: HostRuntime) -> io::Result<()> {
    let mut cases: u64 = 0;
    for file in FILES {
        let text = fs::read_to_string(&rt, file)?;
        for line in text.lines() {
            let Some((case, wanted)) = line.split_once(" => ") else {
                continue;
            };
            cases = cases.wrapping_add(1);
            match answer(rt.alloc(), file, case) {
                Ok(found) if found.as_str() == wanted => (),
                Ok(found) => println!(rt; "{file}: {case} => {found}, and not {wanted}")?,
                Err(fault) => println!(rt; "{file}: {case}: {fault}")?,
            }
        }
    }
    println!(rt; "{cases} cases")
}

// What comes of a case: a word for the call, and bytes in percent-encoding.
fn answer(alloc: Global, file: &str, case: &str) -> Result<String, OutOfMemory> {
    let Some((call, rest)) = case.split_once(' ') else {
        return plain(alloc, "no case");
    };
    match file {
        "literals.txt" => literal_case(alloc, call, rest),
        "heads.txt" | "shapes.txt" => object_case(alloc, call, rest),
        _ => statement_case(alloc, call, rest),
    }
}
