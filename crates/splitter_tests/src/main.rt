//! Tries the cases in `data/`: files of SQL, and the statements that a splitter gives of them however
//! their bytes are cut. It prints the cases that differ, and how many there were.
#![tactic(auto)]

mod cases;
mod places;
mod whole_files;
mod words;

use std::{fs, io};

fn main(rt: HostRuntime) -> io::Result<()> {
    let text = fs::read_to_string(&rt, "files.txt")?;
    cases::try_all(&rt, text.as_str())
}
