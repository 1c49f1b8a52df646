//! Tries the cases in `data/`: a call on each line and what comes of it. It prints the cases that
//! differ, and how many each file has.
#![tactic(auto)]

mod cases;
mod logins;
mod long_messages;
mod numbers;
mod packets;
mod readers;
mod replies;
mod words;

use std::{fs, io};

const FILES: [&str; 5] = [
    "numbers.txt",
    "packets.txt",
    "replies.txt",
    "logins.txt",
    "readers.txt",
];

fn main(rt: HostRuntime) -> io::Result<()> {
    for name in FILES {
        let text = fs::read_to_string(&rt, name)?;
        cases::try_all(&rt, name, text.as_str())?;
    }
    Ok(())
}
