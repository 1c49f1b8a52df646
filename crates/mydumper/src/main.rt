//! The program `mydumper`: it takes the words of its command line, dumps over TCP into a folder of
//! the disk, and ends with the status of the dump.
#![tactic(auto)]

use dumper_cli::mydumper;
use plain_data::{Name, NameList};
use std::alloc::Global;
use std::io::ErrorKind;
use std::process::ExitCode;
use std::rt::Env;
use std::{env, io};
use system_outside::{DiskFolder, ErrSink, SystemClock, TcpSite};

/// Why there are no words: they aren't UTF-8, or memory ran out.
enum WordsFault {
    NotRead,
    OutOfMemory,
}

// What an argument that can't be read says.
fn fault_of(kind: ErrorKind) -> WordsFault {
    match kind {
        ErrorKind::OutOfMemory => WordsFault::OutOfMemory,
        _ => WordsFault::NotRead,
    }
}

// The words after the program's name.
fn words_of(rt: &(impl Env + AllocGlobal)) -> Result<NameList, WordsFault> {
    let mut words = NameList::new(rt.alloc());
    let args = match env::args(rt) {
        Ok(args) => args,
        Err(e) => return Err(fault_of(e.kind())),
    };
    for word in args.skip(1) {
        let Ok(name) = Name::of(rt.alloc(), word.as_str()) else {
            return Err(WordsFault::OutOfMemory);
        };
        if words.push(name).is_err() {
            return Err(WordsFault::OutOfMemory);
        }
    }
    Ok(words)
}

fn main(rt: HostRuntime) -> ExitCode {
    let words = match words_of(&rt) {
        Ok(words) => words,
        Err(WordsFault::NotRead) => return ExitCode::from(2),
        Err(WordsFault::OutOfMemory) => return ExitCode::from(5),
    };
    let mut site = TcpSite::new(rt);
    let mut folder = DiskFolder::new(rt);
    let mut err = ErrSink::new(rt.stderr());
    let mut clock = SystemClock::new(rt);
    ExitCode::from(mydumper(
        &rt,
        rt.alloc(),
        &words,
        &mut site,
        &mut folder,
        &mut err,
        &mut clock,
    ))
}
