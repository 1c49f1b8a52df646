//! A run, and what is asked of it.
ghost use Rattle.std.specs.Prelude.{◌≡◌};

use crate::case::{Case, changed};
use crate::fault::CaseFault;
use crate::site::{folder_of, site_of, words_of};
use crate::words::{bytes_of, number};
use dumper_cli::mydumper;
use memory_outside::{ListClock, MemoryFolder, MemorySink, ReplySite};
use plain_data::{Bytes, NameList, NumberList};
use std::alloc::Global;
use std::thread::Threads;

// What a run left.
#[derive(Drop)]
struct Ended {
    status: u8,
    site: ReplySite,
    folder: MemoryFolder,
}

// The status of a dump.
fn status_of<R: Threads + Sync>(
    rt: &R,
    alloc: Global,
    words: &NameList,
    site: &mut ReplySite,
    folder: &mut MemoryFolder,
) -> u8
    requires no_link_out { site.old.links.out ≡ 0 }
    requires no_shelf_out { folder.old.out ≡ 0 }
{
    let mut err = MemorySink::new(alloc, NumberList::new(alloc));
    let mut clock = ListClock::new(NumberList::new(alloc), NumberList::new(alloc));
    mydumper(rt, alloc, words, site, folder, &mut err, &mut clock)
}

// Runs a case.
fn ended_run<R: Threads + Sync>(
    rt: &R,
    alloc: Global,
    case: &Case<'_>,
    cut: u32,
) -> Result<Ended, CaseFault> {
    let words = words_of(alloc, case.words)?;
    let mut site = site_of(alloc, case, cut)?;
    let mut folder = folder_of(alloc, case.listed)?;
    let status = status_of(rt, alloc, &words, &mut site, &mut folder);
    Ok(Ended {
        status,
        site,
        folder,
    })
}

impl Ended {
    // How many messages were sent, if the link came back.
    fn messages(&self, alloc: Global) -> Result<Vec<u8>, CaseFault> {
        if !self.site.has_returned(0) {
            return bytes_of(alloc, "no link");
        }
        let count = self.site.sent(0).as_slice().len();
        Ok(format!(in alloc; "{count}")?.into_bytes())
    }

    // The message of this number.
    fn message(&self, alloc: Global, number: usize) -> Result<Vec<u8>, CaseFault> {
        if !self.site.has_returned(0) {
            return bytes_of(alloc, "no link");
        }
        message_at(alloc, self.site.sent(0).as_slice(), number)
    }

    // The data file after what it begins with.
    fn file(&self, alloc: Global, case: &Case<'_>) -> Result<Vec<u8>, CaseFault> {
        let preamble = bytes_of(alloc, case.preamble)?;
        match self.folder.file(case.file) {
            Some(file) => after(alloc, &preamble, file),
            None => bytes_of(alloc, "no file"),
        }
    }
}

fn message_at(alloc: Global, messages: &[Bytes], number: usize) -> Result<Vec<u8>, CaseFault> {
    match messages.get(number) {
        Some(message) => copied(alloc, message.as_slice()),
        None => bytes_of(alloc, "no message"),
    }
}

fn after(alloc: Global, preamble: &[u8], file: &[u8]) -> Result<Vec<u8>, CaseFault> {
    match file.strip_prefix(preamble) {
        Some(rest) => copied(alloc, rest),
        None => bytes_of(alloc, "another beginning"),
    }
}

fn copied(alloc: Global, bytes: &[u8]) -> Result<Vec<u8>, CaseFault> {
    let mut made = Vec::new(alloc);
    made.extend_from_slice(bytes)?;
    Ok(made)
}

// What is asked of a run.
fn asked(alloc: Global, case: &Case<'_>, ended: &Ended, call: &str) -> Result<Vec<u8>, CaseFault> {
    match call {
        "status" => Ok(format!(in alloc; "{}", ended.status)?.into_bytes()),
        "messages" => ended.messages(alloc),
        "file" => ended.file(alloc, case),
        _ => match call.strip_prefix("message ") {
            Some(word) => ended.message(alloc, number(word) as usize),
            None => Err(CaseFault::Unread),
        },
    }
}

/// Runs a case with this greatest answer of a `recv`, 0 for no limit, and answers what is asked of it:
/// `status`, `messages` (how many were sent), `message N`, or `file`. `words W` is the status with these
/// words, and `columns R` the file with these rows of columns.
pub fn run<R: Threads + Sync>(
    rt: &R,
    alloc: Global,
    case: &Case<'_>,
    cut: u32,
    call: &str,
) -> Result<Vec<u8>, CaseFault> {
    match changed(*case, call) {
        Some(changed) => {
            let ended = ended_run(rt, alloc, &changed, cut)?;
            let call = if call.starts_with("words ") {
                "status"
            } else {
                "file"
            };
            asked(alloc, &changed, &ended, call)
        }
        None => {
            let ended = ended_run(rt, alloc, case, cut)?;
            asked(alloc, case, &ended, call)
        }
    }
}
