//! A file of cases.
use crate::places::{long_place, places_anywhere};
use crate::whole_files::texts_anywhere;
use crate::words::{Stopped, first_and_rest, text_of};
use std::alloc::Global;
use std::io;

/// Prints each case that differs, and how many cases there are. A line without ` => ` is a heading. It
/// fails where printing does.
pub fn try_all(rt: &HostRuntime, text: &str) -> io::Result<()> {
    let mut cases: u64 = 0;
    for line in text.lines() {
        let Some((case, wanted)) = line.split_once(" => ") else {
            continue;
        };
        match answer(rt.alloc(), case) {
            Ok(found) if found.as_str() == wanted => (),
            Ok(found) => println!(rt; "{case} => {found}, and not {wanted}")?,
            Err(why) => println!(rt; "{case}: {why}")?,
        }
        cases = cases.wrapping_add(1);
    }
    println!(rt; "{cases} cases")
}

// What comes of a case.
fn answer(alloc: Global, case: &str) -> Result<String, Stopped> {
    let (call, words) = first_and_rest(case);
    match call {
        "texts" => texts_anywhere(alloc, words),
        "places" => places_anywhere(alloc, words),
        "long" => long_place(alloc, words),
        _ => Ok(text_of(alloc, "no such call")?),
    }
}
