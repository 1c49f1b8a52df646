//! Tries the cases of `cases.txt`: histories that are folded, databases that are compared, what choices
//! select, what patterns match, and how long names are in the names of files. It prints each case that
//! differs, and how many there are.
#![tactic(auto)]

mod fault;
mod reading;
mod words;

use fault::CaseFault;
use reading::{choice_of, database_of, history_of};
use server_data::Database;
use server_model::{agree, escaped_length, pattern_matches, replay, select};
use std::alloc::Global;
use std::{fs, io};
use words::database_words;

// No name of a case has so many bytes.
const LIMIT: usize = 1000;

fn main(rt: HostRuntime) -> io::Result<()> {
    let text = fs::read_to_string(&rt, "cases.txt")?;
    let mut cases: u64 = 0;
    for line in text.lines() {
        let Some((case, wanted)) = line.split_once(" => ") else {
            continue;
        };
        if let Some(words) = difference(rt.alloc(), case, wanted) {
            println!(rt; "{case} => {words}, and not {wanted}")?;
        }
        cases = cases.wrapping_add(1);
    }
    println!(rt; "{cases} cases")
}

// What comes of a case, where that isn't what is wanted.
fn difference(alloc: Global, case: &str, wanted: &str) -> Option<String> {
    match answer(alloc, case) {
        Ok(found) if found.as_str() == wanted => None,
        Ok(found) => Some(found),
        Err(fault) => Some(fault_words(alloc, fault)),
    }
}

fn fault_words(alloc: Global, fault: CaseFault) -> String {
    match format!(in alloc; "{fault}") {
        Ok(words) => words,
        Err(_) => String::new(alloc),
    }
}

// What comes of a case: the word of a call, and what it is given.
fn answer(alloc: Global, case: &str) -> Result<String, CaseFault> {
    let Some((call, words)) = case.split_once(' ') else {
        return Err(CaseFault::Unread);
    };
    match call {
        "replay" => replayed(alloc, words),
        "agree" => agreed(alloc, words),
        "select" => selected(alloc, words),
        "matches" => matched(alloc, words),
        "escaped" => escaped(alloc, words),
        _ => Err(CaseFault::Unread),
    }
}

fn replayed(alloc: Global, words: &str) -> Result<String, CaseFault> {
    let history = history_of(alloc, words)?;
    found_words(alloc, &replay(alloc, &history)?)
}

fn found_words(alloc: Global, found: &Option<Database>) -> Result<String, CaseFault> {
    match found {
        Some(database) => database_words(alloc, database),
        None => Ok(String::from_str(alloc, "no database")?),
    }
}

fn agreed(alloc: Global, words: &str) -> Result<String, CaseFault> {
    let Some((one, other)) = words.split_once(" | ") else {
        return Err(CaseFault::Unread);
    };
    let one = database_of(alloc, one)?;
    let other = database_of(alloc, other)?;
    test_words(alloc, agree(&one, &other))
}

fn test_words(alloc: Global, passes: bool) -> Result<String, CaseFault> {
    let word = if passes { "yes" } else { "no" };
    Ok(String::from_str(alloc, word)?)
}

fn selected(alloc: Global, words: &str) -> Result<String, CaseFault> {
    let Some((choice, database)) = words.split_once(" from ") else {
        return Err(CaseFault::Unread);
    };
    let choice = choice_of(alloc, choice)?;
    let database = database_of(alloc, database)?;
    database_words(alloc, &select(alloc, &database, &choice)?)
}

// A pattern and a text, each between quotes.
fn matched(alloc: Global, words: &str) -> Result<String, CaseFault> {
    let Some((pattern, text)) = words.split_once("' '") else {
        return Err(CaseFault::Unread);
    };
    let (Some(pattern), Some(text)) = (pattern.strip_prefix("'"), text.strip_suffix("'")) else {
        return Err(CaseFault::Unread);
    };
    test_words(alloc, pattern_matches(pattern.as_bytes(), text.as_bytes()))
}

fn escaped(alloc: Global, name: &str) -> Result<String, CaseFault> {
    let name = name.as_bytes();
    if name.len() > LIMIT {
        return Err(CaseFault::Unread);
    }
    Ok(format!(in alloc; "{}", escaped_length(name))?)
}
