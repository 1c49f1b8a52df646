//! What comes of the words of a case, in words.
use crate::lists::{flag_into, names_into, needs_into};
use command_words::{DumpWords, LoadWords, Renaming, ServerLogin, WordsFault};
use plain_data::{Bytes, Name, OutOfMemory};
use server_data::Choice;
use std::alloc::Global;

fn fault_words(alloc: Global, fault: &WordsFault) -> Result<String, OutOfMemory> {
    match fault {
        WordsFault::NotRead => Ok(String::from_str(alloc, "not read")?),
        WordsFault::BadEntry(entry) => bad_entry_words(alloc, entry),
        WordsFault::NoSource => Ok(String::from_str(alloc, "no source")?),
        WordsFault::OutOfMemory => Err(OutOfMemory),
    }
}

fn bad_entry_words(alloc: Global, entry: &Name) -> Result<String, OutOfMemory> {
    Ok(format!(in alloc; "bad entry '{}'", entry.as_str())?)
}

// The account, the server and the folder.
fn login_words(
    alloc: Global,
    login: &ServerLogin,
    directory: &Name,
) -> Result<String, OutOfMemory> {
    let (host, user) = (login.host.as_str(), login.user.as_str());
    let (password, directory) = (login.password.as_str(), directory.as_str());
    Ok(format!(in alloc; "{user}:{password}@{host}:{} {directory}", login.port)?)
}

// `any`, or a number.
fn rows_into(alloc: Global, rows: Option<u32>, words: &mut String) -> Result<(), OutOfMemory> {
    match rows {
        None => words.push_str("any")?,
        Some(rows) => words.push_str(format!(in alloc; "{rows}")?.as_str())?,
    }
    Ok(())
}

fn pattern_into(pattern: &Option<Bytes>, words: &mut String) -> Result<(), OutOfMemory> {
    if let Some(pattern) = pattern {
        words.push_str(", pattern ")?;
        words.push_str(pattern_text(pattern))?;
    }
    Ok(())
}

// A pattern comes out of a word, so it is text.
fn pattern_text(pattern: &Bytes) -> &str {
    match std::str::from_utf8(pattern.as_slice()) {
        Ok(text) => text,
        Err(_) => "no text",
    }
}

fn choice_into(choice: &Choice, words: &mut String) -> Result<(), OutOfMemory> {
    words.push_str(", databases ")?;
    names_into(&choice.databases, words)?;
    words.push_str(", tables ")?;
    needs_into(&choice.tables, words)?;
    pattern_into(&choice.pattern, words)?;
    flag_into(choice.no_schemas, "no schemas", words)?;
    flag_into(choice.no_data, "no data", words)?;
    flag_into(choice.triggers, "triggers", words)?;
    flag_into(choice.routines, "routines", words)?;
    flag_into(choice.events, "events", words)
}

fn dump_words(alloc: Global, asked: &DumpWords) -> Result<String, OutOfMemory> {
    let mut words = login_words(alloc, &asked.login, &asked.directory)?;
    words.push_str(format!(in alloc; ", {} threads, ", asked.limits.threads)?.as_str())?;
    rows_into(alloc, asked.limits.rows, &mut words)?;
    words.push_str(format!(in alloc; " rows, {} bytes", asked.limits.statement_size)?.as_str())?;
    choice_into(&asked.choice, &mut words)?;
    flag_into(asked.hex_blob, "hex blob", &mut words)?;
    flag_into(asked.wide_keys, "wide keys", &mut words)?;
    Ok(words)
}

/// What comes of the words of `mydumper`.
pub fn dump_answer(
    alloc: Global,
    answer: &Result<DumpWords, WordsFault>,
) -> Result<String, OutOfMemory> {
    match answer {
        Ok(asked) => dump_words(alloc, asked),
        Err(fault) => fault_words(alloc, fault),
    }
}

fn renaming_into(renaming: &Option<Renaming>, words: &mut String) -> Result<(), OutOfMemory> {
    if let Some(renaming) = renaming {
        words.push_str(", ")?;
        words.push_str(renaming.source.as_str())?;
        words.push_str(" as ")?;
        words.push_str(renaming.target.as_str())?;
    }
    Ok(())
}

fn load_words(alloc: Global, asked: &LoadWords) -> Result<String, OutOfMemory> {
    let mut words = login_words(alloc, &asked.login, &asked.directory)?;
    words.push_str(format!(in alloc; ", {} threads", asked.threads)?.as_str())?;
    flag_into(asked.keeps_binlog, "binlog", &mut words)?;
    flag_into(asked.resumes, "resume", &mut words)?;
    renaming_into(&asked.renaming, &mut words)?;
    Ok(words)
}

/// What comes of the words of `myloader`.
pub fn load_answer(
    alloc: Global,
    answer: &Result<LoadWords, WordsFault>,
) -> Result<String, OutOfMemory> {
    match answer {
        Ok(asked) => load_words(alloc, asked),
        Err(fault) => fault_words(alloc, fault),
    }
}
