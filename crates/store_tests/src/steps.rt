//! The steps of a case, taken on a store.
use crate::fault::CaseFault;
use crate::reading::{beginning, table_of, transaction_of};
use crate::words::rows_into;
use server_data::Transaction;
use std::alloc::Global;
use version_store::{PlainStore, SnapshotId, Store};

// No case takes so many snapshots.
const LIMIT: usize = 1000;

/// What the steps of a case answer, one after the other. Numbers of snapshots are those of the store: a case
/// that takes its first snapshot has number 0.
pub fn taken(alloc: Global, case: &str) -> Result<String, CaseFault> {
    let mut store = PlainStore::new(alloc);
    let mut words = String::new(alloc);
    commit(&mut store, &beginning(alloc)?, &mut words)?;
    for step in case.split("; ") {
        take_step(alloc, &mut store, step, &mut words)?;
    }
    Ok(words)
}

fn take_step(
    alloc: Global,
    store: &mut PlainStore,
    step: &str,
    words: &mut String,
) -> Result<(), CaseFault> {
    if step == "snapshot" {
        return snapshot(alloc, store, words);
    }
    if let Some(number) = step.strip_prefix("end ") {
        return end(store, number);
    }
    if let Some(asked) = step.strip_prefix("read ") {
        return read(alloc, store, asked, words);
    }
    commit(store, &transaction_of(alloc, step)?, words)
}

fn commit(
    store: &mut PlainStore,
    transaction: &Transaction,
    words: &mut String,
) -> Result<(), CaseFault> {
    if store.fits(transaction) {
        store.apply(transaction)?;
    } else {
        words.push_str(" unfit")?;
    }
    Ok(())
}

// Its number is told.
fn snapshot(alloc: Global, store: &mut PlainStore, words: &mut String) -> Result<(), CaseFault> {
    if store.live() >= LIMIT {
        return Err(CaseFault::Unread);
    }
    let id = store.snapshot()?;
    words.push_str(format!(in alloc; " {}", id.number)?.as_str())?;
    Ok(())
}

fn number_of(word: &str) -> Result<u64, CaseFault> {
    match word.parse::<u64>() {
        Ok(number) => Ok(number),
        Err(_) => Err(CaseFault::Unread),
    }
}

fn end(store: &mut PlainStore, word: &str) -> Result<(), CaseFault> {
    let number = number_of(word)?;
    let id = SnapshotId { number };
    if !store.is_live(id) {
        return Err(CaseFault::Unread);
    }
    store.end(id);
    Ok(())
}

// A bound, and none for `-`.
fn bound_of(word: &str) -> Result<Option<i128>, CaseFault> {
    if word == "-" {
        return Ok(None);
    }
    match word.parse::<i128>() {
        Ok(bound) => Ok(Some(bound)),
        Err(_) => Err(CaseFault::Unread),
    }
}

// `0 k 1 3`: a snapshot, a table and two bounds.
fn read(
    alloc: Global,
    store: &PlainStore,
    asked: &str,
    words: &mut String,
) -> Result<(), CaseFault> {
    let Some((number, rest)) = asked.split_once(' ') else {
        return Err(CaseFault::Unread);
    };
    let Some((name, bounds)) = rest.split_once(' ') else {
        return Err(CaseFault::Unread);
    };
    let Some((above, upto)) = bounds.split_once(' ') else {
        return Err(CaseFault::Unread);
    };
    let number = number_of(number)?;
    let table = table_of(alloc, name)?;
    let above = bound_of(above)?;
    let upto = bound_of(upto)?;
    let id = SnapshotId { number };
    if !store.may_read(id, &table, above, upto) {
        words.push_str(" unread")?;
        return Ok(());
    }
    let rows = store.read(id, &table, above, upto)?;
    words.push_str(" rows")?;
    rows_into(rows.as_slice(), words)
}
