//! The lists of databases and tables, divided at commas.
ghost use Rattle.std.specs.Prelude.{◌≡◌, ◌⊎◌, IfOk, option_map};
ghost use Rattle.std.specs.List.{list_any};
ghost use Rattle.std.specs.Option.{option_copied};
ghost use Rattle.clap.specs.Walk.{texts};
ghost use Rattle.command_words.specs.Meant.{IsAsMeant};
ghost use Rattle.command_words.specs.Entries.{database_of, databases_of, entries_of, is_empty_text, parts_at, need_of, need_of_filled, needs_of};

use crate::fault::WordsFault;
use plain_data::{Name, NameList};
use server_data::{Need, NeedList};
use std::alloc::{AllocError, Global};

// What stands between the commas of a text.
fn at_commas(alloc: Global, text: &str) -> Result<Vec<&str>, AllocError>
    ensures { IfOk result (λ parts. texts parts.items ≡ parts_at 44 text.now) }
{
    text.split(',').collect(alloc)
}

// What stands between the dots of a text.
fn at_dots(alloc: Global, text: &str) -> Result<Vec<&str>, AllocError>
    ensures { IfOk result (λ parts. texts parts.items ≡ parts_at 46 text.now) }
{
    text.split('.').collect(alloc)
}

// The entries of a list that is given.
fn entries<'a>(alloc: Global, list: Option<&'a str>) -> Result<Vec<&'a str>, AllocError>
    ensures { IfOk result (λ made. texts made.items ≡ entries_of (option_copied list.entry)) }
{
    match list {
        None => Ok(Vec::new(alloc)),
        Some(text) => at_commas(alloc, text),
    }
}

// The fault at an entry that names nothing.
fn bad_entry(alloc: Global, entry: &str) -> WordsFault
    ensures { (result ≡ WordsFault.OutOfMemory) ⊎ (result ≡ WordsFault.BadEntry entry.now) }
{
    match Name::of(alloc, entry) {
        Ok(entry) => WordsFault::BadEntry(entry),
        Err(_) => WordsFault::OutOfMemory,
    }
}

// The database that an entry names.
fn database(alloc: Global, entry: &str) -> Result<Name, WordsFault>
    ensures { IsAsMeant (database_of entry.now) result }
{
    if entry.is_empty() {
        return Err(bad_entry(alloc, entry));
    }
    Ok(Name::of(alloc, entry)?)
}

/// The databases of a list that is given.
pub(crate) fn databases(alloc: Global, list: Option<&str>) -> Result<NameList, WordsFault>
    ensures { IsAsMeant (databases_of (option_copied list.entry)) result }
{
    let entries = entries(alloc, list)?;
    let mut names = NameList::new(alloc);
    for entry in entries.as_slice() {
        names.push(database(alloc, entry)?)?;
    }
    Ok(names)
}

// Whether a part is empty.
fn has_empty(parts: &[&str]) -> bool
    ensures { result ≡ list_any (λ part. is_empty_text part.now) parts.now }
{
    parts.iter().any(|part| part.is_empty())
}

// The database and the table that the parts of an entry name.
fn names_of<'a>(databases: &'a [Name], parts: &[&'a str]) -> Option<(&'a str, &'a str)>
    ensures { option_map (λ names. record { schema = names.0.now; name = names.1.now }) result
        ≡ need_of_filled databases.now (texts parts.now) }
{
    if has_empty(parts) {
        return None;
    }
    match (databases, parts) {
        (_, [schema, name]) => Some((*schema, *name)),
        ([database], [name]) => Some((database.as_str(), *name)),
        _ => None,
    }
}

// The table that an entry names.
fn table(alloc: Global, databases: &[Name], entry: &str) -> Result<Need, WordsFault>
    ensures { IsAsMeant (need_of databases.now entry.now) result }
{
    let parts = at_dots(alloc, entry)?;
    let Some((schema, name)) = names_of(databases, parts.as_slice()) else {
        return Err(bad_entry(alloc, entry));
    };
    Ok(Need {
        schema: Name::of(alloc, schema)?,
        name: Name::of(alloc, name)?,
    })
}

/// The tables of a list that is given, where these databases are named.
pub(crate) fn tables(
    alloc: Global,
    databases: &[Name],
    list: Option<&str>,
) -> Result<NeedList, WordsFault>
    ensures { IsAsMeant (needs_of databases.now (option_copied list.entry)) result }
{
    let entries = entries(alloc, list)?;
    let mut needs = NeedList::new(alloc);
    for entry in entries.as_slice() {
        needs.push(table(alloc, databases, entry)?)?;
    }
    Ok(needs)
}
