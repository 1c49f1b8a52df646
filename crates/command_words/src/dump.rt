//! What a command line of `mydumper` asks for.
ghost use Rattle.std.specs.Prelude.{◌≡◌, IfOk};
ghost use Rattle.std.specs.Option.{option_copied};
ghost use Rattle.command_words.specs.Dump.{IsWithinLimits, choice_of, dump_of_rows, dump_of_words, limits_of};
ghost use Rattle.command_words.specs.Matches.{found_rows};
ghost use Rattle.command_words.specs.Meant.{IsAsMeant};

use crate::command::matches;
use crate::entries::{databases, tables};
use crate::fault::WordsFault;
use crate::login::{ServerLogin, login};
use crate::options::dump_options;
use crate::values::{is_set, number_or, optional_number, required_value, texts, value};
use clap::ArgMatches;
use plain_data::{Bytes, Name, NameList, OutOfMemory};
use server_data::Choice;
use std::alloc::Global;

/// How many threads dump, and how long files and statements may grow.
#[derive(Clone, Copy)]
pub struct DumpLimits {
    /// 1 to 32.
    pub threads: u32,
    /// The rows of one data file, 1 to 1,000,000,000; none means any number.
    pub rows: Option<u32>,
    /// The bytes of one INSERT, 1000 to 16,777,216; a longer one has one row.
    pub statement_size: u32,
}

/// What a command line of `mydumper` asks for.
#[derive(Drop)]
pub struct DumpWords {
    pub login: ServerLogin,
    /// The path of the folder.
    pub directory: Name,
    pub limits: DumpLimits,
    /// Which databases, tables and other objects are dumped.
    pub choice: Choice,
    /// Binary columns are written in hexadecimal.
    pub hex_blob: bool,
    /// Tables with a key of several columns are divided by it, too.
    pub wide_keys: bool,
}

// The limits that the words give.
fn limits(found: &ArgMatches<'_>) -> Result<DumpLimits, WordsFault>
    ensures meaning { IsAsMeant (limits_of (found_rows found.now)) result }
    ensures within { IfOk result IsWithinLimits }
{
    Ok(DumpLimits {
        threads: number_or(found, "threads", 1, 32, 4)?,
        rows: optional_number(found, "rows", 1, 1_000_000_000)?,
        statement_size: number_or(found, "statement-size", 1000, 16_777_216, 1_000_000)?,
    })
}

// A text as bytes, where there is one.
fn bytes_of(alloc: Global, text: Option<&str>) -> Result<Option<Bytes>, OutOfMemory>
    ensures { IfOk result (λ made. made ≡ option_copied text.entry) }
{
    match text {
        Some(text) => Ok(Some(Bytes::of(alloc, text.as_bytes())?)),
        None => Ok(None),
    }
}

// What the words select.
fn choice(alloc: Global, found: &ArgMatches<'_>) -> Result<Choice, WordsFault>
    ensures { IsAsMeant (choice_of (found_rows found.now)) result }
{
    let databases = databases(alloc, value(found, "database"))?;
    let tables = tables(alloc, databases.as_slice(), value(found, "tables-list"))?;
    Ok(Choice {
        databases,
        tables,
        pattern: bytes_of(alloc, value(found, "pattern"))?,
        no_schemas: is_set(found, "no-schemas"),
        no_data: is_set(found, "no-data"),
        triggers: is_set(found, "triggers"),
        routines: is_set(found, "routines"),
        events: is_set(found, "events"),
    })
}

// What the matches of the command ask for.
fn dump_words(alloc: Global, found: &ArgMatches<'_>) -> Result<DumpWords, WordsFault>
    ensures meaning { IsAsMeant (dump_of_rows (found_rows found.now)) result }
    ensures within { IfOk result (λ words. IsWithinLimits words.limits) }
{
    let login = login(alloc, found)?;
    let limits = limits(found)?;
    let directory = required_value(found, "outputdir")?;
    let choice = choice(alloc, found)?;
    Ok(DumpWords {
        login,
        directory: Name::of(alloc, directory)?,
        limits,
        choice,
        hex_blob: is_set(found, "hex-blob"),
        wide_keys: is_set(found, "wide-keys"),
    })
}

/// Reads the words of `mydumper`, of which the first isn't the program's name: those of a simple command of
/// `clap` with these options, each at most once, and nothing else.
///
/// | Option | Value | Meaning |
/// |---|---|---|
/// | `-h`, `--host` | text | the server, by default 127.0.0.1 |
/// | `-P`, `--port` | 1 to 65535 | by default 3306 |
/// | `-u`, `--user` | text | by default root |
/// | `-p`, `--password` | text, which may be empty | by default empty |
/// | `-B`, `--database` | names with commas | only these databases |
/// | `-T`, `--tables-list` | entries with commas | only these tables and views, as `database.table`, or the table alone where `-B` gives one name |
/// | `--pattern` | text | only tables and views whose `database.table` this pattern matches |
/// | `-o`, `--outputdir` | text | the folder; it has to be given |
/// | `-t`, `--threads` | 1 to 32 | by default 4 |
/// | `-r`, `--rows` | 1 to 1000000000 | rows of a data file, by default any number |
/// | `-s`, `--statement-size` | 1000 to 16777216 | bytes of a statement, by default 1000000 |
/// | `-m`, `--no-schemas`; `-d`, `--no-data` | | no schema files; no data files |
/// | `-G`, `--triggers`; `-R`, `--routines`; `--events` | | these objects too |
/// | `--hex-blob`; `--wide-keys` | | see [`DumpWords`] |
///
/// A value that begins with `-` is written `--name=value`. There is no help and no version.
///
/// In this order: `NotRead` exactly where `clap` refuses the words for another cause than memory, or where a
/// number isn't decimal digits, without a sign and without a zero before others, or not in its range.
/// `BadEntry` with the first entry of `-B` that is empty, or else the first of `-T` that is empty, has an empty
/// part, has more than one dot, or has none while `-B` doesn't give exactly one name. `OutOfMemory` may come
/// at any time.
pub fn read_dump_words(alloc: Global, words: &NameList) -> Result<DumpWords, WordsFault>
    ensures meaning { IsAsMeant (dump_of_words words.now) result }
    ensures within { IfOk result (λ words. IsWithinLimits words.limits) }
{
    let texts = texts(alloc, words)?;
    let options = dump_options();
    let found = matches(alloc, "mydumper", options.as_slice(), texts.as_slice())?;
    dump_words(alloc, &found)
}
