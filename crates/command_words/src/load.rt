//! What a command line of `myloader` asks for.
ghost use Rattle.std.specs.Prelude.{IfOk};
ghost use Rattle.std.specs.Option.{option_copied};
ghost use Rattle.command_words.specs.Load.{load_of_rows, load_of_words, new_name, renaming_of};
ghost use Rattle.command_words.specs.Numbers.{LiesIn};
ghost use Rattle.command_words.specs.Matches.{found_rows};
ghost use Rattle.command_words.specs.Meant.{IsAsMeant, IsSeenAsMeant};

use crate::command::matches;
use crate::fault::WordsFault;
use crate::login::{ServerLogin, login};
use crate::options::load_options;
use crate::values::{is_set, number_or, required_value, texts, value};
use clap::ArgMatches;
use plain_data::{Name, NameList, OutOfMemory};
use std::alloc::Global;

/// The one database that is loaded.
#[derive(Drop)]
pub struct Renaming {
    /// Its name in the dump.
    pub source: Name,
    /// The name under which it is loaded, which may be the same.
    pub target: Name,
}

/// What a command line of `myloader` asks for.
#[derive(Drop)]
pub struct LoadWords {
    pub login: ServerLogin,
    /// The path of the folder.
    pub directory: Name,
    /// 1 to 32.
    pub threads: u32,
    /// What is loaded goes into the target's binary log.
    pub keeps_binlog: bool,
    /// A load that was stopped goes on.
    pub resumes: bool,
    /// The one database that is loaded; none means every database, under its own name.
    pub renaming: Option<Renaming>,
}

// The new name of a database, where one is given.
fn new_name(name: Option<&str>) -> Result<Option<&str>, WordsFault>
    ensures { IsSeenAsMeant option_copied (new_name (option_copied name.entry)) result }
{
    match name {
        None => Ok(None),
        Some(name) if 1 <= name.len() && name.len() <= 64 => Ok(Some(name)),
        Some(_) => Err(WordsFault::NotRead),
    }
}

// The database that is loaded, where one is named.
fn one_database(
    alloc: Global,
    source: Option<&str>,
    target: Option<&str>,
) -> Result<Option<Renaming>, WordsFault>
    ensures { IsAsMeant
        (renaming_of (option_copied source.entry) (option_copied target.entry)) result }
{
    let (source, target) = match (source, target) {
        (None, None) => return Ok(None),
        (None, Some(_)) => return Err(WordsFault::NoSource),
        (Some(source), None) => (source, source),
        (Some(source), Some(target)) => (source, target),
    };
    Ok(Some(Renaming {
        source: Name::of(alloc, source)?,
        target: Name::of(alloc, target)?,
    }))
}

// What the matches of the command ask for.
fn load_words(alloc: Global, found: &ArgMatches<'_>) -> Result<LoadWords, WordsFault>
    ensures meaning { IsAsMeant (load_of_rows (found_rows found.now)) result }
    ensures threads { IfOk result (λ words. LiesIn 1 32 words.threads) }
{
    let login = login(alloc, found)?;
    let threads = number_or(found, "threads", 1, 32, 4)?;
    let directory = required_value(found, "directory")?;
    let target = new_name(value(found, "database"))?;
    let renaming = one_database(alloc, value(found, "source-db"), target)?;
    Ok(LoadWords {
        login,
        directory: Name::of(alloc, directory)?,
        threads,
        keeps_binlog: is_set(found, "enable-binlog"),
        resumes: is_set(found, "resume"),
        renaming,
    })
}

/// Reads the words of `myloader`, of which the first isn't the program's name: those of a simple command of
/// `clap` with these options, each at most once, and nothing else.
///
/// | Option | Value | Meaning |
/// |---|---|---|
/// | `-h`, `--host` | text | the server, by default 127.0.0.1 |
/// | `-P`, `--port` | 1 to 65535 | by default 3306 |
/// | `-u`, `--user` | text | by default root |
/// | `-p`, `--password` | text, which may be empty | by default empty |
/// | `-d`, `--directory` | text | the folder; it has to be given |
/// | `-t`, `--threads` | 1 to 32 | by default 4 |
/// | `-e`, `--enable-binlog`; `--resume` | | see [`LoadWords`] |
/// | `-s`, `--source-db` | text | only this database |
/// | `-B`, `--database` | 1 to 64 bytes | the name that it is loaded under, by default its own |
///
/// A value that begins with `-` is written `--name=value`. There is no help and no version.
///
/// In this order: `NotRead` exactly where `clap` refuses the words for another cause than memory, where a
/// number isn't decimal digits, without a sign and without a zero before others, or not in its range, or
/// where the value of `-B` hasn't 1 to 64 bytes. `NoSource` exactly where `-B` is given without `-s`.
/// `OutOfMemory` may come at any time; `BadEntry` never comes.
pub fn read_load_words(alloc: Global, words: &NameList) -> Result<LoadWords, WordsFault>
    ensures meaning { IsAsMeant (load_of_words words.now) result }
    ensures threads { IfOk result (λ words. LiesIn 1 32 words.threads) }
{
    let texts = texts(alloc, words)?;
    let options = load_options();
    let found = matches(alloc, "myloader", options.as_slice(), texts.as_slice())?;
    load_words(alloc, &found)
}
