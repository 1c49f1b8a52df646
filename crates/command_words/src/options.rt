//! The options of both programs.
ghost use Rattle.std.specs.Prelude.{◌≡◌, None, Some, map};
ghost use Rattle.command_words.specs.Options.{action_of_kind, dump_options, is_required_kind, load_options, row_of_form};

use OptionKind::{Flag, RequiredValue, Value};
use clap::ArgAction;

/// What an option takes.
#[derive(Clone, Copy)]
pub(crate) enum OptionKind {
    /// Nothing: a flag is given or it isn't.
    Flag,
    /// One value.
    Value,
    /// One value, and the option has to be given.
    RequiredValue,
}

impl OptionKind {
    // What a use of the option does: a flag is set, a value is kept.
    pub(crate) fn action(self) -> ArgAction
        ensures { result ≡ action_of_kind self }
    {
        match self {
            Flag => ArgAction::SetTrue,
            Value => ArgAction::Set,
            RequiredValue => ArgAction::Set,
        }
    }

    // Whether the option has to be given.
    pub(crate) fn is_required(self) -> bool
        ensures { result ≡ is_required_kind self }
    {
        match self {
            Flag => false,
            Value => false,
            RequiredValue => true,
        }
    }
}

/// An option: how it is written, as `--name` and for most as `-letter` too, and what it takes.
#[derive(Clone, Copy)]
pub(crate) struct OptionForm {
    pub(crate) name: &'static str,
    pub(crate) letter: Option<char>,
    pub(crate) kind: OptionKind,
}

// An option with a letter.
fn option(name: &'static str, letter: char, kind: OptionKind) -> OptionForm
    ensures { result ≡ record { name = name.entry; letter = Some letter; kind = kind } }
{
    OptionForm {
        name,
        letter: Some(letter),
        kind,
    }
}

// An option without a letter.
fn long_option(name: &'static str, kind: OptionKind) -> OptionForm
    ensures { result ≡ record { name = name.entry; letter = None; kind = kind } }
{
    OptionForm {
        name,
        letter: None,
        kind,
    }
}

/// The options of `mydumper`.
pub(crate) fn dump_options() -> [OptionForm; 18]
    ensures { map row_of_form result ≡ dump_options }
{
    [
        option("host", 'h', Value),
        option("port", 'P', Value),
        option("user", 'u', Value),
        option("password", 'p', Value),
        option("database", 'B', Value),
        option("tables-list", 'T', Value),
        long_option("pattern", Value),
        option("outputdir", 'o', RequiredValue),
        option("threads", 't', Value),
        option("rows", 'r', Value),
        option("statement-size", 's', Value),
        option("no-schemas", 'm', Flag),
        option("no-data", 'd', Flag),
        option("triggers", 'G', Flag),
        option("routines", 'R', Flag),
        long_option("events", Flag),
        long_option("hex-blob", Flag),
        long_option("wide-keys", Flag),
    ]
}

/// The options of `myloader`.
pub(crate) fn load_options() -> [OptionForm; 10]
    ensures { map row_of_form result ≡ load_options }
{
    [
        option("host", 'h', Value),
        option("port", 'P', Value),
        option("user", 'u', Value),
        option("password", 'p', Value),
        option("directory", 'd', RequiredValue),
        option("threads", 't', Value),
        option("enable-binlog", 'e', Flag),
        long_option("resume", Flag),
        option("source-db", 's', Value),
        option("database", 'B', Value),
    ]
}
