//! A table of options as a command of `clap`, and what `clap` finds in the words.
ghost use Rattle.std.specs.Prelude.{◌≡◌, ◌≢◌, ◌⊎◌, IfOk, true, false};
ghost use Rattle.clap.specs.Walk.{texts};
ghost use Rattle.clap.specs.Words.{app_of, is_simple_and_free, rule_of};
ghost use Rattle.command_words.specs.Meant.{IsSeenAsMeant};
ghost use Rattle.command_words.specs.Matches.{matched, found_rows};
ghost use Rattle.command_words.specs.Options.{command_of_forms, option_rule, row_of_form};

use crate::fault::WordsFault;
use crate::options::OptionForm;
use clap::error::ErrorKind;
use clap::{Arg, ArgMatches, Command};
use std::alloc::{AllocError, Global};

// An option as an argument of `clap`.
fn argument<'a>(alloc: Global, option: &OptionForm) -> Arg<'a>
    ensures rule { rule_of result ≡ option_rule (row_of_form option.now) }
    ensures local { result.global ≡ false }
{
    let argument = Arg::new(alloc, option.name)
        .long(option.name)
        .action(option.kind.action())
        .required(option.kind.is_required());
    match option.letter {
        Some(letter) => argument.short(letter),
        None => argument,
    }
}

// The command of these options, without a program's name among the words, and without help.
fn command<'a>(
    alloc: Global,
    name: &'a str,
    options: &[OptionForm],
) -> Result<Command<'a>, AllocError>
    ensures { IfOk result (λ command. app_of command ≡ command_of_forms name.now options.now) }
{
    let mut command = Command::new(alloc, name)
        .no_binary_name(true)
        .disable_help_flag(true);
    for option in options {
        command = command.arg(argument(alloc, option))?;
    }
    Ok(command)
}

// Why `clap` finds nothing: memory ran out, or it refuses the words.
fn fault_of(kind: ErrorKind) -> WordsFault
    ensures { (result ≡ WordsFault.OutOfMemory)
        ⊎ ((result ≡ WordsFault.NotRead) × (kind ≢ ErrorKind.OutOfMemory)) }
{
    match kind {
        ErrorKind::OutOfMemory => WordsFault::OutOfMemory,
        _ => WordsFault::NotRead,
    }
}

/// What `clap` finds in the words, by the options of this table: `NotRead` exactly where it refuses them.
/// The condition is that the command is a simple one.
pub(crate) fn matches<'a>(
    alloc: Global,
    name: &'a str,
    options: &[OptionForm],
    words: &'a [&'a str],
) -> Result<ArgMatches<'a>, WordsFault>
    requires { is_simple_and_free (command_of_forms name.now options.now) ≡ true }
    ensures { IsSeenAsMeant found_rows
        (matched (command_of_forms name.now options.now) (texts words.now)) result }
{
    let command = command(alloc, name, options)?;
    match command.try_get_matches_from(words) {
        Ok(found) => Ok(found),
        Err(error) => Err(fault_of(error.kind())),
    }
}
