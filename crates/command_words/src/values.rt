//! Texts, flags and numbers out of what `clap` finds.
ghost use Rattle.std.specs.Prelude.{◌≡◌, IfOk, IfSome};
ghost use Rattle.std.specs.List.{list_all};
ghost use Rattle.std.specs.Option.{option_copied};
ghost use Rattle.clap.specs.Walk.{texts};
ghost use Rattle.clap.specs.Words.{first_of};
ghost use Rattle.plain_data.specs.Byte.{is_digit};
ghost use Rattle.command_words.specs.Meant.{IsAsMeant, IsSeenAsMeant};
ghost use Rattle.command_words.specs.Matches.{found_rows};
ghost use Rattle.command_words.specs.Numbers.{LiesIn, is_plain_number, number_in};
ghost use Rattle.command_words.specs.Values.{is_set, number_or, optional_number, required_value, text_or};

use crate::fault::WordsFault;
use clap::ArgMatches;
use plain_data::{Name, NameList, OutOfMemory};
use std::alloc::Global;

/// The value of an option, where it has one.
pub(crate) fn value<'a>(found: &ArgMatches<'a>, name: &str) -> Option<&'a str>
    ensures { option_copied result ≡ first_of name.now (found_rows found.now) }
{
    found.get_str(name)
}

/// The value of an option, or else this one.
pub(crate) fn text_or<'a>(found: &ArgMatches<'a>, name: &str, default: &'a str) -> &'a str
    ensures { result.now ≡ text_or (found_rows found.now) name.now default.now }
{
    match value(found, name) {
        Some(text) => text,
        None => default,
    }
}

/// The value of an option that has to be given.
pub(crate) fn required_value<'a>(found: &ArgMatches<'a>, name: &str) -> Result<&'a str, WordsFault>
    ensures { IsSeenAsMeant (λ value. value.now)
        (required_value (found_rows found.now) name.now) result }
{
    match value(found, name) {
        Some(text) => Ok(text),
        None => Err(WordsFault::NotRead),
    }
}

/// Whether a flag is given.
pub(crate) fn is_set(found: &ArgMatches<'_>, name: &str) -> bool
    ensures { result ≡ is_set (found_rows found.now) name.now }
{
    match value(found, name) {
        Some(text) => text == "true",
        None => false,
    }
}

// Decimal digits alone.
fn are_digits(text: &[u8]) -> bool
    ensures { result ≡ list_all is_digit text.now }
{
    text.iter().all(|byte| matches!(*byte, b'0'..=b'9'))
}

// Decimal digits without a sign, and without a zero before other digits.
fn is_plain_number(text: &[u8]) -> bool
    ensures { result ≡ is_plain_number text.now }
{
    match text {
        [] => false,
        [first, others @ ..] => are_digits(text) && (*first != b'0' || others.is_empty()),
    }
}

/// The number that a text spells, if it lies in this range.
pub(crate) fn number_in(text: &str, least: u32, most: u32) -> Result<u32, WordsFault>
    ensures value { IsAsMeant (number_in least most text.now) result }
    ensures range { IfOk result (LiesIn least most) }
{
    if !is_plain_number(text.as_bytes()) {
        return Err(WordsFault::NotRead);
    }
    let Ok(number) = text.parse::<u32>() else {
        return Err(WordsFault::NotRead);
    };
    if least <= number && number <= most {
        Ok(number)
    } else {
        Err(WordsFault::NotRead)
    }
}

/// The number of an option, or else this one. The condition is that this one lies in the range.
pub(crate) fn number_or(
    found: &ArgMatches<'_>,
    name: &str,
    least: u32,
    most: u32,
    default: u32,
) -> Result<u32, WordsFault>
    requires { LiesIn least most default }
    ensures value { let rows = found_rows found.now in
        IsAsMeant (number_or rows name.now least most default) result }
    ensures range { IfOk result (LiesIn least most) }
{
    match value(found, name) {
        Some(text) => number_in(text, least, most),
        None => Ok(default),
    }
}

/// The number of an option, where it is given.
pub(crate) fn optional_number(
    found: &ArgMatches<'_>,
    name: &str,
    least: u32,
    most: u32,
) -> Result<Option<u32>, WordsFault>
    ensures value { IsAsMeant (optional_number (found_rows found.now) name.now least most) result }
    ensures range { IfOk result (λ number. IfSome number (LiesIn least most)) }
{
    match value(found, name) {
        Some(text) => Ok(Some(number_in(text, least, most)?)),
        None => Ok(None),
    }
}

/// The words as texts.
pub(crate) fn texts(alloc: Global, words: &NameList) -> Result<Vec<&str>, OutOfMemory>
    ensures { IfOk result (λ made. texts made.items ≡ words.now) }
{
    let mut texts = Vec::new(alloc);
    for word in words.as_slice() {
        texts.push(word.as_str())?;
    }
    Ok(texts)
}
