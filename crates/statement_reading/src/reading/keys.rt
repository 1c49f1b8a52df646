//! Readers of the names of a key of two to four columns.
ghost use Rattle.grammar.specs.Language.{Reads};
ghost use Rattle.statement_reading.specs.Parts.{FourthKey, ThirdKey, LaterKeys, NextKeys, KeyNames};

use crate::reading::names::{read_name, read_next_name};
use grammar::{after, optional};

fn read_fourth_key(bytes: &[u8]) -> Result<usize, usize>
    ensures { Reads FourthKey bytes.now result }
{
    optional(read_next_name(bytes))
}

fn read_third_key(bytes: &[u8]) -> Result<usize, usize>
    ensures { Reads ThirdKey bytes.now result }
{
    let third = read_next_name(bytes)?;
    after(third, read_fourth_key(&bytes[third..]))
}

fn read_later_keys(bytes: &[u8]) -> Result<usize, usize>
    ensures { Reads LaterKeys bytes.now result }
{
    optional(read_third_key(bytes))
}

// The names after the first.
fn read_next_keys(bytes: &[u8]) -> Result<usize, usize>
    ensures { Reads NextKeys bytes.now result }
{
    let second = read_next_name(bytes)?;
    after(second, read_later_keys(&bytes[second..]))
}

/// Two to four names with commas between them.
pub(crate) fn read_keys(bytes: &[u8]) -> Result<usize, usize>
    ensures { Reads KeyNames bytes.now result }
{
    let first = read_name(bytes)?;
    after(first, read_next_keys(&bytes[first..]))
}
