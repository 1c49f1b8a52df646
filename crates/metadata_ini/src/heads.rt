//! The lines of `metadata` before those of files, as they are read.
ghost use Rattle.std.specs.Prelude.{◌≡◌, ◌≢◌, ◌++◌, IfOk, IfErr, MatchOption};
ghost use Rattle.metadata_ini.specs.Fault.{IsMetadataFault};
ghost use Rattle.metadata_ini.specs.Reading.{HasNoTimeLine, HasNoValueLine, IsHead, IsTimeLine, IsValueLine, IsVersion};

use crate::cuts::cut;
use crate::decimals::read_decimal;
use crate::fault::MetadataFault;
use crate::spelling::is_same;
use crate::times::read_time;

/// What the lines up to the times say.
#[derive(Clone, Copy)]
pub(crate) struct Head {
    pub(crate) version: u32,
    pub(crate) started: u64,
    pub(crate) finished: u64,
}

/// What follows a word.
pub(crate) fn after_word<'a>(word: &[u8], text: &'a [u8]) -> Option<&'a [u8]>
    ensures { MatchOption result ((rest : _) → text.now ≢ word.now ++ rest)
        (λ rest. text.now ≡ word.now ++ rest.now) }
{
    if text.len() < word.len() {
        return None;
    }
    let (front, rest) = text.split_at(word.len());
    if is_same(front, word) {
        Some(rest)
    } else {
        None
    }
}

/// The value of the first line, which begins with a word, and what follows the line.
pub(crate) fn value_line<'a>(word: &[u8], text: &'a [u8]) -> Option<(&'a [u8], &'a [u8])>
    ensures { MatchOption result (HasNoValueLine word.now text.now)
        (λ r. IsValueLine word.now text.now r.0.now r.1.now) }
{
    let Some(rest) = after_word(word, text) else {
        return None;
    };
    let Some((value, after)) = cut(b'\n', rest) else {
        return None;
    };
    Some((value, after))
}

// The time of the first line, which begins with a word, and what follows the line.
fn time_line<'a>(word: &[u8], text: &'a [u8]) -> Option<(u64, &'a [u8])>
    ensures { MatchOption result (HasNoTimeLine word.now text.now)
        (λ r. IsTimeLine word.now text.now r.0 r.1.now) }
{
    let Some((value, after)) = value_line(word, text) else {
        return None;
    };
    let Some(seconds) = read_time(value) else {
        return None;
    };
    Some((seconds, after))
}

// The version that the text has, or why it has none.
fn read_version(text: &[u8]) -> Result<(u32, &[u8]), MetadataFault>
    ensures ok { IfOk result (λ r. IsVersion text.now r.0 r.1.now) }
    ensures err { IfErr result (IsMetadataFault text.now) }
{
    let Some(rest) = after_word(b"[dump]\n", text) else {
        return Err(MetadataFault::BadLine(1));
    };
    let Some((value, rest)) = value_line(b"version=", rest) else {
        return Err(MetadataFault::BadLine(2));
    };
    let Some(version) = read_decimal(value) else {
        return Err(MetadataFault::BadLine(2));
    };
    if version > u32::MAX as u64 {
        return Err(MetadataFault::BadLine(2));
    }
    let version = version as u32;
    if version != 1 && version != 2 {
        return Err(MetadataFault::WrongVersion(version));
    }
    Ok((version, rest))
}

/// What the lines up to the times say, and what follows them.
pub(crate) fn read_head(text: &[u8]) -> Result<(Head, &[u8]), MetadataFault>
    ensures ok { IfOk result (λ r. IsHead text.now r.0 r.1.now) }
    ensures err { IfErr result (IsMetadataFault text.now) }
{
    let (version, rest) = read_version(text)?;
    let Some((started, rest)) = time_line(b"started=", rest) else {
        return Err(MetadataFault::BadLine(3));
    };
    let Some((finished, rest)) = time_line(b"finished=", rest) else {
        return Err(MetadataFault::BadLine(4));
    };
    Ok((
        Head {
            version,
            started,
            finished,
        },
        rest,
    ))
}
