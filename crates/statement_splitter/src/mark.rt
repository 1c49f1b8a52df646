//! Where a mark stands: a byte, so many dollars, a byte.
ghost use Rattle.std.specs.Prelude.{◌≡◌, ◌≢◌, ◌≤◌, length, ◌∷◌, [], ◌++◌, replicate};
ghost use Rattle.statement_splitter.specs.State.{SearchesMark, Compares, dollar_mark};
ghost use Rattle.splitter_forms.specs.Pieces.{mark_of};

use crate::opening::dollar_count;
use crate::runs::{byte_until, rest_of};
use splitter_forms::CommentEnd;

// What a search for a mark found.
#[derive(Clone, Copy)]
pub(crate) enum Mark {
    // The place of the mark.
    Ended(usize),
    // None, and the first place where more bytes may complete it.
    Open(usize),
}

// How bytes compare with a mark.
#[derive(Clone, Copy)]
enum Likeness {
    // They begin with it.
    Whole,
    // They are some of its first, and not all.
    Front,
    Neither,
}

// How the bytes after a mark's first compare with the rest of it.
fn compare(bytes: &[u8], dollars: usize, last: u8) -> Likeness
    requires { last ≢ 36 }
    ensures { Compares (replicate dollars 36 ++ last ∷ []) bytes.now result }
{
    let count = dollar_count(bytes);
    if count == bytes.len() && count <= dollars {
        return Likeness::Front;
    }
    if count < bytes.len() && count == dollars && bytes[count] == last {
        return Likeness::Whole;
    }
    Likeness::Neither
}

// The first place from `from` on where the mark stands.
pub(crate) fn mark_from(bytes: &[u8], from: usize, first: u8, dollars: usize, last: u8) -> Mark
    requires within { from ≤ length bytes.now }
    requires last { last ≢ 36 }
    ensures { SearchesMark (dollar_mark first dollars last) bytes.now from result }
{
    let mut at = from;
    'firsts: loop {
        at = byte_until(bytes, at, first);
        if at == bytes.len() {
            return Mark::Open(at);
        }
        match compare(rest_of(bytes, at + 1), dollars, last) {
            Likeness::Whole => return Mark::Ended(at),
            Likeness::Front => return Mark::Open(at),
            Likeness::Neither => at += 1,
        }
    }
}

// The first place from `from` on where a line ends.
fn line_feed_from(bytes: &[u8], from: usize) -> Mark
    requires { from ≤ length bytes.now }
    ensures { SearchesMark (10 ∷ []) bytes.now from result }
{
    let to = byte_until(bytes, from, b'\n');
    if to < bytes.len() {
        Mark::Ended(to)
    } else {
        Mark::Open(to)
    }
}

// Where the comment ends, from `from` on.
pub(crate) fn comment_end_from(bytes: &[u8], from: usize, end: CommentEnd) -> Mark
    requires { from ≤ length bytes.now }
    ensures { SearchesMark (mark_of end) bytes.now from result }
{
    match end {
        CommentEnd::LineFeed => line_feed_from(bytes, from),
        CommentEnd::StarSlash => mark_from(bytes, from, b'*', 0, b'/'),
    }
}
