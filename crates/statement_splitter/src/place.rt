//! Where a splitter is in the bytes that it holds.
ghost use Rattle.std.specs.Prelude.{◌≡◌, ◌+◌, ◌≤◌, ◌<◌, ◌^◌, length, Some};
ghost use Rattle.splitter_forms.specs.Scan.{end_size};
ghost use Rattle.splitter_forms.specs.Pieces.{mark_of, begun_size, last};
ghost use Rattle.statement_splitter.specs.State.{later_place, place_after_statement, unread_at, InComment, InStatement, IsPlaceWithin, Turns, Finds, least};

use crate::mark::{Mark, comment_end_from};
use crate::opening::opening_of;
use crate::runs::rest_of;
use crate::scan::{Scan, end_from};
use splitter_forms::{CommentEnd, Delimiter, Opening, Within};

// What is known of the bytes that come next.
#[derive(Clone, Copy)]
pub(crate) enum Begun {
    Unknown,
    InComment(CommentEnd),
    // The next byte that isn't scanned stands there.
    InStatement(Within),
}

// Where a splitter is.
#[derive(Clone, Copy)]
pub(crate) struct Place {
    // How many of the bytes that are held, and of the file's, come before what is unread.
    pub(crate) at: usize,
    pub(crate) offset: u64,
    // Whether the next byte begins a line.
    pub(crate) fresh: bool,
    pub(crate) ending: Delimiter,
    pub(crate) begun: Begun,
    // How many bytes of what is begun are scanned.
    pub(crate) scanned: usize,
}

// What comes next.
#[derive(Clone, Copy)]
pub(crate) enum Found {
    // A statement of so many bytes, which is ended.
    Ended(usize),
    // A statement that isn't ended.
    Unended,
    // What more bytes decide.
    Waiting,
    // No statement is begun.
    Nothing,
}

// The place so many bytes further, of which nothing is known.
fn after(place: Place, size: usize, fresh: bool, ending: Delimiter) -> Place
    requires at { place.at + size < 2 ^ 64 }
    requires offset { place.offset + size < 2 ^ 64 }
    ensures { result ≡ later_place place size fresh ending }
{
    Place {
        at: place.at + size,
        offset: place.offset + size as u64,
        fresh,
        ending,
        begun: Begun::Unknown,
        scanned: 0,
    }
}

// The place after a statement of so many bytes, and what ends it.
pub(crate) fn after_statement(place: Place, size: usize) -> Place
    requires at { place.at + (size + end_size place.ending) < 2 ^ 64 }
    requires offset { place.offset + (size + end_size place.ending) < 2 ^ 64 }
    ensures { result ≡ place_after_statement place size }
{
    match place.ending {
        Delimiter::Semicolon => after(place, size + 1, false, place.ending),
        Delimiter::Dollars(dollars) => after(place, size + (dollars + 2), true, place.ending),
    }
}

fn mark_size(end: CommentEnd) -> usize
    ensures { result ≡ length (mark_of end) }
{
    match end {
        CommentEnd::LineFeed => 1,
        CommentEnd::StarSlash => 2,
    }
}

// Passes over the comment that is begun, from its byte `from` on, where it is ended.
fn comment_turn(bytes: &[u8], place: &mut Place, from: usize, end: CommentEnd) -> Option<Found>
    requires place { IsPlaceWithin bytes.now place.old }
    requires comment { InComment (unread_at bytes.now place.old) from (mark_of end) }
    ensures { Turns bytes.now place.old result place.new }
{
    let rest = rest_of(bytes, place.at);
    match comment_end_from(rest, from, end) {
        Mark::Ended(to) => {
            let size = to + mark_size(end);
            *place = after(*place, size, rest[size - 1] == b'\n', place.ending);
            None
        }
        Mark::Open(to) => {
            place.begun = Begun::InComment(end);
            place.scanned = to;
            Some(Found::Nothing)
        }
    }
}

// Looks for the end of the statement that is begun, from its byte `from` on.
fn statement_turn(bytes: &[u8], place: &mut Place, from: usize, within: Within) -> Found
    requires place { IsPlaceWithin bytes.now place.old }
    requires statement { InStatement (unread_at bytes.now place.old) from within }
    ensures { Turns bytes.now place.old (Some result) place.new }
{
    let rest = rest_of(bytes, place.at);
    match end_from(rest, from, place.ending, within) {
        Scan::Ended(to) => Found::Ended(to),
        Scan::Open(to, after) => {
            place.begun = Begun::InStatement(after);
            place.scanned = to;
            Found::Unended
        }
    }
}

// Looks at bytes of which nothing is known.
fn first_turn(bytes: &[u8], place: &mut Place) -> Option<Found>
    requires { IsPlaceWithin bytes.now place.old }
    ensures { Turns bytes.now place.old result place.new }
{
    let rest = rest_of(bytes, place.at);
    match opening_of(place.fresh, rest) {
        Opening::Nothing => Some(Found::Nothing),
        Opening::White => {
            *place = after(*place, 1, rest[0] == b'\n', place.ending);
            None
        }
        // With a `!` after it, `/*` begins a statement.
        Opening::Comment(size, _) if size == rest.len() => Some(Found::Nothing),
        Opening::Comment(size, end) => comment_turn(bytes, place, size, end),
        Opening::DelimiterLine(size, ending) => {
            *place = after(*place, size, true, ending);
            None
        }
        Opening::Statement => Some(statement_turn(bytes, place, 0, Within::Text)),
        Opening::Undecided => Some(Found::Waiting),
    }
}

// Passes over one thing, or says what stands there that isn't passed over.
fn turn(bytes: &[u8], place: &mut Place) -> Option<Found>
    requires { IsPlaceWithin bytes.now place.old }
    ensures { Turns bytes.now place.old result place.new }
{
    let from = place.scanned;
    match place.begun {
        Begun::Unknown => first_turn(bytes, place),
        Begun::InComment(end) => comment_turn(bytes, place, from, end),
        Begun::InStatement(within) => Some(statement_turn(bytes, place, from, within)),
    }
}

// Goes to what comes next, and says what it is.
pub(crate) fn find(bytes: &[u8], place: &mut Place) -> Found
    requires { IsPlaceWithin bytes.now place.old }
    ensures { Finds bytes.now place.old result place.new }
{
    'turns: loop {
        if let Some(found) = turn(bytes, place) {
            return found;
        }
    }
}

// How many bytes the next statement has at least, whatever bytes follow.
#[inline]
pub(crate) fn least_size(found: Found, scanned: usize) -> usize
    ensures { result ≡ least found scanned }
{
    match found {
        Found::Ended(size) => size,
        Found::Unended => scanned,
        Found::Waiting | Found::Nothing => 0,
    }
}

// The offset of the statement that is begun and not ended, where there is one.
pub(crate) fn begun_from(bytes: &[u8], place: Place) -> Option<u64>
    requires { IsPlaceWithin bytes.now place }
    ensures { result ≡ begun_size (last (unread_at bytes.now place)) }
{
    let mut now = place;
    'pieces: loop {
        match find(bytes, &mut now) {
            Found::Ended(size) => now = after_statement(now, size),
            Found::Unended | Found::Waiting => return Some(now.offset),
            Found::Nothing => return None,
        }
    }
}
