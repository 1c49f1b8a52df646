//! The bytes of a file as they come, and the statements in them.
ghost use Rattle.std.specs.Prelude.{◌≡◌, ◌+◌, ◌≤◌, ◌^◌, [], length, drop, vec_len, OnOk, OnErr, MatchResult, None, Some};
ghost use Rattle.std.specs.Borrow.{sem};
ghost use Rattle.std.specs.Io.BufRead.{Rests};
ghost use Rattle.splitter_forms.specs.Pieces.{unread_file, begun_size, last};

use crate::place::{Begun, Found, Place, after_statement, begun_from, find, least_size};
use plain_data::OutOfMemory;
use splitter_forms::Delimiter;
use std::alloc::Global;
use std::marker::Model;
use thiserror::Error;

/// Why a file holds no further statement.
#[derive(Clone, Copy, Debug, PartialEq, Eq, Error)]
pub enum SplitFault {
    /// The next statement passes the limit, by one byte of so many or by more.
    #[error("{0} bytes are too long")]
    TooLong(u64),
}

/// A statement of a file, without what ends it.
#[derive(Clone, Copy, Debug)]
pub struct Piece<'a> {
    /// How many bytes of the file come before it.
    pub offset: u64,
    pub text: &'a [u8],
}

/// The bytes of a file as they are fed, and its statements one after the other.
#[derive(Drop)]
pub struct Splitter {
    store: Vec<u8>,
    // What is unread.
    place: Place,
    // The statement given last: how many bytes of the file and of the store come before it, and its size.
    offset: u64,
    start: usize,
    size: usize,
    limit: u32,
}

impl Model for Splitter {
    ghost use Rattle.std.specs.Prelude.{◌+◌, ◌≤◌, slice_range, vec_len};
    ghost use Rattle.statement_splitter.specs.State.{unread_at, IsPlaceWithin};
    ghost use Rattle.statement_splitter.specs.Splits.{Split};

    ghost Value = { Split };

    ghost view = { λ s. record { limit = s.limit; last = record { offset = s.offset; text = slice_range s.store.items s.start (s.start + s.size) }; unread = unread_at s.store.items s.place } };

    ghost invariant = { λ s. (s.start + s.size ≤ vec_len s.store) × IsPlaceWithin s.store.items s.place };
}

// Gives up so many bytes at the front.
fn give_up_front(store: &mut Vec<u8>, count: usize)
    requires { count ≤ vec_len store.old }

    ensures { store.new.items ≡ drop count store.old.items }
{
    if count > 0 {
        let left = store.len() - count;
        store.copy_within(count.., 0);
        store.truncate(left);
    }
}

impl Splitter {
    ghost use Rattle.statement_splitter.specs.Splits.{StepsOnce, GivesStatement, after_feed, no_piece, piece_of};
    ghost use Rattle.statement_splitter.specs.contracts.splitter.Splitter.{the_row};

    /// A file of which nothing was fed. A statement may have at most `limit` bytes. Takes no memory.
    pub fn new(alloc: Global, limit: u32) -> Splitter
        ensures { result ≡ record { limit = limit; last = no_piece; unread = unread_file [] } }
    {
        Splitter {
            store: Vec::new(alloc),
            place: Place {
                at: 0,
                offset: 0,
                fresh: true,
                ending: Delimiter::Semicolon,
                begun: Begun::Unknown,
                scanned: 0,
            },
            offset: 0,
            start: 0,
            size: 0,
            limit,
        }
    }

    /// Adds bytes of the file. A refusal, for want of memory, adds none. The statement given last is
    /// forgotten.
    pub fn feed(&mut self, piece: &[u8]) -> Result<(), OutOfMemory>
        requires in_all { self.old.unread.offset + length self.old.unread.rest
            + length piece.now ≤ 2 ^ 62 }

        ensures ok { OnOk result (self.new ≡ after_feed self.old piece.now) }
        ensures err { OnErr result (self.new ≡ record self.old { last = no_piece }) }
    {
        self.offset = 0;
        self.start = 0;
        self.size = 0;
        give_up_front(&mut self.store, self.place.at);
        self.place.at = 0;
        self.store.extend_from_slice(piece)?;
        Ok(())
    }

    /// Goes to the next statement that is ended, and says whether there was one; [`Splitter::piece`]
    /// lends it. Takes no memory.
    pub(crate) fn step(&mut self) -> Result<bool, SplitFault>
        ensures { StepsOnce self.old result self.new }
    {
        let mut place = self.place;
        let found = find(&self.store, &mut place);
        if least_size(found, place.scanned) > self.limit as usize {
            return Err(SplitFault::TooLong(u64::from(self.limit) + 1));
        }
        if let Found::Ended(size) = found {
            self.offset = place.offset;
            self.start = place.at;
            self.size = size;
            self.place = after_statement(place, size);
            return Ok(true);
        }
        self.place = place;
        Ok(false)
    }

    /// The statement given last. Takes no memory.
    #[inline]
    pub(crate) fn piece(&self) -> Piece<'_>
        ensures { piece_of result ≡ self.now.last }
    {
        Piece {
            offset: self.offset,
            text: &self.store[self.start..self.start + self.size],
        }
    }

    /// The next statement that is ended, lent out of the bytes that were fed. `None` exactly where
    /// none is ended yet. `TooLong` comes exactly where the next statement passes the limit whatever
    /// bytes follow; it is answered from then on. Takes no memory.
    pub fn next(&mut self) -> Result<Option<Piece<'_>>, SplitFault>
        ensures* after { sem 𝓛
            (Rests the_row self.entry (λ new. GivesStatement self.old result new)) }
    {
        if self.step()? {
            return Ok(Some(self.piece()));
        }
        Ok(None)
    }

    /// Whether the file may end here: where a statement is begun that isn't ended, how many bytes of
    /// the file come before it. Takes no memory.
    pub fn end(&self) -> Result<(), u64>
        ensures { MatchResult result (λ _. begun_size (last self.now.unread) ≡ None)
            (λ offset. begun_size (last self.now.unread) ≡ Some offset) }
    {
        match begun_from(&self.store, self.place) {
            Some(offset) => Err(offset),
            None => Ok(()),
        }
    }
}
