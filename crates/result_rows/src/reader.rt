//! Replies, message by message.
ghost use Rattle.std.specs.Prelude.{◌≡◌, ◌<◌, ◌≤◌, nat_lt, Some, IsSome};
ghost use Rattle.wire_forms.specs.Reply.{reply_of};
ghost use Rattle.wire_forms.specs.Reading.{idle, columns_counted, awaited_count, is_before_rows, end_limit, is_in_ends_place, is_end_packet, row_of, further_of, reading_after};
ghost use Rattle.wire_forms.specs.Row.{cells_of};
ghost use Rattle.result_rows.specs.RowCells.{row_cells};
ghost use Rattle.result_rows.specs.Turns.{AnswersFirst, IsTurn, turn_kind};

use crate::fields::{
    FULL_SIZE, column_count, is_definition, is_ending_ok, is_eof_packet, is_ok_packet,
};
use crate::refusal::{is_refusal, refusal_read};
use crate::row::{Row, are_cells};
use my_packets::Message;
use std::marker::Model;
use thiserror::Error;
use wire_forms::{Ends, Refusal, Reply};

/// A further message of a result set.
#[derive(Drop)]
pub enum Turn<'a> {
    /// A column definition, or the EOF after the definitions.
    Definition,
    /// A row.
    Row(Row<'a>),
    /// The EOF or the OK after the rows.
    End,
    /// An ERR in place of a row, which ends the result set.
    Refused(Refusal),
}

/// What a further message of a result set is, without what it holds.
#[derive(Clone, Copy, Debug, PartialEq, Eq)]
pub enum TurnKind {
    /// A column definition, or the EOF after the definitions.
    Definition,
    /// A row.
    Row,
    /// The EOF or the OK after the rows.
    End,
    /// An ERR in place of a row, which ends the result set.
    Refused,
    /// None of those that may follow.
    Garbled,
}

/// Why a message can't be read.
#[derive(Clone, Copy, Debug, PartialEq, Eq, Error)]
pub enum ReplyFault {
    /// It has another form than a reply may have at this place.
    #[error("the server's reply is garbled")]
    Garbled,
    /// It asks for a local file, which this client never sends. (MySQL source documentation,
    /// `LOCAL INFILE Request`.)
    #[error("the server asks for a local file")]
    LocalInfile,
}

/// A reader of replies, which knows how result sets end, and how many messages of one are still awaited
/// before its rows. It holds no bytes.
#[derive(Clone, Copy)]
pub struct RowReader {
    columns: u32,
    awaited: u32,
    ends: Ends,
}

impl Model for RowReader {
    ghost use Rattle.wire_forms.specs.Reading.{Reading};

    ghost Value = { Reading };

    ghost view = { λ reader. record { columns = reader.columns; awaited = reader.awaited; ends = reader.ends } };

    ghost inverse = { λ reading. record { columns = reading.columns; awaited = reading.awaited; ends = reading.ends } };
}

impl RowReader {
    /// A reader that waits for the first message of a reply, on a session whose result sets end so.
    /// Takes no memory.
    pub fn new(ends: Ends) -> RowReader
        ensures { result ≡ idle ends }
    {
        RowReader {
            columns: 0,
            awaited: 0,
            ends,
        }
    }

    /// Reads the first message of a reply. `LocalInfile` exactly where it begins with 0xfb, and
    /// `Garbled` exactly where it is no OK, no ERR, no number of columns from 1 to 65,535, and doesn't
    /// begin so. After `Columns` the messages of a result set are pending, after any other answer
    /// nothing is. Takes no memory.
    pub fn first(&mut self, payload: &[u8]) -> Result<Reply, ReplyFault>
        ensures { AnswersFirst self.old.ends payload.now (reply_of payload.now) result self.new }
    {
        self.columns = 0;
        self.awaited = 0;
        match payload {
            [0x00, ..] if is_ok_packet(payload) => Ok(Reply::Done),
            [0x00, ..] => Err(ReplyFault::Garbled),
            [0xff, ..] => match refusal_read(payload) {
                Some(refusal) => Ok(Reply::Refused(refusal)),
                None => Err(ReplyFault::Garbled),
            },
            [0xfb, ..] => Err(ReplyFault::LocalInfile),
            _ => {
                let columns = column_count(payload).ok_or(ReplyFault::Garbled)?;
                self.columns = columns;
                self.awaited = awaited_count(self.ends, columns);
                Ok(Reply::Columns(columns))
            }
        }
    }

    /// Whether messages of a result set are pending. Takes no memory.
    #[inline]
    pub fn is_pending(&self) -> bool
        ensures { result ≡ nat_lt 0 self.now.columns }
    {
        0 < self.columns
    }

    /// Reads a further message of a result set, and says what it is. The condition is that one is pending
    /// ([`RowReader::is_pending`]). Before the rows it is a column definition, or the EOF after the
    /// definitions where result sets end by EOF packets. In a row's place a message that begins with
    /// 0xfe is the end: where result sets end by EOF packets if it has fewer than 9 bytes, and else if
    /// it has fewer than 16,777,215; one that begins with 0xff is an ERR, and any other one a row.
    /// `Garbled` exactly where it is none of those that may follow, and then the reader stays as it
    /// was. After `End` and `Refused` nothing is pending. [`RowReader::found_row`] hands out a row that
    /// was found, and [`refusal_read`] what an ERR says. Takes no memory. (MySQL source documentation,
    /// `ProtocolText::Resultset`, `OK_Packet`.)
    #[inline]
    pub fn step(&mut self, payload: &[u8]) -> TurnKind
        requires pending { 0 < self.old.columns }

        ensures step { result ≡ turn_kind (further_of self.old payload.now) }
        ensures after { self.new ≡ reading_after self.old (further_of self.old payload.now) }
    {
        if self.awaited == 0 {
            return self.step_in_rows(payload);
        }
        if !is_before_rows(self.ends, self.awaited, payload) {
            return TurnKind::Garbled;
        }
        self.awaited -= 1;
        TurnKind::Definition
    }

    /// Reads a further message of a result set, and hands out what it holds. What it is, and the
    /// condition, are those of [`RowReader::step`]: `Garbled` exactly where that answers it. Takes no
    /// memory.
    #[tactic(auto, using(crate::proofs::Turns::refusal_found))]
    pub fn more<'a>(&mut self, message: Message<'a>) -> Result<Turn<'a>, ReplyFault>
        requires pending { 0 < self.old.columns }

        ensures turn { IsTurn message.entry.place result
            (further_of self.old message.entry.payload.now) }
        ensures after { self.new ≡
            reading_after self.old (further_of self.old message.entry.payload.now) }
    {
        match self.step(message.payload) {
            TurnKind::Definition => Ok(Turn::Definition),
            TurnKind::Row => Ok(Turn::Row(self.found_row(message))),
            TurnKind::End => Ok(Turn::End),
            TurnKind::Refused => match refusal_read(message.payload) {
                Some(refusal) => Ok(Turn::Refused(refusal)),
                None => Err(ReplyFault::Garbled),
            },
            TurnKind::Garbled => Err(ReplyFault::Garbled),
        }
    }

    /// The row that a message is, where [`RowReader::step`] has found it to be one. Nothing of it is
    /// read again. Takes no memory.
    #[inline]
    pub fn found_row<'a>(&self, message: Message<'a>) -> Row<'a>
        requires { IsSome (cells_of self.now.columns message.payload.now) }

        ensures cells { cells_of self.now.columns message.entry.payload.now ≡
            Some (row_cells result) }
        ensures place { result.place ≡ message.entry.place }
    {
        Row::known(self.columns, message.payload, message.place)
    }

    // Reads a message in a row's place.
    #[inline]
    fn step_in_rows(&mut self, payload: &[u8]) -> TurnKind
        ensures step { result ≡
            turn_kind (row_of self.old.ends self.old.columns payload.now) }
        ensures after { self.new ≡
            reading_after self.old (row_of self.old.ends self.old.columns payload.now) }
    {
        if is_in_ends_place(self.ends, payload) {
            if !is_end_packet(self.ends, payload) {
                return TurnKind::Garbled;
            }
            *self = RowReader::new(self.ends);
            return TurnKind::End;
        }
        match payload {
            [0xff, ..] => {
                if !is_refusal(payload) {
                    return TurnKind::Garbled;
                }
                *self = RowReader::new(self.ends);
                TurnKind::Refused
            }
            [] => TurnKind::Garbled,
            cells => {
                if are_cells(self.columns, cells) {
                    TurnKind::Row
                } else {
                    TurnKind::Garbled
                }
            }
        }
    }
}

// How many messages stand before the rows of so many columns.
fn awaited_count(ends: Ends, columns: u32) -> u32
    requires few { columns ≤ 65535 }

    ensures { result ≡ awaited_count ends columns }
{
    match ends {
        Ends::Eof => columns + 1,
        Ends::Ok => columns,
    }
}

// Whether this is a message before the rows, where so many are awaited.
fn is_before_rows(ends: Ends, awaited: u32, message: &[u8]) -> bool
    ensures { result ≡ is_before_rows ends awaited message.now }
{
    match ends {
        Ends::Eof if awaited == 1 => is_eof_packet(message),
        Ends::Eof => is_definition(message),
        Ends::Ok => is_definition(message),
    }
}

// In a row's place a message that begins with 0xfe is an end where it has fewer bytes than this.
#[inline]
fn end_limit(ends: Ends) -> usize
    ensures { result ≡ end_limit ends }
{
    match ends {
        Ends::Eof => 9,
        Ends::Ok => FULL_SIZE,
    }
}

// Whether a message is in the end's place, by its first byte and its length.
#[inline]
fn is_in_ends_place(ends: Ends, message: &[u8]) -> bool
    ensures { result ≡ is_in_ends_place ends message.now }
{
    match message {
        [0xfe, ..] => message.len() < end_limit(ends),
        _ => false,
    }
}

// Whether this is the packet after the rows.
fn is_end_packet(ends: Ends, message: &[u8]) -> bool
    ensures { result ≡ is_end_packet ends message.now }
{
    match ends {
        Ends::Eof => is_eof_packet(message),
        Ends::Ok => is_ending_ok(message),
    }
}
