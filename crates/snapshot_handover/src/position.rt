//! The position of the binary log.
ghost use Rattle.std.specs.Prelude.{◌≡◌, MatchResult};
ghost use Rattle.my_session.specs.Session.{IsFree, KeepsServer, reader_view};
ghost use Rattle.result_rows.specs.RowCells.{row_cells};
ghost use Rattle.snapshot_handover.specs.Status.{SaysPosition, status_query};
ghost use Rattle.snapshot_handover.specs.StatusRead.{AsksOverLink, AwaitsNext, KeepsAsking, ReadsRows, ReadsStatus, ServesPosition, ReadsNext, MakesEnd, MakesFirst, MakesNoPosition};

use crate::states::Frozen;
use crate::status::{position_of, status_of};
use link_traits::Link;
use my_session::{Reads, SessionFault};
use result_rows::Row;
use server_data::Position;
use statement_forms::Query;
use std::alloc::Global;

// The position that a row says. `Garbled` exactly where it says none.
fn position_in(alloc: Global, row: &Row<'_>) -> Result<Position, SessionFault>
    ensures { MatchResult result (SaysPosition (row_cells row.now))
        (MakesNoPosition (row_cells row.now) row.now.place) }
{
    let Some(status) = status_of(row) else {
        return Err(SessionFault::Garbled(row.place()));
    };
    match position_of(alloc, status) {
        Ok(position) => Ok(position),
        Err(_) => Err(SessionFault::OutOfMemory),
    }
}

// Reads the first row, or the end.
fn hear_position<R: Reads>(source: &mut R, alloc: Global) -> Result<Option<Position>, SessionFault>
    requires awaits { AwaitsNext (R.view source.old) }

    ensures { ReadsNext R.Reads MakesFirst source.old result source.new }
{
    match source.next_row() {
        Ok(Some(row)) => match position_in(alloc, &row) {
            Ok(position) => Ok(Some(position)),
            Err(fault) => Err(fault),
        },
        Ok(None) => Ok(None),
        Err(fault) => Err(fault),
    }
}

// Reads the end. A row in its place is `Garbled`.
fn hear_end<R: Reads>(source: &mut R) -> Result<(), SessionFault>
    requires awaits { AwaitsNext (R.view source.old) }

    ensures { ReadsNext R.Reads MakesEnd source.old result source.new }
{
    match source.next_row() {
        Ok(Some(row)) => Err(SessionFault::Garbled(row.place())),
        Ok(None) => Ok(()),
        Err(fault) => Err(fault),
    }
}

// Reads the rows of a status.
fn hear_rows<R: Reads>(source: &mut R, alloc: Global) -> Result<Option<Position>, SessionFault>
    requires awaits { AwaitsNext (R.view source.old) }

    ensures { ReadsRows R.Reads source.old result source.new }
{
    match hear_position(source, alloc) {
        Ok(Some(position)) => match hear_end(source) {
            Ok(()) => Ok(Some(position)),
            Err(fault) => Err(fault),
        },
        Ok(None) => Ok(None),
        Err(fault) => Err(fault),
    }
}

// The query by which a server tells its position.
fn status_query(newer: bool) -> Query<'static>
    ensures { result ≡ status_query newer }
{
    if newer {
        Query::BinaryLogStatus
    } else {
        Query::MasterStatus
    }
}

/// Asks for the position, by the query that a newer server or an older one has for it.
pub(crate) fn read_status<R: Reads>(
    source: &mut R,
    alloc: Global,
    newer: bool,
) -> Result<Option<Position>, SessionFault>
    requires free { IsFree (R.view source.old) }

    ensures { ReadsStatus R.Reads (status_query newer) source.old result source.new }
{
    let query = status_query(newer);
    let asked = source.query(&query);
    drop(query);
    match asked {
        Ok(_) => hear_rows(source, alloc),
        Err(fault) => Err(fault),
    }
}

impl<L: Link> Frozen<L> {
    /// Asks for the position of the binary log: `SHOW BINARY LOG STATUS` where the greeting said
    /// that the server is of version 8.2 or newer, and else `SHOW MASTER STATUS`. `None` exactly
    /// where no row comes. The first cell of the only row is the file, the second the offset, and
    /// the fifth the GTID set, of which line feeds are left out: the file isn't empty, its bytes
    /// and those of the GTID set are from 20 to 7e, and the offset is a decimal number below 2^64,
    /// without sign and without leading zeros. Any other row, and a second one, is `Garbled` at its
    /// place. Over an honest server it is the position after the last transaction that this session
    /// has seen, of which nothing changes, and never `Garbled`; a willing server never refuses it.
    /// Every other fault is one of those of the query and of its rows. The session is free after
    /// `Ok` and after `Refused`; after any other fault nothing is to be asked of it any more. The
    /// conditions are that the session hasn't failed and that no rows are pending. (MySQL 8.0
    /// Reference Manual, 15.7.7.23 "SHOW MASTER STATUS Statement"; MySQL 8.4 Reference Manual,
    /// 15.7.7.1 "SHOW BINARY LOG STATUS Statement".)
    pub fn position(&mut self, alloc: Global) -> Result<Option<Position>, SessionFault>
        requires free { IsFree (reader_view L.Link self.old) }

        ensures server { KeepsServer L.Link self.old.link self.new.link }
        ensures keeps { KeepsAsking (L.tells self.old.link) (reader_view L.Link self.old) result
            (L.tells self.new.link) (reader_view L.Link self.new) }
        ensures asks { AsksOverLink L.Link self.old result self.new }
        ensures served { L.honest self.old.link → ServesPosition (L.served self.old.link).state
            result (L.served self.new.link).state }
    {
        let newer = self.session.newer();
        read_status(self, alloc, newer)
    }
}
