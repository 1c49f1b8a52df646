//! The rows of the table, asked for and written to the file one by one.
ghost use Rattle.std.specs.Prelude.{◌≡◌, ◌<◌, [], IfErr, OnOk, length};
ghost use Rattle.result_rows.specs.RowCells.{row_cells};
ghost use Rattle.dumper_cli.specs.AskedBy.{asked_by};
ghost use Rattle.dumper_cli.specs.Next.{IsReady, HasPendingRows, Keeps, Broke, Copied};
ghost use Rattle.dumper_cli.specs.Run.{Reached, Halted};
ghost use Rattle.dumper_cli.specs.Stage.{asks_rows, awaits_rows};
ghost use Rattle.dumper_cli.specs.Taking.{AddsRow, Unwritten, unadded_fault};
ghost use Rattle.dumper_cli.specs.Writing.{KeepsFile};

use crate::column::Column;
use crate::data_file::{DataFile, WriteFault};
use crate::fault::DumpFault;
use crate::texts::names_of;
use crate::words::Words;
use link_traits::{Link, Shelf};
use my_session::{Reads, Session, SessionFault};
use result_rows::Row;
use statement_forms::{Part, Query};
use std::alloc::Global;

/// Asks for the rows.
pub fn ask_rows<L: Link>(
    session: &mut Session<L>,
    alloc: Global,
    words: &Words<'_>,
    columns: &[Column],
) -> Result<(), SessionFault>
    requires ready { IsReady session.old }
    requires some { 0 < length columns.now }

    ensures keeps { Keeps L.Link session.old session.new }
    ensures rows { OnOk result (HasPendingRows session.new) }
    ensures ok { OnOk result
        ((start : _) → Reached L.Link (asked_by words.now)
        (asks_rows session.old.peer.ends columns.now) start session.old →
        Reached L.Link (asked_by words.now)
        (awaits_rows session.new.pending.reading columns.now []) start session.new) }
    ensures err { IfErr result
        (λ fault. (start : _) →
        Reached L.Link (asked_by words.now)
        (asks_rows session.old.peer.ends columns.now) start session.old →
        Halted L.Link (asked_by words.now) start session.new.link fault) }
{
    let Ok(columns) = names_of(alloc, columns) else {
        return Err(SessionFault::OutOfMemory);
    };
    let schema = Part::of(words.schema.as_slice());
    let table = Part::of(words.table.as_slice());
    let query = Query::Rows {
        columns,
        schema,
        table,
    };
    let asked = session.query(&query);
    drop(query);
    match asked {
        Ok(_) => Ok(()),
        Err(fault) => Err(fault),
    }
}

// Why a row wasn't added to the file. (It is small, since each row is asked for it.)
#[derive(Clone, Copy)]
enum Unadded {
    // The shelf failed, and has counted it.
    File,
    // It isn't one of these columns, and came at this place.
    Garbled(u64),
    OutOfMemory,
}

// What a dump answers to it.
#[cold]
#[inline(never)]
fn unadded_fault(unadded: Unadded) -> DumpFault
    ensures { result ≡ unadded_fault unadded }
{
    match unadded {
        Unadded::File => DumpFault::File,
        Unadded::Garbled(place) => DumpFault::Session(SessionFault::Garbled(place)),
        Unadded::OutOfMemory => DumpFault::Session(SessionFault::OutOfMemory),
    }
}

// Writes a row to the file.
fn write_row<S: Shelf>(
    columns: &[Column],
    row: &Row<'_>,
    file: &mut DataFile<S>,
) -> Result<(), Unadded>
    ensures keeps { KeepsFile S.Shelf file.old file.new }
    ensures ok { OnOk result (AddsRow S.Shelf columns.now (row_cells row.now) file.old file.new) }
    ensures err { IfErr result (λ unadded. Unwritten S.Shelf columns.now
        (row_cells row.now) row.now.place file.old file.new (unadded_fault unadded)) }
{
    match file.row(columns, row) {
        Ok(()) => Ok(()),
        Err(WriteFault::File) => Err(Unadded::File),
        Err(WriteFault::Mismatch) => Err(Unadded::Garbled(row.place())),
        Err(WriteFault::OutOfMemory) => Err(Unadded::OutOfMemory),
    }
}

/// Reads the rows, and writes each to the file as it comes.
pub fn copy_rows<L: Link, S: Shelf>(
    session: &mut Session<L>,
    columns: &[Column],
    file: &mut DataFile<S>,
) -> Result<(), DumpFault>
    requires rows { HasPendingRows session.old }

    ensures keeps { Keeps L.Link session.old session.new }
    ensures keeps_file { KeepsFile S.Shelf file.old file.new }
    ensures ready { OnOk result (IsReady session.new) }
    ensures ok { OnOk result
        (Copied L.Link S.Shelf columns.now session.old file.old session.new file.new) }
    ensures err { IfErr result
        (λ fault. (asked start : _) →
        Reached L.Link asked (awaits_rows session.old.pending.reading columns.now []) start
        session.old → Broke L.Link S.Shelf asked start file.old.shelf session.new.link
        file.new.shelf fault) }
{
    'rows: loop {
        match session.next_row() {
            Ok(Some(row)) => match write_row(columns, &row, file) {
                Ok(()) => {}
                Err(unadded) => return Err(unadded_fault(unadded)),
            },
            Ok(None) => return Ok(()),
            Err(fault) => return Err(DumpFault::Session(fault)),
        }
    }
}
