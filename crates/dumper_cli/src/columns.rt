//! The columns of the table, read from the rows that tell them.
ghost use Rattle.std.specs.Prelude.{◌<◌, [], length, IfErr, IfOk, OnOk};
ghost use Rattle.result_rows.specs.RowCells.{row_cells};
ghost use Rattle.dumper_cli.specs.AskedBy.{asked_by};
ghost use Rattle.dumper_cli.specs.Next.{IsReady, HasPendingRows, Keeps, NextColumn};
ghost use Rattle.dumper_cli.specs.Run.{Reached, Halted};
ghost use Rattle.dumper_cli.specs.Stage.{asks_columns, awaits_columns, asks_rows};
ghost use Rattle.dumper_cli.specs.Taking.{AddsColumn, Untold};

use crate::column::{ColumnList, column_of};
use crate::words::Words;
use link_traits::Link;
use my_session::{Reads, Session, SessionFault};
use result_rows::Row;
use statement_forms::{Part, Query};
use std::alloc::Global;

// Asks for the columns.
fn ask_columns<L: Link>(session: &mut Session<L>, words: &Words<'_>) -> Result<(), SessionFault>
    requires ready { IsReady session.old }

    ensures keeps { Keeps L.Link session.old session.new }
    ensures rows { OnOk result (HasPendingRows session.new) }
    ensures ok { OnOk result
        ((start : _) → Reached L.Link (asked_by words.now)
        (asks_columns session.old.peer.ends) start session.old →
        Reached L.Link (asked_by words.now)
        (awaits_columns session.new.pending.reading []) start session.new) }
    ensures err { IfErr result
        (λ fault. (start : _) →
        Reached L.Link (asked_by words.now)
        (asks_columns session.old.peer.ends) start session.old →
        Halted L.Link (asked_by words.now) start session.new.link fault) }
{
    let schema = Part::of(words.schema.as_slice());
    let table = Part::of(words.table.as_slice());
    let query = Query::Columns { schema, table };
    let asked = session.query(&query);
    drop(query);
    match asked {
        Ok(_) => Ok(()),
        Err(fault) => Err(fault),
    }
}

// Adds the column that a row tells.
fn add_column(alloc: Global, row: &Row<'_>, columns: &mut ColumnList) -> Result<(), SessionFault>
    ensures ok { OnOk result (AddsColumn (row_cells row.now) columns.old columns.new) }
    ensures err { IfErr result (Untold (row_cells row.now) row.now.place) }
{
    let column = match column_of(alloc, row) {
        Ok(Some(column)) => column,
        Ok(None) => return Err(SessionFault::Garbled(row.place())),
        Err(_) => return Err(SessionFault::OutOfMemory),
    };
    match columns.push(column) {
        Ok(()) => Ok(()),
        Err(_) => Err(SessionFault::OutOfMemory),
    }
}

// Reads a further column, and says whether more may come.
fn next_column<L: Link>(
    session: &mut Session<L>,
    alloc: Global,
    columns: &mut ColumnList,
) -> Result<bool, SessionFault>
    requires rows { HasPendingRows session.old }

    ensures keeps { Keeps L.Link session.old session.new }
    ensures ok { IfOk result
        (λ goes_on. NextColumn L.Link goes_on columns.old session.old columns.new session.new) }
    ensures err { IfErr result
        (λ fault. (asked start : _) →
        Reached L.Link asked (awaits_columns session.old.pending.reading columns.old) start
        session.old → Halted L.Link asked start session.new.link fault) }
{
    let place = session.place();
    match session.next_row() {
        Ok(Some(row)) => match add_column(alloc, &row, columns) {
            Ok(()) => Ok(true),
            Err(fault) => Err(fault),
        },
        Ok(None) => {
            if columns.as_slice().is_empty() {
                return Err(SessionFault::Garbled(place));
            }
            Ok(false)
        }
        Err(fault) => Err(fault),
    }
}

/// Reads the columns. A table without columns is `Garbled`, as is a column that can't be dumped.
pub fn read_columns<L: Link>(
    session: &mut Session<L>,
    alloc: Global,
    words: &Words<'_>,
) -> Result<ColumnList, SessionFault>
    requires ready { IsReady session.old }

    ensures keeps { Keeps L.Link session.old session.new }
    ensures ready { IfOk result (λ _. IsReady session.new) }
    ensures some { IfOk result (λ columns. 0 < length columns) }
    ensures ok { IfOk result
        (λ columns. (start : _) →
        Reached L.Link (asked_by words.now)
        (asks_columns session.old.peer.ends) start session.old →
        Reached L.Link (asked_by words.now)
        (asks_rows session.new.peer.ends columns) start session.new) }
    ensures err { IfErr result
        (λ fault. (start : _) →
        Reached L.Link (asked_by words.now)
        (asks_columns session.old.peer.ends) start session.old →
        Halted L.Link (asked_by words.now) start session.new.link fault) }
{
    if let Err(fault) = ask_columns(session, words) {
        return Err(fault);
    }
    let mut columns = ColumnList::new(alloc);
    'columns: loop {
        let goes_on = match next_column(session, alloc, &mut columns) {
            Ok(goes_on) => goes_on,
            Err(fault) => return Err(fault),
        };
        if !goes_on {
            return Ok(columns);
        }
    }
}
