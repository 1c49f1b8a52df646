//! A session that is asked.
ghost use Rattle.std.specs.Prelude.{◌≡◌, true, false};
ghost use Rattle.wire_forms.specs.Reading.{idle};
ghost use Rattle.session_tests.specs.Waiting.{Pends};

use crate::words::said;
use memory_outside::ReplyLink;
use my_session::{Reads, Session, SessionFault};
use percent_encoding::{CONTROLS, percent_encode};
use plain_data::OutOfMemory;
use result_rows::Row;
use statement_forms::{Command, Part, Query};
use std::alloc::Global;
use std::marker::Model;

/// A session, and whether rows are pending on it.
#[derive(Drop)]
pub struct Asking {
    alloc: Global,
    session: Session<ReplyLink>,
    has_rows: bool,
}

impl Model for Asking {
    ghost use Rattle.std.specs.Prelude.{◌≡◌, Bool, false};
    ghost use Rattle.session_tests.specs.Waiting.{Pends};

    ghost Value = { Bool };

    ghost view = { λ a. a.has_rows };

    ghost invariant = { λ a. a.session.has_failed ≡ false → Pends a.session.peer.ends a.has_rows a.session.pending.reading };
}

impl Asking {
    /// A session on which nothing is pending.
    pub fn of(alloc: Global, session: Session<ReplyLink>) -> Asking
        requires { session.pending.reading ≡ idle session.peer.ends }
    {
        Asking {
            alloc,
            session,
            has_rows: false,
        }
    }

    /// Ends the session, and gives the link back.
    pub fn close(self) -> ReplyLink {
        let Asking {
            alloc: _,
            session,
            has_rows: _,
        } = self;
        session.close()
    }

    /// What comes of a call. Where the session has failed, or the call doesn't fit what is pending, it
    /// isn't made.
    pub fn answer(&mut self, case: &str) -> Result<String, OutOfMemory> {
        let alloc = self.alloc;
        match case {
            "failed" => said(alloc, if self.session.failed() { "yes" } else { "no" }),
            "newer" => said(alloc, if self.session.newer() { "yes" } else { "no" }),
            "place" => Ok(format!(in alloc; "{}", self.session.place())?),
            _ if self.session.failed() => said(alloc, "the session has failed"),
            "next_row" => self.next_row(),
            _ => self.ask(case),
        }
    }

    fn next_row(&mut self) -> Result<String, OutOfMemory> {
        if self.session.failed() || !self.has_rows {
            return said(self.alloc, "no rows are pending");
        }
        next_row(self.alloc, &mut self.session, &mut self.has_rows)
    }

    fn ask(&mut self, case: &str) -> Result<String, OutOfMemory> {
        if self.session.failed() || self.has_rows {
            return said(self.alloc, "rows are pending");
        }
        match case {
            "run commit" => run(self.alloc, &mut self.session),
            "query schemas" => query(self.alloc, &mut self.session, &mut self.has_rows),
            "query view" => query_view(self.alloc, &mut self.session, &mut self.has_rows),
            _ => said(self.alloc, "no call"),
        }
    }
}

// Commits.
fn run(alloc: Global, session: &mut Session<ReplyLink>) -> Result<String, OutOfMemory>
    requires alive { session.old.has_failed ≡ false }
    requires none_pending { session.old.pending.reading ≡ idle session.old.peer.ends }

    ensures { session.new.pending.reading ≡ idle session.new.peer.ends }
{
    match session.run(&Command::Commit) {
        Ok(()) => said(alloc, "done"),
        Err(fault) => fault_words(alloc, &fault),
    }
}

// Asks for the schemas.
fn query(
    alloc: Global,
    session: &mut Session<ReplyLink>,
    has_rows: &mut bool,
) -> Result<String, OutOfMemory>
    requires alive { session.old.has_failed ≡ false }
    requires none_pending { session.old.pending.reading ≡ idle session.old.peer.ends }

    ensures { Pends session.new.peer.ends has_rows.new session.new.pending.reading }
{
    let answer = session.query(&Query::Schemas);
    *has_rows = answer.is_ok();
    columns_words(alloc, &answer)
}

// Asks for the text of a view.
fn query_view(
    alloc: Global,
    session: &mut Session<ReplyLink>,
    has_rows: &mut bool,
) -> Result<String, OutOfMemory>
    requires alive { session.old.has_failed ≡ false }
    requires none_pending { session.old.pending.reading ≡ idle session.old.peer.ends }

    ensures { Pends session.new.peer.ends has_rows.new session.new.pending.reading }
{
    let view = Query::CreateView {
        schema: Part::of(b"s"),
        name: Part::of(b"v"),
    };
    let answer = session.query(&view);
    drop(view);
    *has_rows = answer.is_ok();
    columns_words(alloc, &answer)
}

// Reads the next row.
fn next_row(
    alloc: Global,
    session: &mut Session<ReplyLink>,
    has_rows: &mut bool,
) -> Result<String, OutOfMemory>
    requires alive { session.old.has_failed ≡ false }
    requires pending { Pends session.old.peer.ends true session.old.pending.reading }
    requires has_rows { has_rows.old ≡ true }

    ensures { Pends session.new.peer.ends has_rows.new session.new.pending.reading }
{
    match session.next_row() {
        Ok(Some(row)) => row_words(alloc, &row),
        Ok(None) => {
            *has_rows = false;
            said(alloc, "the end")
        }
        Err(fault) => {
            *has_rows = false;
            fault_words(alloc, &fault)
        }
    }
}

fn columns_words(alloc: Global, answer: &Result<u32, SessionFault>) -> Result<String, OutOfMemory> {
    match answer {
        Ok(columns) => Ok(format!(in alloc; "{columns} columns")?),
        Err(fault) => fault_words(alloc, fault),
    }
}

// The cells, with a bar after each.
fn row_words(alloc: Global, row: &Row<'_>) -> Result<String, OutOfMemory> {
    let mut words = String::new(alloc);
    for cell in row.cells() {
        match cell {
            Some(bytes) => percent_encode(bytes, CONTROLS).append_to(&mut words)?,
            None => words.push_str("NULL")?,
        }
        words.push('|')?;
    }
    Ok(words)
}

/// What a fault says.
pub fn fault_words(alloc: Global, fault: &SessionFault) -> Result<String, OutOfMemory> {
    Ok(format!(in alloc; "{fault}")?)
}
