//! A dump over one link.
ghost use Rattle.std.specs.Prelude.{◌≡◌, ◌<◌, ◌≤◌, ◌↔◌, [], length, false, IfErr, IfOk, OnOk, OnErr};
ghost use Rattle.my_session.specs.InStep.{GreetingWaits};
ghost use Rattle.dumper_cli.specs.AskedBy.{asked_by};
ghost use Rattle.dumper_cli.specs.Next.{IsReady, HasPendingRows, Keeps, Broke};
ghost use Rattle.dumper_cli.specs.OverLink.{Tabled, Conversed, LinkDumped, LinkStopped};
ghost use Rattle.dumper_cli.specs.Run.{Reached, Halted};
ghost use Rattle.dumper_cli.specs.Stage.{sends_names, asks_columns, asks_rows, awaits_rows};

use crate::column::{Column, ColumnList};
use crate::columns::read_columns;
use crate::copy::{ask_rows, copy_rows};
use crate::data_file::{DataFile, WriteFault};
use crate::fault::DumpFault;
use crate::words::Words;
use link_traits::{Link, Shelf};
use my_session::{Session, SessionFault};
use plain_data::Name;
use statement_forms::Command;
use std::alloc::Global;

// Asks for texts as they are stored.
fn set_names<L: Link>(session: &mut Session<L>) -> Result<(), SessionFault>
    requires ready { IsReady session.old }

    ensures keeps { Keeps L.Link session.old session.new }
    ensures ready { OnOk result (IsReady session.new) }
    ensures ok { OnOk result
        ((asked start : _) → Reached L.Link asked
        (sends_names session.old.peer.ends) start session.old →
        Reached L.Link asked (asks_columns session.new.peer.ends) start session.new) }
    ensures err { IfErr result
        (λ fault. (asked start : _) →
        Reached L.Link asked (sends_names session.old.peer.ends) start session.old →
        Halted L.Link asked start session.new.link fault) }
{
    session.run(&Command::NamesBinary)
}

// Reads the columns, and asks for the rows.
fn ask<L: Link>(
    session: &mut Session<L>,
    alloc: Global,
    words: &Words<'_>,
) -> Result<ColumnList, SessionFault>
    requires ready { IsReady session.old }

    ensures keeps { Keeps L.Link session.old session.new }
    ensures rows { IfOk result (λ _. HasPendingRows session.new) }
    ensures ok { IfOk result
        (λ columns. (start : _) →
        Reached L.Link (asked_by words.now)
        (sends_names session.old.peer.ends) start session.old →
        Reached L.Link (asked_by words.now)
        (awaits_rows session.new.pending.reading columns []) start session.new) }
    ensures err { IfErr result
        (λ fault. (start : _) →
        Reached L.Link (asked_by words.now)
        (sends_names session.old.peer.ends) start session.old →
        Halted L.Link (asked_by words.now) start session.new.link fault) }
{
    if let Err(fault) = set_names(session) {
        return Err(fault);
    }
    let columns = match read_columns(session, alloc, words) {
        Ok(columns) => columns,
        Err(fault) => return Err(fault),
    };
    if let Err(fault) = ask_rows(session, alloc, words, columns.as_slice()) {
        return Err(fault);
    }
    Ok(columns)
}

// Writes the rows that come to a file of the shelf.
fn copy_table<L: Link, S: Shelf>(
    session: &mut Session<L>,
    alloc: Global,
    shelf: S,
    words: &Words<'_>,
    columns: &[Column],
) -> (S, Result<(), DumpFault>)
    requires rows { HasPendingRows session.old }
    requires none_begun { S.is_begun shelf ≡ false }
    requires none_made { S.tells shelf → (S.told shelf).made ≡ [] }

    ensures keeps { Keeps L.Link session.old session.new }
    ensures tells { S.tells shelf ↔ S.tells result.0 }
    ensures later { S.faults shelf ≤ S.faults result.0 }
    ensures ready { OnOk result.1 (IsReady session.new) }
    ensures ok { OnOk result.1 (Tabled L.Link S.Shelf (asked_by words.now).schema
        (asked_by words.now).table columns.now session.old shelf session.new result.0) }
    ensures err { IfErr result.1
        (λ fault. (asked start : _) →
        Reached L.Link asked (awaits_rows session.old.pending.reading columns.now []) start
        session.old → Broke L.Link S.Shelf asked start shelf session.new.link result.0 fault) }
    ensures none_made { OnErr result.1 (S.tells shelf → (S.told result.0).made ≡ []) }
{
    let mut file = match DataFile::new(alloc, shelf, words.schema, words.table, columns) {
        Ok(file) => file,
        Err((shelf, _)) => {
            return (shelf, Err(DumpFault::Session(SessionFault::OutOfMemory)));
        }
    };
    if let Err(fault) = copy_rows(session, columns, &mut file) {
        return (file.into_shelf(), Err(fault));
    }
    let (shelf, ended) = file.end();
    match ended {
        Ok(()) => (shelf, Ok(())),
        Err(WriteFault::File) => (shelf, Err(DumpFault::File)),
        Err(_) => (shelf, Err(DumpFault::Session(SessionFault::OutOfMemory))),
    }
}

// The dump over a session that is logged in.
fn converse<L: Link, S: Shelf>(
    session: &mut Session<L>,
    alloc: Global,
    shelf: S,
    words: &Words<'_>,
) -> (S, Result<(), DumpFault>)
    requires ready { IsReady session.old }
    requires none_begun { S.is_begun shelf ≡ false }
    requires none_made { S.tells shelf → (S.told shelf).made ≡ [] }

    ensures keeps { Keeps L.Link session.old session.new }
    ensures tells { S.tells shelf ↔ S.tells result.0 }
    ensures later { S.faults shelf ≤ S.faults result.0 }
    ensures ready { OnOk result.1 (IsReady session.new) }
    ensures ok { OnOk result.1
        (Conversed L.Link S.Shelf (asked_by words.now) session.old shelf session.new result.0) }
    ensures err { IfErr result.1
        (λ fault. (start : _) →
        Reached L.Link (asked_by words.now)
        (sends_names session.old.peer.ends) start session.old →
        Broke L.Link S.Shelf (asked_by words.now) start shelf session.new.link result.0 fault) }
    ensures none_made { OnErr result.1 (S.tells shelf → (S.told result.0).made ≡ []) }
{
    let columns = match ask(session, alloc, words) {
        Ok(columns) => columns,
        Err(fault) => return (shelf, Err(DumpFault::Session(fault))),
    };
    copy_table(session, alloc, shelf, words, columns.as_slice())
}

/// What is left once a conversation is over.
pub struct Ended<L, S> {
    pub link: L,
    pub shelf: S,
    pub result: Result<(), DumpFault>,
}

/// The dump over a new link, and the file of its rows on a new shelf.
pub fn dump_over_link<L: Link, S: Shelf>(
    alloc: Global,
    link: L,
    shelf: S,
    words: &Words<'_>,
) -> Ended<L, S>
    requires new_link { L.honest link → (L.served link).failed ≡ false → GreetingWaits L.Link link }
    requires none_begun { S.is_begun shelf ≡ false }
    requires none_made { S.tells shelf → (S.told shelf).made ≡ [] }

    ensures honest { L.honest link ↔ L.honest result.link }
    ensures origin { L.same_origin link result.link }
    ensures link_tells { L.tells link ↔ L.tells result.link }
    ensures link_later { L.faults link ≤ L.faults result.link }
    ensures tells { S.tells shelf ↔ S.tells result.shelf }
    ensures later { S.faults shelf ≤ S.faults result.shelf }
    ensures ok { OnOk result.result
        (LinkDumped L.Link S.Shelf (asked_by words.now) link shelf result.link result.shelf) }
    ensures err { IfErr result.result (λ fault. LinkStopped L.Link S.Shelf
        (asked_by words.now) link shelf result.link result.shelf fault) }
    ensures none_made { OnErr result.result (S.tells shelf → (S.told result.shelf).made ≡ []) }
{
    let login = Session::login(alloc, link, words.user.as_slice(), words.password);
    let mut session = match login {
        Ok(session) => session,
        Err((link, fault)) => {
            return Ended {
                link,
                shelf,
                result: Err(DumpFault::Session(fault)),
            };
        }
    };
    let (shelf, result) = converse(&mut session, alloc, shelf, words);
    Ended {
        link: session.close(),
        shelf,
        result,
    }
}
