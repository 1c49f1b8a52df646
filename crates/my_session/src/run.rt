//! Commands, and the first message of a reply.
ghost use Rattle.std.specs.Prelude.{◌≡◌, ◌≤◌, ◌+◌, length, false, Some, IfErr, IfOk, OnOk, Err};
ghost use Rattle.wire_forms.specs.Reply.{reply_of};
ghost use Rattle.statement_forms.specs.Statement.{CommandHasText};
ghost use Rattle.statement_forms.specs.Text.{command_text};
ghost use Rattle.my_session.specs.Awaited.{done};
ghost use Rattle.my_session.specs.Channel.{channel_wire, link_of, IsOfChannel, FaultWhereTold, WhereTold};
ghost use Rattle.my_session.specs.Halt.{Halts, Misheard};
ghost use Rattle.my_session.specs.Heard.{HasColumns, HearsReply, ReadsReply, reading_of};
ghost use Rattle.honest_server.specs.State.{in_session};
ghost use Rattle.my_session.specs.InStep.{AwaitsMessage, IsAtRest, MayRunBy, ServesDone, ServesFirst, ServesRun};
ghost use Rattle.my_session.specs.Serving.{KeepsLink};
ghost use Rattle.my_session.specs.Session.{IsOfStatement, NeedsNoMemory, RunFaultsIn, Runs, failed_by};
ghost use Rattle.my_session.specs.Statements.{command_payload};

use crate::channel::Channel;
use crate::fault::SessionFault;
use crate::sender::Sender;
use link_traits::Link;
use plain_data::Buffer;
use result_rows::RowReader;
use sql_statements::command_into;
use statement_forms::{Command, Form};
use wire_forms::{Ends, Reply};

/// Hears a reply's first message; `None` where it spells none. Takes no memory.
#[tactic(auto, using(crate::proofs::Answering::skim_tells, crate::proofs::Answering::front_tells_reply))]
pub(crate) fn hear_reply<L: Link>(
    channel: &mut Channel<L>,
    reader: &mut RowReader,
) -> Result<Option<Reply>, SessionFault>
    requires awaits { AwaitsMessage L.Link channel.old }

    ensures keeps { KeepsLink L.Link channel.old.link channel.new.link result }
    ensures served { ServesFirst L.Link channel.old result channel.new }
    ensures alive { OnOk result (channel.new.has_failed ≡ false) }
    ensures fault { NeedsNoMemory IsOfChannel result }
    ensures reads { IfOk result (λ reply. ReadsReply reader.old reply reader.new) }
    ensures heard { IfOk result
        (λ reply. WhereTold L.Link (HearsReply reply) channel.old channel.new) }
    ensures err { IfErr result (FaultWhereTold L.Link Misheard channel.old channel.new) }
{
    match channel.skim() {
        Ok(skim) => Ok(read_reply(skim.kept(), reader)),
        Err(fault) => Err(fault.session_fault()),
    }
}

/// Reads a reply's first message.
#[tactic(auto, using(crate::proofs::Counting::has_columns))]
pub(crate) fn read_reply(payload: &[u8], reader: &mut RowReader) -> Option<Reply>
    ensures reply { result ≡ reply_of payload.now }
    ensures columns { HasColumns result }
    ensures reader { reader.new ≡ reading_of reader.old.ends result }
{
    reader.first(payload).ok()
}

/// Hears an OK, where an ERR answers a statement of this form. How result sets end makes no difference.
/// Takes no memory.
#[tactic(auto, using(crate::proofs::Answering::halts_done, crate::proofs::Answering::misheard_halts, crate::proofs::Answering::channel_of_statement, crate::proofs::Answering::channel_ends))]
pub(crate) fn hear_done<L: Link>(channel: &mut Channel<L>, form: Form) -> Result<(), SessionFault>
    requires awaits { AwaitsMessage L.Link channel.old }

    ensures keeps { KeepsLink L.Link channel.old.link channel.new.link result }
    ensures served { ServesDone L.Link form channel.old result channel.new }
    ensures alive { failed_by result ≡ false → channel.new.has_failed ≡ false }
    ensures fault { NeedsNoMemory IsOfStatement result }
    ensures heard { OnOk result
        (WhereTold L.Link (HearsReply (Some Reply.Done)) channel.old channel.new) }
    ensures err { IfErr result (FaultWhereTold L.Link (Halts (done form)) channel.old channel.new) }
{
    let place = channel.place();
    let mut reader = RowReader::new(Ends::Eof);
    match hear_reply(channel, &mut reader) {
        Ok(Some(Reply::Done)) => Ok(()),
        Ok(Some(Reply::Refused(refusal))) => Err(SessionFault::Refused(form, refusal)),
        Ok(Some(Reply::Columns(_))) => Err(SessionFault::Garbled(place)),
        Ok(None) => Err(SessionFault::Garbled(place)),
        Err(fault) => Err(fault),
    }
}

// Writes the payload of a command.
fn write_command(payload: &mut Buffer, command: &Command<'_>) -> Result<(), SessionFault>
    requires text { CommandHasText command.now }

    ensures bytes { OnOk result (payload.new.bytes ≡ command_payload command.now) }
    ensures room { length payload.old.bytes + payload.old.spare ≤ length payload.new.bytes
        + payload.new.spare }
    ensures fault { IfErr result (λ fault. fault ≡ SessionFault.OutOfMemory) }
    ensures memory { 1001 ≤ length payload.old.bytes + payload.old.spare →
        length (command_text command.now) ≤ 1000 → result ≡ Err SessionFault.OutOfMemory → ⊥ }
{
    payload.clear();
    if payload.reserve(1).is_err() {
        return Err(SessionFault::OutOfMemory);
    }
    payload.push_byte(3);
    match command_into(command, payload) {
        Ok(()) => Ok(()),
        Err(_) => Err(SessionFault::OutOfMemory),
    }
}

/// Runs a command, beside the holder of the read lock where one is lent. Where its text has at most 1,000
/// bytes, for which there is room, it takes no memory.
#[tactic(auto, using(crate::proofs::Answering::channel_of_statement, crate::proofs::Answering::channel_ends))]
pub(crate) fn run_on<L: Link, S: Sender<L>>(
    channel: &mut Channel<L>,
    payload: &mut Buffer,
    command: &Command<'_>,
    sender: &S,
) -> Result<(), SessionFault>
    requires rest { IsAtRest L.Link in_session channel.old }
    requires may { MayRunBy L.Link (S.holder sender.now) command.now channel.old.link }

    ensures keeps { KeepsLink L.Link channel.old.link channel.new.link result }
    ensures rest { failed_by result ≡ false → IsAtRest L.Link in_session channel.new }
    ensures room { length payload.old.bytes + payload.old.spare ≤ length payload.new.bytes
        + payload.new.spare }
    ensures fault { RunFaultsIn (length payload.old.bytes + payload.old.spare) command.now result }
    ensures runs { L.tells channel.old.link → Runs command.now
        (channel_wire L.Link channel.old) result (channel_wire L.Link channel.new) }
    ensures served { L.honest channel.old.link → ServesRun L.Link (S.holder sender.now)
        command.now (link_of channel.old) result channel.new.link }
{
    if let Err(fault) = write_command(payload, command) {
        return Err(fault);
    }
    if let Err(fault) = channel.say(0, payload.as_slice(), sender) {
        return Err(fault.session_fault());
    }
    hear_done(channel, command.form())
}
