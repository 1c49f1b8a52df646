//! Queries, and their rows.
ghost use Rattle.std.specs.Prelude.{◌≡◌, ◌≤◌, ◌<◌, ◌↔◌, ◌+◌, ◌-◌, ℕ, length, true, false, Some, None, Ok, Err, IfErr, IfOk, OnOk, MatchResult, option_copied};
ghost use Rattle.wire_forms.specs.Reading.{idle, awaited_count, columns_counted, definition_if, further_of, reading_after};
ghost use Rattle.wire_forms.specs.declared.reply.Reply.TheVariants.{Columns};
ghost use Rattle.statement_forms.specs.Form.{query_form};
ghost use Rattle.statement_forms.specs.Statement.{QueryHasText};
ghost use Rattle.statement_forms.specs.Text.{query_text};
ghost use Rattle.my_session.specs.Awaited.{count, further};
ghost use Rattle.my_session.specs.Channel.{channel_wire, outgoing, Says, SaysNone, FaultWhereTold, WhereTold};
ghost use Rattle.my_session.specs.Halt.{Halts};
ghost use Rattle.my_session.specs.Stop.{refusal_fault, stop_fault, stop_result};
ghost use Rattle.my_session.specs.Heard.{HearsReply, HearsDefinition, IsAfterRow, Judges};
ghost use Rattle.honest_server.specs.State.{in_session};
ghost use Rattle.my_session.specs.Asked.{AsksServed, LeadsServed};
ghost use Rattle.my_session.specs.InStep.{AwaitsDefinition, AwaitsReply, AwaitsRest, AwaitsRow, DescribesServed, FailsOn, FollowsEnds, HasCounted, HasOpened, HearsFurther, HearsOne, IsAtRest, ServesCount, ServesNext, reached_on};
ghost use Rattle.my_session.specs.Lead.{lead_of};
ghost use Rattle.my_session.specs.Serving.{KeepsLink};
ghost use Rattle.my_session.specs.Session.{Asks, Describes, EndsStatement, IsOfStatement, LeadStops, failed_by, rows_awaited};
ghost use Rattle.honest_server.specs.Exchange.{query_payload};
ghost use Rattle.my_session.specs.Statements.{IsLed};
ghost use Rattle.my_session.specs.Wire.{Hears, Takes};

use crate::channel::Channel;
use crate::fault::{ChannelFault, SessionFault};
use crate::ranges::look_at_numbers;
use crate::reads::Reads;
use crate::run::{hear_reply, run_on};
use crate::sender::Plainly;
use crate::session::Session;
use link_traits::Link;
use my_packets::Message;
use plain_data::Buffer;
use result_rows::{Row, RowReader, TurnKind, refusal_read};
use sql_statements::query_into;
use statement_forms::{Command, Form, Part, Query};
use wire_forms::{Ends, Refusal, Reply};

// The schema in which a query is to be asked.
fn lead_of<'q>(query: &'q Query<'_>) -> Option<&'q [u8]>
    ensures { option_copied result ≡ lead_of query.now }
{
    match query {
        Query::CreateTable { schema, .. } => Some(schema.bytes()),
        Query::CreateView { schema, .. } => Some(schema.bytes()),
        Query::CreateProcedure { schema, .. } => Some(schema.bytes()),
        Query::CreateFunction { schema, .. } => Some(schema.bytes()),
        Query::CreateTrigger { schema, .. } => Some(schema.bytes()),
        Query::CreateEvent { schema, .. } => Some(schema.bytes()),
        Query::MasterStatus
        | Query::BinaryLogStatus
        | Query::Schemas
        | Query::Tables { .. }
        | Query::Columns { .. }
        | Query::PrimaryKey { .. }
        | Query::Triggers { .. }
        | Query::Routines { .. }
        | Query::ViewNeeds { .. }
        | Query::Events { .. }
        | Query::CreateDatabase { .. }
        | Query::Key { .. }
        | Query::KeyAbove { .. }
        | Query::Rows { .. }
        | Query::RowsByKey { .. }
        | Query::RowsAbove { .. }
        | Query::RowsUpTo { .. }
        | Query::RowsBetween { .. }
        | Query::WideKey { .. }
        | Query::WideKeyAbove { .. }
        | Query::RowsByWideKey { .. }
        | Query::RowsAboveWide { .. }
        | Query::RowsUpToWide { .. }
        | Query::RowsBetweenWide { .. }
        | Query::ProgressDump
        | Query::ProgressFiles => None,
    }
}

// Sends the `USE` that leads a query, and hears its OK.
fn lead<L: Link>(
    channel: &mut Channel<L>,
    payload: &mut Buffer,
    query: &Query<'_>,
) -> Result<(), SessionFault>
    requires rest { IsAtRest L.Link in_session channel.old }

    ensures keeps { KeepsLink L.Link channel.old.link channel.new.link result }
    ensures rest { failed_by result ≡ false → IsAtRest L.Link in_session channel.new }
    ensures room { length payload.old.bytes + payload.old.spare ≤ length payload.new.bytes
        + payload.new.spare }
    ensures fault { IfErr result IsOfStatement }
    ensures ok { OnOk result (WhereTold L.Link (Takes (IsLed query.now)) channel.old channel.new) }
    ensures err { IfErr result
        (FaultWhereTold L.Link (LeadStops query.now) channel.old channel.new) }
    ensures served { L.honest channel.old.link → LeadsServed query.now
        (L.served channel.old.link).state result (L.served channel.new.link).state }
{
    match lead_of(query) {
        Some(schema) => run_on(channel, payload, &Command::Use(Part::of(schema)), &Plainly),
        None => Ok(()),
    }
}

// Writes the payload of a query.
fn write_query(payload: &mut Buffer, query: &Query<'_>) -> Result<(), SessionFault>
    requires text { QueryHasText query.now }

    ensures bytes { OnOk result (payload.new.bytes ≡ query_payload (query_text query.now)) }
    ensures room { length payload.old.bytes + payload.old.spare ≤ length payload.new.bytes
        + payload.new.spare }
    ensures fault { IfErr result (λ fault. fault ≡ SessionFault.OutOfMemory) }
{
    payload.clear();
    if payload.reserve(1).is_err() {
        return Err(SessionFault::OutOfMemory);
    }
    payload.push_byte(3);
    match query_into(query, payload) {
        Ok(()) => Ok(()),
        Err(_) => Err(SessionFault::OutOfMemory),
    }
}

// Sends a query.
#[tactic(auto, using(crate::proofs::Answering::channel_of_statement, crate::proofs::Answering::channel_ends))]
fn send_query<L: Link>(
    channel: &mut Channel<L>,
    payload: &mut Buffer,
    query: &Query<'_>,
) -> Result<(), SessionFault>
    requires text { QueryHasText query.now }
    requires rest { IsAtRest L.Link in_session channel.old }

    ensures keeps { KeepsLink L.Link channel.old.link channel.new.link result }
    ensures awaits { OnOk result (AwaitsReply L.Link channel.new) }
    ensures room { length payload.old.bytes + payload.old.spare ≤ length payload.new.bytes
        + payload.new.spare }
    ensures fault { IfErr result EndsStatement }
    ensures says { OnOk result (Says L.Link 0
        (outgoing (query_payload (query_text query.now)) None) channel.old channel.new) }
    ensures err { IfErr result (SaysNone L.Link 0
        (outgoing (query_payload (query_text query.now)) None) channel.old channel.new) }
{
    if let Err(fault) = write_query(payload, query) {
        return Err(fault);
    }
    match channel.say(0, payload.as_slice(), &Plainly) {
        Ok(()) => Ok(()),
        Err(fault) => Err(fault.session_fault()),
    }
}

// Hears the number of columns.
#[tactic(auto, using(crate::proofs::Answering::halts_count, crate::proofs::Answering::misheard_halts, crate::proofs::Answering::channel_of_statement, crate::proofs::Answering::channel_ends))]
fn hear_count<L: Link>(
    channel: &mut Channel<L>,
    reader: &mut RowReader,
    form: Form,
) -> Result<u32, SessionFault>
    requires awaits { AwaitsReply L.Link channel.old }
    requires server { L.honest channel.old.link →
        reader.old.ends ≡ (L.served channel.old.link).state.terms.server.ends }

    ensures keeps { KeepsLink L.Link channel.old.link channel.new.link result }
    ensures counted { IfOk result
        (λ columns. HasCounted L.Link reader.old.ends columns channel.new reader.new) }
    ensures fault { IfErr result (λ fault. FailsOn L.Link fault channel.new) }
    ensures served { ServesCount L.Link form channel.old result channel.new }
    ensures heard { IfOk result (λ columns. WhereTold L.Link
        (HearsReply (Some (Columns columns))) channel.old channel.new) }
    ensures err { IfErr result
        (FaultWhereTold L.Link (Halts (count form)) channel.old channel.new) }
{
    let place = channel.place();
    match hear_reply(channel, reader) {
        Ok(Some(Reply::Columns(columns))) => Ok(columns),
        Ok(Some(Reply::Refused(refusal))) => Err(SessionFault::Refused(form, refusal)),
        Ok(Some(Reply::Done)) => Err(SessionFault::Garbled(place)),
        Ok(None) => Err(SessionFault::Garbled(place)),
        Err(fault) => Err(fault),
    }
}

// Whether a message is a column definition, or the EOF after the definitions, where one is awaited.
fn is_definition(reader: &mut RowReader, message: Message<'_>) -> bool
    requires awaits { AwaitsDefinition reader.old }

    ensures turn { further_of reader.old message.entry.payload.now ≡ definition_if result }
    ensures after { reader.new ≡ reading_after reader.old (definition_if result) }
{
    match reader.step(message.payload) {
        TurnKind::Definition => true,
        TurnKind::Row => false,
        TurnKind::End => false,
        TurnKind::Refused => false,
        TurnKind::Garbled => false,
    }
}

// Hears a column definition, or the EOF after the definitions.
fn hear_definition<L: Link>(
    channel: &mut Channel<L>,
    reader: &mut RowReader,
    form: Form,
) -> Result<(), SessionFault>
    requires awaits { AwaitsDefinition reader.old }
    requires rest { AwaitsRest L.Link channel.old reader.old }

    ensures keeps { KeepsLink L.Link channel.old.link channel.new.link result }
    ensures rest { OnOk result (AwaitsRest L.Link channel.new reader.new) }
    ensures fault { IfErr result EndsStatement }
    ensures ok { OnOk result (HearsOne L.Link reader.old channel.old channel.new reader.new) }
    ensures err { IfErr result
        (FaultWhereTold L.Link (Halts (further form reader.old)) channel.old channel.new) }
    ensures served { ServesNext L.Link form reader.old channel.old result channel.new }
{
    let place = channel.place();
    if let Err(fault) = channel.hear() {
        return Err(fault.session_fault());
    }
    if is_definition(reader, channel.message()) {
        return Ok(());
    }
    Err(SessionFault::Garbled(place))
}

// How many messages stand before the rows of so many columns.
fn awaited_count(ends: Ends, columns: u32) -> u32
    requires few { columns < 65536 }

    ensures { result ≡ awaited_count ends columns }
{
    match ends {
        Ends::Eof => columns + 1,
        Ends::Ok => columns,
    }
}

// Hears the messages before the rows of so many columns.
fn describe<L: Link>(
    channel: &mut Channel<L>,
    reader: &mut RowReader,
    query: &Query<'_>,
    ends: Ends,
    columns: u32,
) -> Result<(), SessionFault>
    requires counted { HasCounted L.Link ends columns channel.old reader.old }

    ensures keeps { KeepsLink L.Link channel.old.link channel.new.link result }
    ensures rest { OnOk result (AwaitsRest L.Link channel.new reader.new) }
    ensures fault { IfErr result EndsStatement }
    ensures reader { OnOk result (reader.new ≡ rows_awaited ends columns) }
    ensures describes { L.tells channel.old.link → Describes query.now (columns_counted ends
        columns) (channel_wire L.Link channel.old) result (channel_wire L.Link channel.new) }
    ensures served { L.honest channel.old.link →
        DescribesServed L.Link ends columns channel.old result channel.new }
{
    let form = query.form();
    let mut left = awaited_count(ends, columns);
    'definitions: while 0 < left {
        if let Err(fault) = hear_definition(channel, reader, form) {
            return Err(fault);
        }
        left -= 1;
    }
    Ok(())
}

// Asks a query, and answers how many columns its rows have.
fn ask<L: Link>(
    channel: &mut Channel<L>,
    payload: &mut Buffer,
    reader: &mut RowReader,
    query: &Query<'_>,
    ends: Ends,
) -> Result<u32, SessionFault>
    requires text { QueryHasText query.now }
    requires rest { IsAtRest L.Link in_session channel.old }
    requires follows { FollowsEnds L.Link ends reader.old channel.old.link }

    ensures keeps { KeepsLink L.Link channel.old.link channel.new.link result }
    ensures opened { MatchResult result
        (λ columns. HasOpened L.Link ends columns channel.new reader.new)
        (λ fault. FailsOn L.Link fault channel.new) }
    ensures room { length payload.old.bytes + payload.old.spare ≤ length payload.new.bytes
        + payload.new.spare }
    ensures served { L.honest channel.old.link → AsksServed query.now
        (L.served channel.old.link).state result (reached_on L.Link reader.new channel.new) }
    ensures asks { L.tells channel.old.link → Asks ends query.now
        (channel_wire L.Link channel.old) result (channel_wire L.Link channel.new) }
{
    look_at_numbers(query);
    if let Err(fault) = lead(channel, payload, query) {
        return Err(fault);
    }
    if let Err(fault) = send_query(channel, payload, query) {
        return Err(fault);
    }
    let columns = match hear_count(channel, reader, query.form()) {
        Ok(columns) => columns,
        Err(fault) => return Err(fault),
    };
    if let Err(fault) = describe(channel, reader, query, ends, columns) {
        return Err(fault);
    }
    Ok(columns)
}

// Why no row and no end came. (It is small, since each row is asked for it.)
#[derive(Clone, Copy)]
enum Stop {
    // An ERR to a statement of this form came, and is the channel's message.
    Refused(Form),
    // The channel failed, or its message is garbled.
    Failed(ChannelFault),
}

// What a session answers to a message that is an ERR, which began at this place.
fn refusal_fault(form: Form, place: u64, refusal: Option<Refusal>) -> SessionFault
    ensures { result ≡ refusal_fault form place refusal }
{
    match refusal {
        Some(refusal) => SessionFault::Refused(form, refusal),
        None => SessionFault::Garbled(place),
    }
}

// What a session answers at a stop, where the channel's message is this one.
#[cold]
#[inline(never)]
fn stop_fault(message: Message<'_>, stop: Stop) -> SessionFault
    ensures { result ≡ stop_fault message.entry.place message.entry.payload.now stop }
{
    match stop {
        Stop::Refused(form) => refusal_fault(form, message.place, refusal_read(message.payload)),
        Stop::Failed(fault) => fault.session_fault(),
    }
}

// Reads a message in the place of a row, and says whether it is one; else it is the end. After a
// stop nothing is pending.
fn judge(reader: &mut RowReader, ends: Ends, form: Form, message: Message<'_>) -> Result<bool, Stop>
    requires awaits { AwaitsRow ends reader.old }

    ensures { Judges ends reader.old form message.entry.payload.now message.entry.place
        (stop_result message.entry.place message.entry.payload.now result) reader.new }
{
    let place = message.place;
    match reader.step(message.payload) {
        TurnKind::Row => Ok(true),
        TurnKind::End => Ok(false),
        TurnKind::Refused => Err(Stop::Refused(form)),
        TurnKind::Definition => unreachable!(),
        TurnKind::Garbled => {
            *reader = RowReader::new(ends);
            Err(Stop::Failed(ChannelFault::Garbled(place)))
        }
    }
}

// Hears a message in the place of a row, and says whether it is one; else it is the end. After a
// stop nothing is pending.
fn advance<L: Link>(
    channel: &mut Channel<L>,
    reader: &mut RowReader,
    ends: Ends,
    form: Form,
) -> Result<bool, Stop>
    requires awaits { AwaitsRow ends reader.old }
    requires rest { AwaitsRest L.Link channel.old reader.old }

    ensures keeps { KeepsLink L.Link channel.old.link channel.new.link
        (stop_result channel.new.began channel.new.message result) }
    ensures rest { failed_by (stop_result channel.new.began channel.new.message result) ≡ false →
        AwaitsRest L.Link channel.new reader.new }
    ensures next { OnOk result (HearsFurther L.Link channel.old channel.new) }
    ensures reader { MatchResult result (λ is_row. IsAfterRow ends reader.old channel.new.message
        is_row reader.new) (λ _. reader.new ≡ idle ends) }
    ensures err { IfErr (stop_result channel.new.began channel.new.message result)
        (FaultWhereTold L.Link (Halts (further form reader.old)) channel.old channel.new) }
    ensures served { ServesNext L.Link form reader.old channel.old
        (stop_result channel.new.began channel.new.message result) channel.new }
{
    if let Err(fault) = channel.hear() {
        *reader = RowReader::new(ends);
        return Err(Stop::Failed(fault));
    }
    judge(reader, ends, form, channel.message())
}

impl<L: Link> Reads for Session<L> {
    ghost use Rattle.my_session.specs.Session.{reader_view};

    ghost honest = { λ session. L.honest session.link };

    ghost same_origin = { λ one other. L.same_origin one.link other.link };

    ghost served = { λ session. L.served session.link };

    ghost tells = { λ session. L.tells session.link };

    ghost view = { reader_view L.Link };

    ghost origin_begins = { λ one. L.origin_begins one.link };

    ghost sound = { λ one honest. L.sound one.link honest };

    ghost origins_join = { λ one next last. L.origins_join one.link next.link last.link };

    fn query(&mut self, query: &Query<'_>) -> Result<u32, SessionFault> {
        match ask(
            &mut self.channel,
            &mut self.payload,
            &mut self.reader,
            query,
            self.peer.ends,
        ) {
            Ok(columns) => {
                self.form = query.form();
                Ok(columns)
            }
            Err(fault) => {
                self.reader = RowReader::new(self.peer.ends);
                self.has_failed = fault.ends_session();
                Err(fault)
            }
        }
    }

    fn next_row(&mut self) -> Result<Option<Row<'_>>, SessionFault> {
        let is_row = match advance(
            &mut self.channel,
            &mut self.reader,
            self.peer.ends,
            self.form,
        ) {
            Ok(is_row) => is_row,
            Err(stop) => {
                let fault = stop_fault(self.channel.message(), stop);
                self.has_failed = fault.ends_session();
                return Err(fault);
            }
        };
        if is_row {
            return Ok(Some(self.reader.found_row(self.channel.message())));
        }
        Ok(None)
    }
}
