//! Logging in.
ghost use Rattle.std.specs.Prelude.{◌≡◌, ◌≤◌, ◌+◌, length, false, Some, None, Ok, Err, IfErr, IfOk, OnOk, MatchResult, option_copied};
ghost use Rattle.honest_server.specs.Moves.{plainly};
ghost use Rattle.honest_server.specs.State.{State, greeted, switching, in_session};
ghost use Rattle.wire_forms.specs.Response.{response};
ghost use Rattle.wire_forms.specs.Switch.{switch_of};
ghost use Rattle.wire_forms.specs.Reply.{reply_of};
ghost use Rattle.statement_forms.specs.declared.command.Command.{Command};
ghost use Rattle.statement_forms.specs.declared.command.Command.TheVariants.{SetUp};
ghost use Rattle.my_session.specs.Awaited.{greeting, decision, greeting_fault, decision_fault, switch_fault};
ghost use Rattle.my_session.specs.Channel.{channel_wire, outgoing, Says, SaysNone, FaultWhereTold, WhereTold};
ghost use Rattle.my_session.specs.Halt.{Halts};
ghost use Rattle.my_session.specs.Heard.{HearsGreeting, HearsDecision, IsDecision, AcceptsSwitched, StopsSwitched, AcceptsGreeted, StopsGreeted, LoginStops};
ghost use Rattle.my_session.specs.InStep.{phase_after, AcceptsServed, AwaitsGreeting, DecisionWaits, FailsDecision, HasDecision, HearsDecided, IsAtRest, IsQuiet, MissesOnly};
ghost use Rattle.my_session.specs.Login.{password_answer, switch_answer, IsGreeted, IsLoggedIn};
ghost use Rattle.my_session.specs.Peer.{IsPeerOf, peer_of};
ghost use Rattle.my_session.specs.Served.{LogsInServed, RunsServed};
ghost use Rattle.my_session.specs.Serving.{IsServing, KeepsLink};
ghost use Rattle.my_session.specs.Session.{Runs};
ghost use Rattle.my_session.specs.Wire.{Takes};

use crate::channel::Channel;
use crate::fault::SessionFault;
use crate::limits::SHORT_PAYLOAD;
use crate::peer::Peer;
use crate::run::{hear_done, read_reply, run_on};
use crate::sender::Plainly;
use link_traits::Link;
use my_login::{LoginMessage, native_answer, response_into};
use plain_data::Buffer;
use result_rows::RowReader;
use statement_forms::{Command, Form};
use std::alloc::Global;
use wire_forms::{Ends, Greeting, LoginFault, Reply, Switch};

// What a server decides of a login.
enum Decision {
    // It is accepted.
    Accepted,
    // Another scramble is to be answered.
    Switched(Switch),
}

// What proves the password over a scramble: nothing where it is empty.
fn password_answer(password: &[u8], scramble: &[u8; 20]) -> Option<[u8; 20]>
    ensures { result ≡ password_answer password.now scramble.now }
{
    match password {
        [] => None,
        [_, ..] => Some(native_answer(password, scramble)),
    }
}

// What is answered to a message that is no greeting.
fn greeting_fault(place: u64, fault: LoginFault) -> SessionFault
    ensures { greeting_fault place (Err fault) ≡ Some result }
{
    match fault {
        LoginFault::NotProtocol10(version) => SessionFault::NotProtocol10(version),
        LoginFault::PluginUnsupported(_) => SessionFault::Garbled(place),
        LoginFault::Refused(refusal) => SessionFault::Refused(Form::Connect, refusal),
        LoginFault::Garbled => SessionFault::Garbled(place),
    }
}

// What is answered to a message that is no request which can be met.
fn switch_fault(place: u64, fault: LoginFault) -> SessionFault
    ensures { switch_fault place (Err fault) ≡ Some result }
{
    match fault {
        LoginFault::NotProtocol10(_) => SessionFault::Garbled(place),
        LoginFault::PluginUnsupported(name) => SessionFault::PluginUnsupported(name),
        LoginFault::Refused(_) => SessionFault::Garbled(place),
        LoginFault::Garbled => SessionFault::Garbled(place),
    }
}

// What a greeting says of its server.
fn peer_of(greeting: &Greeting) -> Peer
    ensures { result ≡ peer_of greeting.now }
{
    Peer {
        ends: greeting.ends,
        newer: greeting.newer,
    }
}

// Hears the greeting.
fn hear_greeting<L: Link>(channel: &mut Channel<L>) -> Result<Greeting, SessionFault>
    requires awaits { AwaitsGreeting L.Link channel.old }

    ensures keeps { KeepsLink L.Link channel.old.link channel.new.link result }
    ensures quiet { OnOk result
        (L.honest channel.new.link → IsQuiet L.Link greeted channel.new.link) }
    ensures server { IfOk result (λ found. L.honest channel.new.link →
        IsPeerOf (L.served channel.new.link).state.terms.server (peer_of found)) }
    ensures alive { OnOk result (channel.new.has_failed ≡ false) }
    ensures served { IsServing L.Link channel.old.link →
        MissesOnly L.Link channel.old.link result channel.new.link }
    ensures heard { IfOk result
        (λ found. WhereTold L.Link (HearsGreeting found) channel.old channel.new) }
    ensures err { IfErr result (FaultWhereTold L.Link (Halts greeting) channel.old channel.new) }
{
    let place = channel.place();
    if let Err(fault) = channel.hear() {
        return Err(fault.session_fault());
    }
    match Greeting::read(channel.message().payload) {
        Ok(greeting) => Ok(greeting),
        Err(fault) => Err(greeting_fault(place, fault)),
    }
}

// Sends the response to a greeting.
fn respond<L: Link>(
    alloc: Global,
    channel: &mut Channel<L>,
    user: &[u8],
    answer: Option<&[u8; 20]>,
    ends: Ends,
) -> Result<(), SessionFault>
    requires alive { channel.old.has_failed ≡ false }
    requires quiet { L.honest channel.old.link → IsQuiet L.Link greeted channel.old.link }

    ensures keeps { KeepsLink L.Link channel.old.link channel.new.link result }
    ensures decision { OnOk result (L.honest channel.new.link → DecisionWaits L.Link
        (L.served channel.old.link).state channel.new.link channel.new.id) }
    ensures alive { OnOk result (channel.new.has_failed ≡ false) }
    ensures says { OnOk result (Says L.Link channel.old.id (outgoing
        (response user.now (option_copied answer.entry) ends) None) channel.old channel.new) }
    ensures err { IfErr result (SaysNone L.Link channel.old.id (outgoing
        (response user.now (option_copied answer.entry) ends) None) channel.old channel.new) }
{
    let mut out = Vec::new(alloc);
    if response_into(user, answer, ends, &mut out).is_err() {
        return Err(SessionFault::OutOfMemory);
    }
    match channel.answer(&out) {
        Ok(()) => Ok(()),
        Err(fault) => Err(fault.session_fault()),
    }
}

// Hears the greeting and answers it, and answers what it says of its server.
fn greet<L: Link>(
    alloc: Global,
    channel: &mut Channel<L>,
    user: &[u8],
    password: &[u8],
) -> Result<Peer, SessionFault>
    requires awaits { AwaitsGreeting L.Link channel.old }

    ensures keeps { KeepsLink L.Link channel.old.link channel.new.link result }
    ensures decision { OnOk result (L.honest channel.new.link → DecisionWaits L.Link
        (L.served channel.old.link).state channel.new.link channel.new.id) }
    ensures alive { OnOk result (channel.new.has_failed ≡ false) }
    ensures served { IsServing L.Link channel.old.link → IfErr result
        (FailsDecision L.Link (L.served channel.old.link).state channel.new.link) }
    ensures server { IfOk result (λ peer. L.honest channel.new.link →
        IsPeerOf (L.served channel.new.link).state.terms.server peer) }
    ensures ok { IfOk result (λ peer. WhereTold L.Link
        (Takes (IsGreeted user.now password.now peer)) channel.old channel.new) }
    ensures err { IfErr result
        (FaultWhereTold L.Link (LoginStops user.now password.now) channel.old channel.new) }
{
    let greeting = match hear_greeting(channel) {
        Ok(greeting) => greeting,
        Err(fault) => return Err(fault),
    };
    let answer = password_answer(password, &greeting.scramble);
    if let Err(fault) = respond(alloc, channel, user, answer.as_ref(), greeting.ends) {
        return Err(fault);
    }
    Ok(peer_of(&greeting))
}

// Reads a request for another scramble's answer.
fn read_switch(place: u64, payload: &[u8]) -> Result<Switch, SessionFault>
    ensures { MatchResult result (λ found. switch_of payload.now ≡ Ok found)
        (λ fault. switch_fault place (switch_of payload.now) ≡ Some fault) }
{
    match Switch::read(payload) {
        Ok(switch) => Ok(switch),
        Err(fault) => Err(switch_fault(place, fault)),
    }
}

// Reads what a server decides.
fn read_decision(place: u64, payload: &[u8]) -> Result<Decision, SessionFault>
    ensures { MatchResult result (λ found. IsDecision found payload.now)
        (λ fault. decision_fault place payload.now (reply_of payload.now) ≡ Some fault) }
{
    match read_reply(payload, &mut RowReader::new(Ends::Eof)) {
        Some(Reply::Done) => return Ok(Decision::Accepted),
        Some(Reply::Refused(refusal)) => {
            return Err(SessionFault::Refused(Form::Connect, refusal));
        }
        Some(Reply::Columns(_)) => {}
        None => {}
    }
    match read_switch(place, payload) {
        Ok(switch) => Ok(Decision::Switched(switch)),
        Err(fault) => Err(fault),
    }
}

// Hears what the server decides.
fn hear_decision<L: Link>(channel: &mut Channel<L>) -> Result<Decision, SessionFault>
    requires alive { channel.old.has_failed ≡ false }
    requires decision { L.honest channel.old.link → HasDecision L.Link channel.old }

    ensures keeps { KeepsLink L.Link channel.old.link channel.new.link result }
    ensures served { (start : State) → L.honest channel.old.link →
        DecisionWaits L.Link start channel.old.link channel.old.id →
        HearsDecided L.Link start result channel.new.link }
    ensures quiet { IfOk result
        (λ found. L.honest channel.new.link → IsQuiet L.Link (phase_after found) channel.new.link) }
    ensures alive { OnOk result (channel.new.has_failed ≡ false) }
    ensures heard { IfOk result
        (λ found. WhereTold L.Link (HearsDecision found) channel.old channel.new) }
    ensures err { IfErr result (FaultWhereTold L.Link (Halts decision) channel.old channel.new) }
{
    let place = channel.place();
    if let Err(fault) = channel.hear() {
        return Err(fault.session_fault());
    }
    read_decision(place, channel.message().payload)
}

// Answers another scramble, and hears that the login is accepted.
fn answer_switch<L: Link>(
    channel: &mut Channel<L>,
    password: &[u8],
    switch: Switch,
) -> Result<(), SessionFault>
    requires alive { channel.old.has_failed ≡ false }
    requires quiet { L.honest channel.old.link → IsQuiet L.Link switching channel.old.link }

    ensures keeps { KeepsLink L.Link channel.old.link channel.new.link result }
    ensures quiet { OnOk result
        (L.honest channel.new.link → IsQuiet L.Link in_session channel.new.link) }
    ensures alive { OnOk result (channel.new.has_failed ≡ false) }
    ensures served { L.honest channel.old.link → AcceptsServed L.Link
        (L.served channel.old.link).state result channel.new.link }
    ensures ok { OnOk result
        (WhereTold L.Link (AcceptsSwitched password.now switch) channel.old channel.new) }
    ensures err { IfErr result
        (FaultWhereTold L.Link (StopsSwitched password.now switch) channel.old channel.new) }
{
    let answer = password_answer(password, &switch.scramble);
    if let Err(fault) = send_answer(channel, answer.as_ref()) {
        return Err(fault);
    }
    hear_done(channel, Form::Connect)
}

// Sends the answer to another scramble: nothing where the password is empty.
fn send_answer<L: Link>(
    channel: &mut Channel<L>,
    answer: Option<&[u8; 20]>,
) -> Result<(), SessionFault>
    requires alive { channel.old.has_failed ≡ false }
    requires quiet { L.honest channel.old.link → IsQuiet L.Link switching channel.old.link }

    ensures keeps { KeepsLink L.Link channel.old.link channel.new.link result }
    ensures decision { OnOk result (L.honest channel.new.link → DecisionWaits L.Link
        (L.served channel.old.link).state channel.new.link channel.new.id) }
    ensures alive { OnOk result (channel.new.has_failed ≡ false) }
    ensures says { OnOk result (Says L.Link channel.old.id
        (outgoing (switch_answer (option_copied answer.entry)) None) channel.old channel.new) }
    ensures err { IfErr result (SaysNone L.Link channel.old.id
        (outgoing (switch_answer (option_copied answer.entry)) None) channel.old channel.new) }
{
    let bytes: &[u8] = match answer {
        Some(bytes) => bytes,
        None => &[],
    };
    match channel.answer(bytes) {
        Ok(()) => Ok(()),
        Err(fault) => Err(fault.session_fault()),
    }
}

// Hears that the login is accepted, over another scramble where the server asks for that.
fn be_accepted<L: Link>(channel: &mut Channel<L>, password: &[u8]) -> Result<(), SessionFault>
    requires alive { channel.old.has_failed ≡ false }
    requires decision { L.honest channel.old.link → HasDecision L.Link channel.old }

    ensures keeps { KeepsLink L.Link channel.old.link channel.new.link result }
    ensures served { (start : State) → L.honest channel.old.link →
        DecisionWaits L.Link start channel.old.link channel.old.id →
        AcceptsServed L.Link start result channel.new.link }
    ensures quiet { OnOk result
        (L.honest channel.new.link → IsQuiet L.Link in_session channel.new.link) }
    ensures alive { OnOk result (channel.new.has_failed ≡ false) }
    ensures ok { OnOk result
        (WhereTold L.Link (AcceptsGreeted password.now) channel.old channel.new) }
    ensures err { IfErr result
        (FaultWhereTold L.Link (StopsGreeted password.now) channel.old channel.new) }
{
    match hear_decision(channel) {
        Ok(Decision::Accepted) => Ok(()),
        Ok(Decision::Switched(switch)) => answer_switch(channel, password, switch),
        Err(fault) => Err(fault),
    }
}

// Reserves room for short payloads, and sets the session up.
fn set_up<L: Link>(channel: &mut Channel<L>, payload: &mut Buffer) -> Result<(), SessionFault>
    requires alive { channel.old.has_failed ≡ false }
    requires quiet { L.honest channel.old.link → IsQuiet L.Link in_session channel.old.link }

    ensures keeps { KeepsLink L.Link channel.old.link channel.new.link result }
    ensures quiet { OnOk result
        (L.honest channel.new.link → IsQuiet L.Link in_session channel.new.link) }
    ensures alive { OnOk result (channel.new.has_failed ≡ false) }
    ensures room { OnOk result (SHORT_PAYLOAD ≤ length payload.new.bytes + payload.new.spare) }
    ensures runs { L.tells channel.old.link →
        Runs SetUp (channel_wire L.Link channel.old) result (channel_wire L.Link channel.new) }
    ensures served { L.honest channel.old.link → RunsServed plainly
        (L.served channel.old.link).state SetUp result (L.served channel.new.link).state }
{
    if payload.reserve(SHORT_PAYLOAD).is_err() {
        return Err(SessionFault::OutOfMemory);
    }
    run_on(channel, payload, &Command::SetUp, &Plainly)
}

/// Logs in over a link on which nothing was heard, and answers what the greeting says of the server.
pub(crate) fn log_in<L: Link>(
    alloc: Global,
    channel: &mut Channel<L>,
    payload: &mut Buffer,
    user: &[u8],
    password: &[u8],
) -> Result<Peer, SessionFault>
    requires awaits { AwaitsGreeting L.Link channel.old }

    ensures keeps { KeepsLink L.Link channel.old.link channel.new.link result }
    ensures rest { OnOk result (IsAtRest L.Link in_session channel.new) }
    ensures server { IfOk result (λ peer. L.honest channel.new.link →
        IsPeerOf (L.served channel.new.link).state.terms.server peer) }
    ensures served { IsServing L.Link channel.old.link → LogsInServed
        (L.served channel.old.link).state result (L.served channel.new.link).state }
    ensures room { OnOk result (SHORT_PAYLOAD ≤ length payload.new.bytes + payload.new.spare) }
    ensures ok { IfOk result (λ peer. WhereTold L.Link
        (Takes (IsLoggedIn user.now password.now peer)) channel.old channel.new) }
    ensures err { IfErr result
        (FaultWhereTold L.Link (LoginStops user.now password.now) channel.old channel.new) }
{
    let peer = match greet(alloc, channel, user, password) {
        Ok(peer) => peer,
        Err(fault) => return Err(fault),
    };
    if let Err(fault) = be_accepted(channel, password) {
        return Err(fault);
    }
    if let Err(fault) = set_up(channel, payload) {
        return Err(fault);
    }
    Ok(peer)
}
