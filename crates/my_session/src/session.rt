//! A session.
ghost use Rattle.std.specs.Prelude.{◌≡◌, false, Some, None, MatchResult};
ghost use Rattle.wire_forms.specs.Reading.{idle};
ghost use Rattle.my_session.specs.InStep.{GreetingWaits, MayRun, MayRunBy, ServesRun};
ghost use Rattle.my_session.specs.Served.{ClosesServed, FailsLogin, OpensSession};
ghost use Rattle.my_session.specs.Peer.{IsPeerOf};
ghost use Rattle.my_session.specs.Session.{Closes, IsFree, KeepsServer, KeepsSession, LoggedIn, LoginStopped, RunFaults, Runs, place_of, reader_view, wire_of};

use crate::channel::Channel;
use crate::fault::SessionFault;
use crate::login::log_in;
use crate::peer::Peer;
use crate::run::run_on;
use crate::sender::{Plainly, Sender};
use link_traits::Link;
use plain_data::Buffer;
use result_rows::RowReader;
use statement_forms::{Command, Form};
use std::alloc::Global;
use std::marker::Model;

/// COM_QUIT, as it is sent. (MySQL source documentation, `COM_QUIT`.)
pub const QUIT: &[u8] = b"\x01\x00\x00\x00\x01";

/// A session with a server: a link, on which statements are sent and their replies are read one after
/// the other.
#[derive(Drop)]
pub struct Session<L: Link> {
    pub(crate) channel: Channel<L>,
    // The payload that is being sent. Room for a short one is reserved at login.
    pub(crate) payload: Buffer,
    // What is pending, and the form of the statement that asked for it.
    pub(crate) reader: RowReader,
    pub(crate) form: Form,
    // What the greeting said of the server.
    pub(crate) peer: Peer,
    pub(crate) has_failed: bool,
}

impl<L: Link> Model for Session<L> {
    ghost use Rattle.std.specs.Prelude.{◌≡◌, ◌≤◌, ◌+◌, length, false};
    ghost use Rattle.my_session.specs.InStep.{IsInStep};
    ghost use Rattle.my_session.specs.Session.{SessionView};

    ghost Value = { SessionView L };

    ghost view = { λ s. record { link = s.channel.link; place = s.channel.place; id = s.channel.id; peer = s.peer; has_failed = s.has_failed; pending = record { reading = s.reader; form = s.form } } };

    ghost invariant = { λ s. (1001 ≤ length s.payload.bytes + s.payload.spare) × (s.has_failed ≡ false → s.channel.has_failed ≡ false) × (s.reader.ends ≡ s.peer.ends) × IsInStep L.Link (record { link = s.channel.link; place = s.channel.place; id = s.channel.id; peer = s.peer; has_failed = s.has_failed; pending = record { reading = s.reader; form = s.form } }) };
}

impl<L: Link> Session<L> {
    /// Reads the greeting, logs this user in by `mysql_native_password`, over another scramble where
    /// the server asks for that, and sets the session up. Result sets end by an OK exactly where the
    /// greeting offers that, and the response asks for it. A refusal gives the link back.
    /// `NotProtocol10` exactly where the server's first message begins with neither 10 nor 255, and
    /// `PluginUnsupported` exactly where the server asks for the login by another plugin; an ERR to
    /// the login has the form CONNECT. The condition is that the link is new, so that an honest server's
    /// greeting waits on it. (MySQL source documentation, "Connection Phase".)
    pub fn login(
        alloc: Global,
        link: L,
        user: &[u8],
        password: &[u8],
    ) -> Result<Session<L>, (L, SessionFault)>
        requires new_link { L.honest link → (L.served link).failed ≡ false →
            GreetingWaits L.Link link }

        ensures server { MatchResult result (λ session. KeepsServer L.Link link session.link)
            (λ gone. KeepsServer L.Link link gone.0) }
        ensures logs_in { MatchResult result (λ session. LoggedIn L.Link user.now password.now link
            session) (λ gone. LoginStopped L.Link user.now password.now link gone.0 gone.1) }
        ensures served { L.honest link → (L.served link).failed ≡ false → MatchResult result
            (λ session. OpensSession (L.served link).state (L.served session.link).state)
            (λ gone. FailsLogin (L.served link).state gone.1 (L.served gone.0).state) }
    {
        let mut channel = Channel::new(alloc, link);
        let mut payload = Buffer::new(alloc);
        match log_in(alloc, &mut channel, &mut payload, user, password) {
            Ok(peer) => Ok(Session {
                channel,
                payload,
                reader: RowReader::new(peer.ends),
                form: Form::Connect,
                peer,
                has_failed: false,
            }),
            Err(fault) => Err((channel.into_link(), fault)),
        }
    }

    /// Runs a command, whose reply is an OK or an ERR; a result set in reply is `Garbled`. The
    /// conditions are that the session hasn't failed, that no rows are pending, that the command has a
    /// text, and that it makes no object unless an honest server is this link's alone. Where the text
    /// has at most 1,000 bytes it takes no memory. (MySQL source documentation, `COM_QUERY`,
    /// `OK_Packet`, `ERR_Packet`.)
    pub fn run(&mut self, command: &Command<'_>) -> Result<(), SessionFault>
        requires free { IsFree (reader_view L.Link self.old) }
        requires may { MayRun L.Link command.now self.old.link }

        ensures keeps { KeepsSession L.Link self.old self.new result }
        ensures pending { self.new.pending.reading ≡ idle self.new.peer.ends }
        ensures fault { RunFaults command.now result }
        ensures runs { L.tells self.old.link →
            Runs command.now (wire_of L.Link self.old) result (wire_of L.Link self.new) }
        ensures served { L.honest self.old.link →
            ServesRun L.Link None command.now (place_of L.Link self.old) result self.new.link }
    {
        self.run_so(command, &Plainly)
    }

    /// Runs a command while a session that holds the read lock is lent: it is handled at what that one
    /// has seen. The conditions are those of [`Session::run`], and on an honest link that the other is
    /// of the same site, hasn't failed and holds the lock, and that this one has no transactions of its
    /// own. Where the holder hasn't seen what this session has, the link fails. What takes no memory
    /// there takes none here.
    pub fn run_beside(
        &mut self,
        holder: &Session<L>,
        command: &Command<'_>,
    ) -> Result<(), SessionFault>
        requires free { IsFree (reader_view L.Link self.old) }
        requires may { MayRunBy L.Link (Some holder.now.link) command.now self.old.link }

        ensures keeps { KeepsSession L.Link self.old self.new result }
        ensures pending { self.new.pending.reading ≡ idle self.new.peer.ends }
        ensures fault { RunFaults command.now result }
        ensures runs { L.tells self.old.link →
            Runs command.now (wire_of L.Link self.old) result (wire_of L.Link self.new) }
        ensures served { L.honest self.old.link → ServesRun L.Link (Some holder.now.link)
            command.now (place_of L.Link self.old) result self.new.link }
    {
        self.run_so(command, &holder.channel)
    }

    // Runs a command, beside the holder of the read lock where one is lent.
    fn run_so<S: Sender<L>>(
        &mut self,
        command: &Command<'_>,
        sender: &S,
    ) -> Result<(), SessionFault>
        requires free { IsFree (reader_view L.Link self.old) }
        requires may { MayRunBy L.Link (S.holder sender.now) command.now self.old.link }

        ensures keeps { KeepsSession L.Link self.old self.new result }
        ensures pending { self.new.pending.reading ≡ idle self.new.peer.ends }
        ensures fault { RunFaults command.now result }
        ensures runs { L.tells self.old.link →
            Runs command.now (wire_of L.Link self.old) result (wire_of L.Link self.new) }
        ensures served { L.honest self.old.link → ServesRun L.Link (S.holder sender.now)
            command.now (place_of L.Link self.old) result self.new.link }
    {
        match run_on(&mut self.channel, &mut self.payload, command, sender) {
            Ok(()) => Ok(()),
            Err(fault) => {
                self.has_failed = fault.ends_session();
                Err(fault)
            }
        }
    }

    /// Whether the session has failed: a call of it answered another fault than `Refused`. As long as it
    /// hasn't, an honest server's link hasn't failed either. Takes no memory.
    pub fn failed(&self) -> bool
        ensures is { result ≡ self.now.has_failed }
        ensures alive { L.honest self.now.link →
            self.now.has_failed ≡ false → (L.served self.now.link).failed ≡ false }
    {
        self.has_failed
    }

    /// Whether the server is of version 8.2 or newer, as its greeting said; then it has `SHOW BINARY LOG
    /// STATUS`. What the greeting said is what an honest server is. Takes no memory.
    pub fn newer(&self) -> bool
        ensures newer { result ≡ self.now.peer.newer }
        ensures server { L.honest self.now.link →
            IsPeerOf (L.served self.now.link).state.terms.server self.now.peer }
    {
        self.peer.newer
    }

    /// How many bytes were heard on the session. Takes no memory.
    pub fn place(&self) -> u64
        ensures { result ≡ self.now.place }
    {
        self.channel.place()
    }

    /// Ends the session, and gives its link back. Where the session hasn't failed it sends COM_QUIT,
    /// whatever comes of that; an honest server's link is over then, or as it was. Takes no memory.
    pub fn close(self) -> L
        ensures server { KeepsServer L.Link self.link result }
        ensures closes { Closes L.Link QUIT.now self result }
        ensures served { L.honest self.link → self.has_failed ≡ false →
            ClosesServed (L.served self.link).state (L.served result).state }
    {
        let Session {
            mut channel,
            payload: _,
            reader: _,
            form: _,
            peer: _,
            has_failed,
        } = self;
        if !has_failed {
            let _ = channel.send_packets(QUIT, 1, &Plainly);
        }
        channel.into_link()
    }
}
