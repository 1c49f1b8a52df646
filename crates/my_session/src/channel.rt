//! A link, what is sent on it, and the messages that are heard on it.
ghost use Rattle.std.specs.Prelude.{◌≡◌, ◌≤◌, ◌<◌, ◌+◌, [], length, take, false, Some, None, IfErr, IfOk, OnOk, Err};
ghost use Rattle.wire_forms.specs.Packet.{packet};
ghost use Rattle.my_session.specs.Channel.{ChannelView, link_of, outgoing, packets_within, IsOfLink};
ghost use Rattle.my_session.specs.Channel.{MaySayPayload, MaySendPackets, SendsPackets, SendsNone, Says, SaysNone, HearsNext, SkimsNext, HearsNone};
ghost use Rattle.my_session.specs.Fault.{session_result};
ghost use Rattle.my_session.specs.Serving.{IsServing, KeepsLink, MessageWaits};
ghost use Rattle.my_session.specs.Session.{failed_by};

use crate::fault::ChannelFault;
use crate::limits::{MESSAGE_LIMIT, PIECE, SHORT_PAYLOAD};
use crate::receiving::{receive, skim_message};
use crate::sender::{Plainly, Sender};
use link_traits::Link;
use my_packets::{Frames, Message, Skim, frame_into, header};
use std::alloc::Global;
use std::marker::Model;

// A short payload's one packet has at most so many bytes.
const SHORT_PACKET: usize = SHORT_PAYLOAD + 4;

/// A link, and the message that was heard last on it. It keeps the room of the longest payload that was
/// sent, of the longest message that was heard, and of one receipt.
#[derive(Drop)]
pub struct Channel<L> {
    link: L,
    frames: Frames,
    // The packets that are being sent, where they are long.
    packets: Vec<u8>,
    // How many bytes were received, and how many of them before the message that was heard last.
    taken: u64,
    began: u64,
    // The sequence id of the next packet.
    id: u8,
    has_failed: bool,
    // The room into which bytes are received.
    piece: [u8; PIECE],
}

impl<L> Model for Channel<L> {
    ghost use Rattle.std.specs.Prelude.{◌≡◌, ◌≤◌, ◌^◌, [], false};
    ghost use Rattle.my_session.specs.Channel.{ChannelView};

    ghost Value = { ChannelView L };

    ghost view = { λ c. record { link = c.link; place = c.taken; id = c.id; has_failed = c.has_failed; message = c.frames.message; began = c.began } };

    ghost invariant = { λ c. (c.taken ≤ 2 ^ 62) × (c.frames.limit ≡ 67108864) × (c.frames.place ≤ c.taken) × (c.has_failed ≡ false → c.frames.bytes ≡ []) };
}

// How many packets are so many bytes, where a message has no others.
fn packets_within(bytes: u64) -> u64
    requires header { 4 ≤ bytes }

    ensures { result ≡ packets_within bytes }
{
    (bytes - 4) / 16777219 + 1
}

// Writes a payload's one packet to the front.
fn spell_packet(out: &mut [u8], id: u8, payload: &[u8])
    requires room { length payload.now + 4 ≤ length out.old }
    requires one_packet { length payload.now < 16777215 }

    ensures { take (length payload.now + 4) out.new ≡ packet id payload.now }
{
    let size = payload.len();
    let (front, rest) = out.split_at_mut(4);
    front.copy_from_slice(&header(size as u32, id));
    rest[..size].copy_from_slice(payload);
}

impl<L: Link> Channel<L> {
    /// A link on which nothing was heard. Takes no memory.
    pub fn new(alloc: Global, link: L) -> Channel<L>
        ensures { result ≡ record {
          link = link;
          place = 0;
          id = 0;
          has_failed = false;
          message = [];
          began = 0;
        } }
    {
        Channel {
            link,
            frames: Frames::new(alloc, MESSAGE_LIMIT),
            packets: Vec::new(alloc),
            taken: 0,
            began: 0,
            id: 0,
            has_failed: false,
            piece: [0; PIECE],
        }
    }

    /// Gives the link back. Takes no memory.
    pub fn into_link(self) -> L
        ensures { result ≡ self.link }
    {
        let Channel {
            link,
            frames: _,
            packets: _,
            taken: _,
            began: _,
            id: _,
            has_failed: _,
            piece: _,
        } = self;
        link
    }

    /// Sends bytes that are the packets of a payload, after which comes this id, beside the holder of
    /// the read lock where one is lent. Takes no memory. `Link` where the link fails; then nothing was
    /// sent. The channel mustn't have failed; on an honest link the bytes must be whole packets that
    /// may be sent now, and the holder, where one is lent, must be of the same site, alive and
    /// hold the lock, and the link must have no transactions of its own.
    pub fn send_packets<S: Sender<L>>(
        &mut self,
        packets: &[u8],
        next_id: u8,
        sender: &S,
    ) -> Result<(), ChannelFault>
        requires alive { self.old.has_failed ≡ false }
        requires may { MaySendPackets L.Link (outgoing packets.now (S.holder sender.now))
            self.old.link }

        ensures keeps { KeepsLink L.Link self.old.link self.new.link (session_result result) }
        ensures failed { self.new.has_failed ≡ failed_by (session_result result) }
        ensures place { self.new.place ≡ self.old.place }
        ensures id { OnOk result (self.new.id ≡ next_id) }
        ensures ok { OnOk result (SendsPackets L.Link
            (outgoing packets.now (S.holder sender.now)) self.old.link self.new.link) }
        ensures err { IfErr (session_result result) (SendsNone L.Link IsOfLink
            (outgoing packets.now (S.holder sender.now)) self.old.link self.new.link) }
    {
        match sender.send(&mut self.link, packets) {
            Ok(()) => {
                self.id = next_id;
                Ok(())
            }
            Err(fault) => {
                self.has_failed = true;
                Err(fault)
            }
        }
    }

    // Sends a short payload in one packet. Takes no memory.
    #[tactic(auto, using(crate::proofs::Sending::short_is_sent))]
    fn say_short<S: Sender<L>>(
        &mut self,
        id: u8,
        payload: &[u8],
        sender: &S,
    ) -> Result<(), ChannelFault>
        requires alive { self.old.has_failed ≡ false }
        requires short { length payload.now ≤ SHORT_PAYLOAD }
        requires may { MaySayPayload L.Link id
            (outgoing payload.now (S.holder sender.now)) self.old.link }

        ensures keeps { KeepsLink L.Link self.old.link self.new.link (session_result result) }
        ensures failed { self.new.has_failed ≡ failed_by (session_result result) }
        ensures ok { OnOk result (Says L.Link id
            (outgoing payload.now (S.holder sender.now)) self.old self.new) }
        ensures memory { result ≡ Err ChannelFault.OutOfMemory → ⊥ }
        ensures err { IfErr (session_result result) (SaysNone L.Link id
            (outgoing payload.now (S.holder sender.now)) self.old self.new) }
    {
        let mut packet = [0; SHORT_PACKET];
        spell_packet(&mut packet, id, payload);
        self.send_packets(&packet[..payload.len() + 4], id.wrapping_add(1), sender)
    }

    /// Sends a payload in packets from this id on, beside the holder of the read lock where one is lent.
    /// `TooLong` exactly where it is longer than 67,108,864 bytes, `OutOfMemory` where there is none for
    /// its packets, and `Link` where the link fails; nothing was sent then. Takes no memory where it
    /// has at most 1,001 bytes. The channel mustn't have failed; on an honest link the server must
    /// await a packet of this id, in a session on a link that isn't sole the payload must be no
    /// object's text, and the conditions on the holder are those of [`Channel::send_packets`].
    pub fn say<S: Sender<L>>(
        &mut self,
        id: u8,
        payload: &[u8],
        sender: &S,
    ) -> Result<(), ChannelFault>
        requires alive { self.old.has_failed ≡ false }
        requires may { MaySayPayload L.Link id
            (outgoing payload.now (S.holder sender.now)) self.old.link }

        ensures keeps { KeepsLink L.Link self.old.link self.new.link (session_result result) }
        ensures failed { self.new.has_failed ≡ failed_by (session_result result) }
        ensures ok { OnOk result (Says L.Link id
            (outgoing payload.now (S.holder sender.now)) self.old self.new) }
        ensures memory { length payload.now ≤ SHORT_PAYLOAD →
            result ≡ Err ChannelFault.OutOfMemory → ⊥ }
        ensures err { IfErr (session_result result) (SaysNone L.Link id
            (outgoing payload.now (S.holder sender.now)) self.old self.new) }
    {
        if payload.len() <= SHORT_PAYLOAD {
            return self.say_short(id, payload, sender);
        }
        if payload.len() > MESSAGE_LIMIT as usize {
            self.has_failed = true;
            return Err(ChannelFault::TooLong(payload.len() as u64));
        }
        self.say_long(id, payload, sender)
    }

    /// Sends a further payload of the same exchange, with the ids after those of the message that was
    /// heard last. Refusals, memory and conditions are those of [`Channel::say`].
    pub fn answer(&mut self, payload: &[u8]) -> Result<(), ChannelFault>
        requires alive { self.old.has_failed ≡ false }
        requires may { MaySayPayload L.Link self.old.id (outgoing payload.now None) self.old.link }

        ensures keeps { KeepsLink L.Link self.old.link self.new.link (session_result result) }
        ensures failed { self.new.has_failed ≡ failed_by (session_result result) }
        ensures ok { OnOk result
            (Says L.Link self.old.id (outgoing payload.now None) self.old self.new) }
        ensures err { IfErr (session_result result)
            (SaysNone L.Link self.old.id (outgoing payload.now None) self.old self.new) }
    {
        let id = self.id;
        self.say(id, payload, &Plainly)
    }

    // Sends a payload whose packets are written to memory first.
    fn say_long<S: Sender<L>>(
        &mut self,
        id: u8,
        payload: &[u8],
        sender: &S,
    ) -> Result<(), ChannelFault>
        requires alive { self.old.has_failed ≡ false }
        requires within { length payload.now ≤ MESSAGE_LIMIT }
        requires may { MaySayPayload L.Link id
            (outgoing payload.now (S.holder sender.now)) self.old.link }

        ensures keeps { KeepsLink L.Link self.old.link self.new.link (session_result result) }
        ensures failed { self.new.has_failed ≡ failed_by (session_result result) }
        ensures ok { OnOk result (Says L.Link id
            (outgoing payload.now (S.holder sender.now)) self.old self.new) }
        ensures err { IfErr (session_result result) (SaysNone L.Link id
            (outgoing payload.now (S.holder sender.now)) self.old self.new) }
    {
        self.packets.clear();
        let Ok(next_id) = frame_into(payload, id, &mut self.packets) else {
            self.has_failed = true;
            return Err(ChannelFault::OutOfMemory);
        };
        match sender.send(&mut self.link, &self.packets) {
            Ok(()) => {
                self.id = next_id;
                Ok(())
            }
            Err(fault) => {
                self.has_failed = true;
                Err(fault)
            }
        }
    }

    /// Hears the next message; [`Channel::message`] lends it. `Garbled` where a packet has a wrong
    /// sequence id, `TooLong` where the message has more than 67,108,864 bytes, `StreamTooLong` where
    /// 2^62 bytes were heard before it ended, `OutOfMemory` and `Link` as their names say. The channel
    /// mustn't have failed, and on an honest link that hasn't failed a whole message must wait.
    pub fn hear(&mut self) -> Result<(), ChannelFault>
        requires alive { self.old.has_failed ≡ false }
        requires waits { IsServing L.Link self.old.link →
            MessageWaits self.old.id (L.served self.old.link).waiting }

        ensures keeps { KeepsLink L.Link self.old.link self.new.link (session_result result) }
        ensures failed { self.new.has_failed ≡ failed_by (session_result result) }
        ensures began { OnOk result (self.new.began ≡ self.old.place) }
        ensures ok { OnOk result
            (HearsNext L.Link self.new.message (link_of self.old) (link_of self.new)) }
        ensures err { IfErr (session_result result)
            (HearsNone L.Link (link_of self.old) (link_of self.new)) }
    {
        self.frames.start(self.id);
        self.began = self.taken;
        match receive(
            &mut self.link,
            &mut self.frames,
            &mut self.piece,
            &mut self.taken,
        ) {
            Ok(()) => {
                self.id = self.frames.message().next_seq;
                Ok(())
            }
            Err(fault) => {
                self.has_failed = true;
                Err(fault)
            }
        }
    }

    /// Hears the next message and keeps its first 1,024 bytes. Takes no memory. Refusals and conditions
    /// are those of [`Channel::hear`], without `OutOfMemory`.
    pub fn skim(&mut self) -> Result<Skim, ChannelFault>
        requires alive { self.old.has_failed ≡ false }
        requires waits { IsServing L.Link self.old.link →
            MessageWaits self.old.id (L.served self.old.link).waiting }

        ensures keeps { KeepsLink L.Link self.old.link self.new.link (session_result result) }
        ensures failed { self.new.has_failed ≡ failed_by (session_result result) }
        ensures memory { result ≡ Err ChannelFault.OutOfMemory → ⊥ }
        ensures ok { IfOk result
            (λ skim. SkimsNext L.Link skim (link_of self.old) (link_of self.new)) }
        ensures err { IfErr (session_result result)
            (HearsNone L.Link (link_of self.old) (link_of self.new)) }
    {
        let began = self.taken;
        match skim_message(&mut self.link, self.id, &mut self.piece, &mut self.taken) {
            Ok(skim) => {
                let packets = packets_within(self.taken - began);
                self.id = self.id.wrapping_add((packets % 256) as u8);
                Ok(skim)
            }
            Err(fault) => {
                self.has_failed = true;
                Err(fault)
            }
        }
    }

    /// The place of the next message. Takes no memory.
    pub fn place(&self) -> u64
        ensures { result ≡ self.now.place }
    {
        self.taken
    }

    /// The message that was heard last, at the place of the session where it began. Takes no memory.
    pub fn message(&self) -> Message<'_>
        ensures payload { result.payload.now ≡ self.now.message }
        ensures place { result.place ≡ self.now.began }
    {
        let message = self.frames.message();
        Message {
            payload: message.payload,
            place: self.began,
            next_seq: self.id,
        }
    }
}

impl<L: Link> Sender<L> for Channel<L> {
    ghost use Rattle.std.specs.Prelude.{Some};

    ghost holder = { λ channel. Some channel.link };

    #[tactic(auto, using(crate::proofs::Sending::stream_answered))]
    fn send(&self, link: &mut L, packets: &[u8]) -> Result<(), ChannelFault> {
        match link.send_beside(&self.link, packets) {
            Ok(()) => Ok(()),
            Err(_) => Err(ChannelFault::Link),
        }
    }
}
