//! Bytes that came in pieces, and the messages that they hold.
ghost use Rattle.std.specs.Prelude.{ℕ, List, ◌≡◌, ◌+◌, ◌-◌, ◌*◌, ◌<◌, ◌≤◌, ◌^◌, ◌++◌, [], length, drop, vec_len, vec_capacity, IfOk, OnOk, OnErr};
ghost use Rattle.std.specs.Borrow.{sem};
ghost use Rattle.std.specs.Io.BufRead.{Rests};
ghost use Rattle.my_packets.specs.Begins.{HasFront, BeginsPacket};
ghost use Rattle.my_packets.specs.Front.{Wants};
ghost use Rattle.my_packets.specs.Joins.{JoinsAt, ClosesAt};
ghost use Rattle.wire_forms.specs.Packet.{packet_count};
ghost use Rattle.my_packets.specs.Unread.{room_left};
ghost use Rattle.my_packets.specs.Steps.{Steps, Shows, HandsOut};

use crate::frame::FULL_SIZE;
use plain_data::OutOfMemory;
use std::alloc::Global;
use std::marker::Model;
use thiserror::Error;

// Bytes that were handed out are given up once there are so many of them, and as many as are unread.
const KEPT: usize = 65536;

// [`Frames::shrink`] leaves room for at most so many bytes where none is unread: half a MiB.
const ROOM_KEPT: usize = 524_288;

/// Why the bytes of a stream hold no further message.
#[derive(Clone, Copy, Debug, PartialEq, Eq, Error)]
pub enum FrameFault {
    /// The next packet has the first sequence id, and should have the second.
    #[error("packet {0} in place of packet {1}")]
    BadSequence(u8, u8),
    /// With the next packet the message is announced with so many bytes, which pass the limit.
    #[error("{0} bytes are too long")]
    TooLong(u64),
}

/// A message of a stream.
#[derive(Clone, Copy)]
pub struct Message<'a> {
    /// Its bytes, without the headers of its packets.
    pub payload: &'a [u8],
    /// The number of stream bytes before its first packet.
    pub place: u64,
    /// The sequence id of the packet that follows it.
    pub next_seq: u8,
}

// What the bytes of a stream begin with.
enum Front {
    // A whole message, or a whole packet, of so many bytes without headers.
    Whole(usize),
    // Less than that: so many bytes are missing of the packet or its header.
    Part(u32),
    Wrong(FrameFault),
}

/// The bytes of a stream as they are fed, and its messages one after the other.
#[derive(Drop)]
pub struct Frames {
    store: Vec<u8>,
    // The message read last is from `start` to `end`, and what is unread is after `from`.
    start: usize,
    end: usize,
    from: usize,
    began: u64,
    place: u64,
    id: u8,
    limit: u32,
}

impl Model for Frames {
    ghost use Rattle.std.specs.Prelude.{◌+◌, ◌-◌, ◌^◌, ◌≤◌, drop, slice_range, vec_len, vec_capacity};
    ghost use Rattle.my_packets.specs.Unread.{Unread};

    ghost Value = { Unread };

    ghost view = { λ f. record { message = slice_range f.store.items f.start f.end; began = f.began; bytes = drop f.from f.store.items; place = f.place; id = f.id; limit = f.limit; room = vec_capacity f.store } };

    ghost invariant = { λ f. (f.start ≤ f.end) × (f.end ≤ f.from) × (f.from ≤ vec_len f.store) × (f.place + (vec_len f.store - f.from) ≤ 2 ^ 62) };
}

// What the packet in front is, where it has to have this sequence id and its message has room for so
// many bytes more.
#[inline]
#[tactic(auto, using(crate::proofs::Splits::packet_of_other))]
fn packet_front(bytes: &[u8], id: u8, room: u32) -> Front
    ensures { BeginsPacket room id bytes.now result }
{
    let [low, middle, high, found, payload @ ..] = bytes else {
        return Front::Part(4 - bytes.len() as u32);
    };
    let size = *low as usize + 256 * *middle as usize + 65536 * *high as usize;
    if *found != id {
        return Front::Wrong(FrameFault::BadSequence(*found, id));
    }
    if size > room as usize {
        return Front::Wrong(FrameFault::TooLong(size as u64));
    }
    if payload.len() < size {
        return Front::Part((size - payload.len()) as u32);
    }
    Front::Whole(size)
}

// What the bytes begin with, where the next packet has to have this sequence id.
#[inline]
fn front_of(bytes: &[u8], id: u8, limit: u32) -> Front
    ensures { HasFront limit id bytes.now result }
{
    match packet_front(bytes, id, limit) {
        Front::Whole(size) => {
            if size < FULL_SIZE {
                return Front::Whole(size);
            }
            front_of_full(bytes, id, limit)
        }
        Front::Part(more) => Front::Part(more),
        Front::Wrong(fault) => Front::Wrong(fault),
    }
}

// The same; the first packet may be full. (Apart, so that the path of short messages stays short.)
#[cold]
#[inline(never)]
fn front_of_full(bytes: &[u8], id: u8, limit: u32) -> Front
    ensures { HasFront limit id bytes.now result }
{
    let mut rest = bytes;
    let mut next = id;
    let mut before = 0;
    'packets: loop {
        match packet_front(rest, next, limit - before) {
            Front::Whole(size) => {
                if size < FULL_SIZE {
                    return Front::Whole(before as usize + size);
                }
                let (_, after) = rest.split_at(FULL_SIZE + 4);
                rest = after;
                next = next.wrapping_add(1);
                before += FULL_SIZE as u32;
            }
            Front::Wrong(FrameFault::TooLong(size)) => {
                return Front::Wrong(FrameFault::TooLong(u64::from(before) + size));
            }
            Front::Wrong(FrameFault::BadSequence(found, wanted)) => {
                return Front::Wrong(FrameFault::BadSequence(found, wanted));
            }
            Front::Part(more) => return Front::Part(more),
        }
    }
}

// How many packets a message of so many bytes has. (Most have one, and need no division.)
#[inline]
fn count_packets(size: usize) -> usize
    ensures { result ≡ packet_count size }
{
    if size < FULL_SIZE {
        return 1;
    }
    size / FULL_SIZE + 1
}

// Gives up so many bytes at the front.
fn give_up_front(store: &mut Vec<u8>, count: usize)
    requires { count ≤ vec_len store.old }

    ensures { store.new.items ≡ drop count store.old.items }
{
    let left = store.len() - count;
    store.copy_within(count.., 0);
    store.truncate(left);
}

// Lets go of the store where what is after `from` is nothing and there is more room than is kept, and
// answers where what is after `from` begins then.
fn shrink_store(store: &mut Vec<u8>, from: usize) -> usize
    requires in_store { from ≤ vec_len store.old }

    ensures place { result ≤ vec_len store.new }
    ensures bytes { drop result store.new.items ≡ drop from store.old.items }
    ensures size { vec_len store.new - result ≡ vec_len store.old - from }
    ensures room { vec_capacity store.new ≡
        room_left (drop from store.old.items) (vec_capacity store.old) }
    ensures most { drop from store.old.items ≡ [] → vec_capacity store.new ≤ 524288 }
{
    if from < store.len() {
        return from;
    }
    store.clear();
    if ROOM_KEPT < store.capacity() {
        store.shrink_to_fit();
    }
    0
}

// Closes the gaps that the headers of a message's further packets leave in it.
#[inline]
fn join(store: &mut Vec<u8>, from: usize, size: usize)
    requires in_store { from + size + 4 * packet_count size ≤ vec_len store.old }

    ensures length { vec_len store.new ≡ vec_len store.old }
    ensures room { vec_capacity store.new ≡ vec_capacity store.old }
    ensures joined { JoinsAt from size store.old.items store.new.items }
{
    if FULL_SIZE <= size {
        close_gaps(store, from + 4 + FULL_SIZE, size - FULL_SIZE);
    }
}

// Moves the payload of the packets that begin at `end`, so many bytes, to `end`, each byte once.
#[cold]
#[inline(never)]
fn close_gaps(store: &mut Vec<u8>, end: usize, size: usize)
    requires in_store { end + size + 4 * packet_count size ≤ vec_len store.old }

    ensures length { vec_len store.new ≡ vec_len store.old }
    ensures room { vec_capacity store.new ≡ vec_capacity store.old }
    ensures joined { ClosesAt end size store.old.items store.new.items }
{
    let mut to = end;
    let mut packet = end;
    let mut left = size;
    'full_packets: while FULL_SIZE <= left {
        store.copy_within(packet + 4..packet + 4 + FULL_SIZE, to);
        to += FULL_SIZE;
        packet += FULL_SIZE + 4;
        left -= FULL_SIZE;
    }
    store.copy_within(packet + 4..packet + 4 + left, to);
}

impl Frames {
    ghost use Rattle.my_packets.specs.contracts.frames.Frames.{the_row};

    /// A stream of which nothing was fed, whose first packet has sequence id 0. A message may have at
    /// most `limit` bytes, in all of its packets. Takes no memory.
    pub fn new(alloc: Global, limit: u32) -> Frames
        ensures { result ≡ record {
          message = [];
          began = 0;
          bytes = [];
          place = 0;
          id = 0;
          limit = limit;
          room = 0;
        } }
    {
        Frames {
            store: Vec::new(alloc),
            start: 0,
            end: 0,
            from: 0,
            began: 0,
            place: 0,
            id: 0,
            limit,
        }
    }

    /// The next packet has to have this sequence id. Bytes that were fed and not handed out begin that
    /// packet. Takes no memory.
    pub fn start(&mut self, seq: u8)
        ensures { self.new ≡ record self.old { id = seq } }
    {
        self.id = seq;
    }

    /// Adds bytes of the stream. A refusal, for want of memory, adds none. The payload read last is
    /// forgotten.
    pub fn feed(&mut self, piece: &[u8]) -> Result<(), OutOfMemory>
        requires in_all { self.old.place + length self.old.bytes + length piece.now ≤ 2 ^ 62 }

        ensures ok { OnOk result (self.new ≡ record self.old {
          message = [];
          bytes = self.old.bytes ++ piece.now;
          room = self.new.room;
        }) }
        ensures err { OnErr result
            (self.new ≡ record self.old { message = []; room = self.new.room }) }
    {
        let unread = self.store.len() - self.from;
        if unread == 0 || (KEPT <= self.from && unread <= self.from) {
            give_up_front(&mut self.store, self.from);
            self.from = 0;
        }
        self.start = self.from;
        self.end = self.from;
        self.store.extend_from_slice(piece)?;
        Ok(())
    }

    /// Lets go of the memory for received bytes where none of them is unread and there is room for more
    /// than 524,288; then there is room for at most so many. The payload read last is forgotten, whether
    /// or not memory was let go; its place and all else stay. Takes no memory.
    pub fn shrink(&mut self)
        ensures left { self.new ≡ record self.old {
          message = [];
          room = room_left self.old.bytes self.old.room;
        } }
        ensures most { self.old.bytes ≡ [] → self.new.room ≤ 524288 }
    {
        self.from = shrink_store(&mut self.store, self.from);
        self.start = self.from;
        self.end = self.from;
    }

    /// How many bytes are missing of the packet header or the packet that is being read; 0 exactly
    /// where [`Frames::next`] wouldn't answer `None`. Takes no memory.
    pub fn wants(&self) -> u32
        ensures { Wants self.now.limit self.now.id self.now.bytes result }
    {
        match front_of(&self.store[self.from..], self.id, self.limit) {
            Front::Part(more) => more,
            Front::Whole(_) => 0,
            Front::Wrong(_) => 0,
        }
    }

    /// Reads the next message where it is whole, and says whether it was; [`Frames::message`] lends
    /// it. Takes no memory. The faults are those of [`Frames::next`].
    pub fn step(&mut self) -> Result<bool, FrameFault>
        ensures { Steps self.old result self.new }
    {
        match front_of(&self.store[self.from..], self.id, self.limit) {
            Front::Whole(size) => {
                let packets = count_packets(size);
                let passed = size + 4 * packets;
                join(&mut self.store, self.from, size);
                self.began = self.place;
                self.start = self.from + 4;
                self.end = self.start + size;
                self.from += passed;
                self.place += passed as u64;
                self.id = self.id.wrapping_add((packets % 256) as u8);
                Ok(true)
            }
            Front::Part(_) => Ok(false),
            Front::Wrong(fault) => Err(fault),
        }
    }

    /// The message read last. Takes no memory.
    #[inline]
    pub fn message(&self) -> Message<'_>
        ensures { Shows result self.now }
    {
        Message {
            payload: &self.store[self.start..self.end],
            place: self.began,
            next_seq: self.id,
        }
    }

    /// The next message, lent out of the bytes that were fed. `None` exactly where they are less than
    /// a message. `BadSequence` and `TooLong` come exactly where the next packet has another id, or
    /// is announced with more bytes than the limit; the same fault is answered from then on. Takes
    /// no memory.
    pub fn next(&mut self) -> Result<Option<Message<'_>>, FrameFault>
        ensures* after { sem 𝓛 (Rests the_row self.entry (λ new. HandsOut self.old result new)) }
    {
        if self.step()? {
            return Ok(Some(self.message()));
        }
        Ok(None)
    }
}
