//! A message of which the front is kept.
ghost use Rattle.std.specs.Prelude.{ℕ, List, ◌≡◌, ◌+◌, ◌≤◌, ◌++◌, [], length, take, min};
ghost use Rattle.my_packets.specs.Front.{Wants};
ghost use Rattle.wire_forms.specs.Packet.{packet_header, packets};
ghost use Rattle.my_packets.specs.Skims.{Feeds, Skims, fault_of, wanted};

use crate::frame::FULL_SIZE;
use crate::frames::FrameFault;
use std::marker::Model;

// So many payload bytes are kept.
const KEPT: usize = 1024;

// What is read of the message next.
#[derive(Clone, Copy)]
enum Stage {
    // A packet's header.
    Header,
    // A packet of so many payload bytes, of which so many are missing.
    Packet(u32, u32),
    // Nothing: the message is whole.
    Whole,
    // Nothing: a packet is wrong.
    Wrong(FrameFault),
}

// What a header says of its packet.
#[derive(Clone, Copy)]
struct Announced {
    size: u32,
    id: u8,
}

/// Reads one message, of which it keeps the first 1,024 bytes. It takes no memory.
#[derive(Drop)]
pub struct Skim {
    kept: [u8; KEPT],
    kept_size: usize,
    stage: Stage,
    header: [u8; 4],
    header_size: usize,
    total: u32,
    id: u8,
    limit: u32,
}

impl Model for Skim {
    ghost use Rattle.std.specs.Prelude.{◌≤◌, take};
    ghost use Rattle.my_packets.specs.Skimmed.{Skimmed};

    ghost Value = { Skimmed };

    ghost view = { λ s. record { kept = take s.kept_size s.kept; stage = s.stage; header = take s.header_size s.header; total = s.total; id = s.id; limit = s.limit } };

    ghost invariant = { λ s. (s.kept_size ≤ 1024) × (s.header_size ≤ 4) × (s.total ≤ s.limit) };
}

impl Skim {
    /// A skim of a message whose first packet has this sequence id, and which may have at most `limit`
    /// bytes.
    pub fn new(seq: u8, limit: u32) -> Skim
        ensures fed { Skims seq limit [] result }
        ensures right { fault_of result ≡ None }
    {
        Skim {
            kept: [0; KEPT],
            kept_size: 0,
            stage: Stage::Header,
            header: [0; 4],
            header_size: 0,
            total: 0,
            id: seq,
            limit,
        }
    }

    /// How many bytes are missing of the packet header or the packet that is being read; 0 exactly
    /// where the message is whole or a packet is wrong.
    pub fn wants(&self) -> u32
        ensures value { result ≡ wanted self.now }
        ensures wants { (seq limit : ℕ) (fed : List ℕ) → Skims seq limit fed self.now →
            Wants limit seq fed result }
    {
        match self.stage {
            Stage::Header => 4 - self.header_size as u32,
            Stage::Packet(_, left) => left,
            Stage::Whole => 0,
            Stage::Wrong(_) => 0,
        }
    }

    /// Reads bytes of the message, at most as many as are wanted. `BadSequence` and `TooLong` come
    /// exactly where a packet has another id than it should have, or with it more bytes are announced
    /// than the limit; nothing is wanted then, and the same fault is answered from then on.
    pub fn feed(&mut self, piece: &[u8]) -> Result<(), FrameFault>
        requires within { length piece.now ≤ wanted self.old }

        ensures { Feeds self.old piece.now result self.new }
    {
        match self.stage {
            Stage::Header => self.feed_header(piece),
            Stage::Packet(size, left) => {
                self.feed_packet(piece, size, left);
                Ok(())
            }
            Stage::Whole => Ok(()),
            Stage::Wrong(fault) => Err(fault),
        }
    }

    // Reads bytes of a packet's header.
    fn feed_header(&mut self, piece: &[u8]) -> Result<(), FrameFault>
        requires stage { self.old.stage ≡ Stage.Header }
        requires within { length self.old.header + length piece.now ≤ 4 }

        ensures { Feeds self.old piece.now result self.new }
    {
        self.header_size = fill(&mut self.header, self.header_size, piece);
        if self.header_size < self.header.len() {
            return Ok(());
        }
        let packet = read_header(&self.header);
        if packet.id != self.id {
            let fault = FrameFault::BadSequence(packet.id, self.id);
            self.stage = Stage::Wrong(fault);
            return Err(fault);
        }
        if packet.size > self.limit - self.total {
            let fault = FrameFault::TooLong(u64::from(self.total) + u64::from(packet.size));
            self.stage = Stage::Wrong(fault);
            return Err(fault);
        }
        if packet.size == 0 {
            self.stage = Stage::Whole;
            return Ok(());
        }
        self.total += packet.size;
        self.stage = Stage::Packet(packet.size, packet.size);
        Ok(())
    }

    // Reads payload bytes of a packet of so many, of which so many are missing.
    fn feed_packet(&mut self, piece: &[u8], size: u32, left: u32)
        requires stage { self.old.stage ≡ Stage.Packet size left }
        requires within { length piece.now ≤ left }

        ensures { Feeds self.old piece.now (Ok tt) self.new }
    {
        self.kept_size = fill(&mut self.kept, self.kept_size, piece);
        let missing = left - piece.len() as u32;
        if 0 < missing {
            self.stage = Stage::Packet(size, missing);
            return;
        }
        if (size as usize) < FULL_SIZE {
            self.stage = Stage::Whole;
            return;
        }
        self.stage = Stage::Header;
        self.header_size = 0;
        self.id = self.id.wrapping_add(1);
    }

    /// The first 1,024 bytes of the message, or all where there are fewer.
    pub fn kept(&self) -> &[u8]
        ensures value { result.now ≡ self.now.kept }
        ensures message { (seq limit : ℕ) (fed message : List ℕ) → Skims seq limit fed self.now →
            fed ≡ packets seq message → result.now ≡ take 1024 message }
    {
        &self.kept[..self.kept_size]
    }
}

// Puts bytes after the first `size`, as many as there is room for, and answers how many there are
// then.
#[inline]
fn fill(place: &mut [u8], size: usize, piece: &[u8]) -> usize
    requires { size ≤ length place.old }

    ensures filled { take result place.new ≡
        take (length place.old) (take size place.old ++ piece.now) }
    ensures size { result ≡ min (length place.old) (size + length piece.now) }
{
    let count = piece.len().min(place.len() - size);
    place[size..size + count].copy_from_slice(&piece[..count]);
    size + count
}

// What a header says.
#[inline]
fn read_header(header: &[u8]) -> Announced
    requires { length header.now ≡ 4 }

    ensures small { result.size ≤ 16777215 }
    ensures header { header.now ≡ packet_header result.size result.id }
{
    let [low, middle, high, id] = header else {
        return Announced { size: 0, id: 0 };
    };
    Announced {
        size: u32::from(*low) + 256 * u32::from(*middle) + 65536 * u32::from(*high),
        id: *id,
    }
}
