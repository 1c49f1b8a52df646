//! Messages of several packets.
ghost use Rattle.std.specs.Prelude.{◌≡◌, ◌<◌, ◌+◌, ◌^◌, [], length};

use crate::words::{add_bytes, add_counted, add_number, add_text, byte_and_rest, limit_and_rest};
use my_packets::{FrameFault, Frames, Message, Skim, frame_into};
use plain_data::OutOfMemory;
use std::alloc::Global;

// A message has at most so many bytes, 64 MiB.
const MOST: usize = 67_108_864;

// A message whose bytes differ from place to place: 0 to 250, and again; its packets, and the id after them.
#[derive(Drop)]
struct Long {
    message: Vec<u8>,
    packets: Vec<u8>,
    next: u8,
}

// The message of so many bytes, in packets from this id on.
fn long_of(alloc: Global, size: u32, id: u8) -> Result<Long, OutOfMemory> {
    let mut long = Long {
        message: Vec::new(alloc),
        packets: Vec::new(alloc),
        next: 0,
    };
    add_pattern(&mut long.message, size as usize)?;
    long.next = add_packets(&mut long.packets, id, &long.message)?;
    Ok(long)
}

fn add_pattern(bytes: &mut Vec<u8>, size: usize) -> Result<(), OutOfMemory> {
    bytes.reserve(size)?;
    for i in 0..size {
        bytes.push((i % 251) as u8)?;
    }
    Ok(())
}

fn add_packets(packets: &mut Vec<u8>, id: u8, message: &[u8]) -> Result<u8, OutOfMemory> {
    frame_into(&message[..message.len().min(MOST)], id, packets)
}

/// `frame_long ID SIZE`: adds the first four bytes of the packets, the last five, how many there are, and the
/// id after them. A refusal is for want of memory.
pub fn framed_long(out: &mut String, alloc: Global, words: &str) -> Result<(), OutOfMemory> {
    let (id, rest) = byte_and_rest(words);
    let (size, _) = limit_and_rest(rest);
    let long = long_of(alloc, size, id)?;
    add_ends(out, &long.packets)?;
    add_counted(out, ", next ", u64::from(long.next))
}

// The first four bytes, the last five, and how many there are.
fn add_ends(out: &mut String, packets: &[u8]) -> Result<(), OutOfMemory> {
    let count = packets.len();
    add_bytes(out, &packets[..count.min(4)])?;
    add_text(out, " to ")?;
    add_bytes(out, &packets[count - count.min(5)..])?;
    add_counted(out, ", ", count as u64)?;
    add_text(out, " bytes")
}

/// `read_long ID SIZE FIRST PIECE`: adds what is read of the packets of a message, of which so many bytes are
/// fed first, and then pieces of so many. A refusal is for want of memory.
pub fn read_long(out: &mut String, alloc: Global, words: &str) -> Result<(), OutOfMemory> {
    let (id, rest) = byte_and_rest(words);
    let (size, pieces) = limit_and_rest(rest);
    let long = long_of(alloc, size, id)?;
    let mut frames = Frames::new(alloc, MOST as u32);
    frames.start(id);
    add_read(out, &mut frames, &long, pieces)
}

// `FIRST PIECE`: what is read of the packets in these pieces.
fn add_read(
    out: &mut String,
    frames: &mut Frames,
    long: &Long,
    pieces: &str,
) -> Result<(), OutOfMemory>
    requires bytes { frames.old.bytes ≡ [] }
    requires place { frames.old.place ≡ 0 }
{
    if long.packets.len() > 2 * MOST {
        return add_text(out, "too long a case");
    }
    let (first, rest) = limit_and_rest(pieces);
    let (piece, _) = limit_and_rest(rest);
    let (front, rest) = long
        .packets
        .split_at((first as usize).min(long.packets.len()));
    frames.feed(front)?;
    if !feed_all(frames, rest, piece as usize)? {
        return add_text(out, "nothing was wanted before the last piece");
    }
    add_message(out, frames, &long.message)
}

// Feeds bytes in pieces of so many, and answers whether some were wanted before each.
fn feed_all(frames: &mut Frames, bytes: &[u8], size: usize) -> Result<bool, OutOfMemory>
    requires place { frames.old.place ≡ 0 }
    requires small { length frames.old.bytes + length bytes.now < 2 ^ 32 }
{
    let mut rest = bytes;
    'pieces: for _ in 0..u64::MAX {
        if rest.is_empty() {
            break;
        }
        if frames.wants() == 0 {
            return Ok(false);
        }
        let (piece, left) = rest.split_at(size.min(rest.len()));
        frames.feed(piece)?;
        rest = left;
    }
    Ok(true)
}

// Whether the message that is read is this one, where it begins, and the id after it.
fn add_message(out: &mut String, frames: &mut Frames, message: &[u8]) -> Result<(), OutOfMemory> {
    if frames.wants() != 0 {
        return add_text(out, "bytes are wanted after the last piece");
    }
    match frames.next() {
        Ok(Some(read)) => add_place(out, read, message),
        Ok(None) => add_text(out, "no message"),
        Err(fault) => add_fault(out, fault),
    }
}

// Whether a message is this one, where it begins, and the id after it.
fn add_place(out: &mut String, read: Message<'_>, message: &[u8]) -> Result<(), OutOfMemory> {
    if read.payload != message {
        return add_text(out, "another message");
    }
    add_counted(out, "the message, at ", read.place)?;
    add_counted(out, " next ", u64::from(read.next_seq))
}

/// `faults_of_long LIMIT SIZE COUNT LAST`: of the packets of a message, from id 0 on, so many bytes are
/// read, the last of which is set to this; adds what the reader of a stream answers, and what a skim
/// does. A refusal is for want of memory.
pub fn faults_of_long(out: &mut String, alloc: Global, words: &str) -> Result<(), OutOfMemory> {
    let (limit, rest) = limit_and_rest(words);
    let (size, front) = limit_and_rest(rest);
    let mut long = long_of(alloc, size, 0)?;
    cut(&mut long.packets, front);
    let mut frames = Frames::new(alloc, limit);
    add_fault_of_frames(out, &mut frames, &long.packets)?;
    add_text(out, "; ")?;
    add_fault_of_skim(out, &long.packets, limit)
}

// `COUNT LAST`: cuts bytes down to so many, and sets the last of them.
fn cut(bytes: &mut Vec<u8>, front: &str) {
    let (count, rest) = limit_and_rest(front);
    let (last, _) = byte_and_rest(rest);
    bytes.truncate(count as usize);
    if let Some(byte) = bytes.last_mut() {
        *byte = last;
    }
}

/// Adds why the bytes of a stream hold no further message.
pub fn add_fault(out: &mut String, fault: FrameFault) -> Result<(), OutOfMemory> {
    write!(out, "{fault}")?;
    Ok(())
}

fn add_fault_of_frames(
    out: &mut String,
    frames: &mut Frames,
    bytes: &[u8],
) -> Result<(), OutOfMemory>
    requires bytes { frames.old.bytes ≡ [] }
    requires place { frames.old.place ≡ 0 }
{
    if bytes.len() > 2 * MOST {
        return add_text(out, "too long a case");
    }
    frames.feed(bytes)?;
    match frames.step() {
        Ok(_) => add_text(out, "no fault"),
        Err(fault) => add_fault(out, fault),
    }
}

fn add_fault_of_skim(out: &mut String, bytes: &[u8], limit: u32) -> Result<(), OutOfMemory> {
    let mut skim = Skim::new(0, limit);
    match skim_all(&mut skim, bytes, 1_048_576) {
        Ok(_) => add_text(out, "no fault"),
        Err(fault) => add_fault(out, fault),
    }
}

// Feeds bytes as far as they are wanted, in pieces of so many, and answers how many are left.
fn skim_all(skim: &mut Skim, bytes: &[u8], size: usize) -> Result<usize, FrameFault> {
    let mut rest = bytes;
    for _ in 0..u64::MAX {
        let count = (skim.wants() as usize).min(size).min(rest.len());
        if count == 0 {
            return Ok(rest.len());
        }
        let (piece, left) = rest.split_at(count);
        skim.feed(piece)?;
        rest = left;
    }
    Ok(rest.len())
}

/// `skim_long LIMIT ID SIZE PIECE`: adds how many bytes are left of a message that comes in pieces of so many,
/// and what is kept of it. A refusal is for want of memory.
pub fn skimmed_long(out: &mut String, alloc: Global, words: &str) -> Result<(), OutOfMemory> {
    let (limit, rest) = limit_and_rest(words);
    let (id, rest) = byte_and_rest(rest);
    let (size, piece) = limit_and_rest(rest);
    let long = long_of(alloc, size, id)?;
    let mut skim = Skim::new(id, limit);
    add_skimmed(out, &mut skim, &long, piece)
}

// `PIECE`: how many bytes are left of the packets in pieces of so many, and what is kept.
fn add_skimmed(
    out: &mut String,
    skim: &mut Skim,
    long: &Long,
    piece: &str,
) -> Result<(), OutOfMemory> {
    let (size, _) = limit_and_rest(piece);
    match skim_all(skim, &long.packets, size as usize) {
        Ok(left) => add_kept(out, skim.kept(), &long.message, left),
        Err(fault) => add_fault(out, fault),
    }
}

fn add_kept(out: &mut String, kept: &[u8], message: &[u8], left: usize) -> Result<(), OutOfMemory> {
    if !message.starts_with(kept) {
        return add_text(out, "other bytes are kept");
    }
    add_number(out, left as u64)?;
    add_counted(out, " are left, and the first ", kept.len() as u64)?;
    add_text(out, " are kept")
}
