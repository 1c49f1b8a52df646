//! Packets as they are written and read, and messages in any pieces.
ghost use Rattle.std.specs.Prelude.{◌≡◌, [], true, IsSome};

use crate::long_messages::{add_fault, faults_of_long, framed_long, read_long, skimmed_long};
use crate::words::{
    add_bytes, add_counted, add_named, add_number, add_text, byte_and_rest, bytes_of,
    limit_and_rest,
};
use my_packets::{FrameFault, Frames, Message, Skim, frame_into, header};
use plain_data::OutOfMemory;
use std::alloc::Global;

// No case has so many bytes.
const MOST: usize = 1_000_000;

// The server's answer to a command, an OK packet, after the command's own packet 0.
const OK: [u8; 11] = [7, 0, 0, 1, 0, 0, 0, 2, 0, 0, 0];

/// Adds what comes of a call on packets. A refusal is for want of memory.
pub fn answer(out: &mut String, alloc: Global, call: &str, words: &str) -> Result<(), OutOfMemory> {
    match call {
        "frame_into" => framed(out, alloc, words),
        "header" => add_header(out, words),
        "frame_long" => framed_long(out, alloc, words),
        "read_long" => read_long(out, alloc, words),
        "faults_of_long" => faults_of_long(out, alloc, words),
        "skim_long" => skimmed_long(out, alloc, words),
        _ => of_stream(out, alloc, call, &stream_of(alloc, words)?),
    }
}

// The bytes of a stream, the most bytes that a message of it may have, and the sequence id that is awaited.
#[derive(Drop)]
struct Stream {
    limit: u32,
    id: u8,
    bytes: Vec<u8>,
}

// `LIMIT ID BYTES`.
fn stream_of(alloc: Global, words: &str) -> Result<Stream, OutOfMemory> {
    let (limit, rest) = limit_and_rest(words);
    let (id, rest) = byte_and_rest(rest);
    let bytes = bytes_of(alloc, rest)?;
    Ok(Stream { limit, id, bytes })
}

// What comes of a call on a stream.
fn of_stream(
    out: &mut String,
    alloc: Global,
    call: &str,
    stream: &Stream,
) -> Result<(), OutOfMemory> {
    match call {
        "frames" => cut_anywhere(out, alloc, stream),
        "frames_by_bytes" => by_bytes(out, alloc, stream),
        "frames_fault" => fault_stays(out, alloc, stream),
        "skim" => skimmed(out, stream),
        _ => add_text(out, "no such call"),
    }
}

fn framed(out: &mut String, alloc: Global, words: &str) -> Result<(), OutOfMemory> {
    let (id, rest) = byte_and_rest(words);
    let message = bytes_of(alloc, rest)?;
    let mut packets = Vec::new(alloc);
    add_framed(out, &mut packets, id, &message)
}

// The packets of a message, which are written to an empty list first, and the id after them.
fn add_framed(
    out: &mut String,
    packets: &mut Vec<u8>,
    id: u8,
    message: &[u8],
) -> Result<(), OutOfMemory> {
    if message.len() > MOST {
        return add_text(out, "too long a case");
    }
    let next = frame_into(message, id, packets)?;
    add_bytes(out, packets)?;
    add_counted(out, ", next ", u64::from(next))
}

fn add_header(out: &mut String, words: &str) -> Result<(), OutOfMemory> {
    let (id, rest) = byte_and_rest(words);
    let (length, _) = limit_and_rest(rest);
    if length >= 16_777_215 {
        return add_text(out, "too long a case");
    }
    add_bytes(out, &header(length, id))
}

// A reader that awaits the stream's sequence id.
fn awaiting(alloc: Global, stream: &Stream) -> Frames
    ensures bytes { result.bytes ≡ [] }
    ensures place { result.place ≡ 0 }
{
    let mut frames = Frames::new(alloc, stream.limit);
    frames.start(stream.id);
    frames
}

fn add_message(out: &mut String, message: Message<'_>) -> Result<(), OutOfMemory> {
    add_bytes(out, message.payload)?;
    add_counted(out, " at ", message.place)?;
    add_counted(out, " next ", u64::from(message.next_seq))?;
    add_text(out, ", ")
}

// Adds the messages that are whole, or the fault; then how many bytes are wanted.
fn add_all(out: &mut String, frames: &mut Frames) -> Result<(), OutOfMemory> {
    'messages: for _ in 0..MOST {
        match frames.next() {
            Ok(Some(message)) => add_message(out, message)?,
            Ok(None) => break,
            Err(fault) => {
                add_fault(out, fault)?;
                add_text(out, ", ")?;
                break;
            }
        }
    }
    add_counted(out, "wants ", u64::from(frames.wants()))
}

// What is read of bytes that are cut at some place; it has to be the same at each.
fn cut_anywhere(out: &mut String, alloc: Global, stream: &Stream) -> Result<(), OutOfMemory> {
    add_cut(out, alloc, stream, stream.bytes.len())?;
    let mut found = String::new(alloc);
    match other_cut(&mut found, alloc, stream, out.as_str())? {
        Some(cut) => {
            add_counted(out, ", and cut at ", cut as u64)?;
            add_text(out, found.as_str())
        }
        None => Ok(()),
    }
}

// The first place such that something else is read of the bytes cut there; that is left in `found`.
fn other_cut(
    found: &mut String,
    alloc: Global,
    stream: &Stream,
    whole: &str,
) -> Result<Option<usize>, OutOfMemory> {
    for cut in 0..stream.bytes.len() {
        found.clear();
        add_cut(found, alloc, stream, cut)?;
        if found.as_str() != whole {
            return Ok(Some(cut));
        }
    }
    Ok(None)
}

// The messages of bytes in two pieces.
fn add_cut(
    out: &mut String,
    alloc: Global,
    stream: &Stream,
    cut: usize,
) -> Result<(), OutOfMemory> {
    let (first, second) = stream.bytes.split_at(cut.min(stream.bytes.len()));
    let mut frames = awaiting(alloc, stream);
    add_pieces(out, &mut frames, first, second)
}

fn add_pieces(
    out: &mut String,
    frames: &mut Frames,
    first: &[u8],
    second: &[u8],
) -> Result<(), OutOfMemory>
    requires bytes { frames.old.bytes ≡ [] }
    requires place { frames.old.place ≡ 0 }
{
    if first.len() > MOST || second.len() > MOST {
        return add_text(out, "too long a case");
    }
    frames.feed(first)?;
    if !is_right(frames) {
        return add_text(out, "a message while bytes are wanted");
    }
    frames.feed(second)?;
    add_all(out, frames)
}

// How many bytes are wanted before each byte, as long as no message is there, and what comes then.
fn by_bytes(out: &mut String, alloc: Global, stream: &Stream) -> Result<(), OutOfMemory> {
    let mut frames = awaiting(alloc, stream);
    add_by_bytes(out, &mut frames, &stream.bytes)
}

fn add_by_bytes(out: &mut String, frames: &mut Frames, bytes: &[u8]) -> Result<(), OutOfMemory>
    requires bytes { frames.old.bytes ≡ [] }
    requires place { frames.old.place ≡ 0 }
{
    if bytes.len() > MOST {
        return add_text(out, "too long a case");
    }
    for fed in 0..bytes.len() {
        add_wanted(out, frames.wants())?;
        if !is_waiting(frames) {
            return Ok(());
        }
        frames.feed(&bytes[fed..fed + 1])?;
    }
    add_all(out, frames)
}

// How many bytes are wanted, and a space.
fn add_wanted(out: &mut String, count: u32) -> Result<(), OutOfMemory> {
    add_number(out, u64::from(count))?;
    add_text(out, " ")
}

// Whether no message is whole where bytes are wanted.
fn is_right(frames: &mut Frames) -> bool
    ensures { result ≡ true → frames.new ≡ frames.old }
{
    if frames.wants() == 0 {
        return true;
    }
    is_waiting(frames)
}

// Whether no message is whole, and none is wrong.
fn is_waiting(frames: &mut Frames) -> bool
    ensures { result ≡ true → frames.new ≡ frames.old }
{
    match frames.step() {
        Ok(found) => !found,
        Err(_) => false,
    }
}

// The fault that is answered, where one is.
fn fault_of(frames: &mut Frames) -> Option<FrameFault>
    ensures { IsSome result → frames.new ≡ frames.old }
{
    match frames.step() {
        Ok(_) => None,
        Err(fault) => Some(fault),
    }
}

// The fault that is answered to the bytes, that of the next call, and that after a message more.
fn fault_stays(out: &mut String, alloc: Global, stream: &Stream) -> Result<(), OutOfMemory> {
    let mut frames = awaiting(alloc, stream);
    add_faults(out, &mut frames, &stream.bytes)
}

fn add_faults(out: &mut String, frames: &mut Frames, bytes: &[u8]) -> Result<(), OutOfMemory>
    requires bytes { frames.old.bytes ≡ [] }
    requires place { frames.old.place ≡ 0 }
{
    if bytes.len() > MOST {
        return add_text(out, "too long a case");
    }
    frames.feed(bytes)?;
    let Some(first) = fault_of(frames) else {
        return add_text(out, "no fault");
    };
    let Some(second) = fault_of(frames) else {
        return add_text(out, "no fault again");
    };
    frames.feed(&OK)?;
    let Some(third) = fault_of(frames) else {
        return add_text(out, "no fault after more");
    };
    write!(out, "{first}, {second}, {third}")?;
    Ok(())
}

// How many bytes are wanted before each byte of a message, how many in the end, and what is kept; a
// fault is answered again.
fn skimmed(out: &mut String, stream: &Stream) -> Result<(), OutOfMemory> {
    let mut skim = Skim::new(stream.id, stream.limit);
    skim_by_bytes(out, &mut skim, &stream.bytes)?;
    add_kept(out, &mut skim)
}

fn skim_by_bytes(out: &mut String, skim: &mut Skim, bytes: &[u8]) -> Result<(), OutOfMemory> {
    for byte in bytes.chunks(1) {
        add_wanted(out, skim.wants())?;
        if skim.wants() == 0 {
            return Ok(());
        }
        if let Err(fault) = skim.feed(byte) {
            add_fault(out, fault)?;
            return add_text(out, ", ");
        }
    }
    Ok(())
}

fn add_kept(out: &mut String, skim: &mut Skim) -> Result<(), OutOfMemory> {
    let end = skim.feed(&[]);
    add_counted(out, "wants ", u64::from(skim.wants()))?;
    match end {
        Ok(()) => add_named(out, ", keeps ", skim.kept()),
        Err(fault) => {
            add_text(out, ", ")?;
            add_fault(out, fault)
        }
    }
}
