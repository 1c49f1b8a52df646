//! Replies, message by message.
use crate::words::{
    add_bytes, add_counted, add_named, add_number, add_refusal, add_text, add_truth, bytes_of,
    ends_and_rest, limit_and_rest,
};
use my_packets::Message;
use plain_data::OutOfMemory;
use result_rows::{ReplyFault, Row, RowReader, Turn, is_ok_packet, refusal_read};
use std::alloc::Global;
use wire_forms::Reply;

/// Adds what comes of a call on a reply; its messages are read by this reader. A refusal is for want of
/// memory.
pub fn answer(
    out: &mut String,
    alloc: Global,
    reader: &mut RowReader,
    call: &str,
    words: &str,
) -> Result<(), OutOfMemory> {
    match call {
        "new" => begin(out, reader, words),
        "long" => long_message(out, alloc, reader, words),
        "long_refusal" => long_refusal(out, alloc, words),
        _ => read(out, reader, call, &bytes_of(alloc, words)?),
    }
}

// What comes of a call on a payload.
fn read(
    out: &mut String,
    reader: &mut RowReader,
    call: &str,
    payload: &[u8],
) -> Result<(), OutOfMemory> {
    match call {
        "first" => add_reply(out, reader.first(payload)),
        "more" => more(out, reader, payload),
        "refusal" => read_refusal(out, payload),
        "is_ok_packet" => add_truth(out, is_ok_packet(payload)),
        _ => add_text(out, "no such call"),
    }
}

// `new ENDS`: the replies that follow are read by a new reader, of result sets that end so.
fn begin(out: &mut String, reader: &mut RowReader, words: &str) -> Result<(), OutOfMemory> {
    let (ends, _) = ends_and_rest(words);
    *reader = RowReader::new(ends);
    let is_pending = reader.is_pending();
    add_text(out, if is_pending { "pending" } else { "idle" })
}

// A further message, which began at place 40.
fn more(out: &mut String, reader: &mut RowReader, payload: &[u8]) -> Result<(), OutOfMemory> {
    if !reader.is_pending() {
        return add_text(out, "nothing is pending");
    }
    let message = Message {
        payload,
        place: 40,
        next_seq: 2,
    };
    match reader.more(message) {
        Ok(turn) => add_turn(out, turn),
        Err(fault) => add_fault(out, fault),
    }
}

fn add_reply(out: &mut String, reply: Result<Reply, ReplyFault>) -> Result<(), OutOfMemory> {
    match reply {
        Ok(Reply::Done) => add_text(out, "done"),
        Ok(Reply::Refused(refusal)) => add_refusal(out, &refusal),
        Ok(Reply::Columns(count)) => {
            add_number(out, u64::from(count))?;
            add_text(out, " columns")
        }
        Err(fault) => add_fault(out, fault),
    }
}

fn add_fault(out: &mut String, fault: ReplyFault) -> Result<(), OutOfMemory> {
    write!(out, "{fault}")?;
    Ok(())
}

fn add_turn(out: &mut String, turn: Turn<'_>) -> Result<(), OutOfMemory> {
    match turn {
        Turn::Definition => add_text(out, "definition"),
        Turn::Row(row) => add_row(out, row),
        Turn::End => add_text(out, "end"),
        Turn::Refused(refusal) => add_refusal(out, &refusal),
    }
}

fn read_refusal(out: &mut String, payload: &[u8]) -> Result<(), OutOfMemory> {
    match refusal_read(payload) {
        Some(refusal) => add_refusal(out, &refusal),
        None => add_text(out, "none"),
    }
}

fn add_row(out: &mut String, row: Row<'_>) -> Result<(), OutOfMemory> {
    add_counted(out, "row of ", u64::from(row.columns()))?;
    add_counted(out, " at ", row.place())?;
    add_text(out, ":")?;
    for cell in row.cells() {
        add_cell(out, cell)?;
    }
    if row.columns() > 0 {
        add_text(out, ", the last is")?;
        add_cell(out, row.cell(row.columns() - 1))?;
    }
    Ok(())
}

fn add_cell(out: &mut String, cell: Option<&[u8]>) -> Result<(), OutOfMemory> {
    match cell {
        Some(bytes) => {
            add_named(out, " '", bytes)?;
            add_text(out, "'")
        }
        None => add_text(out, " NULL"),
    }
}

// `long SIZE`: how a further message of so many bytes is read, of which the first is fe, the next are the
// length of what stands after the first nine, and the others are 01.
fn long_message(
    out: &mut String,
    alloc: Global,
    reader: &mut RowReader,
    words: &str,
) -> Result<(), OutOfMemory> {
    let (size, _) = limit_and_rest(words);
    let mut payload = Vec::new(alloc);
    spell_long(&mut payload, size)?;
    add_long(out, reader, &payload)
}

fn spell_long(payload: &mut Vec<u8>, size: u32) -> Result<(), OutOfMemory> {
    payload.push(0xfe)?;
    payload.extend_from_slice(&u64::from(size.saturating_sub(9)).to_le_bytes())?;
    payload.resize((size as usize).max(9), 1)?;
    Ok(())
}

// How a further message is read; of a row only the number of its cells is said.
fn add_long(out: &mut String, reader: &mut RowReader, payload: &[u8]) -> Result<(), OutOfMemory> {
    if !reader.is_pending() {
        return add_text(out, "nothing is pending");
    }
    let message = Message {
        payload,
        place: 40,
        next_seq: 2,
    };
    match reader.more(message) {
        Ok(Turn::Row(row)) => add_counted(out, "row of ", u64::from(row.columns())),
        Ok(turn) => add_turn(out, turn),
        Err(fault) => add_fault(out, fault),
    }
}

// `long_refusal SIZE`: how much is kept of a message of so many bytes.
fn long_refusal(out: &mut String, alloc: Global, words: &str) -> Result<(), OutOfMemory> {
    let (size, _) = limit_and_rest(words);
    let mut payload = Vec::new(alloc);
    spell_refusal(&mut payload, size)?;
    add_kept(out, &payload)
}

fn spell_refusal(payload: &mut Vec<u8>, size: u32) -> Result<(), OutOfMemory> {
    payload.extend_from_slice(b"\xff\x78\x78")?;
    for i in 0..size {
        payload.push((i % 251) as u8)?;
    }
    Ok(())
}

// How much is kept of the message of an ERR without a state.
fn add_kept(out: &mut String, payload: &[u8]) -> Result<(), OutOfMemory> {
    let Some(refusal) = refusal_read(payload) else {
        return add_text(out, "none");
    };
    let kept = refusal.message.as_slice();
    if !payload[3.min(payload.len())..].starts_with(kept) {
        return add_text(out, "other bytes are kept");
    }
    add_counted(out, "the first ", kept.len() as u64)?;
    add_text(out, " are kept")
}
