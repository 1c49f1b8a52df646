//! The packets of a message.
ghost use Rattle.std.specs.Prelude.{◌≡◌, ◌+◌, ◌<◌, ◌≤◌, ◌++◌, length, vec_len, vec_capacity, IfOk, IsOk, OnOk, OnErr};
ghost use Rattle.wire_forms.specs.Packet.{packet, packet_header, packet_count, packets, id_after};

use plain_data::OutOfMemory;

/// A packet has at most so many payload bytes; with so many it is full, and its message goes on in the
/// next packet.
pub(crate) const FULL_SIZE: usize = 16_777_215;

/// The header of the last packet of a message: the length of the packet's payload, and its sequence
/// id. Takes no memory.
pub fn header(length: u32, seq: u8) -> [u8; 4]
    requires not_full { length < 16777215 }

    ensures { result ≡ packet_header length seq }
{
    header_of(length as usize, seq)
}

/// Appends the packets of a message, the first with this sequence id, and answers the id after the
/// last. A refusal, for want of memory, leaves `out` as it was.
pub fn frame_into(message: &[u8], seq: u8, out: &mut Vec<u8>) -> Result<u8, OutOfMemory>
    requires within { length message.now ≤ 67108864 }

    ensures ok { OnOk result (out.new.items ≡ out.old.items ++ packets seq message.now) }
    ensures next { IfOk result (λ next. next ≡ id_after (packet_count (length message.now)) seq) }
    ensures err { OnErr result (out.new.items ≡ out.old.items) }
{
    out.reserve(message.len() + 4 * (message.len() / FULL_SIZE + 1))?;
    let mut rest = message;
    let mut id = seq;
    'full_packets: while FULL_SIZE <= rest.len() {
        let (payload, after) = rest.split_at(FULL_SIZE);
        packet_into(payload, id, out)?;
        rest = after;
        id = id.wrapping_add(1);
    }
    packet_into(rest, id, out)?;
    Ok(id.wrapping_add(1))
}

// Appends one packet. Where there is room, it takes no memory.
fn packet_into(payload: &[u8], id: u8, out: &mut Vec<u8>) -> Result<(), OutOfMemory>
    requires one_packet { length payload.now ≤ 16777215 }

    ensures ok { OnOk result (out.new.items ≡ out.old.items ++ packet id payload.now) }
    ensures len { OnOk result (vec_len out.new ≡ vec_len out.old + 4 + length payload.now) }
    ensures room { vec_len out.old + 4 + length payload.now ≤ vec_capacity out.old → IsOk result }
    ensures capacity { vec_capacity out.old ≤ vec_capacity out.new }
{
    out.extend_from_slice(&header_of(payload.len(), id))?;
    out.extend_from_slice(payload)?;
    Ok(())
}

#[inline]
fn header_of(size: usize, id: u8) -> [u8; 4]
    requires one_packet { size ≤ 16777215 }

    ensures { result ≡ packet_header size id }
{
    [
        (size % 256) as u8,
        (size / 256 % 256) as u8,
        (size / 65536) as u8,
        id,
    ]
}
