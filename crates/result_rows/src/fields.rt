//! The fields of the packets that a reply consists of.
ghost use Rattle.std.specs.Prelude.{◌≡◌, option_map, option_copied};
ghost use Rattle.wire_forms.specs.Row.{front_of, string_of};
ghost use Rattle.wire_forms.specs.Definition.{after_strings, is_fixed_part, is_definition, column_count};
ghost use Rattle.wire_forms.specs.Reply.{after_number, are_ok_fields, is_ok_packet, is_ending_ok, is_eof_packet};

use my_packets::lenenc_read;

// A message of so many bytes fills a packet.
pub(crate) const FULL_SIZE: usize = 16_777_215;

// So many bytes at the front, and the rest, where there are so many.
#[inline]
fn front_of(bytes: &[u8], size: u64) -> Option<(&[u8], &[u8])>
    ensures { option_map (λ parts. (parts.0.now, parts.1.now)) result ≡ front_of size bytes.now }
{
    if (bytes.len() as u64) < size {
        return None;
    }
    Some(bytes.split_at(size as usize))
}

// The length-encoded string that begins the bytes, and the rest.
#[inline]
pub(crate) fn string_of(bytes: &[u8]) -> Option<(&[u8], &[u8])>
    ensures { option_map (λ parts. (parts.0.now, parts.1.now)) result ≡ string_of bytes.now }
{
    let (size, from) = lenenc_read(bytes)?;
    front_of(&bytes[from..], size)
}

// What stands after so many length-encoded strings.
#[tactic(auto, using(crate::proofs::Walks::after_strings_next))]
fn after_strings(bytes: &[u8], count: u32) -> Option<&[u8]>
    ensures { option_copied result ≡ after_strings count bytes.now }
{
    let mut rest = bytes;
    for _ in 0..count {
        let (_, later) = string_of(rest)?;
        rest = later;
    }
    Some(rest)
}

// Whether the fields of a fixed length stand after the strings.
fn is_fixed_part(bytes: Option<&[u8]>) -> bool
    ensures { result ≡ is_fixed_part (option_copied bytes.entry) }
{
    match bytes {
        Some([0x0c, rest @ ..]) => rest.len() == 12,
        _ => false,
    }
}

// Whether this is a column definition.
pub(crate) fn is_definition(payload: &[u8]) -> bool
    ensures { result ≡ is_definition payload.now }
{
    is_fixed_part(after_strings(payload, 6))
}

// The number of columns that begins a result set.
pub(crate) fn column_count(payload: &[u8]) -> Option<u32>
    ensures { result ≡ column_count payload.now }
{
    let (count, size) = lenenc_read(payload)?;
    if size == payload.len() && 1 <= count && count <= 65535 {
        return Some(count as u32);
    }
    None
}

// What stands after the length-encoded integer that begins the bytes.
fn after_number(bytes: &[u8]) -> Option<&[u8]>
    ensures { option_copied result ≡ after_number bytes.now }
{
    let (_, size) = lenenc_read(bytes)?;
    Some(&bytes[size..])
}

// Whether these are the fields of an OK after its first byte: affected rows and last insert id
// length-encoded, two bytes of status, two of warnings, then anything.
fn are_ok_fields(bytes: &[u8]) -> bool
    ensures { result ≡ are_ok_fields bytes.now }
{
    let Some(insert_id) = after_number(bytes) else {
        return false;
    };
    match after_number(insert_id) {
        Some(status) => 4 <= status.len(),
        None => false,
    }
}

/// Whether this is an OK packet: 0x00, affected rows and last insert id length-encoded, two bytes of
/// status, two of warnings, then anything. Takes no memory. (MySQL source documentation, `OK_Packet`.)
pub fn is_ok_packet(payload: &[u8]) -> bool
    ensures { result ≡ is_ok_packet payload.now }
{
    match payload {
        [0x00, fields @ ..] => are_ok_fields(fields),
        _ => false,
    }
}

// Whether this is an OK in place of an EOF: 0xfe and the fields of an OK, fewer bytes in all than a
// full packet has.
pub(crate) fn is_ending_ok(payload: &[u8]) -> bool
    ensures { result ≡ is_ending_ok payload.now }
{
    match payload {
        [0xfe, fields @ ..] => payload.len() < FULL_SIZE && are_ok_fields(fields),
        _ => false,
    }
}

// Whether this is an EOF packet: 0xfe, two bytes of warnings, two of status, and fewer than nine bytes
// in all.
pub(crate) fn is_eof_packet(payload: &[u8]) -> bool
    ensures { result ≡ is_eof_packet payload.now }
{
    match payload {
        [0xfe, rest @ ..] => 4 <= rest.len() && rest.len() < 8,
        _ => false,
    }
}
