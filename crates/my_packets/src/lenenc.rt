//! Length-encoded integers.
ghost use Rattle.std.specs.Prelude.{◌≡◌, ◌++◌, OnOk, OnErr};
ghost use Rattle.wire_forms.specs.Lenenc.{lenenc, lenenc_of};

use plain_data::OutOfMemory;

/// Appends the shortest spelling of `value`, one to nine bytes. A refusal, for want of memory,
/// leaves `out` as it was. (MySQL source documentation, `Protocol::LengthEncodedInteger`.)
pub fn lenenc_into(value: u64, out: &mut Vec<u8>) -> Result<(), OutOfMemory>
    ensures ok { OnOk result (out.new.items ≡ out.old.items ++ lenenc value) }
    ensures err { OnErr result (out.new.items ≡ out.old.items) }
{
    let [a, b, c, d, e, f, g, h] = value.to_le_bytes();
    if value < 251 {
        out.extend_from_slice(&[a])?;
    } else if value < 65536 {
        out.extend_from_slice(&[0xfc, a, b])?;
    } else if value < 16777216 {
        out.extend_from_slice(&[0xfd, a, b, c])?;
    } else {
        out.extend_from_slice(&[0xfe, a, b, c, d, e, f, g, h])?;
    }
    Ok(())
}

/// Reads the length-encoded integer that begins the bytes: its value, and the length of its
/// spelling. Spellings longer than need be are read too. `None` exactly where the bytes end early
/// or begin with 0xfb or 0xff. Takes no memory.
#[inline]
pub fn lenenc_read(bytes: &[u8]) -> Option<(u64, usize)>
    ensures { result ≡ lenenc_of bytes.now }
{
    match bytes {
        [first, ..] if *first < 0xfb => Some((u64::from(*first), 1)),
        [0xfc, a, b, ..] => Some((u64::from(*a) + 256 * u64::from(*b), 3)),
        [0xfd, a, b, c, ..] => Some((
            u64::from(*a) + 256 * u64::from(*b) + 65536 * u64::from(*c),
            4,
        )),
        [0xfe, a, b, c, d, e, f, g, h, ..] => {
            Some((u64::from_le_bytes([*a, *b, *c, *d, *e, *f, *g, *h]), 9))
        }
        _ => None,
    }
}
