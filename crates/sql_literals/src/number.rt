//! Numbers without an exponent.
ghost use Rattle.std.specs.Prelude.{◌≡◌, ◌≤◌, length, false};
ghost use Rattle.std.specs.List.{prefix_len};
ghost use Rattle.plain_data.specs.Byte.{is_digit};
ghost use Rattle.sql_cells.specs.Number.{is_digits, is_fraction, is_unsigned_after, is_number};

// How many digits stand in front.
#[inline]
pub(crate) fn digit_count(bytes: &[u8]) -> usize
    ensures value { result ≡ prefix_len is_digit bytes.now }
    ensures within { result ≤ length bytes.now }
{
    for i in 0..bytes.len() {
        if bytes[i] < b'0' || bytes[i] > b'9' {
            return i;
        }
    }
    bytes.len()
}

#[inline]
#[tactic(auto, using(crate::proofs::Numbers::digits_by_count))]
fn is_digits(bytes: &[u8]) -> bool
    ensures { result ≡ is_digits bytes.now }
{
    let count = digit_count(bytes);
    count > 0 && count == bytes.len()
}

#[inline]
fn is_fraction(bytes: &[u8]) -> bool
    ensures { result ≡ is_fraction bytes.now }
{
    match bytes {
        [] => true,
        [b'.', digits @ ..] => is_digits(digits),
        _ => false,
    }
}

#[inline]
#[tactic(auto, using(crate::proofs::Numbers::unsigned_with, crate::proofs::Numbers::unsigned_without))]
fn is_unsigned(bytes: &[u8]) -> bool
    ensures { result ≡ is_unsigned_after false bytes.now }
{
    let whole = digit_count(bytes);
    whole > 0 && is_fraction(&bytes[whole..])
}

// Whether the bytes are an optional `-`, digits, and optionally a point and digits.
#[inline]
pub(crate) fn is_number(bytes: &[u8]) -> bool
    ensures { result ≡ is_number bytes.now }
{
    match bytes {
        [b'-', unsigned @ ..] => is_unsigned(unsigned),
        _ => is_unsigned(bytes),
    }
}
