//! The versions of servers.
ghost use Rattle.std.specs.Prelude.{◌≡◌, ◌≤◌, length};
ghost use Rattle.plain_data.specs.Byte.{is_digit};
ghost use Rattle.wire_forms.specs.Version.{digit_count, front_number, is_from_8_2, is_newer_after, is_newer};

// Whether a version has SHOW BINARY LOG STATUS.
pub(crate) fn is_newer(version: &[u8]) -> bool
    ensures { result ≡ is_newer version.now }
{
    let count = digit_count(version);
    1 <= count && count <= 9 && is_newer_after(front_number(version), &version[count..])
}

// Whether it is 8.2 or a later one, by its first number and what stands after that.
fn is_newer_after(first: u32, bytes: &[u8]) -> bool
    ensures { result ≡ is_newer_after first bytes.now }
{
    match bytes {
        [b'.', rest @ ..] => 1 <= digit_count(rest) && is_from_8_2(first, front_number(rest)),
        _ => false,
    }
}

// Whether the version of these two numbers is 8.2 or a later one.
fn is_from_8_2(first: u32, second: u32) -> bool
    ensures { result ≡ is_from_8_2 first second }
{
    8 < first || (first == 8 && 2 <= second)
}

// A decimal digit.
fn is_digit(byte: u8) -> bool
    ensures { result ≡ is_digit byte }
{
    b'0' <= byte && byte <= b'9'
}

// How many digits stand at the front.
#[tactic(auto, using(crate::proofs::Numbers::count_within, crate::proofs::Numbers::counted))]
fn digit_count(bytes: &[u8]) -> usize
    ensures count { result ≡ digit_count bytes.now }
    ensures within { result ≤ length bytes.now }
{
    bytes.iter().take_while(|byte| is_digit(**byte)).count()
}

// The number that the digits at the front spell, or the first nine of more.
fn front_number(bytes: &[u8]) -> u32
    ensures { result ≡ front_number bytes.now }
{
    let count = digit_count(bytes).min(9);
    let mut value = 0;
    for i in 0..count {
        value = value * 10 + u32::from(bytes[i] - b'0');
    }
    value
}
