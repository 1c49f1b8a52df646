//! Texts that end at a 00, and the scrambles' bytes.
ghost use Rattle.std.specs.Prelude.{◌≡◌, ◌≤◌, ◌+◌, ◌==◌, length, drop, position, option_map};
ghost use Rattle.wire_forms.specs.Texts.{text_size, to_zero};

/// The plugin whose answer to a scramble is computed.
pub(crate) const NATIVE_PASSWORD: &[u8] = b"mysql_native_password";

// Where the first 00 stands.
fn first_zero(bytes: &[u8]) -> Option<usize>
    ensures { result ≡ position (λ byte. byte == 0) bytes.now }
{
    bytes.iter().position(|byte| *byte == 0)
}

// How many bytes stand before the first 00, or how many there are without one.
#[tactic(auto, using(crate::proofs::Sizes::size_found, crate::proofs::Sizes::size_within))]
pub(crate) fn text_size(bytes: &[u8]) -> usize
    ensures size { result ≡ text_size bytes.now }
    ensures within { result ≤ length bytes.now }
{
    first_zero(bytes).unwrap_or(bytes.len())
}

// The bytes from a place on.
fn rest_of(bytes: &[u8], from: usize) -> &[u8]
    requires within { from ≤ length bytes.now }

    ensures { result.now ≡ drop from bytes.now }
{
    &bytes[from..]
}

// The bytes up to the first 00, and those after it.
pub(crate) fn to_zero(bytes: &[u8]) -> Option<(&[u8], &[u8])>
    ensures { option_map (λ parts. (parts.0.now, parts.1.now)) result ≡ to_zero bytes.now }
{
    let size = text_size(bytes);
    if size < bytes.len() {
        return Some((&bytes[..size], rest_of(bytes, size + 1)));
    }
    None
}
