//! ERR packets.
ghost use Rattle.std.specs.Prelude.{◌≡◌, is_some};
ghost use Rattle.wire_forms.specs.Reply.{refusal_of, refusal_of_code};

use wire_forms::{Refusal, ShortText};

/// Reads an ERR packet. `None` exactly where the payload is none: it doesn't begin with 0xff, is
/// shorter than three bytes, or has a `#` after the code and fewer than five bytes after that.
/// Takes no memory.
pub fn refusal_read(payload: &[u8]) -> Option<Refusal>
    ensures { result ≡ refusal_of payload.now }
{
    let [0xff, low, high, rest @ ..] = payload else {
        return None;
    };
    said(u16::from(*low) + 256 * u16::from(*high), rest)
}

// What stands after the code.
fn said(code: u16, bytes: &[u8]) -> Option<Refusal>
    ensures { result ≡ refusal_of_code code bytes.now }
{
    match bytes {
        [b'#', state_and_message @ ..] => {
            let (state, message) = state_and_message.split_first_chunk::<5>()?;
            Some(Refusal {
                code,
                state: *state,
                message: ShortText::of(message),
            })
        }
        message => Some(Refusal {
            code,
            state: *b"HY000",
            message: ShortText::of(message),
        }),
    }
}

// Whether this is an ERR packet. (Apart, so that a caller's path of rows has no room for a refusal.)
#[cold]
#[inline(never)]
pub(crate) fn is_refusal(payload: &[u8]) -> bool
    ensures { result ≡ is_some (refusal_of payload.now) }
{
    refusal_read(payload).is_some()
}
