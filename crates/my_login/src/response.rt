//! The response to a greeting.
ghost use Rattle.std.specs.Prelude.{◌≡◌, ◌++◌, ◌≤◌, [], ◌+◌, length, vec_len, vec_capacity, option_copied, unwrap_or, IsOk, OnOk, OnErr};
ghost use Rattle.wire_forms.specs.Response.{asked_capabilities, response};

use plain_data::OutOfMemory;
use wire_forms::Ends;

// What stands between the capabilities and the user: largest packet, character set, 23 zeros.
const BEFORE_USER: &[u8] =
    b"\x00\x00\x00\x04\x2d\x00\x00\x00\x00\x00\x00\x00\x00\x00\x00\x00\x00\x00\x00\x00\x00\x00\x00\x00\x00\x00\x00\x00";

// The plugin and its 00.
const PLUGIN: &[u8] = b"mysql_native_password\x00";

// The capabilities that are asked for.
fn asked_capabilities(ends: Ends) -> [u8; 4]
    ensures { result ≡ asked_capabilities ends }
{
    match ends {
        Ends::Eof => [0x05, 0xa2, 0x08, 0x00],
        Ends::Ok => [0x05, 0xa2, 0x08, 0x01],
    }
}

// The bytes of the answer.
fn answer_bytes(answer: Option<&[u8; 20]>) -> &[u8]
    ensures bytes { result.now ≡ unwrap_or (option_copied answer.entry) [] }
    ensures short { length result.now ≤ 20 }
{
    match answer {
        Some(bytes) => bytes,
        None => &[],
    }
}

/// Appends the payload that answers a greeting: it logs this user in by `mysql_native_password`, with
/// this answer to the server's scramble, or without a password, and asks that result sets end so; an
/// OK may end them only where the greeting offers it. A user's name holds no 00, since it ends at one.
/// A refusal, for want of memory, leaves `out` as it was; where `out` has room for the payload, it takes
/// no memory. (MySQL source documentation, `Protocol::HandshakeResponse41`, `CLIENT_DEPRECATE_EOF`.)
#[tactic(auto, using(crate::proofs::Responses::response_length))]
pub fn response_into(
    user: &[u8],
    answer: Option<&[u8; 20]>,
    ends: Ends,
    out: &mut Vec<u8>,
) -> Result<(), OutOfMemory>
    ensures ok { OnOk result (out.new.items ≡
        out.old.items ++ response user.now (option_copied answer.entry) ends) }
    ensures err { OnErr result (out.new.items ≡ out.old.items) }
    ensures room { vec_len out.old + length (response user.now (option_copied answer.entry) ends) ≤
        vec_capacity out.old → IsOk result }
{
    let capabilities = asked_capabilities(ends);
    let answer = answer_bytes(answer);
    let user_end_and_size = [0, answer.len() as u8];
    out.reserve(
        capabilities.len() + BEFORE_USER.len() + user.len() + 2 + answer.len() + PLUGIN.len(),
    )?;
    out.extend_from_slice(&capabilities)?;
    out.extend_from_slice(BEFORE_USER)?;
    out.extend_from_slice(user)?;
    out.extend_from_slice(&user_end_and_size)?;
    out.extend_from_slice(answer)?;
    out.extend_from_slice(PLUGIN)?;
    Ok(())
}
