//! Bytes as hexadecimal digits.
ghost use Rattle.std.specs.Prelude.{◌≡◌, ◌+◌, ◌*◌, ◌≤◌, ◌^◌, ◌++◌, length, OnOk, OnErr, MatchOption};
ghost use Rattle.hex.specs.Hex.{encode_upper};
ghost use Rattle.sql_cells.specs.Literal.{hex_literal};
ghost use Rattle.sql_literals.specs.Room.{TakesRoom};

use plain_data::{Buffer, OutOfMemory};

// How many bytes are spelled at a time.
const CHUNK: usize = 64;

// How many bytes the literal of at most 64 MiB has.
#[tactic(auto, using(crate::proofs::Hexadecimals::hexadecimal_length))]
pub(crate) fn hexadecimal_length(bytes: &[u8]) -> usize
    requires { length bytes.now ≤ 67108864 }
    ensures { result ≡ length (hex_literal bytes.now) }
{
    2 * bytes.len() + 3
}

// The same of any bytes, if that many can be counted.
#[tactic(auto, using(crate::proofs::Hexadecimals::hexadecimal_length))]
fn any_hexadecimal_length(bytes: &[u8]) -> Option<usize>
    ensures { let size = length (hex_literal bytes.now) in
        MatchOption result (2 ^ 64 ≤ size) (λ n. n ≡ size) }
{
    bytes.len().checked_mul(2)?.checked_add(3)
}

// Writes two digits for each byte.
#[inline]
fn spell(bytes: &[u8], digits: &mut [u8])
    requires { length digits.old ≡ 2 * length bytes.now }
    ensures { digits.new ≡ encode_upper bytes.now }
{
    let _ = hex::encode_to_slice(bytes, digits);
    digits.make_ascii_uppercase();
}

// Appends the digits of one chunk.
#[tactic(auto, using(crate::proofs::Hexadecimals::digits_length))]
fn push_chunk(bytes: &[u8], out: &mut Buffer)
    requires short { length bytes.now ≤ 64 }
    requires room { 2 * length bytes.now ≤ out.old.spare }
    ensures bytes { out.new.bytes ≡ out.old.bytes ++ encode_upper bytes.now }
    ensures spare { out.new.spare + 2 * length bytes.now ≡ out.old.spare }
{
    let mut room = [0u8; 2 * CHUNK];
    let digits = &mut room[..2 * bytes.len()];
    spell(bytes, digits);
    out.push(digits);
}

// Appends two digits for each byte.
fn push_digits(bytes: &[u8], out: &mut Buffer)
    requires { 2 * length bytes.now ≤ out.old.spare }
    ensures bytes { out.new.bytes ≡ out.old.bytes ++ encode_upper bytes.now }
    ensures spare { out.new.spare + 2 * length bytes.now ≡ out.old.spare }
{
    let mut done = 0;
    'chunks: while bytes.len() - done > CHUNK {
        push_chunk(&bytes[done..done + CHUNK], out);
        done += CHUNK;
    }
    push_chunk(&bytes[done..], out);
}

// Appends the literal of bytes. Where the room is there it takes no memory.
#[tactic(auto, using(crate::proofs::Hexadecimals::hexadecimal_length))]
pub(crate) fn hexadecimal_into(bytes: &[u8], out: &mut Buffer) -> Result<(), OutOfMemory>
    ensures ok { OnOk result (out.new.bytes ≡ out.old.bytes ++ hex_literal bytes.now) }
    ensures err { OnErr result (out.new ≡ out.old) }
    ensures room { TakesRoom result out.old.spare out.new.spare (hex_literal bytes.now) }
{
    let _spare = out.spare();
    let Some(length) = any_hexadecimal_length(bytes) else {
        return Err(OutOfMemory);
    };
    out.reserve(length)?;
    out.push(b"X'");
    push_digits(bytes, out);
    out.push_byte(b'\'');
    Ok(())
}
