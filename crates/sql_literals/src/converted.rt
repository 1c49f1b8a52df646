//! Texts of JSON: a text literal that is converted to utf8mb4.
ghost use Rattle.std.specs.Prelude.{◌≡◌, ◌≤◌, ◌++◌, length, OnOk, OnErr};
ghost use Rattle.sql_cells.specs.Literal.{converted_literal};
ghost use Rattle.sql_literals.specs.Room.{TakesRoom};

use crate::text::{push_text, reserve_text, text_length};
use plain_data::{Buffer, OutOfMemory};

// How many bytes stand around the text literal.
const AROUND: usize = 23;

// How many bytes the literal of a text of at most 64 MiB has.
#[tactic(auto, using(crate::proofs::Growth::quoted_bound, crate::proofs::Growth::converted_length))]
pub(crate) fn converted_length(bytes: &[u8]) -> usize
    requires { length bytes.now ≤ 67108864 }
    ensures { result ≡ length (converted_literal bytes.now) }
{
    text_length(bytes) + AROUND
}

// Appends the literal of a text of JSON. Where the room is there it takes no memory.
#[inline]
#[tactic(auto, using(crate::proofs::Growth::converted_length))]
pub(crate) fn converted_into(bytes: &[u8], out: &mut Buffer) -> Result<(), OutOfMemory>
    ensures ok { OnOk result (out.new.bytes ≡ out.old.bytes ++ converted_literal bytes.now) }
    ensures err { OnErr result (out.new ≡ out.old) }
    ensures room { TakesRoom result out.old.spare out.new.spare (converted_literal bytes.now) }
{
    reserve_text(bytes, AROUND, out)?;
    out.push(b"CONVERT(");
    push_text(bytes, out);
    out.push(b" USING utf8mb4)");
    Ok(())
}
