//! Quoted names.
ghost use Rattle.std.specs.Prelude.{◌≡◌, ◌+◌, ◌≤◌, ◌^◌, ◌++◌, length, OnOk, OnErr, MatchOption};
ghost use Rattle.std.specs.List.{flat_map};
ghost use Rattle.sql_cells.specs.Name.{name_byte, quoted_name};
ghost use Rattle.sql_literals.specs.Room.{TakesRoom};

use plain_data::{Buffer, OutOfMemory};

/// How many bytes [`name_into`] appends, if that many can be counted. Takes no memory.
#[tactic(auto, using(crate::proofs::Growth::quoted_name_length))]
pub fn name_length(name: &[u8]) -> Option<usize>
    ensures { let size = length (quoted_name name.now) in
        MatchOption result (2 ^ 64 ≤ size) (λ n. n ≡ size) }
{
    let doubled = name.iter().filter(|byte| **byte == b'`').count();
    name.len().checked_add(doubled)?.checked_add(2)
}

#[inline]
fn push_name_byte(byte: u8, out: &mut Buffer)
    requires { length (name_byte byte) ≤ out.old.spare }
    ensures bytes { out.new.bytes ≡ out.old.bytes ++ name_byte byte }
    ensures spare { out.new.spare + length (name_byte byte) ≡ out.old.spare }
{
    if byte == b'`' {
        out.push_byte(b'`');
    }
    out.push_byte(byte);
}

fn push_name(name: &[u8], out: &mut Buffer)
    requires { length (flat_map name_byte name.now) ≤ out.old.spare }
    ensures bytes { out.new.bytes ≡ out.old.bytes ++ flat_map name_byte name.now }
    ensures spare { out.new.spare + length (flat_map name_byte name.now) ≡ out.old.spare }
{
    for byte in name {
        push_name_byte(*byte, out);
    }
}

/// Appends the quoted name: between backquotes, each backquote doubled. It is refused only for
/// want of memory, and leaves the buffer as it was then. Where the room is there it takes no
/// memory.
pub fn name_into(name: &[u8], out: &mut Buffer) -> Result<(), OutOfMemory>
    ensures ok { OnOk result (out.new.bytes ≡ out.old.bytes ++ quoted_name name.now) }
    ensures err { OnErr result (out.new ≡ out.old) }
    ensures room { TakesRoom result out.old.spare out.new.spare (quoted_name name.now) }
{
    let _spare = out.spare();
    let Some(length) = name_length(name) else {
        return Err(OutOfMemory);
    };
    out.reserve(length)?;
    out.push_byte(b'`');
    push_name(name, out);
    out.push_byte(b'`');
    Ok(())
}
