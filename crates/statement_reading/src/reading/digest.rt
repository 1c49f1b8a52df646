//! Readers of digests.
ghost use Rattle.std.specs.Prelude.{◌≡◌};
ghost use Rattle.grammar.specs.Language.{Reads};
ghost use Rattle.statement_reading.specs.Parts.{DigestText};
ghost use Rattle.statement_forms.specs.Statement.{is_lower_digit};

fn is_lower_digit(byte: u8) -> bool
    ensures { result ≡ is_lower_digit byte }
{
    match byte {
        b'0'..=b'9' | b'a'..=b'f' => true,
        _ => false,
    }
}

// 40 lower-case hexadecimal digits.
pub(crate) fn read_digest(bytes: &[u8]) -> Result<usize, usize>
    ensures { Reads DigestText bytes.now result }
{
    for i in 0..40 {
        if i == bytes.len() || !is_lower_digit(bytes[i]) {
            return Err(i);
        }
    }
    Ok(40)
}
