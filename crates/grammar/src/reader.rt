//! Readers of fixed texts, and of parts in a row.
ghost use Rattle.std.specs.Prelude.{◌≡◌, ◌+◌, ◌<◌, ◌^◌, slice_index};
ghost use Rattle.grammar.specs.Language.{Reads, Fixed};
ghost use Rattle.grammar.specs.Reading.{shift, size_of, optional};

/// Reads one text: its length, or the place where the bytes leave it. Takes no memory.
#[tactic(auto, using(crate::proofs::Leaves::fixed_whole, crate::proofs::Leaves::fixed_broken))]
pub fn read_fixed(bytes: &[u8], word: &[u8]) -> Result<usize, usize>
    ensures { Reads (Fixed word.now) bytes.now result }
{
    for (i, b) in word.iter().enumerate() {
        if i == bytes.len() || bytes[i] != *b {
            return Err(i);
        }
    }
    Ok(word.len())
}

/// The reading of what follows `size` bytes, as a reading of all. Takes no memory.
#[inline]
pub fn after(size: usize, rest: Result<usize, usize>) -> Result<usize, usize>
    requires { size + size_of rest < 2 ^ 64 }
    ensures { result ≡ shift size rest }
{
    match rest {
        Ok(more) => Ok(size + more),
        Err(place) => Err(size + place),
    }
}

/// The reading of what may be there or not. Takes no memory.
#[inline]
pub fn optional(reading: Result<usize, usize>) -> Result<usize, usize>
    ensures { result ≡ optional reading }
{
    match reading {
        Err(0) => Ok(0),
        other => other,
    }
}

/// The first byte, or 0 where there is none. Takes no memory.
#[inline]
pub fn first_byte(bytes: &[u8]) -> u8
    ensures { result ≡ slice_index bytes.now 0 }
{
    if bytes.len() == 0 { 0 } else { bytes[0] }
}
