//! Text of a limited length that is kept without memory from the heap.
ghost use Rattle.std.specs.Prelude.{◌≡◌, ◌≤◌, ◌++◌, length, take, drop};

/// Up to 512 bytes, kept in place.
#[derive(Clone, Copy, Debug)]
pub struct ShortText {
    // The text, and zeros after it.
    bytes: [u8; 512],
    size: usize,
}

impl ShortText {
    ghost use Rattle.wire_forms.specs.KeptText.{kept_text, text_of};

    /// The first 512 bytes, or all where there are fewer. Takes no memory.
    pub fn of(bytes: &[u8]) -> ShortText
        ensures kept { result ≡ kept_text bytes.now }
        ensures text { text_of result ≡ take 512 bytes.now }
    {
        let size = bytes.len().min(512);
        let mut kept = [0; 512];
        put_front(&mut kept, &bytes[..size]);
        ShortText { bytes: kept, size }
    }

    /// The bytes. Takes no memory.
    pub fn as_slice(&self) -> &[u8]
        ensures { result.now ≡ text_of self.now }
    {
        &self.bytes[..self.size.min(512)]
    }
}

// Writes the bytes over the front.
#[inline]
fn put_front(all: &mut [u8], front: &[u8])
    requires room { length front.now ≤ length all.old }

    ensures { all.new ≡ front.now ++ drop (length front.now) all.old }
{
    all[..front.len()].copy_from_slice(front);
}
