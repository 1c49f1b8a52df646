//! Where a byte of a statement stands.
ghost use Rattle.std.specs.Prelude.{◌≡◌, ◌==◌, ◌&&◌};
ghost use Rattle.splitter_forms.specs.Scan.{is_text, after_text, after_byte};

use splitter_forms::Within;

#[inline]
fn is_text(within: Within) -> bool
    ensures { result ≡ is_text within }
{
    match within {
        Within::Text | Within::Dash | Within::Dashes | Within::Slash => true,
        _ => false,
    }
}

// Whether the byte ends a statement there.
#[inline]
pub(crate) fn is_end(within: Within, byte: u8) -> bool
    ensures { result ≡ (byte == 59 && is_text within) }
{
    byte == b';' && is_text(within)
}

#[inline]
fn after_text(byte: u8) -> Within
    ensures { result ≡ after_text byte }
{
    match byte {
        b'-' => Within::Dash,
        b'/' => Within::Slash,
        b'#' => Within::Line,
        b'\'' | b'"' => Within::Quoted(byte),
        b'`' => Within::Name,
        _ => Within::Text,
    }
}

#[inline]
pub(crate) fn after_byte(within: Within, byte: u8) -> Within
    ensures { result ≡ after_byte within byte }
{
    match within {
        Within::Text => after_text(byte),
        Within::Dash if byte == b'-' => Within::Dashes,
        Within::Dash => after_text(byte),
        Within::Dashes if byte == b' ' => Within::Line,
        Within::Dashes if byte == b'-' => Within::Dashes,
        Within::Dashes => after_text(byte),
        Within::Slash if byte == b'*' => Within::Opened,
        Within::Slash => after_text(byte),
        Within::Opened if byte == b'!' => Within::Text,
        Within::Star if byte == b'/' => Within::Text,
        Within::Opened | Within::Comment | Within::Star if byte == b'*' => Within::Star,
        Within::Opened | Within::Comment | Within::Star => Within::Comment,
        Within::Line if byte == b'\n' => Within::Text,
        Within::Line => Within::Line,
        Within::Quoted(quote) if byte == quote => Within::Text,
        Within::Quoted(quote) if byte == b'\\' => Within::Escaped(quote),
        Within::Quoted(quote) | Within::Escaped(quote) => Within::Quoted(quote),
        Within::Name if byte == b'`' => Within::Text,
        Within::Name => Within::Name,
    }
}
