//! Parentheses, and the parts of what stands in them.
ghost use Rattle.std.specs.Prelude.{◌≡◌, ◌==◌, ◌&&◌, ◌<◌, length, IfSome};
ghost use Rattle.object_texts.specs.Reading.{enclosed_of, parts_of};
ghost use Rattle.object_forms.specs.Shape.{enclosed_in, parts, up_to};
ghost use Rattle.sql_tokens.specs.Reading.{token_of};
ghost use Rattle.object_forms.specs.Token.{is_mark, tokens};

use sql_tokens::{Token, after_mark, next_token, past_gaps};

// Whether a token is that mark outside parentheses.
fn ends(token: Token<'_>, byte: u8, depth: usize) -> bool
    ensures { result ≡ (is_mark byte (token_of token.entry) && depth == 0) }
{
    token.is_mark(byte) && depth == 0
}

// The text up to the first such mark outside parentheses, and the text after that mark.
fn up_to(byte: u8, text: &[u8]) -> Option<(&[u8], &[u8])>
    ensures cut { enclosed_of result ≡ up_to byte 0 (tokens text.now) }
    ensures shorter { IfSome result (λ cut. length cut.1.now < length text.now) }
{
    let mut depth = 0;
    let mut rest = text;
    'tokens: while let Some((token, after)) = next_token(rest) {
        if ends(token, byte, depth) {
            let (front, _) = text.split_at(text.len() - rest.len());
            return Some((front, after));
        }
        depth = token.depth_after(depth);
        rest = after;
    }
    None
}

// What stands in the parenthesis that opens past white space and comments, and what stands after it.
pub(crate) fn enclosed_in(text: &[u8]) -> Option<(&[u8], &[u8])>
    ensures { enclosed_of result ≡ enclosed_in (tokens text.now) }
{
    up_to(b')', after_mark(b'(', past_gaps(text))?)
}

// The first part between commas outside parentheses, and what stands after its comma.
#[tactic(auto, using(crate::proofs::Parts::part_by_part))]
pub(crate) fn next_part(text: &[u8]) -> (&[u8], Option<&[u8]>)
    ensures parts { parts 0 (tokens text.now) ≡ parts_of result }
    ensures shorter { IfSome result.1 (λ rest. length rest.now < length text.now) }
{
    match up_to(b',', text) {
        Some((part, rest)) => (part, Some(rest)),
        None => (text, None),
    }
}
