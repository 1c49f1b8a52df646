//! Where a text leaves the texts with heads.
ghost use Rattle.std.specs.Prelude.{◌≡◌, ◌≤◌, length, IfSome, MatchResult};
ghost use Rattle.grammar.specs.Language.{Refused};
ghost use Rattle.object_forms.specs.Head.{HasHead};
ghost use Rattle.object_texts.specs.Left.{agreement, name_place};

use crate::head::kind_in;
use sql_tokens::{Token, after_front_word, next_token, past_gaps};

// How many bytes of a word stand at the front, in any case, where the word is given in lower case.
#[tactic(auto, using(crate::proofs::Agreements::agreements))]
fn agreement(text: &[u8], lower: &[u8]) -> usize
    ensures { result ≡ agreement text.now lower.now }
{
    let mut at = 0;
    'letters: while at < text.len() && at < lower.len() {
        if text[at].to_ascii_lowercase() != lower[at] {
            return at;
        }
        at += 1;
    }
    at
}

// How far a text goes along where a name is to begin; `None` where one does.
fn name_place(text: &[u8]) -> Option<usize>
    ensures place { result ≡ name_place text.now }
    ensures within { IfSome result (λ place. place ≤ length text.now) }
{
    let Some((token, _)) = next_token(text) else {
        return Some(0);
    };
    match token {
        Token::Word(_) | Token::QuotedName(_) => None,
        Token::Unended if text[0] == b'`' || text[0] == b'/' => Some(text.len()),
        Token::Mark(b'/') => Some(1),
        _ => Some(0),
    }
}

/// Whether a text has a head. `Err` is the place where it leaves the texts with heads: the length of
/// the longest prefix with which some text begins that has one. That is as much of the word CREATE
/// as stands at the front; else the whole length where no kind comes, or where the text ends after
/// the kind in white space, a comment or a name that nothing ends; else the place of the byte after
/// the kind with which no name, white space or comment begins, and one more where that byte is a
/// slash that begins no comment. Takes no memory.
pub fn check_head(text: &[u8]) -> Result<(), usize>
    ensures { MatchResult result (λ _. HasHead text.now) (Refused HasHead text.now) }
{
    let Some(created) = after_front_word(b"create", text) else {
        return Err(agreement(text, b"create"));
    };
    let Some((_, after)) = kind_in(created) else {
        return Err(text.len());
    };
    let rest = past_gaps(after);
    match name_place(rest) {
        None => Ok(()),
        Some(place) => Err(text.len() - rest.len() + place),
    }
}
