//! Tokens, counted.
ghost use Rattle.std.specs.Prelude.{◌≡◌, ◌≤◌, length};
ghost use Rattle.object_forms.specs.Token.{left_after, tokens};

use crate::token::{next_token, past_token};

/// How many tokens a text has.
#[tactic(auto, using(crate::proofs::Lefts::lefts))]
pub fn token_count(text: &[u8]) -> usize
    ensures { result ≡ length (tokens text.now) }
{
    let mut rest = text;
    let mut count = 0;
    'tokens: while let Some((_, after)) = next_token(rest) {
        count += 1;
        rest = after;
    }
    count
}

/// What is left of a text after so many tokens; nothing where it has fewer.
#[tactic(auto, using(crate::proofs::Lefts::lefts))]
pub fn left_after(count: usize, text: &[u8]) -> &[u8]
    ensures left { result.now ≡ left_after count text.now }
    ensures within { length result.now ≤ length text.now }
{
    let mut rest = text;
    let mut more = count;
    'tokens: while more > 0 {
        rest = past_token(rest);
        more -= 1;
    }
    rest
}
