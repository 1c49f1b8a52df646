//! Where the name of a head stands.
ghost use Rattle.std.specs.Prelude.{◌≡◌, ◌+◌, ◌≤◌, length, IfSome};
ghost use Rattle.object_forms.specs.Place.{name_span};
ghost use Rattle.object_texts.specs.Renaming.{NamesAreReplaced, NamesStand, QuotedNamesEnd};

use crate::head::head_in;
use object_forms::Span;
use sql_tokens::{left_after, token_count, token_size};

/// Where the object's name stands in a text with a head: how many bytes stand before it, and how
/// many it has as it is spelled, with its backquotes. The name of a schema and the dot after it stand
/// before it. `None` where the text has no head. Takes no memory.
pub fn name_span(text: &[u8]) -> Option<Span>
    ensures span { result ≡ name_span text.now }
    ensures within { IfSome result (λ span. span.before + span.size ≤ length text.now) }
{
    let (_, rest) = head_in(text)?;
    let count = token_count(text)
        .saturating_sub(token_count(rest))
        .saturating_sub(1);
    let here = left_after(count, text);
    Some(Span {
        before: text.len() - here.len(),
        size: token_size(here),
    })
}

/// In the place that `name_span` tells stands one token, which is the name that the head has; what
/// stands before it, the name as it is spelled, and what stands after it are the whole text.
pub fn names_stand()
    ensures { NamesStand }
{}

/// Where the name is spelled between backquotes, no backquote comes right after its place.
pub fn quoted_names_end()
    ensures { QuotedNamesEnd }
{}

/// With any name between backquotes in that place, in which each backquote is doubled, a text makes
/// an object of that name, of the same kind and in the same schema, if any was named. Nothing is said
/// only where a backquote comes right after the place, which `quoted_names_end` excludes but for
/// names that are words.
pub fn names_are_replaced()
    ensures { NamesAreReplaced }
{}
