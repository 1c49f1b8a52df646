//! Shapes of texts: words and parts in a row.
ghost use Rattle.std.specs.Prelude.{◌≡◌, ◌≤◌, [], IsTrue, MatchResult};
ghost use Rattle.grammar.specs.Language.{Reads, Refused};
ghost use Rattle.statement_reading.specs.Parts.{part_language};
ghost use Rattle.statement_reading.specs.Slots.{place_of, places, slot_language, Shaped, HasParts, is_clear, part_count};

use crate::reading::bounds::{commas, read_bounds};
use crate::reading::digest::read_digest;
use crate::reading::keys::read_keys;
use crate::reading::kind::PartKind;
use crate::reading::names::{read_name, read_names};
use crate::reading::numbers::{read_bound, read_count};
use crate::reading::parts::Parts;
use crate::reading::texts::read_written_text;
use grammar::read_fixed;

/// What stands in one place of a shape.
#[derive(Clone, Copy)]
pub(crate) enum Slot<'w> {
    /// These bytes.
    Word(&'w [u8]),
    /// A part of this kind.
    Part(PartKind),
    /// The same bytes as the part of this index.
    Again(usize),
}

fn read_part(bytes: &[u8], kind: PartKind, before: &Parts<'_>) -> Result<usize, usize>
    ensures { Reads (part_language kind before.now) bytes.now result }
{
    match kind {
        PartKind::Name => read_name(bytes),
        PartKind::NameList => read_names(bytes),
        PartKind::Keys => read_keys(bytes),
        PartKind::TextLiteral => read_written_text(bytes),
        PartKind::Digest => read_digest(bytes),
        PartKind::Count => read_count(bytes),
        PartKind::Bound => read_bound(bytes),
        PartKind::Bounds(index) => read_bounds(bytes, commas(before.get(index))),
    }
}

fn read_slot(bytes: &[u8], slot: &Slot<'_>, before: &Parts<'_>) -> Result<usize, usize>
    ensures { Reads (slot_language (place_of slot.now) before.now) bytes.now result }
{
    match slot {
        Slot::Word(word) => read_fixed(bytes, word),
        Slot::Part(kind) => read_part(bytes, *kind, before),
        Slot::Again(index) => read_fixed(bytes, before.get(*index)),
    }
}

/// Reads a whole text of this shape: its parts, or the place where it leaves the shape. Takes no
/// memory.
pub(crate) fn read_shape<'a>(text: &'a [u8], slots: &[Slot<'_>]) -> Result<Parts<'a>, usize>
    requires clear { IsTrue (is_clear (places slots.now)) }
    requires few { part_count (places slots.now) ≤ 6 }
    ensures { MatchResult result (λ parts. HasParts (places slots.now) [] parts text.now)
        (Refused (Shaped (places slots.now) []) text.now) }
{
    let mut parts = Parts::new(text);
    let mut at = 0;
    for slot in slots {
        match read_slot(&text[at..], slot, &parts) {
            Ok(size) => {
                parts.add(slot, &text[at..at + size]);
                at += size;
            }
            Err(place) => return Err(at + place),
        }
    }
    if at == text.len() { Ok(parts) } else { Err(at) }
}
