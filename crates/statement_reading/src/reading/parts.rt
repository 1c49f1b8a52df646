//! The parts of a text, as they were read.
ghost use Rattle.std.specs.Prelude.{◌≡◌, ◌≤◌, [], length};
ghost use Rattle.std.specs.List.{slice_index_or};
ghost use Rattle.statement_reading.specs.Slots.{place_of, parts_with};

use crate::reading::slot::Slot;
use std::marker::Model;

/// At most six parts of a text, in their order.
#[derive(Drop)]
pub(crate) struct Parts<'a> {
    texts: [&'a [u8]; 6],
    count: usize,
}

impl<'a> Model for Parts<'a> {
    ghost use Rattle.std.specs.Prelude.{List, ℕ, take, map, ◌≤◌};

    ghost Value = { List (List ℕ) };

    ghost view = { λ p. take p.count (map (λ text. text.now) p.texts) };

    ghost invariant = { λ p. p.count ≤ 6 };
}

impl<'a> Parts<'a> {
    pub(crate) fn new(text: &'a [u8]) -> Parts<'a>
        ensures { result ≡ [] }
    {
        Parts {
            texts: [text; 6],
            count: 0,
        }
    }

    /// Takes the text of a slot in, where that is a part.
    pub(crate) fn add(&mut self, slot: &Slot<'_>, text: &'a [u8])
        requires { length (parts_with (place_of slot.now) self.old text.now) ≤ 6 }
        ensures { self.new ≡ parts_with (place_of slot.now) self.old text.now }
    {
        if let Slot::Part(_) = slot {
            self.texts[self.count] = text;
            self.count += 1;
        }
    }

    /// The part of this index.
    pub(crate) fn get(&self, index: usize) -> &'a [u8]
        ensures { result.now ≡ slice_index_or self.now index [] }
    {
        if index < self.count {
            self.texts[index]
        } else {
            &[]
        }
    }
}
