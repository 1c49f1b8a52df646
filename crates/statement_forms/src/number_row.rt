//! Rows of numbers.
ghost use Rattle.std.specs.Prelude.{◌≡◌, ◌<◌, ◌⊎◌, length, IfNone, IfSome};
ghost use Rattle.statement_forms.specs.Number.{IsNumberRow};

use std::marker::Model;

/// Two to four numbers, as a bound of a key of as many columns. They are kept in place, so that no
/// row takes memory.
#[derive(Clone, Copy)]
pub struct NumberRow {
    numbers: [i128; 4],
    count: usize,
}

impl Model for NumberRow {
    ghost use Rattle.std.specs.Prelude.{List, ℤ, take, length};
    ghost use Rattle.std.specs.Coded.{coded_list, coded_ℤ};
    ghost use Rattle.statement_forms.specs.Number.{InPlaces, four_places};

    ghost Value = { List ℤ };

    ghost view = { λ r. take r.count r.numbers };

    ghost invariant = { λ r. InPlaces r.numbers r.count };

    ghost inverse = { λ d. record { numbers = four_places d; count = length d } };

    ghost inverse_ok = { λ a h. λ i. record { numbers = h.rest i; count = h.size i } };
}

impl NumberRow {
    /// The row of these numbers. None unless they are two to four.
    pub fn of(numbers: &[i128]) -> Option<NumberRow>
        ensures none { IfNone result ((length numbers.now < 2) ⊎ (4 < length numbers.now)) }
        ensures some { IfSome result (λ row. row ≡ numbers.now) }
    {
        match numbers {
            [a, b] => Some(NumberRow {
                numbers: [*a, *b, 0, 0],
                count: 2,
            }),
            [a, b, c] => Some(NumberRow {
                numbers: [*a, *b, *c, 0],
                count: 3,
            }),
            [a, b, c, d] => Some(NumberRow {
                numbers: [*a, *b, *c, *d],
                count: 4,
            }),
            _ => None,
        }
    }

    /// Its numbers.
    pub fn numbers(&self) -> &[i128]
        ensures value { result.now ≡ self.now }
        ensures row { IsNumberRow self.now }
    {
        &self.numbers[..self.count]
    }
}
