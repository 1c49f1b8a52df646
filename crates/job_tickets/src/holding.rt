//! What the rule of a deal knows of a seat.
ghost use Rattle.std.specs.Prelude.{ℕ, List};
ghost use Rattle.std.specs.Borrow.{ftrue};

use std::marker::Model;

/// What a seat has. No value of it is made.
pub struct Holding {
    /// How many of the seats that the deal was made for it stands for.
    pub ghost share: { ℕ },
    /// The numbers that it drew.
    pub ghost drawn: { List ℕ },
}

impl Model for Holding {
    ghost also_owns = { λ _. ftrue };
}
