//! Laws of places: the contract of each function is one of them.
ghost use Rattle.std.specs.Prelude.{◌≡◌, ℕ, List, Result};
ghost use Rattle.grammar.specs.Language.{Language, IsPlace, Longest, Reads};

/// A language, as a type for the laws below. They hold of each one.
pub trait HasTexts {
    ghost texts: { Language };
}

/// A law: bytes leave a language at one place. Does nothing.
#[inline]
#[tactic(auto, using(crate::proofs::Determined::one_place))]
pub fn one_place<L: HasTexts>()
    ensures { (bytes : List ℕ) (p q : ℕ) →
        IsPlace L.texts bytes p → IsPlace L.texts bytes q → p ≡ q }
{}

/// A law: the longest prefix that is a text has one length. Does nothing.
#[inline]
#[tactic(auto, using(crate::proofs::Determined::one_longest))]
pub fn one_longest<L: HasTexts>()
    ensures { (bytes : List ℕ) (p q : ℕ) →
        Longest L.texts bytes p → Longest L.texts bytes q → p ≡ q }
{}

/// A law: all readers of a language give the same answer. Does nothing.
#[inline]
#[tactic(auto, using(crate::proofs::Determined::one_reading))]
pub fn one_reading<L: HasTexts>()
    ensures { (bytes : List ℕ) (r q : Result ℕ ℕ) →
        Reads L.texts bytes r → Reads L.texts bytes q → r ≡ q }
{}
