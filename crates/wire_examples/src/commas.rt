//! The laws of languages, of one language.
ghost use Rattle.std.specs.Prelude.{◌≡◌, ℕ, List, Result};
ghost use Rattle.grammar.specs.Language.{IsPlace, Longest, Reads};
ghost use Rattle.wire_examples.specs.Commas.{comma_texts};

use grammar::{HasTexts, one_longest, one_place, one_reading};

/// Commas, however many, as a language.
pub struct Commas;

impl HasTexts for Commas {
    ghost use Rattle.wire_examples.specs.Commas.{comma_texts};

    ghost texts = { comma_texts };
}

/// Bytes leave the commas at one place, the longest text in front has one length, and readers of them
/// give one answer.
pub fn commas_are_of_one_place()
    ensures place { (bytes : List ℕ) (p q : ℕ) → IsPlace comma_texts bytes p →
        IsPlace comma_texts bytes q → p ≡ q }
    ensures longest { (bytes : List ℕ) (p q : ℕ) → Longest comma_texts bytes p →
        Longest comma_texts bytes q → p ≡ q }
    ensures reading { (bytes : List ℕ) (r q : Result ℕ ℕ) → Reads comma_texts bytes r →
        Reads comma_texts bytes q → r ≡ q }
{
    one_place::<Commas>();
    one_longest::<Commas>();
    one_reading::<Commas>();
}
