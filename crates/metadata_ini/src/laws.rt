//! Laws of `metadata`.
ghost use Rattle.std.specs.Prelude.{◌≡◌, ℕ, List};
ghost use Rattle.folder_forms.specs.Metadata.{IsBadLine, IsMetadataText};
ghost use Rattle.folder_forms.specs.declared.metadata.Metadata.{Metadata};

/// A law: a text is the `metadata` of one value at most. Does nothing.
pub fn one_value()
    ensures { (text : List ℕ) (a b : Metadata) → IsMetadataText text a → IsMetadataText text b
        → a ≡ b }
{}

/// A law: each value has one text as `metadata`. Does nothing.
pub fn one_text()
    ensures { (value : Metadata) (a b : List ℕ) → IsMetadataText a value → IsMetadataText b value
        → a ≡ b }
{}

/// A law: a text has one bad line at most. Does nothing.
pub fn one_bad_line()
    ensures { (text : List ℕ) (m n : ℕ) → IsBadLine text m → IsBadLine text n → m ≡ n }
{}
