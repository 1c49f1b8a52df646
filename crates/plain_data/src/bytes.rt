//! Bytes and names, which contracts see as lists of bytes.
ghost use Rattle.std.specs.Prelude.{◌≡◌, IfOk, IsUtf8, Some, nat_eq, refl};
ghost use Rattle.std.specs.Ordering.{nat_cmp};
ghost use Rattle.std.specs.Cmp.{partial_equiv_from_equiv};
ghost use Rattle.std.specs.Cmp.Lexicographic.{pointwise, slice_cmp, nat_list_eq_equiv, nat_list_cmp_total, texts_ties, texts_po};

use crate::list::{Plain, PlainList};
use crate::memory::OutOfMemory;
use std::alloc::Global;
use std::cmp::Ordering;
use std::marker::Model;

/// Bytes of any kind, as those of a cell or a default. They keep their allocator.
#[derive(Debug, Drop)]
pub struct Bytes {
    alloc: Global,
    items: Vec<u8>,
}

impl Model for Bytes {
    ghost use Rattle.std.specs.Prelude.{List, ℕ};
    ghost use Rattle.std.specs.Coded.{coded_list, coded_ℕ};

    ghost Value = { List ℕ };

    ghost coded = { coded_list coded_ℕ };

    ghost view = { λ b. b.items.items };
}

impl Bytes {
    /// A copy of `bytes`. It is refused only for want of memory.
    pub fn of(alloc: Global, bytes: &[u8]) -> Result<Bytes, OutOfMemory>
        ensures { IfOk result (λ made. made ≡ bytes.now) }
    {
        Ok(Bytes {
            alloc,
            items: bytes.to_vec(alloc)?,
        })
    }

    /// The bytes of a list, which stays where it is. Takes no memory.
    #[inline]
    pub fn from_vec(alloc: Global, items: Vec<u8>) -> Bytes
        ensures { result ≡ items.items }
    {
        Bytes { alloc, items }
    }

    /// The bytes. Takes no memory.
    #[inline]
    pub fn as_slice(&self) -> &[u8]
        ensures { result.now ≡ self.now }
    {
        self.items.as_slice()
    }

    /// Equal bytes. It is refused only for want of memory.
    pub fn copy(&self) -> Result<Bytes, OutOfMemory>
        ensures { IfOk result (λ made. made ≡ self.now) }
    {
        Bytes::of(self.alloc, self.items.as_slice())
    }
}

impl Plain for Bytes {
    fn duplicate(&self) -> Result<Bytes, OutOfMemory> {
        self.copy()
    }
}

/// The name of a schema, a table, a column or another object of SQL: UTF-8 text. Names are equal
/// and ordered as their bytes are. A name keeps its allocator.
#[derive(Debug, Drop)]
pub struct Name {
    alloc: Global,
    text: String,
}

impl Model for Name {
    ghost use Rattle.std.specs.Prelude.{List, ℕ, IsUtf8, string_bytes};
    ghost use Rattle.std.specs.Coded.{coded_list, coded_ℕ};

    ghost Value = { List ℕ };

    ghost coded = { coded_list coded_ℕ };

    ghost view = { λ n. string_bytes n.text };

    ghost invariant = { λ n. IsUtf8 (string_bytes n.text) };
}

impl Name {
    /// The name that `text` spells. It is refused only for want of memory.
    pub fn of(alloc: Global, text: &str) -> Result<Name, OutOfMemory>
        ensures { IfOk result (λ made. made ≡ text.now) }
    {
        Ok(Name {
            alloc,
            text: String::from_str(alloc, text)?,
        })
    }

    /// Its bytes, which are UTF-8. Takes no memory.
    #[inline]
    pub fn as_slice(&self) -> &[u8]
        ensures value { result.now ≡ self.now }
        ensures utf8 { IsUtf8 self.now }
    {
        self.text.as_bytes()
    }

    /// Its text. Takes no memory.
    #[inline]
    pub fn as_str(&self) -> &str
        ensures { result.now ≡ self.now }
    {
        self.text.as_str()
    }

    /// An equal name. It is refused only for want of memory.
    pub fn copy(&self) -> Result<Name, OutOfMemory>
        ensures { IfOk result (λ made. made ≡ self.now) }
    {
        Name::of(self.alloc, self.text.as_str())
    }
}

impl Plain for Name {
    fn duplicate(&self) -> Result<Name, OutOfMemory> {
        self.copy()
    }
}

impl PartialEq for Name {
    ghost eq = { pointwise nat_eq };

    ghost laws = { partial_equiv_from_equiv nat_list_eq_equiv };

    fn eq(&self, other: &Name) -> bool {
        self.as_str() == other.as_str()
    }
}

impl Eq for Name {
    ghost laws = { nat_list_eq_equiv };
}

impl PartialOrd for Name {
    ghost partial_cmp = { λ x y. Some (slice_cmp nat_cmp x y) };

    ghost laws = { texts_po };

    fn partial_cmp(&self, other: &Name) -> Option<Ordering> {
        Some(self.cmp(other))
    }
}

impl Ord for Name {
    ghost cmp = { slice_cmp nat_cmp };

    ghost total = { nat_list_cmp_total };

    ghost matches_partial_cmp = { λ x y. refl };

    ghost matches_eq = { texts_ties };

    fn cmp(&self, other: &Name) -> Ordering {
        self.as_str().cmp(other.as_str())
    }
}

/// A list of names.
pub type NameList = PlainList<Name>;

/// A list of numbers below 2^64.
pub type NumberList = PlainList<u64>;
