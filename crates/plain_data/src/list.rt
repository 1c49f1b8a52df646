//! Lists of plain data, which contracts see as lists.
ghost use Rattle.std.specs.Prelude.{◌≡◌, ◌∷◌, ◌++◌, [], IfOk, OnOk, OnErr};
ghost use Rattle.std.specs.Borrow.{sem};
ghost use Rattle.plain_data.specs.Lending.{lends_list};

use crate::memory::OutOfMemory;
use std::alloc::Global;
use std::marker::Model;

/// Data without a life of its own: it can be duplicated.
pub trait Plain: Drop + Sized {
    /// An equal value. It is refused only for want of memory.
    fn duplicate(&self) -> Result<Self, OutOfMemory>
        ensures { IfOk result (λ made. made ≡ self.now) };
}

// A copy takes no memory.
impl Plain for u64 {
    fn duplicate(&self) -> Result<u64, OutOfMemory> {
        Ok(*self)
    }
}

// A copy takes no memory.
impl Plain for u32 {
    fn duplicate(&self) -> Result<u32, OutOfMemory> {
        Ok(*self)
    }
}

/// A list of members of one type. It keeps its allocator.
#[derive(Debug, Drop)]
pub struct PlainList<T> {
    alloc: Global,
    items: Vec<T>,
}

impl<T> Model for PlainList<T> {
    ghost use Rattle.std.specs.Prelude.{List};
    ghost use Rattle.std.specs.Coded.{coded_list};

    ghost Value = { List T };

    ghost coded = { coded_list T.code };

    ghost view = { λ l. l.items.items };
}

impl<T> PlainList<T> {
    /// The list without members. Takes no memory.
    pub fn new(alloc: Global) -> PlainList<T>
        ensures { result ≡ [] }
    {
        PlainList {
            alloc,
            items: Vec::new(alloc),
        }
    }

    /// Its members. Takes no memory.
    #[inline]
    pub fn as_slice(&self) -> &[T]
        ensures { result.now ≡ self.now }
    {
        self.items.as_slice()
    }

    /// Its members, to be written over. Takes no memory.
    pub fn as_mut_slice(&mut self) -> &mut [T]
        ensures* writes_back { sem 𝓛 (lends_list T.row self.entry result) }
        ensures value { result.now ≡ self.old }
    {
        self.items.as_mut_slice()
    }
}

impl<T: Drop> PlainList<T> {
    /// Puts a member at the end. A refusal leaves the list as it was, and the member is given up.
    pub fn push(&mut self, member: T) -> Result<(), OutOfMemory>
        ensures ok { OnOk result (self.new ≡ self.old ++ member ∷ []) }
        ensures err { OnErr result (self.new ≡ self.old) }
    {
        self.items.push(member)?;
        Ok(())
    }
}

impl<T: Plain> PlainList<T> {
    /// An equal list. It is refused only for want of memory.
    pub fn copy(&self) -> Result<PlainList<T>, OutOfMemory>
        ensures { IfOk result (λ made. made ≡ self.now) }
    {
        let mut made = PlainList::new(self.alloc);
        for member in self.items.as_slice() {
            made.push(member.duplicate()?)?;
        }
        Ok(made)
    }
}

impl<T: Plain> Plain for PlainList<T> {
    fn duplicate(&self) -> Result<PlainList<T>, OutOfMemory> {
        self.copy()
    }
}
