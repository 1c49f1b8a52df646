//! What is to be dumped.
ghost use Rattle.std.specs.Prelude.{◌≡◌, IfOk};

use crate::data::NeedList;
use plain_data::{Bytes, NameList, OutOfMemory, Plain};

/// Which databases, tables and other objects are selected.
#[derive(Drop)]
pub struct Choice {
    /// The schemas that are named; none means any.
    pub databases: NameList,
    /// The tables and views that are named, with their schemas; none means any.
    pub tables: NeedList,
    /// Where there is one, only tables and views whose schema, a dot and their name it matches as a whole:
    /// `*` stands for any bytes, perhaps none, `?` for one byte, and every other byte for itself. Triggers go
    /// with their tables. Schemas, routines and events don't go by it.
    pub pattern: Option<Bytes>,
    /// No object is selected, rows alone.
    pub no_schemas: bool,
    /// No row is selected, objects alone.
    pub no_data: bool,
    /// Triggers are selected with their tables.
    pub triggers: bool,
    /// Procedures and functions are selected with their schemas.
    pub routines: bool,
    /// Events are selected with their schemas.
    pub events: bool,
}

impl Choice {
    /// An equal choice. It is refused only for want of memory.
    pub fn copy(&self) -> Result<Choice, OutOfMemory>
        ensures { IfOk result (λ made. made ≡ self.now) }
    {
        Ok(Choice {
            databases: self.databases.copy()?,
            tables: self.tables.copy()?,
            pattern: pattern_copy(&self.pattern)?,
            no_schemas: self.no_schemas,
            no_data: self.no_data,
            triggers: self.triggers,
            routines: self.routines,
            events: self.events,
        })
    }
}

impl Plain for Choice {
    fn duplicate(&self) -> Result<Choice, OutOfMemory> {
        self.copy()
    }
}

// An equal pattern, where there is one.
fn pattern_copy(pattern: &Option<Bytes>) -> Result<Option<Bytes>, OutOfMemory>
    ensures { IfOk result (λ made. made ≡ pattern.now) }
{
    match pattern {
        None => Ok(None),
        Some(pattern) => Ok(Some(pattern.copy()?)),
    }
}
