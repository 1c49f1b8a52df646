//! The queries of a dump.
ghost use Rattle.std.specs.Prelude.{◌≡◌, IfOk};
ghost use Rattle.dumper_cli.specs.Stage.{column_names};

use crate::column::Column;
use plain_data::OutOfMemory;
use statement_forms::{Part, PartList};
use std::alloc::Global;

/// The names of the columns.
pub fn names_of<'a>(alloc: Global, columns: &'a [Column]) -> Result<PartList<'a>, OutOfMemory>
    ensures { IfOk result (λ made. made ≡ column_names columns.now) }
{
    let mut names = PartList::new(alloc);
    for column in columns {
        names.push(Part::of(column.name.as_slice()))?;
    }
    Ok(names)
}
