//! The tables of files, with their rows.
ghost use Rattle.std.specs.Prelude.{◌≡◌, IfOk, map};
ghost use Rattle.folder_forms.specs.Metadata.{IsTableList, names_table};
ghost use Rattle.metadata_ini.specs.Tables.{plain_tables};

use folder_forms::{FileKind, FileLine};
use object_forms::Kind;
use plain_data::OutOfMemory;
use std::alloc::Global;
use std::collections::BTreeMap;

// Whether the files of a kind are of a table.
fn names_table(kind: FileKind) -> bool
    ensures { result ≡ names_table kind }
{
    match kind {
        FileKind::Object(Kind::Table) | FileKind::Rows => true,
        FileKind::Object(
            Kind::Schema
            | Kind::Procedure
            | Kind::Function
            | Kind::View
            | Kind::Trigger
            | Kind::Event,
        ) => false,
    }
}

/// The tables of the files, with their rows.
#[tactic(auto, using(crate::proofs::TableLists::no_tables))]
pub(crate) fn tables_of(
    alloc: Global,
    files: &[FileLine],
) -> Result<BTreeMap<(&str, &str), u64>, OutOfMemory>
    ensures { IfOk result (λ made. IsTableList files.now (plain_tables made.entries)) }
{
    let mut made: BTreeMap<(&str, &str), u64> = BTreeMap::new(alloc);
    for file in files {
        if names_table(file.name.kind()) {
            let table = (file.name.schema().as_str(), file.name.name().as_str());
            let before = made.get(&table).copied().unwrap_or(0);
            made.insert(table, before.saturating_add(file.rows))?;
        }
    }
    Ok(made)
}
