//! The order of files.
ghost use Rattle.std.specs.Prelude.{◌≡◌, ◌≤◌, IfOk, MatchOption, OnOk};
ghost use Rattle.folder_forms.specs.Metadata.{kind_place};
ghost use Rattle.metadata_ini.specs.Order.{InOrder, rises};

use folder_forms::{FileKind, FileLine};
use object_forms::Kind;
use plain_data::OutOfMemory;
use std::alloc::Global;
use std::collections::BTreeMap;

// The place of a kind in the order in which files are loaded.
fn kind_place(kind: FileKind) -> u8
    ensures { result ≡ kind_place kind }
{
    match kind {
        FileKind::Object(Kind::Schema) => 0,
        FileKind::Object(Kind::Table) => 1,
        FileKind::Rows => 2,
        FileKind::Object(Kind::Procedure) => 3,
        FileKind::Object(Kind::Function) => 4,
        FileKind::Object(Kind::View) => 5,
        FileKind::Object(Kind::Trigger) => 6,
        FileKind::Object(Kind::Event) => 7,
    }
}

// Whether a number is greater than an earlier one, if there is one.
fn rises(before: Option<u32>, number: u32) -> bool
    ensures { result ≡ rises before number }
{
    match before {
        Some(before) => before < number,
        None => true,
    }
}

/// How many of the files in front stand in their order: by their kinds, and those of one kind, schema and
/// name with rising numbers.
pub(crate) fn in_order(alloc: Global, files: &[FileLine]) -> Result<usize, OutOfMemory>
    ensures { IfOk result (InOrder files.now) }
{
    let mut last: BTreeMap<(u8, (&str, &str)), u32> = BTreeMap::new(alloc);
    let mut place = 0;
    for index in 0..files.len() {
        let file = &files[index];
        let kind = kind_place(file.name.kind());
        if kind < place {
            return Ok(index);
        }
        place = kind;
        let name = (
            kind,
            (file.name.schema().as_str(), file.name.name().as_str()),
        );
        let number = file.name.number();
        if !rises(last.insert(name, number)?, number) {
            return Ok(index);
        }
    }
    Ok(files.len())
}
