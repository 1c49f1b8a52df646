//! Lists that are made of members of others.
ghost use Rattle.std.specs.Prelude.{◌≡◌, ◌∷◌, ◌++◌, [], OnOk, if◌then◌else◌};

use plain_data::{OutOfMemory, Plain, PlainList};

// Puts copies of more members at the end.
pub(crate) fn append<T: Plain>(list: &mut PlainList<T>, more: &[T]) -> Result<(), OutOfMemory>
    ensures { OnOk result (list.new ≡ list.old ++ more.now) }
{
    for member in more {
        list.push(member.duplicate()?)?;
    }
    Ok(())
}

// Puts a copy of the member at the end where it is kept.
pub(crate) fn push_if<T: Plain>(
    keeps: bool,
    list: &mut PlainList<T>,
    member: &T,
) -> Result<(), OutOfMemory>
    ensures { OnOk result (list.new ≡ list.old ++ (if keeps then member.now ∷ [] else [])) }
{
    if keeps {
        list.push(member.duplicate()?)?;
    }
    Ok(())
}
