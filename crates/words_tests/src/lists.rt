//! Lists and flags, as they are written in a case.
use plain_data::{NameList, OutOfMemory};
use server_data::NeedList;

// A comma after what stands there.
fn comma_into(words: &mut String, first: bool) -> Result<(), OutOfMemory> {
    if !first {
        words.push(',')?;
    }
    Ok(())
}

/// Names with commas between them, or `any`.
pub fn names_into(names: &NameList, words: &mut String) -> Result<(), OutOfMemory> {
    if names.as_slice().is_empty() {
        words.push_str("any")?;
    }
    let mut first = true;
    for name in names.as_slice() {
        comma_into(words, first)?;
        words.push_str(name.as_str())?;
        first = false;
    }
    Ok(())
}

/// Tables with commas between them, or `any`.
pub fn needs_into(needs: &NeedList, words: &mut String) -> Result<(), OutOfMemory> {
    if needs.as_slice().is_empty() {
        words.push_str("any")?;
    }
    let mut first = true;
    for need in needs.as_slice() {
        comma_into(words, first)?;
        words.push_str(need.schema.as_str())?;
        words.push('.')?;
        words.push_str(need.name.as_str())?;
        first = false;
    }
    Ok(())
}

/// The name of a flag that is given.
pub fn flag_into(is_given: bool, name: &str, words: &mut String) -> Result<(), OutOfMemory> {
    if is_given {
        words.push_str(", ")?;
        words.push_str(name)?;
    }
    Ok(())
}
