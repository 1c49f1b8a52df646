//! The databases of live snapshots, each in the slot of its number.
ghost use Rattle.std.specs.Prelude.{◌≡◌, ◌<◌, Some, true, is_some, is_none, length, if◌then◌else◌, option_copied, slice_set, IfOk, OnErr};
ghost use Rattle.std.specs.List.{position_or_len};
ghost use Rattle.version_store.specs.Slots.{PutsInto, live_in, shown_in};

use plain_data::OutOfMemory;
use server_data::Database;

// The database in the slot of this number.
pub(crate) fn shown(slots: &[Option<Database>], id: usize) -> Option<&Database>
    ensures { option_copied result ≡ shown_in slots.now id }
{
    match slots.get(id) {
        None => None,
        Some(slot) => slot.as_ref(),
    }
}

// Puts a database into the first empty slot, or into a new one. A refusal changes nothing.
pub(crate) fn put_into(
    slots: &mut Vec<Option<Database>>,
    database: Database,
) -> Result<u64, OutOfMemory>
    ensures ok { IfOk result (λ id. PutsInto slots.old.items database id slots.new.items) }
    ensures err { OnErr result (slots.new.items ≡ slots.old.items) }
{
    let id = empty_place(slots.as_slice());
    if id < slots.len() {
        slots[id] = Some(database);
        return Ok(id as u64);
    }
    slots.push(Some(database))?;
    Ok(id as u64)
}

// The number of the first empty slot, or of none where each has a database.
fn empty_place(slots: &[Option<Database>]) -> usize
    ensures { result ≡ position_or_len is_none slots.now }
{
    let mut id = 0;
    let mut left = slots;
    'slots: while let [slot, rest @ ..] = left {
        if slot.is_none() {
            return id;
        }
        id += 1;
        left = rest;
    }
    id
}

// How many slots have a database.
pub(crate) fn live(slots: &[Option<Database>]) -> usize
    ensures { result ≡ live_in slots.now }
{
    let mut count = 0;
    let mut left = slots;
    'slots: while let [slot, rest @ ..] = left {
        count += one_if(slot);
        left = rest;
    }
    count
}

// 1 where the slot has a database.
fn one_if(slot: &Option<Database>) -> usize
    ensures { result ≡ (if is_some slot.now then 1 else 0) }
{
    match slot {
        None => 0,
        Some(_) => 1,
    }
}
