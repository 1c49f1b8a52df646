//! The load order in place.
ghost use Rattle.std.specs.Prelude.{◌≡◌, ◌≤◌, length, true, false, IsPermutation, IsSorted};
ghost use Rattle.folder_forms.specs.LoadOrder.{IsLoadOrder, load_cmp, views_of};
ghost use Rattle.load_order.specs.Stages.{HasStuck, KindsBefore, KindsFrom, Parts};

use crate::arrange::arrange;
use crate::compare::{number_of, sort};
use server_data::Object;

// How many of the objects, which are in order, are of kinds before this number's.
fn first_from(objects: &[Object], number: u8) -> usize
    requires { IsSorted load_cmp objects.now }
    ensures within { result ≤ length objects.now }
    ensures below { KindsBefore objects.now number result }
    ensures above { KindsFrom objects.now number result }
{
    for (at, object) in objects.iter().enumerate() {
        if number <= number_of(object.kind) {
            return at;
        }
    }
    objects.len()
}

// Puts views into their load order where they stand, and says whether they have one.
fn arrange_within(objects: &mut [Object], from: usize, to: usize) -> bool
    requires { Parts objects.old from to }
    ensures same { IsPermutation objects.old objects.new }
    ensures ordered { result ≡ true → IsLoadOrder objects.new }
    ensures stuck { result ≡ false → HasStuck (views_of objects.new) }
{
    arrange(&mut objects[from..to])
}

/// Puts objects into their load order, and says whether they have one. They have none where views
/// wait for each other, and are then in some order. Takes no memory.
pub fn put_in_order(objects: &mut [Object]) -> bool
    ensures same { IsPermutation objects.old objects.new }
    ensures ordered { result ≡ true → IsLoadOrder objects.new }
    ensures stuck { result ≡ false → HasStuck (views_of objects.new) }
{
    sort(objects);
    let from = first_from(objects, 4);
    let to = first_from(objects, 5);
    arrange_within(objects, from, to)
}
