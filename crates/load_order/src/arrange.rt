//! Views, each after the views that it needs.
ghost use Rattle.std.specs.Prelude.{◌≡◌, MatchOption, IsPermutation, IsSorted, true, false};
ghost use Rattle.std.specs.List.{list_any};
ghost use Rattle.folder_forms.specs.LoadOrder.{by_name, is_ready, IsViewOrder};
ghost use Rattle.load_order.specs.Stages.{against_need, names_view, IsFirstReady, HasStuck, IsStuck, PutsFirst};

use server_data::{Need, Object};
use std::cmp::Ordering;

// How a view is to a need, by schema and name.
fn against(view: &Object, need: &Need) -> Ordering
    ensures { result ≡ against_need need.now view.now }
{
    view.schema
        .cmp(&need.schema)
        .then(view.name.cmp(&need.name))
}

// Whether the need names one of the views, which are by schema and name. Takes no memory.
fn names_one(left: &[Object], need: &Need) -> bool
    requires { IsSorted by_name left.now }
    ensures { result ≡ list_any (names_view need.now) left.now }
{
    left.binary_search_by(|view| against(view, need)).is_ok()
}

// Whether the view needs none of these, which are by schema and name. Takes no memory.
fn ready(left: &[Object], view: &Object) -> bool
    requires { IsSorted by_name left.now }
    ensures { result ≡ is_ready left.now view.now }
{
    for need in view.needs.as_slice() {
        if names_one(left, need) {
            return false;
        }
    }
    true
}

// The place of the first view that is ready. Takes no memory.
fn first_ready(left: &[Object]) -> Option<usize>
    requires { IsSorted by_name left.now }
    ensures { MatchOption result (IsStuck left.now) (IsFirstReady left.now) }
{
    for (at, view) in left.iter().enumerate() {
        if ready(left, view) {
            return Some(at);
        }
    }
    None
}

// Puts the least view that is ready in front, and says whether there is one. Takes no memory.
fn advance(left: &mut [Object]) -> bool
    requires { IsSorted by_name left.old }
    ensures found { result ≡ true → PutsFirst left.old left.new }
    ensures stuck { result ≡ false → IsStuck left.old }
    ensures stays { result ≡ false → left.new ≡ left.old }
{
    match first_ready(left) {
        Some(at) => {
            left[..at + 1].rotate_right(1);
            true
        }
        None => false,
    }
}

/// Puts views, which are by schema and name, into their load order, and says whether they have one.
/// Takes no memory.
pub(crate) fn arrange(views: &mut [Object]) -> bool
    requires { IsSorted by_name views.old }
    ensures same { IsPermutation views.old views.new }
    ensures ordered { result ≡ true → IsViewOrder views.new }
    ensures stuck { result ≡ false → HasStuck views.old }
{
    for done in 0..views.len() {
        if !advance(&mut views[done..]) {
            return false;
        }
    }
    true
}
