//! The order in which the objects of a dump are loaded: schemas, tables, procedures, functions, views,
//! triggers, events; each view after the views that it needs. No call takes memory.
//!
//! - `compare`: which of two objects comes first, and sorting.
//! - `arrange`: views, each after its needs.
//! - `order`: the whole order, in place.
//!
//! `specs/LoadOrder.antt` of folder_forms says what a load order is.
#![tactic(auto)]

mod arrange;
mod compare;
mod order;

pub use order::put_in_order;
