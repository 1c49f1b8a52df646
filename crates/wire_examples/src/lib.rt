//! Worked examples of the definitions of the wire, as laws: what bytes of the protocol's documents say,
//! and what is written for them. Nothing here runs; the contract of each function is its examples.
#![tactic(auto)]

mod commas;
mod logins;
mod packets;
mod replies;

pub use commas::{Commas, commas_are_of_one_place};
pub use logins::{greetings, logins_under_either, requests_for_a_plugin, responses, versions};
pub use packets::{numbers, packets_of_a_query};
pub use replies::{
    first_messages, further_messages, further_messages_without_eof, places_of_ends, result_sets,
};
