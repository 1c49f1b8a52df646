//! What a consistent dump stands on. The locks of its lock session are types: the backup lock, then
//! the read lock, and back. While the read lock is held, the position of the binary log is asked
//! for, and the snapshots of workers are opened, each of which shows just what the lock session has
//! seen.
//!
//! A session is handed back where a step fails. No call takes memory but `Frozen::position`, and
//! `query` and `next_row` of a reader.
#![tactic(auto)]

mod laws;
mod position;
mod reading;
mod snapshots;
mod states;
mod status;
mod step;
mod worker;

pub use laws::{a_frozen_session_reads_what_it_has_seen, a_worker_reads_its_view};
pub use states::{Frozen, Guarded};
pub use worker::Worker;
