//! Stores of versions: what a server holds after its committed transactions, and what it held when each
//! live snapshot was taken. [`Store`] is what such a store promises; [`PlainStore`] is the plainest one,
//! with one copied database for each live snapshot.
//!
//! `specs/Store.antt` says what the calls do, and `specs/Read.antt` what is read of a table. A store may
//! keep what it holds in any form: contracts see a database of it, in which only the objects and, of each
//! table, the rows in their order count. The laws say the same by histories.
#![tactic(auto)]

mod key;
mod laws;
mod plain_store;
mod rows;
mod slots;
mod store;

pub use laws::{histories_go_on, histories_tell_what_fits, histories_tell_what_is_read};
pub use plain_store::PlainStore;
pub use store::{SnapshotId, Store};
