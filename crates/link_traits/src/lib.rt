//! The outside as the programs see it: links to a server, folders, a sink for reports and a clock.
//!
//! Each trait says what its calls do to what the object *tells*. The objects in memory, which tell all
//! of it, are the crate `memory_outside`. The adapters over the real outside, which tell less, are the
//! crate `system_outside`.
#![tactic(auto)]

mod clock;
mod folder;
mod link;
mod sink;
mod site;

pub use clock::{Clock, ClockFailed};
pub use folder::{Folder, FolderFailed, ListFault, Shelf};
pub use link::{Link, LinkFailed};
pub use sink::{Sink, SinkFailed};
pub use site::Site;
