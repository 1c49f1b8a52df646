//! The real outside after the traits of `link_traits`: a server over TCP, a directory of the disk,
//! standard error and the system's clock.
//!
//! The adapters tell where they aim and how often they failed, and nothing of what a server says or
//! a disk holds. Over a connection or a writer whose bytes are known, they send, receive and write
//! just those bytes, in order.
#![tactic(auto)]

mod disk_folder;
mod disk_shelf;
mod err_sink;
mod read_buffer;
mod system_clock;
mod tcp_link;
mod tcp_site;
mod transfer;

pub use disk_folder::DiskFolder;
pub use disk_shelf::DiskShelf;
pub use err_sink::ErrSink;
pub use system_clock::SystemClock;
pub use tcp_link::TcpLink;
pub use tcp_site::TcpSite;
