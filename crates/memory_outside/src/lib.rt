//! The outside in memory: a site that replies by lists, a folder, a sink and a clock. Each tells all that
//! its trait speaks of, but for what an honest server keeps. Tests use them, and the server in memory.
#![tactic(auto)]

mod list_clock;
mod memory_file;
mod memory_folder;
mod memory_shelf;
mod memory_sink;
mod reply_link;
mod reply_site;
mod script;

pub use list_clock::ListClock;
pub use memory_folder::MemoryFolder;
pub use memory_shelf::MemoryShelf;
pub use memory_sink::MemorySink;
pub use reply_link::{Conversation, MessageList, ReplyLink};
pub use reply_site::{ConversationList, ReplySite};
