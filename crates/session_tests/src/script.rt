//! What a server says.
ghost use Rattle.std.specs.Prelude.{◌≡◌, IfOk};

use crate::names::Names;
use crate::words::{first_word, numbers_of};
use memory_outside::{Conversation, ConversationList, ReplySite};
use my_packets::frame_into;
use plain_data::{Bytes, NumberList, OutOfMemory};
use std::alloc::Global;

/// What a server says on its one link, the greatest answer of a `recv` (0 for no limit), and the calls
/// that fail.
#[derive(Drop)]
pub struct Script {
    alloc: Global,
    names: Names,
    conversation: Conversation,
    cut: u32,
    faults: NumberList,
}

impl Script {
    /// A server that says nothing.
    pub fn new(alloc: Global) -> Script {
        Script {
            alloc,
            names: Names::new(alloc),
            conversation: Conversation::new(alloc),
            cut: 0,
            faults: NumberList::new(alloc),
        }
    }

    /// Reads a line: `message` names a message, `server` begins to say what one says, and `says` adds a
    /// reply. Any other line is a heading.
    pub fn read(&mut self, line: &str) -> Result<(), OutOfMemory> {
        let (word, words) = first_word(line);
        match word {
            "message" => self.name(words),
            "server" => self.begin(words),
            "says" => self.add(words),
            _ => Ok(()),
        }
    }

    fn name(&mut self, words: &str) -> Result<(), OutOfMemory> {
        let (name, message) = first_word(words);
        self.names.put(name, message)
    }

    fn begin(&mut self, words: &str) -> Result<(), OutOfMemory> {
        let (cut, faults) = first_word(words);
        self.cut = cut.parse().unwrap_or(0);
        self.faults = numbers_of(self.alloc, faults)?;
        self.conversation = Conversation::new(self.alloc);
        Ok(())
    }

    // Adds the packets of a reply, the first of which has this sequence id.
    fn add(&mut self, words: &str) -> Result<(), OutOfMemory> {
        let (id, messages) = first_word(words);
        let mut id = id.parse().unwrap_or(0);
        let mut out = Vec::new(self.alloc);
        for word in messages.split(' ') {
            let message = self.names.message(word)?;
            if message.len() < 1000 {
                id = frame_into(&message, id, &mut out)?;
            }
        }
        self.conversation.push(Bytes::of(self.alloc, &out)?)
    }

    /// A site whose first link has the conversation; it is used up.
    pub fn site(&mut self) -> Result<ReplySite, OutOfMemory>
        ensures { IfOk result (λ site. site.links.out ≡ 0) }
    {
        let mut conversation = Conversation::new(self.alloc);
        std::mem::swap(&mut conversation, &mut self.conversation);
        let mut talks = ConversationList::new(self.alloc);
        talks.push(conversation)?;
        Ok(ReplySite::new(self.alloc, talks, self.faults.copy()?, self.cut))
    }
}
