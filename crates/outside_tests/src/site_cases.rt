//! Cases of a site in memory, and of the link of it that is out.
ghost use Rattle.std.specs.Prelude.{◌≡◌, IfOk};

use crate::words::{bytes_of, first_word, numbers_of, or_nothing, said, said_of, spelled};
use link_traits::{Link, LinkFailed, Site};
use memory_outside::{Conversation, ConversationList, MessageList, ReplyLink, ReplySite};
use percent_encoding::{CONTROLS, percent_encode};
use plain_data::{Bytes, NumberList, OutOfMemory};
use std::alloc::Global;
use std::marker::Model;

/// A site, and its link while one is out.
#[derive(Drop)]
pub struct SiteCases {
    alloc: Global,
    site: ReplySite,
    link: Option<ReplyLink>,
}

impl Model for SiteCases {
    ghost use Rattle.std.specs.Prelude.{◌≡◌, is_some, if◌then◌else◌};
    ghost use Rattle.memory_outside.specs.Replies.{SiteState};

    ghost Value = { SiteState };

    ghost view = { λ s. s.site };

    ghost invariant = { λ s. s.site.links.out ≡ (if is_some s.link then 1 else 0) };
}

impl SiteCases {
    /// A site without conversations.
    pub fn new(alloc: Global) -> SiteCases {
        let conversations = ConversationList::new(alloc);
        SiteCases {
            alloc,
            site: ReplySite::new(alloc, conversations, NumberList::new(alloc), 0),
            link: None,
        }
    }

    /// What comes of a call of the site.
    pub fn answer(&mut self, call: &str, words: &str) -> Result<String, OutOfMemory> {
        match call {
            "new" => self.begin(words),
            "aim" => self.aim(words),
            "connect" => self.connect(false),
            "connect_sole" => self.connect(true),
            "give_back" => self.give_back(),
            "sent" => self.sent(words),
            _ => said(self.alloc, "no call"),
        }
    }

    /// What comes of a call of the link that is out.
    pub fn answer_link(&mut self, call: &str, words: &str) -> Result<String, OutOfMemory> {
        let alloc = self.alloc;
        let Some(link) = &mut self.link else {
            return said(alloc, "no link");
        };
        match call {
            "send" => send(alloc, link, words),
            "recv" => receive(alloc, link),
            _ => said(alloc, "no call"),
        }
    }

    fn begin(&mut self, words: &str) -> Result<String, OutOfMemory> {
        self.site = site_of(self.alloc, words)?;
        self.link = None;
        said(self.alloc, "a site")
    }

    fn aim(&mut self, words: &str) -> Result<String, OutOfMemory> {
        let (host, port) = first_word(words);
        self.site.aim(host, port.parse().unwrap_or(0))?;
        said(self.alloc, "aimed")
    }

    // Makes a link, which is alone or not.
    fn connect(&mut self, sole: bool) -> Result<String, OutOfMemory> {
        if self.link.is_some() {
            return said(self.alloc, "a link is out");
        }
        let made = if sole {
            self.site.connect_sole()
        } else {
            self.site.connect()
        };
        self.link = made.ok();
        let is_made = self.link.is_some();
        said_of(self.alloc, is_made, "a link")
    }

    fn give_back(&mut self) -> Result<String, OutOfMemory> {
        let Some(link) = self.link.take() else {
            return said(self.alloc, "no link");
        };
        self.site.give_back(link);
        said(self.alloc, "given back")
    }

    // The messages of the link of this number, with bars between them.
    fn sent(&self, words: &str) -> Result<String, OutOfMemory> {
        let number = words.parse().unwrap_or(0);
        if self.site.has_returned(number) {
            listed(self.alloc, self.site.sent(number))
        } else {
            said(self.alloc, "not back")
        }
    }
}

// A site of these words: the greatest answer of a `recv`, the calls that fail, and the conversations.
fn site_of(alloc: Global, words: &str) -> Result<ReplySite, OutOfMemory>
    ensures { IfOk result (λ site. site.links.out ≡ 0) }
{
    let (cut, words) = first_word(words);
    let (faults, talks) = first_word(words);
    let faults = numbers_of(alloc, faults)?;
    let talks = conversations_of(alloc, talks)?;
    Ok(ReplySite::new(alloc, talks, faults, cut.parse().unwrap_or(0)))
}

fn send(alloc: Global, link: &mut ReplyLink, words: &str) -> Result<String, OutOfMemory> {
    let message = bytes_of(alloc, words)?;
    said_of(alloc, link.send(&message).is_ok(), "sent")
}

// What a `recv` of eight bytes gives.
fn receive(alloc: Global, link: &mut ReplyLink) -> Result<String, OutOfMemory> {
    let mut buffer = [0; 8];
    match link.recv(&mut buffer) {
        Ok(count) => spelled(alloc, &buffer[..count]),
        Err(LinkFailed) => said(alloc, "failed"),
    }
}

fn listed(alloc: Global, messages: &MessageList) -> Result<String, OutOfMemory> {
    let mut words = String::new(alloc);
    for message in messages.as_slice() {
        percent_encode(message.as_slice(), CONTROLS).append_to(&mut words)?;
        words.push('|')?;
    }
    or_nothing(words)
}

// The conversations have slashes between them, and their replies commas.
fn conversations_of(alloc: Global, words: &str) -> Result<ConversationList, OutOfMemory> {
    let mut made = ConversationList::new(alloc);
    for talk in words.split('/') {
        made.push(conversation_of(alloc, talk)?)?;
    }
    Ok(made)
}

fn conversation_of(alloc: Global, words: &str) -> Result<Conversation, OutOfMemory> {
    let mut made = Conversation::new(alloc);
    for reply in words.split(',') {
        let bytes = bytes_of(alloc, reply)?;
        made.push(Bytes::of(alloc, &bytes)?)?;
    }
    Ok(made)
}
