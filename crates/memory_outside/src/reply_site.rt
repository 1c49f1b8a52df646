//! A site with a list of conversations.
ghost use Rattle.std.specs.Prelude.{◌≡◌, ◌+◌, ◌-◌, ◌^◌, ◌≤◌, ◌<◌, true, false, Some, None, drop, is_ok, if◌then◌else◌, OnOk, OnErr, IfOk, IfSome};
ghost use Rattle.link_traits.specs.Site.{Aim, next_of};
ghost use Rattle.memory_outside.specs.Replies.{SiteState, counts_at_connect, has_returned, link_begun, links_after, messages_of, new_site, next_link, site_after_connect, site_state_after_return, site_told, with_one_more};
ghost use Rattle.memory_outside.specs.Script.{Counted, faults_of};

use crate::reply_link::{Conversation, MessageList, ReplyLink, ReturnedLink};
use crate::script::Script;
use link_traits::{LinkFailed, Site};
use plain_data::{Name, NumberList, OutOfMemory, PlainList};
use std::alloc::Global;
use std::marker::Model;

/// Conversations in order, as those of the links of a site.
pub type ConversationList = PlainList<MessageList>;

// Where connections go.
#[derive(Drop)]
struct Target {
    host: Name,
    port: u16,
}

impl Model for Target {
    ghost use Rattle.link_traits.specs.Site.{Aim};

    ghost Value = { Aim };

    ghost view = { λ t. record { host = t.host; port = t.port } };
}

/// A site in memory, whose links have the conversations of a list.
#[derive(Drop)]
pub struct ReplySite {
    alloc: Global,
    conversations: ConversationList,
    // How many of the conversations are used up.
    used: usize,
    returned: Vec<ReturnedLink>,
    target: Option<Target>,
    out: usize,
    // Whether a link is out that is alone.
    alone: bool,
    // The number of the next link.
    next: u64,
    cut: u32,
    script: Script,
}

impl Model for ReplySite {
    ghost use Rattle.std.specs.Prelude.{◌≤◌, ◌+◌, drop, vec_len, vec_capacity};
    ghost use Rattle.memory_outside.specs.Replies.{SiteState};

    ghost Value = { SiteState };

    ghost view = { λ s. record {
      conversations = drop s.used s.conversations;
      returned = s.returned.items;
      aim = s.target;
      links = record { out = s.out; sole = s.alone };
      next = s.next;
      cut = s.cut;
      script = s.script;
    } };

    ghost invariant = { λ s. vec_len s.returned + s.out ≤ vec_capacity s.returned };
}

impl ReplySite {
    /// A site whose links have these conversations, in order of connecting, and empty ones past the
    /// last. The first bytes of a conversation wait at connection, and each send makes the next wait.
    ///
    /// `faults` numbers the calls that are to fail as `link * 1000000 + call`, both from 0: call 0
    /// connects, and uses up the link's number and conversation even where it fails; past a million
    /// calls a link's numbers run on into those of the next. Want of memory fails a call too. Each
    /// failure is counted, and the count stops at 2^64 - 1. `cut` is the greatest answer of a `recv`,
    /// 0 for no limit. Takes no memory.
    pub fn new(
        alloc: Global,
        conversations: ConversationList,
        faults: NumberList,
        cut: u32,
    ) -> ReplySite
        ensures { result ≡ new_site conversations faults cut }
    {
        ReplySite {
            alloc,
            conversations,
            used: 0,
            returned: Vec::new(alloc),
            target: None,
            out: 0,
            alone: false,
            next: 0,
            cut,
            script: Script::new(faults),
        }
    }

    /// Whether the link of this number, in order of connecting from 0, came back. Takes no memory.
    pub fn has_returned(&self, link: u32) -> bool
        ensures { result ≡ has_returned self.now link }
    {
        self.messages(link).is_some()
    }

    /// The messages of the link of this number, in order of connecting from 0. Its condition is that
    /// the link came back. Takes no memory.
    pub fn sent(&self, link: u32) -> &MessageList
        requires { has_returned self.now link ≡ true }
        ensures { messages_of self.now.returned link ≡ Some result.now }
    {
        self.messages(link).unwrap()
    }

    // The messages of the link of this number, if it came back.
    fn messages(&self, link: u32) -> Option<&MessageList>
        ensures none { result ≡ None → messages_of self.now.returned link ≡ None }
        ensures some { IfSome result (λ sent. messages_of self.now.returned link ≡ Some sent.now) }
    {
        let number = u64::from(link);
        'links: for link in self.returned.as_slice() {
            if link.number == number {
                return Some(&link.sent);
            }
        }
        None
    }

    // Takes the next conversation.
    fn next_conversation(&mut self) -> Conversation
        ensures next { result ≡ next_of self.old.conversations }
        ensures rest { self.new
            ≡ record self.old { conversations = drop 1 self.old.conversations } }
    {
        let mut taken = MessageList::new(self.alloc);
        if self.used < self.conversations.as_slice().len() {
            let conversations = self.conversations.as_mut_slice();
            std::mem::swap(&mut taken, &mut conversations[self.used]);
            self.used += 1;
        }
        taken
    }

    // Makes a link of this number and conversation.
    fn begin(&mut self, number: u64, replies: Conversation) -> Result<ReplyLink, OutOfMemory>
        ensures link { IfOk result (λ link. link ≡ link_begun self.old number replies) }
        ensures ok { OnOk result (self.new
            ≡ record self.old { links = with_one_more self.old.links }) }
        ensures err { OnErr result (self.new ≡ self.old) }
    {
        let script = self.script.of(number, 1)?;
        let room = self.out.saturating_add(1);
        self.returned.reserve(room)?;
        let link = ReplyLink::new(self.alloc, replies, number, self.cut, script)?;
        self.out += 1;
        Ok(link)
    }

    // Makes the next link.
    fn next_link(&mut self) -> Result<ReplyLink, LinkFailed>
        ensures link { IfOk result (λ link. link ≡ next_link self.old) }
        ensures site { self.new ≡ site_after_connect self.old (if is_ok result
            then with_one_more self.old.links else self.old.links) self.new.script }
        ensures counts { Counted (counts_at_connect self.old) false result self.new.script }
    {
        let number = self.next;
        self.next = number.saturating_add(1);
        self.script.turn(number, 0);
        let replies = self.next_conversation();
        if self.script.fails() {
            return Err(LinkFailed);
        }
        match self.begin(number, replies) {
            Ok(link) => Ok(link),
            Err(OutOfMemory) => {
                self.script.lack_memory();
                Err(LinkFailed)
            }
        }
    }
}

impl Site for ReplySite {
    type Link = ReplyLink;

    ghost use Rattle.link_traits.specs.Unserved.{unserved_site};

    ghost honest = { λ _. ⊥ };

    ghost served = { λ _. unserved_site };

    ghost own = { λ _ _. Unit {0} };

    ghost tells = { λ _. Unit {0} };

    ghost told = { site_told };

    ghost aim_of = { λ site. site.aim };

    ghost links = { λ site. site.links };

    ghost faults = { λ site. faults_of site.script };

    ghost own_of_one = { λ _ _ _ _ _. tt };

    ghost stays_own = { λ _ _ _ _ own. own };

    ghost settled = { λ _ honest. absurd honest };

    fn aim(&mut self, host: &str, port: u16) -> Result<(), OutOfMemory>
        ensures ok { OnOk result (self.new
            ≡ record self.old { aim = Some (record { host = host.now; port = port }) }) }
        ensures err { OnErr result (self.new ≡ self.old) }
    {
        let host = Name::of(self.alloc, host)?;
        self.target = Some(Target { host, port });
        Ok(())
    }

    fn connect(&mut self) -> Result<ReplyLink, LinkFailed>
        ensures link { IfOk result (λ link. link ≡ next_link self.old) }
        ensures site { self.new ≡ site_after_connect self.old
            (links_after (is_ok result) false self.old.links) self.new.script }
        ensures counts { Counted (counts_at_connect self.old) false result self.new.script }
    {
        self.alone = false;
        self.next_link()
    }

    fn connect_sole(&mut self) -> Result<ReplyLink, LinkFailed>
        requires none_out { self.old.links.out ≡ 0 }

        ensures link { IfOk result (λ link. link ≡ next_link self.old) }
        ensures site { self.new ≡ site_after_connect self.old
            (links_after (is_ok result) true self.old.links) self.new.script }
        ensures counts { Counted (counts_at_connect self.old) false result self.new.script }
    {
        self.alone = false;
        let link = self.next_link()?;
        self.alone = true;
        Ok(link)
    }

    fn give_back(&mut self, link: ReplyLink)
        requires out { 0 < self.old.links.out }

        ensures site { self.new ≡ site_state_after_return self.old link }
    {
        let (returned, script) = link.close();
        self.out -= 1;
        self.alone = false;
        self.returned.push_reserved(returned);
        self.script.add(&script);
    }
}
