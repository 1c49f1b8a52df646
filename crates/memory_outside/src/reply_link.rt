//! A link with a list of replies.
ghost use Rattle.std.specs.Prelude.{◌≡◌, ◌≤◌, ◌<◌, ◌+◌, ◌++◌, take, drop, length, OnOk, OnErr, IfOk, false, min, ◌||◌, is_ok, is_err, if◌then◌else◌};
ghost use Rattle.link_traits.specs.Link.{ReceivesAsTold, IsWithin, told_at_start, told_after_send, first, others};
ghost use Rattle.memory_outside.specs.Replies.{LinkState, Returned, at_most, has_nothing, link_after_send};
ghost use Rattle.memory_outside.specs.Script.{faults_of, is_listed, Counted};

use crate::script::Script;
use link_traits::{Link, LinkFailed};
use plain_data::{Bytes, OutOfMemory, PlainList};
use std::alloc::Global;
use std::marker::Model;

/// Byte lists in order, as the messages of a link.
pub type MessageList = PlainList<Bytes>;

/// What a peer says: its first bytes, and those that answer each message.
pub type Conversation = MessageList;

// The messages of a link that came back.
#[derive(Drop)]
pub(crate) struct ReturnedLink {
    pub(crate) number: u64,
    pub(crate) sent: MessageList,
}

impl Model for ReturnedLink {
    ghost use Rattle.memory_outside.specs.Replies.{Returned};

    ghost Value = { Returned };

    ghost view = { λ l. record { number = l.number; sent = l.sent } };
}

/// A link in memory, whose peer says what a conversation has.
#[derive(Drop)]
pub struct ReplyLink {
    alloc: Global,
    // What waits is after `from` in these bytes.
    heard: Vec<u8>,
    from: usize,
    replies: Conversation,
    // How many of the replies have begun to wait.
    next: usize,
    sent: MessageList,
    failed: bool,
    number: u64,
    cut: u32,
    script: Script,
}

impl Model for ReplyLink {
    ghost use Rattle.std.specs.Prelude.{◌≤◌, drop, vec_len};
    ghost use Rattle.memory_outside.specs.Replies.{LinkState};

    ghost Value = { LinkState };

    ghost view = { λ l. record {
      told = record {
        sent = l.sent;
        waiting = drop l.from l.heard.items;
        coming = drop l.next l.replies;
        failed = l.failed;
      };
      number = l.number;
      cut = l.cut;
      script = l.script;
    } };

    ghost invariant = { λ l. l.from ≤ vec_len l.heard };
}

impl ReplyLink {
    // A link of this number at its start.
    pub(crate) fn new(
        alloc: Global,
        replies: Conversation,
        number: u64,
        cut: u32,
        script: Script,
    ) -> Result<ReplyLink, OutOfMemory>
        ensures { IfOk result (λ made. made ≡
            record { told = told_at_start replies; number = number; cut = cut; script = script }) }
    {
        let mut heard = Vec::new(alloc);
        let next = hear(&mut heard, &replies, 0)?;
        Ok(ReplyLink {
            alloc,
            heard,
            from: 0,
            replies,
            next,
            sent: MessageList::new(alloc),
            failed: false,
            number,
            cut,
            script,
        })
    }

    // Keeps the message, and lets the next bytes wait.
    fn answer(&mut self, message: &[u8]) -> Result<(), OutOfMemory>
        requires { self.old.told.failed ≡ false }
        ensures ok { OnOk result (self.new
            ≡ record self.old { told = told_after_send self.old.told message.now }) }
        ensures err { OnErr result (self.new ≡ self.old) }
    {
        let kept = Bytes::of(self.alloc, message)?;
        let before = self.heard.len();
        let next = hear(&mut self.heard, &self.replies, self.next)?;
        if self.sent.push(kept).is_err() {
            self.heard.truncate(before);
            return Err(OutOfMemory);
        }
        self.next = next;
        Ok(())
    }

    // The messages of the link, and its counts.
    pub(crate) fn close(self) -> (ReturnedLink, Script)
        ensures link { result.0 ≡ record { number = self.number; sent = self.told.sent } }
        ensures script { result.1 ≡ self.script }
    {
        let ReplyLink {
            alloc: _,
            heard: _,
            from: _,
            replies: _,
            next: _,
            sent,
            failed: _,
            number,
            cut: _,
            script,
        } = self;
        (ReturnedLink { number, sent }, script)
    }
}

impl Link for ReplyLink {
    ghost use Rattle.link_traits.specs.Unserved.{unserved_link};

    ghost honest = { λ _. ⊥ };

    ghost served = { λ _. unserved_link };

    ghost tells = { λ _. Unit {0} };

    ghost told = { λ link. link.told };

    ghost faults = { λ link. faults_of link.script };

    ghost same_origin = { λ _ _. Unit {0} };

    ghost origin_begins = { λ _. tt };

    ghost origin_turns = { λ _ _ _. tt };

    ghost origins_join = { λ _ _ _ _ _. tt };

    ghost honest_alike = { λ _ _ _ honest. absurd honest };

    ghost sound = { λ _ honest. absurd honest };

    fn send(&mut self, message: &[u8]) -> Result<(), LinkFailed>
        ensures link { self.new
            ≡ link_after_send self.old (is_ok result) message.now self.new.script }
        ensures counts { Counted self.old.script self.old.told.failed result self.new.script }
    {
        let listed = self.script.fails();
        if listed {
            self.failed = true;
            return Err(LinkFailed);
        }
        if self.failed {
            self.script.fail();
            return Err(LinkFailed);
        }
        if self.answer(message).is_err() {
            self.failed = true;
            self.script.lack_memory();
            return Err(LinkFailed);
        }
        Ok(())
    }

    fn send_beside(&mut self, _holder: &ReplyLink, message: &[u8]) -> Result<(), LinkFailed>
        ensures link { self.new
            ≡ link_after_send self.old (is_ok result) message.now self.new.script }
        ensures counts { Counted self.old.script self.old.told.failed result self.new.script }
    {
        self.send(message)
    }

    fn recv(&mut self, buffer: &mut [u8]) -> Result<usize, LinkFailed>
        requires room { 0 < length buffer.old }

        ensures within { IfOk result (λ count. IsWithin buffer.old count) }
        ensures received { ReceivesAsTold self.old.told buffer.new result self.new.told }
        ensures count { IfOk result (λ count. count ≡
            at_most self.old.cut (min (length self.old.told.waiting) (length buffer.old))) }
        ensures link { self.new
            ≡ record self.old { told = self.new.told; script = self.new.script } }
        ensures counts { Counted self.old.script (has_nothing self.old.told) result
            self.new.script }
        ensures fails { is_err result ≡ (is_listed self.old.script || has_nothing self.old.told) }
    {
        let listed = self.script.fails();
        if listed {
            self.failed = true;
            return Err(LinkFailed);
        }
        let there = self.heard.len() - self.from;
        if self.failed || there == 0 {
            self.failed = true;
            self.script.fail();
            return Err(LinkFailed);
        }
        let count = limited(there.min(buffer.len()), self.cut);
        copy_front(&self.heard[self.from..], count, buffer);
        self.from += count;
        Ok(count)
    }
}

// Lets the next bytes wait too. Answers which bytes are next then.
fn hear(heard: &mut Vec<u8>, replies: &Conversation, next: usize) -> Result<usize, OutOfMemory>
    ensures ok { OnOk result (heard.new.items ≡ heard.old.items ++ first (drop next replies.now)) }
    ensures next { IfOk result (λ after. drop after replies.now ≡ others (drop next replies.now)) }
    ensures err { OnErr result (heard.new.items ≡ heard.old.items) }
{
    let replies = replies.as_slice();
    if next >= replies.len() {
        return Ok(next);
    }
    let reply = &replies[next];
    heard.extend_from_slice(reply.as_slice())?;
    Ok(next + 1)
}

// Copies the first bytes.
fn copy_front(bytes: &[u8], count: usize, buffer: &mut [u8])
    requires there { count ≤ length bytes.now }
    requires room { count ≤ length buffer.old }
    ensures { bytes.now ≡ take count buffer.new ++ drop count bytes.now }
{
    buffer[..count].copy_from_slice(&bytes[..count]);
}

// At most the limit, where there is one.
fn limited(count: usize, limit: u32) -> usize
    ensures { result ≡ at_most limit count }
{
    if limit == 0 {
        count
    } else {
        count.min(limit as usize)
    }
}
