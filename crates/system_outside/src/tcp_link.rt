//! A link over a TCP connection.
ghost use Rattle.std.specs.Prelude.{◌≡◌, ◌<◌, ◌≤◌, ◌+◌, ◌-◌, [], length, take, true, false, IfOk, OnOk, OnErr};
ghost use Rattle.std.specs.Io.KnownBytes.{Appends, Consumes};
ghost use Rattle.link_traits.specs.Cause.{HasCause};
ghost use Rattle.link_traits.specs.Link.{told_at_start, IsWithin};
ghost use Rattle.system_outside.specs.Status.{new_link, one_fault_more};

use crate::read_buffer::{READ_SIZE, ReadBuffer};
use crate::transfer::{read_some, write_front};
use link_traits::{Link, LinkFailed};
use plain_data::OutOfMemory;
use std::alloc::Global;
use std::io::{Read, Write};
use std::marker::Model;
use std::net::TcpStream;

/// A link over a TCP connection. It receives 64 KiB at a time, so that callers may ask for few bytes.
/// It tells nothing of what a server says, but over a connection whose bytes are known it sends and
/// receives just those, in their order.
#[derive(Drop)]
pub struct TcpLink<S: Read + Write = TcpStream> {
    stream: S,
    received: ReadBuffer,
    has_failed: bool,
    faults: u64,
}

impl<S: Read + Write> Model for TcpLink<S> {
    ghost use Rattle.std.specs.Io.KnownBytes.{prepend_known};
    ghost use Rattle.system_outside.specs.Status.{LinkStatus};

    ghost Value = { LinkStatus };

    ghost view = { λ l. record {
      failed = l.has_failed;
      faults = l.faults;
      written = S.contents l.stream;
      unread = prepend_known l.received (S.remaining l.stream);
    } };
}

impl<S: Read + Write> TcpLink<S> {
    /// How often the link has failed. Takes no memory.
    pub fn faults(&self) -> u64
        ensures { result ≡ self.now.faults }
    {
        self.faults
    }

    // Counts a failure, after which every call fails.
    fn fail(&mut self) -> LinkFailed
        ensures failed { self.new
            ≡ record self.old { failed = true; faults = one_fault_more self.old.faults } }
        ensures later { self.old.faults ≤ self.new.faults }
    {
        self.has_failed = true;
        self.faults = self.faults.saturating_add(1);
        LinkFailed
    }
}

impl<S: Read + Write + Drop> TcpLink<S> {
    /// A link over this connection. It is refused only for want of memory.
    pub fn new(alloc: Global, stream: S) -> Result<TcpLink<S>, OutOfMemory>
        ensures { IfOk result (λ made. made ≡ new_link (S.contents stream) (S.remaining stream)) }
    {
        Ok(TcpLink {
            stream,
            received: ReadBuffer::new(alloc)?,
            has_failed: false,
            faults: 0,
        })
    }
}

impl<S: Read + Write + Drop> Link for TcpLink<S> {
    ghost use Rattle.link_traits.specs.Unserved.{unserved_link};

    ghost honest = { λ _. ⊥ };

    ghost served = { λ _. unserved_link };

    ghost tells = { λ _. ⊥ };

    ghost told = { λ _. told_at_start [] };

    ghost faults = { λ link. link.faults };

    ghost same_origin = { λ _ _. Unit {0} };

    ghost origin_begins = { λ _. tt };

    ghost origin_turns = { λ _ _ _. tt };

    ghost origins_join = { λ _ _ _ _ _. tt };

    ghost honest_alike = { λ _ _ _ honest. absurd honest };

    ghost sound = { λ _ honest. absurd honest };

    fn send(&mut self, message: &[u8]) -> Result<(), LinkFailed>
        ensures cause { HasCause self.old.faults self.new.faults result }
        ensures alive { OnOk result ((self.old.failed ≡ false) × (self.new.failed ≡ false)) }
        ensures failed { OnErr result (self.new.failed ≡ true) }
        ensures written { OnOk result (Appends self.old.written self.new.written message.now) }
    {
        if self.has_failed || write_front(&mut self.stream, message) < message.len() {
            return Err(self.fail());
        }
        Ok(())
    }

    fn send_beside(&mut self, _holder: &TcpLink<S>, message: &[u8]) -> Result<(), LinkFailed>
        ensures cause { HasCause self.old.faults self.new.faults result }
        ensures alive { OnOk result ((self.old.failed ≡ false) × (self.new.failed ≡ false)) }
        ensures failed { OnErr result (self.new.failed ≡ true) }
        ensures written { OnOk result (Appends self.old.written self.new.written message.now) }
    {
        self.send(message)
    }

    fn recv(&mut self, buffer: &mut [u8]) -> Result<usize, LinkFailed>
        requires room { 0 < length buffer.old }
        ensures within { IfOk result (λ count. IsWithin buffer.old count) }
        ensures cause { HasCause self.old.faults self.new.faults result }
        ensures alive { OnOk result ((self.old.failed ≡ false) × (self.new.failed ≡ false)) }
        ensures failed { OnErr result (self.new.failed ≡ true) }
        ensures received { IfOk result (λ count.
            Consumes self.old.unread self.new.unread (take count buffer.new)) }
    {
        if self.has_failed {
            return Err(self.fail());
        }
        if self.received.is_empty() {
            if buffer.len() >= READ_SIZE {
                return match read_some(&mut self.stream, buffer) {
                    Ok(count) => Ok(count),
                    Err(_) => Err(self.fail()),
                };
            }
            if self.received.refill(&mut self.stream).is_err() {
                return Err(self.fail());
            }
        }
        Ok(self.received.take_front(buffer))
    }
}
