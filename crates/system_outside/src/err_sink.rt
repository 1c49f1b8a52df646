//! Reports on standard error.
ghost use Rattle.std.specs.Prelude.{◌≡◌, [], ℕ, take, OnOk, OnErr};
ghost use Rattle.std.specs.Io.KnownBytes.{Appends};
ghost use Rattle.link_traits.specs.Cause.{HasCause};

use crate::transfer::write_front;
use link_traits::{Sink, SinkFailed};
use std::io::Write;
use std::marker::Model;
use std::rt::Stderr;

/// Writes reports to standard error, and doesn't tell them. To a writer whose bytes are known it
/// writes just those.
#[derive(Drop)]
pub struct ErrSink<W: Write = Stderr> {
    to: W,
    faults: u64,
}

impl<W: Write> Model for ErrSink<W> {
    ghost use Rattle.system_outside.specs.Status.{SinkStatus};

    ghost Value = { SinkStatus };

    ghost view = { λ s. record { faults = s.faults; written = W.contents s.to } };
}

impl<W: Write> ErrSink<W> {
    /// A sink that has not failed yet. Takes no memory.
    pub fn new(to: W) -> ErrSink<W>
        ensures { result ≡ record { faults = 0; written = W.contents to } }
    {
        ErrSink { to, faults: 0 }
    }

    /// How often the sink has failed. Takes no memory.
    pub fn faults(&self) -> u64
        ensures { result ≡ self.now.faults }
    {
        self.faults
    }
}

impl<W: Write> Sink for ErrSink<W> {
    ghost tells = { λ _. ⊥ };

    ghost written = { λ _. [] };

    ghost faults = { λ sink. sink.faults };

    fn write(&mut self, bytes: &[u8]) -> Result<(), SinkFailed>
        ensures ok { OnOk result (Appends self.old.written self.new.written bytes.now) }
        ensures err { OnErr result ((count : ℕ)
            × Appends self.old.written self.new.written (take count bytes.now)) }
        ensures cause { HasCause self.old.faults self.new.faults result }
    {
        if write_front(&mut self.to, bytes) < bytes.len() {
            self.faults = self.faults.saturating_add(1);
            return Err(SinkFailed);
        }
        Ok(())
    }
}
