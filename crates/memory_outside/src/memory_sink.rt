//! A sink in memory.
ghost use Rattle.std.specs.Prelude.{◌≡◌, ◌++◌, [], false, is_ok, if◌then◌else◌};
ghost use Rattle.memory_outside.specs.Moments.{SinkState};
ghost use Rattle.memory_outside.specs.Script.{script_of, faults_of, Counted};

use crate::script::Script;
use link_traits::{Sink, SinkFailed};
use plain_data::{NumberList, OutOfMemory};
use std::alloc::Global;
use std::marker::Model;

/// A sink in memory, which tells what was written.
#[derive(Drop)]
pub struct MemorySink {
    written: Vec<u8>,
    script: Script,
}

impl Model for MemorySink {
    ghost use Rattle.memory_outside.specs.Moments.{SinkState};

    ghost Value = { SinkState };

    ghost view = { λ s. record { written = s.written.items; script = s.script } };
}

impl MemorySink {
    /// An empty sink. `faults` numbers the calls that are to fail, from 0. A call that is to fail, or
    /// that lacks memory, writes nothing and is counted. Takes no memory.
    pub fn new(alloc: Global, faults: NumberList) -> MemorySink
        ensures { result ≡ record { written = []; script = script_of faults 0 } }
    {
        MemorySink {
            written: Vec::new(alloc),
            script: Script::new(faults),
        }
    }

    /// All that was written. Takes no memory.
    pub fn bytes(&self) -> &[u8]
        ensures { result.now ≡ self.now.written }
    {
        self.written.as_slice()
    }
}

impl Sink for MemorySink {
    ghost tells = { λ _. Unit {0} };

    ghost written = { λ sink. sink.written };

    ghost faults = { λ sink. faults_of sink.script };

    fn write(&mut self, bytes: &[u8]) -> Result<(), SinkFailed>
        ensures written { self.new.written
            ≡ (if is_ok result then self.old.written ++ bytes.now else self.old.written) }
        ensures counts { Counted self.old.script false result self.new.script }
    {
        if self.script.fails() {
            return Err(SinkFailed);
        }
        if self.written.extend_from_slice(bytes).is_err() {
            self.script.lack_memory();
            return Err(SinkFailed);
        }
        Ok(())
    }
}
