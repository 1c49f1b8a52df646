//! Cases of a sink and of a clock in memory.
ghost use Rattle.std.specs.Prelude.{◌<◌, All, IfOk};

use crate::words::{bytes_of, first_word, numbers_of, said, said_of, spelled};
use link_traits::{Clock, ClockFailed, Sink};
use memory_outside::{ListClock, MemorySink};
use plain_data::{NumberList, OutOfMemory};
use std::alloc::Global;

/// A sink.
#[derive(Drop)]
pub struct SinkCases {
    alloc: Global,
    sink: MemorySink,
}

impl SinkCases {
    /// An empty sink.
    pub fn new(alloc: Global) -> SinkCases {
        SinkCases {
            alloc,
            sink: MemorySink::new(alloc, NumberList::new(alloc)),
        }
    }

    /// What comes of a call; a new sink has the numbers of the calls that fail.
    pub fn answer(&mut self, call: &str, words: &str) -> Result<String, OutOfMemory> {
        match call {
            "new" => {
                self.sink = MemorySink::new(self.alloc, numbers_of(self.alloc, words)?);
                said(self.alloc, "a sink")
            }
            "write" => self.write(words),
            "bytes" => spelled(self.alloc, self.sink.bytes()),
            _ => said(self.alloc, "no call"),
        }
    }

    fn write(&mut self, words: &str) -> Result<String, OutOfMemory> {
        let bytes = bytes_of(self.alloc, words)?;
        said_of(self.alloc, self.sink.write(&bytes).is_ok(), "written")
    }
}

/// A clock.
#[derive(Drop)]
pub struct ClockCases {
    alloc: Global,
    clock: ListClock,
}

impl ClockCases {
    /// A clock without times.
    pub fn new(alloc: Global) -> ClockCases {
        ClockCases {
            alloc,
            clock: ListClock::new(NumberList::new(alloc), NumberList::new(alloc)),
        }
    }

    /// What comes of a call; a new clock has its times, and the numbers of the calls that fail.
    pub fn answer(&mut self, call: &str, words: &str) -> Result<String, OutOfMemory> {
        match call {
            "new" => self.begin(words),
            "now" => self.now(),
            _ => said(self.alloc, "no call"),
        }
    }

    fn begin(&mut self, words: &str) -> Result<String, OutOfMemory> {
        let (times, faults) = first_word(words);
        let times = moments_of(self.alloc, times)?;
        let faults = numbers_of(self.alloc, faults)?;
        self.clock = ListClock::new(times, faults);
        said(self.alloc, "a clock")
    }

    fn now(&mut self) -> Result<String, OutOfMemory> {
        match self.clock.now() {
            Ok(moment) => Ok(format!(in self.alloc; "{moment}")?),
            Err(ClockFailed) => said(self.alloc, "failed"),
        }
    }
}

// Times before the year 9999, with commas.
fn moments_of(alloc: Global, words: &str) -> Result<NumberList, OutOfMemory>
    ensures { IfOk result (λ moments. All (λ moment. moment < 253370764800) moments) }
{
    let mut moments = NumberList::new(alloc);
    for word in words.split(',') {
        let moment = word.parse().unwrap_or(u64::MAX);
        if moment < 253_370_764_800 {
            moments.push(moment)?;
        }
    }
    Ok(moments)
}
