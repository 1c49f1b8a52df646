//! The calls that are to fail, and the counts of those that did.
ghost use Rattle.std.specs.Prelude.{◌≡◌, ◌==◌, ◌+◌, IfOk, if◌then◌else◌};
ghost use Rattle.std.specs.List.{list_any};
ghost use Rattle.memory_outside.specs.Script.{script_of, Counts, at_most_count, number_of, is_listed, after_fault, after_want, after_call, sum_of_counts};

use plain_data::{NumberList, OutOfMemory};
use std::marker::Model;

// A list of the calls that are to fail, with what was counted.
#[derive(Drop)]
pub(crate) struct Script {
    failing: NumberList,
    // The number of the next call.
    call: u64,
    // Failures that were asked for or could not be helped.
    listed: u64,
    // Failures for want of memory.
    wanting: u64,
}

impl Model for Script {
    ghost use Rattle.memory_outside.specs.Script.{Counts};

    ghost Value = { Counts };

    ghost view = { λ s. record {
      failing = s.failing;
      call = s.call;
      listed = s.listed;
      wanting = s.wanting;
    } };
}

impl Script {
    // The first call is the first of the first object.
    pub(crate) fn new(failing: NumberList) -> Script
        ensures { result ≡ script_of failing 0 }
    {
        Script {
            failing,
            call: 0,
            listed: 0,
            wanting: 0,
        }
    }

    // The same list for another object, whose next call is given.
    pub(crate) fn of(&self, object: u64, call: u64) -> Result<Script, OutOfMemory>
        ensures { IfOk result (λ made. made ≡ script_of self.now.failing (number_of object call)) }
    {
        let mut made = Script::new(self.failing.copy()?);
        made.turn(object, call);
        Ok(made)
    }

    // The next call is that call of that object.
    pub(crate) fn turn(&mut self, object: u64, call: u64)
        ensures { self.new ≡ record self.old { call = number_of object call } }
    {
        self.call = object.saturating_mul(1_000_000).saturating_add(call);
    }

    // Makes the next call, and counts it as a failure if it is listed.
    pub(crate) fn fails(&mut self) -> bool
        ensures answer { result ≡ is_listed self.old }
        ensures counts { self.new ≡ after_call self.old }
    {
        let call = self.call;
        self.call = call.saturating_add(1);
        let listed = contains(self.failing.as_slice(), call);
        self.listed = risen(self.listed, listed);
        listed
    }

    // Counts a failure that could not be helped.
    pub(crate) fn fail(&mut self)
        ensures { self.new ≡ after_fault self.old }
    {
        self.listed = self.listed.saturating_add(1);
    }

    // Counts a failure for want of memory.
    pub(crate) fn lack_memory(&mut self)
        ensures { self.new ≡ after_want self.old }
    {
        self.wanting = self.wanting.saturating_add(1);
    }

    // Adds the failures of another object.
    pub(crate) fn add(&mut self, others: &Script)
        ensures { self.new ≡ sum_of_counts self.old others.now }
    {
        self.listed = self.listed.saturating_add(others.listed);
        self.wanting = self.wanting.saturating_add(others.wanting);
    }
}

// A count that rises by one where the fact holds.
fn risen(count: u64, rises: bool) -> u64
    ensures { result ≡ (if rises then at_most_count (count + 1) else count) }
{
    if rises {
        count.saturating_add(1)
    } else {
        count
    }
}

// Whether a call is listed.
fn contains(failing: &[u64], call: u64) -> bool
    ensures { result ≡ list_any (λ number. number == call) failing.now }
{
    failing.iter().any(|number| *number == call)
}
