//! A clock that gives the times of a list.
ghost use Rattle.std.specs.Prelude.{◌≡◌, ◌<◌, ◌+◌, ◌-◌, ◌^◌, ◌==◌, ◌||◌, ◌++◌, ◌∷◌, [], All, IfOk, is_ok, is_err};
ghost use Rattle.memory_outside.specs.Moments.{ClockState, time_at, given_of, is_used_up, clock_after_now};
ghost use Rattle.memory_outside.specs.Script.{script_of, faults_of, is_listed, Counted};

use crate::script::Script;
use link_traits::{Clock, ClockFailed};
use plain_data::NumberList;
use std::marker::Model;

/// A clock that gives the times of a list in turn, and tells them.
#[derive(Drop)]
pub struct ListClock {
    times: NumberList,
    answers: usize,
    script: Script,
}

impl Model for ListClock {
    ghost use Rattle.std.specs.Prelude.{◌<◌, All};
    ghost use Rattle.memory_outside.specs.Moments.{ClockState};

    ghost Value = { ClockState };

    ghost view = { λ c. record { times = c.times; answers = c.answers; script = c.script } };

    ghost invariant = { λ c. All (λ time. time < 253370764800) c.times };
}

impl ListClock {
    /// A clock of these times, in seconds since 1970, each before the year 9999. It gives them in
    /// turn, the last one again past the end, and 0 where there is none. `faults` numbers the calls
    /// that are to fail, from 0; past 2^64 - 1 answers every call fails. Takes no memory.
    pub fn new(times: NumberList, faults: NumberList) -> ListClock
        requires { All (λ time. time < 253370764800) times }
        ensures { result ≡ record { times = times; answers = 0; script = script_of faults 0 } }
    {
        ListClock {
            times,
            answers: 0,
            script: Script::new(faults),
        }
    }
}

// The answer of this number.
fn moment_at(times: &[u64], number: usize) -> u64
    ensures { result ≡ time_at times.now number }
{
    if times.is_empty() {
        return 0;
    }
    times[number.min(times.len() - 1)]
}

impl Clock for ListClock {
    ghost tells = { λ _. Unit {0} };

    ghost given = { λ clock. given_of clock.times clock.answers };

    ghost faults = { λ clock. faults_of clock.script };

    fn now(&mut self) -> Result<u64, ClockFailed>
        ensures moment { IfOk result (λ moment. moment ≡ time_at self.old.times self.old.answers) }
        ensures given { IfOk result (λ moment. given_of self.new.times self.new.answers
            ≡ given_of self.old.times self.old.answers ++ moment ∷ []) }
        ensures in_range { IfOk result (λ moment. moment < 253370764800) }
        ensures clock { self.new ≡ clock_after_now self.old (is_ok result) self.new.script }
        ensures counts { Counted self.old.script (is_used_up self.old) result self.new.script }
        ensures fails { is_err result ≡ (is_listed self.old.script || is_used_up self.old) }
    {
        if self.script.fails() {
            return Err(ClockFailed);
        }
        if self.answers == usize::MAX {
            self.script.fail();
            return Err(ClockFailed);
        }
        let moment = moment_at(self.times.as_slice(), self.answers);
        self.answers += 1;
        Ok(moment)
    }
}
