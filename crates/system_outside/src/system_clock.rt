//! The time of day as the system tells it.
ghost use Rattle.std.specs.Prelude.{◌≡◌, ◌<◌, [], IfSome};

use link_traits::{Clock, ClockFailed};
use std::marker::Model;
use std::time;
use std::time::{SystemTime, UNIX_EPOCH};

// The first second of the year 9999, in seconds since 1970.
const START_OF_9999: u64 = 253_370_764_800;

/// The system's clock. It doesn't tell the moments that it gave.
#[derive(Drop)]
pub struct SystemClock<R> {
    rt: R,
    faults: u64,
}

impl<R> Model for SystemClock<R> {
    ghost use Rattle.std.specs.Prelude.{ℕ};

    ghost Value = { ℕ };

    ghost view = { λ c. c.faults };
}

impl<R> SystemClock<R> {
    /// A clock that has not failed yet. Takes no memory.
    pub fn new(rt: R) -> SystemClock<R>
        ensures { result ≡ 0 }
    {
        SystemClock { rt, faults: 0 }
    }

    /// How often the clock has failed. Takes no memory.
    pub fn faults(&self) -> u64
        ensures { result ≡ self.now }
    {
        self.faults
    }
}

// The seconds since 1970, or `None` where the clock fails or stands outside its range.
fn seconds_since_1970<R: time::Clock>(rt: &R) -> Option<u64>
    ensures { IfSome result (λ moment. moment < 253370764800) }
{
    let now = SystemTime::now(rt).ok()?;
    let moment = now.duration_since(UNIX_EPOCH).ok()?.as_secs();
    if moment < START_OF_9999 {
        Some(moment)
    } else {
        None
    }
}

impl<R: time::Clock> Clock for SystemClock<R> {
    ghost tells = { λ _. ⊥ };

    ghost given = { λ _. [] };

    ghost faults = { λ clock. clock };

    fn now(&mut self) -> Result<u64, ClockFailed> {
        let Some(moment) = seconds_since_1970(&self.rt) else {
            self.faults = self.faults.saturating_add(1);
            return Err(ClockFailed);
        };
        Ok(moment)
    }
}
