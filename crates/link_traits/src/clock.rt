//! The time of day.
ghost use Rattle.std.specs.Prelude.{◌<◌, ◌↔◌, ℕ, List, IfOk};
ghost use Rattle.link_traits.specs.Cause.{HasCause};
ghost use Rattle.link_traits.specs.Reports.{GivesMoment};

use thiserror::Error;

/// The clock failed, and has counted it.
#[derive(Clone, Copy, Debug, PartialEq, Eq, Error)]
#[error("clock failed")]
pub struct ClockFailed;

/// What tells the time of day.
pub trait Clock {
    /// Whether the clock tells the moments that it gave. The adapter of the system's clock doesn't.
    ghost tells: { Self → Type 0 };

    /// The moments that it gave, where it tells them.
    ghost given: { Self → List ℕ };

    /// How often the clock has failed.
    ghost faults: { Self → ℕ };

    /// The seconds since 1970, before the year 9999. Any other time is a failure.
    fn now(&mut self) -> Result<u64, ClockFailed>
        ensures tells { tells self.old ↔ tells self.new }
        ensures given { tells self.old → GivesMoment (given self.old) result (given self.new) }
        ensures in_range { IfOk result (λ moment. moment < 253370764800) }
        ensures cause { HasCause (faults self.old) (faults self.new) result };
}
