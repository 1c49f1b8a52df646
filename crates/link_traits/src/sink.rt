//! Where reports go.
ghost use Rattle.std.specs.Prelude.{◌↔◌, ℕ, List};
ghost use Rattle.link_traits.specs.Cause.{HasCause};
ghost use Rattle.link_traits.specs.Reports.{Reports};

use thiserror::Error;

/// The sink failed, and has counted it.
#[derive(Clone, Copy, Debug, PartialEq, Eq, Error)]
#[error("report failed")]
pub struct SinkFailed;

/// What reports are written to.
pub trait Sink {
    /// Whether the sink tells what was written. The adapter of a terminal doesn't.
    ghost tells: { Self → Type 0 };

    /// What was written, where it tells that.
    ghost written: { Self → List ℕ };

    /// How often the sink has failed.
    ghost faults: { Self → ℕ };

    /// Writes all bytes. At a failure a front of them was written.
    fn write(&mut self, bytes: &[u8]) -> Result<(), SinkFailed>
        ensures tells { tells self.old ↔ tells self.new }
        ensures written { tells self.old →
            Reports (written self.old) bytes.now result (written self.new) }
        ensures cause { HasCause (faults self.old) (faults self.new) result };
}
