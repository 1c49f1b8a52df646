//! Why a text isn't read as a statement.
ghost use Rattle.std.specs.Prelude.{◌≡◌};

use plain_data::OutOfMemory;
use thiserror::Error;

/// Why a text wasn't read as a statement.
#[derive(Clone, Copy, Debug, PartialEq, Eq, Error)]
pub enum StatementFault {
    /// The text is no statement's. The number is the length of the longest prefix with which some
    /// statement's text begins.
    #[error("no statement: the text leaves them after {0} bytes")]
    BadStatement(usize),
    /// Memory ran out.
    #[error("out of memory")]
    OutOfMemory,
}

impl From<OutOfMemory> for StatementFault {
    ghost use Rattle.statement_reading.specs.declared.fault.StatementFault.{StatementFault};

    ghost from_gives = { λ _ fault. fault ≡ StatementFault.OutOfMemory };

    fn from(_: OutOfMemory) -> StatementFault {
        StatementFault::OutOfMemory
    }
}
