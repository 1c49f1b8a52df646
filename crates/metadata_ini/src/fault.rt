//! Why texts aren't read.
ghost use Rattle.std.specs.Prelude.{◌≡◌};

use plain_data::OutOfMemory;
use thiserror::Error;

/// Why the name of a file isn't read.
#[derive(Clone, Copy, Debug, PartialEq, Eq, Error)]
pub enum NameFault {
    /// The text is the name of no file.
    #[error("not the name of a file")]
    NotAName,
    /// Memory ran out.
    #[error("out of memory")]
    OutOfMemory,
}

impl From<OutOfMemory> for NameFault {
    ghost use Rattle.metadata_ini.specs.declared.fault.NameFault.{NameFault};

    ghost from_gives = { λ _ fault. fault ≡ NameFault.OutOfMemory };

    fn from(_: OutOfMemory) -> NameFault {
        NameFault::OutOfMemory
    }
}

/// Why `metadata` isn't read.
#[derive(Clone, Copy, Debug, PartialEq, Eq, Error)]
pub enum MetadataFault {
    /// It is of another version than 1 and 2.
    #[error("metadata version {0} is not supported")]
    WrongVersion(u32),
    /// That line, from 1, is the first with which no `metadata` goes on; one past the last ended line
    /// where the text ends too early or within a line.
    #[error("bad line {0} in metadata")]
    BadLine(u64),
    /// Memory ran out.
    #[error("out of memory")]
    OutOfMemory,
}

impl From<OutOfMemory> for MetadataFault {
    ghost use Rattle.metadata_ini.specs.declared.fault.MetadataFault.{MetadataFault};

    ghost from_gives = { λ _ fault. fault ≡ MetadataFault.OutOfMemory };

    fn from(_: OutOfMemory) -> MetadataFault {
        MetadataFault::OutOfMemory
    }
}
