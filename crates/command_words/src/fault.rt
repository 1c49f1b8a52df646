//! Why the words of a command line aren't read.
ghost use Rattle.std.specs.Prelude.{◌≡◌};

use plain_data::{Name, OutOfMemory};
use std::alloc::AllocError;

/// Why the words of a command line aren't read.
#[derive(Debug, Drop)]
pub enum WordsFault {
    /// They aren't those of the command, or a value is out of its form or its range.
    NotRead,
    /// This entry of the list of databases is empty, or this entry of the list of tables names no table.
    BadEntry(Name),
    /// A new name for a database is given, and no database.
    NoSource,
    /// Memory ran out.
    OutOfMemory,
}

impl From<OutOfMemory> for WordsFault {
    ghost use Rattle.command_words.specs.declared.fault.WordsFault.{WordsFault};

    ghost from_gives = { λ _ fault. fault ≡ WordsFault.OutOfMemory };

    fn from(_: OutOfMemory) -> WordsFault {
        WordsFault::OutOfMemory
    }
}

impl From<AllocError> for WordsFault {
    ghost use Rattle.command_words.specs.declared.fault.WordsFault.{WordsFault};

    ghost from_gives = { λ _ fault. fault ≡ WordsFault.OutOfMemory };

    fn from(_: AllocError) -> WordsFault {
        WordsFault::OutOfMemory
    }
}
