//! Why a case has no answer.
use plain_data::OutOfMemory;
use std::alloc::AllocError;
use thiserror::Error;

/// Why a case has no answer.
#[derive(Clone, Copy, Debug, Error)]
pub enum CaseFault {
    #[error("not a case")]
    Unread,
    #[error("out of memory")]
    OutOfMemory,
}

impl From<OutOfMemory> for CaseFault {
    fn from(_: OutOfMemory) -> CaseFault {
        CaseFault::OutOfMemory
    }
}

impl From<AllocError> for CaseFault {
    fn from(_: AllocError) -> CaseFault {
        CaseFault::OutOfMemory
    }
}
