//! Why a call was not made.

use html_arena::ArenaError;
use std::alloc::AllocError;

/// Why a call was not made.
#[derive(Clone, Copy, Debug, PartialEq, Eq)]
pub(crate) enum Refusal {
    Arena(ArenaError),
    /// What the call asks for does not hold.
    Condition,
    /// A word names no call.
    NoCall,
    /// A word has no number where one is to stand.
    NoNumber,
}

impl From<ArenaError> for Refusal {
    fn from(error: ArenaError) -> Refusal {
        Refusal::Arena(error)
    }
}

impl From<AllocError> for Refusal {
    fn from(_error: AllocError) -> Refusal {
        Refusal::Arena(ArenaError::OutOfMemory)
    }
}
