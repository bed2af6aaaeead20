// Why a call was not made.
use html_tree::ArenaError;
use std::alloc::AllocError;
use thiserror::Error;

/// Why a call was not made.
#[derive(Clone, Copy, Debug, PartialEq, Eq, Error)]
pub(crate) enum Refusal {
    #[error("{0}")]
    Arena(ArenaError),
    /// What the call asks for does not hold.
    #[error("a condition of the call does not hold")]
    Condition,
    #[error("a word names no call")]
    NoCall,
    #[error("a word has no number where one is to stand")]
    NoNumber,
}

impl From<ArenaError> for Refusal {
    fn from(error: ArenaError) -> Refusal {
        Refusal::Arena(error)
    }
}

impl From<AllocError> for Refusal {
    fn from(_error: AllocError) -> Refusal {
        Refusal::Arena(ArenaError::OutOfMemory)
    }
}
