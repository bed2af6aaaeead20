// Why a call was refused.

use html_construction::ArenaError;
use html_modes::Foreign;
use std::alloc::AllocError;
use thiserror::Error;

/// Why a call was refused. `at` is the start of the token handed in, and 0 before the first.
#[derive(Clone, Copy, Debug, PartialEq, Eq, Error)]
pub enum BuildError {
    #[error("out of memory")]
    OutOfMemory,
    /// A start tag of foreign content, which no rule here takes.
    #[error("foreign content at {at}")]
    ForeignContent { name: Foreign, at: u64 },
    /// The name of the context is no name that a start tag can have, or a foreign one.
    #[error("bad context")]
    BadContext,
    /// An earlier token was refused.
    #[error("stopped")]
    Stopped,
    #[error("the next node would pass the limit on nodes, at {at}")]
    NodeBudget { at: u64 },
    #[error("the next code points would pass the limit on held code points, at {at}")]
    HeldBudget { at: u64 },
}

impl BuildError {
    ghost use Rattle.std.specs.Prelude.{◌≡◌};
    ghost use Rattle.html_builder.specs.Errors.{error_at};

    /// The error of a token that begins at a place.
    pub(crate) fn at(refusal: ArenaError, at: u64) -> BuildError
        ensures value { result ≡ error_at refusal at }
    {
        match refusal {
            ArenaError::OutOfMemory => BuildError::OutOfMemory,
            ArenaError::NodeBudget => BuildError::NodeBudget { at },
            ArenaError::HeldBudget => BuildError::HeldBudget { at },
        }
    }
}

/// A beginning stands at 0.
impl From<ArenaError> for BuildError {
    ghost use Rattle.std.specs.Prelude.{◌≡◌};
    ghost use Rattle.html_builder.specs.Errors.{error_at};

    ghost from_gives = { λ r e. e ≡ error_at r 0 };

    fn from(refusal: ArenaError) -> BuildError {
        BuildError::at(refusal, 0)
    }
}

impl From<AllocError> for BuildError {
    ghost use Rattle.std.specs.Prelude.{◌≡◌};
    ghost use Rattle.html_builder.specs.declared.error.BuildError.TheVariants.{OutOfMemory};

    ghost from_gives = { λ _ e. e ≡ OutOfMemory };

    fn from(_error: AllocError) -> BuildError {
        BuildError::OutOfMemory
    }
}
