//! Why there are no tokens.

use html_input::InputError;
use html_tokens::TokenError;
use std::alloc::{AllocError, AllocFailed};
use thiserror::Error;

/// Why an input has no token list.
#[derive(Clone, Copy, Debug, PartialEq, Eq, Drop, Error)]
pub enum TokenListError {
    /// Memory for the tokens was refused.
    #[error("out of memory")]
    OutOfMemory,
    /// The input is longer than the limit.
    #[error("input too long")]
    InputTooLong,
    /// A layer below takes no more. `tokenize` never answers it.
    #[error("stopped")]
    Stopped,
}

impl From<AllocError> for TokenListError {
    ghost use Rattle.std.specs.Prelude.{◌≡◌};
    ghost use Rattle.html_page.specs.declared.error.TokenListError.TheVariants.{OutOfMemory};

    ghost from_gives = { λ _ e. e ≡ OutOfMemory };

    fn from(_error: AllocError) -> Self {
        TokenListError::OutOfMemory
    }
}

impl<T: Drop> From<AllocFailed<T>> for TokenListError {
    ghost use Rattle.std.specs.Prelude.{◌≡◌};
    ghost use Rattle.html_page.specs.declared.error.TokenListError.TheVariants.{OutOfMemory};

    ghost from_gives = { λ _ e. e ≡ OutOfMemory };

    fn from(_error: AllocFailed<T>) -> Self {
        TokenListError::OutOfMemory
    }
}

impl From<InputError> for TokenListError {
    ghost use Rattle.std.specs.Prelude.{◌≡◌};
    ghost use Rattle.html_page.specs.Causes.{cause_of};

    ghost from_gives = { λ e f. f ≡ cause_of e };

    fn from(error: InputError) -> Self {
        match error {
            InputError::OutOfMemory => TokenListError::OutOfMemory,
            InputError::InputTooLong => TokenListError::InputTooLong,
            InputError::Stopped => TokenListError::Stopped,
        }
    }
}

impl From<TokenError> for TokenListError {
    ghost use Rattle.std.specs.Prelude.{◌≡◌};
    ghost use Rattle.html_page.specs.Causes.{token_cause};

    ghost from_gives = { λ e f. f ≡ token_cause e };

    fn from(error: TokenError) -> Self {
        match error {
            TokenError::OutOfMemory => TokenListError::OutOfMemory,
            TokenError::Stopped => TokenListError::Stopped,
        }
    }
}
