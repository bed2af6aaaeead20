//! Why there is no page.

use html_builder::{BuildError, Foreign as ForeignRoot};
use html_input::InputError;
use html_tokens::TokenError;
use std::alloc::{AllocError, AllocFailed};
use thiserror::Error;

/// Why an input was refused. Places are indices into the text of the input.
#[derive(Clone, Copy, Debug, PartialEq, Eq, Drop, Error)]
pub enum ParseError {
    /// Memory was refused.
    #[error("out of memory")]
    OutOfMemory,
    /// The input has more code points than the limit.
    #[error("input too long")]
    InputTooLong,
    /// A start tag `svg` or `math` begins at `at`, where the rules of the body meet it, and foreign content is refused.
    #[error("foreign content at {at}")]
    ForeignContent { name: ForeignRoot, at: u64 },
    /// The name of a fragment's context is not one that an HTML element can have, nor, where foreign content is parsed, an element of that.
    #[error("bad context")]
    BadContext,
    /// The reader failed.
    #[error("cannot read")]
    Read,
    /// The writer failed, or took no bytes.
    #[error("cannot write")]
    Write,
    /// An earlier piece was refused.
    #[error("stopped")]
    Stopped,
    /// One node more than the limit allows, for the token at `at`.
    #[error("node budget at {at}")]
    NodeBudget { at: u64 },
    /// One code point more than the limit on held code points allows, for the token at `at`.
    #[error("held budget at {at}")]
    HeldBudget { at: u64 },
    /// More steps than the limit allows were counted before the token at `at`, or before the end of the text there.
    #[error("step budget at {at}")]
    StepBudget { at: u64 },
}

impl From<AllocError> for ParseError {
    ghost use Rattle.std.specs.Prelude.{◌≡◌};
    ghost use Rattle.html_parser.specs.declared.error.ParseError.TheVariants.{OutOfMemory};

    ghost from_gives = { λ _ e. e ≡ OutOfMemory };

    fn from(_error: AllocError) -> Self {
        ParseError::OutOfMemory
    }
}

impl<T: Drop> From<AllocFailed<T>> for ParseError {
    ghost use Rattle.std.specs.Prelude.{◌≡◌};
    ghost use Rattle.html_parser.specs.declared.error.ParseError.TheVariants.{OutOfMemory};

    ghost from_gives = { λ _ e. e ≡ OutOfMemory };

    fn from(_error: AllocFailed<T>) -> Self {
        ParseError::OutOfMemory
    }
}

impl From<InputError> for ParseError {
    ghost use Rattle.std.specs.Prelude.{◌≡◌};
    ghost use Rattle.html_parser.specs.Causes.{input_cause};

    ghost from_gives = { λ e f. f ≡ input_cause e };

    fn from(error: InputError) -> Self {
        match error {
            InputError::OutOfMemory => ParseError::OutOfMemory,
            InputError::InputTooLong => ParseError::InputTooLong,
            InputError::Stopped => ParseError::Stopped,
        }
    }
}

impl From<TokenError> for ParseError {
    ghost use Rattle.std.specs.Prelude.{◌≡◌};
    ghost use Rattle.html_parser.specs.Causes.{token_cause};

    ghost from_gives = { λ e f. f ≡ token_cause e };

    fn from(error: TokenError) -> Self {
        match error {
            TokenError::OutOfMemory => ParseError::OutOfMemory,
            TokenError::Stopped => ParseError::Stopped,
        }
    }
}

impl From<BuildError> for ParseError {
    ghost use Rattle.std.specs.Prelude.{◌≡◌};
    ghost use Rattle.html_parser.specs.Causes.{build_cause};

    ghost from_gives = { λ e f. f ≡ build_cause e };

    fn from(error: BuildError) -> Self {
        match error {
            BuildError::OutOfMemory => ParseError::OutOfMemory,
            BuildError::ForeignContent { name, at } => ParseError::ForeignContent { name, at },
            BuildError::BadContext => ParseError::BadContext,
            BuildError::Stopped => ParseError::Stopped,
            BuildError::NodeBudget { at } => ParseError::NodeBudget { at },
            BuildError::HeldBudget { at } => ParseError::HeldBudget { at },
        }
    }
}
