//! The texts of a case, as they stand or escaped once more.

use crate::escapes::{Unescaped, without_escapes};
use std::alloc::{AllocError, AllocFailed, Global};

/// What stops the reading of a case.
#[derive(Drop)]
pub(crate) enum CaseFault {
    /// It is not of the form that cases have.
    Malformed,
    /// It asks for what is not run: an unknown state, or text that UTF-8 can't hold.
    NotRun,
    OutOfMemory,
}

impl From<AllocError> for CaseFault {
    ghost use Rattle.std.specs.Prelude.{◌≡◌};
    ghost use Rattle.html_suite.specs.declared.texts.CaseFault.TheVariants.{OutOfMemory};

    ghost from_gives = { λ _ e. e ≡ OutOfMemory };

    fn from(_error: AllocError) -> Self {
        CaseFault::OutOfMemory
    }
}

impl<T: Drop> From<AllocFailed<T>> for CaseFault {
    ghost use Rattle.std.specs.Prelude.{◌≡◌};
    ghost use Rattle.html_suite.specs.declared.texts.CaseFault.TheVariants.{OutOfMemory};

    ghost from_gives = { λ _ e. e ≡ OutOfMemory };

    fn from(_error: AllocFailed<T>) -> Self {
        CaseFault::OutOfMemory
    }
}

/// How texts of a case are read.
#[derive(Clone, Copy)]
pub(crate) struct Texts {
    pub is_escaped: bool,
}

impl Texts {
    /// What a text stands for.
    pub(crate) fn read(self, alloc: Global, text: &str) -> Result<String, CaseFault> {
        if !self.is_escaped {
            return Ok(String::from_str(alloc, text)?);
        }
        match without_escapes(alloc, text)? {
            Unescaped::Text(text) => Ok(text),
            Unescaped::LoneSurrogate => Err(CaseFault::NotRun),
        }
    }
}
