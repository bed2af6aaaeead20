//! Why a tree was not printed.

use html_device::DeviceFault;
use std::alloc::AllocError;
use thiserror::Error;

/// Why a tree was not printed to its end.
#[derive(Clone, Copy, Debug, PartialEq, Eq, Drop, Error)]
pub enum PrintError {
    /// Memory for the attributes of one element was refused, before anything was written.
    #[error("out of memory")]
    OutOfMemory,
    /// The writer failed, or took no bytes.
    #[error("the writer failed")]
    Write,
}

impl From<AllocError> for PrintError {
    ghost use Rattle.std.specs.Prelude.{◌≡◌};
    ghost use Rattle.html_print.specs.declared.error.PrintError.TheVariants.{OutOfMemory};

    ghost from_gives = { λ _ e. e ≡ OutOfMemory };

    fn from(_error: AllocError) -> Self {
        PrintError::OutOfMemory
    }
}

impl From<DeviceFault> for PrintError {
    ghost use Rattle.std.specs.Prelude.{◌≡◌};
    ghost use Rattle.html_print.specs.declared.error.PrintError.TheVariants.{Write};

    ghost from_gives = { λ _ e. e ≡ Write };

    fn from(_fault: DeviceFault) -> Self {
        PrintError::Write
    }
}
