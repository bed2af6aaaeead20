// Why an edit is refused.

use html_arena::ArenaError;
use std::alloc::AllocError;
use thiserror::Error;

/// Why nodes were not made or changed; the arena is then as it was.
#[derive(Clone, Copy, Debug, PartialEq, Eq, Error)]
pub enum EditError {
    #[error("there is no such node")]
    NoNode,
    #[error("the node is no element")]
    NotElement,
    #[error("no tag of HTML can have this name")]
    BadName,
    #[error("a document and a template's contents have no parent")]
    NotLinkable,
    #[error("the node has no parent")]
    NoParent,
    #[error("the node would stand below itself")]
    Cycle,
    #[error("out of memory")]
    OutOfMemory,
    #[error("the next node would pass the limit on nodes")]
    NodeBudget,
    #[error("the next code points would pass the limit on held code points")]
    HeldBudget,
}

impl From<AllocError> for EditError {
    ghost use Rattle.std.specs.Prelude.{◌≡◌};
    ghost use Rattle.html_dom.specs.declared.error.EditError.TheVariants.{OutOfMemory};

    ghost from_gives = { λ _ e. e ≡ OutOfMemory };

    fn from(_e: AllocError) -> EditError {
        EditError::OutOfMemory
    }
}

impl From<ArenaError> for EditError {
    ghost use Rattle.std.specs.Prelude.{◌≡◌};
    ghost use Rattle.html_dom.specs.Edits.{of_arena};

    ghost from_gives = { λ a e. e ≡ of_arena a };

    fn from(e: ArenaError) -> EditError {
        match e {
            ArenaError::OutOfMemory => EditError::OutOfMemory,
            ArenaError::NodeBudget => EditError::NodeBudget,
            ArenaError::HeldBudget => EditError::HeldBudget,
        }
    }
}
