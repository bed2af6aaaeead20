//! The state of tree construction (13.2.4): the tree under construction, the ledger of what became of each token, the insertion mode and the
//! other registers, with every operation that the insertion modes are made of.
//! Imported by crates of this workspace.
#![tactic(auto)]

mod construction;
mod mode;
mod registers;
mod token;

pub use construction::Construction;
pub use html_arena::ArenaError;
pub use mode::Mode;
