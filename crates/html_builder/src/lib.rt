//! The builder of a page's tree: tree construction (13.2.6) over the tokens of a document or of a fragment, as they are handed in one by one, with
//! a ledger of what became of each.
//! Imported by crates of this workspace.
#![tactic(auto)]

mod builder;
mod context;
mod error;
mod switches;

pub use builder::Builder;
pub use context::Context;
pub use error::BuildError;
pub use html_construction::Mode;
pub use html_modes::Foreign;
