//! The tree under construction: its nodes, the stack of open elements, the list of active formatting elements and the element pointers
//! (13.2.4), with every operation of tree construction that gives no token its fate.
//! Imported by crates of this workspace.
#![tactic(auto)]

mod foreign;
mod groups;
mod naming;
mod paragraphs;
mod search;
mod seats;
mod target;
mod tree;

pub use groups::{Group, Stop, TableContext, Target};
pub use html_open::{AdoptEnd, ArenaError, Scope};
pub use naming::{is_foreign_root, opens};
pub use seats::is_part;
pub use tree::OpenTree;
