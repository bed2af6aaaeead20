//! What the program prints: trees as the html5lib tests write them, lists of what a page has, and how it ended.
//! Imported by crates of this workspace.
#![tactic(auto)]

mod attributes;
mod audit;
mod counts;
mod error;
mod errors;
mod fault_names;
mod line;
mod nodes;
mod printing;
mod status;
mod telling;

pub use audit::write_audit;
pub use counts::write_counts;
pub use error::PrintError;
pub use errors::{write_errors, write_located_errors};
pub use html_arena::{Arena, NodeId};
pub use html_device::{DeviceFault, FailAt, OverWrite, Sink};
pub use printing::print_tree;
pub use status::{DONE, FILE_FAULT, REFUSED, WRONG_WORDS};
pub use telling::{outcome, tell, tell_table};
