//! What the program does with a job: it reads a page, prints it, and tells how that ended.
//! Imported by crates of this workspace.
#![tactic(auto)]

mod making;
mod running;
mod writing;

pub use html_print::{DONE, FILE_FAULT, REFUSED};
pub use running::{run, table_of};
