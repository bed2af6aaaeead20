//! Character references: the table of named ones, and the numbers of numeric ones.
//! Imported by crates of this workspace.
#![tactic(auto)]

mod number;
mod ranges;
mod read;
mod table;
mod walk;

pub use number::{Base, RefFault, add_digit, numeric};
pub use read::EntityError;
pub use table::{EntityTable, RefText, Row};
pub use walk::{Step, Walk};
