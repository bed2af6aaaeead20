//! The parser for programs in C: handles that C keeps, and the calls on them.
//! Imported by users, as a static library with a header for C.
#![tactic(auto)]

mod audits;
mod below;
mod changes;
mod edits;
mod entities;
mod errors;
mod held;
mod links;
mod loose;
mod nodes;
mod numbers;
mod parsing;
mod parts;
mod places;
mod pushing;
mod rows;
mod slot;
mod status;
mod texts;
mod tokens;
mod writing;

pub use audits::Audited;
pub use changes::Edit;
pub use held::{Held, Rooted};
pub use numbers::{ZqCounts, ZqLimits};
pub use places::ZqPosition;
pub use rows::ZqRow;
pub use slot::Slot;
pub use texts::ZqTexts;
