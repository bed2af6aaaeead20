//! The ledger of tree construction: what becomes of each token, and what that settles about the fates of later tokens.
//! Imported by crates of this workspace.
#![tactic(auto)]

mod allowed;
mod bools;
mod errors;
mod fate;
mod fates;
mod history;
mod iter;
mod judge;
mod ledger;
mod outside;
mod runs;
mod setting;
mod symbol;

pub use fate::{Cause, Fate};
pub use fates::Fates;
pub use history::History;
pub use iter::Iter;
pub use judge::is_fated;
pub use ledger::Ledger;
pub use outside::{is_body_or_table, is_in_frameset, is_in_select};
pub use runs::Run;
pub use setting::Setting;
pub use symbol::{Symbol, is_space};
