//! What C reads of a page in one call: the names and texts of all nodes, and the tokens with their fates.
//! Imported by zilqumet_c alone.
#![tactic(auto)]

mod gathered;
mod ledger;
mod nodes;
mod text;

pub use gathered::Gathered;
pub use ledger::{Ledger, ZqToken};
pub use nodes::{NO_NODE, number};
pub use text::{Text, address_of, address_of_numbers, text_of};
