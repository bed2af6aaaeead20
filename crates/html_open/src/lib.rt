//! The open elements of a page: the stack, the list of active formatting elements, and the place for a new node.
//! Imported by crates of this workspace.
#![tactic(auto)]

mod adoption;
mod appropriate_place;
mod attributes;
mod entry;
mod inserting;
mod keeping;
mod list;
mod places;
mod pushing;
mod reopening;
mod search;
mod stack;

pub use adoption::{AdoptEnd, adopt, adoption_has_one_outcome};
pub use appropriate_place::place;
pub use html_arena::ArenaError;
pub use html_names::Scope;
pub use inserting::insert;
pub use keeping::{first_kept_by_edits, kept_by_edits};
pub use list::FormattingList;
pub use places::{Place, put};
pub use stack::OpenStack;
