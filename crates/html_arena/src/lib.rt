//! The nodes of a page and the links between them.
//! Imported by crates of this workspace.
#![tactic(auto)]

mod arena;
mod attributes;
mod data;
mod links;
mod marks;
mod room;
mod walk;

pub use arena::{Arena, ArenaError, Limits, Meter};
pub use data::{ElementData, Kind, NewNode, NodeData, Origin};
pub use links::NodeId;
pub use marks::{Mark, Marks};
pub use walk::{Event, Show, Walk};
