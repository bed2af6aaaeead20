//! Nodes read and edited as callers of the DOM are used to. Each call takes any number of a node, and refuses what would break the tree.
//! Imported by users, as `html_parser::dom`.
#![tactic(auto)]

mod allowed;
mod attrs;
mod error;
mod iterators;
mod joined;
mod links;
mod making;
mod names;
mod parts;
mod places;
mod reads;
mod unwraps;
mod walks;

pub use allowed::AllowList;
pub use attrs::{remove_attr, replace_attrs, set_attr};
pub use error::EditError;
pub use iterators::{Ancestors, Children, Descendants, ElementsNamed, Texts};
pub use joined::text_below;
pub use links::{append, insert_before, remove};
pub use making::{create_element, create_text};
pub use names::{is_attr_name, is_element_name};
pub use parts::{PartError, inner_html, outer_html};
pub use places::{is_node, is_placed, would_cycle};
pub use reads::{
    attr, element, first_child, get, last_child, name, next_sibling, parent, previous_sibling,
};
pub use unwraps::unwrap;
pub use walks::{ancestors, children, descendants, elements_named, texts};
