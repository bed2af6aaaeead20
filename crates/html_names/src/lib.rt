//! The element names that HTML's tree construction and serialising tell apart, and the sets of them.
//! Imported by crates of this workspace.
#![tactic(auto)]

mod foreign;
mod groups;
mod guess;
mod names;
mod sets;
mod tag;

pub use foreign::{
    AttrSpace, Space, adjusted_attr, adjusted_name, attr_space, is_font_attr, is_html_encoding,
    is_local_name, is_math_text_part, is_unknown_breakout, local_attr_name, local_name,
};
pub use sets::Scope;
pub use tag::Tag;
