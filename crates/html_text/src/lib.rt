//! Texts as lists of code points, kept as UTF-8 or wide; keys of objects; and the front of bytes that is plain text.
//! Imported by crates of this workspace.
#![tactic(auto)]

mod key;
mod plain;
mod run;
mod short;
mod text;
mod wide;

pub use key::Key;
pub use plain::{PlainText, plain_len, plain_start};
pub use text::Str;
pub use wide::WideStr;
