//! A list of tokens in which text takes little room: a code point of text takes what it takes in UTF-8, and not a token.
//! Imported by crates of this workspace.
#![tactic(auto)]

mod chars;
mod finding;
mod iter;
mod lent;
mod pieces;
mod tokens;

pub use iter::Iter;
pub use lent::TokenRef;
pub use tokens::Tokens;
