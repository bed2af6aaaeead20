// A token of a list, lent.

use html_tokens::Token;

/// A token of a list, borrowed.
#[derive(Clone, Copy, Debug)]
pub enum TokenRef<'a> {
    /// A code point of text, at a place of its own.
    Char { c: char, place: u64 },
    /// Any other token.
    Other(&'a Token),
}
