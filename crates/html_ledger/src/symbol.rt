// Tokens as the rules of tree construction tell them apart.
ghost use Rattle.std.specs.Prelude.{◌≡◌};
ghost use Rattle.html_ledger.specs.Spaces.{is_space};

use html_names::Tag;
use html_tokens::TokenKind;

/// A token by what the rules tell of it: a tag by the tag of its name (13.2.6).
#[derive(Clone, Copy, Debug)]
pub enum Symbol {
    Start(Tag),
    End(Tag),
    Char(char),
    Comment,
    Doctype,
    Eof,
}

impl Symbol {
    ghost use Rattle.html_ledger.specs.Symbols.{end_of, start_of, symbol_of};

    /// What the rules tell of a token.
    pub fn of(kind: &TokenKind) -> Symbol
        ensures value { result ≡ symbol_of kind.now }
    {
        match kind {
            TokenKind::Start { name, .. } => Symbol::Start(Tag::of(name.as_str())),
            TokenKind::End { name } => Symbol::End(Tag::of(name.as_str())),
            TokenKind::Char(c) => Symbol::Char(*c),
            TokenKind::Comment(_) => Symbol::Comment,
            TokenKind::Doctype { .. } => Symbol::Doctype,
            TokenKind::Eof => Symbol::Eof,
        }
    }

    /// The tag of a start tag.
    pub fn start(self) -> Option<Tag>
        ensures value { result ≡ start_of self }
    {
        match self {
            Symbol::Start(tag) => Some(tag),
            Symbol::End(_) | Symbol::Char(_) | Symbol::Comment | Symbol::Doctype | Symbol::Eof => {
                None
            },
        }
    }

    /// The tag of an end tag.
    pub fn end(self) -> Option<Tag>
        ensures value { result ≡ end_of self }
    {
        match self {
            Symbol::End(tag) => Some(tag),
            Symbol::Start(_) | Symbol::Char(_) | Symbol::Comment | Symbol::Doctype | Symbol::Eof =>
                None,
        }
    }
}

/// White space, as tree construction has it (13.2.6).
pub fn is_space(c: char) -> bool
    ensures value { result ≡ is_space c }
{
    matches!(c, '\t' | '\n' | '\x0c' | '\r' | ' ')
}
