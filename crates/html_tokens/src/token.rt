// Tokens.
ghost use Rattle.std.specs.Prelude.{chars, ◌≡◌, ℕ, ◌≤◌, ◌+◌, ◌∷◌, [], ◌++◌, OnOk, IfOk, OnErr};
ghost use Rattle.html_tokens.specs.Tokens.{is_data, text_char};

use crate::attributes::Attrs;
use crate::nulls::null_replaced;
use crate::optional::OptionalStr;
use html_charref::Base;
use html_text::Str;
use std::alloc::{AllocError, Global};
use std::marker::Model;

/// The name of a tag, code point by code point.
#[derive(Drop)]
pub struct Name(pub Vec<char>);

impl Model for Name {
    ghost use Rattle.std.specs.Prelude.{ℕ, List};

    ghost Value = { List ℕ };

    ghost view = { λ n. n.0.items };
}

impl Name {
    pub(crate) fn of(alloc: Global, text: &str) -> Result<Name, AllocError>
        ensures { IfOk result (λ name. name ≡ chars text.now) }
    {
        Ok(Name(text.chars().collect(alloc)?))
    }

    pub(crate) fn as_slice(&self) -> &[char]
        ensures { result.now ≡ self.now }
    {
        self.0.as_slice()
    }
}

/// What a token is.
#[derive(Debug, Drop)]
pub enum TokenKind {
    /// A start tag: its name, its attributes, of those with one name the first, and whether it ends with `/>`.
    Start {
        name: Str,
        attrs: Attrs,
        self_closing: bool,
    },
    /// An end tag, whose attributes are dropped.
    End {
        name: Str,
    },
    /// One code point of text.
    Char(char),
    /// A comment: its data.
    Comment(Str),
    /// A doctype: its name and ids, each where it is there, and its force-quirks flag.
    Doctype {
        name: OptionalStr,
        public: OptionalStr,
        system: OptionalStr,
        force_quirks: bool,
    },
    /// The end of the text.
    Eof,
}

/// Places of the text, counted in code points from 0; the end is excluded.
#[derive(Clone, Copy, Debug, PartialEq, Eq)]
pub struct Span {
    pub start: u64,
    pub end: u64,
}

/// A token and where it stands.
#[derive(Debug, Drop)]
pub struct Token {
    pub kind: TokenKind,
    pub span: Span,
}

/// How text is read (HTML 13.2.5.1 to 13.2.5.5). `Foreign` is data in foreign content, where `<![CDATA[` begins a section.
#[derive(Clone, Copy, Debug, PartialEq, Eq)]
pub enum TextMode {
    Data,
    Rcdata,
    Rawtext,
    Script,
    Plaintext,
    Foreign,
}

/// The part of script text that a place is in.
#[derive(Clone, Copy)]
pub enum Region {
    Plain,
    Escaped,
    Double,
}

/// What begins at a place of text.
#[derive(Clone, Copy)]
pub enum Begin {
    Char,
    Markup,
    EndMark,
    Reference,
    Section,
}

/// What a `&` begins.
#[derive(Clone, Copy)]
pub enum RefOpener {
    Named,
    Numeric(Base, usize),
    Literal,
}

/// What a `<` in data begins.
#[derive(Clone, Copy)]
pub enum Opener {
    Literal,
    StartTag,
    EndTag,
    Empty,
    Bogus(usize),
    Comment,
    ShortComment(usize),
    Doctype,
}

impl TextMode {
    /// Whether it is data, in foreign content or not.
    pub(crate) fn is_data(self) -> bool
        ensures { result ≡ is_data self }
    {
        match self {
            TextMode::Data => true,
            TextMode::Rcdata => false,
            TextMode::Rawtext => false,
            TextMode::Script => false,
            TextMode::Plaintext => false,
            TextMode::Foreign => true,
        }
    }

    /// U+0000 is kept in data, and becomes U+FFFD in other text.
    pub(crate) fn text_char(self, c: char) -> char
        ensures { result ≡ text_char self c }
    {
        match self {
            TextMode::Data | TextMode::Foreign => c,
            TextMode::Rcdata | TextMode::Rawtext | TextMode::Script | TextMode::Plaintext => {
                null_replaced(c)
            },
        }
    }
}
