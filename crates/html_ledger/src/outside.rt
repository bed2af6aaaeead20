// What a select, a page of frames and a column group do not take, and what belongs inside others.
ghost use Rattle.std.specs.Prelude.{◌≡◌};
ghost use Rattle.html_ledger.specs.Errors.{ends_initial, may_be_ignored};
ghost use Rattle.html_ledger.specs.Fated.{is_end};
ghost use Rattle.html_ledger.specs.MayDrop.{is_in_frameset, is_in_select, is_body_or_table, is_outside_column_group, is_outside_frameset, is_outside_select};
ghost use Rattle.html_ledger.specs.Symbols.{is_char, is_space_char, is_visible_char};

use crate::symbol::{Symbol, is_space};
use html_names::Tag;

/// A start tag that a select takes (13.2.6.4.16).
pub fn is_in_select(tag: Tag) -> bool
    ensures value { result ≡ is_in_select tag }
{
    matches!(
        tag,
        Tag::Html | Tag::Option | Tag::Optgroup | Tag::Hr | Tag::Script | Tag::Template
    )
}

/// A start tag that every mode of a page of frames takes (13.2.6.4.20 to 13.2.6.4.23).
pub fn is_in_frameset(tag: Tag) -> bool
    ensures value { result ≡ is_in_frameset tag }
{
    matches!(tag, Tag::Html | Tag::Noframes)
}

/// An element that is ignored where a template was made, and in a fragment (13.2.6.4.7 and 13.2.6.4.9).
pub fn is_body_or_table(tag: Tag) -> bool
    ensures value { result ≡ is_body_or_table tag }
{
    matches!(tag, Tag::Body | Tag::Table)
}

impl Symbol {
    /// This code point.
    pub fn is_char(self, c: char) -> bool
        ensures value { result ≡ is_char c self }
    {
        match self {
            Symbol::Char(found) => found == c,
            Symbol::Start(_) | Symbol::End(_) | Symbol::Comment | Symbol::Doctype | Symbol::Eof => {
                false
            },
        }
    }

    /// A code point of white space.
    pub fn is_space_char(self) -> bool
        ensures value { result ≡ is_space_char self }
    {
        match self {
            Symbol::Char(c) => is_space(c),
            Symbol::Start(_) | Symbol::End(_) | Symbol::Comment | Symbol::Doctype | Symbol::Eof => {
                false
            },
        }
    }

    /// A code point that is no white space.
    pub fn is_visible_char(self) -> bool
        ensures value { result ≡ is_visible_char self }
    {
        match self {
            Symbol::Char(c) => !is_space(c),
            Symbol::Start(_) | Symbol::End(_) | Symbol::Comment | Symbol::Doctype | Symbol::Eof => {
                false
            },
        }
    }

    /// An end tag, or the end of the page.
    pub fn is_end(self) -> bool
        ensures value { result ≡ is_end self }
    {
        matches!(self, Symbol::End(_) | Symbol::Eof)
    }

    /// An end tag but that of the body and of the root: where its rules leave the tree as it is, that is an error.
    pub fn may_be_ignored(self) -> bool
        ensures value { result ≡ may_be_ignored self }
    {
        match self.end() {
            Some(tag) => !tag.is_outermost(),
            None => false,
        }
    }

    /// A token that leaves the mode initial and is no doctype: all but white space and comments (13.2.6.4.1).
    pub fn ends_initial(self) -> bool
        ensures value { result ≡ ends_initial self }
    {
        match self {
            Symbol::Char(c) => !is_space(c),
            Symbol::Start(_) | Symbol::End(_) | Symbol::Eof => true,
            Symbol::Comment | Symbol::Doctype => false,
        }
    }

    /// A start tag that a select does not take.
    pub fn is_outside_select(self) -> bool
        ensures value { result ≡ is_outside_select self }
    {
        match self.start() {
            Some(tag) => !is_in_select(tag),
            None => false,
        }
    }

    /// A start tag or a code point that a page of frames does not take.
    pub fn is_outside_frameset(self) -> bool
        ensures value { result ≡ is_outside_frameset self }
    {
        match self.start() {
            Some(tag) => !is_in_frameset(tag),
            None => self.is_visible_char(),
        }
    }

    /// A start tag or a code point that a column group does not take.
    pub fn is_outside_column_group(self) -> bool
        ensures value { result ≡ is_outside_column_group self }
    {
        match self.start() {
            Some(tag) => !tag.is_in_column_group(),
            None => self.is_visible_char(),
        }
    }
}
