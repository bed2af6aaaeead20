// What becomes of a token.
ghost use Rattle.std.specs.Prelude.{◌≡◌, ◌↔◌, IsTrue};

use html_arena::NodeId;

/// Why a start tag, a code point or a doctype is dropped.
#[derive(Clone, Copy, Debug, PartialEq, Eq)]
pub enum Cause {
    /// White space before the head.
    PrologSpace,
    /// U+0000.
    Null,
    /// A line feed just after a start tag `pre`, `listing` or `textarea`.
    LeadingNewline,
    /// A start tag that a select does not take.
    InSelect,
    /// A start tag or a code point that a page of frames does not take.
    InFrameset,
    /// A start tag or a doctype where it can't stand.
    Misplaced,
    /// A start tag or a code point that a column group does not take.
    InColumnGroup,
}

/// What becomes of a token.
#[derive(Clone, Copy, Debug, PartialEq, Eq)]
pub enum Fate {
    /// A start tag, a comment or a doctype: this node was made of it.
    Made(NodeId),
    /// A start tag: this element of foreign content was made of it.
    Foreign(NodeId),
    /// A start tag: its attributes were merged into the root or the body.
    Merged,
    /// A code point: it was added to this text.
    Text(NodeId),
    /// The token has no effect on the tree.
    Dropped(Cause),
    /// An end tag, or the end of the page.
    Ended,
}

impl Cause {
    ghost use Rattle.html_ledger.specs.Fates.{is_error_cause};

    /// Whether a token that is dropped so is an error of the page.
    pub fn is_error(self) -> bool
        ensures value { result ≡ is_error_cause self }
    {
        !matches!(self, Cause::PrologSpace | Cause::LeadingNewline)
    }

    /// Whether the two are one.
    pub fn is(self, other: Cause) -> bool
        ensures same { IsTrue result ↔ (self ≡ other) }
    {
        self as u8 == other as u8
    }
}

impl Fate {
    ghost use Rattle.html_ledger.specs.Fates.{is_error, is_foreign, is_made};

    /// Whether a node was made of the token.
    pub fn is_made(&self) -> bool
        ensures value { result ≡ is_made self.now }
    {
        matches!(self, Fate::Made(_))
    }

    /// Whether an element of foreign content was made of the token.
    pub fn is_foreign(&self) -> bool
        ensures value { result ≡ is_foreign self.now }
    {
        matches!(self, Fate::Foreign(_))
    }

    /// Whether the fate tells of an error of the page.
    pub fn is_error(&self) -> bool
        ensures value { result ≡ is_error self.now }
    {
        match self {
            Fate::Dropped(cause) => cause.is_error(),
            Fate::Merged => true,
            Fate::Made(_) | Fate::Foreign(_) | Fate::Text(_) | Fate::Ended => false,
        }
    }

    /// Whether the two are one.
    pub fn is(&self, other: &Fate) -> bool
        ensures same { IsTrue result ↔ (self.now ≡ other.now) }
    {
        match self {
            Fate::Made(node) => match other {
                Fate::Made(second) => node.index() == second.index(),
                Fate::Foreign(_) | Fate::Merged | Fate::Text(_) | Fate::Dropped(_) | Fate::Ended =>
                    false,
            },
            Fate::Foreign(node) => match other {
                Fate::Foreign(second) => node.index() == second.index(),
                Fate::Made(_) | Fate::Merged | Fate::Text(_) | Fate::Dropped(_) | Fate::Ended => {
                    false
                }
            },
            Fate::Merged => matches!(other, Fate::Merged),
            Fate::Text(node) => match other {
                Fate::Text(second) => node.index() == second.index(),
                Fate::Made(_) | Fate::Foreign(_) | Fate::Merged | Fate::Dropped(_) | Fate::Ended =>
                    false,
            },
            Fate::Dropped(cause) => match other {
                Fate::Dropped(second) => cause.is(*second),
                Fate::Made(_) | Fate::Foreign(_) | Fate::Merged | Fate::Text(_) | Fate::Ended =>
                    false,
            },
            Fate::Ended => matches!(other, Fate::Ended),
        }
    }
}
