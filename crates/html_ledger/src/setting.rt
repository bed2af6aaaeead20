// What is parsed: a document, or a fragment in its context.
ghost use Rattle.std.specs.Prelude.{◌≡◌};

use crate::bools::either;
use html_names::Tag;

/// What is parsed (13.2 and 13.4).
#[derive(Clone, Copy, Debug)]
pub enum Setting {
    /// A whole document.
    Document,
    /// A fragment: the tag of its context element, and whether a form stands around it.
    Fragment { context: Tag, in_form: bool },
}

impl Setting {
    ghost use Rattle.html_ledger.specs.Settings.{context_is, has_form, is_document, is_foreign_context};

    /// A whole document.
    pub fn is_document(self) -> bool
        ensures value { result ≡ is_document self }
    {
        matches!(self, Setting::Document)
    }

    /// The context element has this name.
    pub fn context_is(self, name: Tag) -> bool
        ensures value { result ≡ context_is name self }
    {
        match self {
            Setting::Document => false,
            Setting::Fragment { context, .. } => context.is(name),
        }
    }

    /// The context is an element of foreign content.
    pub fn is_foreign(self) -> bool
        ensures value { result ≡ is_foreign_context self }
    {
        match self {
            Setting::Document => false,
            Setting::Fragment { context, .. } => context.is_foreign(),
        }
    }

    /// A form is the context, or stands around it.
    pub fn has_form(self) -> bool
        ensures value { result ≡ has_form self }
    {
        match self {
            Setting::Document => false,
            Setting::Fragment { context, in_form } => either(in_form, context.is(Tag::Form)),
        }
    }
}
