//! What a list of tokens is compared by.

use std::alloc::{AllocError, Global};

/// An attribute's name and value.
#[derive(Debug, Drop)]
pub(crate) struct Attribute {
    pub name: String,
    pub value: String,
}

/// A token as the cases write it, neighbouring characters joined.
#[derive(Debug, Drop)]
pub(crate) enum Entry {
    Doctype {
        name: Option<String>,
        public: Option<String>,
        system: Option<String>,
        /// Whether it does not ask for quirks.
        is_correct: bool,
    },
    Start {
        name: String,
        attributes: Vec<Attribute>,
        self_closing: bool,
    },
    End {
        name: String,
    },
    Comment {
        data: String,
    },
    Characters {
        data: String,
    },
}

/// The entries as text, a line each.
pub(crate) fn shown(alloc: Global, entries: &[Entry]) -> Result<String, AllocError> {
    let mut text = String::new(alloc);
    'entries: for entry in entries {
        write!(text, "{entry:?}\n")?;
    }
    Ok(text)
}

/// Whether two lists hold the same. The order of attributes does not count.
pub(crate) fn are_same(left: &[Entry], right: &[Entry]) -> bool {
    left.len() == right.len() && left.iter().zip(right).all(|(l, r)| is_same(l, r))
}

fn is_same(left: &Entry, right: &Entry) -> bool {
    match (left, right) {
        (Entry::Characters { data: l }, Entry::Characters { data: r }) => l == r,
        (Entry::Comment { data: l }, Entry::Comment { data: r }) => l == r,
        (Entry::End { name: l }, Entry::End { name: r }) => l == r,
        (
            Entry::Start {
                name: l,
                attributes: l_attributes,
                self_closing: l_closing,
            },
            Entry::Start {
                name: r,
                attributes: r_attributes,
                self_closing: r_closing,
            },
        ) => l == r && l_closing == r_closing && are_same_attributes(l_attributes, r_attributes),
        (
            Entry::Doctype {
                name: l,
                public: l_public,
                system: l_system,
                is_correct: l_correct,
            },
            Entry::Doctype {
                name: r,
                public: r_public,
                system: r_system,
                is_correct: r_correct,
            },
        ) => l == r && l_public == r_public && l_system == r_system && l_correct == r_correct,
        _ => false,
    }
}

fn are_same_attributes(left: &[Attribute], right: &[Attribute]) -> bool {
    left.len() == right.len() && left.iter().all(|attribute| holds(right, attribute))
}

fn holds(attributes: &[Attribute], wanted: &Attribute) -> bool {
    attributes.iter().any(|attribute| attribute.name == wanted.name
        && attribute.value == wanted.value)
}
