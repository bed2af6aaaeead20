//! The tokens of an input as entries.

use crate::entry::{Attribute, Entry};
use html_tokens::{Attr, OptionalStr, Token, TokenKind};
use std::alloc::{AllocError, Global};

/// The entries of tokens, the end of the input left out.
pub(crate) fn given(alloc: Global, tokens: &[Token]) -> Result<Vec<Entry>, AllocError> {
    let mut entries = Vec::new(alloc);
    add_all(alloc, &mut entries, tokens)?;
    Ok(entries)
}

fn add_all(alloc: Global, entries: &mut Vec<Entry>, tokens: &[Token]) -> Result<(), AllocError> {
    for token in tokens {
        add(alloc, entries, &token.kind)?;
    }
    Ok(())
}

fn add(alloc: Global, entries: &mut Vec<Entry>, kind: &TokenKind) -> Result<(), AllocError> {
    match kind {
        TokenKind::Char(c) => add_char(alloc, entries, *c)?,
        TokenKind::Comment(data) => {
            let data = data.as_str().to_string(alloc)?;
            entries.push(Entry::Comment { data })?;
        }
        TokenKind::End { name } => {
            let name = name.as_str().to_string(alloc)?;
            entries.push(Entry::End { name })?;
        }
        TokenKind::Start {
            name,
            attrs,
            self_closing,
        } => {
            let name = name.as_str().to_string(alloc)?;
            let attributes = attributes(alloc, attrs.as_slice())?;
            entries.push(Entry::Start {
                name,
                attributes,
                self_closing: *self_closing,
            })?;
        }
        TokenKind::Doctype {
            name,
            public,
            system,
            force_quirks,
        } => {
            let name = text(alloc, name)?;
            let public = text(alloc, public)?;
            let system = text(alloc, system)?;
            entries.push(Entry::Doctype {
                name,
                public,
                system,
                is_correct: !*force_quirks,
            })?;
        }
        TokenKind::Eof => {}
    }
    Ok(())
}

fn text(alloc: Global, from: &OptionalStr) -> Result<Option<String>, AllocError> {
    match from.as_ref() {
        Some(text) => Ok(Some(text.as_str().to_string(alloc)?)),
        None => Ok(None),
    }
}

/// Joins a character to those before it.
fn add_char(alloc: Global, entries: &mut Vec<Entry>, c: char) -> Result<(), AllocError> {
    if let Some(Entry::Characters { data }) = entries.last_mut() {
        data.push(c)?;
        return Ok(());
    }
    let mut data = String::new(alloc);
    data.push(c)?;
    entries.push(Entry::Characters { data })?;
    Ok(())
}

fn attributes(alloc: Global, attrs: &[Attr]) -> Result<Vec<Attribute>, AllocError> {
    let mut attributes = Vec::new(alloc);
    for attr in attrs {
        let name = attr.name.as_str().to_string(alloc)?;
        let value = attr.value.as_str().to_string(alloc)?;
        attributes.push(Attribute { name, value })?;
    }
    Ok(attributes)
}
