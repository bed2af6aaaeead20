//! What rows of all sorts are made of.

use anyhow::{Context, Result};
use html_text::Str;
use html_tokens::{Attr, Attrs};
use std::alloc::{AllocError, Global};

/// The first word of a line, and what follows it.
pub(crate) fn first_word<'a>(line: &'a str) -> Result<(&'a str, &'a str)> {
    line.split_once(' ').context("a word is missing")
}

/// The attributes that words tell: each a name and, behind `=`, a value.
pub(crate) fn attributes_of(alloc: Global, words: &str) -> Result<Attrs, AllocError> {
    let mut list = Vec::new(alloc);
    push_attributes(alloc, &mut list, words)?;
    Attrs::from_vec(list)
}

fn push_attributes(alloc: Global, list: &mut Vec<Attr>, words: &str) -> Result<(), AllocError> {
    for word in words.split_whitespace() {
        list.push(attribute_of(alloc, word)?)?;
    }
    Ok(())
}

/// The attributes that a text tells, with `&` between them.
pub(crate) fn attributes_between(alloc: Global, text: &str) -> Result<Attrs, AllocError> {
    let mut list = Vec::new(alloc);
    push_between(alloc, &mut list, text)?;
    Attrs::from_vec(list)
}

fn push_between(alloc: Global, list: &mut Vec<Attr>, text: &str) -> Result<(), AllocError> {
    for part in text.split('&') {
        if !part.is_empty() {
            list.push(attribute_of(alloc, part)?)?;
        }
    }
    Ok(())
}

fn attribute_of(alloc: Global, word: &str) -> Result<Attr, AllocError> {
    let (name, value) = word.split_once('=').unwrap_or((word, ""));
    let name = Str::of(alloc, name)?;
    let value = Str::of(alloc, value)?;
    Ok(Attr { name, value })
}
