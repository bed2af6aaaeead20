//! What a text gives.

use super::show::{show, show_faults};
use anyhow::Result;
use html_tokens::{TextMode, Token, Tokenizer};
use std::alloc::Global;

/// No text of a row has more tokens.
pub(crate) const MOST: u32 = 5_000;

/// How a text begins to be read: its mode, and the name of the start tag before it.
#[derive(Clone, Copy)]
pub(crate) struct Begin<'a> {
    pub mode: TextMode,
    pub name: Option<&'a str>,
}

/// The tokens of a text, its parse errors, and how many steps were taken.
#[derive(Drop)]
pub(crate) struct Given {
    pub tokens: String,
    pub faults: String,
    pub steps: u128,
}

impl Given {
    pub(crate) fn new(alloc: Global) -> Given {
        Given {
            tokens: String::new(alloc),
            faults: String::new(alloc),
            steps: 0,
        }
    }
}

/// Takes the tokens that are decided, and answers how many they are.
pub(crate) fn give(t: &mut Tokenizer<'_>, out: &mut String) -> Result<u32> {
    for count in 0..MOST {
        if !give_one(t, out)? {
            return Ok(count);
        }
    }
    Ok(MOST)
}

/// Takes the next token, and answers whether there was one.
pub(crate) fn give_one(t: &mut Tokenizer<'_>, out: &mut String) -> Result<bool> {
    let token = t.next()?;
    show_next(out, token.as_ref())
}

pub(crate) fn show_next(out: &mut String, token: Option<&Token>) -> Result<bool> {
    match token {
        Some(token) => show(out, token)?,
        None => return Ok(false),
    }
    Ok(true)
}

pub(crate) fn feed(alloc: Global, t: &mut Tokenizer<'_>, text: &str) -> Result<()> {
    let piece: Vec<char> = text.chars().collect(alloc)?;
    t.feed(piece.as_slice())?;
    Ok(())
}

/// What is left when the text has ended.
fn end(t: &mut Tokenizer<'_>, given: &mut Given) -> Result<()> {
    t.finish()?;
    give(t, &mut given.tokens)?;
    show_faults(&mut given.faults, t.errors())?;
    given.steps = t.steps();
    Ok(())
}

/// Feeds a text in its pieces, and adds what they give, with `¶` between them.
fn read_pieces(alloc: Global, t: &mut Tokenizer<'_>, out: &mut String, text: &str) -> Result<()> {
    let mut is_first = true;
    for piece in text.split('¶') {
        if !is_first {
            out.push('¶')?;
        }
        is_first = false;
        feed(alloc, t, piece)?;
        give(t, out)?;
    }
    Ok(())
}

/// Feeds a text code point by code point, and adds what they give.
fn read_code_points(t: &mut Tokenizer<'_>, out: &mut String, text: &str) -> Result<()> {
    for c in text.chars() {
        if c != '¶' {
            t.feed(&[c])?;
            give(t, out)?;
        }
    }
    Ok(())
}

/// Reads a text in its pieces, with `¶` between what they give.
pub(crate) fn read_in_pieces(
    alloc: Global,
    t: &mut Tokenizer<'_>,
    text: &str,
    given: &mut Given,
) -> Result<()> {
    read_pieces(alloc, t, &mut given.tokens, text)?;
    end(t, given)
}

/// Reads a text code point by code point.
pub(crate) fn read_by_points(t: &mut Tokenizer<'_>, text: &str, given: &mut Given) -> Result<()> {
    read_code_points(t, &mut given.tokens, text)?;
    end(t, given)
}
