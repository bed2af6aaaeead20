//! Lists of tokens.

use crate::words::{char_of, chars_of};
use anyhow::{Result, bail};
use html_text::Str;
use html_token_list::{TokenRef, Tokens};
use html_tokens::{Span, Token, TokenKind};
use std::alloc::Global;

/// A number in a word.
fn number(word: &str) -> Result<u64> {
    match word.parse::<u64>() {
        Ok(number) => Ok(number),
        Err(_) => bail!("no number"),
    }
}

/// A token of a word, apart from its span.
fn kind_of(alloc: Global, word: &str) -> Result<TokenKind> {
    if word == "eof" {
        return Ok(TokenKind::Eof);
    }
    if let Some(name) = word.strip_prefix("</") {
        return Ok(TokenKind::End {
            name: Str::of(alloc, name)?,
        });
    }
    match word.chars().next() {
        Some(c) => Ok(TokenKind::Char(char_of(c))),
        None => bail!("no token"),
    }
}

/// Adds what a word stands for: a token with its span, or code points of text and the place of the first.
fn add(alloc: Global, tokens: &mut Tokens, word: &str) -> Result<()> {
    let Some((what, span)) = word.split_once('@') else {
        bail!("no span")
    };
    match span.split_once('-') {
        Some((start, end)) => add_token(alloc, tokens, what, number(start)?, number(end)?),
        None => add_text(alloc, tokens, what, number(span)?),
    }
}

fn add_token(alloc: Global, tokens: &mut Tokens, what: &str, start: u64, end: u64) -> Result<()> {
    let kind = kind_of(alloc, what)?;
    let span = Span { start, end };
    tokens.push(Token { kind, span })?;
    Ok(())
}

fn add_text(alloc: Global, tokens: &mut Tokens, letters: &str, place: u64) -> Result<()> {
    let text = chars_of(alloc, letters)?;
    tokens.push_text(text.as_slice(), place)?;
    Ok(())
}

/// A token of a list.
fn show(out: &mut String, token: TokenRef<'_>) -> Result<()> {
    match token {
        TokenRef::Char { c, place } => write!(out, "{c} at {place}")?,
        TokenRef::Other(token) => {
            let Span { start, end } = token.span;
            match &token.kind {
                TokenKind::End { name } => write!(out, "end {name} {start}..{end}")?,
                TokenKind::Char(c) => write!(out, "{c} {start}..{end}")?,
                _ => write!(out, "other {start}..{end}")?,
            }
        },
    }
    Ok(())
}

/// Adds the tokens that a list has after the words, and the one of a number.
pub(crate) fn list(alloc: Global, index: &str, words: &[&str], out: &mut String) -> Result<()> {
    let mut tokens = Tokens::new(alloc);
    fill(alloc, &mut tokens, words)?;
    show_list(out, &tokens, index)
}

fn fill(alloc: Global, tokens: &mut Tokens, words: &[&str]) -> Result<()> {
    if tokens.is_empty() {
        for word in words {
            add(alloc, tokens, *word)?;
        }
    }
    Ok(())
}

fn show_list(out: &mut String, tokens: &Tokens, index: &str) -> Result<()> {
    let len = tokens.len();
    write!(out, "{len}:")?;
    for token in tokens.iter() {
        out.push(' ')?;
        show(out, token)?;
        out.push(',')?;
    }
    match tokens.get(number(index)?) {
        Some(token) => {
            write!(out, " {index} is ")?;
            show(out, token)?;
        },
        None => write!(out, " {index} is none")?,
    }
    Ok(())
}
