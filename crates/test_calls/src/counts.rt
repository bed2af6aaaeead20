// How many tokens or nodes there are. One function owns a tokenizer or a builder, and hands it to others by reference.

use html_builder::Builder;
use html_charref::EntityTable;
use html_parser::{Context, ParseError, parse, parse_fragment};
use html_text::Str;
use html_tokens::{TextMode, Tokenizer};
use std::alloc::{AllocError, Global};

/// The table of five names; it is refused for want of memory alone.
pub(crate) fn core_table(alloc: Global) -> Result<EntityTable, ParseError> {
    EntityTable::core(alloc).map_err(|_| ParseError::OutOfMemory)
}

/// The code points of a text.
fn code_points(alloc: Global, text: &str) -> Result<Vec<char>, AllocError> {
    let mut out = Vec::new(alloc);
    for c in text.chars() {
        out.push(c)?;
    }
    Ok(out)
}

/// How many tokens the tokenizer gives of a text.
pub(crate) fn tokens_given(alloc: Global, text: &str) -> Result<u64, ParseError> {
    let table = core_table(alloc)?;
    let text = code_points(alloc, text)?;
    given_of(alloc, &table, text.as_slice())
}

fn given_of(alloc: Global, table: &EntityTable, text: &[char]) -> Result<u64, ParseError> {
    match Tokenizer::new(alloc, table, TextMode::Data, None) {
        Ok(mut tokenizer) => given(&mut tokenizer, text),
        Err(error) => Err(ParseError::from(error)),
    }
}

fn given(tokenizer: &mut Tokenizer<'_>, text: &[char]) -> Result<u64, ParseError> {
    tokenizer.feed(text)?;
    tokenizer.finish()?;
    let mut count: u64 = 0;
    for _ in 0..=text.len() {
        if tokenizer.next()?.is_some() {
            count = count.saturating_add(1);
        }
    }
    Ok(count)
}

/// How many tokens of a text tree construction takes, which says nothing to the tokenizer of the text after them.
pub(crate) fn tokens_taken(alloc: Global, text: &str) -> Result<u64, ParseError> {
    let table = core_table(alloc)?;
    let text = code_points(alloc, text)?;
    taken_of(alloc, &table, text.as_slice())
}

fn taken_of(alloc: Global, table: &EntityTable, text: &[char]) -> Result<u64, ParseError> {
    match Tokenizer::new(alloc, table, TextMode::Data, None) {
        Ok(mut tokenizer) => taken_by(alloc, &mut tokenizer, text),
        Err(error) => Err(ParseError::from(error)),
    }
}

fn taken_by(
    alloc: Global,
    tokenizer: &mut Tokenizer<'_>,
    text: &[char],
) -> Result<u64, ParseError> {
    match Builder::document(alloc) {
        Ok(mut builder) => taken(tokenizer, &mut builder, text),
        Err(error) => Err(ParseError::from(error)),
    }
}

fn taken(
    tokenizer: &mut Tokenizer<'_>,
    builder: &mut Builder,
    text: &[char],
) -> Result<u64, ParseError> {
    tokenizer.feed(text)?;
    tokenizer.finish()?;
    let mut count: u64 = 0;
    for _ in 0..=text.len() {
        if takes_next(tokenizer, builder)? {
            count = count.saturating_add(1);
        }
    }
    Ok(count)
}

/// Whether there is a next token, which is taken.
fn takes_next(tokenizer: &mut Tokenizer<'_>, builder: &mut Builder) -> Result<bool, ParseError> {
    match tokenizer.next()? {
        Some(token) => match builder.process(&token) {
            Ok(_) => Ok(true),
            Err(error) => Err(ParseError::from(error)),
        },
        None => Ok(false),
    }
}

/// How many nodes a page has.
pub(crate) fn page_nodes(alloc: Global, bytes: &[u8]) -> Result<u64, ParseError> {
    let table = core_table(alloc)?;
    match parse(alloc, &table, bytes) {
        Ok(page) => Ok(page.arena.len()),
        Err(error) => Err(error),
    }
}

/// How many nodes a fragment in a `div` has.
pub(crate) fn fragment_nodes(alloc: Global, bytes: &[u8]) -> Result<u64, ParseError> {
    let table = core_table(alloc)?;
    let context = Context {
        name: Str::of(alloc, "div")?,
        in_form: false,
        quirks: false,
        encoding: None,
    };
    match parse_fragment(alloc, &table, &context, bytes) {
        Ok(page) => Ok(page.arena.len()),
        Err(error) => Err(error),
    }
}
