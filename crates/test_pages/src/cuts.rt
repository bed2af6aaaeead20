// Inputs cut into pieces.

use crate::audit::print_audit;
use crate::brackets::print_brackets;
use crate::page::{Ask, Reading, page_of};
use anyhow::Result;
use html_charref::EntityTable;
use html_parser::{Page, ParseError};
use std::alloc::{AllocError, Global};

/// How the text of a refusal begins.
const REFUSED: &str = "refused: ";

/// Of an input of which this text comes whole: whether the same comes of it in two pieces for every cut, byte by byte, and in pieces of other lengths.
pub(crate) fn is_same_cut(
    alloc: Global,
    table: &EntityTable,
    ask: Ask<'_>,
    input: &[u8],
    whole: &str,
) -> Result<bool> {
    for at in 0..input.len() {
        if !gives(alloc, table, Reading::Cut(at), ask, input, whole)? {
            return Ok(false);
        }
    }
    Ok(
        gives(alloc, table, Reading::Bytes, ask, input, whole)?
            && gives(alloc, table, Reading::Pieces(1), ask, input, whole)?
            && gives(alloc, table, Reading::Pieces(3), ask, input, whole)?,
    )
}

/// Of an input that has a page, or holds foreign content: the length of its first front for which neither is so, or of which something else
/// comes byte by byte.
pub(crate) fn odd_front(
    alloc: Global,
    table: &EntityTable,
    ask: Ask<'_>,
    input: &[u8],
    whole: &str,
) -> Result<Option<usize>> {
    if !is_page_or_foreign(whole) {
        return Ok(None);
    }
    for end in 0..input.len() {
        if is_odd(alloc, table, ask, &input[..end])? {
            return Ok(Some(end));
        }
    }
    Ok(None)
}

/// Whether an input has no page and is not refused for foreign content, or something else comes of it byte by byte.
fn is_odd(alloc: Global, table: &EntityTable, ask: Ask<'_>, input: &[u8]) -> Result<bool> {
    let mut whole = String::new(alloc);
    print_input(alloc, table, Reading::Whole, ask, input, &mut whole)?;
    let is_same = gives(alloc, table, Reading::Bytes, ask, input, whole.as_str())?;
    Ok(!is_same || !is_page_or_foreign(whole.as_str()))
}

/// Whether this text came of a page, or of a refusal for foreign content.
fn is_page_or_foreign(text: &str) -> bool {
    match text.strip_prefix(REFUSED) {
        Some(cause) => cause.starts_with("foreign content "),
        None => true,
    }
}

/// Whether this text comes of an input.
pub(crate) fn gives(
    alloc: Global,
    table: &EntityTable,
    reading: Reading,
    ask: Ask<'_>,
    input: &[u8],
    wanted: &str,
) -> Result<bool> {
    let mut text = String::new(alloc);
    print_input(alloc, table, reading, ask, input, &mut text)?;
    Ok(text.as_str() == wanted)
}

/// Adds the tree and the ledger of an input's page, or why there is none.
pub(crate) fn print_input(
    alloc: Global,
    table: &EntityTable,
    reading: Reading,
    ask: Ask<'_>,
    bytes: &[u8],
    out: &mut String,
) -> Result<()> {
    let page = page_of(alloc, table, reading, ask, bytes);
    print_answer(out, &page)
}

/// Adds the tree and the ledger of a page, or why there is none.
fn print_answer(out: &mut String, page: &Result<Page, ParseError>) -> Result<()> {
    match page {
        Ok(page) => print_whole(out, page)?,
        Err(error) => print_refusal(out, *error)?,
    }
    Ok(())
}

fn print_whole(out: &mut String, page: &Page) -> Result<(), AllocError> {
    print_brackets(out, &page.arena)?;
    out.push('\n')?;
    print_audit(out, page)
}

pub(crate) fn print_refusal(out: &mut String, error: ParseError) -> Result<(), AllocError> {
    writeln!(out, "{REFUSED}{error}")
}
