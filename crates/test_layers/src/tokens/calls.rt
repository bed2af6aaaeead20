//! Calls that are refused, lists of attributes, and inputs in one call.

use super::given::{Begin, feed, give};
use super::show::{show, show_faults};
use crate::words::attributes_of;
use anyhow::{Context, Result};
use html_charref::EntityTable;
use html_page::{LIMIT, TokenList, TokenListError, tokenize};
use html_tokens::{Attr, Attrs, TokenError, Tokenizer};
use std::alloc::Global;

/// Feeds a text, ends twice, and adds what each call answers then.
pub(crate) fn refuse(
    alloc: Global,
    t: &mut Tokenizer<'_>,
    text: &str,
    out: &mut String,
) -> Result<()> {
    feed(alloc, t, text)?;
    t.finish()?;
    t.finish()?;
    give(t, out)?;
    calls_after(alloc, t, out)
}

/// What each call answers then.
fn calls_after(alloc: Global, t: &mut Tokenizer<'_>, out: &mut String) -> Result<()> {
    let fed = t.feed(&['b']);
    let finished = t.finish();
    let found = next_run(alloc, t);
    let is_refused = is_refused(t);
    write!(out, " {fed:?} {finished:?} {found:?} {is_refused}")?;
    Ok(())
}

fn next_run(alloc: Global, t: &mut Tokenizer<'_>) -> Result<Option<u64>, TokenError> {
    let mut run: Vec<char> = Vec::new(alloc);
    t.next_run(&mut run)
}

fn is_refused(t: &mut Tokenizer<'_>) -> bool {
    t.next().is_err()
}

/// How many attributes of these names there are, and the names in a share.
pub(crate) fn attributes(alloc: Global, names: &str, out: &mut String) -> Result<()> {
    let attrs = attributes_of(alloc, names)?;
    show_share(out, &attrs)
}

fn show_share(out: &mut String, attrs: &Attrs) -> Result<()> {
    let again = attrs.share()?;
    show_names(out, attrs.len(), &again)
}

fn show_names(out: &mut String, count: usize, attrs: &Attrs) -> Result<()> {
    write!(out, "{count}")?;
    for attr in attrs.as_slice() {
        show_copy(out, attr)?;
    }
    Ok(())
}

/// Adds the name of a copy.
fn show_copy(out: &mut String, attr: &Attr) -> Result<()> {
    let copy = attr.clone()?;
    let name = copy.name.as_str();
    write!(out, " {name}")?;
    Ok(())
}

/// The tokens of an input by one call, its parse errors, and its steps.
pub(crate) fn input(
    alloc: Global,
    table: &EntityTable,
    begin: Begin<'_>,
    bytes: &[u8],
    out: &mut String,
) -> Result<()> {
    let list = tokenize(alloc, table, begin.mode, begin.name, bytes)?;
    show_list(out, &list)
}

fn show_list(out: &mut String, list: &TokenList) -> Result<()> {
    for token in list.tokens.as_slice() {
        show(out, token)?;
    }
    show_faults(out, list.errors.as_slice())?;
    let steps = list.steps;
    write!(out, " {steps} steps")?;
    Ok(())
}

/// Why an input has no tokens that has one code point more than it may, each of them the first of these bytes.
pub(crate) fn beyond(
    alloc: Global,
    table: &EntityTable,
    begin: Begin<'_>,
    bytes: &[u8],
    out: &mut String,
) -> Result<()> {
    let &first = bytes.first().context("no byte")?;
    let mut many = Vec::new(alloc);
    many.resize(LIMIT as usize + 1, first)?;
    let why = refusal_of(alloc, table, begin, many.as_slice());
    write!(out, "{why:?}")?;
    Ok(())
}

fn refusal_of(
    alloc: Global,
    table: &EntityTable,
    begin: Begin<'_>,
    bytes: &[u8],
) -> Option<TokenListError> {
    tokenize(alloc, table, begin.mode, begin.name, bytes).err()
}
