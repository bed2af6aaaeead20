//! Rows of calls, and what they answer.

use crate::calls::{Word, make_call};
use crate::page::Page;
use crate::refusal::Refusal;
use crate::shown::show;
use std::alloc::{AllocError, Global};

/// Makes the calls of a row on a page of its own, and writes what those after the last `|` answer, or why a call was not made.
pub(crate) fn answer(alloc: Global, row: &str, out: &mut String) -> Result<(), AllocError> {
    let mut page = Page::new(alloc);
    tell(&mut page, alloc, row, out)
}

fn tell(page: &mut Page, alloc: Global, row: &str, out: &mut String) -> Result<(), AllocError> {
    if let Err(refusal) = follow(page, alloc, row, out) {
        write!(out, "{refusal:?}")?;
    }
    Ok(())
}

fn follow(page: &mut Page, alloc: Global, row: &str, out: &mut String) -> Result<(), Refusal> {
    for word in row.split(' ') {
        if word == "|" {
            out.clear();
        } else {
            step(page, alloc, Word::of(word), out)?;
        }
    }
    Ok(())
}

/// What a word asks for: what there is, or a call's answer, a slash and its steps.
fn step(page: &mut Page, alloc: Global, word: Word<'_>, out: &mut String) -> Result<(), Refusal> {
    if show(page, word, out)? {
        return Ok(());
    }
    let start = page.arena().meter().steps;
    insist(page, alloc, word, out)?;
    let steps = page.arena().meter().steps.saturating_sub(start);
    if word.is_counted() {
        write!(out, "/{steps}")?;
    }
    out.push_str(" ")?;
    Ok(())
}

/// Makes a call. Where memory was refused and nothing was changed, the call is made once more.
fn insist(page: &mut Page, alloc: Global, word: Word<'_>, out: &mut String) -> Result<(), Refusal> {
    let before = counts(page);
    match make_call(page, alloc, word, out) {
        Err(refusal) if refusal.is_out_of_memory() && counts(page) == before => {
            make_call(page, alloc, word, out)
        }
        made => made,
    }
}

/// The numbers of nodes, open elements, held code points and steps.
fn counts(page: &Page) -> (u64, usize, u128, u128) {
    let arena = page.arena();
    (arena.len(), page.depth(), arena.held(), arena.meter().steps)
}
