//! Rows of calls, and what they answer.

use crate::calls::make_call;
use crate::page::Page;
use crate::refusal::Refusal;
use crate::shown::push_open;
use crate::words::Word;
use html_tree::ArenaError;
use std::alloc::{AllocError, Global};

/// Makes the calls of a row on a document of its own, and writes what those after the last `|` answer, or why a call was not made.
pub(crate) fn answer(alloc: Global, row: &str, out: &mut String) -> Result<(), AllocError> {
    match Page::document(alloc) {
        Ok(mut page) => tell(&mut page, alloc, row, out),
        Err(error) => tell_refusal(Refusal::Arena(error), out),
    }
}

fn tell(page: &mut Page, alloc: Global, row: &str, out: &mut String) -> Result<(), AllocError> {
    match follow(page, alloc, row, out) {
        Ok(()) => Ok(()),
        Err(refusal) => {
            tell_refusal(refusal, out)?;
            if refusal == Refusal::Arena(ArenaError::OutOfMemory) {
                go_on(page, alloc, out)?;
            }
            Ok(())
        }
    }
}

/// After memory was refused, writes what is open, opens an element that no token asked for, and writes what is open then.
fn go_on(page: &mut Page, alloc: Global, out: &mut String) -> Result<(), AllocError> {
    out.push_str(" ")?;
    let words = if page.depth() == 0 {
        "open implied-root open"
    } else {
        "open implied:p open"
    };
    match follow(page, alloc, words, out) {
        Ok(()) => Ok(()),
        Err(refusal) => tell_refusal(refusal, out),
    }
}

fn tell_refusal(refusal: Refusal, out: &mut String) -> Result<(), AllocError> {
    write!(out, "{refusal:?}")
}

fn follow(page: &mut Page, alloc: Global, row: &str, out: &mut String) -> Result<(), Refusal> {
    for word in row.split(' ') {
        if word == "|" {
            out.clear();
        } else {
            step(page, alloc, Word::of(word), out)?;
        }
    }
    Ok(())
}

/// A call's answer, or what is open, and a space.
fn step(page: &mut Page, alloc: Global, word: Word<'_>, out: &mut String) -> Result<(), Refusal> {
    if word.name == "open" {
        push_open(out, page)?;
    } else {
        make_call(page, alloc, word, out)?;
    }
    out.push_str(" ")?;
    Ok(())
}
