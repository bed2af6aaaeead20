//! Rows of calls on an arena: words, with a space between them.
//!
//! A row begins with an empty arena. A word makes a call, and is answered where the call is refused, or it asks for what
//! there is.

mod calls;
mod refusal;
mod shown;
mod word;

use self::calls::make_call;
use self::refusal::Refusal;
use self::shown::show;
use self::word::{Word, number};
use html_arena::{Arena, ArenaError, Limits};
use std::alloc::{AllocError, Global};

/// Follows a row from an empty arena, and writes what its words answer.
pub(crate) fn answer(alloc: Global, row: &str, out: &mut String) -> Result<(), AllocError> {
    let mut arena = Arena::new(alloc);
    arena.reserve(3);
    follow(&mut arena, alloc, row, out)
}

fn follow(arena: &mut Arena, alloc: Global, row: &str, out: &mut String) -> Result<(), AllocError> {
    for word in row.split(' ') {
        if let Err(refusal) = step(arena, alloc, Word::of(word), out) {
            write!(out, "{refusal:?} ")?;
        }
    }
    Ok(())
}

fn step(arena: &mut Arena, alloc: Global, word: Word<'_>, out: &mut String) -> Result<(), Refusal> {
    if show(arena, alloc, word, out)? {
        return Ok(());
    }
    if word.name == "within" {
        return confine(arena, alloc, word);
    }
    insist(arena, alloc, word, out)
}

/// Begins anew with an empty arena within limits of nodes and held code points.
fn confine(arena: &mut Arena, alloc: Global, word: Word<'_>) -> Result<(), Refusal> {
    let limits = Limits {
        nodes: number(word.first)? as u64,
        held: number(word.second)? as u64,
        code_points: 0,
        steps: 0,
    };
    *arena = Arena::within(alloc, limits);
    Ok(())
}

/// Makes a call. Where memory was refused and nothing was changed, the call is made once more.
fn insist(
    arena: &mut Arena,
    alloc: Global,
    word: Word<'_>,
    out: &mut String,
) -> Result<(), Refusal> {
    let before = counts(arena);
    let made = make_call(arena, alloc, word, out);
    if made == Err(Refusal::Arena(ArenaError::OutOfMemory)) && counts(arena) == before {
        return make_call(arena, alloc, word, out);
    }
    made
}

/// The numbers of nodes, held code points and steps.
pub(crate) fn counts(arena: &Arena) -> (u64, u128, u128) {
    (arena.len(), arena.held(), arena.meter().steps)
}
