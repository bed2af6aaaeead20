// A page and the limit on its steps.

use crate::cuts::gives;
use crate::page::{Ask, Reading, page_of};
use anyhow::Result;
use html_charref::EntityTable;
use html_parser::{Limits, ParseError};
use std::alloc::Global;

/// Of an input of which this text comes where no limits are set: whether the same comes of it within a limit of as many steps as its page
/// counts, and it is refused for its steps within a limit of one less, whole and byte by byte. Of what has no page nothing is asked.
pub(crate) fn is_exact(
    alloc: Global,
    table: &EntityTable,
    ask: Ask<'_>,
    input: &[u8],
    whole: &str,
) -> Result<bool> {
    let Some(steps) = steps_of(alloc, table, ask, input) else {
        return Ok(true);
    };
    let enough = within(ask, steps);
    if !gives(alloc, table, Reading::Whole, enough, input, whole)?
        || !gives(alloc, table, Reading::Bytes, enough, input, whole)?
    {
        return Ok(false);
    }
    let short = within(ask, steps.saturating_sub(1));
    Ok(
        is_refused(alloc, table, Reading::Whole, short, input)
            && is_refused(alloc, table, Reading::Bytes, short, input),
    )
}

/// Whether the page of an input, if it has one, counts no more steps than are proved for its code points: 1024 (n + 32)³.
pub(crate) fn is_bounded(alloc: Global, table: &EntityTable, ask: Ask<'_>, input: &[u8]) -> bool {
    match page_of(alloc, table, Reading::Whole, ask, input) {
        Ok(page) => page.steps <= most_steps(page.n),
        Err(_) => true,
    }
}

fn most_steps(n: u64) -> u128 {
    let side = (n as u128).saturating_add(32);
    side.saturating_mul(side)
        .saturating_mul(side)
        .saturating_mul(1024)
}

/// How many steps the page of an input counts, where it has one and no limits are set.
fn steps_of(alloc: Global, table: &EntityTable, ask: Ask<'_>, input: &[u8]) -> Option<u64> {
    if ask.limits.is_some() {
        return None;
    }
    match page_of(alloc, table, Reading::Whole, ask, input) {
        Ok(page) => u64::try_from(page.steps).ok(),
        Err(_) => None,
    }
}

/// The same within a limit on steps.
fn within(ask: Ask<'_>, steps: u64) -> Ask<'_> {
    Ask {
        limits: Some(Limits {
            nodes: u64::MAX,
            held: u64::MAX,
            code_points: u64::MAX,
            steps,
        }),
        ..ask
    }
}

/// Whether an input is refused for its steps.
fn is_refused(
    alloc: Global,
    table: &EntityTable,
    reading: Reading,
    ask: Ask<'_>,
    input: &[u8],
) -> bool {
    match page_of(alloc, table, reading, ask, input) {
        Ok(_) => false,
        Err(error) => matches!(error, ParseError::StepBudget { .. }),
    }
}
