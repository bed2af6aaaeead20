//! The sorts of rows.

use crate::{arena, references, tokens};
use anyhow::{Result, bail};
use html_charref::EntityTable;
use std::alloc::Global;

/// What rows are about.
#[derive(Clone, Copy)]
pub(crate) enum Sort {
    References,
    Tokens,
    Arena,
}

impl Sort {
    /// The sort that a heading names.
    pub(crate) fn named(name: &str) -> Result<Sort> {
        Ok(match name {
            "references" => Sort::References,
            "tokens" => Sort::Tokens,
            "arena" => Sort::Arena,
            _ => bail!("no such sort of rows"),
        })
    }
}

/// Writes what a row of a sort answers.
pub(crate) fn answer(
    alloc: Global,
    table: &EntityTable,
    sort: Sort,
    row: &str,
    out: &mut String,
) -> Result<()> {
    match sort {
        Sort::References => references::answer(alloc, table, row, out),
        Sort::Tokens => tokens::answer(alloc, table, row, out),
        Sort::Arena => Ok(arena::answer(alloc, row, out)?),
    }
}
