// What became of each token, and how large a page is.

use crate::brackets::print_brackets;
use html_arena::{Arena, NodeId};
use html_parser::{Cause, Fate, Page, PageFault, TokenRef, Tree};
use html_tokens::{Span, TokenKind};
use std::alloc::AllocError;

/// Adds a line for each token: its span, what it is, and its fate; a line for each error; and the counts.
pub(crate) fn print_audit(out: &mut String, page: &Page) -> Result<(), AllocError> {
    print_ledger(out, page)?;
    print_errors(out, page.errors.as_slice())?;
    print_counts(out, page.n, page.tokens.len(), &page.arena)?;
    print_steps(out, page.steps)?;
    if page.tokens.len() != page.fates.len() {
        let fates = page.fates.len();
        writeln!(out, "fates {fates}")?;
    }
    Ok(())
}

fn print_ledger(out: &mut String, page: &Page) -> Result<(), AllocError> {
    let mut fates = page.fates.iter();
    for token in page.tokens.iter() {
        print_token(out, token)?;
        match fates.next() {
            Some(fate) => print_fate(out, fate)?,
            None => writeln!(out, " no fate")?,
        }
    }
    Ok(())
}

/// Adds the tree of a page, its errors and its counts, without its ledger.
pub(crate) fn summarise_page(out: &mut String, page: &Page) -> Result<(), AllocError> {
    print_brackets(out, &page.arena)?;
    print_errors(out, page.errors.as_slice())?;
    print_counts(out, page.n, page.tokens.len(), &page.arena)?;
    print_steps(out, page.steps)
}

/// Adds the same of a tree that has no ledger.
pub(crate) fn summarise_tree(out: &mut String, tree: &Tree) -> Result<(), AllocError> {
    print_brackets(out, &tree.arena)?;
    print_errors(out, tree.errors.as_slice())?;
    print_counts(out, tree.n, tree.token_count, &tree.arena)?;
    print_steps(out, tree.steps)
}

fn print_errors(out: &mut String, errors: &[PageFault]) -> Result<(), AllocError> {
    for error in errors {
        let place = error.place;
        let name = error.name;
        writeln!(out, "{place} {name}")?;
    }
    Ok(())
}

fn print_steps(out: &mut String, steps: u128) -> Result<(), AllocError> {
    writeln!(out, "steps {steps}")
}

fn print_token(out: &mut String, token: TokenRef<'_>) -> Result<(), AllocError> {
    match token {
        TokenRef::Char { c, place } => {
            let end = place.saturating_add(1);
            write!(out, "{place} {end} ")?;
            print_kind(out, &TokenKind::Char(c))
        }
        TokenRef::Other(token) => {
            let Span { start, end } = token.span;
            write!(out, "{start} {end} ")?;
            print_kind(out, &token.kind)
        }
    }
}

fn print_counts(out: &mut String, n: u64, tokens: u64, arena: &Arena) -> Result<(), AllocError> {
    let nodes = arena.len();
    let held = arena.held();
    let clones = clones_in(arena);
    writeln!(
        out,
        "n {n}\ntokens {tokens}\nnodes {nodes}\nclones {clones}\nheld {held}"
    )
}

/// How many nodes are clones.
fn clones_in(arena: &Arena) -> u64 {
    let mut clones: u64 = 0;
    for index in 0..arena.len() as usize {
        if arena.is_clone(NodeId::at(index)) {
            clones = clones.saturating_add(1);
        }
    }
    clones
}

fn print_kind(out: &mut String, kind: &TokenKind) -> Result<(), AllocError> {
    match kind {
        TokenKind::Start { name, .. } => write!(out, "start {name}"),
        TokenKind::End { name } => write!(out, "end {name}"),
        TokenKind::Char(c) => {
            let code = *c as u32;
            write!(out, "char U+{code:04X}")
        }
        TokenKind::Comment(_) => write!(out, "comment"),
        TokenKind::Doctype { .. } => write!(out, "doctype"),
        TokenKind::Eof => write!(out, "eof"),
    }
}

fn print_fate(out: &mut String, fate: Fate) -> Result<(), AllocError> {
    match fate {
        Fate::Made(node) => {
            let number = node.index();
            writeln!(out, " made {number}")
        }
        Fate::Foreign(node) => {
            let number = node.index();
            writeln!(out, " made {number}")
        }
        Fate::Merged => writeln!(out, " merged"),
        Fate::Text(node) => {
            let number = node.index();
            writeln!(out, " text {number}")
        }
        Fate::Dropped(cause) => {
            let name = name_of(cause);
            writeln!(out, " dropped {name}")
        }
        Fate::Ended => writeln!(out, " ended"),
    }
}

fn name_of(cause: Cause) -> &'static str {
    match cause {
        Cause::PrologSpace => "PrologSpace",
        Cause::Null => "Null",
        Cause::LeadingNewline => "LeadingNewline",
        Cause::InSelect => "InSelect",
        Cause::InFrameset => "InFrameset",
        Cause::Misplaced => "Misplaced",
        Cause::InColumnGroup => "InColumnGroup",
    }
}
