// Pages by parsers that own their table, in pieces.
ghost use Rattle.std.specs.Prelude.{◌<◌};

use crate::counts::core_table;
use html_parser::{EntityTable, Options, OwnedParser, OwnedTreeParser, ParseError, parse};
use std::alloc::{AllocError, Global};
use std::sync::Arc;

/// What a page counts.
#[derive(Clone, Copy, PartialEq, Eq)]
struct Counts {
    nodes: u64,
    tokens: u64,
    errors: usize,
    n: u64,
    steps: u128,
    held: u128,
}

/// The table of five names, to be shared.
fn shared_table(alloc: Global) -> Result<Arc<EntityTable>, ParseError> {
    let table = core_table(alloc)?;
    Arc::new(alloc, table).map_err(|_| ParseError::OutOfMemory)
}

/// How many nodes a page has, where pieces of one byte and of three count what the whole counts; else `Stopped`.
pub(crate) fn owned_nodes(alloc: Global, bytes: &[u8]) -> Result<u64, ParseError> {
    let table = shared_table(alloc)?;
    let whole = whole_counts(alloc, &table, bytes)?;
    let by_ones = page_counts(alloc, shared(&table)?, 1, bytes)?;
    let by_threes = page_counts(alloc, shared(&table)?, 3, bytes)?;
    if by_ones != whole || by_threes != whole {
        return Err(ParseError::Stopped);
    }
    Ok(whole.nodes)
}

/// The same by parsers that keep no tokens.
pub(crate) fn owned_tree_nodes(alloc: Global, bytes: &[u8]) -> Result<u64, ParseError> {
    let table = shared_table(alloc)?;
    let whole = whole_counts(alloc, &table, bytes)?;
    let by_ones = tree_counts(alloc, shared(&table)?, 1, bytes)?;
    let by_threes = tree_counts(alloc, shared(&table)?, 3, bytes)?;
    if by_ones != whole || by_threes != whole {
        return Err(ParseError::Stopped);
    }
    Ok(whole.nodes)
}

fn shared(table: &Arc<EntityTable>) -> Result<Arc<EntityTable>, AllocError> {
    Arc::try_clone(table)
}

fn whole_counts(alloc: Global, table: &EntityTable, bytes: &[u8]) -> Result<Counts, ParseError> {
    let page = parse(alloc, table, bytes)?;
    Ok(Counts {
        nodes: page.arena.len(),
        tokens: page.tokens.len() as u64,
        errors: page.errors.len(),
        n: page.n,
        steps: page.steps,
        held: page.arena.held(),
    })
}

fn page_counts(
    alloc: Global,
    table: Arc<EntityTable>,
    length: usize,
    bytes: &[u8],
) -> Result<Counts, ParseError>
    requires some { 0 < length }
{
    let mut parser = OwnedParser::new(alloc, table, &Options::new())?;
    let mut fed = Ok(());
    for piece in bytes.chunks(length) {
        fed = fed.and(parser.feed(piece));
    }
    let page = fed.and(parser.finish())?;
    Ok(Counts {
        nodes: page.arena.len(),
        tokens: page.tokens.len() as u64,
        errors: page.errors.len(),
        n: page.n,
        steps: page.steps,
        held: page.arena.held(),
    })
}

fn tree_counts(
    alloc: Global,
    table: Arc<EntityTable>,
    length: usize,
    bytes: &[u8],
) -> Result<Counts, ParseError>
    requires some { 0 < length }
{
    let mut parser = OwnedTreeParser::new(alloc, table, &Options::new())?;
    let mut fed = Ok(());
    for piece in bytes.chunks(length) {
        fed = fed.and(parser.feed(piece));
    }
    let tree = fed.and(parser.finish())?;
    Ok(Counts {
        nodes: tree.arena.len(),
        tokens: tree.token_count,
        errors: tree.errors.len(),
        n: tree.n,
        steps: tree.steps,
        held: tree.arena.held(),
    })
}
