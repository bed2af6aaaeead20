//! A page from its bytes.

ghost use Rattle.std.specs.Prelude.{◌≡◌, ◌≢◌, ◌<◌, ◌≤◌, ◌⊎◌, [], None, Some, IfErr, IfOk, OnOk, length, min};
ghost use Rattle.html_arena.specs.Walking.{IsRoot};
ghost use Rattle.html_input.specs.Decode.{code_points};
ghost use Rattle.html_input.specs.declared.decoder.TheConstants.{LIMIT};
ghost use Rattle.html_builder.specs.Contexts.{IsGood};
ghost use Rattle.html_parser.specs.Causes.{IsCause};
ghost use Rattle.html_parser.specs.Fed.{IsFed};
ghost use Rattle.html_parser.specs.Staged.{KeepsTokens};
ghost use Rattle.html_parser.specs.Parsed.{IsPageOf, IsTreeOf};
ghost use Rattle.html_parser.specs.Options.{HasGoodContext, IsBeginCause, start_of};
ghost use Rattle.html_parser.specs.Start.{Start, document_start, fragment_start, most_within};

use crate::error::ParseError;
use crate::options::Options;
use crate::page::{Page, Tree};
use crate::parser::Parser;
use html_arena::Limits;
use html_builder::Context;
use html_charref::EntityTable;
use html_input::{LIMIT, count_code_points};
use std::alloc::Global;

/// The page of an input. An input of more code points than the limit is refused as too long, before all else.
///
/// # Errors
///
/// Those of `Parser::feed`.
pub fn parse(alloc: Global, table: &EntityTable, bytes: &[u8]) -> Result<Page, ParseError>
    ensures page { IfOk result (IsPageOf (document_start table.now None) bytes.now) }
    ensures root { IfOk result (λ page. IsRoot page.arena page.root) }
    ensures cause { IfErr result (IsCause (document_start table.now None) bytes.now) }
    ensures within { IfErr result (λ e. e ≢ ParseError.InputTooLong → length (code_points bytes.now) ≤ LIMIT) }
{
    check_length(bytes, LIMIT)?;
    let parser = Parser::document(alloc, table)?;
    page_of(parser, bytes)
}

/// The page of an input, within limits. An input of more code points than the limit is refused as too long, before all else.
///
/// # Errors
///
/// Those of `Parser::document_within` and of `Parser::feed`.
pub fn parse_within(
    alloc: Global,
    table: &EntityTable,
    limits: Limits,
    bytes: &[u8],
) -> Result<Page, ParseError>
    ensures page { IfOk result (IsPageOf (document_start table.now (Some limits)) bytes.now) }
    ensures root { IfOk result (λ page. IsRoot page.arena page.root) }
    ensures cause { IfErr result (λ e. IsCause (document_start table.now (Some limits)) bytes.now e
        ⊎ ((e ≡ ParseError.NodeBudget 0) × (limits.nodes < 1))) }
    ensures within { IfErr result (λ e. e ≢ ParseError.InputTooLong → length (code_points bytes.now) ≤ min limits.code_points LIMIT) }
{
    check_length(bytes, limits.code_points.min(LIMIT))?;
    let parser = Parser::document_within(alloc, table, limits)?;
    page_of(parser, bytes)
}

/// The page of an input, as these options ask for. An input of more code points than the limit is refused as too long, before all else but a bad
/// context.
///
/// # Errors
///
/// Those of `Parser::new` and of `Parser::feed`.
pub fn parse_with(
    alloc: Global,
    table: &EntityTable,
    options: &Options,
    bytes: &[u8],
) -> Result<Page, ParseError>
    ensures page { IfOk result (IsPageOf (start_of table.now options.now) bytes.now) }
    ensures root { IfOk result (λ page. IsRoot page.arena page.root) }
    ensures good { OnOk result (HasGoodContext options.now) }
    ensures cause { IfErr result (λ e. IsCause (start_of table.now options.now) bytes.now e ⊎ IsBeginCause options.now e) }
{
    let parser = Parser::new(alloc, table, options)?;
    check_length(bytes, most_code_points(options.limits))?;
    page_of(parser, bytes)
}

/// The tree of an input, as these options ask for, without its ledger.
///
/// # Errors
///
/// Those of `parse_with`.
pub fn parse_tree_with(
    alloc: Global,
    table: &EntityTable,
    options: &Options,
    bytes: &[u8],
) -> Result<Tree, ParseError>
    ensures tree { IfOk result (IsTreeOf (start_of table.now options.now) bytes.now) }
    ensures root { IfOk result (λ tree. IsRoot tree.arena tree.root) }
    ensures good { OnOk result (HasGoodContext options.now) }
    ensures cause { IfErr result (λ e. IsCause (start_of table.now options.now) bytes.now e ⊎ IsBeginCause options.now e) }
{
    let parser = Parser::new(alloc, table, options)?;
    check_length(bytes, most_code_points(options.limits))?;
    tree_of(parser, bytes)
}

/// The page of a fragment in a context (13.4).
///
/// # Errors
///
/// `BadContext` as in `Parser::fragment`, before all else; then as in `parse`.
pub fn parse_fragment(
    alloc: Global,
    table: &EntityTable,
    context: &Context,
    bytes: &[u8],
) -> Result<Page, ParseError>
    ensures page { IfOk result (IsPageOf (fragment_start table.now context.now None) bytes.now) }
    ensures root { IfOk result (λ page. IsRoot page.arena page.root) }
    ensures good { OnOk result (IsGood context.now) }
    ensures cause { IfErr result (λ e. IsCause (fragment_start table.now context.now None) bytes.now e
        ⊎ ((e ≡ ParseError.BadContext) × (IsGood context.now → ⊥))) }
{
    let parser = Parser::fragment(alloc, table, context)?;
    check_length(bytes, LIMIT)?;
    page_of(parser, bytes)
}

/// The tree of an input, without its ledger.
///
/// # Errors
///
/// Those of `parse`.
pub fn parse_tree(alloc: Global, table: &EntityTable, bytes: &[u8]) -> Result<Tree, ParseError>
    ensures tree { IfOk result (IsTreeOf (document_start table.now None) bytes.now) }
    ensures root { IfOk result (λ tree. IsRoot tree.arena tree.root) }
    ensures cause { IfErr result (IsCause (document_start table.now None) bytes.now) }
    ensures within { IfErr result (λ e. e ≢ ParseError.InputTooLong → length (code_points bytes.now) ≤ LIMIT) }
{
    check_length(bytes, LIMIT)?;
    let parser = Parser::document(alloc, table)?;
    tree_of(parser, bytes)
}

/// The page of an input by a parser that was fed nothing.
fn page_of(parser: Parser<'_>, bytes: &[u8]) -> Result<Page, ParseError>
    ensures page { IfOk result (λ page. (start : Start) → IsFed start parser.entry.feeder [] → KeepsTokens parser.entry.feeder.stages → IsPageOf start bytes.now page) }
    ensures cause { IfErr result (λ e. (start : Start) → IsFed start parser.entry.feeder [] → IsCause start bytes.now e) }
{
    let mut parser = parser;
    parser.feed(bytes)?;
    parser.finish()
}

/// The tree of an input by a parser that was fed nothing.
fn tree_of(parser: Parser<'_>, bytes: &[u8]) -> Result<Tree, ParseError>
    ensures tree { IfOk result (λ tree. (start : Start) → IsFed start parser.entry.feeder [] → IsTreeOf start bytes.now tree) }
    ensures cause { IfErr result (λ e. (start : Start) → IsFed start parser.entry.feeder [] → IsCause start bytes.now e) }
{
    let mut parser = parser.without_ledger();
    parser.feed(bytes)?;
    parser.finish()
}

/// The most code points of an input within limits, if there are any.
fn most_code_points(limits: Option<Limits>) -> u64
    ensures value { result ≡ most_within limits }
{
    match limits {
        None => LIMIT,
        Some(limits) => limits.code_points.min(LIMIT),
    }
}

/// Refuses an input of more code points than the limit. A code point takes at least one byte.
fn check_length(bytes: &[u8], limit: u64) -> Result<(), ParseError>
    ensures within { OnOk result (length (code_points bytes.now) ≤ limit) }
    ensures too_long { IfErr result (λ e. (e ≡ ParseError.InputTooLong) × (limit < length (code_points bytes.now))) }
{
    if bytes.len() as u64 > limit && count_code_points(bytes) as u64 > limit {
        return Err(ParseError::InputTooLong);
    }
    Ok(())
}
