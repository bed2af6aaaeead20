//! One tree case: run and compared.

ghost use Rattle.std.specs.Prelude.{IfOk, []};
ghost use Rattle.html_arena.specs.Walking.{IsRoot};
ghost use Rattle.html_parser.specs.Fed.{IsFed};
ghost use Rattle.html_parser.specs.Start.{Start};

use crate::case::{ForeignCases, SuiteOptions};
use crate::counts::{Difference, Outcome};
use crate::dat::TreeCase;
use html_parser::{Context, EntityTable, Foreign, Options, ParseError, Parser, Str, Tree};
use html_print::{OverWrite, PrintError, print_tree};
use std::alloc::{AllocError, Global};

/// Runs a case: whether the page has the tree that is wanted. A case is skipped that wants scripts; one of foreign content where `options` say so.
///
/// # Errors
///
/// Memory was refused.
pub(crate) fn run_tree_case(
    alloc: Global,
    case: &TreeCase<'_>,
    table: &EntityTable,
    options: SuiteOptions,
) -> Result<Outcome, AllocError> {
    if case.is_script_on || is_left_out(case, options.foreign) {
        return Ok(Outcome::Skipped);
    }
    match tree_of(alloc, case, table, options.foreign) {
        Ok(tree) => compared(alloc, &tree, case.tree, options.verbose),
        Err(ParseError::ForeignContent { .. }) => Ok(Outcome::Skipped),
        Err(ParseError::OutOfMemory) => Err(AllocError),
        Err(_) => Ok(Outcome::Failed(None)),
    }
}

/// Whether a case of a foreign context is skipped.
fn is_left_out(case: &TreeCase<'_>, foreign: ForeignCases) -> bool {
    matches!(foreign, ForeignCases::Skipped) && has_foreign_context(case)
}

/// Whether the context is no HTML element: it is `svg` or `math`, or has the name of a kind of content before its own.
fn has_foreign_context(case: &TreeCase<'_>) -> bool {
    match case.context {
        Some(name) => {
            name == b"svg".as_slice() || name == b"math".as_slice() || name.contains(&b' ')
        }
        None => false,
    }
}

/// The tree of a case's input.
fn tree_of(
    alloc: Global,
    case: &TreeCase<'_>,
    table: &EntityTable,
    foreign: ForeignCases,
) -> Result<Tree, ParseError>
    ensures root { IfOk result (λ tree. IsRoot tree.arena tree.root) }
{
    let parser = parser_for(alloc, case, table, foreign)?;
    let mut parser = parser.without_ledger();
    let fed = parser.feed(case.input);
    fed.and(parser.finish())
}

/// The parser for a case.
fn parser_for<'a>(
    alloc: Global,
    case: &TreeCase<'_>,
    table: &'a EntityTable,
    foreign: ForeignCases,
) -> Result<Parser<'a>, ParseError>
    ensures begun { IfOk result (λ p. (start : Start) × IsFed start p.feeder []) }
{
    let options = Options {
        limits: None,
        foreign: foreign_of(foreign),
        context: context_of(alloc, case)?,
    };
    Parser::new(alloc, table, &options)
}

/// The context of a case, where it has one. A context that is no text is none that an element can have.
fn context_of(alloc: Global, case: &TreeCase<'_>) -> Result<Option<Context>, ParseError> {
    let Some(name) = case.context else {
        return Ok(None);
    };
    let Ok(name) = std::str::from_utf8(name) else {
        return Err(ParseError::BadContext);
    };
    Ok(Some(Context {
        name: Str::of(alloc, name)?,
        in_form: false,
        quirks: false,
        encoding: None,
    }))
}

/// What is done with foreign content where its cases are run, or skipped.
fn foreign_of(foreign: ForeignCases) -> Foreign {
    match foreign {
        ForeignCases::Skipped => Foreign::Refuse,
        ForeignCases::Run => Foreign::Parse,
    }
}

/// Whether a tree is printed so; the end of its last line is not part of what is wanted.
fn compared(alloc: Global, tree: &Tree, wanted: &[u8], verbose: bool) -> Result<Outcome, AllocError>
    requires root { IsRoot tree.now.arena tree.now.root }
{
    let Ok(text) = printed(alloc, tree) else {
        return Err(AllocError);
    };
    let given = text.as_slice();
    if given.strip_suffix(b"\n").unwrap_or(given) == wanted {
        Ok(Outcome::Passed)
    } else if verbose {
        Ok(Outcome::Failed(Some(difference(alloc, wanted, given)?)))
    } else {
        Ok(Outcome::Failed(None))
    }
}

/// What was expected, and what came: lines of a tree.
fn difference(alloc: Global, wanted: &[u8], given: &[u8]) -> Result<Difference, AllocError> {
    let mut expected = String::from_utf8_lossy(alloc, wanted)?;
    expected.push('\n')?;
    let got = String::from_utf8_lossy(alloc, given)?;
    Ok(Difference { expected, got })
}

/// The lines of a tree. A text takes any bytes, as far as there is memory.
fn printed(alloc: Global, tree: &Tree) -> Result<Vec<u8>, PrintError>
    requires root { IsRoot tree.now.arena tree.now.root }
{
    let mut writer = OverWrite::new(Vec::new(alloc));
    print_tree(alloc, &tree.arena, tree.root, &mut writer)?;
    Ok(writer.into_inner())
}
