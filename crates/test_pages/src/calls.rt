// The other ways to a page: by one call, or from a reader; as a tree without its ledger; as HTML.

ghost use Rattle.std.specs.Prelude.{◌≡◌, true};
ghost use Rattle.html_arena.specs.Walking.{IsRoot};

use crate::audit::{summarise_page, summarise_tree};
use crate::cuts::{gives, print_refusal};
use crate::page::{Ask, Reading};
use anyhow::Result;
use html_arena::{Arena, NodeId};
use html_charref::EntityTable;
use html_parser::{
    Options, OverRead, OverWrite, Page, ParseError, Parser, Profile, Tree, normalise,
    normalise_with, parse, parse_tree, parse_tree_from, parse_tree_from_with, parse_tree_with,
    serialise,
};
use std::alloc::{AllocError, Global};

/// Where the bytes of a tree come from.
#[derive(Clone, Copy, Debug)]
enum Way {
    /// A slice.
    Slice,
    /// A reader.
    Reader,
    /// A reader, of which a parser takes all.
    FedReader,
    /// A slice, with options.
    SliceWith,
    /// A reader, with options.
    ReaderWith,
}

/// What a call makes another page of than a parser that is fed the whole of it, of which this text comes, if one does.
pub(crate) fn other_call(
    alloc: Global,
    table: &EntityTable,
    ask: Ask<'_>,
    bytes: &[u8],
    whole: &str,
) -> Result<Option<&'static str>> {
    if !gives(alloc, table, Reading::Call, ask, bytes, whole)? {
        return Ok(Some("in one call"));
    }
    if !gives(alloc, table, Reading::With, ask, bytes, whole)?
        || !gives(alloc, table, Reading::ReaderWith, ask, bytes, whole)?
    {
        return Ok(Some("with options"));
    }
    if ask.context.is_some() || ask.limits.is_some() || ask.foreign {
        return Ok(None);
    }
    if !gives(alloc, table, Reading::Reader, ask, bytes, whole)?
        || !gives(alloc, table, Reading::Fed, ask, bytes, whole)?
    {
        return Ok(Some("from a reader"));
    }
    if !are_same_trees(alloc, table, bytes)? {
        return Ok(Some("without a ledger"));
    }
    Ok(None)
}

/// Whether a document without its ledger is the same tree, with the same errors and counts.
fn are_same_trees(alloc: Global, table: &EntityTable, bytes: &[u8]) -> Result<bool> {
    let mut page = String::new(alloc);
    print_page_summary(alloc, table, bytes, &mut page)?;
    Ok(
        is_tree_by(alloc, table, Way::Slice, bytes, page.as_str())?
            && is_tree_by(alloc, table, Way::Reader, bytes, page.as_str())?
            && is_tree_by(alloc, table, Way::FedReader, bytes, page.as_str())?
            && is_tree_by(alloc, table, Way::SliceWith, bytes, page.as_str())?
            && is_tree_by(alloc, table, Way::ReaderWith, bytes, page.as_str())?,
    )
}

/// Whether a tree has this text.
fn is_tree_by(
    alloc: Global,
    table: &EntityTable,
    way: Way,
    bytes: &[u8],
    wanted: &str,
) -> Result<bool> {
    let mut text = String::new(alloc);
    print_tree_by(alloc, table, way, bytes, &mut text)?;
    Ok(text.as_str() == wanted)
}

fn print_page_summary(
    alloc: Global,
    table: &EntityTable,
    bytes: &[u8],
    out: &mut String,
) -> Result<(), AllocError> {
    let page = parse(alloc, table, bytes);
    match &page {
        Ok(page) => summarise_page(out, page),
        Err(error) => print_refusal(out, *error),
    }
}

fn print_tree_by(
    alloc: Global,
    table: &EntityTable,
    way: Way,
    bytes: &[u8],
    out: &mut String,
) -> Result<(), AllocError> {
    let tree = tree_by(alloc, table, way, bytes);
    match &tree {
        Ok(tree) => summarise_tree(out, tree),
        Err(error) => print_refusal(out, *error),
    }
}

fn tree_by(alloc: Global, table: &EntityTable, way: Way, bytes: &[u8]) -> Result<Tree, ParseError> {
    let mut reader = OverRead::new(bytes);
    match way {
        Way::Slice => parse_tree(alloc, table, bytes),
        Way::Reader => parse_tree_from(alloc, table, &mut reader),
        Way::SliceWith => parse_tree_with(alloc, table, &Options::new(), bytes),
        Way::ReaderWith => parse_tree_from_with(alloc, table, &Options::new(), &mut reader),
        Way::FedReader => {
            let parser = Parser::document(alloc, table)?;
            let mut parser = parser.without_ledger();
            let fed = parser.feed_from(&mut reader);
            fed.and(parser.finish())
        }
    }
}

/// How many tokens of a document stand in its parser's list before the end of the input.
pub(crate) fn tokens_in_hand(
    alloc: Global,
    table: &EntityTable,
    bytes: &[u8],
) -> Result<u64, ParseError> {
    match Parser::document(alloc, table) {
        Ok(mut parser) => tokens_of(&mut parser, bytes),
        Err(error) => Err(error),
    }
}

/// How many tokens stand in a parser's list once it is fed.
fn tokens_of(parser: &mut Parser<'_>, bytes: &[u8]) -> Result<u64, ParseError> {
    parser.feed(bytes)?;
    Ok(parser.tokens().len())
}

/// A document as HTML, where each call that writes it writes the same.
pub(crate) fn html_text(
    alloc: Global,
    table: &EntityTable,
    profile: Profile,
    bytes: &[u8],
) -> Result<Option<Vec<u8>>, ParseError> {
    let read = normalised(alloc, table, profile, bytes)?;
    let is_same = is_html(alloc, table, profile, bytes, read.as_slice())?;
    Ok(if is_same { Some(read) } else { None })
}

/// Whether a page and a tree are written so.
fn is_html(
    alloc: Global,
    table: &EntityTable,
    profile: Profile,
    bytes: &[u8],
    wanted: &[u8],
) -> Result<bool, ParseError> {
    let page = page_html(alloc, table, profile, bytes)?;
    let tree = tree_html(alloc, table, profile, bytes)?;
    let other = normalised_with(alloc, table, profile, bytes)?;
    Ok(page.as_slice() == wanted && tree.as_slice() == wanted && other.as_slice() == wanted)
}

fn normalised(
    alloc: Global,
    table: &EntityTable,
    profile: Profile,
    bytes: &[u8],
) -> Result<Vec<u8>, ParseError> {
    let mut reader = OverRead::new(bytes);
    let mut writer = OverWrite::new(Vec::new(alloc));
    normalise(alloc, table, profile, &mut reader, &mut writer)?;
    Ok(writer.into_inner())
}

fn normalised_with(
    alloc: Global,
    table: &EntityTable,
    profile: Profile,
    bytes: &[u8],
) -> Result<Vec<u8>, ParseError> {
    let mut reader = OverRead::new(bytes);
    let mut writer = OverWrite::new(Vec::new(alloc));
    let options = Options::default();
    normalise_with(alloc, table, &options, profile, &mut reader, &mut writer)?;
    Ok(writer.into_inner())
}

fn page_html(
    alloc: Global,
    table: &EntityTable,
    profile: Profile,
    bytes: &[u8],
) -> Result<Vec<u8>, ParseError> {
    let page = parse(alloc, table, bytes)?;
    written_page(alloc, &page, profile)
}

fn written_page(alloc: Global, page: &Page, profile: Profile) -> Result<Vec<u8>, ParseError> {
    let mut writer = OverWrite::new(Vec::new(alloc));
    if is_root(&page.arena, page.root) {
        serialise(page, profile, &mut writer)?;
    }
    Ok(writer.into_inner())
}

fn tree_html(
    alloc: Global,
    table: &EntityTable,
    profile: Profile,
    bytes: &[u8],
) -> Result<Vec<u8>, ParseError> {
    let tree = parse_tree(alloc, table, bytes)?;
    written_tree(alloc, &tree, profile)
}

fn written_tree(alloc: Global, tree: &Tree, profile: Profile) -> Result<Vec<u8>, ParseError> {
    let mut writer = OverWrite::new(Vec::new(alloc));
    if is_root(&tree.arena, tree.root) {
        tree.serialise(profile, &mut writer)?;
    }
    Ok(writer.into_inner())
}

/// Whether nothing is above a node.
fn is_root(arena: &Arena, root: NodeId) -> bool
    ensures { result ≡ true → IsRoot arena.now root }
{
    (root.index() as u64) < arena.len()
        && arena.parent(root).is_none()
        && arena.host(root).is_none()
}
