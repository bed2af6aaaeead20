// Calls that edit.

use crate::words::{Words, node_of};
use anyhow::Result;
use html_parser::dom::{self, EditError};
use html_parser::{Arena, Attr, Attrs, NodeId, OverWrite, Profile, Str};
use std::alloc::{AllocError, Global};

/// Does what the words say, and tells what then stands below the root, or the refusal.
pub(crate) fn edit(
    alloc: Global,
    arena: &mut Arena,
    root: NodeId,
    words: &Words<'_>,
    out: &mut String,
) -> Result<()> {
    let outcome = edited(alloc, arena, root, words);
    if let Err(error) = outcome {
        out.push_str("refused: ")?;
        write!(out, "{error}; ")?;
    }
    put_inner(alloc, arena, root, out)
}

fn put_inner(alloc: Global, arena: &Arena, root: NodeId, out: &mut String) -> Result<()> {
    let mut html = OverWrite::new(Vec::new(alloc));
    dom::inner_html(arena, root, Profile::One, &mut html)?;
    out.push_str(std::str::from_utf8(html.into_inner().as_slice())?)?;
    Ok(())
}

fn edited(
    alloc: Global,
    arena: &mut Arena,
    root: NodeId,
    words: &Words<'_>,
) -> Result<(), EditError> {
    let first = node_of(arena, root, words.first);
    let second = node_of(arena, root, words.second);
    match words.call {
        "set" => dom::set_attr(arena, first, words.second, words.third),
        "unset" => dom::remove_attr(arena, first, words.second),
        "replace" => replaced(alloc, arena, first, words),
        "remove" => dom::remove(arena, first),
        "unwrap" => dom::unwrap(arena, first),
        "append" => dom::append(arena, first, second),
        "before" => dom::insert_before(arena, second, first),
        "element" => appended_element(arena, first, words.second),
        "text" => appended_text(arena, first, words.second),
        _ => Ok(()),
    }
}

fn replaced(
    alloc: Global,
    arena: &mut Arena,
    node: NodeId,
    words: &Words<'_>,
) -> Result<(), EditError> {
    let attrs = attrs_of(alloc, words)?;
    dom::replace_attrs(arena, node, attrs)
}

/// Attributes of the names in the third word, which all have the second one as their value.
fn attrs_of(alloc: Global, words: &Words<'_>) -> Result<Attrs, AllocError> {
    let mut all = Vec::new(alloc);
    for name in words.third.split(' ') {
        let name = Str::of(alloc, name)?;
        let value = Str::of(alloc, words.second)?;
        all.push(Attr { name, value })?;
    }
    Attrs::from_vec(all)
}

fn appended_element(arena: &mut Arena, parent: NodeId, name: &str) -> Result<(), EditError> {
    let node = dom::create_element(arena, name)?;
    dom::append(arena, parent, node)
}

fn appended_text(arena: &mut Arena, parent: NodeId, text: &str) -> Result<(), EditError> {
    let node = dom::create_text(arena, text)?;
    dom::append(arena, parent, node)
}
