// Calls that read.

use crate::words::{Words, node_of};
use anyhow::Result;
use html_parser::{Arena, NodeData, NodeId, OverWrite, Profile, dom};

/// Tells what the words ask for; whether they ask for something that is read.
pub(crate) fn read(
    arena: &Arena,
    root: NodeId,
    words: &Words<'_>,
    out: &mut String,
) -> Result<bool> {
    let node = node_of(arena, root, words.first);
    match words.call {
        "children" => put_children(arena, node, out)?,
        "ancestors" => put_ancestors(arena, node, out)?,
        "descendants" => put_descendants(arena, node, out)?,
        "named" => put_named(arena, node, words.second, out)?,
        "textof" => dom::text_below(arena, node, out)?,
        "texts" => put_texts(arena, node, out)?,
        "inner" => put_part(arena, node, true, out)?,
        "outer" => put_part(arena, node, false, out)?,
        "attr" => out.push_str(dom::attr(arena, node, words.second).unwrap_or("none"))?,
        "beside" => put_beside(arena, node, out)?,
        _ => return Ok(false),
    }
    Ok(true)
}

fn put_children(arena: &Arena, node: NodeId, out: &mut String) -> Result<()> {
    for child in dom::children(arena, node) {
        put_node(arena, Some(child), out)?;
    }
    Ok(())
}

fn put_ancestors(arena: &Arena, node: NodeId, out: &mut String) -> Result<()> {
    for above in dom::ancestors(arena, node) {
        put_node(arena, Some(above), out)?;
    }
    Ok(())
}

fn put_descendants(arena: &Arena, node: NodeId, out: &mut String) -> Result<()> {
    for below in dom::descendants(arena, node) {
        put_node(arena, Some(below), out)?;
    }
    Ok(())
}

fn put_named(arena: &Arena, node: NodeId, name: &str, out: &mut String) -> Result<()> {
    for element in dom::elements_named(arena, node, name) {
        put_node(arena, Some(element), out)?;
    }
    Ok(())
}

fn put_texts(arena: &Arena, node: NodeId, out: &mut String) -> Result<()> {
    for text in dom::texts(arena, node) {
        write!(out, "\"{text}\" ")?;
    }
    Ok(())
}

/// The nodes beside a node: above it, its first and last child, before it and after it.
fn put_beside(arena: &Arena, node: NodeId, out: &mut String) -> Result<()> {
    put_node(arena, dom::parent(arena, node), out)?;
    put_node(arena, dom::first_child(arena, node), out)?;
    put_node(arena, dom::last_child(arena, node), out)?;
    put_node(arena, dom::previous_sibling(arena, node), out)?;
    put_node(arena, dom::next_sibling(arena, node), out)
}

fn put_node(arena: &Arena, node: Option<NodeId>, out: &mut String) -> Result<()> {
    let data = node.and_then(|node| dom::get(arena, node));
    match data {
        Some(NodeData::Element(element)) => out.push_str(element.name.as_str())?,
        Some(NodeData::Text { text }) => write!(out, "\"{}\"", text.as_str())?,
        Some(NodeData::Comment { .. }) => out.push_str("comment")?,
        Some(_) => out.push_str("other")?,
        None => out.push_str("none")?,
    }
    out.push_str(" ")?;
    Ok(())
}

fn put_part(arena: &Arena, node: NodeId, is_inner: bool, out: &mut String) -> Result<()> {
    let mut html = OverWrite::new(Vec::new(arena.allocator()));
    let outcome = if is_inner {
        dom::inner_html(arena, node, Profile::One, &mut html)
    } else {
        dom::outer_html(arena, node, Profile::One, &mut html)
    };
    if let Err(error) = outcome {
        write!(out, "refused: {error}")?;
    }
    out.push_str(std::str::from_utf8(html.into_inner().as_slice())?)?;
    Ok(())
}
