//! What there is, as text.
ghost use Rattle.std.specs.Prelude.{◌<◌, length};
ghost use Rattle.html_arena.specs.Walking.{IsRoot};

use super::calls::is_node;
use super::counts;
use super::refusal::Refusal;
use super::word::Word;
use html_arena::{Arena, Event, NodeId, Show, Walk};
use html_page::{Profile, serialise_tree};
use html_print::{OverWrite, print_tree};
use std::alloc::{AllocError, Global};
use std::str;

/// Writes what a word asks to see, and answers whether it does.
pub(crate) fn show(
    arena: &Arena,
    alloc: Global,
    word: Word<'_>,
    out: &mut String,
) -> Result<bool, Refusal> {
    match word.name {
        "links" => show_links(arena, out)?,
        "counts" => {
            let (nodes, held, steps) = counts(arena);
            write!(out, "{nodes}/{held}/{steps}")?;
        }
        "events" => show_events(arena, word, out)?,
        "written" | "printed" => show_tree(arena, alloc, word, out)?,
        "told" | "template" | "marked" | "is-ancestor" => show_node(arena, word, out)?,
        _ => return Ok(false),
    }
    out.push_str(" ")?;
    Ok(true)
}

/// A node's number, or a dash.
fn push_link(out: &mut String, link: Option<NodeId>) -> Result<(), AllocError> {
    match link {
        Some(node) => {
            let index = node.index();
            write!(out, "{index}")
        }
        None => out.push_str("-"),
    }
}

/// Of each node its parent, first and last child, previous and next.
fn show_links(arena: &Arena, out: &mut String) -> Result<(), AllocError> {
    for index in 0..arena.len() {
        let node = NodeId::at(index as usize);
        if is_node(arena, node) {
            push_links(arena, node, index > 0, out)?;
        }
    }
    Ok(())
}

fn push_links(
    arena: &Arena,
    node: NodeId,
    is_later: bool,
    out: &mut String,
) -> Result<(), AllocError>
    requires { node < length arena.now.labels }
{
    if is_later {
        out.push_str(" ")?;
    }
    push_link(out, arena.parent(node))?;
    push_link(out, arena.first_child(node))?;
    push_link(out, arena.last_child(node))?;
    push_link(out, arena.previous(node))?;
    push_link(out, arena.next(node))
}

/// What a word asks of one node.
fn show_node(arena: &Arena, word: Word<'_>, out: &mut String) -> Result<(), Refusal> {
    let node = word.node()?;
    if !is_node(arena, node) {
        return Err(Refusal::Condition);
    }
    match word.name {
        "told" => tell(arena, node, out)?,
        "template" => tell_template(arena, node, out)?,
        "marked" => push_bool(out, arena.marked(node, word.mark()))?,
        _ => {
            let other = word.other()?;
            if !is_node(arena, other) {
                return Err(Refusal::Condition);
            }
            push_bool(out, arena.is_ancestor(node, other))?;
        }
    }
    Ok(())
}

fn push_bool(out: &mut String, answer: bool) -> Result<(), AllocError> {
    out.push_str(if answer { "yes" } else { "no" })
}

/// What a node is, apart from its links.
fn tell(arena: &Arena, node: NodeId, out: &mut String) -> Result<(), AllocError>
    requires { node < length arena.now.labels }
{
    let kind = arena.kind(node);
    let name = arena.name(node);
    let attrs = arena.attrs(node);
    let text = arena.text(node);
    let origin = arena.origin(node);
    let clone = arena.is_clone(node);
    write!(out, "{kind:?} {name} {attrs:?} {text} {origin:?} {clone}")
}

/// Contents, host, and the node above.
fn tell_template(arena: &Arena, node: NodeId, out: &mut String) -> Result<(), AllocError>
    requires { node < length arena.now.labels }
{
    push_link(out, arena.contents(node))?;
    push_link(out, arena.host(node))?;
    push_link(out, arena.above(node))
}

/// The events of a walk from the first node, as a `+` or `-` and the node's number.
fn show_events(arena: &Arena, word: Word<'_>, out: &mut String) -> Result<(), Refusal> {
    let show = if word.first == "written" {
        Show::Written
    } else {
        Show::All
    };
    let root = NodeId::at(0);
    if !is_node(arena, root) || arena.parent(root).is_some() || arena.host(root).is_some() {
        return Err(Refusal::Condition);
    }
    for event in Walk::new(arena, show, root) {
        push_event(event, out)?;
    }
    Ok(())
}

/// The trees below the first node, as they are written or printed, with `␊` at the end of each line.
fn show_tree(
    arena: &Arena,
    alloc: Global,
    word: Word<'_>,
    out: &mut String,
) -> Result<(), Refusal> {
    let root = NodeId::at(0);
    if !is_node(arena, root) || arena.parent(root).is_some() || arena.host(root).is_some() {
        return Err(Refusal::Condition);
    }
    let mut writer = OverWrite::new(Vec::new(alloc));
    write_tree(arena, alloc, word, root, &mut writer)?;
    push_lines(alloc, writer.into_inner().as_slice(), out)
}

fn write_tree(
    arena: &Arena,
    alloc: Global,
    word: Word<'_>,
    root: NodeId,
    writer: &mut OverWrite<Vec<u8>>,
) -> Result<(), Refusal>
    requires { IsRoot arena.now root }
{
    let written = if word.name == "written" {
        serialise_tree(arena, root, Profile::One, writer).is_ok()
    } else {
        print_tree(alloc, arena, root, writer).is_ok()
    };
    if written {
        Ok(())
    } else {
        Err(Refusal::Condition)
    }
}

fn push_lines(alloc: Global, bytes: &[u8], out: &mut String) -> Result<(), Refusal> {
    match str::from_utf8(bytes) {
        Ok(text) => {
            out.push_str(text.replace(alloc, "\n", "␊")?.as_str())?;
            Ok(())
        }
        Err(_) => Err(Refusal::Condition),
    }
}

fn push_event(event: Event, out: &mut String) -> Result<(), AllocError> {
    match event {
        Event::Enter(node) => {
            let index = node.index();
            write!(out, "+{index}")
        }
        Event::Leave(node) => {
            let index = node.index();
            write!(out, "-{index}")
        }
    }
}
