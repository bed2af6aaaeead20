// Start tags that are read as a builder reads them, and trees as text.
ghost use Rattle.std.specs.Prelude.{◌<◌, length};

use crate::page::{Page, is_node};
use crate::refusal::Refusal;
use crate::work::{insert, start};
use html_arena::{Arena, Event, NodeId, Show, Walk};
use std::alloc::{AllocError, Global};

/// Follows a start tag: a formatting element is listed too.
fn open_tag(page: &mut Page, alloc: Global, name: &str) -> Result<(), Refusal> {
    let node = start(page, alloc, name)?;
    if is_formatting(page.arena(), node) {
        page.enter(node)?;
    }
    Ok(())
}

fn is_formatting(arena: &Arena, node: NodeId) -> bool {
    is_node(arena, node) && arena.tag(node).is_formatting()
}

/// Reads start tags and texts of one character, as `<b>1<p>2`. What stands for a text is an element of that name without children.
pub(crate) fn read(page: &mut Page, alloc: Global, source: &str) -> Result<(), Refusal> {
    let mut name = String::new(alloc);
    let mut in_tag = false;
    for c in source.chars() {
        match c {
            '<' => in_tag = true,
            '>' => {
                in_tag = false;
                open_tag(page, alloc, name.as_str())?;
                name = String::new(alloc);
            }
            _ => {
                name.push(c)?;
                if !in_tag {
                    insert(page, alloc, name.as_str())?;
                    name = String::new(alloc);
                }
            }
        }
    }
    Ok(())
}

/// Adds the elements below the first, as `b[1 p[2]]`.
pub(crate) fn tree(arena: &Arena, out: &mut String) -> Result<(), Refusal> {
    let root = NodeId::at(0);
    if !is_node(arena, root) || arena.parent(root).is_some() || arena.host(root).is_some() {
        return Err(Refusal::Condition);
    }
    for event in Walk::new(arena, Show::All, root) {
        push_event(out, arena, event)?;
    }
    Ok(())
}

fn push_event(out: &mut String, arena: &Arena, event: Event) -> Result<(), AllocError> {
    match event {
        Event::Enter(node) => {
            if is_node(arena, node) {
                push_start(out, arena, node)?;
            }
        }
        Event::Leave(node) => {
            if has_children(arena, node) {
                out.push_str("]")?;
            }
        }
    }
    Ok(())
}

fn has_children(arena: &Arena, node: NodeId) -> bool {
    is_node(arena, node) && arena.first_child(node).is_some()
}

/// A node's name, after a space where another stands before it.
fn push_start(text: &mut String, arena: &Arena, node: NodeId) -> Result<(), AllocError>
    requires { node < length arena.now.labels }
{
    if arena.previous(node).is_some() {
        text.push_str(" ")?;
    }
    text.push_str(arena.name(node))?;
    if arena.first_child(node).is_some() {
        text.push_str("[")?;
    }
    Ok(())
}

/// Adds the names of the open elements, the current node last.
pub(crate) fn open(page: &mut Page, out: &mut String) -> Result<(), Refusal> {
    for index in 0..page.depth() {
        if index > 0 {
            out.push_str(" ")?;
        }
        let node = page.at(index)?;
        push_name(out, page.arena(), node)?;
    }
    Ok(())
}

fn push_name(text: &mut String, arena: &Arena, node: NodeId) -> Result<(), Refusal> {
    if !is_node(arena, node) {
        return Err(Refusal::Condition);
    }
    text.push_str(arena.name(node))?;
    Ok(())
}
