// A tree in one line: `x[..]` shows children.

ghost use Rattle.std.specs.Prelude.{◌<◌, length};
ghost use Rattle.html_arena.specs.Steps.{node_in};
ghost use Rattle.html_arena.specs.Walking.{IsRoot};

use html_arena::{Arena, Event, NodeData, NodeId, Show, Walk};
use std::alloc::AllocError;

/// Adds the nodes below the first one, which is the root of the page.
pub(crate) fn print_brackets(out: &mut String, arena: &Arena) -> Result<(), AllocError> {
    let root = NodeId::at(0);
    if arena.is_empty() || arena.parent(root).is_some() || arena.host(root).is_some() {
        return out.push_str("no root");
    }
    print_below(out, arena, root)
}

/// Prints the nodes below a root.
fn print_below(out: &mut String, arena: &Arena, root: NodeId) -> Result<(), AllocError>
    requires root { IsRoot arena.now root }
{
    let mut walk = Walk::new(arena, Show::All, root);
    let mut begins = true;
    'events: while let Some(event) = walk.next() {
        begins = print_event(out, arena, event, begins)?;
    }
    Ok(())
}

/// Prints what stands where a walk enters or leaves a node: whether what comes next is the first below it.
fn print_event(
    out: &mut String,
    arena: &Arena,
    event: Event,
    begins: bool,
) -> Result<bool, AllocError>
    requires { node_in event < length arena.now.labels }
{
    match event {
        Event::Enter(node) => {
            if !begins {
                out.push_str(", ")?;
            }
            print_node(out, arena, node)?;
            let holds = has_children(arena, node) || arena.contents(node).is_some();
            out.push_str(if holds { opener(arena, node) } else { "" })?;
            Ok(holds)
        }
        Event::Leave(node) => {
            out.push_str(closer(arena, node))?;
            Ok(false)
        }
    }
}

fn has_children(arena: &Arena, node: NodeId) -> bool
    requires { node < length arena.now.labels }
{
    arena.first_child(node).is_some()
}

/// What stands before the children of a node.
fn opener(arena: &Arena, node: NodeId) -> &'static str
    requires { node < length arena.now.labels }
{
    match arena.contents(node) {
        Some(_) => "(content: ",
        None => "[",
    }
}

/// What stands after the children of a node.
fn closer(arena: &Arena, node: NodeId) -> &'static str
    requires { node < length arena.now.labels }
{
    if arena.contents(node).is_some() {
        return ")";
    }
    if has_children(arena, node) { "]" } else { "" }
}

fn print_node(out: &mut String, arena: &Arena, node: NodeId) -> Result<(), AllocError>
    requires { node < length arena.now.labels }
{
    match arena.node(node) {
        NodeData::Document | NodeData::Contents { .. } => {}
        NodeData::Element(element) => {
            let name = element.name.as_str();
            write!(out, "{name}")?;
        }
        NodeData::Text { text } => print_text(out, text.as_str())?,
        NodeData::Comment { text, .. } => write!(out, "<!--{text}-->")?,
        NodeData::Doctype { name, .. } => {
            let name = match name.as_ref() {
                Some(name) => name.as_str(),
                None => "",
            };
            write!(out, "<!DOCTYPE {name}>")?;
        }
    }
    for attr in arena.attrs(node) {
        let name = attr.name.as_str();
        let value = attr.value.as_str();
        write!(out, " {name}=\"{value}\"")?;
    }
    Ok(())
}

/// A text in quotes, with `␊` for a line feed.
fn print_text(out: &mut String, text: &str) -> Result<(), AllocError> {
    out.push('"')?;
    for c in text.chars() {
        out.push(if c == '\n' { '␊' } else { c })?;
    }
    out.push('"')
}
