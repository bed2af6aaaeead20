// Calls of html_open that no row of test_open makes, each with ample memory.
ghost use Rattle.std.specs.Prelude.{◌≡◌, ◌<◌, OnOk, IfOk, length};
ghost use Rattle.html_open.specs.Opened.{AreNodes};

use crate::same::same;
use html_arena::{Arena, NewNode, NodeId, Origin};
use html_names::Tag;
use html_open::{ArenaError, OpenStack, Place, insert, put};
use html_text::Str;
use html_tokens::Attrs;
use std::alloc::Global;

/// Makes the element of a token, and opens it.
fn opened(
    stack: &mut OpenStack,
    arena: &mut Arena,
    alloc: Global,
    name: &str,
    token: u64,
) -> Result<NodeId, ArenaError>
    requires { AreNodes arena.old stack.old }
    ensures nodes { OnOk result (AreNodes arena.new stack.new) }
{
    let node = arena.make(NewNode::Element {
        name: Str::of(alloc, name)?,
        attrs: Attrs::new(alloc),
        origin: Origin::Token(token),
    })?;
    stack.push(arena, node)?;
    Ok(node)
}

/// Makes a document with a `p` before a `div`, and a text in the `div`. Answers whether each stands at its place, after so many steps.
fn has_new_nodes(alloc: Global, arena: &mut Arena) -> Result<bool, ArenaError> {
    let root = arena.make(NewNode::Document)?;
    let div = NewNode::Element {
        name: Str::of(alloc, "div")?,
        attrs: Attrs::new(alloc),
        origin: Origin::Token(0),
    };
    let div = insert(arena, Place::Last(root), div)?;
    let p = NewNode::Element {
        name: Str::of(alloc, "p")?,
        attrs: Attrs::new(alloc),
        origin: Origin::Token(1),
    };
    let p = insert(arena, Place::Before(div), p)?;
    let text = arena.make(NewNode::Text)?;
    put(arena, Place::Last(div), text);
    let of_root = arena.first_child(root) == Some(p) && arena.next(p) == Some(div);
    let of_div = arena.next(div).is_none() && arena.first_child(div) == Some(text);
    Ok(of_root && of_div && arena.parent(text) == Some(div) && arena.meter().steps == 7)
}

/// That of a tree without nodes.
fn has_new_nodes_alone(alloc: Global) -> Result<bool, ArenaError> {
    let mut arena = Arena::new(alloc);
    has_new_nodes(alloc, &mut arena)
}

#[test]
fn new_nodes_stand_at_their_places(rt: HostRuntime) {
    same(&rt, has_new_nodes_alone(rt.alloc()), Ok(true));
}

/// Opens an `html`, a `table`, which ends the scope, and a `p`. Answers whether the last two alone are in scope, whether the `table` is found by
/// its name and a `b` is not, and whether the `html` is the current node once the others are closed, after so many steps each.
fn has_scopes(alloc: Global, arena: &mut Arena, stack: &mut OpenStack) -> Result<bool, ArenaError>
    requires { AreNodes arena.old stack.old }
{
    let html = opened(stack, arena, alloc, "html", 0)?;
    let table = opened(stack, arena, alloc, "table", 1)?;
    let p = opened(stack, arena, alloc, "p", 2)?;
    let in_scope = [
        stack.is_in_scope(arena, html),
        stack.is_in_scope(arena, table),
        stack.is_in_scope(arena, p),
    ];
    let after_scopes = arena.meter().steps;
    if stack.index_named(arena, Tag::Table) != Some(1) {
        return Ok(false);
    }
    let b = stack.index_named(arena, Tag::B);
    let after_names = arena.meter().steps;
    stack.pop_to(arena, 1);
    Ok(
        in_scope == [false, true, true]
            && after_scopes == 6 + 2 + 2 + 1
            && b.is_none()
            && after_names == 11 + 2 + 3
            && stack.current(arena) == Some(html),
    )
}

/// That of a tree without nodes, of which none is open.
fn has_scopes_alone(alloc: Global) -> Result<bool, ArenaError> {
    let mut arena = Arena::new(alloc);
    let mut stack = OpenStack::new(alloc);
    has_scopes(alloc, &mut arena, &mut stack)
}

#[test]
fn this_very_element_is_in_scope(rt: HostRuntime) {
    same(&rt, has_scopes_alone(rt.alloc()), Ok(true));
}
