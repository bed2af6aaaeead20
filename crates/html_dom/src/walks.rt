// Walks over the nodes around a node. A template's contents stand just below the template.
ghost use Rattle.std.specs.Prelude.{◌≡◌, ◌<◌, filter, length};
ghost use Rattle.std.specs.Str.{chars};
ghost use Rattle.html_arena.specs.Below.{kids};
ghost use Rattle.html_arena.specs.Tree.{children_of};
ghost use Rattle.html_arena.specs.declared.walk.Show.TheVariants.{All};
ghost use Rattle.html_dom.specs.Reads.{ancestors_of, descendants_of, is_named, texts_among};

use crate::iterators::{Ancestors, Children, Descendants, ElementsNamed, Texts};
use crate::places::is_placed;
use crate::reads::{first_child, parent};
use html_arena::{Arena, NodeId, Show, Walk};

/// The nodes just below a node, in order.
pub fn children(arena: &Arena, node: NodeId) -> Children<'_>
    ensures { result ≡ kids All arena.now node }
{
    arena.forest();
    Children {
        arena,
        at: first_child(arena, node),
        left: arena.len(),
    }
}

/// A node's own children, in order, without what a template's contents hold.
pub(crate) fn own_children(arena: &Arena, node: NodeId) -> Children<'_>
    requires { node < length arena.now.labels }
    ensures { result ≡ children_of arena.now node }
{
    arena.forest();
    Children {
        arena,
        at: arena.first_child(node),
        left: arena.len(),
    }
}

/// The nodes above a node, the nearest first: its parent or, in a template's contents, the template, and so on.
pub fn ancestors(arena: &Arena, node: NodeId) -> Ancestors<'_>
    ensures { result ≡ ancestors_of arena.now node }
{
    Ancestors {
        arena,
        at: parent(arena, node),
        left: arena.len(),
    }
}

/// All nodes below a node, in tree order; none where the node has no place (`is_placed`).
pub fn descendants(arena: &Arena, node: NodeId) -> Descendants<'_>
    ensures { result ≡ descendants_of arena.now node }
{
    if !is_placed(arena, node) {
        return Descendants { walk: None };
    }
    let walk = Walk::at(arena, Show::All, node);
    Descendants { walk: Some(walk) }
}

/// The elements of this name below a node, in tree order; none where the node has no place (`is_placed`).
pub fn elements_named<'a>(arena: &'a Arena, node: NodeId, name: &'a str) -> ElementsNamed<'a>
    ensures { result ≡ filter (is_named (chars name.now) arena.now) (descendants_of arena.now node) }
{
    ElementsNamed {
        arena,
        name,
        nodes: descendants(arena, node),
    }
}

/// The texts below a node, in tree order; comments are none. None where the node has no place (`is_placed`).
pub fn texts(arena: &Arena, node: NodeId) -> Texts<'_>
    ensures { result ≡ texts_among arena.now (descendants_of arena.now node) }
{
    let nodes = descendants(arena, node);
    Texts { arena, nodes }
}
