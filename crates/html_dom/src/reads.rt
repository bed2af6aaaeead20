// What a node is, and what stands beside it, whichever node it is.
ghost use Rattle.std.specs.Prelude.{◌≡◌, ◌<◌, length, nat_lt, cond, None, Some, IfSome, is_some};
ghost use Rattle.std.specs.Str.{chars};
ghost use Rattle.html_arena.specs.Below.{above, kids, or_self};
ghost use Rattle.html_arena.specs.Data.{attrs_in, contents_in, name_in};
ghost use Rattle.html_arena.specs.Siblings.{after, before, first_of, last_of};
ghost use Rattle.html_arena.specs.Tree.{label_of, parent_of, sibling};
ghost use Rattle.html_arena.specs.declared.data.NodeData.TheVariants.{Element};
ghost use Rattle.html_arena.specs.declared.walk.Show.TheVariants.{All};
ghost use Rattle.html_dom.specs.Reads.{is_element_at, value_of};

use crate::names::is_same_text;
use crate::places::is_node;
use html_arena::{Arena, ElementData, NodeData, NodeId};
use html_tokens::Attr;

/// What a node is, apart from its links.
pub fn get(arena: &Arena, node: NodeId) -> Option<&NodeData>
    ensures value { IfSome result (λ d. d.now ≡ label_of arena.now node) }
    ensures some { is_some result ≡ nat_lt node (length arena.now.labels) }
{
    if is_node(arena, node) {
        Some(arena.node(node))
    } else {
        None
    }
}

/// An element.
pub fn element(arena: &Arena, node: NodeId) -> Option<&ElementData>
    ensures value { IfSome result (λ e. label_of arena.now node ≡ Element e.now) }
    ensures some { is_some result ≡ is_element_at arena.now node }
{
    match get(arena, node) {
        Some(NodeData::Element(element)) => Some(element),
        _ => None,
    }
}

/// The name of an element.
pub fn name(arena: &Arena, node: NodeId) -> Option<&str>
    ensures value { IfSome result (λ name. chars name.now ≡ name_in (label_of arena.now node)) }
    ensures some { is_some result ≡ is_element_at arena.now node }
{
    match element(arena, node) {
        Some(element) => Some(element.name.as_str()),
        None => None,
    }
}

/// The value of an attribute of an element: of the first one of this name.
pub fn attr<'a>(arena: &'a Arena, node: NodeId, name: &str) -> Option<&'a str>
    ensures value { IfSome result (λ value. value_of (chars name.now) (attrs_in (label_of arena.now node)) ≡ Some (chars value.now)) }
    ensures some { is_some result ≡ is_some (value_of (chars name.now) (attrs_in (label_of arena.now node))) }
{
    match get(arena, node) {
        Some(NodeData::Element(element)) => value_in(element.attrs.as_slice(), name),
        _ => None,
    }
}

/// The value of the first of attributes that has this name.
fn value_in<'a>(attrs: &'a [Attr], name: &str) -> Option<&'a str>
    ensures value { IfSome result (λ value. value_of (chars name.now) attrs.now ≡ Some (chars value.now)) }
    ensures some { is_some result ≡ is_some (value_of (chars name.now) attrs.now) }
{
    for attr in attrs {
        if is_same_text(attr.name.as_str(), name) {
            return Some(attr.value.as_str());
        }
    }
    None
}

/// The node that this one stands just below: its parent or, in a template's contents, the template.
pub fn parent(arena: &Arena, node: NodeId) -> Option<NodeId>
    ensures { result ≡ above arena.now node }
{
    arena.forest();
    if is_node(arena, node) {
        arena.above(node)
    } else {
        None
    }
}

/// The first of the nodes just below a node; below a template stand its contents.
pub fn first_child(arena: &Arena, node: NodeId) -> Option<NodeId>
    ensures { result ≡ first_of (kids All arena.now node) }
{
    arena.forest();
    if is_node(arena, node) {
        arena.first_child(inner(arena, node))
    } else {
        None
    }
}

/// The last of the nodes just below a node; below a template stand its contents.
pub fn last_child(arena: &Arena, node: NodeId) -> Option<NodeId>
    ensures { result ≡ last_of (kids All arena.now node) }
{
    arena.forest();
    if is_node(arena, node) {
        arena.last_child(inner(arena, node))
    } else {
        None
    }
}

/// The node whose children stand below `node`: itself, or a template's contents.
pub(crate) fn inner(arena: &Arena, node: NodeId) -> NodeId
    requires { node < length arena.now.labels }
    ensures value { result ≡ or_self node (contents_in (label_of arena.now node)) }
    ensures node { result < length arena.now.labels }
{
    match arena.contents(node) {
        Some(contents) => contents,
        None => node,
    }
}

/// The node just before this one, among the children of its parent.
pub fn previous_sibling(arena: &Arena, node: NodeId) -> Option<NodeId>
    ensures { result ≡ sibling before (parent_of arena.now node) arena.now node }
{
    arena.forest();
    if is_node(arena, node) {
        arena.previous(node)
    } else {
        None
    }
}

/// The node just after this one, among the children of its parent.
pub fn next_sibling(arena: &Arena, node: NodeId) -> Option<NodeId>
    ensures { result ≡ sibling after (parent_of arena.now node) arena.now node }
{
    arena.forest();
    if is_node(arena, node) {
        arena.next(node)
    } else {
        None
    }
}
