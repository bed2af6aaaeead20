// Searches from the current node down the stack.
ghost use Rattle.std.specs.Prelude.{◌≡◌, ℕ, ◌<◌, ◌≤◌, Bool, IfSome, Some, length};
ghost use Rattle.std.specs.Str.{chars};
ghost use Rattle.html_arena.specs.Siblings.{last_of};
ghost use Rattle.html_open.specs.Lists.{IsBelow, after_index, last_index, steps_down};
ghost use Rattle.html_open.specs.Opened.{AreNodes};
ghost use Rattle.html_open.specs.Scopes.{is_excepted};
ghost use Rattle.html_tree.specs.Searching.{index_before, is_member, is_sought_at, is_special_at, has_name, member_or_stop, name_or_special, stops};

use crate::groups::{Group, Stop, TableContext};
use html_arena::{Arena, NodeId};
use html_names::Tag;

/// At which elements a search stops.
#[derive(Clone, Copy)]
pub(crate) enum Sought {
    /// One of a group, or one that ends the search.
    Member(Group, Stop),
    /// One back to which the stack is cleared.
    Context(TableContext),
    /// One whose end tag is not implied, or whose name is the excepted one.
    Staying(Option<Tag>),
    /// One of this tag.
    Tag(Tag),
}

/// Whether a search stops at an element.
fn is_sought(arena: &Arena, node: NodeId, sought: Sought) -> bool
    requires { node < length arena.now.labels }
    ensures { result ≡ is_sought_at arena.now sought node }
{
    let tag = arena.tag(node);
    match sought {
        Sought::Member(group, stop) => group.has(tag) || stop.is_at(tag),
        Sought::Context(context) => context.is_met(tag),
        Sought::Staying(except) => !tag.is_implied() || is_excepted(tag, except),
        Sought::Tag(name) => tag.is(name),
    }
}

/// Whether a tag is the excepted one.
fn is_excepted(tag: Tag, except: Option<Tag>) -> bool
    ensures { result ≡ is_excepted except tag }
{
    match except {
        None => false,
        Some(name) => tag.is(name),
    }
}

/// The index of the last element at which a search stops.
pub(crate) fn last_index(nodes: &[NodeId], arena: &Arena, sought: Sought) -> Option<usize>
    requires { AreNodes arena.now nodes.now }
    ensures index { result ≡ last_index (is_sought_at arena.now sought) nodes.now }
    ensures below { IsBelow (length nodes.now) result }
{
    let mut at = nodes.len();
    'seeking: while at > 0 {
        at -= 1;
        if is_sought(arena, nodes[at], sought) {
            return Some(at);
        }
    }
    None
}

/// The index, of the element at which the search for a group stopped, where it belongs to the group.
pub(crate) fn member_at(
    nodes: &[NodeId],
    arena: &Arena,
    group: Group,
    stop: Stop,
    at: Option<usize>,
) -> Option<usize>
    requires nodes_in { AreNodes arena.now nodes.now }
    requires at_in { IsBelow (length nodes.now) at }
    requires stopped { at ≡ last_index (member_or_stop arena.now group stop) nodes.now }
    ensures index { result ≡ index_before (is_member arena.now group) (stops arena.now stop) nodes.now }
    ensures same { IfSome result (λ i. at ≡ Some i) }
    ensures below { IsBelow (length nodes.now) result }
{
    match at {
        None => None,
        Some(index) => {
            if group.has(arena.tag(nodes[index])) {
                Some(index)
            } else {
                None
            }
        }
    }
}

/// The index of the last element of a name, or of a special one.
pub(crate) fn name_index(nodes: &[NodeId], arena: &Arena, name: &str) -> Option<usize>
    requires { AreNodes arena.now nodes.now }
    ensures index { result ≡ last_index (name_or_special arena.now (chars name.now)) nodes.now }
    ensures below { IsBelow (length nodes.now) result }
{
    let mut at = nodes.len();
    'seeking: while at > 0 {
        at -= 1;
        if stops_name(arena, nodes[at], name) {
            return Some(at);
        }
    }
    None
}

/// Whether an element has a name, or is special.
fn stops_name(arena: &Arena, node: NodeId, name: &str) -> bool
    requires { node < length arena.now.labels }
    ensures { result ≡ name_or_special arena.now (chars name.now) node }
{
    is_name(arena, node, name) || arena.tag(node).is_special()
}

/// Whether an element has a name.
fn is_name(arena: &Arena, node: NodeId, name: &str) -> bool
    requires { node < length arena.now.labels }
    ensures { result ≡ has_name arena.now (chars name.now) node }
{
    arena.name(node) == name
}

/// The index, of the element at which the search for a name stopped, where it has the name.
pub(crate) fn named_at(
    nodes: &[NodeId],
    arena: &Arena,
    name: &str,
    at: Option<usize>,
) -> Option<usize>
    requires nodes_in { AreNodes arena.now nodes.now }
    requires at_in { IsBelow (length nodes.now) at }
    requires stopped { at ≡ last_index (name_or_special arena.now (chars name.now)) nodes.now }
    ensures index { result ≡ index_before (has_name arena.now (chars name.now)) (is_special_at arena.now) nodes.now }
    ensures below { IsBelow (length nodes.now) result }
{
    match at {
        None => None,
        Some(index) => {
            if is_name(arena, nodes[index], name) {
                Some(index)
            } else {
                None
            }
        }
    }
}

/// The elements from the last of `len` down to the one at an index; all where there is none.
pub(crate) fn steps_down(len: usize, found: Option<usize>) -> u128
    requires { IsBelow len found }
    ensures value { result ≡ steps_down len found }
    ensures most { result ≤ len }
{
    match found {
        None => len as u128,
        Some(index) => (len - index) as u128,
    }
}

/// The index after another, or the first where there is none.
pub(crate) fn after(len: usize, found: Option<usize>) -> usize
    requires { IsBelow len found }
    ensures value { result ≡ after_index found }
    ensures within { result ≤ len }
{
    match found {
        None => 0,
        Some(index) => index + 1,
    }
}

/// The last of the elements.
pub(crate) fn last_node(nodes: &[NodeId]) -> Option<NodeId>
    ensures { result ≡ last_of nodes.now }
{
    if nodes.is_empty() {
        return None;
    }
    Some(nodes[nodes.len() - 1])
}
