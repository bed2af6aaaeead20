// Searches through the stack and the list, from the last element back.
ghost use Rattle.std.specs.Prelude.{◌≡◌, ℕ, ◌<◌, ◌≤◌, length};
ghost use Rattle.html_open.specs.Lists.{IsBelow, after_index, index_or_first, last_index, removal, steps_down};
ghost use Rattle.html_open.specs.Opened.{AreNodes};
ghost use Rattle.html_open.specs.Entries.{named_or_marker, nodes_of};
ghost use Rattle.html_open.specs.Scopes.{is_excepted, tag_stays};
ghost use Rattle.html_open.specs.Searches.{IsEntry, ends_search, is_sought, open_or_marker};

use crate::entry::Entry;
use html_arena::{Arena, Mark, NodeId};
use html_names::{Scope, Tag};

/// The steps of a test of presence.
pub(crate) const PRESENCE: u128 = 1;

/// What is sought on the stack.
#[derive(Clone, Copy)]
pub(crate) enum Sought {
    Node(NodeId),
    /// An element of this tag, or an end of the scope.
    InScope(Tag, Scope),
    /// This element, or an end of the scope.
    ElementInScope(NodeId, Scope),
    Tag(Tag),
    /// An element whose end tag is not implied, or whose name is the excepted one.
    Staying(Option<Tag>),
}

/// What is sought in the list.
#[derive(Clone, Copy)]
pub(crate) enum SoughtEntry {
    Marker,
    Node(NodeId),
    /// An element of this tag, or a marker.
    NamedOrMarker(Tag),
    /// An element that is marked as being on the stack, or a marker.
    OpenOrMarker,
}

/// Whether an element is one that is sought.
fn is_sought(arena: &Arena, node: NodeId, sought: &Sought) -> bool
    requires { node < length arena.now.labels }
    ensures { result ≡ is_sought arena.now sought.now node }
{
    match sought {
        Sought::Node(other) => *other == node,
        Sought::InScope(tag, scope) => {
            arena.is_named(node, *tag) || arena.tag(node).ends_scope(*scope)
        }
        Sought::ElementInScope(other, scope) => {
            *other == node || arena.tag(node).ends_scope(*scope)
        }
        Sought::Tag(tag) => arena.is_named(node, *tag),
        Sought::Staying(except) => stays(arena.tag(node), *except),
    }
}

/// Whether an element of this tag is not popped with those whose end tags are implied.
fn stays(tag: Tag, except: Option<Tag>) -> bool
    ensures { result ≡ tag_stays except tag }
{
    !tag.is_implied() || is_excepted(tag, except)
}

/// Whether a tag is the excepted one.
fn is_excepted(tag: Tag, except: Option<Tag>) -> bool
    ensures { result ≡ is_excepted except tag }
{
    match except {
        None => false,
        Some(name) => tag.is(name),
    }
}

/// Whether an entry is one that is sought.
fn ends_search(arena: &Arena, entry: Entry, sought: &SoughtEntry) -> bool
    requires { IsEntry arena.now entry }
    ensures { result ≡ ends_search arena.now sought.now entry }
{
    match sought {
        SoughtEntry::Node(node) => entry.is_of(*node),
        SoughtEntry::Marker => entry.is_marker(),
        SoughtEntry::NamedOrMarker(tag) => is_named_or_marker(arena, entry, *tag),
        SoughtEntry::OpenOrMarker => is_open_or_marker(arena, entry),
    }
}

/// Whether an entry is a marker, or an element of this tag.
fn is_named_or_marker(arena: &Arena, entry: Entry, tag: Tag) -> bool
    requires { IsEntry arena.now entry }
    ensures { result ≡ named_or_marker arena.now tag entry }
{
    match entry {
        Entry::Marker => true,
        Entry::Node(node) => arena.is_named(node, tag),
    }
}

/// Whether an entry is a marker, or an element that is marked as being on the stack.
fn is_open_or_marker(arena: &Arena, entry: Entry) -> bool
    requires { IsEntry arena.now entry }
    ensures { result ≡ open_or_marker arena.now entry }
{
    match entry.node() {
        None => true,
        Some(node) => arena.marked(node, Mark::OnStack),
    }
}

/// The index of the last element that is sought.
pub(crate) fn last_index(nodes: &[NodeId], arena: &Arena, sought: &Sought) -> Option<usize>
    requires { AreNodes arena.now nodes.now }
    ensures index { result ≡ last_index (is_sought arena.now sought.now) nodes.now }
    ensures below { IsBelow (length nodes.now) result }
{
    let mut at = nodes.len();
    while at > 0 {
        at -= 1;
        if is_sought(arena, nodes[at], sought) {
            return Some(at);
        }
    }
    None
}

/// The index of the last entry that is sought.
pub(crate) fn last_entry(entries: &[Entry], arena: &Arena, sought: &SoughtEntry) -> Option<usize>
    requires { AreNodes arena.now (nodes_of entries.now) }
    ensures index { result ≡ last_index (ends_search arena.now sought.now) entries.now }
    ensures below { IsBelow (length entries.now) result }
{
    let mut at = entries.len();
    while at > 0 {
        at -= 1;
        if ends_search(arena, entries[at], sought) {
            return Some(at);
        }
    }
    None
}

/// The elements from the last of `len` down to the one at an index; all where there is none.
pub(crate) fn steps_to(len: usize, found: Option<usize>) -> u128
    requires { IsBelow len found }
    ensures { result ≡ steps_down len found }
{
    match found {
        None => len as u128,
        Some(index) => (len - index) as u128,
    }
}

/// The index after another, or the first where there is none.
pub(crate) fn after(len: usize, found: Option<usize>) -> usize
    requires { IsBelow len found }
    ensures value { result ≡ after_index found }
    ensures within { result ≤ len }
{
    match found {
        None => 0,
        Some(index) => index + 1,
    }
}

/// An index, or that of the first element where there is none.
pub(crate) fn index_or_first(len: usize, found: Option<usize>) -> usize
    requires { IsBelow len found }
    ensures value { result ≡ index_or_first found }
    ensures within { result ≤ len }
{
    match found {
        None => 0,
        Some(index) => index,
    }
}

/// The steps of a removal at an index: the elements looked at, the one removed and those shifted.
pub(crate) fn removal(len: usize, found: Option<usize>) -> u128
    requires { IsBelow len found }
    ensures { result ≡ removal len found }
{
    match found {
        None => len as u128,
        Some(index) => 2 * (len - index) as u128,
    }
}
