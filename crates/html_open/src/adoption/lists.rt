// What stands on the stack and in the list after a round.
ghost use Rattle.std.specs.Prelude.{◌≡◌, ◌+◌, ◌-◌, ◌*◌, ◌<◌, ◌≤◌, ◌^◌, [], ◌∷◌, ◌++◌, IfOk, drop, false, length, map, slice_index, take, vec_capacity, vec_len};
ghost use Rattle.std.specs.List.{flat_map};
ghost use Rattle.html_arena.specs.declared.marks.Mark.TheVariants.{InList};
ghost use Rattle.html_arena.specs.Siblings.{first_of, has, is_in};
ghost use Rattle.html_arena.specs.Tree.{marked};
ghost use Rattle.html_open.specs.declared.entry.Entry.TheVariants.{Node};
ghost use Rattle.html_open.specs.Adopting.{clone_number, clones_down, heirs, relisted};
ghost use Rattle.html_open.specs.Cloning.{HaveEntered, HaveLeft};
ghost use Rattle.html_open.specs.Entries.{nodes_of};
ghost use Rattle.html_open.specs.Opened.{AreNodes};

use crate::entry::Entry;
use html_arena::{Arena, Mark, NodeId};
use std::alloc::{AllocError, Global};

/// The elements of a round that leave the stack and the list, and the clones that take their places.
#[derive(Drop)]
pub(crate) struct Plan<'a> {
    /// The formatting element.
    pub(crate) formatting: NodeId,
    /// The elements that are cloned, the nearest to the furthest block first.
    pub(crate) originals: &'a [NodeId],
    /// The number of the first of their clones, which follow one another.
    pub(crate) first: usize,
    /// The clone of the formatting element, the next after them.
    pub(crate) clone: NodeId,
}

/// The stack after a round: the clones stand in place of the elements from the formatting element to the furthest block, and the new
/// element, the formatting element's clone, after that.
pub(crate) fn restacked(
    alloc: Global,
    nodes: &[NodeId],
    at: usize,
    block_at: usize,
    first: usize,
    clone: NodeId,
) -> Result<Vec<NodeId>, AllocError>
    requires ordered { at ≤ block_at }
    requires block_in { block_at < length nodes.now }
    requires clones { first ≤ clone }
    ensures { IfOk result (λ v. v.items ≡ take at nodes.now ++ (clones_down first (clone - first) ++ (slice_index nodes.now block_at ∷ clone ∷ drop (block_at + 1) nodes.now))) }
{
    let mut stack = Vec::new(alloc);
    stack.extend_from_slice(&nodes[..at])?;
    let mut number = clone.index();
    while number > first {
        number -= 1;
        stack.push(NodeId::at(number))?;
    }
    stack.push(nodes[block_at])?;
    stack.push(clone)?;
    stack.extend_from_slice(&nodes[block_at + 1..])?;
    Ok(stack)
}

/// Clears both marks of each element.
pub(crate) fn leave(arena: &mut Arena, nodes: &[NodeId])
    requires { AreNodes arena.old nodes.now }
    ensures same { arena.new ≡ record arena.old { marks = arena.new.marks } }
    ensures marks { HaveLeft arena.old arena.new nodes.now }
{
    for node in nodes {
        arena.forest();
        arena.set_mark(*node, Mark::OnStack, false);
        arena.set_mark(*node, Mark::InList, false);
    }
}

/// Sets both marks of the nodes from one number to before another.
pub(crate) fn enter(arena: &mut Arena, first: usize, end: usize)
    requires ordered { first ≤ end }
    requires end_in { end ≤ length arena.old.labels }
    ensures same { arena.new ≡ record arena.old { marks = arena.new.marks } }
    ensures marks { HaveEntered arena.old arena.new first end }
{
    for number in first..end {
        arena.forest();
        let node = NodeId::at(number);
        arena.set_mark(node, Mark::OnStack, true);
        arena.set_mark(node, Mark::InList, true);
    }
}

/// An empty list with room for what stands for all entries after a round, which is at most two for each.
pub(crate) fn with_room(alloc: Global, entries: &[Entry]) -> Result<Vec<Entry>, AllocError>
    ensures empty { IfOk result (λ v. v.items ≡ []) }
    ensures room { IfOk result (λ v. 2 * length entries.now ≤ vec_capacity v) }
{
    let mut list = Vec::new(alloc);
    list.reserve(2 * entries.len())?;
    Ok(list)
}

/// The list after a round, by the marks of the elements that stay, in a list that is empty and has room: the new element stands at the
/// bookmark, just after the clone nearest to the furthest block, or in the formatting element's place.
pub(crate) fn relisted(list: &mut Vec<Entry>, entries: &[Entry], arena: &Arena, plan: &Plan<'_>)
    requires nodes_in { AreNodes arena.now (nodes_of entries.now) }
    requires clones { plan.now.first + length plan.now.originals.now < 2 ^ 64 }
    requires empty { list.old.items ≡ [] }
    requires room { 2 * length entries.now ≤ vec_capacity list.old }
    ensures { list.new.items ≡ flat_map (relisted plan.now.formatting (marked arena.now InList) plan.now.originals.now plan.now.first plan.now.clone) entries.now }
{
    for entry in entries {
        match *entry {
            Entry::Marker => push_entry(list, Entry::Marker),
            Entry::Node(node) => push_relisted(list, node, arena, plan),
        }
    }
}

/// Adds an entry to a list that has room.
fn push_entry(list: &mut Vec<Entry>, entry: Entry)
    requires room { vec_len list.old < vec_capacity list.old }
    ensures list { list.new.items ≡ list.old.items ++ entry ∷ [] }
    ensures room { vec_capacity list.old ≤ vec_capacity list.new }
{
    let _ = list.push(entry);
}

/// Adds what stands in the list for an element after a round.
fn push_relisted(list: &mut Vec<Entry>, node: NodeId, arena: &Arena, plan: &Plan<'_>)
    requires node_in { node < length arena.now.labels }
    requires clones { plan.now.first + length plan.now.originals.now < 2 ^ 64 }
    requires room { vec_len list.old + 2 ≤ vec_capacity list.old }
    ensures list { list.new.items ≡ list.old.items ++ map Node (heirs plan.now.formatting (marked arena.now InList) plan.now.originals.now plan.now.first plan.now.clone node) }
    ensures room { vec_capacity list.old ≤ vec_capacity list.new }
    ensures few { vec_len list.new ≤ vec_len list.old + 2 }
{
    if node == plan.formatting {
        if plan.originals.is_empty() {
            push_entry(list, Entry::Node(plan.clone));
        }
        return;
    }
    if contains(plan.originals, node) {
        let number = number_of_clone(plan.first, plan.originals, node);
        push_entry(list, Entry::Node(NodeId::at(number)));
        if is_first(plan.originals, node) {
            push_entry(list, Entry::Node(plan.clone));
        }
        return;
    }
    if arena.marked(node, Mark::InList) {
        push_entry(list, Entry::Node(node));
    }
}

/// Whether an element is one of these.
fn contains(nodes: &[NodeId], node: NodeId) -> bool
    ensures { result ≡ has node nodes.now }
{
    nodes.contains(&node)
}

/// Whether an element is the first of these.
fn is_first(nodes: &[NodeId], node: NodeId) -> bool
    ensures { result ≡ is_in node (first_of nodes.now) }
{
    if nodes.is_empty() {
        return false;
    }
    node == nodes[0]
}

/// The number of the clone of an element, where those of the originals follow one another.
fn number_of_clone(first: usize, originals: &[NodeId], node: NodeId) -> usize
    requires { first + length originals.now < 2 ^ 64 }
    ensures { result ≡ clone_number first originals.now node }
{
    let mut number = first;
    for other in originals {
        if node == *other {
            return number;
        }
        number += 1;
    }
    number
}
