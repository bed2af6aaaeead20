// Elements unwrapped: what stands below them takes their place.
ghost use Rattle.std.specs.Prelude.{◌≡◌, ◌≢◌, ◌<◌, ◌++◌, [], None, Some, IfSome, OnOk, OnErr, length, true, false};
ghost use Rattle.html_arena.specs.Data.{contents_in, host_in, is_linkable};
ghost use Rattle.html_arena.specs.Siblings.{has};
ghost use Rattle.html_arena.specs.Tree.{ancestors, children_of, label_of, moved, parent_of};
ghost use Rattle.html_dom.specs.Edits.{IsUnwrapped, are_linkable, gathered, held_by, is_inside, outcome, unwrap_fault};
ghost use Rattle.html_dom.specs.Lifting.{IsPartRaised, IsRaised};

use crate::error::EditError;
use crate::places::is_node;
use crate::walks::own_children;
use html_arena::{Arena, NodeData, NodeId};

/// Puts what stands below an element in its place, among the children of its parent and in order; of a template, what its contents hold. The element
/// then stands alone, with nothing below it.
///
/// # Errors
///
/// `NoNode`, `NotElement`, `NoParent`; `Cycle` where the node is a template that stands in its own contents.
pub fn unwrap(arena: &mut Arena, node: NodeId) -> Result<(), EditError>
    ensures outcome { result ≡ outcome (unwrap_fault arena.old node) }
    ensures unwrapped { OnOk result (IfSome (parent_of arena.old node) (λ p. IsUnwrapped (gathered arena.old node (contents_in (label_of arena.old node))) arena.new node p)) }
    ensures refused { OnErr result (arena.new ≡ arena.old) }
{
    check_unwrap(arena, node)?;
    gather(arena, node);
    lift(arena, node);
    Ok(())
}

/// Refuses a node that can't be unwrapped.
fn check_unwrap(arena: &Arena, node: NodeId) -> Result<(), EditError>
    ensures { result ≡ outcome (unwrap_fault arena.now node) }
{
    if !is_node(arena, node) {
        return Err(EditError::NoNode);
    }
    let NodeData::Element(_) = arena.node(node) else {
        return Err(EditError::NotElement);
    };
    if arena.parent(node).is_none() {
        return Err(EditError::NoParent);
    }
    if stands_in_itself(arena, node) {
        return Err(EditError::Cycle);
    }
    if !(has_linkable_children(arena, node) && holds_linkable_nodes(arena, node)) {
        return Err(EditError::NotLinkable);
    }
    Ok(())
}

/// Whether a node's children may be linked, as all that were linked by an arena's calls may.
fn has_linkable_children(arena: &Arena, node: NodeId) -> bool
    requires { node < length arena.now.labels }
    ensures { result ≡ are_linkable arena.now (children_of arena.now node) }
{
    let mut children = own_children(arena, node);
    'children: while let Some(child) = children.next() {
        if !is_linkable(arena, child) {
            return false;
        }
    }
    true
}

/// Whether what a template's contents hold may be linked.
fn holds_linkable_nodes(arena: &Arena, node: NodeId) -> bool
    requires { node < length arena.now.labels }
    ensures { result ≡ are_linkable arena.now (held_by arena.now (contents_in (label_of arena.now node))) }
{
    match arena.contents(node) {
        Some(contents) => has_linkable_children(arena, contents),
        None => true,
    }
}

/// Whether a node may be linked.
fn is_linkable(arena: &Arena, node: NodeId) -> bool
    ensures { result ≡ is_linkable (label_of arena.now node) }
{
    is_node(arena, node) && arena.is_linkable(node)
}

/// Whether a node is a template that stands in its own contents.
fn stands_in_itself(arena: &Arena, node: NodeId) -> bool
    requires { node < length arena.now.labels }
    ensures { result ≡ is_inside (contents_in (label_of arena.now node)) (ancestors arena.now node) }
{
    match arena.contents(node) {
        Some(contents) => arena.is_ancestor(contents, node),
        None => false,
    }
}

/// Makes what a template's contents hold its own children.
fn gather(arena: &mut Arena, node: NodeId)
    requires node_in { node < length arena.old.labels }
    requires apart { is_inside (contents_in (label_of arena.old node)) (ancestors arena.old node) ≡ false }
    ensures gathered { arena.new ≡ gathered arena.old node (contents_in (label_of arena.old node)) }
    ensures labels { arena.new.labels ≡ arena.old.labels }
    ensures parent { parent_of arena.new node ≡ parent_of arena.old node }
    ensures linkable { are_linkable arena.old (children_of arena.old node) ≡ true → are_linkable arena.old (held_by arena.old (contents_in (label_of arena.old node))) ≡ true → are_linkable arena.new (children_of arena.new node) ≡ true }
{
    arena.forest();
    if let Some(contents) = arena.contents(node) {
        gather_from(arena, contents, node);
    }
}

/// Makes the children of a template's contents its own.
fn gather_from(arena: &mut Arena, contents: NodeId, node: NodeId)
    requires node_in { node < length arena.old.labels }
    requires contents_in { contents < length arena.old.labels }
    requires is { host_in (label_of arena.old contents) ≡ Some node }
    requires has { contents_in (label_of arena.old node) ≡ Some contents }
    requires apart { has contents (ancestors arena.old node) ≡ false }
    ensures moved { arena.new ≡ moved arena.old contents node }
    ensures labels { arena.new.labels ≡ arena.old.labels }
    ensures parent { parent_of arena.new node ≡ parent_of arena.old node }
    ensures children { children_of arena.new node ≡ children_of arena.old node ++ children_of arena.old contents }
{
    arena.forest();
    arena.move_children(contents, node);
}

/// Puts the children of a node in its place.
fn lift(arena: &mut Arena, node: NodeId)
    requires node_in { node < length arena.old.labels }
    requires has_parent { parent_of arena.old node ≢ None }
    requires linkable { are_linkable arena.old (children_of arena.old node) ≡ true }
    ensures { IfSome (parent_of arena.old node) (λ p. IsUnwrapped arena.old arena.new node p) }
{
    if let Some(parent) = arena.parent(node) {
        lift_to(arena, node, parent);
    }
}

/// Puts the children of a node in its place below its parent.
fn lift_to(arena: &mut Arena, node: NodeId, parent: NodeId)
    requires node_in { node < length arena.old.labels }
    requires parent_is { parent_of arena.old node ≡ Some parent }
    requires linkable { are_linkable arena.old (children_of arena.old node) ≡ true }
    ensures { IsUnwrapped arena.old arena.new node parent }
{
    arena.forest();
    raise_children(arena, node, parent);
    arena.detach(node);
}

/// Puts the children of a node just before it.
fn raise_children(arena: &mut Arena, node: NodeId, parent: NodeId)
    requires node_in { node < length arena.old.labels }
    requires parent_is { parent_of arena.old node ≡ Some parent }
    requires linkable { are_linkable arena.old (children_of arena.old node) ≡ true }
    ensures raised { IsPartRaised arena.old arena.new node parent }
    ensures all { children_of arena.new node ≡ [] }
{
    arena.forest();
    'raise: while let Some(child) = arena.first_child(node) {
        raise(arena, child, node, parent);
    }
}

/// Puts a child of a node just before it.
fn raise(arena: &mut Arena, child: NodeId, node: NodeId, parent: NodeId)
    requires child_in { child < length arena.old.labels }
    requires node_in { node < length arena.old.labels }
    requires linkable { is_linkable (label_of arena.old child) ≡ true }
    requires child_is { parent_of arena.old child ≡ Some node }
    requires parent_is { parent_of arena.old node ≡ Some parent }
    ensures { IsRaised arena.old arena.new child node parent }
{
    arena.forest();
    arena.detach(child);
    arena.insert_before(child, node);
}
