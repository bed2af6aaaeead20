// Nodes removed, appended and put before others.
ghost use Rattle.std.specs.Prelude.{◌≡◌, ◌<◌, ◌≢◌, ◌∷◌, None, OnOk, OnErr, length, nat_lt, true, false};
ghost use Rattle.html_arena.specs.Below.{or_self};
ghost use Rattle.html_arena.specs.Data.{contents_in, is_linkable};
ghost use Rattle.html_arena.specs.Laws.{IsUnlinked};
ghost use Rattle.html_arena.specs.Siblings.{has};
ghost use Rattle.html_arena.specs.Tree.{WellFormed, ancestors, appended, detached, inserted, label_of, parent_of};
ghost use Rattle.html_dom.specs.declared.error.EditError.TheVariants.{NoNode};
ghost use Rattle.html_dom.specs.Edits.{append_fault, appended_to, child_fault, insert_fault, outcome, put_to, unless};
ghost use Rattle.html_dom.specs.Places.{would_cycle};

use crate::error::EditError;
use crate::places::{is_node, would_cycle};
use crate::reads::inner;
use html_arena::{Arena, NodeId};

/// Takes a node out of its tree, with all below it: it then stands alone, and can be linked again.
///
/// # Errors
///
/// `NoNode`.
pub fn remove(arena: &mut Arena, node: NodeId) -> Result<(), EditError>
    ensures outcome { result ≡ outcome (unless (nat_lt node (length arena.old.labels)) NoNode) }
    ensures removed { OnOk result (arena.new ≡ detached arena.old node (parent_of arena.old node)) }
    ensures laws { OnOk result (IsUnlinked arena.old arena.new node) }
    ensures refused { OnErr result (arena.new ≡ arena.old) }
{
    if !is_node(arena, node) {
        return Err(EditError::NoNode);
    }
    arena.detach(node);
    Ok(())
}

/// Takes `child` from where it stands and makes it the last node just below `parent`: below a template, in its contents.
///
/// # Errors
///
/// `NoNode`, `NotLinkable`, `Cycle`, in this order.
pub fn append(arena: &mut Arena, parent: NodeId, child: NodeId) -> Result<(), EditError>
    ensures outcome { result ≡ outcome (append_fault arena.old parent child) }
    ensures appended { OnOk result (arena.new ≡ appended_to arena.old parent child) }
    ensures well_formed { WellFormed arena.new }
    ensures refused { OnErr result (arena.new ≡ arena.old) }
{
    arena.forest();
    if !is_node(arena, parent) {
        return Err(EditError::NoNode);
    }
    check_child(arena, child)?;
    if would_cycle(arena, child, parent) {
        return Err(EditError::Cycle);
    }
    append_apart(arena, parent, child);
    arena.forest();
    Ok(())
}

/// Takes `child` from where it stands and puts it just before `next`, among the children of the parent of `next`.
///
/// # Errors
///
/// `NoNode`, `NotLinkable`, `NoParent` where `next` has none, `Cycle`, in this order.
pub fn insert_before(arena: &mut Arena, child: NodeId, next: NodeId) -> Result<(), EditError>
    ensures outcome { result ≡ outcome (insert_fault arena.old child next) }
    ensures inserted { OnOk result (arena.new ≡ put_to arena.old child next) }
    ensures well_formed { WellFormed arena.new }
    ensures refused { OnErr result (arena.new ≡ arena.old) }
{
    arena.forest();
    if !is_node(arena, next) {
        return Err(EditError::NoNode);
    }
    check_child(arena, child)?;
    if arena.parent(next).is_none() {
        return Err(EditError::NoParent);
    }
    if would_cycle(arena, child, next) {
        return Err(EditError::Cycle);
    }
    put_apart(arena, child, next);
    arena.forest();
    Ok(())
}

/// Refuses a node that is none, or that may have no parent.
fn check_child(arena: &Arena, child: NodeId) -> Result<(), EditError>
    ensures { result ≡ outcome (child_fault arena.now child) }
{
    if !is_node(arena, child) {
        return Err(EditError::NoNode);
    }
    if !arena.is_linkable(child) {
        return Err(EditError::NotLinkable);
    }
    Ok(())
}

/// Appends a node that is not above the other.
fn append_apart(arena: &mut Arena, parent: NodeId, child: NodeId)
    requires parent_in { parent < length arena.old.labels }
    requires child_in { child < length arena.old.labels }
    requires linkable { is_linkable (label_of arena.old child) ≡ true }
    requires apart { would_cycle arena.old child parent ≡ false }
    ensures { arena.new ≡ appended_to arena.old parent child }
{
    arena.forest();
    let place = inner(arena, parent);
    append_at(arena, place, child);
}

/// Links a node that is not above the other.
fn append_at(arena: &mut Arena, place: NodeId, child: NodeId)
    requires place_in { place < length arena.old.labels }
    requires child_in { child < length arena.old.labels }
    requires linkable { is_linkable (label_of arena.old child) ≡ true }
    requires apart { has child (place ∷ ancestors arena.old place) ≡ false }
    ensures { arena.new ≡ appended (detached arena.old child (parent_of arena.old child)) place child }
{
    arena.detach(child);
    arena.append(place, child);
}

/// Puts a node before one that it is not above.
fn put_apart(arena: &mut Arena, child: NodeId, next: NodeId)
    requires next_in { next < length arena.old.labels }
    requires child_in { child < length arena.old.labels }
    requires linkable { is_linkable (label_of arena.old child) ≡ true }
    requires has_parent { parent_of arena.old next ≢ None }
    requires apart { would_cycle arena.old child next ≡ false }
    ensures { arena.new ≡ put_to arena.old child next }
{
    arena.forest();
    put_at(arena, child, next);
}

/// Links a node before one that it is not above.
fn put_at(arena: &mut Arena, child: NodeId, next: NodeId)
    requires next_in { next < length arena.old.labels }
    requires child_in { child < length arena.old.labels }
    requires linkable { is_linkable (label_of arena.old child) ≡ true }
    requires has_parent { parent_of arena.old next ≢ None }
    requires apart { has child (next ∷ ancestors arena.old next) ≡ false }
    ensures { arena.new ≡ put_to arena.old child next }
{
    arena.detach(child);
    arena.insert_before(child, next);
}
