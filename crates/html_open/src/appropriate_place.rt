// The place for a node, by the stack.
ghost use Rattle.std.specs.Prelude.{◌≡◌, ◌<◌, ◌+◌, List, length};
ghost use Rattle.html_arena.specs.Tree.{named, tag_at};
ghost use Rattle.html_names.specs.declared.tag.Tag.TheVariants as tag;
ghost use Rattle.html_open.specs.declared.entry.Entry.{Entry};
ghost use Rattle.html_open.specs.Inserting.{IsOpenTarget, SparesClosed};
ghost use Rattle.html_open.specs.Lists.{IsBelow, last_index, last_where, looked};
ghost use Rattle.html_open.specs.Marking.{charged};
ghost use Rattle.html_open.specs.Opened.{AreNodes, IsOpen, open_at};
ghost use Rattle.html_open.specs.Placing.{CanPlace, IsPlace, IsTarget, fostered, fosters, inside, outside_table, place_of, place_steps, table, target_of};

use crate::places::Place;
use crate::search::{Sought, after, last_index, steps_to};
use crate::stack::OpenStack;
use html_arena::{Arena, NodeId};
use html_names::Tag;

/// The appropriate place for inserting a node whose target is the current node, or the one given; with `foster`, a node for a table or a
/// part of one that takes no content goes elsewhere: foster parenting. One step, and where it goes elsewhere one for each element from the current node down to the last table.
pub fn place(stack: &OpenStack, arena: &mut Arena, target: Option<NodeId>, foster: bool) -> Place
    requires nodes_in { AreNodes arena.old stack.now }
    requires target_in { IsTarget arena.old target }
    requires can_place { CanPlace arena.old stack.now }
    ensures place { result ≡ place_of arena.old stack.now target foster }
    ensures there { IsPlace arena.old result }
    ensures steps { arena.new ≡ charged arena.old (place_steps arena.old stack.now target foster) }
    ensures keeps { (l : List Entry) → IsOpen (open_at stack.now l arena.old) → IsOpen (open_at stack.now l arena.new) }
    ensures can_place_still { CanPlace arena.new stack.now }
    ensures spares_closed { (l : List Entry) → IsOpen (open_at stack.now l arena.old) → IsOpenTarget stack.now target → SparesClosed arena.new stack.now result }
{
    arena.forest();
    let nodes = stack.as_slice();
    let target = target_node(nodes, arena, target);
    if is_fostered(arena, target, foster) {
        return foster_place(nodes, arena);
    }
    let inner = inside(arena, target);
    arena.charge(1);
    Place::Last(inner)
}

/// The place for a node that goes elsewhere. One step, and one for each element from the current node down to the last table.
#[inline(never)]
fn foster_place(nodes: &[NodeId], arena: &mut Arena) -> Place
    requires nodes_in { AreNodes arena.old nodes.now }
    requires can_place { CanPlace arena.old nodes.now }
    ensures place { result ≡ fostered arena.old nodes.now }
    ensures there { IsPlace arena.old result }
    ensures steps { arena.new ≡ charged arena.old (1 + looked (table arena.old) nodes.now) }
{
    let found = last_index(nodes, arena, &Sought::Tag(Tag::Table));
    let place = fostered(nodes, arena, found);
    arena.charge(1 + steps_to(nodes.len(), found));
    place
}

/// The target that is given, or else the current node.
fn target_node(nodes: &[NodeId], arena: &Arena, target: Option<NodeId>) -> NodeId
    requires nodes_in { AreNodes arena.now nodes.now }
    requires target_in { IsTarget arena.now target }
    requires can_place { CanPlace arena.now nodes.now }
    ensures node { result ≡ target_of nodes.now target }
    ensures within { result < length arena.now.labels }
{
    match target {
        Some(target) => target,
        None => nodes[nodes.len() - 1],
    }
}

/// Whether a node for this target goes elsewhere.
fn is_fostered(arena: &Arena, target: NodeId, foster: bool) -> bool
    requires { target < length arena.now.labels }
    ensures { result ≡ fosters arena.now target foster }
{
    foster && arena.tag(target).is_fostering()
}

/// A template's contents, or else the node.
fn inside(arena: &Arena, node: NodeId) -> NodeId
    requires { node < length arena.now.labels }
    ensures value { result ≡ inside arena.now node }
    ensures within { result < length arena.now.labels }
{
    match arena.contents(node) {
        Some(contents) => contents,
        None => node,
    }
}

/// The place for a node that goes elsewhere, by the index of the last table.
fn fostered(nodes: &[NodeId], arena: &Arena, found: Option<usize>) -> Place
    requires nodes_in { AreNodes arena.now nodes.now }
    requires can_place { CanPlace arena.now nodes.now }
    requires found_in { IsBelow (length nodes.now) found }
    requires table { found ≡ last_index (table arena.now) nodes.now }
    ensures place { result ≡ fostered arena.now nodes.now }
    ensures there { IsPlace arena.now result }
{
    let later = &nodes[after(nodes.len(), found)..];
    match last_index(later, arena, &Sought::Tag(Tag::Template)) {
        Some(index) => Place::Last(inside(arena, later[index])),
        None => outside_table(nodes, arena, found),
    }
}

/// The place for a node that goes outside the last table, by its index.
fn outside_table(nodes: &[NodeId], arena: &Arena, found: Option<usize>) -> Place
    requires nodes_in { AreNodes arena.now nodes.now }
    requires can_place { CanPlace arena.now nodes.now }
    requires found_in { IsBelow (length nodes.now) found }
    requires table { found ≡ last_index (table arena.now) nodes.now }
    ensures place { result ≡ outside_table arena.now nodes.now (last_where (table arena.now) nodes.now) }
    ensures there { IsPlace arena.now result }
{
    let Some(index) = found else {
        return Place::Last(nodes[0]);
    };
    let table = nodes[index];
    match arena.parent(table) {
        Some(_) => Place::Before(table),
        None => Place::Last(inside(arena, nodes[index - 1])),
    }
}
