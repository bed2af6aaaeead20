// The moves of a round, on nodes that are there: none of them can fail.
ghost use Rattle.std.specs.Prelude.{◌≡◌, ◌≢◌, ℕ, ◌+◌, ◌-◌, ◌<◌, ◌≤◌, None, [], false, length, true};
ghost use Rattle.html_arena.specs.Data.{is_linkable};
ghost use Rattle.html_arena.specs.Siblings.{has};
ghost use Rattle.html_arena.specs.Tree.{children_of, label_of, parent_of};
ghost use Rattle.html_open.specs.Hanging.{Chained, Hung, SameNodes, StandAlone, chain_top, wrapped_children, wrapped_parent};
ghost use Rattle.html_open.specs.Marking.{IsCounted};
ghost use Rattle.html_open.specs.Placing.{IsPlace, way_up};

use crate::places::{Place, put};
use html_arena::{Arena, NodeId};

/// Hangs the furthest block, `block`, into a chain of the clones from `first` to before `clone`, each the parent of the one before it;
/// the top of the chain goes to `place`. The children of `block` go to `clone`, which becomes its one child.
pub(crate) fn hang(arena: &mut Arena, block: NodeId, first: usize, clone: NodeId, place: Place)
    requires block_below { block < first }
    requires ordered { first ≤ clone }
    requires clone_in { clone < length arena.old.labels }
    requires block_linkable { is_linkable (label_of arena.old block) ≡ true }
    requires fresh { StandAlone arena.old first (clone + 1) }
    requires place_in { IsPlace arena.old place }
    requires older { (y : ℕ) → has y (way_up arena.old place) ≡ true → (y < first) × (y ≢ block) }
    ensures hung { Hung arena.old arena.new block first clone place }
    ensures steps { IsCounted arena.old.steps arena.new.steps 0 (length arena.old.labels + (clone - first) + 3) }
{
    arena.forest();
    wrap_children(arena, block, clone);
    let top = chain(arena, block, first, clone.index());
    put(arena, place, top);
}

/// Takes `block` from its parent, and gives its children to `clone`, which becomes its one child.
fn wrap_children(arena: &mut Arena, block: NodeId, clone: NodeId)
    requires block_in { block < length arena.old.labels }
    requires clone_in { clone < length arena.old.labels }
    requires apart { block ≢ clone }
    requires linkable { is_linkable (label_of arena.old clone) ≡ true }
    requires alone { parent_of arena.old clone ≡ None }
    requires childless { children_of arena.old clone ≡ [] }
    ensures nodes { SameNodes arena.old arena.new }
    ensures children { (x : ℕ) → children_of arena.new x ≡ wrapped_children arena.old block clone x }
    ensures parents { (x : ℕ) → parent_of arena.new x ≡ wrapped_parent arena.old block clone x }
    ensures steps { IsCounted arena.old.steps arena.new.steps 0 (length arena.old.labels + 2) }
{
    arena.forest();
    arena.detach(block);
    arena.move_children(block, clone);
    arena.append(block, clone);
}

/// Hangs `block` into a chain of the nodes from `first` to before `end`, each the parent of the one before it, and gives its top.
fn chain(arena: &mut Arena, block: NodeId, first: usize, end: usize) -> NodeId
    requires block_below { block < first }
    requires ordered { first ≤ end }
    requires end_in { end ≤ length arena.old.labels }
    requires linkable { is_linkable (label_of arena.old block) ≡ true }
    requires alone { parent_of arena.old block ≡ None }
    requires fresh { StandAlone arena.old first end }
    ensures top { result ≡ chain_top block first end }
    ensures chained { Chained arena.old arena.new block first end }
    ensures steps { IsCounted arena.old.steps arena.new.steps 0 (end - first) }
{
    let mut top = block;
    for number in first..end {
        arena.forest();
        let clone = NodeId::at(number);
        arena.append(clone, top);
        top = clone;
    }
    top
}
