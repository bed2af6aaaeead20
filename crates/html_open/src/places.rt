// The place for a node.
ghost use Rattle.std.specs.Prelude.{◌≡◌, ◌≢◌, ℕ, ◌<◌, ◌∷◌, List, length, None, Some, false, true};
ghost use Rattle.html_arena.specs.Data.{is_linkable};
ghost use Rattle.html_arena.specs.Siblings.{has};
ghost use Rattle.html_arena.specs.Tree.{ancestors, children_of, label_of, parent_of};
ghost use Rattle.html_open.specs.Hanging.{IsPut};
ghost use Rattle.html_open.specs.Inserting.{SparesClosed};
ghost use Rattle.html_open.specs.Marking.{IsCounted};
ghost use Rattle.html_open.specs.declared.entry.Entry.{Entry};
ghost use Rattle.html_open.specs.Opened.{IsApart, IsOpen, open_at};
ghost use Rattle.html_open.specs.Placing.{CanPlace, IsPlace, parent_at, put, way_up};
ghost use Rattle.html_open.specs.Reopening.{KeepsClosed};

use html_arena::{Arena, NodeId};

/// A place for a node: as the last child of a node, or just before a node that has a parent.
#[derive(Clone, Copy, Debug, PartialEq, Eq)]
pub enum Place {
    Last(NodeId),
    Before(NodeId),
}

/// Puts a node that stands alone at a place. One step.
pub fn put(arena: &mut Arena, place: Place, node: NodeId)
    requires place_in { IsPlace arena.old place }
    requires node_in { node < length arena.old.labels }
    requires linkable { is_linkable (label_of arena.old node) ≡ true }
    requires alone { parent_of arena.old node ≡ None }
    requires not_above { has node (way_up arena.old place) ≡ false }
    ensures tree { arena.new ≡ put arena.old place node }
    ensures put { IsPut arena.old arena.new place node }
    ensures steps { IsCounted arena.old.steps arena.new.steps 0 1 }
    ensures others { (x : ℕ) → x < length arena.old.labels → has node (x ∷ ancestors arena.old x) ≡ false → ancestors arena.new x ≡ ancestors arena.old x }
    ensures children { (x : ℕ) → parent_at arena.old place ≢ Some x → children_of arena.new x ≡ children_of arena.old x }
    ensures parents { (x : ℕ) → x ≢ node → parent_of arena.new x ≡ parent_of arena.old x }
    ensures keeps { (s : List ℕ) (l : List Entry) → IsApart arena.old s node → IsOpen (open_at s l arena.old) → IsOpen (open_at s l arena.new) }
    ensures can_place { (s : List ℕ) → CanPlace arena.old s → CanPlace arena.new s }
    ensures closed { (s : List ℕ) (l : List Entry) → SparesClosed arena.old s place → KeepsClosed (open_at s l arena.old) arena.new }
{
    link_at(arena, place, node);
}

/// Links a node that stands alone at a place.
fn link_at(arena: &mut Arena, place: Place, node: NodeId)
    requires place_in { IsPlace arena.old place }
    requires node_in { node < length arena.old.labels }
    requires linkable { is_linkable (label_of arena.old node) ≡ true }
    requires alone { parent_of arena.old node ≡ None }
    requires not_above { has node (way_up arena.old place) ≡ false }
    ensures tree { arena.new ≡ put arena.old place node }
    ensures put { IsPut arena.old arena.new place node }
    ensures steps { IsCounted arena.old.steps arena.new.steps 0 1 }
    ensures others { (x : ℕ) → x < length arena.old.labels → has node (x ∷ ancestors arena.old x) ≡ false → ancestors arena.new x ≡ ancestors arena.old x }
    ensures children { (x : ℕ) → parent_at arena.old place ≢ Some x → children_of arena.new x ≡ children_of arena.old x }
    ensures parents { (x : ℕ) → x ≢ node → parent_of arena.new x ≡ parent_of arena.old x }
{
    match place {
        Place::Last(parent) => arena.append(parent, node),
        Place::Before(next) => arena.insert_before(node, next),
    }
}
