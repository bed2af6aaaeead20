// A new node, at its place.
ghost use Rattle.std.specs.Prelude.{◌≡◌, ℕ, ◌+◌, ◌∷◌, [], ◌++◌, IfErr, IfOk, List, Ok, OnErr, OnOk, length, true};
ghost use Rattle.html_names.specs.Sets.{is_formatting};
ghost use Rattle.html_arena.specs.Budget.{RefusedBy, budget};
ghost use Rattle.html_arena.specs.Data.{IsElement, tag_in};
ghost use Rattle.html_arena.specs.Make.{CanMake, label_for, made, made_weight, makes_child, nodes_made};
ghost use Rattle.html_arena.specs.Tree.{Tree, more};
ghost use Rattle.html_open.specs.declared.entry.Entry.{Entry};
ghost use Rattle.html_open.specs.Inserting.{HasNew, SparesClosed};
ghost use Rattle.html_open.specs.Marking.{bare};
ghost use Rattle.html_open.specs.Opened.{AreNodes, CanList, CanPush, IsOpen, IsUnseen, open_at};
ghost use Rattle.html_open.specs.Placing.{CanPlace, IsPlace, put};
ghost use Rattle.html_open.specs.Reopening.{KeepsClosed};

use crate::places::{Place, put};
use html_arena::{Arena, ArenaError, NewNode, NodeId};

/// Makes a node and puts it at a place; a template with its Contents node. Two steps. An element may then be pushed onto the stack, and
/// after that, where it is a formatting element, onto the list.
#[inline(always)]
pub fn insert(arena: &mut Arena, place: Place, new: NewNode) -> Result<NodeId, ArenaError>
    requires place_in { IsPlace arena.old place }
    requires can_make { CanMake arena.old new }
    requires child { makes_child new ≡ true }
    ensures id { IfOk result (λ id. id ≡ length arena.old.labels) }
    ensures within { OnOk result (budget arena.old (nodes_made new) (made_weight arena.old new) ≡ Ok tt) }
    ensures tree { OnOk result (arena.new ≡ put (made arena.old new) place (length arena.old.labels)) }
    ensures bare_tree { OnOk result (bare arena.new ≡ bare (put (made (bare arena.old) new) place (length arena.old.labels))) }
    ensures nodes { OnOk result (length arena.new.labels ≡ length arena.old.labels + nodes_made new) }
    ensures held { OnOk result (arena.new.held ≡ more arena.old.held (made_weight arena.old new)) }
    ensures steps { OnOk result (arena.new.steps ≡ more arena.old.steps 2) }
    ensures laws { OnOk result (HasNew arena.old arena.new place (label_for arena.old new)) }
    ensures same { OnErr result (arena.new ≡ arena.old) }
    ensures cause { IfErr result (λ e. RefusedBy (budget arena.old (nodes_made new) (made_weight arena.old new)) e) }
    ensures keeps { (s : List ℕ) (l : List Entry) → IsOpen (open_at s l arena.old) → IsOpen (open_at s l arena.new) }
    ensures can_place { (s : List ℕ) → AreNodes arena.old s → CanPlace arena.old s → CanPlace arena.new s }
    ensures closed { (s : List ℕ) (l : List Entry) → SparesClosed arena.old s place → KeepsClosed (open_at s l arena.old) arena.new }
    ensures can_push { OnOk result ((s : List ℕ) (l : List Entry) → IsOpen (open_at s l arena.old) → IsElement (label_for arena.old new) → IsUnseen (open_at s l arena.old) (label_for arena.old new) → CanPush (open_at s l arena.new) (length arena.old.labels)) }
    ensures can_list { OnOk result ((s : List ℕ) (l : List Entry) (u : Tree) → u.labels ≡ arena.new.labels → IsOpen (open_at s l arena.old) → is_formatting (tag_in (label_for arena.old new)) ≡ true → IsUnseen (open_at s l arena.old) (label_for arena.old new) → CanList (open_at (s ++ length arena.old.labels ∷ []) l u) (length arena.old.labels)) }
{
    match arena.make(new) {
        Err(cause) => Err(cause),
        Ok(node) => {
            put(arena, place, node);
            Ok(node)
        }
    }
}
