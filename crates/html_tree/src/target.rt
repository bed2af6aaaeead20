// Where a new node goes, and how it gets there.
ghost use Rattle.std.specs.Prelude.{◌≡◌, ℕ, ◌+◌, ◌<◌, ◌≤◌, ◌∷◌, [], ◌++◌, List, length, IfErr, IfOk, IfSome, OnErr, OnOk, Ok, Some, true};
ghost use Rattle.html_names.specs.Sets.{is_formatting};
ghost use Rattle.html_arena.specs.Budget.{RefusedBy, budget};
ghost use Rattle.html_arena.specs.Data.{IsElement, IsText, tag_in};
ghost use Rattle.html_arena.specs.Make.{CanMake, label_for, made_weight, makes_child, nodes_made};
ghost use Rattle.html_arena.specs.Tree.{Tree, WellFormed, label_of, more, parent_of};
ghost use Rattle.html_open.specs.declared.entry.Entry.{Entry};
ghost use Rattle.html_open.specs.Marking.{charged};
ghost use Rattle.html_open.specs.Opened.{AreNodes, CanList, CanPush, IsOpen, IsUnseen, open_at};
ghost use Rattle.html_open.specs.Placing.{CanPlace, IsPlace, get, parent_at};
ghost use Rattle.html_arena.specs.Siblings.{first_of};
ghost use Rattle.html_tree.specs.Inserting.{IsNew};
ghost use Rattle.html_tree.specs.States.{IsNode};
ghost use Rattle.html_tree.specs.Targets.{CanTarget, place_at, target_steps};
ghost use Rattle.html_tree.specs.Texts.{if_text, text_before};

use crate::groups::Target;
use html_arena::{Arena, ArenaError, Kind, NewNode, NodeId};
use html_open::{OpenStack, Place, insert, place};

/// The place that a target stands for.
fn place_at(stack: &OpenStack, arena: &mut Arena, head: Option<NodeId>, target: Target) -> Place
    requires nodes_in { AreNodes arena.old stack.now }
    requires some_node { 0 < length arena.old.labels }
    requires head_in { IsNode arena.old head }
    requires can_place { 0 < length stack.now → CanPlace arena.old stack.now }
    requires target_in { CanTarget stack.now target }
    ensures place { result ≡ place_at arena.old stack.now head target }
    ensures there { IsPlace arena.old result }
    ensures steps { arena.new ≡ charged arena.old (target_steps arena.old stack.now target) }
    ensures keeps { (l : List Entry) → IsOpen (open_at stack.now l arena.old) → IsOpen (open_at stack.now l arena.new) }
{
    match target {
        Target::Current(foster) => place(stack, arena, None, foster),
        Target::Head => {
            let first = first_of(stack, arena);
            match head {
                Some(head) => Place::Last(head),
                None => Place::Last(first),
            }
        }
        Target::First => Place::Last(first_of(stack, arena)),
        Target::Document => {
            arena.charge(1);
            Place::Last(NodeId::at(0))
        }
    }
}

/// The first open element. One step.
fn first_of(stack: &OpenStack, arena: &mut Arena) -> NodeId
    requires opened { 0 < length stack.now }
    requires nodes_in { AreNodes arena.old stack.now }
    ensures node { result ≡ get (first_of stack.now) 0 }
    ensures node_in { result < length arena.old.labels }
    ensures steps { arena.new ≡ charged arena.old 1 }
    ensures keeps { (l : List Entry) → IsOpen (open_at stack.now l arena.old) → IsOpen (open_at stack.now l arena.new) }
{
    stack.at(arena, 0)
}

/// Makes a node and puts it at a target.
#[inline(always)]
pub(crate) fn put_new(
    stack: &OpenStack,
    arena: &mut Arena,
    head: Option<NodeId>,
    target: Target,
    new: NewNode,
) -> Result<NodeId, ArenaError>
    requires nodes_in { AreNodes arena.old stack.now }
    requires some_node { 0 < length arena.old.labels }
    requires head_in { IsNode arena.old head }
    requires can_place { 0 < length stack.now → CanPlace arena.old stack.now }
    requires target_in { CanTarget stack.now target }
    requires can_make { CanMake arena.old new }
    requires child { makes_child new ≡ true }
    ensures id { IfOk result (λ id. id ≡ length arena.old.labels) }
    ensures new { OnOk result (IsNew arena.old arena.new (place_at arena.old stack.now head target) new (length stack.now + 3)) }
    ensures steps { OnOk result (arena.new.steps ≡ more arena.old.steps (target_steps arena.old stack.now target + 2)) }
    ensures well_formed { WellFormed arena.old × WellFormed arena.new }
    ensures within { OnOk result (budget arena.old (nodes_made new) (made_weight arena.old new) ≡ Ok tt) }
    ensures same { OnErr result (arena.new ≡ record arena.old { steps = arena.new.steps }) }
    ensures cause { IfErr result (λ e. RefusedBy (budget arena.old (nodes_made new) (made_weight arena.old new)) e) }
    ensures keeps { (l : List Entry) → IsOpen (open_at stack.now l arena.old) → IsOpen (open_at stack.now l arena.new) }
    ensures can_push { OnOk result ((l : List Entry) → IsOpen (open_at stack.now l arena.old) → IsElement (label_for arena.old new) → IsUnseen (open_at stack.now l arena.old) (label_for arena.old new) → CanPush (open_at stack.now l arena.new) (length arena.old.labels)) }
    ensures can_list { OnOk result ((l : List Entry) (u : Tree) → u.labels ≡ arena.new.labels → IsOpen (open_at stack.now l arena.old) → is_formatting (tag_in (label_for arena.old new)) ≡ true → IsUnseen (open_at stack.now l arena.old) (label_for arena.old new) → CanList (open_at (stack.now ++ length arena.old.labels ∷ []) l u) (length arena.old.labels)) }
{
    arena.forest();
    let place = place_at(stack, arena, head, target);
    let node = insert(arena, place, new);
    arena.forest();
    node
}

/// The text just before a place.
pub(crate) fn text_before(arena: &Arena, place: &Place) -> Option<NodeId>
    requires { IsPlace arena.now place.now }
    ensures text { result ≡ text_before arena.now place.now }
    ensures parent { IfSome result (λ x. parent_of arena.now x ≡ parent_at arena.now place.now) }
    ensures node_in { IfSome result (λ x. (x < length arena.now.labels) × IsText (label_of arena.now x)) }
{
    match *place {
        Place::Last(parent) => if_text(arena, arena.last_child(parent)),
        Place::Before(next) => if_text(arena, arena.previous(next)),
    }
}

/// The node, if it is a text.
fn if_text(arena: &Arena, node: Option<NodeId>) -> Option<NodeId>
    requires { IsNode arena.now node }
    ensures text { result ≡ if_text arena.now node }
    ensures same { IfSome result (λ x. node ≡ Some x) }
    ensures node_in { IfSome result (λ x. (x < length arena.now.labels) × IsText (label_of arena.now x)) }
{
    let node = node?;
    match arena.kind(node) {
        Kind::Text => Some(node),
        Kind::Document | Kind::Contents | Kind::Element | Kind::Comment | Kind::Doctype => None,
    }
}
