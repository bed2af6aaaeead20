// The adoption agency: what an end tag of a formatting name does to the open elements (13.2.6.4.7).
ghost use Rattle.std.specs.Prelude.{◌≡◌, ℕ, ◌+◌, ◌-◌, ◌*◌, ◌<◌, ◌≤◌, Bool, IfErr, IfOk, None, OnOk, Some, false, length, true};
ghost use Rattle.html_names.specs.Sets.{is_special};
ghost use Rattle.html_names.specs.declared.tag.Tag.{Tag};
ghost use Rattle.html_arena.specs.Siblings.{first_of, last_of};
ghost use Rattle.html_arena.specs.Tree.{WellFormed, named};
ghost use Rattle.html_open.specs.AdoptFinding.{IsPlain};
ghost use Rattle.html_open.specs.Adopting.{Adopted, Closed, IsFirstFree, IsRefusal, IsStopped, IsTurn, MadeClones, Popped, Survives, pops_at_once};
ghost use Rattle.html_open.specs.Leaving.{IsPaid, listed_weight};
ghost use Rattle.html_open.specs.Marking.{IsCounted};
ghost use Rattle.html_open.specs.Opened.{IsOpen, Open, open_at};
ghost use Rattle.html_open.specs.Outcome.{IsAlike};
ghost use Rattle.html_open.specs.Placing.{CanPlace};
ghost use Rattle.html_open.specs.Reopening.{IsTold, KeepsClosed};
ghost use Rattle.html_open.specs.Rooting.{KeepsRoots};

mod chain;
mod clones;
mod find;
mod lists;
mod round;

use crate::adoption::find::{Found, find};
use crate::adoption::round::round;
use crate::list::FormattingList;
use crate::stack::OpenStack;
use html_arena::{Arena, ArenaError, NodeId};
use html_names::Tag;

/// How many rounds there are at most.
const ROUNDS: usize = 8;

/// How an adoption ended.
#[derive(Clone, Copy, Debug, PartialEq, Eq)]
pub enum AdoptEnd {
    /// Nothing is left to do.
    Done,
    /// No entry of the name was there: the rules for any other end tag are to be followed.
    OtherEndTag,
}

/// Runs the adoption agency algorithm for an end tag of a formatting name, the subject: the elements that are open inside the formatting
/// element are closed, or, where there is a furthest block among them, cloned into it. A current node of the name that is not in the list
/// is popped, and no more.
///
/// At most 32 nodes are made, each a clone of an element in the list. A refusal stops the round under way after some of its clones, which
/// then stand alone: `NodeBudget` and `HeldBudget` where the next clone would pass that limit, `OutOfMemory` where memory was refused,
/// which is told only where the next clone, if there is one, is within both limits.
/// The stack and the list are then as the rounds before left them.
///
/// Steps: at least one for each node made, for each element that left the stack, and for each that left the list; with `h` elements on
/// the stack, `l` entries in the list and, in the end, `c` nodes at most `8 c + 32 h + 24 l + 291`, which is never more than
/// `32 (h + l + 4)² + 8 c`. After a refusal too, at least one for each node made, and at most so many.
pub fn adopt(
    stack: &mut OpenStack,
    list: &mut FormattingList,
    arena: &mut Arena,
    name: Tag,
    foster: bool,
) -> Result<AdoptEnd, ArenaError>
    requires open { IsOpen (open_at stack.old list.old arena.old) }
    requires can_place { CanPlace arena.old stack.old }
    requires first_free { IsFirstFree stack.old list.old }
    ensures adopted { IfOk result (λ end. Adopted name foster end (open_at stack.old list.old arena.old) (open_at stack.new list.new arena.new)) }
    ensures kept { IsOpen (open_at stack.new list.new arena.new) }
    ensures first { (x : ℕ) → first_of stack.old ≡ Some x → named arena.old name x ≡ false → first_of stack.new ≡ Some x }
    ensures can_place { 0 < length stack.new → CanPlace arena.new stack.new }
    ensures first_free { IsFirstFree stack.new list.new }
    ensures roots { OnOk result (KeepsRoots (open_at stack.old list.old arena.old) arena.new) }
    ensures made { MadeClones (open_at stack.old list.old arena.old) arena.new }
    ensures closed { KeepsClosed (open_at stack.old list.old arena.old) arena.new }
    ensures survives { is_special name ≡ false → Survives (open_at stack.old list.old arena.old) (open_at stack.new list.new arena.new) }
    ensures clones { length arena.new.labels ≤ length arena.old.labels + 32 }
    ensures held { arena.new.held ≤ arena.old.held + 32 * listed_weight arena.old list.old }
    ensures no_more_open { length stack.new ≤ length stack.old }
    ensures no_more_listed { length list.new ≤ length list.old }
    ensures cause { IfErr result (λ e. IsRefusal name foster (open_at stack.old list.old arena.old) (open_at stack.new list.new arena.new) e) }
    ensures told { IfErr result (λ e. IsTold arena.old.limits (open_at stack.new list.new arena.new) e) }
    ensures steps { IsCounted arena.old.steps arena.new.steps (length arena.new.labels - length arena.old.labels) (8 * length arena.new.labels + 32 * length stack.old + 24 * length list.old + 291) }
    ensures paid { OnOk result (IsPaid (open_at stack.old list.old arena.old) (open_at stack.new list.new arena.new)) }
    ensures well_formed { WellFormed arena.new }
{
    arena.forest();
    if pop_unlisted(stack, list, arena, name) {
        arena.forest();
        return Ok(AdoptEnd::Done);
    }
    arena.forest();
    'rounding: for _index in 0..ROUNDS {
        arena.forest();
        let turned = turn(stack, list, arena, name, foster);
        arena.forest();
        if let Some(end) = turned? {
            return Ok(end);
        }
    }
    arena.forest();
    Ok(AdoptEnd::Done)
}

/// Goes one round, or ends, and says how.
fn turn(
    stack: &mut OpenStack,
    list: &mut FormattingList,
    arena: &mut Arena,
    name: Tag,
    foster: bool,
) -> Result<Option<AdoptEnd>, ArenaError>
    requires open { IsOpen (open_at stack.old list.old arena.old) }
    requires can_place { CanPlace arena.old stack.old }
    requires first_free { IsFirstFree stack.old list.old }
    ensures turned { IfOk result (λ end. IsTurn name foster end (open_at stack.old list.old arena.old) (open_at stack.new list.new arena.new)) }
    ensures kept { OnOk result (IsOpen (open_at stack.new list.new arena.new)) }
    ensures can_place { IfOk result (λ end. end ≡ None → CanPlace arena.new stack.new) }
    ensures first_free { IfOk result (λ end. end ≡ None → IsFirstFree stack.new list.new) }
    ensures roots { OnOk result (KeepsRoots (open_at stack.old list.old arena.old) arena.new) }
    ensures stopped { IfErr result (λ e. IsStopped name (open_at stack.old list.old arena.old) (open_at stack.new list.new arena.new) e) }
    ensures steps { IsCounted arena.old.steps arena.new.steps (length arena.new.labels - length arena.old.labels) (length arena.new.labels + 4 * length stack.old + 3 * length list.old + 12) }
    ensures paid { OnOk result (IsPaid (open_at stack.old list.old arena.old) (open_at stack.new list.new arena.new)) }
{
    match find(stack, list, arena, name) {
        Found::NoEntry => Ok(Some(AdoptEnd::OtherEndTag)),
        Found::OffStack(node) => {
            list.remove(arena, node);
            Ok(Some(AdoptEnd::Done))
        }
        Found::OutOfScope => Ok(Some(AdoptEnd::Done)),
        Found::NoFurthestBlock { node, at } => {
            close(stack, list, arena, node, at);
            Ok(Some(AdoptEnd::Done))
        }
        Found::FurthestBlock { at, block_at } => {
            round(stack, list, arena, at, block_at, foster)?;
            Ok(None)
        }
    }
}

/// Pops the current node where it has the name and is not in the list.
fn pop_unlisted(stack: &mut OpenStack, list: &FormattingList, arena: &mut Arena, name: Tag) -> bool
    requires open { IsOpen (open_at stack.old list.now arena.old) }
    ensures yes { result ≡ true → Popped name (open_at stack.old list.now arena.old) (open_at stack.new list.now arena.new) }
    ensures no { result ≡ false → pops_at_once name (open_at stack.old list.now arena.old) (last_of stack.old) ≡ false }
    ensures same_stack { result ≡ false → stack.new ≡ stack.old }
    ensures same_tree { result ≡ false → arena.new ≡ record arena.old { steps = arena.new.steps } }
    ensures kept { IsOpen (open_at stack.new list.now arena.new) }
    ensures steps { IsCounted arena.old.steps arena.new.steps 1 3 }
{
    let Some(current) = stack.current(arena) else {
        return false;
    };
    if !arena.is_named(current, name) {
        return false;
    }
    if list.contains(arena, current) {
        return false;
    }
    let _ = stack.pop(arena);
    true
}

/// Takes a formatting element off the list, and off the stack with all that stands above it.
fn close(
    stack: &mut OpenStack,
    list: &mut FormattingList,
    arena: &mut Arena,
    node: NodeId,
    at: usize,
)
    requires open { IsOpen (open_at stack.old list.old arena.old) }
    requires plain { (s : Tag) × IsPlain s (open_at stack.old list.old arena.old) node at }
    ensures closed { (s : Tag) → IsPlain s (open_at stack.old list.old arena.old) node at → Closed s (open_at stack.old list.old arena.old) (open_at stack.new list.new arena.new) }
    ensures kept { IsOpen (open_at stack.new list.new arena.new) }
    ensures steps { IsCounted arena.old.steps arena.new.steps 0 (length stack.old + 2 * length list.old) }
    ensures paid { IsPaid (open_at stack.old list.old arena.old) (open_at stack.new list.new arena.new) }
{
    arena.charge((stack.len() - at) as u128);
    stack.pop_to(arena, at);
    list.remove(arena, node);
}

/// A law: an adoption ends in one way, and leaves one stack, one list and one tree, marks, steps and what is held apart.
pub fn adoption_has_one_outcome()
    ensures end { (s : Tag) (foster : Bool) (a b : AdoptEnd) (o p q : Open) → IsOpen o → Adopted s foster a o p → Adopted s foster b o q → a ≡ b }
    ensures outcome { (s : Tag) (foster : Bool) (a b : AdoptEnd) (o p q : Open) → IsOpen o → Adopted s foster a o p → Adopted s foster b o q → IsAlike p q }
{}
