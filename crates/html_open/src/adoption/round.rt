// A round of the adoption agency.
ghost use Rattle.std.specs.Prelude.{◌≡◌, ℕ, ◌+◌, ◌-◌, ◌*◌, ◌<◌, IfErr, IfOk, OnErr, OnOk, drop, take, false, length, true};
ghost use Rattle.html_names.specs.declared.tag.Tag.{Tag};
ghost use Rattle.html_arena.specs.Siblings.{has};
ghost use Rattle.html_open.specs.AdoptFinding.{IsBlock};
ghost use Rattle.html_open.specs.Adopting.{IsFirstFree, IsKept, IsRegrouped, Round, round_originals};
ghost use Rattle.html_open.specs.Cloning.{IsCut};
ghost use Rattle.html_open.specs.Leaving.{IsPaid};
ghost use Rattle.html_open.specs.Marking.{IsCounted};
ghost use Rattle.html_open.specs.Opened.{IsOpen, open_at};
ghost use Rattle.html_open.specs.Placing.{CanPlace, IsPlace, way_up};
ghost use Rattle.html_open.specs.Rooting.{KeepsRoots};

use crate::adoption::chain::hang;
use crate::adoption::clones::{clone_all, elements_to_clone};
use crate::adoption::lists::{Plan, enter, leave, relisted, restacked, with_room};
use crate::appropriate_place::place;
use crate::entry::Entry;
use crate::list::FormattingList;
use crate::places::Place;
use crate::stack::OpenStack;
use html_arena::{Arena, ArenaError, NodeId};
use std::alloc::Global;

/// The stack and the list after a round.
#[derive(Drop)]
struct Regrouped {
    nodes: Vec<NodeId>,
    entries: Vec<Entry>,
}

/// One round, for a formatting element at an index of the stack, behind the common ancestor, and the furthest block at another.
pub(crate) fn round(
    stack: &mut OpenStack,
    list: &mut FormattingList,
    arena: &mut Arena,
    at: usize,
    block_at: usize,
    foster: bool,
) -> Result<(), ArenaError>
    requires open { IsOpen (open_at stack.old list.old arena.old) }
    requires can_place { CanPlace arena.old stack.old }
    requires inside { 0 < at }
    requires block { (s : Tag) × IsBlock s (open_at stack.old list.old arena.old) at block_at }
    ensures round { OnOk result ((s : Tag) → IsBlock s (open_at stack.old list.old arena.old) at block_at → Round s foster (open_at stack.old list.old arena.old) (open_at stack.new list.new arena.new)) }
    ensures kept { OnOk result (IsOpen (open_at stack.new list.new arena.new)) }
    ensures can_place { OnOk result (CanPlace arena.new stack.new) }
    ensures first_free { OnOk result (IsFirstFree stack.old list.old → IsFirstFree stack.new list.new) }
    ensures roots { OnOk result (KeepsRoots (open_at stack.old list.old arena.old) arena.new) }
    ensures same_stack { OnErr result (stack.new ≡ stack.old) }
    ensures same_list { OnErr result (list.new ≡ list.old) }
    ensures cut { IfErr result (λ e. IsCut arena.old arena.new (round_originals (open_at stack.old list.old arena.old) at block_at) e) }
    ensures steps { IsCounted arena.old.steps arena.new.steps (length arena.new.labels - length arena.old.labels) (length arena.new.labels + 2 * length stack.old + length list.old + 11) }
    ensures paid { OnOk result (IsPaid (open_at stack.old list.old arena.old) (open_at stack.new list.new arena.new)) }
{
    arena.forest();
    let alloc = stack.allocator();
    let nodes = stack.as_slice();
    let entries = list.entries.as_slice();
    arena.charge((nodes.len() - at) as u128 + entries.len() as u128);
    let target = place(stack, arena, Some(nodes[at - 1]), foster);
    let regrouped = regroup(alloc, nodes, entries, arena, at, block_at, target)?;
    arena.forest();
    stack.replace(regrouped.nodes);
    list.entries = regrouped.entries;
    Ok(())
}

/// Clones the elements of a round, and moves the furthest block with what it holds into the clones, which go to a place.
fn regroup(
    alloc: Global,
    nodes: &[NodeId],
    entries: &[Entry],
    arena: &mut Arena,
    at: usize,
    block_at: usize,
    target: Place,
) -> Result<Regrouped, ArenaError>
    requires open { IsOpen (open_at nodes.now entries.now arena.old) }
    requires inside { 0 < at }
    requires block { (s : Tag) × IsBlock s (open_at nodes.now entries.now arena.old) at block_at }
    requires place_in { IsPlace arena.old target }
    requires way_in { (y : ℕ) → has y (way_up arena.old target) ≡ true → y < length arena.old.labels }
    requires apart { (y : ℕ) → has y (drop at nodes.now) ≡ true → has y (way_up arena.old target) ≡ false }
    ensures regrouped { IfOk result (λ r. IsRegrouped at block_at target (open_at nodes.now entries.now arena.old) (open_at r.nodes.items r.entries.items arena.new)) }
    ensures front { IfOk result (λ r. (x : ℕ) → has x (take at nodes.now) ≡ true → IsKept arena.old arena.new entries.now r.entries.items x) }
    ensures kept { IfOk result (λ r. IsOpen (open_at r.nodes.items r.entries.items arena.new)) }
    ensures cut { IfErr result (λ e. IsCut arena.old arena.new (round_originals (open_at nodes.now entries.now arena.old) at block_at) e) }
    ensures steps { IsCounted arena.old.steps arena.new.steps (length arena.new.labels - length arena.old.labels) (length arena.new.labels + 10) }
{
    arena.forest();
    let originals = elements_to_clone(&nodes[at + 1..block_at], arena);
    let first = arena.len() as usize;
    let clone = clone_all(arena, originals.as_slice(), nodes[at])?;
    let end = arena.len() as usize;
    let new_nodes = restacked(alloc, nodes, at, block_at, first, clone)?;
    let mut new_entries = with_room(alloc, entries)?;
    leave(arena, &nodes[at..block_at]);
    let plan = Plan {
        formatting: nodes[at],
        originals: originals.as_slice(),
        first,
        clone,
    };
    relisted(&mut new_entries, entries, arena, &plan);
    enter(arena, first, end);
    hang(arena, nodes[block_at], first, clone, target);
    Ok(Regrouped {
        nodes: new_nodes,
        entries: new_entries,
    })
}
