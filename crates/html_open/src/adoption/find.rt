// What a round of the adoption agency finds: the formatting element, and the furthest block, the first special element after it.
ghost use Rattle.std.specs.Prelude.{◌≡◌, ℕ, ◌+◌, ◌*◌, ◌<◌, ◌≤◌, drop, eqb, length};
ghost use Rattle.std.specs.List.{list_any};
ghost use Rattle.html_names.specs.declared.sets.Scope.TheVariants.{Default};
ghost use Rattle.html_open.specs.AdoptFinding.{IsFirstIndex, IsFound, special};
ghost use Rattle.html_open.specs.Marking.{IsCounted};
ghost use Rattle.html_open.specs.Opened.{AreNodes, IsOpen, open_at};
ghost use Rattle.html_open.specs.Scopes.{ends};

use crate::list::FormattingList;
use crate::search::PRESENCE;
use crate::stack::OpenStack;
use html_arena::{Arena, Mark, NodeId};
use html_names::{Scope, Tag};

/// What a round finds.
#[derive(Clone, Copy)]
pub(crate) enum Found {
    /// No entry of the name after the last marker.
    NoEntry,
    /// The element of the last such entry is not on the stack.
    OffStack(NodeId),
    /// It is on the stack, and not in scope.
    OutOfScope,
    /// There is no furthest block: no special element stands after it, which stands at an index of the stack.
    NoFurthestBlock { node: NodeId, at: usize },
    /// The index of the element on the stack, and that of the furthest block, the first special element after it.
    FurthestBlock { at: usize, block_at: usize },
}

/// Finds the formatting element of a round, and the furthest block, the first special element after it. Steps: those of `last_named`, one for the test of
/// presence, those of `index_of`, and one for each element looked at from the formatting element on.
pub(crate) fn find(stack: &OpenStack, list: &FormattingList, arena: &mut Arena, name: Tag) -> Found
    requires open { IsOpen (open_at stack.now list.now arena.old) }
    ensures found { IsFound name (open_at stack.now list.now arena.old) result }
    ensures tree { arena.new ≡ record arena.old { steps = arena.new.steps } }
    ensures steps { IsCounted arena.old.steps arena.new.steps 0 (length list.now + 2 * length stack.now + 1) }
{
    let Some(node) = list.last_named(arena, name) else {
        return Found::NoEntry;
    };
    arena.charge(PRESENCE);
    if !arena.marked(node, Mark::OnStack) {
        return Found::OffStack(node);
    }
    let Some(at) = stack.index_of(arena, node) else {
        return Found::OffStack(node);
    };
    let nodes = stack.as_slice();
    arena.charge((nodes.len() - at) as u128);
    if ends_after(nodes, arena, at) {
        return Found::OutOfScope;
    }
    match first_special(nodes, arena, at + 1) {
        Some(block_at) => Found::FurthestBlock { at, block_at },
        None => Found::NoFurthestBlock { node, at },
    }
}

/// Whether an element after the one at an index ends the scope.
fn ends_after(nodes: &[NodeId], arena: &Arena, at: usize) -> bool
    requires nodes_in { AreNodes arena.now nodes.now }
    requires at_in { at < length nodes.now }
    ensures { result ≡ list_any (ends arena.now Default) (drop (at + 1) nodes.now) }
{
    for node in &nodes[at + 1..] {
        if arena.tag(*node).ends_scope(Scope::Default) {
            return true;
        }
    }
    false
}

/// The index of the first special element from an index on.
fn first_special(nodes: &[NodeId], arena: &Arena, from: usize) -> Option<usize>
    requires nodes_in { AreNodes arena.now nodes.now }
    requires from_in { from ≤ length nodes.now }
    ensures { IsFirstIndex (special arena.now) nodes.now from result }
{
    for index in from..nodes.len() {
        if arena.tag(nodes[index]).is_special() {
            return Some(index);
        }
    }
    None
}
