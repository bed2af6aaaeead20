// Where a p in button scope is sought: at the open elements at which the search ends, which are kept apart.
ghost use Rattle.std.specs.Prelude.{◌≡◌, ℕ, ◌+◌, ◌<◌, ◌≤◌, ◌∷◌, [], ◌++◌, cond, count_by, eqb, length, take, IfErr, List, OnErr, OnOk, true, vec_capacity, vec_len};
ghost use Rattle.html_arena.specs.declared.marks.Mark.TheVariants.{OnStack};
ghost use Rattle.html_arena.specs.Siblings.{last_of};
ghost use Rattle.html_arena.specs.Tree.{with_marked};
ghost use Rattle.html_open.specs.declared.entry.Entry.{Entry};
ghost use Rattle.html_open.specs.Lists.{IsBelow, last_index, without_last};
ghost use Rattle.html_open.specs.Marking.{charged};
ghost use Rattle.html_open.specs.Opened.{AreNodes, CanPush, IsOpen, open_at};
ghost use Rattle.html_tree.specs.Paragraphs.{ends_p_search, is_button_scope, is_button_stop, is_p, is_p_end, p_ends_of, seeks_p};

use crate::groups::{Group, Stop};
use crate::search::last_node;
use html_arena::{Arena, NodeId};
use html_names::{Scope, Tag};
use html_open::{ArenaError, OpenStack};

/// Whether what is sought is a p in button scope.
pub(crate) fn seeks_p(group: Group, stop: Stop) -> bool
    ensures { result ≡ seeks_p group stop }
{
    match group {
        Group::Named(tag) => tag.is(Tag::P) && is_button_stop(stop),
        Group::Heading | Group::Section | Group::Cell | Group::Definition => false,
    }
}

fn is_button_stop(stop: Stop) -> bool
    ensures { result ≡ is_button_stop stop }
{
    match stop {
        Stop::EndOf(scope) => is_button_scope(scope),
        Stop::Never | Stop::PastItem => false,
    }
}

fn is_button_scope(scope: Scope) -> bool
    ensures { result ≡ is_button_scope scope }
{
    match scope {
        Scope::Button => true,
        Scope::Default | Scope::ListItem | Scope::Table | Scope::Select => false,
    }
}

/// Whether the search ends at an element of this tag.
fn ends_p_search(tag: Tag) -> bool
    ensures { result ≡ ends_p_search tag }
{
    tag.is(Tag::P) || tag.ends_scope(Scope::Button)
}

/// Whether the last of the elements is a p.
pub(crate) fn is_last_p(ends: &[NodeId], arena: &Arena) -> bool
    requires { AreNodes arena.now ends.now }
    ensures { result ≡ is_p arena.now (last_of ends.now) }
{
    match last_node(ends) {
        Some(node) => arena.is_named(node, Tag::P),
        None => false,
    }
}

/// Opens an element; where that is refused nothing is changed. One step.
#[inline(always)]
pub(crate) fn open_node(
    stack: &mut OpenStack,
    ends: &mut Vec<NodeId>,
    arena: &mut Arena,
    node: NodeId,
) -> Result<(), ArenaError>
    requires node_in { node < length arena.old.labels }
    ensures stack { OnOk result (stack.new ≡ stack.old ++ node ∷ []) }
    ensures tree { OnOk result (arena.new ≡ charged (with_marked arena.old OnStack node true) 1) }
    ensures keeps { OnOk result ((l : List Entry) → IsOpen (open_at stack.old l arena.old) → CanPush (open_at stack.old l arena.old) node → IsOpen (open_at stack.new l arena.new)) }
    ensures ends { OnOk result (ends.old.items ≡ p_ends_of arena.old stack.old → ends.new.items ≡ p_ends_of arena.new stack.new) }
    ensures same_stack { OnErr result (stack.new ≡ stack.old) }
    ensures same_tree { OnErr result (arena.new ≡ arena.old) }
    ensures same_ends { OnErr result (ends.new.items ≡ ends.old.items) }
    ensures cause { IfErr result (λ e. e ≡ ArenaError.OutOfMemory) }
{
    ends.reserve(1)?;
    let is_first = stack.is_empty();
    stack.push(arena, node)?;
    note_end(ends, arena, node, is_first);
    Ok(())
}

/// Adds an element that was opened, where the search ends at it and it is not the first.
fn note_end(ends: &mut Vec<NodeId>, arena: &Arena, node: NodeId, is_first: bool)
    requires room { vec_len ends.old < vec_capacity ends.old }
    requires node_in { node < length arena.now.labels }
    ensures items { ends.new.items ≡ ends.old.items ++ cond is_first [] (cond (is_p_end arena.now node) (node ∷ []) []) }
{
    if !is_first && ends_p_search(arena.tag(node)) {
        let _ = ends.push(node);
    }
}

/// Leaves those that are among the first `kept` of the open elements.
pub(crate) fn cut_ends(ends: &mut Vec<NodeId>, nodes: &[NodeId], arena: &Arena, kept: usize)
    requires nodes_in { AreNodes arena.now nodes.now }
    requires within { kept ≤ length nodes.now }
    requires first { 0 < length nodes.now → 0 < kept }
    ensures items { ends.old.items ≡ p_ends_of arena.now nodes.now → ends.new.items ≡ p_ends_of arena.now (take kept nodes.now) }
{
    let closed = count_ends(&nodes[kept..], arena);
    let left = ends.len().saturating_sub(closed);
    ends.truncate(left);
}

/// How many of the elements end the search.
fn count_ends(nodes: &[NodeId], arena: &Arena) -> usize
    requires { AreNodes arena.now nodes.now }
    ensures { result ≡ count_by (is_p_end arena.now) nodes.now }
{
    let mut count = 0;
    let mut at = 0;
    'counting: while at < nodes.len() {
        if ends_p_search(arena.tag(nodes[at])) {
            count += 1;
        }
        at += 1;
    }
    count
}

/// Takes out an element that is no longer open.
pub(crate) fn forget_end(ends: &mut Vec<NodeId>, arena: &Arena, node: NodeId)
    requires { node < length arena.now.labels }
    ensures items { ends.new.items ≡ cond (is_p_end arena.now node) (without_last (eqb node) ends.old.items) ends.old.items }
{
    if ends_p_search(arena.tag(node)) {
        if let Some(index) = index_of(ends.as_slice(), node) {
            let _ = ends.remove(index);
        }
    }
}

/// The index of the last that is this very element.
fn index_of(nodes: &[NodeId], node: NodeId) -> Option<usize>
    ensures index { result ≡ last_index (eqb node) nodes.now }
    ensures below { IsBelow (length nodes.now) result }
{
    let mut at = nodes.len();
    'seeking: while at > 0 {
        at -= 1;
        if node == nodes[at] {
            return Some(at);
        }
    }
    None
}
