// The stack of open elements.
ghost use Rattle.std.specs.Prelude.{◌≡◌, ◌≢◌, ℕ, ◌+◌, ◌<◌, ◌∷◌, [], ◌++◌, List, eqb, length, slice_index, None, Some, IfErr, IfSome, OnErr, OnOk, drop, false, take, true, ◌≤◌};
ghost use Rattle.html_arena.specs.declared.marks.Mark.TheVariants.{OnStack};
ghost use Rattle.html_arena.specs.Siblings.{first_of, has, last_of};
ghost use Rattle.html_arena.specs.Tree.{more, named, tag_at, with_marked};
ghost use Rattle.html_names.specs.declared.sets.Scope.TheVariants.{Default};
ghost use Rattle.html_open.specs.AdoptFinding.{element_in_scope};
ghost use Rattle.html_open.specs.Adopting.{IsFirstFree};
ghost use Rattle.html_open.specs.Entries.{removal_steps};
ghost use Rattle.html_open.specs.Lists.{above, last_index, looked, up_to, with_last, without_last};
ghost use Rattle.html_open.specs.Marking.{IsSameTree, all_unmarked, charged, unmarked};
ghost use Rattle.html_open.specs.Opened.{AreNodes, CanPush, IsMarked, IsOpen, open_at};
ghost use Rattle.html_open.specs.Placing.{CanPlace};
ghost use Rattle.html_open.specs.Scopes.{element_or_end, ends, implied_steps, in_scope, match_or_end, stays};

use crate::search::{PRESENCE, Sought, after, last_index, removal, steps_to};
use html_arena::{Arena, ArenaError, Mark, NodeId};
use html_names::{Scope, Tag};
use std::alloc::Global;
use std::marker::Model;

/// The stack of open elements, seen as their list with the current node last.
#[derive(Drop)]
pub struct OpenStack {
    nodes: Vec<NodeId>,
}

impl Model for OpenStack {
    ghost Value = { List ℕ };

    ghost view = { λ s. s.nodes.items };
}

impl OpenStack {
    /// An empty stack, which takes no memory.
    pub fn new(alloc: Global) -> OpenStack
        ensures { result ≡ [] }
    {
        OpenStack {
            nodes: Vec::new(alloc),
        }
    }

    /// The number of open elements.
    pub fn len(&self) -> usize
        ensures { result ≡ length self.now }
    {
        self.nodes.len()
    }

    /// Whether no element is open.
    pub fn is_empty(&self) -> bool
        ensures yes { result ≡ true → self.now ≡ [] }
        ensures no { result ≡ false → 0 < length self.now }
    {
        self.nodes.is_empty()
    }

    /// The elements, the current node last.
    pub fn as_slice(&self) -> &[NodeId]
        ensures { result.now ≡ self.now }
    {
        self.nodes.as_slice()
    }

    /// Adds an element, which becomes the current node. One step.
    pub fn push(&mut self, arena: &mut Arena, node: NodeId) -> Result<(), ArenaError>
        requires { node < length arena.old.labels }
        ensures stack { OnOk result (self.new ≡ self.old ++ node ∷ []) }
        ensures tree { OnOk result (arena.new ≡ charged (with_marked arena.old OnStack node true) 1) }
        ensures keeps { OnOk result ((l : _) → IsOpen (open_at self.old l arena.old) → CanPush (open_at self.old l arena.old) node → IsOpen (open_at self.new l arena.new)) }
        ensures nodes_in { OnOk result (AreNodes arena.old self.old → AreNodes arena.new self.new) }
        ensures first { OnOk result (0 < length self.old → first_of self.new ≡ first_of self.old) }
        ensures can_place { OnOk result (CanPlace arena.old self.old → CanPlace arena.new self.new) }
        ensures first_free { OnOk result ((l : _) → 0 < length self.old → IsFirstFree self.old l → IsFirstFree self.new l) }
        ensures same_stack { OnErr result (self.new ≡ self.old) }
        ensures same_tree { OnErr result (arena.new ≡ arena.old) }
        ensures cause { IfErr result (λ e. e ≡ ArenaError.OutOfMemory) }
    {
        if self.nodes.push(node).is_err() {
            return Err(ArenaError::OutOfMemory);
        }
        arena.forest();
        arena.set_mark(node, Mark::OnStack, true);
        arena.charge(1);
        Ok(())
    }

    /// Takes the current node off; none where the stack is empty. One step.
    pub fn pop(&mut self, arena: &mut Arena) -> Option<NodeId>
        requires { AreNodes arena.old self.old }
        ensures stack { self.old ≡ with_last self.new result }
        ensures none { result ≡ None → self.old ≡ [] }
        ensures member { IfSome result (λ x. has x self.old ≡ true) }
        ensures tree { arena.new ≡ charged (unmarked arena.old OnStack result) 1 }
        ensures keeps { (l : _) → IsOpen (open_at self.old l arena.old) → IsOpen (open_at self.new l arena.new) }
        ensures tree_kept { IsSameTree arena.old arena.new }
        ensures steps { arena.new.steps ≡ more arena.old.steps 1 }
        ensures fewer { (x : ℕ) → has x self.old ≡ false → has x self.new ≡ false }
        ensures first { 0 < length self.new → first_of self.new ≡ first_of self.old }
        ensures can_place { 0 < length self.new → CanPlace arena.old self.old → CanPlace arena.new self.new }
        ensures first_free { (l : _) → IsFirstFree self.old l → IsFirstFree self.new l }
    {
        arena.forest();
        let node = self.take_last(arena);
        arena.charge(1);
        node
    }

    /// Takes an element off, wherever it stands, if it is there. Steps: those of `index_of`, and where it is there one, and one for
    /// each element above it.
    pub fn remove(&mut self, arena: &mut Arena, node: NodeId)
        requires nodes_in { AreNodes arena.old self.old }
        requires node_in { node < length arena.old.labels }
        ensures stack { self.new ≡ without_last (eqb node) self.old }
        ensures tree { arena.new ≡ charged (with_marked arena.old OnStack node false) (removal_steps (eqb node) self.old) }
        ensures keeps { (l : _) → IsOpen (open_at self.old l arena.old) → IsOpen (open_at self.new l arena.new) }
        ensures tree_kept { IsSameTree arena.old arena.new }
        ensures steps { arena.new.steps ≡ more arena.old.steps (removal_steps (eqb node) self.old) }
        ensures fewer { (x : ℕ) → has x self.old ≡ false → has x self.new ≡ false }
        ensures first { first_of self.old ≢ Some node → first_of self.new ≡ first_of self.old }
        ensures can_place { first_of self.old ≢ Some node → CanPlace arena.old self.old → CanPlace arena.new self.new }
        ensures first_free { (l : _) → first_of self.old ≢ Some node → IsFirstFree self.old l → IsFirstFree self.new l }
    {
        arena.forest();
        let nodes = self.nodes.as_slice();
        let found = last_index(nodes, arena, &Sought::Node(node));
        let steps = removal(nodes.len(), found);
        arena.set_mark(node, Mark::OnStack, false);
        arena.charge(steps);
        if let Some(index) = found {
            let _ = self.nodes.remove(index);
        }
    }

    /// The current node. One step.
    pub fn current(&self, arena: &mut Arena) -> Option<NodeId>
        ensures node { result ≡ last_of self.now }
        ensures member { IfSome result (λ x. has x self.now ≡ true) }
        ensures steps { arena.new ≡ charged arena.old 1 }
        ensures keeps { (l : _) → IsOpen (open_at self.now l arena.old) → IsOpen (open_at self.now l arena.new) }
    {
        arena.charge(1);
        last_node(self.nodes.as_slice())
    }

    /// The element at an index; that of the first element is 0. One step.
    pub fn at(&self, arena: &mut Arena, index: usize) -> NodeId
        requires { index < length self.now }
        ensures node { result ≡ slice_index self.now index }
        ensures member { has result self.now ≡ true }
        ensures steps { arena.new ≡ charged arena.old 1 }
        ensures keeps { (l : _) → IsOpen (open_at self.now l arena.old) → IsOpen (open_at self.now l arena.new) }
    {
        arena.charge(1);
        self.nodes[index]
    }

    /// The index of an element. One step for each element from the current node down to it; for all where it is absent.
    pub fn index_of(&self, arena: &mut Arena, node: NodeId) -> Option<usize>
        requires { AreNodes arena.old self.now }
        ensures index { result ≡ last_index (eqb node) self.now }
        ensures below { IfSome result (λ i. i < length self.now) }
        ensures there { IfSome result (λ i. slice_index self.now i ≡ node) }
        ensures steps { arena.new ≡ charged arena.old (looked (eqb node) self.now) }
        ensures keeps { (l : _) → IsOpen (open_at self.now l arena.old) → IsOpen (open_at self.now l arena.new) }
    {
        let nodes = self.nodes.as_slice();
        let index = last_index(nodes, arena, &Sought::Node(node));
        arena.charge(steps_to(nodes.len(), index));
        index
    }

    /// The index of the last element of this name. One step for each element from the current node down to it; for all where it is absent.
    pub fn index_named(&self, arena: &mut Arena, name: Tag) -> Option<usize>
        requires { AreNodes arena.old self.now }
        ensures index { result ≡ last_index (named arena.old name) self.now }
        ensures below { IfSome result (λ i. i < length self.now) }
        ensures there { IfSome result (λ i. named arena.old name (slice_index self.now i) ≡ true) }
        ensures steps { arena.new ≡ charged arena.old (looked (named arena.old name) self.now) }
        ensures keeps { (l : _) → IsOpen (open_at self.now l arena.old) → IsOpen (open_at self.now l arena.new) }
    {
        let nodes = self.nodes.as_slice();
        let index = last_index(nodes, arena, &Sought::Tag(name));
        arena.charge(steps_to(nodes.len(), index));
        index
    }

    /// Whether an element is on the stack, by its mark. One step.
    pub fn contains(&self, arena: &mut Arena, node: NodeId) -> bool
        requires node_in { node < length arena.old.labels }
        requires marked { IsMarked arena.old OnStack self.now }
        ensures answer { result ≡ has node self.now }
        ensures steps { arena.new ≡ charged arena.old 1 }
        ensures keeps { (l : _) → IsOpen (open_at self.now l arena.old) → IsOpen (open_at self.now l arena.new) }
    {
        arena.charge(PRESENCE);
        arena.marked(node, Mark::OnStack)
    }

    /// Whether an element of this name is in a scope: it is on the stack, and no end of the scope stands after the last such.
    /// One step for each element from the current node down to the first that has the name or ends the scope.
    pub fn has_in_scope(&self, arena: &mut Arena, name: Tag, scope: Scope) -> bool
        requires { AreNodes arena.old self.now }
        ensures answer { result ≡ in_scope (named arena.old name) (ends arena.old scope) self.now }
        ensures steps { arena.new ≡ charged arena.old (looked (match_or_end arena.old name scope) self.now) }
        ensures keeps { (l : _) → IsOpen (open_at self.now l arena.old) → IsOpen (open_at self.now l arena.new) }
    {
        let nodes = self.nodes.as_slice();
        let found = last_index(nodes, arena, &Sought::InScope(name, scope));
        arena.charge(steps_to(nodes.len(), found));
        match found {
            None => false,
            Some(index) => arena.is_named(nodes[index], name),
        }
    }

    /// Whether this very element is in the default scope: it is on the stack, and no end of the scope stands after it. One step for each
    /// element from the current node down to it, or to the first that ends the scope; for all where there is neither.
    pub fn is_in_scope(&self, arena: &mut Arena, node: NodeId) -> bool
        requires { AreNodes arena.old self.now }
        ensures answer { result ≡ element_in_scope arena.old node self.now }
        ensures steps { arena.new ≡ charged arena.old (looked (element_or_end arena.old node Default) self.now) }
        ensures keeps { (l : _) → IsOpen (open_at self.now l arena.old) → IsOpen (open_at self.now l arena.new) }
    {
        let nodes = self.nodes.as_slice();
        let found = last_index(nodes, arena, &Sought::ElementInScope(node, Scope::Default));
        arena.charge(steps_to(nodes.len(), found));
        match found {
            None => false,
            Some(index) => node == nodes[index],
        }
    }

    /// Pops elements while the end tag of the current node is implied and its name is not the excepted one.
    /// Two steps for each that is popped, and one where an element is left.
    pub fn implied(&mut self, arena: &mut Arena, except: Option<Tag>)
        requires { AreNodes arena.old self.old }
        ensures stack { self.new ≡ up_to (stays arena.old except) self.old }
        ensures tree { arena.new ≡ charged (all_unmarked arena.old OnStack (above (stays arena.old except) self.old)) (implied_steps arena.old except self.old) }
        ensures keeps { (l : _) → IsOpen (open_at self.old l arena.old) → IsOpen (open_at self.new l arena.new) }
        ensures tree_kept { IsSameTree arena.old arena.new }
        ensures steps { arena.new.steps ≡ more arena.old.steps (implied_steps arena.old except self.old) }
        ensures fewer { (x : ℕ) → has x self.old ≡ false → has x self.new ≡ false }
        ensures first { 0 < length self.new → first_of self.new ≡ first_of self.old }
        ensures can_place { 0 < length self.new → CanPlace arena.old self.old → CanPlace arena.new self.new }
        ensures first_free { (l : _) → IsFirstFree self.old l → IsFirstFree self.new l }
    {
        let nodes = self.nodes.as_slice();
        let found = last_index(nodes, arena, &Sought::Staying(except));
        let looked = steps_to(nodes.len(), found);
        let kept = after(nodes.len(), found);
        arena.charge((nodes.len() - kept) as u128 + looked);
        self.pop_to(arena, kept);
    }

    /// Takes elements off until there are `len`, without a step.
    pub fn pop_to(&mut self, arena: &mut Arena, len: usize)
        requires nodes_in { AreNodes arena.old self.old }
        requires len_in { len ≤ length self.old }
        ensures stack { self.new ≡ take len self.old }
        ensures tree { arena.new ≡ all_unmarked arena.old OnStack (drop len self.old) }
        ensures keeps { (l : _) → IsOpen (open_at self.old l arena.old) → IsOpen (open_at self.new l arena.new) }
        ensures tree_kept { IsSameTree arena.old arena.new }
        ensures steps { arena.new.steps ≡ arena.old.steps }
        ensures fewer { (x : ℕ) → has x self.old ≡ false → has x self.new ≡ false }
        ensures first { 0 < length self.new → first_of self.new ≡ first_of self.old }
        ensures can_place { 0 < length self.new → CanPlace arena.old self.old → CanPlace arena.new self.new }
        ensures first_free { (l : _) → IsFirstFree self.old l → IsFirstFree self.new l }
    {
        'popping: while self.len() > len {
            arena.forest();
            let _ = self.take_last(arena);
        }
    }

    /// Takes the current node off, without a step.
    fn take_last(&mut self, arena: &mut Arena) -> Option<NodeId>
        requires { AreNodes arena.old self.old }
        ensures stack { self.old ≡ with_last self.new result }
        ensures none { result ≡ None → self.old ≡ [] }
        ensures tree { arena.new ≡ unmarked arena.old OnStack result }
    {
        let node = self.nodes.pop();
        if let Some(node) = node {
            arena.set_mark(node, Mark::OnStack, false);
        }
        node
    }
}

/// The last of the elements.
fn last_node(nodes: &[NodeId]) -> Option<NodeId>
    ensures { result ≡ last_of nodes.now }
{
    if nodes.is_empty() {
        return None;
    }
    Some(nodes[nodes.len() - 1])
}

impl OpenStack {
    /// The allocator of the stack.
    pub(crate) fn allocator(&self) -> Global {
        *self.nodes.allocator()
    }

    /// Puts other elements in place of those that are there; their marks are the caller's.
    pub(crate) fn replace(&mut self, nodes: Vec<NodeId>)
        ensures { self.new ≡ nodes.items }
    {
        self.nodes = nodes;
    }
}
