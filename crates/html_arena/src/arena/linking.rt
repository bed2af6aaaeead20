// The links between nodes.
ghost use Rattle.std.specs.Prelude.{◌≡◌, ◌≢◌, ◌+◌, ◌<◌, [], ◌∷◌, ◌++◌, length, Some, None, IfSome, false, true};
ghost use Rattle.html_arena.specs.Data.{is_linkable};
ghost use Rattle.html_arena.specs.Laws.{IsLinked, IsMoved, IsUnlinked};
ghost use Rattle.html_arena.specs.Siblings.{after, before, first_of, has, last_of, put_before};
ghost use Rattle.html_arena.specs.Tree.{ancestors, appended, children_of, detached, inserted, label_of, moved, parent_of, reparented, sibling};

use super::Arena;
use crate::links::NodeId;
use crate::links::writes::{link, place_of, unlink};

impl Arena {
    /// Makes `child` the last child of `parent`.
    pub fn append(&mut self, parent: NodeId, child: NodeId)
        requires parent_in { parent < length self.old.labels }
        requires child_in { child < length self.old.labels }
        requires linkable { is_linkable (label_of self.old child) ≡ true }
        requires alone { parent_of self.old child ≡ None }
        requires not_above { has child (parent ∷ ancestors self.old parent) ≡ false }
        ensures appended { self.new ≡ appended self.old parent child }
        ensures linked { IsLinked self.old self.new child parent (children_of self.old parent ++ child ∷ []) }
    {
        self.forest();
        self.link_last(parent, child);
        self.forest();
    }

    /// Puts `child` just before `next`, which has a parent.
    pub fn insert_before(&mut self, child: NodeId, next: NodeId)
        requires next_in { next < length self.old.labels }
        requires child_in { child < length self.old.labels }
        requires linkable { is_linkable (label_of self.old child) ≡ true }
        requires alone { parent_of self.old child ≡ None }
        requires not_above { has child (next ∷ ancestors self.old next) ≡ false }
        requires has_parent { parent_of self.old next ≢ None }
        ensures inserted { self.new ≡ inserted self.old child next (parent_of self.old next) }
        ensures linked { IfSome (parent_of self.old next) (λ p. IsLinked self.old self.new child p (put_before child next (children_of self.old p))) }
    {
        self.forest();
        self.link_before(child, next);
        self.forest();
    }

    /// Takes `node` out of its parent's children, if it has a parent.
    pub fn detach(&mut self, node: NodeId)
        requires { node < length self.old.labels }
        ensures detached { self.new ≡ detached self.old node (parent_of self.old node) }
        ensures unlinked { IsUnlinked self.old self.new node }
    {
        self.forest();
        self.unlink_node(node);
        self.forest();
    }

    /// The node whose child this is.
    pub fn parent(&self, node: NodeId) -> Option<NodeId>
        requires { node < length self.now.labels }
        ensures value { result ≡ parent_of self.now node }
        ensures parent { IfSome result (λ p. p < length self.now.labels) }
    {
        place_of(&self.links, node).parent
    }

    /// The first of a node's children.
    pub fn first_child(&self, node: NodeId) -> Option<NodeId>
        requires { node < length self.now.labels }
        ensures value { result ≡ first_of (children_of self.now node) }
        ensures child { IfSome result (λ c. (c < length self.now.labels) × (parent_of self.now c ≡ Some node)) }
    {
        place_of(&self.links, node).first_child
    }

    /// The last of a node's children.
    pub fn last_child(&self, node: NodeId) -> Option<NodeId>
        requires { node < length self.now.labels }
        ensures value { result ≡ last_of (children_of self.now node) }
        ensures child { IfSome result (λ c. (c < length self.now.labels) × (parent_of self.now c ≡ Some node)) }
    {
        place_of(&self.links, node).last_child
    }

    /// The node just before this one, among the children of its parent.
    pub fn previous(&self, node: NodeId) -> Option<NodeId>
        requires { node < length self.now.labels }
        ensures value { result ≡ sibling before (parent_of self.now node) self.now node }
        ensures sibling { IfSome result (λ x. (x < length self.now.labels) × (parent_of self.now x ≡ parent_of self.now node)) }
    {
        place_of(&self.links, node).previous
    }

    /// The node just after this one, among the children of its parent.
    pub fn next(&self, node: NodeId) -> Option<NodeId>
        requires { node < length self.now.labels }
        ensures value { result ≡ sibling after (parent_of self.now node) self.now node }
        ensures sibling { IfSome result (λ x. (x < length self.now.labels) × (parent_of self.now x ≡ parent_of self.now node)) }
    {
        place_of(&self.links, node).next
    }

    /// Whether `above` is the parent of `node`, or that parent's, and so on.
    pub fn is_ancestor(&self, above: NodeId, node: NodeId) -> bool
        requires { node < length self.now.labels }
        ensures { result ≡ has above (ancestors self.now node) }
    {
        let links = &self.links;
        let mut at = place_of(links, node).parent;
        while let Some(parent) = at {
            if parent == above {
                return true;
            }
            at = place_of(links, parent).parent;
        }
        false
    }

    /// Makes the children of `from` the last children of `to`.
    pub fn move_children(&mut self, from: NodeId, to: NodeId)
        requires from_in { from < length self.old.labels }
        requires to_in { to < length self.old.labels }
        requires not_below { has from (to ∷ ancestors self.old to) ≡ false }
        ensures moved { self.new ≡ moved self.old from to }
        ensures laws { IsMoved self.old self.new from to }
    {
        self.forest();
        while let Some(child) = self.first_child(from) {
            self.move_child(child, from, to);
        }
        self.forest();
    }

    /// Links `child` last under `parent`.
    fn link_last(&mut self, parent: NodeId, child: NodeId)
        requires parent_in { parent < length self.old.labels }
        requires child_in { child < length self.old.labels }
        requires linkable { is_linkable (label_of self.old child) ≡ true }
        requires alone { parent_of self.old child ≡ None }
        requires not_above { has child (parent ∷ ancestors self.old parent) ≡ false }
        ensures { self.new ≡ appended self.old parent child }
    {
        let last = place_of(&self.links, parent).last_child;
        link(&mut self.links, child, parent, last, None);
        self.steps = self.steps.saturating_add(1);
    }

    /// Links `child` just before `next`, which has a parent.
    fn link_before(&mut self, child: NodeId, next: NodeId)
        requires next_in { next < length self.old.labels }
        requires child_in { child < length self.old.labels }
        requires linkable { is_linkable (label_of self.old child) ≡ true }
        requires alone { parent_of self.old child ≡ None }
        requires not_above { has child (next ∷ ancestors self.old next) ≡ false }
        requires has_parent { parent_of self.old next ≢ None }
        ensures { self.new ≡ inserted self.old child next (parent_of self.old next) }
    {
        let place = place_of(&self.links, next);
        if let Some(parent) = place.parent {
            link(&mut self.links, child, parent, place.previous, Some(next));
            self.steps = self.steps.saturating_add(1);
        }
    }

    /// Unlinks `node` from its parent, if it has one.
    fn unlink_node(&mut self, node: NodeId)
        requires { node < length self.old.labels }
        ensures { self.new ≡ detached self.old node (parent_of self.old node) }
    {
        self.steps = self.steps.saturating_add(1);
        let place = place_of(&self.links, node);
        if let Some(parent) = place.parent {
            unlink(&mut self.links, node, parent, place.previous, place.next);
        }
    }

    /// Moves `child` from `from`, its parent, to the end of the children of `to`.
    fn move_child(&mut self, child: NodeId, from: NodeId, to: NodeId)
        requires child_in { child < length self.old.labels }
        requires to_in { to < length self.old.labels }
        requires from_is { parent_of self.old child ≡ Some from }
        requires not_below { has from (to ∷ ancestors self.old to) ≡ false }
        ensures moved { self.new ≡ reparented self.old child from to }
        ensures same { ancestors self.new to ≡ ancestors self.old to }
    {
        let place = place_of(&self.links, child);
        unlink(&mut self.links, child, from, place.previous, place.next);
        let last = place_of(&self.links, to).last_child;
        link(&mut self.links, child, to, last, None);
        self.steps = self.steps.saturating_add(1);
    }
}
