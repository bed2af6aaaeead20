// Questions about the open elements.
ghost use Rattle.std.specs.Prelude.{◌≡◌, ℕ, ◌+◌, ◌<◌, ◌≤◌, ◌↔◌, IfSome, None, Some, false, is_some, length, reverse, slice_get, slice_index, true};
ghost use Rattle.std.specs.Str.{chars};
ghost use Rattle.html_names.specs.declared.sets.Scope.TheVariants as scope;
ghost use Rattle.html_names.specs.declared.tag.Tag.TheVariants as tag;
ghost use Rattle.html_arena.specs.Tree.{more, tag_at};
ghost use Rattle.html_names.specs.declared.sets.Scope.TheVariants.{Default};
ghost use Rattle.html_open.specs.AdoptFinding.{element_in_scope};
ghost use Rattle.html_open.specs.Lists.{looked};
ghost use Rattle.html_open.specs.Scopes.{element_or_end};
ghost use Rattle.html_tree.specs.Paragraphs.{seeks_p};
ghost use Rattle.html_tree.specs.Searching.{current_tag, found, found_name, member_or_stop, name_or_special};
ghost use Rattle.html_tree.specs.OpenTags.{is_tag_in_scope, open_tags};
ghost use Rattle.html_tree.specs.Seats.{CanSeat, has_seat, is_part};
ghost use Rattle.html_tree.specs.Since.{Grown, Keeps};
ghost use Rattle.html_tree.specs.Steps.{found_steps, looks_at_seat};

use super::OpenTree;
use crate::groups::{Group, Stop, Target};
use crate::paragraphs::{is_last_p, seeks_p};
use crate::search::{Sought, last_index, last_node, member_at, name_index, named_at, steps_down};
use crate::seats::{is_part, may_carry};
use html_arena::NodeId;
use html_names::Tag;

impl OpenTree {
    /// The tag of the current node, if an element is open. One step.
    pub fn current_tag(&mut self) -> Option<Tag>
        ensures tag { result ≡ current_tag self.old }
        ensures rest { self.new ≡ record self.old { steps = self.new.steps } }
        ensures steps { self.new.steps ≤ self.old.steps + 1 }
        ensures counted { self.new.steps ≡ more self.old.steps 1 }
        ensures keeps { Keeps self.old self.new }
        ensures grown { Grown 0 0 0 0 self.old self.new }
        ensures tags { open_tags self.new ≡ open_tags self.old }
        ensures first { result ≡ slice_get (open_tags self.old) 0 }
    {
        self.charge(1);
        match last_node(self.stack.as_slice()) {
            Some(node) => Some(self.arena.tag(node)),
            None => None,
        }
    }

    /// Whether the current node may hold a part of a table of this tag, or, being a template, its contents may. One step.
    pub fn has_seat(&mut self, part: Tag) -> bool
        ensures answer { result ≡ has_seat self.old part }
        ensures rest { self.new ≡ record self.old { steps = self.new.steps } }
        ensures steps { self.new.steps ≤ self.old.steps + 1 }
        ensures counted { self.new.steps ≡ more self.old.steps 1 }
        ensures keeps { Keeps self.old self.new }
        ensures grown { Grown 0 0 0 0 self.old self.new }
        ensures tags { open_tags self.new ≡ open_tags self.old }
    {
        self.charge(1);
        if let Some(node) = last_node(self.stack.as_slice()) {
            return may_carry(part, node, self.arena.tag(node));
        }
        false
    }

    /// Whether an element of this tag can be put at a target and opened there: a part of a table in the current node alone, where that may
    /// hold it. One step for a part.
    pub fn can_seat(&mut self, tag: Tag, target: Target) -> bool
        ensures can { (result ≡ true) ↔ CanSeat self.old tag target }
        ensures can_now { result ≡ true → CanSeat self.new tag target }
        ensures rest { self.new ≡ record self.old { steps = self.new.steps } }
        ensures steps { self.new.steps ≤ self.old.steps + 1 }
        ensures counted { looks_at_seat tag target ≡ true → self.new.steps ≡ more self.old.steps 1 }
        ensures free { looks_at_seat tag target ≡ false → self.new ≡ self.old }
        ensures keeps { Keeps self.old self.new }
        ensures grown { Grown 0 0 0 0 self.old self.new }
        ensures tags { open_tags self.new ≡ open_tags self.old }
    {
        if !is_part(tag) {
            return true;
        }
        match target {
            Target::Current(foster) => { if foster { false } else { self.has_seat(tag) } }
            Target::Head => false,
            Target::First => false,
            Target::Document => false,
        }
    }

    /// The tag of the open element at an index; that of the first element is 0. One step.
    pub fn tag_at(&mut self, index: usize) -> Tag
        requires { index < length self.old.stack }
        ensures tag { result ≡ tag_at self.old.tree (slice_index self.old.stack index) }
        ensures rest { self.new ≡ record self.old { steps = self.new.steps } }
        ensures steps { self.new.steps ≤ self.old.steps + 1 }
        ensures counted { self.new.steps ≡ more self.old.steps 1 }
        ensures keeps { Keeps self.old self.new }
        ensures grown { Grown 0 0 0 0 self.old self.new }
        ensures at { slice_get (reverse (open_tags self.old)) index ≡ Some result }
        ensures tags { open_tags self.new ≡ open_tags self.old }
    {
        self.charge(1);
        let nodes = self.stack.as_slice();
        self.arena.tag(nodes[index])
    }

    /// The index of the last open element of a group, unless one that ends the search stands after it. One step for each element from the
    /// current node down to the one where the search stops; where it is for a p in button scope and there is none, one step in all.
    pub fn find(&mut self, group: Group, stop: Stop) -> Option<usize>
        ensures index { result ≡ found self.old group stop }
        ensures in_scope { is_some result ≡ is_tag_in_scope group stop (open_tags self.old) }
        ensures below { IfSome result (λ i. i < length self.old.stack) }
        ensures rest { self.new ≡ record self.old { steps = self.new.steps } }
        ensures steps { self.new.steps ≤ self.old.steps + length self.old.stack }
        ensures counted { self.new.steps ≡ more self.old.steps (found_steps self.old group stop) }
        ensures near { IfSome result (λ i. self.new.steps + i ≤ self.old.steps + length self.old.stack) }
        ensures quick { seeks_p group stop ≡ true → result ≡ None → self.new.steps ≤ self.old.steps + 1 }
        ensures keeps { Keeps self.old self.new }
        ensures grown { Grown 0 0 0 0 self.old self.new }
        ensures tags { open_tags self.new ≡ open_tags self.old }
    {
        if seeks_p(group, stop) && self.lacks_p() {
            self.charge(1);
            return None;
        }
        self.find_member(group, stop)
    }

    /// Whether an element is open and no p is in button scope.
    fn lacks_p(&self) -> bool
        ensures none { result ≡ true → found self.now (Group.Named tag.P) (Stop.EndOf scope.Button) ≡ None }
        ensures opened { result ≡ true → 0 < length self.now.stack }
        ensures only { result ≡ false → found self.now (Group.Named tag.P) (Stop.EndOf scope.Button) ≡ None → length self.now.stack ≡ 0 }
    {
        !self.stack.is_empty() && !is_last_p(self.p_ends.as_slice(), &self.arena)
    }

    /// The index of the last open element of a group, unless one that ends the search stands after it, sought down the stack.
    fn find_member(&mut self, group: Group, stop: Stop) -> Option<usize>
        ensures index { result ≡ found self.old group stop }
        ensures in_scope { is_some result ≡ is_tag_in_scope group stop (open_tags self.old) }
        ensures below { IfSome result (λ i. i < length self.old.stack) }
        ensures rest { self.new ≡ record self.old { steps = self.new.steps } }
        ensures steps { self.new.steps ≤ self.old.steps + length self.old.stack }
        ensures counted { self.new.steps ≡ more self.old.steps (looked (member_or_stop self.old.tree group stop) self.old.stack) }
        ensures near { IfSome result (λ i. self.new.steps + i ≤ self.old.steps + length self.old.stack) }
        ensures keeps { Keeps self.old self.new }
        ensures grown { Grown 0 0 0 0 self.old self.new }
        ensures tags { open_tags self.new ≡ open_tags self.old }
    {
        let nodes = self.stack.as_slice();
        let at = last_index(nodes, &self.arena, Sought::Member(group, stop));
        let index = member_at(nodes, &self.arena, group, stop, at);
        let steps = steps_down(nodes.len(), at);
        self.charge(steps);
        index
    }

    /// Whether an element of a group is open, and none that ends the search stands after the last such. Steps as those of `find`.
    pub fn has(&mut self, group: Group, stop: Stop) -> bool
        ensures answer { result ≡ is_some (found self.old group stop) }
        ensures in_scope { result ≡ is_tag_in_scope group stop (open_tags self.old) }
        ensures quick { seeks_p group stop ≡ true → result ≡ false → self.new.steps ≤ self.old.steps + 1 }
        ensures rest { self.new ≡ record self.old { steps = self.new.steps } }
        ensures steps { self.new.steps ≤ self.old.steps + length self.old.stack }
        ensures counted { self.new.steps ≡ more self.old.steps (found_steps self.old group stop) }
        ensures keeps { Keeps self.old self.new }
        ensures grown { Grown 0 0 0 0 self.old self.new }
        ensures tags { open_tags self.new ≡ open_tags self.old }
    {
        self.find(group, stop).is_some()
    }

    /// The index of the last open element of a name, unless a special one stands after it. Steps as those of `find`.
    pub fn find_name(&mut self, name: &str) -> Option<usize>
        ensures index { result ≡ found_name self.old (chars name.now) }
        ensures below { IfSome result (λ i. i < length self.old.stack) }
        ensures rest { self.new ≡ record self.old { steps = self.new.steps } }
        ensures steps { self.new.steps ≤ self.old.steps + length self.old.stack }
        ensures counted { self.new.steps ≡ more self.old.steps (looked (name_or_special self.old.tree (chars name.now)) self.old.stack) }
        ensures keeps { Keeps self.old self.new }
        ensures grown { Grown 0 0 0 0 self.old self.new }
        ensures tags { open_tags self.new ≡ open_tags self.old }
    {
        let nodes = self.stack.as_slice();
        let at = name_index(nodes, &self.arena, name);
        let index = named_at(nodes, &self.arena, name, at);
        let steps = steps_down(nodes.len(), at);
        self.charge(steps);
        index
    }

    /// Whether this very element is in the default scope (13.2.4.2). Steps as those of `find`.
    pub fn is_in_scope(&mut self, node: NodeId) -> bool
        ensures answer { result ≡ element_in_scope self.old.tree node self.old.stack }
        ensures rest { self.new ≡ record self.old { steps = self.new.steps } }
        ensures steps { self.new.steps ≤ self.old.steps + length self.old.stack }
        ensures counted { self.new.steps ≡ more self.old.steps (looked (element_or_end self.old.tree node Default) self.old.stack) }
        ensures keeps { Keeps self.old self.new }
        ensures grown { Grown 0 0 0 0 self.old self.new }
        ensures tags { open_tags self.new ≡ open_tags self.old }
    {
        self.stack.is_in_scope(&mut self.arena, node)
    }
}
