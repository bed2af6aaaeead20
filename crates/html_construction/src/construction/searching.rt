// Questions about the open elements. They count steps; all else stays.
ghost use Rattle.std.specs.Prelude.{◌≡◌, ◌+◌, ◌<◌, ◌≤◌, Some, drop, length, slice_get, slice_index, true, ◌&&◌, is_some};
ghost use Rattle.html_arena.specs.Tree.{tag_at};
ghost use Rattle.html_construction.specs.Built.{Keeps};
ghost use Rattle.html_construction.specs.Grown.{Grown};
ghost use Rattle.html_construction.specs.Works.{Works};
ghost use Rattle.html_construction.specs.Weights.{group_weight, weight};
ghost use Rattle.html_names.specs.declared.tag.Tag.TheVariants as html;
ghost use Rattle.html_tree.specs.declared.groups.Group.TheVariants as group;
ghost use Rattle.html_tree.specs.declared.groups.Stop.TheVariants as stop;
ghost use Rattle.html_tree.specs.Searching.{found};
ghost use Rattle.html_tree.specs.Seats.{has_seat};
ghost use Rattle.html_construction.specs.Calls.{IsTree, is_first};
ghost use Rattle.html_construction.specs.Plans.{Asks};
ghost use Rattle.html_construction.specs.Words.{Finds, HasSeat, HasTemplate, IsCurrent, IsOptionInGroup, current_or_other, is_option_in_group};
ghost use Rattle.html_tree.specs.declared.groups.Group.{Group as AnyGroup};
ghost use Rattle.html_tree.specs.Groups.{in_group};

use super::Construction;
use html_names::{Scope, Tag};
use html_tree::{Group, Stop};

impl Construction {
    /// The number of open elements.
    pub fn depth(&self) -> usize
        ensures depth { result ≡ length self.now.stack }
        ensures elements { result ≡ length self.now.tree.stack }
    {
        self.tree.laws();
        self.tree.depth()
    }

    /// The tag of the open element at an index; that of the first element is 0.
    pub(super) fn tag_at(&mut self, index: usize) -> Tag
        requires { index < length self.old.stack }
        ensures rest { self.new ≡ record self.old { tree = self.new.tree } }
        ensures keeps { Keeps self.old self.new }
        ensures grown { Grown 0 0 0 0 0 self.old self.new }
        ensures works { Works 0 0 1 self.old self.new }
        ensures same { self.new ≡ record self.old { tree = record self.old.tree { steps = self.new.tree.steps } } }
        ensures tag { result ≡ tag_at self.new.tree.tree (slice_index self.new.tree.stack index) }
        ensures within { index < length self.old.tree.stack }
    {
        self.tree.laws();
        self.tree.tag_at(index)
    }

    /// The tag of the current node; `Other` where nothing is open.
    #[tactic(auto, using(crate::proofs::Doing::doing_rules))]
    pub fn current(&mut self) -> Tag
        ensures rest { self.new ≡ record self.old { tree = self.new.tree } }
        ensures keeps { Keeps self.old self.new }
        ensures grown { Grown 0 0 0 0 0 self.old self.new }
        ensures works { Works 1 0 0 self.old self.new }
        ensures tag { 0 < length self.old.stack → slice_get self.old.stack 0 ≡ Some result }
        ensures same { IsTree self.old.tree self.new }
        ensures value { result ≡ current_or_other self.old.tree }
        ensures follows { (g : AnyGroup) → Asks (IsCurrent g) (in_group g result) self.old self.new }
    {
        self.tree.laws();
        self.tree.current_tag().unwrap_or(Tag::Other)
    }

    /// Whether the current node may hold a part of a table of this tag, or, being a template, its contents may.
    #[tactic(auto, using(crate::proofs::Doing::doing_rules))]
    pub(super) fn has_seat(&mut self, part: Tag) -> bool
        ensures rest { self.new ≡ record self.old { tree = self.new.tree } }
        ensures keeps { Keeps self.old self.new }
        ensures grown { Grown 0 0 0 0 0 self.old self.new }
        ensures works { Works 0 0 1 self.old self.new }
        ensures same { IsTree self.old.tree self.new }
        ensures answer { result ≡ has_seat self.old.tree part }
        ensures still { has_seat self.new.tree part ≡ has_seat self.old.tree part }
        ensures follows { Asks (HasSeat part) result self.old self.new }
    {
        self.tree.laws();
        self.tree.has_seat(part)
    }

    /// Whether the current node is of a group.
    #[tactic(auto, using(crate::proofs::Doing::doing_rules))]
    pub fn current_is(&mut self, group: Group) -> bool
        ensures rest { self.new ≡ record self.old { tree = self.new.tree } }
        ensures keeps { Keeps self.old self.new }
        ensures grown { Grown 0 0 0 0 0 self.old self.new }
        ensures works { Works 1 0 0 self.old self.new }
        ensures member { result ≡ true → 0 < length self.old.stack → weight (drop 1 self.old.stack) + group_weight group ≤ weight self.old.stack }
        ensures answer { 0 < length self.old.stack → result ≡ is_first group self.old.stack }
        ensures same { IsTree self.old.tree self.new }
        ensures value { result ≡ in_group group (current_or_other self.old.tree) }
        ensures follows { Asks (IsCurrent group) result self.old self.new }
    {
        group.has(self.current())
    }

    /// Whether an element of this name is in a scope.
    #[tactic(auto, using(crate::proofs::Doing::doing_rules))]
    pub fn has_in_scope(&mut self, tag: Tag, scope: Scope) -> bool
        ensures rest { self.new ≡ record self.old { tree = self.new.tree } }
        ensures keeps { Keeps self.old self.new }
        ensures grown { Grown 0 0 0 0 0 self.old self.new }
        ensures works { Works 1 0 0 self.old self.new }
        ensures answer { result ≡ is_some (found self.old.tree (group.Named tag) (stop.EndOf scope)) }
        ensures same { IsTree self.old.tree self.new }
        ensures follows { Asks (Finds (group.Named tag) (stop.EndOf scope)) result self.old self.new }
    {
        self.tree.laws();
        self.tree.has(Group::Named(tag), Stop::EndOf(scope))
    }

    /// Whether an element of the group is in a scope.
    #[tactic(auto, using(crate::proofs::Doing::doing_rules))]
    pub fn has_group_in_scope(&mut self, group: Group, scope: Scope) -> bool
        ensures rest { self.new ≡ record self.old { tree = self.new.tree } }
        ensures keeps { Keeps self.old self.new }
        ensures grown { Grown 0 0 0 0 0 self.old self.new }
        ensures works { Works 1 0 0 self.old self.new }
        ensures answer { result ≡ is_some (found self.old.tree group (stop.EndOf scope)) }
        ensures same { IsTree self.old.tree self.new }
        ensures follows { Asks (Finds group (stop.EndOf scope)) result self.old self.new }
    {
        self.tree.laws();
        self.tree.has(group, Stop::EndOf(scope))
    }

    /// Whether a template is open. None is where none was made, and the stack need not be searched.
    #[tactic(auto, using(crate::proofs::Doing::doing_rules))]
    pub fn has_template(&mut self) -> bool
        ensures rest { self.new ≡ record self.old { tree = self.new.tree } }
        ensures keeps { Keeps self.old self.new }
        ensures grown { Grown 0 0 0 0 0 self.old self.new }
        ensures works { Works 1 0 0 self.old self.new }
        ensures made { result ≡ true → self.old.ledger.history.template ≡ true }
        ensures answer { result ≡ (self.old.ledger.history.template && is_some (found self.old.tree (group.Named html.Template) stop.Never)) }
        ensures same { IsTree self.old.tree self.new }
        ensures follows { Asks HasTemplate result self.old self.new }
    {
        self.history().template && self.has_open_template()
    }

    /// Whether a template stands on the stack.
    fn has_open_template(&mut self) -> bool
        ensures rest { self.new ≡ record self.old { tree = self.new.tree } }
        ensures keeps { Keeps self.old self.new }
        ensures grown { Grown 0 0 0 0 0 self.old self.new }
        ensures works { Works 1 0 0 self.old self.new }
        ensures answer { result ≡ is_some (found self.old.tree (group.Named html.Template) stop.Never) }
        ensures same { IsTree self.old.tree self.new }
    {
        self.tree.laws();
        self.tree.has(Group::Named(Tag::Template), Stop::Never)
    }

    /// Whether the current node is an option that stands on an optgroup.
    #[tactic(auto, using(crate::proofs::Doing::doing_rules, crate::proofs::Doing::option_rules))]
    pub fn is_option_in_group(&mut self) -> bool
        ensures rest { self.new ≡ record self.old { tree = self.new.tree } }
        ensures keeps { Keeps self.old self.new }
        ensures grown { Grown 0 0 0 0 0 self.old self.new }
        ensures works { Works 0 0 2 self.old self.new }
        ensures second { result ≡ true → 1 < length self.new.stack }
        ensures same { IsTree self.old.tree self.new }
        ensures answer { result ≡ is_option_in_group self.old.tree }
        ensures follows { Asks IsOptionInGroup result self.old self.new }
    {
        let depth = self.depth();
        depth > 1
            && self.tag_at(depth - 1).is(Tag::Option)
            && self.tag_at(depth - 2).is(Tag::Optgroup)
    }
}
