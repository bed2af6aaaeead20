// Elements that are closed. The first element never is. No call gives a token its fate.
ghost use Rattle.std.specs.Prelude.{◌≡◌, ◌+◌, ◌<◌, ◌≤◌, drop, false, length, true, ◌&&◌, is_some, nat_lt};
ghost use Rattle.html_names.specs.declared.tag.Tag.TheVariants as html;
ghost use Rattle.html_names.specs.Tags.{is_same};
ghost use Rattle.html_tree.specs.Groups.{in_group};
ghost use Rattle.html_construction.specs.Built.{Keeps};
ghost use Rattle.html_construction.specs.Grown.{Grown};
ghost use Rattle.html_construction.specs.Works.{Works};
ghost use Rattle.html_construction.specs.Weights.{group_weight, weight, weight_of};
ghost use Rattle.std.specs.Str.{chars};
ghost use Rattle.html_names.specs.declared.sets.Scope.TheVariants as scope;
ghost use Rattle.html_open.specs.Lists.{up_to};
ghost use Rattle.html_open.specs.Scopes.{stays};
ghost use Rattle.html_tree.specs.declared.groups.Group.TheVariants as group;
ghost use Rattle.html_tree.specs.declared.groups.Stop.TheVariants as stop;
ghost use Rattle.html_tree.specs.Closing.{before_index, cleared_to, closed_through, first_few, popped, remaining};
ghost use Rattle.html_tree.specs.OpenTags.{open_tags};
ghost use Rattle.html_arena.specs.Tree.{tag_at};
ghost use Rattle.html_tree.specs.Searching.{found, found_name};
ghost use Rattle.html_tree.specs.Seats.{carries_part};
ghost use Rattle.html_construction.specs.Calls.{IsTree, is_first, item_group};
ghost use Rattle.html_tokens.specs.declared.token.TokenKind.{TokenKind};
ghost use Rattle.html_construction.specs.Tokens.{tag_name};
ghost use Rattle.html_construction.specs.Plans.{Chooses, Does, DoesAny, closing, popping};
ghost use Rattle.html_construction.specs.Words.{ClearTo, CloseNamed, CloseThrough, Implied, Pop, current_or_other};

use super::Construction;
use html_arena::NodeId;
use html_names::{Scope, Tag};
use html_tree::{Group, Stop, TableContext};

impl Construction {
    /// Closes the current node.
    #[tactic(auto, using(crate::proofs::Doing::doing_rules))]
    pub fn pop(&mut self)
        requires { 1 < length self.old.stack }
        ensures rest { self.new ≡ record self.old { tree = self.new.tree; stack = drop 1 self.old.stack } }
        ensures keeps { Keeps self.old self.new }
        ensures grown { Grown 0 0 0 0 0 self.old self.new }
        ensures works { Works 1 0 0 self.old self.new }
        ensures lighter { weight self.new.stack ≤ weight self.old.stack }
        ensures exact { IsTree (record self.old.tree { stack = popped self.old.tree.stack }) self.new }
        ensures follows { DoesAny Pop self.old self.new }
    {
        self.tree.laws();
        self.tree.pop();
    }

    /// Closes the current node where it is of the group, unless it is the first element, and says whether it did.
    #[tactic(auto, using(crate::proofs::Doing::doing_rules))]
    pub fn pop_if(&mut self, group: Group) -> bool
        requires opened { 0 < length self.old.stack }
        ensures rest { self.new ≡ record self.old { tree = self.new.tree; stack = self.new.stack } }
        ensures keeps { Keeps self.old self.new }
        ensures grown { Grown 0 0 0 0 0 self.old self.new }
        ensures works { Works 2 0 0 self.old self.new }
        ensures lighter { weight self.new.stack ≤ weight self.old.stack }
        ensures found { result ≡ true → weight self.new.stack + group_weight group ≤ weight self.old.stack }
        ensures tags { result ≡ true → self.new.stack ≡ drop 1 self.old.stack }
        ensures same { result ≡ false → self.new.stack ≡ self.old.stack }
        ensures opened { 0 < length self.new.stack }
        ensures exact { result ≡ true → IsTree (record self.old.tree { stack = popped self.old.tree.stack }) self.new }
        ensures kept { result ≡ false → IsTree self.old.tree self.new }
        ensures answer { result ≡ (nat_lt 1 (length self.old.stack) && is_first group self.old.stack) }
        ensures told { result ≡ (nat_lt 1 (length self.old.tree.stack) && in_group group (current_or_other self.old.tree)) }
        ensures follows { Chooses (popping group) result self.old self.new }
    {
        if self.depth() > 1 && self.current_is(group) {
            self.pop();
            return true;
        }
        false
    }

    /// Closes elements through the last one of a name, and says whether there was one. (End tags that are implied before close none that
    /// would be left.)
    #[tactic(auto, using(crate::proofs::Doing::doing_rules))]
    pub fn pop_through(&mut self, tag: Tag) -> bool
        requires opened { 0 < length self.old.stack }
        ensures rest { self.new ≡ record self.old { tree = self.new.tree; stack = self.new.stack } }
        ensures keeps { Keeps self.old self.new }
        ensures grown { Grown 0 0 0 0 0 self.old self.new }
        ensures works { Works 1 0 0 self.old self.new }
        ensures lighter { weight self.new.stack ≤ weight self.old.stack }
        ensures found { result ≡ true → is_same html.Html tag ≡ false → weight self.new.stack + weight_of tag ≤ weight self.old.stack }
        ensures opened { 0 < length self.new.stack }
        ensures answer { result ≡ is_some (found self.old.tree (group.Named tag) stop.Never) }
        ensures exact { IsTree (record self.old.tree { stack = closed_through self.old.tree (group.Named tag) stop.Never }) self.new }
        ensures follows { Chooses (closing (group.Named tag) stop.Never) result self.old self.new }
    {
        self.tree.laws();
        self.tree.close(Group::Named(tag), Stop::Never)
    }

    /// Closes elements through the last one of a name where it is in a scope, and says whether it was.
    #[tactic(auto, using(crate::proofs::Doing::doing_rules))]
    pub fn close_in_scope(&mut self, tag: Tag, scope: Scope) -> bool
        requires opened { 0 < length self.old.stack }
        ensures rest { self.new ≡ record self.old { tree = self.new.tree; stack = self.new.stack } }
        ensures keeps { Keeps self.old self.new }
        ensures grown { Grown 0 0 0 0 0 self.old self.new }
        ensures works { Works 1 0 0 self.old self.new }
        ensures lighter { weight self.new.stack ≤ weight self.old.stack }
        ensures found { result ≡ true → is_same html.Html tag ≡ false → weight self.new.stack + weight_of tag ≤ weight self.old.stack }
        ensures opened { 0 < length self.new.stack }
        ensures tags { self.new.stack ≡ open_tags self.new.tree }
        ensures answer { result ≡ is_some (found self.old.tree (group.Named tag) (stop.EndOf scope)) }
        ensures exact { IsTree (record self.old.tree { stack = closed_through self.old.tree (group.Named tag) (stop.EndOf scope) }) self.new }
        ensures follows { Chooses (closing (group.Named tag) (stop.EndOf scope)) result self.old self.new }
    {
        self.tree.laws();
        self.tree.close(Group::Named(tag), Stop::EndOf(scope))
    }

    /// Closes elements through the last one of a group where it is in a scope, and says whether it was.
    #[tactic(auto, using(crate::proofs::Doing::doing_rules))]
    pub fn close_group_in_scope(&mut self, group: Group, scope: Scope) -> bool
        requires opened { 0 < length self.old.stack }
        ensures rest { self.new ≡ record self.old { tree = self.new.tree; stack = self.new.stack } }
        ensures keeps { Keeps self.old self.new }
        ensures grown { Grown 0 0 0 0 0 self.old self.new }
        ensures works { Works 1 0 0 self.old self.new }
        ensures lighter { weight self.new.stack ≤ weight self.old.stack }
        ensures found { result ≡ true → in_group group html.Html ≡ false → weight self.new.stack + group_weight group ≤ weight self.old.stack }
        ensures opened { 0 < length self.new.stack }
        ensures answer { result ≡ is_some (found self.old.tree group (stop.EndOf scope)) }
        ensures exact { IsTree (record self.old.tree { stack = closed_through self.old.tree group (stop.EndOf scope) }) self.new }
        ensures follows { Chooses (closing group (stop.EndOf scope)) result self.old self.new }
    {
        self.tree.laws();
        self.tree.close(group, Stop::EndOf(scope))
    }

    /// Closes a p element, where one is in button scope.
    #[tactic(auto, using(crate::proofs::Doing::doing_rules))]
    pub fn close_p(&mut self)
        requires opened { 0 < length self.old.stack }
        ensures rest { self.new ≡ record self.old { tree = self.new.tree; stack = self.new.stack } }
        ensures keeps { Keeps self.old self.new }
        ensures grown { Grown 0 0 0 0 0 self.old self.new }
        ensures works { Works 1 0 0 self.old self.new }
        ensures lighter { weight self.new.stack ≤ weight self.old.stack }
        ensures opened { 0 < length self.new.stack }
        ensures tags { self.new.stack ≡ open_tags self.new.tree }
        ensures exact { IsTree (record self.old.tree { stack = closed_through self.old.tree (group.Named html.P) (stop.EndOf scope.Button) }) self.new }
        ensures follows { DoesAny (CloseThrough (group.Named html.P) (stop.EndOf scope.Button)) self.old self.new }
    {
        let _ = self.close_in_scope(Tag::P, Scope::Button);
    }

    /// Clears the stack back to a table context.
    #[tactic(auto, using(crate::proofs::Doing::doing_rules))]
    pub fn clear_to(&mut self, context: TableContext)
        requires opened { 0 < length self.old.stack }
        ensures rest { self.new ≡ record self.old { tree = self.new.tree; stack = self.new.stack } }
        ensures keeps { Keeps self.old self.new }
        ensures grown { Grown 0 0 0 0 0 self.old self.new }
        ensures works { Works 1 0 0 self.old self.new }
        ensures lighter { weight self.new.stack ≤ weight self.old.stack }
        ensures opened { 0 < length self.new.stack }
        ensures exact { IsTree (record self.old.tree { stack = cleared_to self.old.tree context }) self.new }
        ensures follows { DoesAny (ClearTo context) self.old self.new }
    {
        self.tree.laws();
        self.tree.clear_to(context);
    }

    /// Generates implied end tags, but for one name.
    #[tactic(auto, using(crate::proofs::Doing::doing_rules))]
    pub fn implied(&mut self, except: Option<Tag>)
        requires opened { 0 < length self.old.stack }
        ensures rest { self.new ≡ record self.old { tree = self.new.tree; stack = self.new.stack } }
        ensures keeps { Keeps self.old self.new }
        ensures grown { Grown 0 0 0 0 0 self.old self.new }
        ensures works { Works 1 0 0 self.old self.new }
        ensures lighter { weight self.new.stack ≤ weight self.old.stack }
        ensures opened { 0 < length self.new.stack }
        ensures exact { IsTree (record self.old.tree { stack = up_to (stays self.old.tree.tree except) self.old.tree.stack }) self.new }
        ensures follows { DoesAny (Implied except) self.old self.new }
    {
        self.tree.laws();
        self.tree.implied(except);
    }

    /// Closes the last open element of a name, and those after it, unless a special element stands after it ("any other end tag",
    /// 13.2.6.4.7).
    #[tactic(auto, using(crate::proofs::Doing::doing_rules))]
    pub fn close_named(&mut self, name: &str)
        requires opened { 0 < length self.old.stack }
        ensures rest { self.new ≡ record self.old { tree = self.new.tree; stack = self.new.stack } }
        ensures keeps { Keeps self.old self.new }
        ensures grown { Grown 0 0 0 0 0 self.old self.new }
        ensures works { Works 2 0 0 self.old self.new }
        ensures lighter { weight self.new.stack ≤ weight self.old.stack }
        ensures opened { 0 < length self.new.stack }
        ensures tags { self.new.stack ≡ open_tags self.new.tree }
        ensures exact { IsTree (record self.old.tree { stack = before_index (found_name self.old.tree (chars name.now)) self.old.tree.stack }) self.new }
        ensures follows { (t : TokenKind) → tag_name t ≡ chars name.now → Does CloseNamed t self.old self.new }
    {
        if let Some(index) = self.index_of_name(name) {
            self.pop_to(index);
        }
    }

    /// The index of the last open element of this name, unless a special element stands after it.
    fn index_of_name(&mut self, name: &str) -> Option<usize>
        ensures rest { self.new ≡ record self.old { tree = self.new.tree } }
        ensures keeps { Keeps self.old self.new }
        ensures grown { Grown 0 0 0 0 0 self.old self.new }
        ensures works { Works 1 0 0 self.old self.new }
        ensures tags { self.new.stack ≡ open_tags self.new.tree }
        ensures index { result ≡ found_name self.old.tree (chars name.now) }
        ensures same { IsTree self.old.tree self.new }
    {
        self.tree.laws();
        self.tree.find_name(name)
    }

    /// Closes elements until so many are open, but never the first.
    pub(super) fn pop_to(&mut self, depth: usize)
        requires opened { 0 < length self.old.stack }
        ensures rest { self.new ≡ record self.old { tree = self.new.tree; stack = self.new.stack } }
        ensures keeps { Keeps self.old self.new }
        ensures grown { Grown 0 0 0 0 0 self.old self.new }
        ensures works { Works 1 0 0 self.old self.new }
        ensures lighter { weight self.new.stack ≤ weight self.old.stack }
        ensures opened { 0 < length self.new.stack }
        ensures tags { self.new.stack ≡ open_tags self.new.tree }
        ensures exact { IsTree (record self.old.tree { stack = first_few depth self.old.tree.stack }) self.new }
    {
        self.tree.laws();
        self.tree.pop_to(depth);
    }

    /// Closes an element on which no part of a table stands, wherever it is, unless it is the first.
    pub(super) fn remove_open(&mut self, node: NodeId)
        requires opened { 0 < length self.old.stack }
        requires node { node < length self.old.tree.tree.labels }
        requires plain { carries_part (tag_at self.old.tree.tree node) ≡ false }
        ensures rest { self.new ≡ record self.old { tree = self.new.tree; stack = self.new.stack } }
        ensures keeps { Keeps self.old self.new }
        ensures grown { Grown 0 0 0 0 0 self.old self.new }
        ensures works { Works 1 0 0 self.old self.new }
        ensures lighter { weight self.new.stack ≤ weight self.old.stack }
        ensures opened { 0 < length self.new.stack }
        ensures exact { IsTree (record self.old.tree { stack = remaining node self.old.tree.stack }) self.new }
    {
        self.tree.laws();
        self.tree.remove_open(node);
    }

    /// Closes the last open list item that one of this name closes: of li an li, of dd and dt either (13.2.6.4.7).
    #[tactic(auto, using(crate::proofs::Doing::doing_rules))]
    pub fn close_item(&mut self, item: Tag)
        requires opened { 0 < length self.old.stack }
        ensures rest { self.new ≡ record self.old { tree = self.new.tree; stack = self.new.stack } }
        ensures keeps { Keeps self.old self.new }
        ensures grown { Grown 0 0 0 0 0 self.old self.new }
        ensures works { Works 1 0 0 self.old self.new }
        ensures lighter { weight self.new.stack ≤ weight self.old.stack }
        ensures opened { 0 < length self.new.stack }
        ensures exact { IsTree (record self.old.tree { stack = closed_through self.old.tree (item_group item) stop.PastItem }) self.new }
        ensures follows { DoesAny (CloseThrough (item_group item) stop.PastItem) self.old self.new }
    {
        let group = if item.is_definition() {
            Group::Definition
        } else {
            Group::Named(item)
        };
        self.tree.laws();
        let _ = self.tree.close(group, Stop::PastItem);
    }
}
