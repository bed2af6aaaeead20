// Foreign content among the open elements (13.2.6, 13.2.6.5).
ghost use Rattle.std.specs.Prelude.{◌≡◌, ℕ, ◌+◌, ◌*◌, ◌<◌, ◌≤◌, IfSome, Some, length, slice_get};
ghost use Rattle.std.specs.Str.{chars};
ghost use Rattle.html_tree.specs.Foreign.{found_foreign, home_end, is_at_html_point, left_foreign};
ghost use Rattle.html_tree.specs.OpenTags.{HasFewer, IsLighter, open_tags};
ghost use Rattle.html_tree.specs.Searching.{current_tag};
ghost use Rattle.html_tree.specs.Since.{Grown, Keeps};

use super::OpenTree;
use crate::foreign::{foreign_at, foreign_index, home_index, is_html_point};
use crate::search::{after, last_node, steps_down};
use html_names::Tag;

impl OpenTree {
    /// The tag of the current node, if an element is open. No step: the entry of a token into the rules counts it.
    pub fn top_tag(&self) -> Option<Tag>
        ensures tag { result ≡ current_tag self.now }
        ensures first { result ≡ slice_get (open_tags self.now) 0 }
    {
        match last_node(self.stack.as_slice()) {
            Some(node) => Some(self.arena.tag(node)),
            None => None,
        }
    }

    /// Whether the current node is an HTML integration point (13.2.6). No step.
    pub fn is_at_html_point(&self) -> bool
        ensures answer { result ≡ is_at_html_point self.now }
    {
        match last_node(self.stack.as_slice()) {
            Some(node) => is_html_point(&self.arena, node),
            None => false,
        }
    }

    /// Closes elements until the current node is one of HTML, or an integration point (13.2.6.5). At most two steps for each open element.
    pub fn leave_foreign(&mut self)
        ensures exact { self.new ≡ record self.old { stack = left_foreign self.old; steps = self.new.steps } }
        ensures steps { self.new.steps ≤ self.old.steps + 2 * length self.old.stack }
        ensures keeps { Keeps self.old self.new }
        ensures grown { Grown 0 0 0 0 self.old self.new }
        ensures few { HasFewer self.old self.new }
        ensures lighter { IsLighter self.old self.new }
    {
        self.laws();
        let len = self.home_end();
        self.pop_to(len);
    }

    /// The index after that of the last element where foreign content is left.
    fn home_end(&mut self) -> usize
        ensures index { result ≡ home_end self.old }
        ensures rest { self.new ≡ record self.old { steps = self.new.steps } }
        ensures steps { self.new.steps ≤ self.old.steps + length self.old.stack }
        ensures keeps { Keeps self.old self.new }
        ensures grown { Grown 0 0 0 0 self.old self.new }
        ensures tags { open_tags self.new ≡ open_tags self.old }
    {
        let nodes = self.stack.as_slice();
        let at = home_index(nodes, &self.arena);
        let end = after(nodes.len(), at);
        let steps = steps_down(nodes.len(), at);
        self.charge(steps);
        end
    }

    /// The index of the last open element of foreign content whose local name is this one in lower case, unless one of HTML stands after it
    /// (13.2.6.5, any other end tag). One step for each element from the current node down to the one where the search stops.
    pub fn find_foreign(&mut self, name: &str) -> Option<usize>
        ensures index { result ≡ found_foreign self.old (chars name.now) }
        ensures below { IfSome result (λ i. i < length self.old.stack) }
        ensures rest { self.new ≡ record self.old { steps = self.new.steps } }
        ensures steps { self.new.steps ≤ self.old.steps + length self.old.stack }
        ensures keeps { Keeps self.old self.new }
        ensures grown { Grown 0 0 0 0 self.old self.new }
        ensures tags { open_tags self.new ≡ open_tags self.old }
    {
        let nodes = self.stack.as_slice();
        let at = foreign_index(nodes, &self.arena, name);
        let index = foreign_at(nodes, &self.arena, name, at);
        let steps = steps_down(nodes.len(), at);
        self.charge(steps);
        index
    }
}
