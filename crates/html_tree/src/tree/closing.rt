// Elements that are closed. The first element never is.
ghost use Rattle.std.specs.Prelude.{◌≡◌, ℕ, ◌+◌, ◌*◌, ◌<◌, ◌≤◌, drop, eqb, false, is_some, length, true};
ghost use Rattle.std.specs.List.{after_first};
ghost use Rattle.html_names.specs.declared.tag.Tag.TheVariants as tag;
ghost use Rattle.html_open.specs.Entries.{removal_steps};
ghost use Rattle.html_open.specs.Lists.{looked, up_to};
ghost use Rattle.html_open.specs.Scopes.{stays, tag_stays};
ghost use Rattle.html_arena.specs.Siblings.{first_of, is_in};
ghost use Rattle.html_arena.specs.Tree.{more, tag_at};
ghost use Rattle.html_tree.specs.Closing.{cleared_to, context_end, closed_through, first_few, kept_to, popped, remaining};
ghost use Rattle.html_tree.specs.Groups.{in_group, is_context};
ghost use Rattle.html_tree.specs.OpenTags.{HasClosed, HasContext, HasFewer, IsLighter, back_to, is_tag_in_scope, open_tags};
ghost use Rattle.html_tree.specs.Paragraphs.{seeks_p};
ghost use Rattle.html_tree.specs.Searching.{context_at, found};
ghost use Rattle.html_tree.specs.Seats.{carries_part};
ghost use Rattle.html_tree.specs.Since.{Grown, Keeps};
ghost use Rattle.html_tree.specs.Steps.{closed_count, found_steps};

use super::OpenTree;
use crate::groups::{Group, Stop, TableContext};
use crate::paragraphs::{cut_ends, forget_end};
use crate::search::{Sought, after, last_index, steps_down};
use html_arena::NodeId;
use html_names::Tag;

impl OpenTree {
    /// Closes elements until there are `len`, but never the first. One step for each.
    pub fn pop_to(&mut self, len: usize)
        ensures exact { self.new ≡ record self.old { stack = first_few len self.old.stack; steps = self.new.steps } }
        ensures steps { self.new.steps ≤ self.old.steps + length self.old.stack }
        ensures each { self.new.steps + length self.new.stack ≤ self.old.steps + length self.old.stack }
        ensures counted { self.new.steps ≡ more self.old.steps (closed_count self.old self.new) }
        ensures keeps { Keeps self.old self.new }
        ensures grown { Grown 0 0 0 0 self.old self.new }
        ensures few { HasFewer self.old self.new }
        ensures lighter { IsLighter self.old self.new }
    {
        let count = self.stack.len();
        let kept = kept_to(count, len);
        self.arena.charge((count - kept) as u128);
        cut_ends(&mut self.p_ends, self.stack.as_slice(), &self.arena, kept);
        self.stack.pop_to(&mut self.arena, kept);
    }

    /// Closes the current node, unless it is the first element. One step.
    pub fn pop(&mut self)
        ensures exact { self.new ≡ record self.old { stack = popped self.old.stack; steps = self.new.steps } }
        ensures steps { self.new.steps ≤ self.old.steps + length self.old.stack }
        ensures counted { self.new.steps ≡ more self.old.steps (closed_count self.old self.new) }
        ensures keeps { Keeps self.old self.new }
        ensures grown { Grown 0 0 0 0 self.old self.new }
        ensures tags { 1 < length self.old.stack → open_tags self.new ≡ drop 1 (open_tags self.old) }
        ensures few { HasFewer self.old self.new }
        ensures lighter { IsLighter self.old self.new }
    {
        let count = self.stack.len();
        self.pop_to(count.saturating_sub(1));
    }

    /// Closes elements through the last one of a group, unless one that ends the search stands after it, and says whether there is one.
    /// At most two steps for each open element; for a p in button scope two for each that is closed, and one.
    pub fn close(&mut self, group: Group, stop: Stop) -> bool
        ensures answer { result ≡ is_some (found self.old group stop) }
        ensures in_scope { result ≡ is_tag_in_scope group stop (open_tags self.old) }
        ensures exact { self.new ≡ record self.old { stack = closed_through self.old group stop; steps = self.new.steps } }
        ensures steps { self.new.steps ≤ self.old.steps + 2 * length self.old.stack }
        ensures paid { seeks_p group stop ≡ true → self.new.steps + 2 * length self.new.stack ≤ self.old.steps + 2 * length self.old.stack + 1 }
        ensures counted { self.new.steps ≡ more self.old.steps (found_steps self.old group stop + closed_count self.old self.new) }
        ensures keeps { Keeps self.old self.new }
        ensures grown { Grown 0 0 0 0 self.old self.new }
        ensures few { HasFewer self.old self.new }
        ensures lighter { IsLighter self.old self.new }
        ensures same { result ≡ false → open_tags self.new ≡ open_tags self.old }
        ensures closed { result ≡ true → in_group group tag.Html ≡ false → open_tags self.new ≡ after_first (in_group group) (open_tags self.old) }
        ensures found { result ≡ true → in_group group tag.Html ≡ false → HasClosed group self.old self.new }
    {
        self.laws();
        match self.find(group, stop) {
            None => false,
            Some(index) => {
                self.pop_to(index);
                true
            }
        }
    }

    /// Closes elements back to the last one of a table context. At most two steps for each open element.
    pub fn clear_to(&mut self, context: TableContext)
        ensures exact { self.new ≡ record self.old { stack = cleared_to self.old context; steps = self.new.steps } }
        ensures steps { self.new.steps ≤ self.old.steps + 2 * length self.old.stack }
        ensures counted { self.new.steps ≡ more self.old.steps (looked (context_at self.old.tree context) self.old.stack + closed_count self.old self.new) }
        ensures keeps { Keeps self.old self.new }
        ensures grown { Grown 0 0 0 0 self.old self.new }
        ensures few { HasFewer self.old self.new }
        ensures lighter { IsLighter self.old self.new }
        ensures cleared { open_tags self.new ≡ back_to (is_context context) (open_tags self.old) }
        ensures context { HasContext context self.new }
    {
        self.laws();
        let len = self.context_end(context);
        self.pop_to(len);
    }

    /// The index after that of the last element of a table context.
    fn context_end(&mut self, context: TableContext) -> usize
        ensures index { result ≡ context_end self.old context }
        ensures rest { self.new ≡ record self.old { steps = self.new.steps } }
        ensures steps { self.new.steps ≤ self.old.steps + length self.old.stack }
        ensures counted { self.new.steps ≡ more self.old.steps (looked (context_at self.old.tree context) self.old.stack) }
        ensures keeps { Keeps self.old self.new }
        ensures grown { Grown 0 0 0 0 self.old self.new }
        ensures tags { open_tags self.new ≡ open_tags self.old }
    {
        let nodes = self.stack.as_slice();
        let at = last_index(nodes, &self.arena, Sought::Context(context));
        let end = after(nodes.len(), at);
        let steps = steps_down(nodes.len(), at);
        self.charge(steps);
        end
    }

    /// Closes elements while the end tag of the current node is implied and its name is not the excepted one. Two steps for each that is
    /// closed, and one.
    pub fn implied(&mut self, except: Option<Tag>)
        ensures exact { self.new ≡ record self.old { stack = up_to (stays self.old.tree except) self.old.stack; steps = self.new.steps } }
        ensures steps { self.new.steps ≤ self.old.steps + 2 * length self.old.stack + 1 }
        ensures counted { self.new.steps ≡ more self.old.steps (looked (stays self.old.tree except) self.old.stack + closed_count self.old self.new) }
        ensures keeps { Keeps self.old self.new }
        ensures grown { Grown 0 0 0 0 self.old self.new }
        ensures few { HasFewer self.old self.new }
        ensures lighter { IsLighter self.old self.new }
        ensures left { open_tags self.new ≡ back_to (tag_stays except) (open_tags self.old) }
    {
        let nodes = self.stack.as_slice();
        let at = last_index(nodes, &self.arena, Sought::Staying(except));
        let end = after(nodes.len(), at);
        let steps = steps_down(nodes.len(), at);
        self.charge(steps);
        self.pop_to(end);
    }

    /// Closes an element on which no part of a table stands, wherever it is, unless it is the first. At most two steps for each open element, and one.
    pub fn remove_open(&mut self, node: NodeId)
        requires node_in { node < length self.old.tree.labels }
        requires plain { carries_part (tag_at self.old.tree node) ≡ false }
        ensures exact { self.new ≡ record self.old { stack = remaining node self.old.stack; steps = self.new.steps } }
        ensures steps { self.new.steps ≤ self.old.steps + 2 * length self.old.stack + 1 }
        ensures counted { is_in node (first_of self.old.stack) ≡ false → self.new.steps ≡ more self.old.steps (removal_steps (eqb node) self.old.stack) }
        ensures first { is_in node (first_of self.old.stack) ≡ true → self.new ≡ self.old }
        ensures keeps { Keeps self.old self.new }
        ensures grown { Grown 0 0 0 0 self.old self.new }
        ensures lighter { IsLighter self.old self.new }
    {
        if !is_first(self.stack.as_slice(), node) {
            forget_end(&mut self.p_ends, &self.arena, node);
            self.stack.remove(&mut self.arena, node);
        }
    }
}

/// Whether an element is the first.
fn is_first(nodes: &[NodeId], node: NodeId) -> bool
    ensures { result ≡ is_in node (first_of nodes.now) }
{
    !nodes.is_empty() && nodes[0] == node
}

/// How many elements stay of so many that are open.
fn kept_to(count: usize, len: usize) -> usize
    ensures value { result ≡ kept_to count len }
    ensures most { result ≤ count }
{
    if count <= len || count <= 1 {
        count
    } else if len == 0 {
        1
    } else {
        len
    }
}
