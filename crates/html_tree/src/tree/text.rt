// Text.
ghost use Rattle.std.specs.Prelude.{◌≡◌, ℕ, ◌+◌, ◌*◌, ◌-◌, ◌^◌, ◌<◌, ◌≤◌, Err, IfErr, IfOk, IfSome, None, OnErr, OnOk, length, min, take};
ghost use Rattle.html_names.specs.Sets.{is_fostering};
ghost use Rattle.html_arena.specs.declared.arena.ArenaError.TheVariants as arena;
ghost use Rattle.html_arena.specs.Budget.{budget};
ghost use Rattle.html_arena.specs.Data.{IsText};
ghost use Rattle.html_arena.specs.Tree.{label_of, more, tag_at, texted_run};
ghost use Rattle.html_open.specs.Placing.{target_of};
ghost use Rattle.html_open.specs.Marking.{bare};
ghost use Rattle.html_arena.specs.declared.data.NewNode.TheVariants.{Text};
ghost use Rattle.html_tree.specs.Inserting.{IsLack, IsNodePassed, IsPassed, IsRefused, with_new};
ghost use Rattle.html_tree.specs.OpenTags.{open_tags};
ghost use Rattle.html_tree.specs.Since.{Grown, Keeps};
ghost use Rattle.html_tree.specs.Steps.{here_steps, new_text_steps, text_steps};
ghost use Rattle.html_tree.specs.Texts.{IsFree, IsNewTextRefused, IsTextPassed, IsTextRefused, TextGoesOn, place_here, text_before, text_node, with_text, with_text_node};

use super::OpenTree;
use crate::groups::Target;
use crate::search::{Sought, last_index, last_node, steps_down};
use crate::target::{put_new, text_before};
use html_arena::{NewNode, NodeId};
use html_names::Tag;
use html_open::{ArenaError, kept_by_edits, place};
use html_text::PlainText;

impl OpenTree {
    /// Adds the longest front of a run of code points that the limit on held code points takes to the text that stands just before the
    /// place for the current node, or to a new one there (13.2.6.1, insert a character), and answers the text and how many were added.
    /// Each code point counts the steps of the place, and one; a new text those of the place once more, and two.
    ///
    /// # Errors
    ///
    /// `NodeBudget` where there is no such text and a new one would pass that limit; `HeldBudget` where the first code point would pass
    /// that limit; else `OutOfMemory`.
    pub fn append_run(&mut self, run: &[char], foster: bool) -> Result<(NodeId, usize), ArenaError>
        requires opened { 0 < length self.old.stack }
        requires some { 0 < length run.now }
        ensures count { IfOk result (λ r. (0 < r.1) × (r.1 ≤ length run.now)) }
        ensures node { IfOk result (λ r. r.0 ≡ text_node self.old foster) }
        ensures exact { IfOk result (λ r. self.new ≡ record self.old { tree = with_text self.old foster (take r.1 run.now); steps = self.new.steps }) }
        ensures longest { IfOk result (λ r. r.1 < length run.now → budget self.new.tree 0 1 ≡ Err arena.HeldBudget) }
        ensures counted { IfOk result (λ r. self.new.steps ≡ more self.old.steps (text_steps self.old foster r.1)) }
        ensures steps { IfOk result (λ r. self.new.steps ≤ self.old.steps + r.1 * (2 * length self.old.stack + 4) + r.1) }
        ensures keeps { OnOk result (Keeps self.old self.new) }
        ensures grown { IfOk result (λ r. Grown 1 0 0 r.1 self.old self.new) }
        ensures tags { open_tags self.new ≡ open_tags self.old }
        ensures rest { self.new ≡ record self.old { tree = self.new.tree; steps = self.new.steps } }
        ensures tokens { self.new.tokens ≡ self.old.tokens }
        ensures goes_on { OnOk result (TextGoesOn self.old foster) }
        ensures cause { IfErr result (λ e. IsTextRefused self.old foster e) }
        ensures told { IfErr result (λ e. IsTextPassed self.old self.new e) }
    {
        let steps = self.here_steps(foster);
        let node = self.text_at(foster)?;
        let count = self.append_to(node, run)?;
        self.charge_again(steps, count - 1);
        Ok((node, count))
    }

    /// Adds the longest front of a plain text that the limit on held code points takes to the text that stands just before the
    /// place for the current node, or to a new one there (13.2.6.1, insert a character), and answers the text and how many were added.
    /// Each code point counts the steps of the place, and one; a new text those of the place once more, and two.
    ///
    /// # Errors
    ///
    /// `NodeBudget` where there is no such text and a new one would pass that limit; `HeldBudget` where the first code point would pass
    /// that limit; else `OutOfMemory`.
    pub fn append_plain(
        &mut self,
        text: &PlainText<'_>,
        foster: bool,
    ) -> Result<(NodeId, usize), ArenaError>
        requires opened { 0 < length self.old.stack }
        requires some { 0 < length text.now }
        ensures count { IfOk result (λ r. (0 < r.1) × (r.1 ≤ length text.now)) }
        ensures node { IfOk result (λ r. r.0 ≡ text_node self.old foster) }
        ensures exact { IfOk result (λ r. self.new ≡ record self.old { tree = with_text self.old foster (take r.1 text.now); steps = self.new.steps }) }
        ensures longest { IfOk result (λ r. r.1 < length text.now → budget self.new.tree 0 1 ≡ Err arena.HeldBudget) }
        ensures counted { IfOk result (λ r. self.new.steps ≡ more self.old.steps (text_steps self.old foster r.1)) }
        ensures steps { IfOk result (λ r. self.new.steps ≤ self.old.steps + r.1 * (2 * length self.old.stack + 4) + r.1) }
        ensures keeps { OnOk result (Keeps self.old self.new) }
        ensures grown { IfOk result (λ r. Grown 1 0 0 r.1 self.old self.new) }
        ensures tags { open_tags self.new ≡ open_tags self.old }
        ensures rest { self.new ≡ record self.old { tree = self.new.tree; steps = self.new.steps } }
        ensures tokens { self.new.tokens ≡ self.old.tokens }
        ensures goes_on { OnOk result (TextGoesOn self.old foster) }
        ensures cause { IfErr result (λ e. IsTextRefused self.old foster e) }
        ensures told { IfErr result (λ e. IsTextPassed self.old self.new e) }
    {
        let steps = self.here_steps(foster);
        let node = self.text_at(foster)?;
        let added = self.append_plain_to(node, text)?;
        self.charge_again(steps, added - 1);
        Ok((node, added))
    }

    /// Counts the steps of a place so many times: nearly always one step, or no time.
    #[inline(always)]
    fn charge_again(&mut self, steps: u128, times: usize)
        ensures rest { self.new ≡ record self.old { steps = self.new.steps } }
        ensures counted { self.new.steps ≡ more self.old.steps (min (steps * times) (2 ^ 128 - 1)) }
        ensures keeps { Keeps self.old self.new }
        ensures grown { Grown 0 0 0 0 self.old self.new }
        ensures tags { open_tags self.new ≡ open_tags self.old }
    {
        let _ = self.steps();
        if times == 0 {
            return;
        }
        if steps == 1 {
            self.charge(times as u128);
        } else {
            self.charge(steps.saturating_mul(times as u128));
        }
    }

    /// How many steps the place for the current node counts.
    fn here_steps(&self, foster: bool) -> u128
        requires opened { 0 < length self.now.stack }
        ensures value { result ≡ here_steps self.now foster }
    {
        if !foster || !self.is_fostering() {
            return 1;
        }
        let nodes = self.stack.as_slice();
        let at = last_index(nodes, &self.arena, Sought::Tag(Tag::Table));
        1 + steps_down(nodes.len(), at)
    }

    /// Whether what is put at the place for the current node may be fostered.
    fn is_fostering(&self) -> bool
        requires opened { 0 < length self.now.stack }
        ensures value { result ≡ is_fostering (tag_at self.now.tree (target_of self.now.stack None)) }
    {
        match last_node(self.stack.as_slice()) {
            Some(node) => self.arena.tag(node).is_fostering(),
            None => false,
        }
    }

    /// The text that stands just before the place for the current node, or a new one there.
    #[inline(always)]
    fn text_at(&mut self, foster: bool) -> Result<NodeId, ArenaError>
        requires opened { 0 < length self.old.stack }
        ensures node { IfOk result (λ x. x ≡ text_node self.old foster) }
        ensures text { IfOk result (λ x. (x < length self.new.tree.labels) × IsText (label_of self.new.tree x)) }
        ensures free { IfOk result (λ x. IsFree self.new x) }
        ensures exact { OnOk result (self.new ≡ record self.old { tree = with_text_node self.old foster; steps = self.new.steps }) }
        ensures steps { OnOk result (self.new.steps ≤ self.old.steps + 2 * length self.old.stack + 4) }
        ensures counted { OnOk result (self.new.steps ≡ more self.old.steps (here_steps self.old foster + new_text_steps (text_before self.old.tree (place_here self.old foster)) (here_steps self.old foster))) }
        ensures keeps { OnOk result (Keeps self.old self.new) }
        ensures grown { OnOk result (Grown 1 0 0 0 self.old self.new) }
        ensures tags { open_tags self.new ≡ open_tags self.old }
        ensures rest { self.new ≡ record self.old { tree = self.new.tree; steps = self.new.steps } }
        ensures goes_on { OnOk result (TextGoesOn self.old foster) }
        ensures cause { IfErr result (λ e. IsNewTextRefused self.old foster e) }
        ensures told { IfErr result (λ e. IsNodePassed self.old self.new Text e) }
    {
        match self.text_here(foster) {
            Some(node) => Ok(node),
            None => self.insert_text(foster),
        }
    }

    /// The text that stands just before the place for the current node. The steps of the place.
    fn text_here(&mut self, foster: bool) -> Option<NodeId>
        requires opened { 0 < length self.old.stack }
        ensures text { result ≡ text_before self.old.tree (place_here self.old foster) }
        ensures node { IfSome result (λ x. (x < length self.old.tree.labels) × IsText (label_of self.old.tree x)) }
        ensures free { IfSome result (λ x. IsFree self.old x) }
        ensures rest { self.new ≡ record self.old { steps = self.new.steps } }
        ensures steps { self.new.steps ≤ self.old.steps + length self.old.stack + 1 }
        ensures counted { self.new.steps ≡ more self.old.steps (here_steps self.old foster) }
        ensures keeps { Keeps self.old self.new }
        ensures grown { Grown 0 0 0 0 self.old self.new }
        ensures tags { open_tags self.new ≡ open_tags self.old }
        ensures goes_on { TextGoesOn self.old foster }
    {
        self.arena.forest();
        let place = place(&self.stack, &mut self.arena, None, foster);
        text_before(&self.arena, &place)
    }

    /// A new text, without code points, at the place for the current node.
    fn insert_text(&mut self, foster: bool) -> Result<NodeId, ArenaError>
        requires opened { 0 < length self.old.stack }
        ensures id { IfOk result (λ id. id ≡ length self.old.tree.labels) }
        ensures text { IfOk result (λ x. (x < length self.new.tree.labels) × IsText (label_of self.new.tree x)) }
        ensures free { IfOk result (λ x. IsFree self.new x) }
        ensures exact { OnOk result (self.new ≡ record self.old { tree = with_new self.old.tree (place_here self.old foster) Text; steps = self.new.steps }) }
        ensures steps { OnOk result (self.new.steps ≤ self.old.steps + length self.old.stack + 3) }
        ensures counted { OnOk result (self.new.steps ≡ more self.old.steps (here_steps self.old foster + 2)) }
        ensures keeps { OnOk result (Keeps self.old self.new) }
        ensures grown { OnOk result (Grown 1 0 0 0 self.old self.new) }
        ensures tags { open_tags self.new ≡ open_tags self.old }
        ensures rest { self.new ≡ record self.old { tree = self.new.tree; steps = self.new.steps } }
        ensures cause { IfErr result (λ e. IsRefused self.old Text e) }
        ensures told { IfErr result (λ e. IsNodePassed self.old self.new Text e) }
    {
        let target = Target::Current(foster);
        let new = NewNode::Text;
        let node = put_new(&self.stack, &mut self.arena, self.head, target, new)?;
        self.arena.forest();
        Ok(node)
    }

    /// Adds the longest front of a run that the limit on held code points takes to a text, and answers its length.
    fn append_to(&mut self, node: NodeId, run: &[char]) -> Result<usize, ArenaError>
        requires node_in { node < length self.old.tree.labels }
        requires is_text { IsText (label_of self.old.tree node) }
        requires free { IsFree self.old node }
        requires some { 0 < length run.now }
        ensures count { IfOk result (λ n. (0 < n) × (n ≤ length run.now)) }
        ensures exact { IfOk result (λ n. self.new ≡ record self.old { tree = bare (texted_run self.old.tree node (take n run.now)); steps = self.new.steps }) }
        ensures longest { IfOk result (λ n. n < length run.now → budget self.new.tree 0 1 ≡ Err arena.HeldBudget) }
        ensures steps { IfOk result (λ n. self.new.steps ≤ self.old.steps + n) }
        ensures counted { IfOk result (λ n. self.new.steps ≡ more self.old.steps n) }
        ensures keeps { OnOk result (Keeps self.old self.new) }
        ensures grown { IfOk result (λ n. Grown 0 0 0 n self.old self.new) }
        ensures tags { open_tags self.new ≡ open_tags self.old }
        ensures rest { self.new ≡ record self.old { tree = self.new.tree; steps = self.new.steps } }
        ensures cause { IfErr result (λ e. IsLack (budget self.old.tree 0 1) e) }
        ensures told { IfErr result (λ e. IsPassed self.old self.new 0 1 e) }
    {
        kept_by_edits();
        let count = self.arena.append_run(node, run)?;
        if count == 0 {
            return Err(ArenaError::HeldBudget);
        }
        Ok(count)
    }

    /// Adds the longest front of a plain text that the limit on held code points takes to a text, and answers its length.
    fn append_plain_to(&mut self, node: NodeId, text: &PlainText<'_>) -> Result<usize, ArenaError>
        requires node_in { node < length self.old.tree.labels }
        requires is_text { IsText (label_of self.old.tree node) }
        requires free { IsFree self.old node }
        requires some { 0 < length text.now }
        ensures count { IfOk result (λ n. (0 < n) × (n ≤ length text.now)) }
        ensures exact { IfOk result (λ n. self.new ≡ record self.old { tree = bare (texted_run self.old.tree node (take n text.now)); steps = self.new.steps }) }
        ensures longest { IfOk result (λ n. n < length text.now → budget self.new.tree 0 1 ≡ Err arena.HeldBudget) }
        ensures steps { IfOk result (λ n. self.new.steps ≤ self.old.steps + n) }
        ensures counted { IfOk result (λ n. self.new.steps ≡ more self.old.steps n) }
        ensures keeps { OnOk result (Keeps self.old self.new) }
        ensures grown { IfOk result (λ n. Grown 0 0 0 n self.old self.new) }
        ensures tags { open_tags self.new ≡ open_tags self.old }
        ensures rest { self.new ≡ record self.old { tree = self.new.tree; steps = self.new.steps } }
        ensures cause { IfErr result (λ e. IsLack (budget self.old.tree 0 1) e) }
        ensures told { IfErr result (λ e. IsPassed self.old self.new 0 1 e) }
    {
        kept_by_edits();
        let added = self.arena.append_plain(node, text)?;
        if added == 0 {
            return Err(html_open::ArenaError::HeldBudget);
        }
        Ok(added)
    }
}
