// What is added to a node: text, and the attributes of a later tag.
ghost use Rattle.std.specs.Prelude.{◌≡◌, ◌≢◌, ◌+◌, ◌<◌, ◌≤◌, length, OnOk, OnErr, IfOk, IfErr, Ok, Err, take};
ghost use Rattle.html_arena.specs.Budget.{RefusedBy, budget};
ghost use Rattle.html_arena.specs.Data.{IsElement, IsText, attrs_in, with_attrs, with_char, with_run};
ghost use Rattle.html_arena.specs.Laws.{IsRelabelled};
ghost use Rattle.html_arena.specs.Merge.{lacking, merged};
ghost use Rattle.html_arena.specs.Tree.{label_of, texted, texted_each, texted_run, with_merged};
ghost use Rattle.html_arena.specs.Weight.{attrs_weight, capped};

use super::{Arena, ArenaError};
use crate::attributes::{lacking_held, merge};
use crate::data::{label_at, push_char, push_plain, push_run, set_attrs};
use crate::links::NodeId;
use html_text::PlainText;
use html_tokens::Attrs;

impl Arena {
    /// Adds a code point to a text.
    pub fn append_text(&mut self, node: NodeId, c: char) -> Result<(), ArenaError>
        requires node_in { node < length self.old.labels }
        requires is_text { IsText (label_of self.old node) }
        ensures within { OnOk result (budget self.old 0 1 ≡ Ok tt) }
        ensures added { OnOk result (self.new ≡ texted self.old node c) }
        ensures relabelled { OnOk result (IsRelabelled self.old self.new node (with_char (label_of self.old node) c)) }
        ensures still_text { IsText (label_of self.new node) }
        ensures refused { OnErr result (self.new ≡ self.old) }
        ensures cause { IfErr result (λ e. RefusedBy (budget self.old 0 1) e) }
    {
        self.push_text(node, c)
    }

    /// Adds the longest front of a run that the limit on held code points takes to a text, and answers its length.
    pub fn append_run(&mut self, node: NodeId, run: &[char]) -> Result<usize, ArenaError>
        requires node_in { node < length self.old.labels }
        requires is_text { IsText (label_of self.old node) }
        ensures front { IfOk result (λ n. n ≤ length run.now) }
        ensures within { IfOk result (λ n. 0 < n → budget self.old 0 n ≡ Ok tt) }
        ensures longest { IfOk result (λ n. n < length run.now → budget self.new 0 1 ≡ Err ArenaError.HeldBudget) }
        ensures added { IfOk result (λ n. self.new ≡ texted_run self.old node (take n run.now)) }
        ensures one_by_one { IfOk result (λ n. self.new ≡ texted_each self.old node (take n run.now)) }
        ensures relabelled { IfOk result (λ n. IsRelabelled self.old self.new node (with_run (label_of self.old node) (take n run.now))) }
        ensures still_text { IsText (label_of self.new node) }
        ensures refused { OnErr result (self.new ≡ self.old) }
        ensures some { OnErr result (0 < length run.now) }
        ensures cause { IfErr result (λ e. RefusedBy (budget self.old 0 1) e) }
        ensures not_held { IfErr result (λ e. e ≢ ArenaError.HeldBudget) }
    {
        self.counts();
        self.push_front(node, run)
    }

    /// Adds the longest front of a plain text that the limit on held code points takes to a text, and answers its length.
    pub fn append_plain(&mut self, node: NodeId, text: &PlainText<'_>) -> Result<usize, ArenaError>
        requires node_in { node < length self.old.labels }
        requires is_text { IsText (label_of self.old node) }
        ensures front { IfOk result (λ n. n ≤ length text.now) }
        ensures within { IfOk result (λ n. 0 < n → budget self.old 0 n ≡ Ok tt) }
        ensures longest { IfOk result (λ n. n < length text.now → budget self.new 0 1 ≡ Err ArenaError.HeldBudget) }
        ensures added { IfOk result (λ n. self.new ≡ texted_run self.old node (take n text.now)) }
        ensures one_by_one { IfOk result (λ n. self.new ≡ texted_each self.old node (take n text.now)) }
        ensures relabelled { IfOk result (λ n. IsRelabelled self.old self.new node (with_run (label_of self.old node) (take n text.now))) }
        ensures still_text { IsText (label_of self.new node) }
        ensures refused { OnErr result (self.new ≡ self.old) }
        ensures some { OnErr result (0 < length text.now) }
        ensures cause { IfErr result (λ e. RefusedBy (budget self.old 0 1) e) }
        ensures not_held { IfErr result (λ e. e ≢ ArenaError.HeldBudget) }
    {
        self.counts();
        self.push_plain_front(node, text)
    }

    /// Gives an element those attributes of a later tag of its name whose names it lacks, after its own.
    pub fn merge_attrs(&mut self, element: NodeId, attrs: Attrs) -> Result<(), ArenaError>
        requires node_in { element < length self.old.labels }
        requires is_element { IsElement (label_of self.old element) }
        ensures within { OnOk result (budget self.old 0 (capped (attrs_weight (lacking (attrs_in (label_of self.old element)) attrs))) ≡ Ok tt) }
        ensures merged { OnOk result (self.new ≡ with_merged self.old element attrs) }
        ensures relabelled { OnOk result (IsRelabelled self.old self.new element (with_attrs (label_of self.old element) (merged (attrs_in (label_of self.old element)) attrs))) }
        ensures refused { OnErr result (self.new ≡ self.old) }
        ensures cause { IfErr result (λ e. RefusedBy (budget self.old 0 (capped (attrs_weight (lacking (attrs_in (label_of self.old element)) attrs)))) e) }
    {
        self.merge_later(element, attrs)
    }

    fn push_text(&mut self, node: NodeId, c: char) -> Result<(), ArenaError>
        requires node_in { node < length self.old.labels }
        requires is_text { IsText (label_of self.old node) }
        ensures within { OnOk result (budget self.old 0 1 ≡ Ok tt) }
        ensures added { OnOk result (self.new ≡ texted self.old node c) }
        ensures refused { OnErr result (self.new ≡ self.old) }
        ensures cause { IfErr result (λ e. RefusedBy (budget self.old 0 1) e) }
    {
        self.room_for(0, 1)?;
        push_char(&mut self.nodes, node, c)?;
        self.held = self.held.saturating_add(1);
        self.steps = self.steps.saturating_add(1);
        Ok(())
    }

    /// How many of so many more code points, one after another, are within the limits.
    fn room_for_run(&self, wanted: usize) -> Result<usize, ArenaError>
        ensures most { IfOk result (λ n. n ≤ wanted) }
        ensures within { IfOk result (λ n. 0 < n → budget self.now 0 n ≡ Ok tt) }
        ensures longest { IfOk result (λ n. n < wanted → budget self.now 0 (n + 1) ≡ Err ArenaError.HeldBudget) }
        ensures some { OnErr result (0 < wanted) }
        ensures nodes { IfErr result (λ e. e ≡ ArenaError.NodeBudget) }
        ensures cause { OnErr result (budget self.now 0 1 ≡ Err ArenaError.NodeBudget) }
    {
        match self.limits {
            None => Ok(wanted),
            Some(limits) => {
                if wanted == 0 {
                    Ok(0)
                } else if self.nodes.len() as u128 > limits.nodes as u128 {
                    Err(ArenaError::NodeBudget)
                } else {
                    let room = (limits.held as u128).saturating_sub(self.held);
                    if room < wanted as u128 {
                        Ok(room as usize)
                    } else {
                        Ok(wanted)
                    }
                }
            }
        }
    }

    fn push_front(&mut self, node: NodeId, run: &[char]) -> Result<usize, ArenaError>
        requires node_in { node < length self.old.labels }
        requires is_text { IsText (label_of self.old node) }
        ensures front { IfOk result (λ n. n ≤ length run.now) }
        ensures within { IfOk result (λ n. 0 < n → budget self.old 0 n ≡ Ok tt) }
        ensures longest { IfOk result (λ n. n < length run.now → budget self.old 0 (n + 1) ≡ Err ArenaError.HeldBudget) }
        ensures added { IfOk result (λ n. self.new ≡ texted_run self.old node (take n run.now)) }
        ensures refused { OnErr result (self.new ≡ self.old) }
        ensures some { OnErr result (0 < length run.now) }
        ensures cause { IfErr result (λ e. RefusedBy (budget self.old 0 1) e) }
        ensures not_held { IfErr result (λ e. e ≢ ArenaError.HeldBudget) }
    {
        self.counts();
        let taken = self.room_for_run(run.len())?;
        if taken > 0 {
            self.push_whole(node, &run[..taken])?;
        }
        Ok(taken)
    }

    /// Adds a run to a text, for which the limits have room.
    fn push_whole(&mut self, node: NodeId, run: &[char]) -> Result<(), ArenaError>
        requires node_in { node < length self.old.labels }
        requires is_text { IsText (label_of self.old node) }
        requires room { budget self.old 0 (length run.now) ≡ Ok tt }
        ensures added { OnOk result (self.new ≡ texted_run self.old node run.now) }
        ensures refused { OnErr result (self.new ≡ self.old) }
        ensures cause { IfErr result (λ e. e ≡ ArenaError.OutOfMemory) }
    {
        push_run(&mut self.nodes, node, run)?;
        self.held = self.held.saturating_add(run.len() as u128);
        self.steps = self.steps.saturating_add(run.len() as u128);
        Ok(())
    }

    fn push_plain_front(&mut self, node: NodeId, text: &PlainText<'_>) -> Result<usize, ArenaError>
        requires node_in { node < length self.old.labels }
        requires is_text { IsText (label_of self.old node) }
        ensures front { IfOk result (λ n. n ≤ length text.now) }
        ensures within { IfOk result (λ n. 0 < n → budget self.old 0 n ≡ Ok tt) }
        ensures longest { IfOk result (λ n. n < length text.now → budget self.old 0 (n + 1) ≡ Err ArenaError.HeldBudget) }
        ensures added { IfOk result (λ n. self.new ≡ texted_run self.old node (take n text.now)) }
        ensures refused { OnErr result (self.new ≡ self.old) }
        ensures some { OnErr result (0 < length text.now) }
        ensures cause { IfErr result (λ e. RefusedBy (budget self.old 0 1) e) }
        ensures not_held { IfErr result (λ e. e ≢ ArenaError.HeldBudget) }
    {
        self.counts();
        let taken = self.room_for_run(text.len())?;
        if taken > 0 {
            self.push_plain(node, &text.front(taken))?;
        }
        Ok(taken)
    }

    /// Adds a plain text to a text, for which the limits have room.
    fn push_plain(&mut self, node: NodeId, text: &PlainText<'_>) -> Result<(), ArenaError>
        requires node_in { node < length self.old.labels }
        requires is_text { IsText (label_of self.old node) }
        requires room { budget self.old 0 (length text.now) ≡ Ok tt }
        ensures added { OnOk result (self.new ≡ texted_run self.old node text.now) }
        ensures refused { OnErr result (self.new ≡ self.old) }
        ensures cause { IfErr result (λ e. e ≡ ArenaError.OutOfMemory) }
    {
        push_plain(&mut self.nodes, node, text)?;
        let count = text.len() as u128;
        self.held = self.held.saturating_add(count);
        self.steps = self.steps.saturating_add(count);
        Ok(())
    }

    fn merge_later(&mut self, element: NodeId, attrs: Attrs) -> Result<(), ArenaError>
        requires node_in { element < length self.old.labels }
        requires is_element { IsElement (label_of self.old element) }
        ensures within { OnOk result (budget self.old 0 (capped (attrs_weight (lacking (attrs_in (label_of self.old element)) attrs))) ≡ Ok tt) }
        ensures merged { OnOk result (self.new ≡ with_merged self.old element attrs) }
        ensures refused { OnErr result (self.new ≡ self.old) }
        ensures cause { IfErr result (λ e. RefusedBy (budget self.old 0 (capped (attrs_weight (lacking (attrs_in (label_of self.old element)) attrs)))) e) }
    {
        let held = lacking_held(label_at(&self.nodes, element).attrs(), attrs.as_slice());
        self.room_for(0, held)?;
        let own = label_at(&self.nodes, element).attrs();
        let compared = own.len() as u128 * attrs.len() as u128;
        let all = merge(*self.links.allocator(), own, attrs.as_slice())?;
        set_attrs(&mut self.nodes, element, all);
        self.held = self.held.saturating_add(held);
        self.steps = self.steps.saturating_add(compared);
        Ok(())
    }
}
