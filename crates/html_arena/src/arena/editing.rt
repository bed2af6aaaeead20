// What callers edit: other attributes in place of an element's own, and a new text.
ghost use Rattle.std.specs.Prelude.{◌≡◌, ◌<◌, length, OnOk, OnErr, IfOk, IfErr, Ok, slice_set};
ghost use Rattle.std.specs.List.{sum_by};
ghost use Rattle.html_arena.specs.Budget.{RefusedBy, budget, held_budget};
ghost use Rattle.html_arena.specs.Data.{with_attrs};
ghost use Rattle.html_arena.specs.Laws.{IsRelabelled};
ghost use Rattle.html_arena.specs.Tree.{added, label_of, with_replaced};
ghost use Rattle.html_arena.specs.Weight.{capped, held_beside, weight};

use super::{Arena, ArenaError};
use crate::data::{NodeData, all_held, held_of, held_with_attrs, label_at, set_attrs};
use crate::links::NodeId;
use html_text::WideStr;
use html_tokens::{Attr, Attrs};
use std::alloc::Global;

impl Arena {
    /// Where the arena takes its memory.
    pub fn allocator(&self) -> Global {
        *self.links.allocator()
    }

    /// Gives an element these attributes in place of its own. A node that is no element has none, and stays as it is.
    ///
    /// # Errors
    ///
    /// `HeldBudget` where all nodes would then hold more code points than the limits allow. Nothing is changed then.
    pub fn set_attrs(&mut self, element: NodeId, attrs: Attrs) -> Result<(), ArenaError>
        requires { element < length self.old.labels }
        ensures outcome { result ≡ held_budget self.old.limits (with_replaced self.old element attrs).held }
        ensures replaced { OnOk result (self.new ≡ with_replaced self.old element attrs) }
        ensures relabelled { OnOk result (IsRelabelled self.old self.new element (with_attrs (label_of self.old element) attrs)) }
        ensures refused { OnErr result (self.new ≡ self.old) }
    {
        self.replace_attrs(element, attrs)
    }

    /// Makes a text that stands alone, of these code points.
    ///
    /// # Errors
    ///
    /// Those of `make`. Nothing is changed then.
    pub fn make_text_of(&mut self, text: WideStr) -> Result<NodeId, ArenaError>
        ensures id { IfOk result (λ id. id ≡ length self.old.labels) }
        ensures within { OnOk result (budget self.old 1 (capped (weight (NodeData.Text text))) ≡ Ok tt) }
        ensures made { OnOk result (self.new ≡ added self.old (NodeData.Text text) (capped (weight (NodeData.Text text)))) }
        ensures refused { OnErr result (self.new ≡ self.old) }
        ensures cause { IfErr result (λ e. RefusedBy (budget self.old 1 (capped (weight (NodeData.Text text)))) e) }
    {
        self.add(NodeData::Text { text })
    }

    fn replace_attrs(&mut self, element: NodeId, attrs: Attrs) -> Result<(), ArenaError>
        requires { element < length self.old.labels }
        ensures outcome { result ≡ held_budget self.old.limits (with_replaced self.old element attrs).held }
        ensures replaced { OnOk result (self.new ≡ with_replaced self.old element attrs) }
        ensures refused { OnErr result (self.new ≡ self.old) }
    {
        let held = self.held_with(element, attrs.as_slice());
        self.room_to_hold(held)?;
        set_attrs(&mut self.nodes, element, attrs);
        self.held = held;
        self.steps = self.steps.saturating_add(1);
        Ok(())
    }

    /// The code points that all nodes hold where one of them has these attributes.
    fn held_with(&self, node: NodeId, attrs: &[Attr]) -> u128
        requires { node < length self.now.labels }
        ensures { result ≡ capped (sum_by weight (slice_set self.now.labels node (with_attrs (label_of self.now node) attrs.now))) }
    {
        let others = self.others_held(node);
        others.saturating_add(held_with_attrs(label_at(&self.nodes, node), attrs))
    }

    /// The code points that all other nodes hold. They are counted again where the count stands at its greatest number.
    fn others_held(&self, node: NodeId) -> u128
        requires { node < length self.now.labels }
        ensures { result ≡ capped (held_beside self.now.labels node) }
    {
        self.forest();
        if self.held < u128::MAX {
            return self.held - held_of(label_at(&self.nodes, node));
        }
        let before = all_held(&self.nodes[..node.index()]);
        let after = all_held(&self.nodes[node.index() + 1..]);
        before.saturating_add(after)
    }

    /// Whether the nodes may hold so many code points.
    fn room_to_hold(&self, held: u128) -> Result<(), ArenaError>
        ensures { result ≡ held_budget self.now.limits held }
    {
        match self.limits {
            None => Ok(()),
            Some(limits) => {
                if held > limits.held as u128 {
                    Err(ArenaError::HeldBudget)
                } else {
                    Ok(())
                }
            }
        }
    }
}
