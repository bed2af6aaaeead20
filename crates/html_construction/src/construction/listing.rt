// The list of active formatting elements (13.2.4.3). No call gives a token its fate.
ghost use Rattle.std.specs.Prelude.{◌≡◌, ℕ, ◌*◌, ◌<◌, ◌≤◌, IfSome, None, OnOk, length, true, ◌++◌, ◌∷◌, [], IfOk, IfErr};
ghost use Rattle.html_names.specs.Sets.{is_formatting};
ghost use Rattle.html_arena.specs.Tree.{more, tag_at};
ghost use Rattle.html_construction.specs.Budgets.{RefusesAny};
ghost use Rattle.html_construction.specs.Built.{Keeps};
ghost use Rattle.html_construction.specs.Grown.{Grown};
ghost use Rattle.html_construction.specs.Works.{Works};
ghost use Rattle.html_construction.specs.Weights.{weight};
ghost use Rattle.html_open.specs.declared.entry.Entry.TheVariants.{Marker};
ghost use Rattle.html_open.specs.Entries.{is_marker, last_named, without_node};
ghost use Rattle.html_open.specs.Lists.{below};
ghost use Rattle.html_tree.specs.Listing.{IsAdopted, IsReopened};
ghost use Rattle.html_open.specs.Reopening.{look_steps};
ghost use Rattle.html_tree.specs.OpenTags.{open_tags};
ghost use Rattle.html_tree.specs.Steps.{CountsReopening};
ghost use Rattle.html_construction.specs.Calls.{HasEnded, IsLinkClosed, IsTree};
ghost use Rattle.html_construction.specs.Foreign.{foreign_tag};
ghost use Rattle.html_construction.specs.Plans.{Adopt, CloseLink, DoesAny, Passes, Reconstruct};
ghost use Rattle.html_construction.specs.Words.{AddMarker, ClearToMarker};

use super::Construction;
use html_arena::{ArenaError, NodeId};
use html_names::Tag;
use html_tree::AdoptEnd;

impl Construction {
    /// Adds a marker to the list.
    #[tactic(auto, using(crate::proofs::Doing::doing_rules))]
    pub fn add_marker(&mut self) -> Result<(), ArenaError>
        ensures rest { OnOk result (self.new ≡ record self.old { tree = self.new.tree }) }
        ensures keeps { OnOk result (Keeps self.old self.new) }
        ensures grown { OnOk result (Grown 0 0 1 0 0 self.old self.new) }
        ensures works { OnOk result (Works 0 0 1 self.old self.new) }
        ensures exact { OnOk result (IsTree (record self.old.tree { list = self.old.tree.list ++ Marker ∷ [] }) self.new) }
        ensures memory { IfErr result (λ e. e ≡ ArenaError.OutOfMemory) }
        ensures refuses { IfErr result (λ e. RefusesAny e self.old self.new) }
        ensures follows { OnOk result (DoesAny AddMarker self.old self.new) }
    {
        self.tree.add_marker()?;
        Ok(())
    }

    /// Takes entries off the list up to the last marker.
    #[tactic(auto, using(crate::proofs::Doing::doing_rules))]
    pub fn clear_to_marker(&mut self)
        requires listed { length self.old.tree.list ≤ length self.old.ledger.fates }
        ensures rest { self.new ≡ record self.old { tree = self.new.tree } }
        ensures keeps { Keeps self.old self.new }
        ensures grown { Grown 0 0 0 0 0 self.old self.new }
        ensures works { Works 1 0 0 self.old self.new }
        ensures exact { IsTree (record self.old.tree { list = below is_marker self.old.tree.list }) self.new }
        ensures follows { DoesAny ClearToMarker self.old self.new }
    {
        self.tree.clear_to_marker();
    }

    /// Reconstructs the active formatting elements: opens anew the listed elements that are not open.
    #[tactic(auto, using(crate::proofs::Doing::doing_rules))]
    pub fn reconstruct(&mut self) -> Result<(), ArenaError>
        requires opened { 0 < length self.old.stack }
        requires listed { length self.old.tree.list ≤ length self.old.ledger.fates }
        ensures rest { OnOk result (self.new ≡ record self.old { tree = self.new.tree; stack = self.new.stack }) }
        ensures pointers { OnOk result (self.new.tree ≡ record self.old.tree { stack = self.new.tree.stack; list = self.new.tree.list; tree = self.new.tree.tree; steps = self.new.tree.steps }) }
        ensures keeps { OnOk result (Keeps self.old self.new) }
        ensures grown { OnOk result (Grown 0 (length self.old.ledger.fates) 0 1 0 self.old self.new) }
        ensures works { OnOk result (Works 0 1 0 self.old self.new) }
        ensures lighter { OnOk result (weight self.new.stack ≤ weight self.old.stack) }
        ensures opened { OnOk result (0 < length self.new.stack) }
        ensures tags { OnOk result (self.new.stack ≡ open_tags self.new.tree) }
        ensures home { OnOk result (foreign_tag self.old ≡ None → foreign_tag self.new ≡ None) }
        ensures exact { OnOk result (IsReopened self.old.fostering self.old.tree self.new.tree) }
        ensures counted { OnOk result (CountsReopening self.old.fostering self.old.tree self.new.tree) }
        ensures refuses { IfErr result (λ e. RefusesAny e self.old self.new) }
        ensures follows { OnOk result (Passes (λ p. Reconstruct p) self.old self.new) }
    {
        self.tree.laws();
        self.tree.reopen(self.registers.fostering)?;
        Ok(())
    }

    /// Counts, so many times, the look at the list by which a reconstruction finds that there is nothing to open anew.
    pub fn look_again(&mut self, times: usize)
        ensures rest { self.new ≡ record self.old { tree = self.new.tree } }
        ensures keeps { Keeps self.old self.new }
        ensures grown { Grown 0 0 0 0 0 self.old self.new }
        ensures works { Works 0 0 (2 * times) self.old self.new }
        ensures counted { self.new.tree.steps ≡ more self.old.tree.steps (times * look_steps self.old.tree.list) }
        ensures same { IsTree self.old.tree self.new }
    {
        self.tree.look_again(times);
    }

    /// The end tag of a formatting element: the adoption agency, and where it says so the rules for any other end tag.
    #[tactic(auto, using(crate::proofs::Doing::doing_rules))]
    pub fn end_formatting(&mut self, tag: Tag) -> Result<(), ArenaError>
        requires opened { 0 < length self.old.stack }
        requires formatting { is_formatting tag ≡ true }
        requires listed { length self.old.tree.list ≤ length self.old.ledger.fates }
        ensures rest { OnOk result (self.new ≡ record self.old { tree = self.new.tree; stack = self.new.stack }) }
        ensures pointers { OnOk result (self.new.tree ≡ record self.old.tree { stack = self.new.tree.stack; list = self.new.tree.list; tree = self.new.tree.tree; steps = self.new.tree.steps }) }
        ensures keeps { OnOk result (Keeps self.old self.new) }
        ensures grown { OnOk result (Grown 0 32 0 8 0 self.old self.new) }
        ensures works { OnOk result (Works 2 8 0 self.old self.new) }
        ensures lighter { OnOk result (weight self.new.stack ≤ weight self.old.stack) }
        ensures opened { OnOk result (0 < length self.new.stack) }
        ensures tags { OnOk result (self.new.stack ≡ open_tags self.new.tree) }
        ensures tags_stay { OnOk result ((x : ℕ) → x < length self.old.tree.tree.labels → tag_at self.new.tree.tree x ≡ tag_at self.old.tree.tree x) }
        ensures exact { OnOk result (HasEnded tag self.old.fostering self.old.tree self.new.tree) }
        ensures refuses { IfErr result (λ e. RefusesAny e self.old self.new) }
        ensures follows { OnOk result (Passes (λ p. Adopt tag p) self.old self.new) }
    {
        match self.adopt(tag)? {
            AdoptEnd::Done => {}
            AdoptEnd::OtherEndTag => self.close_named(tag.name()),
        }
        Ok(())
    }

    /// Runs the adoption agency algorithm for a formatting name.
    fn adopt(&mut self, tag: Tag) -> Result<AdoptEnd, ArenaError>
        requires opened { 0 < length self.old.stack }
        requires formatting { is_formatting tag ≡ true }
        requires listed { length self.old.tree.list ≤ length self.old.ledger.fates }
        ensures rest { OnOk result (self.new ≡ record self.old { tree = self.new.tree; stack = self.new.stack }) }
        ensures pointers { OnOk result (self.new.tree ≡ record self.old.tree { stack = self.new.tree.stack; list = self.new.tree.list; tree = self.new.tree.tree; steps = self.new.tree.steps }) }
        ensures keeps { OnOk result (Keeps self.old self.new) }
        ensures grown { OnOk result (Grown 0 32 0 8 0 self.old self.new) }
        ensures works { OnOk result (Works 0 8 0 self.old self.new) }
        ensures lighter { OnOk result (weight self.new.stack ≤ weight self.old.stack) }
        ensures opened { OnOk result (0 < length self.new.stack) }
        ensures tags { OnOk result (self.new.stack ≡ open_tags self.new.tree) }
        ensures tags_stay { OnOk result ((x : ℕ) → x < length self.old.tree.tree.labels → tag_at self.new.tree.tree x ≡ tag_at self.old.tree.tree x) }
        ensures exact { IfOk result (λ end. IsAdopted tag self.old.fostering end self.old.tree self.new.tree) }
        ensures refuses { IfErr result (λ e. RefusesAny e self.old self.new) }
    {
        self.tree.laws();
        let end = self.tree.adopt(tag, self.registers.fostering)?;
        Ok(end)
    }

    /// Closes a link that is listed after the last marker, and takes it out of the list and off the stack where it is still there.
    #[tactic(auto, using(crate::proofs::Doing::doing_rules, crate::proofs::Doing::link_rules))]
    pub fn close_link(&mut self) -> Result<(), ArenaError>
        requires opened { 0 < length self.old.stack }
        requires listed { length self.old.tree.list ≤ length self.old.ledger.fates }
        ensures rest { OnOk result (self.new ≡ record self.old { tree = self.new.tree; stack = self.new.stack }) }
        ensures pointers { OnOk result (self.new.tree ≡ record self.old.tree { stack = self.new.tree.stack; list = self.new.tree.list; tree = self.new.tree.tree; steps = self.new.tree.steps }) }
        ensures keeps { OnOk result (Keeps self.old self.new) }
        ensures grown { OnOk result (Grown 0 32 0 8 0 self.old self.new) }
        ensures works { OnOk result (Works 5 8 0 self.old self.new) }
        ensures lighter { OnOk result (weight self.new.stack ≤ weight self.old.stack) }
        ensures opened { OnOk result (0 < length self.new.stack) }
        ensures exact { OnOk result (IsLinkClosed self.old.fostering self.old.tree self.new.tree) }
        ensures follows { OnOk result (Passes (λ p. CloseLink p) self.old self.new) }
        ensures refuses { IfErr result (λ e. RefusesAny e self.old self.new) }
    {
        if let Some(link) = self.last_listed(Tag::A) {
            self.end_formatting(Tag::A)?;
            self.unlist(link);
            self.remove_open(link);
        }
        Ok(())
    }

    /// The last listed element of this name after the last marker.
    fn last_listed(&mut self, tag: Tag) -> Option<NodeId>
        requires listed { length self.old.tree.list ≤ length self.old.ledger.fates }
        ensures rest { self.new ≡ record self.old { tree = self.new.tree } }
        ensures keeps { Keeps self.old self.new }
        ensures grown { Grown 0 0 0 0 0 self.old self.new }
        ensures works { Works 1 0 0 self.old self.new }
        ensures node { IfSome result (λ x. x < length self.new.tree.tree.labels) }
        ensures formatting { IfSome result (λ x. is_formatting (tag_at self.new.tree.tree x) ≡ true) }
        ensures listed { result ≡ last_named self.old.tree.tree tag self.old.tree.list }
        ensures same { IsTree self.old.tree self.new }
    {
        self.tree.laws();
        self.tree.last_listed(tag)
    }

    /// Takes an element out of the list.
    fn unlist(&mut self, node: NodeId)
        requires node { node < length self.old.tree.tree.labels }
        requires listed { length self.old.tree.list ≤ length self.old.ledger.fates }
        ensures rest { self.new ≡ record self.old { tree = self.new.tree } }
        ensures keeps { Keeps self.old self.new }
        ensures grown { Grown 0 0 0 0 0 self.old self.new }
        ensures works { Works 1 0 0 self.old self.new }
        ensures exact { IsTree (record self.old.tree { list = without_node node self.old.tree.list }) self.new }
    {
        self.tree.unlist(node);
    }
}
