// The element pointers (13.2.4.4), the body that a frameset takes the place of, and how many elements and nodes there were when the rules for a
// token began.
ghost use Rattle.std.specs.Prelude.{◌≡◌, ◌≢◌, ◌+◌, ◌<◌, ◌≤◌, ◌∷◌, [], IfSome, None, OnOk, false, length, slice_index, true, ◌||◌, Some, is_some, IfErr};
ghost use Rattle.html_names.specs.declared.tag.Tag.TheVariants as tag;
ghost use Rattle.html_arena.specs.Tree.{more, named, tag_at};
ghost use Rattle.html_ledger.specs.Symbols.{symbol_of};
ghost use Rattle.html_ledger.specs.declared.symbol.Symbol.TheVariants.{Start};
ghost use Rattle.html_construction.specs.Budgets.{Refuses, RefusesAny};
ghost use Rattle.html_construction.specs.Built.{Begins, Keeps, Takes};
ghost use Rattle.html_construction.specs.Grown.{Grown};
ghost use Rattle.html_construction.specs.Works.{Works};
ghost use Rattle.html_construction.specs.Weights.{weight};
ghost use Rattle.html_ledger.specs.declared.fate.Fate.TheVariants.{Made};
ghost use Rattle.html_ledger.specs.Entries.{number_of};
ghost use Rattle.html_open.specs.AdoptFinding.{element_in_scope};
ghost use Rattle.html_tree.specs.Closing.{bodiless};
ghost use Rattle.html_tree.specs.declared.groups.Target.TheVariants.{Current, First};
ghost use Rattle.html_construction.specs.Calls.{HasFate, IsTree, counting, element_of, form_closed, implied_of, is_idle, is_unmoved, opened_at, placed_at, void_of};
ghost use Rattle.html_construction.specs.Plans.{Asks, Does, DoesAny};
ghost use Rattle.html_construction.specs.Words.{BeginOwnPart, CanReplaceBody, CloseForm, HasBody, ImplyHead, InsertClosedForm, InsertForm, InsertHead, ReplaceBody, has_body};

use super::Construction;
use crate::mode::Mode;
use crate::registers::Call;
use crate::token::{copy_attrs, copy_name};
use html_arena::{ArenaError, NodeId};
use html_ledger::Symbol;
use html_names::Tag;
use html_tokens::TokenKind;
use html_tree::Target;

impl Construction {
    /// Makes the head of its start tag, opens it and points to it.
    #[tactic(auto, using(crate::proofs::Doing::doing_rules))]
    pub fn insert_head(&mut self, token: &TokenKind) -> Result<(), ArenaError>
        requires symbol { symbol_of token.now ≡ Start tag.Head }
        requires opened { 0 < length self.old.stack }
        requires quiet { self.old.ledger.kept ≡ [] }
        ensures rest { OnOk result (self.new ≡ record self.old { tree = self.new.tree; ledger = self.new.ledger; stack = tag.Head ∷ self.old.stack }) }
        ensures takes { OnOk result (Takes token.now self.old self.new) }
        ensures quiet { OnOk result (self.new.ledger.kept ≡ []) }
        ensures grown { OnOk result (Grown 1 2 0 0 0 self.old self.new) }
        ensures works { OnOk result (Works 1 0 0 self.old self.new) }
        ensures exact { OnOk result (IsTree (record (opened_at (element_of self.old token.now) (Current self.old.fostering) (counting (number_of self.old.ledger + 1) self.old.tree)) { head = Some (length self.old.tree.tree.labels) }) self.new) }
        ensures fate { OnOk result (HasFate (Start tag.Head) (Made (length self.old.tree.tree.labels)) self.old self.new) }
        ensures refuses { IfErr result (λ e. Refuses token.now e self.old self.new) }
        ensures follows { OnOk result (Does InsertHead token.now self.old self.new) }
    {
        let target = self.here();
        let head = self.open_at(token, Tag::Head, target)?;
        self.set_head(head);
        Ok(())
    }

    /// Makes a head that no token asked for, opens it and points to it. No token gets a fate.
    #[tactic(auto, using(crate::proofs::Doing::doing_rules))]
    pub fn insert_implied_head(&mut self) -> Result<(), ArenaError>
        requires opened { 0 < length self.old.stack }
        ensures rest { OnOk result (self.new ≡ record self.old { tree = self.new.tree; stack = tag.Head ∷ self.old.stack }) }
        ensures keeps { OnOk result (Keeps self.old self.new) }
        ensures grown { OnOk result (Grown 0 2 0 0 1 self.old self.new) }
        ensures works { OnOk result (Works 1 0 0 self.old self.new) }
        ensures refuses { IfErr result (λ e. RefusesAny e self.old self.new) }
        ensures exact { OnOk result (IsTree (record (opened_at (implied_of tag.Head) (Current self.old.fostering) self.old.tree) { head = Some (length self.old.tree.tree.labels) }) self.new) }
        ensures follows { OnOk result (DoesAny ImplyHead self.old self.new) }
    {
        let head = self.open_implied(Tag::Head)?;
        self.set_head(head);
        Ok(())
    }

    /// Points to the head, an element of that name.
    fn set_head(&mut self, head: NodeId)
        requires node { head < length self.old.tree.tree.labels }
        requires tag { tag_at self.old.tree.tree head ≡ tag.Head }
        ensures exact { IsTree (record self.old.tree { head = Some head }) self.new }
        ensures rest { self.new ≡ record self.old { tree = self.new.tree } }
        ensures keeps { Keeps self.old self.new }
        ensures grown { Grown 0 0 0 0 0 self.old self.new }
        ensures works { Works 0 0 0 self.old self.new }
    {
        self.tree.set_head(head);
    }

    /// Points to a form.
    fn set_form(&mut self, form: NodeId)
        requires node { form < length self.old.tree.tree.labels }
        requires tag { tag_at self.old.tree.tree form ≡ tag.Form }
        ensures exact { IsTree (record self.old.tree { form = Some form }) self.new }
        ensures rest { self.new ≡ record self.old { tree = self.new.tree } }
        ensures keeps { Keeps self.old self.new }
        ensures grown { Grown 0 0 0 0 0 self.old self.new }
        ensures works { Works 0 0 0 self.old self.new }
    {
        self.tree.set_form(Some(form));
    }

    /// Makes the form of its start tag, opens it and points to it.
    #[tactic(auto, using(crate::proofs::Doing::doing_rules))]
    pub fn insert_form(&mut self, token: &TokenKind) -> Result<(), ArenaError>
        requires symbol { symbol_of token.now ≡ Start tag.Form }
        requires opened { 0 < length self.old.stack }
        requires quiet { self.old.ledger.kept ≡ [] }
        ensures rest { OnOk result (self.new ≡ record self.old { tree = self.new.tree; ledger = self.new.ledger; stack = tag.Form ∷ self.old.stack }) }
        ensures takes { OnOk result (Takes token.now self.old self.new) }
        ensures quiet { OnOk result (self.new.ledger.kept ≡ []) }
        ensures grown { OnOk result (Grown 1 2 0 0 0 self.old self.new) }
        ensures works { OnOk result (Works 1 0 0 self.old self.new) }
        ensures refuses { IfErr result (λ e. Refuses token.now e self.old self.new) }
        ensures exact { OnOk result (IsTree (record (opened_at (element_of self.old token.now) (Current self.old.fostering) (counting (number_of self.old.ledger + 1) self.old.tree)) { form = Some (length self.old.tree.tree.labels) }) self.new) }
        ensures fate { OnOk result (HasFate (Start tag.Form) (Made (length self.old.tree.tree.labels)) self.old self.new) }
        ensures follows { OnOk result (Does InsertForm token.now self.old self.new) }
    {
        let target = self.here();
        let form = self.open_at(token, Tag::Form, target)?;
        self.set_form(form);
        Ok(())
    }

    /// Makes the form of its start tag and points to it; it is not opened.
    #[tactic(auto, using(crate::proofs::Doing::doing_rules))]
    pub fn insert_closed_form(&mut self, token: &TokenKind) -> Result<(), ArenaError>
        requires symbol { symbol_of token.now ≡ Start tag.Form }
        requires opened { 0 < length self.old.stack }
        requires quiet { self.old.ledger.kept ≡ [] }
        ensures rest { OnOk result (self.new ≡ record self.old { tree = self.new.tree; ledger = self.new.ledger }) }
        ensures takes { OnOk result (Takes token.now self.old self.new) }
        ensures quiet { OnOk result (self.new.ledger.kept ≡ []) }
        ensures grown { OnOk result (Grown 1 2 0 0 0 self.old self.new) }
        ensures works { OnOk result (Works 1 0 0 self.old self.new) }
        ensures refuses { IfErr result (λ e. Refuses token.now e self.old self.new) }
        ensures exact { OnOk result (IsTree (record (placed_at (void_of self.old tag.Form token.now) (Current self.old.fostering) (counting (number_of self.old.ledger + 1) self.old.tree)) { form = Some (length self.old.tree.tree.labels) }) self.new) }
        ensures fate { OnOk result (HasFate (Start tag.Form) (Made (length self.old.tree.tree.labels)) self.old self.new) }
        ensures follows { OnOk result (Does InsertClosedForm token.now self.old self.new) }
    {
        let target = self.here();
        let form = self.void_at(token, Tag::Form, target)?;
        self.set_form(form);
        Ok(())
    }

    /// Whether the form element pointer is at a form, of the tree or around the fragment.
    pub fn points_to_form(&self) -> bool
        ensures value { result ≡ (self.now.outer_form || is_some self.now.tree.form) }
    {
        self.registers.outer_form || self.tree.form().is_some()
    }

    /// Points to no form any more, and closes the one to which the pointer was, where it is in scope (13.2.6.4.7, an end tag "form").
    #[tactic(auto, using(crate::proofs::Doing::doing_rules))]
    pub fn close_form(&mut self)
        requires opened { 0 < length self.old.stack }
        ensures rest { self.new ≡ record self.old { tree = self.new.tree; stack = self.new.stack; outer_form = false } }
        ensures keeps { Keeps self.old self.new }
        ensures grown { Grown 0 0 0 0 0 self.old self.new }
        ensures works { Works 3 0 0 self.old self.new }
        ensures lighter { weight self.new.stack ≤ weight self.old.stack }
        ensures opened { 0 < length self.new.stack }
        ensures exact { IsTree (form_closed self.old.tree self.old.tree.form) self.new }
        ensures follows { DoesAny CloseForm self.old self.new }
    {
        if let Some(form) = self.take_form() {
            if self.is_in_scope(form) {
                self.implied(None);
                self.remove_open(form);
            }
        }
    }

    /// Points to no form any more, and answers the one of the tree to which the pointer was.
    fn take_form(&mut self) -> Option<NodeId>
        ensures rest { self.new ≡ record self.old { tree = self.new.tree; outer_form = false } }
        ensures keeps { Keeps self.old self.new }
        ensures grown { Grown 0 0 0 0 0 self.old self.new }
        ensures works { Works 0 0 0 self.old self.new }
        ensures node { IfSome result (λ x. (x < length self.new.tree.tree.labels) × (tag_at self.new.tree.tree x ≡ tag.Form)) }
        ensures taken { result ≡ self.old.tree.form }
        ensures exact { IsTree (record self.old.tree { form = None }) self.new }
    {
        self.tree.laws();
        let form = self.tree.form();
        self.tree.set_form(None);
        self.registers.outer_form = false;
        form
    }

    /// Whether an element itself is in the default scope.
    fn is_in_scope(&mut self, node: NodeId) -> bool
        ensures rest { self.new ≡ record self.old { tree = self.new.tree } }
        ensures keeps { Keeps self.old self.new }
        ensures grown { Grown 0 0 0 0 0 self.old self.new }
        ensures works { Works 1 0 0 self.old self.new }
        ensures same { IsTree self.old.tree self.new }
        ensures answer { result ≡ element_in_scope self.old.tree.tree node self.old.tree.stack }
    {
        self.tree.laws();
        self.tree.is_in_scope(node)
    }

    /// Whether the second open element is a body.
    #[tactic(auto, using(crate::proofs::Doing::doing_rules, crate::proofs::Doing::body_rules))]
    pub fn has_body(&mut self) -> bool
        ensures rest { self.new ≡ record self.old { tree = self.new.tree } }
        ensures keeps { Keeps self.old self.new }
        ensures grown { Grown 0 0 0 0 0 self.old self.new }
        ensures works { Works 0 0 1 self.old self.new }
        ensures second { result ≡ true → 1 < length self.new.stack }
        ensures element { result ≡ true → 1 < length self.new.tree.stack }
        ensures body { result ≡ true → named self.new.tree.tree tag.Body (slice_index self.new.tree.stack 1) ≡ true }
        ensures other { result ≡ false → 1 < length self.old.stack → named self.new.tree.tree tag.Body (slice_index self.new.tree.stack 1) ≡ false }
        ensures detached { self.new.tree.detached ≡ self.old.tree.detached }
        ensures same { IsTree self.old.tree self.new }
        ensures value { result ≡ has_body self.old.tree }
        ensures follows { Asks HasBody result self.old self.new }
    {
        self.depth() > 1 && self.tag_at(1).is(Tag::Body)
    }

    /// Whether a frameset may take the place of the body: the second open element is one, and no body was replaced before.
    #[tactic(auto, using(crate::proofs::Doing::doing_rules, crate::proofs::Doing::body_rules))]
    pub fn can_replace_body(&mut self) -> bool
        ensures rest { self.new ≡ record self.old { tree = self.new.tree } }
        ensures keeps { Keeps self.old self.new }
        ensures grown { Grown 0 0 0 0 0 self.old self.new }
        ensures works { Works 0 0 1 self.old self.new }
        ensures second { result ≡ true → 1 < length self.new.tree.stack }
        ensures body { result ≡ true → named self.new.tree.tree tag.Body (slice_index self.new.tree.stack 1) ≡ true }
        ensures once { result ≡ true → self.new.tree.detached ≡ None }
        ensures other { result ≡ false → self.old.tree.detached ≡ None → 1 < length self.old.stack
            → named self.new.tree.tree tag.Body (slice_index self.new.tree.stack 1) ≡ false }
        ensures same { IsTree self.old.tree self.new }
        ensures follows { Asks CanReplaceBody result self.old self.new }
    {
        !self.has_detached_body() && self.has_body()
    }

    /// Makes the frameset element of a start tag in place of the body, which is the second open element: takes that out of the tree, closes all
    /// elements but the first, puts the frameset into this, and opens it. Its fate is Made, of that node.
    #[tactic(auto, using(crate::proofs::Doing::doing_rules))]
    pub fn replace_body(&mut self, token: &TokenKind) -> Result<(), ArenaError>
        requires symbol { symbol_of token.now ≡ Start tag.Frameset }
        requires second { 1 < length self.old.tree.stack }
        requires body { named self.old.tree.tree tag.Body (slice_index self.old.tree.stack 1) ≡ true }
        requires once { self.old.tree.detached ≡ None }
        requires quiet { self.old.ledger.kept ≡ [] }
        ensures rest { OnOk result (self.new ≡ record self.old { tree = self.new.tree; ledger = self.new.ledger; stack = tag.Frameset ∷ tag.Html ∷ [] }) }
        ensures takes { OnOk result (Takes token.now self.old self.new) }
        ensures quiet { OnOk result (self.new.ledger.kept ≡ []) }
        ensures grown { OnOk result (Grown 1 2 0 0 0 self.old self.new) }
        ensures works { OnOk result (Works 1 0 0 self.old self.new) }
        ensures fate { OnOk result (HasFate (Start tag.Frameset) (Made (length self.old.tree.tree.labels)) self.old self.new) }
        ensures refuses { IfErr result (λ e. Refuses token.now e self.old self.new) }
        ensures exact { OnOk result (IsTree (opened_at (element_of self.old token.now) First (counting (number_of self.old.ledger + 1) (bodiless self.old.tree))) self.new) }
        ensures follows { OnOk result (Does ReplaceBody token.now self.old self.new) }
    {
        let name = copy_name(self.alloc(), token)?;
        let attrs = copy_attrs(self.alloc(), token)?;
        let number = self.give_made(Symbol::Start(Tag::Frameset))?;
        self.tree.laws();
        self.tree.replace_body(name, attrs, number)?;
        Ok(())
    }

    /// Whether a frameset took the place of the body before.
    fn has_detached_body(&self) -> bool
        ensures none { result ≡ false → self.now.tree.detached ≡ None }
        ensures some { result ≡ true → self.now.tree.detached ≢ None }
    {
        self.tree.detached_body().is_some()
    }

    /// Begins the rules for a token: nothing of the tree or of the ledger changes.
    pub fn begin_call(&mut self)
        ensures rest { self.new ≡ record self.old { began = self.old.mode; depth = length self.old.stack; nodes = length self.old.tree.tree.labels } }
        ensures begins { Begins self.old self.new }
    {
        self.registers.call = Call {
            began: self.registers.mode,
            depth: self.depth(),
            nodes: self.tree.node_count(),
        };
    }

    /// Begins the rules for a token's own part, after the kept text of a table was settled.
    #[tactic(auto, using(crate::proofs::Doing::own_part))]
    pub fn begin_own_part(&mut self)
        ensures rest { self.new ≡ record self.old { depth = length self.old.stack; nodes = length self.old.tree.tree.labels } }
        ensures keeps { Keeps self.old self.new }
        ensures follows { DoesAny BeginOwnPart self.old self.new }
    {
        self.registers.call = Call {
            began: self.registers.call.began,
            depth: self.depth(),
            nodes: self.tree.node_count(),
        };
    }

    /// The mode in which the rules for the token in hand began.
    pub fn began(&self) -> Mode
        ensures { result ≡ self.now.began }
    {
        self.registers.call.began
    }

    /// Whether the rules for the token in hand took nothing off the stack of open elements and made no node so far. (What makes the stack
    /// longer makes a node.)
    pub(super) fn is_idle(&self) -> bool
        ensures value { result ≡ is_idle self.now }
        ensures unmoved { result ≡ is_unmoved self.now }
    {
        self.depth() == self.registers.call.depth
            && self.tree.node_count() == self.registers.call.nodes
    }

    /// Counts entries of a token into the rules of a mode.
    pub fn count_steps(&mut self, count: usize)
        ensures rest { self.new ≡ record self.old { tree = self.new.tree } }
        ensures keeps { Keeps self.old self.new }
        ensures grown { Grown 0 0 0 0 0 self.old self.new }
        ensures works { Works 0 0 count self.old self.new }
        ensures counted { self.new.tree.steps ≡ more self.old.tree.steps count }
        ensures same { IsTree self.old.tree self.new }
    {
        self.tree.charge(count as u128);
    }
}
