// The state of tree construction.
ghost use Rattle.std.specs.Prelude.{◌≡◌, ◌⊎◌, ◌<◌, ◌≤◌, ◌+◌, ℕ, ◌∷◌, [], Bool, IfErr, IfOk, None, OnOk, Option, Some, false, length, true};
ghost use Rattle.html_arena.specs.declared.arena.Limits.{Limits};
ghost use Rattle.html_ledger.specs.declared.setting.Setting.TheVariants.{Document, Fragment};
ghost use Rattle.html_names.specs.declared.tag.Tag.TheVariants as tag;
ghost use Rattle.html_tree.specs.Forests.{IsForest};
ghost use Rattle.html_tree.specs.OpenTags.{open_tags};
ghost use Rattle.html_tree.specs.Seats.{HasSeats};
ghost use Rattle.html_tree.specs.States.{IsNamed, IsSound, document_state, fragment_state};
ghost use Rattle.html_ledger.specs.Entries.{begun};
ghost use Rattle.std.specs.List.{sum_by};
ghost use Rattle.html_arena.specs.Budget.{IsWithin};
ghost use Rattle.html_arena.specs.Tree.{WellFormed};
ghost use Rattle.html_arena.specs.Weight.{capped, weight};
ghost use Rattle.html_open.specs.Marking.{bare};
ghost use Rattle.html_ledger.specs.Errors.{AreErrors};
ghost use Rattle.html_ledger.specs.Fated.{Fated};
ghost use Rattle.html_construction.specs.Beginning.{IsFirst, first_mode, first_templates};
ghost use Rattle.html_construction.specs.Begun.{IsFounded};
ghost use Rattle.html_construction.specs.Built.{Handed, IsBuilt, Keeps, nothing_of, symbols};
ghost use Rattle.html_construction.specs.Copies.{implied_count, most_clones};
ghost use Rattle.html_construction.specs.Grown.{Grown};
ghost use Rattle.html_construction.specs.Works.{Works, reach_of};
ghost use Rattle.html_construction.specs.Modes.{is_of_frames, is_of_selects, is_reset};

use crate::mode::Mode;
use crate::registers::Registers;
use html_arena::{Arena, ArenaError, Limits};
use html_ledger::{Fates, Ledger, Setting};
use html_names::Tag;
use html_tree::OpenTree;
use std::alloc::Global;
use std::marker::Model;

mod closing;
mod fates;
mod foreign;
mod inserting;
mod listing;
mod pointers;
mod resetting;
mod searching;
mod switches;
mod texts;

/// Tree construction under way: the tree, what became of each token, and the registers.
///
/// No node comes from a token that has no fate: a token gets its fate before its node is made.
#[derive(Drop)]
pub struct Construction {
    tree: OpenTree,
    ledger: Ledger,
    registers: Registers,
}

impl Model for Construction {
    ghost use Rattle.html_tree.specs.OpenTags.{open_tags};
    ghost use Rattle.html_construction.specs.States.{State};
    ghost use Rattle.html_construction.specs.UnderWay.{IsUnderWay};

    ghost Value = { State };

    ghost view = { λ b. record {
      tree = b.tree;
      stack = open_tags b.tree;
      ledger = b.ledger;
      mode = b.registers.mode;
      original = b.registers.original;
      templates = b.registers.templates.items;
      context = b.registers.context;
      quirks = b.registers.quirks;
      frameset_ok = b.registers.frameset_ok;
      fostering = b.registers.fostering;
      outer_form = b.registers.outer_form;
      parses_foreign = b.registers.parses_foreign;
      began = b.registers.call.began;
      depth = b.registers.call.depth;
      nodes = b.registers.call.nodes;
    } };

    ghost invariant = { λ b. IsUnderWay b.tree.tokens b.ledger b.registers.templates.items };
}

impl Construction {
    /// Begins a document.
    ///
    /// # Errors
    ///
    /// `OutOfMemory`.
    pub fn document(alloc: Global) -> Result<Construction, ArenaError>
        ensures built { IfOk result (λ b. IsBuilt (nothing_of Document None) b) }
        ensures first { IfOk result (λ b. IsFirst Document None b) }
        ensures mode { IfOk result (λ b. b.mode ≡ Mode.Initial) }
        ensures stack { IfOk result (λ b. b.stack ≡ []) }
        ensures quiet { IfOk result (λ b. b.ledger.kept ≡ []) }
        ensures listed { IfOk result (λ b. b.tree.list ≡ []) }
        ensures nodes { IfOk result (λ b. length b.tree.tree.labels ≡ 1) }
        ensures uncloned { IfOk result (λ b. most_clones b.tree.tree.labels ≡ 0) }
        ensures implied { IfOk result (λ b. implied_count b.tree.tree.labels ≤ 1) }
        ensures counted { IfOk result (λ b. b.tree.steps ≤ 2 + reach_of b) }
        ensures tree { IfOk result (λ b. (l : Option Limits) × (k : ℕ) × (b.tree ≡ document_state l k)) }
        ensures ledger { IfOk result (λ b. b.ledger ≡ begun Document) }
        ensures fostering { IfOk result (λ b. b.fostering ≡ false) }
        ensures context { IfOk result (λ b. b.context ≡ None) }
        ensures refuses { IfOk result (λ b. b.parses_foreign ≡ false) }
        ensures cause { IfErr result (λ e. e ≡ ArenaError.OutOfMemory) }
    {
        let tree = OpenTree::document(alloc)?;
        Ok(Construction::of_document(alloc, tree))
    }

    /// Asks for room for so many more nodes, and for the fates of as many tokens, which take no memory before they are made. A refusal changes nothing.
    pub fn reserve(&mut self, count: usize)
        ensures same { self.new ≡ self.old }
    {
        self.tree.reserve(count);
        self.ledger.reserve(count);
    }

    /// Begins a document whose tree keeps to limits.
    ///
    /// # Errors
    ///
    /// `NodeBudget` where not even the document is within them; `OutOfMemory`.
    pub fn document_within(alloc: Global, limits: Limits) -> Result<Construction, ArenaError>
        ensures built { IfOk result (λ b. IsBuilt (nothing_of Document (Some limits)) b) }
        ensures first { IfOk result (λ b. IsFirst Document (Some limits) b) }
        ensures mode { IfOk result (λ b. b.mode ≡ Mode.Initial) }
        ensures stack { IfOk result (λ b. b.stack ≡ []) }
        ensures quiet { IfOk result (λ b. b.ledger.kept ≡ []) }
        ensures listed { IfOk result (λ b. b.tree.list ≡ []) }
        ensures nodes { IfOk result (λ b. length b.tree.tree.labels ≡ 1) }
        ensures uncloned { IfOk result (λ b. most_clones b.tree.tree.labels ≡ 0) }
        ensures implied { IfOk result (λ b. implied_count b.tree.tree.labels ≤ 1) }
        ensures counted { IfOk result (λ b. b.tree.steps ≤ 2 + reach_of b) }
        ensures tree { IfOk result (λ b. (l : Option Limits) × (k : ℕ) × (b.tree ≡ document_state l k)) }
        ensures ledger { IfOk result (λ b. b.ledger ≡ begun Document) }
        ensures fostering { IfOk result (λ b. b.fostering ≡ false) }
        ensures context { IfOk result (λ b. b.context ≡ None) }
        ensures refuses { IfOk result (λ b. b.parses_foreign ≡ false) }
        ensures cause { IfErr result (λ e. (e ≡ ArenaError.OutOfMemory) ⊎ ((e ≡ ArenaError.NodeBudget) × (limits.nodes < 1))) }
    {
        let tree = OpenTree::document_within(alloc, limits)?;
        Ok(Construction::of_document(alloc, tree))
    }

    /// Begins a fragment in a context of this name, in a form or not, of a document in quirks mode or not (13.4).
    ///
    /// # Errors
    ///
    /// `OutOfMemory`.
    pub fn fragment(
        alloc: Global,
        context: Tag,
        in_form: bool,
        quirks: bool,
    ) -> Result<Construction, ArenaError>
        ensures built { IfOk result (λ b. IsBuilt (nothing_of (Fragment context in_form) None) b) }
        ensures first { IfOk result (λ b. IsFirst (Fragment context in_form) None b) }
        ensures reset { IfOk result (λ b. is_reset b.mode ≡ true) }
        ensures founded { IfOk result (λ b. IsFounded b) }
        ensures stack { IfOk result (λ b. b.stack ≡ tag.Html ∷ []) }
        ensures context { IfOk result (λ b. b.context ≡ Some context) }
        ensures quirks { IfOk result (λ b. b.quirks ≡ quirks) }
        ensures refuses { IfOk result (λ b. b.parses_foreign ≡ false) }
        ensures quiet { IfOk result (λ b. b.ledger.kept ≡ []) }
        ensures listed { IfOk result (λ b. b.tree.list ≡ []) }
        ensures nodes { IfOk result (λ b. length b.tree.tree.labels ≡ 1) }
        ensures uncloned { IfOk result (λ b. most_clones b.tree.tree.labels ≡ 0) }
        ensures implied { IfOk result (λ b. implied_count b.tree.tree.labels ≤ 1) }
        ensures counted { IfOk result (λ b. b.tree.steps ≤ 2 + reach_of b) }
        ensures cause { IfErr result (λ e. e ≡ ArenaError.OutOfMemory) }
    {
        let tree = OpenTree::fragment(alloc)?;
        Construction::of_fragment(alloc, tree, context, in_form, quirks)
    }

    /// Begins a fragment whose tree keeps to limits.
    ///
    /// # Errors
    ///
    /// `NodeBudget` and `HeldBudget` where not even the root is within the limits; `OutOfMemory`.
    pub fn fragment_within(
        alloc: Global,
        context: Tag,
        in_form: bool,
        quirks: bool,
        limits: Limits,
    ) -> Result<Construction, ArenaError>
        ensures built { IfOk result (λ b. IsBuilt (nothing_of (Fragment context in_form) (Some limits)) b) }
        ensures first { IfOk result (λ b. IsFirst (Fragment context in_form) (Some limits) b) }
        ensures reset { IfOk result (λ b. is_reset b.mode ≡ true) }
        ensures founded { IfOk result (λ b. IsFounded b) }
        ensures stack { IfOk result (λ b. b.stack ≡ tag.Html ∷ []) }
        ensures context { IfOk result (λ b. b.context ≡ Some context) }
        ensures quirks { IfOk result (λ b. b.quirks ≡ quirks) }
        ensures refuses { IfOk result (λ b. b.parses_foreign ≡ false) }
        ensures quiet { IfOk result (λ b. b.ledger.kept ≡ []) }
        ensures listed { IfOk result (λ b. b.tree.list ≡ []) }
        ensures nodes { IfOk result (λ b. length b.tree.tree.labels ≡ 1) }
        ensures uncloned { IfOk result (λ b. most_clones b.tree.tree.labels ≡ 0) }
        ensures implied { IfOk result (λ b. implied_count b.tree.tree.labels ≤ 1) }
        ensures counted { IfOk result (λ b. b.tree.steps ≤ 2 + reach_of b) }
        ensures cause { IfErr result (λ e. (e ≡ ArenaError.OutOfMemory) ⊎ (((e ≡ ArenaError.NodeBudget) × (limits.nodes < 1)) ⊎ ((e ≡ ArenaError.HeldBudget) × (limits.held < 4)))) }
    {
        let tree = OpenTree::fragment_within(alloc, limits)?;
        Construction::of_fragment(alloc, tree, context, in_form, quirks)
    }

    /// What is always true of the tree, and of the tags of its open elements: a law.
    pub fn laws(&self)
        ensures sound { IsSound self.now.tree }
        ensures seats { HasSeats self.now.tree.tree self.now.tree.stack }
        ensures tags { self.now.stack ≡ open_tags self.now.tree }
    {
        self.tree.laws();
    }

    /// What is always true of the nodes: a law.
    pub fn forest(&self)
        ensures forest { IsForest self.now.tree.tree }
    {
        self.tree.forest();
    }

    /// How many nodes there are.
    pub fn node_count(&self) -> u64
        ensures value { result ≡ length self.now.tree.tree.labels }
    {
        self.tree.node_count()
    }

    /// The limits to which the tree keeps, where there are any.
    pub fn limits(&self) -> Option<Limits>
        ensures value { result ≡ self.now.tree.tree.limits }
    {
        self.tree.limits()
    }

    /// How many steps were counted so far.
    pub fn steps(&self) -> u128
        ensures value { result ≡ self.now.tree.steps }
    {
        self.tree.steps()
    }

    /// The nodes, the fate of each token, and the rising numbers of the tokens with an error.
    pub fn into_parts(self) -> (Arena, Fates, Vec<u64>)
        ensures nodes { bare result.0 ≡ self.tree.tree }
        ensures well_formed { WellFormed result.0 }
        ensures steps { result.0.steps ≡ self.tree.steps }
        ensures held { result.0.held ≡ capped (sum_by weight result.0.labels) }
        ensures within { IsWithin result.0 }
        ensures body { IsNamed self.tree.tree tag.Body self.tree.detached }
        ensures seats { HasSeats self.tree.tree self.tree.stack }
        ensures fates { result.1 ≡ self.ledger.fates }
        ensures errors { result.2.items ≡ self.ledger.errors }
        ensures fated { (h : Handed) → self.ledger.kept ≡ [] → IsBuilt h self → Fated h.setting (symbols h.tokens) result.1 }
        ensures told { (h : Handed) → self.ledger.kept ≡ [] → IsBuilt h self → AreErrors h.setting (symbols h.tokens) result.1 result.2.items }
    {
        let Construction { tree, ledger, .. } = self;
        tree.laws();
        let (fates, errors) = ledger.into_parts();
        let arena = tree.into_arena();
        arena.forest();
        arena.limited();
        (arena, fates, errors)
    }

    /// A document, before the first token.
    fn of_document(alloc: Global, tree: OpenTree) -> Construction
        requires begun { (l : Option Limits) × (k : ℕ) × (tree ≡ document_state l k) }
        ensures built { (l : Option Limits) (k : ℕ) → tree ≡ document_state l k → IsBuilt (nothing_of Document l) result }
        ensures first { (l : Option Limits) (k : ℕ) → tree ≡ document_state l k → IsFirst Document l result }
        ensures mode { result.mode ≡ Mode.Initial }
        ensures stack { result.stack ≡ [] }
        ensures quiet { result.ledger.kept ≡ [] }
        ensures listed { result.tree.list ≡ [] }
        ensures nodes { length result.tree.tree.labels ≡ 1 }
        ensures uncloned { most_clones result.tree.tree.labels ≡ 0 }
        ensures implied { implied_count result.tree.tree.labels ≤ 1 }
        ensures counted { result.tree.steps ≡ tree.steps }
        ensures tree { result.tree ≡ tree }
        ensures ledger { result.ledger ≡ begun Document }
        ensures fostering { result.fostering ≡ false }
        ensures context { result.context ≡ None }
        ensures refuses { result.parses_foreign ≡ false }
    {
        Construction {
            tree,
            ledger: Ledger::new(alloc, Setting::Document),
            registers: Registers::new(alloc, None, false, false),
        }
    }

    /// A fragment, before the first token, in the mode that its context calls for.
    fn of_fragment(
        alloc: Global,
        tree: OpenTree,
        context: Tag,
        in_form: bool,
        quirks: bool,
    ) -> Result<Construction, ArenaError>
        requires begun { (l : Option Limits) × (k : ℕ) × (tree ≡ fragment_state l k) }
        ensures built { (l : Option Limits) (k : ℕ) → tree ≡ fragment_state l k → IfOk result (λ b. IsBuilt (nothing_of (Fragment context in_form) l) b) }
        ensures first { (l : Option Limits) (k : ℕ) → tree ≡ fragment_state l k → IfOk result (λ b. IsFirst (Fragment context in_form) l b) }
        ensures reset { IfOk result (λ b. is_reset b.mode ≡ true) }
        ensures founded { IfOk result (λ b. IsFounded b) }
        ensures stack { IfOk result (λ b. b.stack ≡ tag.Html ∷ []) }
        ensures context { IfOk result (λ b. b.context ≡ Some context) }
        ensures quirks { IfOk result (λ b. b.quirks ≡ quirks) }
        ensures refuses { IfOk result (λ b. b.parses_foreign ≡ false) }
        ensures quiet { IfOk result (λ b. b.ledger.kept ≡ []) }
        ensures listed { IfOk result (λ b. b.tree.list ≡ []) }
        ensures nodes { IfOk result (λ b. length b.tree.tree.labels ≡ 1) }
        ensures uncloned { IfOk result (λ b. most_clones b.tree.tree.labels ≡ 0) }
        ensures implied { IfOk result (λ b. implied_count b.tree.tree.labels ≤ 1) }
        ensures counted { IfOk result (λ b. b.tree.steps ≤ tree.steps + reach_of b) }
        ensures cause { IfErr result (λ e. e ≡ ArenaError.OutOfMemory) }
    {
        let outer_form = in_form || context.is(Tag::Form);
        let mut construction = Construction {
            tree,
            ledger: Ledger::new(alloc, Setting::Fragment { context, in_form }),
            registers: Registers::new(alloc, Some(context), quirks, outer_form),
        };
        construction.enter_context(context)?;
        Ok(construction)
    }

    /// The mode that a context calls for, before the first token.
    fn enter_context(&mut self, context: Tag) -> Result<(), ArenaError>
        ensures rest { OnOk result (self.new ≡ record self.old { mode = self.new.mode; templates = self.new.templates }) }
        ensures keeps { OnOk result (Keeps self.old self.new) }
        ensures grown { OnOk result (Grown 0 0 0 0 0 self.old self.new) }
        ensures works { OnOk result (Works 1 0 0 self.old self.new) }
        ensures reset { OnOk result (is_reset self.new.mode ≡ true) }
        ensures select { OnOk result (is_of_selects self.new.mode ≡ true → context ≡ tag.Select) }
        ensures frameset { OnOk result (is_of_frames self.new.mode ≡ true → context ≡ tag.Frameset) }
        ensures entered { (in_form : Bool) → self.old.templates ≡ [] → self.old.tree.head ≡ None → OnOk result (self.new.mode ≡ first_mode (Fragment context in_form)) }
        ensures pushed { (in_form : Bool) → self.old.templates ≡ [] → OnOk result (self.new.templates ≡ first_templates (Fragment context in_form)) }
        ensures cause { IfErr result (λ e. e ≡ ArenaError.OutOfMemory) }
    {
        if context.is_template() {
            self.push_template_mode(Mode::InTemplate)?;
            self.set_mode(Mode::InTemplate);
            return Ok(());
        }
        let mode = self.mode_of_outermost(context);
        self.set_mode(mode);
        Ok(())
    }
}
