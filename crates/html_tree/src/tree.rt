// The tree under construction.
ghost use Rattle.std.specs.Prelude.{◌≡◌, ℕ, ◌+◌, ◌^◌, ◌<◌, ◌≤◌, [], ◌∷◌, IfErr, IfOk, None, OnOk, Option, Some, length, reverse, slice_get, true};
ghost use Rattle.html_names.specs.declared.tag.Tag.TheVariants as tag;
ghost use Rattle.html_names.specs.Names.{name_of};
ghost use Rattle.html_arena.specs.declared.data.NewNode.TheVariants.{Element};
ghost use Rattle.html_arena.specs.declared.data.Origin.TheVariants.{Implied};
ghost use Rattle.html_arena.specs.declared.arena.Limits.{Limits};
ghost use Rattle.html_arena.specs.Budget.{budget};
ghost use Rattle.html_arena.specs.Make.{made};
ghost use Rattle.html_arena.specs.Tree.{empty_tree, more, named};
ghost use Rattle.html_open.specs.Marking.{bare};
ghost use Rattle.html_tree.specs.Inserting.{IsBudget, IsLack, root_budget};
ghost use Rattle.html_tree.specs.Seats.{HasSeats};
ghost use Rattle.html_tree.specs.States.{IsUnderWay};
ghost use Rattle.html_tree.specs.OpenTags.{open_tags};
ghost use Rattle.html_tree.specs.Since.{Grown, Keeps};

use html_arena::{Arena, Limits, NewNode, NodeId, Origin};
use html_names::Tag;
use html_open::{ArenaError, FormattingList, OpenStack, kept_by_edits};
use html_text::Str;
use html_tokens::Attrs;
use std::alloc::Global;
use std::marker::Model;

mod closing;
mod foreign;
mod inserting;
mod listing;
mod merging;
mod searching;
mod text;
mod whole;

/// A tree under construction: its nodes, which of them are open, which are listed, and the element pointers.
#[derive(Drop)]
pub struct OpenTree {
    arena: Arena,
    stack: OpenStack,
    /// The open elements at which a search for a p in button scope ends, without the first, at which it ends in any case.
    p_ends: Vec<NodeId>,
    list: FormattingList,
    /// The number of the first token that no node comes from, nor from a later one.
    tokens: u128,
    head: Option<NodeId>,
    form: Option<NodeId>,
    /// The body that a frameset took the place of.
    detached: Option<NodeId>,
    alloc: Global,
}

impl Model for OpenTree {
    ghost use Rattle.html_tree.specs.States.{State, IsUnderWay, state_of};
    ghost use Rattle.html_tree.specs.Paragraphs.{p_ends_of};
    ghost use Rattle.html_tree.specs.Seats.{HasSeats};
    ghost use Rattle.std.specs.Prelude.{◌≡◌};

    ghost Value = { State };

    ghost view = { λ p. state_of p.stack p.list p.arena p.tokens p.head p.form p.detached };

    ghost invariant = { λ p. IsUnderWay p.stack p.list p.arena p.tokens p.head p.form p.detached × (p.p_ends.items ≡ p_ends_of p.arena p.stack) × HasSeats p.arena p.stack };
}

impl OpenTree {
    ghost use Rattle.html_tree.specs.Seats.{HasSeats};
    ghost use Rattle.html_tree.specs.States.{IsNamed, IsSound, document_state, fragment_state};

    /// A document in which nothing is open.
    ///
    /// # Errors
    ///
    /// `OutOfMemory`.
    pub fn document(alloc: Global) -> Result<OpenTree, ArenaError>
        ensures state { IfOk result (λ p. p ≡ document_state None p.steps) }
        ensures steps { IfOk result (λ p. p.steps ≤ 1) }
        ensures counted { IfOk result (λ p. p.steps ≡ 1) }
        ensures cause { IfErr result (λ e. e ≡ ArenaError.OutOfMemory) }
    {
        OpenTree::over(alloc, Arena::new(alloc))
    }

    /// A document in which nothing is open, and whose tree keeps to limits.
    ///
    /// # Errors
    ///
    /// `NodeBudget` where not even the document is within them; else `OutOfMemory`.
    pub fn document_within(alloc: Global, limits: Limits) -> Result<OpenTree, ArenaError>
        ensures state { IfOk result (λ p. p ≡ document_state (Some limits) p.steps) }
        ensures steps { IfOk result (λ p. p.steps ≤ 1) }
        ensures counted { IfOk result (λ p. p.steps ≡ 1) }
        ensures cause { IfErr result (λ e. IsLack (budget (empty_tree (Some limits)) 1 0) e) }
    {
        OpenTree::over(alloc, Arena::within(alloc, limits))
    }

    /// Asks for room for so many more nodes, which take no memory before they are made. A refusal changes nothing.
    pub fn reserve(&mut self, count: usize)
        ensures same { self.new ≡ self.old }
    {
        self.arena.reserve(count);
    }

    /// A document in an arena without nodes.
    fn over(alloc: Global, arena: Arena) -> Result<OpenTree, ArenaError>
        requires { (l : Option Limits) × (arena ≡ empty_tree l) }
        ensures state { (l : Option Limits) → arena ≡ empty_tree l → IfOk result (λ p. p ≡ document_state l p.steps) }
        ensures steps { (l : Option Limits) → arena ≡ empty_tree l → IfOk result (λ p. p.steps ≤ 1) }
        ensures counted { (l : Option Limits) → arena ≡ empty_tree l → IfOk result (λ p. p.steps ≡ 1) }
        ensures cause { (l : Option Limits) → arena ≡ empty_tree l → IfErr result (λ e. IsLack (budget (empty_tree l) 1 0) e) }
    {
        let mut arena = arena;
        let _ = arena.make(NewNode::Document)?;
        Ok(OpenTree {
            arena,
            stack: OpenStack::new(alloc),
            p_ends: Vec::new(alloc),
            list: FormattingList::new(alloc),
            tokens: 0,
            head: None,
            form: None,
            detached: None,
            alloc,
        })
    }

    /// The root of a fragment: an html element that no token asked for, without a parent, opened (13.4).
    ///
    /// # Errors
    ///
    /// `OutOfMemory`.
    pub fn fragment(alloc: Global) -> Result<OpenTree, ArenaError>
        ensures state { IfOk result (λ p. p ≡ fragment_state None p.steps) }
        ensures steps { IfOk result (λ p. p.steps ≤ 2) }
        ensures counted { IfOk result (λ p. p.steps ≡ 2) }
        ensures cause { IfErr result (λ e. e ≡ ArenaError.OutOfMemory) }
    {
        OpenTree::over_root(alloc, Arena::new(alloc))
    }

    /// The root of a fragment whose tree keeps to limits.
    ///
    /// # Errors
    ///
    /// `NodeBudget` and `HeldBudget` where not even the root is within them; `OutOfMemory`, which may be told first.
    pub fn fragment_within(alloc: Global, limits: Limits) -> Result<OpenTree, ArenaError>
        ensures state { IfOk result (λ p. p ≡ fragment_state (Some limits) p.steps) }
        ensures steps { IfOk result (λ p. p.steps ≤ 2) }
        ensures counted { IfOk result (λ p. p.steps ≡ 2) }
        ensures cause { IfErr result (λ e. IsBudget (root_budget (empty_tree (Some limits))) e) }
    {
        OpenTree::over_root(alloc, Arena::within(alloc, limits))
    }

    /// The root of a fragment in an arena without nodes.
    fn over_root(alloc: Global, arena: Arena) -> Result<OpenTree, ArenaError>
        requires { (l : Option Limits) × (arena ≡ empty_tree l) }
        ensures state { (l : Option Limits) → arena ≡ empty_tree l → IfOk result (λ p. p ≡ fragment_state l p.steps) }
        ensures steps { (l : Option Limits) → arena ≡ empty_tree l → IfOk result (λ p. p.steps ≤ 2) }
        ensures counted { (l : Option Limits) → arena ≡ empty_tree l → IfOk result (λ p. p.steps ≡ 2) }
        ensures cause { (l : Option Limits) → arena ≡ empty_tree l → IfErr result (λ e. IsBudget (root_budget (empty_tree l)) e) }
    {
        let mut arena = arena;
        let mut stack = OpenStack::new(alloc);
        push_root(&mut stack, &mut arena, alloc)?;
        Ok(OpenTree {
            arena,
            stack,
            p_ends: Vec::new(alloc),
            list: FormattingList::new(alloc),
            tokens: 0,
            head: None,
            form: None,
            detached: None,
            alloc,
        })
    }

    /// What is always true of a tree under construction: a law.
    pub fn laws(&self)
        ensures sound { IsSound self.now }
        ensures seats { HasSeats self.now.tree self.now.stack }
        ensures depth { length (open_tags self.now) ≡ length self.now.stack }
        ensures deepest { 0 < length self.now.stack → slice_get (reverse (open_tags self.now)) 0 ≡ Some tag.Html }
        ensures counted { self.now.steps < 2 ^ 128 }
    {
        fits(self.arena.meter().steps);
    }

    /// The number of open elements.
    pub fn depth(&self) -> usize
        ensures { result ≡ length self.now.stack }
    {
        self.stack.len()
    }

    /// Counts steps, up to the greatest number of 128 bits.
    pub fn charge(&mut self, steps: u128)
        ensures rest { self.new ≡ record self.old { steps = self.new.steps } }
        ensures counted { self.new.steps ≡ more self.old.steps steps }
        ensures steps { self.new.steps ≤ self.old.steps + steps }
        ensures keeps { Keeps self.old self.new }
        ensures grown { Grown 0 0 0 0 self.old self.new }
        ensures tags { open_tags self.new ≡ open_tags self.old }
    {
        self.arena.charge(steps);
    }

    /// The head, where it was made.
    pub fn head(&self) -> Option<NodeId>
        ensures { result ≡ self.now.head }
    {
        self.head
    }

    /// Points to the head.
    pub fn set_head(&mut self, node: NodeId)
        requires node_in { node < length self.old.tree.labels }
        requires head { named self.old.tree tag.Head node ≡ true }
        ensures exact { self.new ≡ record self.old { head = Some node } }
        ensures keeps { Keeps self.old self.new }
        ensures grown { Grown 0 0 0 0 self.old self.new }
        ensures tags { open_tags self.new ≡ open_tags self.old }
    {
        self.head = Some(node);
    }

    /// The form that no end tag closed yet.
    pub fn form(&self) -> Option<NodeId>
        ensures form { result ≡ self.now.form }
    {
        self.form
    }

    /// Points to a form, or to none.
    pub fn set_form(&mut self, node: Option<NodeId>)
        requires { IsNamed self.old.tree tag.Form node }
        ensures exact { self.new ≡ record self.old { form = node } }
        ensures keeps { Keeps self.old self.new }
        ensures grown { Grown 0 0 0 0 self.old self.new }
        ensures tags { open_tags self.new ≡ open_tags self.old }
    {
        self.form = node;
    }
}

/// A law of numbers of 128 bits.
fn fits(steps: u128)
    ensures below { steps < 2 ^ 128 }
{}

/// Makes an html element that no token asked for, the first node, and opens it.
fn push_root(stack: &mut OpenStack, arena: &mut Arena, alloc: Global) -> Result<(), ArenaError>
    requires none { stack.old ≡ [] }
    requires empty { (l : Option Limits) × (arena.old ≡ empty_tree l) }
    ensures under_way { OnOk result (IsUnderWay stack.new [] arena.new 0 None None None) }
    ensures stack { OnOk result (stack.new ≡ 0 ∷ []) }
    ensures seats { OnOk result (HasSeats arena.new stack.new) }
    ensures tree { OnOk result (bare arena.new ≡ bare (made arena.old (Element (name_of tag.Html) [] Implied))) }
    ensures steps { OnOk result (arena.new.steps ≡ more arena.old.steps 2) }
    ensures cause { IfErr result (λ e. IsBudget (root_budget arena.old) e) }
{
    kept_by_edits();
    let name = Str::of(alloc, Tag::Html.name())?;
    let root = arena.make(NewNode::Element {
        name,
        attrs: Attrs::new(alloc),
        origin: Origin::Implied,
    })?;
    stack.push(arena, root)?;
    Ok(())
}
