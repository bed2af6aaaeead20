// Nodes that are made of tokens, or implied by them.
ghost use Rattle.std.specs.Prelude.{◌≡◌, ℕ, ◌+◌, ◌<◌, ◌≤◌, [], ◌∷◌, IfErr, IfOk, None, Ok, OnErr, OnOk, Option, Some, false, length, true};
ghost use Rattle.html_names.specs.declared.tag.Tag.TheVariants as tag;
ghost use Rattle.html_names.specs.Names.{name_of, tag_of};
ghost use Rattle.html_names.specs.Sets.{is_formatting};
ghost use Rattle.html_arena.specs.declared.data.NewNode.TheVariants.{Comment, Doctype, Element};
ghost use Rattle.html_arena.specs.declared.data.Origin.TheVariants.{Implied, Token};
ghost use Rattle.html_arena.specs.Budget.{budget};
ghost use Rattle.html_arena.specs.Make.{label_for, made_weight, nodes_made};
ghost use Rattle.html_arena.specs.Tree.{more, tag_at};
ghost use Rattle.html_arena.specs.Weight.{weight};
ghost use Rattle.html_open.specs.Entries.{push_steps, pushed};
ghost use Rattle.html_open.specs.Opened.{CanList, open_at};
ghost use Rattle.html_tree.specs.Inserting.{CanBeFirst, IsBlank, IsFor, IsNodePassed, IsRefused, IsTold, with_new, with_open};
ghost use Rattle.html_tree.specs.OpenTags.{HasReopened, open_tags};
ghost use Rattle.html_tree.specs.Proper.{is_foreign_root, opens};
ghost use Rattle.html_tree.specs.Seats.{CanSeat, is_part};
ghost use Rattle.html_tree.specs.Since.{Grown, Keeps};
ghost use Rattle.html_tree.specs.Targets.{CanTarget, place_for, target_steps};

use super::OpenTree;
use crate::groups::Target;
use crate::paragraphs::open_node;
use crate::target::put_new;
use html_arena::{NewNode, NodeId, Origin};
use html_names::Tag;
use html_open::ArenaError;
use html_text::Str;
use html_tokens::{Attrs, OptionalStr};

impl OpenTree {
    /// Makes the element of a start tag, puts it at a target, and opens it.
    ///
    /// # Errors
    ///
    /// `NodeBudget` and `HeldBudget` where the node would pass that limit; else `OutOfMemory`.
    pub fn insert(
        &mut self,
        name: Str,
        attrs: Attrs,
        token: u64,
        target: Target,
    ) -> Result<NodeId, ArenaError>
        requires target { CanTarget self.old.stack target }
        requires seat { CanSeat self.old (tag_of name) target }
        requires name { opens (tag_of name) ≡ true }
        requires opened { 0 < length self.old.stack }
        requires token { self.old.tokens ≤ token }
        ensures id { IfOk result (λ id. id ≡ length self.old.tree.labels) }
        ensures exact { OnOk result (self.new ≡ record self.old {
          stack = with_open self.old;
          tree = with_new self.old.tree (place_for self.old target) (Element name attrs (Token token));
          steps = self.new.steps;
          tokens = token + 1;
        }) }
        ensures tag { IfOk result (λ id. (id < length self.new.tree.labels) × (tag_at self.new.tree id ≡ tag_of name)) }
        ensures blank { OnOk result (IsBlank (label_for self.old.tree (Element name attrs (Token token))) (length self.old.tree.labels) self.new.tree) }
        ensures steps { OnOk result (self.new.steps ≤ self.old.steps + length self.old.stack + 4) }
        ensures counted { OnOk result (self.new.steps ≡ more self.old.steps (target_steps self.old.tree self.old.stack target + 3)) }
        ensures keeps { OnOk result (Keeps self.old self.new) }
        ensures grown { OnOk result (Grown 2 1 0 (weight (label_for self.old.tree (Element name attrs (Token token)))) self.old self.new) }
        ensures tags { OnOk result (open_tags self.new ≡ tag_of name ∷ open_tags self.old) }
        ensures refused { OnErr result (open_tags self.new ≡ open_tags self.old) }
        ensures rest { self.new ≡ record self.old { stack = self.new.stack; tree = self.new.tree; steps = self.new.steps; tokens = self.new.tokens } }
        ensures tokens_most { self.new.tokens ≤ token + 1 }
        ensures cause { IfErr result (λ e. IsRefused self.old (Element name attrs (Token token)) e) }
        ensures told { IfErr result (λ e. IsNodePassed self.old self.new (Element name attrs (Token token)) e) }
    {
        self.open_new(name, attrs, Origin::Token(token), token as u128 + 1, target)
    }

    /// Makes the element of a start tag and puts it at a target; it is not opened.
    ///
    /// # Errors
    ///
    /// `NodeBudget` and `HeldBudget` where the node would pass that limit; else `OutOfMemory`.
    pub fn insert_void(
        &mut self,
        name: Str,
        attrs: Attrs,
        token: u64,
        target: Target,
    ) -> Result<NodeId, ArenaError>
        requires target { CanTarget self.old.stack target }
        requires part { is_part (tag_of name) ≡ false }
        requires name { is_foreign_root (tag_of name) ≡ false }
        requires token { self.old.tokens ≤ token }
        ensures id { IfOk result (λ id. id ≡ length self.old.tree.labels) }
        ensures exact { OnOk result (self.new ≡ record self.old {
          tree = with_new self.old.tree (place_for self.old target) (Element name attrs (Token token));
          steps = self.new.steps;
          tokens = token + 1;
        }) }
        ensures tag { IfOk result (λ id. (id < length self.new.tree.labels) × (tag_at self.new.tree id ≡ tag_of name)) }
        ensures steps { OnOk result (self.new.steps ≤ self.old.steps + length self.old.stack + 3) }
        ensures counted { OnOk result (self.new.steps ≡ more self.old.steps (target_steps self.old.tree self.old.stack target + 2)) }
        ensures keeps { OnOk result (Keeps self.old self.new) }
        ensures grown { OnOk result (Grown 2 0 0 (weight (label_for self.old.tree (Element name attrs (Token token)))) self.old self.new) }
        ensures tags { open_tags self.new ≡ open_tags self.old }
        ensures rest { self.new ≡ record self.old { tree = self.new.tree; steps = self.new.steps; tokens = self.new.tokens } }
        ensures tokens_most { self.new.tokens ≤ token + 1 }
        ensures cause { IfErr result (λ e. IsRefused self.old (Element name attrs (Token token)) e) }
        ensures told { IfErr result (λ e. IsNodePassed self.old self.new (Element name attrs (Token token)) e) }
    {
        self.closed_new(name, attrs, Origin::Token(token), token as u128 + 1, target)
    }

    /// Makes an element that no token asked for, puts it at the place for the current node, and opens it.
    ///
    /// # Errors
    ///
    /// `NodeBudget` and `HeldBudget` where the node would pass that limit; else `OutOfMemory`.
    pub fn insert_implied(&mut self, tag: Tag, foster: bool) -> Result<NodeId, ArenaError>
        requires opened { 0 < length self.old.stack }
        requires seat { CanSeat self.old tag (Target.Current foster) }
        requires name { opens tag ≡ true }
        ensures id { IfOk result (λ id. id ≡ length self.old.tree.labels) }
        ensures exact { OnOk result (self.new ≡ record self.old {
          stack = with_open self.old;
          tree = with_new self.old.tree (place_for self.old (Target.Current foster)) (Element (name_of tag) [] Implied);
          steps = self.new.steps;
        }) }
        ensures tag { IfOk result (λ id. (id < length self.new.tree.labels) × (tag_at self.new.tree id ≡ tag)) }
        ensures steps { OnOk result (self.new.steps ≤ self.old.steps + length self.old.stack + 4) }
        ensures counted { OnOk result (self.new.steps ≡ more self.old.steps (target_steps self.old.tree self.old.stack (Target.Current foster) + 3)) }
        ensures keeps { OnOk result (Keeps self.old self.new) }
        ensures grown { OnOk result (Grown 2 1 0 (weight (label_for self.old.tree (Element (name_of tag) [] Implied))) self.old self.new) }
        ensures tags { OnOk result (open_tags self.new ≡ tag ∷ open_tags self.old) }
        ensures refused { OnErr result (open_tags self.new ≡ open_tags self.old) }
        ensures rest { self.new ≡ record self.old { stack = self.new.stack; tree = self.new.tree; steps = self.new.steps } }
        ensures tokens { self.new.tokens ≡ self.old.tokens }
        ensures cause { IfErr result (λ e. IsTold self.old (Element (name_of tag) [] Implied) e) }
        ensures told { IfErr result (λ e. IsNodePassed self.old self.new (Element (name_of tag) [] Implied) e) }
    {
        let attrs = Attrs::new(self.alloc);
        let next = self.tokens;
        self.open_named(tag, attrs, Origin::Implied, next, Target::Current(foster))
    }

    /// Makes an element that no token asked for and puts it at the place for the current node; it is not opened.
    ///
    /// # Errors
    ///
    /// `NodeBudget` and `HeldBudget` where the node would pass that limit; else `OutOfMemory`.
    pub fn insert_implied_void(&mut self, tag: Tag, foster: bool) -> Result<NodeId, ArenaError>
        requires opened { 0 < length self.old.stack }
        requires part { is_part tag ≡ false }
        requires name { is_foreign_root tag ≡ false }
        ensures id { IfOk result (λ id. id ≡ length self.old.tree.labels) }
        ensures exact { OnOk result (self.new ≡ record self.old {
          tree = with_new self.old.tree (place_for self.old (Target.Current foster)) (Element (name_of tag) [] Implied);
          steps = self.new.steps;
        }) }
        ensures tag { IfOk result (λ id. (id < length self.new.tree.labels) × (tag_at self.new.tree id ≡ tag)) }
        ensures steps { OnOk result (self.new.steps ≤ self.old.steps + length self.old.stack + 3) }
        ensures counted { OnOk result (self.new.steps ≡ more self.old.steps (target_steps self.old.tree self.old.stack (Target.Current foster) + 2)) }
        ensures keeps { OnOk result (Keeps self.old self.new) }
        ensures grown { OnOk result (Grown 2 0 0 (weight (label_for self.old.tree (Element (name_of tag) [] Implied))) self.old self.new) }
        ensures tags { open_tags self.new ≡ open_tags self.old }
        ensures rest { self.new ≡ record self.old { tree = self.new.tree; steps = self.new.steps } }
        ensures tokens { self.new.tokens ≡ self.old.tokens }
        ensures cause { IfErr result (λ e. IsTold self.old (Element (name_of tag) [] Implied) e) }
        ensures told { IfErr result (λ e. IsNodePassed self.old self.new (Element (name_of tag) [] Implied) e) }
    {
        let attrs = Attrs::new(self.alloc);
        let next = self.tokens;
        self.closed_named(tag, attrs, Origin::Implied, next, Target::Current(foster))
    }

    /// Makes a comment and puts it at a target.
    ///
    /// # Errors
    ///
    /// `NodeBudget` and `HeldBudget` where the node would pass that limit; else `OutOfMemory`.
    pub fn insert_comment(
        &mut self,
        text: Str,
        token: u64,
        target: Target,
    ) -> Result<NodeId, ArenaError>
        requires target { CanTarget self.old.stack target }
        requires token { self.old.tokens ≤ token }
        ensures id { IfOk result (λ id. id ≡ length self.old.tree.labels) }
        ensures exact { OnOk result (self.new ≡ record self.old {
          tree = with_new self.old.tree (place_for self.old target) (Comment text token);
          steps = self.new.steps;
          tokens = token + 1;
        }) }
        ensures steps { OnOk result (self.new.steps ≤ self.old.steps + length self.old.stack + 3) }
        ensures counted { OnOk result (self.new.steps ≡ more self.old.steps (target_steps self.old.tree self.old.stack target + 2)) }
        ensures keeps { OnOk result (Keeps self.old self.new) }
        ensures grown { OnOk result (Grown 2 0 0 (weight (label_for self.old.tree (Comment text token))) self.old self.new) }
        ensures tags { open_tags self.new ≡ open_tags self.old }
        ensures rest { self.new ≡ record self.old { tree = self.new.tree; steps = self.new.steps; tokens = self.new.tokens } }
        ensures tokens_most { self.new.tokens ≤ token + 1 }
        ensures cause { IfErr result (λ e. IsRefused self.old (Comment text token) e) }
        ensures told { IfErr result (λ e. IsNodePassed self.old self.new (Comment text token) e) }
    {
        let new = NewNode::Comment { text, token };
        let node = put_new(&self.stack, &mut self.arena, self.head, target, new)?;
        self.tokens = token as u128 + 1;
        Ok(node)
    }

    /// Makes a doctype, and puts it last in the document.
    ///
    /// # Errors
    ///
    /// `NodeBudget` and `HeldBudget` where the node would pass that limit; else `OutOfMemory`.
    pub fn insert_doctype(
        &mut self,
        name: OptionalStr,
        public: OptionalStr,
        system: OptionalStr,
        token: u64,
    ) -> Result<NodeId, ArenaError>
        requires token { self.old.tokens ≤ token }
        ensures id { IfOk result (λ id. id ≡ length self.old.tree.labels) }
        ensures exact { OnOk result (self.new ≡ record self.old {
          tree = with_new self.old.tree (place_for self.old Target.Document) (Doctype name public system token);
          steps = self.new.steps;
          tokens = token + 1;
        }) }
        ensures steps { OnOk result (self.new.steps ≤ self.old.steps + length self.old.stack + 3) }
        ensures counted { OnOk result (self.new.steps ≡ more self.old.steps (target_steps self.old.tree self.old.stack Target.Document + 2)) }
        ensures keeps { OnOk result (Keeps self.old self.new) }
        ensures grown { OnOk result (Grown 2 0 0 (weight (label_for self.old.tree (Doctype name public system token))) self.old self.new) }
        ensures tags { open_tags self.new ≡ open_tags self.old }
        ensures rest { self.new ≡ record self.old { tree = self.new.tree; steps = self.new.steps; tokens = self.new.tokens } }
        ensures tokens_most { self.new.tokens ≤ token + 1 }
        ensures cause { IfErr result (λ e. IsRefused self.old (Doctype name public system token) e) }
        ensures told { IfErr result (λ e. IsNodePassed self.old self.new (Doctype name public system token) e) }
    {
        let new = NewNode::Doctype {
            name,
            public,
            system,
            token,
        };
        let target = Target::Document;
        let node = put_new(&self.stack, &mut self.arena, self.head, target, new)?;
        self.tokens = token as u128 + 1;
        Ok(node)
    }
}

impl OpenTree {
    /// Makes the html element of a start tag, puts it last in the document, and opens it.
    ///
    /// # Errors
    ///
    /// `NodeBudget` and `HeldBudget` where the node would pass that limit; else `OutOfMemory`.
    pub fn insert_root(&mut self, attrs: Attrs, token: u64) -> Result<NodeId, ArenaError>
        requires token { self.old.tokens ≤ token }
        ensures id { IfOk result (λ id. id ≡ length self.old.tree.labels) }
        ensures exact { OnOk result (self.new ≡ record self.old {
          stack = with_open self.old;
          tree = with_new self.old.tree (place_for self.old Target.Document) (Element (name_of tag.Html) attrs (Token token));
          steps = self.new.steps;
          tokens = token + 1;
        }) }
        ensures tag { IfOk result (λ id. (id < length self.new.tree.labels) × (tag_at self.new.tree id ≡ tag.Html)) }
        ensures steps { OnOk result (self.new.steps ≤ self.old.steps + length self.old.stack + 4) }
        ensures counted { OnOk result (self.new.steps ≡ more self.old.steps (target_steps self.old.tree self.old.stack Target.Document + 3)) }
        ensures keeps { OnOk result (Keeps self.old self.new) }
        ensures grown { OnOk result (Grown 2 1 0 (weight (label_for self.old.tree (Element (name_of tag.Html) attrs (Token token)))) self.old self.new) }
        ensures tags { OnOk result (open_tags self.new ≡ tag.Html ∷ open_tags self.old) }
        ensures refused { OnErr result (open_tags self.new ≡ open_tags self.old) }
        ensures rest { self.new ≡ record self.old { stack = self.new.stack; tree = self.new.tree; steps = self.new.steps; tokens = self.new.tokens } }
        ensures tokens_most { self.new.tokens ≤ token + 1 }
        ensures cause { IfErr result (λ e. IsTold self.old (Element (name_of tag.Html) attrs (Token token)) e) }
        ensures told { IfErr result (λ e. IsNodePassed self.old self.new (Element (name_of tag.Html) attrs (Token token)) e) }
    {
        let origin = Origin::Token(token);
        let next = token as u128 + 1;
        self.open_named(Tag::Html, attrs, origin, next, Target::Document)
    }

    /// Makes an html element that no token asked for, puts it last in the document, and opens it.
    ///
    /// # Errors
    ///
    /// `NodeBudget` and `HeldBudget` where the node would pass that limit; else `OutOfMemory`.
    pub fn insert_implied_root(&mut self) -> Result<NodeId, ArenaError>
        ensures id { IfOk result (λ id. id ≡ length self.old.tree.labels) }
        ensures exact { OnOk result (self.new ≡ record self.old {
          stack = with_open self.old;
          tree = with_new self.old.tree (place_for self.old Target.Document) (Element (name_of tag.Html) [] Implied);
          steps = self.new.steps;
        }) }
        ensures tag { IfOk result (λ id. (id < length self.new.tree.labels) × (tag_at self.new.tree id ≡ tag.Html)) }
        ensures steps { OnOk result (self.new.steps ≤ self.old.steps + length self.old.stack + 4) }
        ensures counted { OnOk result (self.new.steps ≡ more self.old.steps (target_steps self.old.tree self.old.stack Target.Document + 3)) }
        ensures keeps { OnOk result (Keeps self.old self.new) }
        ensures grown { OnOk result (Grown 2 1 0 (weight (label_for self.old.tree (Element (name_of tag.Html) [] Implied))) self.old self.new) }
        ensures tags { OnOk result (open_tags self.new ≡ tag.Html ∷ open_tags self.old) }
        ensures refused { OnErr result (open_tags self.new ≡ open_tags self.old) }
        ensures rest { self.new ≡ record self.old { stack = self.new.stack; tree = self.new.tree; steps = self.new.steps } }
        ensures tokens { self.new.tokens ≡ self.old.tokens }
        ensures cause { IfErr result (λ e. IsTold self.old (Element (name_of tag.Html) [] Implied) e) }
        ensures told { IfErr result (λ e. IsNodePassed self.old self.new (Element (name_of tag.Html) [] Implied) e) }
    {
        let attrs = Attrs::new(self.alloc);
        let next = self.tokens;
        self.open_named(Tag::Html, attrs, Origin::Implied, next, Target::Document)
    }

    /// Makes the element of a start tag of a formatting name, puts it at the place for the current node, opens it, and adds it to the list.
    ///
    /// # Errors
    ///
    /// `NodeBudget` and `HeldBudget` where the node would pass that limit; else `OutOfMemory`.
    pub fn insert_listed(
        &mut self,
        name: Str,
        attrs: Attrs,
        token: u64,
        foster: bool,
    ) -> Result<NodeId, ArenaError>
        requires opened { 0 < length self.old.stack }
        requires token { self.old.tokens ≤ token }
        requires formatting { is_formatting (tag_of name) ≡ true }
        ensures id { IfOk result (λ id. id ≡ length self.old.tree.labels) }
        ensures exact { OnOk result (self.new ≡ record self.old {
          stack = with_open self.old;
          list = pushed (with_new self.old.tree (place_for self.old (Target.Current foster)) (Element name attrs (Token token))) (length self.old.tree.labels) self.old.list;
          tree = with_new self.old.tree (place_for self.old (Target.Current foster)) (Element name attrs (Token token));
          steps = self.new.steps;
          tokens = token + 1;
        }) }
        ensures steps { OnOk result (self.new.steps ≤ self.old.steps + length self.old.stack + 4 + push_steps (with_new self.old.tree (place_for self.old (Target.Current foster)) (Element name attrs (Token token))) (length self.old.tree.labels) self.old.list) }
        ensures counted { OnOk result (self.new.steps ≡ more self.old.steps (target_steps self.old.tree self.old.stack (Target.Current foster) + 3 + push_steps (with_new self.old.tree (place_for self.old (Target.Current foster)) (Element name attrs (Token token))) (length self.old.tree.labels) self.old.list)) }
        ensures keeps { OnOk result (Keeps self.old self.new) }
        ensures grown { OnOk result (Grown 2 1 1 (weight (label_for self.old.tree (Element name attrs (Token token)))) self.old self.new) }
        ensures tags { OnOk result (open_tags self.new ≡ tag_of name ∷ open_tags self.old) }
        ensures refused { OnErr result (HasReopened self.old self.new) }
        ensures rest { self.new ≡ record self.old { stack = self.new.stack; list = self.new.list; tree = self.new.tree; steps = self.new.steps; tokens = self.new.tokens } }
        ensures tokens_most { self.new.tokens ≤ token + 1 }
        ensures cause { IfErr result (λ e. IsRefused self.old (Element name attrs (Token token)) e) }
        ensures told { IfErr result (λ e. IsNodePassed self.old self.new (Element name attrs (Token token)) e) }
    {
        let next = token as u128 + 1;
        let target = Target::Current(foster);
        let node = self.open_new(name, attrs, Origin::Token(token), next, target)?;
        self.enlist(node)?;
        Ok(node)
    }
}

impl OpenTree {
    /// Makes an element of a known name, puts it at a target, and opens it.
    fn open_named(
        &mut self,
        tag: Tag,
        attrs: Attrs,
        origin: Origin,
        next: u128,
        target: Target,
    ) -> Result<NodeId, ArenaError>
        requires target { CanTarget self.old.stack target }
        requires first { CanBeFirst self.old.stack tag }
        requires seat { CanSeat self.old tag target }
        requires name { opens tag ≡ true }
        requires own { IsFor origin self.old.tokens next }
        requires next { self.old.tokens ≤ next }
        ensures id { IfOk result (λ id. id ≡ length self.old.tree.labels) }
        ensures exact { OnOk result (self.new ≡ record self.old {
          stack = with_open self.old;
          tree = with_new self.old.tree (place_for self.old target) (Element (name_of tag) attrs origin);
          steps = self.new.steps;
          tokens = next;
        }) }
        ensures tag { IfOk result (λ id. (id < length self.new.tree.labels) × (tag_at self.new.tree id ≡ tag)) }
        ensures steps { OnOk result (self.new.steps ≤ self.old.steps + length self.old.stack + 4) }
        ensures counted { OnOk result (self.new.steps ≡ more self.old.steps (target_steps self.old.tree self.old.stack target + 3)) }
        ensures keeps { OnOk result (Keeps self.old self.new) }
        ensures grown { OnOk result (Grown 2 1 0 (weight (label_for self.old.tree (Element (name_of tag) attrs origin))) self.old self.new) }
        ensures tags { OnOk result (open_tags self.new ≡ tag ∷ open_tags self.old) }
        ensures refused { OnErr result (open_tags self.new ≡ open_tags self.old) }
        ensures rest { self.new ≡ record self.old { stack = self.new.stack; tree = self.new.tree; steps = self.new.steps; tokens = self.new.tokens } }
        ensures tokens_least { self.old.tokens ≤ self.new.tokens }
        ensures tokens_most { self.new.tokens ≤ next }
        ensures cause { IfErr result (λ e. IsTold self.old (Element (name_of tag) attrs origin) e) }
        ensures told { IfErr result (λ e. IsNodePassed self.old self.new (Element (name_of tag) attrs origin) e) }
    {
        let name = Str::of(self.alloc, tag.name())?;
        self.open_new(name, attrs, origin, next, target)
    }

    /// Makes an element of a known name, and puts it at a target; it is not opened.
    fn closed_named(
        &mut self,
        tag: Tag,
        attrs: Attrs,
        origin: Origin,
        next: u128,
        target: Target,
    ) -> Result<NodeId, ArenaError>
        requires target { CanTarget self.old.stack target }
        requires part { is_part tag ≡ false }
        requires name { is_foreign_root tag ≡ false }
        requires own { IsFor origin self.old.tokens next }
        requires next { self.old.tokens ≤ next }
        ensures id { IfOk result (λ id. id ≡ length self.old.tree.labels) }
        ensures exact { OnOk result (self.new ≡ record self.old {
          tree = with_new self.old.tree (place_for self.old target) (Element (name_of tag) attrs origin);
          steps = self.new.steps;
          tokens = next;
        }) }
        ensures tag { IfOk result (λ id. (id < length self.new.tree.labels) × (tag_at self.new.tree id ≡ tag)) }
        ensures steps { OnOk result (self.new.steps ≤ self.old.steps + length self.old.stack + 3) }
        ensures counted { OnOk result (self.new.steps ≡ more self.old.steps (target_steps self.old.tree self.old.stack target + 2)) }
        ensures keeps { OnOk result (Keeps self.old self.new) }
        ensures grown { OnOk result (Grown 2 0 0 (weight (label_for self.old.tree (Element (name_of tag) attrs origin))) self.old self.new) }
        ensures tags { open_tags self.new ≡ open_tags self.old }
        ensures rest { self.new ≡ record self.old { tree = self.new.tree; steps = self.new.steps; tokens = self.new.tokens } }
        ensures tokens_least { self.old.tokens ≤ self.new.tokens }
        ensures tokens_most { self.new.tokens ≤ next }
        ensures cause { IfErr result (λ e. IsTold self.old (Element (name_of tag) attrs origin) e) }
        ensures told { IfErr result (λ e. IsNodePassed self.old self.new (Element (name_of tag) attrs origin) e) }
    {
        let name = Str::of(self.alloc, tag.name())?;
        self.closed_new(name, attrs, origin, next, target)
    }
}

impl OpenTree {
    /// Makes an element, puts it at a target, and opens it.
    #[inline(always)]
    fn open_new(
        &mut self,
        name: Str,
        attrs: Attrs,
        origin: Origin,
        next: u128,
        target: Target,
    ) -> Result<NodeId, ArenaError>
        requires target { CanTarget self.old.stack target }
        requires first { CanBeFirst self.old.stack (tag_of name) }
        requires seat { CanSeat self.old (tag_of name) target }
        requires name { opens (tag_of name) ≡ true }
        requires own { IsFor origin self.old.tokens next }
        requires next { self.old.tokens ≤ next }
        ensures id { IfOk result (λ id. id ≡ length self.old.tree.labels) }
        ensures exact { OnOk result (self.new ≡ record self.old {
          stack = with_open self.old;
          tree = with_new self.old.tree (place_for self.old target) (Element name attrs origin);
          steps = self.new.steps;
          tokens = next;
        }) }
        ensures tag { IfOk result (λ id. (id < length self.new.tree.labels) × (tag_at self.new.tree id ≡ tag_of name)) }
        ensures blank { OnOk result (IsBlank (label_for self.old.tree (Element name attrs origin)) (length self.old.tree.labels) self.new.tree) }
        ensures can_list { OnOk result (is_formatting (tag_of name) ≡ true → CanList (open_at self.new.stack self.new.list self.new.tree) (length self.old.tree.labels)) }
        ensures within { OnOk result (budget self.old.tree (nodes_made (Element name attrs origin)) (made_weight self.old.tree (Element name attrs origin)) ≡ Ok tt) }
        ensures steps { OnOk result (self.new.steps ≤ self.old.steps + length self.old.stack + 4) }
        ensures counted { OnOk result (self.new.steps ≡ more self.old.steps (target_steps self.old.tree self.old.stack target + 3)) }
        ensures keeps { OnOk result (Keeps self.old self.new) }
        ensures grown { OnOk result (Grown 2 1 0 (weight (label_for self.old.tree (Element name attrs origin))) self.old self.new) }
        ensures tags { OnOk result (open_tags self.new ≡ tag_of name ∷ open_tags self.old) }
        ensures refused { OnErr result (open_tags self.new ≡ open_tags self.old) }
        ensures rest { self.new ≡ record self.old { stack = self.new.stack; tree = self.new.tree; steps = self.new.steps; tokens = self.new.tokens } }
        ensures tokens_least { self.old.tokens ≤ self.new.tokens }
        ensures tokens_most { self.new.tokens ≤ next }
        ensures cause { IfErr result (λ e. IsRefused self.old (Element name attrs origin) e) }
        ensures told { IfErr result (λ e. IsNodePassed self.old self.new (Element name attrs origin) e) }
    {
        let new = NewNode::Element {
            name,
            attrs,
            origin,
        };
        let node = put_new(&self.stack, &mut self.arena, self.head, target, new)?;
        self.tokens = next;
        open_node(&mut self.stack, &mut self.p_ends, &mut self.arena, node)?;
        Ok(node)
    }

    /// Makes an element and puts it at a target; it is not opened.
    fn closed_new(
        &mut self,
        name: Str,
        attrs: Attrs,
        origin: Origin,
        next: u128,
        target: Target,
    ) -> Result<NodeId, ArenaError>
        requires target { CanTarget self.old.stack target }
        requires part { is_part (tag_of name) ≡ false }
        requires name { is_foreign_root (tag_of name) ≡ false }
        requires own { IsFor origin self.old.tokens next }
        requires next { self.old.tokens ≤ next }
        ensures id { IfOk result (λ id. id ≡ length self.old.tree.labels) }
        ensures exact { OnOk result (self.new ≡ record self.old {
          tree = with_new self.old.tree (place_for self.old target) (Element name attrs origin);
          steps = self.new.steps;
          tokens = next;
        }) }
        ensures tag { IfOk result (λ id. (id < length self.new.tree.labels) × (tag_at self.new.tree id ≡ tag_of name)) }
        ensures steps { OnOk result (self.new.steps ≤ self.old.steps + length self.old.stack + 3) }
        ensures counted { OnOk result (self.new.steps ≡ more self.old.steps (target_steps self.old.tree self.old.stack target + 2)) }
        ensures keeps { OnOk result (Keeps self.old self.new) }
        ensures grown { OnOk result (Grown 2 0 0 (weight (label_for self.old.tree (Element name attrs origin))) self.old self.new) }
        ensures tags { open_tags self.new ≡ open_tags self.old }
        ensures rest { self.new ≡ record self.old { tree = self.new.tree; steps = self.new.steps; tokens = self.new.tokens } }
        ensures tokens_least { self.old.tokens ≤ self.new.tokens }
        ensures tokens_most { self.new.tokens ≤ next }
        ensures cause { IfErr result (λ e. IsRefused self.old (Element name attrs origin) e) }
        ensures told { IfErr result (λ e. IsNodePassed self.old self.new (Element name attrs origin) e) }
    {
        let new = NewNode::Element {
            name,
            attrs,
            origin,
        };
        let node = put_new(&self.stack, &mut self.arena, self.head, target, new)?;
        self.tokens = next;
        Ok(node)
    }
}
