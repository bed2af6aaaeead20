// Nodes that are made of tokens, or implied by them. A token gets its fate first, and then its node is made: so no node comes from a token
// without a fate, also where the node is refused.
ghost use Rattle.std.specs.Prelude.{◌≡◌, ◌+◌, ◌*◌, ◌<◌, ◌≤◌, ◌∷◌, [], IfOk, IsTrue, OnOk, false, length, true, slice_index, if◌then◌else◌, IfErr};
ghost use Rattle.html_names.specs.declared.tag.Tag.TheVariants as tag;
ghost use Rattle.html_names.specs.Groups.{is_outermost};
ghost use Rattle.html_names.specs.Sets.{is_formatting};
ghost use Rattle.html_arena.specs.Make.{label_for};
ghost use Rattle.html_arena.specs.Tree.{named, tag_at, with_merged};
ghost use Rattle.html_tree.specs.Proper.{is_foreign_root, opens};
ghost use Rattle.html_tree.specs.Seats.{CanSeat, has_seat, is_part};
ghost use Rattle.html_ledger.specs.declared.fate.Cause.TheVariants.{Misplaced};
ghost use Rattle.html_construction.specs.Budgets.{Refuses, RefusesAny};
ghost use Rattle.html_construction.specs.Origins.{is_made_alone};
ghost use Rattle.html_ledger.specs.Symbols.{symbol_of};
ghost use Rattle.html_ledger.specs.declared.symbol.Symbol.TheVariants.{Comment, Doctype, Start};
ghost use Rattle.html_construction.specs.Built.{Keeps, Takes};
ghost use Rattle.html_construction.specs.Grown.{Grown};
ghost use Rattle.html_construction.specs.Works.{Works, span_of};
ghost use Rattle.html_construction.specs.Targets.{CanTarget};
ghost use Rattle.html_construction.specs.Weights.{weight};
ghost use Rattle.html_open.specs.Marking.{bare};
ghost use Rattle.html_tree.specs.declared.groups.Target.TheVariants.{Current, Document};
ghost use Rattle.html_tree.specs.Inserting.{IsBlank};
ghost use Rattle.html_ledger.specs.declared.fate.Fate.TheVariants.{Dropped, Made, Merged};
ghost use Rattle.html_ledger.specs.Entries.{number_of};
ghost use Rattle.html_construction.specs.Tokens.{attrs_of, element_tag, opens_own, tag_name};
ghost use Rattle.html_construction.specs.Calls.{HasFate, IsTree, comment_of, counting, doctype_of, element_of, implied_of, listed_at, opened_at, placed_at, root_of, void_of};
ghost use Rattle.html_construction.specs.Plans.{Does, DoesAny, Passes, PassesFor, implying_part, inserting_part};
ghost use Rattle.html_construction.specs.Words.{Imply, ImplyRoot, ImplyVoid, Insert, InsertAt, InsertComment, InsertCommentAt, InsertDoctype, InsertListed, InsertRoot, InsertVoid, InsertVoidAt, MergeIntoBody, MergeIntoRoot};

use super::Construction;
use crate::token::{copy_attrs, copy_data, copy_doctype, copy_element_name, copy_name};
use html_arena::{ArenaError, NodeId};
use html_ledger::{Cause, Fate, Symbol};
use html_names::Tag;
use html_tokens::TokenKind;
use html_tree::Target;

impl Construction {
    /// Makes the element of a start tag, puts it at the place for the current node and opens it. Its fate is Made, of that node.
    #[tactic(auto, using(crate::proofs::Doing::doing_rules))]
    pub fn insert(&mut self, token: &TokenKind, tag: Tag) -> Result<(), ArenaError>
        requires symbol { symbol_of token.now ≡ Start tag }
        requires named { opens_own tag ≡ true }
        requires part { is_part tag ≡ false }
        requires opened { 0 < length self.old.stack }
        requires quiet { self.old.ledger.kept ≡ [] }
        ensures rest { OnOk result (self.new ≡ record self.old { tree = self.new.tree; ledger = self.new.ledger; stack = tag ∷ self.old.stack }) }
        ensures takes { OnOk result (Takes token.now self.old self.new) }
        ensures quiet { OnOk result (self.new.ledger.kept ≡ []) }
        ensures grown { OnOk result (Grown 1 2 0 0 0 self.old self.new) }
        ensures works { OnOk result (Works 1 0 0 self.old self.new) }
        ensures exact { OnOk result (IsTree (opened_at (element_of self.old token.now) (Current self.old.fostering) (counting (number_of self.old.ledger + 1) self.old.tree)) self.new) }
        ensures fate { OnOk result (HasFate (Start tag) (Made (length self.old.tree.tree.labels)) self.old self.new) }
        ensures refuses { IfErr result (λ e. Refuses token.now e self.old self.new) }
        ensures follows { OnOk result (Does Insert token.now self.old self.new) }
    {
        let target = self.here();
        self.insert_at(token, tag, target)
    }

    /// Makes the element of a start tag, puts it at a target and opens it.
    #[tactic(auto, using(crate::proofs::Doing::doing_rules))]
    pub fn insert_at(
        &mut self,
        token: &TokenKind,
        tag: Tag,
        target: Target,
    ) -> Result<(), ArenaError>
        requires symbol { symbol_of token.now ≡ Start tag }
        requires named { opens_own tag ≡ true }
        requires part { is_part tag ≡ false }
        requires opened { 0 < length self.old.stack }
        requires quiet { self.old.ledger.kept ≡ [] }
        ensures rest { OnOk result (self.new ≡ record self.old { tree = self.new.tree; ledger = self.new.ledger; stack = tag ∷ self.old.stack }) }
        ensures takes { OnOk result (Takes token.now self.old self.new) }
        ensures quiet { OnOk result (self.new.ledger.kept ≡ []) }
        ensures grown { OnOk result (Grown 1 2 0 0 0 self.old self.new) }
        ensures works { OnOk result (Works 1 0 0 self.old self.new) }
        ensures exact { OnOk result (IsTree (opened_at (element_of self.old token.now) target (counting (number_of self.old.ledger + 1) self.old.tree)) self.new) }
        ensures blank { OnOk result (IsBlank (label_for self.old.tree.tree (element_of self.old token.now)) (length self.old.tree.tree.labels) self.new.tree.tree) }
        ensures fate { OnOk result (HasFate (Start tag) (Made (length self.old.tree.tree.labels)) self.old self.new) }
        ensures refuses { IfErr result (λ e. Refuses token.now e self.old self.new) }
        ensures follows { OnOk result (Does (InsertAt target) token.now self.old self.new) }
        ensures here { OnOk result (target ≡ Current self.old.fostering → Does Insert token.now self.old self.new) }
    {
        let _ = self.open_at(token, tag, target)?;
        Ok(())
    }

    /// Makes the element of a start tag, puts it at a target, opens it, and answers it.
    pub(super) fn open_at(
        &mut self,
        token: &TokenKind,
        tag: Tag,
        target: Target,
    ) -> Result<NodeId, ArenaError>
        requires symbol { symbol_of token.now ≡ Start tag }
        requires named { opens_own tag ≡ true }
        requires seat { CanSeat self.old.tree tag target }
        requires opened { 0 < length self.old.stack }
        requires quiet { self.old.ledger.kept ≡ [] }
        ensures rest { OnOk result (self.new ≡ record self.old { tree = self.new.tree; ledger = self.new.ledger; stack = tag ∷ self.old.stack }) }
        ensures takes { OnOk result (Takes token.now self.old self.new) }
        ensures quiet { OnOk result (self.new.ledger.kept ≡ []) }
        ensures grown { OnOk result (Grown 1 2 0 0 0 self.old self.new) }
        ensures works { OnOk result (Works 1 0 0 self.old self.new) }
        ensures node { IfOk result (λ x. (x < length self.new.tree.tree.labels) × (tag_at self.new.tree.tree x ≡ tag)) }
        ensures made { IfOk result (λ x. x ≡ length self.old.tree.tree.labels) }
        ensures exact { OnOk result (IsTree (opened_at (element_of self.old token.now) target (counting (number_of self.old.ledger + 1) self.old.tree)) self.new) }
        ensures blank { OnOk result (IsBlank (label_for self.old.tree.tree (element_of self.old token.now)) (length self.old.tree.tree.labels) self.new.tree.tree) }
        ensures fate { OnOk result (HasFate (Start tag) (Made (length self.old.tree.tree.labels)) self.old self.new) }
        ensures refuses { IfErr result (λ e. Refuses token.now e self.old self.new) }
    {
        let name = copy_name(self.alloc(), token)?;
        let attrs = copy_attrs(self.alloc(), token)?;
        let number = self.give_made(Symbol::Start(tag))?;
        self.tree.laws();
        let node = self.tree.insert(name, attrs, number, target)?;
        Ok(node)
    }

    /// Makes the element of a start tag that is a part of a table, puts it in the current node and opens it, where that may hold it. Where it
    /// may not, as it always may in a real run, the token is dropped as misplaced.
    #[tactic(auto, using(crate::proofs::Doing::doing_rules))]
    pub fn insert_part(&mut self, token: &TokenKind, tag: Tag) -> Result<(), ArenaError>
        requires symbol { symbol_of token.now ≡ Start tag }
        requires part { is_part tag ≡ true }
        requires opened { 0 < length self.old.stack }
        requires quiet { self.old.ledger.kept ≡ [] }
        ensures rest { OnOk result (self.new ≡ record self.old { tree = self.new.tree; ledger = self.new.ledger; stack = self.new.stack }) }
        ensures takes { OnOk result (Takes token.now self.old self.new) }
        ensures quiet { OnOk result (self.new.ledger.kept ≡ []) }
        ensures grown { OnOk result (Grown 1 2 0 0 0 self.old self.new) }
        ensures works { OnOk result (Works 1 0 1 self.old self.new) }
        ensures opened { OnOk result (0 < length self.new.stack) }
        ensures heavier { OnOk result (weight self.new.stack ≤ weight self.old.stack + 4) }
        ensures tags { OnOk result (self.new.stack ≡ (if has_seat self.old.tree tag then tag ∷ self.old.stack else self.old.stack)) }
        ensures fate { OnOk result (HasFate (Start tag) (if has_seat self.old.tree tag then Made (length self.old.tree.tree.labels) else Dropped Misplaced) self.old self.new) }
        ensures exact { OnOk result (has_seat self.old.tree tag ≡ true → IsTree (opened_at (element_of self.old token.now) (Current false) (counting (number_of self.old.ledger + 1) self.old.tree)) self.new) }
        ensures same { OnOk result (has_seat self.old.tree tag ≡ false → IsTree self.old.tree self.new) }
        ensures refuses { IfErr result (λ e. Refuses token.now e self.old self.new) }
        ensures follows { OnOk result (PassesFor (inserting_part tag) token.now self.old self.new) }
    {
        if self.has_seat(tag) {
            let _ = self.open_at(token, tag, Target::Current(false))?;
        } else {
            self.drop_token(token, Symbol::Start(tag), Cause::Misplaced)?;
        }
        Ok(())
    }

    /// Makes the element of a start tag and puts it at the place for the current node; it is not opened.
    #[tactic(auto, using(crate::proofs::Doing::doing_rules))]
    pub fn insert_void(&mut self, token: &TokenKind, tag: Tag) -> Result<(), ArenaError>
        requires symbol { symbol_of token.now ≡ Start tag }
        requires part { is_part tag ≡ false }
        requires named { is_foreign_root tag ≡ false }
        requires opened { 0 < length self.old.stack }
        requires quiet { self.old.ledger.kept ≡ [] }
        ensures rest { OnOk result (self.new ≡ record self.old { tree = self.new.tree; ledger = self.new.ledger }) }
        ensures takes { OnOk result (Takes token.now self.old self.new) }
        ensures quiet { OnOk result (self.new.ledger.kept ≡ []) }
        ensures grown { OnOk result (Grown 1 2 0 0 0 self.old self.new) }
        ensures works { OnOk result (Works 1 0 0 self.old self.new) }
        ensures exact { OnOk result (IsTree (placed_at (void_of self.old tag token.now) (Current self.old.fostering) (counting (number_of self.old.ledger + 1) self.old.tree)) self.new) }
        ensures fate { OnOk result (HasFate (Start tag) (Made (length self.old.tree.tree.labels)) self.old self.new) }
        ensures refuses { IfErr result (λ e. Refuses token.now e self.old self.new) }
        ensures follows { OnOk result (Does (InsertVoid tag) token.now self.old self.new) }
    {
        let target = self.here();
        self.insert_void_at(token, tag, target)
    }

    /// Makes the element of a start tag and puts it at a target; it is not opened.
    #[tactic(auto, using(crate::proofs::Doing::doing_rules))]
    pub fn insert_void_at(
        &mut self,
        token: &TokenKind,
        tag: Tag,
        target: Target,
    ) -> Result<(), ArenaError>
        requires symbol { symbol_of token.now ≡ Start tag }
        requires part { is_part tag ≡ false }
        requires named { is_foreign_root tag ≡ false }
        requires opened { 0 < length self.old.stack }
        requires quiet { self.old.ledger.kept ≡ [] }
        ensures rest { OnOk result (self.new ≡ record self.old { tree = self.new.tree; ledger = self.new.ledger }) }
        ensures takes { OnOk result (Takes token.now self.old self.new) }
        ensures quiet { OnOk result (self.new.ledger.kept ≡ []) }
        ensures grown { OnOk result (Grown 1 2 0 0 0 self.old self.new) }
        ensures works { OnOk result (Works 1 0 0 self.old self.new) }
        ensures exact { OnOk result (IsTree (placed_at (void_of self.old tag token.now) target (counting (number_of self.old.ledger + 1) self.old.tree)) self.new) }
        ensures fate { OnOk result (HasFate (Start tag) (Made (length self.old.tree.tree.labels)) self.old self.new) }
        ensures refuses { IfErr result (λ e. Refuses token.now e self.old self.new) }
        ensures follows { OnOk result (Does (InsertVoidAt tag target) token.now self.old self.new) }
        ensures here { OnOk result (target ≡ Current self.old.fostering → Does (InsertVoid tag) token.now self.old self.new) }
    {
        let _ = self.void_at(token, tag, target)?;
        Ok(())
    }

    /// Makes the element of a start tag, puts it at a target, and answers it; it is not opened.
    pub(super) fn void_at(
        &mut self,
        token: &TokenKind,
        tag: Tag,
        target: Target,
    ) -> Result<NodeId, ArenaError>
        requires symbol { symbol_of token.now ≡ Start tag }
        requires part { is_part tag ≡ false }
        requires named { is_foreign_root tag ≡ false }
        requires opened { 0 < length self.old.stack }
        requires quiet { self.old.ledger.kept ≡ [] }
        ensures rest { OnOk result (self.new ≡ record self.old { tree = self.new.tree; ledger = self.new.ledger }) }
        ensures takes { OnOk result (Takes token.now self.old self.new) }
        ensures quiet { OnOk result (self.new.ledger.kept ≡ []) }
        ensures grown { OnOk result (Grown 1 2 0 0 0 self.old self.new) }
        ensures works { OnOk result (Works 1 0 0 self.old self.new) }
        ensures node { IfOk result (λ x. (x < length self.new.tree.tree.labels) × (tag_at self.new.tree.tree x ≡ element_tag tag)) }
        ensures made { IfOk result (λ x. x ≡ length self.old.tree.tree.labels) }
        ensures exact { OnOk result (IsTree (placed_at (void_of self.old tag token.now) target (counting (number_of self.old.ledger + 1) self.old.tree)) self.new) }
        ensures fate { OnOk result (HasFate (Start tag) (Made (length self.old.tree.tree.labels)) self.old self.new) }
        ensures refuses { IfErr result (λ e. Refuses token.now e self.old self.new) }
    {
        let name = copy_element_name(self.alloc(), token, tag)?;
        let attrs = copy_attrs(self.alloc(), token)?;
        let number = self.give_made(Symbol::Start(tag))?;
        self.tree.laws();
        let node = self.tree.insert_void(name, attrs, number, target)?;
        Ok(node)
    }

    /// Makes the element of a start tag of a formatting name, puts it at the place for the current node, opens it, and adds it to the list.
    #[tactic(auto, using(crate::proofs::Doing::doing_rules))]
    pub fn insert_listed(&mut self, token: &TokenKind, tag: Tag) -> Result<(), ArenaError>
        requires symbol { symbol_of token.now ≡ Start tag }
        requires opened { 0 < length self.old.stack }
        requires formatting { is_formatting tag ≡ true }
        requires quiet { self.old.ledger.kept ≡ [] }
        requires listed { length self.old.tree.list ≤ length self.old.ledger.fates }
        ensures rest { OnOk result (self.new ≡ record self.old { tree = self.new.tree; ledger = self.new.ledger; stack = tag ∷ self.old.stack }) }
        ensures takes { OnOk result (Takes token.now self.old self.new) }
        ensures quiet { OnOk result (self.new.ledger.kept ≡ []) }
        ensures grown { OnOk result (Grown 1 2 1 0 0 self.old self.new) }
        ensures works { OnOk result (Works 2 0 (length (attrs_of token.now) * span_of self.new) self.old self.new) }
        ensures exact { OnOk result (IsTree (listed_at self.old.fostering (tag_name token.now) (attrs_of token.now) (number_of self.old.ledger) self.old.tree) self.new) }
        ensures fate { OnOk result (HasFate (Start tag) (Made (length self.old.tree.tree.labels)) self.old self.new) }
        ensures refuses { IfErr result (λ e. Refuses token.now e self.old self.new) }
        ensures follows { OnOk result (Does InsertListed token.now self.old self.new) }
    {
        let name = copy_name(self.alloc(), token)?;
        let attrs = copy_attrs(self.alloc(), token)?;
        let number = self.give_made(Symbol::Start(tag))?;
        let foster = self.registers.fostering;
        self.tree.laws();
        self.tree.insert_listed(name, attrs, number, foster)?;
        Ok(())
    }

    /// Makes the html element of a start tag, puts it last in the document and opens it.
    #[tactic(auto, using(crate::proofs::Doing::doing_rules))]
    pub fn insert_root(&mut self, token: &TokenKind) -> Result<(), ArenaError>
        requires symbol { symbol_of token.now ≡ Start tag.Html }
        requires quiet { self.old.ledger.kept ≡ [] }
        ensures rest { OnOk result (self.new ≡ record self.old { tree = self.new.tree; ledger = self.new.ledger; stack = tag.Html ∷ self.old.stack }) }
        ensures takes { OnOk result (Takes token.now self.old self.new) }
        ensures quiet { OnOk result (self.new.ledger.kept ≡ []) }
        ensures grown { OnOk result (Grown 1 2 0 0 0 self.old self.new) }
        ensures works { OnOk result (Works 1 0 0 self.old self.new) }
        ensures exact { OnOk result (IsTree (opened_at (root_of self.old token.now) Document (counting (number_of self.old.ledger + 1) self.old.tree)) self.new) }
        ensures fate { OnOk result (HasFate (Start tag.Html) (Made (length self.old.tree.tree.labels)) self.old self.new) }
        ensures refuses { IfErr result (λ e. Refuses token.now e self.old self.new) }
        ensures follows { OnOk result (Does InsertRoot token.now self.old self.new) }
    {
        let attrs = copy_attrs(self.alloc(), token)?;
        let number = self.give_made(Symbol::Start(Tag::Html))?;
        self.tree.laws();
        self.tree.insert_root(attrs, number)?;
        Ok(())
    }

    /// Makes a comment at the place for the current node.
    #[tactic(auto, using(crate::proofs::Doing::doing_rules))]
    pub fn insert_comment(&mut self, token: &TokenKind) -> Result<(), ArenaError>
        requires symbol { symbol_of token.now ≡ Comment }
        requires opened { 0 < length self.old.stack }
        requires quiet { self.old.ledger.kept ≡ [] }
        ensures rest { OnOk result (self.new ≡ record self.old { tree = self.new.tree; ledger = self.new.ledger }) }
        ensures takes { OnOk result (Takes token.now self.old self.new) }
        ensures quiet { OnOk result (self.new.ledger.kept ≡ []) }
        ensures grown { OnOk result (Grown 1 2 0 0 0 self.old self.new) }
        ensures works { OnOk result (Works 1 0 0 self.old self.new) }
        ensures exact { OnOk result (IsTree (placed_at (comment_of self.old token.now) (Current self.old.fostering) (counting (number_of self.old.ledger + 1) self.old.tree)) self.new) }
        ensures fate { OnOk result (HasFate Comment (Made (length self.old.tree.tree.labels)) self.old self.new) }
        ensures refuses { IfErr result (λ e. Refuses token.now e self.old self.new) }
        ensures follows { OnOk result (Does InsertComment token.now self.old self.new) }
    {
        let target = self.here();
        self.insert_comment_at(token, target)
    }

    /// Makes a comment at a target.
    #[tactic(auto, using(crate::proofs::Doing::doing_rules))]
    pub fn insert_comment_at(&mut self, token: &TokenKind, target: Target) -> Result<(), ArenaError>
        requires symbol { symbol_of token.now ≡ Comment }
        requires target { CanTarget self.old.stack target }
        requires quiet { self.old.ledger.kept ≡ [] }
        ensures rest { OnOk result (self.new ≡ record self.old { tree = self.new.tree; ledger = self.new.ledger }) }
        ensures takes { OnOk result (Takes token.now self.old self.new) }
        ensures quiet { OnOk result (self.new.ledger.kept ≡ []) }
        ensures grown { OnOk result (Grown 1 2 0 0 0 self.old self.new) }
        ensures works { OnOk result (Works 1 0 0 self.old self.new) }
        ensures exact { OnOk result (IsTree (placed_at (comment_of self.old token.now) target (counting (number_of self.old.ledger + 1) self.old.tree)) self.new) }
        ensures fate { OnOk result (HasFate Comment (Made (length self.old.tree.tree.labels)) self.old self.new) }
        ensures refuses { IfErr result (λ e. Refuses token.now e self.old self.new) }
        ensures follows { OnOk result (Does (InsertCommentAt target) token.now self.old self.new) }
    {
        let text = copy_data(self.alloc(), token)?;
        let number = self.give_made(Symbol::Comment)?;
        self.tree.laws();
        self.tree.insert_comment(text, number, target)?;
        Ok(())
    }

    /// Makes a doctype last in the document. The history awaits one.
    #[tactic(auto, using(crate::proofs::Doing::doing_rules))]
    pub fn insert_doctype(&mut self, token: &TokenKind) -> Result<(), ArenaError>
        requires symbol { symbol_of token.now ≡ Doctype }
        requires awaited { self.old.ledger.history.awaits_doctype ≡ true }
        requires quiet { self.old.ledger.kept ≡ [] }
        ensures rest { OnOk result (self.new ≡ record self.old { tree = self.new.tree; ledger = self.new.ledger }) }
        ensures takes { OnOk result (Takes token.now self.old self.new) }
        ensures quiet { OnOk result (self.new.ledger.kept ≡ []) }
        ensures grown { OnOk result (Grown 1 2 0 0 0 self.old self.new) }
        ensures works { OnOk result (Works 1 0 0 self.old self.new) }
        ensures exact { OnOk result (IsTree (placed_at (doctype_of self.old token.now) Document (counting (number_of self.old.ledger + 1) self.old.tree)) self.new) }
        ensures fate { OnOk result (HasFate Doctype (Made (length self.old.tree.tree.labels)) self.old self.new) }
        ensures refuses { IfErr result (λ e. Refuses token.now e self.old self.new) }
        ensures follows { OnOk result (Does InsertDoctype token.now self.old self.new) }
    {
        let ids = copy_doctype(token)?;
        let number = self.give_made(Symbol::Doctype)?;
        self.tree.laws();
        self.tree
            .insert_doctype(ids.name, ids.public, ids.system, number)?;
        Ok(())
    }

    /// Adds the attributes of a start tag html, whose names it lacks, to the first open element, which is an html. Its fate is Merged.
    #[tactic(auto, using(crate::proofs::Doing::doing_rules))]
    pub fn merge_into_root(&mut self, token: &TokenKind) -> Result<(), ArenaError>
        requires symbol { symbol_of token.now ≡ Start tag.Html }
        requires opened { 0 < length self.old.stack }
        requires quiet { self.old.ledger.kept ≡ [] }
        ensures rest { OnOk result (self.new ≡ record self.old { tree = self.new.tree; ledger = self.new.ledger }) }
        ensures takes { OnOk result (Takes token.now self.old self.new) }
        ensures quiet { OnOk result (self.new.ledger.kept ≡ []) }
        ensures grown { OnOk result (Grown 1 0 0 0 0 self.old self.new) }
        ensures works { OnOk result (Works 1 0 (length (attrs_of token.now) * span_of self.new) self.old self.new) }
        ensures exact { OnOk result (IsTree (record self.old.tree { tree = bare (with_merged self.old.tree.tree (slice_index self.old.tree.stack 0) (attrs_of token.now)) }) self.new) }
        ensures fate { OnOk result (HasFate (Start tag.Html) Merged self.old self.new) }
        ensures refuses { IfErr result (λ e. Refuses token.now e self.old self.new) }
        ensures follows { OnOk result (Does MergeIntoRoot token.now self.old self.new) }
    {
        self.tree.laws();
        self.merge_into(token, Tag::Html, 0)
    }

    /// Adds the attributes of a start tag body, whose names it lacks, to the second open element, a body. Its fate is Merged.
    #[tactic(auto, using(crate::proofs::Doing::doing_rules))]
    pub fn merge_into_body(&mut self, token: &TokenKind) -> Result<(), ArenaError>
        requires symbol { symbol_of token.now ≡ Start tag.Body }
        requires second { 1 < length self.old.stack }
        requires body { named self.old.tree.tree tag.Body (slice_index self.old.tree.stack 1) ≡ true }
        requires quiet { self.old.ledger.kept ≡ [] }
        ensures rest { OnOk result (self.new ≡ record self.old { tree = self.new.tree; ledger = self.new.ledger }) }
        ensures takes { OnOk result (Takes token.now self.old self.new) }
        ensures quiet { OnOk result (self.new.ledger.kept ≡ []) }
        ensures grown { OnOk result (Grown 1 0 0 0 0 self.old self.new) }
        ensures works { OnOk result (Works 1 0 (length (attrs_of token.now) * span_of self.new) self.old self.new) }
        ensures exact { OnOk result (IsTree (record self.old.tree { tree = bare (with_merged self.old.tree.tree (slice_index self.old.tree.stack 1) (attrs_of token.now)) }) self.new) }
        ensures fate { OnOk result (HasFate (Start tag.Body) Merged self.old self.new) }
        ensures refuses { IfErr result (λ e. Refuses token.now e self.old self.new) }
        ensures follows { OnOk result (Does MergeIntoBody token.now self.old self.new) }
    {
        self.merge_into(token, Tag::Body, 1)
    }

    /// Adds the attributes of a start tag html or body, whose names it lacks, to the open element of its name at an index. Its
    /// fate is Merged.
    fn merge_into(&mut self, token: &TokenKind, tag: Tag, index: usize) -> Result<(), ArenaError>
        requires symbol { symbol_of token.now ≡ Start tag }
        requires outermost { is_outermost tag ≡ true }
        requires index { index < length self.old.stack }
        requires early { index ≤ 1 }
        requires own { named self.old.tree.tree tag (slice_index self.old.tree.stack index) ≡ true }
        requires quiet { self.old.ledger.kept ≡ [] }
        ensures rest { OnOk result (self.new ≡ record self.old { tree = self.new.tree; ledger = self.new.ledger }) }
        ensures takes { OnOk result (Takes token.now self.old self.new) }
        ensures quiet { OnOk result (self.new.ledger.kept ≡ []) }
        ensures grown { OnOk result (Grown 1 0 0 0 0 self.old self.new) }
        ensures works { OnOk result (Works 1 0 (length (attrs_of token.now) * span_of self.new) self.old self.new) }
        ensures exact { OnOk result (IsTree (record self.old.tree { tree = bare (with_merged self.old.tree.tree (slice_index self.old.tree.stack index) (attrs_of token.now)) }) self.new) }
        ensures fate { OnOk result (HasFate (Start tag) Merged self.old self.new) }
        ensures refuses { IfErr result (λ e. Refuses token.now e self.old self.new) }
    {
        let attrs = copy_attrs(self.alloc(), token)?;
        self.tree.merge(index, attrs)?;
        self.ledger.give(Symbol::Start(tag), Fate::Merged)?;
        Ok(())
    }
}

impl Construction {
    /// Makes an element that no token asked for, puts it at the place for the current node and opens it. No token gets a fate.
    #[tactic(auto, using(crate::proofs::Doing::doing_rules))]
    pub fn insert_implied(&mut self, tag: Tag) -> Result<(), ArenaError>
        requires alone { is_made_alone tag ≡ true }
        requires part { is_part tag ≡ false }
        requires named { opens tag ≡ true }
        requires opened { 0 < length self.old.stack }
        ensures rest { OnOk result (self.new ≡ record self.old { tree = self.new.tree; stack = tag ∷ self.old.stack }) }
        ensures keeps { OnOk result (Keeps self.old self.new) }
        ensures grown { OnOk result (Grown 0 2 0 0 1 self.old self.new) }
        ensures works { OnOk result (Works 1 0 0 self.old self.new) }
        ensures exact { OnOk result (IsTree (opened_at (implied_of tag) (Current self.old.fostering) self.old.tree) self.new) }
        ensures refuses { IfErr result (λ e. RefusesAny e self.old self.new) }
        ensures follows { OnOk result (DoesAny (Imply tag) self.old self.new) }
    {
        let _ = self.open_implied(tag)?;
        Ok(())
    }

    /// Makes an element that no token asked for, puts it at the place for the current node and opens it, and answers it.
    pub(super) fn open_implied(&mut self, tag: Tag) -> Result<NodeId, ArenaError>
        requires alone { is_made_alone tag ≡ true }
        requires part { is_part tag ≡ false }
        requires named { opens tag ≡ true }
        requires opened { 0 < length self.old.stack }
        ensures rest { OnOk result (self.new ≡ record self.old { tree = self.new.tree; stack = tag ∷ self.old.stack }) }
        ensures keeps { OnOk result (Keeps self.old self.new) }
        ensures grown { OnOk result (Grown 0 2 0 0 1 self.old self.new) }
        ensures works { OnOk result (Works 1 0 0 self.old self.new) }
        ensures node { IfOk result (λ x. (x < length self.new.tree.tree.labels) × (tag_at self.new.tree.tree x ≡ tag)) }
        ensures made { IfOk result (λ x. x ≡ length self.old.tree.tree.labels) }
        ensures exact { OnOk result (IsTree (opened_at (implied_of tag) (Current self.old.fostering) self.old.tree) self.new) }
        ensures refuses { IfErr result (λ e. RefusesAny e self.old self.new) }
    {
        self.tree.laws();
        let node = self.tree.insert_implied(tag, self.registers.fostering)?;
        Ok(node)
    }

    /// Makes a part of a table that no token asked for, puts it in the current node and opens it, where that may hold it, as it always may
    /// in a real run. No token gets a fate.
    #[tactic(auto, using(crate::proofs::Doing::doing_rules))]
    pub fn insert_implied_part(&mut self, tag: Tag) -> Result<(), ArenaError>
        requires alone { is_made_alone tag ≡ true }
        requires part { is_part tag ≡ true }
        requires opened { 0 < length self.old.stack }
        ensures rest { OnOk result (self.new ≡ record self.old { tree = self.new.tree; stack = self.new.stack }) }
        ensures keeps { OnOk result (Keeps self.old self.new) }
        ensures grown { OnOk result (Grown 0 2 0 0 1 self.old self.new) }
        ensures works { OnOk result (Works 1 0 1 self.old self.new) }
        ensures opened { OnOk result (0 < length self.new.stack) }
        ensures heavier { OnOk result (weight self.new.stack ≤ weight self.old.stack + 4) }
        ensures tags { OnOk result (self.new.stack ≡ (if has_seat self.old.tree tag then tag ∷ self.old.stack else self.old.stack)) }
        ensures exact { OnOk result (has_seat self.old.tree tag ≡ true → IsTree (opened_at (implied_of tag) (Current false) self.old.tree) self.new) }
        ensures same { OnOk result (has_seat self.old.tree tag ≡ false → IsTree self.old.tree self.new) }
        ensures refuses { IfErr result (λ e. RefusesAny e self.old self.new) }
        ensures follows { OnOk result (Passes (implying_part tag) self.old self.new) }
    {
        if self.has_seat(tag) {
            self.open_implied_part(tag)?;
        }
        Ok(())
    }

    /// Makes a part of a table that no token asked for, puts it in the current node, which may hold it, and opens it.
    fn open_implied_part(&mut self, tag: Tag) -> Result<(), ArenaError>
        requires alone { is_made_alone tag ≡ true }
        requires seat { has_seat self.old.tree tag ≡ true }
        requires named { opens tag ≡ true }
        requires opened { 0 < length self.old.stack }
        ensures rest { OnOk result (self.new ≡ record self.old { tree = self.new.tree; stack = tag ∷ self.old.stack }) }
        ensures keeps { OnOk result (Keeps self.old self.new) }
        ensures grown { OnOk result (Grown 0 2 0 0 1 self.old self.new) }
        ensures works { OnOk result (Works 1 0 0 self.old self.new) }
        ensures exact { OnOk result (IsTree (opened_at (implied_of tag) (Current false) self.old.tree) self.new) }
        ensures refuses { IfErr result (λ e. RefusesAny e self.old self.new) }
    {
        self.tree.laws();
        self.tree.insert_implied(tag, false)?;
        Ok(())
    }

    /// Makes an element that no token asked for and puts it at the place for the current node; it is not opened. No token gets a fate.
    #[tactic(auto, using(crate::proofs::Doing::doing_rules))]
    pub fn insert_implied_void(&mut self, tag: Tag) -> Result<(), ArenaError>
        requires alone { is_made_alone tag ≡ true }
        requires part { is_part tag ≡ false }
        requires named { is_foreign_root tag ≡ false }
        requires opened { 0 < length self.old.stack }
        ensures rest { OnOk result (self.new ≡ record self.old { tree = self.new.tree }) }
        ensures keeps { OnOk result (Keeps self.old self.new) }
        ensures grown { OnOk result (Grown 0 2 0 0 1 self.old self.new) }
        ensures works { OnOk result (Works 1 0 0 self.old self.new) }
        ensures exact { OnOk result (IsTree (placed_at (implied_of tag) (Current self.old.fostering) self.old.tree) self.new) }
        ensures refuses { IfErr result (λ e. RefusesAny e self.old self.new) }
        ensures follows { OnOk result (DoesAny (ImplyVoid tag) self.old self.new) }
    {
        self.tree.laws();
        self.tree
            .insert_implied_void(tag, self.registers.fostering)?;
        Ok(())
    }

    /// Makes an html element that no token asked for, puts it last in the document and opens it. No token gets a fate.
    #[tactic(auto, using(crate::proofs::Doing::doing_rules))]
    pub fn insert_implied_root(&mut self) -> Result<(), ArenaError>
        ensures rest { OnOk result (self.new ≡ record self.old { tree = self.new.tree; stack = tag.Html ∷ self.old.stack }) }
        ensures keeps { OnOk result (Keeps self.old self.new) }
        ensures grown { OnOk result (Grown 0 2 0 0 1 self.old self.new) }
        ensures works { OnOk result (Works 1 0 0 self.old self.new) }
        ensures exact { OnOk result (IsTree (opened_at (implied_of tag.Html) Document self.old.tree) self.new) }
        ensures refuses { IfErr result (λ e. RefusesAny e self.old self.new) }
        ensures follows { OnOk result (DoesAny ImplyRoot self.old self.new) }
    {
        self.tree.laws();
        self.tree.insert_implied_root()?;
        Ok(())
    }
}
