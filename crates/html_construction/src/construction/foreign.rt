// Foreign content (13.2.6, 13.2.6.5).
ghost use Rattle.std.specs.Prelude.{◌≡◌, ◌+◌, ◌<◌, ◌≤◌, ◌∷◌, [], ◌==◌, ◌||◌, IfErr, IfOk, IsTrue, OnOk, false, length, true, slice_get, Some, is_some, if◌then◌else◌};
ghost use Rattle.std.specs.Str.{chars};
ghost use Rattle.html_names.specs.Foreign.{is_html_point, is_html_space};
ghost use Rattle.html_names.specs.Names.{tag_of};
ghost use Rattle.html_arena.specs.Tree.{tag_at};
ghost use Rattle.html_tree.specs.declared.groups.Target.TheVariants.{Current};
ghost use Rattle.html_tree.specs.Closing.{before_index};
ghost use Rattle.html_tree.specs.Foreign.{found_foreign, is_at_html_point, left_foreign};
ghost use Rattle.html_tree.specs.OpenTags.{open_tags};
ghost use Rattle.html_tree.specs.Texts.{text_node, with_text};
ghost use Rattle.html_ledger.specs.declared.fate.Fate.TheVariants.{Foreign, Text};
ghost use Rattle.html_ledger.specs.declared.symbol.Symbol.TheVariants.{Char, Start};
ghost use Rattle.html_ledger.specs.Entries.{Takes as LedgerTakes, number_of};
ghost use Rattle.html_ledger.specs.Flags.{may_embed};
ghost use Rattle.html_ledger.specs.Symbols.{symbol_of};
ghost use Rattle.html_construction.specs.Budgets.{Refuses, RefusesAny};
ghost use Rattle.html_construction.specs.Built.{Keeps, Takes};
ghost use Rattle.html_construction.specs.Calls.{HasFate, IsTree, counting, foreign_of, opened_at, placed_at};
ghost use Rattle.html_construction.specs.Foreign.{adjusted_tag, foreign_tag};
ghost use Rattle.html_construction.specs.Grown.{Grown};
ghost use Rattle.html_construction.specs.Plans.{Does};
ghost use Rattle.html_construction.specs.Tokens.{foreign_name, tag_name};
ghost use Rattle.html_construction.specs.Weights.{weight};
ghost use Rattle.html_construction.specs.Words.{InsertForeign, InsertForeignVoid, InsertReplacement};
ghost use Rattle.html_construction.specs.Works.{Works};

use super::Construction;
use crate::token::{copy_foreign_attrs, copy_foreign_name};
use html_arena::{ArenaError, NodeId};
use html_ledger::{Fate, Symbol};
use html_names::{Space, Tag};
use html_tokens::TokenKind;
use html_tree::Target;

impl Construction {
    /// From here on foreign content is parsed, and not refused.
    pub fn parse_foreign(&mut self)
        ensures rest { self.new ≡ record self.old { parses_foreign = true } }
        ensures keeps { Keeps self.old self.new }
    {
        self.registers.parses_foreign = true;
    }

    /// Whether foreign content is parsed, or refused.
    pub fn parses_foreign(&self) -> bool
        ensures value { result ≡ self.now.parses_foreign }
    {
        self.registers.parses_foreign
    }

    /// Whether the first element alone is open, as at the beginning of a fragment.
    pub fn is_root_alone(&self) -> bool
        ensures value { result ≡ (length self.now.tree.stack == 1) }
    {
        self.tree.depth() == 1
    }

    /// The tag of the adjusted current node (13.2.4.2): of a fragment of which the root alone is open it is the context; none where nothing is open.
    pub fn adjusted_tag(&self) -> Option<Tag>
        ensures tag { result ≡ adjusted_tag self.now }
    {
        if self.is_root_alone() {
            if let Some(context) = self.registers.context {
                return Some(context);
            }
        }
        self.tree.top_tag()
    }

    /// The tag of the adjusted current node, if that is one of foreign content. It is none where none was made and none is the context.
    pub fn foreign_tag(&self) -> Option<Tag>
        ensures tag { result ≡ foreign_tag self.now }
    {
        if !self.ledger.history().foreign {
            return None;
        }
        match self.adjusted_tag() {
            Some(tag) => if tag.is_foreign() { Some(tag) } else { None },
            None => None,
        }
    }

    /// Whether the current node is an HTML integration point (13.2.6).
    pub fn is_at_html_point(&self) -> bool
        ensures answer { result ≡ is_at_html_point self.now.tree }
    {
        self.tree.is_at_html_point()
    }

    /// Makes the element of foreign content of a start tag, in a namespace, puts it at the place for the current node and opens it. Its fate is
    /// Foreign, of that node.
    #[tactic(auto, using(crate::proofs::Doing::doing_rules))]
    pub fn insert_foreign(
        &mut self,
        token: &TokenKind,
        tag: Tag,
        space: Space,
    ) -> Result<(), ArenaError>
        requires symbol { symbol_of token.now ≡ Start tag }
        requires outside { is_html_space space ≡ false }
        requires may { IsTrue (may_embed self.old.ledger.history (Start tag)) }
        requires asked { IsTrue (self.old.parses_foreign || self.old.ledger.history.foreign) }
        requires opened { 0 < length self.old.stack }
        requires quiet { self.old.ledger.kept ≡ [] }
        ensures rest { OnOk result (self.new ≡ record self.old { tree = self.new.tree; ledger = self.new.ledger; stack = tag_of (foreign_name space (tag_name token.now)) ∷ self.old.stack }) }
        ensures takes { OnOk result (Takes token.now self.old self.new) }
        ensures quiet { OnOk result (self.new.ledger.kept ≡ []) }
        ensures grown { OnOk result (Grown 1 2 0 0 0 self.old self.new) }
        ensures works { OnOk result (Works 1 0 0 self.old self.new) }
        ensures exact { OnOk result (IsTree (opened_at (foreign_of self.old space token.now) (Current self.old.fostering) (counting (number_of self.old.ledger + 1) self.old.tree)) self.new) }
        ensures fate { OnOk result (HasFate (Start tag) (Foreign (length self.old.tree.tree.labels)) self.old self.new) }
        ensures follows { OnOk result (Does (InsertForeign space) token.now self.old self.new) }
        ensures refuses { IfErr result (λ e. Refuses token.now e self.old self.new) }
    {
        let target = self.here();
        let _ = self.open_foreign_at(token, tag, space, target)?;
        Ok(())
    }

    /// The same for a start tag that closes itself: the element is not opened.
    #[tactic(auto, using(crate::proofs::Doing::doing_rules))]
    pub fn insert_foreign_void(
        &mut self,
        token: &TokenKind,
        tag: Tag,
        space: Space,
    ) -> Result<(), ArenaError>
        requires symbol { symbol_of token.now ≡ Start tag }
        requires outside { is_html_space space ≡ false }
        requires may { IsTrue (may_embed self.old.ledger.history (Start tag)) }
        requires asked { IsTrue (self.old.parses_foreign || self.old.ledger.history.foreign) }
        requires opened { 0 < length self.old.stack }
        requires quiet { self.old.ledger.kept ≡ [] }
        ensures rest { OnOk result (self.new ≡ record self.old { tree = self.new.tree; ledger = self.new.ledger }) }
        ensures takes { OnOk result (Takes token.now self.old self.new) }
        ensures quiet { OnOk result (self.new.ledger.kept ≡ []) }
        ensures grown { OnOk result (Grown 1 2 0 0 0 self.old self.new) }
        ensures works { OnOk result (Works 1 0 0 self.old self.new) }
        ensures exact { OnOk result (IsTree (placed_at (foreign_of self.old space token.now) (Current self.old.fostering) (counting (number_of self.old.ledger + 1) self.old.tree)) self.new) }
        ensures fate { OnOk result (HasFate (Start tag) (Foreign (length self.old.tree.tree.labels)) self.old self.new) }
        ensures follows { OnOk result (Does (InsertForeignVoid space) token.now self.old self.new) }
        ensures refuses { IfErr result (λ e. Refuses token.now e self.old self.new) }
    {
        let target = self.here();
        let _ = self.void_foreign_at(token, tag, space, target)?;
        Ok(())
    }

    /// Makes the element of foreign content of a start tag, puts it at a target, opens it, and answers it.
    fn open_foreign_at(
        &mut self,
        token: &TokenKind,
        tag: Tag,
        space: Space,
        target: Target,
    ) -> Result<NodeId, ArenaError>
        requires symbol { symbol_of token.now ≡ Start tag }
        requires outside { is_html_space space ≡ false }
        requires may { IsTrue (may_embed self.old.ledger.history (Start tag)) }
        requires asked { IsTrue (self.old.parses_foreign || self.old.ledger.history.foreign) }
        requires opened { 0 < length self.old.stack }
        requires quiet { self.old.ledger.kept ≡ [] }
        ensures rest { OnOk result (self.new ≡ record self.old { tree = self.new.tree; ledger = self.new.ledger; stack = tag_of (foreign_name space (tag_name token.now)) ∷ self.old.stack }) }
        ensures takes { OnOk result (Takes token.now self.old self.new) }
        ensures quiet { OnOk result (self.new.ledger.kept ≡ []) }
        ensures grown { OnOk result (Grown 1 2 0 0 0 self.old self.new) }
        ensures works { OnOk result (Works 1 0 0 self.old self.new) }
        ensures exact { OnOk result (IsTree (opened_at (foreign_of self.old space token.now) target (counting (number_of self.old.ledger + 1) self.old.tree)) self.new) }
        ensures fate { OnOk result (HasFate (Start tag) (Foreign (length self.old.tree.tree.labels)) self.old self.new) }
        ensures refuses { IfErr result (λ e. Refuses token.now e self.old self.new) }
    {
        let name = copy_foreign_name(self.alloc(), token, space)?;
        let attrs = copy_foreign_attrs(self.alloc(), token, space)?;
        let number = self.give_foreign(Symbol::Start(tag))?;
        self.tree.laws();
        let node = self.tree.insert(name, attrs, number, target)?;
        Ok(node)
    }

    /// Makes the element of foreign content of a start tag, puts it at a target, and answers it; it is not opened.
    fn void_foreign_at(
        &mut self,
        token: &TokenKind,
        tag: Tag,
        space: Space,
        target: Target,
    ) -> Result<NodeId, ArenaError>
        requires symbol { symbol_of token.now ≡ Start tag }
        requires outside { is_html_space space ≡ false }
        requires may { IsTrue (may_embed self.old.ledger.history (Start tag)) }
        requires asked { IsTrue (self.old.parses_foreign || self.old.ledger.history.foreign) }
        requires opened { 0 < length self.old.stack }
        requires quiet { self.old.ledger.kept ≡ [] }
        ensures rest { OnOk result (self.new ≡ record self.old { tree = self.new.tree; ledger = self.new.ledger }) }
        ensures takes { OnOk result (Takes token.now self.old self.new) }
        ensures quiet { OnOk result (self.new.ledger.kept ≡ []) }
        ensures grown { OnOk result (Grown 1 2 0 0 0 self.old self.new) }
        ensures works { OnOk result (Works 1 0 0 self.old self.new) }
        ensures exact { OnOk result (IsTree (placed_at (foreign_of self.old space token.now) target (counting (number_of self.old.ledger + 1) self.old.tree)) self.new) }
        ensures fate { OnOk result (HasFate (Start tag) (Foreign (length self.old.tree.tree.labels)) self.old self.new) }
        ensures refuses { IfErr result (λ e. Refuses token.now e self.old self.new) }
    {
        let name = copy_foreign_name(self.alloc(), token, space)?;
        let attrs = copy_foreign_attrs(self.alloc(), token, space)?;
        let number = self.give_foreign(Symbol::Start(tag))?;
        self.tree.laws();
        let node = self.tree.insert_void(name, attrs, number, target)?;
        Ok(node)
    }

    /// Adds U+FFFD to the text at the place for the current node, which is the fate of the token U+0000.
    #[tactic(auto, using(crate::proofs::Doing::doing_rules))]
    pub fn insert_null(&mut self, token: &TokenKind) -> Result<(), ArenaError>
        requires symbol { symbol_of token.now ≡ Char 0 }
        requires may { self.old.ledger.history.foreign ≡ true }
        requires opened { 0 < length self.old.stack }
        requires quiet { self.old.ledger.kept ≡ [] }
        ensures rest { OnOk result (self.new ≡ record self.old { tree = self.new.tree; ledger = self.new.ledger }) }
        ensures takes { OnOk result (Takes token.now self.old self.new) }
        ensures quiet { OnOk result (self.new.ledger.kept ≡ []) }
        ensures grown { OnOk result (Grown 1 1 0 0 0 self.old self.new) }
        ensures works { OnOk result (Works 1 0 1 self.old self.new) }
        ensures exact { OnOk result (IsTree (record self.old.tree { tree = with_text self.old.tree self.old.fostering (65533 ∷ []) }) self.new) }
        ensures fate { OnOk result (HasFate (Char 0) (Text (text_node self.old.tree self.old.fostering)) self.old self.new) }
        ensures refuses { IfErr result (λ e. RefusesAny e self.old self.new) }
        ensures follows { OnOk result (Does InsertReplacement token.now self.old self.new) }
    {
        self.tree.laws();
        let run = ['\u{fffd}'];
        let (node, _) = self
            .tree
            .append_run(run.as_slice(), self.registers.fostering)?;
        self.ledger.give(Symbol::Char('\0'), Fate::Text(node))?;
        Ok(())
    }

    /// Closes elements until the current node is one of HTML, or an integration point (13.2.6.5).
    pub fn leave_foreign(&mut self)
        requires opened { 0 < length self.old.stack }
        ensures rest { self.new ≡ record self.old { tree = self.new.tree; stack = self.new.stack } }
        ensures keeps { Keeps self.old self.new }
        ensures grown { Grown 0 0 0 0 0 self.old self.new }
        ensures works { Works 1 0 0 self.old self.new }
        ensures lighter { weight self.new.stack ≤ weight self.old.stack }
        ensures opened { 0 < length self.new.stack }
        ensures tags { self.new.stack ≡ open_tags self.new.tree }
        ensures exact { IsTree (record self.old.tree { stack = left_foreign self.old.tree }) self.new }
    {
        self.tree.laws();
        self.tree.leave_foreign();
    }

    /// Closes the element of foreign content of an end tag, whose name this is, and what stands after it, unless an element of HTML stands after it, and
    /// says whether there is one (13.2.6.5, any other end tag).
    pub fn close_foreign(&mut self, name: &str) -> bool
        requires opened { 0 < length self.old.stack }
        ensures rest { self.new ≡ record self.old { tree = self.new.tree; stack = self.new.stack } }
        ensures keeps { Keeps self.old self.new }
        ensures grown { Grown 0 0 0 0 0 self.old self.new }
        ensures works { Works 2 0 0 self.old self.new }
        ensures lighter { weight self.new.stack ≤ weight self.old.stack }
        ensures opened { 0 < length self.new.stack }
        ensures exact { IsTree (record self.old.tree { stack = before_index (found_foreign self.old.tree (chars name.now)) self.old.tree.stack }) self.new }
        ensures answer { result ≡ is_some (found_foreign self.old.tree (chars name.now)) }
    {
        match self.index_of_foreign(name) {
            Some(index) => {
                self.pop_to(index);
                true
            }
            None => false,
        }
    }

    /// The index of the last open element of foreign content whose local name is this one in lower case, unless one of HTML stands after it.
    fn index_of_foreign(&mut self, name: &str) -> Option<usize>
        ensures rest { self.new ≡ record self.old { tree = self.new.tree } }
        ensures keeps { Keeps self.old self.new }
        ensures grown { Grown 0 0 0 0 0 self.old self.new }
        ensures works { Works 1 0 0 self.old self.new }
        ensures tags { self.new.stack ≡ open_tags self.new.tree }
        ensures index { result ≡ found_foreign self.old.tree (chars name.now) }
        ensures same { IsTree self.old.tree self.new }
    {
        self.tree.laws();
        self.tree.find_foreign(name)
    }

    /// Gives the token in hand the fate Foreign, of which the next node is made, and answers its number.
    fn give_foreign(&mut self, symbol: Symbol) -> Result<u64, ArenaError>
        requires may { IsTrue (may_embed self.old.ledger.history symbol) }
        requires quiet { self.old.ledger.kept ≡ [] }
        ensures takes { OnOk result (LedgerTakes symbol self.old.ledger self.new.ledger) }
        ensures quiet { OnOk result (self.new.ledger.kept ≡ []) }
        ensures rest { self.new ≡ record self.old { ledger = self.new.ledger } }
        ensures number { IfOk result (λ n. n ≡ number_of self.old.ledger) }
        ensures counted { OnOk result (number_of self.new.ledger ≡ number_of self.old.ledger + 1) }
        ensures behind { self.new.tree.tokens ≤ number_of self.old.ledger }
        ensures fate { OnOk result (HasFate symbol (Foreign (length self.old.tree.tree.labels)) self.old self.new) }
        ensures memory { IfErr result (λ e. e ≡ ArenaError.OutOfMemory) }
    {
        let token = self.ledger.number();
        let node = NodeId::at(self.tree.node_count() as usize);
        self.ledger.give(symbol, Fate::Foreign(node))?;
        Ok(token)
    }
}
