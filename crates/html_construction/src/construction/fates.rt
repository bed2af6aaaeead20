// The fates of tokens, which the ledger keeps. Each call gives the next token its one fate, and asks that none is kept without one.
ghost use Rattle.std.specs.Prelude.{◌≡◌, ◌+◌, ◌≤◌, ◌∷◌, [], ◌++◌, IfOk, IfSome, IsTrue, ◌≢◌, false, OnErr, OnOk, None, true, length, IfErr};
ghost use Rattle.html_ledger.specs.Symbols.{symbol_of};
ghost use Rattle.html_ledger.specs.Entries.{Takes as LedgerTakes, ended, given, number_of};
ghost use Rattle.html_ledger.specs.Fated.{is_end};
ghost use Rattle.html_ledger.specs.Fates.{is_made};
ghost use Rattle.html_ledger.specs.Flags.{is_free, may_drop, may_make, must_drop};
ghost use Rattle.html_ledger.specs.declared.symbol.Symbol.TheVariants.{Char};
ghost use Rattle.html_tokens.specs.declared.token.TokenKind.TheVariants as kind;
ghost use Rattle.html_construction.specs.Begun.{drops_in};
ghost use Rattle.html_construction.specs.Budgets.{RefusesAny};
ghost use Rattle.html_construction.specs.declared.mode.Mode.{Mode};
ghost use Rattle.html_construction.specs.Built.{Keeps, Releases, Takes, ends_made};
ghost use Rattle.html_construction.specs.Grown.{Grown};
ghost use Rattle.html_construction.specs.Works.{Works};
ghost use Rattle.html_ledger.specs.declared.fate.Fate.TheVariants.{Dropped, Made};
ghost use Rattle.html_construction.specs.Calls.{HasFate, is_idle};
ghost use Rattle.html_construction.specs.Plans.{Does};
ghost use Rattle.html_construction.specs.Words.{Drop as DropFor, End, Keep, with_kept};

use super::Construction;
use html_arena::{ArenaError, NodeId};
use html_ledger::{Cause, Fate, Symbol};
use html_tokens::TokenKind;

impl Construction {
    /// Gives the token in hand the fate of which the next node is made, and answers its number. The node is made next: a token that is
    /// the origin of a node has its fate also where that is refused.
    pub(super) fn give_made(&mut self, symbol: Symbol) -> Result<u64, ArenaError>
        requires may { IsTrue (may_make self.old.ledger.history symbol) }
        requires quiet { self.old.ledger.kept ≡ [] }
        ensures takes { OnOk result (LedgerTakes symbol self.old.ledger self.new.ledger) }
        ensures quiet { OnOk result (self.new.ledger.kept ≡ []) }
        ensures rest { self.new ≡ record self.old { ledger = self.new.ledger } }
        ensures number { IfOk result (λ n. n ≡ number_of self.old.ledger) }
        ensures counted { OnOk result (number_of self.new.ledger ≡ number_of self.old.ledger + 1) }
        ensures behind { self.new.tree.tokens ≤ number_of self.old.ledger }
        ensures fate { OnOk result (HasFate symbol (Made (length self.old.tree.tree.labels)) self.old self.new) }
        ensures memory { IfErr result (λ e. e ≡ ArenaError.OutOfMemory) }
    {
        let token = self.ledger.number();
        let node = NodeId::at(self.tree.node_count() as usize);
        self.ledger.give(symbol, Fate::Made(node))?;
        Ok(token)
    }

    /// Drops the token in hand, which the history allows for this cause, and the mode in which its call began.
    #[tactic(auto, using(crate::proofs::Doing::doing_rules))]
    pub fn drop_token(
        &mut self,
        token: &TokenKind,
        symbol: Symbol,
        cause: Cause,
    ) -> Result<(), ArenaError>
        requires symbol { symbol_of token.now ≡ symbol }
        requires may { IsTrue (may_drop self.old.ledger.history symbol cause) }
        requires allowed { IsTrue (drops_in cause self.old.began) }
        requires quiet { self.old.ledger.kept ≡ [] }
        ensures rest { OnOk result (self.new ≡ record self.old { ledger = self.new.ledger }) }
        ensures takes { OnOk result (Takes token.now self.old self.new) }
        ensures quiet { OnOk result (self.new.ledger.kept ≡ []) }
        ensures grown { OnOk result (Grown 1 0 0 0 0 self.old self.new) }
        ensures works { OnOk result (Works 0 0 0 self.old self.new) }
        ensures fate { OnOk result (HasFate symbol (Dropped cause) self.old self.new) }
        ensures memory { IfErr result (λ e. e ≡ ArenaError.OutOfMemory) }
        ensures refuses { IfErr result (λ e. RefusesAny e self.old self.new) }
        ensures follows { OnOk result (Does (DropFor cause) token.now self.old self.new) }
    {
        self.ledger.give(symbol, Fate::Dropped(cause))?;
        Ok(())
    }

    /// An end tag, or the end of the page, is done with. It was ignored where it took nothing off the stack and made no node.
    #[tactic(auto, using(crate::proofs::Doing::doing_rules))]
    pub fn end(&mut self, token: &TokenKind, symbol: Symbol) -> Result<(), ArenaError>
        requires symbol { symbol_of token.now ≡ symbol }
        requires end { IsTrue (is_end symbol) }
        requires quiet { self.old.ledger.kept ≡ [] }
        ensures rest { OnOk result (self.new ≡ record self.old { ledger = self.new.ledger }) }
        ensures takes { OnOk result (Takes token.now self.old self.new) }
        ensures quiet { OnOk result (self.new.ledger.kept ≡ []) }
        ensures grown { OnOk result (Grown 1 0 0 0 0 self.old self.new) }
        ensures works { OnOk result (Works 0 0 0 self.old self.new) }
        ensures ended { OnOk result (self.new.ledger ≡ ended self.old.ledger symbol (is_idle self.old)) }
        ensures memory { IfErr result (λ e. e ≡ ArenaError.OutOfMemory) }
        ensures refuses { IfErr result (λ e. RefusesAny e self.old self.new) }
        ensures follows { OnOk result (Does End token.now self.old self.new) }
    {
        let ignored = self.is_idle();
        self.ledger.end(symbol, ignored)?;
        Ok(())
    }

    /// Whether a node was made of the last token that has a fate.
    pub fn last_made(&self) -> bool
        ensures value { result ≡ ends_made self.now.ledger.fates }
    {
        match self.ledger.fates().last() {
            Some(fate) => fate.is_made(),
            None => false,
        }
    }

    /// The cause by which a token has to be dropped in every insertion mode.
    pub fn must_drop(&self, symbol: Symbol) -> Option<Cause>
        ensures may { IfSome result (λ cause. IsTrue (may_drop self.now.ledger.history symbol cause)) }
        ensures allowed { IfSome result (λ cause. (m : Mode) → IsTrue (drops_in cause m)) }
        ensures free { result ≡ None → IsTrue (is_free self.now.ledger.history symbol) }
        ensures value { result ≡ must_drop self.now.ledger.history symbol }
    {
        self.ledger.history().must_drop(symbol)
    }

    /// Keeps a code point of a table's text, without a fate.
    #[tactic(auto, using(crate::proofs::Doing::kept_rules))]
    pub fn keep(&mut self, token: &TokenKind, c: char) -> Result<(), ArenaError>
        requires symbol { symbol_of token.now ≡ Char c }
        ensures rest { OnOk result (self.new ≡ record self.old { ledger = self.new.ledger }) }
        ensures takes { OnOk result (Takes token.now self.old self.new) }
        ensures grown { OnOk result (Grown 0 0 0 0 0 self.old self.new) }
        ensures works { OnOk result (Works 0 0 0 self.old self.new) }
        ensures kept { OnOk result (self.new.ledger.kept ≡ self.old.ledger.kept ++ c ∷ []) }
        ensures follows { OnOk result (Does Keep token.now self.old self.new) }
        ensures memory { IfErr result (λ e. e ≡ ArenaError.OutOfMemory) }
        ensures refuses { IfErr result (λ e. RefusesAny e self.old self.new) }
    {
        self.ledger.keep(c)?;
        Ok(())
    }

    /// Takes out the code points that were kept: they get their fates next, in order.
    pub fn take_kept(&mut self) -> Vec<char>
        ensures rest { self.new ≡ record self.old { ledger = self.new.ledger } }
        ensures releases { Releases result.items self.old self.new }
        ensures quiet { self.new.ledger.kept ≡ [] }
        ensures grown { Grown 0 0 0 0 0 self.old self.new }
        ensures works { Works 0 0 0 self.old self.new }
        ensures taken { result.items ≡ self.old.ledger.kept }
        ensures exact { self.new ≡ with_kept [] self.old }
    {
        self.ledger.take_kept()
    }

    /// Whether every token handed in has its fate.
    pub fn is_quiet(&self) -> bool
        ensures value { result ≡ true → self.now.ledger.kept ≡ [] }
        ensures unsettled { result ≡ false → self.now.ledger.kept ≢ [] }
    {
        self.ledger.is_quiet()
    }

    /// Code points that were taken out get their fates one by one, and then the tokens handed in are those from before.
    pub fn settling(&self)
        ensures next { (a : _) (b : _) (d : _) (c : _) (cs : _) → Releases (c ∷ cs) a b → Takes (kind.Char c) b d → Releases cs a d }
        ensures settled { (a : _) (b : _) → Releases [] a b → Keeps a b }
    {
        let _ = &self.ledger;
    }
}
