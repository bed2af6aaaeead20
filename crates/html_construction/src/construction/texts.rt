// Text at the place for the current node (13.2.6.1, insert a character).
ghost use Rattle.std.specs.Prelude.{◌≡◌, ◌==◌, ◌+◌, ◌<◌, ◌≤◌, [], false, IfOk, IsTrue, OnOk, length, take, ◌∷◌, IfErr};
ghost use Rattle.html_ledger.specs.Symbols.{symbol_of};
ghost use Rattle.html_ledger.specs.Flags.{is_free, may_text_run};
ghost use Rattle.html_ledger.specs.declared.symbol.Symbol.TheVariants.{Char};
ghost use Rattle.html_construction.specs.Budgets.{RefusesAny};
ghost use Rattle.html_construction.specs.Built.{Takes, TakesRun};
ghost use Rattle.html_construction.specs.Grown.{Grown};
ghost use Rattle.html_construction.specs.Works.{Works};
ghost use Rattle.html_arena.specs.Tree.{more};
ghost use Rattle.html_tree.specs.Steps.{text_steps};
ghost use Rattle.html_tree.specs.Texts.{TextGoesOn, text_node, with_text};
ghost use Rattle.html_ledger.specs.declared.fate.Fate.TheVariants.{Text};
ghost use Rattle.html_ledger.specs.Entries.{given_run};
ghost use Rattle.html_construction.specs.Calls.{HasFate, IsTree};
ghost use Rattle.html_construction.specs.Plans.{Does};
ghost use Rattle.html_construction.specs.Words.{InsertCharacter};

use super::Construction;
use html_arena::ArenaError;
use html_ledger::{Fate, Symbol};
use html_text::PlainText;
use html_tokens::TokenKind;

impl Construction {
    /// Adds a code point to the text at the place for the current node, which is its fate. It is not U+0000.
    #[tactic(auto, using(crate::proofs::Doing::doing_rules))]
    pub fn insert_char(&mut self, token: &TokenKind, c: char) -> Result<(), ArenaError>
        requires symbol { symbol_of token.now ≡ Char c }
        requires opened { 0 < length self.old.stack }
        requires quiet { self.old.ledger.kept ≡ [] }
        requires visible { (c == 0) ≡ false }
        requires free { IsTrue (is_free self.old.ledger.history (Char c)) }
        ensures rest { OnOk result (self.new ≡ record self.old { tree = self.new.tree; ledger = self.new.ledger }) }
        ensures takes { OnOk result (Takes token.now self.old self.new) }
        ensures quiet { OnOk result (self.new.ledger.kept ≡ []) }
        ensures grown { OnOk result (Grown 1 1 0 0 0 self.old self.new) }
        ensures works { OnOk result (Works 1 0 1 self.old self.new) }
        ensures counted { OnOk result (self.new.tree.steps ≡ more self.old.tree.steps (text_steps self.old.tree self.old.fostering 1)) }
        ensures exact { OnOk result (IsTree (record self.old.tree { tree = with_text self.old.tree self.old.fostering (c ∷ []) }) self.new) }
        ensures fate { OnOk result (HasFate (Char c) (Text (text_node self.old.tree self.old.fostering)) self.old self.new) }
        ensures refuses { IfErr result (λ e. RefusesAny e self.old self.new) }
        ensures follows { OnOk result (Does InsertCharacter token.now self.old self.new) }
    {
        self.tree.laws();
        let run = [c];
        let (node, _) = self
            .tree
            .append_run(run.as_slice(), self.registers.fostering)?;
        self.ledger.give(Symbol::Char(c), Fate::Text(node))?;
        Ok(())
    }

    /// Adds the longest front of a run of code points, that the limit on held code points takes, to the text at the place for the current
    /// node, which is their fate, and answers how many they are: at least one. None of the run is U+0000, and no doctype may come any more.
    pub fn insert_run(&mut self, run: &[char]) -> Result<usize, ArenaError>
        requires opened { 0 < length self.old.stack }
        requires quiet { self.old.ledger.kept ≡ [] }
        requires some { 0 < length run.now }
        requires may { IsTrue (may_text_run self.old.ledger.history run.now) }
        ensures rest { OnOk result (self.new ≡ record self.old { tree = self.new.tree; ledger = self.new.ledger }) }
        ensures takes { IfOk result (λ n. TakesRun (take n run.now) self.old self.new) }
        ensures quiet { OnOk result (self.new.ledger.kept ≡ []) }
        ensures count { IfOk result (λ n. (0 < n) × (n ≤ length run.now)) }
        ensures grown { IfOk result (λ n. Grown n 1 0 0 0 self.old self.new) }
        ensures works { IfOk result (λ n. Works n 0 n self.old self.new) }
        ensures counted { IfOk result (λ n. self.new.tree.steps ≡ more self.old.tree.steps (text_steps self.old.tree self.old.fostering n)) }
        ensures exact { IfOk result (λ n. IsTree (record self.old.tree { tree = with_text self.old.tree self.old.fostering (take n run.now) }) self.new) }
        ensures fate { IfOk result (λ n. self.new.ledger ≡ given_run self.old.ledger (take n run.now) (Text (text_node self.old.tree self.old.fostering))) }
        ensures goes_on { OnOk result (TextGoesOn self.old.tree self.old.fostering) }
        ensures refuses { IfErr result (λ e. RefusesAny e self.old self.new) }
    {
        self.tree.laws();
        let (node, count) = self.tree.append_run(run, self.registers.fostering)?;
        self.ledger.give_run(&run[..count], node)?;
        Ok(count)
    }

    /// Adds the longest front of a plain text, that the limit on held code points takes, to the text at the place for the current
    /// node, which is their fate, and answers how many they are: at least one. No doctype may come any more.
    pub fn insert_plain(&mut self, text: &PlainText<'_>) -> Result<usize, ArenaError>
        requires opened { 0 < length self.old.stack }
        requires quiet { self.old.ledger.kept ≡ [] }
        requires some { 0 < length text.now }
        requires may { IsTrue (may_text_run self.old.ledger.history text.now) }
        ensures rest { OnOk result (self.new ≡ record self.old { tree = self.new.tree; ledger = self.new.ledger }) }
        ensures takes { IfOk result (λ n. TakesRun (take n text.now) self.old self.new) }
        ensures quiet { OnOk result (self.new.ledger.kept ≡ []) }
        ensures count { IfOk result (λ n. (0 < n) × (n ≤ length text.now)) }
        ensures grown { IfOk result (λ n. Grown n 1 0 0 0 self.old self.new) }
        ensures works { IfOk result (λ n. Works n 0 n self.old self.new) }
        ensures counted { IfOk result (λ n. self.new.tree.steps ≡ more self.old.tree.steps (text_steps self.old.tree self.old.fostering n)) }
        ensures exact { IfOk result (λ n. IsTree (record self.old.tree { tree = with_text self.old.tree self.old.fostering (take n text.now) }) self.new) }
        ensures fate { IfOk result (λ n. self.new.ledger ≡ given_run self.old.ledger (take n text.now) (Text (text_node self.old.tree self.old.fostering))) }
        ensures goes_on { OnOk result (TextGoesOn self.old.tree self.old.fostering) }
        ensures refuses { IfErr result (λ e. RefusesAny e self.old self.new) }
    {
        self.tree.laws();
        let (node, count) = self.tree.append_plain(text, self.registers.fostering)?;
        self.ledger.give_plain(&text.front(count), node)?;
        Ok(count)
    }
}
