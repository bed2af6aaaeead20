// The ledger: what became of each token, and which tokens have an error.
ghost use Rattle.std.specs.Prelude.{◌≡◌, ◌==◌, ◌↔◌, ◌+◌, ◌≤◌, ◌∷◌, [], ◌++◌, cond, length, map, replicate, IsTrue, OnOk, OnErr};
ghost use Rattle.html_ledger.specs.Symbols.{chars_of};
ghost use Rattle.html_tokens.specs.Cut.{null_replaced};
ghost use Rattle.html_ledger.specs.Texts.{text_of};
ghost use Rattle.html_ledger.specs.declared.fate.Fate.TheVariants.{Text};
ghost use Rattle.html_ledger.specs.declared.symbol.Symbol.TheVariants.{Char};
ghost use Rattle.html_ledger.specs.Entries.{Fed, Keeps, Releases, Takes, TakesRun, begun, ended, given, given_run, noted, number_of};
ghost use Rattle.html_ledger.specs.Errors.{AreErrors};
ghost use Rattle.html_ledger.specs.Fated.{Fated, is_end};
ghost use Rattle.html_ledger.specs.Flags.{may_have, may_text_run};

use crate::bools::{both, either};
use crate::errors::add_if;
use crate::fate::Fate;
use crate::fates::Fates;
use crate::history::History;
use crate::setting::Setting;
use crate::symbol::Symbol;
use html_arena::NodeId;
use html_text::PlainText;
use std::alloc::{AllocError, Global};
use std::marker::Model;

/// What became of the tokens so far. The code points of a table's text have no fate before the text ends (13.2.6.4.10).
#[derive(Drop)]
pub struct Ledger {
    fates: Fates,
    history: History,
    kept: Vec<char>,
    errors: Vec<u64>,
}

impl Model for Ledger {
    ghost use Rattle.html_ledger.specs.Entries.{Entries};

    ghost Value = { Entries };

    ghost view = { λ l. record { fates = l.fates; history = l.history; kept = l.kept.items; errors = l.errors.items } };
}

impl Ledger {
    /// The ledger before the first token, which takes no memory.
    pub fn new(alloc: Global, setting: Setting) -> Ledger
        ensures value { result ≡ begun setting }
        ensures fed { Fed setting result [] }
    {
        Ledger {
            fates: Fates::new(alloc),
            history: History::at(setting),
            kept: Vec::new(alloc),
            errors: Vec::new(alloc),
        }
    }

    /// Asks for room for so many more runs of fates, which take no memory before they are given. A refusal changes nothing.
    pub fn reserve(&mut self, count: usize)
        ensures same { self.new ≡ self.old }
    {
        self.fates.reserve(count);
    }

    /// What the tokens so far settle about the fates of later ones.
    pub fn history(&self) -> History
        ensures value { result ≡ self.now.history }
    {
        self.history
    }

    /// The number of the token whose fate is given next.
    pub fn number(&self) -> u64
        ensures value { result ≡ number_of self.now }
    {
        self.fates.len()
    }

    /// The fates given so far.
    pub fn fates(&self) -> &Fates
        ensures value { result.now ≡ self.now.fates }
    {
        &self.fates
    }

    /// The code points of a table's text that have no fate yet.
    pub fn kept(&self) -> &[char]
        ensures value { result.now ≡ self.now.kept }
    {
        self.kept.as_slice()
    }

    /// Whether every token handed in has its fate.
    pub fn is_quiet(&self) -> bool
        ensures value { IsTrue result ↔ (self.now.kept ≡ []) }
    {
        self.kept.is_empty()
    }

    /// The rising numbers of the tokens with an error, each once.
    pub fn errors(&self) -> &[u64]
        ensures value { result.now ≡ self.now.errors }
    {
        self.errors.as_slice()
    }

    /// Gives the next token its fate, which is one that it may have, and notes its error where the token and its fate tell one.
    pub fn give(&mut self, symbol: Symbol, fate: Fate) -> Result<(), AllocError>
        requires may { IsTrue (may_have self.old.history symbol fate) }
        requires quiet { self.old.kept ≡ [] }
        ensures given { OnOk result (self.new ≡ given self.old symbol fate) }
        ensures refused { OnErr result (self.new ≡ self.old) }
        ensures takes { OnOk result (Takes symbol self.old self.new) }
        ensures quiet { OnOk result (self.new.kept ≡ []) }
        ensures counted { OnOk result (number_of self.new ≡ number_of self.old + 1) }
    {
        let told = self.history.has_error(symbol, &fate);
        self.note(symbol, fate, told)?;
        Ok(())
    }

    /// Gives an end tag, or the end of the page, its fate. `ignored`: its rules took nothing off the stack of open elements and made no node, which is an error of an end tag but that of the body and of the root.
    pub fn end(&mut self, symbol: Symbol, ignored: bool) -> Result<(), AllocError>
        requires end { IsTrue (is_end symbol) }
        requires quiet { self.old.kept ≡ [] }
        ensures ended { OnOk result (self.new ≡ ended self.old symbol ignored) }
        ensures refused { OnErr result (self.new ≡ self.old) }
        ensures takes { OnOk result (Takes symbol self.old self.new) }
        ensures quiet { OnOk result (self.new.kept ≡ []) }
        ensures counted { OnOk result (number_of self.new ≡ number_of self.old + 1) }
    {
        let fate = Fate::Ended;
        let told = either(
            self.history.has_error(symbol, &fate),
            both(ignored, symbol.may_be_ignored()),
        );
        self.note(symbol, fate, told)?;
        Ok(())
    }

    /// Notes the next token's fate, and its error, or leaves the ledger as it was.
    fn note(&mut self, symbol: Symbol, fate: Fate, told: bool) -> Result<(), AllocError>
        ensures noted { OnOk result (self.new ≡ noted self.old symbol fate told) }
        ensures refused { OnErr result (self.new ≡ self.old) }
    {
        let number = self.number();
        self.errors.reserve(1)?;
        self.fates.push(&fate)?;
        add_if(&mut self.errors, number, told);
        self.history = self.history.after(symbol, &fate);
        Ok(())
    }

    /// Gives the next tokens, code points that all become this text, their fates in one go: the same as one by one.
    pub fn give_run(&mut self, run: &[char], node: NodeId) -> Result<(), AllocError>
        requires may { IsTrue (may_text_run self.old.history run.now) }
        requires quiet { self.old.kept ≡ [] }
        ensures given { OnOk result (self.new ≡ given_run self.old run.now (Text node)) }
        ensures refused { OnErr result (self.new ≡ self.old) }
        ensures takes { OnOk result (TakesRun run.now self.old self.new) }
        ensures quiet { OnOk result (self.new.kept ≡ []) }
        ensures counted { OnOk result (number_of self.new ≡ number_of self.old + length run.now) }
    {
        let fate = Fate::Text(node);
        self.fates.push_run(&fate, run.len() as u64)?;
        self.history = self.history.after_text(run);
        Ok(())
    }

    /// Gives the next tokens, those of a plain text that becomes this one, their fates in one go: the same as one by one.
    pub fn give_plain(&mut self, text: &PlainText<'_>, node: NodeId) -> Result<(), AllocError>
        requires may { IsTrue (may_text_run self.old.history text.now) }
        requires quiet { self.old.kept ≡ [] }
        ensures given { OnOk result (self.new ≡ given_run self.old text.now (Text node)) }
        ensures refused { OnErr result (self.new ≡ self.old) }
        ensures takes { OnOk result (TakesRun text.now self.old self.new) }
        ensures quiet { OnOk result (self.new.kept ≡ []) }
        ensures counted { OnOk result (number_of self.new ≡ number_of self.old + length text.now) }
    {
        self.fates.push_run(&Fate::Text(node), text.len() as u64)?;
        self.history = self.history.after_plain(text);
        Ok(())
    }

    /// Keeps a code point of a table's text, which has no fate yet.
    pub fn keep(&mut self, c: char) -> Result<(), AllocError>
        ensures kept { OnOk result (self.new ≡ record self.old { kept = self.old.kept ++ c ∷ [] }) }
        ensures refused { OnErr result (self.new ≡ self.old) }
        ensures takes { OnOk result (Takes (Char c) self.old self.new) }
    {
        self.kept.push(c)?;
        Ok(())
    }

    /// Takes out the code points that were kept: the tokens handed in are then those that have their fates, and these.
    pub fn take_kept(&mut self) -> Vec<char>
        ensures taken { result.items ≡ self.old.kept }
        ensures rest { self.new ≡ record self.old { kept = [] } }
        ensures releases { Releases result.items self.old self.new }
    {
        let empty = Vec::new(*self.kept.allocator());
        std::mem::replace(&mut self.kept, empty)
    }

    /// The fates, and the rising numbers of the tokens with an error.
    pub fn into_parts(self) -> (Fates, Vec<u64>)
        ensures fates { result.0 ≡ self.fates }
        ensures errors { result.1.items ≡ self.errors }
        ensures fated { (s : _) (tokens : _) → self.kept ≡ [] → Fed s self tokens → Fated s tokens result.0 }
        ensures told { (s : _) (tokens : _) → self.kept ≡ [] → Fed s self tokens → AreErrors s tokens result.0 result.1.items }
    {
        (self.fates, self.errors)
    }

    /// The tokens handed in are as many as the fates given and the code points kept, and no fewer than the errors.
    pub fn counted(&self)
        ensures tokens { (s : _) (tokens : _) → Fed s self.now tokens → length tokens ≡ number_of self.now + length self.now.kept }
        ensures errors { (s : _) (tokens : _) → Fed s self.now tokens → length self.now.errors ≤ number_of self.now }
    {
        let _ = &self.errors;
    }

    /// Code points that were taken out get their fates one by one, and then the tokens handed in are those from before.
    pub fn settling(&self)
        ensures next { (a : _) (b : _) (d : _) (c : _) (cs : _) → Releases (c ∷ cs) a b → Takes (Char c) b d → Releases cs a d }
        ensures settled { (a : _) (b : _) → Releases [] a b → Keeps a b }
    {
        let _ = &self.kept;
    }

    /// More tokens with their fates add to the text of a node what they are to it alone, and a run of code points of one text adds all of them to this one, U+0000 as U+FFFD.
    pub fn texts(&self)
        ensures more { (node : _) (tokens : _) (others : _) (fates : _) (given : _) → length fates ≡ length tokens → text_of node (tokens ++ others) (fates ++ given) ≡ text_of node tokens fates ++ text_of node others given }
        ensures run { (node : _) (d : _) (cs : _) → text_of node (chars_of cs) (replicate (length cs) (Text d)) ≡ cond (d == node) (map null_replaced cs) [] }
    {
        let _ = &self.fates;
    }
}
