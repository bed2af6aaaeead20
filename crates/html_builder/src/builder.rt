// Tree construction, token by token.
ghost use Rattle.std.specs.Prelude.{◌≡◌, ◌↔◌, ◌⊎◌, ◌<◌, ◌≤◌, ◌+◌, ℕ, ◌∷◌, [], IfOk, IfErr, OnOk, OnErr, Err, List, None, Option, Some, length, take, true, false};
ghost use Rattle.html_arena.specs.Budget.{AreWithin};
ghost use Rattle.html_arena.specs.Forest.{Forest};
ghost use Rattle.html_arena.specs.declared.arena.Limits.{Limits};
ghost use Rattle.html_construction.specs.Beginning.{IsFirst};
ghost use Rattle.html_construction.specs.Begun.{IsFounded};
ghost use Rattle.std.specs.List.{list_all};
ghost use Rattle.html_ledger.specs.Settings.{is_foreign_context};
ghost use Rattle.html_construction.specs.Built.{IsBuilt, chars_of, is_native, nothing_of, symbols};
ghost use Rattle.html_construction.specs.Copies.{implied_count, most_clones};
ghost use Rattle.html_construction.specs.Modes.{is_reset};
ghost use Rattle.html_construction.specs.Works.{reach_of};
ghost use Rattle.html_names.specs.declared.tag.Tag.TheVariants as tag;
ghost use Rattle.html_ledger.specs.Entries.{begun};
ghost use Rattle.html_open.specs.Entries.{nodes_of};
ghost use Rattle.html_open.specs.Opened.{AreOneByOrigin};
ghost use Rattle.html_tree.specs.States.{document_state};
ghost use Rattle.html_ledger.specs.MayDrop.{MayBeForeign};
ghost use Rattle.html_ledger.specs.declared.setting.Setting.{Setting};
ghost use Rattle.html_ledger.specs.declared.setting.Setting.TheVariants.{Document};
ghost use Rattle.html_page.specs.Label.{Label};
ghost use Rattle.html_page.specs.PageTokens.{page_kinds};
ghost use Rattle.html_page.specs.Plain.{IsPlainPage};
ghost use Rattle.html_page.specs.Shows.{Shows};
ghost use Rattle.html_builder.specs.Built.{IsBuiltByRules, IsTreeIn};
ghost use Rattle.html_builder.specs.Contexts.{IsGood, IsGoodAnywhere, context_tag, setting_of};
ghost use Rattle.html_builder.specs.Errors.{IsTextTold, IsTold};
ghost use Rattle.html_builder.specs.Handed.{AddsFates, AreSo, CostAtMost, CountsEach, EndsAtEof, EntersNone, GivesFates, Handed, HandsIn, HaveFates, IsBuildCause, IsForeignOutside, IsForeignRefused, IsNotForeign, IsTextCause, LeadsTo, fates_of, is_stopped, parses_foreign};
ghost use Rattle.html_builder.specs.Outcome.{IsBounded, IsOutcome, most_entries};
ghost use Rattle.html_builder.specs.Plain.{HavePlainFates};
ghost use Rattle.html_builder.specs.Saying.{StaysHtml, is_steady, said_in, stays_html};

use crate::context::Context;
use crate::error::BuildError;
use crate::switches::mode_said;
use html_arena::{Arena, Limits};
use html_construction::{ArenaError, Construction, Mode};
use html_ledger::{Fates, Symbol};
use html_modes::{take, take_front, take_plain_front};
use html_text::PlainText;
use html_tokens::{TextMode, Token, TokenKind};
use std::alloc::Global;
use std::marker::Model;

/// Tree construction under way: it takes the tokens of a page one by one, and hands out the tree and what became of each token.
#[derive(Drop)]
pub struct Builder {
    construction: Construction,
    entries: u64,
    stopped: bool,
}

impl Model for Builder {
    ghost use Rattle.std.specs.Prelude.{◌≡◌, false};
    ghost use Rattle.html_builder.specs.Builders.{BuilderState};
    ghost use Rattle.html_modes.specs.Fitting.{Fits};

    ghost Value = { BuilderState };

    ghost view = { λ b. record { page = b.construction; entries = b.entries; stopped = b.stopped } };

    ghost invariant = { λ b. b.stopped ≡ false → Fits b.construction };
}

impl Builder {
    /// Begins a document.
    ///
    /// # Errors
    ///
    /// `OutOfMemory`.
    #[tactic(auto, using(crate::proofs::Handing::begin_rules))]
    pub fn document(alloc: Global) -> Result<Builder, BuildError>
        ensures begun { IfOk result (λ b. Handed Document None [] b) }
        ensures fates { IfOk result (λ b. fates_of b ≡ []) }
        ensures fresh { IfOk result (λ b. is_stopped b ≡ false) }
        ensures refuses { IfOk result (λ b. parses_foreign b ≡ false) }
        ensures cause { IfErr result (λ e. e ≡ BuildError.OutOfMemory) }
    {
        let construction = Construction::document(alloc)?;
        Ok(Builder {
            construction,
            entries: 0,
            stopped: false,
        })
    }

    /// Asks for room for so many more nodes, which take no memory before they are made. A refusal changes nothing.
    pub fn reserve(&mut self, count: usize)
        ensures same { self.new ≡ self.old }
    {
        self.construction.reserve(count);
    }

    /// Begins a document whose tree keeps to limits.
    ///
    /// # Errors
    ///
    /// `NodeBudget` at 0 where not even the document is within them; `OutOfMemory`.
    #[tactic(auto, using(crate::proofs::Handing::begin_rules))]
    pub fn document_within(alloc: Global, limits: Limits) -> Result<Builder, BuildError>
        ensures begun { IfOk result (λ b. Handed Document (Some limits) [] b) }
        ensures fates { IfOk result (λ b. fates_of b ≡ []) }
        ensures fresh { IfOk result (λ b. is_stopped b ≡ false) }
        ensures refuses { IfOk result (λ b. parses_foreign b ≡ false) }
        ensures cause { IfErr result (λ e. (e ≡ BuildError.OutOfMemory) ⊎ ((e ≡ BuildError.NodeBudget 0) × (limits.nodes < 1))) }
    {
        let construction = Construction::document_within(alloc, limits)?;
        Ok(Builder {
            construction,
            entries: 0,
            stopped: false,
        })
    }

    /// Begins a fragment in a context.
    ///
    /// # Errors
    ///
    /// `BadContext` where no start tag can have the name of the context, or the name is `svg` or `math`; `OutOfMemory`.
    #[tactic(auto, using(crate::proofs::Handing::begin_rules))]
    pub fn fragment(alloc: Global, context: &Context) -> Result<Builder, BuildError>
        ensures begun { IfOk result (λ b. Handed (setting_of context.now) None [] b) }
        ensures context { IfOk result (λ b. b.page.context ≡ Some (context_tag context.now)) }
        ensures quirks { IfOk result (λ b. b.page.quirks ≡ context.now.quirks) }
        ensures fates { IfOk result (λ b. fates_of b ≡ []) }
        ensures fresh { IfOk result (λ b. is_stopped b ≡ false) }
        ensures refuses { IfOk result (λ b. parses_foreign b ≡ false) }
        ensures good { OnOk result (IsGood context.now) }
        ensures cause { IfErr result (λ e. (e ≡ BuildError.OutOfMemory) ⊎ ((e ≡ BuildError.BadContext) × (IsGood context.now → ⊥))) }
    {
        if !context.is_good() {
            return Err(BuildError::BadContext);
        }
        let begun = Construction::fragment(alloc, context.tag(), context.in_form, context.quirks)?;
        Ok(Builder {
            construction: begun,
            entries: 0,
            stopped: false,
        })
    }

    /// Begins a fragment in a context, whose tree keeps to limits.
    ///
    /// # Errors
    ///
    /// `BadContext` as in `fragment`, before all else; `NodeBudget` and `HeldBudget` at 0 where not even the root is within the limits;
    /// `OutOfMemory`.
    #[tactic(auto, using(crate::proofs::Handing::begin_rules))]
    pub fn fragment_within(
        alloc: Global,
        context: &Context,
        limits: Limits,
    ) -> Result<Builder, BuildError>
        ensures begun { IfOk result (λ b. Handed (setting_of context.now) (Some limits) [] b) }
        ensures context { IfOk result (λ b. b.page.context ≡ Some (context_tag context.now)) }
        ensures quirks { IfOk result (λ b. b.page.quirks ≡ context.now.quirks) }
        ensures fates { IfOk result (λ b. fates_of b ≡ []) }
        ensures fresh { IfOk result (λ b. is_stopped b ≡ false) }
        ensures refuses { IfOk result (λ b. parses_foreign b ≡ false) }
        ensures good { OnOk result (IsGood context.now) }
        ensures cause { IfErr result (λ e. (e ≡ BuildError.OutOfMemory) ⊎ ((e ≡ BuildError.BadContext) × (IsGood context.now → ⊥))
            ⊎ ((e ≡ BuildError.NodeBudget 0) × (limits.nodes < 1)) ⊎ ((e ≡ BuildError.HeldBudget 0) × (limits.held < 4))) }
    {
        if !context.is_good() {
            return Err(BuildError::BadContext);
        }
        let construction = Construction::fragment_within(
            alloc,
            context.tag(),
            context.in_form,
            context.quirks,
            limits,
        )?;
        Ok(Builder {
            construction,
            entries: 0,
            stopped: false,
        })
    }

    /// Begins a document that parses foreign content, and whose tree keeps to limits, where there are any.
    ///
    /// # Errors
    ///
    /// `NodeBudget` at 0 where not even the document is within the limits; `OutOfMemory`.
    #[tactic(auto, using(crate::proofs::Handing::begin_rules))]
    pub fn foreign_document(alloc: Global, limits: Option<Limits>) -> Result<Builder, BuildError>
        ensures begun { IfOk result (λ b. Handed Document limits [] b) }
        ensures fates { IfOk result (λ b. fates_of b ≡ []) }
        ensures fresh { IfOk result (λ b. is_stopped b ≡ false) }
        ensures parses { IfOk result (λ b. parses_foreign b ≡ true) }
        ensures cause { IfErr result (λ e. (e ≡ BuildError.OutOfMemory) ⊎ ((e ≡ BuildError.NodeBudget 0) × AreSo limits (λ m. m.nodes < 1))) }
    {
        let mut construction = begun_document(alloc, limits)?;
        construction.parse_foreign();
        Ok(Builder {
            construction,
            entries: 0,
            stopped: false,
        })
    }

    /// Begins a fragment that parses foreign content, in a context of HTML or of foreign content, whose tree keeps to limits, where there are any.
    ///
    /// # Errors
    ///
    /// `BadContext` where the context is good neither for `fragment` nor as an element of foreign content, before all else; `NodeBudget` and
    /// `HeldBudget` at 0 where not even the root is within the limits; `OutOfMemory`.
    #[tactic(auto, using(crate::proofs::Handing::begin_rules))]
    pub fn foreign_fragment(
        alloc: Global,
        context: &Context,
        limits: Option<Limits>,
    ) -> Result<Builder, BuildError>
        ensures begun { IfOk result (λ b. Handed (setting_of context.now) limits [] b) }
        ensures context { IfOk result (λ b. b.page.context ≡ Some (context_tag context.now)) }
        ensures quirks { IfOk result (λ b. b.page.quirks ≡ context.now.quirks) }
        ensures fates { IfOk result (λ b. fates_of b ≡ []) }
        ensures fresh { IfOk result (λ b. is_stopped b ≡ false) }
        ensures parses { IfOk result (λ b. parses_foreign b ≡ true) }
        ensures good { OnOk result (IsGoodAnywhere context.now) }
        ensures cause { IfErr result (λ e. (e ≡ BuildError.OutOfMemory) ⊎ ((e ≡ BuildError.BadContext) × (IsGoodAnywhere context.now → ⊥))
            ⊎ ((e ≡ BuildError.NodeBudget 0) × AreSo limits (λ m. m.nodes < 1)) ⊎ ((e ≡ BuildError.HeldBudget 0) × AreSo limits (λ m. m.held < 4))) }
    {
        if !context.is_good_anywhere(alloc)? {
            return Err(BuildError::BadContext);
        }
        let mut construction = begun_fragment(alloc, context, limits)?;
        construction.parse_foreign();
        Ok(Builder {
            construction,
            entries: 0,
            stopped: false,
        })
    }

    /// Whether it is known that no text that follows leads into foreign content: none was made and none is the context; or the adjusted current node is none of
    /// it, and code points close no element in the insertion mode.
    #[tactic(auto, using(crate::proofs::Steady::stays_rules))]
    pub fn stays_html(&self) -> bool
        ensures value { result ≡ stays_html self.now }
        ensures html { result ≡ true → StaysHtml self.now }
    {
        if !self.construction.history().foreign {
            return true;
        }
        self.construction.laws();
        !self.stopped
            && is_steady(self.construction.mode())
            && self.construction.foreign_tag().is_none()
    }

    /// The insertion mode.
    pub fn mode(&self) -> Mode
        ensures value { result ≡ self.now.page.mode }
    {
        self.construction.mode()
    }

    /// The limits to which the tree keeps, where there are any.
    pub fn limits(&self) -> Option<Limits>
        ensures value { result ≡ self.now.page.tree.tree.limits }
    {
        self.construction.limits()
    }

    /// How many steps of tree construction were counted so far.
    pub fn steps(&self) -> u128
        ensures value { result ≡ self.now.page.tree.steps }
    {
        self.construction.steps()
    }

    /// Takes the next token, and answers how the text after it is read, where the token changes that: a start tag does whose element holds text, and
    /// where foreign content was made or is the context each token says whether its text follows.
    ///
    /// # Errors
    ///
    /// `ForeignContent` for a start tag `svg` or `math` that the rules of the body meet, where foreign content is refused; `NodeBudget` and
    /// `HeldBudget` where the next node or code point would pass a limit; each with the start of the token; `OutOfMemory`. After a refusal every
    /// call answers `Stopped`.
    #[tactic(auto, using(crate::proofs::Handing::process_rules))]
    #[inline(always)]
    pub fn process(&mut self, token: &Token) -> Result<Option<TextMode>, BuildError>
        ensures takes { OnOk result (HandsIn (token.now.kind ∷ []) self.old self.new) }
        ensures leads { OnOk result (LeadsTo (token.now.kind ∷ []) self.old self.new) }
        ensures counts { OnOk result ((c : ℕ) → token.now.kind ≡ TokenKind.Char c → CountsEach (c ∷ []) self.old self.new) }
        ensures grows { OnOk result (AddsFates self.old self.new) }
        ensures gives { OnOk result (GivesFates self.old self.new) }
        ensures said { IfOk result (λ m. m ≡ said_in token.now.kind self.new) }
        ensures parses { OnOk result (parses_foreign self.new ≡ parses_foreign self.old) }
        ensures cause { IfErr result (λ e. (s : Setting) (l : Option Limits) (tokens : List TokenKind) → Handed s l tokens self.old
            → IsBuildCause s l tokens (fates_of self.old) token.now.kind token.now.span.start e) }
        ensures foreign { IfErr result (λ e. (s : Setting) (l : Option Limits) (tokens : List TokenKind) → Handed s l tokens self.old → IsForeignOutside self.old.page.mode e) }
        ensures refused { IfErr result (λ e. IsForeignRefused self.old e) }
        ensures told { IfErr result (λ e. (s : Setting) (l : Option Limits) (tokens : List TokenKind) → Handed s l tokens self.old → IsTold l token.now.kind self.new.page e) }
        ensures ok { OnOk result (is_stopped self.new ≡ false) }
        ensures err { OnErr result (is_stopped self.new ≡ true) }
        ensures stopped { (result ≡ Err BuildError.Stopped) ↔ (is_stopped self.old ≡ true) }
    {
        if let TokenKind::Char(c) = token.kind {
            self.process_char(c, token.span.start)?;
            return Ok(mode_said(&self.construction, Symbol::Char(c)));
        }
        self.process_other(token)
    }

    /// Takes the next token by the rules.
    #[tactic(auto, using(crate::proofs::Handing::process_rules))]
    #[inline(always)]
    fn process_other(&mut self, token: &Token) -> Result<Option<TextMode>, BuildError>
        ensures takes { OnOk result (HandsIn (token.now.kind ∷ []) self.old self.new) }
        ensures leads { OnOk result (LeadsTo (token.now.kind ∷ []) self.old self.new) }
        ensures grows { OnOk result (AddsFates self.old self.new) }
        ensures gives { OnOk result (GivesFates self.old self.new) }
        ensures said { IfOk result (λ m. m ≡ said_in token.now.kind self.new) }
        ensures parses { OnOk result (parses_foreign self.new ≡ parses_foreign self.old) }
        ensures cause { IfErr result (λ e. (s : Setting) (l : Option Limits) (tokens : List TokenKind) → Handed s l tokens self.old
            → IsBuildCause s l tokens (fates_of self.old) token.now.kind token.now.span.start e) }
        ensures foreign { IfErr result (λ e. (s : Setting) (l : Option Limits) (tokens : List TokenKind) → Handed s l tokens self.old → IsForeignOutside self.old.page.mode e) }
        ensures refused { IfErr result (λ e. IsForeignRefused self.old e) }
        ensures told { IfErr result (λ e. (s : Setting) (l : Option Limits) (tokens : List TokenKind) → Handed s l tokens self.old → IsTold l token.now.kind self.new.page e) }
        ensures ok { OnOk result (is_stopped self.new ≡ false) }
        ensures err { OnErr result (is_stopped self.new ≡ true) }
        ensures stopped { (result ≡ Err BuildError.Stopped) ↔ (is_stopped self.old ≡ true) }
    {
        if self.stopped {
            return Err(BuildError::Stopped);
        }
        let symbol = Symbol::of(&token.kind);
        self.stopped = true;
        match take(
            &mut self.construction,
            &token.kind,
            symbol,
            &mut self.entries,
        ) {
            Ok(None) => {
                self.stopped = false;
                Ok(mode_said(&self.construction, symbol))
            }
            Ok(Some(name)) => Err(BuildError::ForeignContent {
                name,
                at: token.span.start,
            }),
            Err(refusal) => Err(BuildError::at(refusal, token.span.start)),
        }
    }

    /// Takes the next tokens, a code point each: the same as so many calls of `process`, and all at once where the mode allows. `start` is the
    /// place of the first; each other stands at the next place.
    ///
    /// # Errors
    ///
    /// Those of `process`, with the place of the code point that was refused; those before it were taken.
    pub fn process_text(&mut self, text: &[char], start: u64) -> Result<(), BuildError>
        ensures takes { OnOk result (HandsIn (chars_of text.now) self.old self.new) }
        ensures leads { OnOk result (LeadsTo (chars_of text.now) self.old self.new) }
        ensures counts { OnOk result (CountsEach text.now self.old self.new) }
        ensures grows { OnOk result (AddsFates self.old self.new) }
        ensures gives { OnOk result (GivesFates self.old self.new) }
        ensures enters { OnOk result (EntersNone self.old self.new) }
        ensures parses { OnOk result (parses_foreign self.new ≡ parses_foreign self.old) }
        ensures cause { IfErr result (λ e. (s : Setting) (l : Option Limits) (tokens : List TokenKind) → Handed s l tokens self.old
            → IsTextCause s l tokens (fates_of self.old) text.now start e) }
        ensures told { IfErr result (λ e. (s : Setting) (l : Option Limits) (tokens : List TokenKind) → Handed s l tokens self.old → IsTextTold l self.new.page e) }
        ensures ok { OnOk result (is_stopped self.new ≡ is_stopped self.old) }
        ensures err { OnErr result (is_stopped self.new ≡ true) }
        ensures stopped { (result ≡ Err BuildError.Stopped) ↔ ((is_stopped self.old ≡ true) × (0 < length text.now)) }
    {
        let mut taken = 0;
        'taking: while taken < text.len() {
            let at = start.saturating_add(taken as u64);
            let count = self.process_front(&text[taken..], at)?;
            taken += count;
        }
        Ok(())
    }

    /// Takes one code point.
    #[tactic(auto, using(crate::proofs::Handing::text_rules))]
    #[inline(never)]
    fn process_char(&mut self, c: char, at: u64) -> Result<(), BuildError>
        ensures takes { OnOk result (HandsIn (chars_of (c ∷ [])) self.old self.new) }
        ensures leads { OnOk result (LeadsTo (chars_of (c ∷ [])) self.old self.new) }
        ensures counts { OnOk result (CountsEach (c ∷ []) self.old self.new) }
        ensures grows { OnOk result (AddsFates self.old self.new) }
        ensures gives { OnOk result (GivesFates self.old self.new) }
        ensures parses { OnOk result (parses_foreign self.new ≡ parses_foreign self.old) }
        ensures cause { IfErr result (λ e. (s : Setting) (l : Option Limits) (tokens : List TokenKind) → Handed s l tokens self.old
            → IsTextCause s l tokens (fates_of self.old) (c ∷ []) at e) }
        ensures native { IfErr result (λ e. IsNotForeign e) }
        ensures told { IfErr result (λ e. (s : Setting) (l : Option Limits) (tokens : List TokenKind) → Handed s l tokens self.old → IsTextTold l self.new.page e) }
        ensures ok { OnOk result (is_stopped self.new ≡ false) }
        ensures err { OnErr result (is_stopped self.new ≡ true) }
        ensures stopped { (result ≡ Err BuildError.Stopped) ↔ (is_stopped self.old ≡ true) }
    {
        self.process_front(&[c], at)?;
        Ok(())
    }

    /// Takes a front of a text that isn't empty, and answers its length: at least one.
    #[tactic(auto, using(crate::proofs::Handing::text_rules))]
    #[inline(always)]
    fn process_front(&mut self, text: &[char], at: u64) -> Result<usize, BuildError>
        requires some { 0 < length text.now }
        ensures takes { IfOk result (λ n. HandsIn (chars_of (take n text.now)) self.old self.new) }
        ensures leads { IfOk result (λ n. LeadsTo (chars_of (take n text.now)) self.old self.new) }
        ensures counts { IfOk result (λ n. CountsEach (take n text.now) self.old self.new) }
        ensures grows { OnOk result (AddsFates self.old self.new) }
        ensures gives { OnOk result (GivesFates self.old self.new) }
        ensures enters { OnOk result (EntersNone self.old self.new) }
        ensures parses { OnOk result (parses_foreign self.new ≡ parses_foreign self.old) }
        ensures count { IfOk result (λ n. (0 < n) × (n ≤ length text.now)) }
        ensures cause { IfErr result (λ e. (s : Setting) (l : Option Limits) (tokens : List TokenKind) → Handed s l tokens self.old
            → IsTextCause s l tokens (fates_of self.old) (take 1 text.now) at e) }
        ensures native { IfErr result (λ e. IsNotForeign e) }
        ensures told { IfErr result (λ e. (s : Setting) (l : Option Limits) (tokens : List TokenKind) → Handed s l tokens self.old → IsTextTold l self.new.page e) }
        ensures ready { OnOk result (is_stopped self.old ≡ false) }
        ensures ok { OnOk result (is_stopped self.new ≡ false) }
        ensures err { OnErr result (is_stopped self.new ≡ true) }
        ensures stopped { (result ≡ Err BuildError.Stopped) ↔ (is_stopped self.old ≡ true) }
    {
        if self.stopped {
            return Err(BuildError::Stopped);
        }
        self.stopped = true;
        match take_front(&mut self.construction, text, &mut self.entries) {
            Ok(count) => {
                self.stopped = false;
                Ok(count)
            }
            Err(refusal) => Err(BuildError::at(refusal, at)),
        }
    }

    /// Takes a plain text as the next tokens, a code point each: the same as so many calls of `process`, and all at once where the mode allows. `start` is the
    /// place of the first; each other stands at the next place.
    ///
    /// # Errors
    ///
    /// Those of `process`, with the place of the code point that was refused; those before it were taken.
    pub fn process_plain(&mut self, text: &PlainText<'_>, start: u64) -> Result<(), BuildError>
        ensures takes { OnOk result (HandsIn (chars_of text.now) self.old self.new) }
        ensures leads { OnOk result (LeadsTo (chars_of text.now) self.old self.new) }
        ensures counts { OnOk result (CountsEach text.now self.old self.new) }
        ensures grows { OnOk result (AddsFates self.old self.new) }
        ensures gives { OnOk result (GivesFates self.old self.new) }
        ensures enters { OnOk result (EntersNone self.old self.new) }
        ensures parses { OnOk result (parses_foreign self.new ≡ parses_foreign self.old) }
        ensures cause { IfErr result (λ e. (s : Setting) (l : Option Limits) (tokens : List TokenKind) → Handed s l tokens self.old
            → IsTextCause s l tokens (fates_of self.old) text.now start e) }
        ensures told { IfErr result (λ e. (s : Setting) (l : Option Limits) (tokens : List TokenKind) → Handed s l tokens self.old → IsTextTold l self.new.page e) }
        ensures ok { OnOk result (is_stopped self.new ≡ is_stopped self.old) }
        ensures err { OnErr result (is_stopped self.new ≡ true) }
        ensures stopped { (result ≡ Err BuildError.Stopped) ↔ ((is_stopped self.old ≡ true) × (0 < length text.now)) }
    {
        let mut taken = 0;
        'taking: while taken < text.len() {
            let at = start.saturating_add(taken as u64);
            let len = self.process_plain_front(&text.after(taken), at)?;
            taken += len;
        }
        Ok(())
    }

    /// Takes a front of a plain text that isn't empty, and answers its length: at least one.
    #[tactic(auto, using(crate::proofs::Handing::text_rules))]
    fn process_plain_front(&mut self, text: &PlainText<'_>, at: u64) -> Result<usize, BuildError>
        requires some { 0 < length text.now }
        ensures takes { IfOk result (λ n. HandsIn (chars_of (take n text.now)) self.old self.new) }
        ensures leads { IfOk result (λ n. LeadsTo (chars_of (take n text.now)) self.old self.new) }
        ensures counts { IfOk result (λ n. CountsEach (take n text.now) self.old self.new) }
        ensures grows { OnOk result (AddsFates self.old self.new) }
        ensures gives { OnOk result (GivesFates self.old self.new) }
        ensures enters { OnOk result (EntersNone self.old self.new) }
        ensures parses { OnOk result (parses_foreign self.new ≡ parses_foreign self.old) }
        ensures count { IfOk result (λ n. (0 < n) × (n ≤ length text.now)) }
        ensures cause { IfErr result (λ e. (s : Setting) (l : Option Limits) (tokens : List TokenKind) → Handed s l tokens self.old
            → IsTextCause s l tokens (fates_of self.old) (take 1 text.now) at e) }
        ensures told { IfErr result (λ e. (s : Setting) (l : Option Limits) (tokens : List TokenKind) → Handed s l tokens self.old → IsTextTold l self.new.page e) }
        ensures ready { OnOk result (is_stopped self.old ≡ false) }
        ensures ok { OnOk result (is_stopped self.new ≡ false) }
        ensures err { OnErr result (is_stopped self.new ≡ true) }
        ensures stopped { (result ≡ Err BuildError.Stopped) ↔ (is_stopped self.old ≡ true) }
    {
        if self.stopped {
            return Err(BuildError::Stopped);
        }
        self.stopped = true;
        match take_plain_front(&mut self.construction, text, &mut self.entries) {
            Ok(count) => {
                self.stopped = false;
                Ok(count)
            }
            Err(lack) => Err(BuildError::at(lack, at)),
        }
    }

    /// How often tokens entered the rules of an insertion mode so far.
    pub fn entries(&self) -> u64
        ensures value { result ≡ self.now.entries }
    {
        self.entries
    }

    /// A law: the tokens that have no fate yet are code points, and the last ones; and what is known of foreign content is so of the tokens.
    #[tactic(auto, using(crate::proofs::Endings::count_rules))]
    pub fn counted(&self)
        ensures counted { (s : Setting) (l : Option Limits) (tokens : List TokenKind) → Handed s l tokens self.now → HaveFates s tokens (fates_of self.now) }
        ensures foreign { (s : Setting) (l : Option Limits) (tokens : List TokenKind) → Handed s l tokens self.now → self.now.page.ledger.history.foreign ≡ true
            → MayBeForeign s (symbols tokens) (fates_of self.now) }
    {
        let _ = self.stopped;
    }

    /// A law: of the elements of one token at most one is open, at most one is in the list of active formatting elements, and these are one.
    pub fn opened(&self)
        ensures stack { AreOneByOrigin self.now.page.tree.tree self.now.page.tree.stack self.now.page.tree.stack }
        ensures list { AreOneByOrigin self.now.page.tree.tree (nodes_of self.now.page.tree.list) (nodes_of self.now.page.tree.list) }
        ensures both { AreOneByOrigin self.now.page.tree.tree (nodes_of self.now.page.tree.list) self.now.page.tree.stack }
    {
        self.construction.laws();
    }

    /// The tree, the fate of each token, and the rising numbers of the tokens with an error. The end of the page was processed before.
    #[tactic(auto, using(crate::proofs::Endings::finish_rules))]
    pub fn finish(self) -> (Arena, Fates, Vec<u64>)
        ensures fates { result.1 ≡ fates_of self }
        ensures tree { IsTreeIn self result.0 }
        ensures steps { result.0.steps ≡ self.page.tree.steps }
        ensures outcome { (s : Setting) (l : Option Limits) (tokens : List TokenKind) → Handed s l tokens self → EndsAtEof tokens
            → IsOutcome s tokens result.1 result.2.items result.0 }
        ensures built { (s : Setting) (l : Option Limits) (tokens : List TokenKind) → Handed s l tokens self → IsBuiltByRules s l (parses_foreign self) tokens result.1 result.0 }
        ensures within { (s : Setting) (l : Option Limits) (tokens : List TokenKind) → Handed s l tokens self → AreWithin l (length result.0.labels) result.0.held }
        ensures bounds { (s : Setting) (l : Option Limits) (tokens : List TokenKind) → Handed s l tokens self → (n : ℕ) → CostAtMost n tokens → IsBounded n result.0 }
        ensures entries { (s : Setting) (l : Option Limits) (tokens : List TokenKind) → Handed s l tokens self → (n : ℕ) → CostAtMost n tokens → self.entries ≤ most_entries n }
        ensures plain { (l : Option Limits) (tokens : List TokenKind) → Handed Document l tokens self → (page : Forest Label) → IsPlainPage page
            → tokens ≡ page_kinds page → Shows result.0 (0 ∷ []) page }
        ensures native { (s : Setting) (l : Option Limits) (tokens : List TokenKind) → Handed s l tokens self → parses_foreign self ≡ false
            → is_foreign_context s ≡ false → list_all is_native result.1 ≡ true }
        ensures plain_fates { (l : Option Limits) (tokens : List TokenKind) → Handed Document l tokens self → (page : Forest Label) → IsPlainPage page
            → tokens ≡ page_kinds page → HavePlainFates tokens result.1 }
    {
        self.construction.into_parts()
    }
}

/// Whether in this mode a code point closes no element, and opens none but clones of formatting elements.
fn is_steady(mode: Mode) -> bool
    ensures value { result ≡ is_steady mode }
{
    !matches!(
        mode,
        Mode::Initial
            | Mode::BeforeHtml
            | Mode::BeforeHead
            | Mode::InHead
            | Mode::InHeadNoscript
            | Mode::AfterHead
            | Mode::InColumnGroup
    )
}

/// The tree construction of a document, within limits, where there are any.
fn begun_document(alloc: Global, limits: Option<Limits>) -> Result<Construction, ArenaError>
    ensures built { IfOk result (λ b. IsBuilt (nothing_of Document limits) b) }
    ensures first { IfOk result (λ b. IsFirst Document limits b) }
    ensures mode { IfOk result (λ b. b.mode ≡ Mode.Initial) }
    ensures stack { IfOk result (λ b. b.stack ≡ []) }
    ensures quiet { IfOk result (λ b. b.ledger.kept ≡ []) }
    ensures listed { IfOk result (λ b. b.tree.list ≡ []) }
    ensures nodes { IfOk result (λ b. length b.tree.tree.labels ≡ 1) }
    ensures uncloned { IfOk result (λ b. most_clones b.tree.tree.labels ≡ 0) }
    ensures implied { IfOk result (λ b. implied_count b.tree.tree.labels ≤ 1) }
    ensures counted { IfOk result (λ b. b.tree.steps ≤ 2 + reach_of b) }
    ensures tree { IfOk result (λ b. (l : Option Limits) × (k : ℕ) × (b.tree ≡ document_state l k)) }
    ensures ledger { IfOk result (λ b. b.ledger ≡ begun Document) }
    ensures fostering { IfOk result (λ b. b.fostering ≡ false) }
    ensures context { IfOk result (λ b. b.context ≡ None) }
    ensures cause { IfErr result (λ e. (e ≡ ArenaError.OutOfMemory) ⊎ ((e ≡ ArenaError.NodeBudget) × AreSo limits (λ m. m.nodes < 1))) }
{
    match limits {
        None => Construction::document(alloc),
        Some(limits) => Construction::document_within(alloc, limits),
    }
}

/// The tree construction of a fragment in a context, within limits, where there are any.
fn begun_fragment(
    alloc: Global,
    context: &Context,
    limits: Option<Limits>,
) -> Result<Construction, ArenaError>
    ensures built { IfOk result (λ b. IsBuilt (nothing_of (setting_of context.now) limits) b) }
    ensures first { IfOk result (λ b. IsFirst (setting_of context.now) limits b) }
    ensures reset { IfOk result (λ b. is_reset b.mode ≡ true) }
    ensures founded { IfOk result (λ b. IsFounded b) }
    ensures stack { IfOk result (λ b. b.stack ≡ tag.Html ∷ []) }
    ensures context { IfOk result (λ b. b.context ≡ Some (context_tag context.now)) }
    ensures quirks { IfOk result (λ b. b.quirks ≡ context.now.quirks) }
    ensures quiet { IfOk result (λ b. b.ledger.kept ≡ []) }
    ensures listed { IfOk result (λ b. b.tree.list ≡ []) }
    ensures nodes { IfOk result (λ b. length b.tree.tree.labels ≡ 1) }
    ensures uncloned { IfOk result (λ b. most_clones b.tree.tree.labels ≡ 0) }
    ensures implied { IfOk result (λ b. implied_count b.tree.tree.labels ≤ 1) }
    ensures counted { IfOk result (λ b. b.tree.steps ≤ 2 + reach_of b) }
    ensures cause { IfErr result (λ e. (e ≡ ArenaError.OutOfMemory) ⊎ (((e ≡ ArenaError.NodeBudget) × AreSo limits (λ m. m.nodes < 1)) ⊎ ((e ≡ ArenaError.HeldBudget) × AreSo limits (λ m. m.held < 4)))) }
{
    match limits {
        None => Construction::fragment(alloc, context.tag(), context.in_form, context.quirks),
        Some(most) => Construction::fragment_within(
            alloc,
            context.tag(),
            context.in_form,
            context.quirks,
            most,
        ),
    }
}
