// The tokenizer.
ghost use Rattle.std.specs.Prelude.{◌≡◌, ◌↔◌, ℕ, ◌≤◌, ◌+◌, ◌*◌, ◌^◌, ◌<◌, ◌-◌, ◌||◌, min, List, [], ◌++◌, ◌∷◌, true, false, cond, Option, option_map, Ok, Err, length, MatchOption, IfOk, IfErr, OnOk, OnErr, IfSome, IfNone};
ghost use Rattle.std.specs.List.Sorted.{IsNonDecreasingBy};
ghost use Rattle.std.specs.Str.{chars};
ghost use Rattle.html_tokens.specs.Bare.{spelling};
ghost use Rattle.html_tokens.specs.Bounds.{IsBounded, IsWithin};
ghost use Rattle.html_tokens.specs.Runs.{plain_tokens};
ghost use Rattle.html_tokens.specs.Tokens.{token};

use crate::bare_tag::BareTag;
use crate::faults::{Fault, Faults};
use crate::machine::{Machine, token};
use crate::token::{Name, TextMode, Token, TokenKind};
use html_charref::EntityTable;
use html_text::PlainText;
use std::alloc::Global;
use thiserror::Error;

/// Cuts a text into tokens, in any pieces, by the HTML standard's tokenization (HTML 13.2.5).
///
/// The text is fed piece by piece, and `next` gives each token as soon as no further piece can change it. Once a call
/// is refused, each later one is refused too.
#[derive(Drop)]
pub struct Tokenizer<'a> {
    pub(crate) machine: Machine<'a>,
    pub(crate) faults: Faults,
    pub(crate) failed: bool,
    ghost in_range: { machine.place + length machine.input.queue.items < 2 ^ 64 },
    ghost within: { IsWithin machine.place faults },
    ghost bounded: { failed ≡ false → IsBounded machine faults },
}

/// Why a call was refused.
#[derive(Clone, Copy, Debug, PartialEq, Eq, Error)]
pub enum TokenError {
    /// Memory was refused, or the text fed is longer than places can count.
    #[error("out of memory")]
    OutOfMemory,
    /// An earlier call was refused, or a piece was fed after the end of the text.
    #[error("stopped")]
    Stopped,
}

impl<'a> Tokenizer<'a> {
    ghost use Rattle.html_tokens.specs.Stream.{errors_of, Run, Start, gave, fed, ended, IsPrompt, tokens_of};
    ghost use Rattle.html_tokens.specs.Given.{Fed, Awaits, fed_len, is_stopped, is_finished, told, plain_next, steps_taken, visits_made, comparisons_made, MaySwitch, run_from};
    ghost use Rattle.html_tokens.specs.Runs.{gave_all};
    ghost use Rattle.html_tokens.specs.Marks.{front};
    ghost use Rattle.html_tokens.specs.Script.{before_end, IsScriptEnd};
    ghost use Rattle.html_tokens.specs.declared.token.Region.{Region};
    ghost use Rattle.html_tokens.specs.declared.token.TextMode.{TextMode};
    ghost use Rattle.html_tokens.specs.Cost.{AreCosted};
    ghost use Rattle.html_tokens.specs.declared.token.Token.{Token};

    /// A tokenizer that has been fed nothing, with a table of named references, the way in which the text begins to be
    /// read, and the name of the start tag before the text, where there is one.
    ///
    /// Refused with `OutOfMemory` alone.
    #[tactic(auto, using(crate::proofs::StreamLemmas::unsaid, crate::proofs::StreamLemmas::said), unfolding(crate::specs::Given::Fed, crate::specs::Given::Awaits, crate::specs::Given::fed_len, crate::specs::Given::is_stopped, crate::specs::Given::is_finished))]
    pub fn new(
        alloc: Global,
        table: &'a EntityTable,
        mode: TextMode,
        last_name: Option<&str>,
    ) -> Result<Tokenizer<'a>, TokenError>
        ensures empty { IfOk result (λ t. fed_len t ≡ 0) }
        ensures begins { IfOk result (λ t. Fed t (run_from table.now mode (option_map (λ name. chars name.now) last_name.entry))) }
        ensures fresh { IfOk result (λ t. is_stopped t ≡ false) }
        ensures going { IfOk result (λ t. is_finished t ≡ false) }
        ensures cause { IfErr result (λ e. e ≡ TokenError.OutOfMemory) }
    {
        match last_name {
            None => Ok(Tokenizer::begin(alloc, table, mode, None)),
            Some(text) => match Name::of(alloc, text) {
                Ok(name) => Ok(Tokenizer::begin(alloc, table, mode, Some(name))),
                Err(_) => Err(TokenError::OutOfMemory),
            },
        }
    }

    #[tactic(auto, using(crate::proofs::StreamLemmas::unsaid, crate::proofs::StreamLemmas::said), unfolding(crate::specs::Given::Fed, crate::specs::Given::Awaits, crate::specs::Given::fed_len, crate::specs::Given::is_stopped, crate::specs::Given::is_finished))]
    fn begin(
        alloc: Global,
        table: &'a EntityTable,
        mode: TextMode,
        last_name: Option<Name>,
    ) -> Tokenizer<'a>
        ensures empty { fed_len result ≡ 0 }
        ensures begins { Fed result (run_from table.now mode last_name) }
        ensures fresh { is_stopped result ≡ false }
        ensures going { is_finished result ≡ false }
    {
        Tokenizer {
            machine: Machine::new(alloc, table, mode, last_name),
            faults: Faults::new(alloc),
            failed: false,
        }
    }

    /// Takes the next piece of the text.
    ///
    /// Refused with `Stopped` after a refusal and after `finish`, else with `OutOfMemory`.
    #[tactic(auto, using(crate::proofs::StreamLemmas::unsaid, crate::proofs::StreamLemmas::said), unfolding(crate::specs::Given::Fed, crate::specs::Given::Awaits, crate::specs::Given::fed_len, crate::specs::Given::is_stopped, crate::specs::Given::is_finished))]
    pub fn feed(&mut self, text: &[char]) -> Result<(), TokenError>
        ensures count { OnOk result (fed_len self.new ≡ fed_len self.old + length text.now) }
        ensures fed { OnOk result ((run : Run) → Fed self.old run → Fed self.new (fed run text.now)) }
        ensures stopped { (result ≡ Err TokenError.Stopped) ↔ ((is_stopped self.old || is_finished self.old) ≡ true) }
        ensures ok { OnOk result (is_stopped self.new ≡ false) }
        ensures err { OnErr result (is_stopped self.new ≡ true) }
        ensures finished { is_finished self.new ≡ is_finished self.old }
    {
        if self.failed || self.machine.is_finished() {
            self.failed = true;
            return Err(TokenError::Stopped);
        }
        if !self.machine.has_room(text.len()) {
            self.failed = true;
            return Err(TokenError::OutOfMemory);
        }
        match self.machine.feed(text) {
            Ok(()) => Ok(()),
            Err(_) => {
                self.failed = true;
                Err(TokenError::OutOfMemory)
            }
        }
    }

    /// The text has ended. Once it has, this changes nothing.
    ///
    /// Refused with `Stopped` after a refusal.
    #[tactic(auto, using(crate::proofs::StreamLemmas::unsaid, crate::proofs::StreamLemmas::said), unfolding(crate::specs::Given::Fed, crate::specs::Given::Awaits, crate::specs::Given::fed_len, crate::specs::Given::is_stopped, crate::specs::Given::is_finished))]
    pub fn finish(&mut self) -> Result<(), TokenError>
        ensures ended { OnOk result ((run : Run) → Fed self.old run → Fed self.new (ended run)) }
        ensures stopped { (result ≡ Err TokenError.Stopped) ↔ (is_stopped self.old ≡ true) }
        ensures cause { IfErr result (λ e. e ≡ TokenError.Stopped) }
        ensures finished { OnOk result (is_finished self.new ≡ true) }
        ensures refused { OnErr result (self.new ≡ self.old) }
        ensures again { is_finished self.old ≡ true → self.new ≡ self.old }
        ensures same { is_stopped self.new ≡ is_stopped self.old }
        ensures count { fed_len self.new ≡ fed_len self.old }
    {
        if self.failed {
            return Err(TokenError::Stopped);
        }
        if !self.machine.is_finished() {
            self.machine.finish();
        }
        Ok(())
    }

    /// The next token; nothing where more input is wanted, or all was given.
    ///
    /// Refused with `Stopped` after a refusal, else with `OutOfMemory`.
    #[tactic(auto, using(crate::proofs::StreamLemmas::unsaid, crate::proofs::StreamLemmas::said), unfolding(crate::specs::Given::Fed, crate::specs::Given::Awaits, crate::specs::Given::fed_len, crate::specs::Given::is_stopped, crate::specs::Given::is_finished))]
    #[inline(always)]
    pub fn next(&mut self) -> Result<Option<Token>, TokenError>
        // A token that is given is the next of the text, however it goes on and was cut.
        ensures given { IfOk result (λ answer. IfSome answer (λ token. (run : Run) → Fed self.old run → Awaits self.new run token)) }
        ensures unsaid { IfOk result (λ answer. IfSome answer (λ token. (run : Run) → Fed self.old run → Fed self.new (gave run token Option.None))) }
        // Where none is, all have been given but those that end nearer to the end than has to be seen.
        ensures prompt { IfOk result (λ answer. IfNone answer ((run : Run) → Fed self.old run → Fed self.new run × IsPrompt run)) }
        ensures all { IfOk result (λ answer. IfNone answer ((run : Run) → Fed self.old run → run.finished ≡ true → tokens_of run.text run.switches run.start ≡ run.given)) }
        // Their spans are in order and disjoint, and they hold no more code points than were fed.
        ensures cost { IfOk result (λ answer. IfSome answer (λ token. (run : Run) → Fed self.old run → AreCosted (length run.text) (run.given ++ token ∷ []))) }
        ensures stopped { (result ≡ Err TokenError.Stopped) ↔ (is_stopped self.old ≡ true) }
        ensures ok { OnOk result (is_stopped self.new ≡ false) }
        ensures err { OnErr result (is_stopped self.new ≡ true) }
        ensures finished { is_finished self.new ≡ is_finished self.old }
        ensures count { fed_len self.new ≤ fed_len self.old }
    {
        if self.failed {
            return Err(TokenError::Stopped);
        }
        let start = self.machine.place;
        if let Some(c) = self.machine.next_char(&mut self.faults) {
            if self.faults.is_lost() {
                self.failed = true;
                return Err(TokenError::OutOfMemory);
            }
            return Ok(Some(char_token(c, start, start + 1)));
        }
        match self.machine.next(&mut self.faults) {
            Ok(answer) => Ok(answer),
            Err(_) => {
                self.failed = true;
                Err(TokenError::OutOfMemory)
            }
        }
    }

    /// Appends the plain text that comes next to `out`, as far as it was fed, and answers the place where it begins;
    /// nothing where another token comes next or more input is wanted. It is as many calls of `next` as there are code
    /// points of plain text: each is a Char, and stands for itself. Plain text ends before each `<` and each `&` that
    /// has to be looked at, before a U+0000 that becomes U+FFFD, and where a script is escaped.
    ///
    /// Refused with `Stopped` after a refusal, else with `OutOfMemory`; `out` is then as it was.
    #[tactic(auto, using(crate::proofs::StreamLemmas::unsaid, crate::proofs::StreamLemmas::said), unfolding(crate::specs::Given::Fed, crate::specs::Given::Awaits, crate::specs::Given::fed_len, crate::specs::Given::is_stopped, crate::specs::Given::is_finished, crate::specs::Given::plain_next))]
    #[inline(always)]
    pub fn next_run(&mut self, out: &mut Vec<char>) -> Result<Option<u64>, TokenError>
        ensures text { OnOk result (out.new.items ≡ out.old.items ++ plain_next self.old) }
        ensures refused { OnErr result (out.new.items ≡ out.old.items) }
        ensures some { IfOk result (λ found. IfNone found (plain_next self.old ≡ [])) }
        ensures none { IfOk result (λ found. IfNone found ((run : Run) → Fed self.old run → Fed self.new run)) }
        ensures given { IfOk result (λ found. IfSome found (λ place. (run : Run) → Fed self.old run → Fed self.new (gave_all run (plain_tokens place (plain_next self.old))))) }
        ensures stopped { (result ≡ Err TokenError.Stopped) ↔ (is_stopped self.old ≡ true) }
        ensures ok { OnOk result (is_stopped self.new ≡ false) }
        ensures err { OnErr result (is_stopped self.new ≡ true) }
        ensures finished { is_finished self.new ≡ is_finished self.old }
        ensures count { fed_len self.new ≤ fed_len self.old }
    {
        if self.failed {
            return Err(TokenError::Stopped);
        }
        match self.machine.next_run(&mut self.faults, out) {
            Ok(found) => Ok(found),
            Err(_) => {
                self.failed = true;
                Err(TokenError::OutOfMemory)
            }
        }
    }

    /// Takes the next piece of the text, which is plain, and gives its tokens at once, each a Char that stands for itself: the place where the first
    /// begins. It is as `feed` and then as many calls of `next`. Nothing, and then nothing changed, where other text waits, where text is not read
    /// outside of markup, or after a refusal or the end of the text.
    #[tactic(auto, using(crate::proofs::StreamLemmas::unsaid, crate::proofs::StreamLemmas::said), unfolding(crate::specs::Given::Fed, crate::specs::Given::Awaits, crate::specs::Given::fed_len, crate::specs::Given::is_stopped, crate::specs::Given::is_finished))]
    pub fn take_plain(&mut self, text: &PlainText<'_>) -> Option<u64>
        ensures given { IfSome result (λ place. (run : Run) → Fed self.old run → Fed self.new (gave_all (fed run text.now) (plain_tokens place text.now))) }
        ensures count { IfSome result (λ place. fed_len self.new ≡ fed_len self.old + length text.now) }
        ensures none { IfNone result (self.new ≡ self.old) }
        ensures stopped { is_stopped self.new ≡ is_stopped self.old }
        ensures going { IfSome result (λ place. is_stopped self.new ≡ false) }
        ensures finished { is_finished self.new ≡ is_finished self.old }
    {
        if self.failed
            || self.machine.is_finished()
            || !self.machine.is_idle()
            || !self.machine.has_room(text.len())
        {
            return None;
        }
        Some(self.machine.pass_text(text))
    }

    /// Whether a plain text would be taken by `take_plain`, as far as places count: never after a refusal.
    #[tactic(auto, unfolding(crate::specs::Given::is_stopped))]
    pub fn takes_plain(&self) -> bool
        ensures going { result ≡ true → is_stopped self.now ≡ false }
    {
        !self.failed && self.machine.is_idle()
    }

    /// Takes the next piece of the text, which is a tag without attributes, and gives its token. It is as `feed` and then one call of `next`. Nothing, and
    /// then nothing changed, where other text waits, where text is not read as data, or after a refusal or the end of the text.
    ///
    /// Refused with `OutOfMemory` alone.
    #[tactic(auto, using(crate::proofs::StreamLemmas::unsaid, crate::proofs::StreamLemmas::said), unfolding(crate::specs::Given::Fed, crate::specs::Given::Awaits, crate::specs::Given::fed_len, crate::specs::Given::is_stopped, crate::specs::Given::is_finished))]
    pub fn take_tag(&mut self, tag: &BareTag<'_>) -> Result<Option<Token>, TokenError>
        ensures given { IfOk result (λ answer. IfSome answer (λ token. (run : Run) → Fed self.old run → Awaits self.new (fed run (spelling tag.now)) token)) }
        ensures unsaid { IfOk result (λ answer. IfSome answer (λ token. (run : Run) → Fed self.old run → Fed self.new (gave (fed run (spelling tag.now)) token Option.None))) }
        ensures count { IfOk result (λ answer. IfSome answer (λ token. fed_len self.new ≡ fed_len self.old + length (spelling tag.now))) }
        ensures none { IfOk result (λ answer. IfNone answer (self.new ≡ self.old)) }
        ensures going { IfOk result (λ answer. IfSome answer (λ token. is_stopped self.old ≡ false)) }
        ensures stopped { OnOk result (is_stopped self.new ≡ is_stopped self.old) }
        ensures cause { IfErr result (λ e. e ≡ TokenError.OutOfMemory) }
        ensures err { OnErr result (is_stopped self.new ≡ true) }
        ensures finished { is_finished self.new ≡ is_finished self.old }
    {
        if self.failed
            || self.machine.is_finished()
            || !self.machine.is_idle()
            || !self.machine.is_data()
            || !self.machine.has_room(tag.as_str().len())
        {
            return Ok(None);
        }
        match self.machine.take_bare(tag) {
            Ok(token) => Ok(Some(token)),
            Err(_) => {
                self.failed = true;
                Err(TokenError::OutOfMemory)
            }
        }
    }

    /// Whether a tag without attributes would be taken by `take_tag`, as far as places count: never after a refusal.
    pub fn takes_tags(&self) -> bool
        ensures going { result ≡ true → is_stopped self.now ≡ false }
    {
        self.takes_plain() && self.machine.is_data()
    }

    /// Tells how the text after the token just given is read: after a start tag in any mode, after each token as data or as data in foreign
    /// content. It changes nothing in text that is no data. Script text ends by the first marks of its regions.
    #[tactic(auto, using(crate::proofs::StreamLemmas::unsaid, crate::proofs::StreamLemmas::said), unfolding(crate::specs::Given::Fed, crate::specs::Given::Awaits, crate::specs::Given::fed_len, crate::specs::Given::is_stopped, crate::specs::Given::is_finished))]
    pub fn switch(&mut self, mode: TextMode)
        ensures script { (name : Option (List ℕ)) (text : List ℕ) (end : Option ℕ) → IsScriptEnd Region.Plain name text end
            → front TextMode.Script Region.Plain name text ≡ before_end end text }
        ensures ends { (name : Option (List ℕ)) (text : List ℕ) → (end : Option ℕ) × IsScriptEnd Region.Plain name text end }
        ensures awaited { (run : Run) (token : Token) → MaySwitch token.kind mode → Awaits self.old run token → Fed self.new (gave run token (Option.Some mode)) }
        ensures stopped { is_stopped self.new ≡ is_stopped self.old }
        ensures finished { is_finished self.new ≡ is_finished self.old }
        ensures count { fed_len self.new ≡ fed_len self.old }
    {
        self.machine.switch(mode);
    }

    /// The parse errors so far, in order of their places: at most 11 for each code point fed, and 22.
    #[tactic(auto, using(crate::proofs::StreamLemmas::unsaid, crate::proofs::StreamLemmas::said), unfolding(crate::specs::Given::Fed, crate::specs::Given::Awaits, crate::specs::Given::fed_len, crate::specs::Given::is_stopped, crate::specs::Given::is_finished, crate::specs::Given::told))]
    pub fn errors(&self) -> &[Fault]
        ensures list { result.now ≡ told self.now }
        ensures ordered { IsNonDecreasingBy (λ x. x.place) result.now }
        ensures bound { length result.now ≤ 11 * (fed_len self.now + 2) }
        ensures count { (run : Run) → Fed self.now run → fed_len self.now ≡ length run.text }
        // Once all tokens were given, they are those of the text.
        ensures whole { (run : Run) → Fed self.now run → run.finished ≡ true → tokens_of run.text run.switches run.start ≡ run.given → result.now ≡ errors_of run.text run.switches run.start }
    {
        self.faults.list.as_slice()
    }

    /// The steps so far: one for each code point taken, and one for each comparison of two attribute names.
    #[tactic(auto, using(crate::proofs::StreamLemmas::unsaid, crate::proofs::StreamLemmas::said), unfolding(crate::specs::Given::Fed, crate::specs::Given::Awaits, crate::specs::Given::fed_len, crate::specs::Given::is_stopped, crate::specs::Given::is_finished, crate::specs::Given::told, crate::specs::Given::steps_taken, crate::specs::Given::visits_made, crate::specs::Given::comparisons_made))]
    pub fn steps(&self) -> u128
        ensures count { result ≡ steps_taken self.now }
        ensures sum { result ≡ min (comparisons_made self.now + visits_made self.now) (2 ^ 128 - 1) }
        ensures visits { visits_made self.now ≤ 8 * (fed_len self.now + 2) }
        // Once all tokens were given, each code point has been taken.
        ensures all { (run : Run) → Fed self.now run → run.finished ≡ true → tokens_of run.text run.switches run.start ≡ run.given → length run.text ≤ result }
        ensures comparisons { comparisons_made self.now ≤ (fed_len self.now + 2) * (fed_len self.now + 2) }
        ensures bound { result ≤ 8 * (fed_len self.now + 2) + (fed_len self.now + 2) * (fed_len self.now + 2) }
    {
        self.faults
            .compared
            .saturating_add(self.machine.place as u128)
    }
}

/// The token of a code point. Apart from its caller, which would else move the parts of each token.
#[inline(never)]
fn char_token(c: char, start: u64, end: u64) -> Token
    ensures { result ≡ token (TokenKind.Char c) start end }
{
    token(TokenKind::Char(c), start, end)
}
