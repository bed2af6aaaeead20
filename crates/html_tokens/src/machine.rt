// The state machine.
ghost use Rattle.std.specs.Prelude.{◌≡◌, ◌≤◌, ◌+◌, ◌^◌, ◌<◌, [], false, length, IfOk, OnErr, OnOk, IfSome, IfNone, true};
ghost use Rattle.html_tokens.specs.Fed.{Steps, Tells, Passes};
ghost use Rattle.html_tokens.specs.Tokens.{switched, token};
ghost use Rattle.html_tokens.specs.Bounds.{IsBounded, IsWithin};
ghost use Rattle.html_tokens.specs.Stream.{AreTold, Run, IsAt, gave, fed, ended, answered, IsPrompt, tokens_of};
ghost use Rattle.html_tokens.specs.declared.token.TextMode.{TextMode};
ghost use Rattle.std.specs.Prelude.{Option};

use crate::comment::CommentDraft;
use crate::doctype::DoctypeDraft;
use crate::faults::Faults;
use crate::input::Input;
use crate::queue::Queue;
use crate::reference::NumberDraft;
use crate::tag::TagDraft;
use crate::token::{Name, Region, Span, TextMode, Token, TokenKind};
use html_charref::EntityTable;
use std::alloc::{AllocError, Global};

mod comments;
mod doctypes;
mod going_on;
mod opening;
mod references;
mod runs;
mod sections;
mod tags;
mod text;

/// What is being read.
#[derive(Drop)]
pub enum State {
    Text(Region),
    Number(NumberDraft),
    Second(char, u64),
    Ampersand(u64),
    Comment(CommentDraft),
    Doctype(DoctypeDraft),
    Tag(TagDraft),
    Section,
    Ended,
}

/// What a step comes to.
#[derive(Drop)]
pub(crate) enum Progress {
    Given(Token),
    More,
    Wait,
}

/// Cuts a text into tokens, in any pieces.
#[derive(Drop)]
pub struct Machine<'a> {
    pub(crate) alloc: Global,
    pub(crate) table: &'a EntityTable,
    pub(crate) input: Input,
    pub(crate) place: u64,
    pub(crate) mode: TextMode,
    pub(crate) last_name: Option<Name>,
    pub(crate) state: State,
}

/// Lets go what a step came to. Apart from its caller, which would else move the parts of each token.
#[cold]
#[inline(never)]
fn let_go(_progress: Progress) {}

pub(crate) fn token(kind: TokenKind, start: u64, end: u64) -> Token
    ensures { result ≡ token kind start end }
{
    Token {
        kind,
        span: Span { start, end },
    }
}

impl<'a> Machine<'a> {
    pub(crate) fn new(
        alloc: Global,
        table: &'a EntityTable,
        mode: TextMode,
        last_name: Option<Name>,
    ) -> Machine<'a>
        ensures begins { IsAt result (record { start = record { rows = table.now; mode = mode; name = last_name }; text = []; finished = false; given = []; switches = [] }) }
        ensures telling { (faults : Faults) → faults.list ≡ [] → AreTold result faults (record { start = record { rows = table.now; mode = mode; name = last_name }; text = []; finished = false; given = []; switches = [] }) }
        ensures going { result.input.finished ≡ false }
        ensures bounded { (faults : Faults) → faults.list ≡ [] → faults.compared ≡ 0 → IsBounded result faults }
        ensures room { result.place + length result.input.queue.items ≡ 0 }
    {
        // For the rule of the table, which this call tells.
        let _longest = table.longest_name();
        let queue = Queue::new(alloc);
        let input = Input {
            queue,
            finished: false,
        };
        Machine {
            alloc,
            table,
            input,
            place: 0,
            mode,
            last_name,
            state: State::Text(Region::Plain),
        }
    }

    pub(crate) fn is_finished(&self) -> bool
        ensures { result ≡ self.now.input.finished }
    {
        self.input.finished
    }

    /// Whether places can count so many code points more.
    pub(crate) fn has_room(&self, len: usize) -> bool
        requires room { self.now.place + length self.now.input.queue.items < 2 ^ 64 }
        ensures { result ≡ true → self.now.place + length self.now.input.queue.items + len < 2 ^ 64 }
    {
        let fed = self.place + self.input.queue.len() as u64;
        fed.checked_add(len as u64).is_some()
    }

    pub(crate) fn feed(&mut self, text: &[char]) -> Result<(), AllocError>
        requires { self.old.input.finished ≡ false }
        ensures fed { OnOk result ((run : Run) → IsAt self.old run → IsAt self.new (fed run text.now)) }
        ensures telling { OnOk result ((faults : Faults) (run : Run) → IsAt self.old run → AreTold self.old faults run → AreTold self.new faults (fed run text.now)) }
        ensures count { OnOk result (self.new.place + length self.new.input.queue.items ≡ self.old.place + length self.old.input.queue.items + length text.now) }
        ensures kept { self.new ≡ record self.old { input = self.new.input } }
        ensures finished { self.new.input.finished ≡ self.old.input.finished }
        ensures room { self.new.place + length self.new.input.queue.items ≤ self.old.place + length self.old.input.queue.items + length text.now }
    {
        self.input.feed(text)
    }

    pub(crate) fn finish(&mut self)
        ensures ended { (run : Run) → IsAt self.old run → IsAt self.new (ended run) }
        ensures telling { (faults : Faults) (run : Run) → AreTold self.old faults run → AreTold self.new faults (ended run) }
        ensures new { self.new ≡ record self.old { input = record self.old.input { finished = true } } }
        ensures room { self.new.place + length self.new.input.queue.items ≡ self.old.place + length self.old.input.queue.items }
    {
        self.input.finished = true;
    }

    /// Reads text that is data in another mode from here on.
    pub(crate) fn switch(&mut self, mode: TextMode)
        ensures { self.new ≡ record self.old { mode = switched (Option.Some mode) self.old.mode } }
    {
        if self.mode.is_data() {
            self.mode = mode;
        }
    }

    /// Goes past so many code points.
    pub(crate) fn pass(&mut self, count: usize)
        requires fit { count ≤ length self.old.input.queue.items }
        requires room { self.old.place + length self.old.input.queue.items < 2 ^ 64 }
        ensures { Passes self.old count self.old.state self.new }
    {
        self.input.skip(count);
        self.place += count as u64;
    }

    /// Reads on in this state. What the last one held is let go here alone: to prove that takes long for each place that does.
    #[inline(always)]
    pub(crate) fn enter(&mut self, state: State)
        ensures { self.new ≡ record self.old { state = state } }
    {
        self.state = state;
    }

    /// One step: reads on, gives a token, or finds that more input is wanted.
    fn step(&mut self, faults: &mut Faults) -> Result<Progress, AllocError>
        requires room { self.old.place + length self.old.input.queue.items < 2 ^ 64 }
        requires going { self.old.state ≡ State.Ended → ⊥ }
        ensures steps { IfOk result (λ progress. Steps self.old progress self.new) }
        ensures room { OnErr result (self.new.place + length self.new.input.queue.items ≤ self.old.place + length self.old.input.queue.items) }
        ensures finished { OnErr result (self.new.input.finished ≡ self.old.input.finished) }
        ensures bounded { IsBounded self.old faults.old → OnOk result (IsBounded self.new faults.new) }
        ensures within { IsBounded self.old faults.old → OnErr result (IsWithin self.new.place faults.new) }
        ensures tells { IfOk result (λ progress. Tells self.old progress faults.old faults.new) }
    {
        match &self.state {
            State::Text(region) => {
                let region = *region;
                Ok(self.text_step(region, faults))
            }
            State::Number(draft) => {
                let draft = *draft;
                Ok(self.number_step(draft, faults))
            }
            State::Second(c, start) => {
                let (c, start) = (*c, *start);
                Ok(self.second_step(c, start))
            }
            State::Ampersand(start) => {
                let start = *start;
                self.letters_step(start, faults)
            }
            State::Comment(_) => self.comment_step(faults),
            State::Doctype(_) => self.doctype_step(faults),
            State::Tag(_) => self.tag_step(faults),
            State::Section => Ok(self.section_step(faults)),
            State::Ended => Ok(Progress::Wait),
        }
    }

    /// The next token; nothing where more input is wanted, or all was given.
    #[inline(always)]
    pub(crate) fn next(&mut self, faults: &mut Faults) -> Result<Option<Token>, AllocError>
        requires room { self.old.place + length self.old.input.queue.items < 2 ^ 64 }
        ensures given { IfOk result (λ answer. IfSome answer (λ token. (run : Run) → IsAt self.old run → (switch : Option TextMode) → IsAt (answered token switch self.new) (gave run token switch))) }
        ensures prompt { IfOk result (λ answer. IfNone answer ((run : Run) → IsAt self.old run → IsAt self.new run × IsPrompt run)) }
        ensures all { IfOk result (λ answer. IfNone answer ((run : Run) → IsAt self.old run → run.finished ≡ true → tokens_of run.text run.switches run.start ≡ run.given)) }
        ensures telling { IfOk result (λ answer. IfSome answer (λ token. (run : Run) → IsAt self.old run → AreTold self.old faults.old run → (switch : Option TextMode) → AreTold (answered token switch self.new) faults.new (gave run token switch))) }
        ensures told { IfOk result (λ answer. IfNone answer ((run : Run) → IsAt self.old run → AreTold self.old faults.old run → AreTold self.new faults.new run)) }
        ensures kept { faults.old.lost ≡ false → OnOk result (faults.new.lost ≡ false) }
        ensures room { self.new.place + length self.new.input.queue.items ≤ self.old.place + length self.old.input.queue.items }
        ensures finished { self.new.input.finished ≡ self.old.input.finished }
        ensures bounded { IsBounded self.old faults.old → OnOk result (IsBounded self.new faults.new) }
        ensures within { IsBounded self.old faults.old → OnErr result (IsWithin self.new.place faults.new) }
    {
        match self.whole_tag(faults)? {
            None => {
                let answer = self.read_next(faults)?;
                Ok(answer)
            }
            found => Ok(found),
        }
    }

    /// The same, code point by code point.
    #[inline(never)]
    fn read_next(&mut self, faults: &mut Faults) -> Result<Option<Token>, AllocError>
        requires room { self.old.place + length self.old.input.queue.items < 2 ^ 64 }
        ensures given { IfOk result (λ answer. IfSome answer (λ token. (run : Run) → IsAt self.old run → (switch : Option TextMode) → IsAt (answered token switch self.new) (gave run token switch))) }
        ensures prompt { IfOk result (λ answer. IfNone answer ((run : Run) → IsAt self.old run → IsAt self.new run × IsPrompt run)) }
        ensures all { IfOk result (λ answer. IfNone answer ((run : Run) → IsAt self.old run → run.finished ≡ true → tokens_of run.text run.switches run.start ≡ run.given)) }
        ensures telling { IfOk result (λ answer. IfSome answer (λ token. (run : Run) → IsAt self.old run → AreTold self.old faults.old run → (switch : Option TextMode) → AreTold (answered token switch self.new) faults.new (gave run token switch))) }
        ensures told { IfOk result (λ answer. IfNone answer ((run : Run) → IsAt self.old run → AreTold self.old faults.old run → AreTold self.new faults.new run)) }
        ensures kept { OnOk result (faults.new.lost ≡ false) }
        ensures room { self.new.place + length self.new.input.queue.items ≤ self.old.place + length self.old.input.queue.items }
        ensures finished { self.new.input.finished ≡ self.old.input.finished }
        ensures bounded { IsBounded self.old faults.old → OnOk result (IsBounded self.new faults.new) }
        ensures within { IsBounded self.old faults.old → OnErr result (IsWithin self.new.place faults.new) }
    {
        loop {
            self.read_on(faults)?;
            if let State::Ended = &self.state {
                faults.check()?;
                return Ok(None);
            }
            let progress = self.step(faults)?;
            if faults.is_lost() {
                let_go(progress);
                return Err(AllocError);
            }
            match progress {
                Progress::Given(token) => return Ok(Some(token)),
                Progress::Wait => return Ok(None),
                Progress::More => {}
            }
        }
    }
}
