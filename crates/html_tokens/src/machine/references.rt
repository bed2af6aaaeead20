// References in text.
ghost use Rattle.std.specs.Prelude.{◌≡◌, ◌≤◌, ◌+◌, ◌^◌, ◌<◌, length, true, IfOk, OnErr};
ghost use Rattle.html_tokens.specs.Fed.{GivesAmpersand, Steps, Passes, GivesChars, Tells};
ghost use Rattle.html_tokens.specs.InsideReferences.{are_no_letters};
ghost use Rattle.html_tokens.specs.Input.{Decided};
ghost use Rattle.html_tokens.specs.Tokens.{token};
ghost use Rattle.html_tokens.specs.Bounds.{IsBounded};
ghost use Rattle.html_tokens.specs.Marks.{begin_at};
ghost use Rattle.html_charref.specs.Number.{char_of};

use super::{Machine, Progress, State, token};
use crate::faults::{Faults, lacks_semicolon};
use crate::input::Peek;
use crate::reference::{NumberDraft, digit, letters_after, named, ref_opener};
use crate::token::{Begin, RefOpener, Region, TokenKind};
use html_charref::{add_digit, numeric};
use std::alloc::AllocError;

impl<'a> Machine<'a> {
    /// Reads on at a `&`.
    #[inline(always)]
    pub(super) fn ref_step(&mut self, region: Region, faults: &mut Faults) -> Progress
        requires state { self.old.state ≡ State.Text region }
        requires reference { Decided self.old.input (begin_at self.old.mode region self.old.last_name) Begin.Reference }
        requires some { 0 < length self.old.input.queue.items }
        requires room { self.old.place + length self.old.input.queue.items < 2 ^ 64 }
        ensures steps { Steps self.old result self.new }
        ensures bounded { IsBounded self.old faults.old → IsBounded self.new faults.new }
        ensures tells { Tells self.old result faults.old faults.new }
    {
        match ref_opener(&self.input) {
            None => Progress::Wait,
            Some(RefOpener::Literal) => {
                faults.no_digits(self.place);
                self.chars_given(1, '&', None)
            }
            Some(RefOpener::Numeric(base, opened)) => {
                let start = self.place;
                self.pass(opened);
                self.enter(State::Number(NumberDraft {
                    start,
                    base,
                    value: 0,
                }));
                Progress::More
            }
            Some(RefOpener::Named) => match named(self.table, &self.input) {
                None => Progress::Wait,
                Some(None) => match letters_after(self.table, &self.input) {
                    None => Progress::Wait,
                    Some(None) => self.ampersand_given(),
                    Some(Some(closed)) => {
                        faults.unknown(closed, self.place);
                        self.chars_given(1, '&', None)
                    }
                },
                Some(Some((len, text))) => {
                    let lacking = lacks_semicolon(&self.input, len as usize);
                    faults.name(len as usize, lacking, self.place);
                    self.chars_given(len as usize, text.first, text.second)
                }
            },
        }
    }

    /// Passes a reference and gives its first code point.
    fn chars_given(&mut self, len: usize, first: char, second: Option<char>) -> Progress
        requires some { 0 < len }
        requires fit { len ≤ length self.old.input.queue.items }
        requires room { self.old.place + length self.old.input.queue.items < 2 ^ 64 }
        ensures { GivesChars self.old len first second result self.new }
    {
        let start = self.place;
        self.pass(len);
        match second {
            None => {
                self.enter(State::Text(Region::Plain));
                Progress::Given(token(TokenKind::Char(first), start, self.place))
            }
            Some(c) => {
                self.enter(State::Second(c, start + 1));
                Progress::Given(token(TokenKind::Char(first), start, start + 1))
            }
        }
    }

    /// Gives the `&` before letters and digits that begin no name, and more than are looked over.
    fn ampersand_given(&mut self) -> Progress
        requires some { 0 < length self.old.input.queue.items }
        requires room { self.old.place + length self.old.input.queue.items < 2 ^ 64 }
        ensures { GivesAmpersand self.old result self.new }
    {
        let start = self.place;
        self.pass(1);
        self.enter(State::Ampersand(start));
        Progress::Given(token(TokenKind::Char('&'), start, self.place))
    }

    /// Reads on after a `&` and letters or digits, which are many.
    #[cold]
    #[inline(never)]
    pub(super) fn letters_step(
        &mut self,
        start: u64,
        faults: &mut Faults,
    ) -> Result<Progress, AllocError>
        requires state { self.old.state ≡ State.Ampersand start }
        requires room { self.old.place + length self.old.input.queue.items < 2 ^ 64 }
        ensures steps { IfOk result (λ progress. Steps self.old progress self.new) }
        ensures going { OnErr result ⊥ }
        ensures bounded { IsBounded self.old faults.old → IsBounded self.new faults.new }
        ensures tells { IfOk result (λ progress. Tells self.old progress faults.old faults.new) }
    {
        Ok(self.ampersand_step(start, faults))
    }

    /// The same.
    fn ampersand_step(&mut self, start: u64, faults: &mut Faults) -> Progress
        requires state { self.old.state ≡ State.Ampersand start }
        requires room { self.old.place + length self.old.input.queue.items < 2 ^ 64 }
        ensures steps { Steps self.old result self.new }
        ensures bounded { IsBounded self.old faults.old → IsBounded self.new faults.new }
        ensures tells { Tells self.old result faults.old faults.new }
    {
        match self.input.peek(0) {
            Peek::Wait => Progress::Wait,
            Peek::Is(None) => self.letters_end(start, faults),
            Peek::Is(Some(c)) => {
                if c.is_ascii_alphanumeric() {
                    return self.letter_given(c, State::Ampersand(start));
                }
                if c == ';' {
                    faults.ampersand(Some(c), start);
                    return self.letter_given(c, State::Text(Region::Plain));
                }
                self.letters_end(start, faults)
            }
        }
    }

    /// Gives a letter or digit after a `&`, or the `;` after them.
    fn letter_given(&mut self, c: char, after: State) -> Progress
        requires some { 0 < length self.old.input.queue.items }
        requires room { self.old.place + length self.old.input.queue.items < 2 ^ 64 }
        ensures { (result ≡ Progress.Given (token (TokenKind.Char c) self.old.place (self.old.place + 1))) × Passes self.old 1 after self.new }
    {
        let start = self.place;
        self.pass(1);
        self.enter(after);
        Progress::Given(token(TokenKind::Char(c), start, self.place))
    }

    /// Reads on where no letter or digit comes, nor `;`.
    fn letters_end(&mut self, start: u64, faults: &mut Faults) -> Progress
        requires state { self.old.state ≡ State.Ampersand start }
        requires front { Decided self.old.input are_no_letters true }
        requires room { self.old.place + length self.old.input.queue.items < 2 ^ 64 }
        ensures steps { Steps self.old result self.new }
        ensures bounded { IsBounded self.old faults.old → IsBounded self.new faults.new }
        ensures tells { Tells self.old result faults.old faults.new }
    {
        self.enter(State::Text(Region::Plain));
        match self.text_step(Region::Plain, faults) {
            Progress::Wait => {
                self.enter(State::Ampersand(start));
                Progress::Wait
            }
            progress => progress,
        }
    }

    /// Gives the second code point of a reference.
    pub(super) fn second_step(&mut self, c: char, start: u64) -> Progress
        requires state { self.old.state ≡ State.Second c start }
        ensures steps { Steps self.old result self.new }
        ensures bounded { (faults : Faults) → IsBounded self.old faults → IsBounded self.new faults }
    {
        self.enter(State::Text(Region::Plain));
        Progress::Given(token(TokenKind::Char(c), start, self.place))
    }

    /// Reads on in a number.
    pub(super) fn number_step(&mut self, draft: NumberDraft, faults: &mut Faults) -> Progress
        requires state { self.old.state ≡ State.Number draft }
        requires room { self.old.place + length self.old.input.queue.items < 2 ^ 64 }
        ensures steps { Steps self.old result self.new }
        ensures bounded { IsBounded self.old faults.old → IsBounded self.new faults.new }
        ensures tells { Tells self.old result faults.old faults.new }
    {
        match self.input.peek(0) {
            Peek::Wait => Progress::Wait,
            Peek::Is(None) => {
                faults.number(draft.value, false, draft.start);
                self.number_given(draft, 0)
            }
            Peek::Is(Some(c)) => match digit(c, draft.base) {
                Some(d) => {
                    self.pass(1);
                    self.enter(State::Number(NumberDraft {
                        value: add_digit(draft.value, d, draft.base),
                        ..draft
                    }));
                    Progress::More
                }
                None if c == ';' => {
                    faults.number(draft.value, true, draft.start);
                    self.number_given(draft, 1)
                }
                None => {
                    faults.number(draft.value, false, draft.start);
                    self.number_given(draft, 0)
                }
            },
        }
    }

    /// Gives the code point of a number.
    fn number_given(&mut self, draft: NumberDraft, len: usize) -> Progress
        requires fit { len ≤ length self.old.input.queue.items }
        requires room { self.old.place + length self.old.input.queue.items < 2 ^ 64 }
        ensures { (result ≡ Progress.Given (token (TokenKind.Char (char_of draft.value)) draft.start (self.old.place + len))) × Passes self.old len (State.Text Region.Plain) self.new }
    {
        self.pass(len);
        self.enter(State::Text(Region::Plain));
        let (c, _) = numeric(draft.value);
        Progress::Given(token(TokenKind::Char(c), draft.start, self.place))
    }
}
