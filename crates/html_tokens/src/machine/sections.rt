// Sections in foreign content (HTML 13.2.5.69 to 13.2.5.71).
ghost use Rattle.std.specs.Prelude.{◌≡◌, ◌≤◌, ◌+◌, ◌^◌, ◌<◌, Some, length, slice_get};
ghost use Rattle.html_tokens.specs.Fed.{Passes, Steps, Tells};
ghost use Rattle.html_tokens.specs.Bounds.{IsBounded};
ghost use Rattle.html_tokens.specs.Input.{Decided};
ghost use Rattle.html_tokens.specs.declared.faults.Faults.{Faults};

use super::{Machine, Progress, State, token};
use crate::faults::Faults;
use crate::input::Peek;
use crate::marks::closes_section;
use crate::token::{Region, TokenKind};

impl<'a> Machine<'a> {
    /// Goes past what opens a section.
    pub(super) fn begin_section(&mut self)
        requires fit { 9 ≤ length self.old.input.queue.items }
        requires room { self.old.place + length self.old.input.queue.items < 2 ^ 64 }
        ensures { Passes self.old 9 State.Section self.new }
    {
        self.pass(9);
        self.enter(State::Section);
    }

    /// Reads on in a section: its end, the end of the text, or a code point as it stands.
    pub(super) fn section_step(&mut self, faults: &mut Faults) -> Progress
        requires state { self.old.state ≡ State.Section }
        requires room { self.old.place + length self.old.input.queue.items < 2 ^ 64 }
        ensures steps { Steps self.old result self.new }
        ensures bounded { IsBounded self.old faults.old → IsBounded self.new faults.new }
        ensures tells { Tells self.old result faults.old faults.new }
    {
        match self.input.peek(0) {
            Peek::Wait => Progress::Wait,
            Peek::Is(None) => {
                faults.section_end(self.place);
                self.enter(State::Ended);
                Progress::Given(token(TokenKind::Eof, self.place, self.place))
            }
            Peek::Is(Some(c)) => self.section_char(c),
        }
    }

    /// Reads on in a section, at a code point.
    fn section_char(&mut self, c: char) -> Progress
        requires state { self.old.state ≡ State.Section }
        requires first { Decided self.old.input (λ rest. slice_get rest 0) (Some c) }
        requires some { 0 < length self.old.input.queue.items }
        requires room { self.old.place + length self.old.input.queue.items < 2 ^ 64 }
        ensures steps { Steps self.old result self.new }
        ensures bounded { (faults : Faults) → IsBounded self.old faults → IsBounded self.new faults }
    {
        match closes_section(&self.input) {
            None => Progress::Wait,
            Some(true) => {
                self.pass(3);
                self.enter(State::Text(Region::Plain));
                Progress::More
            }
            Some(false) => {
                let start = self.place;
                self.pass(1);
                Progress::Given(token(TokenKind::Char(c), start, self.place))
            }
        }
    }
}
