// Text, code point by code point.
ghost use Rattle.std.specs.Prelude.{◌≡◌, ◌≤◌, ◌+◌, ◌^◌, ◌<◌, Some, length, slice_get, MatchOption, cond};
ghost use Rattle.html_tokens.specs.Fed.{Steps, Tells, slack};
ghost use Rattle.html_tokens.specs.Input.{Decided, IsShort};
ghost use Rattle.html_tokens.specs.Bounds.{IsBounded};
ghost use Rattle.html_tokens.specs.Marks.{begin_at, is_end_mark, region_in};

use super::{Machine, Progress, State, token};
use crate::faults::Faults;
use crate::input::Peek;
use crate::marks::{is_end_mark, opens_section};
use crate::token::{Begin, Region, TextMode, TokenKind};

impl<'a> Machine<'a> {
    /// Reads on in text.
    #[inline(always)]
    pub(super) fn text_step(&mut self, region: Region, faults: &mut Faults) -> Progress
        requires state { self.old.state ≡ State.Text region }
        requires room { self.old.place + length self.old.input.queue.items < 2 ^ 64 }
        ensures steps { Steps self.old result self.new }
        ensures bounded { IsBounded self.old faults.old → IsBounded self.new faults.new }
        ensures tells { Tells self.old result faults.old faults.new }
    {
        match self.input.peek(0) {
            Peek::Wait => Progress::Wait,
            Peek::Is(None) => {
                faults.text_end(region, self.place);
                self.enter(State::Ended);
                Progress::Given(token(TokenKind::Eof, self.place, self.place))
            }
            Peek::Is(Some(first)) => match self.begin(region, first) {
                None => Progress::Wait,
                Some(Begin::Char) => self.char_step(region, faults),
                Some(Begin::Markup) => self.open_step(region, faults),
                Some(Begin::EndMark) => {
                    self.begin_tag(true, 2);
                    Progress::More
                }
                Some(Begin::Reference) => self.ref_step(region, faults),
                Some(Begin::Section) => {
                    self.begin_section();
                    Progress::More
                }
            },
        }
    }

    /// What begins at the front of the rest; nothing where more input is wanted.
    #[inline(always)]
    fn begin(&self, region: Region, first: char) -> Option<Begin>
        requires first { Decided self.now.input (λ rest. slice_get rest 0) (Some first) }
        ensures { MatchOption result (IsShort self.now.input (slack self.now.table.now self.now.last_name)) (λ found. Decided self.now.input (begin_at self.now.mode region self.now.last_name) found × (found ≡ Begin.EndMark → 2 ≤ length self.now.input.queue.items) × (found ≡ Begin.Section → 9 ≤ length self.now.input.queue.items)) }
    {
        match self.mode {
            TextMode::Data => Some(match first {
                '<' => Begin::Markup,
                '&' => Begin::Reference,
                _ => Begin::Char,
            }),
            TextMode::Rcdata if first == '&' => Some(Begin::Reference),
            TextMode::Rcdata | TextMode::Rawtext => self.end_mark(),
            TextMode::Script => match region {
                Region::Plain | Region::Escaped => self.end_mark(),
                Region::Double => Some(Begin::Char),
            },
            TextMode::Plaintext => Some(Begin::Char),
            TextMode::Foreign => self.foreign_begin(first),
        }
    }

    /// What begins at the front of the rest in foreign content.
    fn foreign_begin(&self, first: char) -> Option<Begin>
        requires first { Decided self.now.input (λ rest. slice_get rest 0) (Some first) }
        ensures { MatchOption result (IsShort self.now.input (slack self.now.table.now self.now.last_name)) (λ found. Decided self.now.input (begin_at TextMode.Foreign Region.Plain self.now.last_name) found × (found ≡ Begin.EndMark → 2 ≤ length self.now.input.queue.items) × (found ≡ Begin.Section → 9 ≤ length self.now.input.queue.items)) }
    {
        if first == '&' {
            return Some(Begin::Reference);
        }
        if first != '<' {
            return Some(Begin::Char);
        }
        Some(match opens_section(&self.input)? {
            true => Begin::Section,
            false => Begin::Markup,
        })
    }

    /// Whether the end mark of the last start tag begins.
    fn end_mark(&self) -> Option<Begin>
        ensures { MatchOption result (IsShort self.now.input (slack self.now.table.now self.now.last_name)) (λ found. Decided self.now.input (λ rest. cond (is_end_mark self.now.last_name rest) Begin.EndMark Begin.Char) found × (found ≡ Begin.EndMark → 2 ≤ length self.now.input.queue.items) × (found ≡ Begin.Section → 9 ≤ length self.now.input.queue.items)) }
    {
        match &self.last_name {
            None => Some(Begin::Char),
            Some(name) => Some(match is_end_mark(&self.input, name.as_slice())? {
                true => Begin::EndMark,
                false => Begin::Char,
            }),
        }
    }

    /// The region after the code point at the front of the rest.
    fn region_after(&self, region: Region) -> Option<Region>
        ensures { MatchOption result (IsShort self.now.input 8) (λ found. Decided self.now.input (region_in self.now.mode region) found) }
    {
        match self.mode {
            TextMode::Script => region.after(&self.input),
            TextMode::Data
            | TextMode::Rcdata
            | TextMode::Rawtext
            | TextMode::Plaintext
            | TextMode::Foreign => Some(Region::Plain),
        }
    }

    /// Gives one code point of text.
    fn char_step(&mut self, region: Region, faults: &mut Faults) -> Progress
        requires state { self.old.state ≡ State.Text region }
        requires some { 0 < length self.old.input.queue.items }
        requires text { Decided self.old.input (begin_at self.old.mode region self.old.last_name) Begin.Char }
        requires room { self.old.place + length self.old.input.queue.items < 2 ^ 64 }
        ensures steps { Steps self.old result self.new }
        ensures bounded { IsBounded self.old faults.old → IsBounded self.new faults.new }
        ensures tells { Tells self.old result faults.old faults.new }
    {
        let Some(after) = self.region_after(region) else {
            return Progress::Wait;
        };
        let found = self.input.take();
        let c = self.mode.text_char(found);
        let start = self.place;
        faults.text_char(found, start);
        self.place += 1;
        self.enter(State::Text(after));
        Progress::Given(token(TokenKind::Char(c), start, self.place))
    }
}
