// What a `<` in data begins.
ghost use Rattle.std.specs.Prelude.{◌≡◌, ◌≤◌, ◌+◌, ◌^◌, ◌<◌, [], length, option_to_list, true, IfSome};
ghost use Rattle.html_tokens.specs.Errors.{opening_errors};
ghost use Rattle.html_tokens.specs.Fed.{Tells, Steps, Passes, BeginsTag, BeginsDoctype};
ghost use Rattle.html_tokens.specs.Input.{Decided};
ghost use Rattle.html_tokens.specs.Tokens.{token, opener, opened_len};
ghost use Rattle.html_tokens.specs.Bounds.{IsBounded};
ghost use Rattle.html_tokens.specs.Marks.{begin_at};

use super::{Machine, Progress, State, token};
use crate::comment::{CommentDraft, CommentKind};
use crate::doctype::DoctypeDraft;
use crate::faults::{Fault, Faults, opening_fault};
use crate::opener::opener;
use crate::tag::TagDraft;
use crate::token::{Begin, Opener, Region, TokenKind};
use html_text::Str;

impl<'a> Machine<'a> {
    /// Reads on at a `<` in data.
    pub(super) fn open_step(&mut self, region: Region, faults: &mut Faults) -> Progress
        requires state { self.old.state ≡ State.Text region }
        requires markup { Decided self.old.input (begin_at self.old.mode region self.old.last_name) Begin.Markup }
        requires some { 0 < length self.old.input.queue.items }
        requires room { self.old.place + length self.old.input.queue.items < 2 ^ 64 }
        ensures steps { Steps self.old result self.new }
        ensures bounded { IsBounded self.old faults.old → IsBounded self.new faults.new }
        ensures tells { Tells self.old result faults.old faults.new }
    {
        let Some(found) = opener(&self.input) else {
            return Progress::Wait;
        };
        let Some(fault) = opening_fault(&self.input, found, self.place) else {
            return Progress::Wait;
        };
        self.opened(region, found, fault, faults)
    }

    /// Reads what a `<` in data begins.
    fn opened(
        &mut self,
        region: Region,
        found: Opener,
        fault: Option<Fault>,
        faults: &mut Faults,
    ) -> Progress
        requires state { self.old.state ≡ State.Text region }
        requires markup { Decided self.old.input (begin_at self.old.mode region self.old.last_name) Begin.Markup }
        requires found { Decided self.old.input opener found }
        requires told { Decided self.old.input (opening_errors found self.old.place) (option_to_list fault) }
        requires some { 0 < opened_len found }
        requires fit { opened_len found ≤ length self.old.input.queue.items }
        requires room { self.old.place + length self.old.input.queue.items < 2 ^ 64 }
        ensures steps { Steps self.old result self.new }
        ensures bounded { IsBounded self.old faults.old → IsBounded self.new faults.new }
        ensures tells { Tells self.old result faults.old faults.new }
    {
        faults.tell_some(fault);
        match found {
            Opener::Empty => {
                self.pass(3);
                self.enter(State::Text(Region::Plain));
                Progress::More
            }
            Opener::Comment => {
                self.begin_comment(CommentKind::Declared, 4);
                Progress::More
            }
            Opener::Bogus(opened) => {
                self.begin_comment(CommentKind::Bogus, opened);
                Progress::More
            }
            Opener::ShortComment(len) => {
                let start = self.place;
                self.pass(len);
                self.enter(State::Text(Region::Plain));
                let data = Str::new(self.alloc);
                Progress::Given(token(TokenKind::Comment(data), start, self.place))
            }
            Opener::Literal => self.less_given(),
            Opener::StartTag => {
                self.begin_tag(false, 1);
                Progress::More
            }
            Opener::EndTag => {
                self.begin_tag(true, 2);
                Progress::More
            }
            Opener::Doctype => {
                self.begin_doctype();
                Progress::More
            }
        }
    }

    /// Gives a `<` as text.
    fn less_given(&mut self) -> Progress
        requires some { 0 < length self.old.input.queue.items }
        requires room { self.old.place + length self.old.input.queue.items < 2 ^ 64 }
        ensures { (result ≡ Progress.Given (token (TokenKind.Char 60) self.old.place (self.old.place + 1))) × Passes self.old 1 (State.Text Region.Plain) self.new }
    {
        let start = self.place;
        self.pass(1);
        self.enter(State::Text(Region::Plain));
        Progress::Given(token(TokenKind::Char('<'), start, self.place))
    }

    fn begin_comment(&mut self, kind: CommentKind, opened: usize)
        requires fit { opened ≤ length self.old.input.queue.items }
        requires room { self.old.place + length self.old.input.queue.items < 2 ^ 64 }
        ensures { Passes self.old opened (State.Comment (record { kind = kind; start = self.old.place; «data» = [] })) self.new }
    {
        let start = self.place;
        self.pass(opened);
        let data = Str::new(self.alloc);
        self.enter(State::Comment(CommentDraft { kind, start, data }));
    }

    fn begin_doctype(&mut self)
        requires fit { 9 ≤ length self.old.input.queue.items }
        requires room { self.old.place + length self.old.input.queue.items < 2 ^ 64 }
        ensures { BeginsDoctype self.old self.new }
    {
        let start = self.place;
        self.pass(9);
        let draft = DoctypeDraft::new(self.alloc, start);
        self.enter(State::Doctype(draft));
    }

    pub(super) fn begin_tag(&mut self, is_end: bool, opened: usize)
        requires fit { opened ≤ length self.old.input.queue.items }
        requires room { self.old.place + length self.old.input.queue.items < 2 ^ 64 }
        ensures { BeginsTag self.old is_end opened self.new }
    {
        let start = self.place;
        self.pass(opened);
        let draft = TagDraft::new(self.alloc, is_end, start);
        self.enter(State::Tag(draft));
    }
}
