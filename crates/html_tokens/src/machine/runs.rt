// Plain text, a code point or a run at a time.
ghost use Rattle.std.specs.Prelude.{◌≡◌, ◌≤◌, ◌+◌, ◌^◌, ◌<◌, [], ◌++◌, length, MatchOption, cond, false, true, IfOk, OnErr, OnOk, IfSome, IfNone};
ghost use Rattle.html_tokens.specs.Bare.{IsBareName, spelling};
ghost use Rattle.html_tokens.specs.Fed.{Passes};
ghost use Rattle.html_tokens.specs.Tokens.{token};
ghost use Rattle.html_tokens.specs.Bounds.{IsBounded, IsWithin};
ghost use Rattle.std.specs.Prelude.{take};
ghost use Rattle.html_tokens.specs.Copied.{AllPass};
ghost use Rattle.html_tokens.specs.Runs.{is_plain, is_text, plain_front, plain_tokens, gave_all};
ghost use Rattle.html_tokens.specs.Stream.{AreTold, Run, IsAt, gave, answered, fed};
ghost use Rattle.html_tokens.specs.declared.faults.Faults.{Faults};
ghost use Rattle.html_tokens.specs.declared.token.TextMode.{TextMode};
ghost use Rattle.std.specs.Prelude.{Option, Some};

use super::{Machine, State, token};
use crate::attributes::Attrs;
use crate::bare_tag::BareTag;
use crate::faults::Faults;
use crate::short::keep_text;
use crate::token::{Region, TextMode, Token, TokenKind};
use html_text::{PlainText, Str};
use std::alloc::AllocError;

impl<'a> Machine<'a> {
    /// Whether plain text may come next.
    fn is_text(&self) -> bool
        ensures { result ≡ is_text self.now.state }
    {
        match self.state {
            State::Text(Region::Plain) => true,
            State::Text(Region::Escaped | Region::Double)
            | State::Number(_)
            | State::Second(..)
            | State::Ampersand(_)
            | State::Comment(_)
            | State::Doctype(_)
            | State::Tag(_)
            | State::Section
            | State::Ended => false,
        }
    }

    /// Takes a code point of plain text, where one comes next.
    #[inline(always)]
    pub(crate) fn next_char(&mut self, faults: &mut Faults) -> Option<char>
        requires room { self.old.place + length self.old.input.queue.items < 2 ^ 64 }
        ensures given { IfSome result (λ c. (run : Run) → IsAt self.old run → (switch : Option TextMode) → IsAt (answered (token (TokenKind.Char c) self.old.place (self.old.place + 1)) switch self.new) (gave run (token (TokenKind.Char c) self.old.place (self.old.place + 1)) switch)) }
        ensures telling { IfSome result (λ c. (run : Run) → IsAt self.old run → AreTold self.old faults.old run → (switch : Option TextMode) → AreTold (answered (token (TokenKind.Char c) self.old.place (self.old.place + 1)) switch self.new) faults.new (gave run (token (TokenKind.Char c) self.old.place (self.old.place + 1)) switch)) }
        ensures still { IfNone result (faults.new ≡ faults.old) }
        ensures count { IfSome result (λ c. self.new.place ≡ self.old.place + 1) }
        ensures none { IfNone result (self.new ≡ self.old) }
        ensures room { self.new.place + length self.new.input.queue.items ≡ self.old.place + length self.old.input.queue.items }
        ensures finished { self.new.input.finished ≡ self.old.input.finished }
        ensures bounded { IsBounded self.old faults.old → IsBounded self.new faults.new }
    {
        // (most often a tag comes next, and nothing that is plain)
        if self.input.is_at_less_than() {
            return None;
        }
        if !self.is_text() {
            return None;
        }
        let mode = self.mode;
        let c = self.input.take_plain(mode)?;
        faults.text_char(c, self.place);
        self.place += 1;
        Some(c)
    }

    /// Appends the plain text that comes next, as far as it was fed; the place where it begins, where there is some.
    #[inline(always)]
    pub(crate) fn next_run(
        &mut self,
        faults: &mut Faults,
        out: &mut Vec<char>,
    ) -> Result<Option<u64>, AllocError>
        requires room { self.old.place + length self.old.input.queue.items < 2 ^ 64 }
        ensures refused { OnErr result (out.new.items ≡ out.old.items) }
        ensures text { OnOk result (out.new.items ≡ out.old.items ++ cond (is_text self.old.state) (plain_front self.old.mode self.old.input.queue.items) []) }
        ensures place { IfOk result (λ found. MatchOption found (cond (is_text self.old.state) (plain_front self.old.mode self.old.input.queue.items) [] ≡ []) (λ place. place ≡ self.old.place)) }
        ensures given { OnOk result ((run : Run) → IsAt self.old run → IsAt self.new (gave_all run (plain_tokens self.old.place (cond (is_text self.old.state) (plain_front self.old.mode self.old.input.queue.items) [])))) }
        ensures telling { OnOk result ((run : Run) → IsAt self.old run → AreTold self.old faults.old run → AreTold self.new faults.new (gave_all run (plain_tokens self.old.place (cond (is_text self.old.state) (plain_front self.old.mode self.old.input.queue.items) [])))) }
        ensures kept { faults.old.lost ≡ false → OnOk result (faults.new.lost ≡ false) }
        ensures room { self.new.place + length self.new.input.queue.items ≤ self.old.place + length self.old.input.queue.items }
        ensures finished { self.new.input.finished ≡ self.old.input.finished }
        ensures bounded { IsBounded self.old faults.old → OnOk result (IsBounded self.new faults.new) }
        ensures within { IsBounded self.old faults.old → OnErr result (IsWithin self.new.place faults.new) }
    {
        if !self.is_text() {
            return Ok(None);
        }
        let start = self.place;
        let kept = out.len();
        if let Err(error) = self.take_plain(faults, out) {
            out.truncate(kept);
            return Err(error);
        }
        Ok(if self.place == start {
            None
        } else {
            Some(start)
        })
    }

    /// Appends the plain text at the front of the rest; where that is refused, some of it.
    #[inline(always)]
    fn take_plain(&mut self, faults: &mut Faults, out: &mut Vec<char>) -> Result<(), AllocError>
        requires state { self.old.state ≡ State.Text Region.Plain }
        requires room { self.old.place + length self.old.input.queue.items < 2 ^ 64 }
        ensures kept { OnErr result (take (length out.old.items) out.new.items ≡ out.old.items) }
        ensures text { OnOk result (out.new.items ≡ out.old.items ++ plain_front self.old.mode self.old.input.queue.items) }
        ensures place { OnOk result (self.new.place ≡ self.old.place + length (plain_front self.old.mode self.old.input.queue.items)) }
        ensures given { OnOk result ((run : Run) → IsAt self.old run → IsAt self.new (gave_all run (plain_tokens self.old.place (plain_front self.old.mode self.old.input.queue.items)))) }
        ensures telling { OnOk result ((run : Run) → IsAt self.old run → AreTold self.old faults.old run → AreTold self.new faults.new (gave_all run (plain_tokens self.old.place (plain_front self.old.mode self.old.input.queue.items)))) }
        ensures keeps { OnOk result (faults.new.lost ≡ false) }
        ensures room { self.new.place + length self.new.input.queue.items ≤ self.old.place + length self.old.input.queue.items }
        ensures finished { self.new.input.finished ≡ self.old.input.finished }
        ensures bounded { IsBounded self.old faults.old → OnOk result (IsBounded self.new faults.new) }
        ensures within { IsBounded self.old faults.old → OnErr result (IsWithin self.new.place faults.new) }
    {
        let mode = self.mode;
        self.take_clean(out)?;
        'taking: while let Some(c) = self.input.take_plain(mode) {
            faults.text_char(c, self.place);
            self.place += 1;
            out.push(c)?;
            self.take_clean(out)?;
        }
        faults.check()
    }

    /// Appends a front of the rest that is plain text, and answers its length.
    #[inline(always)]
    fn take_clean(&mut self, out: &mut Vec<char>) -> Result<usize, AllocError>
        requires room { self.old.place + length self.old.input.queue.items < 2 ^ 64 }
        ensures fit { IfOk result (λ n. n ≤ length self.old.input.queue.items) }
        ensures plain { IfOk result (λ n. (mode : TextMode) → AllPass (is_plain mode) (take n self.old.input.queue.items)) }
        ensures text { IfOk result (λ n. out.new.items ≡ out.old.items ++ take n self.old.input.queue.items) }
        ensures passes { IfOk result (λ n. Passes self.old n self.old.state self.new) }
        ensures err { OnErr result (self.new ≡ self.old) }
        ensures kept { OnErr result (out.new.items ≡ out.old.items) }
    {
        let len = self.input.clean_len();
        if len == 0 {
            return Ok(0);
        }
        out.extend_from_slice(&self.input.queue.unread()[..len])?;
        self.pass(len);
        Ok(len)
    }

    /// Whether all that was fed was read, and plain text may come next.
    pub(crate) fn is_idle(&self) -> bool
        ensures text { result ≡ true → is_text self.now.state ≡ true }
        ensures empty { result ≡ true → self.now.input.queue.items ≡ [] }
    {
        self.is_text() && self.input.queue.len() == 0
    }

    /// Whether text is read as data, outside of foreign content.
    pub(crate) fn is_data(&self) -> bool
        ensures { result ≡ true → self.now.mode ≡ TextMode.Data }
    {
        match self.mode {
            TextMode::Data => true,
            _ => false,
        }
    }

    /// Goes past a plain text, which was not fed before: the place where it begins.
    pub(crate) fn pass_text(&mut self, text: &PlainText<'_>) -> u64
        requires text { is_text self.old.state ≡ true }
        requires empty { self.old.input.queue.items ≡ [] }
        requires going { self.old.input.finished ≡ false }
        requires room { self.old.place + length self.old.input.queue.items + length text.now < 2 ^ 64 }
        ensures given { (run : Run) → IsAt self.old run → IsAt self.new (gave_all (fed run text.now) (plain_tokens result text.now)) }
        ensures telling { (faults : Faults) (run : Run) → IsAt self.old run → AreTold self.old faults run → AreTold self.new faults (gave_all (fed run text.now) (plain_tokens result text.now)) }
        ensures place { result ≡ self.old.place }
        ensures new { self.new ≡ record self.old { place = self.old.place + length text.now } }
        ensures bounded { (faults : Faults) → IsBounded self.old faults → IsBounded self.new faults }
    {
        let start = self.place;
        self.place += text.len() as u64;
        start
    }

    /// Goes past a tag without attributes, which was not fed before: its token.
    pub(crate) fn take_bare(&mut self, tag: &BareTag<'_>) -> Result<Token, AllocError>
        requires text { is_text self.old.state ≡ true }
        requires mode { self.old.mode ≡ TextMode.Data }
        requires empty { self.old.input.queue.items ≡ [] }
        requires going { self.old.input.finished ≡ false }
        requires room { self.old.place + length self.old.input.queue.items + length (spelling tag.now) < 2 ^ 64 }
        ensures given { IfOk result (λ given. (run : Run) → IsAt self.old run → (switch : Option TextMode) → IsAt (answered given switch self.new) (gave (fed run (spelling tag.now)) given switch)) }
        ensures telling { IfOk result (λ given. (faults : Faults) (run : Run) → IsAt self.old run → AreTold self.old faults run → (switch : Option TextMode) → AreTold (answered given switch self.new) faults (gave (fed run (spelling tag.now)) given switch)) }
        ensures count { OnOk result (self.new.place ≡ self.old.place + length (spelling tag.now)) }
        ensures stays { OnErr result (self.new.place ≡ self.old.place) }
        ensures input { self.new.input ≡ self.old.input }
        ensures bounded { (faults : Faults) → IsBounded self.old faults → IsBounded self.new faults }
    {
        if tag.is_end() {
            self.take_bare_end(tag)
        } else {
            self.take_bare_start(tag)
        }
    }

    /// The same of an end tag.
    fn take_bare_end(&mut self, tag: &BareTag<'_>) -> Result<Token, AllocError>
        requires room { self.old.place + length (spelling tag.now) < 2 ^ 64 }
        ensures name { IsBareName tag.now.name }
        ensures token { IfOk result (λ given. given ≡ token (TokenKind.End tag.now.name) self.old.place (self.old.place + length (spelling tag.now))) }
        ensures new { OnOk result (self.new ≡ record self.old { place = self.old.place + length (spelling tag.now) }) }
        ensures refused { OnErr result (self.new ≡ self.old) }
    {
        let start = self.place;
        let name = Str::of(self.alloc, tag.name())?;
        self.place += tag.as_str().len() as u64;
        Ok(token(TokenKind::End { name }, start, self.place))
    }

    /// The same of a start tag.
    fn take_bare_start(&mut self, tag: &BareTag<'_>) -> Result<Token, AllocError>
        requires room { self.old.place + length (spelling tag.now) < 2 ^ 64 }
        ensures name { IsBareName tag.now.name }
        ensures token { IfOk result (λ given. given ≡ token (TokenKind.Start tag.now.name [] false) self.old.place (self.old.place + length (spelling tag.now))) }
        ensures new { OnOk result (self.new ≡ record self.old { place = self.old.place + length (spelling tag.now); last_name = Some tag.now.name }) }
        ensures refused { OnErr result (self.new ≡ record self.old { last_name = self.new.last_name }) }
    {
        let start = self.place;
        let name = Str::of(self.alloc, tag.name())?;
        keep_text(&mut self.last_name, self.alloc, tag.name())?;
        self.place += tag.as_str().len() as u64;
        let kind = TokenKind::Start {
            name,
            attrs: Attrs::new(self.alloc),
            self_closing: false,
        };
        Ok(token(kind, start, self.place))
    }
}
