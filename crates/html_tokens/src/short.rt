// Tags without attributes whose whole text was fed, which are read at once.
ghost use Rattle.std.specs.Prelude.{chars, ◌≡◌, ℕ, ◌≤◌, ◌+◌, ◌<◌, ◌^◌, ◌++◌, drop, take, length, slice_get, Some, true, false, IfOk, OnErr, OnOk, IfSome, IfNone};
ghost use Rattle.html_tokens.specs.Bounds.{IsBounded, IsWithin};
ghost use Rattle.html_tokens.specs.Cut.{is};
ghost use Rattle.html_tokens.specs.Copied.{AllPass, EndsAt, is_copied};
ghost use Rattle.html_tokens.specs.Errors.{IsQuiet};
ghost use Rattle.html_tokens.specs.Fed.{EndsTagAt, IsSilent, Skips, Steps};
ghost use Rattle.html_tokens.specs.Input.{Decided};
ghost use Rattle.html_tokens.specs.Marks.{begin_at};
ghost use Rattle.html_tokens.specs.Short.{at_close, short_draft};
ghost use Rattle.html_tokens.specs.Tokens.{opener};
ghost use Rattle.html_tokens.specs.declared.faults.Faults.{Faults};

use crate::attributes::Attrs;
use crate::copied::{Copied, push_all};
use crate::faults::Faults;
use crate::input::Peek;
use crate::machine::{Machine, Progress, State, token};
use crate::opener::opener;
use crate::token::{Begin, Name, Opener, Region, TextMode, Token, TokenKind};
use html_text::Str;
use std::alloc::{AllocError, Global};

/// The name of the last start tag is this.
fn keep_name(last: &mut Option<Name>, alloc: Global, name: &[char]) -> Result<(), AllocError>
    ensures { OnOk result (last.new ≡ Some name.now) }
{
    let mut chars = match last.take() {
        Some(Name(chars)) => chars,
        None => Vec::new(alloc),
    };
    chars.clear();
    chars.extend_from_slice(name)?;
    *last = Some(Name(chars));
    Ok(())
}

/// Adds the code points of a text.
fn add_chars(kept: &mut Vec<char>, text: &str) -> Result<(), AllocError>
    ensures { OnOk result (kept.new.items ≡ kept.old.items ++ chars text.now) }
{
    kept.extend(text.chars())
}

/// The same, of a text.
#[inline(always)]
pub(crate) fn keep_text(
    last: &mut Option<Name>,
    alloc: Global,
    text: &str,
) -> Result<(), AllocError>
    ensures { OnOk result (last.new ≡ Some (chars text.now)) }
{
    let mut kept = match last.take() {
        Some(Name(chars)) => chars,
        None => Vec::new(alloc),
    };
    kept.clear();
    add_chars(&mut kept, text)?;
    *last = Some(Name(kept));
    Ok(())
}

impl<'a> Machine<'a> {
    /// Whether the `<` of markup stands at the front of the rest.
    fn is_at_markup(&self) -> bool
        ensures state { result ≡ true → self.now.state ≡ State.Text Region.Plain }
        ensures begun { result ≡ true → Decided self.now.input (begin_at self.now.mode Region.Plain self.now.last_name) Begin.Markup }
        ensures some { result ≡ true → 0 < length self.now.input.queue.items }
    {
        match (&self.state, self.mode, self.input.peek(0)) {
            (State::Text(Region::Plain), TextMode::Data, Peek::Is(Some('<'))) => true,
            (State::Text(Region::Plain), TextMode::Foreign, Peek::Is(Some('<'))) => {
                self.is_no_declaration()
            }
            _ => false,
        }
    }

    /// Whether another code point than `!` follows the first one.
    fn is_no_declaration(&self) -> bool
        ensures { result ≡ true → Decided self.now.input (λ rest. is 33 (slice_get rest 1)) false }
    {
        match self.input.peek(1) {
            Peek::Is(Some(c)) => c != '!',
            Peek::Is(None) | Peek::Wait => false,
        }
    }

    /// The length of the name that stands after so many code points of the rest, and whether `>` follows it.
    fn name_len(&self, opened: usize) -> (usize, bool)
        requires fit { opened ≤ length self.now.input.queue.items }
        ensures name { AllPass (is_copied Copied.Name) (take result.0 (drop opened self.now.input.queue.items)) }
        ensures ended { EndsAt (is_copied Copied.Name) (drop opened self.now.input.queue.items) result.0 }
        ensures close { result.1 ≡ true → slice_get (drop opened self.now.input.queue.items) result.0 ≡ Some 62 }
        ensures fit { result.1 ≡ true → opened + result.0 < length self.now.input.queue.items }
        ensures within { opened + result.0 ≤ length self.now.input.queue.items }
    {
        let rest = &self.input.queue.unread()[opened..];
        let len = Copied::Name.front(rest);
        match rest.get(len) {
            Some('>') => (len, true),
            _ => (len, false),
        }
    }

    /// Takes an end tag without attributes, whose name has this length.
    fn take_end(&mut self, opened: usize, len: usize) -> Result<Token, AllocError>
        requires fit { opened + len < length self.old.input.queue.items }
        requires state { self.old.state ≡ State.Text Region.Plain }
        requires room { self.old.place + length self.old.input.queue.items < 2 ^ 64 }
        ensures ends { IfOk result (λ given. EndsTagAt (at_close self.old (opened + len) (short_draft self.old true opened len)) (short_draft self.old true opened len) false 1 (Progress.Given given) self.new) }
        ensures err { OnErr result (self.new ≡ self.old) }
    {
        let start = self.place;
        let mut name = Str::new(self.alloc);
        push_all(&mut name, &self.input.queue.unread()[opened..opened + len])?;
        self.pass(opened + len + 1);
        self.mode = TextMode::Data;
        Ok(token(TokenKind::End { name }, start, self.place))
    }

    /// Takes a start tag without attributes, whose name has this length.
    fn take_start(&mut self, opened: usize, len: usize) -> Result<Token, AllocError>
        requires fit { opened + len < length self.old.input.queue.items }
        requires state { self.old.state ≡ State.Text Region.Plain }
        requires room { self.old.place + length self.old.input.queue.items < 2 ^ 64 }
        ensures ends { IfOk result (λ given. EndsTagAt (at_close self.old (opened + len) (short_draft self.old false opened len)) (short_draft self.old false opened len) false 1 (Progress.Given given) self.new) }
        ensures place { OnErr result (self.new.place ≡ self.old.place) }
        ensures input { OnErr result (self.new.input ≡ self.old.input) }
    {
        let start = self.place;
        let mut name = Str::new(self.alloc);
        let text = &self.input.queue.unread()[opened..opened + len];
        push_all(&mut name, text)?;
        keep_name(&mut self.last_name, self.alloc, text)?;
        self.pass(opened + len + 1);
        let kind = TokenKind::Start {
            name,
            attrs: Attrs::new(self.alloc),
            self_closing: false,
        };
        Ok(token(kind, start, self.place))
    }

    /// The tag at the front of the rest, where it was fed whole and tells no error. A start tag that begins so is being read from then on.
    #[inline(always)]
    pub(crate) fn whole_tag(&mut self, faults: &mut Faults) -> Result<Option<Token>, AllocError>
        requires room { self.old.place + length self.old.input.queue.items < 2 ^ 64 }
        ensures given { IfOk result (λ answer. IfSome answer (λ given. Steps self.old (Progress.Given given) self.new)) }
        ensures begun { IfOk result (λ answer. IfNone answer (Skips self.old self.new)) }
        ensures room { self.new.place + length self.new.input.queue.items ≤ self.old.place + length self.old.input.queue.items }
        ensures finished { self.new.input.finished ≡ self.old.input.finished }
        ensures bounded { IsBounded self.old faults.old → OnOk result (IsBounded self.new faults.new) }
        ensures within { IsBounded self.old faults.old → OnErr result (IsWithin self.new.place faults.new) }
        ensures silent { IfOk result (λ answer. IfSome answer (λ given. IsSilent self.old)) }
        ensures quiet { IsQuiet faults.old faults.new }
        ensures lost { faults.new.lost ≡ faults.old.lost }
    {
        if !self.is_at_markup() {
            return Ok(None);
        }
        match opener(&self.input) {
            Some(Opener::StartTag) => self.whole_start(faults),
            Some(Opener::EndTag) => self.whole_end(),
            _ => Ok(None),
        }
    }

    /// The end tag at the front of the rest, where it has no attributes, was fed whole and tells no error.
    #[inline(never)]
    fn whole_end(&mut self) -> Result<Option<Token>, AllocError>
        requires state { self.old.state ≡ State.Text Region.Plain }
        requires begun { Decided self.old.input (begin_at self.old.mode Region.Plain self.old.last_name) Begin.Markup }
        requires start { Decided self.old.input opener Opener.EndTag }
        requires some { 2 ≤ length self.old.input.queue.items }
        requires room { self.old.place + length self.old.input.queue.items < 2 ^ 64 }
        ensures given { IfOk result (λ answer. IfSome answer (λ given. Steps self.old (Progress.Given given) self.new)) }
        ensures none { IfOk result (λ answer. IfNone answer (self.new ≡ self.old)) }
        ensures room { self.new.place + length self.new.input.queue.items ≤ self.old.place + length self.old.input.queue.items }
        ensures finished { self.new.input.finished ≡ self.old.input.finished }
        ensures bounded { (faults : Faults) → IsBounded self.old faults → OnOk result (IsBounded self.new faults) }
        ensures within { (faults : Faults) → IsBounded self.old faults → OnErr result (IsWithin self.new.place faults) }
    {
        let (len, closes) = self.name_len(2);
        if !closes {
            return Ok(None);
        }
        let given = self.take_end(2, len)?;
        Ok(Some(given))
    }

    /// The start tag at the front of the rest, where it was fed whole and tells no error. One that begins so is being read from then on.
    #[inline(never)]
    fn whole_start(&mut self, faults: &mut Faults) -> Result<Option<Token>, AllocError>
        requires state { self.old.state ≡ State.Text Region.Plain }
        requires begun { Decided self.old.input (begin_at self.old.mode Region.Plain self.old.last_name) Begin.Markup }
        requires start { Decided self.old.input opener Opener.StartTag }
        requires silent { IsSilent self.old }
        requires some { 1 ≤ length self.old.input.queue.items }
        requires room { self.old.place + length self.old.input.queue.items < 2 ^ 64 }
        ensures given { IfOk result (λ answer. IfSome answer (λ given. Steps self.old (Progress.Given given) self.new)) }
        ensures begun { IfOk result (λ answer. IfNone answer (Skips self.old self.new)) }
        ensures room { self.new.place + length self.new.input.queue.items ≤ self.old.place + length self.old.input.queue.items }
        ensures finished { self.new.input.finished ≡ self.old.input.finished }
        ensures bounded { IsBounded self.old faults.old → OnOk result (IsBounded self.new faults.new) }
        ensures within { IsBounded self.old faults.old → OnErr result (IsWithin self.new.place faults.new) }
        ensures quiet { IsQuiet faults.old faults.new }
        ensures lost { faults.new.lost ≡ faults.old.lost }
    {
        let (len, closes) = self.name_len(1);
        if closes {
            let given = self.take_start(1, len)?;
            return Ok(Some(given));
        }
        self.read_start(len, faults)
    }
}
