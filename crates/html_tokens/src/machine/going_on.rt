// Reading on as long as no token can come of it.
ghost use Rattle.std.specs.Prelude.{◌≡◌, ℕ, ◌≤◌, ◌+◌, ◌^◌, ◌<◌, [], length, option_to_list, slice_get, IfOk, IfSome, OnErr, OnOk, true};
ghost use Rattle.html_tokens.specs.Errors.{IsQuiet};
ghost use Rattle.html_tokens.specs.Fed.{Skips};
ghost use Rattle.html_tokens.specs.Input.{Decided};
ghost use Rattle.html_tokens.specs.InsideTags.{looks_on, tag_char_errors};
ghost use Rattle.html_tokens.specs.Bounds.{IsBounded, IsWithin};

use super::{Machine, State};
use crate::faults::Faults;
use crate::input::{Input, Peek};
use crate::tag::{Part, TagReading};
use std::alloc::AllocError;

/// What is known of the code point after this one, where this one tells nothing in a part of a tag: where it is a quote that closes a value, what follows it.
#[inline(always)]
fn quiet_after(part: Part, input: &Input, c: char) -> Option<Option<char>>
    requires some { 0 < length input.now.queue.items }
    requires slash { c ≡ 47 → ⊥ }
    ensures quiet { IfSome result (λ after. (place : ℕ) → tag_char_errors part c after place ≡ []) }
    ensures looks { IfSome result (λ after. looks_on part c ≡ true → Decided input.now (λ rest. slice_get rest 1) after) }
    ensures fit { IfSome result (λ after. 1 + length (option_to_list after) ≤ length input.now.queue.items) }
{
    if !part.may_tell(c) {
        return Some(None);
    }
    match input.peek(1) {
        Peek::Is(Some(next)) if part.closes_before(c, next) => Some(Some(next)),
        _ => None,
    }
}

impl<'a> Machine<'a> {
    /// Copies the longest front of the rest that the tag being read takes as it stands.
    fn copy_in_tag(&mut self) -> Result<(), AllocError>
        requires room { self.old.place + length self.old.input.queue.items < 2 ^ 64 }
        ensures skips { OnOk result (Skips self.old self.new) }
        ensures room { self.new.place + length self.new.input.queue.items ≤ self.old.place + length self.old.input.queue.items }
        ensures fewer { length self.new.input.queue.items ≤ length self.old.input.queue.items }
        ensures finished { self.new.input.finished ≡ self.old.input.finished }
        ensures bounded { (faults : Faults) → IsBounded self.old faults → OnOk result (IsBounded self.new faults) }
        ensures within { (faults : Faults) → IsBounded self.old faults → OnErr result (IsWithin self.new.place faults) }
    {
        let State::Tag(draft) = &mut self.state else {
            return Ok(());
        };
        let copied = draft.copy_front(self.input.queue.unread())?;
        self.pass(copied);
        Ok(())
    }

    /// Copies the longest front of the rest that the comment being read takes as it stands.
    fn copy_in_comment(&mut self) -> Result<(), AllocError>
        requires room { self.old.place + length self.old.input.queue.items < 2 ^ 64 }
        ensures skips { OnOk result (Skips self.old self.new) }
        ensures room { self.new.place + length self.new.input.queue.items ≤ self.old.place + length self.old.input.queue.items }
        ensures fewer { length self.new.input.queue.items ≤ length self.old.input.queue.items }
        ensures finished { self.new.input.finished ≡ self.old.input.finished }
        ensures bounded { (faults : Faults) → IsBounded self.old faults → OnOk result (IsBounded self.new faults) }
        ensures within { (faults : Faults) → IsBounded self.old faults → OnErr result (IsWithin self.new.place faults) }
    {
        let State::Comment(draft) = &mut self.state else {
            return Ok(());
        };
        let copied = draft.copy_front(self.input.queue.unread())?;
        self.pass(copied);
        Ok(())
    }

    /// Copies the longest front of the rest that what is being read takes as it stands.
    fn copy_front(&mut self) -> Result<(), AllocError>
        requires room { self.old.place + length self.old.input.queue.items < 2 ^ 64 }
        ensures skips { OnOk result (Skips self.old self.new) }
        ensures room { self.new.place + length self.new.input.queue.items ≤ self.old.place + length self.old.input.queue.items }
        ensures fewer { length self.new.input.queue.items ≤ length self.old.input.queue.items }
        ensures finished { self.new.input.finished ≡ self.old.input.finished }
        ensures bounded { (faults : Faults) → IsBounded self.old faults → OnOk result (IsBounded self.new faults) }
        ensures within { (faults : Faults) → IsBounded self.old faults → OnErr result (IsWithin self.new.place faults) }
    {
        match &self.state {
            State::Tag(_) => self.copy_in_tag(),
            State::Comment(_) => self.copy_in_comment(),
            State::Text(_)
            | State::Number(_)
            | State::Second(..)
            | State::Ampersand(_)
            | State::Doctype(_)
            | State::Section
            | State::Ended => Ok(()),
        }
    }

    /// Reads a code point in a tag that no token can come of, and no error: none that may close the tag or begin a
    /// reference. Whether there was one.
    fn tag_on(&mut self, faults: &mut Faults) -> Result<bool, AllocError>
        requires room { self.old.place + length self.old.input.queue.items < 2 ^ 64 }
        ensures skips { OnOk result (Skips self.old self.new) }
        ensures quiet { IsQuiet faults.old faults.new }
        ensures fewer { IfOk result (λ on. on ≡ true → length self.new.input.queue.items < length self.old.input.queue.items) }
        ensures room { self.new.place + length self.new.input.queue.items ≤ self.old.place + length self.old.input.queue.items }
        ensures left { length self.new.input.queue.items ≤ length self.old.input.queue.items }
        ensures finished { self.new.input.finished ≡ self.old.input.finished }
        ensures bounded { IsBounded self.old faults.old → OnOk result (IsBounded self.new faults.new) }
        ensures within { IsBounded self.old faults.old → OnErr result (IsWithin self.new.place faults.new) }
    {
        let State::Tag(draft) = &mut self.state else {
            return Ok(false);
        };
        let c = match self.input.peek(0) {
            Peek::Wait => return Ok(false),
            Peek::Is(None) => return Ok(false),
            Peek::Is(Some(c)) => c,
        };
        if c == '>' || c == '/' || c == '&' {
            return Ok(false);
        }
        let Some(after) = quiet_after(draft.part, &self.input, c) else {
            return Ok(false);
        };
        if !faults.quiet_char(draft, c, after, self.place) {
            return Ok(false);
        }
        match draft.read(c, after)? {
            TagReading::More => {
                self.pass(1);
                Ok(true)
            }
            TagReading::Closed(..) => unreachable!(),
        }
    }

    /// Takes an attribute that was fed whole, or else reads a code point in a tag that no token can come of. Whether there
    /// was one.
    fn go_on(&mut self, faults: &mut Faults) -> Result<bool, AllocError>
        requires room { self.old.place + length self.old.input.queue.items < 2 ^ 64 }
        ensures skips { OnOk result (Skips self.old self.new) }
        ensures quiet { IsQuiet faults.old faults.new }
        ensures fewer { IfOk result (λ on. on ≡ true → length self.new.input.queue.items < length self.old.input.queue.items) }
        ensures room { self.new.place + length self.new.input.queue.items ≤ self.old.place + length self.old.input.queue.items }
        ensures left { length self.new.input.queue.items ≤ length self.old.input.queue.items }
        ensures finished { self.new.input.finished ≡ self.old.input.finished }
        ensures bounded { IsBounded self.old faults.old → OnOk result (IsBounded self.new faults.new) }
        ensures within { IsBounded self.old faults.old → OnErr result (IsWithin self.new.place faults.new) }
    {
        let taken = self.attr_on(faults)?;
        if taken {
            return Ok(true);
        }
        let read = self.tag_on(faults)?;
        Ok(read)
    }

    /// Reads on as long as no token can come of it.
    pub(super) fn read_on(&mut self, faults: &mut Faults) -> Result<(), AllocError>
        requires room { self.old.place + length self.old.input.queue.items < 2 ^ 64 }
        ensures skips { OnOk result (Skips self.old self.new) }
        ensures quiet { IsQuiet faults.old faults.new }
        ensures room { self.new.place + length self.new.input.queue.items ≤ self.old.place + length self.old.input.queue.items }
        ensures fewer { length self.new.input.queue.items ≤ length self.old.input.queue.items }
        ensures finished { self.new.input.finished ≡ self.old.input.finished }
        ensures bounded { IsBounded self.old faults.old → OnOk result (IsBounded self.new faults.new) }
        ensures within { IsBounded self.old faults.old → OnErr result (IsWithin self.new.place faults.new) }
    {
        self.copy_front()?;
        'reading: while self.go_on(faults)? {
            self.copy_front()?;
        }
        Ok(())
    }
}
