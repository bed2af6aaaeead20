// Steps in tags.
ghost use Rattle.std.specs.Prelude.{◌≡◌, ◌≤◌, ◌+◌, ◌^◌, ◌<◌, Some, length, slice_get, IfOk, OnErr, OnOk, true};
ghost use Rattle.html_tokens.specs.Fed.{Steps, Tells, IsTag, EndsTag};
ghost use Rattle.html_tokens.specs.Input.{Decided};
ghost use Rattle.html_tokens.specs.InsideTags.{looks_on};
ghost use Rattle.html_tokens.specs.Tag.{reads_refs};
ghost use Rattle.html_tokens.specs.Bounds.{IsBounded, IsWithin};
ghost use Rattle.std.specs.Prelude.{option_to_list};

use super::{Machine, Progress, State, token};
use crate::faults::{Faults, lacks_semicolon};
use crate::input::Peek;
use crate::reference::value_ref;
use crate::short::keep_text;
use crate::tag::{TagDraft, TagReading};
use crate::token::{Region, TextMode, TokenKind};
use std::alloc::AllocError;
use std::mem;

impl<'a> Machine<'a> {
    /// Reads on in a tag.
    pub(super) fn tag_step(&mut self, faults: &mut Faults) -> Result<Progress, AllocError>
        requires state { IsTag self.old.state }
        requires room { self.old.place + length self.old.input.queue.items < 2 ^ 64 }
        ensures steps { IfOk result (λ progress. Steps self.old progress self.new) }
        ensures room { OnErr result (self.new.place + length self.new.input.queue.items ≤ self.old.place + length self.old.input.queue.items) }
        ensures finished { OnErr result (self.new.input.finished ≡ self.old.input.finished) }
        ensures bounded { IsBounded self.old faults.old → OnOk result (IsBounded self.new faults.new) }
        ensures within { IsBounded self.old faults.old → OnErr result (IsWithin self.new.place faults.new) }
        ensures tells { IfOk result (λ progress. Tells self.old progress faults.old faults.new) }
    {
        let State::Tag(draft) = &self.state else {
            return Ok(Progress::Wait);
        };
        let c = match self.input.peek(0) {
            Peek::Wait => return Ok(Progress::Wait),
            Peek::Is(None) => {
                faults.tag_end(draft, self.place);
                self.enter(State::Ended);
                return Ok(Progress::Given(token(TokenKind::Eof, self.place, self.place)));
            }
            Peek::Is(Some(c)) => c,
        };
        if c == '&' && draft.reads_refs() {
            return self.value_step(faults);
        }
        let mut after = None;
        if draft.part.looks_on(c) {
            match self.input.peek(1) {
                Peek::Wait => return Ok(Progress::Wait),
                Peek::Is(found) => after = found,
            }
        }
        self.tag_read(c, after, faults)
    }

    /// Reads on at a `&` in a value.
    fn value_step(&mut self, faults: &mut Faults) -> Result<Progress, AllocError>
        requires state { IsTag self.old.state }
        requires refs { (draft : TagDraft) → self.old.state ≡ State.Tag draft → reads_refs draft.part ≡ true }
        requires first { Decided self.old.input (λ rest. slice_get rest 0) (Some 38) }
        requires some { 0 < length self.old.input.queue.items }
        requires room { self.old.place + length self.old.input.queue.items < 2 ^ 64 }
        ensures steps { IfOk result (λ progress. Steps self.old progress self.new) }
        ensures room { OnErr result (self.new.place + length self.new.input.queue.items ≤ self.old.place + length self.old.input.queue.items) }
        ensures finished { OnErr result (self.new.input.finished ≡ self.old.input.finished) }
        ensures bounded { IsBounded self.old faults.old → OnOk result (IsBounded self.new faults.new) }
        ensures within { IsBounded self.old faults.old → OnErr result (IsWithin self.new.place faults.new) }
        ensures tells { IfOk result (λ progress. Tells self.old progress faults.old faults.new) }
    {
        let Some(found) = value_ref(self.table, &self.input) else {
            return Ok(Progress::Wait);
        };
        let lacking = lacks_semicolon(&self.input, found.len());
        let State::Tag(draft) = &mut self.state else {
            return Ok(Progress::Wait);
        };
        faults.value_ref(draft.part, found, lacking, self.place);
        draft.read_ref(found, self.place)?;
        self.pass(found.len());
        Ok(Progress::More)
    }

    /// Reads on in a tag, at a code point that begins no reference; what follows it is known too.
    fn tag_read(
        &mut self,
        c: char,
        after: Option<char>,
        faults: &mut Faults,
    ) -> Result<Progress, AllocError>
        requires state { IsTag self.old.state }
        requires plain { (draft : TagDraft) → self.old.state ≡ State.Tag draft → reads_refs draft.part ≡ true → c ≡ 38 → ⊥ }
        requires first { Decided self.old.input (λ rest. slice_get rest 0) (Some c) }
        requires second { (draft : TagDraft) → self.old.state ≡ State.Tag draft → looks_on draft.part c ≡ true → Decided self.old.input (λ rest. slice_get rest 1) after }
        requires fit { 1 + length (option_to_list after) ≤ length self.old.input.queue.items }
        requires room { self.old.place + length self.old.input.queue.items < 2 ^ 64 }
        ensures steps { IfOk result (λ progress. Steps self.old progress self.new) }
        ensures room { OnErr result (self.new.place + length self.new.input.queue.items ≤ self.old.place + length self.old.input.queue.items) }
        ensures finished { OnErr result (self.new.input.finished ≡ self.old.input.finished) }
        ensures bounded { IsBounded self.old faults.old → OnOk result (IsBounded self.new faults.new) }
        ensures within { IsBounded self.old faults.old → OnErr result (IsWithin self.new.place faults.new) }
        ensures tells { IfOk result (λ progress. Tells self.old progress faults.old faults.new) }
    {
        let State::Tag(draft) = &mut self.state else {
            return Ok(Progress::Wait);
        };
        faults.tag_char(draft, c, after, self.place);
        match draft.read(c, after)? {
            TagReading::More => {
                self.pass(1);
                Ok(Progress::More)
            }
            TagReading::Closed(self_closing, len) => {
                faults.tag_close(draft, self_closing, len, self.place);
                self.end_tag(self_closing, len)
            }
        }
    }

    /// The tag ends, before what closes it.
    fn end_tag(&mut self, self_closing: bool, len: usize) -> Result<Progress, AllocError>
        requires fit { len ≤ length self.old.input.queue.items }
        requires state { IsTag self.old.state }
        requires room { self.old.place + length self.old.input.queue.items < 2 ^ 64 }
        ensures ends { IfOk result (λ progress. EndsTag self.old self_closing len progress self.new) }
        ensures room { OnErr result (self.new.place + length self.new.input.queue.items ≤ self.old.place + length self.old.input.queue.items) }
        ensures finished { OnErr result (self.new.input.finished ≡ self.old.input.finished) }
        ensures place { self.new.place ≡ self.old.place + len }
    {
        match mem::replace(&mut self.state, State::Text(Region::Plain)) {
            State::Tag(draft) => {
                let given = self.give_tag(draft, self_closing, len)?;
                Ok(Progress::Given(given))
            }
            _ => Ok(Progress::Wait),
        }
    }
}
