// Start tags whose attributes were fed whole, which are read at once.
ghost use Rattle.std.specs.Prelude.{◌≡◌, ℕ, ◌≤◌, ◌+◌, ◌<◌, ◌^◌, drop, length, take, false, IfOk, IfSome, IfNone, OnErr, OnOk};
ghost use Rattle.html_tokens.specs.Bounds.{IsBounded, IsWithin};
ghost use Rattle.html_tokens.specs.Copied.{AllPass, CopiesTag, is_copied};
ghost use Rattle.html_tokens.specs.Errors.{IsQuiet};
ghost use Rattle.html_tokens.specs.Fed.{EndsTagAt, IsSilent, Skips, Steps};
ghost use Rattle.html_tokens.specs.Input.{Decided};
ghost use Rattle.html_tokens.specs.Marks.{begin_at};
ghost use Rattle.html_tokens.specs.Tokens.{opener};
ghost use Rattle.html_tokens.specs.Whole.{ClosesTag, IsNamed, KeepsBounds};

use crate::copied::{Copied, push_all};
use crate::faults::Faults;
use crate::machine::{Machine, Progress, State, token};
use crate::short::keep_text;
use crate::tag::{Part, TagDraft, ends_name};
use crate::token::{Begin, Opener, Region, TextMode, Token, TokenKind};
use crate::whole_attr::{NOTHING, Taken, space_len};
use std::alloc::AllocError;

/// Whether what closes a tag at the front closes the element too, and its length.
fn closing(rest: &[char]) -> Option<(bool, usize)>
    ensures { IfSome result (λ found. ClosesTag rest.now found.0 found.1) }
{
    match (rest.get(0), rest.get(1)) {
        (Some('>'), _) => Some((false, 1)),
        (Some('/'), Some('>')) => Some((true, 2)),
        _ => None,
    }
}

impl TagDraft {
    /// Takes the attributes at the front that were fed whole and tell no error, each after a space, and a space after the last of them.
    fn take_attrs(&mut self, rest: &[char]) -> Result<Taken, AllocError>
        requires part { self.old.part ≡ Part.Attributes }
        ensures copies { IfOk result (λ taken. CopiesTag self.old rest.now taken.len self.new) }
        ensures bounds { IfOk result (λ taken. KeepsBounds self.old taken.len taken.compared self.new) }
        ensures part { OnOk result (self.new.part ≡ Part.Attributes) }
    {
        let mut len = 0;
        let mut compared: u128 = 0;
        'taking: loop {
            let taken = self.take_whole(&rest[len..], false)?;
            if taken.len == 0 {
                let spaces = space_len(&rest[len..]);
                return Ok(Taken {
                    len: len + spaces,
                    compared,
                });
            }
            len += taken.len;
            compared = compared.saturating_add(taken.compared);
        }
    }

    /// Takes the name at the front, which has this length, and the attributes after it that were fed whole and tell no error.
    fn take_front(&mut self, rest: &[char], name: usize) -> Result<Taken, AllocError>
        requires part { self.old.part ≡ Part.Name }
        requires fit { name ≤ length rest.now }
        requires name { AllPass (is_copied Copied.Name) (take name rest.now) }
        ensures copies { IfOk result (λ taken. CopiesTag self.old rest.now taken.len self.new) }
        ensures bounds { IfOk result (λ taken. KeepsBounds self.old taken.len taken.compared self.new) }
        ensures named { IfOk result (λ taken. IsNamed self.new.part (drop taken.len rest.now)) }
    {
        push_all(&mut self.name, &rest[..name])?;
        match rest.get(name) {
            Some(c) if ends_name(*c) => {
                self.part = Part::Attributes;
                let taken = self.take_attrs(&rest[name..])?;
                Ok(Taken {
                    len: name + taken.len,
                    ..taken
                })
            }
            _ => Ok(Taken {
                len: name,
                ..NOTHING
            }),
        }
    }
}

impl<'a> Machine<'a> {
    /// Gives a tag, before what closes it.
    pub(crate) fn give_tag(
        &mut self,
        draft: TagDraft,
        self_closing: bool,
        len: usize,
    ) -> Result<Token, AllocError>
        requires fit { len ≤ length self.old.input.queue.items }
        requires room { self.old.place + length self.old.input.queue.items < 2 ^ 64 }
        ensures ends { IfOk result (λ given. EndsTagAt self.old draft self_closing len (Progress.Given given) self.new) }
        ensures room { self.new.place + length self.new.input.queue.items ≡ self.old.place + length self.old.input.queue.items }
        ensures finished { self.new.input.finished ≡ self.old.input.finished }
        ensures place { self.new.place ≡ self.old.place + len }
    {
        self.enter(State::Text(Region::Plain));
        self.pass(len);
        if draft.is_end {
            self.mode = TextMode::Data;
            let kind = TokenKind::End { name: draft.name };
            return Ok(token(kind, draft.start, self.place));
        }
        keep_text(&mut self.last_name, self.alloc, draft.name.as_str())?;
        let kind = TokenKind::Start {
            name: draft.name,
            attrs: draft.attrs.into_attrs()?,
            self_closing,
        };
        Ok(token(kind, draft.start, self.place))
    }

    /// Reads the start tag at the front of the rest, whose name has this length, as far as it was fed whole and tells no error: it is given where
    /// it closes there, and else is what is being read.
    #[inline(never)]
    pub(crate) fn read_start(
        &mut self,
        name: usize,
        faults: &mut Faults,
    ) -> Result<Option<Token>, AllocError>
        requires state { self.old.state ≡ State.Text Region.Plain }
        requires begun { Decided self.old.input (begin_at self.old.mode Region.Plain self.old.last_name) Begin.Markup }
        requires start { Decided self.old.input opener Opener.StartTag }
        requires silent { IsSilent self.old }
        requires fit { 1 + name ≤ length self.old.input.queue.items }
        requires name { AllPass (is_copied Copied.Name) (take name (drop 1 self.old.input.queue.items)) }
        requires room { self.old.place + length self.old.input.queue.items < 2 ^ 64 }
        ensures given { IfOk result (λ answer. IfSome answer (λ given. Steps self.old (Progress.Given given) self.new)) }
        ensures begun { IfOk result (λ answer. IfNone answer (Skips self.old self.new)) }
        ensures room { self.new.place + length self.new.input.queue.items ≤ self.old.place + length self.old.input.queue.items }
        ensures finished { self.new.input.finished ≡ self.old.input.finished }
        ensures bounded { IsBounded self.old faults.old → OnOk result (IsBounded self.new faults.new) }
        ensures within { IsBounded self.old faults.old → OnErr result (IsWithin self.new.place faults.new) }
        ensures quiet { IsQuiet faults.old faults.new }
        ensures lost { faults.new.lost ≡ faults.old.lost }
    {
        let mut draft = TagDraft::new(self.alloc, false, self.place);
        let taken = draft.take_front(&self.input.queue.unread()[1..], name)?;
        self.pass(1 + taken.len);
        faults.took(taken);
        match closing(self.input.queue.unread()) {
            None => {
                self.enter(State::Tag(draft));
                Ok(None)
            }
            Some((self_closing, len)) => {
                let given = self.give_tag(draft, self_closing, len)?;
                Ok(Some(given))
            }
        }
    }
}
