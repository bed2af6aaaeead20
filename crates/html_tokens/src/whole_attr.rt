// Attributes with values that were fed whole, which are read at once.
ghost use Rattle.std.specs.Prelude.{◌≡◌, ℕ, ◌≤◌, ◌+◌, ◌-◌, ◌<◌, ◌^◌, length, min, slice_get, take, Some, true, IfOk, IfSome, IfNone, OnErr, OnOk};
ghost use Rattle.html_tokens.specs.Bounds.{IsBounded, IsWithin};
ghost use Rattle.html_tokens.specs.Copied.{AllPass, CopiesTag, EndsAt, copied_in, is_copied};
ghost use Rattle.html_tokens.specs.Errors.{IsQuiet};
ghost use Rattle.html_tokens.specs.Fed.{Skips};
ghost use Rattle.html_tokens.specs.Whole.{AddsOne, ClosesValue, IsFree, IsValue, IsWholeAttr, OpensValue, quote_len, whole_len};

use crate::attributes::Attr;
use crate::copied::{Copied, push_all};
use crate::faults::Faults;
use crate::machine::{Machine, State};
use crate::tag::{Part, TagDraft, ValueEnd, ends_name, ends_unquoted};
use html_text::Str;
use std::alloc::AllocError;

/// An attribute that was fed whole: the length of its name, how its value closes, and the length of that.
#[derive(Clone, Copy)]
pub struct WholeAttr {
    pub name: usize,
    pub end: ValueEnd,
    pub value: usize,
}

/// What was taken of a tag at once: so many code points, and so many attribute names were compared.
#[derive(Clone, Copy)]
pub struct Taken {
    pub len: usize,
    pub compared: u128,
}

/// Nothing was taken.
pub(crate) const NOTHING: Taken = Taken {
    len: 0,
    compared: 0,
};

/// The length of the space at the front, where there is one.
pub(crate) fn space_len(rest: &[char]) -> usize
    ensures fit { result ≤ length rest.now }
    ensures few { result ≤ 1 }
    ensures space { result ≡ 1 → slice_get rest.now 0 ≡ Some 32 }
{
    match rest.get(0) {
        Some(' ') => 1,
        _ => 0,
    }
}

impl ValueEnd {
    /// How a value closes that begins with this code point.
    fn of(first: char) -> ValueEnd
        ensures { OpensValue result (Some first) }
    {
        match first {
            '"' => ValueEnd::DoubleQuote,
            '\'' => ValueEnd::SingleQuote,
            _ => ValueEnd::Space,
        }
    }

    /// The length of its quote.
    fn quote_len(self) -> usize
        ensures { result ≡ quote_len self }
    {
        match self {
            ValueEnd::DoubleQuote | ValueEnd::SingleQuote => 1,
            ValueEnd::Space => 0,
        }
    }

    /// Whether a code point closes it.
    fn closes(self, c: char) -> bool
        ensures { result ≡ true → ClosesValue self (Some c) }
    {
        match self {
            ValueEnd::DoubleQuote => c == '"',
            ValueEnd::SingleQuote => c == '\'',
            ValueEnd::Space => ends_unquoted(c),
        }
    }

    /// Whether what stands behind its closing quote is no part of an attribute.
    fn is_free(self, inner: &[char], at: usize) -> bool
        ensures { result ≡ true → IsFree self (slice_get inner.now at) }
    {
        match self {
            ValueEnd::DoubleQuote | ValueEnd::SingleQuote => match inner.get(at) {
                Some(c) => ends_name(*c),
                None => false,
            },
            ValueEnd::Space => true,
        }
    }

    /// The length of the longest front of the rest that it takes as it stands.
    fn front(self, rest: &[char]) -> usize
        ensures fit { result ≤ length rest.now }
        ensures passes { AllPass (is_copied (copied_in self)) (take result rest.now) }
        ensures ended { EndsAt (is_copied (copied_in self)) rest.now result }
    {
        match self {
            ValueEnd::DoubleQuote => Copied::DoubleQuoted.front(rest),
            ValueEnd::SingleQuote => Copied::SingleQuoted.front(rest),
            ValueEnd::Space => Copied::Unquoted.front(rest),
        }
    }
}

/// How the value at the front closes, and its length.
fn whole_value(rest: &[char]) -> Option<(ValueEnd, usize)>
    ensures { IfSome result (λ found. IsValue rest.now found.0 found.1) }
{
    let end = ValueEnd::of(*rest.get(0)?);
    let quote = end.quote_len();
    let inner = &rest[quote..];
    let len = end.front(inner);
    match inner.get(len) {
        Some(c) if end.closes(*c) && 0 < quote + len && end.is_free(inner, len + 1) => {
            Some((end, len))
        }
        _ => None,
    }
}

/// The attribute at the front.
fn whole_attr(text: &[char]) -> Option<WholeAttr>
    ensures { IfSome result (λ found. IsWholeAttr text.now found) }
{
    let name = Copied::Name.front(text);
    let rest = &text[name..];
    match rest.get(0) {
        Some('=') if 0 < name => {}
        _ => return None,
    }
    let (end, value) = whole_value(&rest[1..])?;
    Some(WholeAttr { name, end, value })
}

impl TagDraft {
    /// Takes the attribute at the front, and answers with how many names its name was compared; nothing where it has the name of one before
    /// it.
    fn add_whole(&mut self, text: &[char], whole: WholeAttr) -> Result<Option<usize>, AllocError>
        requires part { self.old.part ≡ Part.Attributes }
        requires whole { IsWholeAttr text.now whole }
        ensures copies { IfOk result (λ added. IfSome added (λ _. CopiesTag self.old text.now (whole_len whole) self.new)) }
        ensures counted { IfOk result (λ added. IfSome added (λ compared. AddsOne self.old.attrs compared self.new.attrs)) }
        ensures compared { IfOk result (λ added. IfSome added (λ compared. compared ≤ length self.old.attrs)) }
        ensures none { IfOk result (λ added. IfNone added (self.new ≡ self.old)) }
        ensures attrs { OnOk result (length self.new.attrs ≤ length self.old.attrs + 1) }
        ensures part { OnOk result (self.new.part ≡ Part.Attributes) }
    {
        let (attr_name, attr_value) = text.split_at(whole.name);
        let mut name = Str::new(self.alloc);
        push_all(&mut name, attr_name)?;
        let (found, compared) = self.attrs.search(&name);
        if found {
            return Ok(None);
        }
        let mut value = Str::new(self.alloc);
        let from = 1 + whole.end.quote_len();
        push_all(&mut value, &attr_value[from..from + whole.value])?;
        self.attrs.push(Attr { name, value })?;
        Ok(Some(compared))
    }

    /// Takes the attribute at the front, where it was fed whole and tells no error. A space stands before it, if it may not begin without.
    pub(crate) fn take_whole(&mut self, rest: &[char], may_begin: bool) -> Result<Taken, AllocError>
        requires part { self.old.part ≡ Part.Attributes }
        ensures copies { IfOk result (λ taken. CopiesTag self.old rest.now taken.len self.new) }
        ensures attrs { OnOk result (length self.new.attrs ≤ length self.old.attrs + 1) }
        ensures part { OnOk result (self.new.part ≡ Part.Attributes) }
        ensures counted { IfOk result (λ taken. 0 < taken.len → AddsOne self.old.attrs taken.compared self.new.attrs) }
        ensures compared { IfOk result (λ taken. taken.compared ≤ length self.old.attrs) }
        ensures none { IfOk result (λ taken. taken.len ≡ 0 → (self.new ≡ self.old) × (taken.compared ≡ 0)) }
    {
        let spaces = space_len(rest);
        if spaces == 0 && !may_begin {
            return Ok(NOTHING);
        }
        let text = &rest[spaces..];
        let Some(whole) = whole_attr(text) else {
            return Ok(NOTHING);
        };
        let Some(compared) = self.add_whole(text, whole)? else {
            return Ok(NOTHING);
        };
        let quote = whole.end.quote_len();
        Ok(Taken {
            len: spaces + (whole.name + (1 + (quote + (whole.value + quote)))),
            compared: compared as u128,
        })
    }
}

impl Faults {
    /// The names of what was taken at once were compared.
    pub(crate) fn took(&mut self, taken: Taken)
        ensures list { self.new.list ≡ self.old.list }
        ensures lost { self.new.lost ≡ self.old.lost }
        ensures quiet { IsQuiet self.old self.new }
        ensures compared { self.new.compared ≡ min (self.old.compared + taken.compared) (2 ^ 128 - 1) }
    {
        self.compared = self.compared.saturating_add(taken.compared);
    }
}

impl<'a> Machine<'a> {
    /// Takes an attribute of the tag being read, where it was fed whole and tells no error. Whether there was one.
    pub(crate) fn attr_on(&mut self, faults: &mut Faults) -> Result<bool, AllocError>
        requires room { self.old.place + length self.old.input.queue.items < 2 ^ 64 }
        ensures skips { OnOk result (Skips self.old self.new) }
        ensures quiet { IsQuiet faults.old faults.new }
        ensures fewer { IfOk result (λ on. on ≡ true → length self.new.input.queue.items < length self.old.input.queue.items) }
        ensures room { self.new.place + length self.new.input.queue.items ≤ self.old.place + length self.old.input.queue.items }
        ensures left { length self.new.input.queue.items ≤ length self.old.input.queue.items }
        ensures finished { self.new.input.finished ≡ self.old.input.finished }
        ensures bounded { IsBounded self.old faults.old → OnOk result (IsBounded self.new faults.new) }
        ensures within { IsBounded self.old faults.old → OnErr result (IsWithin self.new.place faults.new) }
    {
        let State::Tag(draft) = &mut self.state else {
            return Ok(false);
        };
        let Part::Attributes = draft.part else {
            return Ok(false);
        };
        let taken = draft.take_whole(self.input.queue.unread(), true)?;
        self.pass(taken.len);
        faults.took(taken);
        Ok(0 < taken.len)
    }
}
