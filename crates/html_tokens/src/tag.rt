// Tags.
ghost use Rattle.std.specs.Prelude.{length, ◌≡◌, ℕ, ◌≤◌, ◌+◌, ◌∷◌, [], ◌++◌, OnOk, IfOk, true, false, Option};
ghost use Rattle.html_tokens.specs.Copied.{copied_in, CopiesTag};
ghost use Rattle.html_tokens.specs.AttrNames.{NamesOn, ends_attr_name, names_in};
ghost use Rattle.html_tokens.specs.Cut.{is_space, ends_unquoted};
ghost use Rattle.html_tokens.specs.Tag.{name_char, ReadsTag, ends_name, ends_attr, AddsAttr, reads_refs, is_unsettled, Settles, OpensRef, ReadsRef, IsInside, GoesOn, ClosesAt};
ghost use Rattle.html_tokens.specs.InsideTags.{closes_before, looks_on, may_tell, may_tell_in, MovesRef, MovesTag, SettlesPart, TurnsTo};
ghost use Rattle.html_tokens.specs.Reference.{is_digit};
ghost use Rattle.html_charref.specs.Number.{char_of};
ghost use Rattle.html_charref.specs.Entities.{codes_with};
ghost use Rattle.html_tokens.specs.Fed.{new_tag};
ghost use Rattle.std.specs.Char.{is_ascii_alphanumeric};

use crate::attributes::Attr;
use crate::copied::Copied;
use crate::indexed::IndexedAttrs;
use crate::nulls::null_replaced;
use crate::reference::{ValueRef, digit};
use html_charref::{Base, add_digit, numeric};
use html_text::Str;
use std::alloc::{AllocError, Global};
use std::mem;

/// The part of a tag that is being read.
#[derive(Clone, Copy)]
pub enum Part {
    Name,
    Attributes,
    AttrName,
    AfterName,
    Value,
    Inside(ValueEnd),
    Number(ValueEnd, Base, u32, u64),
    Ampersand(ValueEnd, u64),
}

/// How a value closes.
#[derive(Clone, Copy)]
pub enum ValueEnd {
    DoubleQuote,
    SingleQuote,
    Space,
}

impl Part {
    /// Whether a code point is judged by the one after it here.
    pub(crate) fn looks_on(self, c: char) -> bool
        ensures { result ≡ looks_on self c }
    {
        match self {
            Part::Inside(ValueEnd::DoubleQuote)
            | Part::Number(ValueEnd::DoubleQuote, ..)
            | Part::Ampersand(ValueEnd::DoubleQuote, _) => { matches!(c, '/' | '"') }
            Part::Inside(ValueEnd::SingleQuote)
            | Part::Number(ValueEnd::SingleQuote, ..)
            | Part::Ampersand(ValueEnd::SingleQuote, _) => { matches!(c, '/' | '\'') }
            Part::Name
            | Part::Attributes
            | Part::AttrName
            | Part::AfterName
            | Part::Value
            | Part::Inside(ValueEnd::Space)
            | Part::Number(ValueEnd::Space, ..)
            | Part::Ampersand(ValueEnd::Space, _) => c == '/',
        }
    }

    /// Whether the name of an attribute ends here.
    #[inline(always)]
    pub(crate) fn ends_attr_name(self, found: Option<char>) -> bool
        ensures { result ≡ ends_attr_name self found }
    {
        match self {
            Part::AttrName => match found {
                Some(c) => ends_attr(c),
                None => true,
            },
            Part::Name
            | Part::Attributes
            | Part::AfterName
            | Part::Value
            | Part::Inside(_)
            | Part::Number(..)
            | Part::Ampersand(..) => false,
        }
    }

    /// Whether a quote closes a value here, before white space, `/` or `>`.
    pub(crate) fn closes_before(self, c: char, next: char) -> bool
        ensures { result ≡ true → closes_before self c next ≡ true }
    {
        match self {
            Part::Inside(ValueEnd::DoubleQuote) => c == '"' && ends_name(next),
            Part::Inside(ValueEnd::SingleQuote) => c == '\'' && ends_name(next),
            _ => false,
        }
    }

    /// Whether a code point may tell an error here, but for `/`.
    pub(crate) fn may_tell(self, c: char) -> bool
        ensures { result ≡ may_tell self c }
    {
        c == '\0' || self.may_tell_in(c)
    }

    /// The same, but for U+0000.
    fn may_tell_in(self, c: char) -> bool
        ensures { result ≡ may_tell_in self c }
    {
        match self {
            Part::Name => false,
            Part::Attributes => matches!(c, '=' | '"' | '\'' | '<'),
            Part::AttrName | Part::AfterName => matches!(c, '"' | '\'' | '<'),
            Part::Value => matches!(c, '>' | '<' | '=' | '`'),
            Part::Inside(ValueEnd::DoubleQuote) => c == '"',
            Part::Inside(ValueEnd::SingleQuote) => c == '\'',
            Part::Inside(ValueEnd::Space) => matches!(c, '"' | '\'' | '<' | '=' | '`'),
            Part::Number(_, base, ..) => digit(c, base).is_none(),
            Part::Ampersand(..) => !c.is_ascii_alphanumeric(),
        }
    }
}

impl ValueEnd {
    /// What a value takes as it stands that closes so.
    fn copied(self) -> Copied
        ensures { result ≡ copied_in self }
    {
        match self {
            ValueEnd::DoubleQuote => Copied::DoubleQuoted,
            ValueEnd::SingleQuote => Copied::SingleQuoted,
            ValueEnd::Space => Copied::Unquoted,
        }
    }
}

/// A tag that is being read.
#[derive(Drop)]
pub struct TagDraft {
    pub alloc: Global,
    pub is_end: bool,
    pub start: u64,
    pub name: Str,
    pub attrs: IndexedAttrs,
    pub part: Part,
    pub attr_name: Str,
    pub attr_value: Str,
}

/// What a read of one code point comes to.
#[derive(Clone, Copy)]
pub enum TagReading {
    More,
    Closed(bool, usize),
}

pub(crate) fn name_char(c: char) -> char
    ensures { result ≡ name_char c }
{
    null_replaced(c.to_ascii_lowercase())
}

pub(crate) fn is_space(c: char) -> bool
    ensures { result ≡ is_space c }
{
    matches!(c, '\t' | '\n' | '\u{c}' | ' ')
}

pub(crate) fn ends_name(c: char) -> bool
    ensures { result ≡ ends_name c }
{
    is_space(c) || c == '/' || c == '>'
}

pub(crate) fn ends_attr(c: char) -> bool
    ensures { result ≡ ends_attr c }
{
    ends_name(c) || c == '='
}

pub(crate) fn ends_unquoted(c: char) -> bool
    ensures { result ≡ ends_unquoted c }
{
    is_space(c) || c == '>'
}

impl TagDraft {
    pub(crate) fn new(alloc: Global, is_end: bool, start: u64) -> TagDraft
        ensures { new_tag result is_end start }
    {
        TagDraft {
            alloc,
            is_end,
            start,
            name: Str::new(alloc),
            attrs: IndexedAttrs::new(alloc),
            part: Part::Name,
            attr_name: Str::new(alloc),
            attr_value: Str::new(alloc),
        }
    }

    /// Whether a `&` begins a reference here.
    pub(crate) fn reads_refs(&self) -> bool
        ensures { result ≡ reads_refs self.now.part }
    {
        match self.part {
            Part::Name | Part::Attributes | Part::AttrName | Part::AfterName => false,
            Part::Value | Part::Inside(_) | Part::Number(..) | Part::Ampersand(..) => true,
        }
    }

    /// Copies the longest front of the rest that the name or value being read takes as it stands, and answers its length.
    pub(crate) fn copy_front(&mut self, rest: &[char]) -> Result<usize, AllocError>
        ensures copies { IfOk result (λ n. CopiesTag self.old rest.now n self.new) }
        ensures attrs { self.new.attrs ≡ self.old.attrs }
    {
        match self.part {
            Part::Name => Copied::Name.copy(rest, &mut self.name),
            Part::AttrName => Copied::Name.copy(rest, &mut self.attr_name),
            Part::Inside(end) => end.copied().copy(rest, &mut self.attr_value),
            Part::Attributes
            | Part::AfterName
            | Part::Value
            | Part::Number(..)
            | Part::Ampersand(..) => Ok(0),
        }
    }

    /// Reads a code point, which is no `&` that begins a reference; what follows it is known too.
    pub(crate) fn read(&mut self, c: char, after: Option<char>) -> Result<TagReading, AllocError>
        requires plain { reads_refs self.old.part ≡ true → c ≡ 38 → ⊥ }
        ensures reads { IfOk result (λ reading. ReadsTag self.old c after reading self.new) }
        ensures closes { IfOk result (λ reading. ClosesAt c reading) }
        ensures moves { IfOk result (λ reading. MovesTag self.old.part c after reading self.new.part) }
        ensures names { IfOk result (λ reading. NamesOn self.old c reading self.new) }
        ensures attrs { OnOk result (length self.new.attrs ≤ length self.old.attrs + 1) }
    {
        self.settle(c)?;
        self.read_settled(c, after)
    }

    /// The same, where a number goes on at the code point.
    fn read_settled(&mut self, c: char, after: Option<char>) -> Result<TagReading, AllocError>
        requires plain { reads_refs self.old.part ≡ true → c ≡ 38 → ⊥ }
        requires goes_on { GoesOn self.old.part c }
        ensures reads { IfOk result (λ reading. ReadsTag self.old c after reading self.new) }
        ensures closes { IfOk result (λ reading. ClosesAt c reading) }
        ensures moves { IfOk result (λ reading. MovesTag self.old.part c after reading self.new.part) }
        ensures names { IfOk result (λ reading. NamesOn self.old c reading self.new) }
        ensures attrs { OnOk result (length self.new.attrs ≤ length self.old.attrs + 1) }
    {
        if let Part::Number(end, base, value, start) = self.part {
            self.read_number(end, base, value, start, c)?;
            return Ok(TagReading::More);
        }
        if let Part::Ampersand(end, start) = self.part {
            self.read_letter(end, start, c)?;
            return Ok(TagReading::More);
        }
        self.read_part(c, after)
    }

    /// The same, outside a number.
    fn read_part(&mut self, c: char, after: Option<char>) -> Result<TagReading, AllocError>
        requires part { is_unsettled self.old.part ≡ false }
        requires plain { reads_refs self.old.part ≡ true → c ≡ 38 → ⊥ }
        ensures reads { IfOk result (λ reading. ReadsTag self.old c after reading self.new) }
        ensures closes { IfOk result (λ reading. ClosesAt c reading) }
        ensures moves { IfOk result (λ reading. MovesTag self.old.part c after reading self.new.part) }
        ensures names { IfOk result (λ reading. NamesOn self.old c reading self.new) }
        ensures attrs { OnOk result (length self.new.attrs ≤ length self.old.attrs + 1) }
    {
        match self.part {
            Part::Name => self.read_name(c, after),
            Part::Attributes => self.read_attributes(c, after),
            Part::AttrName => self.read_attr_name(c, after),
            Part::AfterName => self.read_after_name(c, after),
            Part::Value => self.read_value(c, after),
            Part::Inside(ValueEnd::DoubleQuote) => self.read_double_quoted(c, after),
            Part::Inside(ValueEnd::SingleQuote) => self.read_single_quoted(c, after),
            Part::Inside(ValueEnd::Space) => self.read_unquoted(c, after),
            Part::Number(..) | Part::Ampersand(..) => Ok(TagReading::More),
        }
    }

    #[tactic(auto, using(std::proofs::lemmas::Grind::common_steps), unfolding(crate::specs::Cut::cut, crate::specs::Tag::tail, crate::specs::Value::value_cut, crate::specs::Tag::value, crate::specs::Tag::after_name, crate::specs::Tag::after_some))]
    fn read_name(&mut self, c: char, after: Option<char>) -> Result<TagReading, AllocError>
        requires { self.old.part ≡ Part.Name }
        ensures reads { IfOk result (λ reading. ReadsTag self.old c after reading self.new) }
        ensures closes { IfOk result (λ reading. ClosesAt c reading) }
        ensures turns { IfOk result (λ reading. TurnsTo self.old.part c after reading self.new.part) }
        ensures names { IfOk result (λ reading. NamesOn self.old c reading self.new) }
        ensures attrs { OnOk result (length self.new.attrs ≤ length self.old.attrs + 1) }
    {
        if ends_name(c) {
            self.part = Part::Attributes;
            return self.read_attributes(c, after);
        }
        self.name.push(name_char(c))?;
        Ok(TagReading::More)
    }

    #[tactic(auto, using(std::proofs::lemmas::Grind::common_steps), unfolding(crate::specs::Cut::cut, crate::specs::Tag::tail, crate::specs::Value::value_cut, crate::specs::Tag::value, crate::specs::Tag::after_name, crate::specs::Tag::after_some))]
    fn read_attributes(&mut self, c: char, after: Option<char>) -> Result<TagReading, AllocError>
        requires { self.old.part ≡ Part.Attributes }
        ensures reads { IfOk result (λ reading. ReadsTag self.old c after reading self.new) }
        ensures closes { IfOk result (λ reading. ClosesAt c reading) }
        ensures turns { IfOk result (λ reading. TurnsTo self.old.part c after reading self.new.part) }
        ensures names { IfOk result (λ reading. NamesOn self.old c reading self.new) }
        ensures attrs { self.new.attrs ≡ self.old.attrs }
    {
        if c == '>' {
            return Ok(TagReading::Closed(false, 1));
        }
        if c == '/'
            && let Some('>') = after
        {
            return Ok(TagReading::Closed(true, 2));
        }
        if c == '/' || is_space(c) {
            return Ok(TagReading::More);
        }
        self.attr_name = Str::new(self.alloc);
        self.attr_value = Str::new(self.alloc);
        self.attr_name.push(name_char(c))?;
        self.part = Part::AttrName;
        Ok(TagReading::More)
    }

    #[tactic(auto, using(std::proofs::lemmas::Grind::common_steps), unfolding(crate::specs::Cut::cut, crate::specs::Tag::tail, crate::specs::Value::value_cut, crate::specs::Tag::value, crate::specs::Tag::after_name, crate::specs::Tag::after_some))]
    fn read_attr_name(&mut self, c: char, after: Option<char>) -> Result<TagReading, AllocError>
        requires { self.old.part ≡ Part.AttrName }
        ensures reads { IfOk result (λ reading. ReadsTag self.old c after reading self.new) }
        ensures closes { IfOk result (λ reading. ClosesAt c reading) }
        ensures turns { IfOk result (λ reading. TurnsTo self.old.part c after reading self.new.part) }
        ensures names { IfOk result (λ reading. NamesOn self.old c reading self.new) }
        ensures attrs { OnOk result (length self.new.attrs ≤ length self.old.attrs + 1) }
    {
        if ends_attr(c) {
            self.part = Part::AfterName;
            return self.read_after_name(c, after);
        }
        self.attr_name.push(name_char(c))?;
        Ok(TagReading::More)
    }

    #[tactic(auto, using(std::proofs::lemmas::Grind::common_steps), unfolding(crate::specs::Cut::cut, crate::specs::Tag::tail, crate::specs::Value::value_cut, crate::specs::Tag::value, crate::specs::Tag::after_name, crate::specs::Tag::after_some))]
    fn read_after_name(&mut self, c: char, after: Option<char>) -> Result<TagReading, AllocError>
        requires { self.old.part ≡ Part.AfterName }
        ensures reads { IfOk result (λ reading. ReadsTag self.old c after reading self.new) }
        ensures closes { IfOk result (λ reading. ClosesAt c reading) }
        ensures turns { IfOk result (λ reading. TurnsTo self.old.part c after reading self.new.part) }
        ensures names { IfOk result (λ reading. NamesOn self.old c reading self.new) }
        ensures attrs { OnOk result (length self.new.attrs ≤ length self.old.attrs + 1) }
    {
        if is_space(c) {
            return Ok(TagReading::More);
        }
        if c == '=' {
            self.part = Part::Value;
            return Ok(TagReading::More);
        }
        self.add_attr()?;
        self.read_attributes(c, after)
    }

    #[tactic(auto, using(std::proofs::lemmas::Grind::common_steps), unfolding(crate::specs::Cut::cut, crate::specs::Tag::tail, crate::specs::Value::value_cut, crate::specs::Tag::value, crate::specs::Tag::after_name, crate::specs::Tag::after_some))]
    fn read_value(&mut self, c: char, after: Option<char>) -> Result<TagReading, AllocError>
        requires part { self.old.part ≡ Part.Value }
        requires plain { c ≡ 38 → ⊥ }
        ensures reads { IfOk result (λ reading. ReadsTag self.old c after reading self.new) }
        ensures closes { IfOk result (λ reading. ClosesAt c reading) }
        ensures turns { IfOk result (λ reading. TurnsTo self.old.part c after reading self.new.part) }
        ensures names { IfOk result (λ reading. NamesOn self.old c reading self.new) }
        ensures attrs { OnOk result (length self.new.attrs ≤ length self.old.attrs + 1) }
    {
        if is_space(c) {
            return Ok(TagReading::More);
        }
        if c == '"' {
            self.part = Part::Inside(ValueEnd::DoubleQuote);
            return Ok(TagReading::More);
        }
        if c == '\'' {
            self.part = Part::Inside(ValueEnd::SingleQuote);
            return Ok(TagReading::More);
        }
        self.part = Part::Inside(ValueEnd::Space);
        self.read_unquoted(c, after)
    }

    #[tactic(auto, using(std::proofs::lemmas::Grind::common_steps), unfolding(crate::specs::Cut::cut, crate::specs::Tag::tail, crate::specs::Value::value_cut, crate::specs::Tag::value, crate::specs::Tag::after_name, crate::specs::Tag::after_some))]
    fn read_double_quoted(&mut self, c: char, after: Option<char>) -> Result<TagReading, AllocError>
        requires part { self.old.part ≡ Part.Inside ValueEnd.DoubleQuote }
        requires plain { c ≡ 38 → ⊥ }
        ensures reads { IfOk result (λ reading. ReadsTag self.old c after reading self.new) }
        ensures closes { IfOk result (λ reading. ClosesAt c reading) }
        ensures turns { IfOk result (λ reading. TurnsTo self.old.part c after reading self.new.part) }
        ensures names { IfOk result (λ reading. NamesOn self.old c reading self.new) }
        ensures attrs { OnOk result (length self.new.attrs ≤ length self.old.attrs + 1) }
    {
        if c == '"' {
            self.add_attr()?;
        } else {
            self.attr_value.push(null_replaced(c))?;
        }
        Ok(TagReading::More)
    }

    #[tactic(auto, using(std::proofs::lemmas::Grind::common_steps), unfolding(crate::specs::Cut::cut, crate::specs::Tag::tail, crate::specs::Value::value_cut, crate::specs::Tag::value, crate::specs::Tag::after_name, crate::specs::Tag::after_some))]
    fn read_single_quoted(&mut self, c: char, after: Option<char>) -> Result<TagReading, AllocError>
        requires part { self.old.part ≡ Part.Inside ValueEnd.SingleQuote }
        requires plain { c ≡ 38 → ⊥ }
        ensures reads { IfOk result (λ reading. ReadsTag self.old c after reading self.new) }
        ensures closes { IfOk result (λ reading. ClosesAt c reading) }
        ensures turns { IfOk result (λ reading. TurnsTo self.old.part c after reading self.new.part) }
        ensures names { IfOk result (λ reading. NamesOn self.old c reading self.new) }
        ensures attrs { OnOk result (length self.new.attrs ≤ length self.old.attrs + 1) }
    {
        if c == '\'' {
            self.add_attr()?;
        } else {
            self.attr_value.push(null_replaced(c))?;
        }
        Ok(TagReading::More)
    }

    #[tactic(auto, using(std::proofs::lemmas::Grind::common_steps), unfolding(crate::specs::Cut::cut, crate::specs::Tag::tail, crate::specs::Value::value_cut, crate::specs::Tag::value, crate::specs::Tag::after_name, crate::specs::Tag::after_some))]
    fn read_unquoted(&mut self, c: char, after: Option<char>) -> Result<TagReading, AllocError>
        requires part { self.old.part ≡ Part.Inside ValueEnd.Space }
        requires plain { c ≡ 38 → ⊥ }
        ensures reads { IfOk result (λ reading. ReadsTag self.old c after reading self.new) }
        ensures closes { IfOk result (λ reading. ClosesAt c reading) }
        ensures turns { IfOk result (λ reading. TurnsTo self.old.part c after reading self.new.part) }
        ensures names { IfOk result (λ reading. NamesOn self.old c reading self.new) }
        ensures attrs { OnOk result (length self.new.attrs ≤ length self.old.attrs + 1) }
    {
        if ends_unquoted(c) {
            self.add_attr()?;
            return self.read_attributes(c, after);
        }
        self.attr_value.push(null_replaced(c))?;
        Ok(TagReading::More)
    }

    /// The number that is being read is whole, where this code point is no part of it.
    fn settle(&mut self, c: char) -> Result<(), AllocError>
        ensures ok { OnOk result (Settles self.old c self.new) }
        ensures part { OnOk result (SettlesPart self.old.part c self.new.part) }
        ensures refs { OnOk result (reads_refs self.new.part ≡ reads_refs self.old.part) }
        ensures names { OnOk result (names_in self.new ≡ names_in self.old) }
        ensures attrs { OnOk result (self.new.attrs ≡ self.old.attrs) }
    {
        match self.part {
            Part::Number(end, base, value, start) => {
                self.settle_number(end, base, value, start, c)
            }
            Part::Ampersand(end, start) => {
                self.settle_letters(end, start, c);
                Ok(())
            }
            Part::Name
            | Part::Attributes
            | Part::AttrName
            | Part::AfterName
            | Part::Value
            | Part::Inside(_) => Ok(()),
        }
    }

    /// The same of a number.
    fn settle_number(
        &mut self,
        end: ValueEnd,
        base: Base,
        value: u32,
        start: u64,
        c: char,
    ) -> Result<(), AllocError>
        requires part { self.old.part ≡ Part.Number end base value start }
        ensures ok { OnOk result (Settles self.old c self.new) }
        ensures part { OnOk result (SettlesPart self.old.part c self.new.part) }
        ensures refs { OnOk result (reads_refs self.new.part ≡ reads_refs self.old.part) }
        ensures names { OnOk result (names_in self.new ≡ names_in self.old) }
        ensures attrs { OnOk result (self.new.attrs ≡ self.old.attrs) }
    {
        match digit(c, base) {
            Some(_) => {}
            None if c == ';' => {}
            None => self.number_ends(end, value)?,
        }
        Ok(())
    }

    /// The letters and digits after a `&` have ended, where this code point is none of them.
    fn settle_letters(&mut self, end: ValueEnd, start: u64, c: char)
        requires part { self.old.part ≡ Part.Ampersand end start }
        ensures ok { Settles self.old c self.new }
        ensures part { SettlesPart self.old.part c self.new.part }
        ensures refs { reads_refs self.new.part ≡ reads_refs self.old.part }
        ensures names { names_in self.new ≡ names_in self.old }
        ensures attrs { self.new.attrs ≡ self.old.attrs }
    {
        if !c.is_ascii_alphanumeric() {
            self.part = Part::Inside(end);
        }
    }

    /// Reads a letter or digit after a `&`.
    fn read_letter(&mut self, end: ValueEnd, start: u64, c: char) -> Result<(), AllocError>
        requires part { self.old.part ≡ Part.Ampersand end start }
        requires letter { is_ascii_alphanumeric c ≡ true }
        ensures ok { OnOk result ((after : Option ℕ) → ReadsTag self.old c after TagReading.More self.new) }
        ensures moves { OnOk result ((after : Option ℕ) → MovesTag self.old.part c after TagReading.More self.new.part) }
        ensures names { OnOk result (names_in self.new ≡ names_in self.old) }
        ensures attrs { OnOk result (self.new.attrs ≡ self.old.attrs) }
    {
        self.push_codes(c, None)?;
        Ok(())
    }

    /// Reads a digit of a number, or the `;` that closes it.
    fn read_number(
        &mut self,
        end: ValueEnd,
        base: Base,
        value: u32,
        start: u64,
        c: char,
    ) -> Result<(), AllocError>
        requires part { self.old.part ≡ Part.Number end base value start }
        requires belongs { is_digit base c ≡ false → c ≡ 59 }
        ensures ok { OnOk result ((after : Option ℕ) → ReadsTag self.old c after TagReading.More self.new) }
        ensures moves { OnOk result ((after : Option ℕ) → MovesTag self.old.part c after TagReading.More self.new.part) }
        ensures names { OnOk result (names_in self.new ≡ names_in self.old) }
        ensures attrs { OnOk result (self.new.attrs ≡ self.old.attrs) }
    {
        match digit(c, base) {
            Some(d) => self.part = Part::Number(end, base, add_digit(value, d, base), start),
            None => self.number_ends(end, value)?,
        }
        Ok(())
    }

    /// The code point of a number is added to the value.
    fn number_ends(&mut self, end: ValueEnd, value: u32) -> Result<(), AllocError>
        ensures ok { OnOk result (self.new ≡ record self.old { part = Part.Inside end; attr_value = self.old.attr_value ++ char_of value ∷ [] }) }
    {
        let (c, _) = numeric(value);
        self.attr_value.push(c)?;
        self.part = Part::Inside(end);
        Ok(())
    }

    /// Reads what a `&` at a place begins in a value.
    pub(crate) fn read_ref(&mut self, found: ValueRef, place: u64) -> Result<(), AllocError>
        requires refs { reads_refs self.old.part ≡ true }
        ensures ok { OnOk result (ReadsRef self.old found self.new) }
        ensures moves { OnOk result (MovesRef self.old.part found place self.new.part) }
        ensures names { OnOk result (names_in self.new ≡ names_in self.old) }
        ensures attrs { OnOk result (self.new.attrs ≡ self.old.attrs) }
    {
        self.open_ref()?;
        self.take_ref(found, place)
    }

    /// The value goes on, or begins, with a `&`.
    fn open_ref(&mut self) -> Result<(), AllocError>
        requires refs { reads_refs self.old.part ≡ true }
        ensures ok { OnOk result (OpensRef self.old self.new) }
        ensures part { OnOk result (SettlesPart self.old.part 38 self.new.part) }
        ensures names { OnOk result (names_in self.new ≡ names_in self.old) }
        ensures attrs { OnOk result (self.new.attrs ≡ self.old.attrs) }
    {
        match self.part {
            Part::Value => {
                self.part = Part::Inside(ValueEnd::Space);
                Ok(())
            }
            Part::Number(end, _, value, _) => self.number_ends(end, value),
            Part::Ampersand(end, _) => {
                self.part = Part::Inside(end);
                Ok(())
            }
            Part::Inside(_) | Part::Name | Part::Attributes | Part::AttrName | Part::AfterName => {
                Ok(())
            }
        }
    }

    /// Reads what a `&` begins inside a value.
    fn take_ref(&mut self, found: ValueRef, place: u64) -> Result<(), AllocError>
        requires inside { IsInside self.old.part }
        ensures ok { OnOk result (ReadsRef self.old found self.new) }
        ensures moves { OnOk result (MovesRef self.old.part found place self.new.part) }
        ensures names { OnOk result (names_in self.new ≡ names_in self.old) }
        ensures attrs { OnOk result (self.new.attrs ≡ self.old.attrs) }
    {
        match found {
            ValueRef::Numeric(base, _) => {
                self.begin_number(base, place);
                Ok(())
            }
            ValueRef::Letters => {
                self.push_codes('&', None)?;
                self.begin_letters(place);
                Ok(())
            }
            ValueRef::Unknown => self.push_codes('&', None),
            ValueRef::Literal => self.push_codes('&', None),
            ValueRef::Codes(_, first, second) => self.push_codes(first, second),
        }
    }

    /// Adds what a reference stands for to the value.
    fn push_codes(&mut self, first: char, second: Option<char>) -> Result<(), AllocError>
        ensures ok { OnOk result (self.new ≡ record self.old { attr_value = self.old.attr_value ++ codes_with first second }) }
    {
        self.attr_value.push(first)?;
        if let Some(second) = second {
            self.attr_value.push(second)?;
            return Ok(());
        }
        Ok(())
    }

    /// A number begins, whose `&` stands at a place.
    fn begin_number(&mut self, base: Base, place: u64)
        requires inside { IsInside self.old.part }
        ensures number { (end : ValueEnd) → self.old.part ≡ Part.Inside end → self.new ≡ record self.old { part = Part.Number end base 0 place } }
        ensures attrs { self.new.attrs ≡ self.old.attrs }
    {
        if let Part::Inside(end) = self.part {
            self.part = Part::Number(end, base, 0, place);
        }
    }

    /// Letters and digits begin, after a `&` at a place.
    fn begin_letters(&mut self, place: u64)
        requires inside { IsInside self.old.part }
        ensures letters { (end : ValueEnd) → self.old.part ≡ Part.Inside end → self.new ≡ record self.old { part = Part.Ampersand end place } }
        ensures attrs { self.new.attrs ≡ self.old.attrs }
    {
        if let Part::Inside(end) = self.part {
            self.part = Part::Ampersand(end, place);
        }
    }

    /// The attribute is whole.
    fn add_attr(&mut self) -> Result<(), AllocError>
        ensures ok { OnOk result (AddsAttr self.old self.new) }
        ensures attrs { OnOk result (length self.new.attrs ≤ length self.old.attrs + 1) }
    {
        let name = mem::replace(&mut self.attr_name, Str::new(self.alloc));
        let value = mem::replace(&mut self.attr_value, Str::new(self.alloc));
        self.part = Part::Attributes;
        if !self.attrs.search(&name).0 {
            self.attrs.push(Attr { name, value })?;
        }
        Ok(())
    }
}
