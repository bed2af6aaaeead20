// What tags tell.
ghost use Rattle.std.specs.Prelude.{◌≡◌, ◌+◌, ◌-◌, ◌<◌, ◌^◌, ◌&&◌, ◌||◌, ◌==◌, ◌++◌, [], ◌∷◌, ℕ, cond, false, not, true, min, length, Option, Some};
ghost use Rattle.html_tokens.specs.AttrNames.{name_errors, names_in};
ghost use Rattle.html_tokens.specs.Bounds.{Told};
ghost use Rattle.html_tokens.specs.Cut.{passes};
ghost use Rattle.html_tokens.specs.Errors.{IsQuiet, Opens};
ghost use Rattle.html_tokens.specs.Inside.{fault, fault_when, tag_end_errors};
ghost use Rattle.html_tokens.specs.InsideReferences.{number_told};
ghost use Rattle.html_tokens.specs.InsideTags.{all_char_errors, attr_char_errors, part_end_told, part_char_errors, quote_errors, solidus_errors, tag_char_errors, unquoted_errors, value_errors};
ghost use Rattle.html_tokens.specs.Places.{comparisons};
ghost use Rattle.html_tokens.specs.Tag.{ends_name, has_name};
ghost use Rattle.html_tokens.specs.declared.tag.Part.{Part};

use super::Faults;
use crate::doctype::is_quote;
use crate::fault_name::FaultName;
use crate::reference::digit;
use crate::tag::{Part, TagDraft, ValueEnd, ends_name};
use html_charref::Base;

/// Whether another code point than `>` follows a `/`.
fn is_solidus(c: char, after: Option<char>) -> bool
    ensures { result ≡ (c == 47 && passes (λ d. not (d == 62)) after) }
{
    match after {
        Some(next) => c == '/' && next != '>',
        None => false,
    }
}

/// Whether a quote closes a value, and what follows it is part of an attribute.
fn lacks_space(quote: char, c: char, after: Option<char>) -> bool
    ensures { result ≡ (c == quote && passes (λ d. not (ends_name d)) after) }
{
    match after {
        Some(next) => c == quote && !ends_name(next),
        None => false,
    }
}

/// Whether this code point is an error in the name of an attribute.
fn is_attr_fault(c: char) -> bool
    ensures { result ≡ (c == 34 || (c == 39 || c == 60)) }
{
    matches!(c, '"' | '\'' | '<')
}

/// Whether this code point is an error in a value without quotes.
fn is_unquoted_fault(c: char) -> bool
    ensures { result ≡ (c == 34 || (c == 39 || (c == 60 || (c == 61 || c == 96)))) }
{
    matches!(c, '"' | '\'' | '<' | '=' | '`')
}

impl Faults {
    /// What a code point of a tag tells that begins no reference; what follows a `/` or a quote is known.
    #[inline(always)]
    pub(crate) fn tag_char(&mut self, draft: &TagDraft, c: char, after: Option<char>, place: u64)
        requires room { place + 1 < 2 ^ 64 }
        ensures told { Told 6 (length draft.now.attrs) self.old self.new }
        ensures opens { Opens (all_char_errors (names_in draft.now) draft.now.part c after place) self.old self.new }
    {
        self.name_at(draft, Some(c), place);
        self.char_in(draft.part, c, after, place);
    }

    /// The same, but for a name that is there already.
    #[inline(always)]
    fn char_in(&mut self, part: Part, c: char, after: Option<char>, place: u64)
        requires room { place + 1 < 2 ^ 64 }
        ensures told { Told 5 0 self.old self.new }
        ensures opens { Opens (tag_char_errors part c after place) self.old self.new }
    {
        self.part_char(part, c, after, place);
        self.null(c, place);
    }

    /// The same, but for U+0000.
    #[inline(always)]
    fn part_char(&mut self, part: Part, c: char, after: Option<char>, place: u64)
        requires room { place + 1 < 2 ^ 64 }
        ensures told { Told 4 0 self.old self.new }
        ensures opens { Opens (part_char_errors part c after place) self.old self.new }
    {
        match part {
            Part::Name => self.solidus(c, after, place),
            Part::Attributes => self.between(c, after, place),
            Part::AttrName | Part::AfterName => self.after_name(c, after, place),
            Part::Value => self.value_start(c, place),
            Part::Inside(end) => self.value_char(end, c, after, place),
            Part::Number(end, base, value, start) => {
                self.number_char(base, value, start, c);
                self.value_char(end, c, after, place);
            }
            Part::Ampersand(end, start) => {
                self.ampersand(Some(c), start);
                self.value_char(end, c, after, place);
            }
        }
    }

    /// What a `/` tells that closes nothing.
    fn solidus(&mut self, c: char, after: Option<char>, place: u64)
        requires room { place + 1 < 2 ^ 64 }
        ensures told { Told 1 0 self.old self.new }
        ensures opens { Opens (solidus_errors c after place) self.old self.new }
    {
        self.tell_if(
            is_solidus(c, after),
            FaultName::UnexpectedSolidusInTag,
            place + 1,
        );
    }

    /// What a code point tells where an attribute may begin.
    fn between(&mut self, c: char, after: Option<char>, place: u64)
        requires room { place + 1 < 2 ^ 64 }
        ensures told { Told 3 0 self.old self.new }
        ensures opens { Opens (solidus_errors c after place ++ (fault_when (c == 61) FaultName.UnexpectedEqualsSignBeforeAttributeName place ++ attr_char_errors c place)) self.old self.new }
    {
        self.solidus(c, after, place);
        self.tell_if(
            c == '=',
            FaultName::UnexpectedEqualsSignBeforeAttributeName,
            place,
        );
        self.attr_char(c, place);
    }

    /// What a code point of the name of an attribute tells.
    fn attr_char(&mut self, c: char, place: u64)
        ensures told { Told 1 0 self.old self.new }
        ensures opens { Opens (attr_char_errors c place) self.old self.new }
    {
        self.tell_if(
            is_attr_fault(c),
            FaultName::UnexpectedCharacterInAttributeName,
            place,
        );
    }

    /// The name of an attribute is whole, where this code point ends it, or the end of the input.
    fn name_at(&mut self, draft: &TagDraft, found: Option<char>, place: u64)
        ensures told { Told 1 (length draft.now.attrs) self.old self.new }
        ensures opens { Opens (name_errors (names_in draft.now) draft.now.part found place) self.old self.new }
    {
        if draft.part.ends_attr_name(found) {
            self.name_end(draft, place);
        }
    }

    /// The name of an attribute is compared with those before it, up to the first equal one.
    fn name_end(&mut self, draft: &TagDraft, place: u64)
        ensures told { Told 1 (length draft.now.attrs) self.old self.new }
        ensures opens { Opens (fault_when (has_name draft.now.attr_name draft.now.attrs) FaultName.DuplicateAttribute place) self.old self.new }
        ensures compared { self.new.compared ≡ min (self.old.compared + comparisons draft.now.attr_name draft.now.attrs) (2 ^ 128 - 1) }
    {
        let (found, compared) = draft.attrs.search(&draft.attr_name);
        self.compared = self.compared.saturating_add(compared as u128);
        self.tell_if(found, FaultName::DuplicateAttribute, place);
    }

    /// Passes a code point of a tag that tells nothing by itself. Where it ends a name that an attribute before has, nothing is done, and the answer is false.
    #[inline(always)]
    pub(crate) fn quiet_char(
        &mut self,
        draft: &TagDraft,
        c: char,
        after: Option<char>,
        place: u64,
    ) -> bool
        requires room { place + 1 < 2 ^ 64 }
        requires none { tag_char_errors draft.now.part c after place ≡ [] }
        ensures told { Told 5 (length draft.now.attrs) self.old self.new }
        ensures quiet { IsQuiet self.old self.new }
        ensures none { result ≡ true → all_char_errors (names_in draft.now) draft.now.part c after place ≡ [] }
        ensures kept { result ≡ false → self.new ≡ self.old }
    {
        if draft.part.ends_attr_name(Some(c)) {
            return self.is_new(draft);
        }
        self.char_in(draft.part, c, after, place);
        true
    }

    /// Whether no attribute before has the name that was read. A name that one has is compared once more where that is told.
    fn is_new(&mut self, draft: &TagDraft) -> bool
        ensures told { Told 0 (length draft.now.attrs) self.old self.new }
        ensures quiet { IsQuiet self.old self.new }
        ensures new { result ≡ true → has_name draft.now.attr_name draft.now.attrs ≡ false }
        ensures kept { result ≡ false → self.new ≡ self.old }
    {
        let (found, compared) = draft.attrs.search(&draft.attr_name);
        if found {
            return false;
        }
        self.compared = self.compared.saturating_add(compared as u128);
        true
    }

    /// What a code point tells in the name of an attribute, or after it and white space.
    fn after_name(&mut self, c: char, after: Option<char>, place: u64)
        requires room { place + 1 < 2 ^ 64 }
        ensures told { Told 2 0 self.old self.new }
        ensures opens { Opens (solidus_errors c after place ++ attr_char_errors c place) self.old self.new }
    {
        self.solidus(c, after, place);
        self.attr_char(c, place);
    }

    /// What a code point tells where a value may begin.
    fn value_start(&mut self, c: char, place: u64)
        ensures told { Told 3 0 self.old self.new }
        ensures opens { Opens (part_char_errors Part.Value c Option.None place) self.old self.new }
    {
        if is_quote(c) {
            return;
        }
        self.tell_if(c == '>', FaultName::MissingAttributeValue, place);
        self.unquoted_char(c, place);
    }

    /// What a code point tells inside a value.
    #[inline(always)]
    fn value_char(&mut self, end: ValueEnd, c: char, after: Option<char>, place: u64)
        requires room { place + 1 < 2 ^ 64 }
        ensures told { Told 2 0 self.old self.new }
        ensures opens { Opens (value_errors end c after place) self.old self.new }
    {
        match end {
            ValueEnd::DoubleQuote => self.quoted_char('"', c, after, place),
            ValueEnd::SingleQuote => self.quoted_char('\'', c, after, place),
            ValueEnd::Space => self.unquoted_char(c, place),
        }
    }

    fn unquoted_char(&mut self, c: char, place: u64)
        ensures told { Told 2 0 self.old self.new }
        ensures opens { Opens (unquoted_errors c place) self.old self.new }
    {
        self.tell_if(
            is_unquoted_fault(c),
            FaultName::UnexpectedCharacterInUnquotedAttributeValue,
            place,
        );
    }

    fn quoted_char(&mut self, quote: char, c: char, after: Option<char>, place: u64)
        requires room { place + 1 < 2 ^ 64 }
        ensures told { Told 2 0 self.old self.new }
        ensures opens { Opens (quote_errors quote c after place) self.old self.new }
    {
        self.tell_if(
            lacks_space(quote, c, after),
            FaultName::MissingWhitespaceBetweenAttributes,
            place + 1,
        );
    }

    /// What a code point tells after the digits of a number in a value, whose `&` stands at a place.
    fn number_char(&mut self, base: Base, value: u32, start: u64, c: char)
        ensures told { Told 2 0 self.old self.new }
        ensures opens { Opens (number_told base value start (Some c)) self.old self.new }
    {
        match digit(c, base) {
            Some(_) => {}
            None => self.number(value, c == ';', start),
        }
    }

    /// What the `>` of an end tag tells.
    pub(crate) fn tag_close(&mut self, draft: &TagDraft, self_closing: bool, len: usize, place: u64)
        requires room { place + len < 2 ^ 64 }
        ensures told { Told 2 0 self.old self.new }
        ensures opens { Opens (tag_end_errors draft.now.is_end (place + len) (record { attrs = draft.now.attrs; self_closing = self_closing; closed = true; len = len })) self.old self.new }
    {
        if !draft.is_end {
            return;
        }
        let place = (place + len as u64).saturating_sub(1);
        self.tell_if(
            draft.attrs.len() != 0,
            FaultName::EndTagWithAttributes,
            place,
        );
        self.tell_if(self_closing, FaultName::EndTagWithTrailingSolidus, place);
    }

    pub(super) fn tell_if(&mut self, is: bool, name: FaultName, place: u64)
        ensures told { Told 1 0 self.old self.new }
        ensures opens { Opens (fault_when is name place) self.old self.new }
        ensures compared { self.new.compared ≡ self.old.compared }
    {
        if is {
            self.tell(name, place);
        }
    }

    /// What the end of the input tells in a tag.
    pub(crate) fn tag_end(&mut self, draft: &TagDraft, place: u64)
        ensures told { Told 4 (length draft.now.attrs) self.old self.new }
        ensures opens { Opens ((part_end_told draft.now.part ++ name_errors (names_in draft.now) draft.now.part Option.None place) ++ fault FaultName.EofInTag place ∷ []) self.old self.new }
    {
        self.rest_end(draft);
        self.name_at(draft, None, place);
        self.tell(FaultName::EofInTag, place);
    }

    /// What the end of the input tells in a number.
    fn rest_end(&mut self, draft: &TagDraft)
        ensures told { Told 2 0 self.old self.new }
        ensures opens { Opens (part_end_told draft.now.part) self.old self.new }
    {
        match draft.part {
            Part::Number(_, _, value, start) => self.number(value, false, start),
            Part::Name
            | Part::Attributes
            | Part::AttrName
            | Part::AfterName
            | Part::Value
            | Part::Inside(_)
            | Part::Ampersand(..) => {}
        }
    }
}
