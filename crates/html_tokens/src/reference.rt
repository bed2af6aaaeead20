// References in text.
ghost use Rattle.std.specs.Prelude.{◌≡◌, ℕ, ◌≤◌, ◌+◌, ◌<◌, ◌∷◌, ◌++◌, [], length, MatchOption, IfSome, Some, slice_get, true, drop};
ghost use Rattle.html_charref.specs.Table.{longest, longest_len};
ghost use Rattle.html_tokens.specs.Input.{Decided, IsShort};
ghost use Rattle.std.specs.Char.{digit_value, is_ascii_alphanumeric};
ghost use Rattle.std.specs.Prelude.{false};
ghost use Rattle.html_tokens.specs.Reference.{letters_after, letters_bound, closed_within, ref_opener, is_digit, opened_by};
ghost use Rattle.html_tokens.specs.Cut.{passes};
ghost use Rattle.html_tokens.specs.Value.{is_taken, goes_on, IsValueRef, IsValueNamed, ref_len};
ghost use Rattle.std.specs.Prelude.{Option};

use crate::input::{Input, Peek};
use crate::marks::is_at;
use crate::token::RefOpener;
use html_charref::{Base, EntityTable, RefText, Step};

/// A number that is being read: where its reference began, and its digits so far, as one number.
#[derive(Clone, Copy)]
pub struct NumberDraft {
    pub start: u64,
    pub base: Base,
    pub value: u32,
}

/// What a `&` in a value begins: a number, after what opens it; letters that begin no name, and more than are looked over, or
/// before a `;`; a number without digits; or so many code points that stand for one or two.
#[derive(Clone, Copy)]
pub enum ValueRef {
    Numeric(Base, usize),
    Letters,
    Unknown,
    Literal,
    Codes(usize, char, Option<char>),
}

impl ValueRef {
    /// How many code points it passes.
    pub(crate) fn len(self) -> usize
        ensures { result ≡ ref_len self }
    {
        match self {
            ValueRef::Numeric(_, opened) => opened,
            ValueRef::Letters | ValueRef::Unknown | ValueRef::Literal => 1,
            ValueRef::Codes(len, _, _) => len,
        }
    }
}

/// The value of a digit of this base.
pub(crate) fn digit(c: char, base: Base) -> Option<u8>
    ensures { MatchOption result (is_digit base c ≡ false) (λ d. (is_digit base c ≡ true) × (d ≡ digit_value c)) }
{
    c.to_digit(base.radix()).map(|d| d as u8)
}

fn is_digit(found: Option<char>, base: Base) -> bool
    ensures { result ≡ passes (is_digit base) found }
{
    match found {
        Some(c) => digit(c, base).is_some(),
        None => false,
    }
}

/// What the `&` at the front of the rest begins; nothing where more input is wanted.
#[inline(always)]
pub(crate) fn ref_opener(input: &Input) -> Option<RefOpener>
    requires { 0 < length input.now.queue.items }
    ensures { MatchOption result (IsShort input.now 3) (λ found. Decided input.now ref_opener found × (opened_by found ≤ length input.now.queue.items) × (0 < opened_by found)) }
{
    match input.peek(1) {
        Peek::Wait => None,
        Peek::Is(Some('#')) => match input.peek(2) {
            Peek::Wait => None,
            Peek::Is(Some('x' | 'X')) => match input.peek(3) {
                Peek::Wait => None,
                Peek::Is(found) => Some(if is_digit(found, Base::Hex) {
                    RefOpener::Numeric(Base::Hex, 3)
                } else {
                    RefOpener::Literal
                }),
            },
            Peek::Is(found) => Some(if is_digit(found, Base::Decimal) {
                RefOpener::Numeric(Base::Decimal, 2)
            } else {
                RefOpener::Literal
            }),
        },
        Peek::Is(_) => Some(RefOpener::Named),
    }
}

/// The longest name of the table at the front of the rest; nothing where more input is wanted.
pub(crate) fn named(table: &EntityTable, input: &Input) -> Option<Option<(u32, RefText)>>
    ensures { MatchOption result (IsShort input.now (longest_len table.now)) (λ found. Decided input.now (longest table.now) found × IfSome found (λ m. (0 < m.0) × (m.0 ≤ length input.now.queue.items) × (m.0 ≤ longest_len table.now))) }
{
    let mut walk = table.walk();
    let rest = input.queue.unread();
    for at in 0..rest.len() {
        match walk.step(rest[at]) {
            Step::More => {}
            Step::End(found) => return Some(found),
        }
    }
    if input.finished {
        Some(walk.best())
    } else {
        None
    }
}

/// Whether a code point after a name without `;` makes it text.
fn goes_on(found: Option<char>) -> bool
    ensures { result ≡ passes goes_on found }
{
    match found {
        Some(c) => c == '=' || c.is_ascii_alphanumeric(),
        None => false,
    }
}

/// Whether a name of this length, which stands at the front of the rest of a value, is a reference there; nothing where more input is wanted.
fn is_taken(input: &Input, len: usize) -> Option<bool>
    requires some { 0 < len }
    requires fit { len ≤ length input.now.queue.items }
    ensures { MatchOption result (IsShort input.now len) (λ taken. Decided input.now (is_taken len) taken) }
{
    if is_at(input, len - 1, ';')? {
        return Some(true);
    }
    match input.peek(len) {
        Peek::Wait => None,
        Peek::Is(found) => Some(!goes_on(found)),
    }
}

/// What a name gives that stands at the front of the rest of a value.
fn value_named(input: &Input, len: usize, text: RefText) -> Option<ValueRef>
    requires some { 0 < len }
    requires fit { len ≤ length input.now.queue.items }
    ensures { MatchOption result (IsShort input.now len) (λ found. IsValueNamed input.now len text found) }
{
    Some(if is_taken(input, len)? {
        ValueRef::Codes(len, text.first, text.second)
    } else {
        ValueRef::Codes(1, '&', None)
    })
}

/// Whether a letter or digit comes after the `&` at the front of the rest; nothing where more input is wanted.
#[inline(always)]
fn is_letter_next(input: &Input) -> Option<bool>
    ensures { MatchOption result (IsShort input.now 1) (λ found. Decided input.now (λ rest. passes is_ascii_alphanumeric (slice_get rest 1)) found × (found ≡ true → 1 < length input.now.queue.items)) }
{
    match input.peek(1) {
        Peek::Wait => None,
        Peek::Is(Some(c)) => Some(c.is_ascii_alphanumeric()),
        Peek::Is(None) => Some(false),
    }
}

/// Whether a `;` comes after the letters and digits after two code points of the rest, where they are fewer than this; nothing where more input is wanted.
fn closed_within(input: &Input, bound: usize) -> Option<Option<bool>>
    requires two { 1 < length input.now.queue.items }
    ensures { MatchOption result (IsShort input.now (bound + 1)) (λ found. Decided input.now (λ rest. closed_within bound (drop 2 rest)) found) }
{
    let rest = input.queue.unread();
    for at in 2..rest.len() {
        if bound < at - 1 {
            return Some(None);
        }
        let c = rest[at];
        if !c.is_ascii_alphanumeric() {
            return Some(Some(c == ';'));
        }
    }
    if bound < rest.len() - 1 {
        return Some(None);
    }
    if input.finished {
        Some(Some(false))
    } else {
        None
    }
}

/// Whether letters or digits come after the `&` at the front of the rest, and a `;` after them, where they are few; nothing where more input is wanted.
#[inline(always)]
pub(crate) fn letters_after(table: &EntityTable, input: &Input) -> Option<Option<bool>>
    ensures { MatchOption result (IsShort input.now (letters_bound table.now)) (λ found. Decided input.now (letters_after table.now) found) }
{
    if is_letter_next(input)? {
        return closed_within(input, table.longest_name() as usize + 7);
    }
    Some(Some(false))
}

/// What the `&` at the front of the rest of a value begins; nothing where more input is wanted.
pub(crate) fn value_ref(table: &EntityTable, input: &Input) -> Option<ValueRef>
    requires { 0 < length input.now.queue.items }
    ensures { MatchOption result (IsShort input.now (longest_len table.now + 8)) (λ found. IsValueRef table.now input.now found) }
{
    match ref_opener(input)? {
        RefOpener::Literal => Some(ValueRef::Literal),
        RefOpener::Numeric(base, opened) => Some(ValueRef::Numeric(base, opened)),
        RefOpener::Named => match named(table, input)? {
            None => Some(match letters_after(table, input)? {
                None => ValueRef::Letters,
                Some(true) => ValueRef::Unknown,
                Some(false) => ValueRef::Codes(1, '&', None),
            }),
            Some((len, text)) => value_named(input, len as usize, text),
        },
    }
}
