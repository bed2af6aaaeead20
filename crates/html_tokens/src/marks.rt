// What ends text: the end marks of RCDATA, RAWTEXT and script text, and the regions of script text.
ghost use Rattle.std.specs.Prelude.{◌≡◌, ℕ, ◌≤◌, ◌+◌, ◌<◌, cond, length, MatchOption, Option, IsTrue, Some, slice_get, true, ◌∷◌, [], List};
ghost use Rattle.html_tokens.specs.Cut.{is, section_mark};
ghost use Rattle.html_tokens.specs.Input.{Decided, IsShort};
ghost use Rattle.html_tokens.specs.Marks.{is_end_mark, is_name_char, is_tag_name, is_lowered, spells, stands, declares, leaves, opens_script, opens_section, closes_script, region_after, script_name};
ghost use Rattle.html_tokens.specs.Doctype.{spells_word};
ghost use Rattle.std.specs.List.{list_all};

use crate::input::{Input, Peek};
use crate::tag::ends_name;
use crate::token::Region;

/// The name of the tags that script text looks for.
const SCRIPT: [char; 6] = ['s', 'c', 'r', 'i', 'p', 't'];

/// What opens a section.
const SECTION: [char; 9] = ['<', '!', '[', 'C', 'D', 'A', 'T', 'A', '['];

/// Whether this code point stands at a place of the rest.
pub(crate) fn is_at(input: &Input, at: usize, c: char) -> Option<bool>
    ensures { MatchOption result (IsShort input.now at) (λ found. Decided input.now (λ rest. is c (slice_get rest at)) found × (found ≡ true → at < length input.now.queue.items)) }
{
    match input.peek(at) {
        Peek::Is(Some(d)) => Some(d == c),
        Peek::Is(None) => Some(false),
        Peek::Wait => None,
    }
}

/// Whether this is the code point, in either case.
fn is_lowered(found: Option<char>, c: char) -> bool
    ensures { result ≡ is_lowered c found }
{
    match found {
        Some(d) => d.to_ascii_lowercase() == c,
        None => false,
    }
}

/// Whether at a place of the rest stands this name in any ASCII case, and then what ends a name.
pub(crate) fn spells(input: &Input, name: &[char], from: usize) -> Option<bool>
    requires { from ≤ 2 }
    ensures { MatchOption result (IsShort input.now (from + length name.now)) (λ found. Decided input.now (spells name.now from) found × (found ≡ true → from ≤ length input.now.queue.items)) }
{
    let mut at = from;
    for expected in name {
        match input.peek(at) {
            Peek::Wait => return None,
            Peek::Is(found) => {
                if !is_lowered(found, *expected) {
                    return Some(false);
                }
            }
        }
        at += 1;
    }
    match input.peek(at) {
        Peek::Wait => None,
        Peek::Is(Some(c)) => Some(ends_name(c)),
        Peek::Is(None) => Some(false),
    }
}

/// Whether at a place of the rest stands this word in any ASCII case.
pub(crate) fn begins_word(input: &Input, word: &[char], from: usize) -> Option<bool>
    requires { from + length word.now ≤ 9 }
    ensures { MatchOption result (IsShort input.now 8) (λ found. Decided input.now (spells_word word.now from) found × (found ≡ true → 0 < length word.now → from + length word.now ≤ length input.now.queue.items)) }
{
    let mut at = from;
    for letter in word {
        match input.peek(at) {
            Peek::Wait => return None,
            Peek::Is(found) => {
                if !is_lowered(found, *letter) {
                    return Some(false);
                }
            }
        }
        at += 1;
    }
    Some(true)
}

/// Whether at a place of the rest stands this word, as it is written.
pub(crate) fn stands(input: &Input, word: &[char], from: usize) -> Option<bool>
    requires { from + length word.now ≤ 9 }
    ensures { MatchOption result (IsShort input.now 8) (λ found. Decided input.now (stands word.now from) found × (found ≡ true → 0 < length word.now → from + length word.now ≤ length input.now.queue.items)) }
{
    let mut at = from;
    for letter in word {
        match input.peek(at) {
            Peek::Wait => return None,
            Peek::Is(None) => return Some(false),
            Peek::Is(Some(c)) => {
                if c != *letter {
                    return Some(false);
                }
            }
        }
        at += 1;
    }
    Some(true)
}

/// Whether a section is opened at the front of the rest.
pub(crate) fn opens_section(input: &Input) -> Option<bool>
    ensures { MatchOption result (IsShort input.now 8) (λ found. Decided input.now opens_section found × (found ≡ true → 9 ≤ length input.now.queue.items)) }
{
    stands(input, &SECTION, 0)
}

/// Whether a section is closed at the front of the rest.
pub(crate) fn closes_section(input: &Input) -> Option<bool>
    ensures { MatchOption result (IsShort input.now 8) (λ found. Decided input.now section_mark (cond found (Some 3) Option.None) × (found ≡ true → 3 ≤ length input.now.queue.items)) }
{
    Some(is_at(input, 0, ']')? && is_at(input, 1, ']')? && is_at(input, 2, '>')?)
}

/// Whether this code point may stand in the name of a tag.
fn is_name_char(c: char) -> bool
    ensures { result ≡ is_name_char c }
{
    !(ends_name(c) || matches!(c, 'A'..='Z' | '\0'))
}

/// Whether each of these code points may.
fn are_name_chars(text: &[char]) -> bool
    ensures { result ≡ list_all is_name_char text.now }
{
    text.iter().all(|c| is_name_char(*c))
}

/// Whether a start tag can have this name.
fn is_tag_name(name: &[char]) -> bool
    ensures { result ≡ is_tag_name name.now }
{
    match name.split_first() {
        None => false,
        Some((first, rest)) => first.is_ascii_lowercase() && are_name_chars(rest),
    }
}

/// Whether the end mark of this name stands at the front of the rest.
pub(crate) fn is_end_mark(input: &Input, name: &[char]) -> Option<bool>
    ensures { MatchOption result (IsShort input.now (2 + length name.now)) (λ found. Decided input.now (is_end_mark (Some name.now)) found × (found ≡ true → 2 ≤ length input.now.queue.items)) }
{
    Some(
        is_at(input, 0, '<')?
            && is_at(input, 1, '/')?
            && is_tag_name(name)
            && spells(input, name, 2)?,
    )
}

/// Whether `<!--` stands at the front of the rest.
pub(crate) fn declares(input: &Input) -> Option<bool>
    ensures { MatchOption result (IsShort input.now 8) (λ found. Decided input.now declares found) }
{
    Some(
        is_at(input, 0, '<')?
            && is_at(input, 1, '!')?
            && is_at(input, 2, '-')?
            && is_at(input, 3, '-')?,
    )
}

fn leaves(input: &Input) -> Option<bool>
    ensures { MatchOption result (IsShort input.now 8) (λ found. Decided input.now leaves found) }
{
    Some(is_at(input, 0, '-')? && is_at(input, 1, '-')? && is_at(input, 2, '>')?)
}

fn opens_script(input: &Input) -> Option<bool>
    ensures { MatchOption result (IsShort input.now 8) (λ found. Decided input.now opens_script found) }
{
    Some(is_at(input, 0, '<')? && spells(input, &SCRIPT, 1)?)
}

fn closes_script(input: &Input) -> Option<bool>
    ensures { MatchOption result (IsShort input.now 8) (λ found. Decided input.now closes_script found) }
{
    Some(is_at(input, 0, '<')? && is_at(input, 1, '/')? && spells(input, &SCRIPT, 2)?)
}

impl Region {
    /// The region of script text after the code point at the front of the rest.
    pub(crate) fn after(self, input: &Input) -> Option<Region>
        ensures { MatchOption result (IsShort input.now 8) (λ region. Decided input.now (region_after self) region) }
    {
        Some(match self {
            Region::Plain if declares(input)? => Region::Escaped,
            Region::Plain => Region::Plain,
            Region::Escaped | Region::Double if leaves(input)? => Region::Plain,
            Region::Escaped if opens_script(input)? => Region::Double,
            Region::Escaped => Region::Escaped,
            Region::Double if closes_script(input)? => Region::Escaped,
            Region::Double => Region::Double,
        })
    }
}
