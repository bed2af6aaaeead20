//! Well-formed characters, each tested and decoded at once.
ghost use Rattle.std.specs.Prelude.{◌≡◌, ◌∷◌, [], ◌+◌, ◌<◌, ◌≤◌, ◌++◌, chars, drop, length, take, IfOk, IfSome};
ghost use Rattle.std.specs.Str.{IsUtf8};
ghost use Rattle.html_input.specs.Added.{added};
ghost use Rattle.html_input.specs.Plain.{IsFree};
ghost use Rattle.html_input.specs.WellFormed.{BeginsWith, IsChar};

use crate::plain::begins_plain;
use std::alloc::AllocError;

/// The character that two bytes are, if they are one.
#[inline(always)]
fn of_two(first: u8, second: u8) -> Option<char>
    ensures { IfSome result (λ c. IsChar c (first ∷ second ∷ [])) }
{
    if first < 0xC2 || 0xE0 <= first || second < 0x80 || 0xC0 <= second {
        return None;
    }
    let code = (first as u32 - 0xC0) * 64 + (second as u32 - 0x80);
    char::from_u32(code)
}

/// The character that three bytes are, if they are one.
#[inline(always)]
fn of_three(first: u8, second: u8, third: u8) -> Option<char>
    ensures { IfSome result (λ c. IsChar c (first ∷ second ∷ third ∷ [])) }
{
    if first < 0xE0 || 0xF0 <= first || second < 0x80 || 0xC0 <= second {
        return None;
    }
    if third < 0x80 || 0xC0 <= third {
        return None;
    }
    let code = (first as u32 - 0xE0) * 4096 + (second as u32 - 0x80) * 64 + (third as u32 - 0x80);
    if code < 0x800 {
        return None;
    }
    char::from_u32(code)
}

/// The character that four bytes are, if they are one.
#[inline(always)]
fn of_four(first: u8, second: u8, third: u8, fourth: u8) -> Option<char>
    ensures { IfSome result (λ c. IsChar c (first ∷ second ∷ third ∷ fourth ∷ [])) }
{
    if first < 0xF0 || 0xF5 <= first || second < 0x80 || 0xC0 <= second {
        return None;
    }
    if third < 0x80 || 0xC0 <= third || fourth < 0x80 || 0xC0 <= fourth {
        return None;
    }
    let high = (first as u32 - 0xF0) * 64 + (second as u32 - 0x80);
    let code = high * 4096 + (third as u32 - 0x80) * 64 + (fourth as u32 - 0x80);
    if code < 0x1_0000 {
        return None;
    }
    char::from_u32(code)
}

/// The character at a place, and how many bytes it has: none where there is none or a carriage return, and none where a run of ASCII begins.
#[inline(always)]
pub(crate) fn char_at(bytes: &[u8], at: usize) -> Option<(char, usize)>
    requires { at ≤ length bytes.now }
    ensures { IfSome result (λ r. BeginsWith (drop at bytes.now) r.0 r.1) }
{
    let left = bytes.len() - at;
    if left == 0 {
        return None;
    }
    let first = bytes[at];
    if first < 0x80 {
        if first == b'\r' || begins_plain(&bytes[at..]) {
            return None;
        }
        return Some((char::from(first), 1));
    }
    if left < 2 {
        return None;
    }
    if first < 0xE0 {
        let c = of_two(first, bytes[at + 1])?;
        return Some((c, 2));
    }
    if left < 3 {
        return None;
    }
    if first < 0xF0 {
        let c = of_three(first, bytes[at + 1], bytes[at + 2])?;
        return Some((c, 3));
    }
    if left < 4 {
        return None;
    }
    let c = of_four(first, bytes[at + 1], bytes[at + 2], bytes[at + 3])?;
    Some((c, 4))
}

/// Puts the characters at the front behind `out`, up to a carriage return, a run of ASCII or ill-formed bytes, of which the first is known: how many
/// bytes they are. On an error some of them may be there.
pub(crate) fn put_well_formed(
    bytes: &[u8],
    first: (char, usize),
    out: &mut Vec<char>,
) -> Result<usize, AllocError>
    requires { BeginsWith bytes.now first.0 first.1 }
    ensures kept { out.new.items ≡ out.old.items ++ added out.old.items out.new.items }
    ensures some { IfOk result (λ n. 0 < n) }
    ensures within { IfOk result (λ n. n ≤ length bytes.now) }
    ensures utf8 { IfOk result (λ n. IsUtf8 (take n bytes.now)) }
    ensures free { IfOk result (λ n. IsFree (chars (take n bytes.now))) }
    ensures ok { IfOk result (λ n. added out.old.items out.new.items ≡ chars (take n bytes.now)) }
{
    let (mut c, mut width) = first;
    let mut at = 0;
    'putting: loop {
        out.push(c)?;
        at += width;
        let Some(next) = char_at(bytes, at) else {
            return Ok(at);
        };
        c = next.0;
        width = next.1;
    }
}
