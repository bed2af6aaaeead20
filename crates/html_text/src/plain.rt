// Plain text: UTF-8 in which nothing begins and nothing becomes anything else.
ghost use Rattle.std.specs.Prelude.{◌≡◌, ◌==◌, ◌<◌, ◌≤◌, ℕ, IfSome, Some, drop, length, slice_get, slice_index, take, true};
ghost use Rattle.std.specs.Int.{bit_at};
ghost use Rattle.std.specs.List.{count_by, list_all};
ghost use Rattle.std.specs.Str.{IsUtf8, chars, encode_utf8_all};
ghost use Rattle.html_text.specs.Plain.{IsCutAfter, is_lead, is_plain_byte, is_plain_char};

use simdutf8::basic::from_utf8;
use std::marker::Model;
use std::simd::prelude::*;

/// How many bytes are looked at at once, with no branch between them.
const BLOCK: usize = 64;

/// At the place of a byte's low four bits the byte that is not plain and has these, or 0, which has others: once for each sixteen bytes of a block.
const OTHERS: [u8; 64] = [
    0, 0, 0, 0, 0, 0, 38, 0, 0, 0, 0, 0, 60, 13, 0, 0, 0, 0, 0, 0, 0, 0, 38, 0, 0, 0, 0, 0, 60, 13,
    0, 0, 0, 0, 0, 0, 0, 0, 38, 0, 0, 0, 0, 0, 60, 13, 0, 0, 0, 0, 0, 0, 0, 0, 38, 0, 0, 0, 0, 0,
    60, 13, 0, 0,
];

/// How far apart the blocks stand that are looked at, where long plain texts are looked for.
const STRIDE: usize = 2 * BLOCK;

/// A text in UTF-8 without U+0000, carriage returns, `&` and `<`, seen as the list of its code points: what stands for itself wherever text may stand.
/// It knows how many code points it has.
#[derive(Drop)]
pub struct PlainText<'a> {
    text: &'a str,
    len: usize,
}

impl<'a> Model for PlainText<'a> {
    ghost use Rattle.std.specs.Prelude.{◌≡◌, List, length, true, ℕ};
    ghost use Rattle.std.specs.List.{list_all};
    ghost use Rattle.std.specs.Str.{IsUtf8, chars};
    ghost use Rattle.html_text.specs.Plain.{is_plain_char};

    ghost Value = { List ℕ };

    ghost view = { λ t. chars t.text.now };

    ghost invariant = { λ t. IsUtf8 t.text.now × (t.len ≡ length (chars t.text.now)) × (list_all is_plain_char (chars t.text.now) ≡ true) };
}

impl<'a> PlainText<'a> {
    /// Bytes as a text, where they are one. They are all plain.
    pub fn of(bytes: &'a [u8]) -> Option<PlainText<'a>>
        requires plain { list_all is_plain_byte bytes.now ≡ true }
        ensures bytes { IfSome result (λ t. bytes.now ≡ encode_utf8_all t) }
        ensures chars { IfSome result (λ t. t ≡ chars bytes.now) }
        ensures utf8 { IfSome result (λ t. IsUtf8 bytes.now) }
    {
        match from_utf8(bytes) {
            Ok(text) => Some(PlainText {
                text,
                len: count(text),
            }),
            Err(_) => None,
        }
    }

    /// The number of code points.
    pub fn len(&self) -> usize
        ensures count { result ≡ length self.now }
        ensures plain { list_all is_plain_char self.now ≡ true }
    {
        self.len
    }

    /// Whether there is no code point.
    pub fn is_empty(&self) -> bool
        ensures { result ≡ (length self.now == 0) }
    {
        self.len == 0
    }

    /// The text itself.
    pub fn as_str(&self) -> &'a str
        ensures bytes { result.now ≡ encode_utf8_all self.now }
        ensures code_points { chars result.now ≡ self.now }
    {
        self.text
    }

    /// The first code point.
    pub fn first(&self) -> char
        requires some { 0 < length self.now }
        ensures first { slice_get self.now 0 ≡ Some result }
        ensures plain { list_all is_plain_char self.now ≡ true }
    {
        match self.text.chars().next() {
            Some(c) => c,
            None => char::REPLACEMENT_CHARACTER,
        }
    }

    /// The front of so many code points.
    pub fn front(&self, count: usize) -> PlainText<'a>
        requires { count ≤ length self.now }
        ensures { result ≡ take count self.now }
    {
        if count == self.len {
            return PlainText {
                text: self.text,
                len: self.len,
            };
        }
        let rest = rest_after(self.text, count);
        let (front, _) = self.text.split_at(self.text.len() - rest.len());
        PlainText {
            text: front,
            len: count,
        }
    }

    /// What comes after so many code points.
    pub fn after(&self, count: usize) -> PlainText<'a>
        requires { count ≤ length self.now }
        ensures { result ≡ drop count self.now }
    {
        PlainText {
            text: rest_after(self.text, count),
            len: self.len - count,
        }
    }
}

/// The text after so many code points.
fn rest_after<'a>(text: &'a str, count: usize) -> &'a str
    requires { count ≤ length (chars text.now) }
    ensures { IsCutAfter count text.now result.now }
{
    let mut rest = text;
    let mut left = count;
    'passing: while left > 0 {
        rest = rest_after_first(rest);
        left -= 1;
    }
    rest
}

/// The text after the first code point.
fn rest_after_first<'a>(text: &'a str) -> &'a str
    requires { 0 < length (chars text.now) }
    ensures { IsCutAfter 1 text.now result.now }
{
    let mut chars = text.chars();
    match chars.next() {
        Some(_) => chars.as_str(),
        None => text,
    }
}

/// How many bytes at the front are plain, up to the first that is not.
pub fn plain_len(bytes: &[u8]) -> usize
    ensures within { result ≤ length bytes.now }
    ensures plain { list_all is_plain_byte (take result bytes.now) ≡ true }
{
    let mut len = 0;
    while bytes.len() - len >= BLOCK {
        let front = plain_front(&bytes[len..len + BLOCK]);
        len += front;
        if front < BLOCK {
            return len;
        }
    }
    plain_end(bytes, len)
}

/// The same, of which so many are known.
fn plain_end(bytes: &[u8], known: usize) -> usize
    requires within { known ≤ length bytes.now }
    requires plain { list_all is_plain_byte (take known bytes.now) ≡ true }
    ensures within { result ≤ length bytes.now }
    ensures plain { list_all is_plain_byte (take result bytes.now) ≡ true }
{
    let mut len = known;
    while len < bytes.len() && is_plain_byte(bytes[len]) {
        len += 1;
    }
    len
}

/// How many of 64 bytes at the front are plain.
#[inline(always)]
fn plain_front(block: &[u8]) -> usize
    requires { length block.now ≡ 64 }
    ensures within { result ≤ 64 }
    ensures plain { list_all is_plain_byte (take result block.now) ≡ true }
{
    others_in(block).trailing_zeros() as usize
}

/// Which of 64 bytes are not plain: a bit each, the first the lowest.
#[inline(always)]
fn others_in(block: &[u8]) -> u64
    requires { length block.now ≡ 64 }
    ensures { (k : ℕ) → k < 64 → bit_at result k ≡ 0 → is_plain_byte (slice_index block.now k) ≡ true }
{
    others_of(u8x64::from_slice(block))
}

#[inline(always)]
fn others_of(bytes: u8x64) -> u64
    ensures { (k : ℕ) → k < 64 → bit_at result k ≡ 0 → is_plain_byte (slice_index bytes k) ≡ true }
{
    let others = u8x64::from_array(OTHERS).swizzle_dyn_within::<16>(bytes & u8x64::splat(15));
    others.simd_eq(bytes).to_bitmask()
}

/// Where the first long plain text begins in some bytes, or their length. (Whatever the answer, it is a place where they may be cut.)
pub fn plain_start(bytes: &[u8]) -> usize
    ensures { result ≤ length bytes.now }
{
    let block = plain_block(bytes);
    if block == bytes.len() {
        return block;
    }
    text_start(&bytes[..block])
}

/// How many bytes there are up to the last that is `>` or not plain. Of many the last two blocks are looked at.
fn text_start(bytes: &[u8]) -> usize
    ensures { result ≤ length bytes.now }
{
    let mut len = bytes.len();
    'blocks: while len >= BLOCK && bytes.len() - len < STRIDE {
        let marks = marks_in(&bytes[len - BLOCK..len]);
        if marks != 0 {
            return len - marks.leading_zeros() as usize;
        }
        len -= BLOCK;
    }
    len
}

/// Which of 64 bytes are `>` or not plain, as `others_in` has it.
#[inline(always)]
fn marks_in(block: &[u8]) -> u64
    requires { length block.now ≡ 64 }
{
    let ends = u8x64::from_slice(block).simd_eq(u8x64::splat(b'>'));
    others_in(block) | ends.to_bitmask()
}

/// The place of a block of bytes that are all plain, or the length. Half of the blocks are looked at.
fn plain_block(bytes: &[u8]) -> usize
    ensures { result ≤ length bytes.now }
{
    let mut at = 0;
    while bytes.len() - at >= STRIDE {
        if others_in(&bytes[at..at + BLOCK]) == 0 {
            return at;
        }
        at += STRIDE;
    }
    bytes.len()
}

#[inline(always)]
fn is_plain_byte(byte: u8) -> bool
    ensures { result ≡ is_plain_byte byte }
{
    !((byte == 0) | (byte == b'\r') | (byte == b'&') | (byte == b'<'))
}

/// The number of code points of a text: its bytes that go on with no code point.
fn count(text: &str) -> usize
    ensures { result ≡ length (chars text.now) }
{
    let bytes = text.as_bytes();
    let mut total = 0;
    let mut rest = bytes;
    while rest.len() > BLOCK {
        let (block, later) = rest.split_at(BLOCK);
        total += lead_count(block) as usize;
        rest = later;
    }
    total + lead_count(rest) as usize
}

/// How many of at most 64 bytes begin a code point. It goes through all, so that many are looked at at once.
#[inline(always)]
fn lead_count(bytes: &[u8]) -> u8
    requires { length bytes.now ≤ 64 }
    ensures { result ≡ count_by is_lead bytes.now }
{
    let mut count = 0;
    for &byte in bytes {
        count += ((byte < 128) | (192 <= byte)) as u8;
    }
    count
}
