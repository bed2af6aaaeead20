//! Runs of ASCII, and texts, without carriage returns, which are their own text.
ghost use Rattle.std.specs.Prelude.{◌≡◌, ◌<◌, ◌≤◌, ◌++◌, ◌↔◌, chars, length, take, OnOk, IsTrue};
ghost use Rattle.html_input.specs.Added.{added};
ghost use Rattle.html_input.specs.Plain.{IsFree, IsPlain, IsPlainByte};

use std::alloc::AllocError;

// As many bytes are tested at a time, with no branch between them.
const BLOCK: usize = 64;

// As many at the end of a run.
const WORD: usize = 8;

fn is_plain_byte(byte: u8) -> bool
    ensures { IsTrue result ↔ IsPlainByte byte }
{
    byte < 0x80 && byte != b'\r'
}

fn is_plain(bytes: &[u8]) -> bool
    ensures { IsTrue result → IsPlain bytes.now }
{
    let mut all = true;
    for &byte in bytes {
        all &= is_plain_byte(byte);
    }
    all
}

/// How many bytes at the front are plain: all up to the first that is not.
pub(crate) fn plain_len(bytes: &[u8]) -> usize
    ensures within { result ≤ length bytes.now }
    ensures plain { IsPlain (take result bytes.now) }
{
    let blocks = plain_steps(bytes, 0, BLOCK);
    let words = plain_steps(bytes, blocks, WORD);
    plain_steps(bytes, words, 1)
}

/// Whether a run of ASCII stands at the front that is worth a search for its end. (Whatever the answer, the text is the same.)
#[inline(always)]
pub(crate) fn begins_plain(bytes: &[u8]) -> bool {
    match bytes.first_chunk() {
        Some(front) => u128::from_ne_bytes(*front) & u128::from_ne_bytes([0x80; 16]) == 0,
        None => false,
    }
}

/// How many bytes at the front are plain, of which so many are known: up to the first step of bytes that are not all plain.
#[inline(always)]
fn plain_steps(bytes: &[u8], known: usize, step: usize) -> usize
    requires within { known ≤ length bytes.now }
    requires plain { IsPlain (take known bytes.now) }
    requires step { 0 < step }
    ensures within { result ≤ length bytes.now }
    ensures plain { IsPlain (take result bytes.now) }
{
    let mut len = known;
    while bytes.len() - len >= step && is_plain(&bytes[len..len + step]) {
        len += step;
    }
    len
}

/// Puts each byte behind `out`, as a code point. On an error some of them may be there.
pub(crate) fn put_bytes(bytes: &[u8], out: &mut Vec<char>) -> Result<(), AllocError>
    ensures kept { out.new.items ≡ out.old.items ++ added out.old.items out.new.items }
    ensures ok { OnOk result (added out.old.items out.new.items ≡ bytes.now) }
{
    out.extend(bytes.iter().map(|&byte| char::from(byte)))
}

/// Whether a text has no carriage return.
pub(crate) fn is_free(text: &str) -> bool
    ensures { IsTrue result → IsFree (chars text.now) }
{
    !text.contains('\r')
}

/// Puts each character behind `out`. On an error some of them may be there.
pub(crate) fn put_chars(text: &str, out: &mut Vec<char>) -> Result<(), AllocError>
    ensures kept { out.new.items ≡ out.old.items ++ added out.old.items out.new.items }
    ensures ok { OnOk result (added out.old.items out.new.items ≡ chars text.now) }
{
    out.extend(text.chars())
}
