// Short texts of ASCII, which stand in a value of a fixed size.
ghost use Rattle.std.specs.Prelude.{◌≡◌, ◌+◌, ◌<◌, ◌≤◌, ◌++◌, [], IfOk, IfSome, length, string_bytes, take, true, false};
ghost use Rattle.std.specs.Str.{IsAscii, chars};

use crate::run::narrow;
use std::alloc::{AllocError, Global};
use std::marker::Model;

/// A text of ASCII, no longer than `MOST`: the first `len` of the bytes.
#[derive(Drop)]
pub(crate) struct Short<const MOST: usize> {
    len: u8,
    bytes: [u8; MOST],
}

impl<const MOST: usize> Model for Short<MOST> {
    ghost use Rattle.std.specs.Prelude.{List, ℕ, ◌<◌, ◌≤◌, take};
    ghost use Rattle.std.specs.Str.{IsAscii};

    ghost Value = { List ℕ };

    ghost view = { λ s. take s.len s.bytes };

    ghost invariant = { λ s. (s.len ≤ MOST) × (MOST < 256) × IsAscii (take s.len s.bytes) };
}

impl<const MOST: usize> Short<MOST> {
    /// The empty text.
    pub(crate) fn new() -> Short<MOST>
        requires { MOST < 256 }
        ensures { result ≡ [] }
    {
        Short {
            len: 0,
            bytes: [0; MOST],
        }
    }

    /// A copy of a text, if it is short and ASCII.
    pub(crate) fn of(text: &str) -> Option<Short<MOST>>
        requires { MOST < 256 }
        ensures { IfSome result (λ short. short ≡ chars text.now) }
    {
        if text.len() > MOST || !text.is_ascii() {
            return None;
        }
        let mut bytes = [0; MOST];
        copy_front(text.as_bytes(), &mut bytes);
        Some(Short {
            len: text.len() as u8,
            bytes,
        })
    }

    /// The same text again.
    pub(crate) fn copy(&self) -> Short<MOST>
        ensures { result ≡ self.now }
    {
        Short {
            len: self.len,
            bytes: self.bytes,
        }
    }

    /// The number of bytes, and of code points.
    pub(crate) fn len(&self) -> usize
        ensures { result ≡ length self.now }
    {
        self.len as usize
    }

    /// The text itself.
    pub(crate) fn as_str(&self) -> &str
        ensures value { result.now ≡ self.now }
        ensures ascii { IsAscii self.now }
    {
        let bytes = &self.bytes[..self.len as usize];
        unsafe { std::str::from_utf8_unchecked(bytes) }
    }

    /// The same text in memory of its own, with room for so many bytes more.
    pub(crate) fn lengthened(&self, alloc: Global, more: usize) -> Result<String, AllocError>
        ensures { IfOk result (λ text. chars (string_bytes text) ≡ self.now) }
    {
        let mut text = String::new(alloc);
        let room = more.saturating_add(self.len());
        text.reserve(room)?;
        text.push_str(self.as_str())?;
        Ok(text)
    }

    /// Adds a text at the end, if there is room for it and it is ASCII: whether it was added.
    pub(crate) fn push_text(&mut self, text: &str) -> bool
        ensures yes { result ≡ true → self.new ≡ self.old ++ chars text.now }
        ensures no { result ≡ false → self.new ≡ self.old }
    {
        let len = self.len as usize;
        if text.len() > MOST - len || !text.is_ascii() {
            return false;
        }
        copy_to(text.as_bytes(), &mut self.bytes, len);
        self.len = (len + text.len()) as u8;
        true
    }

    /// Adds a run of code points at the end, if there is room for it and it is ASCII: whether it was added.
    pub(crate) fn push_run(&mut self, run: &[char]) -> bool
        ensures yes { result ≡ true → self.new ≡ self.old ++ run.now }
        ensures no { result ≡ false → self.new ≡ self.old }
    {
        let len = self.len as usize;
        if run.len() > MOST - len || !narrow(run, &mut self.bytes, len) {
            return false;
        }
        self.len = (len + run.len()) as u8;
        true
    }
}

/// Copies bytes to the front of a block.
fn copy_front(bytes: &[u8], block: &mut [u8])
    requires { length bytes.now ≤ length block.old }
    ensures same_len { length block.new ≡ length block.old }
    ensures copied { take (length bytes.now) block.new ≡ bytes.now }
{
    for index in 0..bytes.len() {
        block[index] = bytes[index];
    }
}

/// Copies bytes to a place of a block.
fn copy_to(bytes: &[u8], block: &mut [u8], at: usize)
    requires room { at + length bytes.now ≤ length block.old }
    ensures same_len { length block.new ≡ length block.old }
    ensures copied { take (at + length bytes.now) block.new ≡ take at block.old ++ bytes.now }
{
    for index in 0..bytes.len() {
        block[at + index] = bytes[index];
    }
}
