// A text of more room, which contracts see as its list of code points.
ghost use Rattle.std.specs.Prelude.{◌≡◌, ◌∷◌, [], ◌++◌, OnErr, OnOk, length, string_bytes, true, false};
ghost use Rattle.std.specs.Str.{IsUtf8, chars, encode_utf8_all};
ghost use Rattle.html_text.specs.Texts.{IsWideLong, wide_points};

use crate::run::{append, extend};
use crate::short::Short;
use crate::text::char_count;
use std::alloc::{AllocError, Global};
use std::marker::Model;

/// The greatest length of a short text.
const MOST: usize = 30;

/// A text in UTF-8, seen as the list of its code points, in twice the room of a `Str`: up to 30 code points of ASCII take no memory of
/// their own, and a longer text one piece of it.
#[derive(Drop)]
pub struct WideStr {
    alloc: Global,
    kept: WideKept,
}

/// Where a text is kept.
#[derive(Drop)]
pub(crate) enum WideKept {
    Short(Short<MOST>),
    Long(String),
}

impl Model for WideStr {
    ghost use Rattle.std.specs.Prelude.{List, ℕ};
    ghost use Rattle.html_text.specs.Texts.{wide_points};

    ghost Value = { List ℕ };

    ghost view = { λ s. wide_points s.kept };
}

impl WideStr {
    /// The empty text, which takes no memory.
    pub fn new(alloc: Global) -> WideStr
        ensures { result ≡ [] }
    {
        WideStr {
            alloc,
            kept: WideKept::Short(Short::new()),
        }
    }

    /// Adds a code point at the end, or leaves the text as it was.
    pub fn push(&mut self, c: char) -> Result<(), AllocError>
        ensures ok { OnOk result (self.new ≡ self.old ++ c ∷ []) }
        ensures err { OnErr result (self.new ≡ self.old) }
    {
        self.push_run(&[c])
    }

    /// Adds a run of code points at the end, or leaves the text as it was.
    pub fn push_run(&mut self, run: &[char]) -> Result<(), AllocError>
        ensures ok { OnOk result (self.new ≡ self.old ++ run.now) }
        ensures err { OnErr result (self.new ≡ self.old) }
    {
        if self.kept.push_short(run) {
            return Ok(());
        }
        self.kept.lengthen(self.alloc, run.len())?;
        self.kept.push_long(run)?;
        Ok(())
    }

    /// Adds a text at the end, or leaves what is there as it was.
    pub fn push_text(&mut self, text: &str) -> Result<(), AllocError>
        ensures ok { OnOk result (self.new ≡ self.old ++ chars text.now) }
        ensures err { OnErr result (self.new ≡ self.old) }
    {
        if self.kept.push_short_text(text) {
            return Ok(());
        }
        self.kept.lengthen(self.alloc, text.len())?;
        self.kept.push_long_text(text)?;
        Ok(())
    }

    /// The number of code points.
    pub fn len(&self) -> usize
        ensures { result ≡ length self.now }
    {
        match &self.kept {
            WideKept::Short(short) => short.len(),
            WideKept::Long(text) => char_count(text.as_str()),
        }
    }

    /// The text itself.
    pub fn as_str(&self) -> &str
        ensures bytes { result.now ≡ encode_utf8_all self.now }
        ensures code_points { chars result.now ≡ self.now }
    {
        self.kept.as_str()
    }
}

impl WideKept {
    /// The text itself.
    fn as_str(&self) -> &str
        ensures code_points { chars result.now ≡ wide_points self.now }
        ensures utf8 { IsUtf8 result.now }
    {
        match self {
            WideKept::Short(short) => short.as_str(),
            WideKept::Long(text) => text.as_str(),
        }
    }

    /// Adds a run of code points at the end of a short text, if it stays short: whether it was added.
    fn push_short(&mut self, run: &[char]) -> bool
        ensures yes { result ≡ true → wide_points self.new ≡ wide_points self.old ++ run.now }
        ensures no { result ≡ false → wide_points self.new ≡ wide_points self.old }
    {
        match self {
            WideKept::Short(short) => short.push_run(run),
            WideKept::Long(_) => false,
        }
    }

    /// Gives a short text memory of its own, with room for so many bytes more.
    #[inline(always)]
    fn lengthen(&mut self, alloc: Global, more: usize) -> Result<(), AllocError>
        ensures long { OnOk result (IsWideLong self.new) }
        ensures same { wide_points self.new ≡ wide_points self.old }
    {
        if let WideKept::Short(short) = self {
            let text = short.lengthened(alloc, more)?;
            *self = WideKept::Long(text);
        }
        Ok(())
    }

    /// Adds a text at the end of a short one, if it stays short: whether it was added.
    fn push_short_text(&mut self, text: &str) -> bool
        ensures yes { result ≡ true → wide_points self.new ≡ wide_points self.old ++ chars text.now }
        ensures no { result ≡ false → wide_points self.new ≡ wide_points self.old }
    {
        match self {
            WideKept::Short(short) => short.push_text(text),
            WideKept::Long(_) => false,
        }
    }

    /// Adds a text at the end of a long one, or leaves it as it was.
    fn push_long_text(&mut self, more: &str) -> Result<(), AllocError>
        requires { IsWideLong self.old }
        ensures ok { OnOk result (wide_points self.new ≡ wide_points self.old ++ chars more.now) }
        ensures err { OnErr result (wide_points self.new ≡ wide_points self.old) }
    {
        match self {
            WideKept::Short(_) => Ok(()),
            WideKept::Long(text) => append(text, more),
        }
    }

    /// Adds a run of code points at the end of a long text, or leaves it as it was.
    fn push_long(&mut self, run: &[char]) -> Result<(), AllocError>
        requires { IsWideLong self.old }
        ensures ok { OnOk result (wide_points self.new ≡ wide_points self.old ++ run.now) }
        ensures err { OnErr result (wide_points self.new ≡ wide_points self.old) }
    {
        match self {
            WideKept::Short(_) => Ok(()),
            WideKept::Long(text) => extend(text, run),
        }
    }
}
