// A text that contracts see as its list of code points.
ghost use Rattle.std.specs.Prelude.{◌≡◌, ◌↔◌, ◌∷◌, [], ◌++◌, IfOk, IsTrue, OnErr, OnOk, false, length, string_bytes, true};
ghost use Rattle.std.specs.Str.{IsUtf8, chars, encode_utf8_all};
ghost use Rattle.html_text.specs.Texts.{IsLong, code_points};

use crate::run::{append, extend};
use crate::short::Short;
use std::alloc::{AllocError, Global};
use std::fmt;
use std::marker::Model;

/// A text in UTF-8, seen as the list of its code points. A short one of ASCII takes no memory of its own.
#[derive(Drop)]
pub struct Str {
    alloc: Global,
    kept: Kept,
}

/// The greatest length of a short text.
const MOST: usize = 14;

/// Where a text is kept.
#[derive(Drop)]
pub(crate) enum Kept {
    Short(Short<MOST>),
    Long(Box<String>),
}

impl Model for Str {
    ghost use Rattle.std.specs.Prelude.{List, ℕ};
    ghost use Rattle.html_text.specs.Texts.{code_points};

    ghost Value = { List ℕ };

    ghost view = { λ s. code_points s.kept };
}

impl Str {
    /// The empty text, which takes no memory.
    pub fn new(alloc: Global) -> Str
        ensures { result ≡ [] }
    {
        Str {
            alloc,
            kept: Kept::Short(Short::new()),
        }
    }

    /// A copy of a text.
    pub fn of(alloc: Global, text: &str) -> Result<Str, AllocError>
        ensures { IfOk result (λ copy. copy ≡ chars text.now) }
    {
        let kept = match Short::of(text) {
            Some(short) => Kept::Short(short),
            None => {
                let long = String::from_str(alloc, text)?;
                Kept::Long(Box::new(alloc, long)?)
            }
        };
        Ok(Str { alloc, kept })
    }

    /// Adds a code point at the end, or leaves the text as it was.
    pub fn push(&mut self, c: char) -> Result<(), AllocError>
        ensures ok { OnOk result (self.new ≡ self.old ++ c ∷ []) }
        ensures err { OnErr result (self.new ≡ self.old) }
    {
        self.push_run(&[c])
    }

    /// Adds a run of code points at the end, or leaves the text as it was.
    #[inline(always)]
    pub fn push_run(&mut self, run: &[char]) -> Result<(), AllocError>
        ensures ok { OnOk result (self.new ≡ self.old ++ run.now) }
        ensures err { OnErr result (self.new ≡ self.old) }
    {
        if self.kept.push_short(run) {
            return Ok(());
        }
        self.kept.lengthen(self.alloc, run.len())?;
        self.kept.push_long(run)?;
        Ok(())
    }

    /// Adds a text at the end, or leaves what is there as it was.
    pub fn push_text(&mut self, text: &str) -> Result<(), AllocError>
        ensures ok { OnOk result (self.new ≡ self.old ++ chars text.now) }
        ensures err { OnErr result (self.new ≡ self.old) }
    {
        if self.kept.push_short_text(text) {
            return Ok(());
        }
        self.kept.lengthen(self.alloc, text.len())?;
        self.kept.push_long_text(text)?;
        Ok(())
    }

    /// The number of code points.
    pub fn len(&self) -> usize
        ensures { result ≡ length self.now }
    {
        match &self.kept {
            Kept::Short(short) => short.len(),
            Kept::Long(text) => char_count(text.as_ref().as_str()),
        }
    }

    /// Whether there is no code point.
    pub fn is_empty(&self) -> bool
        ensures { IsTrue result ↔ (self.now ≡ []) }
    {
        self.kept.as_str().is_empty()
    }

    /// The text itself.
    pub fn as_str(&self) -> &str
        ensures bytes { result.now ≡ encode_utf8_all self.now }
        ensures code_points { chars result.now ≡ self.now }
    {
        self.kept.as_str()
    }
}

impl Kept {
    /// The text itself.
    fn as_str(&self) -> &str
        ensures code_points { chars result.now ≡ code_points self.now }
        ensures utf8 { IsUtf8 result.now }
    {
        match self {
            Kept::Short(short) => short.as_str(),
            Kept::Long(text) => text.as_ref().as_str(),
        }
    }

    /// Adds a run of code points at the end of a short text, if it stays short: whether it was added.
    fn push_short(&mut self, run: &[char]) -> bool
        ensures yes { result ≡ true → code_points self.new ≡ code_points self.old ++ run.now }
        ensures no { result ≡ false → code_points self.new ≡ code_points self.old }
    {
        match self {
            Kept::Short(short) => short.push_run(run),
            Kept::Long(_) => false,
        }
    }

    /// Gives a short text memory of its own, with room for so many bytes more.
    fn lengthen(&mut self, alloc: Global, more: usize) -> Result<(), AllocError>
        ensures long { OnOk result (IsLong self.new) }
        ensures same { code_points self.new ≡ code_points self.old }
    {
        if let Kept::Short(short) = self {
            let text = short.lengthened(alloc, more)?;
            *self = Kept::Long(Box::new(alloc, text)?);
        }
        Ok(())
    }

    /// Adds a text at the end of a short one, if it stays short: whether it was added.
    fn push_short_text(&mut self, text: &str) -> bool
        ensures yes { result ≡ true → code_points self.new ≡ code_points self.old ++ chars text.now }
        ensures no { result ≡ false → code_points self.new ≡ code_points self.old }
    {
        match self {
            Kept::Short(short) => short.push_text(text),
            Kept::Long(_) => false,
        }
    }

    /// Adds a text at the end of a long one, or leaves it as it was.
    fn push_long_text(&mut self, more: &str) -> Result<(), AllocError>
        requires { IsLong self.old }
        ensures ok { OnOk result (code_points self.new ≡ code_points self.old ++ chars more.now) }
        ensures err { OnErr result (code_points self.new ≡ code_points self.old) }
    {
        match self {
            Kept::Short(_) => Ok(()),
            Kept::Long(text) => append(&mut **text, more),
        }
    }

    /// Adds a run of code points at the end of a long text, or leaves it as it was.
    fn push_long(&mut self, run: &[char]) -> Result<(), AllocError>
        requires { IsLong self.old }
        ensures ok { OnOk result (code_points self.new ≡ code_points self.old ++ run.now) }
        ensures err { OnErr result (code_points self.new ≡ code_points self.old) }
    {
        match self {
            Kept::Short(_) => Ok(()),
            Kept::Long(text) => extend(&mut **text, run),
        }
    }
}

/// The number of code points of a text.
pub(crate) fn char_count(text: &str) -> usize
    ensures { result ≡ length (chars text.now) }
{
    if text.is_ascii() {
        text.len()
    } else {
        text.chars().count()
    }
}

impl Clone for Kept {
    ghost use Rattle.html_text.specs.Texts.{code_points};

    ghost is_clone = { λ kept copy. code_points copy ≡ code_points kept };

    fn clone(&self) -> Result<Kept, AllocError>
        ensures cases { IfOk result (λ copy. code_points copy ≡ code_points self.now) }
    {
        match self {
            Kept::Short(short) => Ok(Kept::Short(short.copy())),
            Kept::Long(text) => {
                let copy = text.as_ref().clone()?;
                let alloc = *Box::allocator(text);
                Ok(Kept::Long(Box::new(alloc, copy)?))
            }
        }
    }
}

impl Clone for Str {
    ghost is_clone = { λ text copy. copy ≡ text };

    fn clone(&self) -> Result<Str, AllocError>
        ensures cases { IfOk result (λ copy. copy ≡ self.now) }
    {
        let kept = self.kept.clone()?;
        Ok(Str {
            alloc: self.alloc,
            kept,
        })
    }
}

impl PartialEq for Str {
    ghost use Rattle.std.specs.Prelude.{◌==◌};
    ghost use Rattle.std.specs.Cmp.{partial_equiv_from_equiv};
    ghost use Rattle.std.specs.Cmp.Lexicographic.{nat_list_eq_equiv, pointwise};

    ghost eq = { pointwise ◌==◌ };

    ghost laws = { partial_equiv_from_equiv nat_list_eq_equiv };

    fn eq(&self, other: &Str) -> bool
        ensures value { result ≡ pointwise ◌==◌ self.now other.now }
        ensures equal { IsTrue result ↔ (self.now ≡ other.now) }
    {
        self.kept.as_str() == other.kept.as_str()
    }
}

impl Eq for Str {
    ghost use Rattle.std.specs.Cmp.Lexicographic.{nat_list_eq_equiv};

    ghost laws = { nat_list_eq_equiv };
}

impl fmt::Display for Str {
    ghost use Rattle.std.specs.Prelude.{Some};
    ghost use Rattle.std.specs.Str.{encode_utf8_all};

    ghost output = { λ s. Some (encode_utf8_all s) };

    fn fmt<W: fmt::Write>(&self, f: &mut fmt::Formatter<W>) -> fmt::Result {
        self.as_str().fmt(f)
    }
}

impl fmt::Debug for Str {
    fn fmt<W: fmt::Write>(&self, f: &mut fmt::Formatter<W>) -> fmt::Result {
        self.as_str().fmt(f)
    }
}
