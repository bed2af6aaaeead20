// Fronts of the rest that are copied as they stand.
ghost use Rattle.std.specs.Prelude.{◌≡◌, ◌≤◌, ◌++◌, length, take, IfOk, OnOk};
ghost use Rattle.html_tokens.specs.Copied.{AllPass, EndsAt, is_copied};

use crate::fronts::front_without;
use crate::tag::{ends_attr, ends_unquoted};
use html_text::Str;
use std::alloc::AllocError;

/// A text that is being read, by the code points that it takes as they stand: they end nothing, begin nothing, become
/// nothing else and tell no error.
#[derive(Clone, Copy)]
pub enum Copied {
    Name,
    DoubleQuoted,
    SingleQuoted,
    Unquoted,
    Comment,
    Bogus,
}

impl Copied {
    fn takes(self, c: char) -> bool
        ensures { result ≡ is_copied self c }
    {
        match self {
            Copied::Name => {
                c.is_ascii_lowercase()
                    || !(ends_attr(c) || matches!(c, '\0' | '"' | '\'' | '<' | 'A'..='Z'))
            }
            Copied::DoubleQuoted => !matches!(c, '\0' | '"' | '&'),
            Copied::SingleQuoted => !matches!(c, '\0' | '\'' | '&'),
            Copied::Unquoted => {
                !(ends_unquoted(c) || matches!(c, '\0' | '"' | '\'' | '&' | '<' | '=' | '`'))
            }
            Copied::Comment => !matches!(c, '\0' | '-' | '<'),
            Copied::Bogus => !matches!(c, '\0' | '>'),
        }
    }

    /// The length of the longest front of the rest that the text takes as it stands.
    pub(crate) fn front(self, rest: &[char]) -> usize
        ensures fit { result ≤ length rest.now }
        ensures passes { AllPass (is_copied self) (take result rest.now) }
        ensures ended { EndsAt (is_copied self) rest.now result }
    {
        match self {
            Copied::DoubleQuoted => front_without('"', '&', rest),
            Copied::SingleQuoted => front_without('\'', '&', rest),
            Copied::Comment => front_without('-', '<', rest),
            Copied::Name | Copied::Unquoted | Copied::Bogus => self.front_one_by_one(rest),
        }
    }

    /// The same, where more code points end the text, or names, which are short.
    fn front_one_by_one(self, rest: &[char]) -> usize
        ensures fit { result ≤ length rest.now }
        ensures passes { AllPass (is_copied self) (take result rest.now) }
        ensures ended { EndsAt (is_copied self) rest.now result }
    {
        let mut len = 0;
        for c in rest {
            if !self.takes(*c) {
                return len;
            }
            len += 1;
        }
        len
    }

    /// Adds the longest front of the rest that the text takes as it stands, and answers its length.
    pub(crate) fn copy(self, rest: &[char], text: &mut Str) -> Result<usize, AllocError>
        ensures fit { IfOk result (λ n. n ≤ length rest.now) }
        ensures passes { IfOk result (λ n. AllPass (is_copied self) (take n rest.now)) }
        ensures ended { IfOk result (λ n. EndsAt (is_copied self) rest.now n) }
        ensures text { IfOk result (λ n. text.new ≡ text.old ++ take n rest.now) }
    {
        let len = self.front(rest);
        push_all(text, &rest[..len])?;
        Ok(len)
    }
}

/// Adds code points at the end of a text.
#[inline(always)]
pub(crate) fn push_all(text: &mut Str, run: &[char]) -> Result<(), AllocError>
    ensures ok { OnOk result (text.new ≡ text.old ++ run.now) }
{
    text.push_run(run)?;
    Ok(())
}
