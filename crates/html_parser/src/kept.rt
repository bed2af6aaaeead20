//! What is kept of the tokens that were taken.

ghost use Rattle.std.specs.Prelude.{◌≡◌, ◌⊎◌, ◌++◌, ◌∷◌, [], true, OnOk};
ghost use Rattle.html_tokens.specs.Runs.{plain_tokens};
ghost use Rattle.html_parser.specs.Kinds.{starts_of};

use crate::starts::Starts;
use html_text::PlainText;
use html_token_list::Tokens;
use html_tokens::Token;
use std::alloc::{AllocError, Global};

/// Where the tokens begin, and the tokens where they are wanted.
#[derive(Drop)]
pub(crate) struct Kept {
    pub starts: Starts,
    pub tokens: Tokens,
    pub keeps_tokens: bool,
}

impl Kept {
    /// Nothing yet; the tokens are wanted.
    pub(crate) fn new(alloc: Global) -> Kept
        ensures starts { result.starts ≡ [] }
        ensures tokens { result.tokens ≡ [] }
        ensures keeps { result.keeps_tokens ≡ true }
    {
        Kept {
            starts: Starts::new(alloc),
            tokens: Tokens::new(alloc),
            keeps_tokens: true,
        }
    }

    /// Adds a token for each of these code points, the first at a place and each other one at the next.
    pub(crate) fn push_run(&mut self, text: &[char], place: u64) -> Result<(), AllocError>
        ensures starts { OnOk result (self.new.starts ≡ self.old.starts ++ starts_of (plain_tokens place text.now)) }
        ensures either { (self.new.starts ≡ self.old.starts) ⊎ (self.new.starts ≡ self.old.starts ++ starts_of (plain_tokens place text.now)) }
        ensures tokens { OnOk result (self.old.keeps_tokens ≡ true → self.new.tokens ≡ self.old.tokens ++ plain_tokens place text.now) }
        ensures keeps { self.new.keeps_tokens ≡ self.old.keeps_tokens }
    {
        self.starts.push_run(place, text.len() as u64)?;
        if self.keeps_tokens {
            self.tokens.push_text(text, place)?;
        }
        Ok(())
    }

    /// Adds a token for each code point of a plain text, the first at a place and each other one at the next.
    pub(crate) fn push_plain(&mut self, text: &PlainText<'_>, place: u64) -> Result<(), AllocError>
        ensures starts { OnOk result (self.new.starts ≡ self.old.starts ++ starts_of (plain_tokens place text.now)) }
        ensures either { (self.new.starts ≡ self.old.starts) ⊎ (self.new.starts ≡ self.old.starts ++ starts_of (plain_tokens place text.now)) }
        ensures tokens { OnOk result (self.old.keeps_tokens ≡ true → self.new.tokens ≡ self.old.tokens ++ plain_tokens place text.now) }
        ensures keeps { self.new.keeps_tokens ≡ self.old.keeps_tokens }
    {
        self.starts.push_run(place, text.len() as u64)?;
        if self.keeps_tokens {
            self.tokens.push_plain(text, place)?;
        }
        Ok(())
    }

    /// Adds a token.
    pub(crate) fn push(&mut self, token: Token) -> Result<(), AllocError>
        ensures starts { OnOk result (self.new.starts ≡ self.old.starts ++ starts_of (token ∷ [])) }
        ensures either { (self.new.starts ≡ self.old.starts) ⊎ (self.new.starts ≡ self.old.starts ++ starts_of (token ∷ [])) }
        ensures tokens { OnOk result (self.old.keeps_tokens ≡ true → self.new.tokens ≡ self.old.tokens ++ token ∷ []) }
        ensures keeps { self.new.keeps_tokens ≡ self.old.keeps_tokens }
    {
        let start = self.starts.push_run(token.span.start, 1);
        self.keep(token)?;
        start
    }

    /// Keeps a token where the tokens are wanted, and else lets it go. Apart from its caller, which would else move the parts of each token.
    #[inline(never)]
    fn keep(&mut self, token: Token) -> Result<(), AllocError>
        ensures starts { self.new.starts ≡ self.old.starts }
        ensures tokens { OnOk result (self.old.keeps_tokens ≡ true → self.new.tokens ≡ self.old.tokens ++ token ∷ []) }
        ensures keeps { self.new.keeps_tokens ≡ self.old.keeps_tokens }
    {
        if self.keeps_tokens {
            self.tokens.push(token)?;
        }
        Ok(())
    }
}
