// Texts that may be missing.
ghost use Rattle.std.specs.Prelude.{◌≡◌, IfOk, None, Some, option_map};

use html_text::Str;
use std::alloc::{AllocError, Global};
use std::marker::Model;

/// A text that may be missing, seen as that option. It takes no more room than a `Str`, so that tokens are not larger for the sake of
/// doctypes.
#[derive(Debug, Drop)]
pub struct OptionalStr {
    kept: Option<Box<Str>>,
}

impl Model for OptionalStr {
    ghost use Rattle.std.specs.Prelude.{List, Option, ℕ};
    ghost use Rattle.html_tokens.specs.Shared.{text_in};

    ghost Value = { Option (List ℕ) };

    ghost view = { λ o. text_in o.kept };
}

impl OptionalStr {
    /// No text, which takes no memory.
    pub fn none() -> OptionalStr
        ensures { result ≡ None }
    {
        OptionalStr { kept: None }
    }

    /// A text that is there.
    pub fn some(alloc: Global, text: Str) -> Result<OptionalStr, AllocError>
        ensures { IfOk result (λ kept. kept ≡ Some text) }
    {
        let kept = Some(Box::new(alloc, text)?);
        Ok(OptionalStr { kept })
    }

    /// The text, if it is there.
    pub fn as_ref(&self) -> Option<&Str>
        ensures { option_map (λ text. text.now) result ≡ self.now }
    {
        match &self.kept {
            Some(text) => Some(text.as_ref()),
            None => None,
        }
    }
}

impl Clone for OptionalStr {
    ghost is_clone = { λ text copy. copy ≡ text };

    fn clone(&self) -> Result<OptionalStr, AllocError>
        ensures cases { IfOk result (λ copy. copy ≡ self.now) }
    {
        let kept = self.kept.clone()?;
        Ok(OptionalStr { kept })
    }
}
