// Text with the character references in it, gathered from the tokenizer, so that tree construction takes all of it at once.
ghost use Rattle.std.specs.Prelude.{◌≡◌, ◌⊎◌, ◌++◌, ◌∷◌, ◌≤◌, ◌+◌, [], false, true, length, IfErr, IfOk, OnOk};
ghost use Rattle.html_tokens.specs.Given.{Fed, fed_len, is_stopped};
ghost use Rattle.html_parser.specs.Gathered.{AreAwaiting, Follows, Gathers};
ghost use Rattle.html_parser.specs.Kinds.{starts_of};
ghost use Rattle.html_parser.specs.Tokenizing.{IsTokenizing};

use crate::error::ParseError;
use crate::kept::Kept;
use html_tokens::{Token, TokenKind, Tokenizer};

/// Appends to a text the code points that come next, whether they stand for themselves or were spelled as references, and keeps their tokens. Answers the
/// other token that comes behind them, which is not kept; nothing where more input is wanted.
pub(crate) fn gather(
    tokenizer: &mut Tokenizer<'_>,
    kept: &mut Kept,
    text: &mut Vec<char>,
) -> Result<Option<Token>, ParseError>
    requires tokenizing { IsTokenizing tokenizer.old kept.old.starts }
    requires going { is_stopped tokenizer.old ≡ false }
    ensures gathered { IfOk result (λ answer. Gathers tokenizer.old kept.old kept.new text.old.items text.new.items (Follows tokenizer.new answer)) }
    ensures tokenizing { IsTokenizing tokenizer.new kept.new.starts }
    ensures awaiting { IfOk result (λ answer. AreAwaiting tokenizer.new kept.new.starts answer) }
    ensures cause { IfErr result (λ e. e ≡ ParseError.OutOfMemory) }
    ensures running { OnOk result (is_stopped tokenizer.new ≡ false) }
    ensures count { fed_len tokenizer.new ≤ fed_len tokenizer.old }
    ensures keeps { kept.new.keeps_tokens ≡ kept.old.keeps_tokens }
{
    'tokens: loop {
        gather_run(tokenizer, kept, text)?;
        let Some(token) = tokenizer.next()? else {
            return Ok(None);
        };
        let TokenKind::Char(c) = token.kind else {
            return Ok(Some(token));
        };
        gather_char(kept, text, token, c)?;
        bounded(tokenizer, kept);
    }
}

/// Appends the plain text that comes next, and keeps its tokens.
fn gather_run(
    tokenizer: &mut Tokenizer<'_>,
    kept: &mut Kept,
    text: &mut Vec<char>,
) -> Result<(), ParseError>
    requires tokenizing { IsTokenizing tokenizer.old kept.old.starts }
    requires going { is_stopped tokenizer.old ≡ false }
    ensures gathered { OnOk result (Gathers tokenizer.old kept.old kept.new text.old.items text.new.items (Fed tokenizer.new)) }
    ensures tokenizing { IsTokenizing tokenizer.new kept.new.starts }
    ensures cause { IfErr result (λ e. e ≡ ParseError.OutOfMemory) }
    ensures running { OnOk result (is_stopped tokenizer.new ≡ false) }
    ensures count { fed_len tokenizer.new ≤ fed_len tokenizer.old }
    ensures keeps { kept.new.keeps_tokens ≡ kept.old.keeps_tokens }
{
    let start = text.len();
    if let Some(place) = tokenizer.next_run(text)? {
        kept.push_run(&text[start..], place)?;
    }
    Ok(())
}

/// Appends the code point of a token, and keeps the token.
pub(crate) fn gather_char(
    kept: &mut Kept,
    text: &mut Vec<char>,
    token: Token,
    c: char,
) -> Result<(), ParseError>
    ensures starts { OnOk result (kept.new.starts ≡ kept.old.starts ++ starts_of (token ∷ [])) }
    ensures either { (kept.new.starts ≡ kept.old.starts) ⊎ (kept.new.starts ≡ kept.old.starts ++ starts_of (token ∷ [])) }
    ensures tokens { OnOk result (kept.old.keeps_tokens ≡ true → kept.new.tokens ≡ kept.old.tokens ++ token ∷ []) }
    ensures keeps { kept.new.keeps_tokens ≡ kept.old.keeps_tokens }
    ensures text { OnOk result (text.new.items ≡ text.old.items ++ c ∷ []) }
    ensures cause { IfErr result (λ e. e ≡ ParseError.OutOfMemory) }
{
    text.push(c)?;
    kept.push(token)?;
    Ok(())
}

/// A law: no more tokens were taken than the text that was fed can have.
fn bounded(_tokenizer: &Tokenizer<'_>, _kept: &Kept)
    requires tokenizing { IsTokenizing _tokenizer.now _kept.now.starts }
    ensures few { is_stopped _tokenizer.now ≡ false → length _kept.now.starts ≤ fed_len _tokenizer.now + 1 }
{}
