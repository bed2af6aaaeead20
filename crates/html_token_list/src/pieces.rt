// Tokens in a row, of which neighbouring code points of text are one piece.
ghost use Rattle.std.specs.Prelude.{◌≡◌, ◌+◌, ◌<◌, ◌≤◌, ◌^◌, ◌∷◌, [], ◌++◌, length, IfSome, IsTrue, OnOk, OnErr};
ghost use Rattle.html_tokens.specs.Runs.{plain_tokens};
ghost use Rattle.html_tokens.specs.Tokens.{token as token_at};
ghost use Rattle.html_tokens.specs.declared.token.TokenKind.TheVariants.{Char};
ghost use Rattle.html_token_list.specs.Pieces.{AreWhole, IsCounted, all_tokens};

use html_text::{PlainText, Str};
use html_tokens::{Token, TokenKind};
use std::alloc::{AllocError, Global};
use std::mem;

/// Code points of text that stand one after another: their number, and the place of the first.
#[derive(Debug, Drop)]
pub struct Stretch {
    pub text: Str,
    pub start: u64,
    pub count: u64,
}

/// One or more tokens in a row.
#[derive(Debug, Drop)]
pub enum Piece {
    /// A token for each code point, at a place of its own.
    Text(Stretch),
    /// Any other token.
    Other(Token),
}

impl Stretch {
    /// No code points, which takes no memory.
    pub(crate) fn at(alloc: Global, start: u64) -> Stretch
        ensures text { result.text ≡ [] }
        ensures start { result.start ≡ start }
        ensures count { result.count ≡ 0 }
    {
        Stretch {
            text: Str::new(alloc),
            start,
            count: 0,
        }
    }

    /// Whether the place is that of the next code point.
    pub(crate) fn ends_at(&self, place: u64) -> bool
        ensures end { IsTrue result → self.now.start + self.now.count ≡ place }
    {
        self.start <= place && place - self.start == self.count
    }

    /// Adds code points, or leaves the stretch as it was.
    pub(crate) fn add(&mut self, run: &[char]) -> Result<(), AllocError>
        requires room { self.old.count + length run.now < 2 ^ 64 }
        ensures added { OnOk result (self.new.text ≡ self.old.text ++ run.now) }
        ensures start { self.new.start ≡ self.old.start }
        ensures count { OnOk result (self.new.count ≡ self.old.count + length run.now) }
        ensures refused { OnErr result (self.new ≡ self.old) }
    {
        add_run(&mut self.text, run)?;
        self.count += run.len() as u64;
        Ok(())
    }
}

/// Adds code points to a text, or leaves it as it was.
fn add_run(text: &mut Str, run: &[char]) -> Result<(), AllocError>
    ensures added { OnOk result (text.new ≡ text.old ++ run.now) }
    ensures refused { OnErr result (text.new ≡ text.old) }
{
    text.push_run(run)
}

impl Stretch {
    /// Adds the code points of a plain text, or leaves the stretch as it was.
    pub(crate) fn add_plain(&mut self, text: &PlainText<'_>) -> Result<(), AllocError>
        requires room { self.old.count + length text.now < 2 ^ 64 }
        ensures added { OnOk result (self.new.text ≡ self.old.text ++ text.now) }
        ensures start { self.new.start ≡ self.old.start }
        ensures count { OnOk result (self.new.count ≡ self.old.count + length text.now) }
        ensures refused { OnErr result (self.new ≡ self.old) }
    {
        add_text(&mut self.text, text)?;
        self.count += text.len() as u64;
        Ok(())
    }
}

/// Adds the code points of a plain text to a text, or leaves it as it was.
fn add_text(text: &mut Str, more: &PlainText<'_>) -> Result<(), AllocError>
    ensures added { OnOk result (text.new ≡ text.old ++ more.now) }
    ensures refused { OnErr result (text.new ≡ text.old) }
{
    text.push_text(more.as_str())
}

/// Puts the last stretch behind the pieces, unless it is empty.
pub(crate) fn close(pieces: &mut Vec<Piece>, last: &mut Stretch) -> Result<(), AllocError>
    requires counted { IsCounted last.old }
    requires whole { AreWhole pieces.old.items }
    ensures whole { AreWhole pieces.new.items }
    ensures counted { IsCounted last.new }
    ensures empty { OnOk result (last.new.text ≡ []) }
    ensures none { OnOk result (last.new.count ≡ 0) }
    ensures same { OnOk result (all_tokens pieces.new.items ≡ all_tokens pieces.old.items ++ plain_tokens last.old.start last.old.text) }
    ensures refused { OnErr result (pieces.new.items ≡ pieces.old.items) }
    ensures kept { OnErr result (last.new ≡ last.old) }
{
    if last.count == 0 {
        return Ok(());
    }
    pieces.reserve(1)?;
    let empty = Stretch::at(*pieces.allocator(), 0);
    let full = mem::replace(last, empty);
    pieces.push(Piece::Text(full))?;
    Ok(())
}

/// Makes the place that of the next code point.
pub(crate) fn turn_to(
    pieces: &mut Vec<Piece>,
    last: &mut Stretch,
    place: u64,
) -> Result<(), AllocError>
    requires counted { IsCounted last.old }
    requires whole { AreWhole pieces.old.items }
    ensures whole { AreWhole pieces.new.items }
    ensures place { OnOk result (last.new.start + last.new.count ≡ place) }
    ensures counted { IsCounted last.new }
    ensures same { all_tokens pieces.new.items ++ plain_tokens last.new.start last.new.text ≡ all_tokens pieces.old.items ++ plain_tokens last.old.start last.old.text }
{
    if last.ends_at(place) {
        return Ok(());
    }
    close(pieces, last)?;
    last.start = place;
    Ok(())
}

/// The code point of a token of text with a place of its own.
pub(crate) fn plain_char(token: &Token) -> Option<char>
    ensures is { IfSome result (λ c. token.now ≡ token_at (Char c) token.now.span.start (token.now.span.start + 1)) }
{
    match &token.kind {
        TokenKind::Char(c) => {
            let is_one = token.span.start < token.span.end
                && token.span.end - token.span.start == 1;
            if is_one { Some(*c) } else { None }
        },
        _ => None,
    }
}
