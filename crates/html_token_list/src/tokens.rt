// A list of tokens in which text takes little room.
ghost use Rattle.std.specs.Prelude.{◌≡◌, ◌↔◌, ◌∷◌, [], ◌++◌, length, option_map, slice_get, IsTrue, OnOk, OnErr};
ghost use Rattle.html_token_list.specs.Shown.{shown};
ghost use Rattle.html_tokens.specs.Runs.{plain_tokens};

use crate::finding::token_at;
use crate::iter::Iter;
use crate::lent::TokenRef;
use crate::pieces::{Piece, Stretch, close, plain_char, turn_to};
use html_text::PlainText;
use html_tokens::Token;
use std::alloc::{AllocError, Global};
use std::marker::Model;

/// A list of tokens, in which neighbouring code points of text are kept as one text.
#[derive(Drop)]
pub struct Tokens {
    pieces: Vec<Piece>,
    last: Stretch,
    len: u64,
}

impl Model for Tokens {
    ghost use Rattle.std.specs.Prelude.{◌≡◌, ◌++◌, List, length};
    ghost use Rattle.html_tokens.specs.Runs.{plain_tokens};
    ghost use Rattle.html_tokens.specs.declared.token.Token.{Token};
    ghost use Rattle.html_token_list.specs.Pieces.{AreWhole, IsCounted, all_tokens};

    ghost Value = { List Token };

    ghost view = { λ t. all_tokens t.pieces.items ++ plain_tokens t.last.start t.last.text };

    ghost invariant = { λ t. IsCounted t.last × (t.len ≡ length (all_tokens t.pieces.items ++ plain_tokens t.last.start t.last.text)) × AreWhole t.pieces.items };
}

impl Tokens {
    /// No tokens, which takes no memory.
    pub fn new(alloc: Global) -> Tokens
        ensures value { result ≡ [] }
    {
        Tokens {
            pieces: Vec::new(alloc),
            last: Stretch::at(alloc, 0),
            len: 0,
        }
    }

    /// The number of tokens.
    pub fn len(&self) -> u64
        ensures value { result ≡ length self.now }
    {
        self.len
    }

    /// Whether there is no token.
    pub fn is_empty(&self) -> bool
        ensures value { IsTrue result ↔ (length self.now ≡ 0) }
    {
        self.len == 0
    }

    /// The tokens, one by one.
    pub fn iter(&self) -> Iter<'_>
        ensures value { result ≡ self.now }
    {
        Iter::over(self.pieces.as_slice(), &self.last)
    }

    /// The token of this number, if there is one. It goes through the pieces before it.
    pub fn get(&self, index: u64) -> Option<TokenRef<'_>>
        ensures value { option_map shown result ≡ slice_get self.now index }
    {
        token_at(self.pieces.as_slice(), &self.last, index)
    }

    /// Adds a token for each of these code points, the first at a place of its own and each other one at the next, or leaves the list as it was.
    pub fn push_text(&mut self, text: &[char], start: u64) -> Result<(), AllocError>
        ensures added { OnOk result (self.new ≡ self.old ++ plain_tokens start text.now) }
        ensures refused { OnErr result (self.new ≡ self.old) }
    {
        let count = text.len() as u64;
        let Some(len) = self.len.checked_add(count) else {
            return Err(AllocError);
        };
        let Some(_end) = start.checked_add(count) else {
            return Err(AllocError);
        };
        turn_to(&mut self.pieces, &mut self.last, start)?;
        self.last.add(text)?;
        self.len = len;
        Ok(())
    }

    /// Adds a token for each code point of a plain text, the first at a place of its own and each other one at the next, or leaves the list as it was.
    pub fn push_plain(&mut self, text: &PlainText<'_>, start: u64) -> Result<(), AllocError>
        ensures added { OnOk result (self.new ≡ self.old ++ plain_tokens start text.now) }
        ensures refused { OnErr result (self.new ≡ self.old) }
    {
        let more = text.len() as u64;
        let Some(len) = self.len.checked_add(more) else {
            return Err(AllocError);
        };
        let Some(_end) = start.checked_add(more) else {
            return Err(AllocError);
        };
        turn_to(&mut self.pieces, &mut self.last, start)?;
        self.last.add_plain(text)?;
        self.len = len;
        Ok(())
    }

    /// Adds a token, or leaves the list as it was.
    pub fn push(&mut self, token: Token) -> Result<(), AllocError>
        ensures added { OnOk result (self.new ≡ self.old ++ token ∷ []) }
        ensures refused { OnErr result (self.new ≡ self.old) }
    {
        match plain_char(&token) {
            Some(c) => self.push_text(&[c], token.span.start),
            None => self.push_other(token),
        }
    }

    /// Adds a token as a piece of its own, or leaves the list as it was.
    fn push_other(&mut self, token: Token) -> Result<(), AllocError>
        ensures added { OnOk result (self.new ≡ self.old ++ token ∷ []) }
        ensures refused { OnErr result (self.new ≡ self.old) }
    {
        let Some(len) = self.len.checked_add(1) else {
            return Err(AllocError);
        };
        close(&mut self.pieces, &mut self.last)?;
        self.pieces.push(Piece::Other(token))?;
        self.len = len;
        Ok(())
    }
}
