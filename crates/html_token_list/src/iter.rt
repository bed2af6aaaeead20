// The tokens of a list, one by one.
ghost use Rattle.std.specs.Prelude.{◌≡◌, ◌++◌};
ghost use Rattle.std.specs.Iterator.{YieldsFirstBy, item_count};
ghost use Rattle.html_tokens.specs.Runs.{plain_tokens};
ghost use Rattle.html_token_list.specs.Shown.{shown};

use crate::chars::next_char;
use crate::lent::TokenRef;
use crate::pieces::{Piece, Stretch};
use std::marker::Model;

/// The tokens that are left of a list.
#[derive(Drop)]
pub struct Iter<'a> {
    text: &'a str,
    place: u64,
    pieces: &'a [Piece],
    last: Option<&'a Stretch>,
}

impl<'a> Model for Iter<'a> {
    ghost use Rattle.std.specs.Prelude.{◌≡◌, ◌++◌, ◌+◌, ◌<◌, ◌^◌, List, length};
    ghost use Rattle.std.specs.Str.{chars};
    ghost use Rattle.html_tokens.specs.Runs.{plain_tokens};
    ghost use Rattle.html_tokens.specs.declared.token.Token.{Token};
    ghost use Rattle.html_token_list.specs.Pieces.{AreWhole, all_tokens};
    ghost use Rattle.html_token_list.specs.Shown.{IsCountedIn, tokens_in};

    ghost Value = { List Token };

    ghost view = { λ it. plain_tokens it.place (chars it.text.now) ++ (all_tokens it.pieces.now ++ tokens_in it.last) };

    ghost invariant = { λ it. (it.place + length (chars it.text.now) < 2 ^ 64) × AreWhole it.pieces.now × IsCountedIn it.last };
}

impl<'a> Iter<'a> {
    ghost use Rattle.html_token_list.specs.Pieces.{AreWhole, IsCounted, all_tokens};

    /// The tokens of pieces, and then of a stretch of text.
    pub(crate) fn over(pieces: &'a [Piece], last: &'a Stretch) -> Iter<'a>
        requires whole { AreWhole pieces.now }
        requires counted { IsCounted last.now }
        ensures value { result ≡ all_tokens pieces.now ++ plain_tokens last.now.start last.now.text }
    {
        Iter {
            text: "",
            place: 0,
            pieces,
            last: Some(last),
        }
    }
}

impl<'a> Iterator for Iter<'a> {
    type Item = TokenRef<'a>;

    ghost next_gives = { YieldsFirstBy shown (λ tokens. tokens) };

    ghost remaining = { item_count (λ tokens. tokens) };

    fn next(&mut self) -> Option<TokenRef<'a>> {
        if let Some(token) = next_char(&mut self.text, &mut self.place) {
            return Some(token);
        }
        if let Some((piece, others)) = self.pieces.split_first() {
            self.pieces = others;
            return match piece {
                Piece::Text(stretch) => {
                    self.text = stretch.text.as_str();
                    self.place = stretch.start;
                    next_char(&mut self.text, &mut self.place)
                },
                Piece::Other(token) => Some(TokenRef::Other(token)),
            };
        }
        let stretch = self.last.take()?;
        self.text = stretch.text.as_str();
        self.place = stretch.start;
        next_char(&mut self.text, &mut self.place)
    }
}
