// The token of a number.
ghost use Rattle.std.specs.Prelude.{◌≡◌, ◌++◌, length, option_map, slice_get};
ghost use Rattle.std.specs.Str.{chars};
ghost use Rattle.html_tokens.specs.Runs.{plain_tokens};
ghost use Rattle.html_token_list.specs.Pieces.{AreWhole, IsCounted, IsWhole, all_tokens, piece_tokens};
ghost use Rattle.html_token_list.specs.Shown.{shown};

use crate::lent::TokenRef;
use crate::pieces::{Piece, Stretch};

/// The token of this number in pieces and a stretch after them, if there is one.
pub(crate) fn token_at<'a>(
    pieces: &'a [Piece],
    last: &'a Stretch,
    index: u64,
) -> Option<TokenRef<'a>>
    requires whole { AreWhole pieces.now }
    requires counted { IsCounted last.now }
    ensures value { option_map shown result ≡ slice_get (all_tokens pieces.now ++ plain_tokens last.now.start last.now.text) index }
{
    let mut left = index;
    'searching: for piece in pieces {
        let count = piece.count();
        if left < count {
            return piece.token(left);
        }
        left -= count;
    }
    last.token(left)
}

impl Piece {
    /// The number of tokens.
    fn count(&self) -> u64
        requires whole { IsWhole self.now }
        ensures value { result ≡ length (piece_tokens self.now) }
    {
        match self {
            Piece::Text(stretch) => stretch.count,
            Piece::Other(_) => 1,
        }
    }

    /// The token of this number, if there is one.
    fn token(&self, index: u64) -> Option<TokenRef<'_>>
        requires whole { IsWhole self.now }
        ensures value { option_map shown result ≡ slice_get (piece_tokens self.now) index }
    {
        match self {
            Piece::Text(stretch) => stretch.token(index),
            Piece::Other(token) => {
                if index == 0 {
                    Some(TokenRef::Other(token))
                } else {
                    None
                }
            },
        }
    }
}

impl Stretch {
    /// The token of this number, if there is one.
    fn token(&self, index: u64) -> Option<TokenRef<'_>>
        requires counted { IsCounted self.now }
        ensures value { option_map shown result ≡ slice_get (plain_tokens self.now.start self.now.text) index }
    {
        match char_at(self.text.as_str(), index) {
            Some(c) => Some(TokenRef::Char {
                c,
                place: self.start + index,
            }),
            None => None,
        }
    }
}

/// The code point of this number in a text, if there is one.
fn char_at(text: &str, index: u64) -> Option<char>
    ensures value { result ≡ slice_get (chars text.now) index }
{
    text.chars().nth(index as usize)
}
