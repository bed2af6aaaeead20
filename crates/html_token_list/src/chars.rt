// The tokens of a text.
ghost use Rattle.std.specs.Prelude.{◌≡◌, ◌+◌, ◌<◌, ◌^◌, ◌∷◌, [], length, IfNone, IfSome};
ghost use Rattle.std.specs.Str.{chars};
ghost use Rattle.html_tokens.specs.Runs.{plain_tokens};
ghost use Rattle.html_token_list.specs.Shown.{shown};

use crate::lent::TokenRef;

/// The first code point of a text, and the text after it.
fn first_char<'a>(text: &'a str) -> Option<(char, &'a str)>
    ensures none { IfNone result (chars text.now ≡ []) }
    ensures some { IfSome result (λ parts. chars text.now ≡ parts.0 ∷ chars parts.1.now) }
{
    let mut chars = text.chars();
    let c = chars.next()?;
    Some((c, chars.as_str()))
}

/// Takes the first token of a text that stands at a place, if there is one, and leaves what is left of both.
pub(crate) fn next_char<'a>(text: &mut &'a str, place: &mut u64) -> Option<TokenRef<'a>>
    requires room { place.old + length (chars text.old.now) < 2 ^ 64 }
    ensures none { IfNone result (chars text.old.now ≡ []) }
    ensures same { IfNone result ((text.new ≡ text.old) × (place.new ≡ place.old)) }
    ensures some { IfSome result (λ token. plain_tokens place.old (chars text.old.now) ≡ shown token ∷ plain_tokens place.new (chars text.new.now)) }
    ensures room { place.new + length (chars text.new.now) < 2 ^ 64 }
{
    let (c, rest) = first_char(*text)?;
    let at = *place;
    *text = rest;
    *place += 1;
    Some(TokenRef::Char { c, place: at })
}
