// What a `<` in data begins.
ghost use Rattle.std.specs.Prelude.{◌≡◌, ℕ, ◌≤◌, ◌+◌, ◌<◌, length, MatchOption, Some, slice_get, false, ◌&&◌};
ghost use Rattle.html_tokens.specs.Cut.{is};
ghost use Rattle.html_tokens.specs.Input.{Decided, IsShort};
ghost use Rattle.html_tokens.specs.Tokens.{opener, opened_len};

use crate::input::{Input, Peek};
use crate::marks::begins_word;
use crate::token::Opener;

/// The keyword of a doctype.
const DOCTYPE: [char; 7] = ['d', 'o', 'c', 't', 'y', 'p', 'e'];

/// What the `<` at the front of the rest begins; nothing where more input is wanted.
#[inline(always)]
pub(crate) fn opener(input: &Input) -> Option<Opener>
    requires { 0 < length input.now.queue.items }
    ensures { MatchOption result (IsShort input.now 8) (λ found. Decided input.now opener found × (0 < opened_len found) × (opened_len found ≤ length input.now.queue.items)) }
{
    match input.peek(1) {
        Peek::Is(Some('!')) => declaration(input),
        Peek::Is(Some('?')) => Some(Opener::Bogus(1)),
        Peek::Is(Some('/')) => match input.peek(2) {
            Peek::Is(None) => Some(Opener::Literal),
            Peek::Is(Some('>')) => Some(Opener::Empty),
            Peek::Is(Some('A'..='Z' | 'a'..='z')) => Some(Opener::EndTag),
            Peek::Is(Some(_)) => Some(Opener::Bogus(2)),
            Peek::Wait => None,
        },
        Peek::Is(Some('A'..='Z' | 'a'..='z')) => Some(Opener::StartTag),
        Peek::Is(_) => Some(Opener::Literal),
        Peek::Wait => None,
    }
}

fn declaration(input: &Input) -> Option<Opener>
    requires bang { Decided input.now (λ rest. slice_get rest 1) (Some 33) }
    requires two { 1 < length input.now.queue.items }
    ensures { MatchOption result (IsShort input.now 8) (λ found. Decided input.now opener found × (0 < opened_len found) × (opened_len found ≤ length input.now.queue.items)) }
{
    match (input.peek(2), input.peek(3)) {
        (Peek::Is(Some('-')), Peek::Is(Some('-'))) => match (input.peek(4), input.peek(5)) {
            (Peek::Is(Some('>')), _) => Some(Opener::ShortComment(5)),
            (Peek::Is(Some('-')), Peek::Is(Some('>'))) => Some(Opener::ShortComment(6)),
            (Peek::Is(Some('-')), Peek::Wait) => None,
            (Peek::Wait, _) => None,
            _ => Some(Opener::Comment),
        },
        (Peek::Is(Some('-')), Peek::Wait) => None,
        (Peek::Wait, _) => None,
        _ => undashed(input),
    }
}

/// What `<!` begins where no two dashes follow it.
fn undashed(input: &Input) -> Option<Opener>
    requires bang { Decided input.now (λ rest. slice_get rest 1) (Some 33) }
    requires two { 1 < length input.now.queue.items }
    requires undashed { Decided input.now (λ rest. is 45 (slice_get rest 2) && is 45 (slice_get rest 3)) false }
    ensures { MatchOption result (IsShort input.now 8) (λ found. Decided input.now opener found × (0 < opened_len found) × (opened_len found ≤ length input.now.queue.items)) }
{
    Some(match begins_word(input, &DOCTYPE, 2)? {
        true => Opener::Doctype,
        false => Opener::Bogus(2),
    })
}
