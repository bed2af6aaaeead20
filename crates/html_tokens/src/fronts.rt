// Fronts of a text without some code points, many of which are looked at at once.
ghost use Rattle.std.specs.Prelude.{◌≡◌, ◌≤◌, ◌==◌, length, not, take, true};
ghost use Rattle.html_tokens.specs.Copied.{AllPass, EndsAt, is_without};

/// How many code points are looked at at once.
const BLOCK: usize = 8;

/// Whether a code point is neither U+0000 nor one of these two.
fn is_without(first: char, second: char, c: char) -> bool
    ensures { result ≡ is_without first second c }
{
    (c != '\0') & (c != first) & (c != second)
}

/// A number that is 0 for U+0000 and these two code points alone: with one comparison, and not three, eight code points are eight of one kind.
fn least(first: char, second: char, c: char) -> u32
    ensures { (result == 0) ≡ not (is_without first second c) }
{
    let code = c as u32;
    let to_first = code ^ first as u32;
    let to_second = code ^ second as u32;
    to_first.min(to_second).min(code)
}

/// Whether a block is without these code points. It looks at each, so that no guess at where words end goes wrong.
fn are_without(first: char, second: char, block: &[char]) -> bool
    ensures passes { result ≡ true → AllPass (is_without first second) block.now }
    ensures all { AllPass (is_without first second) block.now → result ≡ true }
{
    let mut are_without = true;
    for c in block {
        are_without = are_without & (least(first, second, *c) != 0);
    }
    are_without
}

/// The length of the longest front without U+0000 and these two code points.
#[inline(always)]
pub(crate) fn front_without(first: char, second: char, text: &[char]) -> usize
    ensures fit { result ≤ length text.now }
    ensures passes { AllPass (is_without first second) (take result text.now) }
    ensures ended { EndsAt (is_without first second) text.now result }
{
    match text.get(0) {
        Some(c) if is_without(first, second, *c) => {}
        _ => return 0,
    }
    let mut len = 0;
    'skipping: while BLOCK <= text.len() - len
        && are_without(first, second, &text[len..len + BLOCK])
    {
        len += BLOCK;
    }
    'rest: while len < text.len() && is_without(first, second, text[len]) {
        len += 1;
    }
    len
}
