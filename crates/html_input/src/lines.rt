//! Places as people count them.
ghost use Rattle.std.specs.Prelude.{◌≡◌, ◌+◌, ◌≤◌, ◌<◌, ◌⊎◌, [], IfNone, IfSome, length, false};
ghost use Rattle.html_input.specs.Count.{BeginsWithMark};
ghost use Rattle.html_input.specs.Decode.{scalar_values, starts_with_line_feed};
ghost use Rattle.html_input.specs.Reached.{IsReached};
ghost use Rattle.html_input.specs.Starts.{IsFirst, StartsShort, StartsWith};

use simdutf8::from_utf8_baseline;

/// Where a place of the text stands.
#[derive(Clone, Copy, Debug, PartialEq, Eq)]
pub struct Position {
    /// How many bytes of the input stand before it.
    pub offset: usize,
    /// The number of its line, from 1.
    pub line: u64,
    /// Its column in code points, from 1.
    pub column: u64,
}

/// How far a walk has come.
#[derive(Clone, Copy)]
pub(crate) struct Here {
    pub place: u64,
    pub offset: usize,
    pub line: u64,
    pub column: u64,
}

/// A walk through the bytes of an input, which tells where places of its text stand: a place is the number of code points before it, without a byte
/// order mark at the start, and with one for each end of a line.
#[derive(Clone, Copy)]
pub struct Lines<'a> {
    bytes: &'a [u8],
    here: Here,
    ghost reached: { IsReached bytes.now here },
}

impl<'a> Lines<'a> {
    ghost use Rattle.html_input.specs.Lines.{StandsAt};

    /// A walk at the start of an input.
    pub fn of(bytes: &'a [u8]) -> Lines<'a>
        ensures bytes { result.bytes.now ≡ bytes.entry.now }
    {
        Lines {
            bytes,
            here: start(bytes),
        }
    }

    /// Where a place stands; one behind the end of the text stands at the end. It takes one pass over the bytes for all places in order, and begins
    /// again for a place before the last one.
    pub fn at(&mut self, place: u64) -> Position
        ensures at { StandsAt self.old.bytes.now place result }
        ensures bytes { self.new.bytes.now ≡ self.old.bytes.now }
    {
        let from = if place < self.here.place {
            start(self.bytes)
        } else {
            self.here
        };
        let here = reach(self.bytes, from, place);
        self.here = here;
        Position {
            offset: here.offset,
            line: here.line,
            column: here.column,
        }
    }
}

/// The start of the text.
fn start(bytes: &[u8]) -> Here
    ensures reached { IsReached bytes.now result }
    ensures place { result.place ≡ 0 }
{
    Here {
        place: 0,
        offset: mark_len(bytes),
        line: 1,
        column: 1,
    }
}

/// Goes on to a place, or to the end of the text.
fn reach(bytes: &[u8], from: Here, place: u64) -> Here
    requires reached { IsReached bytes.now from }
    requires ahead { from.place ≤ place }
    ensures reached { IsReached bytes.now result }
    ensures place { (result.place ≡ place) ⊎ ((result.offset ≡ length bytes.now) × (result.place ≤ place)) }
{
    let mut here = from;
    'steps: for _ in from.place..place {
        match next(bytes, here) {
            Some(later) => here = later,
            None => return here,
        }
    }
    here
}

/// Goes on by one code point of the text.
fn next(bytes: &[u8], here: Here) -> Option<Here>
    requires reached { IsReached bytes.now here }
    ensures reached { IfSome result (λ h. IsReached bytes.now h) }
    ensures place { IfSome result (λ h. h.place ≡ here.place + 1) }
    ensures end { IfNone result (here.offset ≡ length bytes.now) }
{
    if here.offset >= bytes.len() {
        return None;
    }
    let (c, len) = first_value(&bytes[here.offset..])?;
    let behind = here.offset + len;
    let place = here.place + 1;
    if c == '\r' {
        let feed = feed_len(&bytes[behind..]);
        return Some(Here {
            place,
            offset: behind + feed,
            line: here.line + 1,
            column: 1,
        });
    }
    if c == '\n' {
        return Some(Here {
            place,
            offset: behind,
            line: here.line + 1,
            column: 1,
        });
    }
    Some(Here {
        place,
        offset: behind,
        line: here.line,
        column: here.column + 1,
    })
}

/// How many bytes a byte order mark at the front has: none where there is none.
fn mark_len(bytes: &[u8]) -> usize
    ensures none { result ≡ 0 → BeginsWithMark (scalar_values bytes.now) → ⊥ }
    ensures some { 0 < result → StartsWith bytes.now 0xFEFF result }
{
    match first_value(bytes) {
        Some((c, len)) => { if c == '\u{FEFF}' { len } else { 0 } }
        None => 0,
    }
}

/// How many bytes a line feed at the front has: none where there is none.
fn feed_len(bytes: &[u8]) -> usize
    ensures none { result ≡ 0 → starts_with_line_feed (scalar_values bytes.now) ≡ false }
    ensures some { 0 < result → StartsWith bytes.now 10 result }
{
    match first_value(bytes) {
        Some((c, len)) => { if c == '\n' { len } else { 0 } }
        None => 0,
    }
}

/// The scalar value at the front, one U+FFFD for a maximal ill-formed part, and how many bytes it has.
fn first_value(bytes: &[u8]) -> Option<(char, usize)>
    ensures some { IfSome result (λ r. StartsWith bytes.now r.0 r.1) }
    ensures none { IfNone result (bytes.now ≡ []) }
{
    if bytes.is_empty() {
        return None;
    }
    let first = bytes[0];
    if first < 0x80 {
        return Some((char::from(first), 1));
    }
    let front = &bytes[..bytes.len().min(4)];
    Some(short_value(front))
}

/// The same of some bytes of which there are at most four.
fn short_value(bytes: &[u8]) -> (char, usize)
    requires some { 0 < length bytes.now }
    ensures starts { StartsShort bytes.now result.0 result.1 }
{
    match from_utf8_baseline(bytes) {
        Ok(text) => first_char(text),
        Err(error) => {
            let (valid, _) = bytes.split_at(error.valid_up_to());
            if valid.is_empty() {
                let len = error.error_len().unwrap_or(bytes.len());
                (char::REPLACEMENT_CHARACTER, len)
            } else {
                first_char(unsafe { std::str::from_utf8_unchecked(valid) })
            }
        }
    }
}

/// The first character of a text, and how many bytes it has.
fn first_char(text: &str) -> (char, usize)
    requires some { 0 < length text.now }
    ensures first { IsFirst text.now result.0 result.1 }
{
    match text.chars().next() {
        Some(c) => (c, c.len_utf8()),
        None => (char::REPLACEMENT_CHARACTER, text.len()),
    }
}
