//! How many code points bytes are.
ghost use Rattle.std.specs.Prelude.{◌≡◌, ◌≤◌, ◌+◌, ◌↔◌, IsTrue, length};
ghost use Rattle.std.specs.Str.{chars};
ghost use Rattle.html_input.specs.Decode.{scalar_values, code_points};
ghost use Rattle.html_input.specs.Count.{BeginsWithMark};

/// How many code points the bytes decode to as a whole input, without a byte order mark at the front and before ends of
/// lines are normalised. It takes no memory.
pub fn count_code_points(bytes: &[u8]) -> usize
    ensures { result ≡ length (code_points bytes.now) }
{
    let count = count_scalar_values(bytes);
    if begins_with_mark(bytes) {
        count - 1
    } else {
        count
    }
}

/// Whether the first character is a byte order mark.
fn begins_with_mark(bytes: &[u8]) -> bool
    ensures { IsTrue result ↔ BeginsWithMark (scalar_values bytes.now) }
{
    match bytes.utf8_chunks().next() {
        Some(chunk) => is_marked(chunk.valid()),
        None => false,
    }
}

fn is_marked(text: &str) -> bool
    ensures { IsTrue result ↔ BeginsWithMark (chars text.now) }
{
    match text.chars().next() {
        Some(c) => c == '\u{FEFF}',
        None => false,
    }
}

/// How many scalar values the bytes are as UTF-8, each maximal ill-formed part being one.
fn count_scalar_values(bytes: &[u8]) -> usize
    ensures count { result ≡ length (scalar_values bytes.now) }
    ensures few { result ≤ length bytes.now }
{
    let mut count = 0;
    let mut chunks = bytes.utf8_chunks();
    'chunks: loop {
        let Some(chunk) = chunks.next() else {
            return count;
        };
        count += char_count(chunk.valid());
        if !chunk.invalid().is_empty() {
            count += 1;
        }
    }
}

fn char_count(text: &str) -> usize
    ensures count { result ≡ length (chars text.now) }
    ensures few { result ≤ length text.now }
{
    text.chars().count()
}
