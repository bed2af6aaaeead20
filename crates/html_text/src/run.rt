// Runs of code points, added to a text at once.
ghost use Rattle.std.specs.Prelude.{◌≡◌, ◌+◌, ◌*◌, ◌<◌, ◌≤◌, [], ◌∷◌, ◌++◌, IfOk, OnErr, OnOk, if◌then◌else◌, is_ok, length, string_bytes, take, true};
ghost use Rattle.std.specs.Char.{IsScalar, encode_utf8};
ghost use Rattle.std.specs.Str.{IsAscii, IsUtf8, chars};

use std::alloc::AllocError;

/// How many code points are copied at once.
const BLOCK: usize = 64;

/// How many bytes they take at most.
const BYTES: usize = 4 * BLOCK;

/// Adds a run of code points at the end, or leaves the text as it was.
#[inline(always)]
pub(crate) fn extend(text: &mut String, run: &[char]) -> Result<(), AllocError>
    ensures ok { OnOk result (chars (string_bytes text.new) ≡ chars (string_bytes text.old) ++ run.now) }
    ensures err { OnErr result (string_bytes text.new ≡ string_bytes text.old) }
{
    let start = text.len();
    text.reserve(run.len())?;
    let mut done = 0;
    'copying: while done < run.len() {
        match push_front(text, &run[done..]) {
            Ok(len) => done += len,
            Err(error) => {
                text.truncate(start);
                return Err(error);
            }
        }
    }
    Ok(())
}

/// Adds a front of a run at the end, and answers its length.
fn push_front(text: &mut String, run: &[char]) -> Result<usize, AllocError>
    requires { 0 < length run.now }
    ensures some { IfOk result (λ n. 0 < n) }
    ensures within { IfOk result (λ n. n ≤ length run.now) }
    ensures ok { IfOk result (λ n. chars (string_bytes text.new) ≡ chars (string_bytes text.old) ++ take n run.now) }
    ensures longer { length (string_bytes text.old) ≤ length (string_bytes text.new) }
    ensures front { take (length (string_bytes text.old)) (string_bytes text.new) ≡ string_bytes text.old }
    ensures err { OnErr result (string_bytes text.new ≡ string_bytes text.old) }
{
    let most = run.len().min(BLOCK);
    let front = &run[..most];
    let mut block = [0; BLOCK];
    if (run[0] as u32) < 128 && narrow(front, &mut block, 0) {
        push_bytes(text, &block[..most])?;
        return Ok(most);
    }
    push_each(text, front)?;
    Ok(most)
}

/// Adds code points at the end, of which there are no more than are copied at once.
fn push_each(text: &mut String, front: &[char]) -> Result<(), AllocError>
    requires { length front.now ≤ 64 }
    ensures ok { OnOk result (chars (string_bytes text.new) ≡ chars (string_bytes text.old) ++ front.now) }
    ensures longer { length (string_bytes text.old) ≤ length (string_bytes text.new) }
    ensures front { take (length (string_bytes text.old)) (string_bytes text.new) ≡ string_bytes text.old }
    ensures err { OnErr result (string_bytes text.new ≡ string_bytes text.old) }
{
    let mut block = [0; BYTES];
    let len = encode(front, &mut block);
    push_bytes(text, &block[..len])?;
    Ok(())
}

/// Writes code points as UTF-8 to the start of a block, and answers how many bytes they are.
fn encode(front: &[char], block: &mut [u8]) -> usize
    requires room { 4 * length front.now ≤ length block.old }
    ensures within { result ≤ length block.new }
    ensures same_len { length block.new ≡ length block.old }
    ensures utf8 { IsUtf8 (take result block.new) }
    ensures read { chars (take result block.new) ≡ front.now }
{
    let mut at = 0;
    let mut rest = front;
    'encoding: while let Some(group) = rest.first_chunk() {
        at = encode_group(group, block, at);
        let (_, later) = rest.split_at(group.len());
        rest = later;
    }
    encode_each(rest, block, at)
}

/// Writes a group of code points, of a block that is not all ASCII, as UTF-8 to a place, and answers the place after them.
fn encode_group(group: &[char; 8], block: &mut [u8], at: usize) -> usize
    requires room { at + 4 * length group.now ≤ length block.old }
    requires utf8 { IsUtf8 (take at block.old) }
    ensures same_len { length block.new ≡ length block.old }
    ensures few { result ≤ at + 4 * length group.now }
    ensures utf8 { IsUtf8 (take result block.new) }
    ensures read { chars (take result block.new) ≡ chars (take at block.old) ++ group.now }
{
    // (a copy, which the block is surely no part of)
    let codes = *group;
    let run = codes.as_slice();
    if are_ascii(run) {
        copy(run, block, at);
        return at + run.len();
    }
    encode_each(group, block, at)
}

/// Whether all code points are ASCII.
fn are_ascii(run: &[char]) -> bool
    ensures yes { result ≡ true → IsAscii run.now }
    ensures no { IsAscii run.now → result ≡ true }
{
    let mut most = 0;
    for index in 0..run.len() {
        let code = run[index] as u32;
        most = code.max(most);
    }
    most < 128
}

/// Copies ASCII to a place.
fn copy(ascii: &[char], block: &mut [u8], at: usize)
    requires room { at + length ascii.now ≤ length block.old }
    requires ascii { IsAscii ascii.now }
    ensures same_len { length block.new ≡ length block.old }
    ensures copied { take (at + length ascii.now) block.new ≡ take at block.old ++ ascii.now }
{
    for index in 0..ascii.len() {
        block[at + index] = ascii[index] as u8;
    }
}

/// Writes code points as UTF-8 to a place, one by one, and answers the place after them.
fn encode_each(group: &[char], block: &mut [u8], at: usize) -> usize
    requires room { at + 4 * length group.now ≤ length block.old }
    requires utf8 { IsUtf8 (take at block.old) }
    ensures same_len { length block.new ≡ length block.old }
    ensures few { result ≤ at + 4 * length group.now }
    ensures utf8 { IsUtf8 (take result block.new) }
    ensures read { chars (take result block.new) ≡ chars (take at block.old) ++ group.now }
{
    let mut next = at;
    'encoding: for index in 0..group.len() {
        next = encode_one(group[index], block, next);
    }
    next
}

/// Writes a code point as UTF-8 to a place, and answers the place after it.
fn encode_one(c: char, block: &mut [u8], at: usize) -> usize
    requires room { at + 4 ≤ length block.old }
    ensures same_len { length block.new ≡ length block.old }
    ensures few { result ≤ at + 4 }
    ensures scalar { IsScalar c }
    ensures copied { take result block.new ≡ take at block.old ++ encode_utf8 c }
{
    let code = c as u32;
    if code < 0x80 {
        put(block, at, code)
    } else if code < 0x800 {
        let second = put(block, at, 0xC0 + code / 64);
        put(block, second, 0x80 + code % 64)
    } else if code < 0x10000 {
        let second = put(block, at, 0xE0 + code / 4096);
        let third = put(block, second, 0x80 + code / 64 % 64);
        put(block, third, 0x80 + code % 64)
    } else {
        let second = put(block, at, 0xF0 + code / 262_144);
        let third = put(block, second, 0x80 + code / 4096 % 64);
        let fourth = put(block, third, 0x80 + code / 64 % 64);
        put(block, fourth, 0x80 + code % 64)
    }
}

/// Writes a byte to a place, and answers the place after it.
fn put(block: &mut [u8], at: usize, byte: u32) -> usize
    requires room { at < length block.old }
    requires byte { byte < 256 }
    ensures same_len { length block.new ≡ length block.old }
    ensures next { result ≡ at + 1 }
    ensures copied { take (at + 1) block.new ≡ take at block.old ++ byte ∷ [] }
{
    block[at] = byte as u8;
    at + 1
}

/// Copies code points to a place, where all of them are ASCII: whether they are. Else what stands from there on is of no use. It goes through
/// all, so that many are copied at once.
pub(crate) fn narrow(run: &[char], block: &mut [u8], at: usize) -> bool
    requires room { at + length run.now ≤ length block.old }
    ensures same_len { length block.new ≡ length block.old }
    ensures ascii { result ≡ true → IsAscii run.now }
    ensures no { IsAscii run.now → result ≡ true }
    ensures copied { result ≡ true → take (at + length run.now) block.new ≡ take at block.old ++ run.now }
    ensures front { take at block.new ≡ take at block.old }
{
    let mut greatest = 0;
    for index in 0..run.len() {
        let code = run[index] as u32;
        greatest = code.max(greatest);
        block[at + index] = (code % 128) as u8;
    }
    greatest < 128
}

/// Adds bytes that are UTF-8 at the end.
fn push_bytes(text: &mut String, bytes: &[u8]) -> Result<(), AllocError>
    requires { IsUtf8 bytes.now }
    ensures ok { OnOk result (chars (string_bytes text.new) ≡ chars (string_bytes text.old) ++ chars bytes.now) }
    ensures bytes { string_bytes text.new ≡ (if is_ok result then string_bytes text.old ++ bytes.now else string_bytes text.old) }
{
    text.push_str(unsafe { std::str::from_utf8_unchecked(bytes) })
}

/// Adds a text at the end, or leaves what is there as it was.
pub(crate) fn append(text: &mut String, more: &str) -> Result<(), AllocError>
    ensures ok { OnOk result (chars (string_bytes text.new) ≡ chars (string_bytes text.old) ++ chars more.now) }
    ensures err { OnErr result (string_bytes text.new ≡ string_bytes text.old) }
{
    text.push_str(more)
}
