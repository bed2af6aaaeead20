//! The decoder: bytes in pieces to text.
ghost use Rattle.std.specs.Prelude.{◌≡◌, ℕ, ◌+◌, ◌*◌, ◌<◌, ◌≤◌, All, List, [], ◌∷◌, ◌++◌, chars, length, drop, min, false, true, OnOk, OnErr, IfOk, IfErr, Err, Bool, ◌↔◌, ◌≢◌, slice_index};
ghost use Rattle.html_input.specs.Added.{added};
ghost use Rattle.html_input.specs.Decode.{decode, code_points};
ghost use Rattle.html_input.specs.WellFormed.{BeginsWith};
ghost use Rattle.html_input.specs.declared.previous.Previous.TheVariants.{Other};

use crate::error::InputError;
use crate::normaliser::Normaliser;
use crate::plain::plain_len;
use crate::unsettled::Unsettled;
use crate::well_formed::char_at;
use simdutf8::from_utf8_baseline;

/// The greatest number of code points that is decoded, counted before ends of lines are normalised and without the mark.
pub const LIMIT: u64 = 268_435_456;

// UTF-8 is tested in blocks, which are short behind ill-formed bytes, so that no byte is read again many times.
const SHORTEST_BLOCK: usize = 32;

const LONGEST_BLOCK: usize = 4096;

// Behind a block that was read to its end the next one is longer, and behind ill-formed bytes it is short.
fn next_reach(reach: usize, block: usize, read: usize) -> usize
    ensures { 0 < result }
{
    if read < block {
        SHORTEST_BLOCK
    } else if reach < LONGEST_BLOCK / 2 {
        reach.max(SHORTEST_BLOCK) * 2
    } else {
        LONGEST_BLOCK
    }
}

/// The way from the bytes of a page, in any pieces, to its text: UTF-8 in which each maximal ill-formed part is one
/// U+FFFD, without a byte order mark at the start, and with a line feed for CR LF and for CR alone. Between calls it
/// holds at most three bytes.
#[derive(Drop)]
pub struct Decoder {
    pub(crate) unsettled: Unsettled,
    pub(crate) normaliser: Normaliser,
    pub(crate) is_stopped: bool,
}

impl Decoder {
    ghost use Rattle.html_input.specs.Unsettled.{bytes_of};
    ghost use Rattle.html_input.specs.Fed.{Fed, Decodes, IsStopped, pending_of, without_last};
    ghost use Rattle.html_input.specs.Settles.{Settles, Moves, IsTooLong};

    /// A decoder of at most `LIMIT` code points.
    pub fn new() -> Self
        ensures { Fed LIMIT false result [] [] }
    {
        Self::with_limit(LIMIT)
    }

    /// A decoder of at most `max` code points, and at most `LIMIT`.
    pub fn with_limit(max: u64) -> Self
        ensures { Fed (min max LIMIT) false result [] [] }
    {
        Decoder {
            unsettled: Unsettled::new(),
            normaliser: Normaliser::new(max.min(LIMIT)),
            is_stopped: false,
        }
    }

    /// How many code points the bytes fed have, those still unsettled aside: before ends of lines were normalised, and
    /// without the mark. After a refused call nothing is said of it.
    pub fn count(&self) -> u64
        ensures settled { (limit : ℕ) (finished : Bool) (bytes text : List ℕ) → Fed limit finished self.now bytes text
            → result ≡ length (code_points (without_last (pending_of self.now) bytes)) }
        ensures all { (limit : ℕ) (bytes text : List ℕ) → Fed limit true self.now bytes text → result ≡ length (code_points bytes) }
    {
        self.normaliser.count
    }

    /// How many code points were put out: the index of the next one in the text. After a refused call nothing is said of it.
    pub fn next_place(&self) -> u64
        ensures { (limit : ℕ) (finished : Bool) (bytes text : List ℕ) → Fed limit finished self.now bytes text
            → result ≡ length text }
    {
        self.normaliser.put_out
    }

    /// How many of the bytes fed are unsettled, since they begin a character and do not end it: at most three.
    pub fn pending(&self) -> u32
        ensures is { result ≡ pending_of self.now }
        ensures few { result ≤ 3 }

        // What may be said of the decoder at any time.
        ensures decodes { (limit : ℕ) (finished : Bool) (bytes text : List ℕ) → Fed limit finished self.now bytes text
            → Decodes limit (pending_of self.now) bytes text }
    {
        self.unsettled.len() as u32
    }

    /// Decodes a piece of the input, and puts its text behind `out`.
    ///
    /// A refused call leaves `out` as it was, and every later call answers `Stopped`. `InputTooLong`: with this piece the
    /// code points are more than the limit.
    pub fn feed(&mut self, piece: &[u8], out: &mut Vec<char>) -> Result<(), InputError>
        ensures kept { out.new.items ≡ out.old.items ++ added out.old.items out.new.items }
        ensures fed { OnOk result ((limit : ℕ) (bytes text : List ℕ) → Fed limit false self.old bytes text
            → Fed limit false self.new (bytes ++ piece.now) (text ++ added out.old.items out.new.items)) }
        ensures decoded { OnOk result ((limit : ℕ) (bytes text : List ℕ) → Fed limit false self.old bytes text
            → Decodes limit (pending_of self.new) (bytes ++ piece.now) (text ++ added out.old.items out.new.items)) }
        ensures bounded { OnOk result ((limit : ℕ) (bytes text : List ℕ) → Fed limit false self.old bytes text
            → length (bytes ++ piece.now) ≤ 4 * limit + 7) }

        // However the bytes go on, they are too long.
        ensures too_long { IfErr result (λ e. (e ≡ InputError.InputTooLong) → (limit : ℕ) (bytes text : List ℕ)
            → Fed limit false self.old bytes text → (more : List ℕ) → limit < length (code_points (bytes ++ piece.now ++ more))) }
        ensures refused { OnErr result ((out.new.items ≡ out.old.items) × IsStopped self.new) }
        ensures stopped { (result ≡ Err InputError.Stopped) ↔ IsStopped self.old }
        ensures running { (limit : ℕ) (bytes text : List ℕ) → Fed limit false self.old bytes text → result ≢ Err InputError.Stopped }
    {
        if self.is_stopped {
            return Err(InputError::Stopped);
        }
        let start = out.len();
        let outcome = self.decode(piece, out);
        if outcome.is_err() {
            out.truncate(start);
            self.is_stopped = true;
        }
        outcome
    }

    /// Takes a text of so many code points as the next piece, where it is its own text and the limit has room for it: whether it was taken. It is not
    /// taken where unsettled bytes or a carriage return stand before it, at the start of the input, and after a refusal.
    pub fn take_text(&mut self, text: &str, count: usize) -> bool
        requires free { All (λ c. c ≢ 13) (chars text.now) }
        requires counted { count ≡ length (chars text.now) }
        ensures taken { result ≡ true → (limit : ℕ) (bytes before : List ℕ) → Fed limit false self.old bytes before
            → Fed limit false self.new (bytes ++ text.now) (before ++ chars text.now) }
        ensures left { result ≡ false → self.new ≡ self.old }
    {
        if self.is_stopped || !self.unsettled.is_empty() || !self.normaliser.is_inside() {
            return false;
        }
        self.normaliser.add_text(count as u64)
    }

    /// Ends the input: bytes that are still unsettled are one U+FFFD, which may be one code point too many. Every later
    /// call answers `Stopped`.
    pub fn finish(&mut self, out: &mut Vec<char>) -> Result<(), InputError>
        ensures kept { out.new.items ≡ out.old.items ++ added out.old.items out.new.items }
        ensures fed { OnOk result ((limit : ℕ) (bytes text : List ℕ) → Fed limit false self.old bytes text
            → Fed limit true self.new bytes (text ++ added out.old.items out.new.items)) }
        ensures decoded { OnOk result ((limit : ℕ) (bytes text : List ℕ) → Fed limit false self.old bytes text
            → (text ++ added out.old.items out.new.items ≡ decode bytes) × (length (code_points bytes) ≤ limit)) }
        ensures settled { OnOk result (pending_of self.new ≡ 0) }
        ensures too_long { IfErr result (λ e. (e ≡ InputError.InputTooLong) → (limit : ℕ) (bytes text : List ℕ)
            → Fed limit false self.old bytes text → limit < length (code_points bytes)) }
        ensures refused { OnErr result (out.new.items ≡ out.old.items) }
        ensures after { IsStopped self.new }
        ensures stopped { (result ≡ Err InputError.Stopped) ↔ IsStopped self.old }
        ensures running { (limit : ℕ) (bytes text : List ℕ) → Fed limit false self.old bytes text → result ≢ Err InputError.Stopped }
    {
        if self.is_stopped {
            return Err(InputError::Stopped);
        }
        self.is_stopped = true;
        if self.unsettled.is_empty() {
            return Ok(());
        }
        self.unsettled = Unsettled::new();
        self.normaliser.read(char::REPLACEMENT_CHARACTER, out)
    }

    /// Decodes a front of bytes that begin with ASCII, behind no unsettled ones: how many were read.
    fn decode_ascii(&mut self, bytes: &[u8], out: &mut Vec<char>) -> Result<usize, InputError>
        requires { (bytes_of self.old.unsettled ≡ []) × (0 < length bytes.now) × (slice_index bytes.now 0 < 128) }
        ensures kept { out.new.items ≡ out.old.items ++ added out.old.items out.new.items }
        ensures limit { self.new.normaliser.limit ≡ self.old.normaliser.limit }
        ensures running { self.new.is_stopped ≡ self.old.is_stopped }
        ensures count { IfOk result (λ k. (0 < k) × (k ≤ length bytes.now)) }
        ensures moves { IfOk result (λ k. Moves self.old.normaliser self.new.normaliser bytes.now
            (bytes_of self.new.unsettled ++ drop k bytes.now) (added out.old.items out.new.items)) }
        ensures err { IfErr result (λ e. (e ≡ InputError.InputTooLong) → IsTooLong self.old.normaliser bytes.now) }
        ensures cause { IfErr result (λ e. e ≢ InputError.Stopped) }
    {
        let len = plain_len(bytes);
        if len == 0 || self.normaliser.is_after_return() {
            self.normaliser.read(char::from(bytes[0]), out)?;
            return Ok(1);
        }
        self.normaliser.read_plain(&bytes[..len], out)?;
        Ok(len)
    }

    /// Decodes bytes behind no unsettled ones, as far as a block reaches: how many were read.
    fn decode_block(
        &mut self,
        bytes: &[u8],
        reach: usize,
        out: &mut Vec<char>,
    ) -> Result<usize, InputError>
        requires { (bytes_of self.old.unsettled ≡ []) × (0 < length bytes.now) × (0 < reach) }
        ensures kept { out.new.items ≡ out.old.items ++ added out.old.items out.new.items }
        ensures limit { self.new.normaliser.limit ≡ self.old.normaliser.limit }
        ensures running { self.new.is_stopped ≡ self.old.is_stopped }
        ensures count { IfOk result (λ k. (0 < k) × (k ≤ length bytes.now)) }
        ensures moves { IfOk result (λ k. Moves self.old.normaliser self.new.normaliser bytes.now
            (bytes_of self.new.unsettled ++ drop k bytes.now) (added out.old.items out.new.items)) }
        ensures err { IfErr result (λ e. (e ≡ InputError.InputTooLong) → IsTooLong self.old.normaliser bytes.now) }
        ensures cause { IfErr result (λ e. e ≢ InputError.Stopped) }
    {
        let block = &bytes[..bytes.len().min(reach)];
        match from_utf8_baseline(block) {
            Ok(text) => {
                self.normaliser.read_all(text, out)?;
                Ok(block.len())
            }
            Err(e) => {
                let (valid, rest) = block.split_at(e.valid_up_to());
                let text = unsafe { std::str::from_utf8_unchecked(valid) };
                self.normaliser.read_all(text, out)?;
                match e.error_len() {
                    Some(len) => {
                        self.normaliser.read(char::REPLACEMENT_CHARACTER, out)?;
                        Ok(valid.len() + len)
                    }
                    None => {
                        self.unsettled = Unsettled::from_slice(rest);
                        Ok(block.len())
                    }
                }
            }
        }
    }

    /// Decodes the characters at the front, behind no unsettled ones, of which the first is known, up to a carriage return, a run of ASCII or ill-formed
    /// bytes: how many bytes were read.
    fn decode_well_formed(
        &mut self,
        bytes: &[u8],
        first: (char, usize),
        out: &mut Vec<char>,
    ) -> Result<usize, InputError>
        requires settled { bytes_of self.old.unsettled ≡ [] }
        requires inside { self.old.normaliser.previous ≡ Other }
        requires begins { BeginsWith bytes.now first.0 first.1 }
        ensures kept { out.new.items ≡ out.old.items ++ added out.old.items out.new.items }
        ensures limit { self.new.normaliser.limit ≡ self.old.normaliser.limit }
        ensures running { self.new.is_stopped ≡ self.old.is_stopped }
        ensures count { IfOk result (λ k. (0 < k) × (k ≤ length bytes.now)) }
        ensures moves { IfOk result (λ k. Moves self.old.normaliser self.new.normaliser bytes.now
            (bytes_of self.new.unsettled ++ drop k bytes.now) (added out.old.items out.new.items)) }
        ensures err { IfErr result (λ e. (e ≡ InputError.InputTooLong) → IsTooLong self.old.normaliser bytes.now) }
        ensures cause { IfErr result (λ e. e ≢ InputError.Stopped) }
    {
        let read = self.normaliser.read_well_formed(bytes, first, out)?;
        Ok(read)
    }

    /// Decodes a front of the bytes, behind no unsettled ones: how many were read, and how far the next block reaches.
    fn decode_front(
        &mut self,
        bytes: &[u8],
        reach: usize,
        out: &mut Vec<char>,
    ) -> Result<(usize, usize), InputError>
        requires { (bytes_of self.old.unsettled ≡ []) × (0 < length bytes.now) × (0 < reach) }
        ensures kept { out.new.items ≡ out.old.items ++ added out.old.items out.new.items }
        ensures limit { self.new.normaliser.limit ≡ self.old.normaliser.limit }
        ensures running { self.new.is_stopped ≡ self.old.is_stopped }
        ensures count { IfOk result (λ r. (0 < r.0) × (r.0 ≤ length bytes.now)) }
        ensures reaches { IfOk result (λ r. 0 < r.1) }
        ensures moves { IfOk result (λ r. Moves self.old.normaliser self.new.normaliser bytes.now
            (bytes_of self.new.unsettled ++ drop r.0 bytes.now) (added out.old.items out.new.items)) }
        ensures err { IfErr result (λ e. (e ≡ InputError.InputTooLong) → IsTooLong self.old.normaliser bytes.now) }
        ensures cause { IfErr result (λ e. e ≢ InputError.Stopped) }
    {
        // Where bytes were ill-formed, more are likely to be, so that what is well-formed is not worth a search.
        if reach > SHORTEST_BLOCK {
            if bytes[0].is_ascii() {
                let read = self.decode_ascii(bytes, out)?;
                return Ok((read, reach));
            }
            if self.normaliser.is_inside() {
                if let Some(first) = char_at(bytes, 0) {
                    let read = self.decode_well_formed(bytes, first, out)?;
                    return Ok((read, reach));
                }
            }
        }
        let block = bytes.len().min(reach);
        let read = self.decode_block(bytes, reach, out)?;
        Ok((read, next_reach(reach, block, read)))
    }

    /// Reads a byte behind unsettled ones: 1, or 0 where it is left to be read again.
    fn settle(&mut self, bytes: &[u8], out: &mut Vec<char>) -> Result<usize, InputError>
        requires { (0 < length (bytes_of self.old.unsettled)) × (0 < length bytes.now) }
        ensures kept { out.new.items ≡ out.old.items ++ added out.old.items out.new.items }
        ensures limit { self.new.normaliser.limit ≡ self.old.normaliser.limit }
        ensures running { self.new.is_stopped ≡ self.old.is_stopped }
        ensures count { IfOk result (λ k. (k ≤ 1) × (k ≡ 0 → bytes_of self.new.unsettled ≡ [])) }
        ensures moves { IfOk result (λ k. Moves self.old.normaliser self.new.normaliser (bytes_of self.old.unsettled ++ bytes.now)
            (bytes_of self.new.unsettled ++ drop k bytes.now) (added out.old.items out.new.items)) }
        ensures err { IfErr result (λ e. (e ≡ InputError.InputTooLong) → IsTooLong self.old.normaliser (bytes_of self.old.unsettled ++ bytes.now)) }
        ensures cause { IfErr result (λ e. e ≢ InputError.Stopped) }
    {
        let unsettled = self.unsettled;
        let mut buffer = [0; 4];
        let len = unsettled.copy_with(bytes[0], &mut buffer);
        let longer = &buffer[..len];
        match from_utf8_baseline(longer) {
            Ok(text) => {
                self.normaliser.read_all(text, out)?;
                self.unsettled = Unsettled::new();
                Ok(1)
            }
            Err(e) => match e.error_len() {
                Some(_) => {
                    self.normaliser.read(char::REPLACEMENT_CHARACTER, out)?;
                    self.unsettled = Unsettled::new();
                    Ok(0)
                }
                None => {
                    self.unsettled = Unsettled::from_slice(longer);
                    Ok(1)
                }
            },
        }
    }

    /// Decodes the bytes behind the unsettled ones.
    fn decode(&mut self, bytes: &[u8], out: &mut Vec<char>) -> Result<(), InputError>
        ensures kept { out.new.items ≡ out.old.items ++ added out.old.items out.new.items }
        ensures limit { self.new.normaliser.limit ≡ self.old.normaliser.limit }
        ensures running { self.new.is_stopped ≡ self.old.is_stopped }
        ensures moves { OnOk result (Moves self.old.normaliser self.new.normaliser (bytes_of self.old.unsettled ++ bytes.now)
            (bytes_of self.new.unsettled) (added out.old.items out.new.items)) }
        ensures err { IfErr result (λ e. (e ≡ InputError.InputTooLong)
            → IsTooLong self.old.normaliser (bytes_of self.old.unsettled ++ bytes.now)) }
        ensures cause { IfErr result (λ e. e ≢ InputError.Stopped) }
    {
        let room = (self.normaliser.limit - self.normaliser.count) as usize;
        let needed = bytes.len().min(room).saturating_add(1);
        out.reserve(needed).map_err(|_| InputError::OutOfMemory)?;
        let mut at = 0;
        let mut reach = LONGEST_BLOCK;
        while at < bytes.len() {
            let rest = &bytes[at..];
            at += if self.unsettled.is_empty() {
                let (read, next) = self.decode_front(rest, reach, out)?;
                reach = next;
                read
            } else {
                self.settle(rest, out)?
            };
        }
        Ok(())
    }
}
