//! Pieces of a text on their way to a writer: texts, numbers, and code points by their numbers. None takes memory.

ghost use Rattle.std.specs.Prelude.{◌≡◌, ◌⊎◌, true, decimal, OnOk, OnErr};
ghost use Rattle.std.specs.Io.KnownBytes.{Appends};
ghost use Rattle.html_device.specs.Device.{AppendsFront};
ghost use Rattle.html_device.specs.Codes.{code_text};
ghost use Rattle.html_device.specs.Pieces.{piece_bytes, pieces_bytes};
ghost use Rattle.html_device.specs.Putting.{Puts, held};

use crate::codes::{digits_of, left_out};
use crate::device::{DeviceFault, Sink};
use crate::output::Output;
use itoa::Buffer;

/// A piece of a text.
#[derive(Clone, Copy, Debug)]
pub enum Piece<'a> {
    /// A text as it stands.
    Text(&'a str),
    /// A number in decimal.
    Number(u128),
    /// The number of a code point in hexadecimal, in four digits or as many as it takes.
    Code(char),
}

impl Output {
    /// Puts pieces, one after another.
    ///
    /// # Errors
    ///
    /// The writer failed, or took no bytes. A front of all that was put was written then.
    pub fn put_pieces<W: Sink>(
        &mut self,
        writer: &mut W,
        pieces: &[Piece<'_>],
    ) -> Result<(), DeviceFault>
        ensures bytes { Puts (W.taken writer.old) (held self.old) (W.taken writer.new) (held self.new) result (pieces_bytes pieces.now) }
        ensures fault { OnErr result ((W.failed writer.new ≡ true) ⊎ (W.stalled writer.new ≡ true)) }
        ensures failing { OnOk result (W.failed writer.new ≡ true → W.failed writer.old ≡ true) }
        ensures stalling { OnOk result (W.stalled writer.new ≡ true → W.stalled writer.old ≡ true) }
    {
        'pieces: for piece in pieces {
            self.put_piece(writer, piece)?;
        }
        Ok(())
    }

    /// Puts a piece.
    fn put_piece<W: Sink>(&mut self, writer: &mut W, piece: &Piece<'_>) -> Result<(), DeviceFault>
        ensures bytes { Puts (W.taken writer.old) (held self.old) (W.taken writer.new) (held self.new) result (piece_bytes piece.now) }
        ensures fault { OnErr result ((W.failed writer.new ≡ true) ⊎ (W.stalled writer.new ≡ true)) }
        ensures failing { OnOk result (W.failed writer.new ≡ true → W.failed writer.old ≡ true) }
        ensures stalling { OnOk result (W.stalled writer.new ≡ true → W.stalled writer.old ≡ true) }
    {
        match piece {
            Piece::Text(text) => self.put(writer, text.as_bytes()),
            Piece::Number(number) => self.put_number(writer, *number),
            Piece::Code(c) => self.put_code(writer, *c),
        }
    }

    /// Puts a number in decimal.
    fn put_number<W: Sink>(&mut self, writer: &mut W, number: u128) -> Result<(), DeviceFault>
        ensures bytes { Puts (W.taken writer.old) (held self.old) (W.taken writer.new) (held self.new) result (decimal number) }
        ensures fault { OnErr result ((W.failed writer.new ≡ true) ⊎ (W.stalled writer.new ≡ true)) }
        ensures failing { OnOk result (W.failed writer.new ≡ true → W.failed writer.old ≡ true) }
        ensures stalling { OnOk result (W.stalled writer.new ≡ true → W.stalled writer.old ≡ true) }
    {
        let mut buffer = Buffer::new();
        self.put(writer, buffer.format(number).as_bytes())
    }

    /// Puts the number of a code point in hexadecimal.
    fn put_code<W: Sink>(&mut self, writer: &mut W, c: char) -> Result<(), DeviceFault>
        ensures bytes { Puts (W.taken writer.old) (held self.old) (W.taken writer.new) (held self.new) result (code_text c) }
        ensures fault { OnErr result ((W.failed writer.new ≡ true) ⊎ (W.stalled writer.new ≡ true)) }
        ensures failing { OnOk result (W.failed writer.new ≡ true → W.failed writer.old ≡ true) }
        ensures stalling { OnOk result (W.stalled writer.new ≡ true → W.stalled writer.old ≡ true) }
    {
        self.put(writer, &digits_of(c)[left_out(c)..])
    }
}

/// Writes pieces, one after another, to the last byte.
///
/// # Errors
///
/// The writer failed, or took no bytes. A front of the text was written then.
pub fn write_pieces<W: Sink>(writer: &mut W, pieces: &[Piece<'_>]) -> Result<(), DeviceFault>
    ensures ok { OnOk result (Appends (W.taken writer.old) (W.taken writer.new) (pieces_bytes pieces.now)) }
    ensures err { OnErr result (AppendsFront (W.taken writer.old) (W.taken writer.new) (pieces_bytes pieces.now)) }
    ensures fault { OnErr result ((W.failed writer.new ≡ true) ⊎ (W.stalled writer.new ≡ true)) }
    ensures failing { OnOk result (W.failed writer.new ≡ true → W.failed writer.old ≡ true) }
    ensures stalling { OnOk result (W.stalled writer.new ≡ true → W.stalled writer.old ≡ true) }
{
    let mut output = Output::new();
    output.put_pieces(writer, pieces)?;
    output.flush(writer)
}
