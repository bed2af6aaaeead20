//! The parse errors of a page.

ghost use Rattle.std.specs.Prelude.{◌≡◌, ◌⊎◌, true, OnErr, OnOk};
ghost use Rattle.std.specs.Io.KnownBytes.{Appends};
ghost use Rattle.html_device.specs.Device.{AppendsFront};
ghost use Rattle.html_device.specs.Putting.{Puts, held};
ghost use Rattle.html_print.specs.Errors.{error_line, error_lines, line_at, located_line, located_lines};

use crate::fault_names::page_fault_name;
use html_device::{DeviceFault, Output, Piece, Sink};
use html_input::{Lines, Position};
use html_parser::PageFault;

/// Writes errors in their order, a line each, to the last byte: the place and the name.
///
/// # Errors
///
/// The writer failed, or took no bytes. A front of the lines was written then.
pub fn write_errors<W: Sink>(errors: &[PageFault], writer: &mut W) -> Result<(), DeviceFault>
    ensures ok { OnOk result (Appends (W.taken writer.old) (W.taken writer.new) (error_lines errors.now)) }
    ensures err { OnErr result (AppendsFront (W.taken writer.old) (W.taken writer.new) (error_lines errors.now)) }
    ensures fault { OnErr result ((W.failed writer.new ≡ true) ⊎ (W.stalled writer.new ≡ true)) }
    ensures failing { OnOk result (W.failed writer.new ≡ true → W.failed writer.old ≡ true) }
    ensures stalling { OnOk result (W.stalled writer.new ≡ true → W.stalled writer.old ≡ true) }
{
    let mut output = Output::new();
    put_errors(&mut output, writer, errors)?;
    output.flush(writer)
}

/// Writes errors in their order, a line each, to the last byte: line and column of the place in the input, whose bytes these are, both from 1, the
/// column in code points, and the name.
///
/// # Errors
///
/// The writer failed, or took no bytes. A front of the lines was written then.
pub fn write_located_errors<W: Sink>(
    errors: &[PageFault],
    bytes: &[u8],
    writer: &mut W,
) -> Result<(), DeviceFault>
    ensures ok { OnOk result (Appends (W.taken writer.old) (W.taken writer.new) (located_lines bytes.now errors.now)) }
    ensures err { OnErr result (AppendsFront (W.taken writer.old) (W.taken writer.new) (located_lines bytes.now errors.now)) }
    ensures fault { OnErr result ((W.failed writer.new ≡ true) ⊎ (W.stalled writer.new ≡ true)) }
    ensures failing { OnOk result (W.failed writer.new ≡ true → W.failed writer.old ≡ true) }
    ensures stalling { OnOk result (W.stalled writer.new ≡ true → W.stalled writer.old ≡ true) }
{
    let mut output = Output::new();
    put_located(&mut output, writer, errors, bytes)?;
    output.flush(writer)
}

/// Puts the lines of errors.
fn put_errors<W: Sink>(
    output: &mut Output,
    writer: &mut W,
    errors: &[PageFault],
) -> Result<(), DeviceFault>
    ensures bytes { Puts (W.taken writer.old) (held output.old) (W.taken writer.new) (held output.new) result (error_lines errors.now) }
    ensures fault { OnErr result ((W.failed writer.new ≡ true) ⊎ (W.stalled writer.new ≡ true)) }
    ensures failing { OnOk result (W.failed writer.new ≡ true → W.failed writer.old ≡ true) }
    ensures stalling { OnOk result (W.stalled writer.new ≡ true → W.stalled writer.old ≡ true) }
{
    'errors: for error in errors {
        put_error(output, writer, *error)?;
    }
    Ok(())
}

/// Puts the lines of errors, with lines and columns.
fn put_located<W: Sink>(
    output: &mut Output,
    writer: &mut W,
    errors: &[PageFault],
    bytes: &[u8],
) -> Result<(), DeviceFault>
    ensures bytes { Puts (W.taken writer.old) (held output.old) (W.taken writer.new) (held output.new) result (located_lines bytes.now errors.now) }
    ensures fault { OnErr result ((W.failed writer.new ≡ true) ⊎ (W.stalled writer.new ≡ true)) }
    ensures failing { OnOk result (W.failed writer.new ≡ true → W.failed writer.old ≡ true) }
    ensures stalling { OnOk result (W.stalled writer.new ≡ true → W.stalled writer.old ≡ true) }
{
    let mut lines = Lines::of(bytes);
    'errors: for error in errors {
        put_next(output, writer, *error, &mut lines)?;
    }
    Ok(())
}

/// Puts the line of the next error.
fn put_next<W: Sink>(
    output: &mut Output,
    writer: &mut W,
    error: PageFault,
    lines: &mut Lines<'_>,
) -> Result<(), DeviceFault>
    ensures bytes { Puts (W.taken writer.old) (held output.old) (W.taken writer.new) (held output.new) result (located_line lines.old.bytes.now error) }
    ensures input { lines.new.bytes.now ≡ lines.old.bytes.now }
    ensures fault { OnErr result ((W.failed writer.new ≡ true) ⊎ (W.stalled writer.new ≡ true)) }
    ensures failing { OnOk result (W.failed writer.new ≡ true → W.failed writer.old ≡ true) }
    ensures stalling { OnOk result (W.stalled writer.new ≡ true → W.stalled writer.old ≡ true) }
{
    let position = lines.at(error.place);
    put_at(output, writer, error, position)
}

/// Puts the line of an error whose place stands there.
fn put_at<W: Sink>(
    output: &mut Output,
    writer: &mut W,
    error: PageFault,
    position: Position,
) -> Result<(), DeviceFault>
    ensures bytes { Puts (W.taken writer.old) (held output.old) (W.taken writer.new) (held output.new) result (line_at position.line position.column error) }
    ensures fault { OnErr result ((W.failed writer.new ≡ true) ⊎ (W.stalled writer.new ≡ true)) }
    ensures failing { OnOk result (W.failed writer.new ≡ true → W.failed writer.old ≡ true) }
    ensures stalling { OnOk result (W.stalled writer.new ≡ true → W.stalled writer.old ≡ true) }
{
    let name = page_fault_name(error.name);
    output.put_pieces(
        writer,
        &[
            Piece::Number(position.line as u128),
            Piece::Text(":"),
            Piece::Number(position.column as u128),
            Piece::Text(": "),
            Piece::Text(name),
            Piece::Text("\n"),
        ],
    )
}

/// Puts the line of an error.
fn put_error<W: Sink>(
    output: &mut Output,
    writer: &mut W,
    error: PageFault,
) -> Result<(), DeviceFault>
    ensures bytes { Puts (W.taken writer.old) (held output.old) (W.taken writer.new) (held output.new) result (error_line error) }
    ensures fault { OnErr result ((W.failed writer.new ≡ true) ⊎ (W.stalled writer.new ≡ true)) }
    ensures failing { OnOk result (W.failed writer.new ≡ true → W.failed writer.old ≡ true) }
    ensures stalling { OnOk result (W.stalled writer.new ≡ true → W.stalled writer.old ≡ true) }
{
    let name = page_fault_name(error.name);
    output.put_pieces(
        writer,
        &[
            Piece::Number(error.place as u128),
            Piece::Text(" "),
            Piece::Text(name),
            Piece::Text("\n"),
        ],
    )
}
