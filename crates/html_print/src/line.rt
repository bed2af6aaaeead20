//! One line.

ghost use Rattle.std.specs.Prelude.{◌≡◌, ◌⊎◌, ◌<◌, ◌^◌, true, OnErr, OnOk};
ghost use Rattle.std.specs.List.{flat_map};
ghost use Rattle.html_device.specs.Putting.{Puts, held};
ghost use Rattle.html_print.specs.Lines.{line};

use html_device::{DeviceFault, Output, Sink};

/// Puts a line at so many levels: some texts, one after another.
pub(crate) fn put_line<W: Sink>(
    output: &mut Output,
    writer: &mut W,
    depth: u128,
    texts: &[&str],
) -> Result<(), DeviceFault>
    requires low { depth < 2 ^ 100 }
    ensures bytes { Puts (W.taken writer.old) (held output.old) (W.taken writer.new) (held output.new) result (line depth (flat_map (λ s. s.now) texts.now)) }
    ensures fault { OnErr result ((W.failed writer.new ≡ true) ⊎ (W.stalled writer.new ≡ true)) }
    ensures failing { OnOk result (W.failed writer.new ≡ true → W.failed writer.old ≡ true) }
    ensures stalling { OnOk result (W.stalled writer.new ≡ true → W.stalled writer.old ≡ true) }
{
    output.put(writer, b"| ")?;
    output.put_spaces(writer, 2 * depth)?;
    put_texts(output, writer, texts)?;
    output.put(writer, b"\n")
}

/// Puts texts, one after another.
fn put_texts<W: Sink>(
    output: &mut Output,
    writer: &mut W,
    texts: &[&str],
) -> Result<(), DeviceFault>
    ensures bytes { Puts (W.taken writer.old) (held output.old) (W.taken writer.new) (held output.new) result (flat_map (λ s. s.now) texts.now) }
    ensures fault { OnErr result ((W.failed writer.new ≡ true) ⊎ (W.stalled writer.new ≡ true)) }
    ensures failing { OnOk result (W.failed writer.new ≡ true → W.failed writer.old ≡ true) }
    ensures stalling { OnOk result (W.stalled writer.new ≡ true → W.stalled writer.old ≡ true) }
{
    'texts: for text in texts {
        output.put(writer, text.as_bytes())?;
    }
    Ok(())
}
