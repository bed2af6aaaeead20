//! Texts and spaces on their way to a writer.

ghost use Rattle.std.specs.Prelude.{◌≡◌, ◌⊎◌, ◌++◌, ◌≤◌, true, OnErr, OnOk, replicate};
ghost use Rattle.html_device.specs.Putting.{Puts, held};

use crate::device::{DeviceFault, Sink};
use crate::output::Output;

/// How many spaces are put at once.
const CHUNK: usize = 256;

/// So many spaces.
const SPACES: [u8; CHUNK] = [b' '; CHUNK];

/// So many spaces, a chunk at most.
fn spaces(count: usize) -> &'static [u8]
    requires { count ≤ 256 }
    ensures { result.now ≡ replicate count 32 }
{
    &SPACES[..count]
}

impl Output {
    /// Puts a text between two others.
    pub fn put_between<W: Sink>(
        &mut self,
        writer: &mut W,
        before: &str,
        text: &str,
        after: &str,
    ) -> Result<(), DeviceFault>
        ensures bytes { Puts (W.taken writer.old) (held self.old) (W.taken writer.new) (held self.new) result (before.now ++ (text.now ++ after.now)) }
        ensures fault { OnErr result ((W.failed writer.new ≡ true) ⊎ (W.stalled writer.new ≡ true)) }
        ensures failing { OnOk result (W.failed writer.new ≡ true → W.failed writer.old ≡ true) }
        ensures stalling { OnOk result (W.stalled writer.new ≡ true → W.stalled writer.old ≡ true) }
    {
        self.put(writer, before.as_bytes())?;
        self.put(writer, text.as_bytes())?;
        self.put(writer, after.as_bytes())
    }

    /// Puts so many spaces.
    pub fn put_spaces<W: Sink>(&mut self, writer: &mut W, count: u128) -> Result<(), DeviceFault>
        ensures bytes { Puts (W.taken writer.old) (held self.old) (W.taken writer.new) (held self.new) result (replicate count 32) }
        ensures fault { OnErr result ((W.failed writer.new ≡ true) ⊎ (W.stalled writer.new ≡ true)) }
        ensures failing { OnOk result (W.failed writer.new ≡ true → W.failed writer.old ≡ true) }
        ensures stalling { OnOk result (W.stalled writer.new ≡ true → W.stalled writer.old ≡ true) }
    {
        let mut left = count;
        'spaces: while left > 0 {
            let now = left.min(CHUNK as u128);
            self.put(writer, spaces(now as usize))?;
            left -= now;
        }
        Ok(())
    }
}
