//! Bytes on their way to a writer.

ghost use Rattle.std.specs.Prelude.{◌≡◌, ◌⊎◌, ◌++◌, ◌+◌, ◌≤◌, [], true, OnOk, OnErr, length};
ghost use Rattle.std.specs.Io.KnownBytes.{Appends};
ghost use Rattle.html_device.specs.Device.{AppendsFront};

use crate::device::{DeviceFault, Sink};
use crate::loops::write_all;

/// How many bytes are kept at most before they are written.
const BUFFER_SIZE: usize = 4096;

/// The bytes that were put and are not written yet.
#[derive(Drop)]
pub struct Output {
    pub(crate) bytes: [u8; BUFFER_SIZE],
    pub(crate) len: usize,
    ghost len_in_range: { len ≤ 4096 },
}

impl Output {
    ghost use Rattle.html_device.specs.Putting.{Puts, held};

    /// Nothing is kept yet.
    pub fn new() -> Output
        ensures { held result ≡ [] }
    {
        Output {
            bytes: [0; BUFFER_SIZE],
            len: 0,
        }
    }

    /// Keeps some bytes, for which there is room.
    fn keep(&mut self, bytes: &[u8])
        requires { length (held self.old) + length bytes.now ≤ 4096 }
        ensures { held self.new ≡ held self.old ++ bytes.now }
    {
        let end = self.len + bytes.len();
        self.bytes[self.len..end].copy_from_slice(bytes);
        self.len = end;
    }

    /// Writes the bytes that are kept.
    ///
    /// # Errors
    ///
    /// The writer failed, or took no bytes. A front of the bytes was written then.
    pub fn flush<W: Sink>(&mut self, writer: &mut W) -> Result<(), DeviceFault>
        ensures ok { OnOk result (Appends (W.taken writer.old) (W.taken writer.new) (held self.old)) }
        ensures empty { OnOk result (held self.new ≡ []) }
        ensures err { OnErr result (AppendsFront (W.taken writer.old) (W.taken writer.new) (held self.old)) }
        ensures fault { OnErr result ((W.failed writer.new ≡ true) ⊎ (W.stalled writer.new ≡ true)) }
        ensures failing { OnOk result (W.failed writer.new ≡ true → W.failed writer.old ≡ true) }
        ensures stalling { OnOk result (W.stalled writer.new ≡ true → W.stalled writer.old ≡ true) }
    {
        write_all(writer, &self.bytes[..self.len])?;
        self.len = 0;
        Ok(())
    }

    /// Puts some bytes. Those that are kept are written where these have no room, and these at once where they would
    /// fill the buffer alone.
    ///
    /// # Errors
    ///
    /// The writer failed, or took no bytes. A front of all that was put was written then.
    pub fn put<W: Sink>(&mut self, writer: &mut W, bytes: &[u8]) -> Result<(), DeviceFault>
        ensures bytes { Puts (W.taken writer.old) (held self.old) (W.taken writer.new) (held self.new) result bytes.now }
        ensures fault { OnErr result ((W.failed writer.new ≡ true) ⊎ (W.stalled writer.new ≡ true)) }
        ensures failing { OnOk result (W.failed writer.new ≡ true → W.failed writer.old ≡ true) }
        ensures stalling { OnOk result (W.stalled writer.new ≡ true → W.stalled writer.old ≡ true) }
    {
        if bytes.len() <= BUFFER_SIZE - self.len {
            self.keep(bytes);
            return Ok(());
        }
        self.flush(writer)?;
        if bytes.len() < BUFFER_SIZE {
            self.keep(bytes);
            return Ok(());
        }
        write_all(writer, bytes)
    }
}
