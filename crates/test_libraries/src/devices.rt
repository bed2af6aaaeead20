// Readers and writers that fail, and those of std. One function owns a device, and no test does.

use crate::same::same;
use html_device::{
    DeviceFault, FailAt, FeedAllError, OverRead, OverWrite, Pieces, ReadAllError, Source, feed_all,
    read_all, write_all,
};
use std::alloc::{AllocError, Global};

const TEXT: &[u8] = b"<p>One<p>Two";

/// A device that has these bytes to read, and fails after so many calls of so many bytes.
pub(crate) fn device(
    alloc: Global,
    bytes: &[u8],
    calls: u64,
    piece: usize,
) -> Result<FailAt, AllocError> {
    Ok(FailAt::new(alloc, bytes.to_vec(alloc)?, calls, piece))
}

/// Whether the text is all that a reader has, or why that cannot be had.
fn is_text<S: Source>(alloc: Global, source: &mut S) -> Result<bool, ReadAllError> {
    let read = read_all(alloc, source)?;
    Ok(read.as_slice() == TEXT)
}

/// That of a device, at two calls.
fn reads_text(
    alloc: Global,
    calls: u64,
    piece: usize,
) -> Result<[Result<bool, ReadAllError>; 2], AllocError> {
    let mut source = device(alloc, TEXT, calls, piece)?;
    Ok([is_text(alloc, &mut source), is_text(alloc, &mut source)])
}

#[test]
fn reads_to_the_end(rt: HostRuntime) {
    let alloc = rt.alloc();
    for piece in [0, 1, 5, 100] {
        let once = [Ok(true), Ok(false)];
        same(&rt, reads_text(alloc, 100, piece), Ok(once));
    }
    same(&rt, is_text(alloc, &mut OverRead::new(TEXT)), Ok(true));
}

#[test]
fn tells_a_reader_that_failed(rt: HostRuntime) {
    let failed = [Err(ReadAllError::Read), Err(ReadAllError::Read)];
    same(&rt, reads_text(rt.alloc(), 2, 5), Ok(failed));
}

/// What came of writing the text twice: what each answered, and whether what was taken after the first was as expected.
type Written = (Result<(), DeviceFault>, bool, Result<(), DeviceFault>);

/// Writes the text to a device twice, of which it is expected to take `front` at first.
fn written(alloc: Global, calls: u64, piece: usize, front: &[u8]) -> Result<Written, AllocError> {
    let mut sink = device(alloc, &[], calls, piece)?;
    let first = write_all(&mut sink, TEXT);
    let is_front = sink.taken() == front;
    Ok((first, is_front, write_all(&mut sink, TEXT)))
}

/// What is answered where the text is written to memory, and whether it was taken.
fn written_to_memory(alloc: Global) -> (Result<(), DeviceFault>, bool) {
    let mut sink = OverWrite::new(Vec::new(alloc));
    let written = write_all(&mut sink, TEXT);
    let taken = sink.into_inner();
    (written, taken.as_slice() == TEXT)
}

#[test]
fn writes_all(rt: HostRuntime) {
    let alloc = rt.alloc();
    for piece in [1, 5, 100] {
        let all = (Ok(()), true, Ok(()));
        same(&rt, written(alloc, 100, piece, TEXT), Ok(all));
    }
    same(&rt, written_to_memory(alloc), (Ok(()), true));
}

#[test]
fn tells_a_writer_that_failed(rt: HostRuntime) {
    let alloc = rt.alloc();

    // The second takes no bytes.
    let found = [
        written(alloc, 2, 5, b"<p>One<p>T"),
        written(alloc, 100, 0, b""),
    ];
    let failed = (Err(DeviceFault), true, Err(DeviceFault));
    same(&rt, found, [Ok(failed), Ok(failed)]);
}

/// What takes bytes up to a limit.
#[derive(Drop)]
struct Collected {
    bytes: Vec<u8>,
    limit: usize,
}

/// There are more bytes than the limit, or no memory for them.
#[derive(Clone, Copy, Debug, PartialEq, Eq, Drop)]
struct TooMany;

impl Pieces for Collected {
    ghost use Rattle.std.specs.Prelude.{⊤, ◌≡◌};

    type Refusal = TooMany;

    ghost Start = { Unit {0} };

    ghost Fed = { λ _ c bytes. c.bytes.items ≡ bytes };

    ghost Refuses = { λ _ _ _. ⊤ };

    fn feed(&mut self, piece: &[u8]) -> Result<(), TooMany> {
        let len = self.bytes.as_slice().len().saturating_add(piece.len());
        if self.limit.min(1024) < len || self.bytes.extend_from_slice(piece).is_err() {
            return Err(TooMany);
        }
        Ok(())
    }
}

/// What comes of feeding the text.
#[derive(Clone, Copy, Debug, PartialEq)]
enum Feeding {
    /// All was fed, and it was the text, or not.
    All { is_text: bool },
    /// The reader failed.
    Failed,
    /// A piece was refused.
    Refused(TooMany),
}

/// Feeds the text from a device that fails after so many calls.
fn fed(alloc: Global, calls: u64, limit: usize) -> Result<Feeding, AllocError> {
    let mut source = device(alloc, TEXT, calls, 5)?;
    let mut collected = Collected {
        bytes: Vec::new(alloc),
        limit,
    };
    Ok(match feed_all(&mut source, &mut collected) {
        Ok(()) => Feeding::All {
            is_text: collected.bytes.as_slice() == TEXT,
        },
        Err(FeedAllError::Read) => Feeding::Failed,
        Err(FeedAllError::Refused(cause)) => Feeding::Refused(cause),
    })
}

#[test]
fn feeds_pieces(rt: HostRuntime) {
    let alloc = rt.alloc();
    let found = [fed(alloc, 100, 12), fed(alloc, 100, 11), fed(alloc, 2, 12)];
    let expected = [
        Ok(Feeding::All { is_text: true }),
        Ok(Feeding::Refused(TooMany)),
        Ok(Feeding::Failed),
    ];
    same(&rt, found, expected);
}
