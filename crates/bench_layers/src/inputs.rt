//! What is measured on: pieces again and again, and files.

use anyhow::Result;
use std::alloc::{AllocError, Global};
use std::fs::File;
use std::io::Read;

/// A piece, so many times.
pub(crate) fn repeated_bytes(
    alloc: Global,
    piece: &[u8],
    times: usize,
) -> Result<Vec<u8>, AllocError> {
    let mut bytes = Vec::new(alloc);
    for _ in 0..times {
        bytes.extend_from_slice(piece)?;
    }
    Ok(bytes)
}

/// The code points of a piece, so many times.
pub(crate) fn repeated_text(
    alloc: Global,
    piece: &str,
    times: u32,
) -> Result<Vec<char>, AllocError> {
    let mut text = Vec::new(alloc);
    for _ in 0..times {
        text.extend(piece.chars())?;
    }
    Ok(text)
}

/// The bytes of a file.
pub(crate) fn bytes_of(rt: &HostRuntime, path: &str) -> Result<Vec<u8>> {
    let mut bytes = Vec::new(rt.alloc());
    File::open(rt, path).and_then(|mut file| file.read_to_end(&mut bytes))?;
    Ok(bytes)
}
