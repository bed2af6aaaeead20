//! How fast bytes are decoded.

use crate::clock::{Stopwatch, in_a_microsecond};
use crate::inputs::repeated_bytes;
use anyhow::Result;
use html_input::{Decoder, InputError};
use std::alloc::Global;

/// How many bytes a piece has in a small run.
const SHORT: usize = 96;

/// How many it has in full.
const LONG: usize = 1_048_576;

/// How many pieces there are in an input.
const PIECES: usize = 16;

/// What a piece is made of.
const UNITS: &[(&str, &[u8])] = &[
    ("ASCII", b"<p>Hello, you!</p>\n<p>And you</p>"),
    ("3-byte text", b"\xE2\x82\xAC\xED\x95\x9C\xE5\xAD\x97"),
    ("one bad byte in eight", b"<p>1234\x80"),
    ("all 0x80", b"\x80"),
];

/// How much was decoded.
#[derive(Clone, Copy)]
struct Decoded {
    bytes: u64,
    code_points: u64,
}

/// Decodes inputs of each unit.
pub(crate) fn show_all(rt: &HostRuntime, is_timed: bool) -> Result<()> {
    for &(name, unit) in UNITS {
        show(rt, name, unit, is_timed)?;
    }
    Ok(())
}

/// Decodes inputs of a unit.
fn show(rt: &HostRuntime, name: &str, unit: &[u8], is_timed: bool) -> Result<()> {
    let length = if is_timed { LONG } else { SHORT };
    let times = length.checked_div(unit.len()).unwrap_or(0);
    let piece = repeated_bytes(rt.alloc(), unit, times)?;
    show_decoded(rt, name, piece.as_slice(), is_timed)
}

/// Decodes inputs of a piece: one in a small run, and four in full.
fn show_decoded(rt: &HostRuntime, name: &str, piece: &[u8], is_timed: bool) -> Result<()> {
    let inputs = if is_timed { 4 } else { 1 };
    let watch = Stopwatch::by_processor(rt);
    let decoded = decode(rt.alloc(), piece, inputs)?;
    let micros = watch.micros(rt);
    let (bytes, code_points) = (decoded.bytes, decoded.code_points);
    if is_timed {
        let speed = in_a_microsecond(bytes, micros);
        println!(rt; "{name}: {bytes} bytes in {micros} microseconds, {speed} MB/s")?;
    } else {
        println!(rt; "{name}: {bytes} bytes, {code_points} code points")?;
    }
    Ok(())
}

/// Decodes so many inputs.
fn decode(alloc: Global, piece: &[u8], inputs: u32) -> Result<Decoded, InputError> {
    let mut out = Vec::new(alloc);
    decode_into(&mut out, piece, inputs)
}

fn decode_into(out: &mut Vec<char>, piece: &[u8], inputs: u32) -> Result<Decoded, InputError> {
    let mut decoded = Decoded {
        bytes: 0,
        code_points: 0,
    };
    for _ in 0..inputs {
        let once = decode_once(out, piece)?;
        decoded.bytes = decoded.bytes.wrapping_add(once.bytes);
        decoded.code_points = decoded.code_points.wrapping_add(once.code_points);
    }
    Ok(decoded)
}

/// Decodes an input, and lets go of what was put out after each piece.
fn decode_once(out: &mut Vec<char>, piece: &[u8]) -> Result<Decoded, InputError> {
    let mut decoder = Decoder::new();
    let mut bytes = 0u64;
    for _ in 0..PIECES {
        decoder.feed(piece, out)?;
        out.clear();
        bytes = bytes.wrapping_add(piece.len() as u64);
    }
    decoder.finish(out)?;
    Ok(Decoded {
        bytes,
        code_points: decoder.count(),
    })
}
