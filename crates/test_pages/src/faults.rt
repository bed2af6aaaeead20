// Readers and writers that fail at each of their calls.

use crate::page::Ask;
use html_charref::EntityTable;
use html_parser::{FailAt, OverRead, ParseError, Profile, normalise, parse_tree_from};
use std::alloc::{AllocError, Global};

/// How many bytes a call moves.
const PIECE: usize = 7;

/// Of a document without limits that has a page: whether a reader and a writer that fail at any of their calls are told as such, and ones that
/// would fail after these are not. Of others nothing is asked.
pub(crate) fn are_told(
    alloc: Global,
    table: &EntityTable,
    ask: Ask<'_>,
    bytes: &[u8],
) -> Result<bool, AllocError> {
    if ask.context.is_some() || ask.limits.is_some() || ask.foreign {
        return Ok(true);
    }
    let Some(length) = length_of(alloc, table, bytes) else {
        return Ok(true);
    };
    Ok(is_reader_told(alloc, table, bytes)? && is_writer_told(alloc, table, bytes, length))
}

/// How many bytes the page of a document has as HTML, if it has one.
fn length_of(alloc: Global, table: &EntityTable, bytes: &[u8]) -> Option<usize> {
    let mut reader = OverRead::new(bytes);
    let mut writer = FailAt::new(alloc, Vec::new(alloc), u64::MAX, PIECE);
    match normalise(alloc, table, Profile::One, &mut reader, &mut writer) {
        Ok(()) => Some(writer.taken().len()),
        Err(_) => None,
    }
}

/// How many calls move so many bytes.
fn calls_for(length: usize) -> u64 {
    length.div_ceil(PIECE) as u64
}

/// Whether a reader that lets fewer calls pass than there are pieces, and one for the end, is told, and one that lets all pass is not.
fn is_reader_told(alloc: Global, table: &EntityTable, bytes: &[u8]) -> Result<bool, AllocError> {
    let needed = calls_for(bytes.len()).saturating_add(1);
    for calls in 0..needed {
        if read_by(alloc, table, bytes, calls)? != Some(ParseError::Read) {
            return Ok(false);
        }
    }
    Ok(read_by(alloc, table, bytes, needed)?.is_none())
}

/// Why a document could not be had of a reader that lets so many calls pass.
fn read_by(
    alloc: Global,
    table: &EntityTable,
    bytes: &[u8],
    calls: u64,
) -> Result<Option<ParseError>, AllocError> {
    let mut reader = FailAt::new(alloc, bytes.to_vec(alloc)?, calls, PIECE);
    Ok(parse_tree_from(alloc, table, &mut reader).err())
}

/// The same of a writer, to which so many bytes go.
fn is_writer_told(alloc: Global, table: &EntityTable, bytes: &[u8], length: usize) -> bool {
    let needed = calls_for(length);
    for calls in 0..needed {
        if written_by(alloc, table, bytes, calls) != Some(ParseError::Write) {
            return false;
        }
    }
    written_by(alloc, table, bytes, needed).is_none()
}

/// Why a document could not be written to a writer that lets so many calls pass.
fn written_by(alloc: Global, table: &EntityTable, bytes: &[u8], calls: u64) -> Option<ParseError> {
    let mut reader = OverRead::new(bytes);
    let mut writer = FailAt::new(alloc, Vec::new(alloc), calls, PIECE);
    normalise(alloc, table, Profile::One, &mut reader, &mut writer).err()
}
