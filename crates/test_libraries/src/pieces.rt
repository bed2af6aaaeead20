// Inputs in pieces: from a reader that gives a byte a call, or fails, and after a piece that was refused.

use crate::devices::device;
use crate::pages::core_table;
use crate::same::same;
use html_parser::{EntityTable, FailAt, Limits, ParseError, Parser, parse_from};
use std::alloc::Global;

const SMALL_PAGE: &[u8] = b"<!DOCTYPE html><html><head></head><body><div>Hi</div></body></html>";

/// How many code points and nodes the page of a reader has.
fn sizes_from(
    alloc: Global,
    table: &EntityTable,
    reader: &mut FailAt,
) -> Result<(u64, u64), ParseError> {
    let page = parse_from(alloc, table, reader)?;
    Ok((page.n, page.arena.len()))
}

/// How many code points and nodes the small page has, by a reader that gives so many bytes a call and fails after so many calls.
fn sizes_by(alloc: Global, calls: u64, piece: usize) -> Result<(u64, u64), ParseError> {
    let mut reader = device(alloc, SMALL_PAGE, calls, piece)?;
    let table = core_table(alloc)?;
    sizes_from(alloc, &table, &mut reader)
}

#[test]
fn reads_a_byte_at_a_time(rt: HostRuntime) {
    same(&rt, sizes_by(rt.alloc(), 1000, 1), Ok((67, 7)));
}

#[test]
fn tells_a_reader_that_fails(rt: HostRuntime) {
    for calls in 0..8 {
        same(&rt, sizes_by(rt.alloc(), calls, 10), Err(ParseError::Read));
    }
}

/// What a parser with a limit of three code points refuses: four, another, and the end.
fn refused_beyond_three(alloc: Global) -> Result<[Option<ParseError>; 3], ParseError> {
    let table = core_table(alloc)?;
    let limits = Limits {
        nodes: u64::MAX,
        held: u64::MAX,
        code_points: 3,
        steps: u64::MAX,
    };
    let mut parser = Parser::document_within(alloc, &table, limits)?;
    let four = parser.feed(b"abcd").err();
    let another = parser.feed(b"a").err();
    Ok([four, another, parser.finish().err()])
}

#[test]
fn stops_after_a_refused_piece(rt: HostRuntime) {
    let refused = [
        Some(ParseError::InputTooLong),
        Some(ParseError::Stopped),
        Some(ParseError::Stopped),
    ];
    same(&rt, refused_beyond_three(rt.alloc()), Ok(refused));
}
