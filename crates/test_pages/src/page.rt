// A page, from its bytes in pieces to its tree.

use html_charref::EntityTable;
use html_parser::{
    Context, Foreign, Limits, Options, OverRead, Page, ParseError, Parser, parse, parse_fragment,
    parse_from, parse_from_with, parse_with, parse_within,
};
use html_text::Str;
use std::alloc::{AllocError, Global};

/// How an input comes to its page.
#[derive(Clone, Copy, Debug)]
pub(crate) enum Reading {
    /// A parser is fed all of it.
    Whole,
    /// A parser is fed each byte.
    Bytes,
    /// A parser is fed so many bytes, and then the others.
    Cut(usize),
    /// A parser is fed pieces of one to seven bytes, which begin so.
    Pieces(usize),
    /// A parser takes all of a reader.
    Fed,
    /// By the call that takes all of it.
    Call,
    /// By the call that takes a reader.
    Reader,
    /// By the call that takes all of it, and options.
    With,
    /// By the call that takes a reader, and options.
    ReaderWith,
}

/// What is asked for besides the input.
#[derive(Clone, Copy)]
pub(crate) struct Ask<'a> {
    /// The name of the context, of a fragment.
    pub context: Option<&'a str>,
    /// The value of its attribute `encoding`, if it has one.
    pub encoding: Option<&'a str>,
    pub in_form: bool,
    pub quirks: bool,
    /// Whether foreign content is parsed, and not refused.
    pub foreign: bool,
    pub limits: Option<Limits>,
}

impl<'a> Ask<'a> {
    /// A document, or a fragment in the context of this name.
    pub(crate) fn of(context: Option<&'a str>) -> Ask<'a> {
        Ask {
            context,
            encoding: None,
            in_form: false,
            quirks: false,
            foreign: false,
            limits: None,
        }
    }
}

/// The page of an input.
pub(crate) fn page_of(
    alloc: Global,
    table: &EntityTable,
    reading: Reading,
    ask: Ask<'_>,
    bytes: &[u8],
) -> Result<Page, ParseError> {
    match reading {
        Reading::Call => called(alloc, table, ask, bytes),
        Reading::Reader => parse_from(alloc, table, &mut OverRead::new(bytes)),
        Reading::Fed => fed_from(alloc, table, bytes),
        Reading::With => parse_with(alloc, table, &options_of(alloc, ask)?, bytes),
        Reading::ReaderWith => {
            let options = options_of(alloc, ask)?;
            parse_from_with(alloc, table, &options, &mut OverRead::new(bytes))
        }
        _ => fed_page(alloc, table, reading, ask, bytes),
    }
}

/// The page of an input, by the call that takes it whole.
fn called(
    alloc: Global,
    table: &EntityTable,
    ask: Ask<'_>,
    bytes: &[u8],
) -> Result<Page, ParseError> {
    if ask.foreign {
        return parse_with(alloc, table, &options_of(alloc, ask)?, bytes);
    }
    match (ask.context, ask.limits) {
        (None, None) => parse(alloc, table, bytes),
        (None, Some(limits)) => parse_within(alloc, table, limits, bytes),
        (Some(name), None) => {
            let context = context_of(alloc, ask, name)?;
            parse_fragment(alloc, table, &context, bytes)
        }
        (Some(_), Some(_)) => fed_page(alloc, table, Reading::Whole, ask, bytes),
    }
}

/// The page of a document, by a parser that takes all of a reader.
fn fed_from(alloc: Global, table: &EntityTable, bytes: &[u8]) -> Result<Page, ParseError> {
    let mut parser = Parser::document(alloc, table)?;
    let fed = parser.feed_from(&mut OverRead::new(bytes));
    fed.and(parser.finish())
}

/// The page of an input, by a parser that is fed pieces. The parser is finished in any case: to let go of it takes long to prove.
fn fed_page(
    alloc: Global,
    table: &EntityTable,
    reading: Reading,
    ask: Ask<'_>,
    bytes: &[u8],
) -> Result<Page, ParseError> {
    let mut parser = parser_of(alloc, table, ask)?;
    let fed = feed(&mut parser, reading, bytes);
    fed.and(parser.finish())
}

/// Feeds a parser an input, cut as asked. After a refusal the parser has to be stopped.
fn feed(parser: &mut Parser<'_>, reading: Reading, bytes: &[u8]) -> Result<(), ParseError> {
    match fed(parser, reading, bytes) {
        Ok(()) => Ok(()),
        Err(error) => match parser.feed(b"") {
            Err(ParseError::Stopped) => Err(error),
            _ => Err(ParseError::Stopped),
        },
    }
}

fn fed(parser: &mut Parser<'_>, reading: Reading, bytes: &[u8]) -> Result<(), ParseError> {
    match reading {
        Reading::Bytes => {
            for byte in bytes {
                parser.feed(&[*byte])?;
            }
            Ok(())
        }
        Reading::Cut(at) => {
            let (first, rest) = bytes.split_at(at.min(bytes.len()));
            parser.feed(first)?;
            parser.feed(rest)
        }
        Reading::Pieces(first) => fed_pieces(parser, first, bytes),
        _ => parser.feed(bytes),
    }
}

/// Feeds a parser pieces of one to seven bytes, of which the first has a length that follows from a number.
fn fed_pieces(parser: &mut Parser<'_>, first: usize, bytes: &[u8]) -> Result<(), ParseError> {
    let mut length = first;
    let mut rest = bytes;
    for _ in 0..bytes.len() {
        length = length % 7 * 5 % 7 + 1;
        let (piece, later) = rest.split_at(length.min(rest.len()));
        parser.feed(piece)?;
        rest = later;
    }
    Ok(())
}

/// A parser as asked.
fn parser_of<'a>(
    alloc: Global,
    table: &'a EntityTable,
    ask: Ask<'_>,
) -> Result<Parser<'a>, ParseError> {
    if ask.foreign {
        return Parser::new(alloc, table, &options_of(alloc, ask)?);
    }
    let Some(name) = ask.context else {
        return match ask.limits {
            Some(limits) => Parser::document_within(alloc, table, limits),
            None => Parser::document(alloc, table),
        };
    };
    let context = context_of(alloc, ask, name)?;
    match ask.limits {
        Some(limits) => Parser::fragment_within(alloc, table, &context, limits),
        None => Parser::fragment(alloc, table, &context),
    }
}

/// The options as asked.
fn options_of(alloc: Global, ask: Ask<'_>) -> Result<Options, AllocError> {
    let context = match ask.context {
        Some(name) => Some(context_of(alloc, ask, name)?),
        None => None,
    };
    Ok(Options {
        limits: ask.limits,
        foreign: if ask.foreign {
            Foreign::Parse
        } else {
            Foreign::Refuse
        },
        context,
    })
}

/// The context of a fragment, as asked.
pub(crate) fn context_of(alloc: Global, ask: Ask<'_>, name: &str) -> Result<Context, AllocError> {
    Ok(Context {
        name: Str::of(alloc, name)?,
        in_form: ask.in_form,
        quirks: ask.quirks,
        encoding: encoding_of(alloc, ask)?,
    })
}

/// The value of the attribute `encoding` of the context, as asked.
fn encoding_of(alloc: Global, ask: Ask<'_>) -> Result<Option<Str>, AllocError> {
    match ask.encoding {
        Some(value) => Ok(Some(Str::of(alloc, value)?)),
        None => Ok(None),
    }
}
