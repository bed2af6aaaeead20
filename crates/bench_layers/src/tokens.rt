//! How fast texts are cut into tokens.

use crate::clock::{Stopwatch, in_a_microsecond};
use crate::inputs::repeated_text;
use anyhow::Result;
use html_charref::EntityTable;
use html_tokens::{TextMode, Token, TokenError, Tokenizer};
use std::alloc::{AllocError, Global};
use std::mem::size_of;

/// A text to be cut into tokens, and what is taken of it.
struct Load {
    name: &'static str,
    source: Source,
    taken: Taken,
}

/// How a text is made.
#[derive(Clone, Copy)]
enum Source {
    /// A piece, so many times.
    Repeated(&'static str, u32),
    /// A start tag of many attributes, each name of which stands there so many times.
    WideTag(u32),
}

/// What is taken of a text: its tokens, or its runs and the tokens between them, of the whole text or piece by piece.
#[derive(Clone, Copy)]
enum Taken {
    Tokens,
    Runs,
    Pieces,
}

const WORDS: Source = Source::Repeated("The quick brown fox jumps over the lazy dog. ", 360_000);

const LOADS: &[Load] = &[
    Load {
        name: "text through next",
        source: WORDS,
        taken: Taken::Tokens,
    },
    Load {
        name: "tags with attributes",
        source: Source::Repeated(
            "<a class=\"link wide\" href=\"https://example.org/page\" id=x7 hidden><b></b></a>",
            100_000,
        ),
        taken: Taken::Tokens,
    },
    Load {
        name: "references",
        source: Source::Repeated("&amp;&lt;&quot;&gt;&#8212;&nbsp;", 100_000),
        taken: Taken::Tokens,
    },
    Load {
        name: "comments and doctypes",
        source: Source::Repeated(
            "<!-- a comment of some words --><!DOCTYPE html PUBLIC \"-//W3C//DTD HTML 4.01//EN\">",
            50_000,
        ),
        taken: Taken::Tokens,
    },
    Load {
        name: "text in runs",
        source: WORDS,
        taken: Taken::Runs,
    },
    Load {
        name: "text in runs, in pieces",
        source: WORDS,
        taken: Taken::Pieces,
    },
    Load {
        name: "one wide tag",
        source: Source::WideTag(1),
        taken: Taken::Tokens,
    },
    Load {
        name: "one wide tag, each name twice",
        source: Source::WideTag(2),
        taken: Taken::Tokens,
    },
];

/// How many attributes the one tag has.
const ATTRIBUTES: u32 = 100_000;

/// The text of a load, or a short one of its kind.
fn text_of(alloc: Global, source: Source, is_short: bool) -> Result<Vec<char>, AllocError> {
    match source {
        Source::Repeated(piece, times) => {
            repeated_text(alloc, piece, if is_short { 2 } else { times })
        }
        Source::WideTag(times) => {
            let count = if is_short { 30 } else { ATTRIBUTES };
            wide_tag(alloc, count, count.checked_div(times).unwrap_or(count))
        }
    }
}

/// A start tag of so many attributes, with so many names of six letters again and again.
fn wide_tag(alloc: Global, count: u32, names: u32) -> Result<Vec<char>, AllocError> {
    let mut text: Vec<char> = Vec::new(alloc);
    text.extend("<p".chars())?;
    for number in 0..count {
        text.push(' ')?;
        let mut rest = number.checked_rem(names).unwrap_or(0);
        for _ in 0..6u32 {
            let letter = b'a' + (rest % 26) as u8;
            text.push(char::from(letter))?;
            rest /= 26;
        }
    }
    text.push('>')?;
    Ok(text)
}

/// How many code points a piece has, where a text is fed in pieces.
const PIECE: usize = 4_096;

/// Counts the tokens of a text, or the code points of its runs.
fn count(
    alloc: Global,
    table: &EntityTable,
    text: &[char],
    taken: Taken,
) -> Result<u64, TokenError> {
    let mut tokenizer = Tokenizer::new(alloc, table, TextMode::Data, None)?;
    let mut out = Vec::new(alloc);
    take(&mut tokenizer, &mut out, text, taken)
}

fn take(
    tokenizer: &mut Tokenizer<'_>,
    out: &mut Vec<char>,
    text: &[char],
    taken: Taken,
) -> Result<u64, TokenError> {
    match taken {
        Taken::Tokens => take_tokens(tokenizer, text),
        Taken::Runs => take_runs(tokenizer, out, text),
        Taken::Pieces => take_pieces(tokenizer, out, text),
    }
}

/// Feeds a text and takes its tokens.
fn take_tokens(tokenizer: &mut Tokenizer<'_>, text: &[char]) -> Result<u64, TokenError> {
    tokenizer.feed(text)?;
    tokenizer.finish()?;
    let mut tokens = 0u64;
    // There is at most one token more than code points.
    for _ in 0..=text.len() {
        if is_over(tokenizer)? {
            break;
        }
        tokens = tokens.wrapping_add(1);
    }
    Ok(tokens)
}

/// Takes a token, and answers whether there was none.
fn is_over(tokenizer: &mut Tokenizer<'_>) -> Result<bool, TokenError> {
    Ok(tokenizer.next()?.is_none())
}

/// Feeds a text and takes its runs, and the tokens between them.
fn take_runs(
    tokenizer: &mut Tokenizer<'_>,
    out: &mut Vec<char>,
    text: &[char],
) -> Result<u64, TokenError> {
    tokenizer.feed(text)?;
    tokenizer.finish()?;
    take_fed(tokenizer, out, text.len())?;
    Ok(out.len() as u64)
}

/// The same, where the text comes in pieces and what was put out is let go after each.
fn take_pieces(
    tokenizer: &mut Tokenizer<'_>,
    out: &mut Vec<char>,
    text: &[char],
) -> Result<u64, TokenError> {
    let mut tokens = 0u64;
    for piece in text.chunks(PIECE) {
        tokenizer.feed(piece)?;
        take_fed(tokenizer, out, piece.len())?;
        tokens = tokens.wrapping_add(out.len() as u64);
        out.clear();
    }
    Ok(tokens)
}

/// Takes the runs that are there, and the tokens between them, of no more than so many code points.
fn take_fed(
    tokenizer: &mut Tokenizer<'_>,
    out: &mut Vec<char>,
    most: usize,
) -> Result<(), TokenError> {
    for _ in 0..=most {
        if tokenizer.next_run(out)?.is_none() && is_over(tokenizer)? {
            break;
        }
    }
    Ok(())
}

/// Cuts the text that is named, or each where none is, and says how large a token is.
pub(crate) fn show_all(
    rt: &HostRuntime,
    table: &EntityTable,
    wanted: Option<&str>,
    is_timed: bool,
) -> Result<()> {
    for load in LOADS {
        if wanted.unwrap_or(load.name) == load.name {
            show(rt, table, load, is_timed)?;
        }
    }
    let bytes = size_of::<Token>();
    println!(rt; "bytes a token: {bytes}")?;
    Ok(())
}

/// Makes the text of a load, and cuts it.
fn show(rt: &HostRuntime, table: &EntityTable, load: &Load, is_timed: bool) -> Result<()> {
    let text = text_of(rt.alloc(), load.source, !is_timed)?;
    cut(rt, table, load, text.as_slice(), is_timed)
}

fn cut(
    rt: &HostRuntime,
    table: &EntityTable,
    load: &Load,
    text: &[char],
    is_timed: bool,
) -> Result<()> {
    let watch = Stopwatch::by_processor(rt);
    let tokens = count(rt.alloc(), table, text, load.taken)?;
    let micros = watch.micros(rt);
    let (name, code_points) = (load.name, text.len() as u64);
    if is_timed {
        let points_speed = in_a_microsecond(code_points, micros);
        let tokens_speed = in_a_microsecond(tokens, micros);
        println!(rt;
            "{name}: {code_points} code points, {tokens} tokens in {micros} microseconds: {points_speed} and {tokens_speed} million a second"
        )?;
    } else {
        println!(rt; "{name}: {code_points} code points, {tokens} tokens")?;
    }
    Ok(())
}
