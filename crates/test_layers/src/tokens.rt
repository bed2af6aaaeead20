//! Rows of texts, and what the tokenizer gives for them.
//!
//! A row has what is asked, the text mode in which the text begins, the name of the start tag before it or `-`, and the
//! text, with a space between them. In a text `¶` is no code point: the text is fed up to there, and `¶` in the answer
//! stands between what was given before it and what after. `␀` is U+0000, `␉` U+0009, `␊` U+000A, `␍` U+000D, `␣` a space
//! and `␂` a byte order mark; `∅` is the empty name.
//!
//! - `tokens`, `errors`, `both` and `steps`: each text is also fed code point by code point, and what it gives then has to
//!   be the same.
//! - `runs`, `switch`, `count`: runs of plain text, a change of the text mode, tokens before the end of the text is known.
//! - `turns`: what follows `(` is read as data of foreign content, and what follows `)` no longer.
//! - `stopped`: what each call answers after one that is refused.
//! - `input`: how `tokenize` reads the text as bytes. `beyond`: how it reads an input of the first of these alone, once more
//!   often than it may have code points.
//! - `attributes`: the words behind it are names of attributes, which stay in their order, in a share too.

mod calls;
mod given;
mod show;

use self::calls::{attributes, beyond, input, refuse};
use self::given::{
    Begin, Given, MOST, feed, give, give_one, read_by_points, read_in_pieces, show_next,
};
use crate::words::first_word;
use anyhow::{Result, bail};
use html_charref::EntityTable;
use html_tokens::{TextMode, Token, TokenKind, Tokenizer};
use std::alloc::{AllocError, Global};

/// The text mode of a word.
fn mode_of(word: &str) -> Result<TextMode> {
    Ok(match word {
        "data" => TextMode::Data,
        "rcdata" => TextMode::Rcdata,
        "rawtext" => TextMode::Rawtext,
        "script" => TextMode::Script,
        "plaintext" => TextMode::Plaintext,
        "foreign" => TextMode::Foreign,
        _ => bail!("no text mode"),
    })
}

/// The text of a row, with the code points that stand for others.
fn text_of(alloc: Global, written: &str) -> Result<String, AllocError> {
    let mut text = String::new(alloc);
    for c in written.chars() {
        text.push(match c {
            '␀' => '\0',
            '␉' => '\t',
            '␣' => ' ',
            '␊' => '\n',
            '␍' => '\r',
            '␂' => '\u{FEFF}',
            other => other,
        })?;
    }
    Ok(text)
}

/// The name of the start tag before a text, where there is one.
fn name_of(alloc: Global, written: &str) -> Result<Option<String>, AllocError> {
    if written == "-" {
        return Ok(None);
    }
    if written == "∅" {
        return Ok(Some(String::new(alloc)));
    }
    Ok(Some(text_of(alloc, written)?))
}

/// Adds the answer of a row.
pub(crate) fn answer(
    alloc: Global,
    table: &EntityTable,
    row: &str,
    out: &mut String,
) -> Result<()> {
    let (asked, of) = first_word(row)?;
    if asked == "attributes" {
        return attributes(alloc, of, out);
    }
    let (mode, of) = first_word(of)?;
    let (name, written) = first_word(of)?;
    let mode = mode_of(mode)?;
    let name = name_of(alloc, name)?;
    let begin = Begin {
        mode,
        name: name.as_ref().map(|name| name.as_str()),
    };
    answer_text(alloc, table, begin, asked, written, out)
}

fn answer_text(
    alloc: Global,
    table: &EntityTable,
    begin: Begin<'_>,
    asked: &str,
    written: &str,
    out: &mut String,
) -> Result<()> {
    let text = text_of(alloc, written)?;
    ask(alloc, table, begin, asked, text.as_str(), out)
}

fn ask(
    alloc: Global,
    table: &EntityTable,
    begin: Begin<'_>,
    asked: &str,
    text: &str,
    out: &mut String,
) -> Result<()> {
    match asked {
        "input" => input(alloc, table, begin, text.as_bytes(), out),
        "beyond" => beyond(alloc, table, begin, text.as_bytes(), out),
        _ => ask_tokenizer(alloc, table, begin, asked, text, out),
    }
}

/// What is asked of a tokenizer. Tokens, parse errors or steps of a text are asked of it fed in two ways, which have to agree.
fn ask_tokenizer(
    alloc: Global,
    table: &EntityTable,
    begin: Begin<'_>,
    asked: &str,
    text: &str,
    out: &mut String,
) -> Result<()> {
    let mut given = Given::new(alloc);
    with_tokenizer(alloc, table, begin, asked, text, &mut given)?;
    match asked {
        "runs" | "switch" | "turns" | "count" | "stopped" => Ok(out.push_str(
            given.tokens.as_str(),
        )?),
        _ => both_ways(alloc, table, begin, asked, text, &given, out),
    }
}

fn both_ways(
    alloc: Global,
    table: &EntityTable,
    begin: Begin<'_>,
    asked: &str,
    text: &str,
    whole: &Given,
    out: &mut String,
) -> Result<()> {
    let mut cut = Given::new(alloc);
    with_tokenizer(alloc, table, begin, "by points", text, &mut cut)?;
    shown(alloc, asked, whole, &cut, out)
}

/// What is asked of what a text gave, where it gave the same code point by code point.
fn shown(alloc: Global, asked: &str, whole: &Given, cut: &Given, out: &mut String) -> Result<()> {
    if !are_same(alloc, whole, cut)? {
        let (tokens, faults) = (&cut.tokens, &cut.faults);
        write!(out, "cut otherwise: {tokens}{faults}")?;
        return Ok(());
    }
    let (tokens, faults, steps) = (&whole.tokens, &whole.faults, whole.steps);
    match asked {
        "tokens" => write!(out, "{tokens}")?,
        "errors" => write!(out, "{faults}")?,
        "both" => write!(out, "{tokens}{faults}")?,
        "steps" => write!(out, "{steps}")?,
        _ => out.push_str("no such question")?,
    }
    Ok(())
}

/// Whether a text gave the same, but for the signs of pieces.
fn are_same(alloc: Global, whole: &Given, cut: &Given) -> Result<bool> {
    let tokens = whole.tokens.as_str().replace(alloc, "¶", "")?;
    Ok(tokens == cut.tokens && whole.faults == cut.faults && whole.steps == cut.steps)
}

/// What is asked of a tokenizer of its own.
fn with_tokenizer(
    alloc: Global,
    table: &EntityTable,
    begin: Begin<'_>,
    asked: &str,
    text: &str,
    given: &mut Given,
) -> Result<()> {
    match Tokenizer::new(alloc, table, begin.mode, begin.name) {
        Ok(mut t) => use_tokenizer(alloc, &mut t, asked, text, given),
        Err(error) => Err(error.into()),
    }
}

fn use_tokenizer(
    alloc: Global,
    t: &mut Tokenizer<'_>,
    asked: &str,
    text: &str,
    given: &mut Given,
) -> Result<()> {
    match asked {
        "runs" => runs(alloc, t, text, &mut given.tokens),
        "switch" => switched(alloc, t, text, &mut given.tokens),
        "turns" => turned(alloc, t, text, &mut given.tokens),
        "count" => counted(alloc, t, text, &mut given.tokens),
        "stopped" => refuse(alloc, t, text, &mut given.tokens),
        "by points" => read_by_points(t, text, given),
        _ => read_in_pieces(alloc, t, text, given),
    }
}

/// The runs of plain text, each with its place, and the tokens between them.
fn runs(alloc: Global, t: &mut Tokenizer<'_>, text: &str, out: &mut String) -> Result<()> {
    feed(alloc, t, text)?;
    t.finish()?;
    let mut run: Vec<char> = Vec::new(alloc);
    for _ in 0..MOST {
        if !one_run(t, &mut run, out)? {
            break;
        }
    }
    Ok(())
}

/// The run that comes next, and the token after it, where there is one.
fn one_run(t: &mut Tokenizer<'_>, run: &mut Vec<char>, out: &mut String) -> Result<bool> {
    run.clear();
    if let Some(place) = t.next_run(run)? {
        write!(out, "run {place} ")?;
        out.extend(run.as_slice().iter().copied())?;
        out.push('|')?;
    }
    give_one(t, out)
}

/// The tokens of a text, of which what follows the first token is read as RCDATA.
fn switched(alloc: Global, t: &mut Tokenizer<'_>, text: &str, out: &mut String) -> Result<()> {
    feed(alloc, t, text)?;
    if give_one(t, out)? {
        t.switch(TextMode::Rcdata);
    }
    t.finish()?;
    give(t, out)?;
    Ok(())
}

/// The tokens of a text, of which what follows `(` is read as data of foreign content, and what follows `)` no longer.
fn turned(alloc: Global, t: &mut Tokenizer<'_>, text: &str, out: &mut String) -> Result<()> {
    feed(alloc, t, text)?;
    t.finish()?;
    for _ in 0..MOST {
        let token = t.next()?;
        if let Some(mode) = said_after(token.as_ref()) {
            t.switch(mode);
        }
        if !show_next(out, token.as_ref())? {
            break;
        }
    }
    Ok(())
}

/// What is said after a token of how the text after it is read.
fn said_after(token: Option<&Token>) -> Option<TextMode> {
    match token.map(|token| &token.kind) {
        Some(TokenKind::Char('(')) => Some(TextMode::Foreign),
        Some(TokenKind::Char(')')) => Some(TextMode::Data),
        _ => None,
    }
}

/// How many tokens a text gives before its end is known, and how many after.
fn counted(alloc: Global, t: &mut Tokenizer<'_>, text: &str, out: &mut String) -> Result<()> {
    feed(alloc, t, text)?;
    let mut tokens = String::new(alloc);
    let (before, after) = counts(t, &mut tokens)?;
    write!(out, "{before} {after}")?;
    Ok(())
}

fn counts(t: &mut Tokenizer<'_>, tokens: &mut String) -> Result<(u32, u32)> {
    let before = give(t, tokens)?;
    t.finish()?;
    let after = give(t, tokens)?;
    Ok((before, after))
}
