// Pages, a row each, with the tree that they give.

use crate::audit::print_audit;
use crate::brackets::print_brackets;
use crate::budgets::{is_bounded, is_exact};
use crate::calls::{html_text, other_call, tokens_in_hand};
use crate::cuts::{is_same_cut, odd_front, print_input};
use crate::faults::are_told;
use crate::page::{Ask, Reading, page_of};
use anyhow::{Result, bail};
use html_charref::EntityTable;
use html_parser::{Limits, Page, ParseError, Profile};
use std::alloc::{AllocError, Global};

/// Prints for each row what its page gives. The first line is the table of named references.
pub(crate) fn run(rt: &HostRuntime, bytes: &[u8]) -> Result<()> {
    let text = std::str::from_utf8(bytes)?;
    let Some((first, rest)) = text.split_once('\n') else {
        bail!("no table");
    };
    let table = EntityTable::read(rt.alloc(), first.as_bytes())?;
    print_rows(rt, &table, rest)
}

fn print_rows(rt: &HostRuntime, table: &EntityTable, rows: &str) -> Result<()> {
    for line in rows.lines() {
        let Some((name, row)) = line.split_once('|') else {
            bail!("a row without a page");
        };
        let Some((words, input)) = row.split_once('|') else {
            bail!("a row without a page");
        };
        print_row(rt, table, name.trim(), words, input)?;
    }
    Ok(())
}

fn print_row(
    rt: &HostRuntime,
    table: &EntityTable,
    name: &str,
    words: &str,
    input: &str,
) -> Result<()> {
    let input = unescaped(rt.alloc(), input)?;
    let context = unescaped(rt.alloc(), value_in(words, "context=").unwrap_or(""))?;
    let has_context = value_in(words, "context=").is_some();
    let context = if has_context {
        Some(context.as_str())
    } else {
        None
    };
    let ask = ask_of(words, context)?;
    print_asked(rt, table, name, words, ask, input.as_bytes())
}

fn print_asked(
    rt: &HostRuntime,
    table: &EntityTable,
    name: &str,
    words: &str,
    ask: Ask<'_>,
    input: &[u8],
) -> Result<()> {
    print_answer(rt, table, name, has_word(words, "audit"), ask, input)?;
    print_others(rt, table, ask, input)?;
    if has_word(words, "html") {
        print_html(rt, table, input)?;
    }
    Ok(())
}

/// Says where something else comes of an input or of a front of it than of the whole of it.
fn print_others(rt: &HostRuntime, table: &EntityTable, ask: Ask<'_>, input: &[u8]) -> Result<()> {
    let mut whole = String::new(rt.alloc());
    print_input(rt.alloc(), table, Reading::Whole, ask, input, &mut whole)?;
    print_other_cuts(rt, table, ask, input, whole.as_str())?;
    if !is_exact(rt.alloc(), table, ask, input, whole.as_str())? {
        println!(rt; "  another number of steps within a limit")?;
    }
    if !is_bounded(rt.alloc(), table, ask, input) {
        println!(rt; "  more steps than are proved")?;
    }
    if !are_told(rt.alloc(), table, ask, input)? {
        println!(rt; "  a reader or a writer that fails is not told, or one that does not is")?;
    }
    print_other_call(rt, table, ask, input, whole.as_str())
}

/// Says where something else comes of an input in pieces, or of a front of it, than `whole`.
fn print_other_cuts(
    rt: &HostRuntime,
    table: &EntityTable,
    ask: Ask<'_>,
    input: &[u8],
    whole: &str,
) -> Result<()> {
    if !is_same_cut(rt.alloc(), table, ask, input, whole)? {
        println!(rt; "  something else in pieces")?;
    }
    if let Some(length) = odd_front(rt.alloc(), table, ask, input, whole)? {
        println!(rt; "  something else of the first {length} bytes")?;
    }
    Ok(())
}

/// Says which other call makes something else of an input than `whole`.
fn print_other_call(
    rt: &HostRuntime,
    table: &EntityTable,
    ask: Ask<'_>,
    input: &[u8],
    whole: &str,
) -> Result<()> {
    if let Some(call) = other_call(rt.alloc(), table, ask, input, whole)? {
        println!(rt; "  something else {call}")?;
    }
    Ok(())
}

/// Prints the page of an input, or why there is none.
fn print_answer(
    rt: &HostRuntime,
    table: &EntityTable,
    name: &str,
    is_audited: bool,
    ask: Ask<'_>,
    input: &[u8],
) -> Result<()> {
    let page = page_of(rt.alloc(), table, Reading::Whole, ask, input);
    print_outcome(rt, name, is_audited, &page)
}

fn print_outcome(
    rt: &HostRuntime,
    name: &str,
    is_audited: bool,
    page: &Result<Page, ParseError>,
) -> Result<()> {
    match page {
        Ok(page) => print_page(rt, name, is_audited, page),
        Err(error) => Ok(println!(rt; "{name}: refused: {error}")?),
    }
}

/// Prints how many tokens of a document are in hand before the end of the input, and the document as HTML, in both profiles.
fn print_html(rt: &HostRuntime, table: &EntityTable, bytes: &[u8]) -> Result<()> {
    let count = tokens_in_hand(rt.alloc(), table, bytes)?;
    println!(rt; "  tokens before the end {count}")?;
    print_html_in(rt, table, Profile::One, bytes)?;
    print_html_in(rt, table, Profile::Two, bytes)
}

fn print_html_in(
    rt: &HostRuntime,
    table: &EntityTable,
    profile: Profile,
    bytes: &[u8],
) -> Result<()> {
    match html_text(rt.alloc(), table, profile, bytes)? {
        Some(html) => {
            let text = std::str::from_utf8(html.as_slice())?;
            println!(rt; "  html {text}")?;
        }
        None => println!(rt; "  something else as HTML")?,
    }
    Ok(())
}

/// What stands behind this among the words of a row.
fn value_in<'a>(words: &'a str, name: &str) -> Option<&'a str> {
    for word in words.split(' ') {
        if let Some(value) = word.strip_prefix(name) {
            return Some(value);
        }
    }
    None
}

/// What the words between the name of a row and its page ask for.
fn ask_of<'a>(words: &'a str, context: Option<&'a str>) -> Result<Ask<'a>> {
    let mut ask = Ask::of(context);
    ask.encoding = value_in(words, "encoding=");
    for word in words.split(' ') {
        match word.split_once('=') {
            Some(("context" | "encoding", _)) => {}
            Some((name, number)) => ask.limits = Some(limit(name, number)?),
            None => match word {
                "in_form" => ask.in_form = true,
                "quirks" => ask.quirks = true,
                "foreign" => ask.foreign = true,
                "" | "audit" | "html" => {}
                _ => bail!("no such word"),
            },
        }
    }
    Ok(ask)
}

/// Whether this is among the words of a row.
fn has_word(words: &str, wanted: &str) -> bool {
    words.split(' ').any(|word| word == wanted)
}

/// One limit, and none of the other kinds.
fn limit(name: &str, number: &str) -> Result<Limits> {
    let number = number.parse::<u64>()?;
    let mut limits = Limits {
        nodes: u64::MAX,
        held: u64::MAX,
        code_points: u64::MAX,
        steps: u64::MAX,
    };
    match name {
        "nodes" => limits.nodes = number,
        "held" => limits.held = number,
        "input" => limits.code_points = number,
        "steps" => limits.steps = number,
        _ => bail!("no such word"),
    }
    Ok(limits)
}

/// A text with `␊`, `␍`, `␀` and `␠` for what they show.
fn unescaped(alloc: Global, text: &str) -> Result<String, AllocError> {
    let mut out = String::new(alloc);
    for c in text.chars() {
        out.push(match c {
            '␊' => '\n',
            '␍' => '\r',
            '␀' => '\0',
            '␠' => ' ',
            _ => c,
        })?;
    }
    Ok(out)
}

fn print_page(rt: &HostRuntime, name: &str, is_audited: bool, page: &Page) -> Result<()> {
    let mut tree = String::new(rt.alloc());
    let mut audit = String::new(rt.alloc());
    print_brackets(&mut tree, &page.arena)?;
    print_audit(&mut audit, page)?;
    println!(rt; "{name}: {tree}")?;
    print_lines(rt, is_audited, audit.as_str())
}

/// Prints the lines of an audit, or only those that tell how many there are.
fn print_lines(rt: &HostRuntime, is_audited: bool, audit: &str) -> Result<()> {
    for line in audit.lines() {
        if is_audited || is_count(line) {
            println!(rt; "  {line}")?;
        }
    }
    Ok(())
}

/// Whether a line tells how many nodes, clones, held code points or steps there are.
fn is_count(line: &str) -> bool {
    ["nodes ", "clones ", "held ", "steps "]
        .iter()
        .any(|name| line.starts_with(*name))
}
