//! What it takes to keep many code points of one text and their fates.

use crate::entering::give;
use anyhow::Result;
use html_arena::NodeId;
use html_ledger::{Fate, Fates, Ledger, Setting, Symbol};
use html_names::Tag;
use html_token_list::Tokens;
use html_tokens::{Span, Token, TokenKind};
use std::alloc::Global;
use std::time::Instant;

/// Brings a ledger into a body.
fn enter_body(ledger: &mut Ledger) -> Result<()> {
    give(ledger, Symbol::Start(Tag::Body), Fate::Made(NodeId::at(3)))?;
    Ok(())
}

/// Adds fates of code points to a list, one by one.
fn push_fates(fates: &mut Fates, count: u64) -> Result<()> {
    let fate = Fate::Text(NodeId::at(4));
    for _ in 0..count {
        fates.push(&fate)?;
    }
    Ok(())
}

/// Adds code points to a list of tokens, one by one.
fn push_tokens(tokens: &mut Tokens, count: u64) -> Result<()> {
    for start in 0..count {
        tokens.push(Token {
            kind: TokenKind::Char('a'),
            span: Span {
                start,
                end: start + 1,
            },
        })?;
    }
    Ok(())
}

/// Gives code points of one text their fates, one by one, each where the flags allow it.
fn give_chars(ledger: &mut Ledger, count: u64) -> Result<()> {
    let node = NodeId::at(4);
    for _ in 0..count {
        let _ = give(ledger, Symbol::Char('a'), Fate::Text(node))?;
    }
    Ok(())
}

/// Gives code points of one text their fates, a thousand in one go.
fn give_runs(ledger: &mut Ledger, count: u64) -> Result<()> {
    let run = ['a'; 1000];
    for _ in 0..count / 1000 {
        if ledger.is_quiet() && ledger.history().may_text_run(&run) {
            ledger.give_run(&run, NodeId::at(4))?;
        }
    }
    Ok(())
}

/// Adds code points to a list of tokens, a thousand in one go.
fn push_runs(tokens: &mut Tokens, count: u64) -> Result<()> {
    let run = ['a'; 1000];
    for _ in 0..count / 1000 {
        let start = tokens.len();
        tokens.push_text(&run, start)?;
    }
    Ok(())
}

/// Says how many there are, and what they took.
fn say(rt: &HostRuntime, what: &str, number: u64, start: Instant) -> Result<()> {
    let took = start.elapsed(rt)?.as_micros();
    println!(rt; "{what:<24} {number:>12} {took:>12} us")?;
    Ok(())
}

/// Says what the calls took: on lists, in a ledger, and in one go.
pub(crate) fn measure(rt: &HostRuntime, count: u64) -> Result<()> {
    measure_fates(rt, count)?;
    measure_tokens(rt, count, false)?;
    measure_ledger(rt, count)?;
    measure_tokens(rt, count, true)
}

fn measure_fates(rt: &HostRuntime, count: u64) -> Result<()> {
    let mut fates = Fates::new(rt.alloc());
    time_fates(rt, &mut fates, count)
}

fn measure_ledger(rt: &HostRuntime, count: u64) -> Result<()> {
    let mut ledger = Ledger::new(rt.alloc(), Setting::Document);
    time_ledger(rt, &mut ledger, count)
}

fn time_fates(rt: &HostRuntime, fates: &mut Fates, count: u64) -> Result<()> {
    let start = Instant::now(rt)?;
    push_fates(fates, count)?;
    say(rt, "fates one by one", fates.len(), start)
}

fn measure_tokens(rt: &HostRuntime, count: u64, in_runs: bool) -> Result<()> {
    let mut tokens = Tokens::new(rt.alloc());
    time_tokens(rt, &mut tokens, count, in_runs)
}

fn time_tokens(rt: &HostRuntime, tokens: &mut Tokens, count: u64, in_runs: bool) -> Result<()> {
    let start = Instant::now(rt)?;
    if in_runs {
        push_runs(tokens, count)?;
        return say(rt, "tokens in runs", tokens.len(), start);
    }
    push_tokens(tokens, count)?;
    say(rt, "tokens one by one", tokens.len(), start)
}

fn time_ledger(rt: &HostRuntime, ledger: &mut Ledger, count: u64) -> Result<()> {
    let start = Instant::now(rt)?;
    enter_body(ledger)?;
    give_chars(ledger, count)?;
    say(rt, "given one by one", ledger.number(), start)?;
    let start = Instant::now(rt)?;
    give_runs(ledger, count)?;
    say(rt, "given in runs", ledger.number(), start)
}
