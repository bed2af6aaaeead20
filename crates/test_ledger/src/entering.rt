//! Calls of a ledger, each where the ledger takes it.

use crate::words::{chars_of, fate_of, symbol_of};
use anyhow::Result;
use html_arena::NodeId;
use html_ledger::{Cause, Fate, Ledger, Symbol};
use std::alloc::Global;

/// Gives a token its fate, and says whether it may have it.
pub(crate) fn give(ledger: &mut Ledger, symbol: Symbol, fate: Fate) -> Result<bool> {
    if !ledger.is_quiet() || !ledger.history().may_have(symbol, &fate) {
        return Ok(false);
    }
    ledger.give(symbol, fate)?;
    Ok(true)
}

/// An end tag or the end of the page, which had an effect or none.
fn end(ledger: &mut Ledger, symbol: Symbol, ignored: bool) -> Result<bool> {
    if !ledger.is_quiet() || !symbol.is_end() {
        return Ok(false);
    }
    ledger.end(symbol, ignored)?;
    Ok(true)
}

/// Gives a code point the fate that it has in a body.
fn give_char(ledger: &mut Ledger, c: char) -> Result<bool> {
    let symbol = Symbol::Char(c);
    let fate = match ledger.history().must_drop(symbol) {
        Some(cause) => Fate::Dropped(cause),
        None if c == '\0' => Fate::Dropped(Cause::Null),
        None => Fate::Text(NodeId::at(5)),
    };
    give(ledger, symbol, fate)
}

/// Gives the code points that were kept their fates.
fn settle(ledger: &mut Ledger) -> Result<bool> {
    let kept = ledger.take_kept();
    for c in &kept {
        if !give_char(ledger, *c)? {
            return Ok(false);
        }
    }
    Ok(true)
}

/// Gives code points their fates in one go where they may all become text, else one by one.
fn give_run(alloc: Global, ledger: &mut Ledger, letters: &str) -> Result<bool> {
    let run = chars_of(alloc, letters)?;
    give_chars(ledger, run.as_slice())
}

fn give_chars(ledger: &mut Ledger, run: &[char]) -> Result<bool> {
    if ledger.is_quiet() && ledger.history().may_text_run(run) {
        ledger.give_run(run, NodeId::at(5))?;
        return Ok(true);
    }
    for c in run {
        if !give_char(ledger, *c)? {
            return Ok(false);
        }
    }
    Ok(true)
}

/// Keeps a code point.
fn keep(ledger: &mut Ledger, symbol: Symbol) -> Result<bool> {
    let Symbol::Char(c) = symbol else {
        return Ok(false);
    };
    ledger.keep(c)?;
    Ok(true)
}

/// Does what a token and the word of its fate ask for.
pub(crate) fn enter(ledger: &mut Ledger, token: &str, fate: &str) -> Result<bool> {
    let symbol = symbol_of(token)?;
    match fate {
        "kept" => keep(ledger, symbol),
        "ended" => end(ledger, symbol, false),
        "ignored" => end(ledger, symbol, true),
        _ => give(ledger, symbol, fate_of(fate)?),
    }
}

/// Does what a word by itself asks for.
fn enter_kept(alloc: Global, ledger: &mut Ledger, letters: &str) -> Result<bool> {
    if letters.is_empty() {
        settle(ledger)
    } else {
        give_run(alloc, ledger, letters)
    }
}

/// Does what the words ask for, one after another, and says whether the ledger took it all.
pub(crate) fn enter_all(alloc: Global, ledger: &mut Ledger, words: &[&str]) -> Result<bool> {
    let mut token = "";
    for word in words {
        let mut taken = true;
        if !token.is_empty() {
            taken = enter(ledger, token, *word)?;
            token = "";
        } else if let Some(letters) = word.strip_prefix("+") {
            taken = enter_kept(alloc, ledger, letters)?;
        } else {
            token = *word;
        }
        if !taken {
            return Ok(false);
        }
    }
    Ok(true)
}
