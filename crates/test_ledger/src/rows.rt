//! Rows and their answers.

use crate::entering::enter_all;
use crate::lists::list;
use crate::words::{fate_of, fates, setting_of, symbol_of, word_of};
use anyhow::{Result, bail};
use html_ledger::{Fate, Fates, History, Ledger, Setting, Symbol, is_fated};
use std::alloc::Global;

/// Adds the answer of a row.
pub(crate) fn answer(alloc: Global, line: &str, out: &mut String) -> Result<()> {
    let words: Vec<&str> = line.split(' ').collect(alloc)?;
    ask(alloc, words.as_slice(), out)
}

fn ask(alloc: Global, words: &[&str], out: &mut String) -> Result<()> {
    match words {
        ["may", setting, rest @ ..] => may(alloc, setting_of(*setting)?, rest, out),
        ["tokens", index, rest @ ..] => list(alloc, *index, rest, out),
        ["ledger", setting, rest @ ..] => ledger(alloc, setting_of(*setting)?, rest, out),
        _ => bail!("no such question"),
    }
}

/// Tokens with fates.
#[derive(Drop)]
struct Page {
    tokens: Vec<Symbol>,
    fates: Vec<Fate>,
}

/// Adds the tokens of a row, each but the last with its fate.
fn read_page(page: &mut Page, words: &[&str]) -> Result<()> {
    for pair in words.chunks(2) {
        if let [token, rest @ ..] = pair {
            page.tokens.push(symbol_of(*token)?)?;
            for fate in rest {
                page.fates.push(fate_of(*fate)?)?;
            }
        }
    }
    Ok(())
}

/// What is known after the tokens that have a fate.
fn history_of(setting: Setting, page: &Page) -> History {
    let mut history = History::at(setting);
    for (token, fate) in page.tokens.iter().zip(page.fates.iter()) {
        history = history.after(*token, fate);
    }
    history
}

/// Whether the last token may have a fate, told by the whole lists and by the flags, where these agree.
fn may_have(setting: Setting, history: History, page: &mut Page, fate: Fate) -> Result<bool> {
    let Some(last) = page.tokens.last() else {
        bail!("no token")
    };
    let told = history.may_have(*last, &fate);
    page.fates.push(fate)?;
    let judged = is_fated(setting, page.tokens.as_slice(), page.fates.as_slice());
    let _ = page.fates.pop();
    if told != judged {
        bail!("the flags say otherwise")
    }
    Ok(told)
}

/// Adds the fates that the last token may have.
fn may(alloc: Global, setting: Setting, words: &[&str], out: &mut String) -> Result<()> {
    let mut page = Page {
        tokens: Vec::new(alloc),
        fates: Vec::new(alloc),
    };
    may_of(&mut page, setting, words, out)
}

fn may_of(page: &mut Page, setting: Setting, words: &[&str], out: &mut String) -> Result<()> {
    read_page(page, words)?;
    let history = history_of(setting, page);
    for (word, fate) in &fates() {
        if may_have(setting, history, page, *fate)? {
            let space = if out.is_empty() { "" } else { " " };
            write!(out, "{space}{word}")?;
        }
    }
    Ok(())
}

/// Adds what a ledger says after the tokens of a row.
fn ledger(alloc: Global, setting: Setting, words: &[&str], out: &mut String) -> Result<()> {
    let mut ledger = Ledger::new(alloc, setting);
    ledger.reserve(3);
    if enter_counted(alloc, &mut ledger, words, out)? {
        show(out, ledger)
    } else {
        Ok(())
    }
}

/// Gives the tokens of a row their fates, says how many have one, and answers whether the ledger took all.
fn enter_counted(
    alloc: Global,
    ledger: &mut Ledger,
    words: &[&str],
    out: &mut String,
) -> Result<bool> {
    let is_taken = enter_all(alloc, ledger, words)?;
    let number = ledger.number();
    if is_taken {
        let kept = ledger.kept().len();
        write!(out, "{number} fates, {kept} kept")?;
    } else {
        write!(out, "no such fate at {number}")?;
    }
    Ok(is_taken)
}

/// The fates in their runs, and the errors.
fn show(out: &mut String, ledger: Ledger) -> Result<()> {
    let (fates, errors) = ledger.into_parts();
    show_parts(out, &fates, errors.as_slice())
}

fn show_parts(out: &mut String, fates: &Fates, errors: &[u64]) -> Result<()> {
    for run in fates.runs() {
        let (count, word) = (run.count, word_of(&run.fate));
        write!(out, ", {count} {word}")?;
    }
    out.push_str(", errors")?;
    for number in errors {
        write!(out, " {number}")?;
    }
    Ok(())
}
