//! Tokens with their fates, a row each: which fates a token may have, and what a ledger says after them.
//! A program, imported by nobody.
//!
//! Standard input has the rows: what is asked, what is parsed, and then words with a space between them.
//!
//! - What is parsed: `document`, `fragment:td` with the name of the context, `form:div` where a form stands around it.
//! - A token: `<p>`, `</p>`, `comment`, `doctype`, `eof`, or one code point; `␣` is a space, `␊` U+000A, `␀` U+0000.
//! - Its fate: `made`, `foreign`, `merged`, `text`, `ended`, or the cause by which it is dropped; `ignored` for an end tag that has
//!   no effect.
//!
//! `may` has tokens, each but the last with its fate, and is answered by the fates that the last one may have: told by
//! whole lists and by the flags of a history, which have to agree. `ledger` has tokens with their fates, which are given
//! one by one, and is answered by what the ledger says then. In it a code point may be `kept`, `+` gives those that were
//! kept their fates, and `+ab` gives code points their fates in one go.
//!
//! `tokens` has a number and then tokens that are put into a list: `a@3-4` a code point with its span, `</p@4-8` an end
//! tag, `eof@8-8`, and `abc@3` three code points of text from a place on. It is answered by their number, the tokens,
//! and the one of that number.
//!
//! Given a number of code points, the program says what it took to give them their fates, one by one and in one go.
#![tactic(auto)]

mod entering;
mod lists;
mod measures;
mod rows;
mod words;

use anyhow::Result;
use std::env;

fn main(rt: HostRuntime) -> Result<()> {
    match given(&rt)? {
        Some(count) => measures::measure(&rt, count),
        None => answer_rows(&rt),
    }
}

/// The number that is given to the program.
fn given(rt: &HostRuntime) -> Result<Option<u64>> {
    let word = env::args(rt)?.nth(1);
    Ok(word.and_then(|word| word.as_str().parse::<u64>().ok()))
}

fn answer_rows(rt: &HostRuntime) -> Result<()> {
    let mut out = String::new(rt.alloc());
    for line in rt.lines(rt.alloc()) {
        answer_row(rt, line?.as_str(), &mut out)?;
    }
    Ok(())
}

fn answer_row(rt: &HostRuntime, line: &str, out: &mut String) -> Result<()> {
    rows::answer(rt.alloc(), line, out)?;
    println!(rt; "{line}\n  {out}")?;
    out.clear();
    Ok(())
}
