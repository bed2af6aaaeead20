//! Worked pages, a row each on standard input, with what the parser gives for them on standard output: the tree in one line, its counts, and
//! where a row asks for it the ledger and the errors, or the page as HTML. Each page is also parsed cut in two after every byte, byte by
//! byte, in pieces of other lengths, and by each other call that takes such an input, and where anything else comes of it, its steps included,
//! a line says so; so is every front of the page, which has a page too, or foreign content. A page without limits is also parsed within a
//! limit of its own steps, and refused within one less; its steps are held to what is proved of them; and a document is read and written by devices that
//! fail at each of their calls.
//! A program, imported by nobody.
//!
//! The first line is a table of named character references, as JSON. A row is `NAME|WORDS|PAGE`. Words are `audit`, `html`, `context=NAME`,
//! `encoding=VALUE` (of the context), `in_form`, `quirks`, `foreign` (foreign content is parsed), and limits: `nodes=N`, `held=N`, `input=N`, `steps=N`. In a page and in the name of a context `␊`, `␍`, `␀` and `␠` stand for what they show.
#![tactic(auto)]

mod audit;
mod brackets;
mod budgets;
mod calls;
mod cuts;
mod faults;
mod page;
mod rows;

use anyhow::Result;
use std::io::Read;

fn main(rt: HostRuntime) -> Result<()> {
    let mut bytes = Vec::new(rt.alloc());
    rt.stdin().read_to_end(&mut bytes)?;
    rows::run(&rt, bytes.as_slice())
}
