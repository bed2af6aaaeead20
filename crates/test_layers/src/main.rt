//! Rows of the layers below tree construction, and what they answer: references, tokens, nodes.
//! A program, imported by nobody.
//!
//! Standard input has a table of named references in its first line, as JSON. Below it a line `= references`, `= tokens` or
//! `= arena` says of which sort the next rows are, and a line that begins with `#` what they show. How a row is written
//! stands at the head of its sort's module.
#![tactic(auto)]

mod arena;
mod references;
mod sorts;
mod tokens;
mod words;

use anyhow::{Context, Result};
use html_charref::EntityTable;
use sorts::{Sort, answer};
use std::io::Read;

fn main(rt: HostRuntime) -> Result<()> {
    let mut bytes = Vec::new(rt.alloc());
    rt.stdin().read_to_end(&mut bytes)?;
    answer_input(&rt, bytes.as_slice())
}

/// Reads the table, and prints what the rows below it answer.
fn answer_input(rt: &HostRuntime, bytes: &[u8]) -> Result<()> {
    let text = std::str::from_utf8(bytes)?;
    let (first, rest) = text.split_once('\n').context("no table")?;
    let table = EntityTable::read(rt.alloc(), first.as_bytes())?;
    answer_lines(rt, &table, rest)
}

fn answer_lines(rt: &HostRuntime, table: &EntityTable, lines: &str) -> Result<()> {
    let mut sort = None;
    for line in lines.lines() {
        println!(rt; "{line}")?;
        if let Some(name) = line.strip_prefix("= ") {
            sort = Some(Sort::named(name)?);
        } else if !line.starts_with("#") {
            print_answer(rt, table, sort.context("a row above all headings")?, line)?;
        }
    }
    Ok(())
}

fn print_answer(rt: &HostRuntime, table: &EntityTable, sort: Sort, row: &str) -> Result<()> {
    let mut out = String::new(rt.alloc());
    answer(rt.alloc(), table, sort, row, &mut out)?;
    println!(rt; "  {out}")?;
    Ok(())
}
