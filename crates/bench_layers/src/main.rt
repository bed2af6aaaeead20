//! How fast the layers below tree construction are. Without words it does a small run of each measure, under its name, and prints no time,
//! so that what it prints is fixed. With words it does one of them in full:
//! A program, imported by nobody.
//!
//! - `decoding` decodes 64 MiB of each of four inputs.
//! - `references FILE` reads a file of named references, and finds the references of a long text.
//! - `tokens [NAME]` cuts long texts into tokens, or the one of that name.
//! - `trees TIMES` builds trees of several shapes, so many times as large as in the small run, walks them and writes them, and adds a text
//!   of 16 MB to a tree.
#![tactic(auto)]

mod clock;
mod commands;
mod decoding;
mod inputs;
mod references;
mod tokens;
mod trees;

use anyhow::Result;
use commands::Command;
use html_charref::EntityTable;
use std::env;

fn main(rt: HostRuntime) -> Result<()> {
    let words: Vec<String> = env::args(&rt)?.collect(rt.alloc())?;
    follow(&rt, words.as_slice())
}

/// Does what the words say.
fn follow(rt: &HostRuntime, words: &[String]) -> Result<()> {
    let command = Command::read(words)?;
    let table = EntityTable::core(rt.alloc())?;
    measure(rt, &table, command)
}

fn measure(rt: &HostRuntime, table: &EntityTable, command: Command<'_>) -> Result<()> {
    match command {
        Command::Small => small_runs(rt, table),
        Command::Decoding => decoding::show_all(rt, true),
        Command::References { path } => references::read_and_find(rt, path),
        Command::Tokens { name } => tokens::show_all(rt, table, name, true),
        Command::Trees { times } => trees::show_all(rt, Some(times)),
    }
}

/// A small run of each measure.
fn small_runs(rt: &HostRuntime, table: &EntityTable) -> Result<()> {
    println!(rt; "# decoding")?;
    decoding::show_all(rt, false)?;
    println!(rt; "# references")?;
    references::find_few(rt, table)?;
    println!(rt; "# tokens")?;
    tokens::show_all(rt, table, None, false)?;
    println!(rt; "# trees")?;
    trees::show_all(rt, None)
}
