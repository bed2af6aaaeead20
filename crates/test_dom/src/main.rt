//! Rows of the calls that read and edit nodes. Each is a piece of a page, a bar, and a call: a word, and names of elements, of which the first one in
//! the piece is meant; `root` is the root, `none` a node that is not there, `contents` the node of a template's contents.
//! A program, imported by nobody.
#![tactic(auto)]

mod edits;
mod reads;
mod words;

use anyhow::{Context as _, Result};
use edits::edit;
use html_parser::{
    Arena, Context, EntityTable, Foreign, NodeId, Options, Str, Tree, parse_tree_with,
};
use reads::read;
use std::alloc::Global;
use std::io::Read;
use words::Words;

fn main(rt: HostRuntime) -> Result<()> {
    let mut bytes = Vec::new(rt.alloc());
    rt.stdin().read_to_end(&mut bytes)?;
    let table = EntityTable::core(rt.alloc())?;
    print_rows(&rt, &table, std::str::from_utf8(bytes.as_slice())?)
}

fn print_rows(rt: &HostRuntime, table: &EntityTable, text: &str) -> Result<()> {
    for line in text.lines() {
        println!(rt; "{line}")?;
        if !line.starts_with("#") {
            print_answer(rt, table, line)?;
        }
    }
    Ok(())
}

fn print_answer(rt: &HostRuntime, table: &EntityTable, row: &str) -> Result<()> {
    let (piece, call) = row.split_once(" | ").context("no bar")?;
    let mut out = String::new(rt.alloc());
    answer(rt.alloc(), table, piece, call, &mut out)?;
    println!(rt; "  {out}")?;
    Ok(())
}

fn answer(
    alloc: Global,
    table: &EntityTable,
    piece: &str,
    call: &str,
    out: &mut String,
) -> Result<()> {
    let mut tree = tree_of(alloc, table, piece)?;
    let words = Words::of(call);
    act(alloc, &mut tree.arena, tree.root, &words, out)
}

fn act(
    alloc: Global,
    arena: &mut Arena,
    root: NodeId,
    words: &Words<'_>,
    out: &mut String,
) -> Result<()> {
    if read(arena, root, words, out)? {
        return Ok(());
    }
    edit(alloc, arena, root, words, out)
}

fn tree_of(alloc: Global, table: &EntityTable, piece: &str) -> Result<Tree> {
    let context = Context {
        name: Str::of(alloc, "body")?,
        in_form: false,
        quirks: false,
        encoding: None,
    };
    let options = Options::new()
        .with_foreign(Foreign::Parse)
        .with_context(context);
    Ok(parse_tree_with(alloc, table, &options, piece.as_bytes())?)
}
