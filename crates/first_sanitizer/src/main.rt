//! A sanitizer: of each line, which is a piece of a page, what a list of elements, attributes and schemes allows. The first line has named references.
//! A program, imported by nobody.
#![tactic(auto)]

mod clean;
mod policy;

use anyhow::{Context, Result};
use clean::Sanitizer;
use html_parser::EntityTable;
use policy::allowed;
use std::io::Read;

fn main(rt: HostRuntime) -> Result<()> {
    let mut bytes = Vec::new(rt.alloc());
    rt.stdin().read_to_end(&mut bytes)?;
    let text = std::str::from_utf8(bytes.as_slice())?;
    let (first, rest) = text.split_once('\n').context("no table")?;
    let table = EntityTable::read(rt.alloc(), first.as_bytes())?;
    print_clean(&rt, &table, rest)
}

fn print_clean(rt: &HostRuntime, table: &EntityTable, text: &str) -> Result<()> {
    let list = allowed(rt.alloc())?;
    let sanitizer = Sanitizer {
        alloc: rt.alloc(),
        table,
        list: &list,
    };
    for line in text.lines() {
        if !line.starts_with("#") {
            let clean = sanitizer.sanitise(line.as_bytes())?;
            println!(rt; "{}", std::str::from_utf8(clean.as_slice())?)?;
        }
    }
    Ok(())
}
