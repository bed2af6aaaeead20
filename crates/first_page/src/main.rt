//! Parses a page, prints the names of its elements in tree order, and writes the page normalised.
//! A program, imported by nobody.
#![tactic(auto)]

mod names;

use anyhow::Result;
use html_parser::{EntityTable, OverWrite, Profile, parse, serialise};
use names::print_names;

const PAGE: &[u8] = b"<title>Two</title><p>One<p>Two & <b>three";

fn main(rt: HostRuntime) -> Result<()> {
    let table = EntityTable::core(rt.alloc())?;
    let page = parse(rt.alloc(), &table, PAGE)?;
    print_names(&rt, &page.arena, page.root)?;
    let mut out = OverWrite::new(Vec::new(rt.alloc()));
    serialise(&page, Profile::One, &mut out)?;
    println!(rt; "{}", std::str::from_utf8(out.into_inner().as_slice())?)?;
    Ok(())
}
