//! Calls, a row each on standard input, and what came of each on standard output: how many tokens the tokenizer gave, or tree construction took, how
//! many nodes a page has or a fragment, or why there is none. So tools/refuse-memory refuses each allocation of each of these calls.
//! A program, imported by nobody.
//!
//! A row is `CALL|TEXT`, and CALL is `next`, `process`, `parse`, `parse_fragment`, `owned` or `owned_tree`. A fragment stands in a `div`. The last two
//! compare the page in pieces, by a parser that owns its table, with the page of the whole.
#![tactic(auto)]

mod counts;
mod owned;
mod rows;

use anyhow::Result;
use std::io::Read;

fn main(rt: HostRuntime) -> Result<()> {
    let mut bytes = Vec::new(rt.alloc());
    rt.stdin().read_to_end(&mut bytes)?;
    rows::run(&rt, bytes.as_slice())
}
