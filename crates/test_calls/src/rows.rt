// Rows, and the line of each.

use crate::counts::{fragment_nodes, page_nodes, tokens_given, tokens_taken};
use crate::owned::{owned_nodes, owned_tree_nodes};
use anyhow::{Result, bail};
use html_parser::ParseError;
use std::alloc::Global;

/// Prints for each row what comes of its call.
pub(crate) fn run(rt: &HostRuntime, bytes: &[u8]) -> Result<()> {
    let text = std::str::from_utf8(bytes)?;
    for line in text.lines() {
        let Some((call, input)) = line.split_once('|') else {
            bail!("a row without a text");
        };
        print_row(rt, call, input)?;
    }
    Ok(())
}

fn print_row(rt: &HostRuntime, call: &str, input: &str) -> Result<()> {
    let Some(count) = count_of(rt.alloc(), call, input) else {
        bail!("no such call");
    };
    match count {
        Ok(count) => println!(rt; "{call}: {count}")?,
        Err(error) => println!(rt; "{call}: refused: {error}")?,
    }
    Ok(())
}

/// What comes of a call, where there is one of this name.
fn count_of(alloc: Global, call: &str, input: &str) -> Option<Result<u64, ParseError>> {
    match call {
        "next" => Some(tokens_given(alloc, input)),
        "process" => Some(tokens_taken(alloc, input)),
        "parse" => Some(page_nodes(alloc, input.as_bytes())),
        "parse_fragment" => Some(fragment_nodes(alloc, input.as_bytes())),
        "owned" => Some(owned_nodes(alloc, input.as_bytes())),
        "owned_tree" => Some(owned_tree_nodes(alloc, input.as_bytes())),
        _ => None,
    }
}
