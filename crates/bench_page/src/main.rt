//! How long pages take, foreign content parsed. `bench FILE REPS` parses the bytes of a file so many times to a tree and lets it go, and prints one line: `ours`, the
//! bytes, the times, the least and the median time of a parse and the least time in which a tree was let go, in milliseconds, the nodes,
//! and the most memory that the process had, in kilobytes (0 where the system doesn't tell). `ledger FILE REPS` does the same with a parser
//! that keeps the tokens and their fates. Without an argument it parses small pages, and prints how large their trees are.
//! A program, imported by nobody.
#![tactic(auto)]

use anyhow::{Result, bail};
use html_parser::{EntityTable, Foreign, Options, ParseError, parse_tree_with, parse_with};
use std::alloc::{AllocError, Global};
use std::env;
use std::fs::File;
use std::io::Read;
use std::time::Instant;

/// A small page: one piece of it, and how often it stands there.
struct Load {
    name: &'static str,
    piece: &'static str,
    times: u32,
}

const LOADS: [Load; 6] = [
    Load {
        name: "text",
        piece: "The quick brown fox jumps over the lazy dog. ",
        times: 40,
    },
    Load {
        name: "elements",
        piece: "<div class=\"wide\"><p>One <b>and</b> two.</p></div>",
        times: 20,
    },
    Load {
        name: "tables",
        piece: "<table><tr><td>1<td>2<tr><td>3</table>",
        times: 10,
    },
    Load {
        name: "misnested",
        piece: "<b>1<p>2</b>3</p>",
        times: 10,
    },
    Load {
        name: "reopened",
        piece: "<p><b id=a><i id=b>x",
        times: 10,
    },
    Load {
        name: "icons",
        piece: "<svg viewbox=\"0 0 24 24\"><path d=\"M1 2h3\"/></svg>",
        times: 10,
    },
];

/// How long a page took, in microseconds.
#[derive(Clone, Copy)]
struct Taken {
    parse: u128,
    free: u128,
    nodes: u64,
}

fn main(rt: HostRuntime) -> Result<()> {
    let words: Vec<String> = env::args(&rt)?.collect(rt.alloc())?;
    match words.as_slice() {
        [_, command, path, times, ..] => {
            measure(&rt, command.as_str(), path.as_str(), times.as_str())
        }
        [_, _, ..] => bail!("bench FILE REPS, or ledger FILE REPS"),
        _ => small(&rt),
    }
}

/// Parses small pages.
fn small(rt: &HostRuntime) -> Result<()> {
    let table = EntityTable::core(rt.alloc())?;
    small_over(rt, &table)
}

fn small_over(rt: &HostRuntime, table: &EntityTable) -> Result<()> {
    for load in &LOADS {
        show(rt, table, load)?;
    }
    Ok(())
}

/// Says how large the tree of a small page is.
fn show(rt: &HostRuntime, table: &EntityTable, load: &Load) -> Result<()> {
    let page = repeated(rt.alloc(), load.piece, load.times)?;
    let (tokens, nodes) = sizes(rt.alloc(), table, page.as_slice())?;
    let (name, bytes) = (load.name, page.len());
    println!(rt; "{name}: {bytes} bytes, {tokens} tokens, {nodes} nodes")?;
    Ok(())
}

/// How many tokens and nodes a page has.
fn sizes(alloc: Global, table: &EntityTable, page: &[u8]) -> Result<(u64, u64), ParseError> {
    let tree = parse_tree_with(alloc, table, &options(), page)?;
    Ok((tree.token_count, tree.arena.len()))
}

/// Does what a command says with a file.
fn measure(rt: &HostRuntime, command: &str, path: &str, times: &str) -> Result<()> {
    let keeps_ledger = match command {
        "bench" => false,
        "ledger" => true,
        _ => bail!("no such command"),
    };
    let times = times.parse::<u32>()?;
    let bytes = bytes_of(rt, path)?;
    measure_bytes(rt, bytes.as_slice(), times, keeps_ledger)
}

fn measure_bytes(rt: &HostRuntime, bytes: &[u8], times: u32, keeps_ledger: bool) -> Result<()> {
    let table = EntityTable::core(rt.alloc())?;
    bench(rt, &table, bytes, times, keeps_ledger)
}

fn repeated(alloc: Global, piece: &str, times: u32) -> Result<Vec<u8>, AllocError> {
    let mut page = Vec::new(alloc);
    for _ in 0..times {
        page.extend_from_slice(piece.as_bytes())?;
    }
    Ok(page)
}

/// Parses a page so many times, and prints what that took.
fn bench(
    rt: &HostRuntime,
    table: &EntityTable,
    bytes: &[u8],
    times: u32,
    keeps_ledger: bool,
) -> Result<()> {
    let mut taken = Vec::new(rt.alloc());
    let mut free = u128::MAX;
    let mut nodes = 0;
    for _ in 0..times {
        let once = if keeps_ledger {
            with_ledger(rt, table, bytes)?
        } else {
            without_ledger(rt, table, bytes)?
        };
        taken.push(once.parse)?;
        free = free.min(once.free);
        nodes = once.nodes;
    }
    taken.as_mut_slice().sort_unstable();
    let Some(best) = taken.first() else {
        bail!("no time at all");
    };
    let best = milliseconds(rt.alloc(), *best)?;
    let median = milliseconds(rt.alloc(), taken[taken.len() / 2])?;
    let free = milliseconds(rt.alloc(), free)?;
    let length = bytes.len();
    let peak = peak_memory(rt);
    println!(rt; "ours {length} {times} {best} {median} {free} {nodes} {peak}")?;
    Ok(())
}

/// What is asked of parsing.
fn options() -> Options {
    Options::new().with_foreign(Foreign::Parse)
}

fn with_ledger(rt: &HostRuntime, table: &EntityTable, bytes: &[u8]) -> Result<Taken> {
    let start = Instant::now(rt)?;
    let page = parse_with(rt.alloc(), table, &options(), bytes)?;
    let parse = start.elapsed(rt)?.as_micros();
    let nodes = page.arena.len();
    let start = Instant::now(rt)?;
    drop(page);
    let free = start.elapsed(rt)?.as_micros();
    Ok(Taken { parse, free, nodes })
}

fn without_ledger(rt: &HostRuntime, table: &EntityTable, bytes: &[u8]) -> Result<Taken> {
    let start = Instant::now(rt)?;
    let tree = parse_tree_with(rt.alloc(), table, &options(), bytes)?;
    let parse = start.elapsed(rt)?.as_micros();
    let nodes = tree.arena.len();
    let start = Instant::now(rt)?;
    drop(tree);
    let free = start.elapsed(rt)?.as_micros();
    Ok(Taken { parse, free, nodes })
}

/// A number of microseconds as milliseconds.
fn milliseconds(alloc: Global, micros: u128) -> Result<String, AllocError> {
    let mut text = String::new(alloc);
    let whole = micros / 1000;
    let rest = micros % 1000;
    write!(text, "{whole}.{rest:03}")?;
    Ok(text)
}

/// The most memory that the process had, in kilobytes, where the system tells.
fn peak_memory(rt: &HostRuntime) -> u64 {
    let Ok(bytes) = bytes_of(rt, "/proc/self/status") else {
        return 0;
    };
    let Ok(text) = std::str::from_utf8(bytes.as_slice()) else {
        return 0;
    };
    for line in text.lines() {
        if let Some(rest) = line.strip_prefix("VmHWM:") {
            let number = rest.trim().trim_end_matches("kB").trim();
            return number.parse::<u64>().unwrap_or(0);
        }
    }
    0
}

/// The bytes of a file.
fn bytes_of(rt: &HostRuntime, path: &str) -> Result<Vec<u8>> {
    let mut bytes = Vec::new(rt.alloc());
    File::open(rt, path).and_then(|mut file| file.read_to_end(&mut bytes))?;
    Ok(bytes)
}
