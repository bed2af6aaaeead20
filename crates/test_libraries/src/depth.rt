// Pages of great depth, through the commands: depth costs no stack.

use crate::pages::{Part, page_of};
use crate::same::same;
use html_job::{Command, Foreign, Job, Profile};
use html_parser::{DeviceFault, OverRead, OverWrite, Sink};
use html_run::{DONE, run};
use std::alloc::{AllocError, Global};

/// How many `span` elements stand one in the other: no block, as each of these looks for an open `p` down the stack.
const DEPTH: u32 = 100_000;

/// A page of nested elements.
const NESTED: [Part; 4] = [
    Part::Times(1, "<!DOCTYPE html><html><head></head><body>"),
    Part::Times(DEPTH, "<span>"),
    Part::Times(DEPTH, "</span>"),
    Part::Times(1, "</body></html>"),
];

/// A writer that counts the bytes.
#[derive(Drop)]
struct Counter {
    bytes: u64,
}

impl Sink for Counter {
    ghost use Rattle.std.specs.Prelude.{None, false};

    ghost taken = { λ _. None };

    ghost failed = { λ _. false };

    ghost stalled = { λ _. false };

    fn write(&mut self, bytes: &[u8]) -> Result<usize, DeviceFault> {
        self.bytes = self.bytes.saturating_add(bytes.len() as u64);
        Ok(bytes.len())
    }
}

fn job_of(alloc: Global, command: Command) -> Job<'static> {
    Job {
        command,
        entities: None,
        fragment: None,
        context_encoding: None,
        foreign: Foreign::Refuse,
        max_nodes: None,
        max_held: None,
        max_input: None,
        max_steps: None,
        profile: Profile::One,
        lines: false,
        verbose: false,
        inputs: Vec::new(alloc),
        files: Vec::new(alloc),
    }
}

/// Does a job over a page, and answers its status.
fn ran<W: Sink>(alloc: Global, command: Command, page: &str, writer: &mut W) -> u8 {
    let job = job_of(alloc, command);
    let mut reader = OverRead::new(page.as_bytes());
    let mut faults = OverWrite::new(Vec::new(alloc));
    run(alloc, &job, "-", None, &mut reader, writer, &mut faults)
}

/// Whether a page is normalised to itself.
fn is_normal(alloc: Global, page: &str) -> bool {
    let mut writer = OverWrite::new(Vec::new(alloc));
    let status = ran(alloc, Command::Normalise, page, &mut writer);
    let written = writer.into_inner();
    status == DONE && written.as_slice() == page.as_bytes()
}

/// Whether the nested elements are normalised to themselves.
fn is_nested_normal(alloc: Global) -> Result<bool, AllocError> {
    let page = page_of(alloc, NESTED.as_slice())?;
    Ok(is_normal(alloc, page.as_str()))
}

#[test]
fn normalises_a_deep_page(rt: HostRuntime) {
    same(&rt, is_nested_normal(rt.alloc()), Ok(true));
}

/// The lines of `html`, `head`, `body` and the doctype, and for each `span` its indentation and nine bytes: the first
/// stands four spaces from the left, each further one two more.
const PRINTED: u64 = 18 + 9 + 11 + 11 + 9 * 100_000 + 2 * (100_001 * 100_002 / 2 - 1);

/// How many bytes the tree of the nested elements is printed in, and the status.
fn printed(alloc: Global) -> Result<(u64, u8), AllocError> {
    let page = page_of(alloc, NESTED.as_slice())?;
    let mut writer = Counter { bytes: 0 };
    let status = ran(alloc, Command::Tree, page.as_str(), &mut writer);
    Ok((writer.bytes, status))
}

#[test]
fn prints_a_deep_page(rt: HostRuntime) {
    same(&rt, printed(rt.alloc()), Ok((PRINTED, DONE)));
}
