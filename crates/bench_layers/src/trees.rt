//! Trees of several shapes, built, walked and written, and texts of 16 MB.

mod build;
mod count;

use crate::clock::Stopwatch;
use anyhow::Result;
use build::{Shape, Way, build, is_root, long_text};
use count::count;
use html_arena::{Arena, NewNode, NodeId};
use html_page::{DeviceFault, Profile, Sink, serialise_tree};

/// A thousandth of each shape, but for its depth.
const SHAPES: &[Shape] = &[
    Shape {
        name: "nodes",
        elements: 500,
        depth: 64,
        character: 'x',
        copies: 4,
    },
    Shape {
        name: "text",
        elements: 1,
        depth: 1,
        character: 'x',
        copies: 16_000,
    },
    Shape {
        name: "escapes",
        elements: 1,
        depth: 1,
        character: '&',
        copies: 4_000,
    },
    Shape {
        name: "deep",
        elements: 200,
        depth: 200_000,
        character: 'x',
        copies: 1,
    },
];

/// A writer that counts the bytes.
#[derive(Drop)]
struct Counter {
    bytes: u64,
}

impl Sink for Counter {
    ghost use Rattle.std.specs.Prelude.{None, false};

    ghost taken = { λ _. None };

    ghost failed = { λ _. false };

    ghost stalled = { λ _. false };

    fn write(&mut self, bytes: &[u8]) -> Result<usize, DeviceFault> {
        self.bytes = self.bytes.saturating_add(bytes.len() as u64);
        Ok(bytes.len())
    }
}

/// Builds the shapes, walks them and writes them, and says how large a node is. Given a number, it takes them so many times as large, and
/// says too how long that took, and how long a text of 16 MB takes.
pub(crate) fn show_all(rt: &HostRuntime, times: Option<u32>) -> Result<()> {
    for shape in SHAPES {
        show(rt, *shape, times)?;
    }
    if times.is_some() {
        show_text(rt, "in runs", Way::InRuns)?;
        show_text(rt, "singly", Way::OneByOne)?;
    }
    let bytes = Arena::NODE_BYTES;
    println!(rt; "bytes a node: {bytes}")?;
    Ok(())
}

/// Builds one shape, walks it and writes it.
fn show(rt: &HostRuntime, shape: Shape, times: Option<u32>) -> Result<()> {
    let mut arena = Arena::new(rt.alloc());
    show_in(rt, &mut arena, shape, times)
}

fn show_in(rt: &HostRuntime, arena: &mut Arena, shape: Shape, times: Option<u32>) -> Result<()> {
    let watch = Stopwatch::by_clock(rt);
    let root = arena.make(NewNode::Document)?;
    build(rt.alloc(), arena, root, larger(shape, times.unwrap_or(1)))?;
    let built = watch.micros(rt);
    show_built(rt, shape.name, arena)?;
    let walked = show_walked(rt, arena, root)?;
    let written = show_written(rt, arena, root)?;
    if times.is_some() {
        println!(rt; "         built in {built} us, walked in {walked}, written in {written}")?;
    }
    Ok(())
}

/// Says what a tree holds.
fn show_built(rt: &HostRuntime, name: &str, arena: &Arena) -> Result<()> {
    let (nodes, held, steps) = (arena.len(), arena.held(), arena.meter().steps);
    println!(rt; "{name:>8} {nodes:>9} nodes {held:>9} held {steps:>9} steps")?;
    Ok(())
}

/// Walks a tree, says what it meets, and answers how many microseconds that took.
fn show_walked(rt: &HostRuntime, arena: &Arena, root: NodeId) -> Result<u128> {
    let watch = Stopwatch::by_clock(rt);
    let counts = count(arena, root);
    let took = watch.micros(rt);
    let (entered, depth) = (counts.entered, counts.depth);
    println!(rt; "         {entered:>9} entered, {depth} deep")?;
    Ok(took)
}

/// Writes a tree, says how many bytes that are, and answers how many microseconds it took.
fn show_written(rt: &HostRuntime, arena: &Arena, root: NodeId) -> Result<u128> {
    let watch = Stopwatch::by_clock(rt);
    let bytes = written(arena, root)?;
    let took = watch.micros(rt);
    println!(rt; "         {bytes:>9} bytes")?;
    Ok(took)
}

/// Adds a text of 16 MB.
fn show_text(rt: &HostRuntime, name: &str, way: Way) -> Result<()> {
    let watch = Stopwatch::by_clock(rt);
    let held = long_text(rt.alloc(), way)?.held();
    let took = watch.micros(rt);
    println!(rt; "{name:>8} {held:>9} held, {took} us")?;
    Ok(())
}

/// A shape, so many times as large.
fn larger(shape: Shape, times: u32) -> Shape {
    let times = u64::from(times);
    let mut large = shape;
    if shape.elements > 1 {
        large.elements = shape.elements.saturating_mul(times);
    } else {
        large.copies = shape.copies.saturating_mul(times);
    }
    large
}

/// How many bytes a tree is written in.
fn written(arena: &Arena, root: NodeId) -> Result<u64> {
    let mut counter = Counter { bytes: 0 };
    if is_root(arena, root) {
        serialise_tree(arena, root, Profile::One, &mut counter)?;
    }
    Ok(counter.bytes)
}
