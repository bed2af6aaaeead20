//! How fast named references are found.

use crate::clock::{Stopwatch, in_a_microsecond};
use crate::inputs::{bytes_of, repeated_text};
use anyhow::Result;
use html_charref::{EntityTable, Step};

const TEXT: &str = "&amp; a&lt;b &quot;c&gt; &nbsp;&notin;&CounterClockwiseContourIntegral;&no &x";

#[derive(Clone, Copy)]
struct Found {
    references: u64,
    steps: u64,
}

/// Finds the references of a short text.
pub(crate) fn find_few(rt: &HostRuntime, table: &EntityTable) -> Result<()> {
    let text = repeated_text(rt.alloc(), TEXT, 1)?;
    show_found(rt, table, text.as_slice(), false)
}

/// Reads the table of a file, and finds the references of a long text.
pub(crate) fn read_and_find(rt: &HostRuntime, path: &str) -> Result<()> {
    let file = bytes_of(rt, path)?;
    read_and_find_in(rt, file.as_slice())
}

fn read_and_find_in(rt: &HostRuntime, file: &[u8]) -> Result<()> {
    let watch = Stopwatch::by_processor(rt);
    let table = EntityTable::read(rt.alloc(), file)?;
    show_read(rt, &table, watch)
}

/// Says what was read, and finds the references of a long text.
fn show_read(rt: &HostRuntime, table: &EntityTable, watch: Stopwatch) -> Result<()> {
    let micros = watch.micros(rt);
    let longest = table.longest_name();
    println!(rt; "table read in {micros} microseconds, longest name {longest}")?;
    let text = repeated_text(rt.alloc(), TEXT, 100_000)?;
    show_found(rt, table, text.as_slice(), true)
}

fn show_found(rt: &HostRuntime, table: &EntityTable, text: &[char], is_timed: bool) -> Result<()> {
    let watch = Stopwatch::by_processor(rt);
    let found = find(table, text);
    let micros = watch.micros(rt);
    let (references, steps) = (found.references, found.steps);
    if is_timed {
        let speed = in_a_microsecond(references.saturating_mul(1_000_000), micros);
        println!(rt;
            "{references} references in {steps} steps, {micros} microseconds: {speed} references a second"
        )?;
    } else {
        println!(rt; "{references} references in {steps} steps")?;
    }
    Ok(())
}

/// Walks from each ampersand to the end of the walk.
fn find(table: &EntityTable, text: &[char]) -> Found {
    let mut found = Found {
        references: 0,
        steps: 0,
    };
    let mut walk = None;
    for &c in text {
        if c == '&' {
            walk = Some(table.walk());
        }
        if let Some(mut on) = walk {
            found.steps = found.steps.wrapping_add(1);
            match on.step(c) {
                Step::More => walk = Some(on),
                Step::End(Some(_)) => {
                    found.references = found.references.wrapping_add(1);
                    walk = None;
                }
                Step::End(None) => walk = None,
            }
        }
    }
    found
}
