// What is done, and what it took.
use crate::page::Page;
use crate::work::{
    adopt, list_many, look, make_many, misnest, nest, open_many, reopen_many, start, start_body,
};
use html_names::Tag;
use std::time::Instant;

/// How often a scope is looked through.
const LOOKS: u64 = 100;

/// How many elements are listed.
const LISTED: u64 = 100;

/// What is measured.
#[derive(Clone, Copy)]
pub(crate) enum Load {
    /// So many elements are opened, and looked through.
    Open,
    /// The listed elements are opened anew so many times.
    Reopened,
    /// `<b><p></b></p>` is read so many times.
    Misnested,
    /// The end tag of a `b` is followed in which so many elements of a name are open, and a `p` in them.
    Deep(&'static str),
}

/// Measures on a page of its own.
pub(crate) fn measure(rt: &HostRuntime, load: Load, count: u64, timed: bool) -> anyhow::Result<()> {
    let mut page = Page::new(rt.alloc());
    match load {
        Load::Open => measure_open(rt, &mut page, count, timed),
        Load::Reopened => measure_reopened(rt, &mut page, count, timed),
        Load::Misnested => measure_misnested(rt, &mut page, count, timed),
        Load::Deep(name) => measure_deep(rt, &mut page, name, count, timed),
    }
}

fn measure_open(rt: &HostRuntime, page: &mut Page, count: u64, timed: bool) -> anyhow::Result<()> {
    let made = time_making(rt, page, count)?;
    let opened = time_opening(rt, page, count)?;
    let looked = time_looking(rt, page)?;
    say(rt, "open", page.depth() as u128)?;
    say(rt, "steps", page.arena().meter().steps)?;
    if timed {
        say(rt, "made, us", made)?;
        say(rt, "made, opened, us", opened)?;
        say(rt, "looked, us", looked)?;
    }
    Ok(())
}

fn measure_reopened(
    rt: &HostRuntime,
    page: &mut Page,
    times: u64,
    timed: bool,
) -> anyhow::Result<()> {
    open_many(page, rt.alloc(), 1)?;
    list_many(page, rt.alloc(), LISTED)?;
    let start = Instant::now(rt)?;
    reopen_many(page, rt.alloc(), times)?;
    let took = start.elapsed(rt)?.as_micros();
    say(rt, "nodes reopened", page.arena().len() as u128)?;
    say(rt, "steps", page.arena().meter().steps)?;
    if timed {
        say(rt, "reopened, us", took)?;
    }
    Ok(())
}

fn measure_misnested(
    rt: &HostRuntime,
    page: &mut Page,
    times: u64,
    timed: bool,
) -> anyhow::Result<()> {
    start_body(page, rt.alloc())?;
    let start = Instant::now(rt)?;
    misnest(page, rt.alloc(), times)?;
    let took = start.elapsed(rt)?.as_micros();
    say(rt, "nodes misnested", page.arena().len() as u128)?;
    say(rt, "steps", page.arena().meter().steps)?;
    if timed {
        say(rt, "misnested, us", took)?;
    }
    Ok(())
}

/// Says what the end tag alone takes.
fn measure_deep(
    rt: &HostRuntime,
    page: &mut Page,
    name: &str,
    count: u64,
    timed: bool,
) -> anyhow::Result<()> {
    start_body(page, rt.alloc())?;
    nest(page, rt.alloc(), name, count)?;
    let _block = start(page, rt.alloc(), "p")?;
    let nodes = page.arena().len();
    let steps = page.arena().meter().steps;
    let before = Instant::now(rt)?;
    adopt(page, rt.alloc(), Tag::B, false)?;
    let took = before.elapsed(rt)?.as_micros();
    let clones = page.arena().len().saturating_sub(nodes);
    let steps = page.arena().meter().steps.saturating_sub(steps);
    say(rt, "clones", clones as u128)?;
    say(rt, "steps", steps)?;
    if timed {
        say(rt, "adopted, us", took)?;
    }
    Ok(())
}

fn time_making(rt: &HostRuntime, page: &mut Page, count: u64) -> anyhow::Result<u128> {
    let start = Instant::now(rt)?;
    make_many(page, rt.alloc(), count)?;
    Ok(start.elapsed(rt)?.as_micros())
}

fn time_opening(rt: &HostRuntime, page: &mut Page, count: u64) -> anyhow::Result<u128> {
    let start = Instant::now(rt)?;
    open_many(page, rt.alloc(), count)?;
    Ok(start.elapsed(rt)?.as_micros())
}

fn time_looking(rt: &HostRuntime, page: &mut Page) -> anyhow::Result<u128> {
    let start = Instant::now(rt)?;
    look(page, LOOKS);
    Ok(start.elapsed(rt)?.as_micros())
}

/// Prints a number under its name.
fn say(rt: &HostRuntime, name: &str, number: u128) -> anyhow::Result<()> {
    println!(rt; "{name:<16} {number:>12}")?;
    Ok(())
}
