// What is done, and what it took.
use crate::page::Page;
use crate::refusal::Refusal;
use html_names::{Scope, Tag};
use html_text::Str;
use html_tokens::Attrs;
use html_tree::{Group, Stop, Target};
use std::alloc::Global;
use std::time::Instant;

/// Opens so many `div`, each in the one before, after a look for an open `p`.
pub(crate) fn measure_nested(rt: &HostRuntime, count: u64, timed: bool) -> anyhow::Result<()> {
    let mut page = Page::document(rt.alloc())?;
    time_nested(rt, &mut page, count, timed)
}

fn time_nested(rt: &HostRuntime, page: &mut Page, count: u64, timed: bool) -> anyhow::Result<()> {
    let start = Instant::now(rt)?;
    nest(page, rt.alloc(), count)?;
    let took = start.elapsed(rt)?.as_micros();
    say(rt, "open", page.depth() as u128)?;
    if timed {
        say(rt, "opened, us", took)?;
    }
    Ok(())
}

fn nest(page: &mut Page, alloc: Global, count: u64) -> Result<(), Refusal> {
    page.insert_implied_root()?;
    page.insert_implied(Tag::Body, false)?;
    for _ in 0..count {
        page.close(Group::Named(Tag::P), Stop::EndOf(Scope::Button));
        let name = Str::of(alloc, "div")?;
        page.insert(name, Attrs::new(alloc), Target::Current(false))?;
    }
    Ok(())
}

/// Prints a number under its name.
fn say(rt: &HostRuntime, name: &str, number: u128) -> anyhow::Result<()> {
    println!(rt; "{name:<16} {number:>12}")?;
    Ok(())
}
