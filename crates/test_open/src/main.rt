//! A page under way, as a builder keeps it: elements are made, linked, opened and listed, so that the calls of html_open
//! can be seen at work.
//! A program, imported by nobody.
//!
//! Standard input has rows of calls, a word each, and a line that begins with `#` says what the next rows show. A row's
//! answers are those of the calls after its last `|`, each with a slash and its steps. After the rows the program opens
//! many elements, looks through them, opens listed elements anew many times over, follows end tags that are mis-nested,
//! many of them and one round many elements, blocks or not. Given how many, it reads no rows, and says too what that took.
#![tactic(auto)]

mod calls;
mod markup;
mod measures;
mod page;
mod refusal;
mod rows;
mod shown;
mod work;

use measures::Load;
use rows::answer;
use std::env;

fn main(rt: HostRuntime) -> anyhow::Result<()> {
    match given(&rt)? {
        Some(count) => measure(&rt, count, true),
        None => {
            answer_rows(&rt)?;
            measure(&rt, 1_000, false)
        }
    }
}

/// The number that is given to the program.
fn given(rt: &HostRuntime) -> anyhow::Result<Option<u64>> {
    let word = env::args(rt)?.nth(1);
    Ok(word.and_then(|word| word.as_str().parse::<u64>().ok()))
}

fn answer_rows(rt: &HostRuntime) -> anyhow::Result<()> {
    let mut out = String::new(rt.alloc());
    for line in rt.lines(rt.alloc()) {
        answer_row(rt, line?.as_str(), &mut out)?;
    }
    Ok(())
}

/// Prints a line and, where it is a row, its answer below it.
fn answer_row(rt: &HostRuntime, row: &str, out: &mut String) -> anyhow::Result<()> {
    println!(rt; "{row}")?;
    if !row.starts_with("#") {
        answer(rt.alloc(), row, out)?;
        println!(rt; "  {out}")?;
        out.clear();
    }
    Ok(())
}

fn measure(rt: &HostRuntime, count: u64, timed: bool) -> anyhow::Result<()> {
    measures::measure(rt, Load::Open, count, timed)?;
    measures::measure(rt, Load::Reopened, count / 10, timed)?;
    measures::measure(rt, Load::Misnested, count, timed)?;
    measures::measure(rt, Load::Deep("div"), count, timed)?;
    measures::measure(rt, Load::Deep("span"), count, timed)
}
