//! A tree under construction, call by call, as insertion modes make them.
//! A program, imported by nobody.
//!
//! Standard input has rows of calls, a word each, and a line that begins with `#` says what the next rows show. A row's
//! answers are those of the calls after its last `|`: numbers of nodes and indexes on the stack, a dash for none, names,
//! `yes` and `no`. After the rows the program opens many elements. Given how many, it reads no rows, and says too what
//! that took.
#![tactic(auto)]

mod calls;
mod measures;
mod page;
mod refusal;
mod rows;
mod shown;
mod words;

use measures::measure_nested;
use rows::answer;
use std::env;

fn main(rt: HostRuntime) -> anyhow::Result<()> {
    match given(&rt)? {
        Some(count) => measure_nested(&rt, count, true),
        None => {
            answer_rows(&rt)?;
            measure_nested(&rt, 1_000, false)
        }
    }
}

/// The number that is given to the program.
fn given(rt: &HostRuntime) -> anyhow::Result<Option<u64>> {
    let word = env::args(rt)?.nth(1);
    Ok(word.and_then(|word| word.as_str().parse::<u64>().ok()))
}

fn answer_rows(rt: &HostRuntime) -> anyhow::Result<()> {
    let mut out = String::new(rt.alloc());
    for line in rt.lines(rt.alloc()) {
        answer_row(rt, line?.as_str(), &mut out)?;
    }
    Ok(())
}

/// Prints a line and, where it is a row, its answer below it.
fn answer_row(rt: &HostRuntime, row: &str, out: &mut String) -> anyhow::Result<()> {
    println!(rt; "{row}")?;
    if !row.starts_with("#") {
        answer(rt.alloc(), row, out)?;
        println!(rt; "  {out}")?;
        out.clear();
    }
    Ok(())
}
