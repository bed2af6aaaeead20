//! What the program's libraries answer, a row each on standard input. Each row is printed, and below it its answer.
//! A program, imported by nobody.
//!
//! A line that begins with `#` says what the next rows show. A row is `SORT|WORDS|TEXT`. Words are those of a command line
//! after the program's name, and stand for a job; the text is a page, unless the sort says otherwise. In both `␊`, `␍` and `␠`
//! stand for what they show, `␂` for a byte order mark, and in words `∅` for the empty word. Sorts are:
//!
//! - `job`: the job itself, or why the words are none.
//! - `page`: the job done on the page: what is written, `¶`, what is told of faults, `¶`, and the status.
//! - `sizes`: the same of `counts`, but for the number of steps.
//! - `limit`: the same of `counts` under a limit of as many steps as were counted, and of one step less.
//! - `read N`, `write N`: the same, over a reader or a writer that fails after N calls, of ten bytes each; `stuck`: over a writer that
//!   takes no bytes.
//! - `table`: the same of a small page, where the text is a file of named character references.
//! - `errors`: the status and the line of each error, as `tell` answers and writes them.
//! - `file`: a file of test cases that has this name and this text; `foreign`: the same, with its cases of foreign content.
#![tactic(auto)]

mod errors;
mod files;
mod jobs;
mod pages;
mod rows;

use anyhow::Result;

fn main(rt: HostRuntime) -> Result<()> {
    for line in rt.lines(rt.alloc()) {
        let line = line?;
        println!(rt; "{line}")?;
        if !line.as_str().starts_with("#") {
            let answer = rows::answer(rt.alloc(), line.as_str())?;
            println!(rt; "{answer}")?;
        }
    }
    Ok(())
}
