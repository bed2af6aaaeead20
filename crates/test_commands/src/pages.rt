//! Jobs done on pages.

use crate::rows::show;
use anyhow::{Result, bail};
use html_job::Job;
use html_parser::{FailAt, OverRead, OverWrite};
use html_run::run;
use std::alloc::{AllocError, Global};

/// Adds what a job writes and tells of a page, and its status.
pub(crate) fn answer(
    alloc: Global,
    job: &Job<'_>,
    entities: Option<&[u8]>,
    page: &str,
    out: &mut String,
) -> Result<()> {
    let mut reader = OverRead::new(page.as_bytes());
    let mut writer = OverWrite::new(Vec::new(alloc));
    let mut faults = OverWrite::new(Vec::new(alloc));
    let status = run(
        alloc,
        job,
        name_of(job),
        entities,
        &mut reader,
        &mut writer,
        &mut faults,
    );
    let written = writer.into_inner();
    let told = faults.into_inner();
    show(out, written.as_slice(), told.as_slice(), status)
}

/// The name of the file of a job that has one, or `-`.
fn name_of<'a>(job: &Job<'a>) -> &'a str {
    match job.inputs.first() {
        Some(name) => *name,
        None => "-",
    }
}

/// The answer to a job that writes counts.
fn counted(alloc: Global, job: &Job<'_>, page: &str) -> Result<String> {
    let mut counts = String::new(alloc);
    answer(alloc, job, None, page, &mut counts)?;
    Ok(counts)
}

/// What stands in counts before the number of steps, the number, and what stands after it.
fn parted(counts: &str) -> Result<(&str, &str, &str)> {
    let Some((before, rest)) = counts.split_once("steps ") else {
        bail!("no steps are counted");
    };
    let Some((steps, after)) = rest.split_once('\n') else {
        bail!("the line of the steps does not end");
    };
    Ok((before, steps, after))
}

/// Adds the counts of a page, but for the number of steps.
pub(crate) fn answer_sizes(
    alloc: Global,
    job: &Job<'_>,
    page: &str,
    out: &mut String,
) -> Result<()> {
    let counts = counted(alloc, job, page)?;
    let (before, _, after) = parted(counts.as_str())?;
    write!(out, "{before}steps -\n{after}")?;
    Ok(())
}

/// Adds whether a page has the same counts under a limit of as many steps as it took, and what is answered under a lower one.
pub(crate) fn answer_limited(
    alloc: Global,
    job: &mut Job<'_>,
    page: &str,
    out: &mut String,
) -> Result<()> {
    let counts = counted(alloc, job, page)?;
    let (_, steps, _) = parted(counts.as_str())?;
    let steps = steps.parse::<u64>()?;
    job.max_steps = Some(steps);
    let again = counted(alloc, job, page)?;
    let is_same = again == counts;
    job.max_steps = Some(steps.saturating_sub(1));
    let refused = counted(alloc, job, page)?;
    write!(out, "the same counts: {is_same}\n{refused}")?;
    Ok(())
}

/// How many calls devices take: more than a small page needs.
const MANY: u64 = 100;

/// How many bytes a call reads or writes.
const PIECE: usize = 10;

/// Adds what a job answers over a reader or a writer that fails.
pub(crate) fn answer_faulty(
    alloc: Global,
    sort: &str,
    job: &Job<'_>,
    page: &str,
    out: &mut String,
) -> Result<()> {
    let (device, calls) = sort.split_once(' ').unwrap_or((sort, "0"));
    let calls = calls.parse::<u64>()?;
    let (reads, writes, taken) = match device {
        "read" => (calls, MANY, PIECE),
        "write" => (MANY, calls, PIECE),
        "stuck" => (MANY, MANY, 0),
        _ => bail!("no such sort of rows"),
    };
    let mut reader = FailAt::new(alloc, bytes_of(alloc, page)?, reads, PIECE);
    let mut writer = FailAt::new(alloc, Vec::new(alloc), writes, taken);
    answer_over(alloc, job, &mut reader, &mut writer, out)
}

fn bytes_of(alloc: Global, page: &str) -> Result<Vec<u8>, AllocError> {
    page.as_bytes().to_vec(alloc)
}

fn answer_over(
    alloc: Global,
    job: &Job<'_>,
    reader: &mut FailAt,
    writer: &mut FailAt,
    out: &mut String,
) -> Result<()> {
    let mut faults = OverWrite::new(Vec::new(alloc));
    let status = run(alloc, job, name_of(job), None, reader, writer, &mut faults);
    let told = faults.into_inner();
    show(out, writer.taken(), told.as_slice(), status)
}
