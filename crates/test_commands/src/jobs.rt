//! Jobs, from their words.

use crate::pages::{answer, answer_faulty, answer_limited, answer_sizes};
use crate::rows::unescaped;
use anyhow::Result;
use html_job::{Job, job};
use std::alloc::{AllocError, Global};

/// A small page.
const PAGE: &str = "<!DOCTYPE html><html><head></head><body><div>Hi</div></body></html>";

/// Reads the words of a row, and adds what its job answers, or why the words are none.
pub(crate) fn read_words(
    alloc: Global,
    sort: &str,
    words: &str,
    text: &str,
    out: &mut String,
) -> Result<()> {
    let words = words_of(alloc, words)?;
    match job(alloc, words.as_slice()) {
        Ok(mut job) => ask(alloc, sort, &mut job, text, out),
        Err(fault) => Ok(write!(out, "{fault}")?),
    }
}

/// The program's name, and the words of a row.
fn words_of(alloc: Global, row: &str) -> Result<Vec<String>, AllocError> {
    let mut words = Vec::new(alloc);
    words.push(String::from_str(alloc, "html_cmd")?)?;
    for word in row.split(' ') {
        if word != "" {
            words.push(unescaped(alloc, if word == "∅" { "" } else { word })?)?;
        }
    }
    Ok(words)
}

/// Adds what a job answers that is asked so.
fn ask(alloc: Global, sort: &str, job: &mut Job<'_>, text: &str, out: &mut String) -> Result<()> {
    match sort {
        "job" => Ok(write!(out, "{job:?}")?),
        "page" => answer(alloc, job, None, text, out),
        "table" => answer(alloc, job, Some(text.as_bytes()), PAGE, out),
        "sizes" => answer_sizes(alloc, job, text, out),
        "limit" => answer_limited(alloc, job, text, out),
        _ => answer_faulty(alloc, sort, job, text, out),
    }
}
