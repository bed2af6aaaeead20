//! Rows and their answers.

use crate::errors::tell_errors;
use crate::files::run_file;
use crate::jobs::read_words;
use anyhow::{Result, bail};
use html_suite::{ForeignCases, SuiteOptions};
use std::alloc::{AllocError, Global};

/// Cases of foreign content are skipped.
const PLAIN: SuiteOptions = SuiteOptions {
    foreign: ForeignCases::Skipped,
    verbose: false,
};

/// They are run.
const FOREIGN: SuiteOptions = SuiteOptions {
    foreign: ForeignCases::Run,
    verbose: false,
};

/// More is told of cases that failed.
const VERBOSE: SuiteOptions = SuiteOptions {
    foreign: ForeignCases::Skipped,
    verbose: true,
};

/// The answer of a row.
pub(crate) fn answer(alloc: Global, line: &str) -> Result<String> {
    let mut out = String::new(alloc);
    follow(alloc, line, &mut out)?;
    Ok(out)
}

fn follow(alloc: Global, line: &str, out: &mut String) -> Result<()> {
    let Some((sort, rest)) = line.split_once('|') else {
        bail!("a row has no words");
    };
    let Some((words, text)) = rest.split_once('|') else {
        bail!("a row has no text");
    };
    let text = unescaped(alloc, text)?;
    match sort {
        "errors" => tell_errors(alloc, out),
        "file" => run_file(alloc, words, text.as_str(), PLAIN, out),
        "foreign" => run_file(alloc, words, text.as_str(), FOREIGN, out),
        "verbose" => run_file(alloc, words, text.as_str(), VERBOSE, out),
        _ => read_words(alloc, sort, words, text.as_str(), out),
    }
}

/// A text with what its signs stand for.
pub(crate) fn unescaped(alloc: Global, text: &str) -> Result<String, AllocError> {
    let mut out = String::new(alloc);
    for c in text.chars() {
        out.push(match c {
            '␊' => '\n',
            '␍' => '\r',
            '␠' => ' ',
            '␂' => '\u{FEFF}',
            _ => c,
        })?;
    }
    Ok(out)
}

/// Adds what was written, what was told of faults, and the status.
pub(crate) fn show(out: &mut String, written: &[u8], faults: &[u8], status: u8) -> Result<()> {
    let written = std::str::from_utf8(written)?;
    let faults = std::str::from_utf8(faults)?;
    write!(out, "{written}¶{faults}¶{status}")?;
    Ok(())
}
