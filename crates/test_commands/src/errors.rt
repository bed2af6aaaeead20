//! The status and the line of each error.

use anyhow::Result;
use html_parser::{ForeignRoot, OverWrite, ParseError};
use html_print::{outcome, tell};
use std::alloc::Global;

const SVG: ParseError = ParseError::ForeignContent {
    name: ForeignRoot::Svg,
    at: 0,
};

const MATH: ParseError = ParseError::ForeignContent {
    name: ForeignRoot::Math,
    at: 7,
};

const ERRORS: [ParseError; 11] = [
    ParseError::OutOfMemory,
    ParseError::InputTooLong,
    SVG,
    MATH,
    ParseError::BadContext,
    ParseError::Read,
    ParseError::Write,
    ParseError::Stopped,
    ParseError::NodeBudget { at: 8 },
    ParseError::HeldBudget { at: 9 },
    ParseError::StepBudget { at: 10 },
];

/// Adds a line for each error: the status and the line that `tell` answers and writes, and whether `outcome` has others.
pub(crate) fn tell_errors(alloc: Global, out: &mut String) -> Result<()> {
    for error in ERRORS {
        tell_error(alloc, &error, out)?;
    }
    Ok(())
}

fn tell_error(alloc: Global, error: &ParseError, out: &mut String) -> Result<()> {
    let mut faults = OverWrite::new(Vec::new(alloc));
    let status = tell(alloc, error, "page.html", &mut faults);
    let told = faults.into_inner();
    let line = std::str::from_utf8(told.as_slice())?;
    write!(out, "{status} {line}")?;
    if !is_outcome(alloc, error, status, line) {
        out.push_str("  outcome has another\n")?;
    }
    Ok(())
}

/// Whether `outcome` answers this status and this line.
fn is_outcome(alloc: Global, error: &ParseError, status: u8, line: &str) -> bool {
    let (own_status, own_line) = outcome(alloc, error, "page.html");
    match own_line {
        Some(own_line) => own_status == status && own_line.as_str() == line,
        None => false,
    }
}
