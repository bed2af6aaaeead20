//! Files of test cases.

use crate::rows::show;
use anyhow::Result;
use html_parser::{EntityTable, OverWrite};
use html_suite::{SuiteOptions, suite_file};
use std::alloc::Global;

/// Runs a file of test cases, and adds what is written and told, and the status.
pub(crate) fn run_file(
    alloc: Global,
    name: &str,
    text: &str,
    options: SuiteOptions,
    out: &mut String,
) -> Result<()> {
    let table = EntityTable::core(alloc)?;
    run_over(alloc, name, text, &table, options, out)
}

fn run_over(
    alloc: Global,
    name: &str,
    text: &str,
    table: &EntityTable,
    options: SuiteOptions,
    out: &mut String,
) -> Result<()> {
    let mut writer = OverWrite::new(Vec::new(alloc));
    let mut faults = OverWrite::new(Vec::new(alloc));
    let status = suite_file(
        alloc,
        name,
        text.as_bytes(),
        table,
        options,
        &mut writer,
        &mut faults,
    );
    let written = writer.into_inner();
    let told = faults.into_inner();
    show(out, written.as_slice(), told.as_slice(), status)
}
