// Pages made of parts that come again and again, and the table with which they are parsed.

use html_parser::{EntityTable, ParseError};
use std::alloc::{AllocError, Global};
use std::fmt::Write;

/// A part of a page.
#[derive(Clone, Copy)]
pub(crate) enum Part {
    /// A text so many times.
    Times(u32, &'static str),
    /// Two texts with a number between them, so many times, from 0 on.
    Numbered(u32, &'static str, &'static str),
}

/// The page of these parts.
pub(crate) fn page_of(alloc: Global, parts: &[Part]) -> Result<String, AllocError> {
    let mut page = String::new(alloc);
    add_all(&mut page, parts)?;
    Ok(page)
}

fn add_all(page: &mut String, parts: &[Part]) -> Result<(), AllocError> {
    for part in parts {
        match *part {
            Part::Times(count, text) => add(page, count, text)?,
            Part::Numbered(count, before, after) => add_numbered(page, count, before, after)?,
        }
    }
    Ok(())
}

fn add(page: &mut String, count: u32, text: &str) -> Result<(), AllocError> {
    for _ in 0..count {
        page.push_str(text)?;
    }
    Ok(())
}

fn add_numbered(
    page: &mut String,
    count: u32,
    before: &str,
    after: &str,
) -> Result<(), AllocError> {
    for index in 0..count {
        write!(page, "{before}{index}{after}")?;
    }
    Ok(())
}

/// The table of five names; it is refused for want of memory alone.
pub(crate) fn core_table(alloc: Global) -> Result<EntityTable, ParseError> {
    EntityTable::core(alloc).map_err(|_| ParseError::OutOfMemory)
}
