//! Rows of references: what is asked, a space, and what it is asked of.
//!
//! Code points are told in hexadecimal digits.

use crate::words::first_word;
use anyhow::{Context, Result, bail};
use html_charref::{Base, EntityError, EntityTable, RefText, Step, Walk, add_digit, numeric};
use std::alloc::Global;

/// Writes what a row answers.
pub(crate) fn answer(
    alloc: Global,
    table: &EntityTable,
    row: &str,
    out: &mut String,
) -> Result<()> {
    let (asked, of) = first_word(row)?;
    match asked {
        "longest" => push_longest(alloc, table, of, out),
        "walk" => push_walk(table, of, out),
        "core" => push_core(alloc, of, out),
        "read" => push_read(alloc, of, out),
        "numeric" => push_numeric(of, out),
        "digit" => push_digit(of, out),
        _ => bail!("no such question"),
    }
}

/// The number of a reference's code points and its text, or a dash.
fn push_reference(out: &mut String, found: Option<(u32, RefText)>) -> Result<()> {
    match found {
        Some((length, text)) => {
            let first = u32::from(text.first);
            write!(out, "{length} {first:X}")?;
            if let Some(second) = text.second {
                let second = u32::from(second);
                write!(out, " {second:X}")?;
            }
        }
        None => out.push_str("-")?,
    }
    Ok(())
}

fn push_longest(alloc: Global, table: &EntityTable, of: &str, out: &mut String) -> Result<()> {
    let rest: Vec<char> = of.chars().collect(alloc)?;
    push_reference(out, table.longest(rest.as_slice()))
}

/// Each step of a walk: a point where more may follow.
fn push_walk(table: &EntityTable, of: &str, out: &mut String) -> Result<()> {
    let mut walk = table.walk();
    for c in of.chars() {
        push_step(&mut walk, c, out)?;
    }
    Ok(())
}

fn push_step(walk: &mut Walk<'_>, c: char, out: &mut String) -> Result<()> {
    match walk.step(c) {
        Step::More => {
            out.push('.')?;
            Ok(())
        }
        Step::End(found) => {
            out.push(' ')?;
            push_reference(out, found)
        }
    }
}

/// The core table's longest name, and the longest of its names that begins a text.
fn push_core(alloc: Global, of: &str, out: &mut String) -> Result<()> {
    let core = EntityTable::core(alloc)?;
    push_both(alloc, &core, of, out)
}

fn push_both(alloc: Global, table: &EntityTable, of: &str, out: &mut String) -> Result<()> {
    push_longest_name(table, out)?;
    push_longest(alloc, table, of, out)
}

fn push_longest_name(table: &EntityTable, out: &mut String) -> Result<()> {
    let longest_name = table.longest_name();
    write!(out, "{longest_name} ")?;
    Ok(())
}

/// A table's longest name, and the first step of a walk at an ampersand; or why it was refused.
fn push_read(alloc: Global, of: &str, out: &mut String) -> Result<()> {
    match EntityTable::read(alloc, of.as_bytes()) {
        Ok(table) => push_first_step(&table, out),
        Err(error) => push_error(&error, out),
    }
}

fn push_first_step(table: &EntityTable, out: &mut String) -> Result<()> {
    push_longest_name(table, out)?;
    push_walk(table, "&", out)
}

fn push_error(error: &EntityError, out: &mut String) -> Result<()> {
    write!(out, "{error}")?;
    Ok(())
}

/// What stands for a number in hexadecimal digits, and its fault.
fn push_numeric(of: &str, out: &mut String) -> Result<()> {
    let value = u32::from_str_radix(of, 16)?;
    let (c, fault) = numeric(value);
    let c = u32::from(c);
    write!(out, "{c:X} {fault:?}")?;
    Ok(())
}

/// A number, in hexadecimal digits, with a digit behind, by a base.
fn push_digit(of: &str, out: &mut String) -> Result<()> {
    let mut words = of.split(' ');
    let value = u32::from_str_radix(words.next().context("no number")?, 16)?;
    let digit: u8 = words.next().context("no digit")?.parse()?;
    let base = match words.next() {
        Some("hex") => Base::Hex,
        _ => Base::Decimal,
    };
    if u32::from(digit) >= base.radix() {
        bail!("no digit of the base");
    }
    let value = add_digit(value, digit, base);
    write!(out, "{value:X}")?;
    Ok(())
}
