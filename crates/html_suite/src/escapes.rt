//! Texts that are escaped once more than JSON does, as `\u0000`.

use std::alloc::{AllocError, Global};

/// What an escaped text stands for.
#[derive(Drop)]
pub(crate) enum Unescaped {
    Text(String),
    /// It has half of a pair of code units, which no text in UTF-8 holds.
    LoneSurrogate,
}

/// The text in which each `\uXXXX` is that UTF-16 code unit.
pub(crate) fn without_escapes(alloc: Global, text: &str) -> Result<Unescaped, AllocError> {
    let mut units = Vec::new(alloc);
    let mut is_first = true;
    for part in text.split("\\u") {
        if is_first {
            push_units(&mut units, part)?;
            is_first = false;
        } else {
            push_escape(&mut units, part)?;
        }
    }
    match String::from_utf16(alloc, units.as_slice())? {
        Ok(text) => Ok(Unescaped::Text(text)),
        Err(_) => Ok(Unescaped::LoneSurrogate),
    }
}

/// Adds what follows a `\u`: the unit of four hexadecimal digits, and the text behind them.
fn push_escape(units: &mut Vec<u16>, part: &str) -> Result<(), AllocError> {
    match unit_and_rest(part) {
        Some((unit, rest)) => {
            units.push(unit)?;
            push_units(units, rest)
        }
        None => {
            push_units(units, "\\u")?;
            push_units(units, part)
        }
    }
}

/// The unit of four hexadecimal digits at the front, and what stands behind them.
fn unit_and_rest(part: &str) -> Option<(u16, &str)> {
    let digits = part.get(..4)?;
    let rest = part.get(4..)?;
    if !digits.chars().all(|c| c.is_ascii_hexdigit()) {
        return None;
    }
    let unit = u16::from_str_radix(digits, 16).ok()?;
    Some((unit, rest))
}

fn push_units(units: &mut Vec<u16>, text: &str) -> Result<(), AllocError> {
    for unit in text.encode_utf16() {
        units.push(unit)?;
    }
    Ok(())
}
