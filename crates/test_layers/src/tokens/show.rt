//! Tokens and parse errors as words.

use html_text::Str;
use html_tokens::{Attrs, Fault, OptionalStr, Span, Token, TokenKind};
use std::alloc::AllocError;

/// A name or id of a doctype, in quotes where it is there.
fn show_part(out: &mut String, part: &OptionalStr) -> Result<(), AllocError> {
    match part.as_ref() {
        Some(text) => write!(out, " '{text}'")?,
        None => out.push_str(" -")?,
    }
    Ok(())
}

/// What a token is.
fn show_kind(out: &mut String, kind: &TokenKind) -> Result<(), AllocError> {
    match kind {
        TokenKind::Start {
            name,
            attrs,
            self_closing,
        } => show_start(out, name, attrs, *self_closing),
        TokenKind::End { name } => write!(out, "end {name}"),
        TokenKind::Char(c) => out.push(*c),
        TokenKind::Comment(text) => write!(out, "comment {text}"),
        TokenKind::Doctype {
            name,
            public,
            system,
            force_quirks,
        } => show_doctype(out, name, public, system, *force_quirks),
        TokenKind::Eof => out.push_str("eof"),
    }
}

fn show_start(
    out: &mut String,
    name: &Str,
    attrs: &Attrs,
    self_closing: bool,
) -> Result<(), AllocError> {
    write!(out, "start {name}")?;
    for attr in attrs.as_slice() {
        let (name, value) = (&attr.name, &attr.value);
        write!(out, " {name}={value}")?;
    }
    if self_closing {
        out.push_str(" /")?;
    }
    Ok(())
}

fn show_doctype(
    out: &mut String,
    name: &OptionalStr,
    public: &OptionalStr,
    system: &OptionalStr,
    force_quirks: bool,
) -> Result<(), AllocError> {
    out.push_str("doctype")?;
    show_part(out, name)?;
    show_part(out, public)?;
    show_part(out, system)?;
    if force_quirks {
        out.push_str(" quirks")?;
    }
    Ok(())
}

/// A token: what it is, its span, and a bar.
pub(crate) fn show(out: &mut String, token: &Token) -> Result<(), AllocError> {
    show_kind(out, &token.kind)?;
    let Span { start, end } = token.span;
    write!(out, " {start}..{end}|")?;
    Ok(())
}

/// Parse errors, each with its place.
pub(crate) fn show_faults(out: &mut String, faults: &[Fault]) -> Result<(), AllocError> {
    for fault in faults {
        let (place, name) = (fault.place, fault.name);
        write!(out, " {place} {name}")?;
    }
    Ok(())
}
