//! Tree cases, as the html5lib tests write them: sections of lines, each under a line that names it.

ghost use Rattle.std.specs.Prelude.{◌<◌, ◌≤◌, length};

use std::alloc::{AllocError, Global};

/// A case.
#[derive(Drop)]
pub(crate) struct TreeCase<'a> {
    /// The lines under `#data`.
    pub input: &'a [u8],
    /// The name under `#document-fragment`, where the case is a fragment.
    pub context: Option<&'a [u8]>,
    /// Whether there is a line `#script-on`.
    pub is_script_on: bool,
    /// The lines under `#document`.
    pub tree: &'a [u8],
}

/// A line without its end, and where it stands.
#[derive(Clone, Copy)]
pub(crate) struct Line<'a> {
    text: &'a [u8],
    start: usize,
    end: usize,
}

impl Line<'_> {
    fn is(&self, text: &str) -> bool {
        self.text == text.as_bytes()
    }
}

/// The cases of a file, in order.
pub(crate) fn cases_of<'a>(
    alloc: Global,
    bytes: &'a [u8],
) -> Result<Vec<TreeCase<'a>>, AllocError> {
    let lines = lines_of(alloc, bytes)?;
    let mut cases = Vec::new(alloc);
    let mut next = 0;
    'lines: for at in 0..lines.len() {
        if at >= next && lines[at].is("#data") {
            let (case, end) = case_at(bytes, lines.as_slice(), at);
            cases.push(case).map_err(AllocError::from)?;
            next = end;
        }
    }
    Ok(cases)
}

/// The lines of a file. A last one without an end is one too.
fn lines_of<'a>(alloc: Global, bytes: &'a [u8]) -> Result<Vec<Line<'a>>, AllocError> {
    let mut lines = Vec::new(alloc);
    let mut start = 0;
    'bytes: for (at, byte) in bytes.iter().enumerate() {
        if *byte == b'\n' {
            lines.push(line_at(bytes, start, at))?;
            start = at + 1;
        }
    }
    if start < bytes.len() {
        lines.push(line_at(bytes, start, bytes.len()))?;
    }
    Ok(lines)
}

fn line_at(bytes: &[u8], start: usize, end: usize) -> Line<'_> {
    let text = bytes.get(start..end).unwrap_or(&bytes[..0]);
    Line { text, start, end }
}

/// The case whose `#data` stands on a line, and the line after it.
fn case_at<'a>(bytes: &'a [u8], lines: &[Line<'a>], first: usize) -> (TreeCase<'a>, usize)
    requires { first < length lines.now }
{
    let errors = find(lines, first, "#errors");
    let document = find(lines, errors, "#document");
    let end = end_of_tree(lines, document.saturating_add(1));
    let case = TreeCase {
        input: text_of(bytes, lines, first + 1, errors),
        context: under(lines, errors, document, "#document-fragment"),
        is_script_on: find(lines, errors, "#script-on") < document,
        tree: text_of(bytes, lines, document.saturating_add(1), end),
    };
    (case, end)
}

/// The first line from this one on that has this text, or the end.
fn find(lines: &[Line<'_>], from: usize, text: &str) -> usize
    ensures { result ≤ length lines.now }
{
    'lines: for at in from..lines.len() {
        if lines[at].is(text) {
            return at;
        }
    }
    lines.len()
}

/// The line under the one with this text, between two lines.
fn under<'a>(lines: &[Line<'a>], from: usize, end: usize, text: &str) -> Option<&'a [u8]> {
    let at = find(lines, from, text);
    if at < end && at + 1 < lines.len() {
        Some(lines[at + 1].text)
    } else {
        None
    }
}

/// The lines from one to before another, with the ends between them.
fn text_of<'a>(bytes: &'a [u8], lines: &[Line<'a>], from: usize, end: usize) -> &'a [u8] {
    if from < end && end <= lines.len() {
        bytes
            .get(lines[from].start..lines[end - 1].end)
            .unwrap_or(&bytes[..0])
    } else {
        &bytes[..0]
    }
}

/// The line after a tree: an empty one before the next case, or the end.
fn end_of_tree(lines: &[Line<'_>], from: usize) -> usize {
    'lines: for at in from..lines.len() {
        if is_last_line(lines, at) {
            return at;
        }
    }
    lines.len()
}

/// Whether a line is empty and stands before the next case, or at the end.
fn is_last_line(lines: &[Line<'_>], at: usize) -> bool
    requires { at < length lines.now }
{
    lines[at].text.is_empty() && (at + 1 >= lines.len() || lines[at + 1].is("#data"))
}
