//! Answers as text.

use crate::page::Page;
use crate::refusal::Refusal;
use html_arena::NodeId;
use html_names::Tag;
use html_tree::AdoptEnd;

/// A node's number, or a dash.
pub(crate) fn push_node(out: &mut String, node: Option<NodeId>) -> Result<(), Refusal> {
    match node {
        Some(node) => push_index(out, Some(node.index())),
        None => push_index(out, None),
    }
}

/// An index, or a dash.
pub(crate) fn push_index(out: &mut String, index: Option<usize>) -> Result<(), Refusal> {
    match index {
        Some(index) => write!(out, "{index}")?,
        None => out.push_str("-")?,
    }
    Ok(())
}

pub(crate) fn push_bool(out: &mut String, answer: bool) -> Result<(), Refusal> {
    out.push_str(if answer { "yes" } else { "no" })?;
    Ok(())
}

pub(crate) fn push_end(out: &mut String, end: AdoptEnd) -> Result<(), Refusal> {
    out.push_str(match end {
        AdoptEnd::Done => "done",
        AdoptEnd::OtherEndTag => "other",
    })?;
    Ok(())
}

/// A name that some rule knows, a question mark for another, or a dash. Behind the namespace of foreign content stands a colon.
pub(crate) fn push_tag(out: &mut String, tag: Option<Tag>) -> Result<(), Refusal> {
    match tag {
        None => out.push_str("-")?,
        Some(tag) => match tag.name().split_once(' ') {
            None => out.push_str(known_or(tag.name()))?,
            Some((space, local)) => {
                let local = known_or(local);
                write!(out, "{space}:{local}")?;
            }
        },
    }
    Ok(())
}

/// A name, or a question mark.
fn known_or(name: &str) -> &str {
    if name == "" { "?" } else { name }
}

/// The names of the open elements, the current node last.
pub(crate) fn push_open(out: &mut String, page: &mut Page) -> Result<(), Refusal> {
    for index in 0..page.depth() {
        if index > 0 {
            out.push_str(" ")?;
        }
        let tag = page.tag_at(index)?;
        push_tag(out, Some(tag))?;
    }
    Ok(())
}
