//! What there is, as text.

use crate::calls::Word;
use crate::markup::{open, tree};
use crate::page::Page;
use crate::refusal::Refusal;
use html_arena::NodeId;
use html_names::Tag;
use html_open::Place;

/// A node's number, or a dash.
pub(crate) fn push_node(out: &mut String, node: Option<NodeId>) -> Result<(), Refusal> {
    match node {
        Some(node) => push_index(out, Some(node.index())),
        None => push_index(out, None),
    }
}

/// An index, or a dash.
pub(crate) fn push_index(out: &mut String, index: Option<usize>) -> Result<(), Refusal> {
    match index {
        Some(index) => write!(out, "{index}")?,
        None => out.push_str("-")?,
    }
    Ok(())
}

pub(crate) fn push_bool(out: &mut String, answer: bool) -> Result<(), Refusal> {
    out.push_str(if answer { "yes" } else { "no" })?;
    Ok(())
}

/// A place: the node's number, after a `<` where it is before that node.
pub(crate) fn push_place(out: &mut String, place: Place) -> Result<(), Refusal> {
    match place {
        Place::Last(node) => push_node(out, Some(node)),
        Place::Before(node) => {
            out.push_str("<")?;
            push_node(out, Some(node))
        }
    }
}

/// Writes what a word asks to see, and answers whether it does.
pub(crate) fn show(page: &mut Page, word: Word<'_>, out: &mut String) -> Result<bool, Refusal> {
    match word.name {
        "stack" | "tree" | "open" | "held" => show_page(page, word, out)?,
        "tag" | "is-formatting" | "is-special" | "ends" => show_name(word, out)?,
        _ => return Ok(false),
    }
    out.push_str(" ")?;
    Ok(true)
}

/// Writes what there is of a page.
fn show_page(page: &mut Page, word: Word<'_>, out: &mut String) -> Result<(), Refusal> {
    match word.name {
        "stack" => stack(page, out),
        "tree" => tree(page.arena(), out),
        "open" => open(page, out),
        _ => Ok(write!(out, "{}", page.arena().held())?),
    }
}

/// Writes what html_names says of a name.
fn show_name(word: Word<'_>, out: &mut String) -> Result<(), Refusal> {
    let tag = word.tag();
    match word.name {
        "tag" => Ok(out.push_str(if tag.is(Tag::Other) { "-" } else { tag.name() })?),
        "is-formatting" => push_bool(out, tag.is_formatting()),
        "is-special" => push_bool(out, tag.is_special()),
        _ => push_bool(out, tag.ends_scope(word.scope()?)),
    }
}

/// The numbers of the open elements, each after its parent's.
fn stack(page: &mut Page, out: &mut String) -> Result<(), Refusal> {
    for index in 0..page.depth() {
        if index > 0 {
            out.push_str(" ")?;
        }
        let node = page.at(index)?;
        push_node(out, page.parent(node)?)?;
        out.push_str(">")?;
        push_node(out, Some(node))?;
    }
    Ok(())
}
