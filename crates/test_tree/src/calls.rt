//! The calls that words name.

use crate::page::Page;
use crate::refusal::Refusal;
use crate::shown::{push_bool, push_end, push_index, push_node, push_tag};
use crate::words::{Word, number};
use html_arena::{Limits, NodeId};
use html_names::Space;
use html_text::Str;
use html_tokens::{Attr, Attrs, OptionalStr};
use html_tree::Target;
use std::alloc::{AllocError, Global};

/// Makes the call that a word names, and writes its answer.
pub(crate) fn make_call(
    page: &mut Page,
    alloc: Global,
    word: Word<'_>,
    out: &mut String,
) -> Result<(), Refusal> {
    match word.name {
        "root"
        | "implied-root"
        | "head"
        | "form"
        | "start"
        | "void"
        | "listed"
        | "implied"
        | "implied-void"
        | "replace-body"
        | "comment"
        | "doctype"
        | "svg"
        | "math" => push_node(out, Some(insert(page, alloc, word)?)),
        "pop"
        | "pop-to"
        | "close"
        | "clear-to"
        | "imply"
        | "clear"
        | "unlist"
        | "remove"
        | "leave-foreign"
        | "no-form" => close(page, word, out),
        "within" | "text" | "merge" | "marker" | "reopen" | "adopt" => {
            change(page, alloc, word, out)
        }
        _ => ask(page, word, out),
    }
}

/// Calls that change the page otherwise.
fn change(page: &mut Page, alloc: Global, word: Word<'_>, out: &mut String) -> Result<(), Refusal> {
    match word.name {
        "within" => within(page, alloc, word),
        "text" => append(page, alloc, word, out),
        "merge" => page.merge(number(word.first)?, attributes(alloc, word.second)?),
        "marker" => page.add_marker(),
        "reopen" => page.reopen(word.first == "foster"),
        _ => push_end(out, page.adopt(word.tag(), word.fosters())?),
    }
}

/// A document that keeps to limits takes the place of the page.
fn within(page: &mut Page, alloc: Global, word: Word<'_>) -> Result<(), Refusal> {
    let limits = Limits {
        nodes: number(word.first)? as u64,
        held: number(word.second)? as u64,
        code_points: 0,
        steps: 0,
    };
    *page = Page::within(alloc, limits)?;
    Ok(())
}

/// Calls that make nodes. Elements that are not listed have no attributes.
fn insert(page: &mut Page, alloc: Global, word: Word<'_>) -> Result<NodeId, Refusal> {
    match word.name {
        "root" => page.insert_root(attributes(alloc, word.first)?),
        "implied-root" => page.insert_implied_root(),
        "head" => page.insert_head(),
        "implied" => page.insert_implied(word.tag(), word.fosters()),
        "implied-void" => page.insert_implied_void(word.tag(), word.fosters()),
        "svg" => insert_foreign(page, alloc, Space::Svg, word),
        "math" => insert_foreign(page, alloc, Space::Math, word),
        _ => insert_named(page, alloc, word),
    }
}

/// Calls that make nodes of a text: a name, or a comment.
fn insert_named(page: &mut Page, alloc: Global, word: Word<'_>) -> Result<NodeId, Refusal> {
    let text = Str::of(alloc, word.first)?;
    match word.name {
        "doctype" => page.insert_doctype(OptionalStr::some(alloc, text)?),
        "comment" if word.second == "document" => page.insert_document_comment(text),
        "comment" => page.insert_comment(text, word.target()?),
        _ => insert_element(page, Attrs::new(alloc), text, word),
    }
}

/// An element of foreign content, of which a second part is the value of its attribute `encoding`.
fn insert_foreign(
    page: &mut Page,
    alloc: Global,
    space: Space,
    word: Word<'_>,
) -> Result<NodeId, Refusal> {
    let (prefix, local) = (space.prefix(), word.first);
    let name = format!(in alloc; "{prefix}{local}")?;
    let attrs = encoding(alloc, word.second)?;
    page.insert(
        Str::of(alloc, name.as_str())?,
        attrs,
        Target::Current(false),
    )
}

/// An attribute `encoding` of this value, or none.
fn encoding(alloc: Global, value: &str) -> Result<Attrs, AllocError> {
    let mut attrs = Vec::new(alloc);
    if value != "" {
        let name = Str::of(alloc, "encoding")?;
        let value = Str::of(alloc, value)?;
        attrs.push(Attr { name, value })?;
    }
    Attrs::from_vec(attrs)
}

/// Calls that make elements of a name.
fn insert_element(
    page: &mut Page,
    attrs: Attrs,
    name: Str,
    word: Word<'_>,
) -> Result<NodeId, Refusal> {
    match word.name {
        "form" => page.insert_form(name, attrs),
        "listed" => page.insert_listed(name, attrs, word.fosters()),
        "void" => page.insert_void(name, attrs, word.target()?),
        "replace-body" => page.replace_body(name, attrs),
        _ => page.insert(name, attrs, word.target()?),
    }
}

/// One attribute of this name and no value, or none.
fn attributes(alloc: Global, name: &str) -> Result<Attrs, AllocError> {
    let mut attrs = Vec::new(alloc);
    if name != "" {
        let name = Str::of(alloc, name)?;
        let value = Str::new(alloc);
        attrs.push(Attr { name, value })?;
    }
    Attrs::from_vec(attrs)
}

/// Adds a run: the text, and how many code points it took.
fn append(page: &mut Page, alloc: Global, word: Word<'_>, out: &mut String) -> Result<(), Refusal> {
    let run: Vec<char> = word.first.chars().collect(alloc)?;
    let (node, count) = page.append_run(run.as_slice(), word.fosters())?;
    push_node(out, Some(node))?;
    write!(out, "+{count}")?;
    Ok(())
}

/// Calls that take elements off the stack or the list, and pointers.
fn close(page: &mut Page, word: Word<'_>, out: &mut String) -> Result<(), Refusal> {
    match word.name {
        "pop" => page.pop(),
        "pop-to" => page.pop_to(number(word.first)?),
        "clear-to" => page.clear_to(word.context()?),
        "imply" => page.implied(word.tag_if_named()),
        "clear" => page.clear_to_marker(),
        "no-form" => page.forget_form(),
        "leave-foreign" => page.leave_foreign(),
        "close" => {
            let is_found = page.close(word.group(), word.stop()?);
            push_bool(out, is_found)?;
        }
        "unlist" => {
            let node = page.unlist_last(word.tag());
            push_node(out, node)?;
        }
        _ => {
            let node = page.remove_last(word.tag());
            push_node(out, node)?;
        }
    }
    Ok(())
}

/// Calls that only read.
fn ask(page: &mut Page, word: Word<'_>, out: &mut String) -> Result<(), Refusal> {
    match word.name {
        "last" => push_node(out, page.last_listed(word.tag())),
        "the-head" => push_node(out, page.head()),
        "the-form" => push_node(out, page.form()),
        "depth" => push_index(out, Some(page.depth())),
        "current" => push_tag(out, page.current_tag()),
        "top" => push_tag(out, page.top_tag()),
        "html-point" => push_bool(out, page.is_at_html_point()),
        _ => seek(page, word, out),
    }
}

/// Calls that look for something.
fn seek(page: &mut Page, word: Word<'_>, out: &mut String) -> Result<(), Refusal> {
    match word.name {
        "find" => push_index(out, page.find(word.group(), word.stop()?)),
        "has" => push_bool(out, page.has(word.group(), word.stop()?)),
        "find-name" => push_index(out, page.find_name(word.first)),
        "find-foreign" => push_index(out, page.find_foreign(word.first)),
        "in-scope" => push_bool(out, page.is_in_scope(word.node()?)),
        "at" => push_tag(out, Some(page.tag_at(number(word.first)?)?)),
        _ => Err(Refusal::NoCall),
    }
}
