//! The calls that words name, on nodes by their numbers.

use crate::markup::{read, tree};
use crate::page::{Page, is_node};
use crate::refusal::Refusal;
use crate::shown::{push_bool, push_index, push_node, push_place};
use crate::work::{adopt, id, reopen};
use html_arena::{Arena, Limits, NewNode, NodeId};
use html_names::{Scope, Tag};
use html_open::{AdoptEnd, ArenaError};
use html_text::Str;
use html_tokens::Attrs;
use std::alloc::{AllocError, Global};
use std::mem;

/// A word of a row: a name, and what stands after it and a colon, and after a second one.
#[derive(Clone, Copy)]
pub(crate) struct Word<'a> {
    pub name: &'a str,
    first: &'a str,
    second: &'a str,
}

impl<'a> Word<'a> {
    pub(crate) fn of(text: &'a str) -> Word<'a> {
        let (name, rest) = text.split_once(':').unwrap_or((text, ""));
        let (first, second) = rest.split_once(':').unwrap_or((rest, ""));
        Word {
            name,
            first,
            second,
        }
    }

    /// Whether the steps of its call are told.
    pub(crate) fn is_counted(&self) -> bool {
        !matches!(self.name, "end" | "adopt-last")
    }

    fn node(&self) -> Result<NodeId, Refusal> {
        Ok(NodeId::at(number(self.first)?))
    }

    pub(crate) fn tag(&self) -> Tag {
        Tag::of(self.first)
    }

    pub(crate) fn scope(&self) -> Result<Scope, Refusal> {
        match self.second {
            "default" => Ok(Scope::Default),
            "list-item" => Ok(Scope::ListItem),
            "button" => Ok(Scope::Button),
            "table" => Ok(Scope::Table),
            "select" => Ok(Scope::Select),
            _ => Err(Refusal::NoCall),
        }
    }

    fn fosters(&self) -> bool {
        self.second == "foster"
    }
}

fn number(text: &str) -> Result<usize, Refusal> {
    text.parse::<usize>().map_err(|_| Refusal::NoNumber)
}

/// Makes the call that a word names, and writes its answer.
pub(crate) fn make_call(
    page: &mut Page,
    alloc: Global,
    word: Word<'_>,
    out: &mut String,
) -> Result<(), Refusal> {
    match word.name {
        "within" | "make" | "named" | "read" | "link" => make(page, alloc, word),
        "push" | "pop" | "remove" | "current" | "at" | "index" | "is-open" | "scope" | "implied" =>
            { on_stack(page, word, out) }
        "enter" | "marker" | "clear" | "last" | "forget" | "is-listed" => on_list(page, word, out),
        "place" => find_place(page, word, out),
        "reopen" => reopen(page, alloc, word.first == "foster"),
        "adopt" => follow(page, alloc, word, out),
        "end" => end(page, alloc, word, out),
        "adopt-last" => adopt_last(page, alloc, word, out),
        _ => Err(Refusal::NoCall),
    }
}

/// Calls that make nodes.
fn make(page: &mut Page, alloc: Global, word: Word<'_>) -> Result<(), Refusal> {
    match word.name {
        "within" => within(page, alloc, word),
        "read" => read(page, alloc, word.first),
        "link" => page.link(word.node()?, NodeId::at(number(word.second)?)),
        _ => make_element(page, alloc, word.first, word.name == "named"),
    }
}

/// A page that keeps to limits takes the place of the page.
fn within(page: &mut Page, alloc: Global, word: Word<'_>) -> Result<(), Refusal> {
    let limits = Limits {
        nodes: number(word.first)? as u64,
        held: number(word.second)? as u64,
        code_points: 0,
        steps: 0,
    };
    *page = Page::within(alloc, limits);
    Ok(())
}

/// Makes an element, with the attribute `id="a"` or without.
fn make_element(page: &mut Page, alloc: Global, name: &str, with_id: bool) -> Result<(), Refusal> {
    let attrs = if with_id {
        id(alloc, "a")?
    } else {
        Attrs::new(alloc)
    };
    page.make(Str::of(alloc, name)?, attrs)?;
    Ok(())
}

/// Calls on the stack of open elements.
fn on_stack(page: &mut Page, word: Word<'_>, out: &mut String) -> Result<(), Refusal> {
    match word.name {
        "push" | "remove" | "index" | "is-open" => on_element(page, word, out),
        "pop" => push_node(out, page.pop()),
        "current" => push_node(out, page.current()),
        "at" => push_node(out, Some(page.at(number(word.first)?)?)),
        "implied" => {
            page.implied(tag_if_named(word));
            Ok(())
        }
        _ => push_bool(out, page.has_in_scope(word.tag(), word.scope()?)),
    }
}

/// Calls on the stack with an element.
fn on_element(page: &mut Page, word: Word<'_>, out: &mut String) -> Result<(), Refusal> {
    let node = word.node()?;
    match word.name {
        "push" => page.push(node),
        "remove" => page.remove(node),
        "index" => push_index(out, page.index_of(node)),
        _ => push_bool(out, page.is_open(node)?),
    }
}

fn tag_if_named(word: Word<'_>) -> Option<Tag> {
    if word.first == "" {
        None
    } else {
        Some(word.tag())
    }
}

/// Calls on the list of active formatting elements.
fn on_list(page: &mut Page, word: Word<'_>, out: &mut String) -> Result<(), Refusal> {
    match word.name {
        "enter" => page.enter(word.node()?),
        "forget" => page.forget(word.node()?),
        "marker" => page.marker(),
        "clear" => {
            page.clear_to_marker();
            Ok(())
        }
        "last" => push_node(out, page.last_named(word.tag())),
        _ => push_bool(out, page.is_listed(word.node()?)?),
    }
}

/// The place for a node, with a target or without.
fn find_place(page: &mut Page, word: Word<'_>, out: &mut String) -> Result<(), Refusal> {
    let target = if word.first == "" {
        None
    } else {
        Some(word.node()?)
    };
    let place = page.place(target, word.fosters())?;
    push_place(out, place)
}

/// Follows an end tag of a formatting name.
fn follow(page: &mut Page, alloc: Global, word: Word<'_>, out: &mut String) -> Result<(), Refusal> {
    let end = adopt(page, alloc, word.tag(), word.fosters())?;
    push_end(out, end)?;
    Ok(())
}

fn push_end(out: &mut String, end: AdoptEnd) -> Result<(), AllocError> {
    out.push_str(match end {
        AdoptEnd::Done => "done",
        AdoptEnd::OtherEndTag => "other",
    })
}

/// Adoption, the number of clones, and whether its steps are at least as many and within 32(h+4)², h elements being open before.
fn end(page: &mut Page, alloc: Global, word: Word<'_>, out: &mut String) -> Result<(), Refusal> {
    let nodes = page.arena().len();
    let start = page.arena().meter().steps;
    let size = (page.depth() as u128).saturating_add(4);
    follow(page, alloc, word, out)?;
    let clones = page.arena().len().saturating_sub(nodes);
    let steps = page.arena().meter().steps.saturating_sub(start);
    let most = size.saturating_mul(size).saturating_mul(32);
    let bounded = if clones as u128 <= steps && steps <= most {
        "bounded"
    } else {
        "unbounded"
    };
    write!(out, " {clones} {bounded}")?;
    Ok(())
}

/// Adoption, and the tree that it leaves, after a refusal too: that takes one more node. The page is then empty.
fn adopt_last(
    page: &mut Page,
    alloc: Global,
    word: Word<'_>,
    out: &mut String,
) -> Result<(), Refusal> {
    let old = mem::replace(page, Page::new(alloc));
    let nodes = old.arena().len();
    let (mut arena, end) = old.adopt_last(word.tag(), word.fosters())?;
    tell_left(&mut arena, nodes, end, out)
}

fn tell_left(
    arena: &mut Arena,
    nodes: u64,
    end: Result<AdoptEnd, ArenaError>,
    out: &mut String,
) -> Result<(), Refusal> {
    let clones = arena.len().saturating_sub(nodes);
    write!(out, "{end:?} {clones} ")?;
    tree(arena, out)?;
    let node = arena.make(NewNode::Text)?;
    let goes_on = is_node(arena, node);
    write!(out, " {goes_on}")?;
    Ok(())
}
