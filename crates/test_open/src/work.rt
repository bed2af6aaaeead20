// What is measured.
use crate::page::Page;
use crate::refusal::Refusal;
use html_arena::NodeId;
use html_names::Tag;
use html_open::{AdoptEnd, Scope};
use html_text::Str;
use html_tokens::{Attr, Attrs};
use std::alloc::{AllocError, Global};
use std::mem;

/// Makes so many elements.
pub(crate) fn make_many(page: &mut Page, alloc: Global, count: u64) -> Result<(), Refusal> {
    for _ in 0..count {
        page.make(Str::of(alloc, "div")?, Attrs::new(alloc))?;
    }
    Ok(())
}

/// Makes so many elements and opens each.
pub(crate) fn open_many(page: &mut Page, alloc: Global, count: u64) -> Result<(), Refusal> {
    for _ in 0..count {
        let node = page.make(Str::of(alloc, "div")?, Attrs::new(alloc))?;
        page.push(node)?;
    }
    Ok(())
}

/// One attribute `id`.
pub(crate) fn id(alloc: Global, value: &str) -> Result<Attrs, AllocError> {
    let name = Str::of(alloc, "id")?;
    let value = Str::of(alloc, value)?;
    let mut list = Vec::new(alloc);
    list.push(Attr { name, value })?;
    Attrs::from_vec(list)
}

/// Lists so many elements, each with an attribute of its own value.
pub(crate) fn list_many(page: &mut Page, alloc: Global, count: u64) -> Result<(), Refusal> {
    for index in 0..count {
        let number = format!(in alloc; "{}", index)?;
        let attrs = id(alloc, number.as_str())?;
        let node = page.make(Str::of(alloc, "b")?, attrs)?;
        page.enter(node)?;
    }
    Ok(())
}

/// Looks so many times for an element that is not open, through all that are.
pub(crate) fn look(page: &mut Page, times: u64) {
    for _ in 0..times {
        let _ = page.has_in_scope(Tag::P, Scope::Default);
    }
}

/// Opens the listed elements anew. After a refusal the page is empty.
pub(crate) fn reopen(page: &mut Page, alloc: Global, foster: bool) -> Result<(), Refusal> {
    let old = mem::replace(page, Page::new(alloc));
    *page = old.reopen(foster)?;
    Ok(())
}

/// Follows an end tag of a formatting name. After a refusal the page is empty.
pub(crate) fn adopt(
    page: &mut Page,
    alloc: Global,
    name: Tag,
    foster: bool,
) -> Result<AdoptEnd, Refusal> {
    let old = mem::replace(page, Page::new(alloc));
    let (new, end) = old.adopt(name, foster)?;
    *page = new;
    Ok(end)
}

/// Opens the listed elements anew and closes them, so many times.
pub(crate) fn reopen_many(page: &mut Page, alloc: Global, times: u64) -> Result<(), Refusal> {
    for _ in 0..times {
        let depth = page.depth();
        reopen(page, alloc, false)?;
        for _ in depth..page.depth() {
            page.pop();
        }
    }
    Ok(())
}

/// Makes an element, the last child of the current node.
pub(crate) fn insert(page: &mut Page, alloc: Global, name: &str) -> Result<NodeId, Refusal> {
    let node = page.make(Str::of(alloc, name)?, Attrs::new(alloc))?;
    if let Some(current) = page.current() {
        page.link(current, node)?;
    }
    Ok(node)
}

/// Inserts an element and opens it.
pub(crate) fn start(page: &mut Page, alloc: Global, name: &str) -> Result<NodeId, Refusal> {
    let node = insert(page, alloc, name)?;
    page.push(node)?;
    Ok(node)
}

/// Opens `html` and `body`.
pub(crate) fn start_body(page: &mut Page, alloc: Global) -> Result<(), Refusal> {
    start(page, alloc, "html")?;
    start(page, alloc, "body")?;
    Ok(())
}

/// Opens a `b`, listed, and in it so many elements, each in the one before.
pub(crate) fn nest(page: &mut Page, alloc: Global, name: &str, count: u64) -> Result<(), Refusal> {
    let node = start(page, alloc, "b")?;
    page.enter(node)?;
    for _ in 0..count {
        start(page, alloc, name)?;
    }
    Ok(())
}

/// Reads `<b><p></b></p>` so many times.
pub(crate) fn misnest(page: &mut Page, alloc: Global, times: u64) -> Result<(), Refusal> {
    for _ in 0..times {
        reopen(page, alloc, false)?;
        nest(page, alloc, "p", 1)?;
        adopt(page, alloc, Tag::B, false)?;
        if page.has_in_scope(Tag::P, Scope::Button) {
            page.implied(Some(Tag::P));
            page.pop();
        }
    }
    Ok(())
}
