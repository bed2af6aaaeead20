//! The texts of nodes.

ghost use Rattle.std.specs.Prelude.{◌≡◌, ◌<◌, ◌≤◌, ℕ, List, Some, IfSome, length, take};
ghost use Rattle.zilqumet_c.specs.Reads.{HasPage, IsPart};

use crate::held::Held;
use crate::slot::Slot;
use crate::status::{BAD_HANDLE, BAD_INDEX, OK};
use html_parser::{Arena, NodeData, NodeId};
use html_tokens::OptionalStr;
use std::alloc::Global;
use zilqumet_rows::{Text, text_of};

const NAME: u32 = 0;

const TEXT: u32 = 1;

const ATTR_NAME: u32 = 2;

const ATTR_VALUE: u32 = 3;

const DOCTYPE_NAME: u32 = 4;

const PUBLIC_ID: u32 = 5;

const SYSTEM_ID: u32 = 6;

/// A text of a node, which stays where it is until the page is freed.
#[unsafe(no_mangle)]
pub extern "C" fn proved_text(
    alloc: Global,
    page: &mut Slot,
    part: u32,
    node: u64,
    index: u64,
    text: &mut Text,
) -> u32
    ensures kept { page.new.value ≡ page.old.value }
    ensures len { result ≡ 0 → HasPage page.old.value (λ t. (bytes : List ℕ) × (text.new.len ≡ length bytes) × IsPart t.arena part node index bytes) }
{
    let held = page.take(alloc);
    let said = match &held {
        Some(held) => text_in(held.as_ref(), part, node, index, text),
        None => BAD_HANDLE,
    };
    page.restore(alloc, held);
    said
}

/// Copies a text of a node to the front of `out`, where it has room, and tells how long the text is.
#[unsafe(no_mangle)]
pub extern "C" fn proved_copy(
    alloc: Global,
    page: &mut Slot,
    part: u32,
    node: u64,
    index: u64,
    out: &mut [u8],
    len: &mut usize,
) -> u32
    ensures kept { page.new.value ≡ page.old.value }
    ensures text { result ≡ 0 → len.new ≤ length out.new → HasPage page.old.value (λ t. IsPart t.arena part node index (take len.new out.new)) }
{
    let held = page.take(alloc);
    let said = match &held {
        Some(held) => copy_in(held.as_ref(), part, node, index, out, len),
        None => BAD_HANDLE,
    };
    page.restore(alloc, held);
    said
}

/// Copies a text of a node.
fn copy_in(held: &Held, part: u32, node: u64, index: u64, out: &mut [u8], len: &mut usize) -> u32
    ensures text { result ≡ 0 → len.new ≤ length out.new → HasPage (Some held.now) (λ t. IsPart t.arena part node index (take len.new out.new)) }
{
    let Held::Page(page) = held else {
        return BAD_HANDLE;
    };
    let arena = &page.tree.arena;
    if node >= arena.len() {
        return BAD_INDEX;
    }
    let Some(found) = part_of(arena, part, NodeId::at(node as usize), index) else {
        return BAD_INDEX;
    };
    let bytes = found.as_bytes();
    *len = bytes.len();
    copy_front(out, bytes);
    OK
}

/// Copies bytes to the front of `out`, where it has room.
fn copy_front(out: &mut [u8], bytes: &[u8])
    ensures { length bytes.now ≤ length out.new → take (length bytes.now) out.new ≡ bytes.now }
{
    if bytes.len() <= out.len() {
        out[..bytes.len()].copy_from_slice(bytes);
    }
}

/// A text of a node.
fn text_in(held: &Held, part: u32, node: u64, index: u64, text: &mut Text) -> u32
    ensures len { result ≡ 0 → HasPage (Some held.now) (λ t. (bytes : List ℕ) × (text.new.len ≡ length bytes) × IsPart t.arena part node index bytes) }
{
    let Held::Page(page) = held else {
        return BAD_HANDLE;
    };
    let arena = &page.tree.arena;
    if node >= arena.len() {
        return BAD_INDEX;
    }
    match part_of(arena, part, NodeId::at(node as usize), index) {
        Some(found) => {
            *text = text_of(found.as_bytes());
            OK
        }
        None => BAD_INDEX,
    }
}

/// A text of a node.
fn part_of(arena: &Arena, part: u32, node: NodeId, index: u64) -> Option<&str>
    requires { node < length arena.now.labels }
    ensures { IfSome result (λ s. IsPart arena.now part node index s.now) }
{
    match part {
        NAME => Some(arena.name(node)),
        TEXT => Some(arena.text(node)),
        ATTR_NAME => {
            let attr = arena.attrs(node).get(index as usize)?;
            Some(attr.name.as_str())
        }
        ATTR_VALUE => {
            let attr = arena.attrs(node).get(index as usize)?;
            Some(attr.value.as_str())
        }
        _ => doctype_part(arena.node(node), part),
    }
}

/// A text of a doctype.
fn doctype_part(node: &NodeData, part: u32) -> Option<&str> {
    let NodeData::Doctype {
        name,
        public,
        system,
        ..
    } = node
    else {
        return None;
    };
    match part {
        DOCTYPE_NAME => optional(name),
        PUBLIC_ID => optional(public),
        SYSTEM_ID => optional(system),
        _ => None,
    }
}

/// A text that may not be there.
fn optional(text: &OptionalStr) -> Option<&str> {
    let text = text.as_ref()?;
    Some(text.as_str())
}
