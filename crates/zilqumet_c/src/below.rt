//! The text below a node.

ghost use Rattle.std.specs.Prelude.{◌≡◌, ◌≢◌, ◌<◌, None, Some, IfOk, length};
ghost use Rattle.std.specs.Str.{encode_utf8_all};
ghost use Rattle.html_dom.specs.Reads.{descendants_of, text_of_all};
ghost use Rattle.zilqumet_c.specs.Reads.{HasBuffer, HasPage, text_below};

use crate::held::Held;
use crate::slot::Slot;
use crate::status::{BAD_HANDLE, BAD_INDEX, OK, OUT_OF_MEMORY};
use html_parser::dom::text_below;
use html_parser::{Arena, NodeId};
use std::alloc::{AllocError, Global};

/// Fills a buffer with all texts below a node, in tree order, those in templates with them; comments are none.
#[unsafe(no_mangle)]
pub extern "C" fn proved_text_below(
    alloc: Global,
    page: &mut Slot,
    node: u64,
    buffer: &mut Slot,
) -> u32
    ensures kept { page.new.value ≡ page.old.value }
    ensures text { result ≡ 0 → HasPage page.old.value (λ t. (node < length t.arena.labels) × HasBuffer buffer.new.value (λ b. b ≡ text_below t.arena node)) }
    ensures empty { result ≢ 0 → buffer.new.value ≡ None }
{
    let _old = buffer.take(alloc);
    let held = page.take(alloc);
    let said = match &held {
        Some(held) => below_in(alloc, held.as_ref(), node, buffer),
        None => BAD_HANDLE,
    };
    page.restore(alloc, held);
    said
}

/// Fills a buffer with all texts below a node.
fn below_in(alloc: Global, held: &Held, node: u64, buffer: &mut Slot) -> u32
    ensures text { result ≡ 0 → HasPage (Some held.now) (λ t. (node < length t.arena.labels) × HasBuffer buffer.new.value (λ b. b ≡ text_below t.arena node)) }
    ensures same { result ≢ 0 → buffer.new.value ≡ buffer.old.value }
{
    let Held::Page(page) = held else {
        return BAD_HANDLE;
    };
    let arena = &page.tree.arena;
    if node >= arena.len() {
        return BAD_INDEX;
    }
    match below(alloc, arena, NodeId::at(node as usize)) {
        Ok(held) => {
            buffer.put(held);
            OK
        }
        Err(_) => OUT_OF_MEMORY,
    }
}

/// All texts below a node, as a buffer.
fn below(alloc: Global, arena: &Arena, node: NodeId) -> Result<Box<Held>, AllocError>
    ensures { IfOk result (λ b. HasBuffer (Some b.value) (λ b. b ≡ text_below arena.now node)) }
{
    let mut text = String::new(alloc);
    text_below(arena, node, &mut text)?;
    let held = Box::new(alloc, Held::Buffer(text.into_bytes()))?;
    Ok(held)
}
