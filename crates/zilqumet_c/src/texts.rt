//! All texts of a page in one call.

ghost use Rattle.std.specs.Prelude.{◌≡◌, ◌≢◌, None, Some, length};
ghost use Rattle.zilqumet_c.specs.Reads.{HasPage, HasTexts};
ghost use Rattle.zilqumet_rows.specs.Texts.{AreTexts, all_texts};

use crate::held::Held;
use crate::slot::Slot;
use crate::status::{BAD_HANDLE, OK, OUT_OF_MEMORY};
use std::alloc::Global;
use zilqumet_rows::{Gathered, address_of, address_of_numbers};

/// Texts one behind the other: where they lie, and where it is told where each ends, and how many they are.
#[repr(C)]
#[derive(Clone, Copy)]
pub struct ZqTexts {
    pub at: *const u8,
    pub ends: *const u64,
    pub count: usize,
}

/// Fills a handle with all texts of a page, and tells where they lie.
#[unsafe(no_mangle)]
pub extern "C" fn proved_all_texts(
    alloc: Global,
    page: &mut Slot,
    buffer: &mut Slot,
    texts: &mut ZqTexts,
) -> u32
    ensures kept { page.new.value ≡ page.old.value }
    ensures texts { result ≡ 0 → HasPage page.old.value (λ t. HasTexts buffer.new.value (λ g. AreTexts g.bytes.items g.ends.items (all_texts t.arena.labels)
        × (texts.new.count ≡ length g.ends.items))) }
    ensures empty { result ≢ 0 → buffer.new.value ≡ None }
{
    let _old = buffer.take(alloc);
    let held = page.take(alloc);
    let said = match &held {
        Some(held) => texts_in(alloc, held.as_ref(), buffer, texts),
        None => BAD_HANDLE,
    };
    page.restore(alloc, held);
    said
}

/// Fills a handle with all texts of a page.
fn texts_in(alloc: Global, held: &Held, buffer: &mut Slot, texts: &mut ZqTexts) -> u32
    ensures texts { result ≡ 0 → HasPage (Some held.now) (λ t. HasTexts buffer.new.value (λ g. AreTexts g.bytes.items g.ends.items (all_texts t.arena.labels)
        × (texts.new.count ≡ length g.ends.items))) }
    ensures empty { result ≢ 0 → buffer.new.value ≡ buffer.old.value }
{
    let Held::Page(page) = held else {
        return BAD_HANDLE;
    };
    let mut gathered = Gathered::new(alloc);
    let Ok(()) = gathered.add_all(&page.tree.arena) else {
        return OUT_OF_MEMORY;
    };
    let told = places(&gathered);
    match Box::new(alloc, Held::Texts(gathered)) {
        Ok(held) => {
            buffer.put(held);
            *texts = told;
            OK
        }
        Err(_) => OUT_OF_MEMORY,
    }
}

/// Where texts lie.
fn places(gathered: &Gathered) -> ZqTexts
    ensures { result.count ≡ length gathered.now.ends.items }
{
    ZqTexts {
        at: address_of(gathered.bytes.as_slice()),
        ends: address_of_numbers(gathered.ends.as_slice()),
        count: gathered.ends.len(),
    }
}
