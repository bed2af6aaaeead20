//! The parse errors of a page.

ghost use Rattle.std.specs.Prelude.{◌≡◌, Some, IsSomeAnd, slice_get};
ghost use Rattle.zilqumet_c.specs.Reads.{HasPage};

use crate::held::Held;
use crate::slot::Slot;
use crate::status::{BAD_HANDLE, BAD_INDEX, OK, OUT_OF_MEMORY};
use html_parser::PageFault;
use std::alloc::{AllocError, Global};

/// Writes the standard's name of a parse error to a buffer, and tells its place.
#[unsafe(no_mangle)]
pub extern "C" fn proved_error(
    alloc: Global,
    page: &mut Slot,
    index: u64,
    name: &mut Slot,
    place: &mut u64,
) -> u32
    ensures kept { page.new.value ≡ page.old.value }
    ensures place { result ≡ 0 → HasPage page.old.value (λ t. IsSomeAnd (slice_get t.errors.items index) (λ f. place.new ≡ f.place)) }
{
    let held = page.take(alloc);
    let said = match &held {
        Some(held) => error_in(alloc, held.as_ref(), index, name, place),
        None => BAD_HANDLE,
    };
    page.restore(alloc, held);
    said
}

/// Writes the name of a parse error to a buffer.
fn error_in(alloc: Global, held: &Held, index: u64, name: &mut Slot, place: &mut u64) -> u32
    ensures place { result ≡ 0 → HasPage (Some held.now) (λ t. IsSomeAnd (slice_get t.errors.items index) (λ f. place.new ≡ f.place)) }
{
    let Held::Page(page) = held else {
        return BAD_HANDLE;
    };
    let Some(fault) = page.tree.errors.get(index as usize) else {
        return BAD_INDEX;
    };
    *place = fault.place;
    match named(alloc, *fault) {
        Ok(held) => {
            name.put(held);
            OK
        }
        Err(_) => OUT_OF_MEMORY,
    }
}

/// The name of a parse error, as a buffer.
fn named(alloc: Global, fault: PageFault) -> Result<Box<Held>, AllocError> {
    let text = format!(in alloc; "{}", fault.name)?;
    let held = Box::new(alloc, Held::Buffer(text.into_bytes()))?;
    Ok(held)
}
