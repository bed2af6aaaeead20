//! Pages as text.

ghost use Rattle.std.specs.Prelude.{◌≡◌, ◌≢◌, ◌⊎◌, Option, None, Some, IfOk, IfErr, List, MatchOption, length};
ghost use Rattle.std.specs.Str.{encode_utf8_all};
ghost use Rattle.html_page.specs.Serialised.{html_below};
ghost use Rattle.html_page.specs.declared.profile.Profile.{Profile};
ghost use Rattle.html_parser.specs.Parsed.{IsTreeOf};
ghost use Rattle.html_parser.specs.Options.{start_of};
ghost use Rattle.html_parser.specs.declared.page.Tree.{Tree};
ghost use Rattle.zilqumet_c.specs.Reads.{HasBuffer, HasPage, bytes_in, options_in, profile_of, rows_in, written};
ghost use Rattle.zilqumet_c.specs.Causes.{IsPageCause, IsToldBy};

use crate::held::{Held, Rooted};
use crate::numbers::{ZqLimits, options_of};
use crate::parsing::parsed_by;
use crate::slot::Slot;
use crate::status::{BAD_HANDLE, OK, OUT_OF_MEMORY, place_of, status_of};
use html_parser::{OverWrite, Profile};
use std::alloc::Global;
use zilqumet_rows::{Text, text_of};

/// Writes a page to a buffer, as text in UTF-8. In values of attributes `<` and `>` are escaped where `angles` says so.
#[unsafe(no_mangle)]
pub extern "C" fn proved_serialise(
    alloc: Global,
    page: &mut Slot,
    angles: bool,
    buffer: &mut Slot,
) -> u32
    ensures kept { page.new.value ≡ page.old.value }
    ensures text { result ≡ 0 → HasPage page.old.value (λ t. HasBuffer buffer.new.value (λ b. b ≡ written (profile_of angles) t)) }
    ensures empty { result ≢ 0 → buffer.new.value ≡ None }
{
    let _old = buffer.take(alloc);
    let held = page.take(alloc);
    let said = match &held {
        Some(held) => write_held(alloc, held.as_ref(), angles, buffer),
        None => BAD_HANDLE,
    };
    page.restore(alloc, held);
    said
}

/// The text of a document's page, in one call.
#[unsafe(no_mangle)]
pub extern "C" fn proved_normalise(
    alloc: Global,
    entities: &mut Slot,
    limits: &ZqLimits,
    bytes: &[u8],
    angles: bool,
    buffer: &mut Slot,
    at: &mut u64,
) -> u32
    ensures entities { entities.new.value ≡ entities.old.value }
    ensures text { result ≡ 0 → (t : Tree) × IsTreeOf (start_of (rows_in entities.old.value) (options_in limits.now None)) bytes.now t
        × HasBuffer buffer.new.value (λ b. b ≡ written (profile_of angles) t) }
    ensures empty { result ≢ 0 → buffer.new.value ≡ None }
    ensures cause { result ≢ 0 → IsToldBy (IsPageCause (rows_in entities.old.value) (options_in limits.now None) bytes.now) result at.new }
{
    let _old = buffer.take(alloc);
    *at = 0;
    let options = options_of(limits, None);
    let held = entities.take(alloc);
    let parsed = parsed_by(alloc, &held, &options, bytes);
    entities.restore(alloc, held);
    match parsed {
        Ok(rooted) => write_tree(alloc, &rooted, angles, buffer),
        Err(error) => {
            *at = place_of(error);
            status_of(error)
        }
    }
}

/// The bytes of a buffer, which stay where they are until it is freed or written to.
#[unsafe(no_mangle)]
pub extern "C" fn proved_bytes(alloc: Global, buffer: &mut Slot, bytes: &mut Text) -> u32
    ensures kept { buffer.new.value ≡ buffer.old.value }
    ensures len { MatchOption (bytes_in buffer.old.value) (result ≡ 12) (λ b. (result ≡ 0) × (bytes.new.len ≡ length b)) }
{
    let held = buffer.take(alloc);
    let said = match &held {
        Some(held) => bytes_of(held.as_ref(), bytes),
        None => BAD_HANDLE,
    };
    buffer.restore(alloc, held);
    said
}

/// The bytes of a buffer.
fn bytes_of(held: &Held, bytes: &mut Text) -> u32
    ensures len { MatchOption (bytes_in (Some held.now)) (result ≡ 12) (λ b. (result ≡ 0) × (bytes.new.len ≡ length b)) }
{
    let Held::Buffer(buffer) = held else {
        return BAD_HANDLE;
    };
    *bytes = text_of(buffer.as_slice());
    OK
}

/// Which characters are escaped.
fn profile(angles: bool) -> Profile
    ensures { result ≡ profile_of angles }
{
    if angles { Profile::Two } else { Profile::One }
}

/// Writes what a handle holds to a buffer.
fn write_held(alloc: Global, held: &Held, angles: bool, buffer: &mut Slot) -> u32
    ensures text { result ≡ 0 → HasPage (Some held.now) (λ t. HasBuffer buffer.new.value (λ b. b ≡ written (profile_of angles) t)) }
    ensures same { result ≢ 0 → buffer.new.value ≡ buffer.old.value }
{
    let Held::Page(page) = held else {
        return BAD_HANDLE;
    };
    write_tree(alloc, page, angles, buffer)
}

/// Writes a tree to a buffer. Only memory can be refused.
fn write_tree(alloc: Global, page: &Rooted, angles: bool, buffer: &mut Slot) -> u32
    ensures text { result ≡ 0 → HasBuffer buffer.new.value (λ b. b ≡ written (profile_of angles) page.now.tree) }
    ensures same { result ≢ 0 → buffer.new.value ≡ buffer.old.value }
    ensures cause { result ≢ 0 → result ≡ 1 }
{
    let mut out = OverWrite::new(Vec::new(alloc));
    let Ok(()) = page.tree.serialise(profile(angles), &mut out) else {
        return OUT_OF_MEMORY;
    };
    match Box::new(alloc, Held::Buffer(out.into_inner())) {
        Ok(held) => {
            buffer.put(held);
            OK
        }
        Err(_) => OUT_OF_MEMORY,
    }
}
