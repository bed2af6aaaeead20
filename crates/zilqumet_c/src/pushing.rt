//! Bytes in pieces to a page, as they come.

ghost use Rattle.std.specs.Prelude.{◌≡◌, ◌≢◌, ◌⊎◌, ℕ, List, Option, None, Some, Ok, Err, [], IfOk, IfErr, OnOk, OnSome};
ghost use Rattle.std.specs.Str.{IsUtf8};
ghost use Rattle.html_parser.specs.Causes.{IsCause};
ghost use Rattle.html_parser.specs.Options.{HasGoodContext, IsBeginCause, start_of};
ghost use Rattle.html_parser.specs.Owned.{IsOwnedFed, IsOwnedStopped};
ghost use Rattle.html_parser.specs.Parsed.{IsTreeOf};
ghost use Rattle.html_parser.specs.Start.{Start};
ghost use Rattle.zilqumet_c.specs.Causes.{IsToldBy};
ghost use Rattle.zilqumet_c.specs.Kept.{unboxed};
ghost use Rattle.zilqumet_c.specs.Pieces.{IsFedIn, IsPushed, IsStoppedIn};
ghost use Rattle.zilqumet_c.specs.Reads.{context_in, options_in, parser_in, rows_in};
ghost use Rattle.zilqumet_c.specs.Status.{status_of};

use crate::entities::shared_table;
use crate::held::{Held, Rooted};
use crate::numbers::{ZqLimits, options_of};
use crate::parsing::context_of;
use crate::slot::Slot;
use crate::status::{BAD_HANDLE, OK, OUT_OF_MEMORY, keep, place_of, status_of};
use html_parser::{Options, OwnedTreeParser, ParseError};
use std::alloc::Global;
use std::mem::replace;

/// A parser of a document that was fed nothing, by a table of references, or by the core five where the handle holds none, within limits and with foreign
/// content parsed or refused, as `proved_parse` has it. What `parser` held is freed first.
#[unsafe(no_mangle)]
pub extern "C" fn proved_parser_new(
    alloc: Global,
    entities: &mut Slot,
    limits: &ZqLimits,
    parser: &mut Slot,
) -> u32
    ensures entities { entities.new.value ≡ entities.old.value }
    ensures begun { result ≡ 0 → IsFedIn (start_of (rows_in entities.old.value) (options_in limits.now None)) parser.new.value [] }
    ensures empty { result ≢ 0 → parser.new.value ≡ None }
    ensures cause { result ≢ 0 → IsToldBy (IsBeginCause (options_in limits.now None)) result 0 }
{
    begin(alloc, entities, &options_of(limits, None), parser)
}

/// A parser of a fragment in a context, as `proved_parser_new`.
#[unsafe(no_mangle)]
pub extern "C" fn proved_parser_new_fragment(
    alloc: Global,
    entities: &mut Slot,
    limits: &ZqLimits,
    context: &[u8],
    in_form: bool,
    quirks: bool,
    parser: &mut Slot,
) -> u32
    ensures entities { entities.new.value ≡ entities.old.value }
    ensures begun { result ≡ 0 → IsFedIn (start_of (rows_in entities.old.value) (options_in limits.now (Some (context_in context.now in_form quirks)))) parser.new.value [] }
    ensures good { result ≡ 0 → IsUtf8 context.now × HasGoodContext (options_in limits.now (Some (context_in context.now in_form quirks))) }
    ensures empty { result ≢ 0 → parser.new.value ≡ None }
    ensures cause { result ≢ 0 → ((result ≡ 5) × (IsUtf8 context.now → ⊥))
        ⊎ IsToldBy (IsBeginCause (options_in limits.now (Some (context_in context.now in_form quirks)))) result 0 }
{
    match context_of(alloc, context, in_form, quirks) {
        Ok(context) => begin(alloc, entities, &options_of(limits, Some(context)), parser),
        Err(error) => hold(alloc, Err(error), parser),
    }
}

/// Fills a handle with a parser as options ask for, by the table that is held, or by the core five.
fn begin(alloc: Global, entities: &mut Slot, options: &Options, parser: &mut Slot) -> u32
    ensures entities { entities.new.value ≡ entities.old.value }
    ensures begun { result ≡ 0 → IsFedIn (start_of (rows_in entities.old.value) options.now) parser.new.value [] }
    ensures good { result ≡ 0 → HasGoodContext options.now }
    ensures empty { result ≢ 0 → parser.new.value ≡ None }
    ensures cause { result ≢ 0 → IsToldBy (IsBeginCause options.now) result 0 }
{
    let held = entities.take(alloc);
    let begun = begun_by(alloc, &held, options);
    entities.restore(alloc, held);
    hold(alloc, begun, parser)
}

/// A parser as options ask for, by the table that is held, or by the core five.
fn begun_by(
    alloc: Global,
    held: &Option<Box<Held>>,
    options: &Options,
) -> Result<OwnedTreeParser, ParseError>
    ensures begun { IfOk result (λ p. IsOwnedFed (start_of (rows_in (unboxed held.now)) options.now) p.feeder []) }
    ensures good { OnOk result (HasGoodContext options.now) }
    ensures cause { IfErr result (IsBeginCause options.now) }
{
    let Ok(table) = shared_table(alloc, held) else {
        return Err(ParseError::OutOfMemory);
    };
    OwnedTreeParser::new(alloc, table, options)
}

/// Puts a parser into a handle, or tells why there is none.
fn hold(alloc: Global, begun: Result<OwnedTreeParser, ParseError>, parser: &mut Slot) -> u32
    ensures ok { result ≡ 0 → (p : OwnedTreeParser) × (begun ≡ Ok p) × (parser.new.value ≡ Some (Held.Parser p)) }
    ensures empty { result ≢ 0 → parser.new.value ≡ None }
    ensures cause { result ≢ 0 → (result ≡ 1) ⊎ ((e : ParseError) × (begun ≡ Err e) × (result ≡ status_of e)) }
{
    let _old = parser.take(alloc);
    match begun {
        Ok(begun) => match Box::new(alloc, Held::Parser(begun)) {
            Ok(held) => {
                parser.put(held);
                OK
            }
            Err(_) => OUT_OF_MEMORY,
        },
        Err(error) => status_of(error),
    }
}

/// Takes a piece of the input, and hands on what it decides. After a refusal the parser takes no more.
#[unsafe(no_mangle)]
pub extern "C" fn proved_parser_feed(
    alloc: Global,
    parser: &mut Slot,
    piece: &[u8],
    at: &mut u64,
) -> u32
    ensures pushed { IsPushed parser.old.value parser.new.value piece.now result at.new }
{
    *at = 0;
    let Some(mut held) = parser.take(alloc) else {
        return BAD_HANDLE;
    };
    let said = add(alloc, held.as_mut(), piece, at);
    parser.put(held);
    said
}

/// Hands a piece to a parser that is held.
fn add(alloc: Global, held: &mut Held, piece: &[u8], at: &mut u64) -> u32
    ensures pushed { IsPushed (Some held.old) (Some held.new) piece.now result at.new }
{
    match replace(held, Held::Buffer(Vec::new(alloc))) {
        Held::Parser(parser) => {
            let mut parser = parser;
            let said = push(&mut parser, piece, at);
            *held = Held::Parser(parser);
            said
        }
        other => {
            *held = other;
            BAD_HANDLE
        }
    }
}

/// Hands a piece to a parser, and tells what came of it.
fn push(parser: &mut OwnedTreeParser, piece: &[u8], at: &mut u64) -> u32
    ensures pushed { IsPushed (Some (Held.Parser parser.old)) (Some (Held.Parser parser.new)) piece.now result at.new }
{
    match parser.feed(piece) {
        Ok(()) => OK,
        Err(error) => {
            *at = place_of(error);
            status_of(error)
        }
    }
}

/// Ends the input: the page of all that was fed, and the parser is empty then. What `page` held is freed first.
#[unsafe(no_mangle)]
pub extern "C" fn proved_parser_finish(
    alloc: Global,
    parser: &mut Slot,
    page: &mut Slot,
    at: &mut u64,
) -> u32
    ensures parsed { result ≡ 0 → (r : Rooted) × (page.new.value ≡ Some (Held.Page r))
        × ((start : Start) (bytes : List ℕ) → IsFedIn start parser.old.value bytes → IsTreeOf start bytes r.tree) }
    ensures empty { result ≢ 0 → page.new.value ≡ None }
    ensures cause { result ≢ 0 → (start : Start) (bytes : List ℕ) → IsFedIn start parser.old.value bytes → IsToldBy (IsCause start bytes) result at.new }
    ensures ended { OnSome (parser_in parser.old.value) (parser.new.value ≡ None) }
    ensures stopped { IsStoppedIn parser.old.value → result ≡ 9 }
    ensures other { parser_in parser.old.value ≡ None → (result ≡ 12) × (parser.new.value ≡ parser.old.value) }
{
    match taken(alloc, parser) {
        Some(parser) => keep(alloc, end(parser), page, at),
        None => {
            let _old = page.take(alloc);
            *at = 0;
            BAD_HANDLE
        }
    }
}

/// Takes the parser out of a handle, which is left as it was where it holds none.
fn taken(alloc: Global, slot: &mut Slot) -> Option<OwnedTreeParser>
    ensures parser { result ≡ parser_in slot.old.value }
    ensures empty { OnSome result (slot.new.value ≡ None) }
    ensures other { result ≡ None → slot.new.value ≡ slot.old.value }
{
    let mut held = slot.take(alloc)?;
    match replace(held.as_mut(), Held::Buffer(Vec::new(alloc))) {
        Held::Parser(parser) => Some(parser),
        other => {
            *held.as_mut() = other;
            slot.put(held);
            None
        }
    }
}

/// The tree of all that a parser was fed.
fn end(parser: OwnedTreeParser) -> Result<Rooted, ParseError>
    ensures tree { IfOk result (λ r. (start : Start) (bytes : List ℕ) → IsOwnedFed start parser.feeder bytes → IsTreeOf start bytes r.tree) }
    ensures cause { IfErr result (λ e. (start : Start) (bytes : List ℕ) → IsOwnedFed start parser.feeder bytes → IsCause start bytes e) }
    ensures stopped { IsOwnedStopped parser.feeder → result ≡ Err ParseError.Stopped }
{
    let tree = parser.finish()?;
    Ok(Rooted { tree })
}
