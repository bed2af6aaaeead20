//! Pages from bytes.

ghost use Rattle.std.specs.Prelude.{◌≡◌, ◌≢◌, ◌⊎◌, ◌<◌, Option, None, Some, IfOk, IfErr, MatchOption, OnOk};
ghost use Rattle.std.specs.Str.{IsUtf8};
ghost use Rattle.html_parser.specs.Parsed.{IsTreeOf};
ghost use Rattle.html_parser.specs.Options.{start_of};
ghost use Rattle.zilqumet_c.specs.Kept.{unboxed};
ghost use Rattle.zilqumet_c.specs.Reads.{context_in, options_in, rows_in};
ghost use Rattle.zilqumet_c.specs.Causes.{IsPageCause, IsToldBy};
ghost use Rattle.html_charref.specs.Entities.{core_rows};

use crate::entities::table_of;
use crate::held::{Held, Rooted};
use crate::numbers::{ZqLimits, options_of};
use crate::slot::Slot;
use crate::status::keep;
use html_parser::{Context, EntityTable, Options, ParseError, Str, parse_tree_with};
use std::alloc::Global;

/// The page of a document, within limits, with foreign content parsed or refused, by a table of references, or by the core five where the handle holds none. What `page` held is
/// freed first.
#[unsafe(no_mangle)]
pub extern "C" fn proved_parse(
    alloc: Global,
    entities: &mut Slot,
    limits: &ZqLimits,
    bytes: &[u8],
    page: &mut Slot,
    at: &mut u64,
) -> u32
    ensures entities { entities.new.value ≡ entities.old.value }
    ensures parsed { result ≡ 0 → (r : Rooted) × (page.new.value ≡ Some (Held.Page r))
        × IsTreeOf (start_of (rows_in entities.old.value) (options_in limits.now None)) bytes.now r.tree }
    ensures empty { result ≢ 0 → page.new.value ≡ None }
    ensures cause { result ≢ 0 → IsToldBy (IsPageCause (rows_in entities.old.value) (options_in limits.now None) bytes.now) result at.new }
{
    let options = options_of(limits, None);
    let held = entities.take(alloc);
    let parsed = parsed_by(alloc, &held, &options, bytes);
    entities.restore(alloc, held);
    keep(alloc, parsed, page, at)
}

/// The page of a fragment in a context, as `proved_parse`.
#[unsafe(no_mangle)]
pub extern "C" fn proved_parse_fragment(
    alloc: Global,
    entities: &mut Slot,
    limits: &ZqLimits,
    context: &[u8],
    in_form: bool,
    quirks: bool,
    bytes: &[u8],
    page: &mut Slot,
    at: &mut u64,
) -> u32
    ensures entities { entities.new.value ≡ entities.old.value }
    ensures parsed { result ≡ 0 → (r : Rooted) × (page.new.value ≡ Some (Held.Page r))
        × IsTreeOf (start_of (rows_in entities.old.value) (options_in limits.now (Some (context_in context.now in_form quirks)))) bytes.now r.tree }
    ensures good { result ≡ 0 → IsUtf8 context.now }
    ensures empty { result ≢ 0 → page.new.value ≡ None }
    ensures cause { result ≢ 0 → ((result ≡ 5) × (IsUtf8 context.now → ⊥))
        ⊎ IsToldBy (IsPageCause (rows_in entities.old.value) (options_in limits.now (Some (context_in context.now in_form quirks))) bytes.now) result at.new }
{
    match context_of(alloc, context, in_form, quirks) {
        Ok(context) => {
            let options = options_of(limits, Some(context));
            let held = entities.take(alloc);
            let parsed = parsed_by(alloc, &held, &options, bytes);
            entities.restore(alloc, held);
            keep(alloc, parsed, page, at)
        }
        Err(error) => keep(alloc, Err(error), page, at),
    }
}

/// The context of a fragment by its name.
pub(crate) fn context_of(
    alloc: Global,
    name: &[u8],
    in_form: bool,
    quirks: bool,
) -> Result<Context, ParseError>
    ensures value { IfOk result (λ c. c ≡ context_in name.now in_form quirks) }
    ensures good { OnOk result (IsUtf8 name.now) }
    ensures cause { IfErr result (λ e. ((e ≡ ParseError.BadContext) × (IsUtf8 name.now → ⊥)) ⊎ (e ≡ ParseError.OutOfMemory)) }
{
    let Ok(name) = std::str::from_utf8(name) else {
        return Err(ParseError::BadContext);
    };
    let Ok(name) = Str::of(alloc, name) else {
        return Err(ParseError::OutOfMemory);
    };
    Ok(Context {
        name,
        in_form,
        quirks,
        encoding: None,
    })
}

/// The tree of an input as options ask for it, by the table that is held, or by the core five.
pub(crate) fn parsed_by(
    alloc: Global,
    held: &Option<Box<Held>>,
    options: &Options,
    bytes: &[u8],
) -> Result<Rooted, ParseError>
    ensures tree { IfOk result (λ r. IsTreeOf (start_of (rows_in (unboxed held.now)) options.now) bytes.now r.tree) }
    ensures cause { IfErr result (IsPageCause (rows_in (unboxed held.now)) options.now bytes.now) }
{
    match table_of(held) {
        Some(table) => tree_by(alloc, table, options, bytes),
        None => tree_by(alloc, &core_table(alloc)?, options, bytes),
    }
}

/// The table of the core five.
pub(crate) fn core_table(alloc: Global) -> Result<EntityTable, ParseError>
    ensures ok { IfOk result (λ t. t ≡ core_rows) }
    ensures cause { IfErr result (λ e. e ≡ ParseError.OutOfMemory) }
{
    match EntityTable::core(alloc) {
        Ok(table) => Ok(table),
        Err(_) => Err(ParseError::OutOfMemory),
    }
}

/// The tree of an input by a table.
fn tree_by(
    alloc: Global,
    table: &EntityTable,
    options: &Options,
    bytes: &[u8],
) -> Result<Rooted, ParseError>
    ensures tree { IfOk result (λ r. IsTreeOf (start_of table.now options.now) bytes.now r.tree) }
    ensures cause { IfErr result (IsPageCause table.now options.now bytes.now) }
{
    let tree = parse_tree_with(alloc, table, options, bytes)?;
    Ok(Rooted { tree })
}
