//! Pages with their ledgers.

ghost use Rattle.std.specs.Prelude.{◌≡◌, ◌≢◌, ◌⊎◌, None, Some, Err, IfErr, IfOk, IsOkAnd};
ghost use Rattle.std.specs.Str.{IsUtf8};
ghost use Rattle.html_arena.specs.Walking.{IsRoot};
ghost use Rattle.html_parser.specs.Options.{start_of};
ghost use Rattle.html_parser.specs.declared.error.ParseError.{ParseError};
ghost use Rattle.zilqumet_c.specs.Audits.{AreAudited, IsAudit, ledger_of, tree_of};
ghost use Rattle.zilqumet_c.specs.Causes.{IsPageCause, IsToldBy};
ghost use Rattle.zilqumet_c.specs.Kept.{unboxed};
ghost use Rattle.zilqumet_c.specs.Reads.{context_in, options_in, rows_in};
ghost use Rattle.zilqumet_c.specs.Status.{place_of, status_of};

use crate::entities::table_of;
use crate::held::{Held, Rooted};
use crate::numbers::{ZqLimits, options_of};
use crate::parsing::{context_of, core_table};
use crate::slot::Slot;
use crate::status::{OK, OUT_OF_MEMORY, place_of, status_of};
use html_parser::{EntityTable, Options, Page, ParseError, Tree, parse_with};
use std::alloc::{AllocError, Global};
use zilqumet_rows::Ledger;

/// A page, and its ledger.
#[derive(Drop)]
pub struct Audited {
    pub page: Rooted,
    pub ledger: Ledger,
}

/// The page of a document, as by `proved_parse`, and its ledger.
#[unsafe(no_mangle)]
pub extern "C" fn proved_audit(
    alloc: Global,
    entities: &mut Slot,
    limits: &ZqLimits,
    bytes: &[u8],
    page: &mut Slot,
    ledger: &mut Slot,
    at: &mut u64,
) -> u32
    ensures entities { entities.new.value ≡ entities.old.value }
    ensures audited { result ≡ 0 → AreAudited (start_of (rows_in entities.old.value) (options_in limits.now None)) bytes.now page.new.value ledger.new.value }
    ensures empty { result ≢ 0 → (page.new.value ≡ None) × (ledger.new.value ≡ None) }
    ensures cause { result ≢ 0 → IsToldBy (IsPageCause (rows_in entities.old.value) (options_in limits.now None) bytes.now) result at.new }
{
    let options = options_of(limits, None);
    audit(alloc, entities, &options, bytes, page, ledger, at)
}

/// The same of a fragment in a context, as `proved_parse_fragment` has it.
#[unsafe(no_mangle)]
pub extern "C" fn proved_audit_fragment(
    alloc: Global,
    entities: &mut Slot,
    limits: &ZqLimits,
    context: &[u8],
    in_form: bool,
    quirks: bool,
    bytes: &[u8],
    page: &mut Slot,
    ledger: &mut Slot,
    at: &mut u64,
) -> u32
    ensures entities { entities.new.value ≡ entities.old.value }
    ensures audited { result ≡ 0 → AreAudited (start_of (rows_in entities.old.value) (options_in limits.now (Some (context_in context.now in_form quirks)))) bytes.now
        page.new.value ledger.new.value }
    ensures good { result ≡ 0 → IsUtf8 context.now }
    ensures empty { result ≢ 0 → (page.new.value ≡ None) × (ledger.new.value ≡ None) }
    ensures cause { result ≢ 0 → ((result ≡ 5) × (IsUtf8 context.now → ⊥))
        ⊎ IsToldBy (IsPageCause (rows_in entities.old.value) (options_in limits.now (Some (context_in context.now in_form quirks))) bytes.now) result at.new }
{
    match context_of(alloc, context, in_form, quirks) {
        Ok(context) => {
            let options = options_of(limits, Some(context));
            audit(alloc, entities, &options, bytes, page, ledger, at)
        }
        Err(error) => keep_both(alloc, Err(error), page, ledger, at),
    }
}

/// The page and the ledger of an input, parsed as options ask for, by the table that is held, or by the core five.
fn audit(
    alloc: Global,
    entities: &mut Slot,
    options: &Options,
    bytes: &[u8],
    page: &mut Slot,
    ledger: &mut Slot,
    at: &mut u64,
) -> u32
    ensures entities { entities.new.value ≡ entities.old.value }
    ensures audited { result ≡ 0 → AreAudited (start_of (rows_in entities.old.value) options.now) bytes.now page.new.value ledger.new.value }
    ensures empty { result ≢ 0 → (page.new.value ≡ None) × (ledger.new.value ≡ None) }
    ensures cause { result ≢ 0 → IsToldBy (IsPageCause (rows_in entities.old.value) options.now bytes.now) result at.new }
{
    let held = entities.take(alloc);
    let audited = audited_by(alloc, &held, options, bytes);
    entities.restore(alloc, held);
    keep_both(alloc, audited, page, ledger, at)
}

/// The page and the ledger of an input, by the table that is held, or by the core five.
fn audited_by(
    alloc: Global,
    held: &Option<Box<Held>>,
    options: &Options,
    bytes: &[u8],
) -> Result<Audited, ParseError>
    ensures page { IfOk result (λ a. IsAudit (start_of (rows_in (unboxed held.now)) options.now) bytes.now a.page.tree a.ledger) }
    ensures cause { IfErr result (IsPageCause (rows_in (unboxed held.now)) options.now bytes.now) }
{
    match table_of(held) {
        Some(table) => by_table(alloc, table, options, bytes),
        None => by_table(alloc, &core_table(alloc)?, options, bytes),
    }
}

/// The page and the ledger of an input, by a table.
fn by_table(
    alloc: Global,
    table: &EntityTable,
    options: &Options,
    bytes: &[u8],
) -> Result<Audited, ParseError>
    ensures page { IfOk result (λ a. IsAudit (start_of table.now options.now) bytes.now a.page.tree a.ledger) }
    ensures cause { IfErr result (IsPageCause table.now options.now bytes.now) }
{
    let page = parse_with(alloc, table, options, bytes)?;
    Ok(parted(page))
}

/// A page without its ledger, and the ledger.
fn parted(page: Page) -> Audited
    requires root { IsRoot page.arena page.root }
    ensures tree { result.page.tree ≡ tree_of page }
    ensures ledger { result.ledger ≡ ledger_of page }
{
    let Page {
        arena,
        root,
        tokens,
        fates,
        errors,
        n,
        steps,
    } = page;
    let tree = Tree {
        arena,
        root,
        token_count: tokens.len(),
        errors,
        n,
        steps,
    };
    Audited {
        page: Rooted { tree },
        ledger: Ledger { tokens, fates },
    }
}

/// Puts a page and its ledger into handles, or tells why there are none.
fn keep_both(
    alloc: Global,
    audited: Result<Audited, ParseError>,
    page: &mut Slot,
    ledger: &mut Slot,
    at: &mut u64,
) -> u32
    ensures ok { result ≡ 0 → IsOkAnd audited (λ a. (page.new.value ≡ Some (Held.Page a.page)) × (ledger.new.value ≡ Some (Held.Ledger a.ledger))) }
    ensures empty { result ≢ 0 → (page.new.value ≡ None) × (ledger.new.value ≡ None) }
    ensures cause { result ≢ 0 → (result ≡ 1) ⊎ ((e : ParseError) × (audited ≡ Err e) × (result ≡ status_of e) × (at.new ≡ place_of e)) }
{
    let _old = page.take(alloc);
    let _older = ledger.take(alloc);
    *at = 0;
    match audited {
        Ok(audited) => match boxes_of(alloc, audited) {
            Ok((first, second)) => {
                page.put(first);
                ledger.put(second);
                OK
            }
            Err(_) => OUT_OF_MEMORY,
        },
        Err(error) => {
            *at = place_of(error);
            status_of(error)
        }
    }
}

/// A page and its ledger, as what two handles hold.
fn boxes_of(alloc: Global, audited: Audited) -> Result<(Box<Held>, Box<Held>), AllocError>
    ensures { IfOk result (λ b. (b.0.value ≡ Held.Page audited.page) × (b.1.value ≡ Held.Ledger audited.ledger)) }
{
    let Audited { page, ledger } = audited;
    let first = Box::new(alloc, Held::Page(page))?;
    let second = Box::new(alloc, Held::Ledger(ledger))?;
    Ok((first, second))
}
