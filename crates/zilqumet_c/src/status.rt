//! What a call answers: 0, or why not.

ghost use Rattle.std.specs.Prelude.{◌≡◌, ◌≢◌, ◌⊎◌, Option, None, Some, Ok, Err, IfErr};
ghost use Rattle.zilqumet_c.specs.Status.{status_of, place_of};

use crate::held::{Held, Rooted};
use crate::slot::Slot;
use html_parser::{ForeignRoot, ParseError};
use std::alloc::Global;

pub(crate) const OK: u32 = 0;

pub(crate) const OUT_OF_MEMORY: u32 = 1;

pub(crate) const INPUT_TOO_LONG: u32 = 2;

pub(crate) const FOREIGN_SVG: u32 = 3;

pub(crate) const FOREIGN_MATH: u32 = 4;

pub(crate) const BAD_CONTEXT: u32 = 5;

pub(crate) const NODE_BUDGET: u32 = 6;

pub(crate) const HELD_BUDGET: u32 = 7;

pub(crate) const STEP_BUDGET: u32 = 8;

pub(crate) const STOPPED: u32 = 9;

pub(crate) const READ: u32 = 10;

pub(crate) const WRITE: u32 = 11;

pub(crate) const BAD_HANDLE: u32 = 12;

pub(crate) const BAD_INDEX: u32 = 13;

pub(crate) const BAD_ENTITIES: u32 = 14;

pub(crate) const NOT_ELEMENT: u32 = 17;

pub(crate) const BAD_NAME: u32 = 18;

pub(crate) const NOT_LINKABLE: u32 = 19;

pub(crate) const NO_PARENT: u32 = 20;

pub(crate) const CYCLE: u32 = 21;

pub(crate) const BAD_TEXT: u32 = 22;

/// The number of a cause.
pub(crate) fn status_of(error: ParseError) -> u32
    ensures { result ≡ status_of error }
{
    match error {
        ParseError::OutOfMemory => OUT_OF_MEMORY,
        ParseError::InputTooLong => INPUT_TOO_LONG,
        ParseError::ForeignContent {
            name: ForeignRoot::Svg,
            ..
        } => FOREIGN_SVG,
        ParseError::ForeignContent {
            name: ForeignRoot::Math,
            ..
        } => FOREIGN_MATH,
        ParseError::BadContext => BAD_CONTEXT,
        ParseError::NodeBudget { .. } => NODE_BUDGET,
        ParseError::HeldBudget { .. } => HELD_BUDGET,
        ParseError::StepBudget { .. } => STEP_BUDGET,
        ParseError::Stopped => STOPPED,
        ParseError::Read => READ,
        ParseError::Write => WRITE,
    }
}

/// The place of a cause, or 0.
pub(crate) fn place_of(error: ParseError) -> u64
    ensures { result ≡ place_of error }
{
    match error {
        ParseError::ForeignContent { at, .. } => at,
        ParseError::NodeBudget { at } => at,
        ParseError::HeldBudget { at } => at,
        ParseError::StepBudget { at } => at,
        _ => 0,
    }
}

/// Puts what was parsed into a handle, or tells why nothing was.
pub(crate) fn keep(
    alloc: Global,
    parsed: Result<Rooted, ParseError>,
    page: &mut Slot,
    at: &mut u64,
) -> u32
    ensures ok { result ≡ 0 → (r : Rooted) × (parsed ≡ Ok r) × (page.new.value ≡ Some (Held.Page r)) }
    ensures empty { result ≢ 0 → page.new.value ≡ None }
    ensures cause { result ≢ 0 → (result ≡ 1) ⊎ ((e : ParseError) × (parsed ≡ Err e) × (result ≡ status_of e) × (at.new ≡ place_of e)) }
    ensures told { IfErr parsed (λ e. result ≡ status_of e) }
{
    let _old = page.take(alloc);
    *at = 0;
    match parsed {
        Ok(rooted) => match Box::new(alloc, Held::Page(rooted)) {
            Ok(held) => {
                page.put(held);
                OK
            }
            Err(_) => OUT_OF_MEMORY,
        },
        Err(error) => {
            *at = place_of(error);
            status_of(error)
        }
    }
}
