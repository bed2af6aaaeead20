//! Numbers that cross to C.

ghost use Rattle.std.specs.Prelude.{◌≡◌, ◌-◌, ◌^◌, Option, None, Some, MatchOption, length, min};
ghost use Rattle.html_arena.specs.declared.arena.Limits.{Limits};
ghost use Rattle.zilqumet_c.specs.Reads.{foreign_in, limits_in, options_in, tree_in};

use crate::held::Held;
use crate::slot::Slot;
use crate::status::{BAD_HANDLE, OK};
use html_parser::{Context, Foreign, Limits, Options};
use std::alloc::Global;

/// The limits that C sets, and whether foreign content is parsed (any number but 0) or refused.
#[repr(C)]
#[derive(Clone, Copy)]
pub struct ZqLimits {
    pub nodes: u64,
    pub held: u64,
    pub code_points: u64,
    pub steps: u64,
    pub foreign: u64,
}

/// What a page counts. Held code points and steps stay at the greatest number of 64 bits.
#[repr(C)]
#[derive(Clone, Copy)]
pub struct ZqCounts {
    pub code_points: u64,
    pub nodes: u64,
    pub held: u64,
    pub steps: u64,
    pub tokens: u64,
    pub errors: u64,
}

/// What is asked of parsing, of a document, or of a fragment in a context.
pub(crate) fn options_of(limits: &ZqLimits, context: Option<Context>) -> Options
    ensures { result ≡ options_in limits.now context }
{
    Options {
        limits: Some(limits_of(limits)),
        foreign: foreign_of(limits.foreign),
        context,
    }
}

/// The limits.
fn limits_of(limits: &ZqLimits) -> Limits
    ensures { result ≡ limits_in limits.now }
{
    Limits {
        nodes: limits.nodes,
        held: limits.held,
        code_points: limits.code_points,
        steps: limits.steps,
    }
}

/// What is done with foreign content.
fn foreign_of(number: u64) -> Foreign
    ensures { result ≡ foreign_in number }
{
    if number == 0 {
        Foreign::Refuse
    } else {
        Foreign::Parse
    }
}

/// A count in 64 bits.
fn few(count: u128) -> u64
    ensures { result ≡ min count (2 ^ 64 - 1) }
{
    u64::try_from(count).unwrap_or(u64::MAX)
}

/// What a page counts.
#[unsafe(no_mangle)]
pub extern "C" fn proved_counts_of(alloc: Global, page: &mut Slot, counts: &mut ZqCounts) -> u32
    ensures kept { page.new.value ≡ page.old.value }
    ensures told { MatchOption (tree_in page.old.value) (result ≡ 12) (λ t. (result ≡ 0) × (counts.new.code_points ≡ t.n) × (counts.new.nodes ≡ length t.arena.labels)
        × (counts.new.held ≡ min t.arena.held (2 ^ 64 - 1)) × (counts.new.steps ≡ min t.steps (2 ^ 64 - 1))
        × (counts.new.tokens ≡ t.token_count) × (counts.new.errors ≡ length t.errors.items)) }
{
    let held = page.take(alloc);
    let said = match &held {
        Some(held) => count(held.as_ref(), counts),
        None => BAD_HANDLE,
    };
    page.restore(alloc, held);
    said
}

/// What a page counts.
fn count(held: &Held, counts: &mut ZqCounts) -> u32
    ensures { MatchOption (tree_in (Some held.now)) (result ≡ 12) (λ t. (result ≡ 0) × (counts.new.code_points ≡ t.n) × (counts.new.nodes ≡ length t.arena.labels)
        × (counts.new.held ≡ min t.arena.held (2 ^ 64 - 1)) × (counts.new.steps ≡ min t.steps (2 ^ 64 - 1))
        × (counts.new.tokens ≡ t.token_count) × (counts.new.errors ≡ length t.errors.items)) }
{
    let Held::Page(page) = held else {
        return BAD_HANDLE;
    };
    let tree = &page.tree;
    *counts = ZqCounts {
        code_points: tree.n,
        nodes: tree.arena.len(),
        held: few(tree.arena.held()),
        steps: few(tree.steps),
        tokens: tree.token_count,
        errors: tree.errors.len() as u64,
    };
    OK
}

/// The root of a page, or the greatest number of 64 bits where the handle holds none.
#[unsafe(no_mangle)]
pub extern "C" fn proved_root(alloc: Global, page: &mut Slot) -> u64
    ensures kept { page.new.value ≡ page.old.value }
    ensures root { MatchOption (tree_in page.old.value) (result ≡ u64.MAX) (λ t. result ≡ t.root) }
{
    let held = page.take(alloc);
    let root = match &held {
        Some(held) => root_of(held.as_ref()),
        None => u64::MAX,
    };
    page.restore(alloc, held);
    root
}

/// The root of a page.
fn root_of(held: &Held) -> u64
    ensures { MatchOption (tree_in (Some held.now)) (result ≡ u64.MAX) (λ t. result ≡ t.root) }
{
    match held {
        Held::Page(page) => page.tree.root.index() as u64,
        _ => u64::MAX,
    }
}
