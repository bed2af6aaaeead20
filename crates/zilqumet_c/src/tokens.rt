//! The tokens of a ledger, many in one call.

ghost use Rattle.std.specs.Prelude.{◌≡◌, ◌≤◌, ◌-◌, Some, MatchOption, drop, length, min};
ghost use Rattle.zilqumet_c.specs.Kept.{unboxed};
ghost use Rattle.zilqumet_c.specs.Reads.{IfLedger, ledger_in};
ghost use Rattle.zilqumet_rows.specs.Entries.{AreTokens, entries_in};

use crate::held::Held;
use crate::slot::Slot;
use std::alloc::Global;
use zilqumet_rows::ZqToken;

/// Writes the tokens of a ledger from a number on, with their fates, as many as there are and fit, and answers how many. It goes through those before.
#[unsafe(no_mangle)]
pub extern "C" fn proved_tokens(
    alloc: Global,
    ledger: &mut Slot,
    from: u64,
    rows: &mut [ZqToken],
) -> usize
    ensures kept { ledger.new.value ≡ ledger.old.value }
    ensures few { result ≤ length rows.new }
    ensures count { MatchOption (ledger_in ledger.old.value) (result ≡ 0) (λ l. result ≡ min (length (entries_in l) - from) (length rows.new)) }
    ensures tokens { IfLedger ledger.old.value (λ l. AreTokens (drop from (entries_in l)) result rows.new) }
{
    let held = ledger.take(alloc);
    let count = tokens_held(&held, from, rows);
    ledger.restore(alloc, held);
    count
}

/// Writes the tokens of a ledger from a number on, if one is held.
fn tokens_held(held: &Option<Box<Held>>, from: u64, rows: &mut [ZqToken]) -> usize
    ensures few { result ≤ length rows.new }
    ensures count { MatchOption (ledger_in (unboxed held.now)) (result ≡ 0) (λ l. result ≡ min (length (entries_in l) - from) (length rows.new)) }
    ensures tokens { IfLedger (unboxed held.now) (λ l. AreTokens (drop from (entries_in l)) result rows.new) }
{
    match held {
        Some(held) => tokens_of(held.as_ref(), from, rows),
        None => 0,
    }
}

/// Writes the tokens of a ledger from a number on.
fn tokens_of(held: &Held, from: u64, rows: &mut [ZqToken]) -> usize
    ensures few { result ≤ length rows.new }
    ensures count { MatchOption (ledger_in (Some held.now)) (result ≡ 0) (λ l. result ≡ min (length (entries_in l) - from) (length rows.new)) }
    ensures tokens { IfLedger (Some held.now) (λ l. AreTokens (drop from (entries_in l)) result rows.new) }
{
    match held {
        Held::Ledger(ledger) => ledger.rows(from, rows),
        _ => 0,
    }
}
