// Fates in a row, equal neighbours once.
ghost use Rattle.std.specs.Prelude.{◌≡◌, ◌≢◌, false, ◌+◌, ◌-◌, ◌<◌, ◌^◌, ◌∷◌, [], ◌++◌, length, replicate, slice_get, OnOk, OnErr, IsTrue, Some, List};
ghost use Rattle.html_ledger.specs.Runs.{AllApart, AllFilled, last_of, spread};
ghost use Rattle.html_ledger.specs.declared.runs.Run.{Run};

use crate::fate::Fate;
use std::alloc::AllocError;

/// A fate that so many tokens in a row have.
#[derive(Clone, Copy, Debug)]
pub struct Run {
    pub fate: Fate,
    pub count: u64,
}

/// Adds the fate of so many more tokens.
#[inline(always)]
pub(crate) fn add(runs: &mut Vec<Run>, fate: &Fate, count: u64) -> Result<(), AllocError>
    requires filled { AllFilled runs.old.items }
    requires apart { AllApart runs.old.items }
    requires some { 0 < count }
    requires room { length (spread runs.old.items) + count < 2 ^ 64 }
    ensures filled { AllFilled runs.new.items }
    ensures apart { AllApart runs.new.items }
    ensures added { OnOk result (spread runs.new.items ≡ spread runs.old.items ++ replicate count fate.now) }
    ensures refused { OnErr result (runs.new.items ≡ runs.old.items) }
{
    if repeats(runs.as_slice(), fate) {
        lengthen(runs, count);
        Ok(())
    } else {
        append(runs, fate, count)
    }
}

/// The last run has this fate.
fn repeats(runs: &[Run], fate: &Fate) -> bool
    ensures some { IsTrue result → 0 < length runs.now }
    ensures same { (run : Run) → IsTrue result → last_of runs.now ≡ Some run → run.fate ≡ fate.now }
    ensures other { (run : Run) → result ≡ false → last_of runs.now ≡ Some run → run.fate ≢ fate.now }
{
    match runs.last() {
        Some(run) => run.fate.is(fate),
        None => false,
    }
}

/// Adds one more run.
fn append(runs: &mut Vec<Run>, fate: &Fate, count: u64) -> Result<(), AllocError>
    ensures added { OnOk result (runs.new.items ≡ runs.old.items ++ record { fate = fate.now; count = count } ∷ []) }
    ensures refused { OnErr result (runs.new.items ≡ runs.old.items) }
{
    runs.push(Run { fate: *fate, count })?;
    Ok(())
}

/// Makes the last run longer.
fn lengthen(runs: &mut Vec<Run>, count: u64)
    requires some { 0 < length runs.old.items }
    requires room { (run : Run) → last_of runs.old.items ≡ Some run → run.count + count < 2 ^ 64 }
    ensures longer { (front : List Run) (run : Run) → runs.old.items ≡ front ++ run ∷ [] → runs.new.items ≡ front ++ record run { count = run.count + count } ∷ [] }
{
    let last = runs.len() - 1;
    let run = runs[last];
    runs[last] = Run {
        fate: run.fate,
        count: run.count + count,
    };
}

/// The fate of the last token.
pub(crate) fn last_fate(runs: &[Run]) -> Option<Fate>
    requires filled { AllFilled runs.now }
    ensures value { result ≡ last_of (spread runs.now) }
{
    match runs.last() {
        Some(run) => Some(run.fate),
        None => None,
    }
}

/// The fate of the token of this number.
pub(crate) fn fate_at(runs: &[Run], index: u64) -> Option<Fate>
    ensures value { result ≡ slice_get (spread runs.now) index }
{
    let mut left = index;
    'searching: for run in runs {
        if left < run.count {
            return Some(run.fate);
        }
        left -= run.count;
    }
    None
}
