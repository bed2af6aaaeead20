// Text that is taken in runs (13.2.6.1).
ghost use Rattle.std.specs.Prelude.{◌≡◌, ◌+◌, ◌<◌, ◌≤◌, ◌==◌, ℕ, IfOk, IfSome, IsTrue, None, OnOk, Some, [], ◌∷◌, false, length, slice_get, take, true, IfErr};
ghost use Rattle.std.specs.List.{list_all};
ghost use Rattle.html_ledger.specs.Flags.{is_not_null, may_text_run};
ghost use Rattle.html_construction.specs.Budgets.{RefusesAny};
ghost use Rattle.html_construction.specs.Begun.{IsFounded};
ghost use Rattle.html_construction.specs.Built.{Accepts, AcceptsRun, chars_of};
ghost use Rattle.html_construction.specs.Foreign.{foreign_tag};
ghost use Rattle.html_modes.specs.Begun.{GivesIn, StaysOut};
ghost use Rattle.html_modes.specs.Counting.{TakesEach};
ghost use Rattle.html_modes.specs.Dispatching.{Constructs, Entries, begun};
ghost use Rattle.html_modes.specs.Entering.{Enters};
ghost use Rattle.html_modes.specs.Fitting.{Fits, is_loose};
ghost use Rattle.html_modes.specs.Guards.{is_text, takes_runs};
ghost use Rattle.html_modes.specs.Plain.{GoesOnText};
ghost use Rattle.html_modes.specs.Ranks.{top_rank};
ghost use Rattle.html_modes.specs.Steps.{Pays, Toils};
ghost use Rattle.html_modes.specs.RawText.{AddsText};
ghost use Rattle.html_construction.specs.Weights.{weight};

use crate::guards::{is_text, takes_run};
use crate::modes::body::body_run;
use crate::process::take;
use html_construction::{ArenaError, Construction};
use html_ledger::Symbol;
use html_tokens::TokenKind;

/// Takes a front of a text that isn't empty, a code point a token, and answers its length: a run where the mode takes one, else one code
/// point; in foreign content one. Of a run the longest front is taken that the limit on held code points takes. `entries` counts the entries of these tokens into the
/// rules, one for each code point of a run.
///
/// # Errors
///
/// Those of `take` for the first code point.
#[tactic(auto, using(crate::proofs::Begun::run_begun, crate::proofs::TextAlone::run_texts))]
pub fn take_front(
    page: &mut Construction,
    text: &[char],
    entries: &mut u64,
) -> Result<usize, ArenaError>
    requires fits { Fits page.old }
    requires some { 0 < length text.now }
    ensures fits { OnOk result (Fits page.new) }
    ensures takes { IfOk result (λ n. AcceptsRun (take n text.now) page.old page.new) }
    ensures parses { OnOk result (page.new.parses_foreign ≡ page.old.parses_foreign) }
    ensures gives { OnOk result (GivesIn page.old page.new) }
    ensures out { OnOk result (StaysOut page.old.mode page.new.mode) }
    ensures founded { OnOk result (IsFounded page.new) }
    ensures count { IfOk result (λ n. (0 < n) × (n ≤ length text.now)) }
    ensures pays { OnOk result (Pays page.old page.new) }
    ensures enters { IfOk result (λ n. Enters n entries.old entries.new page.old page.new) }
    ensures toils { OnOk result (Toils 0 page.old page.new) }
    ensures one { IfOk result (λ n. IfSome (foreign_tag page.old) (λ g. n ≡ 1)) }
    ensures plain { IfOk result (λ n. list_all is_not_null (take n text.now) ≡ true → GoesOnText (take n text.now) page.old page.new) }
    ensures adds { IfOk result (λ n. AddsText (take n text.now) page.old page.new) }
    ensures constructs { IfOk result (λ n. Constructs (chars_of (take n text.now)) page.old page.new) }
    ensures each { IfOk result (λ n. TakesEach (take n text.now) page.old page.new) }
    ensures refuses { IfErr result (λ e. RefusesAny e page.old page.new) }
{
    let first = text[0];
    if takes_run(page, first) {
        let end = null_index(text);
        let count = take_run(page, &text[..end])?;
        *entries = entries.saturating_add(count as u64);
        return Ok(count);
    }
    take_char(page, first, entries)?;
    Ok(1)
}

/// Takes one code point. (None is the start tag of foreign content.)
#[tactic(auto, using(crate::proofs::Settled::run_rules))]
pub(crate) fn take_char(
    page: &mut Construction,
    c: char,
    entries: &mut u64,
) -> Result<(), ArenaError>
    requires fits { Fits page.old }
    ensures fits { OnOk result (Fits page.new) }
    ensures takes { OnOk result (Accepts (TokenKind.Char c) page.old page.new) }
    ensures parses { OnOk result (page.new.parses_foreign ≡ page.old.parses_foreign) }
    ensures founded { OnOk result (IsFounded page.new) }
    ensures pays { OnOk result (Pays page.old page.new) }
    ensures enters { OnOk result (Enters 1 entries.old entries.new page.old page.new) }
    ensures toils { OnOk result (Toils 0 page.old page.new) }
    ensures plain { (c == 0) ≡ false → OnOk result (GoesOnText (c ∷ []) page.old page.new) }
    ensures entries { OnOk result (Entries (Symbol.Char c) (TokenKind.Char c) (begun page.old) page.new) }
    ensures refuses { IfErr result (λ e. RefusesAny e page.old page.new) }
{
    let token = TokenKind::Char(c);
    let _ = take(page, &token, Symbol::Char(c), entries)?;
    Ok(())
}

/// Takes the longest front of a run that the limits take.
#[tactic(auto, using(crate::proofs::Settled::run_rules, crate::proofs::Begun::run_begun, crate::proofs::TextAlone::run_texts))]
fn take_run(page: &mut Construction, run: &[char]) -> Result<usize, ArenaError>
    requires fits { Fits page.old }
    requires mode { takes_runs page.old.mode ≡ true }
    requires some { 0 < length run.now }
    requires may { IsTrue (may_text_run page.old.ledger.history run.now) }
    requires home { foreign_tag page.old ≡ None }
    ensures fits { OnOk result (Fits page.new) }
    ensures takes { IfOk result (λ n. AcceptsRun (take n run.now) page.old page.new) }
    ensures parses { OnOk result (page.new.parses_foreign ≡ page.old.parses_foreign) }
    ensures founded { OnOk result (IsFounded page.new) }
    ensures count { IfOk result (λ n. (0 < n) × (n ≤ length run.now)) }
    ensures pays { OnOk result (Pays page.old page.new) }
    ensures lighter { OnOk result (weight page.new.stack + top_rank page.new.mode ≤ weight page.old.stack + top_rank page.old.mode) }
    ensures toils { OnOk result (Toils 0 page.old page.new) }
    ensures plain { IfOk result (λ n. GoesOnText (take n run.now) page.old page.new) }
    ensures adds { IfOk result (λ n. AddsText (take n run.now) page.old page.new) }
    ensures each { IfOk result (λ n. TakesEach (take n run.now) page.old page.new) }
    ensures refuses { IfErr result (λ e. RefusesAny e page.old page.new) }
{
    if is_text(page.mode()) {
        let count = take_text_run(page, run)?;
        return Ok(count);
    }
    let count = take_body_run(page, run)?;
    Ok(count)
}

/// The same, in the mode text.
#[tactic(auto, using(crate::proofs::Settled::run_rules))]
fn take_text_run(page: &mut Construction, run: &[char]) -> Result<usize, ArenaError>
    requires fits { Fits page.old }
    requires mode { is_text page.old.mode ≡ true }
    requires some { 0 < length run.now }
    requires may { IsTrue (may_text_run page.old.ledger.history run.now) }
    requires home { foreign_tag page.old ≡ None }
    ensures fits { OnOk result (Fits page.new) }
    ensures takes { IfOk result (λ n. AcceptsRun (take n run.now) page.old page.new) }
    ensures parses { OnOk result (page.new.parses_foreign ≡ page.old.parses_foreign) }
    ensures mode { OnOk result (page.new.mode ≡ page.old.mode) }
    ensures count { IfOk result (λ n. (0 < n) × (n ≤ length run.now)) }
    ensures pays { OnOk result (Pays page.old page.new) }
    ensures lighter { OnOk result (weight page.new.stack + top_rank page.new.mode ≤ weight page.old.stack + top_rank page.old.mode) }
    ensures toils { OnOk result (Toils 0 page.old page.new) }
    ensures each { IfOk result (λ n. TakesEach (take n run.now) page.old page.new) }
    ensures refuses { IfErr result (λ e. RefusesAny e page.old page.new) }
{
    page.begin_call();
    let count = page.insert_run(run)?;
    page.count_steps(count);
    Ok(count)
}

/// The same, in modes that go by the rules of the body.
#[tactic(auto, using(crate::proofs::Settled::run_rules))]
fn take_body_run(page: &mut Construction, run: &[char]) -> Result<usize, ArenaError>
    requires fits { Fits page.old }
    requires loose { is_loose page.old.mode ≡ true }
    requires some { 0 < length run.now }
    requires may { IsTrue (may_text_run page.old.ledger.history run.now) }
    requires mode { takes_runs page.old.mode ≡ true }
    requires home { foreign_tag page.old ≡ None }
    ensures fits { OnOk result (Fits page.new) }
    ensures takes { IfOk result (λ n. AcceptsRun (take n run.now) page.old page.new) }
    ensures parses { OnOk result (page.new.parses_foreign ≡ page.old.parses_foreign) }
    ensures mode { OnOk result (page.new.mode ≡ page.old.mode) }
    ensures count { IfOk result (λ n. (0 < n) × (n ≤ length run.now)) }
    ensures pays { OnOk result (Pays page.old page.new) }
    ensures lighter { OnOk result (weight page.new.stack + top_rank page.new.mode ≤ weight page.old.stack + top_rank page.old.mode) }
    ensures toils { OnOk result (Toils 0 page.old page.new) }
    ensures plain { IfOk result (λ n. GoesOnText (take n run.now) page.old page.new) }
    ensures each { IfOk result (λ n. TakesEach (take n run.now) page.old page.new) }
    ensures refuses { IfErr result (λ e. RefusesAny e page.old page.new) }
{
    page.begin_call();
    let count = body_run(page, run)?;
    page.count_steps(count);
    page.laws();
    Ok(count)
}

/// The index of the first U+0000, or the length.
fn null_index(text: &[char]) -> usize
    ensures visible { list_all is_not_null (take result text.now) ≡ true }
    ensures most { result ≤ length text.now }
    ensures some { (c : ℕ) → slice_get text.now 0 ≡ Some c → (c == 0) ≡ false → 0 < result }
{
    if is_without_null(text) {
        return text.len();
    }
    let mut index = 0;
    'looking: while index < text.len() && text[index] != '\0' {
        index += 1;
    }
    index
}

/// Whether there is no U+0000. It looks at each code point, so that many are looked at at once.
fn is_without_null(text: &[char]) -> bool
    ensures { result ≡ true → list_all is_not_null text.now ≡ true }
{
    let mut is_without = true;
    for c in text {
        is_without = is_without & (*c != '\0');
    }
    is_without
}
