// The entries of a token into the rules of the modes (13.2.6).
ghost use Rattle.std.specs.Prelude.{◌≡◌, ◌≤◌, [], IfOk, IfSome, None, OnOk, Some, IsTrue, true, false, IfErr};
ghost use Rattle.html_ledger.specs.Symbols.{symbol_of};
ghost use Rattle.html_ledger.specs.Flags.{is_free, may_select};
ghost use Rattle.html_construction.specs.Budgets.{Refuses};
ghost use Rattle.html_construction.specs.Begun.{IsFounded};
ghost use Rattle.html_construction.specs.Built.{Accepts, Keeps};
ghost use Rattle.html_modes.specs.Begun.{GivesIn, TextStays, ignores_foreign};
ghost use Rattle.html_modes.specs.Entering.{Enters};
ghost use Rattle.html_construction.specs.Foreign.{foreign_tag};
ghost use Rattle.html_modes.specs.Fitting.{Fits, is_loose};
ghost use Rattle.html_modes.specs.Foreign.{goes_on};
ghost use Rattle.html_modes.specs.Dispatching.{Entries, FollowsOn, IsDispatched, IsEntry, begun, settled};
ghost use Rattle.html_modes.specs.Plain.{GoesOn, Turns};
ghost use Rattle.html_modes.specs.Rules.{Follows, plan};
ghost use Rattle.html_modes.specs.RulesForeign.{in_foreign};
ghost use Rattle.html_modes.specs.declared.outcome.Outcome.TheVariants.{Done};
ghost use Rattle.html_modes.specs.Steps.{Counted, Falls, Pays, Spends, Steps, Toils, compared, root_of};
ghost use Rattle.html_modes.specs.Ranks.{top_rank};
ghost use Rattle.html_construction.specs.Modes.{is_of_frames, is_of_selects};
ghost use Rattle.html_modes.specs.Guards.{is_droppable, is_table_text};
ghost use Rattle.html_modes.specs.RawText.{AddsBy, Ends, EndsBy, OpensBy};

use crate::guards::{is_astray, is_table_text, is_unfounded};
use crate::modes::after::{after_after_body, after_body};
use crate::modes::body::in_body;
use crate::modes::cell::in_cell;
use crate::modes::foreign::{around_foreign, goes_on, stay};
use crate::modes::frameset::{after_after_frameset, after_frameset, in_frameset};
use crate::modes::head::{after_head, in_head, in_head_noscript};
use crate::modes::initial::{before_head, before_html, initial};
use crate::modes::select::{in_select, in_select_in_table};
use crate::modes::table::in_table;
use crate::modes::table_parts::{in_caption, in_column_group};
use crate::modes::table_rows::{in_row, in_table_body};
use crate::modes::table_text::in_table_text;
use crate::modes::template::in_template;
use crate::modes::text::text;
use crate::outcome::{Foreign, Outcome};
use html_construction::{ArenaError, Construction, Mode};
use html_ledger::Symbol;
use html_names::Tag;
use html_tokens::TokenKind;

/// Takes the next token through all its entries into the rules of the modes, and answers none; or answers which foreign content the token begins,
/// where that is refused; this is so in no call that begins inside a select or in a page of frames. `symbol` is the token as the rules tell tokens apart. `entries` counts the entries.
///
/// # Errors
///
/// `NodeBudget` and `HeldBudget` where a limit leaves no room for the next node or code point; `OutOfMemory`. Part of the rules may have been
/// followed then.
#[tactic(auto, using(crate::proofs::Settled::take_rules))]
#[inline(always)]
pub fn take(
    page: &mut Construction,
    token: &TokenKind,
    symbol: Symbol,
    entries: &mut u64,
) -> Result<Option<Foreign>, ArenaError>
    requires symbol { symbol_of token.now ≡ symbol }
    requires fits { Fits page.old }
    ensures fits { OnOk result (Fits page.new) }
    ensures takes { IfOk result (λ f. f ≡ None → Accepts token.now page.old page.new) }
    ensures parses { OnOk result (page.new.parses_foreign ≡ page.old.parses_foreign) }
    ensures gives { IfOk result (λ f. f ≡ None → GivesIn page.old page.new) }
    ensures out { IfOk result (λ f. f ≡ None → TextStays symbol page.old.mode page.new.mode) }
    ensures founded { IfOk result (λ f. f ≡ None → IsFounded page.new) }
    ensures foreign { IfOk result (λ f. IfSome f (λ name. symbol ≡ root_of name)) }
    ensures refused { IfOk result (λ f. IfSome f (λ name. page.old.parses_foreign ≡ false)) }
    ensures ignores { IfOk result (λ f. IfSome f (λ name. IsFounded page.old → ignores_foreign page.old.mode ≡ false)) }
    ensures pays { IfOk result (λ f. f ≡ None → Pays page.old page.new) }
    ensures enters { IfOk result (λ f. f ≡ None → Enters 1 entries.old entries.new page.old page.new) }
    ensures toils { IfOk result (λ f. f ≡ None → Toils (compared token.now page.new) page.old page.new) }
    ensures plain { IfOk result (λ f. f ≡ None → GoesOn symbol token.now page.old page.new) }
    ensures opens { IfOk result (λ f. f ≡ None → OpensBy symbol page.new) }
    ensures adds { IfOk result (λ f. f ≡ None → AddsBy symbol page.old page.new) }
    ensures ends { IfOk result (λ f. f ≡ None → EndsBy symbol token.now page.old page.new) }
    ensures refuses { IfErr result (λ e. Refuses token.now e page.old page.new) }
    ensures entries { IfOk result (λ f. f ≡ None → Entries symbol token.now (begun page.old) page.new) }
{
    page.begin_call();
    'steps: loop {
        page.count_steps(1);
        *entries = entries.saturating_add(1);
        match step(page, token, symbol)? {
            Outcome::Done => {
                settle(page);
                page.laws();
                page.forest();
                return Ok(None);
            }
            Outcome::Reprocess => {}
            Outcome::Foreign(name) => return Ok(Some(name)),
        }
    }
}

/// Leaves a mode to which nothing that was seen leads.
#[tactic(auto, using(crate::proofs::Settled::step_rules, crate::proofs::Begun::begun_rules, crate::proofs::Dispatching::guards))]
fn settle(page: &mut Construction)
    requires fits { Fits page.old }
    ensures rest { page.new ≡ record page.old { mode = page.new.mode } }
    ensures keeps { Keeps page.old page.new }
    ensures fits { Fits page.new }
    ensures top { top_rank page.new.mode ≤ top_rank page.old.mode }
    ensures same { is_of_selects page.old.mode ≡ false → is_of_frames page.old.mode ≡ false → page.new ≡ page.old }
    ensures founded { IsFounded page.new }
    ensures settled { page.new ≡ settled page.old }
{
    if is_unfounded(page) {
        page.set_mode(Mode::InBody);
    }
}

/// One entry: the text of a table, what every mode drops, the rules for foreign content, or those of the mode that is set (13.2.6).
#[tactic(auto, using(crate::proofs::Settled::step_rules, crate::proofs::Plain::step_plain, crate::proofs::RawText::step_texts, crate::proofs::Embedding::step_foreign, crate::proofs::Dispatching::entries))]
fn step(page: &mut Construction, token: &TokenKind, symbol: Symbol) -> Result<Outcome, ArenaError>
    requires symbol { symbol_of token.now ≡ symbol }
    requires fits { Fits page.old }
    ensures fits { OnOk result (Fits page.new) }
    ensures takes { IfOk result (λ o. Steps o token.now page.old page.new) }
    ensures falls { IfOk result (λ o. Falls o symbol page.old page.new) }
    ensures spends { OnOk result (Spends 2 page.old page.new) }
    ensures counts { IfOk result (λ o. Counted 26 o token.now page.old page.new) }
    ensures plain { IfOk result (λ o. Turns o symbol token.now page.old page.new) }
    ensures ends { IfOk result (λ o. Ends o symbol token.now page.old page.new) }
    ensures refuses { IfErr result (λ e. Refuses token.now e page.old page.new) }
    ensures entry { IfOk result (λ o. IsEntry o symbol token.now page.old page.new) }
{
    if is_table_text(page.mode()) {
        let outcome = in_table_text(page, token, symbol)?;
        return Ok(outcome);
    }
    if let Some(cause) = page.must_drop(symbol) {
        page.drop_token(token, symbol, cause)?;
        return Ok(Outcome::Done);
    }
    if is_astray(page, symbol) {
        page.set_mode(Mode::InBody);
        return Ok(Outcome::Reprocess);
    }
    if page.history().foreign {
        let outcome = dispatch(page, token, symbol)?;
        return Ok(outcome);
    }
    let outcome = rules(page, token, symbol)?;
    Ok(outcome)
}

/// The tree construction dispatcher (13.2.6), where foreign content was made or is the context.
#[tactic(auto, using(crate::proofs::Settled::step_rules, crate::proofs::Plain::step_plain, crate::proofs::RawText::step_texts, crate::proofs::Embedding::step_foreign, crate::proofs::Dispatching::entries))]
#[inline(never)]
fn dispatch(
    page: &mut Construction,
    token: &TokenKind,
    symbol: Symbol,
) -> Result<Outcome, ArenaError>
    requires symbol { symbol_of token.now ≡ symbol }
    requires foreign { page.old.ledger.history.foreign ≡ true }
    requires fits { Fits page.old }
    requires quiet { page.old.ledger.kept ≡ [] }
    requires free { IsTrue (is_free page.old.ledger.history symbol) }
    requires other { is_table_text page.old.mode ≡ false }
    requires select { is_droppable symbol ≡ true → is_of_selects page.old.mode ≡ true → may_select page.old.ledger.history ≡ true }
    requires frameset { is_droppable symbol ≡ true → is_of_frames page.old.mode ≡ true → page.old.ledger.history.frameset ≡ true }
    requires in_select { is_droppable symbol ≡ true → is_of_selects page.old.mode ≡ true → is_of_selects page.old.began ≡ true }
    requires in_frameset { is_droppable symbol ≡ true → is_of_frames page.old.mode ≡ true → is_of_frames page.old.began ≡ true }
    ensures fits { OnOk result (Fits page.new) }
    ensures takes { IfOk result (λ o. Steps o token.now page.old page.new) }
    ensures falls { IfOk result (λ o. Falls o symbol page.old page.new) }
    ensures spends { OnOk result (Spends 2 page.old page.new) }
    ensures counts { IfOk result (λ o. Counted 26 o token.now page.old page.new) }
    ensures plain { IfOk result (λ o. Turns o symbol token.now page.old page.new) }
    ensures ends { IfOk result (λ o. Ends o symbol token.now page.old page.new) }
    ensures refuses { IfErr result (λ e. Refuses token.now e page.old page.new) }
    ensures dispatched { IfOk result (λ o. IsDispatched o symbol token.now page.old page.new) }
{
    if let Some(around) = around_foreign(page, token, symbol) {
        let outcome = foreign_rules(page, token, symbol, around)?;
        return Ok(outcome);
    }
    let outcome = rules(page, token, symbol)?;
    Ok(outcome)
}

/// The rules for foreign content (13.2.6.5), where the adjusted current node has this tag. Where they hand the token on, it goes by the rules of the mode
/// that is set, in the same entry.
#[tactic(auto, using(crate::proofs::Embedding::foreign_rules))]
#[inline(never)]
fn foreign_rules(
    page: &mut Construction,
    token: &TokenKind,
    symbol: Symbol,
    around: Tag,
) -> Result<Outcome, ArenaError>
    requires symbol { symbol_of token.now ≡ symbol }
    requires fits { Fits page.old }
    requires loose { is_loose page.old.mode ≡ true }
    requires around { foreign_tag page.old ≡ Some around }
    requires quiet { page.old.ledger.kept ≡ [] }
    requires free { IsTrue (is_free page.old.ledger.history symbol) }
    requires select { is_droppable symbol ≡ true → is_of_selects page.old.mode ≡ true → may_select page.old.ledger.history ≡ true }
    requires frameset { is_droppable symbol ≡ true → is_of_frames page.old.mode ≡ true → page.old.ledger.history.frameset ≡ true }
    requires in_select { is_droppable symbol ≡ true → is_of_selects page.old.mode ≡ true → is_of_selects page.old.began ≡ true }
    requires in_frameset { is_droppable symbol ≡ true → is_of_frames page.old.mode ≡ true → is_of_frames page.old.began ≡ true }
    ensures fits { OnOk result (Fits page.new) }
    ensures takes { IfOk result (λ o. Steps o token.now page.old page.new) }
    ensures falls { IfOk result (λ o. Falls o symbol page.old page.new) }
    ensures spends { OnOk result (Spends 2 page.old page.new) }
    ensures counts { IfOk result (λ o. Counted 26 o token.now page.old page.new) }
    ensures stays { IfOk result (λ o. goes_on page.old.tree symbol token.now ≡ false → FollowsOn (in_foreign around symbol) o symbol token.now page.old page.new) }
    ensures refuses { IfErr result (λ e. Refuses token.now e page.old page.new) }
    ensures on { IfOk result (λ o. goes_on page.old.tree symbol token.now ≡ true → FollowsOn (plan page.old.mode symbol) o symbol token.now page.old page.new) }
{
    if goes_on(page, token, symbol) {
        let outcome = rules(page, token, symbol)?;
        return Ok(outcome);
    }
    stay(page, token, symbol, around)?;
    Ok(Outcome::Done)
}

/// The rules of the mode that is set.
#[tactic(auto, using(crate::proofs::Settled::rules_rules, crate::proofs::Plain::rules_plain, crate::proofs::RawText::other_rules, crate::proofs::Dispatching::plans))]
#[inline(always)]
fn rules(page: &mut Construction, token: &TokenKind, symbol: Symbol) -> Result<Outcome, ArenaError>
    requires symbol { symbol_of token.now ≡ symbol }
    requires fits { Fits page.old }
    requires quiet { page.old.ledger.kept ≡ [] }
    requires free { IsTrue (is_free page.old.ledger.history symbol) }
    requires other { is_table_text page.old.mode ≡ false }
    requires select { is_droppable symbol ≡ true → is_of_selects page.old.mode ≡ true → may_select page.old.ledger.history ≡ true }
    requires frameset { is_droppable symbol ≡ true → is_of_frames page.old.mode ≡ true → page.old.ledger.history.frameset ≡ true }
    requires in_select { is_droppable symbol ≡ true → is_of_selects page.old.mode ≡ true → is_of_selects page.old.began ≡ true }
    requires in_frameset { is_droppable symbol ≡ true → is_of_frames page.old.mode ≡ true → is_of_frames page.old.began ≡ true }
    ensures fits { OnOk result (Fits page.new) }
    ensures takes { IfOk result (λ o. Steps o token.now page.old page.new) }
    ensures falls { IfOk result (λ o. Falls o symbol page.old page.new) }
    ensures spends { OnOk result (Spends 2 page.old page.new) }
    ensures counts { IfOk result (λ o. Counted 24 o token.now page.old page.new) }
    ensures plain { IfOk result (λ o. Turns o symbol token.now page.old page.new) }
    ensures ends { IfOk result (λ o. Ends o symbol token.now page.old page.new) }
    ensures refuses { IfErr result (λ e. Refuses token.now e page.old page.new) }
    ensures follows { IfOk result (λ o. Follows (plan page.old.mode symbol) token.now o page.old page.new) }
{
    let outcome = match page.mode() {
        Mode::Initial => initial(page, token, symbol),
        Mode::BeforeHtml => before_html(page, token, symbol),
        Mode::BeforeHead => before_head(page, token, symbol),
        Mode::InHead => in_head(page, token, symbol),
        Mode::InHeadNoscript => in_head_noscript(page, token, symbol),
        Mode::AfterHead => after_head(page, token, symbol),
        Mode::InBody => in_body(page, token, symbol),
        Mode::Text => text(page, token, symbol),
        Mode::InTable => in_table(page, token, symbol),
        Mode::InTableText => in_table_text(page, token, symbol),
        Mode::InCaption => in_caption(page, token, symbol),
        Mode::InColumnGroup => in_column_group(page, token, symbol),
        Mode::InTableBody => in_table_body(page, token, symbol),
        Mode::InRow => in_row(page, token, symbol),
        Mode::InCell => in_cell(page, token, symbol),
        Mode::InSelect => in_select(page, token, symbol),
        Mode::InSelectInTable => in_select_in_table(page, token, symbol),
        Mode::InTemplate => in_template(page, token, symbol),
        Mode::AfterBody => after_body(page, token, symbol),
        Mode::InFrameset => in_frameset(page, token, symbol),
        Mode::AfterFrameset => after_frameset(page, token, symbol),
        Mode::AfterAfterBody => after_after_body(page, token, symbol),
        Mode::AfterAfterFrameset => after_after_frameset(page, token, symbol),
    }?;
    Ok(outcome)
}
