// The mode in cell (13.2.6.4.15).
ghost use Rattle.std.specs.Prelude.{◌≡◌, ◌+◌, ◌<◌, ◌≤◌, [], IfOk, OnOk, IsTrue, length, true, if◌then◌else◌, false, IfErr};
ghost use Rattle.html_ledger.specs.Symbols.{symbol_of};
ghost use Rattle.html_ledger.specs.Flags.{is_free};
ghost use Rattle.html_construction.specs.Budgets.{Refuses};
ghost use Rattle.html_construction.specs.Built.{Keeps, Takes};
ghost use Rattle.html_construction.specs.Grown.{Grown};
ghost use Rattle.html_construction.specs.Works.{Works};
ghost use Rattle.html_construction.specs.Weights.{weight, weight_of};
ghost use Rattle.html_modes.specs.Fitting.{Fits, Calls};
ghost use Rattle.html_modes.specs.Steps.{Falls, Grows, Steps, Worked};
ghost use Rattle.html_modes.specs.declared.outcome.Outcome.TheVariants.{Done};
ghost use Rattle.html_tree.specs.Seats.{is_part};
ghost use Rattle.html_names.specs.declared.sets.Scope.TheVariants as scope;
ghost use Rattle.html_tree.specs.declared.groups.Group.TheVariants as group;
ghost use Rattle.html_tree.specs.declared.groups.Stop.TheVariants as stop;
ghost use Rattle.html_tree.specs.declared.groups.TableContext.TheVariants as context;
ghost use Rattle.html_construction.specs.Plans.{Ask, Chooses, Do, inserting_part};
ghost use Rattle.html_construction.specs.Words.{AddMarker, ClearTo, Finds, Switch};
ghost use Rattle.html_modes.specs.RuleForms.{again, done_with, over};
ghost use Rattle.html_modes.specs.Rules.{Follows};
ghost use Rattle.html_modes.specs.RulesInCell.{closing_cell, in_cell, in_cell_end, in_cell_start};

use crate::modes::body::body_rules;
use crate::outcome::Outcome;
use html_construction::{ArenaError, Construction, Mode};
use html_ledger::{Cause, Symbol};
use html_names::{Scope, Tag};
use html_tokens::TokenKind;
use html_tree::{Group, TableContext};

/// A cell in a row.
#[tactic(auto, using(crate::proofs::Settled::part_rules, crate::proofs::RulesInRow::arms))]
pub(crate) fn cell_start(
    page: &mut Construction,
    token: &TokenKind,
    tag: Tag,
) -> Result<(), ArenaError>
    requires part { is_part tag ≡ true }
    requires symbol { symbol_of token.now ≡ Symbol.Start tag }
    requires calls { Calls page.old }
    ensures fits { OnOk result (Fits page.new) }
    ensures takes { OnOk result (Takes token.now page.old page.new) }
    ensures falls { OnOk result (Falls Done (Symbol.Start tag) page.old page.new) }
    ensures grows { OnOk result (Grows Done page.old page.new) }
    ensures works { OnOk result (Worked Done token.now page.old page.new) }
    ensures refuses { IfErr result (λ e. Refuses token.now e page.old page.new) }
    ensures follows { OnOk result (Follows (Do (ClearTo context.Row) (inserting_part tag (Do (Switch Mode.InCell) (Do AddMarker over)))) token.now Done page.old page.new) }
{
    page.clear_to(TableContext::Row);
    page.insert_part(token, tag)?;
    page.set_mode(Mode::InCell);
    page.add_marker()?;
    Ok(())
}

/// The rules for the "in cell" insertion mode (13.2.6.4.15).
#[tactic(auto, using(crate::proofs::Settled::part_rules, crate::proofs::RulesInCell::arms))]
pub(crate) fn in_cell(
    page: &mut Construction,
    token: &TokenKind,
    symbol: Symbol,
) -> Result<Outcome, ArenaError>
    requires symbol { symbol_of token.now ≡ symbol }
    requires mode { page.old.mode ≡ Mode.InCell }
    requires fits { Fits page.old }
    requires quiet { page.old.ledger.kept ≡ [] }
    requires free { IsTrue (is_free page.old.ledger.history symbol) }
    ensures fits { OnOk result (Fits page.new) }
    ensures takes { IfOk result (λ o. Steps o token.now page.old page.new) }
    ensures falls { IfOk result (λ o. Falls o symbol page.old page.new) }
    ensures grows { IfOk result (λ o. Grows o page.old page.new) }
    ensures works { IfOk result (λ o. Worked o token.now page.old page.new) }
    ensures refuses { IfErr result (λ e. Refuses token.now e page.old page.new) }
    ensures follows { IfOk result (λ o. Follows (in_cell symbol) token.now o page.old page.new) }
{
    match symbol {
        Symbol::Start(tag) => {
            let outcome = start_in_cell(page, token, tag)?;
            Ok(outcome)
        }
        Symbol::End(tag) => {
            let outcome = end_in_cell(page, token, tag)?;
            Ok(outcome)
        }
        // Anything else: process the token using the rules for "in body".
        Symbol::Char(_) | Symbol::Comment | Symbol::Doctype | Symbol::Eof => {
            let outcome = body_rules(page, token, symbol)?;
            Ok(outcome)
        }
    }
}

#[tactic(auto, using(crate::proofs::Settled::part_rules, crate::proofs::RulesInCell::arms))]
fn start_in_cell(
    page: &mut Construction,
    token: &TokenKind,
    tag: Tag,
) -> Result<Outcome, ArenaError>
    requires mode { page.old.mode ≡ Mode.InCell }
    requires symbol { symbol_of token.now ≡ Symbol.Start tag }
    requires calls { Calls page.old }
    ensures fits { OnOk result (Fits page.new) }
    ensures takes { IfOk result (λ o. Steps o token.now page.old page.new) }
    ensures falls { IfOk result (λ o. Falls o (Symbol.Start tag) page.old page.new) }
    ensures grows { IfOk result (λ o. Grows o page.old page.new) }
    ensures works { IfOk result (λ o. Worked o token.now page.old page.new) }
    ensures refuses { IfErr result (λ e. Refuses token.now e page.old page.new) }
    ensures follows { IfOk result (λ o. Follows (in_cell_start tag) token.now o page.old page.new) }
{
    // A start tag whose tag name is one of: "caption", "col", "colgroup", "tbody", "td", "tfoot", "th", "thead", "tr".
    if tag.is_table_piece() {
        if close_cell(page) {
            return Ok(Outcome::Reprocess);
        }
        page.drop_token(token, Symbol::Start(tag), Cause::Misplaced)?;
        return Ok(Outcome::Done);
    }
    // Anything else: process the token using the rules for "in body".
    let outcome = body_rules(page, token, Symbol::Start(tag))?;
    Ok(outcome)
}

#[tactic(auto, using(crate::proofs::Settled::part_rules, crate::proofs::RulesInCell::arms))]
fn end_in_cell(page: &mut Construction, token: &TokenKind, tag: Tag) -> Result<Outcome, ArenaError>
    requires mode { page.old.mode ≡ Mode.InCell }
    requires symbol { symbol_of token.now ≡ Symbol.End tag }
    requires calls { Calls page.old }
    ensures fits { OnOk result (Fits page.new) }
    ensures takes { IfOk result (λ o. Steps o token.now page.old page.new) }
    ensures falls { IfOk result (λ o. Falls o (Symbol.End tag) page.old page.new) }
    ensures grows { IfOk result (λ o. Grows o page.old page.new) }
    ensures works { IfOk result (λ o. Worked o token.now page.old page.new) }
    ensures refuses { IfErr result (λ e. Refuses token.now e page.old page.new) }
    ensures follows { IfOk result (λ o. Follows (in_cell_end tag) token.now o page.old page.new) }
{
    // An end tag whose tag name is one of: "td", "th".
    if tag.is_cell() {
        let _ = close_cell_of(page, tag);
        page.end(token, Symbol::End(tag))?;
        return Ok(Outcome::Done);
    }
    // An end tag whose tag name is one of: "table", "tbody", "tfoot", "thead", "tr".
    if tag.ends_cell() {
        let outcome = outer_end(page, token, tag)?;
        return Ok(outcome);
    }
    // An end tag whose tag name is one of: "body", "caption", "col", "colgroup", "html": ignore the token.
    if tag.is_ignored_in_table() {
        page.end(token, Symbol::End(tag))?;
        return Ok(Outcome::Done);
    }
    // Anything else: process the token using the rules for "in body".
    let outcome = body_rules(page, token, Symbol::End(tag))?;
    Ok(outcome)
}

/// An end tag of what a cell stands in, which closes the cell first.
#[tactic(auto, using(crate::proofs::Settled::part_rules, crate::proofs::RulesInCell::arms))]
fn outer_end(page: &mut Construction, token: &TokenKind, tag: Tag) -> Result<Outcome, ArenaError>
    requires symbol { symbol_of token.now ≡ Symbol.End tag }
    requires mode { page.old.mode ≡ Mode.InCell }
    requires calls { Calls page.old }
    ensures fits { OnOk result (Fits page.new) }
    ensures takes { IfOk result (λ o. Steps o token.now page.old page.new) }
    ensures falls { IfOk result (λ o. Falls o (Symbol.End tag) page.old page.new) }
    ensures grows { IfOk result (λ o. Grows o page.old page.new) }
    ensures works { IfOk result (λ o. Worked o token.now page.old page.new) }
    ensures refuses { IfErr result (λ e. Refuses token.now e page.old page.new) }
    ensures follows { IfOk result (λ o. Follows (Ask (Finds (group.Named tag) (stop.EndOf scope.Table)) (closing_cell group.Cell again done_with) done_with) token.now o page.old page.new) }
{
    if page.has_in_scope(tag, Scope::Table) && close_cell(page) {
        return Ok(Outcome::Reprocess);
    }
    page.end(token, Symbol::End(tag))?;
    Ok(Outcome::Done)
}

/// Closes the cell that is in scope and goes back to the row, and says whether there was one.
fn close_cell(page: &mut Construction) -> bool
    requires opened { 0 < length page.old.stack }
    requires listed { length page.old.tree.list ≤ length page.old.ledger.fates }
    ensures rest { page.new ≡ record page.old { tree = page.new.tree; stack = page.new.stack; mode = page.new.mode } }
    ensures keeps { Keeps page.old page.new }
    ensures grown { Grown 0 0 0 0 0 page.old page.new }
    ensures works { Works 6 0 6 page.old page.new }
    ensures lighter { weight page.new.stack ≤ weight page.old.stack }
    ensures opened { 0 < length page.new.stack }
    ensures mode { page.new.mode ≡ (if result then Mode.InRow else page.old.mode) }
    ensures found { result ≡ true → weight page.new.stack + 4 ≤ weight page.old.stack }
    ensures follows { Chooses (closing_cell group.Cell) result page.old page.new }
{
    if !page.close_group_in_scope(Group::Cell, Scope::Table) {
        return false;
    }
    page.clear_to_marker();
    page.set_mode(Mode::InRow);
    true
}

/// Closes the cell of this name that is in scope and goes back to the row, and says whether there was one.
fn close_cell_of(page: &mut Construction, tag: Tag) -> bool
    requires opened { 0 < length page.old.stack }
    requires listed { length page.old.tree.list ≤ length page.old.ledger.fates }
    ensures rest { page.new ≡ record page.old { tree = page.new.tree; stack = page.new.stack; mode = page.new.mode } }
    ensures keeps { Keeps page.old page.new }
    ensures grown { Grown 0 0 0 0 0 page.old page.new }
    ensures works { Works 6 0 6 page.old page.new }
    ensures lighter { weight page.new.stack ≤ weight page.old.stack }
    ensures opened { 0 < length page.new.stack }
    ensures mode { page.new.mode ≡ (if result then Mode.InRow else page.old.mode) }
    ensures follows { Chooses (closing_cell (group.Named tag)) result page.old page.new }
{
    if !page.close_in_scope(tag, Scope::Table) {
        return false;
    }
    page.clear_to_marker();
    page.set_mode(Mode::InRow);
    true
}
