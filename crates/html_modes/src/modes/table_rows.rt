// The modes in table body and in row (13.2.6.4.13 and 13.2.6.4.14).
ghost use Rattle.std.specs.Prelude.{◌≡◌, ◌+◌, ◌<◌, ◌≤◌, [], IfOk, OnOk, IsTrue, length, true, if◌then◌else◌, IfErr};
ghost use Rattle.html_ledger.specs.Symbols.{symbol_of};
ghost use Rattle.html_ledger.specs.Flags.{is_free};
ghost use Rattle.html_construction.specs.Budgets.{Refuses};
ghost use Rattle.html_construction.specs.Built.{Keeps, Takes};
ghost use Rattle.html_construction.specs.Grown.{Grown};
ghost use Rattle.html_construction.specs.Works.{Works};
ghost use Rattle.html_construction.specs.Weights.{weight};
ghost use Rattle.html_modes.specs.Fitting.{Fits, Calls};
ghost use Rattle.html_modes.specs.declared.outcome.Outcome.TheVariants.{Done};
ghost use Rattle.html_modes.specs.Steps.{Falls, Grows, Steps, Worked};
ghost use Rattle.html_names.specs.declared.sets.Scope.TheVariants as scope;
ghost use Rattle.html_tree.specs.declared.groups.Group.TheVariants as group;
ghost use Rattle.html_tree.specs.declared.groups.Stop.TheVariants as stop;
ghost use Rattle.html_construction.specs.Plans.{Ask, Chooses};
ghost use Rattle.html_construction.specs.Words.{Finds};
ghost use Rattle.html_modes.specs.RuleForms.{again, done_with};
ghost use Rattle.html_modes.specs.Rules.{Follows};
ghost use Rattle.html_modes.specs.RulesInRow.{closing_row, in_row, in_row_end, in_row_start};
ghost use Rattle.html_modes.specs.RulesInTableBody.{closing_section, in_table_body, in_table_body_end, in_table_body_start};

use crate::modes::cell::cell_start;
use crate::modes::table::table_rules;
use crate::outcome::Outcome;
use html_construction::{ArenaError, Construction, Mode};
use html_ledger::{Cause, Symbol};
use html_names::{Scope, Tag};
use html_tokens::TokenKind;
use html_tree::{Group, TableContext};

/// The rules for the "in table body" insertion mode (13.2.6.4.13).
#[tactic(auto, using(crate::proofs::Settled::part_rules, crate::proofs::RawText::headish_names, crate::proofs::RulesInTableBody::arms))]
pub(crate) fn in_table_body(
    page: &mut Construction,
    token: &TokenKind,
    symbol: Symbol,
) -> Result<Outcome, ArenaError>
    requires symbol { symbol_of token.now ≡ symbol }
    requires mode { page.old.mode ≡ Mode.InTableBody }
    requires fits { Fits page.old }
    requires quiet { page.old.ledger.kept ≡ [] }
    requires free { IsTrue (is_free page.old.ledger.history symbol) }
    ensures fits { OnOk result (Fits page.new) }
    ensures takes { IfOk result (λ o. Steps o token.now page.old page.new) }
    ensures falls { IfOk result (λ o. Falls o symbol page.old page.new) }
    ensures grows { IfOk result (λ o. Grows o page.old page.new) }
    ensures works { IfOk result (λ o. Worked o token.now page.old page.new) }
    ensures refuses { IfErr result (λ e. Refuses token.now e page.old page.new) }
    ensures follows { IfOk result (λ o. Follows (in_table_body symbol) token.now o page.old page.new) }
{
    match symbol {
        Symbol::Start(tag) => {
            let outcome = table_body_start(page, token, tag)?;
            Ok(outcome)
        }
        Symbol::End(tag) => {
            let outcome = table_body_end(page, token, tag)?;
            Ok(outcome)
        }
        // Anything else: process the token using the rules for "in table".
        Symbol::Char(_) | Symbol::Comment | Symbol::Doctype | Symbol::Eof => {
            let outcome = table_rules(page, token, symbol)?;
            Ok(outcome)
        }
    }
}

#[tactic(auto, using(crate::proofs::Settled::part_rules, crate::proofs::RawText::headish_names, crate::proofs::RulesInTableBody::arms))]
fn table_body_start(
    page: &mut Construction,
    token: &TokenKind,
    tag: Tag,
) -> Result<Outcome, ArenaError>
    requires mode { page.old.mode ≡ Mode.InTableBody }
    requires symbol { symbol_of token.now ≡ Symbol.Start tag }
    requires calls { Calls page.old }
    ensures fits { OnOk result (Fits page.new) }
    ensures takes { IfOk result (λ o. Steps o token.now page.old page.new) }
    ensures falls { IfOk result (λ o. Falls o (Symbol.Start tag) page.old page.new) }
    ensures grows { IfOk result (λ o. Grows o page.old page.new) }
    ensures works { IfOk result (λ o. Worked o token.now page.old page.new) }
    ensures refuses { IfErr result (λ e. Refuses token.now e page.old page.new) }
    ensures follows { IfOk result (λ o. Follows (in_table_body_start tag) token.now o page.old page.new) }
{
    match tag {
        // A start tag whose tag name is "tr": clear the stack back to a table body context.
        Tag::Tr => {
            page.clear_to(TableContext::Body);
            page.insert_part(token, Tag::Tr)?;
            page.set_mode(Mode::InRow);
        }
        // A start tag whose tag name is one of: "th", "td": insert an HTML element for a "tr" start tag token
        // with no attributes, reprocess.
        _ if tag.is_cell() => {
            page.clear_to(TableContext::Body);
            page.insert_implied_part(Tag::Tr)?;
            page.set_mode(Mode::InRow);
            return Ok(Outcome::Reprocess);
        }
        // A start tag whose tag name is one of: "caption", "col", "colgroup", "tbody", "tfoot", "thead".
        _ if tag.ends_section() => {
            if close_section(page) {
                return Ok(Outcome::Reprocess);
            }
            page.drop_token(token, Symbol::Start(tag), Cause::Misplaced)?;
        }
        // Anything else: process the token using the rules for "in table".
        _ => {
            let outcome = table_rules(page, token, Symbol::Start(tag))?;
            return Ok(outcome);
        }
    }
    Ok(Outcome::Done)
}

#[tactic(auto, using(crate::proofs::Settled::part_rules, crate::proofs::RulesInTableBody::arms))]
fn table_body_end(
    page: &mut Construction,
    token: &TokenKind,
    tag: Tag,
) -> Result<Outcome, ArenaError>
    requires mode { page.old.mode ≡ Mode.InTableBody }
    requires symbol { symbol_of token.now ≡ Symbol.End tag }
    requires calls { Calls page.old }
    ensures fits { OnOk result (Fits page.new) }
    ensures takes { IfOk result (λ o. Steps o token.now page.old page.new) }
    ensures falls { IfOk result (λ o. Falls o (Symbol.End tag) page.old page.new) }
    ensures grows { IfOk result (λ o. Grows o page.old page.new) }
    ensures works { IfOk result (λ o. Worked o token.now page.old page.new) }
    ensures refuses { IfErr result (λ e. Refuses token.now e page.old page.new) }
    ensures follows { IfOk result (λ o. Follows (in_table_body_end tag) token.now o page.old page.new) }
{
    match tag {
        // An end tag whose tag name is "table".
        Tag::Table => {
            if close_section(page) {
                return Ok(Outcome::Reprocess);
            }
            page.end(token, Symbol::End(Tag::Table))?;
        }
        // An end tag whose tag name is one of: "tbody", "tfoot", "thead".
        _ if tag.is_section() => {
            section_end(page, token, tag)?;
        }
        // An end tag whose tag name is one of: "body", "caption", "col", "colgroup", "html", "td", "th", "tr":
        // ignore the token.
        _ if tag.is_ignored_in_table() => page.end(token, Symbol::End(tag))?,
        // Anything else: process the token using the rules for "in table".
        _ => {
            let outcome = table_rules(page, token, Symbol::End(tag))?;
            return Ok(outcome);
        }
    }
    Ok(Outcome::Done)
}

/// An end tag of a section in the section.
#[tactic(auto, using(crate::proofs::Settled::part_rules, crate::proofs::RulesInTableBody::arms))]
fn section_end(page: &mut Construction, token: &TokenKind, tag: Tag) -> Result<(), ArenaError>
    requires mode { page.old.mode ≡ Mode.InTableBody }
    requires symbol { symbol_of token.now ≡ Symbol.End tag }
    requires calls { Calls page.old }
    ensures fits { OnOk result (Fits page.new) }
    ensures takes { OnOk result (Takes token.now page.old page.new) }
    ensures falls { OnOk result (Falls Done (Symbol.End tag) page.old page.new) }
    ensures grows { OnOk result (Grows Done page.old page.new) }
    ensures works { OnOk result (Worked Done token.now page.old page.new) }
    ensures refuses { IfErr result (λ e. Refuses token.now e page.old page.new) }
    ensures follows { OnOk result (Follows (Ask (Finds (group.Named tag) (stop.EndOf scope.Table)) (closing_section done_with done_with) done_with) token.now Done page.old page.new) }
{
    if page.has_in_scope(tag, Scope::Table) {
        let _ = close_section(page);
    }
    page.end(token, Symbol::End(tag))
}

/// Closes the section that is in scope and goes back to the table, and says whether there was one.
fn close_section(page: &mut Construction) -> bool
    requires opened { 0 < length page.old.stack }
    ensures rest { page.new ≡ record page.old { tree = page.new.tree; stack = page.new.stack; mode = page.new.mode } }
    ensures keeps { Keeps page.old page.new }
    ensures grown { Grown 0 0 0 0 0 page.old page.new }
    ensures works { Works 6 0 6 page.old page.new }
    ensures lighter { weight page.new.stack ≤ weight page.old.stack }
    ensures opened { 0 < length page.new.stack }
    ensures mode { page.new.mode ≡ (if result then Mode.InTable else page.old.mode) }
    ensures found { result ≡ true → weight page.new.stack + 4 ≤ weight page.old.stack }
    ensures follows { Chooses closing_section result page.old page.new }
{
    if !page.has_group_in_scope(Group::Section, Scope::Table) {
        return false;
    }
    page.clear_to(TableContext::Body);
    if !page.pop_if(Group::Section) {
        return false;
    }
    page.set_mode(Mode::InTable);
    true
}

/// The rules for the "in row" insertion mode (13.2.6.4.14).
#[tactic(auto, using(crate::proofs::Settled::part_rules, crate::proofs::RawText::headish_names, crate::proofs::RulesInRow::arms))]
pub(crate) fn in_row(
    page: &mut Construction,
    token: &TokenKind,
    symbol: Symbol,
) -> Result<Outcome, ArenaError>
    requires symbol { symbol_of token.now ≡ symbol }
    requires mode { page.old.mode ≡ Mode.InRow }
    requires fits { Fits page.old }
    requires quiet { page.old.ledger.kept ≡ [] }
    requires free { IsTrue (is_free page.old.ledger.history symbol) }
    ensures fits { OnOk result (Fits page.new) }
    ensures takes { IfOk result (λ o. Steps o token.now page.old page.new) }
    ensures falls { IfOk result (λ o. Falls o symbol page.old page.new) }
    ensures grows { IfOk result (λ o. Grows o page.old page.new) }
    ensures works { IfOk result (λ o. Worked o token.now page.old page.new) }
    ensures refuses { IfErr result (λ e. Refuses token.now e page.old page.new) }
    ensures follows { IfOk result (λ o. Follows (in_row symbol) token.now o page.old page.new) }
{
    match symbol {
        Symbol::Start(tag) => {
            let outcome = row_start(page, token, tag)?;
            Ok(outcome)
        }
        Symbol::End(tag) => {
            let outcome = row_end(page, token, tag)?;
            Ok(outcome)
        }
        // Anything else: process the token using the rules for "in table".
        Symbol::Char(_) | Symbol::Comment | Symbol::Doctype | Symbol::Eof => {
            let outcome = table_rules(page, token, symbol)?;
            Ok(outcome)
        }
    }
}

#[tactic(auto, using(crate::proofs::Settled::part_rules, crate::proofs::RawText::headish_names, crate::proofs::RulesInRow::arms))]
fn row_start(page: &mut Construction, token: &TokenKind, tag: Tag) -> Result<Outcome, ArenaError>
    requires mode { page.old.mode ≡ Mode.InRow }
    requires symbol { symbol_of token.now ≡ Symbol.Start tag }
    requires calls { Calls page.old }
    ensures fits { OnOk result (Fits page.new) }
    ensures takes { IfOk result (λ o. Steps o token.now page.old page.new) }
    ensures falls { IfOk result (λ o. Falls o (Symbol.Start tag) page.old page.new) }
    ensures grows { IfOk result (λ o. Grows o page.old page.new) }
    ensures works { IfOk result (λ o. Worked o token.now page.old page.new) }
    ensures refuses { IfErr result (λ e. Refuses token.now e page.old page.new) }
    ensures follows { IfOk result (λ o. Follows (in_row_start tag) token.now o page.old page.new) }
{
    // A start tag whose tag name is one of: "th", "td".
    if tag.is_cell() {
        cell_start(page, token, tag)?;
        return Ok(Outcome::Done);
    }
    // A start tag whose tag name is one of: "caption", "col", "colgroup", "tbody", "tfoot", "thead", "tr".
    if tag.ends_row() {
        if close_row(page) {
            return Ok(Outcome::Reprocess);
        }
        page.drop_token(token, Symbol::Start(tag), Cause::Misplaced)?;
        return Ok(Outcome::Done);
    }
    // Anything else: process the token using the rules for "in table".
    let outcome = table_rules(page, token, Symbol::Start(tag))?;
    Ok(outcome)
}

#[tactic(auto, using(crate::proofs::Settled::part_rules, crate::proofs::RulesInRow::arms))]
fn row_end(page: &mut Construction, token: &TokenKind, tag: Tag) -> Result<Outcome, ArenaError>
    requires mode { page.old.mode ≡ Mode.InRow }
    requires symbol { symbol_of token.now ≡ Symbol.End tag }
    requires calls { Calls page.old }
    ensures fits { OnOk result (Fits page.new) }
    ensures takes { IfOk result (λ o. Steps o token.now page.old page.new) }
    ensures falls { IfOk result (λ o. Falls o (Symbol.End tag) page.old page.new) }
    ensures grows { IfOk result (λ o. Grows o page.old page.new) }
    ensures works { IfOk result (λ o. Worked o token.now page.old page.new) }
    ensures refuses { IfErr result (λ e. Refuses token.now e page.old page.new) }
    ensures follows { IfOk result (λ o. Follows (in_row_end tag) token.now o page.old page.new) }
{
    match tag {
        // An end tag whose tag name is "tr".
        Tag::Tr => {
            let _ = close_row(page);
            page.end(token, Symbol::End(Tag::Tr))?;
        }
        // An end tag whose tag name is "table".
        Tag::Table => {
            if close_row(page) {
                return Ok(Outcome::Reprocess);
            }
            page.end(token, Symbol::End(Tag::Table))?;
        }
        // An end tag whose tag name is one of: "tbody", "tfoot", "thead".
        _ if tag.is_section() => {
            let outcome = section_end_in_row(page, token, tag)?;
            return Ok(outcome);
        }
        // An end tag whose tag name is one of: "body", "caption", "col", "colgroup", "html", "td", "th": ignore
        // the token.
        _ if tag.is_ignored_in_table() => page.end(token, Symbol::End(tag))?,
        // Anything else: process the token using the rules for "in table".
        _ => {
            let outcome = table_rules(page, token, Symbol::End(tag))?;
            return Ok(outcome);
        }
    }
    Ok(Outcome::Done)
}

/// An end tag of a section in a row, which closes the row first.
#[tactic(auto, using(crate::proofs::Settled::part_rules, crate::proofs::RulesInRow::arms))]
fn section_end_in_row(
    page: &mut Construction,
    token: &TokenKind,
    tag: Tag,
) -> Result<Outcome, ArenaError>
    requires mode { page.old.mode ≡ Mode.InRow }
    requires symbol { symbol_of token.now ≡ Symbol.End tag }
    requires calls { Calls page.old }
    ensures fits { OnOk result (Fits page.new) }
    ensures takes { IfOk result (λ o. Steps o token.now page.old page.new) }
    ensures falls { IfOk result (λ o. Falls o (Symbol.End tag) page.old page.new) }
    ensures grows { IfOk result (λ o. Grows o page.old page.new) }
    ensures works { IfOk result (λ o. Worked o token.now page.old page.new) }
    ensures refuses { IfErr result (λ e. Refuses token.now e page.old page.new) }
    ensures follows { IfOk result (λ o. Follows (Ask (Finds (group.Named tag) (stop.EndOf scope.Table)) (closing_row again done_with) done_with) token.now o page.old page.new) }
{
    if page.has_in_scope(tag, Scope::Table) && close_row(page) {
        return Ok(Outcome::Reprocess);
    }
    page.end(token, Symbol::End(tag))?;
    Ok(Outcome::Done)
}

/// Closes the row that is in scope and goes back to the section, and says whether there was one.
fn close_row(page: &mut Construction) -> bool
    requires opened { 0 < length page.old.stack }
    ensures rest { page.new ≡ record page.old { tree = page.new.tree; stack = page.new.stack; mode = page.new.mode } }
    ensures keeps { Keeps page.old page.new }
    ensures grown { Grown 0 0 0 0 0 page.old page.new }
    ensures works { Works 6 0 6 page.old page.new }
    ensures lighter { weight page.new.stack ≤ weight page.old.stack }
    ensures opened { 0 < length page.new.stack }
    ensures mode { page.new.mode ≡ (if result then Mode.InTableBody else page.old.mode) }
    ensures found { result ≡ true → weight page.new.stack + 4 ≤ weight page.old.stack }
    ensures follows { Chooses closing_row result page.old page.new }
{
    if !page.has_in_scope(Tag::Tr, Scope::Table) {
        return false;
    }
    page.clear_to(TableContext::Row);
    if !page.pop_if(Group::Named(Tag::Tr)) {
        return false;
    }
    page.set_mode(Mode::InTableBody);
    true
}
