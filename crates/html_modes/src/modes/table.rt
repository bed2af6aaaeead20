// The mode in table (13.2.6.4.9).
ghost use Rattle.std.specs.Prelude.{◌≡◌, ◌+◌, ◌<◌, ◌≤◌, [], IfOk, OnOk, IsTrue, false, length, true, IfErr};
ghost use Rattle.html_ledger.specs.Symbols.{symbol_of};
ghost use Rattle.html_ledger.specs.Flags.{is_free};
ghost use Rattle.html_construction.specs.Budgets.{Refuses, RefusesAny};
ghost use Rattle.html_construction.specs.Built.{Keeps, Takes};
ghost use Rattle.html_construction.specs.Grown.{Grown};
ghost use Rattle.html_construction.specs.Modes.{is_reset};
ghost use Rattle.html_construction.specs.Works.{Works};
ghost use Rattle.html_construction.specs.Weights.{weight};
ghost use Rattle.html_modes.specs.Fitting.{Fits, Calls, is_loose, is_table_mode};
ghost use Rattle.html_modes.specs.Steps.{Falls, Grows, Steps, Worked};
ghost use Rattle.html_modes.specs.declared.outcome.Outcome.TheVariants.{Done};
ghost use Rattle.html_construction.specs.Plans.{Asks, Chooses, Do, Passes, implying_part};
ghost use Rattle.html_construction.specs.Words.{ClearTo, CollectsText, Switch};
ghost use Rattle.html_tree.specs.declared.groups.TableContext.TheVariants as context;
ghost use Rattle.html_modes.specs.Guards.{is_root_end};
ghost use Rattle.html_modes.specs.RuleForms.{fostering};
ghost use Rattle.html_modes.specs.Rules.{Follows};
ghost use Rattle.html_modes.specs.RulesInTable.{closing_table, in_table, in_table_end, in_table_other, in_table_other_start, in_table_start};

use crate::guards::has_form;
use crate::hidden::is_hidden;
use crate::modes::body::body_rules;
use crate::modes::head::head_start;
use crate::modes::initial::doctype;
use crate::modes::table_text::foster_char;
use crate::modes::template::template_end;
use crate::outcome::Outcome;
use html_construction::{ArenaError, Construction, Mode};
use html_ledger::{Cause, Symbol};
use html_names::{Scope, Tag};
use html_tokens::TokenKind;
use html_tree::TableContext;

/// The rules for the "in table" insertion mode (13.2.6.4.9).
#[tactic(auto, using(crate::proofs::Settled::table_rules, crate::proofs::RawText::headish_names, crate::proofs::RulesInTable::arms))]
pub(crate) fn in_table(
    page: &mut Construction,
    token: &TokenKind,
    symbol: Symbol,
) -> Result<Outcome, ArenaError>
    requires symbol { symbol_of token.now ≡ symbol }
    requires mode { page.old.mode ≡ Mode.InTable }
    requires fits { Fits page.old }
    requires quiet { page.old.ledger.kept ≡ [] }
    requires free { IsTrue (is_free page.old.ledger.history symbol) }
    ensures fits { OnOk result (Fits page.new) }
    ensures takes { IfOk result (λ o. Steps o token.now page.old page.new) }
    ensures falls { IfOk result (λ o. Falls o symbol page.old page.new) }
    ensures grows { IfOk result (λ o. Grows o page.old page.new) }
    ensures works { IfOk result (λ o. Worked o token.now page.old page.new) }
    ensures refuses { IfErr result (λ e. Refuses token.now e page.old page.new) }
    ensures follows { IfOk result (λ o. Follows (in_table symbol) token.now o page.old page.new) }
{
    match symbol {
        Symbol::Start(tag) => {
            let outcome = start_in_table(page, token, tag)?;
            Ok(outcome)
        }
        Symbol::End(_) | Symbol::Char(_) | Symbol::Comment | Symbol::Doctype | Symbol::Eof => {
            let outcome = table_rules(page, token, symbol)?;
            Ok(outcome)
        }
    }
}

#[tactic(auto, using(crate::proofs::Settled::table_rules, crate::proofs::RawText::headish_names, crate::proofs::RulesInTable::arms))]
fn start_in_table(
    page: &mut Construction,
    token: &TokenKind,
    tag: Tag,
) -> Result<Outcome, ArenaError>
    requires symbol { symbol_of token.now ≡ Symbol.Start tag }
    requires mode { page.old.mode ≡ Mode.InTable }
    requires calls { Calls page.old }
    ensures fits { OnOk result (Fits page.new) }
    ensures takes { IfOk result (λ o. Steps o token.now page.old page.new) }
    ensures falls { IfOk result (λ o. Falls o (Symbol.Start tag) page.old page.new) }
    ensures grows { IfOk result (λ o. Grows o page.old page.new) }
    ensures works { IfOk result (λ o. Worked o token.now page.old page.new) }
    ensures refuses { IfErr result (λ e. Refuses token.now e page.old page.new) }
    ensures follows { IfOk result (λ o. Follows (in_table_start tag) token.now o page.old page.new) }
{
    match tag {
        // A start tag whose tag name is "caption".
        Tag::Caption => {
            page.clear_to(TableContext::Table);
            page.add_marker()?;
            page.insert_part(token, Tag::Caption)?;
            page.set_mode(Mode::InCaption);
        }
        // A start tag whose tag name is "colgroup": clear the stack back to a table context.
        Tag::Colgroup => {
            page.clear_to(TableContext::Table);
            page.insert_part(token, Tag::Colgroup)?;
            page.set_mode(Mode::InColumnGroup);
        }
        // A start tag whose tag name is "col": insert a "colgroup" without attributes, reprocess.
        Tag::Col => {
            page.clear_to(TableContext::Table);
            page.insert_implied_part(Tag::Colgroup)?;
            page.set_mode(Mode::InColumnGroup);
            return Ok(Outcome::Reprocess);
        }
        // A start tag whose tag name is one of: "tbody", "tfoot", "thead".
        _ if tag.is_section() => {
            page.clear_to(TableContext::Table);
            page.insert_part(token, tag)?;
            page.set_mode(Mode::InTableBody);
        }
        // A start tag whose tag name is one of: "td", "th", "tr": insert a "tbody" without attributes, reprocess.
        _ if tag.is_cell() => {
            imply_section(page)?;
            return Ok(Outcome::Reprocess);
        }
        Tag::Tr => {
            imply_section(page)?;
            return Ok(Outcome::Reprocess);
        }
        _ => {
            let outcome = table_rules(page, token, Symbol::Start(tag))?;
            return Ok(outcome);
        }
    }
    Ok(Outcome::Done)
}

/// Opens a section of the table that no token asked for.
fn imply_section(page: &mut Construction) -> Result<(), ArenaError>
    requires opened { 0 < length page.old.stack }
    requires listed { length page.old.tree.list ≤ length page.old.ledger.fates }
    ensures rest { OnOk result (page.new ≡ record page.old { tree = page.new.tree; stack = page.new.stack; mode = Mode.InTableBody }) }
    ensures keeps { OnOk result (Keeps page.old page.new) }
    ensures grown { OnOk result (Grown 0 (2) 0 0 1 page.old page.new) }
    ensures works { OnOk result (Works 6 0 6 page.old page.new) }
    ensures opened { OnOk result (0 < length page.new.stack) }
    ensures heavier { OnOk result (weight page.new.stack ≤ weight page.old.stack + 4) }
    ensures refuses { IfErr result (λ e. RefusesAny e page.old page.new) }
    ensures follows { OnOk result (Passes (λ p. Do (ClearTo context.Table) (implying_part Tag.Tbody (Do (Switch Mode.InTableBody) p))) page.old page.new) }
{
    page.clear_to(TableContext::Table);
    page.insert_implied_part(Tag::Tbody)?;
    page.set_mode(Mode::InTableBody);
    Ok(())
}

/// The rules of the mode in table that the modes in table body and in row share.
#[tactic(auto, using(crate::proofs::Settled::table_rules, crate::proofs::RawText::headish_names, crate::proofs::RulesInTable::arms))]
pub(crate) fn table_rules(
    page: &mut Construction,
    token: &TokenKind,
    symbol: Symbol,
) -> Result<Outcome, ArenaError>
    requires mode { is_table_mode page.old.mode ≡ true }
    requires symbol { symbol_of token.now ≡ symbol }
    requires calls { Calls page.old }
    requires free { IsTrue (is_free page.old.ledger.history symbol) }
    ensures fits { OnOk result (Fits page.new) }
    ensures takes { IfOk result (λ o. Steps o token.now page.old page.new) }
    ensures falls { IfOk result (λ o. Falls o symbol page.old page.new) }
    ensures grows { IfOk result (λ o. Grows o page.old page.new) }
    ensures works { IfOk result (λ o. Worked o token.now page.old page.new) }
    ensures refuses { IfErr result (λ e. Refuses token.now e page.old page.new) }
    ensures follows { IfOk result (λ o. Follows (in_table_other symbol) token.now o page.old page.new) }
{
    match symbol {
        // A character token.
        Symbol::Char(c) => {
            let outcome = table_rules_char(page, token, c)?;
            return Ok(outcome);
        }
        // A comment token: insert a comment.
        Symbol::Comment => page.insert_comment(token)?,
        // A DOCTYPE token: ignore the token.
        Symbol::Doctype => doctype(page, token)?,
        // A start tag.
        Symbol::Start(tag) => {
            let outcome = table_rules_start(page, token, tag)?;
            return Ok(outcome);
        }
        // An end tag.
        Symbol::End(tag) => {
            let outcome = table_rules_end(page, token, tag)?;
            return Ok(outcome);
        }
        // An end-of-file token: process the token using the rules for "in body".
        Symbol::Eof => {
            let outcome = body_rules(page, token, symbol)?;
            return Ok(outcome);
        }
    }
    Ok(Outcome::Done)
}

#[tactic(auto, using(crate::proofs::Settled::table_rules, crate::proofs::RulesInTable::arms))]
fn table_rules_char(
    page: &mut Construction,
    token: &TokenKind,
    c: char,
) -> Result<Outcome, ArenaError>
    requires mode { is_table_mode page.old.mode ≡ true }
    requires free { IsTrue (is_free page.old.ledger.history (Symbol.Char c)) }
    requires symbol { symbol_of token.now ≡ Symbol.Char c }
    requires calls { Calls page.old }
    ensures fits { OnOk result (Fits page.new) }
    ensures takes { IfOk result (λ o. Steps o token.now page.old page.new) }
    ensures falls { IfOk result (λ o. Falls o (Symbol.Char c) page.old page.new) }
    ensures grows { IfOk result (λ o. Grows o page.old page.new) }
    ensures works { IfOk result (λ o. Worked o token.now page.old page.new) }
    ensures refuses { IfErr result (λ e. Refuses token.now e page.old page.new) }
    ensures follows { IfOk result (λ o. Follows (in_table_other (Symbol.Char c)) token.now o page.old page.new) }
{
    if collects_text(page) {
        page.enter(Mode::InTableText);
        return Ok(Outcome::Reprocess);
    }
    foster_char(page, token, c)?;
    Ok(Outcome::Done)
}

/// Whether text in the current node is collected before it is put anywhere.
#[tactic(auto, using(crate::proofs::Ruled::asking_rules))]
fn collects_text(page: &mut Construction) -> bool
    ensures rest { page.new ≡ record page.old { tree = page.new.tree } }
    ensures keeps { Keeps page.old page.new }
    ensures grown { Grown 0 0 0 0 0 page.old page.new }
    ensures works { Works 6 0 6 page.old page.new }
    ensures follows { Asks CollectsText result page.old page.new }
{
    let tag = page.current();
    tag.is_fostering() || tag.is(Tag::Template)
}

#[tactic(auto, using(crate::proofs::Settled::table_rules, crate::proofs::RawText::headish_names, crate::proofs::RulesInTable::arms))]
fn table_rules_start(
    page: &mut Construction,
    token: &TokenKind,
    tag: Tag,
) -> Result<Outcome, ArenaError>
    requires mode { is_table_mode page.old.mode ≡ true }
    requires symbol { symbol_of token.now ≡ Symbol.Start tag }
    requires calls { Calls page.old }
    ensures fits { OnOk result (Fits page.new) }
    ensures takes { IfOk result (λ o. Steps o token.now page.old page.new) }
    ensures falls { IfOk result (λ o. Falls o (Symbol.Start tag) page.old page.new) }
    ensures grows { IfOk result (λ o. Grows o page.old page.new) }
    ensures works { IfOk result (λ o. Worked o token.now page.old page.new) }
    ensures refuses { IfErr result (λ e. Refuses token.now e page.old page.new) }
    ensures follows { IfOk result (λ o. Follows (in_table_other_start tag) token.now o page.old page.new) }
{
    match tag {
        // A start tag whose tag name is "table".
        Tag::Table => {
            let outcome = table_in_table(page, token)?;
            return Ok(outcome);
        }
        // A start tag whose tag name is "input", with a type attribute "hidden": insert an HTML element.
        Tag::Input => {
            let outcome = input_in_table(page, token)?;
            return Ok(outcome);
        }
        // A start tag whose tag name is "form".
        Tag::Form => form_in_table(page, token)?,
        // A start tag whose tag name is one of: "style", "script", "template": process the token using the rules for "in head".
        _ if tag.is_table_head() => head_start(page, token, tag)?,
        // Anything else: enable foster parenting, process the token using the rules for "in body".
        _ => {
            let outcome = foster_rules(page, token, Symbol::Start(tag))?;
            return Ok(outcome);
        }
    }
    Ok(Outcome::Done)
}

#[tactic(auto, using(crate::proofs::Settled::table_rules, crate::proofs::RulesInTable::arms))]
fn table_rules_end(
    page: &mut Construction,
    token: &TokenKind,
    tag: Tag,
) -> Result<Outcome, ArenaError>
    requires mode { is_table_mode page.old.mode ≡ true }
    requires symbol { symbol_of token.now ≡ Symbol.End tag }
    requires calls { Calls page.old }
    ensures fits { OnOk result (Fits page.new) }
    ensures takes { IfOk result (λ o. Steps o token.now page.old page.new) }
    ensures falls { IfOk result (λ o. Falls o (Symbol.End tag) page.old page.new) }
    ensures grows { IfOk result (λ o. Grows o page.old page.new) }
    ensures works { IfOk result (λ o. Worked o token.now page.old page.new) }
    ensures refuses { IfErr result (λ e. Refuses token.now e page.old page.new) }
    ensures follows { IfOk result (λ o. Follows (in_table_end tag) token.now o page.old page.new) }
{
    match tag {
        // An end tag whose tag name is "table".
        Tag::Table => {
            let _ = close_table(page);
            page.end(token, Symbol::End(Tag::Table))?;
        }
        // An end tag whose tag name is "template": process the token using the rules for "in head".
        Tag::Template => template_end(page, token)?,
        // An end tag whose tag name is one of: "body", "caption", "col", "colgroup", "html", "tbody", "td",
        // "tfoot", "th", "thead", "tr": ignore the token.
        _ if tag.is_ignored_in_table() => page.end(token, Symbol::End(tag))?,
        // Anything else: enable foster parenting, process the token using the rules for "in body".
        _ => {
            let outcome = foster_rules(page, token, Symbol::End(tag))?;
            return Ok(outcome);
        }
    }
    Ok(Outcome::Done)
}

/// A table in a table, which closes the outer one. None is in scope in a template or a fragment alone. (There a table may be misplaced;
/// where not, it would be inserted.)
#[tactic(auto, using(crate::proofs::Settled::table_rules, crate::proofs::RulesInTable::arms))]
fn table_in_table(page: &mut Construction, token: &TokenKind) -> Result<Outcome, ArenaError>
    requires mode { is_table_mode page.old.mode ≡ true }
    requires symbol { symbol_of token.now ≡ Symbol.Start Tag.Table }
    requires calls { Calls page.old }
    ensures fits { OnOk result (Fits page.new) }
    ensures takes { IfOk result (λ o. Steps o token.now page.old page.new) }
    ensures falls { IfOk result (λ o. Falls o (Symbol.Start Tag.Table) page.old page.new) }
    ensures grows { IfOk result (λ o. Grows o page.old page.new) }
    ensures works { IfOk result (λ o. Worked o token.now page.old page.new) }
    ensures refuses { IfErr result (λ e. Refuses token.now e page.old page.new) }
    ensures follows { IfOk result (λ o. Follows (in_table_other_start Tag.Table) token.now o page.old page.new) }
{
    if close_table(page) {
        return Ok(Outcome::Reprocess);
    }
    if page.history().may_misplace(Tag::Table) {
        page.drop_token(token, Symbol::Start(Tag::Table), Cause::Misplaced)?;
    } else {
        page.insert(token, Tag::Table)?;
    }
    Ok(Outcome::Done)
}

/// Closes the table that is in scope, sets the mode that the elements outside call for, and says whether there was one.
#[tactic(auto, using(crate::proofs::Settled::reset_rules))]
fn close_table(page: &mut Construction) -> bool
    requires loose { is_loose page.old.mode ≡ true }
    requires opened { 0 < length page.old.stack }
    ensures rest { page.new ≡ record page.old { tree = page.new.tree; stack = page.new.stack; mode = page.new.mode } }
    ensures keeps { Keeps page.old page.new }
    ensures grown { Grown 0 0 0 0 0 page.old page.new }
    ensures works { Works 6 0 6 page.old page.new }
    ensures lighter { weight page.new.stack ≤ weight page.old.stack }
    ensures opened { 0 < length page.new.stack }
    ensures loose { is_loose page.new.mode ≡ true }
    ensures found { result ≡ true → weight page.new.stack + 4 ≤ weight page.old.stack }
    ensures reset { result ≡ true → is_reset page.new.mode ≡ true }
    ensures follows { Chooses closing_table result page.old page.new }
{
    if !page.close_in_scope(Tag::Table, Scope::Table) {
        return false;
    }
    page.reset();
    true
}

/// An input in a table, which stays there where it is hidden.
#[tactic(auto, using(crate::proofs::Settled::table_rules, crate::proofs::RulesInTable::arms))]
fn input_in_table(page: &mut Construction, token: &TokenKind) -> Result<Outcome, ArenaError>
    requires mode { is_table_mode page.old.mode ≡ true }
    requires symbol { symbol_of token.now ≡ Symbol.Start Tag.Input }
    requires calls { Calls page.old }
    ensures fits { OnOk result (Fits page.new) }
    ensures takes { IfOk result (λ o. Steps o token.now page.old page.new) }
    ensures falls { IfOk result (λ o. Falls o (Symbol.Start Tag.Input) page.old page.new) }
    ensures grows { IfOk result (λ o. Grows o page.old page.new) }
    ensures works { IfOk result (λ o. Worked o token.now page.old page.new) }
    ensures refuses { IfErr result (λ e. Refuses token.now e page.old page.new) }
    ensures follows { IfOk result (λ o. Follows (in_table_other_start Tag.Input) token.now o page.old page.new) }
{
    if is_hidden(token) {
        page.insert_void(token, Tag::Input)?;
        return Ok(Outcome::Done);
    }
    let outcome = foster_rules(page, token, Symbol::Start(Tag::Input))?;
    Ok(outcome)
}

/// A form in a table, which can't have content.
#[tactic(auto, using(crate::proofs::Settled::body_rules, crate::proofs::Ruled::rule_words))]
fn form_in_table(page: &mut Construction, token: &TokenKind) -> Result<(), ArenaError>
    requires symbol { symbol_of token.now ≡ Symbol.Start Tag.Form }
    requires calls { Calls page.old }
    ensures fits { OnOk result (Fits page.new) }
    ensures takes { OnOk result (Takes token.now page.old page.new) }
    ensures falls { OnOk result (Falls Done (Symbol.Start Tag.Form) page.old page.new) }
    ensures grows { OnOk result (Grows Done page.old page.new) }
    ensures works { OnOk result (Worked Done token.now page.old page.new) }
    ensures refuses { IfErr result (λ e. Refuses token.now e page.old page.new) }
    ensures follows { OnOk result (Follows (in_table_other_start Tag.Form) token.now Done page.old page.new) }
{
    if page.has_template() {
        return page.drop_token(token, Symbol::Start(Tag::Form), Cause::Misplaced);
    }
    if has_form(page) {
        return page.drop_token(token, Symbol::Start(Tag::Form), Cause::Misplaced);
    }
    page.insert_closed_form(token)
}

/// The rules of the mode in body for what can't stand in a table: it is put before the table.
#[tactic(auto, using(crate::proofs::Settled::foster_rules, crate::proofs::RawText::headish_names, crate::proofs::RulesInTable::arms))]
fn foster_rules(
    page: &mut Construction,
    token: &TokenKind,
    symbol: Symbol,
) -> Result<Outcome, ArenaError>
    requires symbol { symbol_of token.now ≡ symbol }
    requires calls { Calls page.old }
    requires free { IsTrue (is_free page.old.ledger.history symbol) }
    ensures fits { OnOk result (Fits page.new) }
    ensures takes { IfOk result (λ o. Steps o token.now page.old page.new) }
    ensures falls { IfOk result (λ o. Falls o symbol page.old page.new) }
    ensures grows { IfOk result (λ o. Grows o page.old page.new) }
    ensures works { IfOk result (λ o. Worked o token.now page.old page.new) }
    ensures refuses { IfErr result (λ e. Refuses token.now e page.old page.new) }
    ensures follows { IfOk result (λ o. is_root_end symbol ≡ false → Follows fostering token.now o page.old page.new) }
{
    page.foster_on();
    let outcome = body_rules(page, token, symbol)?;
    page.foster_off();
    Ok(outcome)
}
