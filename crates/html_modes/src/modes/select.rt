// The modes of select (13.2.6.4.16 and 13.2.6.4.17).
ghost use Rattle.std.specs.Prelude.{◌≡◌, ◌+◌, ◌<◌, ◌≤◌, [], IfOk, OnOk, IsTrue, length, true, false, IfErr};
ghost use Rattle.html_ledger.specs.Symbols.{symbol_of};
ghost use Rattle.html_ledger.specs.Flags.{is_free, may_select};
ghost use Rattle.html_construction.specs.Budgets.{Refuses};
ghost use Rattle.html_construction.specs.Built.{Keeps, Takes};
ghost use Rattle.html_construction.specs.Grown.{Grown};
ghost use Rattle.html_construction.specs.Modes.{is_of_selects, is_reset};
ghost use Rattle.html_construction.specs.Works.{Works};
ghost use Rattle.html_construction.specs.Weights.{weight};
ghost use Rattle.html_modes.specs.Fitting.{Fits, Calls, is_loose};
ghost use Rattle.html_modes.specs.Steps.{Falls, Grows, Steps, Worked};
ghost use Rattle.html_modes.specs.Ranks.{rank};
ghost use Rattle.html_modes.specs.declared.outcome.Outcome.TheVariants.{Done};
ghost use Rattle.html_ledger.specs.MayDrop.{is_in_select};
ghost use Rattle.html_modes.specs.Guards.{is_droppable};
ghost use Rattle.html_ledger.specs.declared.fate.Cause.TheVariants.{InSelect};
ghost use Rattle.html_construction.specs.Plans.{Chooses, Passes};
ghost use Rattle.html_modes.specs.RuleForms.{again, ignored};
ghost use Rattle.html_modes.specs.Rules.{Follows};
ghost use Rattle.html_modes.specs.RulesInSelect.{closing_group, closing_grouped_option, closing_options, closing_select, in_select, in_select_end, in_select_start};
ghost use Rattle.html_modes.specs.RulesInSelectInTable.{in_select_in_table};

use crate::modes::body::body_rules;
use crate::modes::body_start::html_start;
use crate::modes::head::head_start;
use crate::modes::initial::doctype;
use crate::modes::template::template_end;
use crate::modes::text::insert_text_char;
use crate::outcome::Outcome;
use html_construction::{ArenaError, Construction, Mode};
use html_ledger::{Cause, Symbol};
use html_names::{Scope, Tag};
use html_tokens::TokenKind;
use html_tree::Group;

/// The rules for the "in select" insertion mode (13.2.6.4.16).
#[tactic(auto, using(crate::proofs::Settled::mode_rules, crate::proofs::RulesInSelect::arms))]
pub(crate) fn in_select(
    page: &mut Construction,
    token: &TokenKind,
    symbol: Symbol,
) -> Result<Outcome, ArenaError>
    requires seen { is_droppable symbol ≡ true → may_select page.old.ledger.history ≡ true }
    requires began { is_droppable symbol ≡ true → is_of_selects page.old.began ≡ true }
    requires symbol { symbol_of token.now ≡ symbol }
    requires mode { page.old.mode ≡ Mode.InSelect }
    requires fits { Fits page.old }
    requires quiet { page.old.ledger.kept ≡ [] }
    requires free { IsTrue (is_free page.old.ledger.history symbol) }
    ensures fits { OnOk result (Fits page.new) }
    ensures takes { IfOk result (λ o. Steps o token.now page.old page.new) }
    ensures falls { IfOk result (λ o. Falls o symbol page.old page.new) }
    ensures grows { IfOk result (λ o. Grows o page.old page.new) }
    ensures works { IfOk result (λ o. Worked o token.now page.old page.new) }
    ensures refuses { IfErr result (λ e. Refuses token.now e page.old page.new) }
    ensures follows { IfOk result (λ o. Follows (in_select symbol) token.now o page.old page.new) }
{
    let outcome = select_rules(page, token, symbol)?;
    Ok(outcome)
}

/// The rules that both modes share.
#[tactic(auto, using(crate::proofs::Settled::reset_rules, crate::proofs::RulesInSelect::arms))]
fn select_rules(
    page: &mut Construction,
    token: &TokenKind,
    symbol: Symbol,
) -> Result<Outcome, ArenaError>
    requires seen { is_droppable symbol ≡ true → may_select page.old.ledger.history ≡ true }
    requires began { is_droppable symbol ≡ true → is_of_selects page.old.began ≡ true }
    requires high { 7 ≤ rank page.old.mode symbol }
    requires symbol { symbol_of token.now ≡ symbol }
    requires calls { Calls page.old }
    requires free { IsTrue (is_free page.old.ledger.history symbol) }
    ensures fits { OnOk result (Fits page.new) }
    ensures takes { IfOk result (λ o. Steps o token.now page.old page.new) }
    ensures falls { IfOk result (λ o. Falls o symbol page.old page.new) }
    ensures grows { IfOk result (λ o. Grows o page.old page.new) }
    ensures works { IfOk result (λ o. Worked o token.now page.old page.new) }
    ensures refuses { IfErr result (λ e. Refuses token.now e page.old page.new) }
    ensures follows { IfOk result (λ o. Follows (in_select symbol) token.now o page.old page.new) }
{
    match symbol {
        // A character token: insert the token's character, unless it is U+0000 NULL.
        Symbol::Char(c) => insert_text_char(page, token, c)?,
        // A comment token: insert a comment.
        Symbol::Comment => page.insert_comment(token)?,
        // A DOCTYPE token: ignore the token.
        Symbol::Doctype => doctype(page, token)?,
        // A start tag.
        Symbol::Start(tag) => {
            let outcome = select_start_tag(page, token, tag)?;
            return Ok(outcome);
        }
        // An end tag.
        Symbol::End(tag) => select_end_tag(page, token, tag)?,
        // An end-of-file token: process the token using the rules for "in body".
        Symbol::Eof => {
            let outcome = body_rules(page, token, symbol)?;
            return Ok(outcome);
        }
    }
    Ok(Outcome::Done)
}

#[tactic(auto, using(crate::proofs::Settled::reset_rules, crate::proofs::RawText::headish_names, crate::proofs::RulesInSelect::arms))]
fn select_start_tag(
    page: &mut Construction,
    token: &TokenKind,
    tag: Tag,
) -> Result<Outcome, ArenaError>
    requires seen { may_select page.old.ledger.history ≡ true }
    requires began { is_of_selects page.old.began ≡ true }
    requires high { 7 ≤ rank page.old.mode (Symbol.Start tag) }
    requires symbol { symbol_of token.now ≡ Symbol.Start tag }
    requires calls { Calls page.old }
    ensures fits { OnOk result (Fits page.new) }
    ensures takes { IfOk result (λ o. Steps o token.now page.old page.new) }
    ensures falls { IfOk result (λ o. Falls o (Symbol.Start tag) page.old page.new) }
    ensures grows { IfOk result (λ o. Grows o page.old page.new) }
    ensures works { IfOk result (λ o. Worked o token.now page.old page.new) }
    ensures refuses { IfErr result (λ e. Refuses token.now e page.old page.new) }
    ensures follows { IfOk result (λ o. Follows (in_select_start tag) token.now o page.old page.new) }
{
    match tag {
        // A start tag whose tag name is "html": process the token using the rules for "in body".
        Tag::Html => html_start(page, token)?,
        // A start tag whose tag name is "option".
        Tag::Option => {
            let _ = page.pop_if(Group::Named(Tag::Option));
            page.insert(token, Tag::Option)?;
        }
        // A start tag whose tag name is "optgroup".
        Tag::Optgroup => {
            close_options(page);
            page.insert(token, Tag::Optgroup)?;
        }
        // A start tag whose tag name is "hr".
        Tag::Hr => {
            close_options(page);
            page.insert_void(token, Tag::Hr)?;
        }
        // A start tag whose tag name is one of: "script", "template": process the token using the rules for "in head".
        Tag::Script => head_start(page, token, Tag::Script)?,
        Tag::Template => head_start(page, token, Tag::Template)?,
        // A start tag whose tag name is "select": it gets treated like an end tag.
        Tag::Select => {
            let _ = close_select(page);
            page.drop_token(token, Symbol::Start(Tag::Select), Cause::InSelect)?;
        }
        // A start tag whose tag name is one of: "input", "keygen", "textarea".
        _ if tag.ends_select() => {
            let outcome = leave_select(page, token, tag)?;
            return Ok(outcome);
        }
        // Anything else: ignore the token.
        _ => page.drop_token(token, Symbol::Start(tag), Cause::InSelect)?,
    }
    Ok(Outcome::Done)
}

#[tactic(auto, using(crate::proofs::Settled::reset_rules, crate::proofs::RulesInSelect::arms))]
fn select_end_tag(page: &mut Construction, token: &TokenKind, tag: Tag) -> Result<(), ArenaError>
    requires symbol { symbol_of token.now ≡ Symbol.End tag }
    requires calls { Calls page.old }
    ensures fits { OnOk result (Fits page.new) }
    ensures takes { OnOk result (Takes token.now page.old page.new) }
    ensures falls { OnOk result (Falls Done (Symbol.End tag) page.old page.new) }
    ensures grows { OnOk result (Grows Done page.old page.new) }
    ensures works { OnOk result (Worked Done token.now page.old page.new) }
    ensures refuses { IfErr result (λ e. Refuses token.now e page.old page.new) }
    ensures follows { OnOk result (Follows (in_select_end tag) token.now Done page.old page.new) }
{
    match tag {
        // An end tag whose tag name is "template": process the token using the rules for "in head".
        Tag::Template => template_end(page, token),
        // An end tag whose tag name is "option".
        Tag::Option => {
            let _ = page.pop_if(Group::Named(Tag::Option));
            page.end(token, Symbol::End(Tag::Option))
        }
        // An end tag whose tag name is "optgroup".
        Tag::Optgroup => {
            close_group(page);
            page.end(token, Symbol::End(Tag::Optgroup))
        }
        // An end tag whose tag name is "select".
        Tag::Select => {
            let _ = close_select(page);
            page.end(token, Symbol::End(Tag::Select))
        }
        // Anything else: ignore the token.
        _ => page.end(token, Symbol::End(tag)),
    }
}

/// Closes a current option, and then a current group of them.
#[tactic(auto, using(crate::proofs::RulesInSelect::arms))]
fn close_options(page: &mut Construction)
    requires opened { 0 < length page.old.stack }
    ensures rest { page.new ≡ record page.old { tree = page.new.tree; stack = page.new.stack } }
    ensures keeps { Keeps page.old page.new }
    ensures grown { Grown 0 0 0 0 0 page.old page.new }
    ensures works { Works 6 0 6 page.old page.new }
    ensures lighter { weight page.new.stack ≤ weight page.old.stack }
    ensures opened { 0 < length page.new.stack }
    ensures follows { Passes closing_options page.old page.new }
{
    let _ = page.pop_if(Group::Named(Tag::Option));
    let _ = page.pop_if(Group::Named(Tag::Optgroup));
}

/// Closes a current group of options, and the current option in it.
#[tactic(auto, using(crate::proofs::RulesInSelect::arms))]
fn close_group(page: &mut Construction)
    requires opened { 0 < length page.old.stack }
    ensures rest { page.new ≡ record page.old { tree = page.new.tree; stack = page.new.stack } }
    ensures keeps { Keeps page.old page.new }
    ensures grown { Grown 0 0 0 0 0 page.old page.new }
    ensures works { Works 6 0 6 page.old page.new }
    ensures lighter { weight page.new.stack ≤ weight page.old.stack }
    ensures opened { 0 < length page.new.stack }
    ensures follows { Passes closing_group page.old page.new }
{
    close_grouped_option(page);
    let _ = page.pop_if(Group::Named(Tag::Optgroup));
}

/// Closes a current option that stands on a group of options.
#[tactic(auto, using(crate::proofs::RulesInSelect::arms))]
fn close_grouped_option(page: &mut Construction)
    requires opened { 0 < length page.old.stack }
    ensures rest { page.new ≡ record page.old { tree = page.new.tree; stack = page.new.stack } }
    ensures keeps { Keeps page.old page.new }
    ensures grown { Grown 0 0 0 0 0 page.old page.new }
    ensures works { Works 1 0 2 page.old page.new }
    ensures lighter { weight page.new.stack ≤ weight page.old.stack }
    ensures opened { 0 < length page.new.stack }
    ensures follows { Passes closing_grouped_option page.old page.new }
{
    if page.is_option_in_group() {
        page.pop();
    }
}

/// A start tag that closes the select, and is dropped where none is in scope.
#[tactic(auto, using(crate::proofs::Settled::reset_rules, crate::proofs::RulesInSelect::arms))]
fn leave_select(page: &mut Construction, token: &TokenKind, tag: Tag) -> Result<Outcome, ArenaError>
    requires seen { may_select page.old.ledger.history ≡ true }
    requires began { is_of_selects page.old.began ≡ true }
    requires high { 7 ≤ rank page.old.mode (Symbol.Start tag) }
    requires outside { is_in_select tag ≡ false }
    requires symbol { symbol_of token.now ≡ Symbol.Start tag }
    requires calls { Calls page.old }
    ensures fits { OnOk result (Fits page.new) }
    ensures takes { IfOk result (λ o. Steps o token.now page.old page.new) }
    ensures falls { IfOk result (λ o. Falls o (Symbol.Start tag) page.old page.new) }
    ensures grows { IfOk result (λ o. Grows o page.old page.new) }
    ensures works { IfOk result (λ o. Worked o token.now page.old page.new) }
    ensures refuses { IfErr result (λ e. Refuses token.now e page.old page.new) }
    ensures follows { IfOk result (λ o. Follows (closing_select again (ignored InSelect)) token.now o page.old page.new) }
{
    if close_select(page) {
        return Ok(Outcome::Reprocess);
    }
    page.drop_token(token, Symbol::Start(tag), Cause::InSelect)?;
    Ok(Outcome::Done)
}

/// Closes the select that is in scope, sets the mode that the elements outside call for, and says whether there was one.
#[tactic(auto, using(crate::proofs::Settled::reset_rules, crate::proofs::RulesInSelect::arms))]
fn close_select(page: &mut Construction) -> bool
    requires loose { is_loose page.old.mode ≡ true }
    requires opened { 0 < length page.old.stack }
    ensures rest { page.new ≡ record page.old { tree = page.new.tree; stack = page.new.stack; mode = page.new.mode } }
    ensures keeps { Keeps page.old page.new }
    ensures grown { Grown 0 0 0 0 0 page.old page.new }
    ensures works { Works 6 0 6 page.old page.new }
    ensures lighter { weight page.new.stack ≤ weight page.old.stack }
    ensures opened { 0 < length page.new.stack }
    ensures loose { is_loose page.new.mode ≡ true }
    ensures found { result ≡ true → weight page.new.stack + 4 ≤ weight page.old.stack }
    ensures reset { result ≡ true → is_reset page.new.mode ≡ true }
    ensures follows { Chooses closing_select result page.old page.new }
{
    if !page.close_in_scope(Tag::Select, Scope::Select) {
        return false;
    }
    page.reset();
    true
}

/// The rules for the "in select in table" insertion mode (13.2.6.4.17).
#[tactic(auto, using(crate::proofs::Settled::select_rules, crate::proofs::RulesInSelectInTable::arms))]
pub(crate) fn in_select_in_table(
    page: &mut Construction,
    token: &TokenKind,
    symbol: Symbol,
) -> Result<Outcome, ArenaError>
    requires seen { is_droppable symbol ≡ true → may_select page.old.ledger.history ≡ true }
    requires began { is_droppable symbol ≡ true → is_of_selects page.old.began ≡ true }
    requires symbol { symbol_of token.now ≡ symbol }
    requires mode { page.old.mode ≡ Mode.InSelectInTable }
    requires fits { Fits page.old }
    requires quiet { page.old.ledger.kept ≡ [] }
    requires free { IsTrue (is_free page.old.ledger.history symbol) }
    ensures fits { OnOk result (Fits page.new) }
    ensures takes { IfOk result (λ o. Steps o token.now page.old page.new) }
    ensures falls { IfOk result (λ o. Falls o symbol page.old page.new) }
    ensures grows { IfOk result (λ o. Grows o page.old page.new) }
    ensures works { IfOk result (λ o. Worked o token.now page.old page.new) }
    ensures refuses { IfErr result (λ e. Refuses token.now e page.old page.new) }
    ensures follows { IfOk result (λ o. Follows (in_select_in_table symbol) token.now o page.old page.new) }
{
    match symbol {
        Symbol::Start(tag) => {
            // A start tag whose tag name is one of: "caption", "table", "tbody", "tfoot", "thead", "tr", "td", "th".
            if tag.ends_select_in_table() {
                let outcome = leave_select(page, token, tag)?;
                return Ok(outcome);
            }
            let outcome = select_rules(page, token, symbol)?;
            Ok(outcome)
        }
        Symbol::End(tag) => {
            // An end tag whose tag name is one of: "caption", "table", "tbody", "tfoot", "thead", "tr", "td", "th".
            if tag.ends_select_in_table() {
                if page.has_in_scope(tag, Scope::Table) && close_select(page) {
                    return Ok(Outcome::Reprocess);
                }
                page.end(token, symbol)?;
                return Ok(Outcome::Done);
            }
            let outcome = select_rules(page, token, symbol)?;
            Ok(outcome)
        }
        // Anything else: process the token using the rules for "in select".
        Symbol::Char(_) | Symbol::Comment | Symbol::Doctype | Symbol::Eof => {
            let outcome = select_rules(page, token, symbol)?;
            Ok(outcome)
        }
    }
}
