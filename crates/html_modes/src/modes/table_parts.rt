// The modes in caption and in column group (13.2.6.4.11 and 13.2.6.4.12).
ghost use Rattle.std.specs.Prelude.{◌≡◌, ◌+◌, ◌<◌, ◌≤◌, [], IfOk, OnOk, IsTrue, length, true, if◌then◌else◌, IfErr};
ghost use Rattle.html_ledger.specs.Symbols.{symbol_of};
ghost use Rattle.html_ledger.specs.Flags.{is_free};
ghost use Rattle.html_construction.specs.Budgets.{Refuses};
ghost use Rattle.html_construction.specs.Built.{Keeps};
ghost use Rattle.html_construction.specs.Grown.{Grown};
ghost use Rattle.html_construction.specs.Works.{Works};
ghost use Rattle.html_construction.specs.Weights.{weight};
ghost use Rattle.html_modes.specs.Fitting.{Fits, Calls};
ghost use Rattle.html_modes.specs.Steps.{Falls, Grows, Steps, Worked};
ghost use Rattle.html_modes.specs.Ranks.{rank};
ghost use Rattle.html_construction.specs.Plans.{Chooses};
ghost use Rattle.html_modes.specs.Rules.{Follows};
ghost use Rattle.html_modes.specs.RulesInCaption.{closing_caption, in_caption, in_caption_end, in_caption_start};
ghost use Rattle.html_modes.specs.RulesInColumnGroup.{closing_column_group, in_column_group, in_column_group_end, leaving_column_group};

use crate::guards::is_outside_column_group;
use crate::modes::body::body_rules;
use crate::modes::body_start::html_start;
use crate::modes::initial::doctype;
use crate::modes::template::{template_end, template_start_at};
use crate::outcome::Outcome;
use html_construction::{ArenaError, Construction, Mode};
use html_ledger::{Cause, Symbol, is_space};
use html_names::{Scope, Tag};
use html_tokens::TokenKind;
use html_tree::Group;

/// The rules for the "in caption" insertion mode (13.2.6.4.11).
#[tactic(auto, using(crate::proofs::Settled::part_rules, crate::proofs::RulesInCaption::arms))]
pub(crate) fn in_caption(
    page: &mut Construction,
    token: &TokenKind,
    symbol: Symbol,
) -> Result<Outcome, ArenaError>
    requires symbol { symbol_of token.now ≡ symbol }
    requires mode { page.old.mode ≡ Mode.InCaption }
    requires fits { Fits page.old }
    requires quiet { page.old.ledger.kept ≡ [] }
    requires free { IsTrue (is_free page.old.ledger.history symbol) }
    ensures fits { OnOk result (Fits page.new) }
    ensures takes { IfOk result (λ o. Steps o token.now page.old page.new) }
    ensures falls { IfOk result (λ o. Falls o symbol page.old page.new) }
    ensures grows { IfOk result (λ o. Grows o page.old page.new) }
    ensures works { IfOk result (λ o. Worked o token.now page.old page.new) }
    ensures refuses { IfErr result (λ e. Refuses token.now e page.old page.new) }
    ensures follows { IfOk result (λ o. Follows (in_caption symbol) token.now o page.old page.new) }
{
    match symbol {
        Symbol::Start(tag) => {
            let outcome = start_in_caption(page, token, tag)?;
            Ok(outcome)
        }
        Symbol::End(tag) => {
            let outcome = end_in_caption(page, token, tag)?;
            Ok(outcome)
        }
        // Anything else: process the token using the rules for "in body".
        Symbol::Char(_) | Symbol::Comment | Symbol::Doctype | Symbol::Eof => {
            let outcome = body_rules(page, token, symbol)?;
            Ok(outcome)
        }
    }
}

#[tactic(auto, using(crate::proofs::Settled::part_rules, crate::proofs::RulesInCaption::arms))]
fn start_in_caption(
    page: &mut Construction,
    token: &TokenKind,
    tag: Tag,
) -> Result<Outcome, ArenaError>
    requires mode { page.old.mode ≡ Mode.InCaption }
    requires symbol { symbol_of token.now ≡ Symbol.Start tag }
    requires calls { Calls page.old }
    ensures fits { OnOk result (Fits page.new) }
    ensures takes { IfOk result (λ o. Steps o token.now page.old page.new) }
    ensures falls { IfOk result (λ o. Falls o (Symbol.Start tag) page.old page.new) }
    ensures grows { IfOk result (λ o. Grows o page.old page.new) }
    ensures works { IfOk result (λ o. Worked o token.now page.old page.new) }
    ensures refuses { IfErr result (λ e. Refuses token.now e page.old page.new) }
    ensures follows { IfOk result (λ o. Follows (in_caption_start tag) token.now o page.old page.new) }
{
    // A start tag whose tag name is one of: "caption", "col", "colgroup", "tbody", "td", "tfoot", "th", "thead", "tr".
    if tag.is_table_piece() {
        if close_caption(page) {
            return Ok(Outcome::Reprocess);
        }
        page.drop_token(token, Symbol::Start(tag), Cause::Misplaced)?;
        return Ok(Outcome::Done);
    }
    // Anything else: process the token using the rules for "in body".
    let outcome = body_rules(page, token, Symbol::Start(tag))?;
    Ok(outcome)
}

#[tactic(auto, using(crate::proofs::Settled::part_rules, crate::proofs::RulesInCaption::arms))]
fn end_in_caption(
    page: &mut Construction,
    token: &TokenKind,
    tag: Tag,
) -> Result<Outcome, ArenaError>
    requires mode { page.old.mode ≡ Mode.InCaption }
    requires symbol { symbol_of token.now ≡ Symbol.End tag }
    requires calls { Calls page.old }
    ensures fits { OnOk result (Fits page.new) }
    ensures takes { IfOk result (λ o. Steps o token.now page.old page.new) }
    ensures falls { IfOk result (λ o. Falls o (Symbol.End tag) page.old page.new) }
    ensures grows { IfOk result (λ o. Grows o page.old page.new) }
    ensures works { IfOk result (λ o. Worked o token.now page.old page.new) }
    ensures refuses { IfErr result (λ e. Refuses token.now e page.old page.new) }
    ensures follows { IfOk result (λ o. Follows (in_caption_end tag) token.now o page.old page.new) }
{
    match tag {
        // An end tag whose tag name is "caption".
        Tag::Caption => {
            let _ = close_caption(page);
            page.end(token, Symbol::End(Tag::Caption))?;
        }
        // An end tag whose tag name is "table".
        Tag::Table => {
            if close_caption(page) {
                return Ok(Outcome::Reprocess);
            }
            page.end(token, Symbol::End(Tag::Table))?;
        }
        // An end tag whose tag name is one of: "body", "col", "colgroup", "html", "tbody", "td", "tfoot", "th",
        // "thead", "tr": ignore the token.
        _ if tag.is_ignored_in_table() => page.end(token, Symbol::End(tag))?,
        // Anything else: process the token using the rules for "in body".
        _ => {
            let outcome = body_rules(page, token, Symbol::End(tag))?;
            return Ok(outcome);
        }
    }
    Ok(Outcome::Done)
}

/// Closes the caption that is in scope and goes back to the table, and says whether there was one.
fn close_caption(page: &mut Construction) -> bool
    requires opened { 0 < length page.old.stack }
    requires listed { length page.old.tree.list ≤ length page.old.ledger.fates }
    ensures rest { page.new ≡ record page.old { tree = page.new.tree; stack = page.new.stack; mode = page.new.mode } }
    ensures keeps { Keeps page.old page.new }
    ensures grown { Grown 0 0 0 0 0 page.old page.new }
    ensures works { Works 6 0 6 page.old page.new }
    ensures lighter { weight page.new.stack ≤ weight page.old.stack }
    ensures opened { 0 < length page.new.stack }
    ensures mode { page.new.mode ≡ (if result then Mode.InTable else page.old.mode) }
    ensures found { result ≡ true → weight page.new.stack + 4 ≤ weight page.old.stack }
    ensures follows { Chooses closing_caption result page.old page.new }
{
    if !page.close_in_scope(Tag::Caption, Scope::Table) {
        return false;
    }
    page.clear_to_marker();
    page.set_mode(Mode::InTable);
    true
}

/// The rules for the "in column group" insertion mode (13.2.6.4.12).
#[tactic(auto, using(crate::proofs::Settled::part_rules, crate::proofs::RulesInColumnGroup::arms))]
pub(crate) fn in_column_group(
    page: &mut Construction,
    token: &TokenKind,
    symbol: Symbol,
) -> Result<Outcome, ArenaError>
    requires symbol { symbol_of token.now ≡ symbol }
    requires mode { page.old.mode ≡ Mode.InColumnGroup }
    requires fits { Fits page.old }
    requires quiet { page.old.ledger.kept ≡ [] }
    requires free { IsTrue (is_free page.old.ledger.history symbol) }
    ensures fits { OnOk result (Fits page.new) }
    ensures takes { IfOk result (λ o. Steps o token.now page.old page.new) }
    ensures falls { IfOk result (λ o. Falls o symbol page.old page.new) }
    ensures grows { IfOk result (λ o. Grows o page.old page.new) }
    ensures works { IfOk result (λ o. Worked o token.now page.old page.new) }
    ensures refuses { IfErr result (λ e. Refuses token.now e page.old page.new) }
    ensures follows { IfOk result (λ o. Follows (in_column_group symbol) token.now o page.old page.new) }
{
    match symbol {
        Symbol::Char(c) => {
            // A character token that is one of U+0009, U+000A, U+000C, U+000D, U+0020: insert the character.
            if is_space(c) {
                page.insert_char(token, c)?;
                return Ok(Outcome::Done);
            }
            // Anything else: pop a current colgroup and reprocess in "in table", or ignore the token.
            let outcome = leave_column_group(page, token, symbol)?;
            return Ok(outcome);
        }
        // A comment token: insert a comment.
        Symbol::Comment => page.insert_comment(token)?,
        // A DOCTYPE token: ignore the token.
        Symbol::Doctype => doctype(page, token)?,
        Symbol::Start(tag) => match tag {
            // A start tag whose tag name is "html": process the token using the rules for "in body".
            Tag::Html => html_start(page, token)?,
            // A start tag whose tag name is "col": insert an HTML element.
            Tag::Col => page.insert_void(token, Tag::Col)?,
            // A start tag whose tag name is "template": process the token using the rules for "in head".
            Tag::Template => {
                let target = page.here();
                template_start_at(page, token, target)?;
            }
            _ => {
                let outcome = leave_column_group(page, token, symbol)?;
                return Ok(outcome);
            }
        },
        Symbol::End(tag) => {
            let outcome = end_in_column_group(page, token, tag)?;
            return Ok(outcome);
        }
        // An end-of-file token: process the token using the rules for "in body".
        Symbol::Eof => {
            let outcome = body_rules(page, token, symbol)?;
            return Ok(outcome);
        }
    }
    Ok(Outcome::Done)
}

#[tactic(auto, using(crate::proofs::Settled::part_rules, crate::proofs::RulesInColumnGroup::arms))]
fn end_in_column_group(
    page: &mut Construction,
    token: &TokenKind,
    tag: Tag,
) -> Result<Outcome, ArenaError>
    requires mode { page.old.mode ≡ Mode.InColumnGroup }
    requires symbol { symbol_of token.now ≡ Symbol.End tag }
    requires calls { Calls page.old }
    ensures fits { OnOk result (Fits page.new) }
    ensures takes { IfOk result (λ o. Steps o token.now page.old page.new) }
    ensures falls { IfOk result (λ o. Falls o (Symbol.End tag) page.old page.new) }
    ensures grows { IfOk result (λ o. Grows o page.old page.new) }
    ensures works { IfOk result (λ o. Worked o token.now page.old page.new) }
    ensures refuses { IfErr result (λ e. Refuses token.now e page.old page.new) }
    ensures follows { IfOk result (λ o. Follows (in_column_group_end tag) token.now o page.old page.new) }
{
    match tag {
        // An end tag whose tag name is "colgroup".
        Tag::Colgroup => {
            let _ = close_column_group(page);
            page.end(token, Symbol::End(Tag::Colgroup))?;
        }
        // An end tag whose tag name is "col": ignore the token.
        Tag::Col => page.end(token, Symbol::End(Tag::Col))?,
        // An end tag whose tag name is "template": process the token using the rules for "in head".
        Tag::Template => template_end(page, token)?,
        // Anything else: pop a current colgroup and reprocess in "in table", or ignore the token.
        _ => {
            if close_column_group(page) {
                return Ok(Outcome::Reprocess);
            }
            page.end(token, Symbol::End(tag))?;
        }
    }
    Ok(Outcome::Done)
}

/// Closes the column group where it is the current node and goes back to the table, and says whether it was.
fn close_column_group(page: &mut Construction) -> bool
    requires opened { 0 < length page.old.stack }
    ensures rest { page.new ≡ record page.old { tree = page.new.tree; stack = page.new.stack; mode = page.new.mode } }
    ensures keeps { Keeps page.old page.new }
    ensures grown { Grown 0 0 0 0 0 page.old page.new }
    ensures works { Works 6 0 6 page.old page.new }
    ensures lighter { weight page.new.stack ≤ weight page.old.stack }
    ensures opened { 0 < length page.new.stack }
    ensures mode { page.new.mode ≡ (if result then Mode.InTable else page.old.mode) }
    ensures found { result ≡ true → weight page.new.stack + 4 ≤ weight page.old.stack }
    ensures follows { Chooses closing_column_group result page.old page.new }
{
    if !page.pop_if(Group::Named(Tag::Colgroup)) {
        return false;
    }
    page.set_mode(Mode::InTable);
    true
}

/// A token that closes the column group, and is dropped where none is open. (In a real run a col was made then, or the context is a
/// column group, and the token came in this mode; else the rules of the body go on.)
#[tactic(auto, using(crate::proofs::Settled::part_rules, crate::proofs::RulesInColumnGroup::arms))]
fn leave_column_group(
    page: &mut Construction,
    token: &TokenKind,
    symbol: Symbol,
) -> Result<Outcome, ArenaError>
    requires mode { page.old.mode ≡ Mode.InColumnGroup }
    requires high { 2 ≤ rank Mode.InColumnGroup symbol }
    requires back { rank Mode.InTable symbol < rank Mode.InColumnGroup symbol + 4 }
    requires symbol { symbol_of token.now ≡ symbol }
    requires calls { Calls page.old }
    ensures fits { OnOk result (Fits page.new) }
    ensures takes { IfOk result (λ o. Steps o token.now page.old page.new) }
    ensures falls { IfOk result (λ o. Falls o symbol page.old page.new) }
    ensures grows { IfOk result (λ o. Grows o page.old page.new) }
    ensures works { IfOk result (λ o. Worked o token.now page.old page.new) }
    ensures refuses { IfErr result (λ e. Refuses token.now e page.old page.new) }
    ensures follows { IfOk result (λ o. Follows leaving_column_group token.now o page.old page.new) }
{
    if close_column_group(page) {
        return Ok(Outcome::Reprocess);
    }
    if !is_outside_column_group(page, symbol) {
        page.set_mode(Mode::InBody);
        return Ok(Outcome::Reprocess);
    }
    page.drop_token(token, symbol, Cause::InColumnGroup)?;
    Ok(Outcome::Done)
}
