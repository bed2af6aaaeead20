// The modes after the body (13.2.6.4.19 and 13.2.6.4.22).
ghost use Rattle.std.specs.Prelude.{◌≡◌, [], IfOk, None, OnOk, IsTrue, IfErr};
ghost use Rattle.html_ledger.specs.Symbols.{symbol_of};
ghost use Rattle.html_ledger.specs.Flags.{is_free};
ghost use Rattle.html_ledger.specs.Entries.{ended};
ghost use Rattle.html_construction.specs.Budgets.{Refuses};
ghost use Rattle.html_construction.specs.Built.{Takes};
ghost use Rattle.html_construction.specs.Calls.{is_idle};
ghost use Rattle.html_modes.specs.Fitting.{Fits, Calls};
ghost use Rattle.html_modes.specs.Plain.{Turns};
ghost use Rattle.html_modes.specs.Steps.{Falls, Grows, Steps, Worked};
ghost use Rattle.html_modes.specs.declared.outcome.Outcome.TheVariants.{Done};
ghost use Rattle.html_construction.specs.Plans.{Ask, Do};
ghost use Rattle.html_construction.specs.Words.{IsFragment, Switch};
ghost use Rattle.html_modes.specs.RuleForms.{done_with};
ghost use Rattle.html_modes.specs.Rules.{Follows};
ghost use Rattle.html_modes.specs.RulesAfterAfterBody.{after_after_body};
ghost use Rattle.html_modes.specs.RulesAfterBody.{after_body};

use crate::modes::body::body_char;
use crate::modes::body_start::html_start;
use crate::modes::initial::doctype;
use crate::outcome::Outcome;
use html_construction::{ArenaError, Construction, Mode};
use html_ledger::{Symbol, is_space};
use html_names::Tag;
use html_tokens::TokenKind;
use html_tree::Target;

/// The rules for the "after body" insertion mode (13.2.6.4.19).
#[tactic(auto, using(crate::proofs::Settled::mode_rules, crate::proofs::RulesAfterBody::arms))]
pub(crate) fn after_body(
    page: &mut Construction,
    token: &TokenKind,
    symbol: Symbol,
) -> Result<Outcome, ArenaError>
    requires symbol { symbol_of token.now ≡ symbol }
    requires mode { page.old.mode ≡ Mode.AfterBody }
    requires fits { Fits page.old }
    requires quiet { page.old.ledger.kept ≡ [] }
    requires free { IsTrue (is_free page.old.ledger.history symbol) }
    ensures fits { OnOk result (Fits page.new) }
    ensures takes { IfOk result (λ o. Steps o token.now page.old page.new) }
    ensures falls { IfOk result (λ o. Falls o symbol page.old page.new) }
    ensures grows { IfOk result (λ o. Grows o page.old page.new) }
    ensures works { IfOk result (λ o. Worked o token.now page.old page.new) }
    ensures plain { IfOk result (λ o. Turns o symbol token.now page.old page.new) }
    ensures refuses { IfErr result (λ e. Refuses token.now e page.old page.new) }
    ensures follows { IfOk result (λ o. Follows (after_body symbol) token.now o page.old page.new) }
{
    match symbol {
        Symbol::Char(c) => {
            // Anything else: switch the insertion mode to "in body", reprocess.
            if !is_space(c) {
                page.set_mode(Mode::InBody);
                return Ok(Outcome::Reprocess);
            }
            // A character token that is one of U+0009, U+000A, U+000C, U+000D, U+0020: process the token using the rules for "in body".
            body_char(page, token, c)?;
        }
        // A comment token: insert a comment as the last child of the html element.
        Symbol::Comment => page.insert_comment_at(token, Target::First)?,
        // A DOCTYPE token: ignore the token.
        Symbol::Doctype => doctype(page, token)?,
        Symbol::Start(tag) => match tag {
            // A start tag whose tag name is "html": process the token using the rules for "in body".
            Tag::Html => html_start(page, token)?,
            _ => {
                page.set_mode(Mode::InBody);
                return Ok(Outcome::Reprocess);
            }
        },
        Symbol::End(tag) => match tag {
            // An end tag whose tag name is "html": in a fragment ignore the token; else switch the insertion mode to
            // "after after body".
            Tag::Html => end_page(page, token)?,
            _ => {
                page.set_mode(Mode::InBody);
                return Ok(Outcome::Reprocess);
            }
        },
        // An end-of-file token: stop parsing.
        Symbol::Eof => page.end(token, symbol)?,
    }
    Ok(Outcome::Done)
}

/// The end tag of the root, after the body.
#[tactic(auto, using(crate::proofs::Settled::mode_rules, crate::proofs::RulesAfterBody::arms))]
fn end_page(page: &mut Construction, token: &TokenKind) -> Result<(), ArenaError>
    requires symbol { symbol_of token.now ≡ Symbol.End Tag.Html }
    requires calls { Calls page.old }
    ensures fits { OnOk result (Fits page.new) }
    ensures takes { OnOk result (Takes token.now page.old page.new) }
    ensures falls { OnOk result (Falls Done (Symbol.End Tag.Html) page.old page.new) }
    ensures grows { OnOk result (Grows Done page.old page.new) }
    ensures works { OnOk result (Worked Done token.now page.old page.new) }
    ensures rest { OnOk result (page.new ≡ record page.old { ledger = page.new.ledger; mode = page.new.mode }) }
    ensures document { OnOk result (page.old.context ≡ None → page.new.mode ≡ Mode.AfterAfterBody) }
    ensures ended { OnOk result (page.new.ledger ≡ ended page.old.ledger (Symbol.End Tag.Html) (is_idle page.old)) }
    ensures refuses { IfErr result (λ e. Refuses token.now e page.old page.new) }
    ensures follows { OnOk result (Follows (Ask IsFragment done_with (Do (Switch Mode.AfterAfterBody) done_with)) token.now Done page.old page.new) }
{
    if page.is_fragment() {
        return page.end(token, Symbol::End(Tag::Html));
    }
    page.set_mode(Mode::AfterAfterBody);
    page.end(token, Symbol::End(Tag::Html))
}

/// The rules for the "after after body" insertion mode (13.2.6.4.22).
#[tactic(auto, using(crate::proofs::Settled::mode_rules, crate::proofs::RulesAfterAfterBody::arms))]
pub(crate) fn after_after_body(
    page: &mut Construction,
    token: &TokenKind,
    symbol: Symbol,
) -> Result<Outcome, ArenaError>
    requires symbol { symbol_of token.now ≡ symbol }
    requires mode { page.old.mode ≡ Mode.AfterAfterBody }
    requires fits { Fits page.old }
    requires quiet { page.old.ledger.kept ≡ [] }
    requires free { IsTrue (is_free page.old.ledger.history symbol) }
    ensures fits { OnOk result (Fits page.new) }
    ensures takes { IfOk result (λ o. Steps o token.now page.old page.new) }
    ensures falls { IfOk result (λ o. Falls o symbol page.old page.new) }
    ensures grows { IfOk result (λ o. Grows o page.old page.new) }
    ensures works { IfOk result (λ o. Worked o token.now page.old page.new) }
    ensures plain { IfOk result (λ o. Turns o symbol token.now page.old page.new) }
    ensures refuses { IfErr result (λ e. Refuses token.now e page.old page.new) }
    ensures follows { IfOk result (λ o. Follows (after_after_body symbol) token.now o page.old page.new) }
{
    match symbol {
        Symbol::Char(c) => {
            // Anything else: switch the insertion mode to "in body", reprocess.
            if !is_space(c) {
                page.set_mode(Mode::InBody);
                return Ok(Outcome::Reprocess);
            }
            // A character token that is one of U+0009, U+000A, U+000C, U+000D, U+0020: process the token using the rules for "in body".
            body_char(page, token, c)?;
        }
        // A comment token: insert a comment as the last child of the Document object.
        Symbol::Comment => page.insert_comment_at(token, Target::Document)?,
        // A DOCTYPE token: ignore the token.
        Symbol::Doctype => doctype(page, token)?,
        Symbol::Start(tag) => match tag {
            // A start tag whose tag name is "html": process the token using the rules for "in body".
            Tag::Html => html_start(page, token)?,
            _ => {
                page.set_mode(Mode::InBody);
                return Ok(Outcome::Reprocess);
            }
        },
        // Anything else, as above.
        Symbol::End(_) => {
            page.set_mode(Mode::InBody);
            return Ok(Outcome::Reprocess);
        }
        // An end-of-file token: stop parsing.
        Symbol::Eof => page.end(token, symbol)?,
    }
    Ok(Outcome::Done)
}
