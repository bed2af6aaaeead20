// The modes before the head (13.2.6.4.1 to 13.2.6.4.3). White space there is dropped before any of their rules.
ghost use Rattle.std.specs.Prelude.{◌≡◌, ◌+◌, [], IfOk, OnOk, IsTrue, length, true, IfErr};
ghost use Rattle.html_ledger.specs.Symbols.{symbol_of};
ghost use Rattle.html_ledger.specs.Flags.{is_free};
ghost use Rattle.html_ledger.specs.Entries.{number_of};
ghost use Rattle.html_ledger.specs.declared.fate.Fate.TheVariants.{Made};
ghost use Rattle.html_tree.specs.declared.groups.Target.TheVariants.{Document};
ghost use Rattle.html_construction.specs.Budgets.{Refuses};
ghost use Rattle.html_construction.specs.Built.{Keeps, Takes};
ghost use Rattle.html_construction.specs.Calls.{HasFate, IsTree, counting, doctype_of, placed_at};
ghost use Rattle.html_construction.specs.Grown.{Grown};
ghost use Rattle.html_construction.specs.Quirks.{sets_quirks};
ghost use Rattle.html_construction.specs.Works.{Works};
ghost use Rattle.html_modes.specs.Fitting.{Fits};
ghost use Rattle.html_modes.specs.Plain.{Turns};
ghost use Rattle.html_modes.specs.Steps.{Falls, Grows, Steps, Worked};
ghost use Rattle.html_construction.specs.Plans.{PassesFor};
ghost use Rattle.html_modes.specs.RuleForms.{inserting_doctype};
ghost use Rattle.html_modes.specs.Rules.{Follows};
ghost use Rattle.html_modes.specs.RulesBeforeHead.{before_head};
ghost use Rattle.html_modes.specs.RulesBeforeHtml.{before_html};
ghost use Rattle.html_modes.specs.RulesInitial.{initial, setting_quirks};

use crate::modes::body_start::html_start;
use crate::outcome::Outcome;
use crate::quirks::sets_quirks;
use html_construction::{ArenaError, Construction, Mode};
use html_ledger::{Cause, Symbol};
use html_names::Tag;
use html_tokens::TokenKind;
use html_tree::Target;

/// The rules for the "initial" insertion mode (13.2.6.4.1).
#[tactic(auto, using(crate::proofs::Settled::mode_rules, crate::proofs::RulesInitial::arms))]
pub(crate) fn initial(
    page: &mut Construction,
    token: &TokenKind,
    symbol: Symbol,
) -> Result<Outcome, ArenaError>
    requires symbol { symbol_of token.now ≡ symbol }
    requires mode { page.old.mode ≡ Mode.Initial }
    requires fits { Fits page.old }
    requires quiet { page.old.ledger.kept ≡ [] }
    requires free { IsTrue (is_free page.old.ledger.history symbol) }
    ensures fits { OnOk result (Fits page.new) }
    ensures takes { IfOk result (λ o. Steps o token.now page.old page.new) }
    ensures falls { IfOk result (λ o. Falls o symbol page.old page.new) }
    ensures grows { IfOk result (λ o. Grows o page.old page.new) }
    ensures works { IfOk result (λ o. Worked o token.now page.old page.new) }
    ensures plain { IfOk result (λ o. Turns o symbol token.now page.old page.new) }
    ensures refuses { IfErr result (λ e. Refuses token.now e page.old page.new) }
    ensures follows { IfOk result (λ o. Follows (initial symbol) token.now o page.old page.new) }
{
    match symbol {
        // A comment token: insert a comment as the last child of the Document object.
        Symbol::Comment => page.insert_comment_at(token, Target::Document)?,
        // A DOCTYPE token: append a DocumentType node to the Document node, set the Document to quirks mode, or not.
        Symbol::Doctype => {
            doctype(page, token)?;
            set_quirks(page, token);
            page.set_mode(Mode::BeforeHtml);
        }
        // Anything else: set the Document to quirks mode, switch the insertion mode to "before html", reprocess.
        Symbol::Start(_) | Symbol::End(_) | Symbol::Char(_) | Symbol::Eof => {
            page.set_quirks(true);
            page.set_mode(Mode::BeforeHtml);
            return Ok(Outcome::Reprocess);
        }
    }
    Ok(Outcome::Done)
}

/// Sets the document to quirks mode where the doctype does so, and else not.
#[tactic(auto, using(crate::proofs::RulesInitial::quirks))]
fn set_quirks(page: &mut Construction, token: &TokenKind)
    ensures rest { page.new ≡ record page.old { quirks = sets_quirks token.now } }
    ensures keeps { Keeps page.old page.new }
    ensures follows { PassesFor setting_quirks token.now page.old page.new }
{
    page.set_quirks(sets_quirks(token));
}

/// The rules for the "before html" insertion mode (13.2.6.4.2).
#[tactic(auto, using(crate::proofs::Settled::mode_rules, crate::proofs::RulesBeforeHtml::arms))]
pub(crate) fn before_html(
    page: &mut Construction,
    token: &TokenKind,
    symbol: Symbol,
) -> Result<Outcome, ArenaError>
    requires symbol { symbol_of token.now ≡ symbol }
    requires mode { page.old.mode ≡ Mode.BeforeHtml }
    requires fits { Fits page.old }
    requires quiet { page.old.ledger.kept ≡ [] }
    requires free { IsTrue (is_free page.old.ledger.history symbol) }
    ensures fits { OnOk result (Fits page.new) }
    ensures takes { IfOk result (λ o. Steps o token.now page.old page.new) }
    ensures falls { IfOk result (λ o. Falls o symbol page.old page.new) }
    ensures grows { IfOk result (λ o. Grows o page.old page.new) }
    ensures works { IfOk result (λ o. Worked o token.now page.old page.new) }
    ensures plain { IfOk result (λ o. Turns o symbol token.now page.old page.new) }
    ensures refuses { IfErr result (λ e. Refuses token.now e page.old page.new) }
    ensures follows { IfOk result (λ o. Follows (before_html symbol) token.now o page.old page.new) }
{
    match symbol {
        // A comment token: insert a comment as the last child of the Document object.
        Symbol::Comment => page.insert_comment_at(token, Target::Document)?,
        // A DOCTYPE token: ignore the token.
        Symbol::Doctype => doctype(page, token)?,
        Symbol::Start(tag) => match tag {
            // A start tag whose tag name is "html": create an element, append it to the Document object.
            Tag::Html => {
                page.insert_root(token)?;
                page.set_mode(Mode::BeforeHead);
            }
            _ => {
                page.insert_implied_root()?;
                page.set_mode(Mode::BeforeHead);
                return Ok(Outcome::Reprocess);
            }
        },
        Symbol::End(tag) => {
            if tag.is_page_part() {
                page.insert_implied_root()?;
                page.set_mode(Mode::BeforeHead);
                return Ok(Outcome::Reprocess);
            }
            // Any other end tag than one of "head", "body", "html", "br": ignore the token.
            page.end(token, symbol)?;
        }
        // Anything else: create an html element, append it to the Document object, reprocess.
        Symbol::Char(_) | Symbol::Eof => {
            page.insert_implied_root()?;
            page.set_mode(Mode::BeforeHead);
            return Ok(Outcome::Reprocess);
        }
    }
    Ok(Outcome::Done)
}

/// The rules for the "before head" insertion mode (13.2.6.4.3).
#[tactic(auto, using(crate::proofs::Settled::mode_rules, crate::proofs::RulesBeforeHead::arms))]
pub(crate) fn before_head(
    page: &mut Construction,
    token: &TokenKind,
    symbol: Symbol,
) -> Result<Outcome, ArenaError>
    requires symbol { symbol_of token.now ≡ symbol }
    requires mode { page.old.mode ≡ Mode.BeforeHead }
    requires fits { Fits page.old }
    requires quiet { page.old.ledger.kept ≡ [] }
    requires free { IsTrue (is_free page.old.ledger.history symbol) }
    ensures fits { OnOk result (Fits page.new) }
    ensures takes { IfOk result (λ o. Steps o token.now page.old page.new) }
    ensures falls { IfOk result (λ o. Falls o symbol page.old page.new) }
    ensures grows { IfOk result (λ o. Grows o page.old page.new) }
    ensures works { IfOk result (λ o. Worked o token.now page.old page.new) }
    ensures plain { IfOk result (λ o. Turns o symbol token.now page.old page.new) }
    ensures refuses { IfErr result (λ e. Refuses token.now e page.old page.new) }
    ensures follows { IfOk result (λ o. Follows (before_head symbol) token.now o page.old page.new) }
{
    match symbol {
        // A comment token: insert a comment.
        Symbol::Comment => page.insert_comment(token)?,
        // A DOCTYPE token: ignore the token.
        Symbol::Doctype => doctype(page, token)?,
        Symbol::Start(tag) => match tag {
            // A start tag whose tag name is "html": process the token using the rules for "in body".
            Tag::Html => html_start(page, token)?,
            // A start tag whose tag name is "head": insert an HTML element, set the head element pointer.
            Tag::Head => {
                page.insert_head(token)?;
                page.set_mode(Mode::InHead);
            }
            _ => {
                page.insert_implied_head()?;
                page.set_mode(Mode::InHead);
                return Ok(Outcome::Reprocess);
            }
        },
        Symbol::End(tag) => {
            if tag.is_page_part() {
                page.insert_implied_head()?;
                page.set_mode(Mode::InHead);
                return Ok(Outcome::Reprocess);
            }
            // Any other end tag than one of "head", "body", "html", "br": ignore the token.
            page.end(token, symbol)?;
        }
        // Anything else: insert an HTML element for a "head" start tag token with no attributes, reprocess.
        Symbol::Char(_) | Symbol::Eof => {
            page.insert_implied_head()?;
            page.set_mode(Mode::InHead);
            return Ok(Outcome::Reprocess);
        }
    }
    Ok(Outcome::Done)
}

/// A DOCTYPE token: made where one is awaited, which is in the mode initial, and else ignored.
#[tactic(auto, using(crate::proofs::Ruled::doctype_plans))]
pub(crate) fn doctype(page: &mut Construction, token: &TokenKind) -> Result<(), ArenaError>
    requires symbol { symbol_of token.now ≡ Symbol.Doctype }
    requires quiet { page.old.ledger.kept ≡ [] }
    ensures rest { OnOk result (page.new ≡ record page.old { tree = page.new.tree; ledger = page.new.ledger }) }
    ensures takes { OnOk result (Takes token.now page.old page.new) }
    ensures quiet { OnOk result (page.new.ledger.kept ≡ []) }
    ensures grown { OnOk result (Grown 1 2 0 0 0 page.old page.new) }
    ensures works { OnOk result (Works 6 0 6 page.old page.new) }
    ensures exact { OnOk result (page.old.ledger.history.awaits_doctype ≡ true → IsTree (placed_at (doctype_of page.old token.now) Document (counting (number_of page.old.ledger + 1) page.old.tree)) page.new) }
    ensures fate { OnOk result (page.old.ledger.history.awaits_doctype ≡ true → HasFate Symbol.Doctype (Made (length page.old.tree.tree.labels)) page.old page.new) }
    ensures refuses { IfErr result (λ e. Refuses token.now e page.old page.new) }
    ensures follows { OnOk result (PassesFor inserting_doctype token.now page.old page.new) }
{
    if page.history().awaits_doctype {
        return page.insert_doctype(token);
    }
    page.drop_token(token, Symbol::Doctype, Cause::Misplaced)
}
