// The mode text (13.2.6.4.8).
ghost use Rattle.std.specs.Prelude.{◌≡◌, ◌<◌, ◌≤◌, ◌∷◌, [], IfOk, OnOk, IsTrue, false, length, IfErr, true};
ghost use Rattle.html_ledger.specs.Symbols.{symbol_of};
ghost use Rattle.html_ledger.specs.Flags.{is_free};
ghost use Rattle.html_construction.specs.Budgets.{Refuses};
ghost use Rattle.html_construction.specs.Built.{Keeps, Takes};
ghost use Rattle.html_construction.specs.Grown.{Grown};
ghost use Rattle.html_construction.specs.Works.{Works};
ghost use Rattle.html_construction.specs.Weights.{weight, weight_of};
ghost use Rattle.html_modes.specs.Fitting.{Fits, Calls};
ghost use Rattle.html_modes.specs.Steps.{Falls, Grows, Steps, Worked};
ghost use Rattle.html_modes.specs.declared.outcome.Outcome.TheVariants.{Done};
ghost use Rattle.html_modes.specs.RawText.{Ends, IsLeft};
ghost use Rattle.html_construction.specs.Tokens.{opens_own};
ghost use Rattle.html_tree.specs.Seats.{is_part};
ghost use Rattle.html_tree.specs.declared.groups.Target.TheVariants.{Current};
ghost use Rattle.html_construction.specs.Plans.{Passes};
ghost use Rattle.html_construction.specs.Words.{Insert, InsertAt};
ghost use Rattle.html_modes.specs.Rules.{Follows};
ghost use Rattle.html_modes.specs.RulesInHead.{holding_text};
ghost use Rattle.html_modes.specs.RulesText.{leaving_text, text, text_char};

use crate::outcome::Outcome;
use html_construction::{ArenaError, Construction, Mode};
use html_ledger::{Cause, Symbol};
use html_names::Tag;
use html_tokens::TokenKind;
use html_tree::Target;

/// A start tag of an element that holds text alone.
#[tactic(auto, using(crate::proofs::Settled::head_rules, crate::proofs::RulesText::arms))]
pub(crate) fn text_start(
    page: &mut Construction,
    token: &TokenKind,
    tag: Tag,
) -> Result<(), ArenaError>
    requires small { weight_of tag ≤ 4 }
    requires named { opens_own tag ≡ true }
    requires part { is_part tag ≡ false }
    requires symbol { symbol_of token.now ≡ Symbol.Start tag }
    requires calls { Calls page.old }
    ensures fits { OnOk result (Fits page.new) }
    ensures takes { OnOk result (Takes token.now page.old page.new) }
    ensures falls { OnOk result (Falls Done (Symbol.Start tag) page.old page.new) }
    ensures grown { OnOk result (Grown 1 2 0 0 0 page.old page.new) }
    ensures works { OnOk result (Works 6 0 6 page.old page.new) }
    ensures refuses { IfErr result (λ e. Refuses token.now e page.old page.new) }
    ensures follows { OnOk result (Follows (holding_text Insert) token.now Done page.old page.new) }
{
    let target = page.here();
    text_start_at(page, token, tag, target)
}

/// The same, with the element at a target.
#[tactic(auto, using(crate::proofs::Settled::head_rules, crate::proofs::RulesText::arms))]
pub(crate) fn text_start_at(
    page: &mut Construction,
    token: &TokenKind,
    tag: Tag,
    target: Target,
) -> Result<(), ArenaError>
    requires small { weight_of tag ≤ 4 }
    requires named { opens_own tag ≡ true }
    requires part { is_part tag ≡ false }
    requires symbol { symbol_of token.now ≡ Symbol.Start tag }
    requires calls { Calls page.old }
    ensures fits { OnOk result (Fits page.new) }
    ensures takes { OnOk result (Takes token.now page.old page.new) }
    ensures falls { OnOk result (Falls Done (Symbol.Start tag) page.old page.new) }
    ensures grown { OnOk result (Grown 1 2 0 0 0 page.old page.new) }
    ensures works { OnOk result (Works 6 0 6 page.old page.new) }
    ensures refuses { IfErr result (λ e. Refuses token.now e page.old page.new) }
    ensures follows { OnOk result (Follows (holding_text (InsertAt target)) token.now Done page.old page.new) }
    ensures here { OnOk result (target ≡ Current page.old.fostering → Follows (holding_text Insert) token.now Done page.old page.new) }
{
    page.insert_at(token, tag, target)?;
    page.enter(Mode::Text);
    Ok(())
}

/// The rules for the "text" insertion mode (13.2.6.4.8).
#[tactic(auto, using(crate::proofs::Settled::text_rules, crate::proofs::RawText::text_texts, crate::proofs::RulesText::arms))]
pub(crate) fn text(
    page: &mut Construction,
    token: &TokenKind,
    symbol: Symbol,
) -> Result<Outcome, ArenaError>
    requires symbol { symbol_of token.now ≡ symbol }
    requires mode { page.old.mode ≡ Mode.Text }
    requires fits { Fits page.old }
    requires quiet { page.old.ledger.kept ≡ [] }
    requires free { IsTrue (is_free page.old.ledger.history symbol) }
    ensures fits { OnOk result (Fits page.new) }
    ensures takes { IfOk result (λ o. Steps o token.now page.old page.new) }
    ensures falls { IfOk result (λ o. Falls o symbol page.old page.new) }
    ensures grows { IfOk result (λ o. Grows o page.old page.new) }
    ensures works { IfOk result (λ o. Worked o token.now page.old page.new) }
    ensures ends { IfOk result (λ o. Ends o symbol token.now page.old page.new) }
    ensures refuses { IfErr result (λ e. Refuses token.now e page.old page.new) }
    ensures follows { IfOk result (λ o. Follows (text symbol) token.now o page.old page.new) }
{
    match symbol {
        // A character token: insert the token's character. (No tokenizer gives U+0000 here.)
        Symbol::Char(c) => insert_text_char(page, token, c)?,
        // Any other end tag: pop the current node, switch the insertion mode to the original insertion mode.
        Symbol::End(_) => {
            leave_text(page);
            page.end(token, symbol)?;
        }
        // An end-of-file token: pop the current node, switch the insertion mode to the original insertion mode,
        // reprocess. (Of these a tokenizer gives the end alone.)
        Symbol::Start(_) | Symbol::Comment | Symbol::Doctype | Symbol::Eof => {
            leave_text(page);
            return Ok(Outcome::Reprocess);
        }
    }
    Ok(Outcome::Done)
}

/// Closes the element that holds text alone, and comes back to the mode in which it began.
#[tactic(auto, using(crate::proofs::Settled::text_rules, crate::proofs::RulesText::arms))]
fn leave_text(page: &mut Construction)
    requires mode { page.old.mode ≡ Mode.Text }
    requires fits { Fits page.old }
    ensures rest { page.new ≡ record page.old { tree = page.new.tree; stack = page.new.stack; mode = page.old.original } }
    ensures keeps { Keeps page.old page.new }
    ensures grown { Grown 0 0 0 0 0 page.old page.new }
    ensures works { Works 6 0 6 page.old page.new }
    ensures lighter { weight page.new.stack ≤ weight page.old.stack }
    ensures opened { 0 < length page.new.stack }
    ensures left { IsLeft page.old.tree page.new.tree }
    ensures follows { Passes leaving_text page.old page.new }
{
    page.laws();
    page.pop();
    page.leave();
}

/// A code point of text, which is dropped where it is U+0000.
#[tactic(auto, using(crate::proofs::RulesText::arms))]
pub(crate) fn insert_text_char(
    page: &mut Construction,
    token: &TokenKind,
    c: char,
) -> Result<(), ArenaError>
    requires opened { 0 < length page.old.stack }
    requires free { IsTrue (is_free page.old.ledger.history (Symbol.Char c)) }
    requires symbol { symbol_of token.now ≡ Symbol.Char c }
    requires quiet { page.old.ledger.kept ≡ [] }
    ensures rest { OnOk result (page.new ≡ record page.old { tree = page.new.tree; ledger = page.new.ledger }) }
    ensures takes { OnOk result (Takes token.now page.old page.new) }
    ensures quiet { OnOk result (page.new.ledger.kept ≡ []) }
    ensures grown { OnOk result (Grown 1 1 0 0 0 page.old page.new) }
    ensures works { OnOk result (Works 6 0 6 page.old page.new) }
    ensures refuses { IfErr result (λ e. Refuses token.now e page.old page.new) }
    ensures follows { OnOk result (Follows (text_char c) token.now Done page.old page.new) }
{
    if c == '\0' {
        return page.drop_token(token, Symbol::Char(c), Cause::Null);
    }
    page.insert_char(token, c)
}
