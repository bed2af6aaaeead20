// The mode in table text (13.2.6.4.10).
ghost use Rattle.std.specs.Prelude.{◌≡◌, ◌+◌, ◌<◌, ◌≤◌, [], IfOk, IsTrue, OnOk, length, IfErr, if◌then◌else◌};
ghost use Rattle.html_ledger.specs.Flags.{is_free};
ghost use Rattle.html_ledger.specs.Symbols.{symbol_of};
ghost use Rattle.html_construction.specs.Budgets.{Refuses, RefusesAny};
ghost use Rattle.html_construction.specs.Built.{Keeps, Takes};
ghost use Rattle.html_construction.specs.Grown.{Grown};
ghost use Rattle.html_construction.specs.Works.{Works};
ghost use Rattle.html_construction.specs.Weights.{weight};
ghost use Rattle.html_modes.specs.Fitting.{Fits};
ghost use Rattle.html_modes.specs.Steps.{Counted, Counts, Falls, Spends, Steps};
ghost use Rattle.html_modes.specs.declared.outcome.Outcome.TheVariants.{Done};
ghost use Rattle.html_construction.specs.Plans.{Do};
ghost use Rattle.html_construction.specs.Words.{InsertCharacter, is_null_or_space};
ghost use Rattle.std.specs.List.{list_all};
ghost use Rattle.html_modes.specs.RuleForms.{fostering, over};
ghost use Rattle.html_modes.specs.Rules.{Follows, FollowsPart};
ghost use Rattle.html_modes.specs.RulesInTableText.{in_table_text, settled_by, settling};

use crate::modes::body::body_char;
use crate::outcome::Outcome;
use html_construction::{ArenaError, Construction, Mode};
use html_ledger::{Cause, Symbol, is_space};
use html_tokens::TokenKind;

/// The rules for the "in table text" insertion mode (13.2.6.4.10): code points are kept until another token comes.
#[tactic(auto, using(crate::proofs::Settled::table_text_rules, crate::proofs::RulesInTableText::arms))]
pub(crate) fn in_table_text(
    page: &mut Construction,
    token: &TokenKind,
    symbol: Symbol,
) -> Result<Outcome, ArenaError>
    requires symbol { symbol_of token.now ≡ symbol }
    requires mode { page.old.mode ≡ Mode.InTableText }
    requires fits { Fits page.old }
    ensures fits { OnOk result (Fits page.new) }
    ensures takes { IfOk result (λ o. Steps o token.now page.old page.new) }
    ensures falls { IfOk result (λ o. Falls o symbol page.old page.new) }
    ensures spends { OnOk result (Spends 2 page.old page.new) }
    ensures counts { IfOk result (λ o. Counted 24 o token.now page.old page.new) }
    ensures refuses { IfErr result (λ e. Refuses token.now e page.old page.new) }
    ensures follows { IfOk result (λ o. Follows (in_table_text symbol) token.now o page.old page.new) }
{
    match symbol {
        // A character token: append the character token to the pending table character tokens list.
        Symbol::Char(c) => {
            page.keep(token, c)?;
            Ok(Outcome::Done)
        }
        // Anything else: settle the pending table character tokens, switch the insertion mode to the original
        // insertion mode, reprocess.
        Symbol::Start(_) | Symbol::End(_) | Symbol::Comment | Symbol::Doctype | Symbol::Eof => {
            flush(page)?;
            page.begin_own_part();
            page.leave();
            Ok(Outcome::Reprocess)
        }
    }
}

/// Gives the kept code points their fates: they stay in the table where all are white space, and are put before it else.
fn flush(page: &mut Construction) -> Result<(), ArenaError>
    requires opened { 0 < length page.old.stack }
    requires listed { length page.old.tree.list ≤ length page.old.ledger.fates }
    ensures rest { OnOk result (page.new ≡ record page.old { tree = page.new.tree; ledger = page.new.ledger; stack = page.new.stack; frameset_ok = page.new.frameset_ok; fostering = page.new.fostering }) }
    ensures keeps { OnOk result (Keeps page.old page.new) }
    ensures quiet { OnOk result (page.new.ledger.kept ≡ []) }
    ensures spends { OnOk result (Spends 0 page.old page.new) }
    ensures counts { OnOk result (Counts 24 0 0 page.old page.new) }
    ensures listed { OnOk result (length page.new.tree.list ≤ length page.new.ledger.fates) }
    ensures lighter { OnOk result (weight page.new.stack ≤ weight page.old.stack) }
    ensures opened { OnOk result (0 < length page.new.stack) }
    ensures refuses { IfErr result (λ e. RefusesAny e page.old page.new) }
    ensures follows { OnOk result ((t : _) → FollowsPart settling t page.old page.new) }
{
    let kept = page.take_kept();
    let stays = are_kept_spaces(&kept);
    'flushing: for c in &kept {
        settle_kept(page, *c, stays)?;
    }
    Ok(())
}

/// Whether all of these are white space, but for U+0000.
fn are_kept_spaces(kept: &[char]) -> bool
    ensures { result ≡ list_all is_null_or_space kept.now }
{
    for c in kept {
        if !is_null_or_space(*c) {
            return false;
        }
    }
    true
}

fn is_null_or_space(c: char) -> bool
    ensures { result ≡ is_null_or_space c }
{
    c == '\0' || is_space(c)
}

/// Gives one kept code point its fate.
fn settle_kept(page: &mut Construction, c: char, stays: bool) -> Result<(), ArenaError>
    requires opened { 0 < length page.old.stack }
    requires quiet { page.old.ledger.kept ≡ [] }
    requires listed { length page.old.tree.list ≤ length page.old.ledger.fates }
    ensures rest { OnOk result (page.new ≡ record page.old { tree = page.new.tree; ledger = page.new.ledger; stack = page.new.stack; frameset_ok = page.new.frameset_ok; fostering = page.new.fostering }) }
    ensures takes { OnOk result (Takes (TokenKind.Char c) page.old page.new) }
    ensures quiet { OnOk result (page.new.ledger.kept ≡ []) }
    ensures grown { OnOk result (Grown 1 (length page.old.ledger.fates + 1) 0 1 0 page.old page.new) }
    ensures works { OnOk result (Works 6 1 6 page.old page.new) }
    ensures lighter { OnOk result (weight page.new.stack ≤ weight page.old.stack) }
    ensures opened { OnOk result (0 < length page.new.stack) }
    ensures refuses { IfErr result (λ e. RefusesAny e page.old page.new) }
    ensures follows { OnOk result (Follows (settled_by (if stays then Do InsertCharacter over else fostering)) (TokenKind.Char c) Done page.old page.new) }
{
    let token = TokenKind::Char(c);
    settle_char(page, &token, c, stays)?;
    Ok(())
}

/// Gives a kept code point, as a token, its fate.
#[tactic(auto, using(crate::proofs::RulesInTableText::arms))]
fn settle_char(
    page: &mut Construction,
    token: &TokenKind,
    c: char,
    stays: bool,
) -> Result<(), ArenaError>
    requires symbol { symbol_of token.now ≡ Symbol.Char c }
    requires opened { 0 < length page.old.stack }
    requires quiet { page.old.ledger.kept ≡ [] }
    requires listed { length page.old.tree.list ≤ length page.old.ledger.fates }
    ensures rest { OnOk result (page.new ≡ record page.old { tree = page.new.tree; ledger = page.new.ledger; stack = page.new.stack; frameset_ok = page.new.frameset_ok; fostering = page.new.fostering }) }
    ensures takes { OnOk result (Takes token.now page.old page.new) }
    ensures quiet { OnOk result (page.new.ledger.kept ≡ []) }
    ensures grown { OnOk result (Grown 1 (length page.old.ledger.fates + 1) 0 1 0 page.old page.new) }
    ensures works { OnOk result (Works 6 1 6 page.old page.new) }
    ensures lighter { OnOk result (weight page.new.stack ≤ weight page.old.stack) }
    ensures opened { OnOk result (0 < length page.new.stack) }
    ensures refuses { IfErr result (λ e. RefusesAny e page.old page.new) }
    ensures follows { OnOk result (Follows (settled_by (if stays then Do InsertCharacter over else fostering)) token.now Done page.old page.new) }
{
    if let Some(cause) = page.must_drop(Symbol::Char(c)) {
        return page.drop_token(token, Symbol::Char(c), cause);
    }
    if c == '\0' {
        return page.drop_token(token, Symbol::Char(c), Cause::Null);
    }
    if stays {
        return page.insert_char(token, c);
    }
    foster_char(page, token, c)
}

/// Puts a code point before the table, by the rules of the mode in body.
#[tactic(auto, using(crate::proofs::RulesInTable::foster_plans))]
pub(crate) fn foster_char(
    page: &mut Construction,
    token: &TokenKind,
    c: char,
) -> Result<(), ArenaError>
    requires symbol { symbol_of token.now ≡ Symbol.Char c }
    requires opened { 0 < length page.old.stack }
    requires quiet { page.old.ledger.kept ≡ [] }
    requires listed { length page.old.tree.list ≤ length page.old.ledger.fates }
    requires free { IsTrue (is_free page.old.ledger.history (Symbol.Char c)) }
    ensures rest { OnOk result (page.new ≡ record page.old { tree = page.new.tree; ledger = page.new.ledger; stack = page.new.stack; frameset_ok = page.new.frameset_ok; fostering = page.new.fostering }) }
    ensures takes { OnOk result (Takes token.now page.old page.new) }
    ensures quiet { OnOk result (page.new.ledger.kept ≡ []) }
    ensures grown { OnOk result (Grown 1 (length page.old.ledger.fates + 1) 0 1 0 page.old page.new) }
    ensures works { OnOk result (Works 6 1 6 page.old page.new) }
    ensures lighter { OnOk result (weight page.new.stack ≤ weight page.old.stack) }
    ensures opened { OnOk result (0 < length page.new.stack) }
    ensures refuses { IfErr result (λ e. RefusesAny e page.old page.new) }
    ensures follows { OnOk result (Follows (fostering) token.now Done page.old page.new) }
{
    page.foster_on();
    body_char(page, token, c)?;
    page.foster_off();
    Ok(())
}
