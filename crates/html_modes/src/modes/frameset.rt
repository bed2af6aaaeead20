// The modes of pages of frames (13.2.6.4.20, 13.2.6.4.21 and 13.2.6.4.23).
ghost use Rattle.std.specs.Prelude.{◌≡◌, ◌<◌, ◌≤◌, [], IfOk, OnOk, IsTrue, length, true, IfErr, ◌==◌};
ghost use Rattle.html_ledger.specs.Symbols.{symbol_of};
ghost use Rattle.html_ledger.specs.Flags.{is_free};
ghost use Rattle.html_construction.specs.Budgets.{Refuses};
ghost use Rattle.html_construction.specs.Built.{Keeps};
ghost use Rattle.html_construction.specs.Grown.{Grown};
ghost use Rattle.html_construction.specs.Modes.{is_of_frames};
ghost use Rattle.html_construction.specs.Works.{Works};
ghost use Rattle.html_construction.specs.Weights.{weight};
ghost use Rattle.html_modes.specs.Fitting.{Fits, is_loose};
ghost use Rattle.html_modes.specs.Steps.{Falls, Grows, Steps, Worked};
ghost use Rattle.html_modes.specs.Ranks.{top_rank};
ghost use Rattle.html_modes.specs.Guards.{is_droppable};
ghost use Rattle.html_construction.specs.Plans.{Asks, Passes};
ghost use Rattle.html_construction.specs.Words.{IsRootAlone};
ghost use Rattle.html_modes.specs.Rules.{Follows};
ghost use Rattle.html_modes.specs.RulesAfterAfterFrameset.{after_after_frameset};
ghost use Rattle.html_modes.specs.RulesAfterFrameset.{after_frameset};
ghost use Rattle.html_modes.specs.RulesInFrameset.{closing_frameset, in_frameset};

use crate::modes::body::body_char;
use crate::modes::body_start::html_start;
use crate::modes::initial::doctype;
use crate::modes::text::text_start;
use crate::outcome::Outcome;
use html_construction::{ArenaError, Construction, Mode};
use html_ledger::{Cause, Symbol, is_space};
use html_names::Tag;
use html_tokens::TokenKind;
use html_tree::{Group, Target};

/// The rules for the "in frameset" insertion mode (13.2.6.4.20).
#[tactic(auto, using(crate::proofs::Settled::mode_rules, crate::proofs::RulesInFrameset::arms))]
pub(crate) fn in_frameset(
    page: &mut Construction,
    token: &TokenKind,
    symbol: Symbol,
) -> Result<Outcome, ArenaError>
    requires seen { is_droppable symbol ≡ true → page.old.ledger.history.frameset ≡ true }
    requires began { is_droppable symbol ≡ true → is_of_frames page.old.began ≡ true }
    requires symbol { symbol_of token.now ≡ symbol }
    requires mode { page.old.mode ≡ Mode.InFrameset }
    requires fits { Fits page.old }
    requires quiet { page.old.ledger.kept ≡ [] }
    requires free { IsTrue (is_free page.old.ledger.history symbol) }
    ensures fits { OnOk result (Fits page.new) }
    ensures takes { IfOk result (λ o. Steps o token.now page.old page.new) }
    ensures falls { IfOk result (λ o. Falls o symbol page.old page.new) }
    ensures grows { IfOk result (λ o. Grows o page.old page.new) }
    ensures works { IfOk result (λ o. Worked o token.now page.old page.new) }
    ensures refuses { IfErr result (λ e. Refuses token.now e page.old page.new) }
    ensures follows { IfOk result (λ o. Follows (in_frameset symbol) token.now o page.old page.new) }
{
    match symbol {
        // A character token that is one of U+0009, U+000A, U+000C, U+000D, U+0020: insert the character.
        Symbol::Char(c) => {
            if is_space(c) {
                page.insert_char(token, c)?;
            } else {
                page.drop_token(token, symbol, Cause::InFrameset)?;
            }
        }
        // A comment token: insert a comment.
        Symbol::Comment => page.insert_comment(token)?,
        // A DOCTYPE token: ignore the token.
        Symbol::Doctype => doctype(page, token)?,
        Symbol::Start(tag) => match tag {
            // A start tag whose tag name is "html": process the token using the rules for "in body".
            Tag::Html => html_start(page, token)?,
            // A start tag whose tag name is "frameset": insert an HTML element.
            Tag::Frameset => page.insert(token, Tag::Frameset)?,
            // A start tag whose tag name is "frame": insert an HTML element, pop the current node.
            Tag::Frame => page.insert_void(token, Tag::Frame)?,
            // A start tag whose tag name is "noframes": process the token using the rules for "in head".
            Tag::Noframes => text_start(page, token, Tag::Noframes)?,
            // Anything else: ignore the token.
            _ => page.drop_token(token, symbol, Cause::InFrameset)?,
        },
        Symbol::End(tag) => match tag {
            // An end tag whose tag name is "frameset": pop the current node, unless it is the root html element.
            Tag::Frameset => {
                close_frameset(page);
                page.end(token, symbol)?;
            }
            // Any other end tag: ignore the token.
            _ => page.end(token, symbol)?,
        },
        // An end-of-file token: stop parsing.
        Symbol::Eof => page.end(token, symbol)?,
    }
    Ok(Outcome::Done)
}

/// Closes a frameset, and leaves the frames of a document where it was the outermost.
#[tactic(auto, using(crate::proofs::RulesInFrameset::arms))]
fn close_frameset(page: &mut Construction)
    requires mode { page.old.mode ≡ Mode.InFrameset }
    requires opened { 0 < length page.old.stack }
    ensures rest { page.new ≡ record page.old { tree = page.new.tree; stack = page.new.stack; mode = page.new.mode } }
    ensures keeps { Keeps page.old page.new }
    ensures grown { Grown 0 0 0 0 0 page.old page.new }
    ensures works { Works 6 0 6 page.old page.new }
    ensures lighter { weight page.new.stack ≤ weight page.old.stack }
    ensures opened { 0 < length page.new.stack }
    ensures loose { is_loose page.new.mode ≡ true }
    ensures top { top_rank page.new.mode ≤ 2 }
    ensures follows { Passes closing_frameset page.old page.new }
{
    if is_root_alone(page) {
        return;
    }
    page.pop();
    if page.is_fragment() {
        return;
    }
    if page.current_is(Group::Named(Tag::Frameset)) {
        return;
    }
    page.set_mode(Mode::AfterFrameset);
}

/// Whether only one element is open.
#[tactic(auto, using(crate::proofs::RulesInFrameset::arms))]
fn is_root_alone(page: &Construction) -> bool
    ensures value { result ≡ (length page.now.stack == 1) }
    ensures follows { Asks IsRootAlone result page.now page.now }
{
    page.depth() == 1
}

/// The rules for the "after frameset" insertion mode (13.2.6.4.21).
#[tactic(auto, using(crate::proofs::Settled::mode_rules, crate::proofs::RulesAfterFrameset::arms))]
pub(crate) fn after_frameset(
    page: &mut Construction,
    token: &TokenKind,
    symbol: Symbol,
) -> Result<Outcome, ArenaError>
    requires seen { is_droppable symbol ≡ true → page.old.ledger.history.frameset ≡ true }
    requires began { is_droppable symbol ≡ true → is_of_frames page.old.began ≡ true }
    requires symbol { symbol_of token.now ≡ symbol }
    requires mode { page.old.mode ≡ Mode.AfterFrameset }
    requires fits { Fits page.old }
    requires quiet { page.old.ledger.kept ≡ [] }
    requires free { IsTrue (is_free page.old.ledger.history symbol) }
    ensures fits { OnOk result (Fits page.new) }
    ensures takes { IfOk result (λ o. Steps o token.now page.old page.new) }
    ensures falls { IfOk result (λ o. Falls o symbol page.old page.new) }
    ensures grows { IfOk result (λ o. Grows o page.old page.new) }
    ensures works { IfOk result (λ o. Worked o token.now page.old page.new) }
    ensures refuses { IfErr result (λ e. Refuses token.now e page.old page.new) }
    ensures follows { IfOk result (λ o. Follows (after_frameset symbol) token.now o page.old page.new) }
{
    match symbol {
        // A character token that is one of U+0009, U+000A, U+000C, U+000D, U+0020: insert the character.
        Symbol::Char(c) => {
            if is_space(c) {
                page.insert_char(token, c)?;
            } else {
                page.drop_token(token, symbol, Cause::InFrameset)?;
            }
        }
        // A comment token: insert a comment.
        Symbol::Comment => page.insert_comment(token)?,
        // A DOCTYPE token: ignore the token.
        Symbol::Doctype => doctype(page, token)?,
        Symbol::Start(tag) => match tag {
            // A start tag whose tag name is "html": process the token using the rules for "in body".
            Tag::Html => html_start(page, token)?,
            // A start tag whose tag name is "noframes": process the token using the rules for "in head".
            Tag::Noframes => text_start(page, token, Tag::Noframes)?,
            // Anything else: ignore the token.
            _ => page.drop_token(token, symbol, Cause::InFrameset)?,
        },
        Symbol::End(tag) => match tag {
            // An end tag whose tag name is "html": switch the insertion mode to "after after frameset".
            Tag::Html => {
                page.set_mode(Mode::AfterAfterFrameset);
                page.end(token, symbol)?;
            }
            // Any other end tag: ignore the token.
            _ => page.end(token, symbol)?,
        },
        // An end-of-file token: stop parsing.
        Symbol::Eof => page.end(token, symbol)?,
    }
    Ok(Outcome::Done)
}

/// The rules for the "after after frameset" insertion mode (13.2.6.4.23).
#[tactic(auto, using(crate::proofs::Settled::mode_rules, crate::proofs::RulesAfterAfterFrameset::arms))]
pub(crate) fn after_after_frameset(
    page: &mut Construction,
    token: &TokenKind,
    symbol: Symbol,
) -> Result<Outcome, ArenaError>
    requires seen { is_droppable symbol ≡ true → page.old.ledger.history.frameset ≡ true }
    requires began { is_droppable symbol ≡ true → is_of_frames page.old.began ≡ true }
    requires symbol { symbol_of token.now ≡ symbol }
    requires mode { page.old.mode ≡ Mode.AfterAfterFrameset }
    requires fits { Fits page.old }
    requires quiet { page.old.ledger.kept ≡ [] }
    requires free { IsTrue (is_free page.old.ledger.history symbol) }
    ensures fits { OnOk result (Fits page.new) }
    ensures takes { IfOk result (λ o. Steps o token.now page.old page.new) }
    ensures falls { IfOk result (λ o. Falls o symbol page.old page.new) }
    ensures grows { IfOk result (λ o. Grows o page.old page.new) }
    ensures works { IfOk result (λ o. Worked o token.now page.old page.new) }
    ensures refuses { IfErr result (λ e. Refuses token.now e page.old page.new) }
    ensures follows { IfOk result (λ o. Follows (after_after_frameset symbol) token.now o page.old page.new) }
{
    match symbol {
        // A character token that is one of U+0009, U+000A, U+000C, U+000D, U+0020: process the token using the rules for "in body".
        Symbol::Char(c) => {
            if is_space(c) {
                body_char(page, token, c)?;
            } else {
                page.drop_token(token, symbol, Cause::InFrameset)?;
            }
        }
        // A comment token: insert a comment as the last child of the Document object.
        Symbol::Comment => page.insert_comment_at(token, Target::Document)?,
        // A DOCTYPE token: ignore the token.
        Symbol::Doctype => doctype(page, token)?,
        Symbol::Start(tag) => match tag {
            // A start tag whose tag name is "html": process the token using the rules for "in body".
            Tag::Html => html_start(page, token)?,
            // A start tag whose tag name is "noframes": process the token using the rules for "in head".
            Tag::Noframes => text_start(page, token, Tag::Noframes)?,
            // Anything else: ignore the token.
            _ => page.drop_token(token, symbol, Cause::InFrameset)?,
        },
        // An end tag: ignore the token.
        Symbol::End(_) => page.end(token, symbol)?,
        // An end-of-file token: stop parsing.
        Symbol::Eof => page.end(token, symbol)?,
    }
    Ok(Outcome::Done)
}
