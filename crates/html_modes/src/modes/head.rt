// The modes of the head (13.2.6.4.4 to 13.2.6.4.6).
ghost use Rattle.std.specs.Prelude.{◌≡◌, ◌+◌, ◌<◌, ◌≤◌, ◌&&◌, [], IfOk, OnOk, IsTrue, drop, length, nat_lt, true, IfErr};
ghost use Rattle.html_names.specs.declared.tag.Tag.TheVariants as tag;
ghost use Rattle.html_names.specs.Sets.{is_headish};
ghost use Rattle.html_tree.specs.Closing.{popped};
ghost use Rattle.html_tree.specs.declared.groups.Group.TheVariants as group;
ghost use Rattle.html_ledger.specs.Symbols.{symbol_of};
ghost use Rattle.html_ledger.specs.Flags.{is_free};
ghost use Rattle.html_construction.specs.Budgets.{Refuses};
ghost use Rattle.html_construction.specs.Built.{Keeps, Takes};
ghost use Rattle.html_construction.specs.Calls.{IsTree, is_first};
ghost use Rattle.html_construction.specs.Grown.{Grown};
ghost use Rattle.html_construction.specs.Works.{Works};
ghost use Rattle.html_construction.specs.Weights.{weight};
ghost use Rattle.html_modes.specs.Fitting.{Fits, Calls, is_loose};
ghost use Rattle.html_modes.specs.Plain.{Turns};
ghost use Rattle.html_modes.specs.Steps.{Falls, Grows, Steps, Worked};
ghost use Rattle.html_modes.specs.Ranks.{rank, top_rank};
ghost use Rattle.html_modes.specs.declared.outcome.Outcome.TheVariants.{Done};
ghost use Rattle.html_tree.specs.declared.groups.Target.TheVariants.{Current};
ghost use Rattle.html_construction.specs.Plans.{Passes};
ghost use Rattle.html_construction.specs.Words.{Insert, InsertAt, InsertVoid, InsertVoidAt};
ghost use Rattle.html_modes.specs.Rules.{Follows};
ghost use Rattle.html_modes.specs.RulesAfterHead.{after_head, after_head_start};
ghost use Rattle.html_modes.specs.RulesInHead.{in_head, in_head_end, in_head_part, in_head_start, leaving_head};
ghost use Rattle.html_modes.specs.RulesInHeadNoscript.{in_head_noscript, in_head_noscript_start, leaving_noscript};

use crate::modes::body_start::html_start;
use crate::modes::initial::doctype;
use crate::modes::template::{template_end, template_start_at};
use crate::modes::text::text_start_at;
use crate::outcome::Outcome;
use html_construction::{ArenaError, Construction, Mode};
use html_ledger::{Cause, Symbol, is_space};
use html_names::Tag;
use html_tokens::TokenKind;
use html_tree::{Group, Target};

/// The rules for the "in head" insertion mode (13.2.6.4.4).
#[tactic(auto, using(crate::proofs::Settled::mode_rules, crate::proofs::RawText::headish_names, crate::proofs::RulesInHead::arms))]
pub(crate) fn in_head(
    page: &mut Construction,
    token: &TokenKind,
    symbol: Symbol,
) -> Result<Outcome, ArenaError>
    requires symbol { symbol_of token.now ≡ symbol }
    requires mode { page.old.mode ≡ Mode.InHead }
    requires fits { Fits page.old }
    requires quiet { page.old.ledger.kept ≡ [] }
    requires free { IsTrue (is_free page.old.ledger.history symbol) }
    ensures fits { OnOk result (Fits page.new) }
    ensures takes { IfOk result (λ o. Steps o token.now page.old page.new) }
    ensures falls { IfOk result (λ o. Falls o symbol page.old page.new) }
    ensures grows { IfOk result (λ o. Grows o page.old page.new) }
    ensures works { IfOk result (λ o. Worked o token.now page.old page.new) }
    ensures plain { IfOk result (λ o. Turns o symbol token.now page.old page.new) }
    ensures refuses { IfErr result (λ e. Refuses token.now e page.old page.new) }
    ensures follows { IfOk result (λ o. Follows (in_head symbol) token.now o page.old page.new) }
{
    match symbol {
        Symbol::Char(c) => {
            // Anything else: pop the current node, switch the insertion mode to "after head", reprocess.
            if !is_space(c) {
                leave_head(page);
                return Ok(Outcome::Reprocess);
            }
            // A character token that is one of U+0009, U+000A, U+000C, U+000D, U+0020: insert the character.
            page.insert_char(token, c)?;
        }
        // A comment token: insert a comment.
        Symbol::Comment => page.insert_comment(token)?,
        // A DOCTYPE token: ignore the token.
        Symbol::Doctype => doctype(page, token)?,
        Symbol::Start(tag) => {
            let outcome = start_in_head(page, token, tag)?;
            return Ok(outcome);
        }
        Symbol::End(tag) => {
            let outcome = end_in_head(page, token, tag)?;
            return Ok(outcome);
        }
        Symbol::Eof => {
            leave_head(page);
            return Ok(Outcome::Reprocess);
        }
    }
    Ok(Outcome::Done)
}

#[tactic(auto, using(crate::proofs::Settled::mode_rules, crate::proofs::RawText::headish_names, crate::proofs::RulesInHead::arms))]
fn start_in_head(
    page: &mut Construction,
    token: &TokenKind,
    tag: Tag,
) -> Result<Outcome, ArenaError>
    requires mode { page.old.mode ≡ Mode.InHead }
    requires symbol { symbol_of token.now ≡ Symbol.Start tag }
    requires calls { Calls page.old }
    ensures fits { OnOk result (Fits page.new) }
    ensures takes { IfOk result (λ o. Steps o token.now page.old page.new) }
    ensures falls { IfOk result (λ o. Falls o (Symbol.Start tag) page.old page.new) }
    ensures grows { IfOk result (λ o. Grows o page.old page.new) }
    ensures works { IfOk result (λ o. Worked o token.now page.old page.new) }
    ensures plain { IfOk result (λ o. Turns o (Symbol.Start tag) token.now page.old page.new) }
    ensures refuses { IfErr result (λ e. Refuses token.now e page.old page.new) }
    ensures follows { IfOk result (λ o. Follows (in_head_start tag) token.now o page.old page.new) }
{
    match tag {
        // A start tag whose tag name is "html": process the token using the rules for "in body".
        Tag::Html => html_start(page, token)?,
        // A start tag whose tag name is "noscript", if the scripting flag is disabled: insert an HTML element.
        Tag::Noscript => {
            page.insert(token, Tag::Noscript)?;
            page.set_mode(Mode::InHeadNoscript);
        }
        // A start tag whose tag name is "head": ignore the token.
        Tag::Head => page.drop_token(token, Symbol::Start(Tag::Head), Cause::Misplaced)?,
        // A start tag whose tag name is one of: "base", "basefont", "bgsound", "link", "meta", "title",
        // "noframes", "style", "script", "template".
        _ if tag.is_headish() => head_start(page, token, tag)?,
        // Anything else: pop the current node, switch the insertion mode to "after head", reprocess.
        _ => {
            leave_head(page);
            return Ok(Outcome::Reprocess);
        }
    }
    Ok(Outcome::Done)
}

#[tactic(auto, using(crate::proofs::Settled::mode_rules, crate::proofs::RulesInHead::arms))]
fn end_in_head(page: &mut Construction, token: &TokenKind, tag: Tag) -> Result<Outcome, ArenaError>
    requires mode { page.old.mode ≡ Mode.InHead }
    requires symbol { symbol_of token.now ≡ Symbol.End tag }
    requires calls { Calls page.old }
    ensures fits { OnOk result (Fits page.new) }
    ensures takes { IfOk result (λ o. Steps o token.now page.old page.new) }
    ensures falls { IfOk result (λ o. Falls o (Symbol.End tag) page.old page.new) }
    ensures grows { IfOk result (λ o. Grows o page.old page.new) }
    ensures works { IfOk result (λ o. Worked o token.now page.old page.new) }
    ensures plain { IfOk result (λ o. Turns o (Symbol.End tag) token.now page.old page.new) }
    ensures refuses { IfErr result (λ e. Refuses token.now e page.old page.new) }
    ensures follows { IfOk result (λ o. Follows (in_head_end tag) token.now o page.old page.new) }
{
    match tag {
        // An end tag whose tag name is "head": pop the current node, switch the insertion mode to "after head".
        Tag::Head => {
            leave_head(page);
            page.end(token, Symbol::End(Tag::Head))?;
        }
        // An end tag whose tag name is "template".
        Tag::Template => template_end(page, token)?,
        // An end tag whose tag name is one of: "body", "html", "br": as anything else.
        _ if tag.is_page_part() => {
            leave_head(page);
            return Ok(Outcome::Reprocess);
        }
        // Any other end tag: ignore the token.
        _ => page.end(token, Symbol::End(tag))?,
    }
    Ok(Outcome::Done)
}

/// Closes the head and goes on after it. (In a real run the head is the current node; else the rules of the body go on.)
#[tactic(auto, using(crate::proofs::RulesInHead::arms))]
fn leave_head(page: &mut Construction)
    requires mode { page.old.mode ≡ Mode.InHead }
    requires opened { 0 < length page.old.stack }
    ensures rest { page.new ≡ record page.old { tree = page.new.tree; stack = page.new.stack; mode = page.new.mode } }
    ensures keeps { Keeps page.old page.new }
    ensures grown { Grown 0 0 0 0 0 page.old page.new }
    ensures works { Works 6 0 6 page.old page.new }
    ensures lighter { weight page.new.stack ≤ weight page.old.stack }
    ensures opened { 0 < length page.new.stack }
    ensures falls { (s : Symbol) → weight page.new.stack + rank page.new.mode s < weight page.old.stack + rank page.old.mode s }
    ensures loose { is_loose page.new.mode ≡ true }
    ensures top { top_rank page.new.mode ≤ 6 }
    ensures closed { (nat_lt 1 (length page.old.stack) && is_first (group.Named tag.Head) page.old.stack) ≡ true → page.new ≡ record page.old { tree = page.new.tree; stack = drop 1 page.old.stack; mode = Mode.AfterHead } }
    ensures exact { (nat_lt 1 (length page.old.stack) && is_first (group.Named tag.Head) page.old.stack) ≡ true → IsTree (record page.old.tree { stack = popped page.old.tree.stack }) page.new }
    ensures follows { Passes leaving_head page.old page.new }
{
    if page.pop_if(Group::Named(Tag::Head)) {
        page.set_mode(Mode::AfterHead);
    } else {
        page.set_mode(Mode::InBody);
    }
}

/// A start tag that belongs into the head.
#[tactic(auto, using(crate::proofs::Settled::head_rules, crate::proofs::RawText::headish_names, crate::proofs::RulesInHead::arms))]
pub(crate) fn head_start(
    page: &mut Construction,
    token: &TokenKind,
    tag: Tag,
) -> Result<(), ArenaError>
    requires headish { is_headish tag ≡ true }
    requires symbol { symbol_of token.now ≡ Symbol.Start tag }
    requires calls { Calls page.old }
    ensures fits { OnOk result (Fits page.new) }
    ensures takes { OnOk result (Takes token.now page.old page.new) }
    ensures falls { OnOk result (Falls Done (Symbol.Start tag) page.old page.new) }
    ensures grows { OnOk result (Grows Done page.old page.new) }
    ensures works { OnOk result (Worked Done token.now page.old page.new) }
    ensures refuses { IfErr result (λ e. Refuses token.now e page.old page.new) }
    ensures follows { OnOk result (Follows (in_head_part Insert (InsertVoid tag) tag) token.now Done page.old page.new) }
{
    let target = page.here();
    head_start_at(page, token, tag, target)
}

/// A start tag that belongs into the head, whose element goes to a target: last into the head, as if that were open, where it comes after
/// the head's end.
#[tactic(auto, using(crate::proofs::Settled::head_rules, crate::proofs::RawText::headish_names, crate::proofs::RulesInHead::arms))]
fn head_start_at(
    page: &mut Construction,
    token: &TokenKind,
    tag: Tag,
    target: Target,
) -> Result<(), ArenaError>
    requires headish { is_headish tag ≡ true }
    requires symbol { symbol_of token.now ≡ Symbol.Start tag }
    requires calls { Calls page.old }
    ensures fits { OnOk result (Fits page.new) }
    ensures takes { OnOk result (Takes token.now page.old page.new) }
    ensures falls { OnOk result (Falls Done (Symbol.Start tag) page.old page.new) }
    ensures grows { OnOk result (Grows Done page.old page.new) }
    ensures works { OnOk result (Worked Done token.now page.old page.new) }
    ensures refuses { IfErr result (λ e. Refuses token.now e page.old page.new) }
    ensures follows { OnOk result (Follows (in_head_part (InsertAt target) (InsertVoidAt tag target) tag) token.now Done page.old page.new) }
    ensures here { OnOk result (target ≡ Current page.old.fostering → Follows (in_head_part Insert (InsertVoid tag) tag) token.now Done page.old page.new) }
{
    if tag.is_head_text() {
        return text_start_at(page, token, tag, target);
    }
    if tag.is(Tag::Template) {
        return template_start_at(page, token, target);
    }
    page.insert_void_at(token, tag, target)
}

/// The rules for the "in head noscript" insertion mode (13.2.6.4.5).
#[tactic(auto, using(crate::proofs::Settled::mode_rules, crate::proofs::RawText::headish_names, crate::proofs::RulesInHeadNoscript::arms))]
pub(crate) fn in_head_noscript(
    page: &mut Construction,
    token: &TokenKind,
    symbol: Symbol,
) -> Result<Outcome, ArenaError>
    requires symbol { symbol_of token.now ≡ symbol }
    requires mode { page.old.mode ≡ Mode.InHeadNoscript }
    requires fits { Fits page.old }
    requires quiet { page.old.ledger.kept ≡ [] }
    requires free { IsTrue (is_free page.old.ledger.history symbol) }
    ensures fits { OnOk result (Fits page.new) }
    ensures takes { IfOk result (λ o. Steps o token.now page.old page.new) }
    ensures falls { IfOk result (λ o. Falls o symbol page.old page.new) }
    ensures grows { IfOk result (λ o. Grows o page.old page.new) }
    ensures works { IfOk result (λ o. Worked o token.now page.old page.new) }
    ensures refuses { IfErr result (λ e. Refuses token.now e page.old page.new) }
    ensures follows { IfOk result (λ o. Follows (in_head_noscript symbol) token.now o page.old page.new) }
{
    match symbol {
        Symbol::Char(c) => {
            // Anything else: pop the current node, switch the insertion mode to "in head", reprocess.
            if !is_space(c) {
                leave_noscript(page);
                return Ok(Outcome::Reprocess);
            }
            // A character token that is one of U+0009, U+000A, U+000C, U+000D, U+0020: insert the character.
            page.insert_char(token, c)?;
        }
        // A comment token: insert a comment.
        Symbol::Comment => page.insert_comment(token)?,
        // A DOCTYPE token: ignore the token.
        Symbol::Doctype => doctype(page, token)?,
        Symbol::Start(tag) => {
            let outcome = start_in_noscript(page, token, tag)?;
            return Ok(outcome);
        }
        Symbol::End(tag) => match tag {
            // An end tag whose tag name is "noscript": pop the current node, switch the insertion mode to "in head".
            Tag::Noscript => {
                leave_noscript(page);
                page.end(token, symbol)?;
            }
            // An end tag whose tag name is "br": as anything else.
            Tag::Br => {
                leave_noscript(page);
                return Ok(Outcome::Reprocess);
            }
            // Any other end tag: ignore the token.
            _ => page.end(token, symbol)?,
        },
        Symbol::Eof => {
            leave_noscript(page);
            return Ok(Outcome::Reprocess);
        }
    }
    Ok(Outcome::Done)
}

#[tactic(auto, using(crate::proofs::Settled::mode_rules, crate::proofs::RawText::headish_names, crate::proofs::RulesInHeadNoscript::arms))]
fn start_in_noscript(
    page: &mut Construction,
    token: &TokenKind,
    tag: Tag,
) -> Result<Outcome, ArenaError>
    requires mode { page.old.mode ≡ Mode.InHeadNoscript }
    requires symbol { symbol_of token.now ≡ Symbol.Start tag }
    requires calls { Calls page.old }
    ensures fits { OnOk result (Fits page.new) }
    ensures takes { IfOk result (λ o. Steps o token.now page.old page.new) }
    ensures falls { IfOk result (λ o. Falls o (Symbol.Start tag) page.old page.new) }
    ensures grows { IfOk result (λ o. Grows o page.old page.new) }
    ensures works { IfOk result (λ o. Worked o token.now page.old page.new) }
    ensures refuses { IfErr result (λ e. Refuses token.now e page.old page.new) }
    ensures follows { IfOk result (λ o. Follows (in_head_noscript_start tag) token.now o page.old page.new) }
{
    match tag {
        // A start tag whose tag name is "html": process the token using the rules for "in body".
        Tag::Html => html_start(page, token)?,
        // A start tag whose tag name is one of: "head", "noscript": ignore the token.
        Tag::Head => page.drop_token(token, Symbol::Start(Tag::Head), Cause::Misplaced)?,
        Tag::Noscript => {
            let outcome = noscript_in_noscript(page, token)?;
            return Ok(outcome);
        }
        // A start tag whose tag name is one of: "basefont", "bgsound", "link", "meta", "noframes", "style".
        _ if tag.is_noscript_part() => head_start(page, token, tag)?,
        // Anything else: pop the current node, switch the insertion mode to "in head", reprocess.
        _ => {
            leave_noscript(page);
            return Ok(Outcome::Reprocess);
        }
    }
    Ok(Outcome::Done)
}

/// A noscript in a noscript. (One was made; where not, the rules of the head go on.)
#[tactic(auto, using(crate::proofs::Settled::mode_rules, crate::proofs::RawText::headish_names, crate::proofs::RulesInHeadNoscript::inner))]
fn noscript_in_noscript(page: &mut Construction, token: &TokenKind) -> Result<Outcome, ArenaError>
    requires mode { page.old.mode ≡ Mode.InHeadNoscript }
    requires symbol { symbol_of token.now ≡ Symbol.Start Tag.Noscript }
    requires calls { Calls page.old }
    ensures fits { OnOk result (Fits page.new) }
    ensures takes { IfOk result (λ o. Steps o token.now page.old page.new) }
    ensures falls { IfOk result (λ o. Falls o (Symbol.Start Tag.Noscript) page.old page.new) }
    ensures grows { IfOk result (λ o. Grows o page.old page.new) }
    ensures works { IfOk result (λ o. Worked o token.now page.old page.new) }
    ensures refuses { IfErr result (λ e. Refuses token.now e page.old page.new) }
    ensures follows { IfOk result (λ o. Follows (in_head_noscript_start Tag.Noscript) token.now o page.old page.new) }
{
    if page.history().may_misplace(Tag::Noscript) {
        page.drop_token(token, Symbol::Start(Tag::Noscript), Cause::Misplaced)?;
        return Ok(Outcome::Done);
    }
    leave_noscript(page);
    Ok(Outcome::Reprocess)
}

/// Closes the noscript and goes on in the head. (In a real run the noscript is the current node; else the rules of the body go on.)
#[tactic(auto, using(crate::proofs::RulesInHeadNoscript::arms))]
fn leave_noscript(page: &mut Construction)
    requires mode { page.old.mode ≡ Mode.InHeadNoscript }
    requires opened { 0 < length page.old.stack }
    ensures rest { page.new ≡ record page.old { tree = page.new.tree; stack = page.new.stack; mode = page.new.mode } }
    ensures keeps { Keeps page.old page.new }
    ensures grown { Grown 0 0 0 0 0 page.old page.new }
    ensures works { Works 6 0 6 page.old page.new }
    ensures lighter { weight page.new.stack ≤ weight page.old.stack }
    ensures opened { 0 < length page.new.stack }
    ensures falls { (s : Symbol) → weight page.new.stack + rank page.new.mode s < weight page.old.stack + rank page.old.mode s }
    ensures loose { is_loose page.new.mode ≡ true }
    ensures top { top_rank page.new.mode ≤ 3 }
    ensures follows { Passes leaving_noscript page.old page.new }
{
    if page.pop_if(Group::Named(Tag::Noscript)) {
        page.set_mode(Mode::InHead);
    } else {
        page.set_mode(Mode::InBody);
    }
}

/// The rules for the "after head" insertion mode (13.2.6.4.6).
#[tactic(auto, using(crate::proofs::Settled::mode_rules, crate::proofs::RawText::headish_names, crate::proofs::RulesAfterHead::arms))]
pub(crate) fn after_head(
    page: &mut Construction,
    token: &TokenKind,
    symbol: Symbol,
) -> Result<Outcome, ArenaError>
    requires symbol { symbol_of token.now ≡ symbol }
    requires mode { page.old.mode ≡ Mode.AfterHead }
    requires fits { Fits page.old }
    requires quiet { page.old.ledger.kept ≡ [] }
    requires free { IsTrue (is_free page.old.ledger.history symbol) }
    ensures fits { OnOk result (Fits page.new) }
    ensures takes { IfOk result (λ o. Steps o token.now page.old page.new) }
    ensures falls { IfOk result (λ o. Falls o symbol page.old page.new) }
    ensures grows { IfOk result (λ o. Grows o page.old page.new) }
    ensures works { IfOk result (λ o. Worked o token.now page.old page.new) }
    ensures plain { IfOk result (λ o. Turns o symbol token.now page.old page.new) }
    ensures refuses { IfErr result (λ e. Refuses token.now e page.old page.new) }
    ensures follows { IfOk result (λ o. Follows (after_head symbol) token.now o page.old page.new) }
{
    match symbol {
        Symbol::Char(c) => {
            // Anything else: insert an HTML element for a "body" start tag token with no attributes, reprocess.
            if !is_space(c) {
                page.insert_implied(Tag::Body)?;
                page.set_mode(Mode::InBody);
                return Ok(Outcome::Reprocess);
            }
            // A character token that is one of U+0009, U+000A, U+000C, U+000D, U+0020: insert the character.
            page.insert_char(token, c)?;
        }
        // A comment token: insert a comment.
        Symbol::Comment => page.insert_comment(token)?,
        // A DOCTYPE token: ignore the token.
        Symbol::Doctype => doctype(page, token)?,
        Symbol::Start(tag) => {
            let outcome = start_after_head(page, token, tag)?;
            return Ok(outcome);
        }
        Symbol::End(tag) => match tag {
            // An end tag whose tag name is "template": process the token using the rules for "in head".
            Tag::Template => template_end(page, token)?,
            Tag::Head => page.end(token, symbol)?,
            // An end tag whose tag name is one of: "body", "html", "br": as anything else.
            _ if tag.is_page_part() => {
                page.insert_implied(Tag::Body)?;
                page.set_mode(Mode::InBody);
                return Ok(Outcome::Reprocess);
            }
            // Any other end tag: ignore the token.
            _ => page.end(token, symbol)?,
        },
        Symbol::Eof => {
            page.insert_implied(Tag::Body)?;
            page.set_mode(Mode::InBody);
            return Ok(Outcome::Reprocess);
        }
    }
    Ok(Outcome::Done)
}

#[tactic(auto, using(crate::proofs::Settled::mode_rules, crate::proofs::RawText::headish_names, crate::proofs::RulesAfterHead::arms))]
fn start_after_head(
    page: &mut Construction,
    token: &TokenKind,
    tag: Tag,
) -> Result<Outcome, ArenaError>
    requires mode { page.old.mode ≡ Mode.AfterHead }
    requires symbol { symbol_of token.now ≡ Symbol.Start tag }
    requires calls { Calls page.old }
    ensures fits { OnOk result (Fits page.new) }
    ensures takes { IfOk result (λ o. Steps o token.now page.old page.new) }
    ensures falls { IfOk result (λ o. Falls o (Symbol.Start tag) page.old page.new) }
    ensures grows { IfOk result (λ o. Grows o page.old page.new) }
    ensures works { IfOk result (λ o. Worked o token.now page.old page.new) }
    ensures plain { IfOk result (λ o. Turns o (Symbol.Start tag) token.now page.old page.new) }
    ensures refuses { IfErr result (λ e. Refuses token.now e page.old page.new) }
    ensures follows { IfOk result (λ o. Follows (after_head_start tag) token.now o page.old page.new) }
{
    match tag {
        // A start tag whose tag name is "html": process the token using the rules for "in body".
        Tag::Html => html_start(page, token)?,
        // A start tag whose tag name is "body": insert an HTML element, set the frameset-ok flag to "not ok".
        Tag::Body => {
            page.insert(token, Tag::Body)?;
            page.frameset_off();
            page.set_mode(Mode::InBody);
        }
        // A start tag whose tag name is "frameset": insert an HTML element.
        Tag::Frameset => {
            page.insert(token, Tag::Frameset)?;
            page.set_mode(Mode::InFrameset);
        }
        // A start tag whose tag name is "head": ignore the token.
        Tag::Head => page.drop_token(token, Symbol::Start(Tag::Head), Cause::Misplaced)?,
        // A start tag whose tag name is one of: "base", "basefont", "bgsound", .., "title": its element goes last into the head.
        _ if tag.is_headish() => head_start_at(page, token, tag, Target::Head)?,
        // Anything else: insert an HTML element for a "body" start tag token with no attributes, reprocess.
        _ => {
            page.insert_implied(Tag::Body)?;
            page.set_mode(Mode::InBody);
            return Ok(Outcome::Reprocess);
        }
    }
    Ok(Outcome::Done)
}
