// The end tags of the mode in body (13.2.6.4.7).
ghost use Rattle.std.specs.Prelude.{◌≡◌, ◌+◌, ◌<◌, ◌≤◌, IfOk, OnOk, false, is_some, length, true, IfErr};
ghost use Rattle.html_ledger.specs.Symbols.{symbol_of};
ghost use Rattle.html_construction.specs.Budgets.{Refuses, RefusesAny};
ghost use Rattle.html_construction.specs.Built.{Keeps, Takes};
ghost use Rattle.html_construction.specs.Grown.{Grown};
ghost use Rattle.html_construction.specs.Works.{Works};
ghost use Rattle.html_construction.specs.Weights.{weight};
ghost use Rattle.html_modes.specs.Fitting.{Fits, Calls, is_loose};
ghost use Rattle.html_modes.specs.Steps.{Falls, Grows, Steps, Worked};
ghost use Rattle.html_modes.specs.Ranks.{top_rank};
ghost use Rattle.html_modes.specs.Plain.{EndsCurrent, IsClosed, IsCurrent, TurnsInBody};
ghost use Rattle.html_names.specs.declared.sets.Scope.TheVariants as scope;
ghost use Rattle.html_names.specs.declared.tag.Tag.{Tag as AnyTag};
ghost use Rattle.html_names.specs.Sets.{is_formatting};
ghost use Rattle.html_names.specs.Tags.{is_same as same_tag};
ghost use Rattle.html_tree.specs.declared.groups.Group.TheVariants as group;
ghost use Rattle.html_tree.specs.declared.groups.Stop.TheVariants as stop;
ghost use Rattle.html_tree.specs.Searching.{found};
ghost use Rattle.html_construction.specs.Calls.{IsTree};
ghost use Rattle.html_construction.specs.Plans.{Adopt, Chooses, Do, Passes, closing};
ghost use Rattle.html_construction.specs.Words.{ClearToMarker, CloseNamed};
ghost use Rattle.html_modes.specs.Guards.{is_root_end};
ghost use Rattle.html_modes.specs.RuleForms.{again, done_with};
ghost use Rattle.html_modes.specs.Rules.{Follows, FollowsPart};
ghost use Rattle.html_modes.specs.RulesInBodyEnd.{closing_block, closing_body, in_body_closing, in_body_end};
ghost use Rattle.html_modes.specs.declared.outcome.Outcome.TheVariants.{Done};

use crate::modes::template::template_end;
use crate::outcome::Outcome;
use html_construction::{ArenaError, Construction, Mode};
use html_ledger::Symbol;
use html_names::{Scope, Tag};
use html_tokens::TokenKind;
use html_tree::Group;

/// An end tag, but that of the root.
#[tactic(auto, using(crate::proofs::Settled::body_rules, crate::proofs::RulesInBodyEnd::arms))]
pub(crate) fn body_end(
    page: &mut Construction,
    token: &TokenKind,
    tag: Tag,
) -> Result<(), ArenaError>
    requires symbol { symbol_of token.now ≡ Symbol.End tag }
    requires calls { Calls page.old }
    ensures fits { OnOk result (Fits page.new) }
    ensures takes { OnOk result (Takes token.now page.old page.new) }
    ensures falls { OnOk result (Falls Done (Symbol.End tag) page.old page.new) }
    ensures grows { OnOk result (Grows Done page.old page.new) }
    ensures works { OnOk result (Worked Done token.now page.old page.new) }
    ensures plain { OnOk result (TurnsInBody Done (Symbol.End tag) token.now page.old page.new) }
    ensures refuses { IfErr result (λ e. Refuses token.now e page.old page.new) }
    ensures follows { OnOk result (is_root_end (Symbol.End tag) ≡ false → Follows (in_body_end tag) token.now Done page.old page.new) }
{
    match tag {
        // An end tag whose tag name is "template": process the token using the rules for "in head".
        Tag::Template => template_end(page, token),
        // An end tag whose tag name is "body".
        Tag::Body => {
            let _ = close_body(page);
            page.end(token, Symbol::End(tag))
        }
        _ => current_end(page, token, tag),
    }
}

/// The end tag of an element in the body.
#[tactic(auto, using(crate::proofs::Settled::body_rules, crate::proofs::Ruled::rule_words))]
fn current_end(page: &mut Construction, token: &TokenKind, tag: Tag) -> Result<(), ArenaError>
    requires symbol { symbol_of token.now ≡ Symbol.End tag }
    requires calls { Calls page.old }
    ensures fits { OnOk result (Fits page.new) }
    ensures takes { OnOk result (Takes token.now page.old page.new) }
    ensures falls { OnOk result (Falls Done (Symbol.End tag) page.old page.new) }
    ensures grows { OnOk result (Grows Done page.old page.new) }
    ensures works { OnOk result (Worked Done token.now page.old page.new) }
    ensures plain { same_tag tag Tag.Body ≡ false → OnOk result (TurnsInBody Done (Symbol.End tag) token.now page.old page.new) }
    ensures refuses { IfErr result (λ e. Refuses token.now e page.old page.new) }
    ensures follows { OnOk result (Follows (in_body_closing tag done_with) token.now Done page.old page.new) }
{
    element_end(page, token, tag)?;
    page.end(token, Symbol::End(tag))
}

/// The end tag of the root.
#[tactic(auto, using(crate::proofs::Settled::body_rules, crate::proofs::RulesInBodyEnd::arms))]
pub(crate) fn html_end(page: &mut Construction, token: &TokenKind) -> Result<Outcome, ArenaError>
    requires mode { page.old.mode ≡ Mode.InBody }
    requires symbol { symbol_of token.now ≡ Symbol.End Tag.Html }
    requires calls { Calls page.old }
    ensures fits { OnOk result (Fits page.new) }
    ensures takes { IfOk result (λ o. Steps o token.now page.old page.new) }
    ensures falls { IfOk result (λ o. Falls o (Symbol.End Tag.Html) page.old page.new) }
    ensures grows { IfOk result (λ o. Grows o page.old page.new) }
    ensures works { IfOk result (λ o. Worked o token.now page.old page.new) }
    ensures plain { IfOk result (λ o. TurnsInBody o (Symbol.End Tag.Html) token.now page.old page.new) }
    ensures refuses { IfErr result (λ e. Refuses token.now e page.old page.new) }
    ensures follows { IfOk result (λ o. Follows (closing_body again done_with) token.now o page.old page.new) }
{
    if close_body(page) {
        return Ok(Outcome::Reprocess);
    }
    page.end(token, Symbol::End(Tag::Html))?;
    Ok(Outcome::Done)
}

/// Goes on after the body, where one is in scope.
#[tactic(auto, using(crate::proofs::Settled::text_rules))]
fn close_body(page: &mut Construction) -> bool
    requires loose { is_loose page.old.mode ≡ true }
    ensures rest { page.new ≡ record page.old { tree = page.new.tree; mode = page.new.mode } }
    ensures keeps { Keeps page.old page.new }
    ensures grown { Grown 0 0 0 0 0 page.old page.new }
    ensures works { Works 6 0 6 page.old page.new }
    ensures loose { is_loose page.new.mode ≡ true }
    ensures top { top_rank page.new.mode ≤ 10 }
    ensures closed { result ≡ true → page.new.mode ≡ Mode.AfterBody }
    ensures same { IsTree page.old.tree page.new }
    ensures scope { result ≡ is_some (found page.old.tree (group.Named Tag.Body) (stop.EndOf scope.Default)) }
    ensures follows { Chooses closing_body result page.old page.new }
{
    if page.has_in_scope(Tag::Body, Scope::Default) {
        page.set_mode(Mode::AfterBody);
        return true;
    }
    false
}

/// What the end tag of an element in the body closes or makes.
#[tactic(auto, using(crate::proofs::Settled::told_rules, crate::proofs::RulesInBodyEnd::arms))]
fn element_end(page: &mut Construction, token: &TokenKind, tag: Tag) -> Result<(), ArenaError>
    requires opened { 0 < length page.old.stack }
    requires listed { length page.old.tree.list ≤ length page.old.ledger.fates }
    ensures rest { OnOk result (page.new ≡ record page.old { tree = page.new.tree; stack = page.new.stack; outer_form = page.new.outer_form; frameset_ok = page.new.frameset_ok }) }
    ensures keeps { OnOk result (Keeps page.old page.new) }
    ensures grown { OnOk result (Grown 0 (length page.old.ledger.fates + 32) 0 8 1 page.old page.new) }
    ensures works { OnOk result (Works 6 8 6 page.old page.new) }
    ensures opened { OnOk result (0 < length page.new.stack) }
    ensures heavier { OnOk result (weight page.new.stack ≤ weight page.old.stack + 4) }
    ensures plain { symbol_of token.now ≡ Symbol.End tag → OnOk result (IsCurrent tag page.old → EndsCurrent Mode.InBody (Symbol.End tag) token.now page.old → IsClosed tag page.old page.new) }
    ensures refuses { IfErr result (λ e. Refuses token.now e page.old page.new) }
    ensures follows { symbol_of token.now ≡ Symbol.End tag → OnOk result (FollowsPart (λ p. in_body_closing tag p) token.now page.old page.new) }
{
    match tag {
        // An end tag whose tag name is "form".
        Tag::Form => form_end(page),
        // An end tag whose tag name is "p".
        Tag::P => paragraph_end(page)?,
        // An end tag whose tag name is "br": act as if this was a start tag token without attributes.
        Tag::Br => break_end(page)?,
        // An end tag whose tag name is one of: "a", "b", "big", .., "tt", "u".
        _ if tag.is_formatting() => formatting_end(page, tag)?,
        _ => plain_end(page, token, tag),
    }
    Ok(())
}

/// The end tag of a formatting element.
fn formatting_end(page: &mut Construction, tag: Tag) -> Result<(), ArenaError>
    requires opened { 0 < length page.old.stack }
    requires formatting { is_formatting tag ≡ true }
    requires listed { length page.old.tree.list ≤ length page.old.ledger.fates }
    ensures rest { OnOk result (page.new ≡ record page.old { tree = page.new.tree; stack = page.new.stack }) }
    ensures keeps { OnOk result (Keeps page.old page.new) }
    ensures grown { OnOk result (Grown 0 32 0 8 0 page.old page.new) }
    ensures works { OnOk result (Works 2 8 0 page.old page.new) }
    ensures lighter { OnOk result (weight page.new.stack ≤ weight page.old.stack) }
    ensures opened { OnOk result (0 < length page.new.stack) }
    ensures plain { OnOk result (IsCurrent tag page.old → IsClosed tag page.old page.new) }
    ensures refuses { IfErr result (λ e. RefusesAny e page.old page.new) }
    ensures follows { OnOk result (Passes (λ p. Adopt tag p) page.old page.new) }
{
    page.end_formatting(tag)
}

/// What the end tag of an element in the body closes, where no more is to be done.
#[tactic(auto, using(crate::proofs::RulesInBodyEnd::arms))]
fn plain_end(page: &mut Construction, token: &TokenKind, tag: Tag)
    requires opened { 0 < length page.old.stack }
    requires listed { length page.old.tree.list ≤ length page.old.ledger.fates }
    ensures rest { page.new ≡ record page.old { tree = page.new.tree; stack = page.new.stack } }
    ensures keeps { Keeps page.old page.new }
    ensures grown { Grown 0 0 0 0 0 page.old page.new }
    ensures works { Works 6 0 6 page.old page.new }
    ensures lighter { weight page.new.stack ≤ weight page.old.stack }
    ensures opened { 0 < length page.new.stack }
    ensures plain { symbol_of token.now ≡ Symbol.End tag → is_formatting tag ≡ false → IsCurrent tag page.old → EndsCurrent Mode.InBody (Symbol.End tag) token.now page.old → IsClosed tag page.old page.new }
    ensures follows { symbol_of token.now ≡ Symbol.End tag → (tag ≡ Tag.Form → ⊥) → (tag ≡ Tag.P → ⊥) → (tag ≡ Tag.Br → ⊥) → is_formatting tag ≡ false → FollowsPart (λ p. in_body_closing tag p) token.now page.old page.new }
{
    match tag {
        // An end tag whose tag name is "li".
        Tag::Li => {
            let _ = page.close_in_scope(Tag::Li, Scope::ListItem);
        }
        // An end tag whose tag name is one of: "address", "article", "aside", .., "button", .., "listing", .., "pre", .., "ul".
        Tag::Button => block_end(page, Tag::Button),
        _ if tag.is_block() => block_end(page, tag),
        _ if tag.is_preformatted() => block_end(page, tag),
        // An end tag whose tag name is one of: "dd", "dt".
        _ if tag.is_definition() => block_end(page, tag),
        // An end tag whose tag name is one of: "h1", "h2", "h3", "h4", "h5", "h6".
        _ if tag.is_heading() => {
            let _ = page.close_group_in_scope(Group::Heading, Scope::Default);
        }
        // An end tag whose tag name is one of: "applet", "marquee", "object".
        _ if tag.takes_marker() => marker_end(page, tag),
        // Any other end tag.
        _ => other_end(page, token),
    }
}

/// The end tag of a block, or of what is closed like one.
#[tactic(auto, using(crate::proofs::RulesInBodyEnd::arms))]
fn block_end(page: &mut Construction, tag: Tag)
    requires opened { 0 < length page.old.stack }
    ensures rest { page.new ≡ record page.old { tree = page.new.tree; stack = page.new.stack } }
    ensures keeps { Keeps page.old page.new }
    ensures grown { Grown 0 0 0 0 0 page.old page.new }
    ensures works { Works 1 0 0 page.old page.new }
    ensures lighter { weight page.new.stack ≤ weight page.old.stack }
    ensures opened { 0 < length page.new.stack }
    ensures plain { is_formatting tag ≡ false → IsCurrent tag page.old → IsClosed tag page.old page.new }
    ensures follows { Passes (λ p. closing_block tag p) page.old page.new }
{
    let _ = page.close_in_scope(tag, Scope::Default);
}

#[tactic(auto, using(crate::proofs::RulesInBodyEnd::arms))]
fn form_end(page: &mut Construction)
    requires opened { 0 < length page.old.stack }
    ensures rest { page.new ≡ record page.old { tree = page.new.tree; stack = page.new.stack; outer_form = page.new.outer_form } }
    ensures keeps { Keeps page.old page.new }
    ensures grown { Grown 0 0 0 0 0 page.old page.new }
    ensures works { Works 6 0 6 page.old page.new }
    ensures lighter { weight page.new.stack ≤ weight page.old.stack }
    ensures opened { 0 < length page.new.stack }
    ensures follows { Passes (λ p. in_body_closing Tag.Form p) page.old page.new }
{
    if page.has_template() {
        block_end(page, Tag::Form);
    } else {
        page.close_form();
    }
}

/// The end tag of a paragraph, which is made where none is open.
#[tactic(auto, using(crate::proofs::RulesInBodyEnd::arms))]
fn paragraph_end(page: &mut Construction) -> Result<(), ArenaError>
    requires opened { 0 < length page.old.stack }
    requires listed { length page.old.tree.list ≤ length page.old.ledger.fates }
    ensures rest { OnOk result (page.new ≡ record page.old { tree = page.new.tree; stack = page.new.stack }) }
    ensures keeps { OnOk result (Keeps page.old page.new) }
    ensures grown { OnOk result (Grown 0 (2) 0 0 1 page.old page.new) }
    ensures works { OnOk result (Works 6 0 6 page.old page.new) }
    ensures opened { OnOk result (0 < length page.new.stack) }
    ensures heavier { OnOk result (weight page.new.stack ≤ weight page.old.stack + 4) }
    ensures refuses { IfErr result (λ e. RefusesAny e page.old page.new) }
    ensures follows { OnOk result (Passes (λ p. in_body_closing Tag.P p) page.old page.new) }
{
    if !page.has_in_scope(Tag::P, Scope::Button) {
        page.insert_implied(Tag::P)?;
    }
    let _ = page.pop_through(Tag::P);
    Ok(())
}

/// The end tag of a br, which makes one.
#[tactic(auto, using(crate::proofs::RulesInBodyEnd::arms))]
fn break_end(page: &mut Construction) -> Result<(), ArenaError>
    requires opened { 0 < length page.old.stack }
    requires listed { length page.old.tree.list ≤ length page.old.ledger.fates }
    ensures rest { OnOk result (page.new ≡ record page.old { tree = page.new.tree; stack = page.new.stack; frameset_ok = page.new.frameset_ok }) }
    ensures keeps { OnOk result (Keeps page.old page.new) }
    ensures grown { OnOk result (Grown 0 (length page.old.ledger.fates + 2) 0 1 1 page.old page.new) }
    ensures works { OnOk result (Works 6 1 6 page.old page.new) }
    ensures opened { OnOk result (0 < length page.new.stack) }
    ensures lighter { OnOk result (weight page.new.stack ≤ weight page.old.stack) }
    ensures refuses { IfErr result (λ e. RefusesAny e page.old page.new) }
    ensures follows { OnOk result (Passes (λ p. in_body_closing Tag.Br p) page.old page.new) }
{
    page.reconstruct()?;
    page.insert_implied_void(Tag::Br)?;
    page.frameset_off();
    Ok(())
}

/// The end tag of an element that put a marker into the list.
#[tactic(auto, using(crate::proofs::RulesInBodyEnd::arms))]
fn marker_end(page: &mut Construction, tag: Tag)
    requires opened { 0 < length page.old.stack }
    requires listed { length page.old.tree.list ≤ length page.old.ledger.fates }
    ensures rest { page.new ≡ record page.old { tree = page.new.tree; stack = page.new.stack } }
    ensures keeps { Keeps page.old page.new }
    ensures grown { Grown 0 0 0 0 0 page.old page.new }
    ensures works { Works 6 0 6 page.old page.new }
    ensures lighter { weight page.new.stack ≤ weight page.old.stack }
    ensures opened { 0 < length page.new.stack }
    ensures follows { Passes (λ p. closing (group.Named tag) (stop.EndOf scope.Default) (Do ClearToMarker p) p) page.old page.new }
{
    if page.close_in_scope(tag, Scope::Default) {
        page.clear_to_marker();
    }
}

/// Any other end tag.
#[tactic(auto, using(crate::proofs::RulesInBodyEnd::arms))]
fn other_end(page: &mut Construction, token: &TokenKind)
    requires opened { 0 < length page.old.stack }
    ensures rest { page.new ≡ record page.old { tree = page.new.tree; stack = page.new.stack } }
    ensures keeps { Keeps page.old page.new }
    ensures grown { Grown 0 0 0 0 0 page.old page.new }
    ensures works { Works 6 0 6 page.old page.new }
    ensures lighter { weight page.new.stack ≤ weight page.old.stack }
    ensures opened { 0 < length page.new.stack }
    ensures plain { (t : AnyTag) → symbol_of token.now ≡ Symbol.End t → is_formatting t ≡ false → IsCurrent t page.old → EndsCurrent Mode.InBody (Symbol.End t) token.now page.old → IsClosed t page.old page.new }
    ensures follows { (t : AnyTag) → symbol_of token.now ≡ Symbol.End t → FollowsPart (λ p. Do CloseNamed p) token.now page.old page.new }
{
    if let TokenKind::End { name } = token {
        page.close_named(name.as_str());
    }
}
