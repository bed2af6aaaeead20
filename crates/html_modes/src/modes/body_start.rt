// The mode in body (13.2.6.4.7): the start tags of the parts of a page, and of blocks.
ghost use Rattle.std.specs.Prelude.{◌≡◌, ◌+◌, ◌<◌, ◌≤◌, ◌⊎◌, ◌∷◌, [], OnOk, length, false, IfErr, true};
ghost use Rattle.html_ledger.specs.Symbols.{symbol_of};
ghost use Rattle.html_construction.specs.Budgets.{Refuses};
ghost use Rattle.html_construction.specs.Built.{Keeps, Takes};
ghost use Rattle.html_construction.specs.Grown.{Grown};
ghost use Rattle.html_construction.specs.Works.{Works};
ghost use Rattle.html_construction.specs.Weights.{weight, weight_of};
ghost use Rattle.html_modes.specs.Fitting.{Fits, Calls};
ghost use Rattle.html_modes.specs.Plain.{TurnsInBody};
ghost use Rattle.html_modes.specs.Steps.{Falls, Grows, Worked, compared};
ghost use Rattle.html_modes.specs.declared.outcome.Outcome.TheVariants.{Done};
ghost use Rattle.html_construction.specs.Calls.{item_group};
ghost use Rattle.html_construction.specs.Plans.{Ask, Do, Passes};
ghost use Rattle.html_construction.specs.Words.{FramesetOff, Insert, InsertVoid, IsQuirks};
ghost use Rattle.html_tree.specs.declared.groups.Group.TheVariants as group;
ghost use Rattle.html_modes.specs.RuleForms.{closing_p, over, popping_any};
ghost use Rattle.html_modes.specs.Rules.{Follows};
ghost use Rattle.html_modes.specs.RulesInBodyStart.{in_body_start, merging_body, opening_form, opening_item, opening_table, replacing_body};
ghost use Rattle.html_names.specs.Sets.{is_formatting};
ghost use Rattle.html_construction.specs.Tokens.{opens_own};
ghost use Rattle.html_tree.specs.Proper.{is_foreign_root};
ghost use Rattle.html_tree.specs.Seats.{is_part};

use crate::guards::has_form;
use crate::modes::body_phrase::{button_start, phrase_start, plain_start};
use crate::modes::head::head_start;
use html_construction::{ArenaError, Construction, Mode};
use html_ledger::{Cause, Symbol};
use html_names::Tag;
use html_tokens::TokenKind;
use html_tree::Group;

/// A start tag: the parts of a page, and blocks.
#[tactic(auto, using(crate::proofs::Settled::body_rules, crate::proofs::RulesInBodyStart::arms))]
pub(crate) fn body_start(
    page: &mut Construction,
    token: &TokenKind,
    tag: Tag,
) -> Result<(), ArenaError>
    requires root { is_foreign_root tag ≡ false }
    requires symbol { symbol_of token.now ≡ Symbol.Start tag }
    requires calls { Calls page.old }
    ensures fits { OnOk result (Fits page.new) }
    ensures takes { OnOk result (Takes token.now page.old page.new) }
    ensures falls { OnOk result (Falls Done (Symbol.Start tag) page.old page.new) }
    ensures grows { OnOk result (Grows Done page.old page.new) }
    ensures works { OnOk result (Worked Done token.now page.old page.new) }
    ensures plain { OnOk result (TurnsInBody Done (Symbol.Start tag) token.now page.old page.new) }
    ensures refuses { IfErr result (λ e. Refuses token.now e page.old page.new) }
    ensures follows { OnOk result (Follows (in_body_start tag) token.now Done page.old page.new) }
{
    match tag {
        // A start tag whose tag name is "html".
        Tag::Html => html_start(page, token),
        // A start tag whose tag name is "body".
        Tag::Body => second_body_start(page, token),
        // A start tag whose tag name is "frameset".
        Tag::Frameset => late_frameset_start(page, token),
        // A start tag whose tag name is "p".
        Tag::P => block_start(page, token, Tag::P),
        // A start tag whose tag name is "plaintext".
        Tag::Plaintext => block_start(page, token, Tag::Plaintext),
        // A start tag whose tag name is "form".
        Tag::Form => form_start(page, token),
        // A start tag whose tag name is "li".
        Tag::Li => item_start(page, token, Tag::Li),
        // A start tag whose tag name is one of: "dd", "dt".
        Tag::Dd => item_start(page, token, Tag::Dd),
        Tag::Dt => item_start(page, token, Tag::Dt),
        // A start tag whose tag name is "button".
        Tag::Button => button_start(page, token),
        // A start tag whose tag name is one of: "base", "basefont", "bgsound", "link", "meta", "noframes",
        // "script", "style", "template", "title".
        _ if tag.is_headish() => head_start(page, token, tag),
        // A start tag whose tag name is one of: "address", "article", "aside", .., "ul".
        _ if tag.is_block() => block_start(page, token, tag),
        // A start tag whose tag name is one of: "h1", "h2", "h3", "h4", "h5", "h6".
        _ if tag.is_heading() => heading_start(page, token, tag),
        // A start tag whose tag name is one of: "pre", "listing".
        _ if tag.is_preformatted() => preformatted_start(page, token, tag),
        _ => phrase_start(page, token, tag),
    }
}

/// A root after the first: its attributes are merged, unless a template is open.
#[tactic(auto, using(crate::proofs::Ruled::rule_words))]
pub(crate) fn html_start(page: &mut Construction, token: &TokenKind) -> Result<(), ArenaError>
    requires opened { 0 < length page.old.stack }
    requires symbol { symbol_of token.now ≡ Symbol.Start Tag.Html }
    requires quiet { page.old.ledger.kept ≡ [] }
    ensures rest { OnOk result (page.new ≡ record page.old { tree = page.new.tree; ledger = page.new.ledger }) }
    ensures takes { OnOk result (Takes token.now page.old page.new) }
    ensures quiet { OnOk result (page.new.ledger.kept ≡ []) }
    ensures grown { OnOk result (Grown 1 0 0 0 0 page.old page.new) }
    ensures works { OnOk result (Works 6 0 (compared token.now page.new + 6) page.old page.new) }
    ensures refuses { IfErr result (λ e. Refuses token.now e page.old page.new) }
    ensures follows { OnOk result (Follows (in_body_start Tag.Html) token.now Done page.old page.new) }
{
    if page.has_template() {
        return page.drop_token(token, Symbol::Start(Tag::Html), Cause::Misplaced);
    }
    page.merge_into_root(token)
}

/// A body after the first: its attributes are merged, unless a template is open or none is the second open element. (In a document
/// without templates one is.)
#[tactic(auto, using(crate::proofs::Settled::body_rules, crate::proofs::Ruled::rule_words, crate::proofs::RulesInBodyStart::misplacing))]
fn second_body_start(page: &mut Construction, token: &TokenKind) -> Result<(), ArenaError>
    requires symbol { symbol_of token.now ≡ Symbol.Start Tag.Body }
    requires calls { Calls page.old }
    ensures fits { OnOk result (Fits page.new) }
    ensures takes { OnOk result (Takes token.now page.old page.new) }
    ensures falls { OnOk result (Falls Done (Symbol.Start Tag.Body) page.old page.new) }
    ensures grows { OnOk result (Grows Done page.old page.new) }
    ensures works { OnOk result (Worked Done token.now page.old page.new) }
    ensures refuses { IfErr result (λ e. Refuses token.now e page.old page.new) }
    ensures follows { OnOk result (Follows (merging_body) token.now Done page.old page.new) }
{
    if !page.has_template() && page.has_body() {
        page.frameset_off();
        return page.merge_into_body(token);
    }
    if page.history().may_misplace(Tag::Body) {
        return page.drop_token(token, Symbol::Start(Tag::Body), Cause::Misplaced);
    }
    plain_start(page, token, Tag::Body)
}

/// A frameset, which may take the place of the body.
#[tactic(auto, using(crate::proofs::Settled::body_rules, crate::proofs::Ruled::rule_words))]
fn late_frameset_start(page: &mut Construction, token: &TokenKind) -> Result<(), ArenaError>
    requires symbol { symbol_of token.now ≡ Symbol.Start Tag.Frameset }
    requires calls { Calls page.old }
    ensures fits { OnOk result (Fits page.new) }
    ensures takes { OnOk result (Takes token.now page.old page.new) }
    ensures falls { OnOk result (Falls Done (Symbol.Start Tag.Frameset) page.old page.new) }
    ensures grows { OnOk result (Grows Done page.old page.new) }
    ensures works { OnOk result (Worked Done token.now page.old page.new) }
    ensures replaces { OnOk result ((page.new.stack ≡ page.old.stack) ⊎ (page.new.stack ≡ Tag.Frameset ∷ Tag.Html ∷ [])) }
    ensures refuses { IfErr result (λ e. Refuses token.now e page.old page.new) }
    ensures follows { OnOk result (Follows (replacing_body) token.now Done page.old page.new) }
{
    if !page.is_frameset_ok() || !page.can_replace_body() {
        return page.drop_token(token, Symbol::Start(Tag::Frameset), Cause::Misplaced);
    }
    page.replace_body(token)?;
    page.set_mode(Mode::InFrameset);
    Ok(())
}

/// A block or a paragraph.
#[tactic(auto, using(crate::proofs::Settled::body_rules, crate::proofs::Ruled::rule_words))]
fn block_start(page: &mut Construction, token: &TokenKind, tag: Tag) -> Result<(), ArenaError>
    requires small { weight_of tag ≤ 4 }
    requires named { opens_own tag ≡ true }
    requires part { is_part tag ≡ false }
    requires symbol { symbol_of token.now ≡ Symbol.Start tag }
    requires calls { Calls page.old }
    ensures fits { OnOk result (Fits page.new) }
    ensures takes { OnOk result (Takes token.now page.old page.new) }
    ensures falls { OnOk result (Falls Done (Symbol.Start tag) page.old page.new) }
    ensures grows { OnOk result (Grows Done page.old page.new) }
    ensures works { OnOk result (Worked Done token.now page.old page.new) }
    ensures plain { is_formatting tag ≡ false → OnOk result (TurnsInBody Done (Symbol.Start tag) token.now page.old page.new) }
    ensures refuses { IfErr result (λ e. Refuses token.now e page.old page.new) }
    ensures follows { OnOk result (Follows (closing_p (Do Insert over)) token.now Done page.old page.new) }
{
    page.close_p();
    page.insert(token, tag)
}

#[tactic(auto, using(crate::proofs::Settled::body_rules, crate::proofs::Ruled::rule_words))]
fn heading_start(page: &mut Construction, token: &TokenKind, tag: Tag) -> Result<(), ArenaError>
    requires small { weight_of tag ≤ 4 }
    requires named { opens_own tag ≡ true }
    requires part { is_part tag ≡ false }
    requires symbol { symbol_of token.now ≡ Symbol.Start tag }
    requires calls { Calls page.old }
    ensures fits { OnOk result (Fits page.new) }
    ensures takes { OnOk result (Takes token.now page.old page.new) }
    ensures falls { OnOk result (Falls Done (Symbol.Start tag) page.old page.new) }
    ensures grows { OnOk result (Grows Done page.old page.new) }
    ensures works { OnOk result (Worked Done token.now page.old page.new) }
    ensures refuses { IfErr result (λ e. Refuses token.now e page.old page.new) }
    ensures follows { OnOk result (Follows (closing_p (popping_any group.Heading (Do Insert over))) token.now Done page.old page.new) }
{
    page.close_p();
    let _ = page.pop_if(Group::Heading);
    page.insert(token, tag)
}

#[tactic(auto, using(crate::proofs::Settled::body_rules, crate::proofs::Ruled::rule_words))]
fn preformatted_start(
    page: &mut Construction,
    token: &TokenKind,
    tag: Tag,
) -> Result<(), ArenaError>
    requires small { weight_of tag ≤ 4 }
    requires named { opens_own tag ≡ true }
    requires part { is_part tag ≡ false }
    requires symbol { symbol_of token.now ≡ Symbol.Start tag }
    requires calls { Calls page.old }
    ensures fits { OnOk result (Fits page.new) }
    ensures takes { OnOk result (Takes token.now page.old page.new) }
    ensures falls { OnOk result (Falls Done (Symbol.Start tag) page.old page.new) }
    ensures grows { OnOk result (Grows Done page.old page.new) }
    ensures works { OnOk result (Worked Done token.now page.old page.new) }
    ensures refuses { IfErr result (λ e. Refuses token.now e page.old page.new) }
    ensures follows { OnOk result (Follows (closing_p (Do Insert (Do FramesetOff over))) token.now Done page.old page.new) }
{
    page.close_p();
    page.insert(token, tag)?;
    page.frameset_off();
    Ok(())
}

#[tactic(auto, using(crate::proofs::Settled::body_rules, crate::proofs::Ruled::rule_words))]
fn form_start(page: &mut Construction, token: &TokenKind) -> Result<(), ArenaError>
    requires symbol { symbol_of token.now ≡ Symbol.Start Tag.Form }
    requires calls { Calls page.old }
    ensures fits { OnOk result (Fits page.new) }
    ensures takes { OnOk result (Takes token.now page.old page.new) }
    ensures falls { OnOk result (Falls Done (Symbol.Start Tag.Form) page.old page.new) }
    ensures grows { OnOk result (Grows Done page.old page.new) }
    ensures works { OnOk result (Worked Done token.now page.old page.new) }
    ensures refuses { IfErr result (λ e. Refuses token.now e page.old page.new) }
    ensures follows { OnOk result (Follows (opening_form) token.now Done page.old page.new) }
{
    let inside = page.has_template();
    if !inside && has_form(page) {
        return page.drop_token(token, Symbol::Start(Tag::Form), Cause::Misplaced);
    }
    page.close_p();
    if inside {
        return page.insert(token, Tag::Form);
    }
    page.insert_form(token)
}

/// An item of a list.
#[tactic(auto, using(crate::proofs::Settled::body_rules, crate::proofs::Ruled::rule_words))]
fn item_start(page: &mut Construction, token: &TokenKind, tag: Tag) -> Result<(), ArenaError>
    requires small { weight_of tag ≤ 4 }
    requires named { opens_own tag ≡ true }
    requires part { is_part tag ≡ false }
    requires symbol { symbol_of token.now ≡ Symbol.Start tag }
    requires calls { Calls page.old }
    ensures fits { OnOk result (Fits page.new) }
    ensures takes { OnOk result (Takes token.now page.old page.new) }
    ensures falls { OnOk result (Falls Done (Symbol.Start tag) page.old page.new) }
    ensures grows { OnOk result (Grows Done page.old page.new) }
    ensures works { OnOk result (Worked Done token.now page.old page.new) }
    ensures refuses { IfErr result (λ e. Refuses token.now e page.old page.new) }
    ensures follows { OnOk result (Follows (opening_item (item_group tag)) token.now Done page.old page.new) }
{
    page.frameset_off();
    page.close_item(tag);
    page.close_p();
    page.insert(token, tag)
}

#[tactic(auto, using(crate::proofs::Settled::body_rules, crate::proofs::Ruled::rule_words))]
pub(crate) fn table_start(page: &mut Construction, token: &TokenKind) -> Result<(), ArenaError>
    requires symbol { symbol_of token.now ≡ Symbol.Start Tag.Table }
    requires calls { Calls page.old }
    ensures fits { OnOk result (Fits page.new) }
    ensures takes { OnOk result (Takes token.now page.old page.new) }
    ensures falls { OnOk result (Falls Done (Symbol.Start Tag.Table) page.old page.new) }
    ensures grows { OnOk result (Grows Done page.old page.new) }
    ensures works { OnOk result (Worked Done token.now page.old page.new) }
    ensures refuses { IfErr result (λ e. Refuses token.now e page.old page.new) }
    ensures follows { OnOk result (Follows (Ask IsQuirks opening_table (closing_p opening_table)) token.now Done page.old page.new) }
{
    close_p_before_table(page);
    page.insert(token, Tag::Table)?;
    page.frameset_off();
    page.set_mode(Mode::InTable);
    Ok(())
}

/// In quirks mode a table may stand in a paragraph.
fn close_p_before_table(page: &mut Construction)
    requires opened { 0 < length page.old.stack }
    ensures rest { page.new ≡ record page.old { tree = page.new.tree; stack = page.new.stack } }
    ensures keeps { Keeps page.old page.new }
    ensures grown { Grown 0 0 0 0 0 page.old page.new }
    ensures works { Works 6 0 6 page.old page.new }
    ensures lighter { weight page.new.stack ≤ weight page.old.stack }
    ensures opened { 0 < length page.new.stack }
    ensures follows { Passes (λ p. Ask IsQuirks p (closing_p p)) page.old page.new }
{
    if !page.is_quirks() {
        page.close_p();
    }
}

/// A thematic break.
#[tactic(auto, using(crate::proofs::Settled::body_rules, crate::proofs::Ruled::rule_words))]
pub(crate) fn rule_start(page: &mut Construction, token: &TokenKind) -> Result<(), ArenaError>
    requires symbol { symbol_of token.now ≡ Symbol.Start Tag.Hr }
    requires calls { Calls page.old }
    ensures fits { OnOk result (Fits page.new) }
    ensures takes { OnOk result (Takes token.now page.old page.new) }
    ensures falls { OnOk result (Falls Done (Symbol.Start Tag.Hr) page.old page.new) }
    ensures grows { OnOk result (Grows Done page.old page.new) }
    ensures works { OnOk result (Worked Done token.now page.old page.new) }
    ensures refuses { IfErr result (λ e. Refuses token.now e page.old page.new) }
    ensures follows { OnOk result (Follows (closing_p (Do (InsertVoid Tag.Hr) (Do FramesetOff over))) token.now Done page.old page.new) }
{
    page.close_p();
    page.insert_void(token, Tag::Hr)?;
    page.frameset_off();
    Ok(())
}
