// The mode in body (13.2.6.4.7): the start tags of what stands among text.
ghost use Rattle.std.specs.Prelude.{◌≡◌, ◌<◌, ◌≤◌, OnOk, length, false, IfErr, true};
ghost use Rattle.html_ledger.specs.Symbols.{symbol_of};
ghost use Rattle.html_construction.specs.Budgets.{Refuses};
ghost use Rattle.html_construction.specs.Built.{Keeps, Takes};
ghost use Rattle.html_construction.specs.Grown.{Grown};
ghost use Rattle.html_construction.specs.Works.{Works};
ghost use Rattle.html_construction.specs.Weights.{weight, weight_of};
ghost use Rattle.html_modes.specs.Fitting.{Fits, Calls};
ghost use Rattle.html_modes.specs.Plain.{TurnsInBody};
ghost use Rattle.html_modes.specs.Steps.{Falls, Grows, Worked};
ghost use Rattle.html_modes.specs.declared.outcome.Outcome.TheVariants.{Done};
ghost use Rattle.html_modes.specs.RawText.{holds_text_alone, is_body_text};
ghost use Rattle.html_names.specs.Sets.{is_formatting, is_headish};
ghost use Rattle.html_names.specs.Tags.{is_same as same_tag};
ghost use Rattle.html_construction.specs.Tokens.{opens_own};
ghost use Rattle.html_construction.specs.Plans.{Ask, Do, Passes, Reconstruct};
ghost use Rattle.html_construction.specs.Words.{AddMarker, Finds, FramesetOff, Implied, Insert, InsertVoid, IsHidden, is_in_table};
ghost use Rattle.html_names.specs.declared.sets.Scope.TheVariants as scope;
ghost use Rattle.html_tree.specs.declared.groups.Group.TheVariants as group;
ghost use Rattle.html_tree.specs.declared.groups.Stop.TheVariants as stop;
ghost use Rattle.html_modes.specs.RuleForms.{closing_any, over, popping_any};
ghost use Rattle.html_modes.specs.Rules.{Follows};
ghost use Rattle.html_modes.specs.RulesInBodyStart.{among_text, in_body_start_phrase, in_body_start_rest, opening_select, void_among_text};
ghost use Rattle.html_tree.specs.Proper.{is_foreign_root};
ghost use Rattle.html_tree.specs.Seats.{is_part};

use crate::hidden::is_hidden;
use crate::modes::body_start::{rule_start, table_start};
use crate::modes::body_text::{body_text_start, is_body_text};
use crate::modes::formatting::{formatting_start, link_start, nobr_start};
use html_construction::{ArenaError, Construction, Mode};
use html_ledger::{Cause, Symbol};
use html_names::{Scope, Tag};
use html_tokens::TokenKind;
use html_tree::Group;

/// A start tag: what stands among text.
#[tactic(auto, using(crate::proofs::Settled::body_rules, crate::proofs::RulesInBodyStart::phrase_arms))]
pub(crate) fn phrase_start(
    page: &mut Construction,
    token: &TokenKind,
    tag: Tag,
) -> Result<(), ArenaError>
    requires small { weight_of tag ≤ 4 }
    requires other { is_headish tag ≡ false }
    requires root { is_foreign_root tag ≡ false }
    requires symbol { symbol_of token.now ≡ Symbol.Start tag }
    requires calls { Calls page.old }
    ensures fits { OnOk result (Fits page.new) }
    ensures takes { OnOk result (Takes token.now page.old page.new) }
    ensures falls { OnOk result (Falls Done (Symbol.Start tag) page.old page.new) }
    ensures grows { OnOk result (Grows Done page.old page.new) }
    ensures works { OnOk result (Worked Done token.now page.old page.new) }
    ensures plain { OnOk result (TurnsInBody Done (Symbol.Start tag) token.now page.old page.new) }
    ensures refuses { IfErr result (λ e. Refuses token.now e page.old page.new) }
    ensures follows { OnOk result (Follows (in_body_start_phrase tag) token.now Done page.old page.new) }
{
    match tag {
        // A start tag whose tag name is "a".
        Tag::A => link_start(page, token),
        // A start tag whose tag name is "nobr".
        Tag::Nobr => nobr_start(page, token),
        // A start tag whose tag name is "table".
        Tag::Table => table_start(page, token),
        // A start tag whose tag name is "input".
        Tag::Input => input_start(page, token),
        // A start tag whose tag name is "hr".
        Tag::Hr => rule_start(page, token),
        // A start tag whose tag name is "image": change the token's tag name to "img" and reprocess it.
        _ if tag.is(Tag::Image) => void_start(page, token, tag),
        // A start tag whose tag name is one of: "b", "big", "code", .., "tt", "u".
        _ if tag.is_formatting() => formatting_start(page, token, tag),
        // A start tag whose tag name is one of: "applet", "marquee", "object".
        _ if tag.takes_marker() => marker_start(page, token, tag),
        // A start tag whose tag name is one of: "area", "br", "embed", "img", "keygen", "wbr".
        _ if tag.is_void_phrase() => void_start(page, token, tag),
        // A start tag whose tag name is one of: "param", "source", "track".
        _ if tag.is_void_part() => {
            page.insert_void(token, tag)?;
            Ok(())
        }
        // A start tag whose tag name is one of: "iframe", "noembed", "textarea", "xmp".
        _ if is_body_text(tag) => body_text_start(page, token, tag),
        _ => other_start(page, token, tag),
    }
}

/// A start tag: selects, what is ignored, and all others.
#[tactic(auto, using(crate::proofs::Settled::body_rules, crate::proofs::RulesInBodyStart::rest_arms))]
fn other_start(page: &mut Construction, token: &TokenKind, tag: Tag) -> Result<(), ArenaError>
    requires small { weight_of tag ≤ 4 }
    requires named { same_tag tag Tag.Image ≡ false }
    requires root { is_foreign_root tag ≡ false }
    requires other { holds_text_alone tag ≡ false }
    requires symbol { symbol_of token.now ≡ Symbol.Start tag }
    requires calls { Calls page.old }
    ensures fits { OnOk result (Fits page.new) }
    ensures takes { OnOk result (Takes token.now page.old page.new) }
    ensures falls { OnOk result (Falls Done (Symbol.Start tag) page.old page.new) }
    ensures grows { OnOk result (Grows Done page.old page.new) }
    ensures works { OnOk result (Worked Done token.now page.old page.new) }
    ensures plain { is_formatting tag ≡ false → OnOk result (TurnsInBody Done (Symbol.Start tag) token.now page.old page.new) }
    ensures refuses { IfErr result (λ e. Refuses token.now e page.old page.new) }
    ensures follows { OnOk result (Follows (in_body_start_rest tag) token.now Done page.old page.new) }
{
    match tag {
        // A start tag whose tag name is "select".
        Tag::Select => select_start(page, token),
        // A start tag whose tag name is one of: "optgroup", "option".
        Tag::Optgroup => option_start(page, token, Tag::Optgroup),
        Tag::Option => option_start(page, token, Tag::Option),
        // A start tag whose tag name is one of: "rb", "rtc".
        Tag::Rb => ruby_start(page, token, Tag::Rb, None),
        Tag::Rtc => ruby_start(page, token, Tag::Rtc, None),
        // A start tag whose tag name is one of: "rp", "rt".
        Tag::Rp => ruby_start(page, token, Tag::Rp, Some(Tag::Rtc)),
        Tag::Rt => ruby_start(page, token, Tag::Rt, Some(Tag::Rtc)),
        // A start tag whose tag name is one of: "caption", "col", "colgroup", "frame", "head", "tbody", "td",
        // "tfoot", "th", "thead", "tr": ignore the token.
        _ if tag.is_placed() => page.drop_token(token, Symbol::Start(tag), Cause::Misplaced),
        // Void elements come before: this is none.
        _ if tag.is_void() => void_start(page, token, tag),
        // Any other start tag.
        _ => plain_start(page, token, tag),
    }
}

/// An element among text.
#[tactic(auto, using(crate::proofs::Settled::body_rules, crate::proofs::Ruled::rule_words))]
pub(crate) fn plain_start(
    page: &mut Construction,
    token: &TokenKind,
    tag: Tag,
) -> Result<(), ArenaError>
    requires small { weight_of tag ≤ 4 }
    requires named { opens_own tag ≡ true }
    requires part { is_part tag ≡ false }
    requires symbol { symbol_of token.now ≡ Symbol.Start tag }
    requires calls { Calls page.old }
    ensures fits { OnOk result (Fits page.new) }
    ensures takes { OnOk result (Takes token.now page.old page.new) }
    ensures falls { OnOk result (Falls Done (Symbol.Start tag) page.old page.new) }
    ensures grows { OnOk result (Grows Done page.old page.new) }
    ensures works { OnOk result (Works 2 1 0 page.old page.new) }
    ensures plain { is_formatting tag ≡ false → OnOk result (TurnsInBody Done (Symbol.Start tag) token.now page.old page.new) }
    ensures refuses { IfErr result (λ e. Refuses token.now e page.old page.new) }
    ensures follows { OnOk result (Follows (among_text) token.now Done page.old page.new) }
{
    page.reconstruct()?;
    page.insert(token, tag)
}

/// A void element among text.
#[tactic(auto, using(crate::proofs::Settled::body_rules, crate::proofs::Ruled::rule_words))]
fn void_start(page: &mut Construction, token: &TokenKind, tag: Tag) -> Result<(), ArenaError>
    requires symbol { symbol_of token.now ≡ Symbol.Start tag }
    requires part { is_part tag ≡ false }
    requires root { is_foreign_root tag ≡ false }
    requires calls { Calls page.old }
    ensures fits { OnOk result (Fits page.new) }
    ensures takes { OnOk result (Takes token.now page.old page.new) }
    ensures falls { OnOk result (Falls Done (Symbol.Start tag) page.old page.new) }
    ensures grows { OnOk result (Grows Done page.old page.new) }
    ensures works { OnOk result (Worked Done token.now page.old page.new) }
    ensures refuses { IfErr result (λ e. Refuses token.now e page.old page.new) }
    ensures follows { OnOk result (Follows (void_among_text tag) token.now Done page.old page.new) }
{
    page.reconstruct()?;
    page.insert_void(token, tag)?;
    page.frameset_off();
    Ok(())
}

#[tactic(auto, using(crate::proofs::Settled::body_rules, crate::proofs::RulesInBodyStart::hiding))]
fn input_start(page: &mut Construction, token: &TokenKind) -> Result<(), ArenaError>
    requires symbol { symbol_of token.now ≡ Symbol.Start Tag.Input }
    requires calls { Calls page.old }
    ensures fits { OnOk result (Fits page.new) }
    ensures takes { OnOk result (Takes token.now page.old page.new) }
    ensures falls { OnOk result (Falls Done (Symbol.Start Tag.Input) page.old page.new) }
    ensures grows { OnOk result (Grows Done page.old page.new) }
    ensures works { OnOk result (Worked Done token.now page.old page.new) }
    ensures refuses { IfErr result (λ e. Refuses token.now e page.old page.new) }
    ensures follows { OnOk result (Follows (Reconstruct (Do (InsertVoid Tag.Input) (Ask IsHidden over (Do FramesetOff over)))) token.now Done page.old page.new) }
{
    page.reconstruct()?;
    page.insert_void(token, Tag::Input)?;
    if !is_hidden(token) {
        page.frameset_off();
    }
    Ok(())
}

#[tactic(auto, using(crate::proofs::Settled::body_rules, crate::proofs::Ruled::rule_words))]
pub(crate) fn button_start(page: &mut Construction, token: &TokenKind) -> Result<(), ArenaError>
    requires symbol { symbol_of token.now ≡ Symbol.Start Tag.Button }
    requires calls { Calls page.old }
    ensures fits { OnOk result (Fits page.new) }
    ensures takes { OnOk result (Takes token.now page.old page.new) }
    ensures falls { OnOk result (Falls Done (Symbol.Start Tag.Button) page.old page.new) }
    ensures grows { OnOk result (Grows Done page.old page.new) }
    ensures works { OnOk result (Worked Done token.now page.old page.new) }
    ensures refuses { IfErr result (λ e. Refuses token.now e page.old page.new) }
    ensures follows { OnOk result (Follows (closing_any (group.Named Tag.Button) (stop.EndOf scope.Default) (Reconstruct (Do Insert (Do FramesetOff over)))) token.now Done page.old page.new) }
{
    let _ = page.close_in_scope(Tag::Button, Scope::Default);
    page.reconstruct()?;
    page.insert(token, Tag::Button)?;
    page.frameset_off();
    Ok(())
}

/// An element that puts a marker into the list.
#[tactic(auto, using(crate::proofs::Settled::body_rules, crate::proofs::Ruled::rule_words))]
fn marker_start(page: &mut Construction, token: &TokenKind, tag: Tag) -> Result<(), ArenaError>
    requires small { weight_of tag ≤ 4 }
    requires named { opens_own tag ≡ true }
    requires part { is_part tag ≡ false }
    requires symbol { symbol_of token.now ≡ Symbol.Start tag }
    requires calls { Calls page.old }
    ensures fits { OnOk result (Fits page.new) }
    ensures takes { OnOk result (Takes token.now page.old page.new) }
    ensures falls { OnOk result (Falls Done (Symbol.Start tag) page.old page.new) }
    ensures grows { OnOk result (Grows Done page.old page.new) }
    ensures works { OnOk result (Worked Done token.now page.old page.new) }
    ensures refuses { IfErr result (λ e. Refuses token.now e page.old page.new) }
    ensures follows { OnOk result (Follows (Reconstruct (Do Insert (Do AddMarker (Do FramesetOff over)))) token.now Done page.old page.new) }
{
    page.reconstruct()?;
    page.insert(token, tag)?;
    page.add_marker()?;
    page.frameset_off();
    Ok(())
}

/// A part of a ruby annotation.
#[tactic(auto, using(crate::proofs::Settled::body_rules, crate::proofs::Ruled::rule_words))]
fn ruby_start(
    page: &mut Construction,
    token: &TokenKind,
    tag: Tag,
    except: Option<Tag>,
) -> Result<(), ArenaError>
    requires small { weight_of tag ≤ 4 }
    requires named { opens_own tag ≡ true }
    requires part { is_part tag ≡ false }
    requires symbol { symbol_of token.now ≡ Symbol.Start tag }
    requires calls { Calls page.old }
    ensures fits { OnOk result (Fits page.new) }
    ensures takes { OnOk result (Takes token.now page.old page.new) }
    ensures falls { OnOk result (Falls Done (Symbol.Start tag) page.old page.new) }
    ensures grows { OnOk result (Grows Done page.old page.new) }
    ensures works { OnOk result (Worked Done token.now page.old page.new) }
    ensures refuses { IfErr result (λ e. Refuses token.now e page.old page.new) }
    ensures follows { OnOk result (Follows (Ask (Finds (group.Named Tag.Ruby) (stop.EndOf scope.Default)) (Do (Implied except) (Do Insert over)) (Do Insert over)) token.now Done page.old page.new) }
{
    close_ruby_part(page, except);
    page.insert(token, tag)
}

/// In a ruby, generates implied end tags, but for one name.
fn close_ruby_part(page: &mut Construction, except: Option<Tag>)
    requires opened { 0 < length page.old.stack }
    ensures rest { page.new ≡ record page.old { tree = page.new.tree; stack = page.new.stack } }
    ensures keeps { Keeps page.old page.new }
    ensures grown { Grown 0 0 0 0 0 page.old page.new }
    ensures works { Works 6 0 6 page.old page.new }
    ensures lighter { weight page.new.stack ≤ weight page.old.stack }
    ensures opened { 0 < length page.new.stack }
    ensures follows { Passes (λ p. Ask (Finds (group.Named Tag.Ruby) (stop.EndOf scope.Default)) (Do (Implied except) p) p) page.old page.new }
{
    if page.has_in_scope(Tag::Ruby, Scope::Default) {
        page.implied(except);
    }
}

#[tactic(auto, using(crate::proofs::Settled::body_rules, crate::proofs::RulesInBodyStart::selecting))]
fn select_start(page: &mut Construction, token: &TokenKind) -> Result<(), ArenaError>
    requires symbol { symbol_of token.now ≡ Symbol.Start Tag.Select }
    requires calls { Calls page.old }
    ensures fits { OnOk result (Fits page.new) }
    ensures takes { OnOk result (Takes token.now page.old page.new) }
    ensures falls { OnOk result (Falls Done (Symbol.Start Tag.Select) page.old page.new) }
    ensures grows { OnOk result (Grows Done page.old page.new) }
    ensures works { OnOk result (Worked Done token.now page.old page.new) }
    ensures refuses { IfErr result (λ e. Refuses token.now e page.old page.new) }
    ensures follows { OnOk result (Follows (opening_select) token.now Done page.old page.new) }
{
    page.reconstruct()?;
    page.insert(token, Tag::Select)?;
    page.frameset_off();
    if is_in_table(page.mode()) {
        page.set_mode(Mode::InSelectInTable);
    } else {
        page.set_mode(Mode::InSelect);
    }
    Ok(())
}

/// A mode in which a select stands in a table.
fn is_in_table(mode: Mode) -> bool
    ensures value { result ≡ is_in_table mode }
{
    matches!(
        mode,
        Mode::InTable | Mode::InCaption | Mode::InTableBody | Mode::InRow | Mode::InCell
    )
}

/// An option, or a group of them, outside a select.
#[tactic(auto, using(crate::proofs::Settled::body_rules, crate::proofs::Ruled::rule_words))]
fn option_start(page: &mut Construction, token: &TokenKind, tag: Tag) -> Result<(), ArenaError>
    requires small { weight_of tag ≤ 4 }
    requires named { opens_own tag ≡ true }
    requires part { is_part tag ≡ false }
    requires symbol { symbol_of token.now ≡ Symbol.Start tag }
    requires calls { Calls page.old }
    ensures fits { OnOk result (Fits page.new) }
    ensures takes { OnOk result (Takes token.now page.old page.new) }
    ensures falls { OnOk result (Falls Done (Symbol.Start tag) page.old page.new) }
    ensures grows { OnOk result (Grows Done page.old page.new) }
    ensures works { OnOk result (Worked Done token.now page.old page.new) }
    ensures refuses { IfErr result (λ e. Refuses token.now e page.old page.new) }
    ensures follows { OnOk result (Follows (popping_any (group.Named Tag.Option) among_text) token.now Done page.old page.new) }
{
    let _ = page.pop_if(Group::Named(Tag::Option));
    plain_start(page, token, tag)
}
