// Templates: their tags (13.2.6.4.4) and the mode in template (13.2.6.4.18).
ghost use Rattle.std.specs.Prelude.{◌≡◌, ◌+◌, ◌<◌, ◌≤◌, [], IfOk, OnOk, IsTrue, length, true, false, IfErr};
ghost use Rattle.html_ledger.specs.Symbols.{symbol_of};
ghost use Rattle.html_ledger.specs.Flags.{is_free};
ghost use Rattle.html_construction.specs.Budgets.{Refuses};
ghost use Rattle.html_construction.specs.Built.{Keeps, Takes};
ghost use Rattle.html_construction.specs.Grown.{Grown};
ghost use Rattle.html_construction.specs.Modes.{is_reset};
ghost use Rattle.html_construction.specs.Works.{Works};
ghost use Rattle.html_construction.specs.Weights.{weight};
ghost use Rattle.html_modes.specs.Fitting.{Fits, Calls, is_loose};
ghost use Rattle.html_modes.specs.Steps.{Falls, Grows, Steps, Worked};
ghost use Rattle.html_modes.specs.Ranks.{rank};
ghost use Rattle.html_modes.specs.declared.outcome.Outcome.TheVariants.{Done};
ghost use Rattle.html_names.specs.declared.tag.Tag.TheVariants as tag;
ghost use Rattle.html_tree.specs.declared.groups.Group.TheVariants as group;
ghost use Rattle.html_tree.specs.declared.groups.Stop.TheVariants as stop;
ghost use Rattle.html_tree.specs.declared.groups.Target.TheVariants.{Current};
ghost use Rattle.html_construction.specs.Plans.{Chooses, Do, closing};
ghost use Rattle.html_construction.specs.Words.{ClearToMarker, Insert, InsertAt, PopTemplate, Reset};
ghost use Rattle.html_modes.specs.RuleForms.{again, done_with};
ghost use Rattle.html_modes.specs.Rules.{Follows};
ghost use Rattle.html_modes.specs.RulesInHead.{closing_template, opening_template};
ghost use Rattle.html_modes.specs.RulesInTemplate.{in_template, mode_in_template};

use crate::modes::body::body_rules;
use crate::modes::head::head_start;
use crate::outcome::Outcome;
use html_construction::{ArenaError, Construction, Mode};
use html_ledger::Symbol;
use html_names::Tag;
use html_tokens::TokenKind;
use html_tree::Target;

/// The start tag of a template, whose element goes to a target.
#[tactic(auto, using(crate::proofs::Settled::mode_rules, crate::proofs::Ruled::rule_words))]
pub(crate) fn template_start_at(
    page: &mut Construction,
    token: &TokenKind,
    target: Target,
) -> Result<(), ArenaError>
    requires symbol { symbol_of token.now ≡ Symbol.Start Tag.Template }
    requires calls { Calls page.old }
    ensures fits { OnOk result (Fits page.new) }
    ensures takes { OnOk result (Takes token.now page.old page.new) }
    ensures falls { OnOk result (Falls Done (Symbol.Start Tag.Template) page.old page.new) }
    ensures grows { OnOk result (Grows Done page.old page.new) }
    ensures works { OnOk result (Worked Done token.now page.old page.new) }
    ensures refuses { IfErr result (λ e. Refuses token.now e page.old page.new) }
    ensures follows { OnOk result (Follows (opening_template (InsertAt target)) token.now Done page.old page.new) }
    ensures here { OnOk result (target ≡ Current page.old.fostering → Follows (opening_template Insert) token.now Done page.old page.new) }
{
    page.insert_at(token, Tag::Template, target)?;
    page.add_marker()?;
    page.frameset_off();
    page.push_template_mode(Mode::InTemplate)?;
    page.set_mode(Mode::InTemplate);
    Ok(())
}

/// The end tag of a template.
#[tactic(auto, using(crate::proofs::Settled::template_rules, crate::proofs::Ruled::rule_words))]
pub(crate) fn template_end(page: &mut Construction, token: &TokenKind) -> Result<(), ArenaError>
    requires symbol { symbol_of token.now ≡ Symbol.End Tag.Template }
    requires calls { Calls page.old }
    ensures fits { OnOk result (Fits page.new) }
    ensures takes { OnOk result (Takes token.now page.old page.new) }
    ensures falls { OnOk result (Falls Done (Symbol.End Tag.Template) page.old page.new) }
    ensures grows { OnOk result (Grows Done page.old page.new) }
    ensures works { OnOk result (Worked Done token.now page.old page.new) }
    ensures refuses { IfErr result (λ e. Refuses token.now e page.old page.new) }
    ensures follows { OnOk result (Follows (closing_template done_with done_with) token.now Done page.old page.new) }
{
    if !page.has_template() {
        return page.end(token, Symbol::End(Tag::Template));
    }
    let _ = close_template(page);
    page.end(token, Symbol::End(Tag::Template))
}

/// Closes the last open template, sets the mode that the elements outside call for, and says whether there was one.
#[tactic(auto, using(crate::proofs::Settled::reset_rules, crate::proofs::Ruled::rule_words))]
fn close_template(page: &mut Construction) -> bool
    requires opened { 0 < length page.old.stack }
    requires listed { length page.old.tree.list ≤ length page.old.ledger.fates }
    ensures rest { page.new ≡ record page.old { tree = page.new.tree; stack = page.new.stack; mode = page.new.mode; templates = page.new.templates } }
    ensures keeps { Keeps page.old page.new }
    ensures grown { Grown 0 0 0 0 0 page.old page.new }
    ensures works { Works 6 0 6 page.old page.new }
    ensures lighter { weight page.new.stack ≤ weight page.old.stack }
    ensures opened { 0 < length page.new.stack }
    ensures found { result ≡ true → weight page.new.stack + 10 ≤ weight page.old.stack }
    ensures reset { result ≡ true → is_reset page.new.mode ≡ true }
    ensures same { result ≡ false → page.new.mode ≡ page.old.mode }
    ensures follows { Chooses (λ p n. closing (group.Named tag.Template) stop.Never (Do ClearToMarker (Do PopTemplate (Do Reset p))) n) result page.old page.new }
{
    if !page.pop_through(Tag::Template) {
        return false;
    }
    page.clear_to_marker();
    page.pop_template_mode();
    page.reset();
    true
}

/// The rules for the "in template" insertion mode (13.2.6.4.18).
#[tactic(auto, using(crate::proofs::Settled::template_rules, crate::proofs::RawText::headish_names, crate::proofs::RulesInTemplate::arms))]
pub(crate) fn in_template(
    page: &mut Construction,
    token: &TokenKind,
    symbol: Symbol,
) -> Result<Outcome, ArenaError>
    requires symbol { symbol_of token.now ≡ symbol }
    requires mode { page.old.mode ≡ Mode.InTemplate }
    requires fits { Fits page.old }
    requires quiet { page.old.ledger.kept ≡ [] }
    requires free { IsTrue (is_free page.old.ledger.history symbol) }
    ensures fits { OnOk result (Fits page.new) }
    ensures takes { IfOk result (λ o. Steps o token.now page.old page.new) }
    ensures falls { IfOk result (λ o. Falls o symbol page.old page.new) }
    ensures grows { IfOk result (λ o. Grows o page.old page.new) }
    ensures works { IfOk result (λ o. Worked o token.now page.old page.new) }
    ensures refuses { IfErr result (λ e. Refuses token.now e page.old page.new) }
    ensures follows { IfOk result (λ o. Follows (in_template symbol) token.now o page.old page.new) }
{
    match symbol {
        // A character token, a comment token, a DOCTYPE token: process the token using the rules for the "in
        // body" insertion mode.
        Symbol::Char(_) | Symbol::Comment | Symbol::Doctype => {
            let outcome = body_rules(page, token, symbol)?;
            return Ok(outcome);
        }
        Symbol::Start(tag) => {
            // A start tag whose tag name is one of: "base", "basefont", "bgsound", "link", "meta", "noframes",
            // "script", "style", "template", "title".
            if tag.is_headish() {
                head_start(page, token, tag)?;
                return Ok(Outcome::Done);
            }
            // Any other start tag: switch the current template insertion mode and the insertion mode to those for
            // the tag, reprocess.
            let mode = mode_in_template(tag);
            page.replace_template_mode(mode)?;
            page.set_mode(mode);
            return Ok(Outcome::Reprocess);
        }
        Symbol::End(tag) => match tag {
            // An end tag whose tag name is "template": process the token using the rules for "in head".
            Tag::Template => template_end(page, token)?,
            // Any other end tag: ignore the token.
            _ => page.end(token, symbol)?,
        },
        // An end-of-file token.
        Symbol::Eof => {
            let outcome = template_eof(page, token)?;
            return Ok(outcome);
        }
    }
    Ok(Outcome::Done)
}

/// The end of the page, which closes the open templates one by one.
#[tactic(auto, using(crate::proofs::Settled::template_rules, crate::proofs::Ruled::rule_words))]
pub(crate) fn template_eof(
    page: &mut Construction,
    token: &TokenKind,
) -> Result<Outcome, ArenaError>
    requires symbol { symbol_of token.now ≡ Symbol.Eof }
    requires calls { Calls page.old }
    ensures fits { OnOk result (Fits page.new) }
    ensures takes { IfOk result (λ o. Steps o token.now page.old page.new) }
    ensures falls { IfOk result (λ o. Falls o (Symbol.Eof) page.old page.new) }
    ensures grows { IfOk result (λ o. Grows o page.old page.new) }
    ensures works { IfOk result (λ o. Worked o token.now page.old page.new) }
    ensures refuses { IfErr result (λ e. Refuses token.now e page.old page.new) }
    ensures follows { IfOk result (λ o. Follows (closing_template again done_with) token.now o page.old page.new) }
{
    if page.has_template() && close_template(page) {
        return Ok(Outcome::Reprocess);
    }
    page.end(token, Symbol::Eof)?;
    Ok(Outcome::Done)
}

/// The mode in which the content of a template goes on.
fn mode_in_template(tag: Tag) -> Mode
    ensures reset { is_reset result ≡ true }
    ensures loose { is_loose result ≡ true }
    ensures low { rank result (Symbol.Start tag) < 2 }
    ensures value { result ≡ mode_in_template tag }
{
    if tag.is_table_part() {
        Mode::InTable
    } else if tag.is(Tag::Col) {
        Mode::InColumnGroup
    } else if tag.is(Tag::Tr) {
        Mode::InTableBody
    } else if tag.is_cell() {
        Mode::InRow
    } else {
        Mode::InBody
    }
}
