// Formatting elements (13.2.6.4.7).
ghost use Rattle.std.specs.Prelude.{◌≡◌, ◌+◌, ◌<◌, ◌≤◌, OnOk, length, true, IfErr};
ghost use Rattle.html_names.specs.Sets.{is_formatting};
ghost use Rattle.html_ledger.specs.Symbols.{symbol_of};
ghost use Rattle.html_construction.specs.Budgets.{Refuses, RefusesAny};
ghost use Rattle.html_construction.specs.Built.{Keeps, Takes};
ghost use Rattle.html_construction.specs.Grown.{Grown};
ghost use Rattle.html_construction.specs.Works.{Works};
ghost use Rattle.html_construction.specs.Weights.{weight};
ghost use Rattle.html_modes.specs.Fitting.{Fits, Calls};
ghost use Rattle.html_modes.specs.Plain.{TurnsInBody};
ghost use Rattle.html_modes.specs.Steps.{Falls, Grows, Worked};
ghost use Rattle.html_modes.specs.declared.outcome.Outcome.TheVariants.{Done};
ghost use Rattle.html_construction.specs.Plans.{Adopt, Ask, CloseLink, Passes, Reconstruct};
ghost use Rattle.html_construction.specs.Words.{Finds};
ghost use Rattle.html_names.specs.declared.sets.Scope.TheVariants as scope;
ghost use Rattle.html_tree.specs.declared.groups.Group.TheVariants as group;
ghost use Rattle.html_tree.specs.declared.groups.Stop.TheVariants as stop;
ghost use Rattle.html_modes.specs.Rules.{Follows};
ghost use Rattle.html_modes.specs.RulesInBodyStart.{formatting, in_body_start_phrase};

use html_construction::{ArenaError, Construction};
use html_ledger::Symbol;
use html_names::{Scope, Tag};
use html_tokens::TokenKind;

#[tactic(auto, using(crate::proofs::Settled::body_rules, crate::proofs::Ruled::rule_words))]
pub(crate) fn formatting_start(
    page: &mut Construction,
    token: &TokenKind,
    tag: Tag,
) -> Result<(), ArenaError>
    requires formatting { is_formatting tag ≡ true }
    requires symbol { symbol_of token.now ≡ Symbol.Start tag }
    requires calls { Calls page.old }
    ensures fits { OnOk result (Fits page.new) }
    ensures takes { OnOk result (Takes token.now page.old page.new) }
    ensures falls { OnOk result (Falls Done (Symbol.Start tag) page.old page.new) }
    ensures grows { OnOk result (Grows Done page.old page.new) }
    ensures works { OnOk result (Worked Done token.now page.old page.new) }
    ensures plain { OnOk result (TurnsInBody Done (Symbol.Start tag) token.now page.old page.new) }
    ensures refuses { IfErr result (λ e. Refuses token.now e page.old page.new) }
    ensures follows { OnOk result (Follows (formatting) token.now Done page.old page.new) }
{
    page.reconstruct()?;
    page.insert_listed(token, tag)
}

/// A link, which closes one that is listed.
#[tactic(auto, using(crate::proofs::Settled::body_rules, crate::proofs::Ruled::rule_words))]
pub(crate) fn link_start(page: &mut Construction, token: &TokenKind) -> Result<(), ArenaError>
    requires symbol { symbol_of token.now ≡ Symbol.Start Tag.A }
    requires calls { Calls page.old }
    ensures fits { OnOk result (Fits page.new) }
    ensures takes { OnOk result (Takes token.now page.old page.new) }
    ensures falls { OnOk result (Falls Done (Symbol.Start Tag.A) page.old page.new) }
    ensures grows { OnOk result (Grows Done page.old page.new) }
    ensures works { OnOk result (Worked Done token.now page.old page.new) }
    ensures refuses { IfErr result (λ e. Refuses token.now e page.old page.new) }
    ensures follows { OnOk result (Follows (CloseLink formatting) token.now Done page.old page.new) }
{
    page.close_link()?;
    page.reconstruct()?;
    page.insert_listed(token, Tag::A)
}

/// A nobr, which closes one that is in scope.
#[tactic(auto, using(crate::proofs::Settled::body_rules, crate::proofs::Ruled::rule_words))]
pub(crate) fn nobr_start(page: &mut Construction, token: &TokenKind) -> Result<(), ArenaError>
    requires symbol { symbol_of token.now ≡ Symbol.Start Tag.Nobr }
    requires calls { Calls page.old }
    ensures fits { OnOk result (Fits page.new) }
    ensures takes { OnOk result (Takes token.now page.old page.new) }
    ensures falls { OnOk result (Falls Done (Symbol.Start Tag.Nobr) page.old page.new) }
    ensures grows { OnOk result (Grows Done page.old page.new) }
    ensures works { OnOk result (Worked Done token.now page.old page.new) }
    ensures refuses { IfErr result (λ e. Refuses token.now e page.old page.new) }
    ensures follows { OnOk result (Follows (in_body_start_phrase Tag.Nobr) token.now Done page.old page.new) }
{
    page.reconstruct()?;
    close_nobr(page)?;
    page.insert_listed(token, Tag::Nobr)
}

/// Closes a nobr that is in scope, and reconstructs the active formatting elements then.
fn close_nobr(page: &mut Construction) -> Result<(), ArenaError>
    requires opened { 0 < length page.old.stack }
    requires listed { length page.old.tree.list ≤ length page.old.ledger.fates }
    ensures rest { OnOk result (page.new ≡ record page.old { tree = page.new.tree; stack = page.new.stack }) }
    ensures keeps { OnOk result (Keeps page.old page.new) }
    ensures grown { OnOk result (Grown 0 (length page.old.ledger.fates + 32) 0 9 0 page.old page.new) }
    ensures works { OnOk result (Works 6 9 6 page.old page.new) }
    ensures opened { OnOk result (0 < length page.new.stack) }
    ensures lighter { OnOk result (weight page.new.stack ≤ weight page.old.stack) }
    ensures refuses { IfErr result (λ e. RefusesAny e page.old page.new) }
    ensures follows { OnOk result (Passes (λ p. Ask (Finds (group.Named Tag.Nobr) (stop.EndOf scope.Default)) (Adopt Tag.Nobr (Reconstruct p)) p) page.old page.new) }
{
    if !page.has_in_scope(Tag::Nobr, Scope::Default) {
        return Ok(());
    }
    page.end_formatting(Tag::Nobr)?;
    page.reconstruct()
}
