// The mode in body (13.2.6.4.7): the start tags of elements that hold text alone.
ghost use Rattle.std.specs.Prelude.{◌≡◌, ◌≤◌, OnOk, false, true, IfErr};
ghost use Rattle.html_ledger.specs.Symbols.{symbol_of};
ghost use Rattle.html_construction.specs.Budgets.{Refuses};
ghost use Rattle.html_construction.specs.Built.{Takes};
ghost use Rattle.html_construction.specs.Weights.{weight_of};
ghost use Rattle.html_modes.specs.Fitting.{Fits, Calls};
ghost use Rattle.html_modes.specs.Steps.{Falls, Grows, Worked};
ghost use Rattle.html_modes.specs.declared.outcome.Outcome.TheVariants.{Done};
ghost use Rattle.html_modes.specs.RawText.{is_body_text};
ghost use Rattle.html_construction.specs.Tokens.{opens_own};
ghost use Rattle.html_construction.specs.Plans.{Do, Reconstruct};
ghost use Rattle.html_construction.specs.Words.{FramesetOff, Insert};
ghost use Rattle.html_modes.specs.RuleForms.{closing_p};
ghost use Rattle.html_modes.specs.Rules.{Follows};
ghost use Rattle.html_modes.specs.RulesInBodyStart.{in_body_start_phrase};
ghost use Rattle.html_modes.specs.RulesInHead.{holding_text};

use crate::modes::text::text_start;
use html_construction::{ArenaError, Construction};
use html_ledger::Symbol;
use html_names::Tag;
use html_tokens::TokenKind;

/// An element of the body that holds text alone.
#[tactic(auto, using(crate::proofs::Settled::text_rules, crate::proofs::RulesInBodyStart::text_arms))]
pub(crate) fn body_text_start(
    page: &mut Construction,
    token: &TokenKind,
    tag: Tag,
) -> Result<(), ArenaError>
    requires small { weight_of tag ≤ 4 }
    requires named { opens_own tag ≡ true }
    requires text { is_body_text tag ≡ true }
    requires symbol { symbol_of token.now ≡ Symbol.Start tag }
    requires calls { Calls page.old }
    ensures fits { OnOk result (Fits page.new) }
    ensures takes { OnOk result (Takes token.now page.old page.new) }
    ensures falls { OnOk result (Falls Done (Symbol.Start tag) page.old page.new) }
    ensures grows { OnOk result (Grows Done page.old page.new) }
    ensures works { OnOk result (Worked Done token.now page.old page.new) }
    ensures refuses { IfErr result (λ e. Refuses token.now e page.old page.new) }
    ensures follows { OnOk result (Follows (in_body_start_phrase tag) token.now Done page.old page.new) }
{
    match tag {
        // A start tag whose tag name is "textarea".
        Tag::Textarea => textarea_start(page, token),
        // A start tag whose tag name is "xmp".
        Tag::Xmp => xmp_start(page, token),
        // A start tag whose tag name is "iframe".
        Tag::Iframe => iframe_start(page, token),
        // A start tag whose tag name is "noembed".
        _ => text_start(page, token, tag),
    }
}

/// Whether an element of the body holds text alone.
pub(crate) fn is_body_text(tag: Tag) -> bool
    ensures value { result ≡ is_body_text tag }
{
    matches!(tag, Tag::Textarea | Tag::Xmp | Tag::Iframe | Tag::Noembed)
}

#[tactic(auto, using(crate::proofs::Settled::text_rules, crate::proofs::Ruled::rule_words))]
fn textarea_start(page: &mut Construction, token: &TokenKind) -> Result<(), ArenaError>
    requires symbol { symbol_of token.now ≡ Symbol.Start Tag.Textarea }
    requires calls { Calls page.old }
    ensures fits { OnOk result (Fits page.new) }
    ensures takes { OnOk result (Takes token.now page.old page.new) }
    ensures falls { OnOk result (Falls Done (Symbol.Start Tag.Textarea) page.old page.new) }
    ensures grows { OnOk result (Grows Done page.old page.new) }
    ensures works { OnOk result (Worked Done token.now page.old page.new) }
    ensures refuses { IfErr result (λ e. Refuses token.now e page.old page.new) }
    ensures follows { OnOk result (Follows (Do FramesetOff (holding_text Insert)) token.now Done page.old page.new) }
{
    page.frameset_off();
    text_start(page, token, Tag::Textarea)
}

#[tactic(auto, using(crate::proofs::Settled::text_rules, crate::proofs::Ruled::rule_words))]
fn xmp_start(page: &mut Construction, token: &TokenKind) -> Result<(), ArenaError>
    requires symbol { symbol_of token.now ≡ Symbol.Start Tag.Xmp }
    requires calls { Calls page.old }
    ensures fits { OnOk result (Fits page.new) }
    ensures takes { OnOk result (Takes token.now page.old page.new) }
    ensures falls { OnOk result (Falls Done (Symbol.Start Tag.Xmp) page.old page.new) }
    ensures grows { OnOk result (Grows Done page.old page.new) }
    ensures works { OnOk result (Worked Done token.now page.old page.new) }
    ensures refuses { IfErr result (λ e. Refuses token.now e page.old page.new) }
    ensures follows { OnOk result (Follows (closing_p (Reconstruct (Do FramesetOff (holding_text Insert)))) token.now Done page.old page.new) }
{
    page.close_p();
    page.reconstruct()?;
    page.frameset_off();
    text_start(page, token, Tag::Xmp)
}

#[tactic(auto, using(crate::proofs::Settled::text_rules, crate::proofs::Ruled::rule_words))]
fn iframe_start(page: &mut Construction, token: &TokenKind) -> Result<(), ArenaError>
    requires symbol { symbol_of token.now ≡ Symbol.Start Tag.Iframe }
    requires calls { Calls page.old }
    ensures fits { OnOk result (Fits page.new) }
    ensures takes { OnOk result (Takes token.now page.old page.new) }
    ensures falls { OnOk result (Falls Done (Symbol.Start Tag.Iframe) page.old page.new) }
    ensures grows { OnOk result (Grows Done page.old page.new) }
    ensures works { OnOk result (Worked Done token.now page.old page.new) }
    ensures refuses { IfErr result (λ e. Refuses token.now e page.old page.new) }
    ensures follows { OnOk result (Follows (Do FramesetOff (holding_text Insert)) token.now Done page.old page.new) }
{
    page.frameset_off();
    text_start(page, token, Tag::Iframe)
}
