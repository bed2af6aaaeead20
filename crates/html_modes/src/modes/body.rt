// The mode in body (13.2.6.4.7): what a token meets there, its text and its end.
//
// Its rules in the order of the standard, and the function of each:
//
// characters; comments; doctypes         body.rt: body_char, body_rules
// <html>                                 body_start.rt: html_start
// <base> .. <title>, </template>         head.rt, by body_start and body_end
// <body>, <frameset>                     body_start.rt: second_body_start, late_frameset_start
// end of file; </body>, </html>          body.rt: body_eof; body_end.rt: body_end, html_end
// <address> .. <ul>, <h1> .. <h6>        body_start.rt: block_start, heading_start
// <pre>, <listing>                       body_start.rt: preformatted_start
// <form>; <li>, <dd>, <dt>               body_start.rt: form_start; item_start
// <plaintext>; <button>                  body_start.rt: block_start; body_phrase.rt: button_start
// </address> .. </ul>, </form>, </p>     body_end.rt: block_end, form_end, paragraph_end
// </li>, </dd>, </dt>, </h1> .. </h6>    body_end.rt: plain_end
// <a>, <b> .. <u>, <nobr>, their ends    formatting.rt: link_start, formatting_start, nobr_start; body_end.rt: formatting_end
// <applet>, <marquee>, <object>          body_phrase.rt: marker_start; body_end.rt: marker_end
// <table>; </br>                         body_start.rt: table_start; body_end.rt: break_end
// <area> .. <wbr>, <image>, <input>      body_phrase.rt: void_start, input_start
// <param>, <source>, <track>; <hr>       body_phrase.rt: phrase_start; body_start.rt: rule_start
// <textarea>, <xmp>, <iframe>, <noembed> body_text.rt
// <select>; <optgroup>, <option>         body_phrase.rt: select_start; option_start
// <rb>, <rtc>, <rp>, <rt>                body_phrase.rt: ruby_start
// <math>, <svg>                          body.rt: any_root_start; foreign.rt: root_start
// <caption> .. <tr>: ignored             body_phrase.rt: other_start
// any other start tag, any other end tag body_phrase.rt: plain_start; body_end.rt: other_end
ghost use Rattle.std.specs.Prelude.{◌≡◌, ◌+◌, ◌*◌, ◌<◌, ◌≤◌, [], IfOk, IfSome, None, OnOk, IsTrue, false, length, take, true, IfErr};
ghost use Rattle.std.specs.List.{list_all};
ghost use Rattle.std.specs.Str.{chars};
ghost use Rattle.html_ledger.specs.Spaces.{is_space};
ghost use Rattle.html_ledger.specs.Symbols.{symbol_of};
ghost use Rattle.html_ledger.specs.Flags.{is_free, may_text_run};
ghost use Rattle.html_construction.specs.Budgets.{Refuses, RefusesAny};
ghost use Rattle.html_construction.specs.Built.{Takes, TakesRun};
ghost use Rattle.html_construction.specs.Grown.{Grown};
ghost use Rattle.html_construction.specs.Works.{Works};
ghost use Rattle.html_construction.specs.Weights.{weight};
ghost use Rattle.html_modes.specs.Fitting.{Fits, Calls};
ghost use Rattle.html_modes.specs.Guards.{is_root_end};
ghost use Rattle.html_modes.specs.Rules.{Follows};
ghost use Rattle.html_modes.specs.RulesInBody.{in_body, in_body_char};
ghost use Rattle.html_modes.specs.RulesInBodyStart.{in_body_start};
ghost use Rattle.html_modes.specs.Plain.{IsPlainState, IsRunTurn, Turns, TurnsInBody};
ghost use Rattle.html_modes.specs.Runs.{IsTextRun};
ghost use Rattle.html_modes.specs.Steps.{Falls, Grows, Steps, Worked, root_of, root_space};
ghost use Rattle.html_tree.specs.Proper.{is_foreign_root};
ghost use Rattle.html_modes.specs.declared.outcome.Outcome.TheVariants as outcome;
ghost use Rattle.html_modes.specs.declared.outcome.Outcome.TheVariants.{Done};

use crate::modes::body_end::{body_end, html_end};
use crate::modes::body_start::body_start;
use crate::modes::foreign::root_start;
use crate::modes::initial::doctype;
use crate::modes::template::template_eof;
use crate::outcome::{Foreign, Outcome};
use html_construction::{ArenaError, Construction, Mode};
use html_ledger::{Cause, Symbol, is_space};
use html_names::{Space, Tag};
use html_text::PlainText;
use html_tokens::TokenKind;

/// The rules for the "in body" insertion mode (13.2.6.4.7).
#[tactic(auto, using(crate::proofs::Settled::mode_rules, crate::proofs::RulesInBody::arms))]
pub(crate) fn in_body(
    page: &mut Construction,
    token: &TokenKind,
    symbol: Symbol,
) -> Result<Outcome, ArenaError>
    requires symbol { symbol_of token.now ≡ symbol }
    requires mode { page.old.mode ≡ Mode.InBody }
    requires fits { Fits page.old }
    requires quiet { page.old.ledger.kept ≡ [] }
    requires free { IsTrue (is_free page.old.ledger.history symbol) }
    ensures fits { OnOk result (Fits page.new) }
    ensures takes { IfOk result (λ o. Steps o token.now page.old page.new) }
    ensures falls { IfOk result (λ o. Falls o symbol page.old page.new) }
    ensures grows { IfOk result (λ o. Grows o page.old page.new) }
    ensures works { IfOk result (λ o. Worked o token.now page.old page.new) }
    ensures plain { IfOk result (λ o. Turns o symbol token.now page.old page.new) }
    ensures refuses { IfErr result (λ e. Refuses token.now e page.old page.new) }
    ensures follows { IfOk result (λ o. Follows (in_body symbol) token.now o page.old page.new) }
{
    match symbol {
        // An end tag whose tag name is "html".
        Symbol::End(Tag::Html) => {
            let outcome = html_end(page, token)?;
            Ok(outcome)
        }
        Symbol::Start(_)
        | Symbol::End(_)
        | Symbol::Char(_)
        | Symbol::Comment
        | Symbol::Doctype
        | Symbol::Eof => {
            let outcome = body_rules(page, token, symbol)?;
            Ok(outcome)
        }
    }
}

/// The rules of the mode in body that other modes share: all but those for the end tag of the root, which no other mode takes from it.
#[tactic(auto, using(crate::proofs::Settled::body_rules, crate::proofs::RulesInBody::arms))]
pub(crate) fn body_rules(
    page: &mut Construction,
    token: &TokenKind,
    symbol: Symbol,
) -> Result<Outcome, ArenaError>
    requires symbol { symbol_of token.now ≡ symbol }
    requires calls { Calls page.old }
    requires free { IsTrue (is_free page.old.ledger.history symbol) }
    ensures fits { OnOk result (Fits page.new) }
    ensures takes { IfOk result (λ o. Steps o token.now page.old page.new) }
    ensures falls { IfOk result (λ o. Falls o symbol page.old page.new) }
    ensures grows { IfOk result (λ o. Grows o page.old page.new) }
    ensures works { IfOk result (λ o. Worked o token.now page.old page.new) }
    ensures plain { IfOk result (λ o. TurnsInBody o symbol token.now page.old page.new) }
    ensures refuses { IfErr result (λ e. Refuses token.now e page.old page.new) }
    ensures follows { IfOk result (λ o. is_root_end symbol ≡ false → Follows (in_body symbol) token.now o page.old page.new) }
{
    match symbol {
        // A character token.
        Symbol::Char(c) => body_char(page, token, c)?,
        // A comment token: insert a comment.
        Symbol::Comment => page.insert_comment(token)?,
        // A DOCTYPE token: ignore the token.
        Symbol::Doctype => doctype(page, token)?,
        // A start tag.
        Symbol::Start(tag) => {
            let outcome = any_start(page, token, tag)?;
            return Ok(outcome);
        }
        // An end tag.
        Symbol::End(tag) => body_end(page, token, tag)?,
        // An end-of-file token.
        Symbol::Eof => {
            let outcome = body_eof(page, token)?;
            return Ok(outcome);
        }
    }
    Ok(Outcome::Done)
}

/// A start tag.
#[tactic(auto, using(crate::proofs::Settled::body_rules, crate::proofs::RulesInBodyStart::arms))]
fn any_start(page: &mut Construction, token: &TokenKind, tag: Tag) -> Result<Outcome, ArenaError>
    requires symbol { symbol_of token.now ≡ Symbol.Start tag }
    requires calls { Calls page.old }
    ensures fits { OnOk result (Fits page.new) }
    ensures takes { IfOk result (λ o. Steps o token.now page.old page.new) }
    ensures falls { IfOk result (λ o. Falls o (Symbol.Start tag) page.old page.new) }
    ensures grows { IfOk result (λ o. Grows o page.old page.new) }
    ensures works { IfOk result (λ o. Worked o token.now page.old page.new) }
    ensures plain { IfOk result (λ o. TurnsInBody o (Symbol.Start tag) token.now page.old page.new) }
    ensures refuses { IfErr result (λ e. Refuses token.now e page.old page.new) }
    ensures follows { IfOk result (λ o. Follows (in_body_start tag) token.now o page.old page.new) }
{
    // A start tag whose tag name is "math", or "svg".
    if let Some(name) = foreign_root(tag) {
        let outcome = any_root_start(page, token, tag, name)?;
        return Ok(outcome);
    }
    // Any other start tag.
    body_start(page, token, tag)?;
    Ok(Outcome::Done)
}

/// The start tag of a root of foreign content, which is refused or parsed.
#[tactic(auto, using(crate::proofs::Settled::body_rules, crate::proofs::Embedding::body_roots, crate::proofs::RulesInBodyStart::root_arms))]
fn any_root_start(
    page: &mut Construction,
    token: &TokenKind,
    tag: Tag,
    name: Foreign,
) -> Result<Outcome, ArenaError>
    requires symbol { symbol_of token.now ≡ Symbol.Start tag }
    requires root { Symbol.Start tag ≡ root_of name }
    requires calls { Calls page.old }
    ensures fits { OnOk result (Fits page.new) }
    ensures takes { IfOk result (λ o. Steps o token.now page.old page.new) }
    ensures falls { IfOk result (λ o. Falls o (Symbol.Start tag) page.old page.new) }
    ensures grows { IfOk result (λ o. Grows o page.old page.new) }
    ensures works { IfOk result (λ o. Worked o token.now page.old page.new) }
    ensures plain { IfOk result (λ o. TurnsInBody o (Symbol.Start tag) token.now page.old page.new) }
    ensures refused { IfOk result (λ o. page.old.parses_foreign ≡ false → o ≡ outcome.Foreign name) }
    ensures refuses { IfErr result (λ e. Refuses token.now e page.old page.new) }
    ensures follows { IfOk result (λ o. Follows (in_body_start tag) token.now o page.old page.new) }
{
    if !page.parses_foreign() {
        return Ok(Outcome::Foreign(name));
    }
    root_start(page, token, tag, space_of(name))?;
    Ok(Outcome::Done)
}

/// The namespace of a kind of foreign content.
fn space_of(name: Foreign) -> Space
    ensures { result ≡ root_space name }
{
    match name {
        Foreign::Svg => Space::Svg,
        Foreign::Math => Space::Math,
    }
}

/// The kind of foreign content of which an element of this tag is the root.
fn foreign_root(tag: Tag) -> Option<Foreign>
    ensures none { result ≡ None → is_foreign_root tag ≡ false }
    ensures some { IfSome result (λ name. Symbol.Start tag ≡ root_of name) }
{
    if tag.is(Tag::Math) {
        return Some(Foreign::Math);
    }
    if tag.is(Tag::Svg) {
        return Some(Foreign::Svg);
    }
    None
}

/// The end of the page.
#[tactic(auto, using(crate::proofs::Settled::body_rules, crate::proofs::RulesInBody::arms))]
fn body_eof(page: &mut Construction, token: &TokenKind) -> Result<Outcome, ArenaError>
    requires symbol { symbol_of token.now ≡ Symbol.Eof }
    requires calls { Calls page.old }
    ensures fits { OnOk result (Fits page.new) }
    ensures takes { IfOk result (λ o. Steps o token.now page.old page.new) }
    ensures falls { IfOk result (λ o. Falls o (Symbol.Eof) page.old page.new) }
    ensures grows { IfOk result (λ o. Grows o page.old page.new) }
    ensures works { IfOk result (λ o. Worked o token.now page.old page.new) }
    ensures plain { IfOk result (λ o. TurnsInBody o Symbol.Eof token.now page.old page.new) }
    ensures refuses { IfErr result (λ e. Refuses token.now e page.old page.new) }
    ensures follows { IfOk result (λ o. Follows (in_body Symbol.Eof) token.now o page.old page.new) }
{
    if page.has_template_mode() {
        let outcome = template_eof(page, token)?;
        return Ok(outcome);
    }
    page.end(token, Symbol::Eof)?;
    Ok(Outcome::Done)
}

/// A code point.
#[tactic(auto, using(crate::proofs::RulesInBody::arms))]
pub(crate) fn body_char(
    page: &mut Construction,
    token: &TokenKind,
    c: char,
) -> Result<(), ArenaError>
    requires symbol { symbol_of token.now ≡ Symbol.Char c }
    requires opened { 0 < length page.old.stack }
    requires quiet { page.old.ledger.kept ≡ [] }
    requires listed { length page.old.tree.list ≤ length page.old.ledger.fates }
    requires free { IsTrue (is_free page.old.ledger.history (Symbol.Char c)) }
    ensures rest { OnOk result (page.new ≡ record page.old { tree = page.new.tree; ledger = page.new.ledger; stack = page.new.stack; frameset_ok = page.new.frameset_ok }) }
    ensures takes { OnOk result (Takes token.now page.old page.new) }
    ensures quiet { OnOk result (page.new.ledger.kept ≡ []) }
    ensures grown { OnOk result (Grown 1 (length page.old.ledger.fates + 1) 0 1 0 page.old page.new) }
    ensures works { OnOk result (Works 6 1 6 page.old page.new) }
    ensures lighter { OnOk result (weight page.new.stack ≤ weight page.old.stack) }
    ensures opened { OnOk result (0 < length page.new.stack) }
    ensures plain { OnOk result (TurnsInBody Done (Symbol.Char c) token.now page.old page.new) }
    ensures refuses { IfErr result (λ e. RefusesAny e page.old page.new) }
    ensures follows { OnOk result (Follows (in_body_char c) token.now Done page.old page.new) }
{
    if c == '\0' {
        return page.drop_token(token, Symbol::Char(c), Cause::Null);
    }
    page.reconstruct()?;
    page.insert_char(token, c)?;
    if !is_space(c) {
        page.frameset_off();
    }
    Ok(())
}

/// A run of code points without U+0000: the front of it that the limit on held code points takes.
pub(crate) fn body_run(page: &mut Construction, run: &[char]) -> Result<usize, ArenaError>
    requires opened { 0 < length page.old.stack }
    requires quiet { page.old.ledger.kept ≡ [] }
    requires listed { length page.old.tree.list ≤ length page.old.ledger.fates }
    requires some { 0 < length run.now }
    requires may { IsTrue (may_text_run page.old.ledger.history run.now) }
    ensures rest { OnOk result (page.new ≡ record page.old { tree = page.new.tree; ledger = page.new.ledger; stack = page.new.stack; frameset_ok = page.new.frameset_ok }) }
    ensures takes { IfOk result (λ n. TakesRun (take n run.now) page.old page.new) }
    ensures quiet { OnOk result (page.new.ledger.kept ≡ []) }
    ensures count { IfOk result (λ n. (0 < n) × (n ≤ length run.now)) }
    ensures grown { IfOk result (λ n. Grown n (length page.old.ledger.fates + 1) 0 1 0 page.old page.new) }
    ensures works { IfOk result (λ n. Works (n + 6) 1 (3 * n + 6) page.old page.new) }
    ensures lighter { OnOk result (weight page.new.stack ≤ weight page.old.stack) }
    ensures opened { OnOk result (0 < length page.new.stack) }
    ensures plain { IfOk result (λ n. IsPlainState page.old → page.old.mode ≡ Mode.InBody → IsRunTurn (take n run.now) page.old page.new) }
    ensures run { IfOk result (λ n. IsTextRun (take n run.now) page.old page.new) }
    ensures refuses { IfErr result (λ e. RefusesAny e page.old page.new) }
{
    page.reconstruct()?;
    let count = page.insert_run(run)?;
    page.look_again(count - 1);
    if !are_spaces(&run[..count]) {
        page.frameset_off();
    }
    Ok(count)
}

/// A plain text: the front of it that the limit on held code points takes.
pub(crate) fn body_plain(page: &mut Construction, text: &PlainText<'_>) -> Result<usize, ArenaError>
    requires opened { 0 < length page.old.stack }
    requires quiet { page.old.ledger.kept ≡ [] }
    requires listed { length page.old.tree.list ≤ length page.old.ledger.fates }
    requires some { 0 < length text.now }
    requires may { IsTrue (may_text_run page.old.ledger.history text.now) }
    ensures rest { OnOk result (page.new ≡ record page.old { tree = page.new.tree; ledger = page.new.ledger; stack = page.new.stack; frameset_ok = page.new.frameset_ok }) }
    ensures takes { IfOk result (λ n. TakesRun (take n text.now) page.old page.new) }
    ensures quiet { OnOk result (page.new.ledger.kept ≡ []) }
    ensures count { IfOk result (λ n. (0 < n) × (n ≤ length text.now)) }
    ensures grown { IfOk result (λ n. Grown n (length page.old.ledger.fates + 1) 0 1 0 page.old page.new) }
    ensures works { IfOk result (λ n. Works (n + 6) 1 (3 * n + 6) page.old page.new) }
    ensures lighter { OnOk result (weight page.new.stack ≤ weight page.old.stack) }
    ensures opened { OnOk result (0 < length page.new.stack) }
    ensures plain { IfOk result (λ n. IsPlainState page.old → page.old.mode ≡ Mode.InBody → IsRunTurn (take n text.now) page.old page.new) }
    ensures run { IfOk result (λ n. IsTextRun (take n text.now) page.old page.new) }
    ensures refuses { IfErr result (λ e. RefusesAny e page.old page.new) }
{
    page.reconstruct()?;
    let taken = page.insert_plain(text)?;
    page.look_again(taken - 1);
    if !is_space_text(text.front(taken).as_str()) {
        page.frameset_off();
    }
    Ok(taken)
}

/// Whether all of these are white space.
fn are_spaces(run: &[char]) -> bool
    ensures value { result ≡ list_all is_space run.now }
{
    run.iter().all(|c| is_space(*c))
}

/// Whether this is white space.
fn is_space_text(text: &str) -> bool
    ensures value { result ≡ list_all is_space (chars text.now) }
{
    text.chars().all(|c| is_space(c))
}
