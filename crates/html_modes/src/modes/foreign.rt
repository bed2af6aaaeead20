// The rules for parsing tokens in foreign content (13.2.6.5), and which tokens go by them (13.2.6).
ghost use Rattle.std.specs.Prelude.{◌≡◌, ◌+◌, ◌<◌, ◌≤◌, ◌==◌, ◌||◌, ◌&&◌, [], not, IsTrue, OnOk, Some, false, is_some, length, true, IfErr};
ghost use Rattle.std.specs.Str.{chars};
ghost use Rattle.html_names.specs.Foreign.{is_font_attr, is_html_space, is_math_text_part, is_unknown_breakout};
ghost use Rattle.html_ledger.specs.Flags.{is_free, may_embed};
ghost use Rattle.html_ledger.specs.Symbols.{symbol_of};
ghost use Rattle.html_tree.specs.Foreign.{found_foreign};
ghost use Rattle.html_construction.specs.Budgets.{Refuses, RefusesAny};
ghost use Rattle.html_construction.specs.Built.{Keeps, Takes};
ghost use Rattle.html_construction.specs.Calls.{IsTree};
ghost use Rattle.html_construction.specs.Foreign.{foreign_tag};
ghost use Rattle.html_construction.specs.Grown.{Grown};
ghost use Rattle.html_construction.specs.Plans.{Reconstruct};
ghost use Rattle.html_modes.specs.Rules.{Follows};
ghost use Rattle.html_modes.specs.RuleForms.{embedding};
ghost use Rattle.html_modes.specs.RulesForeign.{foreign_char, in_foreign};
ghost use Rattle.html_construction.specs.Tokens.{attrs_of, closes_itself, tag_name};
ghost use Rattle.html_construction.specs.Weights.{weight};
ghost use Rattle.html_construction.specs.Works.{Works};
ghost use Rattle.html_modes.specs.Fitting.{Calls, Fits};
ghost use Rattle.html_modes.specs.Foreign.{around_foreign, breaks_out, closed_foreign, ends_any, ends_foreign, goes_by_foreign, goes_on, has_font_attr, is_html_point_here, stack_after, takes_char, takes_start};
ghost use Rattle.html_modes.specs.Steps.{Falls, Grows, Worked};
ghost use Rattle.html_modes.specs.declared.outcome.Outcome.TheVariants.{Done};

use crate::guards::has_elements;
use crate::modes::initial::doctype;
use html_construction::{ArenaError, Construction};
use html_ledger::{Symbol, is_space};
use html_names::{Space, Tag, is_font_attr, is_math_text_part, is_unknown_breakout};
use html_tokens::{Attr, TokenKind};

/// The tag of the adjusted current node, where that is one of foreign content and the token goes by the rules for foreign content: the tree
/// construction dispatcher (13.2.6).
#[tactic(auto, using(crate::proofs::Embedding::around_rules))]
#[inline(always)]
pub(crate) fn around_foreign(page: &Construction, token: &TokenKind, symbol: Symbol) -> Option<Tag>
    ensures value { result ≡ around_foreign page.now symbol token.now }
{
    let around = page.foreign_tag()?;
    if has_elements(page.mode()) && goes_by_foreign(page, token, symbol, around) {
        Some(around)
    } else {
        None
    }
}

/// The same, where the adjusted current node is one of foreign content, of this tag.
#[inline(never)]
fn goes_by_foreign(page: &Construction, token: &TokenKind, symbol: Symbol, around: Tag) -> bool
    ensures value { result ≡ goes_by_foreign page.now around symbol token.now }
{
    match symbol {
        Symbol::Start(tag) => !takes_start(page, token, tag, around),
        Symbol::Char(_) => !takes_char(page, around),
        // An end-of-file token.
        Symbol::Eof => false,
        Symbol::End(_) => true,
        Symbol::Comment => true,
        Symbol::Doctype => true,
    }
}

/// A start tag goes by the rules of the mode at a MathML text integration point, unless its name is "mglyph" or "malignmark"; in an annotation-xml,
/// where its name is "svg"; and at an HTML integration point.
fn takes_start(page: &Construction, token: &TokenKind, tag: Tag, around: Tag) -> bool
    ensures value { result ≡ takes_start page.now around tag (tag_name token.now) }
{
    (around.is_text_point() && !is_math_part(token))
        || (around.is(Tag::MathAnnotationXml) && tag.is(Tag::Svg))
        || is_html_point(page, around)
}

/// A character token does at both kinds of integration points.
fn takes_char(page: &Construction, around: Tag) -> bool
    ensures value { result ≡ takes_char page.now around }
{
    around.is_text_point() || is_html_point(page, around)
}

/// Whether the adjusted current node, which has this tag, is an HTML integration point (13.2.6).
fn is_html_point(page: &Construction, around: Tag) -> bool
    ensures value { result ≡ is_html_point_here page.now around }
{
    around.is_html_point() || page.is_at_html_point()
}

/// What the rules for foreign content close, and whether the token goes on by the rules of the insertion mode then (13.2.6.5).
#[tactic(auto, using(crate::proofs::Embedding::closing_rules))]
pub(crate) fn goes_on(page: &mut Construction, token: &TokenKind, symbol: Symbol) -> bool
    requires opened { 0 < length page.old.stack }
    ensures rest { page.new ≡ record page.old { tree = page.new.tree; stack = page.new.stack } }
    ensures keeps { Keeps page.old page.new }
    ensures grown { Grown 0 0 0 0 0 page.old page.new }
    ensures works { Works 2 0 0 page.old page.new }
    ensures lighter { weight page.new.stack ≤ weight page.old.stack }
    ensures opened { 0 < length page.new.stack }
    ensures exact { IsTree (record page.old.tree { stack = stack_after page.old.tree symbol token.now }) page.new }
    ensures answer { result ≡ goes_on page.old.tree symbol token.now }
    ensures same { ends_any symbol ≡ false → result ≡ false → page.new ≡ page.old }
{
    match symbol {
        Symbol::Start(tag) => start_goes_on(page, token, tag),
        Symbol::End(tag) => end_goes_on(page, token, tag),
        Symbol::Char(_) => false,
        Symbol::Comment => false,
        Symbol::Doctype => false,
        Symbol::Eof => false,
    }
}

/// A start tag that breaks out of foreign content closes elements up to one of HTML, or an integration point, and goes on.
#[tactic(auto, using(crate::proofs::Embedding::closing_rules))]
fn start_goes_on(page: &mut Construction, token: &TokenKind, tag: Tag) -> bool
    requires opened { 0 < length page.old.stack }
    ensures rest { page.new ≡ record page.old { tree = page.new.tree; stack = page.new.stack } }
    ensures keeps { Keeps page.old page.new }
    ensures grown { Grown 0 0 0 0 0 page.old page.new }
    ensures works { Works 2 0 0 page.old page.new }
    ensures lighter { weight page.new.stack ≤ weight page.old.stack }
    ensures opened { 0 < length page.new.stack }
    ensures exact { IsTree (record page.old.tree { stack = stack_after page.old.tree (Symbol.Start tag) token.now }) page.new }
    ensures answer { result ≡ breaks_out tag token.now }
    ensures same { result ≡ false → page.new ≡ page.old }
{
    if !breaks_out(token, tag) {
        return false;
    }
    page.leave_foreign();
    true
}

/// So does the end tag of a br or of a p. Any other end tag closes the element of foreign content that has its name, and goes on where one of HTML
/// stands after that; where the root alone is open it is ignored.
#[tactic(auto, using(crate::proofs::Embedding::closing_rules))]
fn end_goes_on(page: &mut Construction, token: &TokenKind, tag: Tag) -> bool
    requires opened { 0 < length page.old.stack }
    ensures rest { page.new ≡ record page.old { tree = page.new.tree; stack = page.new.stack } }
    ensures keeps { Keeps page.old page.new }
    ensures grown { Grown 0 0 0 0 0 page.old page.new }
    ensures works { Works 2 0 0 page.old page.new }
    ensures lighter { weight page.new.stack ≤ weight page.old.stack }
    ensures opened { 0 < length page.new.stack }
    ensures exact { IsTree (record page.old.tree { stack = stack_after page.old.tree (Symbol.End tag) token.now }) page.new }
    ensures answer { result ≡ goes_on page.old.tree (Symbol.End tag) token.now }
{
    // An end tag whose tag name is "br", or "p".
    if ends_foreign(tag) {
        page.leave_foreign();
        return true;
    }
    any_end_goes_on(page, token)
}

/// Any other end tag.
#[tactic(auto, using(crate::proofs::Embedding::closing_rules))]
fn any_end_goes_on(page: &mut Construction, token: &TokenKind) -> bool
    requires opened { 0 < length page.old.stack }
    ensures rest { page.new ≡ record page.old { tree = page.new.tree; stack = page.new.stack } }
    ensures keeps { Keeps page.old page.new }
    ensures grown { Grown 0 0 0 0 0 page.old page.new }
    ensures works { Works 2 0 0 page.old page.new }
    ensures lighter { weight page.new.stack ≤ weight page.old.stack }
    ensures opened { 0 < length page.new.stack }
    ensures exact { IsTree (record page.old.tree { stack = closed_foreign page.old.tree (tag_name token.now) }) page.new }
    ensures answer { result ≡ (not (length page.old.tree.stack == 1) && not (is_some (found_foreign page.old.tree (tag_name token.now)))) }
{
    if page.is_root_alone() {
        return false;
    }
    let closed = page.close_foreign(name_of(token));
    !closed
}

/// Any other token stays in foreign content.
#[tactic(auto, using(crate::proofs::Embedding::stay_rules, crate::proofs::RulesForeign::arms))]
pub(crate) fn stay(
    page: &mut Construction,
    token: &TokenKind,
    symbol: Symbol,
    around: Tag,
) -> Result<(), ArenaError>
    requires symbol { symbol_of token.now ≡ symbol }
    requires around { ends_any symbol ≡ false → foreign_tag page.old ≡ Some around }
    requires opened { 0 < length page.old.stack }
    requires quiet { page.old.ledger.kept ≡ [] }
    requires free { IsTrue (is_free page.old.ledger.history symbol) }
    ensures rest { OnOk result (page.new ≡ record page.old { tree = page.new.tree; ledger = page.new.ledger; stack = page.new.stack; frameset_ok = page.new.frameset_ok }) }
    ensures takes { OnOk result (Takes token.now page.old page.new) }
    ensures quiet { OnOk result (page.new.ledger.kept ≡ []) }
    ensures grown { OnOk result (Grown 1 2 0 0 0 page.old page.new) }
    ensures works { OnOk result (Works 6 0 6 page.old page.new) }
    ensures heavier { OnOk result (weight page.new.stack ≤ weight page.old.stack + 4) }
    ensures opened { OnOk result (0 < length page.new.stack) }
    ensures refuses { IfErr result (λ e. Refuses token.now e page.old page.new) }
    ensures follows { OnOk result (Follows (in_foreign around symbol) token.now Done page.old page.new) }
{
    match symbol {
        // Any other start tag: insert a foreign element in the namespace of the adjusted current node.
        Symbol::Start(tag) => embed(page, token, tag, around.space()),
        // A character token.
        Symbol::Char(c) => insert_foreign_char(page, token, c),
        // A comment token: insert a comment.
        Symbol::Comment => page.insert_comment(token),
        // A DOCTYPE token: ignore the token.
        Symbol::Doctype => doctype(page, token),
        // An end tag.
        Symbol::End(_) => page.end(token, symbol),
        // An end-of-file token does not come here.
        Symbol::Eof => page.end(token, symbol),
    }
}

/// A code point: U+0000 becomes U+FFFD.
#[tactic(auto, using(crate::proofs::Embedding::char_rules, crate::proofs::RulesForeign::arms))]
fn insert_foreign_char(
    page: &mut Construction,
    token: &TokenKind,
    c: char,
) -> Result<(), ArenaError>
    requires symbol { symbol_of token.now ≡ Symbol.Char c }
    requires foreign { page.old.ledger.history.foreign ≡ true }
    requires opened { 0 < length page.old.stack }
    requires quiet { page.old.ledger.kept ≡ [] }
    requires free { IsTrue (is_free page.old.ledger.history (Symbol.Char c)) }
    ensures rest { OnOk result (page.new ≡ record page.old { tree = page.new.tree; ledger = page.new.ledger; frameset_ok = page.new.frameset_ok }) }
    ensures takes { OnOk result (Takes token.now page.old page.new) }
    ensures quiet { OnOk result (page.new.ledger.kept ≡ []) }
    ensures grown { OnOk result (Grown 1 1 0 0 0 page.old page.new) }
    ensures works { OnOk result (Works 1 0 1 page.old page.new) }
    ensures refuses { IfErr result (λ e. RefusesAny e page.old page.new) }
    ensures follows { OnOk result (Follows (foreign_char c) token.now Done page.old page.new) }
{
    if c == '\0' {
        page.insert_null(token)?;
        return Ok(());
    }
    page.insert_char(token, c)?;
    if !is_space(c) {
        page.frameset_off();
    }
    Ok(())
}

/// The start tag of a root of foreign content, in the body.
#[tactic(auto, using(crate::proofs::Settled::body_rules, crate::proofs::Embedding::root_rules, crate::proofs::Ruled::rule_words))]
pub(crate) fn root_start(
    page: &mut Construction,
    token: &TokenKind,
    tag: Tag,
    space: Space,
) -> Result<(), ArenaError>
    requires symbol { symbol_of token.now ≡ Symbol.Start tag }
    requires outside { is_html_space space ≡ false }
    requires may { IsTrue (may_embed page.old.ledger.history (Symbol.Start tag)) }
    requires asked { IsTrue (page.old.parses_foreign || page.old.ledger.history.foreign) }
    requires calls { Calls page.old }
    ensures fits { OnOk result (Fits page.new) }
    ensures takes { OnOk result (Takes token.now page.old page.new) }
    ensures falls { OnOk result (Falls Done (Symbol.Start tag) page.old page.new) }
    ensures grows { OnOk result (Grows Done page.old page.new) }
    ensures works { OnOk result (Worked Done token.now page.old page.new) }
    ensures refuses { IfErr result (λ e. Refuses token.now e page.old page.new) }
    ensures follows { OnOk result (Follows (Reconstruct (embedding space)) token.now Done page.old page.new) }
{
    page.reconstruct()?;
    embed(page, token, tag, space)?;
    Ok(())
}

/// An element of foreign content of a start tag, which is opened unless the tag closes itself.
#[tactic(auto, using(crate::proofs::Embedding::embed_rules, crate::proofs::Ruled::rule_words, crate::proofs::RulesInBodyStart::closing_itself))]
fn embed(
    page: &mut Construction,
    token: &TokenKind,
    tag: Tag,
    space: Space,
) -> Result<(), ArenaError>
    requires symbol { symbol_of token.now ≡ Symbol.Start tag }
    requires outside { is_html_space space ≡ false }
    requires may { IsTrue (may_embed page.old.ledger.history (Symbol.Start tag)) }
    requires asked { IsTrue (page.old.parses_foreign || page.old.ledger.history.foreign) }
    requires opened { 0 < length page.old.stack }
    requires quiet { page.old.ledger.kept ≡ [] }
    ensures rest { OnOk result (page.new ≡ record page.old { tree = page.new.tree; ledger = page.new.ledger; stack = page.new.stack }) }
    ensures takes { OnOk result (Takes token.now page.old page.new) }
    ensures quiet { OnOk result (page.new.ledger.kept ≡ []) }
    ensures grown { OnOk result (Grown 1 2 0 0 0 page.old page.new) }
    ensures works { OnOk result (Works 1 0 0 page.old page.new) }
    ensures heavier { OnOk result (weight page.new.stack ≤ weight page.old.stack + 4) }
    ensures opened { OnOk result (0 < length page.new.stack) }
    ensures refuses { IfErr result (λ e. Refuses token.now e page.old page.new) }
    ensures follows { OnOk result (Follows (embedding space) token.now Done page.old page.new) }
{
    if closes_itself(token) {
        page.insert_foreign_void(token, tag, space)?;
        return Ok(());
    }
    page.insert_foreign(token, tag, space)?;
    Ok(())
}

/// Whether a start tag ends foreign content: of these names, and a font that has a color, a face or a size.
fn breaks_out(token: &TokenKind, tag: Tag) -> bool
    ensures { result ≡ breaks_out tag token.now }
{
    tag.is_breakout()
        || is_unknown_part(token)
        || (tag.is(Tag::Font) && has_font_attr(attrs_in(token)))
}

/// The end tags that end foreign content.
fn ends_foreign(tag: Tag) -> bool
    ensures { result ≡ ends_foreign tag }
{
    tag.is(Tag::Br) || tag.is(Tag::P)
}

/// Whether a tag has a name that no other rule knows, and that ends foreign content.
fn is_unknown_part(token: &TokenKind) -> bool
    ensures { result ≡ is_unknown_breakout (tag_name token.now) }
{
    is_unknown_breakout(name_of(token))
}

/// Whether a tag has a name that a MathML text integration point leaves to foreign content.
fn is_math_part(token: &TokenKind) -> bool
    ensures { result ≡ is_math_text_part (tag_name token.now) }
{
    is_math_text_part(name_of(token))
}

/// Whether a start tag closes itself.
fn closes_itself(token: &TokenKind) -> bool
    ensures { result ≡ closes_itself token.now }
{
    match token {
        TokenKind::Start { self_closing, .. } => *self_closing,
        TokenKind::End { .. }
        | TokenKind::Char(_)
        | TokenKind::Comment(_)
        | TokenKind::Doctype { .. }
        | TokenKind::Eof => false,
    }
}

/// The name of a tag; another token has none.
fn name_of(token: &TokenKind) -> &str
    ensures { chars result.now ≡ tag_name token.now }
{
    match token {
        TokenKind::Start { name, .. } => name.as_str(),
        TokenKind::End { name } => name.as_str(),
        TokenKind::Char(_) => "",
        TokenKind::Comment(_) => "",
        TokenKind::Doctype { .. } => "",
        TokenKind::Eof => "",
    }
}

/// The attributes of a start tag; another token has none.
fn attrs_in(token: &TokenKind) -> &[Attr]
    ensures { result.now ≡ attrs_of token.now }
{
    match token {
        TokenKind::Start { attrs, .. } => attrs.as_slice(),
        TokenKind::End { .. } => &[],
        TokenKind::Char(_) => &[],
        TokenKind::Comment(_) => &[],
        TokenKind::Doctype { .. } => &[],
        TokenKind::Eof => &[],
    }
}

/// Whether there is an attribute with which a font ends foreign content.
fn has_font_attr(attrs: &[Attr]) -> bool
    ensures { result ≡ has_font_attr attrs.now }
{
    for attr in attrs {
        if ends_font(attr) {
            return true;
        }
    }
    false
}

fn ends_font(attr: &Attr) -> bool
    ensures { result ≡ is_font_attr attr.now.name }
{
    is_font_attr(attr.name.as_str())
}
