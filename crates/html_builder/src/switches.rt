// How the text of an element is read (13.2.6.2, 13.2.6.4).
ghost use Rattle.std.specs.Prelude.{◌≡◌};
ghost use Rattle.html_construction.specs.Built.{ends_made};
ghost use Rattle.html_builder.specs.Saying.{or_said, said_of};
ghost use Rattle.html_builder.specs.Switches.{said_after, switch_of};

use html_construction::Construction;
use html_ledger::Symbol;
use html_names::Tag;
use html_tokens::TextMode;

/// How the text of an element is read, where it is not read as data.
#[tactic(auto, unfolding(crate::specs::Switches::switch_of))]
pub(crate) fn text_mode_of(tag: Tag) -> Option<TextMode>
    ensures value { result ≡ switch_of tag }
{
    if tag.is_rcdata() {
        Some(TextMode::Rcdata)
    } else if tag.is_rawtext() {
        Some(TextMode::Rawtext)
    } else if tag.is(Tag::Script) {
        Some(TextMode::Script)
    } else if tag.is(Tag::Plaintext) {
        Some(TextMode::Plaintext)
    } else {
        None
    }
}

/// How the text after a token is read, of which a node was made or not, where that changes it.
pub(crate) fn text_mode_after(symbol: Symbol, made: bool) -> Option<TextMode>
    ensures value { result ≡ said_after symbol made }
{
    if !made {
        return None;
    }
    match symbol {
        Symbol::Start(tag) => text_mode_of(tag),
        Symbol::End(_) | Symbol::Char(_) | Symbol::Comment | Symbol::Doctype | Symbol::Eof => None,
    }
}

/// How the text after a token is read that was taken, where that changes it: as the token says, or else by the adjusted current node.
pub(crate) fn mode_said(page: &Construction, symbol: Symbol) -> Option<TextMode>
    ensures value { result ≡ or_said (said_after symbol (ends_made page.now.ledger.fates)) (said_of page.now) }
{
    match text_mode_after(symbol, page.last_made()) {
        Some(mode) => Some(mode),
        None => node_mode(page),
    }
}

/// Where foreign content was made or is the context: whether the text is read as that of foreign content, by the adjusted current node.
fn node_mode(page: &Construction) -> Option<TextMode>
    ensures value { result ≡ said_of page.now }
{
    if !page.history().foreign {
        return None;
    }
    match page.foreign_tag() {
        Some(_) => Some(TextMode::Foreign),
        None => Some(TextMode::Data),
    }
}
