//! The tokens of a page with their fates.

ghost use Rattle.std.specs.Prelude.{◌≡◌, ◌-◌, ◌∷◌, [], IfNone, IfSome, drop, length, min};
ghost use Rattle.std.specs.Str.{chars};
ghost use Rattle.html_token_list.specs.Shown.{shown};
ghost use Rattle.zilqumet_rows.specs.Entries.{AreTokens, IsToken, cause_number, code_point_in, entries, entries_in, fate_number, kind_number, name_in, node_in, number_of};

use crate::nodes::number;
use crate::text::{Text, text_of};
use html_arena::NodeId;
use html_ledger::{Cause, Fate, Fates, Iter as FatesIter};
use html_token_list::{Iter as TokensIter, TokenRef, Tokens};
use html_tokens::TokenKind;

/// A token: the places where it begins and ends, the node of its fate, the name of a tag, what it is, the code point that it is, its fate, and the cause
/// for which it was dropped.
#[repr(C)]
#[derive(Clone, Copy)]
pub struct ZqToken {
    pub start: u64,
    pub end: u64,
    pub node: u64,
    pub name: Text,
    pub kind: u32,
    pub code_point: u32,
    pub fate: u32,
    pub cause: u32,
}

/// The tokens of an input, and the fate of each.
#[derive(Drop)]
pub struct Ledger {
    pub tokens: Tokens,
    pub fates: Fates,
}

impl Ledger {
    /// Writes the tokens from a number on, with their fates, as many as there are and fit, and answers how many. It goes through those before.
    pub fn rows(&self, from: u64, rows: &mut [ZqToken]) -> usize
        ensures count { result ≡ min (length (entries_in self.now) - from) (length rows.new) }
        ensures tokens { AreTokens (drop from (entries_in self.now)) result rows.new }
    {
        let mut tokens = self.tokens.iter();
        let mut fates = self.fates.iter();
        pass_over(&mut tokens, &mut fates, from);
        fill(&mut tokens, &mut fates, rows)
    }
}

/// Goes past so many tokens.
fn pass_over<'a>(tokens: &mut TokensIter<'a>, fates: &mut FatesIter<'a>, count: u64)
    ensures { entries tokens.new fates.new ≡ drop count (entries tokens.old fates.old) }
{
    let mut passed = 0;
    'passing: while passed < count {
        if next_entry(tokens, fates).is_none() {
            return;
        }
        passed += 1;
    }
}

/// The next token with its fate, if there is one.
fn next_entry<'a>(
    tokens: &mut TokensIter<'a>,
    fates: &mut FatesIter<'a>,
) -> Option<(TokenRef<'a>, Fate)>
    ensures none { IfNone result ((entries tokens.old fates.old ≡ []) × (entries tokens.new fates.new ≡ [])) }
    ensures some { IfSome result (λ e. entries tokens.old fates.old ≡ (shown e.0, e.1) ∷ entries tokens.new fates.new) }
{
    let token = tokens.next()?;
    let fate = fates.next()?;
    Some((token, fate))
}

/// Writes tokens, as many as there are and fit.
fn fill<'a>(tokens: &mut TokensIter<'a>, fates: &mut FatesIter<'a>, rows: &mut [ZqToken]) -> usize
    ensures count { result ≡ min (length (entries tokens.old fates.old)) (length rows.new) }
    ensures tokens { AreTokens (entries tokens.old fates.old) result rows.new }
{
    let mut count = 0;
    'rows: while count < rows.len() {
        let Some((token, fate)) = next_entry(tokens, fates) else {
            return count;
        };
        rows[count] = row_of(&token, &fate);
        count += 1;
    }
    count
}

/// A token and its fate.
fn row_of(token: &TokenRef<'_>, fate: &Fate) -> ZqToken
    ensures { IsToken (shown token.now) fate.now result }
{
    match token {
        TokenRef::Char { c, place } => ZqToken {
            start: *place,
            end: place.saturating_add(1),
            node: number(node_of(fate)),
            name: text_of("".as_bytes()),
            kind: CHARACTER,
            code_point: *c as u32,
            fate: fate_number(fate),
            cause: cause_number(fate),
        },
        TokenRef::Other(token) => ZqToken {
            start: token.span.start,
            end: token.span.end,
            node: number(node_of(fate)),
            name: text_of(name_of(&token.kind).as_bytes()),
            kind: kind_number(&token.kind),
            code_point: code_point_of(&token.kind),
            fate: fate_number(fate),
            cause: cause_number(fate),
        },
    }
}

const START_TAG: u32 = 1;

const END_TAG: u32 = 2;

const CHARACTER: u32 = 3;

const COMMENT: u32 = 4;

const DOCTYPE: u32 = 5;

const END_OF_FILE: u32 = 6;

/// The number of what a token is.
fn kind_number(kind: &TokenKind) -> u32
    ensures { result ≡ kind_number kind.now }
{
    match kind {
        TokenKind::Start { .. } => START_TAG,
        TokenKind::End { .. } => END_TAG,
        TokenKind::Char(_) => CHARACTER,
        TokenKind::Comment(_) => COMMENT,
        TokenKind::Doctype { .. } => DOCTYPE,
        TokenKind::Eof => END_OF_FILE,
    }
}

/// The name of a tag, else no text.
fn name_of(kind: &TokenKind) -> &str
    ensures { chars result.now ≡ name_in kind.now }
{
    match kind {
        TokenKind::Start { name, .. } => name.as_str(),
        TokenKind::End { name } => name.as_str(),
        TokenKind::Char(_) => "",
        TokenKind::Comment(_) => "",
        TokenKind::Doctype { .. } => "",
        TokenKind::Eof => "",
    }
}

/// The code point that a token is, or 0.
fn code_point_of(kind: &TokenKind) -> u32
    ensures { result ≡ code_point_in kind.now }
{
    match kind {
        TokenKind::Char(c) => *c as u32,
        _ => 0,
    }
}

/// The node of a fate: that which was made of the token, or whose text it is in.
fn node_of(fate: &Fate) -> Option<NodeId>
    ensures { result ≡ node_in fate.now }
{
    match fate {
        Fate::Made(node) => Some(*node),
        Fate::Foreign(node) => Some(*node),
        Fate::Text(node) => Some(*node),
        Fate::Merged => None,
        Fate::Dropped(_) => None,
        Fate::Ended => None,
    }
}

/// The number of a fate.
fn fate_number(fate: &Fate) -> u32
    ensures { result ≡ fate_number fate.now }
{
    match fate {
        Fate::Made(_) => 1,
        Fate::Foreign(_) => 1,
        Fate::Text(_) => 2,
        Fate::Merged => 3,
        Fate::Dropped(_) => 4,
        Fate::Ended => 5,
    }
}

/// The number of the cause for which a token was dropped, or 0.
fn cause_number(fate: &Fate) -> u32
    ensures { result ≡ cause_number fate.now }
{
    match fate {
        Fate::Dropped(Cause::PrologSpace) => 1,
        Fate::Dropped(Cause::Null) => 2,
        Fate::Dropped(Cause::LeadingNewline) => 3,
        Fate::Dropped(Cause::InSelect) => 4,
        Fate::Dropped(Cause::InFrameset) => 5,
        Fate::Dropped(Cause::Misplaced) => 6,
        Fate::Dropped(Cause::InColumnGroup) => 7,
        _ => 0,
    }
}
