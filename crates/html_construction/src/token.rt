// What is copied of a token into its node.
ghost use Rattle.std.specs.Prelude.{◌≡◌, ◌++◌, IfOk, OnOk, false, option_map, unwrap_or};
ghost use Rattle.std.specs.Str.{chars};
ghost use Rattle.html_names.specs.declared.tag.Tag.{Tag as TagType};
ghost use Rattle.html_names.specs.Foreign.{is_html_space};
ghost use Rattle.html_names.specs.Names.{tag_of};
ghost use Rattle.html_tree.specs.Seats.{is_part};
ghost use Rattle.html_ledger.specs.Symbols.{symbol_of};
ghost use Rattle.html_ledger.specs.declared.symbol.Symbol.TheVariants.{Start};
ghost use Rattle.html_construction.specs.Tokens.{attrs_of, data_of, element_name, element_tag, foreign_attr, foreign_attrs, foreign_name, name_id, public_id, system_id, tag_name};

use html_names::{Space, Tag, adjusted_attr, adjusted_name};
use html_text::Str;
use html_tokens::{Attr, Attrs, OptionalStr, TokenKind};
use std::alloc::{AllocError, Global};

/// The name of a tag, in memory of its own; another token has none.
pub(crate) fn copy_name(alloc: Global, token: &TokenKind) -> Result<Str, AllocError>
    ensures name { IfOk result (λ name. name ≡ tag_name token.now) }
    ensures tag { IfOk result (λ name. (t : TagType) → symbol_of token.now ≡ Start t → tag_of name ≡ t) }
{
    match token {
        TokenKind::Start { name, .. } => name.clone(),
        TokenKind::End { name } => name.clone(),
        TokenKind::Char(_) => Ok(Str::new(alloc)),
        TokenKind::Comment(_) => Ok(Str::new(alloc)),
        TokenKind::Doctype { .. } => Ok(Str::new(alloc)),
        TokenKind::Eof => Ok(Str::new(alloc)),
    }
}

/// The name of the element of a start tag, in memory of its own: that of the tag, and `img` for `image` (13.2.6.4.7).
pub(crate) fn copy_element_name(
    alloc: Global,
    token: &TokenKind,
    tag: Tag,
) -> Result<Str, AllocError>
    ensures name { IfOk result (λ name. name ≡ element_name tag token.now) }
    ensures tag { IfOk result (λ name. symbol_of token.now ≡ Start tag → tag_of name ≡ element_tag tag) }
{
    if tag.is(Tag::Image) {
        Str::of(alloc, Tag::Img.name())
    } else {
        copy_name(alloc, token)
    }
}

/// The attributes of a start tag, which the token shares; another token has none.
pub(crate) fn copy_attrs(alloc: Global, token: &TokenKind) -> Result<Attrs, AllocError>
    ensures attrs { IfOk result (λ attrs. attrs ≡ attrs_of token.now) }
{
    match token {
        TokenKind::Start { attrs, .. } => attrs.share(),
        TokenKind::End { .. }
        | TokenKind::Char(_)
        | TokenKind::Comment(_)
        | TokenKind::Doctype { .. }
        | TokenKind::Eof => Ok(Attrs::new(alloc)),
    }
}

/// The name of a tag; another token has none.
fn tag_text(token: &TokenKind) -> &str
    ensures { chars result.now ≡ tag_name token.now }
{
    match token {
        TokenKind::Start { name, .. } => name.as_str(),
        TokenKind::End { name } => name.as_str(),
        TokenKind::Char(_) => "",
        TokenKind::Comment(_) => "",
        TokenKind::Doctype { .. } => "",
        TokenKind::Eof => "",
    }
}

/// The name of the element of foreign content of a start tag: what the names of its space begin with, and the tag's, adjusted (13.2.6.5).
pub(crate) fn copy_foreign_name(
    alloc: Global,
    token: &TokenKind,
    space: Space,
) -> Result<Str, AllocError>
    ensures name { IfOk result (λ name. name ≡ foreign_name space (tag_name token.now)) }
    ensures part { IfOk result (λ name. is_html_space space ≡ false → is_part (tag_of name) ≡ false) }
{
    let own = tag_text(token);
    let local = adjusted_or_own(adjusted_name(space, own), own);
    let mut name = Str::of(alloc, space.prefix())?;
    push_text(&mut name, local)?;
    Ok(name)
}

/// An adjusted name, if there is one, and else the name as it is.
fn adjusted_or_own<'a>(adjusted: Option<&'static str>, own: &'a str) -> &'a str
    ensures { chars result.now ≡ unwrap_or (option_map (λ s. chars s.now) adjusted.entry) (chars own.now) }
{
    match adjusted {
        Some(name) => name,
        None => own,
    }
}

/// Adds a text to another.
fn push_text(name: &mut Str, text: &str) -> Result<(), AllocError>
    ensures ok { OnOk result (name.new ≡ name.old ++ chars text.now) }
{
    for c in text.chars() {
        name.push(c)?;
    }
    Ok(())
}

/// The attributes of a start tag as its element of foreign content has them (13.2.6.1): those of the token, shared, where none has another name.
pub(crate) fn copy_foreign_attrs(
    alloc: Global,
    token: &TokenKind,
    space: Space,
) -> Result<Attrs, AllocError>
    ensures attrs { IfOk result (λ attrs. attrs ≡ foreign_attrs space (attrs_of token.now)) }
{
    let own = copy_attrs(alloc, token)?;
    if are_adjusted(own.as_slice(), space) {
        copy_adjusted(alloc, own.as_slice(), space)
    } else {
        Ok(own)
    }
}

/// Whether some of these attributes may have other names in an element of foreign content.
fn are_adjusted(attrs: &[Attr], space: Space) -> bool
    ensures { result ≡ false → foreign_attrs space attrs.now ≡ attrs.now }
{
    for attr in attrs {
        if adjusted_attr(space, attr.name.as_str()).is_some() {
            return true;
        }
    }
    false
}

/// These attributes as an element of foreign content has them.
fn copy_adjusted(alloc: Global, attrs: &[Attr], space: Space) -> Result<Attrs, AllocError>
    ensures { IfOk result (λ copies. copies ≡ foreign_attrs space attrs.now) }
{
    let mut copies = Vec::new(alloc);
    for attr in attrs {
        let copy = copy_foreign_attr(alloc, attr, space)?;
        copies.push(copy)?;
    }
    Attrs::from_vec(copies)
}

/// An attribute as an element of foreign content has it.
fn copy_foreign_attr(alloc: Global, attr: &Attr, space: Space) -> Result<Attr, AllocError>
    ensures { IfOk result (λ copy. copy ≡ foreign_attr space attr.now) }
{
    let own = attr.name.as_str();
    let name = Str::of(alloc, adjusted_or_own(adjusted_attr(space, own), own))?;
    let value = attr.value.clone()?;
    Ok(Attr { name, value })
}

/// The data of a comment, in memory of its own; another token has none.
pub(crate) fn copy_data(alloc: Global, token: &TokenKind) -> Result<Str, AllocError>
    ensures data { IfOk result (λ text. text ≡ data_of token.now) }
{
    match token {
        TokenKind::Comment(text) => text.clone(),
        TokenKind::Start { .. } => Ok(Str::new(alloc)),
        TokenKind::End { .. } => Ok(Str::new(alloc)),
        TokenKind::Char(_) => Ok(Str::new(alloc)),
        TokenKind::Doctype { .. } => Ok(Str::new(alloc)),
        TokenKind::Eof => Ok(Str::new(alloc)),
    }
}

/// The name and the ids of a doctype, in memory of their own; another token has none.
#[derive(Drop)]
pub(crate) struct DoctypeIds {
    pub name: OptionalStr,
    pub public: OptionalStr,
    pub system: OptionalStr,
}

/// The name and the ids of a doctype, in memory of their own; another token has none.
pub(crate) fn copy_doctype(token: &TokenKind) -> Result<DoctypeIds, AllocError>
    ensures name { IfOk result (λ ids. ids.name ≡ name_id token.now) }
    ensures public { IfOk result (λ ids. ids.public ≡ public_id token.now) }
    ensures system { IfOk result (λ ids. ids.system ≡ system_id token.now) }
{
    match token {
        TokenKind::Doctype {
            name,
            public,
            system,
            ..
        } => {
            let name = name.clone()?;
            let public = public.clone()?;
            let system = system.clone()?;
            Ok(DoctypeIds {
                name,
                public,
                system,
            })
        }
        TokenKind::Start { .. }
        | TokenKind::End { .. }
        | TokenKind::Char(_)
        | TokenKind::Comment(_)
        | TokenKind::Eof => Ok(DoctypeIds {
            name: OptionalStr::none(),
            public: OptionalStr::none(),
            system: OptionalStr::none(),
        }),
    }
}
