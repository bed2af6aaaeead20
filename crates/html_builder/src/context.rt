// The context of a fragment (13.4).
ghost use Rattle.std.specs.Prelude.{◌≡◌, IfOk};
ghost use Rattle.std.specs.List.{list_all};
ghost use Rattle.std.specs.Str.{chars};
ghost use Rattle.std.specs.Str.{bytes_eq};
ghost use Rattle.html_names.specs.Foreign.{adjusted_name, lowered};
ghost use Rattle.html_builder.specs.Contexts.{begins_name, ends_name, is_good_local, is_lower, is_tag_name, local_of, stays_in_name};

use crate::switches::text_mode_of;
use html_names::{Space, Tag, adjusted_name, is_html_encoding, local_name};
use html_text::Str;
use html_tokens::TextMode;
use std::alloc::{AllocError, Global};

/// The element around a fragment.
#[derive(Drop)]
pub struct Context {
    /// Its name: of an element of HTML as it stands, of one of foreign content behind `svg ` or `math `, as `svg path`.
    pub name: Str,
    /// Whether it stands in a form.
    pub in_form: bool,
    /// Whether its document is in quirks mode.
    pub quirks: bool,
    /// The value of its attribute `encoding`, if it has one. In any case, `text/html` and `application/xhtml+xml` make a `math annotation-xml` an HTML
    /// integration point (13.2.6); of no other element it is asked.
    pub encoding: Option<Str>,
}

impl Context {
    ghost use Rattle.std.specs.Prelude.{◌≡◌, IfOk};
    ghost use Rattle.html_names.specs.Names.{tag_of};
    ghost use Rattle.html_builder.specs.Contexts.{context_tag, holds_html, is_good, is_good_anywhere, is_good_foreign, text_mode_of};

    /// The tag by which tree construction knows it.
    pub(crate) fn tag(&self) -> Tag
        ensures value { result ≡ context_tag self.now }
    {
        let named = self.named();
        if named.is(Tag::MathAnnotationXml) && self.holds_html() {
            Tag::SvgDesc
        } else {
            named
        }
    }

    /// The tag of the name.
    fn named(&self) -> Tag
        ensures value { result ≡ tag_of self.now.name }
    {
        Tag::of(self.name.as_str())
    }

    /// Whether its attribute says that it holds HTML.
    fn holds_html(&self) -> bool
        ensures value { result ≡ holds_html self.now.encoding }
    {
        match &self.encoding {
            Some(value) => is_html_encoding(value.as_str()),
            None => false,
        }
    }

    /// Whether a start tag can have the name, and the name is not that of foreign content.
    pub(crate) fn is_good(&self) -> bool
        ensures value { result ≡ is_good self.now.name }
    {
        is_tag_name(self.name.as_str()) && !matches!(self.named(), Tag::Svg | Tag::Math)
    }

    /// Whether the name is good where foreign content is parsed: as one of HTML, or as one of foreign content.
    ///
    /// # Errors
    ///
    /// Memory was refused.
    pub(crate) fn is_good_anywhere(&self, alloc: Global) -> Result<bool, AllocError>
        ensures value { IfOk result (λ b. b ≡ is_good_anywhere self.now.name) }
    {
        if self.is_good() {
            return Ok(true);
        }
        let good = self.is_good_foreign(alloc)?;
        Ok(good)
    }

    /// Whether the name is that of an element of foreign content that a start tag can have.
    fn is_good_foreign(&self, alloc: Global) -> Result<bool, AllocError>
        ensures value { IfOk result (λ b. b ≡ is_good_foreign self.now.name) }
    {
        let tag = self.named();
        if !tag.is_foreign() {
            return Ok(false);
        }
        let good = is_good_local(alloc, tag.space(), local_name(self.name.as_str()))?;
        Ok(good)
    }

    /// How the text of the fragment is read.
    pub fn text_mode(&self) -> TextMode
        ensures value { result ≡ text_mode_of self.now }
    {
        let tag = self.named();
        if tag.is_foreign() {
            return TextMode::Foreign;
        }
        text_mode_of(tag).unwrap_or(TextMode::Data)
    }
}

/// Whether a local name is the one that the element of a start tag has in this space: in lower case the name of a tag, of which that of the element is made.
fn is_good_local(alloc: Global, space: Space, local: &str) -> Result<bool, AllocError>
    ensures value { IfOk result (λ b. b ≡ is_good_local space (chars local.now)) }
{
    let own = lowered(alloc, local)?;
    let local = Str::of(alloc, local)?;
    let made = local_of(alloc, space, own.as_str())?;
    Ok(is_tag_name(own.as_str()) && made == local)
}

/// The local name that the element of a start tag of this name has in this space (13.2.6.5).
fn local_of(alloc: Global, space: Space, name: &str) -> Result<Str, AllocError>
    ensures value { IfOk result (λ s. s ≡ local_of space (chars name.now)) }
{
    match adjusted_name(space, name) {
        Some(adjusted) => Str::of(alloc, adjusted),
        None => Str::of(alloc, name),
    }
}

/// A text with its letters in lower case, as far as they are ASCII.
fn lowered(alloc: Global, text: &str) -> Result<Str, AllocError>
    ensures value { IfOk result (λ s. s ≡ lowered (chars text.now)) }
{
    let mut lower = Str::new(alloc);
    for c in text.chars() {
        lower.push(c.to_ascii_lowercase())?;
    }
    Ok(lower)
}

/// Whether a text is the name of some start tag.
fn is_tag_name(name: &str) -> bool
    ensures value { result ≡ is_tag_name (chars name.now) }
{
    begins_name(name) && has_no_end(name)
}

/// Whether a text begins as the name of a start tag.
fn begins_name(name: &str) -> bool
    ensures value { result ≡ begins_name (chars name.now) }
{
    match name.chars().next() {
        Some(c) => is_lower(c),
        None => false,
    }
}

/// Whether a text holds nothing that ends a name or is replaced in one.
fn has_no_end(name: &str) -> bool
    ensures value { result ≡ list_all stays_in_name (chars name.now) }
{
    for c in name.chars() {
        if ends_name(c) {
            return false;
        }
    }
    true
}

/// A letter in lower case.
fn is_lower(c: char) -> bool
    ensures value { result ≡ is_lower c }
{
    matches!(c, 'a'..='z')
}

/// What ends a name, or is replaced in one.
fn ends_name(c: char) -> bool
    ensures value { result ≡ ends_name c }
{
    matches!(c, '\t' | '\n' | '\x0c' | ' ' | '/' | '>' | '\0' | 'A'..='Z')
}
