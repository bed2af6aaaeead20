// Which names tags and attributes can have.
ghost use Rattle.std.specs.Prelude.{◌≡◌, ◌||◌};
ghost use Rattle.std.specs.List.{list_all};
ghost use Rattle.std.specs.Str.{bytes_eq, chars};
ghost use Rattle.html_names.specs.Tags.{is_same};
ghost use Rattle.html_names.specs.declared.tag.Tag.TheVariants as known;
ghost use Rattle.html_dom.specs.Names.{begins_name, ends_attr, ends_name, is_attr_name, is_element_name, is_lower, stays_in_attr, stays_in_name};

use html_names::Tag;

/// Whether a start tag of HTML can have this name.
pub fn is_element_name(name: &str) -> bool
    ensures { result ≡ is_element_name (chars name.now) }
{
    begins_name(name) && stays_in_name(name) && !is_foreign_root(Tag::of(name))
}

/// Whether an attribute of HTML can have this name.
pub fn is_attr_name(name: &str) -> bool
    ensures { result ≡ is_attr_name (chars name.now) }
{
    name.chars().next().is_some() && stays_in_attr(name)
}

/// Whether a tag is that of the name `svg` or `math`.
fn is_foreign_root(tag: Tag) -> bool
    ensures { result ≡ (is_same tag known.Svg || is_same tag known.Math) }
{
    tag.is(Tag::Svg) || tag.is(Tag::Math)
}

/// Whether a text begins as the name of a start tag.
fn begins_name(name: &str) -> bool
    ensures { result ≡ begins_name (chars name.now) }
{
    match name.chars().next() {
        Some(c) => is_lower(c),
        None => false,
    }
}

/// Whether a text holds nothing that ends a name or is replaced in one.
fn stays_in_name(name: &str) -> bool
    ensures { result ≡ list_all stays_in_name (chars name.now) }
{
    for c in name.chars() {
        if ends_name(c) {
            return false;
        }
    }
    true
}

/// Whether a text holds nothing that ends the name of an attribute or is replaced in one.
fn stays_in_attr(name: &str) -> bool
    ensures { result ≡ list_all stays_in_attr (chars name.now) }
{
    for c in name.chars() {
        if ends_attr(c) {
            return false;
        }
    }
    true
}

/// A letter in lower case.
fn is_lower(c: char) -> bool
    ensures { result ≡ is_lower c }
{
    matches!(c, 'a'..='z')
}

/// What ends a name, or is replaced in one.
fn ends_name(c: char) -> bool
    ensures { result ≡ ends_name c }
{
    matches!(c, '\t' | '\n' | '\x0c' | ' ' | '/' | '>' | '\0' | 'A'..='Z')
}

/// What ends the name of an attribute, or is replaced in one.
fn ends_attr(c: char) -> bool
    ensures { result ≡ ends_attr c }
{
    ends_name(c) || c == '='
}

/// Whether two texts are the same.
pub(crate) fn is_same_text(one: &str, other: &str) -> bool
    ensures { result ≡ bytes_eq (chars one.now) (chars other.now) }
{
    one == other
}
