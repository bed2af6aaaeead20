// Which elements are opened and may hold children, and which are never made.
ghost use Rattle.std.specs.Prelude.{◌≡◌};
ghost use Rattle.html_tree.specs.Proper.{is_foreign_root, opens};

use html_names::Tag;

/// Whether an element of this tag is opened when it is made: it is not void, and no root of foreign content.
pub fn opens(tag: Tag) -> bool
    ensures value { result ≡ opens tag }
{
    !tag.is_void() && !is_foreign_root(tag)
}

/// Whether a tag is that of a root of foreign content, svg or math, which no HTML element has.
pub fn is_foreign_root(tag: Tag) -> bool
    ensures value { result ≡ is_foreign_root tag }
{
    matches!(tag, Tag::Math | Tag::Svg)
}
