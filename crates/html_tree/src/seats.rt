// What parts of tables stand on (13.2.6.4.9 to 13.2.6.4.15).
ghost use Rattle.std.specs.Prelude.{◌≡◌};
ghost use Rattle.html_tree.specs.Seats.{is_part, may_carry, sits_on};

use html_arena::NodeId;
use html_names::Tag;

/// A part of a table: a cell, a row, a section, a caption or a colgroup.
pub fn is_part(tag: Tag) -> bool
    ensures value { result ≡ is_part tag }
{
    tag.is_cell() || tag.is(Tag::Tr) || tag.is_table_part()
}

/// Whether an element of a tag may hold a part of a table of another: an html only where it is node 0, the root of a fragment.
pub(crate) fn may_carry(part: Tag, node: NodeId, tag: Tag) -> bool
    ensures value { result ≡ may_carry part node tag }
{
    if tag.is(Tag::Html) {
        node == NodeId::at(0)
    } else {
        sits_on(part, tag)
    }
}

/// Whether a part of a table may stand on an element of this tag, as far as tags tell.
fn sits_on(part: Tag, tag: Tag) -> bool
    ensures value { result ≡ sits_on part tag }
{
    if part.is_cell() {
        tag.is_row_context()
    } else if part.is(Tag::Tr) {
        tag.is_section_context()
    } else if part.is_table_part() {
        tag.is_table_context()
    } else {
        true
    }
}
