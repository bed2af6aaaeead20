// Whether two elements have the same name and the same set of attributes.
ghost use Rattle.std.specs.Prelude.{◌≡◌, ◌<◌, ◌*◌, length};
ghost use Rattle.html_open.specs.Attributes.{has_attr, has_attrs, is_attr, same_attrs};
ghost use Rattle.html_arena.specs.Data.{attrs_in};
ghost use Rattle.html_arena.specs.Tree.{label_of};

use html_arena::{Arena, NodeId};
use html_tokens::Attr;

/// Whether two attributes have the same name and the same value.
fn is_attr(attr: &Attr, other: &Attr) -> bool
    ensures { result ≡ is_attr attr.now other.now }
{
    attr.name == other.name && attr.value == other.value
}

/// Whether an attribute of this name and value is there.
fn has_attr(attr: &Attr, attrs: &[Attr]) -> bool
    ensures { result ≡ has_attr attr.now attrs.now }
{
    for other in attrs {
        if is_attr(attr, other) {
            return true;
        }
    }
    false
}

/// Whether each attribute of the first list is in the second.
fn has_attrs(own: &[Attr], attrs: &[Attr]) -> bool
    ensures { result ≡ has_attrs own.now attrs.now }
{
    for attr in own {
        if !has_attr(attr, attrs) {
            return false;
        }
    }
    true
}

/// Whether two elements have the same set of attributes.
pub(crate) fn same_attrs(arena: &Arena, node: NodeId, other: NodeId) -> bool
    requires node_in { node < length arena.now.labels }
    requires other_in { other < length arena.now.labels }
    ensures { result ≡ same_attrs (attrs_in (label_of arena.now node)) (attrs_in (label_of arena.now other)) }
{
    let own = arena.attrs(node);
    let others = arena.attrs(other);
    has_attrs(own, others) && has_attrs(others, own)
}

/// The comparisons of the attributes of two elements, each with each.
pub(crate) fn pairs(arena: &Arena, node: NodeId, other: NodeId) -> u128
    requires node_in { node < length arena.now.labels }
    requires other_in { other < length arena.now.labels }
    ensures { result ≡ length (attrs_in (label_of arena.now node)) * length (attrs_in (label_of arena.now other)) }
{
    arena.attrs(node).len() as u128 * arena.attrs(other).len() as u128
}
