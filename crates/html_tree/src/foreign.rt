// Elements of foreign content, and where it is left (13.2.6, 13.2.6.5).
ghost use Rattle.std.specs.Prelude.{◌≡◌, ◌<◌, codes, length};
ghost use Rattle.std.specs.Str.{bytes_eq, chars};
ghost use Rattle.html_open.specs.Lists.{IsBelow, last_index};
ghost use Rattle.html_open.specs.Opened.{AreNodes};
ghost use Rattle.html_tree.specs.Foreign.{is_foreign_named, is_home, is_html_at, is_html_point_at, named_or_html, says_html};
ghost use Rattle.html_tree.specs.Searching.{index_before};

use html_arena::{Arena, NodeId};
use html_names::{Tag, is_html_encoding, is_local_name};
use html_tokens::Attr;

/// Whether these attributes say that an annotation-xml holds HTML.
fn say_html(attrs: &[Attr]) -> bool
    ensures { result ≡ says_html attrs.now }
{
    for attr in attrs {
        if is_encoding(attr) {
            return is_html_encoding(attr.value.as_str());
        }
    }
    false
}

/// Whether an attribute has the name that tells it.
fn is_encoding(attr: &Attr) -> bool
    ensures { result ≡ bytes_eq attr.now.name (codes "encoding") }
{
    attr.name.as_str() == "encoding"
}

/// Whether an element is an HTML integration point.
pub(crate) fn is_html_point(arena: &Arena, node: NodeId) -> bool
    requires { node < length arena.now.labels }
    ensures { result ≡ is_html_point_at arena.now node }
{
    let tag = arena.tag(node);
    tag.is_html_point() || (tag.is(Tag::MathAnnotationXml) && say_html(arena.attrs(node)))
}

/// Whether an element is one of HTML, or an integration point.
fn is_home(arena: &Arena, node: NodeId) -> bool
    requires { node < length arena.now.labels }
    ensures { result ≡ is_home arena.now node }
{
    let tag = arena.tag(node);
    !tag.is_foreign() || tag.is_text_point() || is_html_point(arena, node)
}

/// The index of the last element where foreign content is left.
pub(crate) fn home_index(nodes: &[NodeId], arena: &Arena) -> Option<usize>
    requires { AreNodes arena.now nodes.now }
    ensures index { result ≡ last_index (is_home arena.now) nodes.now }
    ensures below { IsBelow (length nodes.now) result }
{
    let mut at = nodes.len();
    'seeking: while at > 0 {
        at -= 1;
        if is_home(arena, nodes[at]) {
            return Some(at);
        }
    }
    None
}

/// Whether an element is one of foreign content with this local name in lower case.
fn is_foreign_named(arena: &Arena, node: NodeId, name: &str) -> bool
    requires { node < length arena.now.labels }
    ensures { result ≡ is_foreign_named arena.now (chars name.now) node }
{
    arena.tag(node).is_foreign() && is_local_name(arena.name(node), name)
}

/// Whether a search for the element of an end tag stops at an element.
fn stops_foreign(arena: &Arena, node: NodeId, name: &str) -> bool
    requires { node < length arena.now.labels }
    ensures { result ≡ named_or_html arena.now (chars name.now) node }
{
    is_foreign_named(arena, node, name) || !arena.tag(node).is_foreign()
}

/// The index of the last element of foreign content with a name, or of one of HTML.
pub(crate) fn foreign_index(nodes: &[NodeId], arena: &Arena, name: &str) -> Option<usize>
    requires { AreNodes arena.now nodes.now }
    ensures index { result ≡ last_index (named_or_html arena.now (chars name.now)) nodes.now }
    ensures below { IsBelow (length nodes.now) result }
{
    let mut at = nodes.len();
    'seeking: while at > 0 {
        at -= 1;
        if stops_foreign(arena, nodes[at], name) {
            return Some(at);
        }
    }
    None
}

/// The index, of the element at which such a search stopped, where it is one of foreign content with the name.
pub(crate) fn foreign_at(
    nodes: &[NodeId],
    arena: &Arena,
    name: &str,
    at: Option<usize>,
) -> Option<usize>
    requires nodes_in { AreNodes arena.now nodes.now }
    requires at_in { IsBelow (length nodes.now) at }
    requires stopped { at ≡ last_index (named_or_html arena.now (chars name.now)) nodes.now }
    ensures index { result ≡ index_before (is_foreign_named arena.now (chars name.now)) (is_html_at arena.now) nodes.now }
    ensures below { IsBelow (length nodes.now) result }
{
    match at {
        None => None,
        Some(index) => {
            if is_foreign_named(arena, nodes[index], name) {
                Some(index)
            } else {
                None
            }
        }
    }
}
