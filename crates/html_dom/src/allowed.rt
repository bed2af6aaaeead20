// Which elements and attributes may stand in a tree, as a sanitizer lists them.
ghost use Rattle.std.specs.Prelude.{◌≡◌};
ghost use Rattle.std.specs.List.{list_all};
ghost use Rattle.std.specs.Str.{chars};
ghost use Rattle.html_arena.specs.Tree.{label_of};
ghost use Rattle.html_dom.specs.Allowed.{are_allowed, is_allowed, is_in};
ghost use Rattle.html_dom.specs.Reads.{descendants_of};

use crate::names::is_same_text;
use crate::reads::get;
use crate::walks::descendants;
use html_arena::{Arena, NodeData, NodeId};
use html_text::Str;
use html_tokens::Attr;

/// The names of the elements and of the attributes that may stand in a tree. An element of SVG or MathML has a name of two words, as `svg path`.
#[derive(Drop)]
pub struct AllowList {
    pub elements: Vec<Str>,
    pub attributes: Vec<Str>,
}

impl AllowList {
    /// Whether elements of this name are listed.
    pub fn has_element(&self, name: &str) -> bool
        ensures { result ≡ is_in (chars name.now) self.now.elements.items }
    {
        is_in(self.elements.as_slice(), name)
    }

    /// Whether attributes of this name are listed.
    pub fn has_attribute(&self, name: &str) -> bool
        ensures { result ≡ is_in (chars name.now) self.now.attributes.items }
    {
        is_in(self.attributes.as_slice(), name)
    }

    /// Whether all that stands below a node is texts, and elements that are listed with attributes that are listed. So it is where the node has no place.
    pub fn holds_below(&self, arena: &Arena, node: NodeId) -> bool
        ensures { result ≡ are_allowed self.now arena.now (descendants_of arena.now node) }
    {
        let mut nodes = descendants(arena, node);
        'nodes: while let Some(node) = nodes.next() {
            if !self.is_allowed(arena, node) {
                return false;
            }
        }
        true
    }

    /// Whether a node is a text, or an element that is listed with attributes that are listed.
    fn is_allowed(&self, arena: &Arena, node: NodeId) -> bool
        ensures { result ≡ is_allowed self.now (label_of arena.now node) }
    {
        match get(arena, node) {
            Some(NodeData::Text { .. }) => true,
            Some(NodeData::Element(element)) => {
                self.has_element(element.name.as_str())
                    && self.has_attributes(element.attrs.as_slice())
            }
            _ => false,
        }
    }

    /// Whether all attributes are listed.
    fn has_attributes(&self, attrs: &[Attr]) -> bool
        ensures { result ≡ list_all (λ a. is_in a.name self.now.attributes.items) attrs.now }
    {
        for attr in attrs {
            if !self.has_attribute(attr.name.as_str()) {
                return false;
            }
        }
        true
    }
}

/// Whether a name is listed.
fn is_in(names: &[Str], name: &str) -> bool
    ensures { result ≡ is_in (chars name.now) names.now }
{
    for listed in names {
        if is_same_text(listed.as_str(), name) {
            return true;
        }
    }
    false
}
