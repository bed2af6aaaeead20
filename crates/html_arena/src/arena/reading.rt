// What a node is, and its marks.
ghost use Rattle.std.specs.Prelude.{◌≡◌, ◌<◌, length, Some, IfSome};
ghost use Rattle.std.specs.Str.{chars};
ghost use Rattle.html_names.specs.Foreign.{attr_space, local_name, space_of};
ghost use Rattle.html_names.specs.Names.{tag_of};
ghost use Rattle.html_arena.specs.Data.{attrs_in, contents_in, host_in, is_clone_in, is_linkable, kind_in, name_in, origin_in, text_in};
ghost use Rattle.html_arena.specs.Tree.{label_of, marked, named, tag_at, with_marked};

use super::Arena;
use crate::data::{Kind, NodeData, Origin, label_at};
use crate::links::NodeId;
use crate::marks::Mark;
use html_names::{AttrSpace, Space, Tag, attr_space, local_name};
use html_tokens::Attr;

impl Arena {
    /// What a node is, apart from its links.
    pub fn node(&self, node: NodeId) -> &NodeData
        requires { node < length self.now.labels }
        ensures { result.now ≡ label_of self.now node }
    {
        label_at(&self.nodes, node)
    }

    /// The kind of a node.
    pub fn kind(&self, node: NodeId) -> Kind
        requires { node < length self.now.labels }
        ensures { result ≡ kind_in (label_of self.now node) }
    {
        label_at(&self.nodes, node).kind()
    }

    /// Whether a node may be linked: a document and a template's contents may not.
    pub fn is_linkable(&self, node: NodeId) -> bool
        requires { node < length self.now.labels }
        ensures { result ≡ is_linkable (label_of self.now node) }
    {
        label_at(&self.nodes, node).is_linkable()
    }

    /// The name of an element; empty for other nodes.
    pub fn name(&self, node: NodeId) -> &str
        requires { node < length self.now.labels }
        ensures { chars result.now ≡ name_in (label_of self.now node) }
    {
        label_at(&self.nodes, node).name()
    }

    /// The local name of an element, without its namespace: `path` of the name `svg path`; empty for other nodes.
    pub fn local_name(&self, node: NodeId) -> &str
        requires { node < length self.now.labels }
        ensures { chars result.now ≡ local_name (name_in (label_of self.now node)) }
    {
        local_name(self.name(node))
    }

    /// The namespace of an element; that of HTML for other nodes.
    pub fn namespace(&self, node: NodeId) -> Space
        requires { node < length self.now.labels }
        ensures { result ≡ space_of (tag_at self.now node) }
    {
        self.tag(node).space()
    }

    /// The namespace of an attribute of an element, by its name; none for those of other nodes.
    pub fn attr_namespace(&self, node: NodeId, attr: &Attr) -> AttrSpace
        requires { node < length self.now.labels }
        ensures { result ≡ attr_space (space_of (tag_at self.now node)) attr.now.name }
    {
        attr_space(self.namespace(node), attr.name.as_str())
    }

    /// The tag of an element's name; `Other` for other nodes.
    pub fn tag(&self, node: NodeId) -> Tag
        requires { node < length self.now.labels }
        ensures value { result ≡ tag_at self.now node }
        ensures of_name { result ≡ tag_of (name_in (label_of self.now node)) }
    {
        label_at(&self.nodes, node).tag()
    }

    /// Whether a node is an element of this tag.
    pub fn is_named(&self, node: NodeId, tag: Tag) -> bool
        requires { node < length self.now.labels }
        ensures { result ≡ named self.now tag node }
    {
        label_at(&self.nodes, node).tag().is(tag)
    }

    /// The attributes of an element; none for other nodes.
    pub fn attrs(&self, node: NodeId) -> &[Attr]
        requires { node < length self.now.labels }
        ensures { result.now ≡ attrs_in (label_of self.now node) }
    {
        label_at(&self.nodes, node).attrs()
    }

    /// The text of a Text node, or the data of a comment; empty for other nodes.
    pub fn text(&self, node: NodeId) -> &str
        requires { node < length self.now.labels }
        ensures { chars result.now ≡ text_in (label_of self.now node) }
    {
        label_at(&self.nodes, node).text()
    }

    /// Where a node comes from.
    pub fn origin(&self, node: NodeId) -> Origin
        requires { node < length self.now.labels }
        ensures { result ≡ origin_in (label_of self.now node) }
    {
        label_at(&self.nodes, node).origin()
    }

    /// Whether a node was made as a clone of another.
    pub fn is_clone(&self, node: NodeId) -> bool
        requires { node < length self.now.labels }
        ensures { result ≡ is_clone_in (label_of self.now node) }
    {
        label_at(&self.nodes, node).is_clone()
    }

    /// The Contents node of a template.
    pub fn contents(&self, node: NodeId) -> Option<NodeId>
        requires { node < length self.now.labels }
        ensures value { result ≡ contents_in (label_of self.now node) }
        ensures contents { IfSome result (λ c. (c < length self.now.labels) × (host_in (label_of self.now c) ≡ Some node)) }
    {
        label_at(&self.nodes, node).contents()
    }

    /// The template of a Contents node.
    pub fn host(&self, node: NodeId) -> Option<NodeId>
        requires { node < length self.now.labels }
        ensures value { result ≡ host_in (label_of self.now node) }
        ensures template { IfSome result (λ x. (x < length self.now.labels) × (contents_in (label_of self.now x) ≡ Some node)) }
    {
        label_at(&self.nodes, node).host()
    }

    /// Whether a node has a mark.
    pub fn marked(&self, node: NodeId, mark: Mark) -> bool
        requires { node < length self.now.labels }
        ensures { result ≡ marked self.now mark node }
    {
        self.marks[node.index()].has(mark)
    }

    /// Sets or clears a mark of a node.
    pub fn set_mark(&mut self, node: NodeId, mark: Mark, on: bool)
        requires { node < length self.old.labels }
        ensures { self.new ≡ with_marked self.old mark node on }
    {
        let marks = &mut self.marks[node.index()];
        *marks = marks.with(mark, on);
    }
}
