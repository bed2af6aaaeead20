// What a node is, apart from its links.
ghost use Rattle.std.specs.Prelude.{◌≡◌, ◌+◌, ◌<◌, [], OnOk, OnErr, IfOk, length, slice_set};
ghost use Rattle.std.specs.List.{sum_by};
ghost use Rattle.std.specs.Str.{chars};
ghost use Rattle.html_names.specs.Sets.{is_formatting};
ghost use Rattle.html_arena.specs.Data.{IsText, IsElement, attrs_in, cloned, contents_in, host_in, is_clone_in, is_linkable, kind_in, label_in, name_in, origin_in, tag_in, text_in, with_attrs, with_char, with_run};
ghost use Rattle.html_arena.specs.Weight.{weight, attrs_weight, optional_weight, capped};

use crate::attributes::attrs_held;
use crate::links::NodeId;
use html_names::Tag;
use html_text::{PlainText, Str, WideStr};
use html_tokens::{Attr, Attrs, OptionalStr};
use std::alloc::AllocError;

/// Where a node comes from: the token of this number, a rule of tree construction, or neither.
#[derive(Clone, Copy, Debug, PartialEq, Eq)]
pub enum Origin {
    Token(u64),
    Implied,
    Nothing,
}

/// What a node is.
#[derive(Clone, Copy, Debug, PartialEq, Eq)]
pub enum Kind {
    Document,
    Contents,
    Element,
    Text,
    Comment,
    Doctype,
}

/// An element without its links.
#[derive(Drop)]
pub struct ElementData {
    pub name: Str,
    /// The tag of the name.
    pub tag: Tag,
    pub attrs: Attrs,
    pub origin: Origin,
    pub is_clone: bool,
    /// The Contents node of a template.
    pub contents: Option<NodeId>,
}

/// A node without its links.
#[derive(Drop)]
pub enum NodeData {
    Document,
    /// The content of a template, its host.
    Contents {
        host: NodeId,
    },
    Element(ElementData),
    Text {
        text: WideStr,
    },
    Comment {
        text: Str,
        token: u64,
    },
    Doctype {
        name: OptionalStr,
        public: OptionalStr,
        system: OptionalStr,
        token: u64,
    },
}

/// A node to be made.
#[derive(Drop)]
pub enum NewNode {
    Document,
    Element {
        name: Str,
        attrs: Attrs,
        origin: Origin,
    },
    /// A clone of an element that has a formatting name, without its children.
    CloneOf(NodeId),
    /// An empty text.
    Text,
    Comment {
        text: Str,
        token: u64,
    },
    Doctype {
        name: OptionalStr,
        public: OptionalStr,
        system: OptionalStr,
        token: u64,
    },
}

/// A clone of an element, which shares its attributes and has no children.
pub(crate) fn clone_of(node: &NodeData) -> Result<NodeData, AllocError>
    requires { IsElement node.now }
    ensures { IfOk result (λ copy. copy ≡ cloned node.now) }
{
    let NodeData::Element(original) = node else {
        return Err(AllocError);
    };
    let name = original.name.clone()?;
    let attrs = original.attrs.share()?;
    Ok(NodeData::Element(ElementData {
        name,
        tag: original.tag,
        attrs,
        origin: original.origin,
        is_clone: true,
        contents: None,
    }))
}

/// The node of this number.
pub(crate) fn label_at(nodes: &Vec<NodeData>, node: NodeId) -> &NodeData
    requires { node < length nodes.now.items }
    ensures { result.now ≡ label_in nodes.now.items node }
{
    &nodes[node.index()]
}

/// Adds a code point to a text.
pub(crate) fn push_char(nodes: &mut Vec<NodeData>, node: NodeId, c: char) -> Result<(), AllocError>
    requires node_in { node < length nodes.old.items }
    requires is_text { IsText (label_in nodes.old.items node) }
    ensures ok { OnOk result (nodes.new.items ≡ slice_set nodes.old.items node (with_char (label_in nodes.old.items node) c)) }
    ensures err { OnErr result (nodes.new.items ≡ nodes.old.items) }
{
    push_to_text(&mut nodes[node.index()], c)
}

fn push_to_text(node: &mut NodeData, c: char) -> Result<(), AllocError>
    requires { IsText node.old }
    ensures ok { OnOk result (node.new ≡ with_char node.old c) }
    ensures err { OnErr result (node.new ≡ node.old) }
{
    if let NodeData::Text { text } = node {
        text.push(c)?;
    }
    Ok(())
}

/// Adds a run of code points to a text.
pub(crate) fn push_run(
    nodes: &mut Vec<NodeData>,
    node: NodeId,
    run: &[char],
) -> Result<(), AllocError>
    requires node_in { node < length nodes.old.items }
    requires is_text { IsText (label_in nodes.old.items node) }
    ensures ok { OnOk result (nodes.new.items ≡ slice_set nodes.old.items node (with_run (label_in nodes.old.items node) run.now)) }
    ensures err { OnErr result (nodes.new.items ≡ nodes.old.items) }
{
    push_run_to_text(&mut nodes[node.index()], run)
}

fn push_run_to_text(node: &mut NodeData, run: &[char]) -> Result<(), AllocError>
    requires { IsText node.old }
    ensures ok { OnOk result (node.new ≡ with_run node.old run.now) }
    ensures err { OnErr result (node.new ≡ node.old) }
{
    if let NodeData::Text { text } = node {
        text.push_run(run)?;
    }
    Ok(())
}

/// Adds a plain text to a text.
pub(crate) fn push_plain(
    nodes: &mut Vec<NodeData>,
    node: NodeId,
    more: &PlainText<'_>,
) -> Result<(), AllocError>
    requires node_in { node < length nodes.old.items }
    requires is_text { IsText (label_in nodes.old.items node) }
    ensures ok { OnOk result (nodes.new.items ≡ slice_set nodes.old.items node (with_run (label_in nodes.old.items node) more.now)) }
    ensures err { OnErr result (nodes.new.items ≡ nodes.old.items) }
{
    push_plain_to_text(&mut nodes[node.index()], more)
}

fn push_plain_to_text(node: &mut NodeData, more: &PlainText<'_>) -> Result<(), AllocError>
    requires { IsText node.old }
    ensures ok { OnOk result (node.new ≡ with_run node.old more.now) }
    ensures err { OnErr result (node.new ≡ node.old) }
{
    if let NodeData::Text { text } = node {
        text.push_text(more.as_str())?;
    }
    Ok(())
}

/// Gives an element other attributes.
pub(crate) fn set_attrs(nodes: &mut Vec<NodeData>, node: NodeId, attrs: Attrs)
    requires { node < length nodes.old.items }
    ensures { nodes.new.items ≡ slice_set nodes.old.items node (with_attrs (label_in nodes.old.items node) attrs) }
{
    set_attrs_of(&mut nodes[node.index()], attrs);
}

fn set_attrs_of(node: &mut NodeData, attrs: Attrs)
    ensures { node.new ≡ with_attrs node.old attrs }
{
    if let NodeData::Element(element) = node {
        element.attrs = attrs;
    }
}

/// The code points of a text that may be absent.
fn optional_held(text: &OptionalStr) -> u128
    ensures { result ≡ optional_weight text.now }
{
    match text.as_ref() {
        None => 0,
        Some(text) => text.len() as u128,
    }
}

/// The code points that an element of this name and these attributes holds.
pub(crate) fn element_held(name: &Str, attrs: &[Attr]) -> u128
    ensures { result ≡ capped (length name.now + attrs_weight attrs.now) }
{
    attrs_held(attrs).saturating_add(name.len() as u128)
}

/// The code points that a node holds, as if it shared none.
pub(crate) fn held_of(node: &NodeData) -> u128
    ensures { result ≡ capped (weight node.now) }
{
    match node {
        NodeData::Document => 0,
        NodeData::Contents { .. } => 0,
        NodeData::Element(element) => element_held(&element.name, element.attrs.as_slice()),
        NodeData::Text { text } => text.len() as u128,
        NodeData::Comment { text, .. } => text.len() as u128,
        NodeData::Doctype {
            name,
            public,
            system,
            ..
        } => {
            let name = optional_held(name);
            let public = optional_held(public);
            let system = optional_held(system);
            name.saturating_add(public).saturating_add(system)
        }
    }
}

/// The code points that a node holds where it has these attributes; one that is no element has none.
pub(crate) fn held_with_attrs(node: &NodeData, attrs: &[Attr]) -> u128
    ensures { result ≡ capped (weight (with_attrs node.now attrs.now)) }
{
    match node {
        NodeData::Element(element) => element_held(&element.name, attrs),
        other => held_of(other),
    }
}

/// The code points that nodes hold, as if they shared none.
pub(crate) fn all_held(nodes: &[NodeData]) -> u128
    ensures { result ≡ capped (sum_by weight nodes.now) }
{
    let mut held: u128 = 0;
    for node in nodes {
        held = held.saturating_add(held_of(node));
    }
    held
}

/// The empty text.
fn no_text() -> &'static str
    ensures { chars result.now ≡ [] }
{
    ""
}

impl NodeData {
    /// The kind of the node.
    pub(crate) fn kind(&self) -> Kind
        ensures { result ≡ kind_in self.now }
    {
        match self {
            NodeData::Document => Kind::Document,
            NodeData::Contents { .. } => Kind::Contents,
            NodeData::Element(_) => Kind::Element,
            NodeData::Text { .. } => Kind::Text,
            NodeData::Comment { .. } => Kind::Comment,
            NodeData::Doctype { .. } => Kind::Doctype,
        }
    }

    /// Whether the node may have a parent.
    pub(crate) fn is_linkable(&self) -> bool
        ensures { result ≡ is_linkable self.now }
    {
        match self {
            NodeData::Document | NodeData::Contents { .. } => false,
            _ => true,
        }
    }

    /// The name of an element; empty for other nodes.
    pub(crate) fn name(&self) -> &str
        ensures { chars result.now ≡ name_in self.now }
    {
        match self {
            NodeData::Element(element) => element.name.as_str(),
            _ => no_text(),
        }
    }

    /// The tag of an element's name; `Other` for other nodes.
    pub(crate) fn tag(&self) -> Tag
        ensures { result ≡ tag_in self.now }
    {
        match self {
            NodeData::Element(element) => element.tag,
            _ => Tag::Other,
        }
    }

    /// The attributes of an element; none for other nodes.
    pub(crate) fn attrs(&self) -> &[Attr]
        ensures { result.now ≡ attrs_in self.now }
    {
        match self {
            NodeData::Element(element) => element.attrs.as_slice(),
            _ => &[],
        }
    }

    /// The text of a Text node, or the data of a comment; empty for other nodes.
    pub(crate) fn text(&self) -> &str
        ensures { chars result.now ≡ text_in self.now }
    {
        match self {
            NodeData::Text { text } => text.as_str(),
            NodeData::Comment { text, .. } => text.as_str(),
            _ => no_text(),
        }
    }

    /// Where the node comes from: the token of a comment or a doctype is its own.
    pub(crate) fn origin(&self) -> Origin
        ensures { result ≡ origin_in self.now }
    {
        match self {
            NodeData::Element(element) => element.origin,
            NodeData::Comment { token, .. } => Origin::Token(*token),
            NodeData::Doctype { token, .. } => Origin::Token(*token),
            _ => Origin::Nothing,
        }
    }

    /// Whether the node was made as a clone of another.
    pub(crate) fn is_clone(&self) -> bool
        ensures { result ≡ is_clone_in self.now }
    {
        match self {
            NodeData::Element(element) => element.is_clone,
            _ => false,
        }
    }

    /// The Contents node of a template.
    pub(crate) fn contents(&self) -> Option<NodeId>
        ensures { result ≡ contents_in self.now }
    {
        match self {
            NodeData::Element(element) => element.contents,
            _ => None,
        }
    }

    /// The template of a Contents node.
    pub(crate) fn host(&self) -> Option<NodeId>
        ensures { result ≡ host_in self.now }
    {
        match self {
            NodeData::Contents { host } => Some(*host),
            _ => None,
        }
    }
}
