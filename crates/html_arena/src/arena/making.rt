// New nodes.
ghost use Rattle.std.specs.Prelude.{◌≡◌, ◌+◌, ◌<◌, [], length, OnOk, OnErr, IfOk, IfErr, Ok, false, true};
ghost use Rattle.html_names.specs.Names.{tag_of};
ghost use Rattle.html_names.specs.Sets.{is_formatting, is_template};
ghost use Rattle.html_arena.specs.Budget.{RefusedBy, budget};
ghost use Rattle.html_arena.specs.Data.{IsLone, cloned, is_linkable};
ghost use Rattle.html_arena.specs.Laws.{IsGrown};
ghost use Rattle.html_arena.specs.Make.{CanMake, label_for, made, made_weight, makes_child, nodes_made, plain_element, template_element};
ghost use Rattle.html_arena.specs.Tree.{added, added_template, label_of, tag_at};
ghost use Rattle.html_arena.specs.Weight.{capped, weight};

use super::{Arena, ArenaError};
use crate::data::{
    ElementData, NewNode, NodeData, Origin, clone_of, element_held, held_of, label_at,
};
use crate::links::NodeId;
use crate::room::{let_go, push_node, reserve};
use html_names::Tag;
use html_text::{Str, WideStr};
use html_tokens::{Attrs, OptionalStr};

impl Arena {
    /// Asks for room for so many more nodes, which take no memory before they are made. A refusal changes nothing.
    pub fn reserve(&mut self, count: usize)
        ensures same { self.new ≡ self.old }
    {
        let _ = reserve(&mut self.links, &mut self.nodes, &mut self.marks, count);
    }

    /// Makes a node that stands alone; a template with its Contents node, the next one.
    #[inline(always)]
    pub fn make(&mut self, new: NewNode) -> Result<NodeId, ArenaError>
        requires { CanMake self.old new }
        ensures id { IfOk result (λ id. id ≡ length self.old.labels) }
        ensures within { OnOk result (budget self.old (nodes_made new) (made_weight self.old new) ≡ Ok tt) }
        ensures made { OnOk result (self.new ≡ made self.old new) }
        ensures grown { OnOk result (IsGrown self.old self.new (nodes_made new)) }
        ensures label { IfOk result (λ id. label_of self.new id ≡ label_for self.old new) }
        ensures child { IfOk result (λ id. is_linkable (label_of self.new id) ≡ makes_child new) }
        ensures refused { OnErr result (self.new ≡ self.old) }
        ensures cause { IfErr result (λ e. RefusedBy (budget self.old (nodes_made new) (made_weight self.old new)) e) }
    {
        self.forest();
        let made = self.make_node(new)?;
        self.forest();
        Ok(made)
    }

    /// Makes a node that stands alone; a template with its Contents node, the next one.
    #[inline(always)]
    fn make_node(&mut self, new: NewNode) -> Result<NodeId, ArenaError>
        requires { CanMake self.old new }
        ensures id { IfOk result (λ id. id ≡ length self.old.labels) }
        ensures within { OnOk result (budget self.old (nodes_made new) (made_weight self.old new) ≡ Ok tt) }
        ensures made { OnOk result (self.new ≡ made self.old new) }
        ensures refused { OnErr result (self.new ≡ self.old) }
        ensures cause { IfErr result (λ e. RefusedBy (budget self.old (nodes_made new) (made_weight self.old new)) e) }
    {
        match new {
            NewNode::Document => self.make_document(),
            NewNode::Element {
                name,
                attrs,
                origin,
            } => {
                let tag = Tag::of(name.as_str());
                if tag.is_template() {
                    self.make_template(name, tag, attrs, origin)
                } else {
                    self.make_element(name, tag, attrs, origin)
                }
            }
            NewNode::CloneOf(node) => self.make_clone(node),
            NewNode::Text => self.make_text(),
            NewNode::Comment { text, token } => self.make_comment(text, token),
            NewNode::Doctype {
                name,
                public,
                system,
                token,
            } => self.make_doctype(name, public, system, token),
        }
    }

    /// Makes an empty text.
    #[inline(always)]
    fn make_text(&mut self) -> Result<NodeId, ArenaError>
        ensures id { IfOk result (λ id. id ≡ length self.old.labels) }
        ensures within { OnOk result (budget self.old 1 (capped (weight (NodeData.Text []))) ≡ Ok tt) }
        ensures made { OnOk result (self.new ≡ added self.old (NodeData.Text []) (capped (weight (NodeData.Text [])))) }
        ensures refused { OnErr result (self.new ≡ self.old) }
        ensures cause { IfErr result (λ e. RefusedBy (budget self.old 1 (capped (weight (NodeData.Text [])))) e) }
    {
        self.room_for(1, 0)?;
        let text = WideStr::new(*self.links.allocator());
        self.place(NodeData::Text { text }, 0)
    }

    /// Makes a document. This, comments, doctypes and templates are rare, and stand apart from `make_node`, which would else set room to zero
    /// for each of them.
    #[inline(never)]
    fn make_document(&mut self) -> Result<NodeId, ArenaError>
        ensures id { IfOk result (λ id. id ≡ length self.old.labels) }
        ensures within { OnOk result (budget self.old 1 (capped (weight NodeData.Document)) ≡ Ok tt) }
        ensures made { OnOk result (self.new ≡ added self.old NodeData.Document (capped (weight NodeData.Document))) }
        ensures refused { OnErr result (self.new ≡ self.old) }
        ensures cause { IfErr result (λ e. RefusedBy (budget self.old 1 (capped (weight NodeData.Document))) e) }
    {
        self.add(NodeData::Document)
    }

    /// Makes a comment.
    #[inline(never)]
    fn make_comment(&mut self, text: Str, token: u64) -> Result<NodeId, ArenaError>
        ensures id { IfOk result (λ id. id ≡ length self.old.labels) }
        ensures within { OnOk result (budget self.old 1 (capped (weight (NodeData.Comment text token))) ≡ Ok tt) }
        ensures made { OnOk result (self.new ≡ added self.old (NodeData.Comment text token) (capped (weight (NodeData.Comment text token)))) }
        ensures refused { OnErr result (self.new ≡ self.old) }
        ensures cause { IfErr result (λ e. RefusedBy (budget self.old 1 (capped (weight (NodeData.Comment text token)))) e) }
    {
        self.add(NodeData::Comment { text, token })
    }

    /// Makes a doctype.
    #[inline(never)]
    fn make_doctype(
        &mut self,
        name: OptionalStr,
        public: OptionalStr,
        system: OptionalStr,
        token: u64,
    ) -> Result<NodeId, ArenaError>
        ensures id { IfOk result (λ id. id ≡ length self.old.labels) }
        ensures within { OnOk result (budget self.old 1 (capped (weight (NodeData.Doctype name public system token))) ≡ Ok tt) }
        ensures made { OnOk result (self.new ≡ added self.old (NodeData.Doctype name public system token) (capped (weight (NodeData.Doctype name public system token)))) }
        ensures refused { OnErr result (self.new ≡ self.old) }
        ensures cause { IfErr result (λ e. RefusedBy (budget self.old 1 (capped (weight (NodeData.Doctype name public system token)))) e) }
    {
        self.add(NodeData::Doctype {
            name,
            public,
            system,
            token,
        })
    }

    /// Makes an element that is no template.
    #[inline(always)]
    fn make_element(
        &mut self,
        name: Str,
        tag: Tag,
        attrs: Attrs,
        origin: Origin,
    ) -> Result<NodeId, ArenaError>
        requires tag_is { tag ≡ tag_of name }
        requires no_template { is_template tag ≡ false }
        ensures id { IfOk result (λ id. id ≡ length self.old.labels) }
        ensures within { OnOk result (budget self.old 1 (capped (weight (plain_element name tag attrs origin))) ≡ Ok tt) }
        ensures made { OnOk result (self.new ≡ added self.old (plain_element name tag attrs origin) (capped (weight (plain_element name tag attrs origin)))) }
        ensures refused { OnErr result (self.new ≡ self.old) }
        ensures cause { IfErr result (λ e. RefusedBy (budget self.old 1 (capped (weight (plain_element name tag attrs origin)))) e) }
    {
        let held = element_held(&name, attrs.as_slice());
        self.room_for(1, held)?;
        let element = NodeData::Element(ElementData {
            name,
            tag,
            attrs,
            origin,
            is_clone: false,
            contents: None,
        });
        self.place(element, held)
    }

    /// Makes a template and its contents.
    #[inline(never)]
    fn make_template(
        &mut self,
        name: Str,
        tag: Tag,
        attrs: Attrs,
        origin: Origin,
    ) -> Result<NodeId, ArenaError>
        requires tag_is { tag ≡ tag_of name }
        requires template { is_template tag ≡ true }
        ensures id { IfOk result (λ id. id ≡ length self.old.labels) }
        ensures within { OnOk result (budget self.old 2 (capped (weight (template_element (length self.old.labels) name tag attrs origin))) ≡ Ok tt) }
        ensures made { OnOk result (self.new ≡ added_template self.old (template_element (length self.old.labels) name tag attrs origin) (capped (weight (template_element (length self.old.labels) name tag attrs origin)))) }
        ensures refused { OnErr result (self.new ≡ self.old) }
        ensures cause { IfErr result (λ e. RefusedBy (budget self.old 2 (capped (weight (template_element (length self.old.labels) name tag attrs origin)))) e) }
    {
        let held = element_held(&name, attrs.as_slice());
        self.room_for(2, held)?;
        reserve(&mut self.links, &mut self.nodes, &mut self.marks, 2)?;
        let template = NodeId::at(self.nodes.len());
        let contents = NodeId::at(self.nodes.len() + 1);
        let element = NodeData::Element(ElementData {
            name,
            tag,
            attrs,
            origin,
            is_clone: false,
            contents: Some(contents),
        });
        push_node(&mut self.links, &mut self.nodes, &mut self.marks, element);
        push_node(
            &mut self.links,
            &mut self.nodes,
            &mut self.marks,
            NodeData::Contents { host: template },
        );
        self.held = self.held.saturating_add(held);
        self.steps = self.steps.saturating_add(1);
        Ok(template)
    }

    /// Makes a clone of an element.
    fn make_clone(&mut self, node: NodeId) -> Result<NodeId, ArenaError>
        requires node_in { node < length self.old.labels }
        requires formatting { is_formatting (tag_at self.old node) ≡ true }
        ensures id { IfOk result (λ id. id ≡ length self.old.labels) }
        ensures within { OnOk result (budget self.old 1 (capped (weight (cloned (label_of self.old node)))) ≡ Ok tt) }
        ensures made { OnOk result (self.new ≡ added self.old (cloned (label_of self.old node)) (capped (weight (cloned (label_of self.old node))))) }
        ensures refused { OnErr result (self.new ≡ self.old) }
        ensures cause { IfErr result (λ e. RefusedBy (budget self.old 1 (capped (weight (cloned (label_of self.old node))))) e) }
    {
        let original = label_at(&self.nodes, node);
        let held = held_of(original);
        self.room_for(1, held)?;
        let copy = clone_of(original)?;
        self.place(copy, held)
    }

    /// Adds a node that stands alone, within the budget.
    pub(super) fn add(&mut self, node: NodeData) -> Result<NodeId, ArenaError>
        requires lone { IsLone node }
        ensures id { IfOk result (λ id. id ≡ length self.old.labels) }
        ensures within { OnOk result (budget self.old 1 (capped (weight node)) ≡ Ok tt) }
        ensures made { OnOk result (self.new ≡ added self.old node (capped (weight node))) }
        ensures refused { OnErr result (self.new ≡ self.old) }
        ensures cause { IfErr result (λ e. RefusedBy (budget self.old 1 (capped (weight node))) e) }
    {
        let held = held_of(&node);
        self.room_for(1, held)?;
        self.place(node, held)
    }

    /// Adds a node that stands alone and holds so many code points, for which the limits have room.
    #[inline(always)]
    fn place(&mut self, node: NodeData, held: u128) -> Result<NodeId, ArenaError>
        requires lone { IsLone node }
        requires held { held ≡ capped (weight node) }
        requires room { budget self.old 1 (capped (weight node)) ≡ Ok tt }
        ensures id { IfOk result (λ id. id ≡ length self.old.labels) }
        ensures made { OnOk result (self.new ≡ added self.old node (capped (weight node))) }
        ensures refused { OnErr result (self.new ≡ self.old) }
        ensures cause { IfErr result (λ e. e ≡ ArenaError.OutOfMemory) }
    {
        if reserve(&mut self.links, &mut self.nodes, &mut self.marks, 1).is_err() {
            let_go(node);
            return Err(ArenaError::OutOfMemory);
        }
        let id = NodeId::at(self.nodes.len());
        push_node(&mut self.links, &mut self.nodes, &mut self.marks, node);
        self.held = self.held.saturating_add(held);
        self.steps = self.steps.saturating_add(1);
        Ok(id)
    }
}
