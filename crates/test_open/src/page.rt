// A page under way: a tree, a stack and a list that fit together.
ghost use Rattle.std.specs.Prelude.{◌≡◌, ℕ, ◌<◌, [], None, Some, true, false, length};
ghost use Rattle.html_arena.specs.declared.marks.Mark.TheVariants.{InList};
ghost use Rattle.html_arena.specs.Data.{IsElement};
ghost use Rattle.html_arena.specs.Siblings.{first_of};
ghost use Rattle.html_arena.specs.Tree.{children_of, label_of, marked};
ghost use Rattle.html_open.specs.Opened.{AreNodes};
ghost use Rattle.html_open.specs.Placing.{CanPlace};

use crate::refusal::Refusal;
use html_arena::{Arena, Limits, Mark, NewNode, NodeData, NodeId, Origin};
use html_names::Tag;
use html_open::{AdoptEnd, ArenaError, FormattingList, OpenStack, Place, Scope, adopt, place};
use html_text::Str;
use html_tokens::Attrs;
use std::alloc::Global;
use std::marker::Model;

/// A page under way. Each element comes from a token of its own, and may be opened and listed until the next is made.
#[derive(Drop)]
pub(crate) struct Page {
    arena: Arena,
    stack: OpenStack,
    list: FormattingList,
    /// The number of the next token.
    tokens: u64,
    /// The element of the latest token, if no clone comes from it.
    newest: Option<NodeId>,
}

impl Model for Page {
    ghost use Rattle.html_open.specs.Opened.{Open, open_at};
    ghost use Rattle.test_open.specs.Pages.{IsPage};

    ghost Value = { Open };

    ghost view = { λ p. open_at p.stack p.list p.arena };

    ghost invariant = { λ p. IsPage p.stack p.list p.arena p.tokens p.newest };
}

impl Page {
    /// A page without nodes.
    pub(crate) fn new(alloc: Global) -> Page {
        Page {
            arena: Arena::new(alloc),
            stack: OpenStack::new(alloc),
            list: FormattingList::new(alloc),
            tokens: 0,
            newest: None,
        }
    }

    /// A page without nodes, within limits.
    pub(crate) fn within(alloc: Global, limits: Limits) -> Page {
        Page {
            arena: Arena::within(alloc, limits),
            stack: OpenStack::new(alloc),
            list: FormattingList::new(alloc),
            tokens: 0,
            newest: None,
        }
    }

    /// The tree.
    pub(crate) fn arena(&self) -> &Arena {
        &self.arena
    }

    /// The parent of a node.
    pub(crate) fn parent(&self, node: NodeId) -> Result<Option<NodeId>, Refusal> {
        if !is_node(&self.arena, node) {
            return Err(Refusal::Condition);
        }
        Ok(self.arena.parent(node))
    }

    /// The number of open elements.
    pub(crate) fn depth(&self) -> usize {
        self.stack.len()
    }

    /// Makes an element, which stands alone.
    pub(crate) fn make(&mut self, name: Str, attrs: Attrs) -> Result<NodeId, Refusal> {
        if self.tokens == u64::MAX {
            return Err(Refusal::Condition);
        }
        self.arena.forest();
        let origin = Origin::Token(self.tokens);
        let node = self.arena.make(NewNode::Element {
            name,
            attrs,
            origin,
        })?;
        self.newest = Some(node);
        self.tokens += 1;
        Ok(node)
    }

    /// Makes an element that stands alone and has no children and is not open the last child of a node.
    pub(crate) fn link(&mut self, parent: NodeId, child: NodeId) -> Result<(), Refusal> {
        if !is_node(&self.arena, parent) || !is_childless(&self.arena, child) || child == parent {
            return Err(Refusal::Condition);
        }
        if self.arena.parent(child).is_some() || self.arena.marked(child, Mark::OnStack) {
            return Err(Refusal::Condition);
        }
        self.arena.forest();
        self.arena.append(parent, child);
        Ok(())
    }

    /// Opens the newest element, which has no children.
    pub(crate) fn push(&mut self, node: NodeId) -> Result<(), Refusal> {
        if !is_childless(&self.arena, node) || !is_newest(self.newest, node) {
            return Err(Refusal::Condition);
        }
        if self.arena.marked(node, Mark::OnStack) {
            return Err(Refusal::Condition);
        }
        self.arena.forest();
        self.stack.push(&mut self.arena, node)?;
        Ok(())
    }

    /// Lists the newest element, which is a formatting element.
    pub(crate) fn enter(&mut self, node: NodeId) -> Result<(), Refusal> {
        if !is_node(&self.arena, node) || !is_newest(self.newest, node) {
            return Err(Refusal::Condition);
        }
        if self.arena.marked(node, Mark::InList) || !self.arena.tag(node).is_formatting() {
            return Err(Refusal::Condition);
        }
        self.list.push(&mut self.arena, node)?;
        Ok(())
    }

    /// Adds a marker to the list.
    pub(crate) fn marker(&mut self) -> Result<(), Refusal> {
        self.list.marker(&mut self.arena)?;
        Ok(())
    }

    /// Closes the current node.
    pub(crate) fn pop(&mut self) -> Option<NodeId> {
        self.stack.pop(&mut self.arena)
    }

    /// Closes an element, wherever it stands.
    pub(crate) fn remove(&mut self, node: NodeId) -> Result<(), Refusal> {
        if !is_node(&self.arena, node) {
            return Err(Refusal::Condition);
        }
        self.stack.remove(&mut self.arena, node);
        Ok(())
    }

    /// The current node.
    pub(crate) fn current(&mut self) -> Option<NodeId> {
        self.stack.current(&mut self.arena)
    }

    /// The open element at an index.
    pub(crate) fn at(&mut self, index: usize) -> Result<NodeId, Refusal> {
        if index >= self.stack.len() {
            return Err(Refusal::Condition);
        }
        Ok(self.stack.at(&mut self.arena, index))
    }

    /// The index of an open element.
    pub(crate) fn index_of(&mut self, node: NodeId) -> Option<usize> {
        self.stack.index_of(&mut self.arena, node)
    }

    /// Whether an element is open.
    pub(crate) fn is_open(&mut self, node: NodeId) -> Result<bool, Refusal> {
        if !is_node(&self.arena, node) {
            return Err(Refusal::Condition);
        }
        Ok(self.stack.contains(&mut self.arena, node))
    }

    /// Whether an element of this name is in a scope.
    pub(crate) fn has_in_scope(&mut self, name: Tag, scope: Scope) -> bool {
        self.stack.has_in_scope(&mut self.arena, name, scope)
    }

    /// Closes the elements whose end tags are implied, but for one name.
    pub(crate) fn implied(&mut self, except: Option<Tag>) {
        self.stack.implied(&mut self.arena, except);
    }

    /// Takes entries off the list up to the last marker.
    pub(crate) fn clear_to_marker(&mut self) {
        self.list.clear_to_marker(&mut self.arena);
    }

    /// The last listed element of this name after the last marker.
    pub(crate) fn last_named(&mut self, name: Tag) -> Option<NodeId> {
        self.list.last_named(&mut self.arena, name)
    }

    /// Takes an element out of the list.
    pub(crate) fn forget(&mut self, node: NodeId) -> Result<(), Refusal> {
        if !is_node(&self.arena, node) {
            return Err(Refusal::Condition);
        }
        self.list.remove(&mut self.arena, node);
        Ok(())
    }

    /// Whether an element is in the list.
    pub(crate) fn is_listed(&mut self, node: NodeId) -> Result<bool, Refusal> {
        if !is_node(&self.arena, node) {
            return Err(Refusal::Condition);
        }
        Ok(self.list.contains(&mut self.arena, node))
    }

    /// The place for a node. One step more than its own, for a look at the first element.
    pub(crate) fn place(&mut self, target: Option<NodeId>, foster: bool) -> Result<Place, Refusal> {
        if let Some(target) = target {
            if !is_node(&self.arena, target) {
                return Err(Refusal::Condition);
            }
        }
        if !can_place(&self.stack, &mut self.arena) {
            return Err(Refusal::Condition);
        }
        Ok(place(&self.stack, &mut self.arena, target, foster))
    }

    /// Opens anew the listed elements that are not open. One step more than its own, for a look at the first element. After a
    /// refusal there is no page.
    pub(crate) fn reopen(mut self, foster: bool) -> Result<Page, Refusal> {
        if !can_place(&self.stack, &mut self.arena) {
            return Err(Refusal::Condition);
        }
        let mut arena = self.arena;
        let mut stack = self.stack;
        let mut list = self.list;
        list.reopen(&mut stack, &mut arena, foster)?;
        Ok(Page {
            arena,
            stack,
            list,
            tokens: self.tokens,
            newest: None,
        })
    }

    /// Follows an end tag of a formatting name. Two steps more than its own, for looks at the first element. After a refusal there is
    /// no page.
    pub(crate) fn adopt(mut self, name: Tag, foster: bool) -> Result<(Page, AdoptEnd), Refusal> {
        if !can_place(&self.stack, &mut self.arena) {
            return Err(Refusal::Condition);
        }
        if !is_first_free(&self.stack, &mut self.arena) {
            return Err(Refusal::Condition);
        }
        let mut arena = self.arena;
        let mut stack = self.stack;
        let mut list = self.list;
        let end = adopt(&mut stack, &mut list, &mut arena, name, foster)?;
        let page = Page {
            arena,
            stack,
            list,
            tokens: self.tokens,
            newest: None,
        };
        Ok((page, end))
    }

    /// Follows an end tag of a formatting name, and gives the tree that is left with what was answered, after a refusal too.
    pub(crate) fn adopt_last(
        mut self,
        name: Tag,
        foster: bool,
    ) -> Result<(Arena, Result<AdoptEnd, ArenaError>), Refusal> {
        if !can_place(&self.stack, &mut self.arena) {
            return Err(Refusal::Condition);
        }
        if !is_first_free(&self.stack, &mut self.arena) {
            return Err(Refusal::Condition);
        }
        let mut arena = self.arena;
        let mut stack = self.stack;
        let mut list = self.list;
        let end = adopt(&mut stack, &mut list, &mut arena, name, foster);
        Ok((arena, end))
    }
}

pub(crate) fn is_node(arena: &Arena, node: NodeId) -> bool
    ensures { result ≡ true → node < length arena.now.labels }
{
    (node.index() as u64) < arena.len()
}

/// Whether a node is an element without children.
fn is_childless(arena: &Arena, node: NodeId) -> bool
    ensures within { result ≡ true → node < length arena.now.labels }
    ensures element { result ≡ true → IsElement (label_of arena.now node) }
    ensures childless { result ≡ true → children_of arena.now node ≡ [] }
{
    if !is_node(arena, node) || arena.first_child(node).is_some() {
        return false;
    }
    match arena.node(node) {
        NodeData::Element(_) => true,
        _ => false,
    }
}

/// Whether a node is the newest.
fn is_newest(newest: Option<NodeId>, node: NodeId) -> bool
    ensures { result ≡ true → newest ≡ Some node }
{
    match newest {
        Some(newest) => newest == node,
        None => false,
    }
}

/// Whether the first element is there and no table. One step if it is there.
fn can_place(stack: &OpenStack, arena: &mut Arena) -> bool
    requires { AreNodes arena.old stack.now }
    ensures can { result ≡ true → CanPlace arena.new stack.now }
    ensures steps { arena.new ≡ record arena.old { steps = arena.new.steps } }
{
    if stack.is_empty() {
        return false;
    }
    let first = stack.at(arena, 0);
    !arena.is_named(first, Tag::Table)
}

/// Whether the first element is not listed, or there is none. One step if it is there.
fn is_first_free(stack: &OpenStack, arena: &mut Arena) -> bool
    requires { AreNodes arena.old stack.now }
    ensures free { result ≡ true → (x : ℕ) → first_of stack.now ≡ Some x → marked arena.new InList x ≡ false }
    ensures steps { arena.new ≡ record arena.old { steps = arena.new.steps } }
{
    if stack.is_empty() {
        return true;
    }
    let first = stack.at(arena, 0);
    !arena.marked(first, Mark::InList)
}
