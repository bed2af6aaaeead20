// Walks through the nodes below a node, by their links.
ghost use Rattle.std.specs.Prelude.{◌≡◌, ℕ, ◌<◌, All, IfSome, length, true};
ghost use Rattle.html_arena.specs.Below.{IsForestAt, above, below, hides, kids, or_self};
ghost use Rattle.html_arena.specs.Data.{contents_in};
ghost use Rattle.html_arena.specs.Forest.{Forest, labels};
ghost use Rattle.html_arena.specs.Siblings.{Distinct, has};
ghost use Rattle.html_arena.specs.Steps.{events, is_end, node_in, step};
ghost use Rattle.html_arena.specs.Tree.{label_of};
ghost use Rattle.html_arena.specs.Walking.{IsPlaced, IsRoot};

use crate::arena::Arena;
use crate::links::NodeId;
use std::marker::Model;

/// Whether nodes below a void element are shown.
#[derive(Clone, Copy, Debug, PartialEq, Eq)]
pub enum Show {
    All,
    /// Only what is written: nothing below a void element.
    Written,
}

/// A node is entered before those below it, and left after them.
#[derive(Clone, Copy, Debug, PartialEq, Eq)]
pub enum Event {
    Enter(NodeId),
    Leave(NodeId),
}

impl Arena {
    /// The node that `node` stands just below: its parent, or that Contents node's template.
    pub fn above(&self, node: NodeId) -> Option<NodeId>
        requires { node < length self.now.labels }
        ensures value { result ≡ above self.now node }
        ensures node { IfSome result (λ x. x < length self.now.labels) }
    {
        let parent = self.parent(node)?;
        match self.host(parent) {
            Some(template) => Some(template),
            None => Some(parent),
        }
    }

    /// The node whose children stand below `node`: itself, or a template's contents.
    fn inner(&self, node: NodeId) -> NodeId
        requires { node < length self.now.labels }
        ensures value { result ≡ or_self node (contents_in (label_of self.now node)) }
        ensures node { result < length self.now.labels }
    {
        match self.contents(node) {
            Some(contents) => contents,
            None => node,
        }
    }

    /// Whether nothing below `node` is shown.
    fn is_closed(&self, show: Show, node: NodeId) -> bool
        requires { node < length self.now.labels }
        ensures { result ≡ hides show (label_of self.now node) }
    {
        match show {
            Show::All => false,
            Show::Written => self.tag(node).is_void(),
        }
    }

    /// The event after another.
    fn step_from(&self, show: Show, event: Event) -> Event
        requires { node_in event < length self.now.labels }
        ensures { result ≡ step show self.now event }
    {
        match event {
            Event::Enter(node) => {
                if self.is_closed(show, node) {
                    return Event::Leave(node);
                }
                match self.first_child(self.inner(node)) {
                    Some(child) => Event::Enter(child),
                    None => Event::Leave(node),
                }
            }
            Event::Leave(node) => match self.next(node) {
                Some(next) => Event::Enter(next),
                None => Event::Leave(self.above(node).unwrap_or(node)),
            },
        }
    }
}

/// Whether `root` is left.
fn is_leave_of(event: Event, root: NodeId) -> bool
    ensures { result ≡ is_end root event }
{
    match event {
        Event::Enter(_) => false,
        Event::Leave(node) => node == root,
    }
}

/// A walk through the nodes below a root in tree order, seen as the list of the events still to come.
///
/// It takes no memory, and calls nothing that calls itself. A template's contents are walked in place of its children.
#[derive(Drop)]
pub struct Walk<'a> {
    arena: &'a Arena,
    show: Show,
    root: NodeId,
    at: Event,
}

impl<'a> Model for Walk<'a> {
    ghost use Rattle.std.specs.Prelude.{List};
    ghost use Rattle.html_arena.specs.declared.walk.Event.{Event};

    ghost Value = { List Event };

    ghost use Rattle.html_arena.specs.Steps.{rest};
    ghost use Rattle.html_arena.specs.Walking.{IsUnderWay};

    ghost view = { λ w. rest w.show w.arena.now w.root w.at };

    ghost invariant = { λ w. IsUnderWay w.arena.now w.show w.root w.at };
}

impl<'a> Walk<'a> {
    /// A walk through all that stands below `root`, which nothing is above.
    pub fn new(arena: &'a Arena, show: Show, root: NodeId) -> Walk<'a>
        requires { IsRoot arena.now root }
        ensures events { result ≡ events (below show arena.now root) }
        ensures forest { IsForestAt show arena.now (kids show arena.now root) (below show arena.now root) }
        ensures only { (f : Forest ℕ) → IsForestAt show arena.now (kids show arena.now root) f → f ≡ below show arena.now root }
        ensures nodes { All (λ e. node_in e < length arena.now.labels) result }
        ensures once { Distinct (labels (below show arena.now root)) }
        ensures inside { (x : ℕ) → has x (labels (below show arena.now root)) ≡ true → x < length arena.now.labels }
    {
        Walk::at(arena, show, root)
    }

    /// A walk through all that stands below `node`, which may stand anywhere in a tree.
    pub fn at(arena: &'a Arena, show: Show, node: NodeId) -> Walk<'a>
        requires { IsPlaced arena.now node }
        ensures events { result ≡ events (below show arena.now node) }
        ensures forest { IsForestAt show arena.now (kids show arena.now node) (below show arena.now node) }
        ensures only { (f : Forest ℕ) → IsForestAt show arena.now (kids show arena.now node) f → f ≡ below show arena.now node }
        ensures nodes { All (λ e. node_in e < length arena.now.labels) result }
        ensures once { Distinct (labels (below show arena.now node)) }
        ensures inside { (x : ℕ) → has x (labels (below show arena.now node)) ≡ true → x < length arena.now.labels }
    {
        arena.forest();
        Walk {
            arena,
            show,
            root: node,
            at: arena.step_from(show, Event::Enter(node)),
        }
    }
}

impl<'a> Iterator for Walk<'a> {
    type Item = Event;

    ghost use Rattle.std.specs.Iterator.{YieldsFirst, item_count};

    ghost next_gives = { YieldsFirst (λ w. w) };

    ghost remaining = { item_count (λ w. w) };

    fn next(&mut self) -> Option<Event> {
        if is_leave_of(self.at, self.root) {
            return None;
        }
        let event = self.at;
        let following = self.arena.step_from(self.show, self.at);
        self.at = following;
        Some(event)
    }
}
