// The nodes around a node, as iterators.
ghost use Rattle.std.specs.Prelude.{◌≡◌, filter, option_map};
ghost use Rattle.std.specs.Str.{chars};
ghost use Rattle.html_arena.specs.Tree.{label_of};
ghost use Rattle.html_dom.specs.Reads.{Yields, YieldsText, entered, is_named, text_of, texts_among};

use crate::names::is_same_text;
use crate::reads::{get, name, next_sibling, parent};
use html_arena::{Arena, Event, NodeData, NodeId, Walk};
use std::marker::Model;

/// The nodes just below a node, seen as the list of those still to come.
#[derive(Drop)]
pub struct Children<'a> {
    pub(crate) arena: &'a Arena,
    pub(crate) at: Option<NodeId>,
    pub(crate) left: u64,
}

impl<'a> Model for Children<'a> {
    ghost use Rattle.std.specs.Prelude.{List, ℕ};
    ghost use Rattle.html_dom.specs.Reads.{siblings_within};

    ghost Value = { List ℕ };

    ghost view = { λ c. siblings_within c.left c.arena.now c.at };
}

impl<'a> Iterator for Children<'a> {
    type Item = NodeId;

    ghost use Rattle.std.specs.Iterator.{YieldsFirst, item_count};

    ghost next_gives = { YieldsFirst (λ c. c) };

    ghost remaining = { item_count (λ c. c) };

    fn next(&mut self) -> Option<NodeId> {
        if self.left == 0 {
            return None;
        }
        let node = self.at?;
        let following = next_sibling(self.arena, node);
        self.at = following;
        self.left -= 1;
        Some(node)
    }
}

/// The nodes above a node, the nearest first, seen as the list of those still to come.
#[derive(Drop)]
pub struct Ancestors<'a> {
    pub(crate) arena: &'a Arena,
    pub(crate) at: Option<NodeId>,
    pub(crate) left: u64,
}

impl<'a> Model for Ancestors<'a> {
    ghost use Rattle.std.specs.Prelude.{List, ℕ};
    ghost use Rattle.html_dom.specs.Reads.{ancestors_within};

    ghost Value = { List ℕ };

    ghost view = { λ c. ancestors_within c.left c.arena.now c.at };
}

impl<'a> Iterator for Ancestors<'a> {
    type Item = NodeId;

    ghost use Rattle.std.specs.Iterator.{YieldsFirst, item_count};

    ghost next_gives = { YieldsFirst (λ c. c) };

    ghost remaining = { item_count (λ c. c) };

    fn next(&mut self) -> Option<NodeId> {
        if self.left == 0 {
            return None;
        }
        let node = self.at?;
        let above = parent(self.arena, node);
        self.at = above;
        self.left -= 1;
        Some(node)
    }
}

/// The nodes below a node in tree order, seen as the list of those still to come. It takes no memory.
#[derive(Drop)]
pub struct Descendants<'a> {
    pub(crate) walk: Option<Walk<'a>>,
}

impl<'a> Model for Descendants<'a> {
    ghost use Rattle.std.specs.Prelude.{List, ℕ};
    ghost use Rattle.html_dom.specs.Reads.{entered_in};

    ghost Value = { List ℕ };

    ghost view = { λ d. entered_in d.walk };
}

/// The next node that a walk enters.
fn next_entered(walk: &mut Walk<'_>) -> Option<NodeId>
    ensures { Yields result (entered walk.old) (entered walk.new) }
{
    'events: while let Some(event) = walk.next() {
        if let Event::Enter(node) = event {
            return Some(node);
        }
    }
    None
}

impl<'a> Iterator for Descendants<'a> {
    type Item = NodeId;

    ghost use Rattle.std.specs.Iterator.{YieldsFirst, item_count};

    ghost next_gives = { YieldsFirst (λ c. c) };

    ghost remaining = { item_count (λ c. c) };

    fn next(&mut self) -> Option<NodeId> {
        match &mut self.walk {
            Some(walk) => next_entered(walk),
            None => None,
        }
    }
}

/// The elements of a name below a node in tree order, seen as the list of those still to come.
#[derive(Drop)]
pub struct ElementsNamed<'a> {
    pub(crate) arena: &'a Arena,
    pub(crate) name: &'a str,
    pub(crate) nodes: Descendants<'a>,
}

impl<'a> Model for ElementsNamed<'a> {
    ghost use Rattle.std.specs.Prelude.{List, ℕ, filter};
    ghost use Rattle.std.specs.Str.{chars};
    ghost use Rattle.html_dom.specs.Reads.{is_named};

    ghost Value = { List ℕ };

    ghost view = { λ e. filter (is_named (chars e.name.now) e.arena.now) e.nodes };
}

/// Whether a node is an element of this name.
fn is_named(arena: &Arena, node: NodeId, wanted: &str) -> bool
    ensures { result ≡ is_named (chars wanted.now) arena.now node }
{
    match name(arena, node) {
        Some(name) => is_same_text(name, wanted),
        None => false,
    }
}

/// The next node that is an element of this name.
fn next_named(arena: &Arena, nodes: &mut Descendants<'_>, name: &str) -> Option<NodeId>
    ensures { Yields result (filter (is_named (chars name.now) arena.now) nodes.old) (filter (is_named (chars name.now) arena.now) nodes.new) }
{
    'nodes: while let Some(node) = nodes.next() {
        if is_named(arena, node, name) {
            return Some(node);
        }
    }
    None
}

impl<'a> Iterator for ElementsNamed<'a> {
    type Item = NodeId;

    ghost use Rattle.std.specs.Iterator.{YieldsFirst, item_count};

    ghost next_gives = { YieldsFirst (λ c. c) };

    ghost remaining = { item_count (λ c. c) };

    fn next(&mut self) -> Option<NodeId> {
        next_named(self.arena, &mut self.nodes, self.name)
    }
}

/// The texts below a node in tree order, seen as the list of those still to come, each in UTF-8.
#[derive(Drop)]
pub struct Texts<'a> {
    pub(crate) arena: &'a Arena,
    pub(crate) nodes: Descendants<'a>,
}

impl<'a> Model for Texts<'a> {
    ghost use Rattle.std.specs.Prelude.{List, ℕ};
    ghost use Rattle.html_dom.specs.Reads.{texts_among};

    ghost Value = { List (List ℕ) };

    ghost view = { λ t. texts_among t.arena.now t.nodes };
}

/// The text of a node, where it is a text.
fn text_at(arena: &Arena, node: NodeId) -> Option<&str>
    ensures { option_map (λ text. text.now) result ≡ text_of (label_of arena.now node) }
{
    match get(arena, node) {
        Some(NodeData::Text { text }) => Some(text.as_str()),
        _ => None,
    }
}

/// The text of the next node that is a text.
fn next_text<'a>(arena: &'a Arena, nodes: &mut Descendants<'a>) -> Option<&'a str>
    ensures { YieldsText (option_map (λ text. text.now) result) (texts_among arena.now nodes.old) (texts_among arena.now nodes.new) }
{
    'nodes: while let Some(node) = nodes.next() {
        if let Some(text) = text_at(arena, node) {
            return Some(text);
        }
    }
    None
}

impl<'a> Iterator for Texts<'a> {
    type Item = &'a str;

    ghost use Rattle.std.specs.Prelude.{option_map};
    ghost use Rattle.std.specs.Iterator.{item_count};
    ghost use Rattle.html_dom.specs.Reads.{YieldsText};

    ghost next_gives = { λ a r b. YieldsText (option_map (λ text. text.now) r) a b };

    ghost remaining = { item_count (λ t. t) };

    fn next(&mut self) -> Option<&'a str> {
        next_text(self.arena, &mut self.nodes)
    }
}
