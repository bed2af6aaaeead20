//! Trees to be walked and written, and a text of 16 MB.

ghost use Rattle.std.specs.Prelude.{◌≡◌, ◌<◌, ◌≤◌, IfOk, length, true};
ghost use Rattle.html_arena.specs.Data.{IsText};
ghost use Rattle.html_arena.specs.Make.{CanMake, label_for, makes_child};
ghost use Rattle.html_arena.specs.Tree.{label_of};
ghost use Rattle.html_arena.specs.Walking.{IsRoot};

use html_arena::{Arena, ArenaError, NewNode, NodeId, Origin};
use html_text::Str;
use html_tokens::Attrs;
use std::alloc::Global;

/// Elements, nested up to a depth, each with a text first: some copies of a character.
#[derive(Clone, Copy)]
pub(crate) struct Shape {
    pub name: &'static str,
    pub elements: u64,
    pub depth: u64,
    pub character: char,
    pub copies: u64,
}

/// Makes a node, and links it last under `parent`.
fn add(arena: &mut Arena, parent: NodeId, new: NewNode) -> Result<NodeId, ArenaError>
    requires parent_in { parent < length arena.old.labels }
    requires can_make { CanMake arena.old new }
    requires child { makes_child new ≡ true }
    ensures node { IfOk result (λ id. id < length arena.new.labels) }
    ensures label { IfOk result (λ id. label_of arena.new id ≡ label_for arena.old new) }
    ensures longer { length arena.old.labels ≤ length arena.new.labels }
{
    let node = arena.make(new)?;
    arena.append(parent, node);
    Ok(node)
}

/// Adds a text last under `parent`.
fn add_text(
    arena: &mut Arena,
    parent: NodeId,
    character: char,
    copies: u64,
) -> Result<(), ArenaError>
    requires { parent < length arena.old.labels }
    ensures { length arena.old.labels ≤ length arena.new.labels }
{
    let node = add(arena, parent, NewNode::Text)?;
    'copies: for _ in 0..copies {
        arena.append_text(node, character)?;
    }
    Ok(())
}

/// Adds the elements of a shape below a root.
pub(crate) fn build(
    alloc: Global,
    arena: &mut Arena,
    root: NodeId,
    shape: Shape,
) -> Result<(), ArenaError>
    requires { root < length arena.old.labels }
    ensures { length arena.old.labels ≤ length arena.new.labels }
{
    let mut at = root;
    let mut above = 0;
    'elements: for i in 0..shape.elements {
        let new = NewNode::Element {
            name: Str::of(alloc, "div")?,
            attrs: Attrs::new(alloc),
            origin: Origin::Token(i),
        };
        let element = add(arena, at, new)?;
        add_text(arena, element, shape.character, shape.copies)?;
        above += 1;
        at = element;
        if above >= shape.depth {
            above = 0;
            at = root;
        }
    }
    Ok(())
}

/// Whether nothing is above a node.
pub(crate) fn is_root(arena: &Arena, node: NodeId) -> bool
    ensures { result ≡ true → IsRoot arena.now node }
{
    if (node.index() as u64) >= arena.len() {
        return false;
    }
    if arena.parent(node).is_some() {
        return false;
    }
    arena.host(node).is_none()
}

/// How many code points a run has.
const RUN: usize = 4_096;
/// How many runs there are in 16 MB of ASCII.
const RUNS: u64 = 4_096;

/// How a text is added.
#[derive(Clone, Copy)]
pub(crate) enum Way {
    /// In runs of 4,096 code points.
    InRuns,
    /// One code point after another.
    OneByOne,
}

/// A text of 16 MB.
pub(crate) fn long_text(alloc: Global, way: Way) -> Result<Arena, ArenaError> {
    let mut arena = Arena::new(alloc);
    add_long_text(&mut arena, way)?;
    Ok(arena)
}

fn add_long_text(arena: &mut Arena, way: Way) -> Result<(), ArenaError> {
    let node = arena.make(NewNode::Text)?;
    match way {
        Way::InRuns => in_runs(arena, node),
        Way::OneByOne => one_by_one(arena, node),
    }
}

fn in_runs(arena: &mut Arena, node: NodeId) -> Result<(), ArenaError>
    requires node_in { node < length arena.old.labels }
    requires is_text { IsText (label_of arena.old node) }
{
    let run = ['a'; RUN];
    for _ in 0..RUNS {
        arena.append_run(node, &run)?;
    }
    Ok(())
}

fn one_by_one(arena: &mut Arena, node: NodeId) -> Result<(), ArenaError>
    requires node_in { node < length arena.old.labels }
    requires is_text { IsText (label_of arena.old node) }
{
    for _ in 0..RUNS * RUN as u64 {
        arena.append_text(node, 'a')?;
    }
    Ok(())
}
