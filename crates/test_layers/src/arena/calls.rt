//! The calls that words name, on nodes by their numbers.
ghost use Rattle.std.specs.Prelude.{◌≡◌, ◌<◌, length, true};
ghost use Rattle.html_arena.specs.Data.{IsElement, IsText};
ghost use Rattle.html_arena.specs.Tree.{label_of};

use super::refusal::Refusal;
use super::word::Word;
use crate::words::{attributes_between, attributes_of};
use html_arena::{Arena, NewNode, NodeData, NodeId, Origin};
use html_text::Str;
use html_tokens::{Attrs, OptionalStr};
use std::alloc::Global;

/// Makes the call that a word names, and writes its answer, where it has one.
pub(crate) fn make_call(
    arena: &mut Arena,
    alloc: Global,
    word: Word<'_>,
    out: &mut String,
) -> Result<(), Refusal> {
    match word.name {
        "document" | "text" | "comment" | "doctype" | "element" | "named" => {
            make(arena, alloc, word)
        }
        "foreign" => make_foreign(arena, alloc, word),
        "append" | "before" | "move" => call_on_two(arena, word),
        "run" => push_run(arena, alloc, word, out),
        "mark" => mark(arena, word),
        "charge" => {
            arena.charge(u128::MAX - 1);
            Ok(())
        }
        "clone" | "char" | "detach" | "merge" => call_on_one(arena, alloc, word),
        _ => Err(Refusal::NoCall),
    }
}

/// Makes a call on two nodes.
fn call_on_two(arena: &mut Arena, word: Word<'_>) -> Result<(), Refusal> {
    let node = word.node()?;
    let other = word.other()?;
    match word.name {
        "append" => append(arena, node, other),
        "before" => put_before(arena, node, other),
        _ => shift(arena, node, other),
    }
}

/// Makes a call on one node.
fn call_on_one(arena: &mut Arena, alloc: Global, word: Word<'_>) -> Result<(), Refusal> {
    let node = word.node()?;
    match word.name {
        "clone" => make_clone(arena, node),
        "char" => push(arena, node, word.second),
        "detach" => detach(arena, node),
        _ => merge(arena, alloc, node),
    }
}

/// Makes a node; an element `named` has the attribute `id="one"`.
fn make(arena: &mut Arena, alloc: Global, word: Word<'_>) -> Result<(), Refusal> {
    match word.name {
        "document" => {
            arena.make(NewNode::Document)?;
        }
        "text" => {
            arena.make(NewNode::Text)?;
        }
        "comment" => {
            let text = Str::of(alloc, word.first)?;
            arena.make(NewNode::Comment { text, token: 3 })?;
        }
        "doctype" => make_doctype(arena, alloc, word.first)?,
        "named" => make_element(arena, alloc, word.first, "id=one")?,
        _ => make_element(arena, alloc, word.first, "")?,
    }
    Ok(())
}

fn make_doctype(arena: &mut Arena, alloc: Global, name: &str) -> Result<(), Refusal> {
    let name = OptionalStr::some(alloc, Str::of(alloc, name)?)?;
    arena.make(NewNode::Doctype {
        name,
        public: OptionalStr::none(),
        system: OptionalStr::none(),
        token: 4,
    })?;
    Ok(())
}

fn make_element(
    arena: &mut Arena,
    alloc: Global,
    name: &str,
    attributes: &str,
) -> Result<(), Refusal> {
    let attrs = attributes_of(alloc, attributes)?;
    make_with(arena, alloc, name, attrs)
}

/// Makes an element of foreign content: in its name and its attributes, with `&` between them, `_` is a space.
fn make_foreign(arena: &mut Arena, alloc: Global, word: Word<'_>) -> Result<(), Refusal> {
    let name = word.first.replace(alloc, "_", " ")?;
    let attributes = word.second.replace(alloc, "_", " ")?;
    let attrs = attributes_between(alloc, attributes.as_str())?;
    make_with(arena, alloc, name.as_str(), attrs)
}

fn make_with(arena: &mut Arena, alloc: Global, name: &str, attrs: Attrs) -> Result<(), Refusal> {
    let name = Str::of(alloc, name)?;
    let origin = Origin::Token(7);
    arena.make(NewNode::Element {
        name,
        attrs,
        origin,
    })?;
    Ok(())
}

pub(crate) fn is_node(arena: &Arena, node: NodeId) -> bool
    ensures { result ≡ true → node < length arena.now.labels }
{
    (node.index() as u64) < arena.len()
}

fn is_text(arena: &Arena, node: NodeId) -> bool
    requires { node < length arena.now.labels }
    ensures { result ≡ true → IsText (label_of arena.now node) }
{
    match arena.node(node) {
        NodeData::Text { .. } => true,
        _ => false,
    }
}

fn is_element(arena: &Arena, node: NodeId) -> bool
    requires { node < length arena.now.labels }
    ensures { result ≡ true → IsElement (label_of arena.now node) }
{
    match arena.node(node) {
        NodeData::Element(_) => true,
        _ => false,
    }
}

fn make_clone(arena: &mut Arena, node: NodeId) -> Result<(), Refusal> {
    if !is_node(arena, node) {
        return Err(Refusal::Condition);
    }
    if !arena.tag(node).is_formatting() {
        return Err(Refusal::Condition);
    }
    arena.make(NewNode::CloneOf(node))?;
    Ok(())
}

/// Adds the first code point of a text.
fn push(arena: &mut Arena, node: NodeId, text: &str) -> Result<(), Refusal> {
    if !is_node(arena, node) {
        return Err(Refusal::Condition);
    }
    if !is_text(arena, node) {
        return Err(Refusal::Condition);
    }
    match text.chars().next() {
        Some(c) => Ok(arena.append_text(node, c)?),
        None => Err(Refusal::NoCall),
    }
}

/// Adds the longest front of a run that the budget takes, and writes how many code points it has.
fn push_run(
    arena: &mut Arena,
    alloc: Global,
    word: Word<'_>,
    out: &mut String,
) -> Result<(), Refusal> {
    let node = word.node()?;
    if !is_node(arena, node) {
        return Err(Refusal::Condition);
    }
    if !is_text(arena, node) {
        return Err(Refusal::Condition);
    }
    let run: Vec<char> = word.second.chars().collect(alloc)?;
    let taken = arena.append_run(node, run.as_slice())?;
    write!(out, "{taken} ")?;
    Ok(())
}

/// Merges `class="two" id="other"`.
fn merge(arena: &mut Arena, alloc: Global, node: NodeId) -> Result<(), Refusal> {
    if !is_node(arena, node) {
        return Err(Refusal::Condition);
    }
    if !is_element(arena, node) {
        return Err(Refusal::Condition);
    }
    let later = attributes_of(alloc, "class=two id=other")?;
    arena.merge_attrs(node, later)?;
    Ok(())
}

fn append(arena: &mut Arena, parent: NodeId, child: NodeId) -> Result<(), Refusal> {
    if !is_node(arena, parent) || !is_node(arena, child) {
        return Err(Refusal::Condition);
    }
    if !arena.is_linkable(child) || arena.parent(child).is_some() {
        return Err(Refusal::Condition);
    }
    if child == parent || arena.is_ancestor(child, parent) {
        return Err(Refusal::Condition);
    }
    arena.append(parent, child);
    Ok(())
}

fn put_before(arena: &mut Arena, child: NodeId, next: NodeId) -> Result<(), Refusal> {
    if !is_node(arena, next) || !is_node(arena, child) {
        return Err(Refusal::Condition);
    }
    if !arena.is_linkable(child) || arena.parent(child).is_some() || arena.parent(next).is_none() {
        return Err(Refusal::Condition);
    }
    if child == next || arena.is_ancestor(child, next) {
        return Err(Refusal::Condition);
    }
    arena.insert_before(child, next);
    Ok(())
}

fn detach(arena: &mut Arena, node: NodeId) -> Result<(), Refusal> {
    if !is_node(arena, node) {
        return Err(Refusal::Condition);
    }
    arena.detach(node);
    Ok(())
}

fn shift(arena: &mut Arena, from: NodeId, to: NodeId) -> Result<(), Refusal> {
    if !is_node(arena, from) || !is_node(arena, to) {
        return Err(Refusal::Condition);
    }
    if from == to || arena.is_ancestor(from, to) {
        return Err(Refusal::Condition);
    }
    arena.move_children(from, to);
    Ok(())
}

fn mark(arena: &mut Arena, word: Word<'_>) -> Result<(), Refusal> {
    let node = word.node()?;
    if !is_node(arena, node) {
        return Err(Refusal::Condition);
    }
    arena.set_mark(node, word.mark(), true);
    Ok(())
}
