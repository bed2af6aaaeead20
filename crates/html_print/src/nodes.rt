//! The lines of one node.

ghost use Rattle.std.specs.Prelude.{◌≡◌, ◌⊎◌, ◌↔◌, ◌<◌, ◌≤◌, ◌+◌, ◌^◌, ℕ, true, false, cond, codes, [], IsTrue, OnErr, OnOk, length};
ghost use Rattle.std.specs.Str.{encode_utf8_all};
ghost use Rattle.std.specs.Vec.{vec_capacity};
ghost use Rattle.html_arena.specs.Data.{attrs_in};
ghost use Rattle.html_arena.specs.Tree.{label_of};
ghost use Rattle.html_device.specs.Putting.{Puts, held};
ghost use Rattle.html_page.specs.Html.{text_or_empty};
ghost use Rattle.html_page.specs.Label.{Label, label_for};
ghost use Rattle.html_page.specs.Shows.{label_at};
ghost use Rattle.html_print.specs.Lines.{has_contents, ids, is_foreign, levels, line, lines_at, quoted_ids, shown};
ghost use Rattle.html_print.specs.Arranged.{IsOrdered};

use crate::attributes::{arrange, put_attributes};
use crate::line::put_line;
use html_arena::{Arena, NodeData, NodeId};
use html_device::{DeviceFault, Output, Sink};
use html_tokens::{Attr, OptionalStr};

/// Puts the lines of a node: its own, those of its attributes in order, and that of its contents.
pub(crate) fn put_node<'a, W: Sink>(
    output: &mut Output,
    writer: &mut W,
    ordered: &mut Vec<&'a Attr>,
    arena: &'a Arena,
    node: NodeId,
    depth: u128,
) -> Result<(), DeviceFault>
    requires node { node < length arena.now.labels }
    requires low { depth + 1 < 2 ^ 100 }
    requires room { length (attrs_in (label_of arena.now node)) ≤ vec_capacity ordered.old }
    ensures bytes { (l : Label) × IsOrdered (label_at arena.now node) l
        × Puts (W.taken writer.old) (held output.old) (W.taken writer.new) (held output.new) result (encode_utf8_all (lines_at depth l)) }
    ensures fault { OnErr result ((W.failed writer.new ≡ true) ⊎ (W.stalled writer.new ≡ true)) }
    ensures failing { OnOk result (W.failed writer.new ≡ true → W.failed writer.old ≡ true) }
    ensures stalling { OnOk result (W.stalled writer.new ≡ true → W.stalled writer.old ≡ true) }
    ensures capacity { vec_capacity ordered.old ≤ vec_capacity ordered.new }
{
    let foreign = is_foreign(arena, node);
    arrange(ordered, arena.attrs(node), foreign);
    put_own(output, writer, depth, arena.node(node))?;
    put_attributes(output, writer, depth + 1, foreign, ordered.as_slice())?;
    put_contents(output, writer, depth + 1, arena, node)
}

/// Whether a node is an element of foreign content.
fn is_foreign(arena: &Arena, node: NodeId) -> bool
    requires { node < length arena.now.labels }
    ensures { result ≡ is_foreign (label_at arena.now node) }
{
    arena.forest();
    arena.tag(node).is_foreign()
}

/// Puts a node's own line.
fn put_own<W: Sink>(
    output: &mut Output,
    writer: &mut W,
    depth: u128,
    node: &NodeData,
) -> Result<(), DeviceFault>
    requires low { depth < 2 ^ 100 }
    ensures bytes { Puts (W.taken writer.old) (held output.old) (W.taken writer.new) (held output.new) result (encode_utf8_all (line depth (shown (label_for node.now)))) }
    ensures fault { OnErr result ((W.failed writer.new ≡ true) ⊎ (W.stalled writer.new ≡ true)) }
    ensures failing { OnOk result (W.failed writer.new ≡ true → W.failed writer.old ≡ true) }
    ensures stalling { OnOk result (W.stalled writer.new ≡ true → W.stalled writer.old ≡ true) }
{
    match node {
        NodeData::Document => put_line(output, writer, depth, &[]),
        NodeData::Contents { .. } => put_line(output, writer, depth, &[]),
        NodeData::Element(element) => put_line(
            output,
            writer,
            depth,
            &["<", element.name.as_str(), ">"],
        ),
        NodeData::Text { text } => { put_line(output, writer, depth, &["\"", text.as_str(), "\""]) }
        NodeData::Comment { text, .. } => {
            put_line(output, writer, depth, &["<!-- ", text.as_str(), " -->"])
        }
        NodeData::Doctype {
            name,
            public,
            system,
            ..
        } => put_doctype(output, writer, depth, name, public, system),
    }
}

/// Puts the line of a doctype: its name, and its ids where one of them is not empty. What is absent is empty.
fn put_doctype<W: Sink>(
    output: &mut Output,
    writer: &mut W,
    depth: u128,
    name: &OptionalStr,
    public: &OptionalStr,
    system: &OptionalStr,
) -> Result<(), DeviceFault>
    requires low { depth < 2 ^ 100 }
    ensures bytes { Puts (W.taken writer.old) (held output.old) (W.taken writer.new) (held output.new) result
        (encode_utf8_all (line depth (shown (Label.doctype name.now public.now system.now)))) }
    ensures fault { OnErr result ((W.failed writer.new ≡ true) ⊎ (W.stalled writer.new ≡ true)) }
    ensures failing { OnOk result (W.failed writer.new ≡ true → W.failed writer.old ≡ true) }
    ensures stalling { OnOk result (W.stalled writer.new ≡ true → W.stalled writer.old ≡ true) }
{
    let name = or_empty(name);
    if are_empty(public, system) {
        return put_line(output, writer, depth, &["<!DOCTYPE ", name, ">"]);
    }
    let public = or_empty(public);
    let system = or_empty(system);
    put_line(
        output,
        writer,
        depth,
        &["<!DOCTYPE ", name, " \"", public, "\" \"", system, "\">"],
    )
}

/// Whether neither id is there, or not empty.
fn are_empty(public: &OptionalStr, system: &OptionalStr) -> bool
    ensures none { result ≡ true → ids (text_or_empty public.now) (text_or_empty system.now) ≡ [] }
    ensures some { result ≡ false → ids (text_or_empty public.now) (text_or_empty system.now) ≡ quoted_ids (text_or_empty public.now) (text_or_empty system.now) }
{
    is_empty(public) && is_empty(system)
}

/// Whether there is no text, or the empty one.
fn is_empty(text: &OptionalStr) -> bool
    ensures { IsTrue result ↔ (text_or_empty text.now ≡ []) }
{
    match text.as_ref() {
        Some(text) => text.is_empty(),
        None => true,
    }
}

/// A text, or the empty one.
fn or_empty(text: &OptionalStr) -> &str
    ensures { result.now ≡ encode_utf8_all (text_or_empty text.now) }
{
    match text.as_ref() {
        Some(text) => text.as_str(),
        None => "",
    }
}

/// Puts the line below which a template's contents stand.
fn put_contents<W: Sink>(
    output: &mut Output,
    writer: &mut W,
    depth: u128,
    arena: &Arena,
    node: NodeId,
) -> Result<(), DeviceFault>
    requires node { node < length arena.now.labels }
    requires low { depth < 2 ^ 100 }
    ensures bytes { Puts (W.taken writer.old) (held output.old) (W.taken writer.new) (held output.new) result
        (encode_utf8_all (cond (has_contents (label_at arena.now node)) (line depth (codes "content")) [])) }
    ensures fault { OnErr result ((W.failed writer.new ≡ true) ⊎ (W.stalled writer.new ≡ true)) }
    ensures failing { OnOk result (W.failed writer.new ≡ true → W.failed writer.old ≡ true) }
    ensures stalling { OnOk result (W.stalled writer.new ≡ true → W.stalled writer.old ≡ true) }
{
    arena.forest();
    match arena.contents(node) {
        Some(_) => put_line(output, writer, depth, &["content"]),
        None => Ok(()),
    }
}

/// How many levels the nodes below a node stand deeper than it.
pub(crate) fn levels_in(arena: &Arena, node: NodeId) -> u128
    requires { node < length arena.now.labels }
    ensures { result ≡ levels (label_at arena.now node) }
{
    arena.forest();
    match arena.contents(node) {
        Some(_) => 2,
        None => 1,
    }
}

/// The most attributes that an element has.
pub(crate) fn most_attributes(arena: &Arena) -> usize
    ensures { (x : ℕ) → length (attrs_in (label_of arena.now x)) ≤ result }
{
    let mut most: usize = 0;
    'nodes: for index in 0..arena.len() as usize {
        most = most.max(arena.attrs(NodeId::at(index)).len());
    }
    most
}
