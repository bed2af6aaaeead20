//! Trees as HTML.

ghost use Rattle.std.specs.Prelude.{◌≡◌, ◌⊎◌, ◌<◌, ◌≤◌, ◌++◌, true, false, codes, length, OnOk, OnErr};
ghost use Rattle.std.specs.Io.KnownBytes.{Appends};
ghost use Rattle.std.specs.Str.{chars, encode_utf8_all};
ghost use Rattle.html_device.specs.Device.{AppendsFront};
ghost use Rattle.html_arena.specs.Below.{above, kids};
ghost use Rattle.html_arena.specs.Data.{tag_in, name_in};
ghost use Rattle.html_arena.specs.Forest.{Forest};
ghost use Rattle.html_arena.specs.Steps.{node_in};
ghost use Rattle.html_arena.specs.Tree.{label_of};
ghost use Rattle.html_arena.specs.Walking.{IsPlaced, IsRoot};
ghost use Rattle.html_names.specs.Names.{tag_of};
ghost use Rattle.html_device.specs.Putting.{Puts, held};
ghost use Rattle.html_page.specs.Html.{attribute, end_tag, is_foreign_name, qualified, start_tag, closing, opening};
ghost use Rattle.html_page.specs.Label.{Label, label_for};
ghost use Rattle.html_page.specs.Serialised.{HasNames, event_text, forest_below, html_below, is_raw_below, most_written};
ghost use Rattle.html_page.specs.Shows.{Shows};

use crate::escape::{Escape, put_escaped};
use crate::profile::Profile;
use html_arena::{Arena, ElementData, Event, NodeData, NodeId, Show, Walk};
use html_device::{DeviceFault, Output, Sink};
use html_names::local_name;
use html_text::Str;
use html_tokens::Attr;

/// Puts an attribute of an element of HTML.
fn put_attribute<W: Sink>(
    output: &mut Output,
    writer: &mut W,
    profile: Profile,
    attr: &Attr,
) -> Result<(), DeviceFault>
    ensures bytes { Puts (W.taken writer.old) (held output.old) (W.taken writer.new) (held output.new) result (encode_utf8_all (attribute profile false attr.now)) }
    ensures fault { OnErr result ((W.failed writer.new ≡ true) ⊎ (W.stalled writer.new ≡ true)) }
    ensures failing { OnOk result (W.failed writer.new ≡ true → W.failed writer.old ≡ true) }
    ensures stalling { OnOk result (W.stalled writer.new ≡ true → W.stalled writer.old ≡ true) }
{
    output.put_between(writer, " ", attr.name.as_str(), "=\"")?;
    put_escaped(output, writer, Escape::Value(profile), attr.value.as_str())?;
    output.put(writer, b"\"")
}

/// Puts a name, its first space as a colon.
fn put_qualified<W: Sink>(
    output: &mut Output,
    writer: &mut W,
    name: &str,
) -> Result<(), DeviceFault>
    ensures bytes { Puts (W.taken writer.old) (held output.old) (W.taken writer.new) (held output.new) result (encode_utf8_all (qualified (chars name.now))) }
    ensures fault { OnErr result ((W.failed writer.new ≡ true) ⊎ (W.stalled writer.new ≡ true)) }
    ensures failing { OnOk result (W.failed writer.new ≡ true → W.failed writer.old ≡ true) }
    ensures stalling { OnOk result (W.stalled writer.new ≡ true → W.stalled writer.old ≡ true) }
{
    match name.split_once(' ') {
        Some((prefix, local)) => output.put_between(writer, prefix, ":", local),
        None => output.put(writer, name.as_bytes()),
    }
}

/// Puts the name of an attribute of an element of foreign content, and what stands around it.
fn put_foreign_name<W: Sink>(
    output: &mut Output,
    writer: &mut W,
    name: &Str,
) -> Result<(), DeviceFault>
    ensures bytes { Puts (W.taken writer.old) (held output.old) (W.taken writer.new) (held output.new) result (codes " " ++ (encode_utf8_all (qualified name.now) ++ codes "=\"")) }
    ensures fault { OnErr result ((W.failed writer.new ≡ true) ⊎ (W.stalled writer.new ≡ true)) }
    ensures failing { OnOk result (W.failed writer.new ≡ true → W.failed writer.old ≡ true) }
    ensures stalling { OnOk result (W.stalled writer.new ≡ true → W.stalled writer.old ≡ true) }
{
    output.put(writer, b" ")?;
    put_qualified(output, writer, name.as_str())?;
    output.put(writer, b"=\"")
}

/// Puts an attribute of an element of foreign content.
fn put_foreign_attribute<W: Sink>(
    output: &mut Output,
    writer: &mut W,
    profile: Profile,
    attr: &Attr,
) -> Result<(), DeviceFault>
    ensures bytes { Puts (W.taken writer.old) (held output.old) (W.taken writer.new) (held output.new) result (encode_utf8_all (attribute profile true attr.now)) }
    ensures fault { OnErr result ((W.failed writer.new ≡ true) ⊎ (W.stalled writer.new ≡ true)) }
    ensures failing { OnOk result (W.failed writer.new ≡ true → W.failed writer.old ≡ true) }
    ensures stalling { OnOk result (W.stalled writer.new ≡ true → W.stalled writer.old ≡ true) }
{
    put_foreign_name(output, writer, &attr.name)?;
    put_escaped(output, writer, Escape::Value(profile), attr.value.as_str())?;
    output.put(writer, b"\"")
}

/// Puts a start tag of an element of foreign content.
#[inline(never)]
fn put_foreign_tag<W: Sink>(
    output: &mut Output,
    writer: &mut W,
    profile: Profile,
    name: &Str,
    attrs: &[Attr],
) -> Result<(), DeviceFault>
    requires foreign { is_foreign_name name.now ≡ true }
    ensures bytes { Puts (W.taken writer.old) (held output.old) (W.taken writer.new) (held output.new) result (encode_utf8_all (start_tag profile name.now attrs.now)) }
    ensures fault { OnErr result ((W.failed writer.new ≡ true) ⊎ (W.stalled writer.new ≡ true)) }
    ensures failing { OnOk result (W.failed writer.new ≡ true → W.failed writer.old ≡ true) }
    ensures stalling { OnOk result (W.stalled writer.new ≡ true → W.stalled writer.old ≡ true) }
{
    output.put_between(writer, "<", local_name(name.as_str()), "")?;
    for attr in attrs {
        put_foreign_attribute(output, writer, profile, attr)?;
    }
    output.put(writer, b">")
}

/// Puts a start tag of an element of HTML.
fn put_html_tag<W: Sink>(
    output: &mut Output,
    writer: &mut W,
    profile: Profile,
    name: &Str,
    attrs: &[Attr],
) -> Result<(), DeviceFault>
    requires html { is_foreign_name name.now ≡ false }
    ensures bytes { Puts (W.taken writer.old) (held output.old) (W.taken writer.new) (held output.new) result (encode_utf8_all (start_tag profile name.now attrs.now)) }
    ensures fault { OnErr result ((W.failed writer.new ≡ true) ⊎ (W.stalled writer.new ≡ true)) }
    ensures failing { OnOk result (W.failed writer.new ≡ true → W.failed writer.old ≡ true) }
    ensures stalling { OnOk result (W.stalled writer.new ≡ true → W.stalled writer.old ≡ true) }
{
    output.put_between(writer, "<", name.as_str(), "")?;
    for attr in attrs {
        put_attribute(output, writer, profile, attr)?;
    }
    output.put(writer, b">")
}

/// Puts the start tag of an element.
fn put_start_tag<W: Sink>(
    output: &mut Output,
    writer: &mut W,
    profile: Profile,
    element: &ElementData,
) -> Result<(), DeviceFault>
    requires tagged { element.now.tag ≡ tag_of element.now.name }
    ensures bytes { Puts (W.taken writer.old) (held output.old) (W.taken writer.new) (held output.new) result (encode_utf8_all (start_tag profile element.now.name element.now.attrs)) }
    ensures fault { OnErr result ((W.failed writer.new ≡ true) ⊎ (W.stalled writer.new ≡ true)) }
    ensures failing { OnOk result (W.failed writer.new ≡ true → W.failed writer.old ≡ true) }
    ensures stalling { OnOk result (W.stalled writer.new ≡ true → W.stalled writer.old ≡ true) }
{
    if element.tag.is_foreign() {
        return put_foreign_tag(
            output,
            writer,
            profile,
            &element.name,
            element.attrs.as_slice(),
        );
    }
    put_html_tag(
        output,
        writer,
        profile,
        &element.name,
        element.attrs.as_slice(),
    )
}

/// Puts what stands for a node before the nodes below it.
fn put_opening<W: Sink>(
    output: &mut Output,
    writer: &mut W,
    profile: Profile,
    raw: bool,
    node: &NodeData,
) -> Result<(), DeviceFault>
    requires tagged { tag_in node.now ≡ tag_of (name_in node.now) }
    ensures bytes { Puts (W.taken writer.old) (held output.old) (W.taken writer.new) (held output.new) result (encode_utf8_all (opening profile raw (label_for node.now))) }
    ensures fault { OnErr result ((W.failed writer.new ≡ true) ⊎ (W.stalled writer.new ≡ true)) }
    ensures failing { OnOk result (W.failed writer.new ≡ true → W.failed writer.old ≡ true) }
    ensures stalling { OnOk result (W.stalled writer.new ≡ true → W.stalled writer.old ≡ true) }
{
    match node {
        NodeData::Document | NodeData::Contents { .. } => Ok(()),
        NodeData::Element(element) => put_start_tag(output, writer, profile, element),
        NodeData::Text { text } => {
            if raw {
                output.put(writer, text.as_str().as_bytes())
            } else {
                put_escaped(output, writer, Escape::Text, text.as_str())
            }
        }
        NodeData::Comment { text, .. } => {
            output.put_between(writer, "<!--", text.as_str(), "-->")
        }
        NodeData::Doctype { name, .. } => match name.as_ref() {
            Some(name) => output.put_between(writer, "<!DOCTYPE ", name.as_str(), ">"),
            None => output.put(writer, b"<!DOCTYPE >"),
        },
    }
}

/// Puts what stands for a node after the nodes below it.
fn put_closing<W: Sink>(
    output: &mut Output,
    writer: &mut W,
    node: &NodeData,
) -> Result<(), DeviceFault>
    requires tagged { tag_in node.now ≡ tag_of (name_in node.now) }
    ensures bytes { Puts (W.taken writer.old) (held output.old) (W.taken writer.new) (held output.new) result (encode_utf8_all (closing (label_for node.now))) }
    ensures fault { OnErr result ((W.failed writer.new ≡ true) ⊎ (W.stalled writer.new ≡ true)) }
    ensures failing { OnOk result (W.failed writer.new ≡ true → W.failed writer.old ≡ true) }
    ensures stalling { OnOk result (W.stalled writer.new ≡ true → W.stalled writer.old ≡ true) }
{
    match node {
        NodeData::Element(element) => put_end_tag(output, writer, element),
        _ => Ok(()),
    }
}

/// Puts the end tag of an element of foreign content.
#[inline(never)]
fn put_foreign_end<W: Sink>(
    output: &mut Output,
    writer: &mut W,
    name: &Str,
) -> Result<(), DeviceFault>
    requires foreign { is_foreign_name name.now ≡ true }
    ensures bytes { Puts (W.taken writer.old) (held output.old) (W.taken writer.new) (held output.new) result (encode_utf8_all (end_tag name.now)) }
    ensures fault { OnErr result ((W.failed writer.new ≡ true) ⊎ (W.stalled writer.new ≡ true)) }
    ensures failing { OnOk result (W.failed writer.new ≡ true → W.failed writer.old ≡ true) }
    ensures stalling { OnOk result (W.stalled writer.new ≡ true → W.stalled writer.old ≡ true) }
{
    output.put_between(writer, "</", local_name(name.as_str()), ">")
}

/// Puts the end tag of an element, if it has one.
fn put_end_tag<W: Sink>(
    output: &mut Output,
    writer: &mut W,
    element: &ElementData,
) -> Result<(), DeviceFault>
    requires tagged { element.now.tag ≡ tag_of element.now.name }
    ensures bytes { Puts (W.taken writer.old) (held output.old) (W.taken writer.new) (held output.new) result (encode_utf8_all (closing (Label.element element.now.name element.now.attrs))) }
    ensures fault { OnErr result ((W.failed writer.new ≡ true) ⊎ (W.stalled writer.new ≡ true)) }
    ensures failing { OnOk result (W.failed writer.new ≡ true → W.failed writer.old ≡ true) }
    ensures stalling { OnOk result (W.stalled writer.new ≡ true → W.stalled writer.old ≡ true) }
{
    if element.tag.is_void() {
        return Ok(());
    }
    if element.tag.is_foreign() {
        return put_foreign_end(output, writer, &element.name);
    }
    output.put_between(writer, "</", element.name.as_str(), ">")
}

/// Whether a text at this place is written as it is.
fn is_raw_at(arena: &Arena, node: NodeId) -> bool
    requires { node < length arena.now.labels }
    ensures { result ≡ is_raw_below arena.now (above arena.now node) }
{
    match arena.above(node) {
        Some(above) => arena.tag(above).holds_literal_text(),
        None => false,
    }
}

/// Puts what is written where a walk enters or leaves a node.
pub(crate) fn put_event<W: Sink>(
    output: &mut Output,
    writer: &mut W,
    profile: Profile,
    arena: &Arena,
    event: Event,
) -> Result<(), DeviceFault>
    requires { node_in event < length arena.now.labels }
    ensures bytes { Puts (W.taken writer.old) (held output.old) (W.taken writer.new) (held output.new) result (encode_utf8_all (event_text profile arena.now event)) }
    ensures fault { OnErr result ((W.failed writer.new ≡ true) ⊎ (W.stalled writer.new ≡ true)) }
    ensures failing { OnOk result (W.failed writer.new ≡ true → W.failed writer.old ≡ true) }
    ensures stalling { OnOk result (W.stalled writer.new ≡ true → W.stalled writer.old ≡ true) }
{
    arena.forest();
    match event {
        Event::Enter(node) => {
            let raw = is_raw_at(arena, node);
            put_opening(output, writer, profile, raw, arena.node(node))
        }
        Event::Leave(node) => put_closing(output, writer, arena.node(node)),
    }
}

/// Puts all that stands below a node.
pub(crate) fn put_below<W: Sink>(
    output: &mut Output,
    writer: &mut W,
    profile: Profile,
    arena: &Arena,
    root: NodeId,
) -> Result<(), DeviceFault>
    requires { IsPlaced arena.now root }
    ensures bytes { Puts (W.taken writer.old) (held output.old) (W.taken writer.new) (held output.new) result (encode_utf8_all (html_below profile arena.now root)) }
    ensures fault { OnErr result ((W.failed writer.new ≡ true) ⊎ (W.stalled writer.new ≡ true)) }
    ensures failing { OnOk result (W.failed writer.new ≡ true → W.failed writer.old ≡ true) }
    ensures stalling { OnOk result (W.stalled writer.new ≡ true → W.stalled writer.old ≡ true) }
{
    arena.forest();
    let mut walk = Walk::at(arena, Show::Written, root);
    'events: while let Some(event) = walk.next() {
        put_event(output, writer, profile, arena, event)?;
    }
    Ok(())
}

/// Writes all that stands below a node, and the last bytes that are kept.
pub(crate) fn write_below<W: Sink>(
    writer: &mut W,
    profile: Profile,
    arena: &Arena,
    root: NodeId,
) -> Result<(), DeviceFault>
    requires { IsPlaced arena.now root }
    ensures ok { OnOk result (Appends (W.taken writer.old) (W.taken writer.new) (encode_utf8_all (html_below profile arena.now root))) }
    ensures err { OnErr result (AppendsFront (W.taken writer.old) (W.taken writer.new) (encode_utf8_all (html_below profile arena.now root))) }
    ensures fault { OnErr result ((W.failed writer.new ≡ true) ⊎ (W.stalled writer.new ≡ true)) }
    ensures failing { OnOk result (W.failed writer.new ≡ true → W.failed writer.old ≡ true) }
    ensures stalling { OnOk result (W.stalled writer.new ≡ true → W.stalled writer.old ≡ true) }
{
    let mut output = Output::new();
    put_below(&mut output, writer, profile, arena, root)?;
    output.flush(writer)
}

/// A law of every arena: what stands below a node is one forest, and its text is no longer than this.
pub(crate) fn law_of(arena: &Arena, root: NodeId, profile: Profile)
    requires { IsPlaced arena.now root }
    ensures shows { Shows arena.now (kids Show.All arena.now root) (forest_below arena.now root) }
    ensures only { (f : Forest Label) → Shows arena.now (kids Show.All arena.now root) f → f ≡ forest_below arena.now root }
    ensures size { HasNames arena.now → length (html_below profile arena.now root) ≤ most_written arena.now }
{
    let _profile = profile;
    arena.forest();
    let _walk = Walk::at(arena, Show::All, root);
}

/// Writes the trees below a root, as text in UTF-8. It takes no memory, and goes through the nodes by their links.
///
/// # Errors
///
/// The writer failed, or took no bytes. A front of the text was written then.
pub fn serialise_tree<W: Sink>(
    arena: &Arena,
    root: NodeId,
    profile: Profile,
    writer: &mut W,
) -> Result<(), DeviceFault>
    requires root { IsRoot arena.now root }

    // All of the text was written.
    ensures ok { OnOk result (Appends (W.taken writer.old) (W.taken writer.new) (encode_utf8_all (html_below profile arena.now root))) }

    // A front of it was written.
    ensures err { OnErr result (AppendsFront (W.taken writer.old) (W.taken writer.new) (encode_utf8_all (html_below profile arena.now root))) }

    // It is the writer that failed, or took no bytes; and a writer that does so is told.
    ensures fault { OnErr result ((W.failed writer.new ≡ true) ⊎ (W.stalled writer.new ≡ true)) }
    ensures failing { OnOk result (W.failed writer.new ≡ true → W.failed writer.old ≡ true) }
    ensures stalling { OnOk result (W.stalled writer.new ≡ true → W.stalled writer.old ≡ true) }

    // The text is that of the one forest that stands below the root, and no longer than this.
    ensures shows { Shows arena.now (kids Show.All arena.now root) (forest_below arena.now root) }
    ensures only { (f : Forest Label) → Shows arena.now (kids Show.All arena.now root) f → f ≡ forest_below arena.now root }
    ensures size { HasNames arena.now → length (html_below profile arena.now root) ≤ most_written arena.now }
{
    law_of(arena, root, profile);
    write_below(writer, profile, arena, root)
}
