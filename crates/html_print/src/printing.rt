//! Trees as lines.

ghost use Rattle.std.specs.Prelude.{◌≡◌, ◌⊎◌, ◌≤◌, ℕ, true, false, Err, OnOk, OnErr, IfErr, length};
ghost use Rattle.std.specs.Io.KnownBytes.{Appends};
ghost use Rattle.std.specs.Str.{encode_utf8_all};
ghost use Rattle.std.specs.Vec.{vec_capacity};
ghost use Rattle.html_arena.specs.Below.{kids};
ghost use Rattle.html_arena.specs.Data.{attrs_in};
ghost use Rattle.html_arena.specs.Forest.{Forest};
ghost use Rattle.html_arena.specs.Tree.{label_of};
ghost use Rattle.html_arena.specs.Walking.{IsRoot};
ghost use Rattle.html_device.specs.Device.{AppendsFront};
ghost use Rattle.html_device.specs.Putting.{Puts, held};
ghost use Rattle.html_page.specs.Label.{Label};
ghost use Rattle.html_page.specs.Serialised.{forest_below};
ghost use Rattle.html_page.specs.Shows.{Shows};
ghost use Rattle.html_print.specs.Printed.{IsPrinted};

use crate::error::PrintError;
use crate::nodes::{levels_in, most_attributes, put_node};
use html_arena::{Arena, Event, NodeId, Show, Walk};
use html_device::{DeviceFault, Output, Sink};
use html_tokens::Attr;
use std::alloc::Global;

/// Writes the nodes below a root in tree order, in UTF-8: a line a node, after an element a line an attribute, in order
/// of the UTF-16 code units of their names, and after a template the line `content`, below which its contents stand. It
/// goes by the links of the nodes, and takes memory for the attributes of one element, before it writes.
///
/// # Errors
///
/// `OutOfMemory`, and nothing was written. `Write`: the writer failed, or took no bytes; a front of the text was written.
pub fn print_tree<W: Sink>(
    alloc: Global,
    arena: &Arena,
    root: NodeId,
    writer: &mut W,
) -> Result<(), PrintError>
    requires root { IsRoot arena.now root }

    // All of the text was written.
    ensures ok { OnOk result (IsPrinted arena.now root (λ text. Appends (W.taken writer.old) (W.taken writer.new) (encode_utf8_all text))) }

    // A front of it was written, and nothing where memory was refused.
    ensures err { OnErr result (IsPrinted arena.now root (λ text. AppendsFront (W.taken writer.old) (W.taken writer.new) (encode_utf8_all text))) }
    ensures memory { IfErr result (λ e. e ≡ PrintError.OutOfMemory → W.taken writer.new ≡ W.taken writer.old) }

    // It is the writer that failed, or took no bytes.
    ensures fault { IfErr result (λ e. e ≡ PrintError.Write → (W.failed writer.new ≡ true) ⊎ (W.stalled writer.new ≡ true)) }

    // A writer that fails, or takes no bytes, is told.
    ensures failing { W.failed writer.old ≡ false → W.failed writer.new ≡ true → result ≡ Err PrintError.Write }
    ensures stalling { W.stalled writer.old ≡ false → W.stalled writer.new ≡ true → result ≡ Err PrintError.Write }

    // The text is that of the one forest that stands below the root.
    ensures shows { Shows arena.now (kids Show.All arena.now root) (forest_below arena.now root) }
    ensures only { (f : Forest Label) → Shows arena.now (kids Show.All arena.now root) f → f ≡ forest_below arena.now root }
{
    law_of(arena, root);
    let mut ordered = Vec::with_capacity(alloc, most_attributes(arena))?;
    write_lines(writer, &mut ordered, arena, root)?;
    Ok(())
}

/// A law of every arena: what stands below a root is one forest.
fn law_of(arena: &Arena, root: NodeId)
    requires { IsRoot arena.now root }
    ensures shows { Shows arena.now (kids Show.All arena.now root) (forest_below arena.now root) }
    ensures only { (f : Forest Label) → Shows arena.now (kids Show.All arena.now root) f → f ≡ forest_below arena.now root }
{
    arena.forest();
    let _walk = Walk::new(arena, Show::All, root);
}

/// Writes the lines of all that stands below a root, and the last bytes that are kept.
fn write_lines<'a, W: Sink>(
    writer: &mut W,
    ordered: &mut Vec<&'a Attr>,
    arena: &'a Arena,
    root: NodeId,
) -> Result<(), DeviceFault>
    requires root { IsRoot arena.now root }
    requires room { (x : ℕ) → length (attrs_in (label_of arena.now x)) ≤ vec_capacity ordered.old }
    ensures ok { OnOk result (IsPrinted arena.now root (λ text. Appends (W.taken writer.old) (W.taken writer.new) (encode_utf8_all text))) }
    ensures err { OnErr result (IsPrinted arena.now root (λ text. AppendsFront (W.taken writer.old) (W.taken writer.new) (encode_utf8_all text))) }
    ensures fault { OnErr result ((W.failed writer.new ≡ true) ⊎ (W.stalled writer.new ≡ true)) }
    ensures failing { OnOk result (W.failed writer.new ≡ true → W.failed writer.old ≡ true) }
    ensures stalling { OnOk result (W.stalled writer.new ≡ true → W.stalled writer.old ≡ true) }
{
    let mut output = Output::new();
    put_lines(&mut output, writer, ordered, arena, root)?;
    output.flush(writer)
}

/// Puts the lines of all that stands below a root.
fn put_lines<'a, W: Sink>(
    output: &mut Output,
    writer: &mut W,
    ordered: &mut Vec<&'a Attr>,
    arena: &'a Arena,
    root: NodeId,
) -> Result<(), DeviceFault>
    requires root { IsRoot arena.now root }
    requires room { (x : ℕ) → length (attrs_in (label_of arena.now x)) ≤ vec_capacity ordered.old }
    ensures bytes { IsPrinted arena.now root (λ text. Puts (W.taken writer.old) (held output.old) (W.taken writer.new) (held output.new) result (encode_utf8_all text)) }
    ensures fault { OnErr result ((W.failed writer.new ≡ true) ⊎ (W.stalled writer.new ≡ true)) }
    ensures failing { OnOk result (W.failed writer.new ≡ true → W.failed writer.old ≡ true) }
    ensures stalling { OnOk result (W.stalled writer.new ≡ true → W.stalled writer.old ≡ true) }
{
    let _count = arena.len();
    let mut depth: u128 = 0;
    let mut walk = Walk::new(arena, Show::All, root);
    'events: while let Some(event) = walk.next() {
        match event {
            Event::Enter(node) => {
                put_node(output, writer, ordered, arena, node, depth)?;
                depth += levels_in(arena, node);
            }
            Event::Leave(node) => depth -= levels_in(arena, node),
        }
    }
    Ok(())
}
