//! Parts of trees as HTML: what stands below a node, and the node itself with it.

ghost use Rattle.std.specs.Prelude.{◌≡◌, ◌⊎◌, ◌≤◌, true, length, OnOk, OnErr};
ghost use Rattle.std.specs.Io.KnownBytes.{Appends};
ghost use Rattle.std.specs.Str.{encode_utf8_all};
ghost use Rattle.html_arena.specs.Below.{kids};
ghost use Rattle.html_arena.specs.Forest.{Forest};
ghost use Rattle.html_arena.specs.Walking.{IsPlaced};
ghost use Rattle.html_arena.specs.declared.walk.Show.TheVariants.{All};
ghost use Rattle.html_device.specs.Device.{AppendsFront};
ghost use Rattle.html_device.specs.Putting.{Puts, held};
ghost use Rattle.html_page.specs.Label.{Label};
ghost use Rattle.html_page.specs.Serialised.{HasNames, forest_below, html_at, html_below, most_written};
ghost use Rattle.html_page.specs.Shows.{Shows};

use crate::profile::Profile;
use crate::serialising::{law_of, put_below, put_event, write_below};
use html_arena::{Arena, Event, NodeId};
use html_device::{DeviceFault, Output, Sink};

/// Writes what stands below a node, as text in UTF-8 (its inner HTML); of a template, what its contents hold. It takes no memory.
///
/// # Errors
///
/// The writer failed, or took no bytes. A front of the text was written then.
pub fn serialise_inner<W: Sink>(
    arena: &Arena,
    node: NodeId,
    profile: Profile,
    writer: &mut W,
) -> Result<(), DeviceFault>
    requires placed { IsPlaced arena.now node }

    // All of the text was written, or a front of it.
    ensures ok { OnOk result (Appends (W.taken writer.old) (W.taken writer.new) (encode_utf8_all (html_below profile arena.now node))) }
    ensures err { OnErr result (AppendsFront (W.taken writer.old) (W.taken writer.new) (encode_utf8_all (html_below profile arena.now node))) }

    // It is the writer that failed, or took no bytes; and a writer that does so is told.
    ensures fault { OnErr result ((W.failed writer.new ≡ true) ⊎ (W.stalled writer.new ≡ true)) }
    ensures failing { OnOk result (W.failed writer.new ≡ true → W.failed writer.old ≡ true) }
    ensures stalling { OnOk result (W.stalled writer.new ≡ true → W.stalled writer.old ≡ true) }

    // The text is that of the one forest that stands below the node, and no longer than this.
    ensures shows { Shows arena.now (kids All arena.now node) (forest_below arena.now node) }
    ensures only { (f : Forest Label) → Shows arena.now (kids All arena.now node) f → f ≡ forest_below arena.now node }
    ensures size { HasNames arena.now → length (html_below profile arena.now node) ≤ most_written arena.now }
{
    law_of(arena, node, profile);
    write_below(writer, profile, arena, node)
}

/// Writes a node with all that stands below it, as text in UTF-8 (its outer HTML). It takes no memory.
///
/// # Errors
///
/// The writer failed, or took no bytes. A front of the text was written then.
pub fn serialise_outer<W: Sink>(
    arena: &Arena,
    node: NodeId,
    profile: Profile,
    writer: &mut W,
) -> Result<(), DeviceFault>
    requires placed { IsPlaced arena.now node }

    // All of the text was written, or a front of it.
    ensures ok { OnOk result (Appends (W.taken writer.old) (W.taken writer.new) (encode_utf8_all (html_at profile arena.now node))) }
    ensures err { OnErr result (AppendsFront (W.taken writer.old) (W.taken writer.new) (encode_utf8_all (html_at profile arena.now node))) }

    // It is the writer that failed, or took no bytes; and a writer that does so is told.
    ensures fault { OnErr result ((W.failed writer.new ≡ true) ⊎ (W.stalled writer.new ≡ true)) }
    ensures failing { OnOk result (W.failed writer.new ≡ true → W.failed writer.old ≡ true) }
    ensures stalling { OnOk result (W.stalled writer.new ≡ true → W.stalled writer.old ≡ true) }

    // What stands below the node is this one forest.
    ensures shows { Shows arena.now (kids All arena.now node) (forest_below arena.now node) }
    ensures only { (f : Forest Label) → Shows arena.now (kids All arena.now node) f → f ≡ forest_below arena.now node }
{
    law_of(arena, node, profile);
    write_node(writer, profile, arena, node)
}

/// Writes a node with all that stands below it, and the last bytes that are kept.
fn write_node<W: Sink>(
    writer: &mut W,
    profile: Profile,
    arena: &Arena,
    node: NodeId,
) -> Result<(), DeviceFault>
    requires { IsPlaced arena.now node }
    ensures ok { OnOk result (Appends (W.taken writer.old) (W.taken writer.new) (encode_utf8_all (html_at profile arena.now node))) }
    ensures err { OnErr result (AppendsFront (W.taken writer.old) (W.taken writer.new) (encode_utf8_all (html_at profile arena.now node))) }
    ensures fault { OnErr result ((W.failed writer.new ≡ true) ⊎ (W.stalled writer.new ≡ true)) }
    ensures failing { OnOk result (W.failed writer.new ≡ true → W.failed writer.old ≡ true) }
    ensures stalling { OnOk result (W.stalled writer.new ≡ true → W.stalled writer.old ≡ true) }
{
    let mut output = Output::new();
    put_node(&mut output, writer, profile, arena, node)?;
    output.flush(writer)
}

/// Puts a node with all that stands below it.
fn put_node<W: Sink>(
    output: &mut Output,
    writer: &mut W,
    profile: Profile,
    arena: &Arena,
    node: NodeId,
) -> Result<(), DeviceFault>
    requires { IsPlaced arena.now node }
    ensures bytes { Puts (W.taken writer.old) (held output.old) (W.taken writer.new) (held output.new) result (encode_utf8_all (html_at profile arena.now node)) }
    ensures fault { OnErr result ((W.failed writer.new ≡ true) ⊎ (W.stalled writer.new ≡ true)) }
    ensures failing { OnOk result (W.failed writer.new ≡ true → W.failed writer.old ≡ true) }
    ensures stalling { OnOk result (W.stalled writer.new ≡ true → W.stalled writer.old ≡ true) }
{
    put_event(output, writer, profile, arena, Event::Enter(node))?;
    put_below(output, writer, profile, arena, node)?;
    put_event(output, writer, profile, arena, Event::Leave(node))
}
