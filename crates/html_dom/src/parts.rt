// Parts of a tree written as HTML, whichever node they stand at.
ghost use Rattle.std.specs.Prelude.{◌≡◌, ◌⊎◌, true, false, OnOk, OnErr, IfErr};
ghost use Rattle.std.specs.Io.KnownBytes.{Appends};
ghost use Rattle.std.specs.Str.{encode_utf8_all};
ghost use Rattle.html_device.specs.Device.{AppendsFront};
ghost use Rattle.html_page.specs.Serialised.{html_at, html_below};
ghost use Rattle.html_dom.specs.declared.parts.PartError.TheVariants.{NoPlace};
ghost use Rattle.html_dom.specs.Places.{is_placed};

use crate::places::is_placed;
use html_arena::{Arena, NodeId};
use html_device::Sink;
use html_page::{Profile, serialise_inner, serialise_outer};
use thiserror::Error;

/// Why a part of a tree was not written.
#[derive(Clone, Copy, Debug, PartialEq, Eq, Error)]
pub enum PartError {
    #[error("there is no such node, or it has no place in a tree")]
    NoPlace,
    #[error("the writer failed, or took no bytes")]
    Write,
}

/// Writes what stands below a node, as text in UTF-8; of a template, what its contents hold. It takes no memory.
///
/// # Errors
///
/// `NoPlace` where the node has none (`is_placed`): nothing was written then. `Write` where the writer failed, or took no bytes: a front of the text
/// was written then.
pub fn inner_html<W: Sink>(
    arena: &Arena,
    node: NodeId,
    profile: Profile,
    writer: &mut W,
) -> Result<(), PartError>
    ensures ok { OnOk result (Appends (W.taken writer.old) (W.taken writer.new) (encode_utf8_all (html_below profile arena.now node))) }
    ensures placed { OnOk result (is_placed arena.now node ≡ true) }
    ensures no_place { IfErr result (λ e. e ≡ NoPlace → (is_placed arena.now node ≡ false) × (writer.new ≡ writer.old)) }
    ensures err { IfErr result (λ e. e ≡ PartError.Write → AppendsFront (W.taken writer.old) (W.taken writer.new) (encode_utf8_all (html_below profile arena.now node))) }
    ensures fault { IfErr result (λ e. e ≡ PartError.Write → (W.failed writer.new ≡ true) ⊎ (W.stalled writer.new ≡ true)) }
    ensures failing { OnOk result (W.failed writer.new ≡ true → W.failed writer.old ≡ true) }
    ensures stalling { OnOk result (W.stalled writer.new ≡ true → W.stalled writer.old ≡ true) }
{
    if !is_placed(arena, node) {
        return Err(PartError::NoPlace);
    }
    match serialise_inner(arena, node, profile, writer) {
        Ok(()) => Ok(()),
        Err(_) => Err(PartError::Write),
    }
}

/// Writes a node with all that stands below it, as text in UTF-8. It takes no memory.
///
/// # Errors
///
/// Those of `inner_html`.
pub fn outer_html<W: Sink>(
    arena: &Arena,
    node: NodeId,
    profile: Profile,
    writer: &mut W,
) -> Result<(), PartError>
    ensures ok { OnOk result (Appends (W.taken writer.old) (W.taken writer.new) (encode_utf8_all (html_at profile arena.now node))) }
    ensures placed { OnOk result (is_placed arena.now node ≡ true) }
    ensures no_place { IfErr result (λ e. e ≡ NoPlace → (is_placed arena.now node ≡ false) × (writer.new ≡ writer.old)) }
    ensures err { IfErr result (λ e. e ≡ PartError.Write → AppendsFront (W.taken writer.old) (W.taken writer.new) (encode_utf8_all (html_at profile arena.now node))) }
    ensures fault { IfErr result (λ e. e ≡ PartError.Write → (W.failed writer.new ≡ true) ⊎ (W.stalled writer.new ≡ true)) }
    ensures failing { OnOk result (W.failed writer.new ≡ true → W.failed writer.old ≡ true) }
    ensures stalling { OnOk result (W.stalled writer.new ≡ true → W.stalled writer.old ≡ true) }
{
    if !is_placed(arena, node) {
        return Err(PartError::NoPlace);
    }
    match serialise_outer(arena, node, profile, writer) {
        Ok(()) => Ok(()),
        Err(_) => Err(PartError::Write),
    }
}
