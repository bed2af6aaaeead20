//! How large a page is.

ghost use Rattle.std.specs.Prelude.{◌≡◌, ◌⊎◌, true, OnErr, OnOk};
ghost use Rattle.std.specs.Io.KnownBytes.{Appends};
ghost use Rattle.html_device.specs.Device.{AppendsFront};
ghost use Rattle.html_print.specs.Counts.{clones_in, count_lines};

use html_arena::{Arena, NodeId};
use html_device::{DeviceFault, Piece, Sink, write_pieces};
use html_parser::Tree;

/// Writes six numbers, a line each: the code points of the input, the tokens, the nodes, those of them that are clones, the code points
/// that the nodes hold, and the steps.
///
/// # Errors
///
/// The writer failed, or took no bytes. A front of the lines was written then.
pub fn write_counts<W: Sink>(tree: &Tree, writer: &mut W) -> Result<(), DeviceFault>
    ensures ok { OnOk result (Appends (W.taken writer.old) (W.taken writer.new) (count_lines tree.now)) }
    ensures err { OnErr result (AppendsFront (W.taken writer.old) (W.taken writer.new) (count_lines tree.now)) }
    ensures fault { OnErr result ((W.failed writer.new ≡ true) ⊎ (W.stalled writer.new ≡ true)) }
    ensures failing { OnOk result (W.failed writer.new ≡ true → W.failed writer.old ≡ true) }
    ensures stalling { OnOk result (W.stalled writer.new ≡ true → W.stalled writer.old ≡ true) }
{
    let nodes = tree.arena.len();
    let clones = clone_count(&tree.arena);
    let held = tree.arena.held();
    write_pieces(
        writer,
        &[
            Piece::Text("n "),
            Piece::Number(tree.n as u128),
            Piece::Text("\ntokens "),
            Piece::Number(tree.token_count as u128),
            Piece::Text("\nnodes "),
            Piece::Number(nodes as u128),
            Piece::Text("\nclones "),
            Piece::Number(clones as u128),
            Piece::Text("\nheld "),
            Piece::Number(held),
            Piece::Text("\nsteps "),
            Piece::Number(tree.steps),
            Piece::Text("\n"),
        ],
    )
}

/// How many nodes are clones.
fn clone_count(arena: &Arena) -> u64
    ensures { result ≡ clones_in arena.now }
{
    let mut count: u64 = 0;
    'nodes: for index in 0..arena.len() as usize {
        if arena.is_clone(NodeId::at(index)) {
            count = count.saturating_add(1);
        }
    }
    count
}
