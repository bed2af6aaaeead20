// The text below a node.
ghost use Rattle.std.specs.Prelude.{◌≡◌, ◌++◌, OnOk, string_bytes};
ghost use Rattle.std.specs.Str.{encode_utf8_all};
ghost use Rattle.html_arena.specs.Tree.{label_of};
ghost use Rattle.html_dom.specs.Reads.{descendants_of, text_of_all, text_part};

use crate::reads::get;
use crate::walks::descendants;
use html_arena::{Arena, NodeData, NodeId};
use std::alloc::AllocError;

/// Adds to `out` all texts below a node, in tree order; comments are none.
///
/// # Errors
///
/// Memory was refused. A front of the text was added then.
pub fn text_below(arena: &Arena, node: NodeId, out: &mut String) -> Result<(), AllocError>
    ensures { OnOk result (string_bytes out.new ≡ string_bytes out.old ++ encode_utf8_all (text_of_all arena.now (descendants_of arena.now node))) }
{
    let mut nodes = descendants(arena, node);
    'nodes: while let Some(node) = nodes.next() {
        out.push_str(text_part(arena, node))?;
    }
    Ok(())
}

/// The text of a text; empty for other nodes.
fn text_part(arena: &Arena, node: NodeId) -> &str
    ensures { result.now ≡ encode_utf8_all (text_part (label_of arena.now node)) }
{
    match get(arena, node) {
        Some(NodeData::Text { text }) => text.as_str(),
        _ => "",
    }
}
