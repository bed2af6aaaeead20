//! Nodes as numbers.

ghost use Rattle.std.specs.Prelude.{◌≡◌};
ghost use Rattle.zilqumet_rows.specs.Entries.{number_of};

use html_arena::NodeId;

/// No node.
pub const NO_NODE: u64 = u64::MAX;

/// The number of a node, or of none.
pub fn number(node: Option<NodeId>) -> u64
    ensures { result ≡ number_of node }
{
    match node {
        Some(node) => node.index() as u64,
        None => NO_NODE,
    }
}
