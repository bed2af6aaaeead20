// The names of a page's elements.

use anyhow::Result;
use html_parser::dom::{descendants, name};
use html_parser::{Arena, NodeId};

/// Prints the names of the elements below a node, in tree order.
pub(crate) fn print_names(rt: &HostRuntime, arena: &Arena, root: NodeId) -> Result<()> {
    for node in descendants(arena, root) {
        if let Some(name) = name(arena, node) {
            println!(rt; "{name}")?;
        }
    }
    Ok(())
}
