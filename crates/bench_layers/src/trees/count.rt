//! What a walk meets.

use crate::trees::build::is_root;
use html_arena::{Arena, Event, NodeId, Show, Walk};

#[derive(Clone, Copy)]
pub struct Counts {
    /// The nodes that were entered.
    pub entered: u64,
    /// The greatest number of them that were entered and not left.
    pub depth: u64,
}

/// Walks through all that stands below a node, if that is a root.
pub(crate) fn count(arena: &Arena, root: NodeId) -> Counts {
    let mut counts = Counts {
        entered: 0,
        depth: 0,
    };
    if !is_root(arena, root) {
        return counts;
    }
    let mut open: u64 = 0;
    for event in Walk::new(arena, Show::All, root) {
        match event {
            Event::Enter(_) => {
                counts.entered = counts.entered.saturating_add(1);
                open = open.saturating_add(1);
                counts.depth = counts.depth.max(open);
            }
            Event::Leave(_) => open = open.saturating_sub(1),
        }
    }
    counts
}
