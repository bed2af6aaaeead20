// An entry of the list of active formatting elements.
ghost use Rattle.std.specs.Prelude.{◌≡◌, Some};
ghost use Rattle.html_open.specs.Entries.{is_marker, is_node, node_in};

use html_arena::NodeId;

/// An entry: a marker, or an element.
#[derive(Clone, Copy)]
pub enum Entry {
    Marker,
    Node(NodeId),
}

impl Entry {
    /// The element, if the entry is no marker.
    pub(crate) fn node(self) -> Option<NodeId>
        ensures { result ≡ node_in (Some self) }
    {
        match self {
            Entry::Marker => None,
            Entry::Node(node) => Some(node),
        }
    }

    pub(crate) fn is_marker(self) -> bool
        ensures { result ≡ is_marker self }
    {
        match self {
            Entry::Marker => true,
            Entry::Node(_) => false,
        }
    }

    /// Whether the entry is that of an element.
    pub(crate) fn is_of(self, node: NodeId) -> bool
        ensures { result ≡ is_node node self }
    {
        match self {
            Entry::Marker => false,
            Entry::Node(other) => node == other,
        }
    }
}
