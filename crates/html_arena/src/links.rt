// The links of the nodes of a tree: each node names its parent, its first and last child, and its neighbours.
ghost use Rattle.std.specs.Prelude.{◌≡◌, ℕ, ◌+◌, ◌^◌, ◌<◌, ◌≤◌, vec_len, None, Some, Option};

use std::marker::Model;

/// The number of a node, counted from 0 in the order in which nodes are made.
#[derive(PartialEq, Eq, PartialOrd, Ord, Hash, Debug)]
pub struct NodeId(u64);

impl Model for NodeId {
    ghost Value = { ℕ };

    ghost view = { λ id. id.0 };

    ghost inverse = { λ n. record { 0 = n } };
}

impl Clone for NodeId {
    ghost use Rattle.std.specs.Prelude.{IfOk};

    ghost is_clone = { λ id copy. copy ≡ id };

    fn clone(&self) -> Result<Self, std::alloc::AllocError>
        ensures cases { IfOk result (λ copy. copy ≡ self.now) }
    {
        Ok(*self)
    }
}

impl Copy for NodeId {}

impl NodeId {
    /// The number, as an index.
    pub fn index(self) -> usize
        ensures { result ≡ self }
    {
        self.0 as usize
    }

    /// The node of this number.
    pub fn at(index: usize) -> NodeId
        ensures { result ≡ index }
    {
        NodeId(index as u64)
    }
}

/// The links of one node.
#[derive(Clone, Copy)]
pub(crate) struct Links {
    pub(crate) parent: Option<NodeId>,
    pub(crate) first_child: Option<NodeId>,
    pub(crate) last_child: Option<NodeId>,
    pub(crate) previous: Option<NodeId>,
    pub(crate) next: Option<NodeId>,
}

// Links in half the room.
pub(crate) mod packed;

// The writes of links, each as a function of every node's number.
pub(crate) mod writes;
