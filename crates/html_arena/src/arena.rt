// The nodes of a page: what they are, and their links.
ghost use Rattle.std.specs.Prelude.{◌≡◌, ◌+◌, ◌^◌, ◌<◌, [], length, Some, None, false, true};
ghost use Rattle.std.specs.List.{sum_by};
ghost use Rattle.html_arena.specs.Budget.{IsWithin, budget};
ghost use Rattle.html_arena.specs.Tree.{Tree, WellFormed, empty_tree, more};
ghost use Rattle.html_arena.specs.Weight.{capped, weight};

use crate::data::NodeData;
use crate::links::packed::PackedLinks;
use crate::marks::Marks;
use std::alloc::{AllocError, Global};
use std::marker::Model;
use thiserror::Error;

mod editing;
mod filling;
mod linking;
mod making;
mod reading;

/// Why a node was not made or changed; the arena is then as it was.
#[derive(Clone, Copy, Debug, PartialEq, Eq, Error)]
pub enum ArenaError {
    #[error("out of memory")]
    OutOfMemory,
    #[error("the next node would pass the limit on nodes")]
    NodeBudget,
    #[error("the next code points would pass the limit on held code points")]
    HeldBudget,
}

impl From<AllocError> for ArenaError {
    ghost use Rattle.std.specs.Prelude.{◌≡◌};
    ghost use Rattle.html_arena.specs.declared.arena.ArenaError.TheVariants.{OutOfMemory};

    ghost from_gives = { λ _ e. e ≡ OutOfMemory };

    fn from(_e: AllocError) -> ArenaError {
        ArenaError::OutOfMemory
    }
}

/// How many nodes and how many held code points an arena may have, and how many code points an input and how many counted steps a run.
#[derive(Clone, Copy, Debug, PartialEq, Eq)]
pub struct Limits {
    pub nodes: u64,
    pub held: u64,
    pub code_points: u64,
    pub steps: u64,
}

impl Limits {
    /// Limits that no page passes.
    pub const NONE: Limits = Limits {
        nodes: u64::MAX,
        held: u64::MAX,
        code_points: u64::MAX,
        steps: u64::MAX,
    };
}

/// What the work on an arena has cost so far; it stays at the greatest number once there.
#[derive(Clone, Copy, Debug, PartialEq, Eq)]
pub struct Meter {
    pub steps: u128,
}

/// A forest of nodes, seen as the columns of a tree: labels, parents, lists of children, and marks.
#[derive(Drop)]
pub struct Arena {
    links: Vec<PackedLinks>,
    nodes: Vec<NodeData>,
    marks: Vec<Marks>,
    held: u128,
    steps: u128,
    limits: Option<Limits>,
}

impl Model for Arena {
    ghost use Rattle.html_arena.specs.Tree.{Tree};

    ghost Value = { Tree };

    ghost use Rattle.html_arena.specs.Whole.{IsArena, tree_of};

    ghost view = { λ a. tree_of a.links.items a.nodes.items a.marks.items a.held a.steps a.limits };

    ghost invariant = { λ a. IsArena a.links.items a.nodes.items a.marks.items a.held a.limits };
}

impl Arena {
    /// The bytes that a node takes in the arena's own lists, without the texts and attributes that it points to.
    pub const NODE_BYTES: usize = size_of::<PackedLinks>()
        + size_of::<NodeData>()
        + size_of::<Marks>();

    /// An arena without nodes and without a budget, which takes no memory.
    pub fn new(alloc: Global) -> Arena
        ensures { result ≡ empty_tree None }
    {
        Arena {
            links: Vec::new(alloc),
            nodes: Vec::new(alloc),
            marks: Vec::new(alloc),
            held: 0,
            steps: 0,
            limits: None,
        }
    }

    /// An arena without nodes, within limits, which takes no memory.
    pub fn within(alloc: Global, limits: Limits) -> Arena
        ensures { result ≡ empty_tree (Some limits) }
    {
        Arena {
            links: Vec::new(alloc),
            nodes: Vec::new(alloc),
            marks: Vec::new(alloc),
            held: 0,
            steps: 0,
            limits: Some(limits),
        }
    }

    /// The number of nodes.
    pub fn len(&self) -> u64
        ensures { result ≡ length self.now.labels }
    {
        self.nodes.len() as u64
    }

    /// Whether there is no node.
    pub fn is_empty(&self) -> bool
        ensures yes { result ≡ true → self.now.labels ≡ [] }
        ensures no { result ≡ false → 0 < length self.now.labels }
    {
        self.nodes.is_empty()
    }

    /// The code points of the names, attributes, texts, comments and doctype ids of all nodes, clones as if each had its own.
    pub fn held(&self) -> u128
        ensures { result ≡ self.now.held }
    {
        self.held
    }

    /// The limits, where the arena has any.
    pub fn limits(&self) -> Option<Limits>
        ensures { result ≡ self.now.limits }
    {
        self.limits
    }

    /// What the work on the arena has cost so far.
    pub fn meter(&self) -> Meter
        ensures { result.steps ≡ self.now.steps }
    {
        Meter { steps: self.steps }
    }

    /// Charges steps, up to the greatest number.
    pub fn charge(&mut self, steps: u128)
        ensures { self.new ≡ record self.old { steps = more self.old.steps steps } }
    {
        self.steps = self.steps.saturating_add(steps);
    }

    /// A law of every arena: its nodes form a forest, and what they hold is counted.
    pub fn forest(&self)
        ensures well_formed { WellFormed self.now }
        ensures held { self.now.held ≡ capped (sum_by weight self.now.labels) }
    {
        let _ = &self.links;
    }

    /// A law of every arena: it has no more nodes than its limits allow, and these hold no more code points; and it has fewer than 2^32 nodes.
    pub fn limited(&self)
        ensures within { IsWithin self.now }
        ensures few { length self.now.labels < 2 ^ 32 }
    {
        let _ = &self.limits;
    }

    /// A law of every arena: its counts are numbers of 128 bits.
    fn counts(&self)
        ensures held { self.now.held < 2 ^ 128 }
        ensures steps { self.now.steps < 2 ^ 128 }
    {
        let _held = self.held;
        let _steps = self.steps;
    }

    /// Whether so many more nodes and held code points are within the limits.
    fn room_for(&self, nodes: u128, held: u128) -> Result<(), ArenaError>
        requires { nodes < 4 }
        ensures { result ≡ budget self.now nodes held }
    {
        match self.limits {
            None => Ok(()),
            Some(limits) => {
                if self.nodes.len() as u128 + nodes > limits.nodes as u128 {
                    Err(ArenaError::NodeBudget)
                } else if self.held.saturating_add(held) > limits.held as u128 {
                    Err(ArenaError::HeldBudget)
                } else {
                    Ok(())
                }
            }
        }
    }
}
