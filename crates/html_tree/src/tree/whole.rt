// The tree as a whole.
ghost use Rattle.std.specs.Prelude.{◌≡◌, length};
ghost use Rattle.html_arena.specs.Tree.{WellFormed};
ghost use Rattle.html_open.specs.Marking.{bare};
ghost use Rattle.html_tree.specs.Forests.{IsForest};

use super::OpenTree;
use html_arena::{Arena, Limits, NodeId};

impl OpenTree {
    /// The number of nodes, which is that of the next node, too.
    pub fn node_count(&self) -> u64
        ensures count { result ≡ length self.now.tree.labels }
    {
        self.arena.len()
    }

    /// The limits to which the tree keeps, where there are any.
    pub fn limits(&self) -> Option<Limits>
        ensures value { result ≡ self.now.tree.limits }
    {
        self.arena.limits()
    }

    /// How many steps were counted so far.
    pub fn steps(&self) -> u128
        ensures value { result ≡ self.now.steps }
    {
        self.arena.meter().steps
    }

    /// What is always true of the nodes: a law.
    pub fn forest(&self)
        ensures forest { IsForest self.now.tree }
    {
        self.arena.forest();
    }

    /// The body that a frameset took the place of, if one did.
    pub fn detached_body(&self) -> Option<NodeId>
        ensures body { result ≡ self.now.detached }
    {
        self.detached
    }

    /// The nodes, with the steps that were counted; the marks tell what was open and listed.
    pub fn into_arena(self) -> Arena
        ensures nodes { bare result ≡ self.tree }
        ensures well_formed { WellFormed result }
        ensures steps { result.steps ≡ self.steps }
    {
        self.arena.forest();
        self.arena
    }
}
