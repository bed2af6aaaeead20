// The clones of a round: of which elements they are made, and how.
ghost use Rattle.std.specs.Prelude.{◌≡◌, ◌+◌, ◌-◌, ◌<◌, [], ◌∷◌, ◌++◌, IfErr, IfOk, OnErr, OnOk, length, true};
ghost use Rattle.html_names.specs.Sets.{is_formatting};
ghost use Rattle.html_arena.specs.declared.marks.Mark.TheVariants.{InList};
ghost use Rattle.html_arena.specs.Tree.{marked, tag_at};
ghost use Rattle.html_open.specs.Adopting.{originals};
ghost use Rattle.html_open.specs.Cloning.{AreCloned, AreFormatting, IsCut, IsCutShort};
ghost use Rattle.html_open.specs.Marking.{IsCounted};
ghost use Rattle.html_open.specs.Opened.{AreNodes};
ghost use Rattle.html_open.specs.ReopenedEntry.{IsRefused};

use html_arena::{Arena, ArenaError, Mark, NewNode, NodeId};
use std::marker::Model;

/// How many of the elements between the formatting element and the furthest block may be cloned.
const MOST_CLONED: usize = 3;

/// Elements to be cloned, kept without memory of their own.
#[derive(Drop)]
pub(crate) struct Originals {
    nodes: [NodeId; MOST_CLONED],
    len: usize,
}

impl Model for Originals {
    ghost use Rattle.std.specs.Prelude.{ℕ, List, ◌≤◌, take};

    ghost Value = { List ℕ };

    ghost view = { λ o. take o.len o.nodes };

    ghost invariant = { λ o. o.len ≤ 3 };
}

impl Originals {
    fn new() -> Originals
        ensures { result ≡ [] }
    {
        Originals {
            nodes: [NodeId::at(0); MOST_CLONED],
            len: 0,
        }
    }

    fn push(&mut self, node: NodeId)
        requires { length self.old < 3 }
        ensures { self.new ≡ self.old ++ node ∷ [] }
    {
        self.nodes[self.len] = node;
        self.len += 1;
    }

    pub(crate) fn as_slice(&self) -> &[NodeId]
        ensures { result.now ≡ self.now }
    {
        &self.nodes[..self.len]
    }
}

/// Of the last three of the elements between the formatting element and the furthest block those in the list, the last first.
pub(crate) fn elements_to_clone(inner: &[NodeId], arena: &Arena) -> Originals
    requires { AreNodes arena.now inner.now }
    ensures { result ≡ originals (marked arena.now InList) inner.now }
{
    let from = inner.len().saturating_sub(MOST_CLONED);
    let mut chosen = Originals::new();
    let mut at = inner.len();
    while at > from {
        at -= 1;
        let node = inner[at];
        if arena.marked(node, Mark::InList) {
            chosen.push(node);
        }
    }
    chosen
}

/// Makes a clone of each element, in order, and one of the formatting element after them.
pub(crate) fn clone_all(
    arena: &mut Arena,
    originals: &[NodeId],
    formatting: NodeId,
) -> Result<NodeId, ArenaError>
    requires originals { AreFormatting arena.old originals.now }
    requires formatting { AreFormatting arena.old (formatting ∷ []) }
    ensures number { IfOk result (λ id. id ≡ length arena.old.labels + length originals.now) }
    ensures cloned { OnOk result (AreCloned arena.old arena.new (originals.now ++ formatting ∷ [])) }
    ensures cut { IfErr result (λ e. IsCut arena.old arena.new (originals.now ++ formatting ∷ []) e) }
    ensures steps { IsCounted arena.old.steps arena.new.steps (length arena.new.labels - length arena.old.labels) (length arena.new.labels - length arena.old.labels) }
{
    make_clones(arena, originals)?;
    arena.forest();
    let clone = make_clone(arena, formatting)?;
    Ok(clone)
}

/// Makes a clone of each element, in order.
fn make_clones(arena: &mut Arena, originals: &[NodeId]) -> Result<(), ArenaError>
    requires { AreFormatting arena.old originals.now }
    ensures cloned { OnOk result (AreCloned arena.old arena.new originals.now) }
    ensures cut { IfErr result (λ e. IsCutShort arena.old arena.new originals.now e) }
    ensures steps { IsCounted arena.old.steps arena.new.steps (length arena.new.labels - length arena.old.labels) (length arena.new.labels - length arena.old.labels) }
{
    for node in originals {
        arena.forest();
        make_clone(arena, *node)?;
    }
    Ok(())
}

/// Makes a clone of an element.
fn make_clone(arena: &mut Arena, node: NodeId) -> Result<NodeId, ArenaError>
    requires node_in { node < length arena.old.labels }
    requires formatting { is_formatting (tag_at arena.old node) ≡ true }
    ensures number { IfOk result (λ id. id ≡ length arena.old.labels) }
    ensures cloned { OnOk result (AreCloned arena.old arena.new (node ∷ [])) }
    ensures same { OnErr result (arena.new ≡ arena.old) }
    ensures cause { IfErr result (λ e. IsRefused arena.old node e) }
    ensures steps { IsCounted arena.old.steps arena.new.steps (length arena.new.labels - length arena.old.labels) (length arena.new.labels - length arena.old.labels) }
{
    let clone = arena.make(NewNode::CloneOf(node))?;
    Ok(clone)
}
