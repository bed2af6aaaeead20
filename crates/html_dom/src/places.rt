// Where a node stands.
ghost use Rattle.std.specs.Prelude.{◌≡◌, ◌<◌, length, nat_lt, true};
ghost use Rattle.html_arena.specs.Walking.{IsPlaced};
ghost use Rattle.html_dom.specs.Places.{ends_within, holder, is_placed, meets_within, would_cycle};

use html_arena::{Arena, NodeId};

/// Whether there is such a node.
pub fn is_node(arena: &Arena, node: NodeId) -> bool
    ensures { result ≡ nat_lt node (length arena.now.labels) }
{
    (node.index() as u64) < arena.len()
}

/// Whether there is such a node, it is no template's Contents node, and it does not stand below itself, as a template can by way of its contents where
/// it was linked there by `Arena::append`. Of a page that was parsed, and edited by the calls here, each other node is placed.
pub fn is_placed(arena: &Arena, node: NodeId) -> bool
    ensures value { result ≡ is_placed arena.now node }
    ensures yes { result ≡ true → IsPlaced arena.now node }
    ensures no { IsPlaced arena.now node → result ≡ true }
{
    arena.forest();
    has_end(arena, node)
}

fn has_end(arena: &Arena, node: NodeId) -> bool
    ensures { result ≡ is_placed arena.now node }
{
    is_node(arena, node) && arena.host(node).is_none() && ends_above(arena, node)
}

/// Whether the nodes above come to an end.
fn ends_above(arena: &Arena, node: NodeId) -> bool
    requires { node < length arena.now.labels }
    ensures { result ≡ ends_within (length arena.now.labels) arena.now node }
{
    let mut at = node;
    let mut left = arena.len();
    'climb: while left > 0 {
        match arena.above(at) {
            None => return true,
            Some(above) => at = above,
        }
        left -= 1;
    }
    false
}

/// The template whose contents a node is, or the node itself.
fn holder(arena: &Arena, node: NodeId) -> NodeId
    requires { node < length arena.now.labels }
    ensures value { result ≡ holder arena.now node }
    ensures node { result < length arena.now.labels }
{
    arena.forest();
    match arena.host(node) {
        Some(template) => template,
        None => node,
    }
}

/// Whether `child` would stand below itself if it were linked below `parent`: it is `parent`, or the template whose contents that is, or stands above it,
/// by way of a template's contents too. So it is too where the nodes above `parent` come to no end.
pub fn would_cycle(arena: &Arena, child: NodeId, parent: NodeId) -> bool
    requires { parent < length arena.now.labels }
    ensures { result ≡ would_cycle arena.now child parent }
{
    let mut at = holder(arena, parent);
    let mut left = arena.len();
    'climb: while left > 0 {
        if child == at {
            return true;
        }
        match arena.above(at) {
            None => return false,
            Some(above) => at = above,
        }
        left -= 1;
    }
    true
}
