// The links of one node in 20 bytes: no arena has a node of the greatest number of 32 bits, so that number stands for none.
ghost use Rattle.std.specs.Prelude.{◌≡◌, ◌-◌, ◌^◌, Option};
ghost use Rattle.html_arena.specs.Links.{IsBelow, blank};
ghost use Rattle.html_arena.specs.Packed.{unpacked};

use super::{Links, NodeId};
use std::marker::Model;

/// The number that stands for no node.
const NONE: u32 = u32::MAX;

/// Links as numbers, seen as links.
#[derive(Drop)]
pub(crate) struct PackedLinks {
    parent: u32,
    first_child: u32,
    last_child: u32,
    previous: u32,
    next: u32,
}

impl Model for PackedLinks {
    ghost use Rattle.html_arena.specs.declared.links.Links.{Links};

    ghost Value = { Links };

    ghost use Rattle.html_arena.specs.Packed.{unpacked};

    ghost view = { λ p. record { parent = unpacked p.parent; first_child = unpacked p.first_child; last_child = unpacked p.last_child; previous = unpacked p.previous; next = unpacked p.next } };
}

fn pack(link: Option<NodeId>) -> u32
    requires { IsBelow (2 ^ 32 - 1) link }
    ensures { unpacked result ≡ link }
{
    match link {
        Some(node) => node.index() as u32,
        None => NONE,
    }
}

fn unpack(packed: u32) -> Option<NodeId>
    ensures { result ≡ unpacked packed }
{
    if packed == NONE {
        None
    } else {
        Some(NodeId::at(packed as usize))
    }
}

impl PackedLinks {
    /// The links of a node that stands alone.
    pub(crate) fn none() -> PackedLinks
        ensures { result ≡ blank }
    {
        PackedLinks {
            parent: NONE,
            first_child: NONE,
            last_child: NONE,
            previous: NONE,
            next: NONE,
        }
    }

    pub(crate) fn unpacked(&self) -> Links
        ensures { result ≡ self.now }
    {
        Links {
            parent: unpack(self.parent),
            first_child: unpack(self.first_child),
            last_child: unpack(self.last_child),
            previous: unpack(self.previous),
            next: unpack(self.next),
        }
    }

    pub(crate) fn set_parent(&mut self, to: Option<NodeId>)
        requires { IsBelow (2 ^ 32 - 1) to }
        ensures { self.new ≡ record self.old { parent = to } }
    {
        self.parent = pack(to);
    }

    pub(crate) fn set_first_child(&mut self, to: Option<NodeId>)
        requires { IsBelow (2 ^ 32 - 1) to }
        ensures { self.new ≡ record self.old { first_child = to } }
    {
        self.first_child = pack(to);
    }

    pub(crate) fn set_last_child(&mut self, to: Option<NodeId>)
        requires { IsBelow (2 ^ 32 - 1) to }
        ensures { self.new ≡ record self.old { last_child = to } }
    {
        self.last_child = pack(to);
    }

    pub(crate) fn set_previous(&mut self, to: Option<NodeId>)
        requires { IsBelow (2 ^ 32 - 1) to }
        ensures { self.new ≡ record self.old { previous = to } }
    {
        self.previous = pack(to);
    }

    pub(crate) fn set_next(&mut self, to: Option<NodeId>)
        requires { IsBelow (2 ^ 32 - 1) to }
        ensures { self.new ≡ record self.old { next = to } }
    {
        self.next = pack(to);
    }
}
