//! What nodes are, and how they are linked.

ghost use Rattle.std.specs.Prelude.{◌≡◌, ◌<◌, ℕ, Option, None, Some, length};
ghost use Rattle.html_arena.specs.Data.{attrs_in};
ghost use Rattle.html_arena.specs.Tree.{label_of};
ghost use Rattle.zilqumet_c.specs.Reads.{IfNode, IsLinkedTo, kind_number};
ghost use Rattle.zilqumet_rows.specs.Entries.{number_of};

use crate::held::Held;
use crate::slot::Slot;
use html_parser::{Arena, Kind, NodeId};
use std::alloc::Global;
use zilqumet_rows::{NO_NODE, number};

const PARENT: u32 = 0;

const FIRST_CHILD: u32 = 1;

const LAST_CHILD: u32 = 2;

const NEXT: u32 = 3;

const PREVIOUS: u32 = 4;

const CONTENTS: u32 = 5;

const HOST: u32 = 6;

/// The kind of a node: 1 a document, 2 the contents of a template, 3 an element, 4 a text, 5 a comment, 6 a doctype; 0 where there is no
/// such node.
#[unsafe(no_mangle)]
pub extern "C" fn proved_kind_of(alloc: Global, page: &mut Slot, node: u64) -> u32
    ensures kept { page.new.value ≡ page.old.value }
    ensures kind { IfNode page.old.value node (result ≡ 0) (λ t. result ≡ kind_number t.arena node) }
{
    let held = page.take(alloc);
    let kind = match &held {
        Some(held) => kind_of(held.as_ref(), node),
        None => 0,
    };
    page.restore(alloc, held);
    kind
}

/// The node that a node is linked to in one of seven ways, or the greatest number of 64 bits where there is none.
#[unsafe(no_mangle)]
pub extern "C" fn proved_link(alloc: Global, page: &mut Slot, link: u32, node: u64) -> u64
    ensures kept { page.new.value ≡ page.old.value }
    ensures link { IfNode page.old.value node (result ≡ u64.MAX) (λ t. (to : Option ℕ) × (result ≡ number_of to) × IsLinkedTo t.arena link node to) }
{
    let held = page.take(alloc);
    let linked = match &held {
        Some(held) => link_of(held.as_ref(), link, node),
        None => NO_NODE,
    };
    page.restore(alloc, held);
    linked
}

/// How many attributes a node has.
#[unsafe(no_mangle)]
pub extern "C" fn proved_attr_count(alloc: Global, page: &mut Slot, node: u64) -> u64
    ensures kept { page.new.value ≡ page.old.value }
    ensures count { IfNode page.old.value node (result ≡ 0) (λ t. result ≡ length (attrs_in (label_of t.arena node))) }
{
    let held = page.take(alloc);
    let count = match &held {
        Some(held) => attr_count_of(held.as_ref(), node),
        None => 0,
    };
    page.restore(alloc, held);
    count
}

/// The number of a kind.
pub(crate) fn kind_number(arena: &Arena, node: NodeId) -> u32
    requires { node < length arena.now.labels }
    ensures { result ≡ kind_number arena.now node }
{
    match arena.kind(node) {
        Kind::Document => 1,
        Kind::Contents => 2,
        Kind::Element => 3,
        Kind::Text => 4,
        Kind::Comment => 5,
        Kind::Doctype => 6,
    }
}

/// The kind of a node.
fn kind_of(held: &Held, node: u64) -> u32
    ensures { IfNode (Some held.now) node (result ≡ 0) (λ t. result ≡ kind_number t.arena node) }
{
    let Held::Page(page) = held else {
        return 0;
    };
    let arena = &page.tree.arena;
    if node >= arena.len() {
        return 0;
    }
    kind_number(arena, NodeId::at(node as usize))
}

/// The node that a node is linked to.
fn link_of(held: &Held, link: u32, node: u64) -> u64
    ensures { IfNode (Some held.now) node (result ≡ u64.MAX) (λ t. (to : Option ℕ) × (result ≡ number_of to) × IsLinkedTo t.arena link node to) }
{
    let Held::Page(page) = held else {
        return NO_NODE;
    };
    let arena = &page.tree.arena;
    if node >= arena.len() {
        return NO_NODE;
    }
    number(linked(arena, link, NodeId::at(node as usize)))
}

/// The node that a node is linked to.
fn linked(arena: &Arena, link: u32, node: NodeId) -> Option<NodeId>
    requires { node < length arena.now.labels }
    ensures { IsLinkedTo arena.now link node result }
{
    match link {
        PARENT => arena.parent(node),
        FIRST_CHILD => arena.first_child(node),
        LAST_CHILD => arena.last_child(node),
        NEXT => arena.next(node),
        PREVIOUS => arena.previous(node),
        CONTENTS => arena.contents(node),
        HOST => arena.host(node),
        _ => None,
    }
}

/// How many attributes a node has.
fn attr_count_of(held: &Held, node: u64) -> u64
    ensures { IfNode (Some held.now) node (result ≡ 0) (λ t. result ≡ length (attrs_in (label_of t.arena node))) }
{
    let Held::Page(page) = held else {
        return 0;
    };
    let arena = &page.tree.arena;
    if node >= arena.len() {
        return 0;
    }
    arena.attrs(NodeId::at(node as usize)).len() as u64
}
