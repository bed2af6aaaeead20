//! Many nodes in one call.

ghost use Rattle.std.specs.Prelude.{◌≡◌, ◌≤◌, ◌<◌, ◌-◌, Some, MatchOption, length, min};
ghost use Rattle.zilqumet_c.specs.Kept.{unboxed};
ghost use Rattle.zilqumet_c.specs.Reads.{AreRows, IfPage, IsRow, tree_in};

use crate::held::Held;
use crate::links::kind_number;
use crate::slot::Slot;
use html_parser::{Arena, NodeId};
use std::alloc::Global;
use zilqumet_rows::{Text, number, text_of};

/// A node, its links, and its texts.
#[repr(C)]
#[derive(Clone, Copy)]
pub struct ZqRow {
    pub parent: u64,
    pub first_child: u64,
    pub next: u64,
    pub contents: u64,
    pub attrs: u64,
    pub name: Text,
    pub text: Text,
    pub kind: u32,
}

/// Writes rows of the nodes from a number on, as many as there are and fit, and answers how many.
#[unsafe(no_mangle)]
pub extern "C" fn proved_rows(
    alloc: Global,
    page: &mut Slot,
    from: u64,
    rows: &mut [ZqRow],
) -> usize
    ensures kept { page.new.value ≡ page.old.value }
    ensures few { result ≤ length rows.new }
    ensures count { MatchOption (tree_in page.old.value) (result ≡ 0) (λ t. result ≡ min (length t.arena.labels - from) (length rows.new)) }
    ensures rows { IfPage page.old.value (λ t. AreRows t.arena from result rows.new) }
{
    let held = page.take(alloc);
    let count = rows_held(&held, from, rows);
    page.restore(alloc, held);
    count
}

/// Writes rows of the nodes from a number on, if a page is held.
fn rows_held(held: &Option<Box<Held>>, from: u64, rows: &mut [ZqRow]) -> usize
    ensures few { result ≤ length rows.new }
    ensures count { MatchOption (tree_in (unboxed held.now)) (result ≡ 0) (λ t. result ≡ min (length t.arena.labels - from) (length rows.new)) }
    ensures rows { IfPage (unboxed held.now) (λ t. AreRows t.arena from result rows.new) }
{
    match held {
        Some(held) => rows_of(held.as_ref(), from, rows),
        None => 0,
    }
}

/// Writes rows of the nodes from a number on.
fn rows_of(held: &Held, from: u64, rows: &mut [ZqRow]) -> usize
    ensures few { result ≤ length rows.new }
    ensures count { MatchOption (tree_in (Some held.now)) (result ≡ 0) (λ t. result ≡ min (length t.arena.labels - from) (length rows.new)) }
    ensures rows { IfPage (Some held.now) (λ t. AreRows t.arena from result rows.new) }
{
    let Held::Page(page) = held else {
        return 0;
    };
    let arena = &page.tree.arena;
    if from >= arena.len() {
        return 0;
    }
    fill(arena, from, rows)
}

/// Writes rows of the nodes from a number on.
fn fill(arena: &Arena, from: u64, rows: &mut [ZqRow]) -> usize
    requires { from < length arena.now.labels }
    ensures count { result ≡ min (length arena.now.labels - from) (length rows.new) }
    ensures rows { AreRows arena.now from result rows.new }
{
    let all = arena.len();
    let mut node = from;
    let mut count = 0;
    'rows: while node < all && count < rows.len() {
        rows[count] = row_of(arena, NodeId::at(node as usize));
        node += 1;
        count += 1;
    }
    count
}

/// The row of a node.
fn row_of(arena: &Arena, node: NodeId) -> ZqRow
    requires { node < length arena.now.labels }
    ensures { IsRow arena.now node result }
{
    ZqRow {
        parent: number(arena.parent(node)),
        first_child: number(arena.first_child(node)),
        next: number(arena.next(node)),
        contents: number(arena.contents(node)),
        attrs: arena.attrs(node).len() as u64,
        name: text_of(arena.name(node).as_bytes()),
        text: text_of(arena.text(node).as_bytes()),
        kind: kind_number(arena, node),
    }
}
