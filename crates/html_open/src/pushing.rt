// What a push onto the list displaces, and what it costs.
ghost use Rattle.std.specs.Prelude.{◌≡◌, ℕ, ◌+◌, ◌<◌, ◌≤◌, IfSome, count_by, length, sum_by, None, false};
ghost use Rattle.std.specs.List.{list_any};
ghost use Rattle.html_arena.specs.Weight.{capped};
ghost use Rattle.html_open.specs.Entries.{IsDisplaced, IsFirst, alike, comparisons, is_marker, nodes_of};
ghost use Rattle.html_open.specs.Lists.{IsBelow, above, looked, steps_after};
ghost use Rattle.html_open.specs.Opened.{AreNodes};
ghost use Rattle.html_open.specs.Searches.{IsEntry};

use crate::attributes::{pairs, same_attrs};
use crate::entry::Entry;
use crate::search::{SoughtEntry, after, last_entry, steps_to};
use html_arena::{Arena, NodeId};

/// How many equal entries there may be after the last marker.
const MOST_EQUAL: usize = 3;

/// The index of the entry that goes when an element is pushed.
pub(crate) fn displaced(entries: &[Entry], arena: &Arena, node: NodeId) -> Option<usize>
    requires nodes_in { AreNodes arena.now (nodes_of entries.now) }
    requires node_in { node < length arena.now.labels }
    ensures { IsDisplaced arena.now node entries.now result }
{
    let start = after(
        entries.len(),
        last_entry(entries, arena, &SoughtEntry::Marker),
    );
    let recent = &entries[start..];
    if count_alike(recent, arena, node) < MOST_EQUAL {
        return None;
    }
    match first_alike(recent, arena, node) {
        None => None,
        Some(index) => Some(start + index),
    }
}

/// The steps of a push apart from comparisons: for the entries back to the marker, and for those from the displaced one on.
pub(crate) fn base_steps(entries: &[Entry], arena: &Arena, displaced: Option<usize>) -> u128
    requires nodes_in { AreNodes arena.now (nodes_of entries.now) }
    requires index_in { IsBelow (length entries.now) displaced }
    ensures { result ≡ 1 + looked is_marker entries.now + steps_after (length entries.now) displaced }
{
    let looked = steps_to(
        entries.len(),
        last_entry(entries, arena, &SoughtEntry::Marker),
    );
    1 + looked + steps_from(entries.len(), displaced)
}

/// The elements from the one at an index up to the last of `len`; none where there is none.
fn steps_from(len: usize, index: Option<usize>) -> u128
    requires { IsBelow len index }
    ensures value { result ≡ steps_after len index }
    ensures small { result ≤ len }
{
    match index {
        None => 0,
        Some(index) => (len - index) as u128,
    }
}

/// The comparisons of attributes with those of the entries after the last marker.
pub(crate) fn compared(entries: &[Entry], arena: &Arena, node: NodeId) -> u128
    requires nodes_in { AreNodes arena.now (nodes_of entries.now) }
    requires node_in { node < length arena.now.labels }
    ensures { result ≡ capped (sum_by (comparisons arena.now node) (above is_marker entries.now)) }
{
    let start = after(
        entries.len(),
        last_entry(entries, arena, &SoughtEntry::Marker),
    );
    sum_of_pairs(&entries[start..], arena, node)
}

/// The comparisons of attributes with those of all these entries.
fn sum_of_pairs(entries: &[Entry], arena: &Arena, node: NodeId) -> u128
    requires nodes_in { AreNodes arena.now (nodes_of entries.now) }
    requires node_in { node < length arena.now.labels }
    ensures { result ≡ capped (sum_by (comparisons arena.now node) entries.now) }
{
    let mut sum: u128 = 0;
    for entry in entries {
        sum = sum.saturating_add(pairs_with(*entry, arena, node));
    }
    sum
}

/// The comparisons of attributes with those of an entry, if it has the name.
fn pairs_with(entry: Entry, arena: &Arena, node: NodeId) -> u128
    requires entry_in { IsEntry arena.now entry }
    requires node_in { node < length arena.now.labels }
    ensures { result ≡ comparisons arena.now node entry }
{
    match entry {
        Entry::Marker => 0,
        Entry::Node(other) => {
            if arena.is_named(other, arena.tag(node)) {
                pairs(arena, node, other)
            } else {
                0
            }
        }
    }
}

/// Whether an entry has the name and the set of attributes of an element.
fn is_alike(entry: Entry, arena: &Arena, node: NodeId) -> bool
    requires entry_in { IsEntry arena.now entry }
    requires node_in { node < length arena.now.labels }
    ensures { result ≡ alike arena.now node entry }
{
    match entry {
        Entry::Marker => false,
        Entry::Node(other) => {
            arena.is_named(other, arena.tag(node)) && same_attrs(arena, node, other)
        }
    }
}

/// How many of the entries have the name and the set of attributes of an element.
fn count_alike(entries: &[Entry], arena: &Arena, node: NodeId) -> usize
    requires nodes_in { AreNodes arena.now (nodes_of entries.now) }
    requires node_in { node < length arena.now.labels }
    ensures { result ≡ count_by (alike arena.now node) entries.now }
{
    let mut count = 0;
    for entry in entries {
        if is_alike(*entry, arena, node) {
            count += 1;
        }
    }
    count
}

/// The index of the first entry that has the name and the set of attributes of an element.
fn first_alike(entries: &[Entry], arena: &Arena, node: NodeId) -> Option<usize>
    requires nodes_in { AreNodes arena.now (nodes_of entries.now) }
    requires node_in { node < length arena.now.labels }
    ensures none { result ≡ None → list_any (alike arena.now node) entries.now ≡ false }
    ensures first { IfSome result (λ i. IsFirst (alike arena.now node) entries.now i) }
{
    for index in 0..entries.len() {
        if is_alike(entries[index], arena, node) {
            return Some(index);
        }
    }
    None
}
