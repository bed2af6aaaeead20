// The list of active formatting elements.
ghost use Rattle.std.specs.Prelude.{◌≡◌, ◌≢◌, ℕ, ◌+◌, ◌<◌, ◌∷◌, [], ◌++◌, length, Some, IfErr, IfSome, OnErr, OnOk, drop, false, take, true, ◌*◌, ◌≤◌};
ghost use Rattle.html_arena.specs.declared.marks.Mark.TheVariants.{InList};
ghost use Rattle.html_arena.specs.Siblings.{first_of};
ghost use Rattle.html_arena.specs.Tree.{more, with_marked};
ghost use Rattle.html_open.specs.Adopting.{IsFirstFree};
ghost use Rattle.html_open.specs.Lists.{IsBelow, below, looked};
ghost use Rattle.html_open.specs.Marking.{IsSameTree, all_unmarked, charged, unmarked};
ghost use Rattle.html_open.specs.Placing.{IsTarget};
ghost use Rattle.html_open.specs.Opened.{AreNodes, CanList, IsMarked, IsOpen, open_at};

use crate::entry::Entry;
use crate::pushing::{base_steps, compared, displaced};
use crate::search::{PRESENCE, SoughtEntry, index_or_first, last_entry, removal, steps_to};
use html_arena::{Arena, ArenaError, Mark, NodeId};
use html_names::Tag;
use std::alloc::Global;
use std::marker::Model;

/// The list of active formatting elements and markers, the latest entry last.
#[derive(Drop)]
pub struct FormattingList {
    pub(crate) entries: Vec<Entry>,
}

impl Model for FormattingList {
    ghost use Rattle.std.specs.Prelude.{List};
    ghost use Rattle.html_open.specs.declared.entry.Entry.{Entry};

    ghost Value = { List Entry };

    ghost view = { λ l. l.entries.items };
}

impl FormattingList {
    ghost use Rattle.html_open.specs.Entries.{IsTaken, cleared, displaced, has_node, is_marker, is_node, last_named, named_or_marker, node_at, nodes_of, push_steps, pushed, removal_steps, without_index, without_node};
    ghost use Rattle.html_open.specs.declared.entry.Entry.TheVariants.{Marker};

    /// An empty list, which takes no memory.
    pub fn new(alloc: Global) -> FormattingList
        ensures { result ≡ [] }
    {
        FormattingList {
            entries: Vec::new(alloc),
        }
    }

    /// Pushes onto the list of active formatting elements, by the Noah's Ark clause: where three entries after the last marker have the
    /// element's name and its set of attributes, the earliest of them goes. One step, one for each entry from the last back to the marker, the product of the numbers of attributes for each of
    /// these that has its name, and, where one goes, one for it and one for each entry that is shifted.
    pub fn push(&mut self, arena: &mut Arena, node: NodeId) -> Result<(), ArenaError>
        requires nodes_in { AreNodes arena.old (nodes_of self.old) }
        requires node_in { node < length arena.old.labels }
        ensures list { OnOk result (self.new ≡ pushed arena.old node self.old) }
        ensures tree { OnOk result (arena.new ≡ charged (with_marked (unmarked arena.old InList (displaced arena.old node self.old)) InList node true) (push_steps arena.old node self.old)) }
        ensures keeps { OnOk result ((s : _) → IsOpen (open_at s self.old arena.old) → CanList (open_at s self.old arena.old) node → IsOpen (open_at s self.new arena.new)) }
        ensures tree_kept { OnOk result (IsSameTree arena.old arena.new) }
        ensures steps { OnOk result (arena.new.steps ≡ more arena.old.steps (push_steps arena.old node self.old)) }
        ensures fewer { OnOk result ((x : ℕ) → x ≢ node → has_node x self.old ≡ false → has_node x self.new ≡ false) }
        ensures longer { OnOk result (length self.new ≤ length self.old + 1) }
        ensures first_free { OnOk result ((s : _) → first_of s ≢ Some node → IsFirstFree s self.old → IsFirstFree s self.new) }
        ensures same_list { OnErr result (self.new ≡ self.old) }
        ensures same_tree { OnErr result (arena.new ≡ arena.old) }
        ensures cause { IfErr result (λ e. e ≡ ArenaError.OutOfMemory) }
    {
        arena.forest();
        let displaced = displaced(self.entries.as_slice(), arena, node);
        let steps = base_steps(self.entries.as_slice(), arena, displaced);
        let compared = compared(self.entries.as_slice(), arena, node);
        if self.entries.push(Entry::Node(node)).is_err() {
            return Err(ArenaError::OutOfMemory);
        }
        self.take_out(arena, displaced);
        arena.set_mark(node, Mark::InList, true);
        arena.charge(steps);
        arena.charge(compared);
        Ok(())
    }

    /// Adds a marker. One step.
    pub fn marker(&mut self, arena: &mut Arena) -> Result<(), ArenaError>
        ensures list { OnOk result (self.new ≡ self.old ++ Marker ∷ []) }
        ensures tree { OnOk result (arena.new ≡ charged arena.old 1) }
        ensures keeps { OnOk result ((s : _) → IsOpen (open_at s self.old arena.old) → IsOpen (open_at s self.new arena.new)) }
        ensures fewer { OnOk result ((x : ℕ) → has_node x self.old ≡ false → has_node x self.new ≡ false) }
        ensures first_free { OnOk result ((s : _) → IsFirstFree s self.old → IsFirstFree s self.new) }
        ensures same_list { OnErr result (self.new ≡ self.old) }
        ensures same_tree { OnErr result (arena.new ≡ arena.old) }
        ensures cause { IfErr result (λ e. e ≡ ArenaError.OutOfMemory) }
    {
        if self.entries.push(Entry::Marker).is_err() {
            return Err(ArenaError::OutOfMemory);
        }
        arena.charge(1);
        Ok(())
    }

    /// Takes entries off up to the last marker, that included, or all where there is none. Two steps for each.
    pub fn clear_to_marker(&mut self, arena: &mut Arena)
        requires { AreNodes arena.old (nodes_of self.old) }
        ensures list { self.new ≡ below is_marker self.old }
        ensures tree { arena.new ≡ charged (all_unmarked arena.old InList (cleared self.old)) (2 * looked is_marker self.old) }
        ensures keeps { (s : _) → IsOpen (open_at s self.old arena.old) → IsOpen (open_at s self.new arena.new) }
        ensures tree_kept { IsSameTree arena.old arena.new }
        ensures steps { arena.new.steps ≡ more arena.old.steps (2 * looked is_marker self.old) }
        ensures fewer { (x : ℕ) → has_node x self.old ≡ false → has_node x self.new ≡ false }
        ensures first_free { (s : _) → IsFirstFree s self.old → IsFirstFree s self.new }
    {
        let entries = self.entries.as_slice();
        let found = last_entry(entries, arena, &SoughtEntry::Marker);
        let kept = index_or_first(entries.len(), found);
        arena.charge(2 * (entries.len() - kept) as u128);
        self.take_to(arena, kept);
    }

    /// Takes entries off until there are `len`.
    fn take_to(&mut self, arena: &mut Arena, len: usize)
        requires nodes_in { AreNodes arena.old (nodes_of self.old) }
        requires len_in { len ≤ length self.old }
        ensures list { self.new ≡ take len self.old }
        ensures tree { arena.new ≡ all_unmarked arena.old InList (nodes_of (drop len self.old)) }
        ensures keeps { (s : _) → IsOpen (open_at s self.old arena.old) → IsOpen (open_at s self.new arena.new) }
    {
        'taking: while self.len() > len {
            arena.forest();
            self.take_last(arena);
        }
    }

    /// The number of entries.
    fn len(&self) -> usize
        ensures { result ≡ length self.now }
    {
        self.entries.len()
    }

    /// Takes the last entry off, without a step.
    fn take_last(&mut self, arena: &mut Arena)
        requires nodes_in { AreNodes arena.old (nodes_of self.old) }
        requires some { 0 < length self.old }
        ensures { IsTaken self.old self.new arena.old arena.new }
    {
        let node = self.entries[self.entries.len() - 1].node();
        let _ = self.entries.pop();
        if let Some(node) = node {
            arena.set_mark(node, Mark::InList, false);
        }
    }

    /// The last entry of this name after the last marker. One step for each entry looked at.
    pub fn last_named(&self, arena: &mut Arena, name: Tag) -> Option<NodeId>
        requires { AreNodes arena.old (nodes_of self.now) }
        ensures node { result ≡ last_named arena.old name self.now }
        ensures member { IfSome result (λ x. has_node x self.now ≡ true) }
        ensures steps { arena.new ≡ charged arena.old (looked (named_or_marker arena.old name) self.now) }
        ensures keeps { (s : _) → IsOpen (open_at s self.now arena.old) → IsOpen (open_at s self.now arena.new) }
    {
        let entries = self.entries.as_slice();
        let found = last_entry(entries, arena, &SoughtEntry::NamedOrMarker(name));
        arena.charge(steps_to(entries.len(), found));
        match found {
            None => None,
            Some(index) => entries[index].node(),
        }
    }

    /// Takes out the entry of an element, if there is one. One step for each entry looked at, and where one is removed one for it and
    /// one for each that is shifted.
    pub fn remove(&mut self, arena: &mut Arena, node: NodeId)
        requires nodes_in { AreNodes arena.old (nodes_of self.old) }
        requires node_in { node < length arena.old.labels }
        ensures list { self.new ≡ without_node node self.old }
        ensures tree { arena.new ≡ charged (with_marked arena.old InList node false) (removal_steps (is_node node) self.old) }
        ensures keeps { (s : _) → IsOpen (open_at s self.old arena.old) → IsOpen (open_at s self.new arena.new) }
        ensures tree_kept { IsSameTree arena.old arena.new }
        ensures steps { arena.new.steps ≡ more arena.old.steps (removal_steps (is_node node) self.old) }
        ensures fewer { (x : ℕ) → has_node x self.old ≡ false → has_node x self.new ≡ false }
        ensures first_free { (s : _) → IsFirstFree s self.old → IsFirstFree s self.new }
    {
        arena.forest();
        let entries = self.entries.as_slice();
        let found = last_entry(entries, arena, &SoughtEntry::Node(node));
        let steps = removal(entries.len(), found);
        arena.set_mark(node, Mark::InList, false);
        arena.charge(steps);
        if let Some(index) = found {
            let _ = self.entries.remove(index);
        }
    }

    /// Whether an element is in the list, by its mark. One step.
    pub fn contains(&self, arena: &mut Arena, node: NodeId) -> bool
        requires node_in { node < length arena.old.labels }
        requires marked { IsMarked arena.old InList (nodes_of self.now) }
        ensures answer { result ≡ has_node node self.now }
        ensures steps { arena.new ≡ charged arena.old 1 }
        ensures keeps { (s : _) → IsOpen (open_at s self.now arena.old) → IsOpen (open_at s self.now arena.new) }
    {
        arena.charge(PRESENCE);
        arena.marked(node, Mark::InList)
    }

    /// Takes out the entry at an index, if there is one.
    fn take_out(&mut self, arena: &mut Arena, index: Option<usize>)
        requires nodes_in { AreNodes arena.old (nodes_of self.old) }
        requires index_in { IsBelow (length self.old) index }
        ensures list { self.new ≡ without_index self.old index }
        ensures tree { arena.new ≡ unmarked arena.old InList (node_at self.old index) }
    {
        if let Some(index) = index {
            let node = self.entries[index].node();
            let _ = self.entries.remove(index);
            unmark(arena, node);
        }
    }
}

/// Clears an element's mark, if there is one.
fn unmark(arena: &mut Arena, node: Option<NodeId>)
    requires { IsTarget arena.old node }
    ensures { arena.new ≡ unmarked arena.old InList node }
{
    if let Some(node) = node {
        arena.set_mark(node, Mark::InList, false);
    }
}
