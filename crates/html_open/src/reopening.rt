// Reopening the formatting elements that were closed by a block: the list's entries that are not on the stack are opened anew.
ghost use Rattle.std.specs.Prelude.{◌≡◌, ℕ, ◌+◌, ◌*◌, ◌<◌, ◌≤◌, ◌∷◌, [], ◌++◌, IfErr, IfOk, None, Ok, OnErr, OnOk, length, slice_index_or, slice_set, false, true};
ghost use Rattle.html_names.specs.Sets.{is_formatting};
ghost use Rattle.html_arena.specs.declared.data.NewNode.TheVariants.{CloneOf};
ghost use Rattle.html_arena.specs.Budget.{budget};
ghost use Rattle.html_arena.specs.Make.{made_weight};
ghost use Rattle.html_arena.specs.Siblings.{first_of, has};
ghost use Rattle.html_arena.specs.Tree.{WellFormed, more, tag_at};
ghost use Rattle.html_open.specs.Lists.{IsBelow, after_index, last_index};
ghost use Rattle.html_open.specs.Marking.{charged};
ghost use Rattle.html_open.specs.Opened.{AreNodes};
ghost use Rattle.html_open.specs.Placing.{CanPlace, place_of, place_steps};
ghost use Rattle.html_open.specs.Reopening.{search_steps, with_clone};
ghost use Rattle.html_open.specs.ReopenedEntry.{IsCloneTold, IsInserted, IsRefused, IsTried, end_steps_at, with_reopened};
ghost use Rattle.html_open.specs.Searches.{open_or_marker};

use crate::appropriate_place::place;
use crate::entry::Entry;
use crate::list::FormattingList;
use crate::places::put;
use crate::search::{SoughtEntry, after, last_entry};
use crate::stack::OpenStack;
use html_arena::{Arena, ArenaError, Mark, NewNode, NodeId};

impl FormattingList {
    ghost use Rattle.html_open.specs.declared.entry.Entry.TheVariants.{Marker, Node};
    ghost use Rattle.html_open.specs.Entries.{nodes_of};
    ghost use Rattle.html_open.specs.Opened.{IsOpen, open_at};
    ghost use Rattle.html_open.specs.Adopting.{IsFirstFree, MadeClones, Survives};
    ghost use Rattle.html_open.specs.Leaving.{listed_weight};
    ghost use Rattle.html_open.specs.Reopening.{ClonedFirst, IsCause, IsTold, KeepsClosed, Reopened, ReopenedFirst, clones_of, closed, look_steps, reopen_steps};
    ghost use Rattle.html_open.specs.Rooting.{KeepsParents};

    /// Reconstructs the active formatting elements: those of the entries after the last one that is a marker or on the stack are opened
    /// anew. For each, in order, a clone is put at
    /// the place for the current node and pushed onto the stack, and takes its entry's place.
    ///
    /// Two steps for each of these entries, and one or two for the one at which the search ends; for each clone the steps of its place,
    /// and four: at most `l (h + l + 7)`, after a refusal too, with `h` elements on the stack and `l` entries in the list. After a refusal the
    /// first of these entries are done, the others are as they were, and one clone more may stand at its place, neither on the stack nor in
    /// the list. Memory is told as refused only where the next clone is within both limits.
    pub fn reopen(
        &mut self,
        stack: &mut OpenStack,
        arena: &mut Arena,
        foster: bool,
    ) -> Result<(), ArenaError>
        requires is_open { IsOpen (open_at stack.old self.old arena.old) }
        requires can_place { CanPlace arena.old stack.old }
        ensures reopened { OnOk result (Reopened foster (open_at stack.old self.old arena.old) (open_at stack.new self.new arena.new)) }
        ensures steps { OnOk result (arena.new.steps ≡ more arena.old.steps (reopen_steps (open_at stack.old self.old arena.old) foster)) }
        ensures keeps { IsOpen (open_at stack.new self.new arena.new) }
        ensures can_place { CanPlace arena.new stack.new }
        ensures clones { OnOk result (arena.new.labels ≡ arena.old.labels ++ clones_of (open_at stack.old self.old arena.old)) }
        ensures made { MadeClones (open_at stack.old self.old arena.old) arena.new }
        ensures so_far { ReopenedFirst (open_at stack.old self.old arena.old) (open_at stack.new self.new arena.new) }
        ensures in_order { ClonedFirst (closed (open_at stack.old self.old arena.old)) arena.old arena.new }
        ensures survives { Survives (open_at stack.old self.old arena.old) (open_at stack.new self.new arena.new) }
        ensures nodes { length arena.new.labels ≤ length arena.old.labels + length self.old }
        ensures held { arena.new.held ≤ arena.old.held + listed_weight arena.old self.old }
        ensures opened { length stack.new ≤ length stack.old + length self.old }
        ensures entries { length self.new ≡ length self.old }
        ensures steps_most { arena.new.steps ≤ arena.old.steps + length self.old * (length stack.old + length self.old + 7) }
        ensures first { first_of stack.new ≡ first_of stack.old }
        ensures first_free { IsFirstFree stack.old self.old → IsFirstFree stack.new self.new }
        ensures closed { KeepsClosed (open_at stack.old self.old arena.old) arena.new }
        ensures parents { KeepsParents arena.old arena.new }
        ensures well_formed { WellFormed arena.new }
        ensures cause { IfErr result (λ e. IsCause (open_at stack.old self.old arena.old) foster e) }
        ensures told { IfErr result (λ e. IsTold arena.old.limits (open_at stack.new self.new arena.new) e) }
    {
        arena.forest();
        let start = self.first_closed(arena);
        let len = self.entries.len();
        'reopening: for index in start..len {
            if let Entry::Node(node) = self.entries[index] {
                let reopened = self.reopen_entry(stack, arena, foster, index, node);
                arena.forest();
                reopened?;
            }
        }
        arena.forest();
        Ok(())
    }

    /// How many steps `reopen` counts where the last entry, if there is one, is a marker or on the stack, so that nothing is opened anew.
    pub fn look_steps(&self) -> u128
        ensures value { result ≡ look_steps self.now }
        ensures small { result ≤ 2 }
    {
        let entries = self.entries.as_slice();
        match entries.get(entries.len().saturating_sub(1)) {
            None => 0,
            Some(Entry::Marker) => 1,
            Some(Entry::Node(_)) => 2,
        }
    }

    /// The index after that of the last entry that is a marker or marked as being on the stack.
    fn first_closed(&self, arena: &mut Arena) -> usize
        requires { AreNodes arena.old (nodes_of self.now) }
        ensures start { result ≡ after_index (last_index (open_or_marker arena.old) self.now) }
        ensures within { result ≤ length self.now }
        ensures steps { arena.new ≡ charged arena.old (search_steps (open_or_marker arena.old) self.now) }
    {
        let entries = self.entries.as_slice();
        let found = last_entry(entries, arena, &SoughtEntry::OpenOrMarker);
        let start = after(entries.len(), found);
        arena.charge(2 * (entries.len() - start) as u128 + end_steps(entries, found));
        start
    }

    /// Opens one entry anew: a clone of its element is the current node and takes its place.
    fn reopen_entry(
        &mut self,
        stack: &mut OpenStack,
        arena: &mut Arena,
        foster: bool,
        index: usize,
        node: NodeId,
    ) -> Result<(), ArenaError>
        requires is_open { IsOpen (open_at stack.old self.old arena.old) }
        requires can_place { CanPlace arena.old stack.old }
        requires index_in { index < length self.old }
        requires entry { slice_index_or self.old index Marker ≡ Node node }
        requires absent { has node stack.old ≡ false }
        ensures list { OnOk result (self.new ≡ slice_set self.old index (Node (length arena.old.labels))) }
        ensures stack { OnOk result (stack.new ≡ stack.old ++ length arena.old.labels ∷ []) }
        ensures tree { OnOk result (arena.new ≡ with_reopened arena.old stack.old foster node) }
        ensures same_list { OnErr result (self.new ≡ self.old) }
        ensures same_stack { OnErr result (stack.new ≡ stack.old) }
        ensures tried { OnErr result (IsTried arena.old arena.new node) }
        ensures steps { OnErr result (arena.new.steps ≤ more arena.old.steps (place_steps arena.old stack.old None foster + 2)) }
        ensures keeps { IsOpen (open_at stack.new self.new arena.new) }
        ensures can_place { CanPlace arena.new stack.new }
        ensures closed { KeepsClosed (open_at stack.old self.old arena.old) arena.new }
        ensures parents { KeepsParents arena.old arena.new }
        ensures cause { IfErr result (λ e. IsRefused arena.old node e) }
        ensures told { IfErr result (λ e. IsCloneTold arena.old.limits arena.new node e) }
    {
        arena.forest();
        let clone = insert_clone(stack, arena, foster, node)?;
        arena.forest();
        stack.push(arena, clone)?;
        arena.set_mark(node, Mark::InList, false);
        arena.set_mark(clone, Mark::InList, true);
        arena.charge(1);
        self.entries[index] = Entry::Node(clone);
        Ok(())
    }
}

/// Puts a clone of an element at the place for the current node.
fn insert_clone(
    stack: &OpenStack,
    arena: &mut Arena,
    foster: bool,
    node: NodeId,
) -> Result<NodeId, ArenaError>
    requires nodes_in { AreNodes arena.old stack.now }
    requires can_place { CanPlace arena.old stack.now }
    requires node_in { node < length arena.old.labels }
    requires formatting { is_formatting (tag_at arena.old node) ≡ true }
    ensures id { IfOk result (λ id. id ≡ length arena.old.labels) }
    ensures tree { OnOk result (arena.new ≡ with_clone (charged arena.old (place_steps arena.old stack.now None foster)) stack.now foster node) }
    ensures laws { OnOk result (IsInserted arena.old arena.new (place_of arena.old stack.now None foster) node) }
    ensures room { OnOk result (budget arena.old 1 (made_weight arena.old (CloneOf node)) ≡ Ok tt) }
    ensures same { OnErr result (arena.new ≡ charged arena.old (place_steps arena.old stack.now None foster)) }
    ensures cause { IfErr result (λ e. IsRefused arena.old node e) }
    ensures told { IfErr result (λ e. IsCloneTold arena.old.limits arena.new node e) }
{
    let place = place(stack, arena, None, foster);
    let clone = arena.make(NewNode::CloneOf(node))?;
    put(arena, place, clone);
    Ok(clone)
}

/// The steps for the entry at which the search for entries to be opened anew ends.
fn end_steps(entries: &[Entry], found: Option<usize>) -> u128
    requires { IsBelow (length entries.now) found }
    ensures steps { result ≡ end_steps_at entries.now found }
    ensures small { result ≤ 2 }
{
    match found {
        None => 0,
        Some(index) => { if entries[index].is_marker() { 1 } else { 2 } }
    }
}
