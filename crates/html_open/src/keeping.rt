// Edits of an arena that keep what is true between calls of the stack, the list and the tree.
ghost use Rattle.std.specs.Prelude.{◌≡◌, ◌≢◌, ℕ, ◌≤◌, List, [], false, length, Option, Some, true};
ghost use Rattle.html_arena.specs.declared.arena.Limits.{Limits};
ghost use Rattle.html_arena.specs.declared.data.NodeData.{NodeData};
ghost use Rattle.html_arena.specs.Data.{IsElement, origin_in, tag_in};
ghost use Rattle.html_arena.specs.Laws.{IsGrown, IsLinked, IsMoved, IsRelabelled, IsUnlinked};
ghost use Rattle.html_arena.specs.Siblings.{first_of, has};
ghost use Rattle.html_arena.specs.Tree.{Tree, ancestors, empty_tree, label_of};
ghost use Rattle.html_open.specs.declared.entry.Entry.{Entry};
ghost use Rattle.html_open.specs.Adopting.{IsFirstFree};
ghost use Rattle.html_open.specs.Entries.{has_node};
ghost use Rattle.html_open.specs.Marking.{IsSameTree, charged};
ghost use Rattle.html_open.specs.Opened.{AreNodes, IsApart, IsOpen, open_at};
ghost use Rattle.html_open.specs.Placing.{CanPlace};

/// A law: what is true between calls is true where there is no node, and is kept where steps are counted, where nodes are made, where one that
/// is no open element nor above one is linked, where one is taken from its parent, where children are moved from a node that is above no open
/// element, and where a node gets another label of the same tag and token. Nodes that were just made are apart from all open elements.
pub fn kept_by_edits()
    ensures empty { (limits : Option Limits) → IsOpen (open_at [] [] (empty_tree limits)) }
    ensures charged { (s : List ℕ) (l : List Entry) (t : Tree) (n : ℕ) → IsOpen (open_at s l t) → IsOpen (open_at s l (charged t n)) }
    ensures can_place { (s : List ℕ) (t : Tree) (n : ℕ) → CanPlace t s → CanPlace (charged t n) s }
    ensures grown { (s : List ℕ) (l : List Entry) (t u : Tree) (k : ℕ) → IsGrown t u k → IsOpen (open_at s l t) → IsOpen (open_at s l u) }
    ensures apart { (s : List ℕ) (l : List Entry) (t u : Tree) (k c : ℕ) → IsGrown t u k → length t.labels ≤ c → IsOpen (open_at s l t) → IsApart u s c }
    ensures linked { (s : List ℕ) (l : List Entry) (t u : Tree) (c p : ℕ) (xs : List ℕ) → IsLinked t u c p xs → IsApart t s c → IsOpen (open_at s l t) → IsOpen (open_at s l u) }
    ensures unlinked { (s : List ℕ) (l : List Entry) (t u : Tree) (c : ℕ) → IsUnlinked t u c → IsOpen (open_at s l t) → IsOpen (open_at s l u) }
    ensures moved { (s : List ℕ) (l : List Entry) (t u : Tree) (from to : ℕ) → IsMoved t u from to → ((x : ℕ) → has x s ≡ true → has from (ancestors t x) ≡ false) → IsOpen (open_at s l t) → IsOpen (open_at s l u) }
    ensures relabelled { (s : List ℕ) (l : List Entry) (t u : Tree) (x : ℕ) (d : NodeData) → IsRelabelled t u x d → (IsElement (label_of t x) → IsElement d) → tag_in d ≡ tag_in (label_of t x) → origin_in d ≡ origin_in (label_of t x) → IsOpen (open_at s l t) → IsOpen (open_at s l u) }
{}

/// A law: the first element can still take what has no better place, and is still not in the list, where marks, steps or elements after the
/// first differ, where nodes are made, linked or moved, where a node other than the first element is taken from its parent, and where a node
/// gets another label of the same tag.
pub fn first_kept_by_edits()
    ensures same { (s : List ℕ) (t u : Tree) → IsSameTree t u → CanPlace t s → CanPlace u s }
    ensures first { (s r : List ℕ) (t : Tree) → first_of r ≡ first_of s → CanPlace t s → CanPlace t r }
    ensures grown { (s : List ℕ) (t u : Tree) (k : ℕ) → IsGrown t u k → AreNodes t s → CanPlace t s → CanPlace u s }
    ensures linked { (s : List ℕ) (t u : Tree) (c p : ℕ) (xs : List ℕ) → IsLinked t u c p xs → CanPlace t s → CanPlace u s }
    ensures unlinked { (s : List ℕ) (t u : Tree) (c : ℕ) → IsUnlinked t u c → first_of s ≢ Some c → CanPlace t s → CanPlace u s }
    ensures moved { (s : List ℕ) (t u : Tree) (from to : ℕ) → IsMoved t u from to → CanPlace t s → CanPlace u s }
    ensures relabelled { (s : List ℕ) (t u : Tree) (x : ℕ) (d : NodeData) → IsRelabelled t u x d → tag_in d ≡ tag_in (label_of t x) → CanPlace t s → CanPlace u s }
    ensures free { (s r : List ℕ) (l : List Entry) → first_of r ≡ first_of s → IsFirstFree s l → IsFirstFree r l }
    ensures fewer { (s : List ℕ) (l m : List Entry) → ((x : ℕ) → has_node x l ≡ false → has_node x m ≡ false) → IsFirstFree s l → IsFirstFree s m }
{}
