// The list of active formatting elements, reopening and adoption.
ghost use Rattle.std.specs.Prelude.{◌≡◌, ℕ, ◌+◌, ◌-◌, ◌*◌, ◌<◌, ◌≤◌, [], ◌∷◌, ◌++◌, IfErr, IfOk, IfSome, OnOk, length, true};
ghost use Rattle.html_names.specs.Sets.{is_formatting};
ghost use Rattle.html_arena.specs.Tree.{more};
ghost use Rattle.html_open.specs.Entries.{is_marker, is_node, last_named, named_or_marker, push_steps, pushed, removal_steps, without_node};
ghost use Rattle.html_open.specs.Opened.{CanList, open_at};
ghost use Rattle.html_open.specs.Lists.{below, looked};
ghost use Rattle.html_open.specs.Reopening.{IsTold, look_steps};
ghost use Rattle.html_tree.specs.Listing.{HasCloned, IsAdoptRefused, IsAdopted, IsReopenRefused, IsReopened, listed_weight};
ghost use Rattle.html_tree.specs.OpenTags.{HasReopened, IsLighterBesides, open_tags};
ghost use Rattle.html_tree.specs.Since.{Grown, Keeps};
ghost use Rattle.html_tree.specs.Steps.{CountsReopening};

use super::OpenTree;
use html_arena::NodeId;
use html_names::Tag;
use html_open::{AdoptEnd, ArenaError, adopt};

impl OpenTree {
    ghost use Rattle.html_open.specs.declared.entry.Entry.TheVariants.{Marker};

    /// Adds a marker to the list. One step.
    ///
    /// # Errors
    ///
    /// `OutOfMemory`.
    pub fn add_marker(&mut self) -> Result<(), ArenaError>
        ensures exact { OnOk result (self.new ≡ record self.old { list = self.old.list ++ Marker ∷ []; steps = self.new.steps }) }
        ensures steps { OnOk result (self.new.steps ≤ self.old.steps + 1) }
        ensures counted { OnOk result (self.new.steps ≡ more self.old.steps 1) }
        ensures keeps { OnOk result (Keeps self.old self.new) }
        ensures grown { OnOk result (Grown 0 0 1 0 self.old self.new) }
        ensures tags { open_tags self.new ≡ open_tags self.old }
        ensures rest { self.new ≡ record self.old { list = self.new.list; steps = self.new.steps } }
        ensures tokens { self.new.tokens ≡ self.old.tokens }
        ensures cause { IfErr result (λ e. e ≡ ArenaError.OutOfMemory) }
    {
        self.list.marker(&mut self.arena)?;
        Ok(())
    }

    /// Adds an open formatting element to the list; where three entries after the last marker have its name and its set of attributes, the
    /// earliest of them goes (the Noah's Ark clause).
    pub(super) fn enlist(&mut self, node: NodeId) -> Result<(), ArenaError>
        requires { CanList (open_at self.old.stack self.old.list self.old.tree) node }
        ensures exact { OnOk result (self.new ≡ record self.old { list = pushed self.old.tree node self.old.list; steps = self.new.steps }) }
        ensures steps { OnOk result (self.new.steps ≤ self.old.steps + push_steps self.old.tree node self.old.list) }
        ensures counted { OnOk result (self.new.steps ≡ more self.old.steps (push_steps self.old.tree node self.old.list)) }
        ensures keeps { OnOk result (Keeps self.old self.new) }
        ensures grown { OnOk result (Grown 0 0 1 0 self.old self.new) }
        ensures tags { open_tags self.new ≡ open_tags self.old }
        ensures rest { self.new ≡ record self.old { list = self.new.list; steps = self.new.steps } }
        ensures cause { IfErr result (λ e. e ≡ ArenaError.OutOfMemory) }
    {
        self.list.push(&mut self.arena, node)?;
        Ok(())
    }

    /// Takes entries off the list up to the last marker, that included, or all where there is none. Two steps for each.
    pub fn clear_to_marker(&mut self)
        ensures exact { self.new ≡ record self.old { list = below is_marker self.old.list; steps = self.new.steps } }
        ensures steps { self.new.steps ≤ self.old.steps + 2 * length self.old.list }
        ensures counted { self.new.steps ≡ more self.old.steps (2 * looked is_marker self.old.list) }
        ensures keeps { Keeps self.old self.new }
        ensures grown { Grown 0 0 0 0 self.old self.new }
        ensures tags { open_tags self.new ≡ open_tags self.old }
    {
        self.list.clear_to_marker(&mut self.arena);
    }

    /// The last listed element of a name after the last marker. One step for each entry looked at.
    pub fn last_listed(&mut self, name: Tag) -> Option<NodeId>
        ensures node { result ≡ last_named self.old.tree name self.old.list }
        ensures node_in { IfSome result (λ x. x < length self.old.tree.labels) }
        ensures rest { self.new ≡ record self.old { steps = self.new.steps } }
        ensures steps { self.new.steps ≤ self.old.steps + length self.old.list }
        ensures counted { self.new.steps ≡ more self.old.steps (looked (named_or_marker self.old.tree name) self.old.list) }
        ensures keeps { Keeps self.old self.new }
        ensures grown { Grown 0 0 0 0 self.old self.new }
        ensures tags { open_tags self.new ≡ open_tags self.old }
    {
        self.list.last_named(&mut self.arena, name)
    }

    /// Takes an element out of the list, if it is there. At most two steps for each entry, and one.
    pub fn unlist(&mut self, node: NodeId)
        requires { node < length self.old.tree.labels }
        ensures exact { self.new ≡ record self.old { list = without_node node self.old.list; steps = self.new.steps } }
        ensures steps { self.new.steps ≤ self.old.steps + 2 * length self.old.list + 1 }
        ensures counted { self.new.steps ≡ more self.old.steps (removal_steps (is_node node) self.old.list) }
        ensures keeps { Keeps self.old self.new }
        ensures grown { Grown 0 0 0 0 self.old self.new }
        ensures tags { open_tags self.new ≡ open_tags self.old }
    {
        self.list.remove(&mut self.arena, node);
    }

    /// Opens anew the listed elements that are not open (13.2.4.3).
    ///
    /// # Errors
    ///
    /// `NodeBudget` and `HeldBudget` where the next clone would pass that limit; else `OutOfMemory`.
    pub fn reopen(&mut self, foster: bool) -> Result<(), ArenaError>
        requires { 0 < length self.old.stack }
        ensures rest { self.new ≡ record self.old { stack = self.new.stack; list = self.new.list; tree = self.new.tree; steps = self.new.steps } }
        ensures exact { OnOk result (IsReopened foster self.old self.new) }
        ensures clones { OnOk result (HasCloned self.old self.new) }
        ensures steps { self.new.steps ≤ self.old.steps + length self.old.list * (length self.old.stack + length self.old.list + 7) }
        ensures counted { OnOk result (CountsReopening foster self.old self.new) }
        ensures keeps { OnOk result (Keeps self.old self.new) }
        ensures grown { OnOk result (Grown (length self.old.list) (length self.old.list) 0 (listed_weight self.old) self.old self.new) }
        ensures opened { HasReopened self.old self.new }
        ensures cause { IfErr result (λ e. IsReopenRefused foster self.old e) }
        ensures told { IfErr result (λ e. IsTold self.old.tree.limits (open_at self.new.stack self.new.list self.new.tree) e) }
    {
        self.arena.forest();
        let reopened = self.list.reopen(&mut self.stack, &mut self.arena, foster);
        self.arena.forest();
        reopened
    }

    /// Counts, so many times, the look at the list by which a reopening finds that there is nothing to open anew.
    pub fn look_again(&mut self, times: usize)
        ensures rest { self.new ≡ record self.old { steps = self.new.steps } }
        ensures counted { self.new.steps ≡ more self.old.steps (times * look_steps self.old.list) }
        ensures steps { self.new.steps ≤ self.old.steps + 2 * times }
        ensures keeps { Keeps self.old self.new }
        ensures grown { Grown 0 0 0 0 self.old self.new }
        ensures tags { open_tags self.new ≡ open_tags self.old }
    {
        let steps = self.list.look_steps();
        let _ = self.steps();
        if steps > 0 {
            self.charge(steps * times as u128);
        }
    }

    /// Follows an end tag of a formatting name (13.2.6.4.7, the adoption agency).
    ///
    /// # Errors
    ///
    /// `NodeBudget` and `HeldBudget` where the next clone would pass that limit; else `OutOfMemory`.
    pub fn adopt(&mut self, name: Tag, foster: bool) -> Result<AdoptEnd, ArenaError>
        requires opened { 0 < length self.old.stack }
        requires formatting { is_formatting name ≡ true }
        ensures rest { self.new ≡ record self.old { stack = self.new.stack; list = self.new.list; tree = self.new.tree; steps = self.new.steps } }
        ensures exact { IfOk result (λ end. IsAdopted name foster end self.old self.new) }
        ensures clones { OnOk result (HasCloned self.old self.new) }
        ensures steps { self.new.steps ≤ self.old.steps + (8 * length self.new.tree.labels + 32 * length self.old.stack + 24 * length self.old.list + 291) }
        ensures keeps { OnOk result (Keeps self.old self.new) }
        ensures grown { OnOk result (Grown 32 0 0 (32 * listed_weight self.old) self.old self.new) }
        ensures lighter { IsLighterBesides self.old self.new }
        ensures cause { IfErr result (λ e. IsAdoptRefused name foster self.old self.new e) }
        ensures told { IfErr result (λ e. IsTold self.old.tree.limits (open_at self.new.stack self.new.list self.new.tree) e) }
    {
        self.arena.forest();
        let end = adopt(
            &mut self.stack,
            &mut self.list,
            &mut self.arena,
            name,
            foster,
        );
        self.arena.forest();
        end
    }
}
