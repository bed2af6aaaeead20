// Attributes that are merged, and a body that a frameset takes the place of (13.2.6.4.7).
ghost use Rattle.std.specs.Prelude.{◌≡◌, ℕ, ◌+◌, ◌*◌, ◌<◌, ◌≤◌, ◌∷◌, [], IfErr, IfOk, None, OnOk, Some, length, slice_index, true};
ghost use Rattle.html_names.specs.declared.tag.Tag.TheVariants as tag;
ghost use Rattle.html_names.specs.Names.{tag_of};
ghost use Rattle.html_names.specs.Tags.{is_same};
ghost use Rattle.html_arena.specs.declared.data.NewNode.TheVariants.{Element};
ghost use Rattle.html_arena.specs.declared.data.Origin.TheVariants.{Token};
ghost use Rattle.html_arena.specs.Make.{label_for};
ghost use Rattle.html_arena.specs.Tree.{detached, label_of, more, named, parent_of, with_merged};
ghost use Rattle.html_arena.specs.Data.{attrs_in};
ghost use Rattle.html_arena.specs.Merge.{lacking};
ghost use Rattle.html_arena.specs.Weight.{attrs_weight, capped, weight};
ghost use Rattle.html_arena.specs.Budget.{budget};
ghost use Rattle.html_open.specs.Marking.{bare};
ghost use Rattle.html_tree.specs.Closing.{bodiless};
ghost use Rattle.html_tree.specs.Inserting.{IsLack, IsNodePassed, IsPassed, with_new, with_open};
ghost use Rattle.html_tree.specs.OpenTags.{open_tags};
ghost use Rattle.html_tree.specs.Since.{Grown, HasFrameset, Keeps, Since};
ghost use Rattle.html_tree.specs.States.{State};
ghost use Rattle.html_tree.specs.Targets.{place_for};

use super::OpenTree;
use crate::groups::Target;
use html_arena::NodeId;
use html_open::{ArenaError, kept_by_edits};
use html_text::Str;
use html_tokens::Attrs;

impl OpenTree {
    /// Adds to the open element at an index the attributes whose names it lacks. A step for each comparison of two names, and one.
    ///
    /// # Errors
    ///
    /// `HeldBudget` where the added attributes would pass that limit; else `OutOfMemory`.
    pub fn merge(&mut self, index: usize, attrs: Attrs) -> Result<(), ArenaError>
        requires { index < length self.old.stack }
        ensures exact { OnOk result (self.new ≡ record self.old { tree = bare (with_merged self.old.tree (slice_index self.old.stack index) attrs); steps = self.new.steps }) }
        ensures steps { OnOk result (self.new.steps ≤ self.old.steps + 1 + length (attrs_in (label_of self.old.tree (slice_index self.old.stack index))) * length attrs) }
        ensures counted { OnOk result (self.new.steps ≡ more self.old.steps (1 + length (attrs_in (label_of self.old.tree (slice_index self.old.stack index))) * length attrs)) }
        ensures keeps { OnOk result (Keeps self.old self.new) }
        ensures grown { OnOk result (Grown 0 0 0 (attrs_weight (lacking (attrs_in (label_of self.old.tree (slice_index self.old.stack index))) attrs)) self.old self.new) }
        ensures tags { open_tags self.new ≡ open_tags self.old }
        ensures rest { self.new ≡ record self.old { tree = self.new.tree; steps = self.new.steps } }
        ensures tokens { self.new.tokens ≡ self.old.tokens }
        ensures cause { IfErr result (λ e. IsLack (budget self.old.tree 0 (capped (attrs_weight (lacking (attrs_in (label_of self.old.tree (slice_index self.old.stack index))) attrs)))) e) }
        ensures told { IfErr result (λ e. IsPassed self.old self.new 0 (capped (attrs_weight (lacking (attrs_in (label_of self.new.tree (slice_index self.new.stack index))) attrs))) e) }
    {
        kept_by_edits();
        let node = self.stack.at(&mut self.arena, index);
        self.arena.merge_attrs(node, attrs)?;
        Ok(())
    }

    /// Takes the body that is the second open element out of the tree, closes all elements but the first, makes the frameset element of a start
    /// tag, puts it last in the first element, and opens it. Two steps for the body, one for each element that is closed, and four.
    ///
    /// # Errors
    ///
    /// `NodeBudget` and `HeldBudget` where the node would pass that limit; else `OutOfMemory`.
    pub fn replace_body(
        &mut self,
        name: Str,
        attrs: Attrs,
        token: u64,
    ) -> Result<NodeId, ArenaError>
        requires second { 1 < length self.old.stack }
        requires body { named self.old.tree tag.Body (slice_index self.old.stack 1) ≡ true }
        requires once { self.old.detached ≡ None }
        requires name { is_same (tag_of name) tag.Frameset ≡ true }
        requires token { self.old.tokens ≤ token }
        ensures id { IfOk result (λ id. id ≡ length self.old.tree.labels) }
        ensures exact { OnOk result (self.new ≡ record (bodiless self.old) {
          stack = with_open (bodiless self.old);
          tree = with_new (bodiless self.old).tree (place_for (bodiless self.old) Target.First) (Element name attrs (Token token));
          steps = self.new.steps;
          tokens = token + 1;
        }) }
        ensures steps { OnOk result (self.new.steps ≤ self.old.steps + length self.old.stack + 5) }
        ensures counted { OnOk result (self.new.steps ≡ more self.old.steps (length self.old.stack + 5)) }
        ensures keeps { OnOk result (Keeps self.old self.new) }
        ensures grown { OnOk result (Grown 2 1 0 (weight (label_for self.old.tree (Element name attrs (Token token)))) self.old self.new) }
        ensures tags { OnOk result (open_tags self.new ≡ tag.Frameset ∷ tag.Html ∷ []) }
        ensures rest { self.new ≡ record self.old { stack = self.new.stack; tree = self.new.tree; steps = self.new.steps; tokens = self.new.tokens; detached = self.new.detached } }
        ensures tokens_most { self.new.tokens ≤ token + 1 }
        ensures told { IfErr result (λ e. IsNodePassed self.old self.new (Element name attrs (Token token)) e) }
    {
        self.laws();
        self.detach_body();
        self.pop_to(1);
        self.laws();
        self.insert(name, attrs, token, Target::First)
    }

    /// Takes the body that is the second open element out of the tree: a frameset takes its place next. Two steps.
    fn detach_body(&mut self)
        requires second { 1 < length self.old.stack }
        requires body { named self.old.tree tag.Body (slice_index self.old.stack 1) ≡ true }
        requires once { self.old.detached ≡ None }
        ensures exact { self.new ≡ record self.old {
          tree = bare (detached self.old.tree (slice_index self.old.stack 1) (parent_of self.old.tree (slice_index self.old.stack 1)));
          steps = self.new.steps;
          detached = Some (slice_index self.old.stack 1);
        } }
        ensures counted { self.new.steps ≡ more self.old.steps 2 }
        ensures apart { (s b : State) → Since s self.old → Since self.new b → HasFrameset b.tree → Since s b }
        ensures grown { Grown 0 0 0 0 self.old self.new }
        ensures same_labels { self.new.tree.labels ≡ self.old.tree.labels }
        ensures same_limits { self.new.tree.limits ≡ self.old.tree.limits }
        ensures same_held { self.new.tree.held ≡ self.old.tree.held }
    {
        kept_by_edits();
        let body = self.stack.at(&mut self.arena, 1);
        self.arena.forest();
        self.arena.detach(body);
        self.detached = Some(body);
    }
}
