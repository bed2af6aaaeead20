// The registers of tree construction (13.2.4). Each call changes the one register of its name, and neither the tree nor the ledger.
ghost use Rattle.std.specs.Prelude.{IfErr, ◌≡◌, ◌↔◌, ◌-◌, ◌∷◌, [], ◌++◌, OnErr, OnOk, false, is_some, length, take, true};
ghost use Rattle.html_construction.specs.Budgets.{RefusesAny};
ghost use Rattle.html_construction.specs.Built.{Keeps};
ghost use Rattle.html_construction.specs.Modes.{is_reset};
ghost use Rattle.html_tree.specs.declared.groups.Target.TheVariants.{Current};
ghost use Rattle.html_construction.specs.Plans.{Asks, Do, DoesAny, Passes};
ghost use Rattle.html_construction.specs.Resetting.{template_mode};
ghost use Rattle.html_construction.specs.Words.{Enter, FramesetOff, HasTemplateMode, IsFragment, IsFramesetOk, IsQuirks, Leave, PopTemplate, PushTemplate, Quirks, Switch};

use super::Construction;
use crate::mode::Mode;
use html_arena::ArenaError;
use html_ledger::History;
use html_tree::Target;
use std::alloc::{AllocError, Global};

impl Construction {
    /// The insertion mode.
    pub fn mode(&self) -> Mode
        ensures { result ≡ self.now.mode }
    {
        self.registers.mode
    }

    #[tactic(auto, using(crate::proofs::Doing::doing_rules))]
    pub fn set_mode(&mut self, mode: Mode)
        ensures rest { self.new ≡ record self.old { mode = mode } }
        ensures keeps { Keeps self.old self.new }
        ensures follows { DoesAny (Switch mode) self.old self.new }
    {
        self.registers.mode = mode;
    }

    /// Goes to the mode text or in table text, and keeps the mode to come back to.
    #[tactic(auto, using(crate::proofs::Doing::doing_rules))]
    pub fn enter(&mut self, mode: Mode)
        ensures rest { self.new ≡ record self.old { mode = mode; original = self.old.mode } }
        ensures keeps { Keeps self.old self.new }
        ensures follows { DoesAny (Enter mode) self.old self.new }
    {
        self.registers.original = self.registers.mode;
        self.registers.mode = mode;
    }

    /// Comes back to the mode that was kept.
    #[tactic(auto, using(crate::proofs::Doing::doing_rules))]
    pub fn leave(&mut self)
        ensures rest { self.new ≡ record self.old { mode = self.old.original } }
        ensures keeps { Keeps self.old self.new }
        ensures follows { DoesAny Leave self.old self.new }
    {
        self.registers.mode = self.registers.original;
    }

    /// The history of the ledger: what the tokens so far settle about the fates of later ones.
    pub fn history(&self) -> History
        ensures { result ≡ self.now.ledger.history }
    {
        self.ledger.history()
    }

    /// From here on a frameset does not take the place of the body.
    #[tactic(auto, using(crate::proofs::Doing::doing_rules))]
    pub fn frameset_off(&mut self)
        ensures rest { self.new ≡ record self.old { frameset_ok = false } }
        ensures keeps { Keeps self.old self.new }
        ensures follows { DoesAny FramesetOff self.old self.new }
    {
        self.registers.frameset_ok = false;
    }

    /// Whether a frameset may take the place of the body.
    #[tactic(auto, using(crate::proofs::Doing::doing_rules))]
    pub fn is_frameset_ok(&self) -> bool
        ensures value { result ≡ self.now.frameset_ok }
        ensures follows { Asks IsFramesetOk result self.now self.now }
    {
        self.registers.frameset_ok
    }

    #[tactic(auto, using(crate::proofs::Doing::doing_rules))]
    pub fn set_quirks(&mut self, quirks: bool)
        ensures rest { self.new ≡ record self.old { quirks = quirks } }
        ensures keeps { Keeps self.old self.new }
        ensures follows { DoesAny (Quirks quirks) self.old self.new }
    {
        self.registers.quirks = quirks;
    }

    /// Whether the document is in quirks mode.
    #[tactic(auto, using(crate::proofs::Doing::doing_rules))]
    pub fn is_quirks(&self) -> bool
        ensures value { result ≡ self.now.quirks }
        ensures follows { Asks IsQuirks result self.now self.now }
    {
        self.registers.quirks
    }

    /// Whether a fragment is built.
    #[tactic(auto, using(crate::proofs::Doing::doing_rules))]
    pub fn is_fragment(&self) -> bool
        ensures value { result ≡ is_some self.now.context }
        ensures follows { Asks IsFragment result self.now self.now }
    {
        self.registers.context.is_some()
    }

    /// From here on what can't stand in a table is put before it: foster parenting.
    pub fn foster_on(&mut self)
        ensures rest { self.new ≡ record self.old { fostering = true } }
        ensures keeps { Keeps self.old self.new }
    {
        self.registers.fostering = true;
    }

    pub fn foster_off(&mut self)
        ensures rest { self.new ≡ record self.old { fostering = false } }
        ensures keeps { Keeps self.old self.new }
    {
        self.registers.fostering = false;
    }

    /// The appropriate place for the current node (13.2.6.1).
    pub fn here(&self) -> Target
        ensures { result ≡ Current self.now.fostering }
    {
        Target::Current(self.registers.fostering)
    }

    /// Adds to the stack of template insertion modes.
    #[tactic(auto, using(crate::proofs::Doing::doing_rules))]
    pub fn push_template_mode(&mut self, mode: Mode) -> Result<(), ArenaError>
        requires reset { is_reset mode ≡ true }
        ensures rest { OnOk result (self.new ≡ record self.old { templates = self.old.templates ++ mode ∷ [] }) }
        ensures keeps { OnOk result (Keeps self.old self.new) }
        ensures refused { OnErr result (self.new ≡ self.old) }
        ensures cause { IfErr result (λ e. e ≡ ArenaError.OutOfMemory) }
        ensures refuses { IfErr result (λ e. RefusesAny e self.old self.new) }
        ensures follows { OnOk result (DoesAny (PushTemplate mode) self.old self.new) }
    {
        self.registers
            .templates
            .push(mode)
            .map_err(AllocError::from)?;
        Ok(())
    }

    /// Takes the current template insertion mode off the stack of these, if there is one.
    #[tactic(auto, using(crate::proofs::Doing::doing_rules))]
    pub fn pop_template_mode(&mut self)
        ensures rest { self.new ≡ record self.old { templates = self.new.templates } }
        ensures popped { self.new.templates ≡ take (length self.old.templates - 1) self.old.templates }
        ensures keeps { Keeps self.old self.new }
        ensures follows { DoesAny PopTemplate self.old self.new }
    {
        let _ = self.registers.templates.pop();
    }

    /// Replaces the current template insertion mode.
    #[tactic(auto, using(crate::proofs::Doing::doing_rules))]
    pub fn replace_template_mode(&mut self, mode: Mode) -> Result<(), ArenaError>
        requires reset { is_reset mode ≡ true }
        ensures rest { OnOk result (self.new ≡ record self.old { templates = self.new.templates }) }
        ensures replaced { OnOk result (self.new.templates ≡ take (length self.old.templates - 1) self.old.templates ++ mode ∷ []) }
        ensures keeps { OnOk result (Keeps self.old self.new) }
        ensures memory { IfErr result (λ e. e ≡ ArenaError.OutOfMemory) }
        ensures refuses { IfErr result (λ e. RefusesAny e self.old self.new) }
        ensures follows { OnOk result (Passes (λ p. Do PopTemplate (Do (PushTemplate mode) p)) self.old self.new) }
    {
        self.pop_template_mode();
        self.push_template_mode(mode)?;
        Ok(())
    }

    /// Whether there is a template insertion mode.
    #[tactic(auto, using(crate::proofs::Doing::doing_rules))]
    pub fn has_template_mode(&self) -> bool
        ensures value { (result ≡ false) ↔ (self.now.templates ≡ []) }
        ensures follows { Asks HasTemplateMode result self.now self.now }
    {
        !self.registers.templates.is_empty()
    }

    /// The current template insertion mode; in template where there is none.
    pub(super) fn template_mode(&self) -> Mode
        ensures reset { is_reset result ≡ true }
        ensures mode { result ≡ template_mode self.now.templates }
    {
        match self.registers.templates.last() {
            Some(mode) => *mode,
            None => Mode::InTemplate,
        }
    }

    pub(super) fn alloc(&self) -> Global {
        *self.registers.templates.allocator()
    }
}
