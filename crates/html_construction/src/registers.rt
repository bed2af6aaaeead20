// What tree construction remembers besides its tree and its ledger.
ghost use Rattle.std.specs.Prelude.{◌≡◌, [], false, true};

use crate::mode::Mode;
use html_names::Tag;
use std::alloc::Global;

/// The rules for a token under way.
#[derive(Clone, Copy, Debug)]
pub(crate) struct Call {
    /// The mode in which they began.
    pub began: Mode,
    /// How many elements were open, and how many nodes there were, when they came to the token itself.
    pub depth: usize,
    pub nodes: u64,
}

/// The registers of tree construction (13.2.4.1, 13.2.4.5).
#[derive(Drop)]
pub(crate) struct Registers {
    pub mode: Mode,
    /// The mode to come back to from text and from table text: the original insertion mode.
    pub original: Mode,
    /// The stack of template insertion modes.
    pub templates: Vec<Mode>,
    /// The name of the element around a fragment.
    pub context: Option<Tag>,
    pub quirks: bool,
    /// The frameset-ok flag.
    pub frameset_ok: bool,
    /// Whether what can't stand in a table is put before it: foster parenting.
    pub fostering: bool,
    /// The form element pointer is at a form around the fragment.
    pub outer_form: bool,
    /// Whether foreign content is parsed, or refused.
    pub parses_foreign: bool,
    pub call: Call,
}

impl Registers {
    /// Before the first token, in the mode initial.
    pub(crate) fn new(
        alloc: Global,
        context: Option<Tag>,
        quirks: bool,
        outer_form: bool,
    ) -> Registers
        ensures mode { result.mode ≡ Mode.Initial }
        ensures templates { result.templates.items ≡ [] }
        ensures context { result.context ≡ context }
        ensures quirks { result.quirks ≡ quirks }
        ensures outer_form { result.outer_form ≡ outer_form }
        ensures fostering { result.fostering ≡ false }
        ensures refuses { result.parses_foreign ≡ false }
        ensures original { result.original ≡ Mode.Initial }
        ensures frameset_ok { result.frameset_ok ≡ true }
        ensures call { result.call ≡ record { began = Mode.Initial; depth = 0; nodes = 0 } }
    {
        Registers {
            mode: Mode::Initial,
            original: Mode::Initial,
            templates: Vec::new(alloc),
            context,
            quirks,
            frameset_ok: true,
            fostering: false,
            outer_form,
            parses_foreign: false,
            call: Call {
                began: Mode::Initial,
                depth: 0,
                nodes: 0,
            },
        }
    }
}
