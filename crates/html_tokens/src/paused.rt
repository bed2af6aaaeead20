// A tokenizer between two calls, without its table.
ghost use Rattle.std.specs.Prelude.{◌≡◌, ◌+◌, ◌^◌, ◌<◌, false, length};
ghost use Rattle.html_tokens.specs.Bounds.{Bounded, IsWithin};

use crate::faults::Faults;
use crate::input::Input;
use crate::machine::{Machine, State};
use crate::token::{Name, TextMode};
use crate::tokenizer::Tokenizer;
use html_charref::EntityTable;
use std::alloc::Global;

/// All that a tokenizer has but its table, so that it can be kept where nothing is borrowed.
#[derive(Drop)]
pub struct PausedTokenizer {
    alloc: Global,
    pub(crate) input: Input,
    pub(crate) place: u64,
    pub(crate) mode: TextMode,
    pub(crate) last_name: Option<Name>,
    pub(crate) state: State,
    pub(crate) faults: Faults,
    pub(crate) failed: bool,
    ghost in_range: { place + length input.queue.items < 2 ^ 64 },
    ghost within: { IsWithin place faults },
    ghost bounded: { failed ≡ false → Bounded state place faults },
}

impl<'a> Tokenizer<'a> {
    ghost use Rattle.html_tokens.specs.Paused.{IsPaused};

    /// All of it but its table.
    pub fn pause(self) -> PausedTokenizer
        ensures paused { IsPaused result self.entry }
    {
        let Tokenizer {
            machine,
            faults,
            failed,
        } = self;
        let Machine {
            alloc,
            input,
            place,
            mode,
            last_name,
            state,
            ..
        } = machine;
        PausedTokenizer {
            alloc,
            input,
            place,
            mode,
            last_name,
            state,
            faults,
            failed,
        }
    }
}

impl PausedTokenizer {
    ghost use Rattle.html_tokens.specs.Given.{Fed, fed_len, is_finished, is_stopped, steps_taken, told};
    ghost use Rattle.html_tokens.specs.Paused.{IsPaused};
    ghost use Rattle.html_tokens.specs.Stream.{Run};
    ghost use Rattle.html_tokens.specs.declared.tokenizer.Tokenizer.{Tokenizer};

    /// The tokenizer that was paused, by a table of the same rows as its own.
    #[tactic(auto, unfolding(crate::specs::Given::Fed, crate::specs::Given::fed_len, crate::specs::Given::is_stopped, crate::specs::Given::is_finished, crate::specs::Given::told, crate::specs::Given::steps_taken))]
    pub fn resume<'a>(self, table: &'a EntityTable) -> Tokenizer<'a>
        ensures fed { (paused : Tokenizer) (run : Run) → IsPaused self paused → run.start.rows ≡ table.now → Fed paused run → Fed result run }
        ensures stopped { (paused : Tokenizer) → IsPaused self paused → is_stopped result ≡ is_stopped paused }
        ensures finished { (paused : Tokenizer) → IsPaused self paused → is_finished result ≡ is_finished paused }
        ensures count { (paused : Tokenizer) → IsPaused self paused → fed_len result ≡ fed_len paused }
        ensures told { (paused : Tokenizer) → IsPaused self paused → told result ≡ told paused }
        ensures steps { (paused : Tokenizer) → IsPaused self paused → steps_taken result ≡ steps_taken paused }
    {
        let PausedTokenizer {
            alloc,
            input,
            place,
            mode,
            last_name,
            state,
            faults,
            failed,
        } = self;
        let machine = Machine {
            alloc,
            table,
            input,
            place,
            mode,
            last_name,
            state,
        };
        Tokenizer {
            machine,
            faults,
            failed,
        }
    }
}
