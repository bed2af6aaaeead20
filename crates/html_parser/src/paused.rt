//! The stages of parsing between two calls, without the table that their tokenizer borrows.

ghost use Rattle.std.specs.Prelude.{◌≡◌, ℕ, List};
ghost use Rattle.html_parser.specs.Start.{Start};

use crate::kept::Kept;
use crate::stages::Stages;
use html_builder::Builder;
use html_charref::EntityTable;
use html_input::Decoder;
use html_tokens::PausedTokenizer;
use std::alloc::Global;

/// All that stages have but their table, so that they can be kept where nothing is borrowed.
#[derive(Drop)]
pub(crate) struct PausedStages {
    pub decoder: Decoder,
    pub tokenizer: PausedTokenizer,
    pub builder: Builder,
    pub text: Vec<char>,
    pub run: Vec<char>,
    pub kept: Kept,
    pub is_past: bool,
    pub alloc: Global,
}

impl<'a> Stages<'a> {
    ghost use Rattle.html_parser.specs.Paused.{ArePaused};

    /// All of them but the table.
    pub(crate) fn pause(self) -> PausedStages
        ensures paused { ArePaused result self.entry }
    {
        let Stages {
            decoder,
            tokenizer,
            builder,
            text,
            run,
            kept,
            is_past,
            alloc,
        } = self;
        PausedStages {
            decoder,
            tokenizer: tokenizer.pause(),
            builder,
            text,
            run,
            kept,
            is_past,
            alloc,
        }
    }
}

impl PausedStages {
    ghost use Rattle.html_parser.specs.Paused.{HavePaused, MayResume};
    ghost use Rattle.html_parser.specs.Staged.{AreStaged, HasRead};

    /// The stages that were paused, by a table of the same rows as their own.
    pub(crate) fn resume<'a>(self, table: &'a EntityTable) -> Stages<'a>
        requires going { MayResume table.now self }
        ensures read { (start : Start) (bytes : List ℕ) → HavePaused start table.entry.now self bytes → HasRead start result bytes }
        ensures staged { AreStaged result }
        ensures kept { result.kept ≡ self.kept }
    {
        let PausedStages {
            decoder,
            tokenizer,
            builder,
            text,
            run,
            kept,
            is_past,
            alloc,
        } = self;
        Stages {
            decoder,
            tokenizer: tokenizer.resume(table),
            builder,
            text,
            run,
            kept,
            is_past,
            alloc,
        }
    }
}
