//! The stages of parsing with the table that they go by, so that they can be kept where nothing is borrowed.

ghost use Rattle.std.specs.Prelude.{◌≡◌, ◌≢◌, ◌↔◌, ◌++◌, ◌≤◌, ◌^◌, ℕ, List, false, Some, Err, IfErr, IfOk, OnErr, OnOk, IsSomeAnd, length};
ghost use Rattle.std.specs.Arc.{arc_value};
ghost use Rattle.html_tokens.specs.declared.token.Token.{Token};
ghost use Rattle.html_parser.specs.Causes.{IsFeedCause, IsToldIn};
ghost use Rattle.html_parser.specs.Feeding.{AreHandedOn};
ghost use Rattle.html_parser.specs.Paused.{AreGoing, HavePaused, KeepsPaused, MayResume};
ghost use Rattle.html_parser.specs.Start.{Start};

use crate::error::ParseError;
use crate::feeder::Feeder;
use crate::paused::PausedStages;
use html_charref::EntityTable;
use std::sync::Arc;

/// The stages without their table, the table, and whether they take no more.
#[derive(Drop)]
pub(crate) struct OwnedFeeder {
    table: Arc<EntityTable>,
    /// Nothing only while a call has them.
    pub stages: Option<PausedStages>,
    pub is_stopped: bool,
    ghost going: { is_stopped ≡ false → AreGoing (arc_value table) stages },
}

impl OwnedFeeder {
    ghost use Rattle.html_parser.specs.Owned.{IsOwnedFed, IsOwnedStopped, KeepsOwned};

    /// Stages that go on, and their table.
    pub(crate) fn of(table: Arc<EntityTable>, stages: PausedStages) -> OwnedFeeder
        requires going { MayResume (arc_value table) stages }
        ensures fed { (start : Start) (bytes : List ℕ) → HavePaused start (arc_value table) stages bytes → IsOwnedFed start result bytes }
        ensures stages { result.stages ≡ Some stages }
    {
        OwnedFeeder {
            table,
            stages: Some(stages),
            is_stopped: false,
        }
    }

    /// Takes a piece of the input. After a refusal each later call answers `Stopped`.
    pub(crate) fn feed(&mut self, piece: &[u8]) -> Result<(), ParseError>
        ensures fed { OnOk result ((start : Start) (bytes : List ℕ) → IsOwnedFed start self.old bytes → IsOwnedFed start self.new (bytes ++ piece.now)) }
        ensures few { OnOk result ((start : Start) (bytes : List ℕ) → IsOwnedFed start self.old bytes → length (bytes ++ piece.now) ≤ 2 ^ 33) }
        ensures keeps { OnOk result (KeepsOwned self.old → KeepsOwned self.new) }
        ensures prompt { OnOk result ((start : Start) (bytes : List ℕ) → IsOwnedFed start self.old bytes
            → IsSomeAnd self.new.stages (λ s. (tokens : List Token) × AreHandedOn start s.builder (bytes ++ piece.now) tokens)) }
        ensures kept { OnOk result ((start : Start) (bytes : List ℕ) → IsOwnedFed start self.old bytes → KeepsOwned self.old
            → IsSomeAnd self.new.stages (λ s. AreHandedOn start s.builder (bytes ++ piece.now) s.kept.tokens)) }
        ensures cause { IfErr result (λ e. (start : Start) (bytes : List ℕ) → IsOwnedFed start self.old bytes → IsFeedCause start (bytes ++ piece.now) e) }
        ensures told { IfErr result (λ e. (start : Start) (bytes : List ℕ) → IsOwnedFed start self.old bytes
            → IsSomeAnd self.new.stages (λ s. IsToldIn start.limits s.builder.page e)) }
        ensures refused { OnErr result (IsOwnedStopped self.new) }
        ensures stopped { (result ≡ Err ParseError.Stopped) ↔ IsOwnedStopped self.old }
    {
        if self.is_stopped {
            return Err(ParseError::Stopped);
        }
        let Some(stages) = self.stages.take() else {
            return Err(ParseError::Stopped);
        };
        self.is_stopped = true;
        let (stages, said) = fed(stages, &self.table, piece);
        let _none = self.stages.replace(stages);
        match said {
            Ok(()) => {
                self.is_stopped = false;
                Ok(())
            }
            Err(error) => Err(error),
        }
    }

    /// The table and the stages, of a parser that was not stopped.
    pub(crate) fn into_parts(self) -> Result<(Arc<EntityTable>, PausedStages), ParseError>
        ensures going { IfOk result (λ p. MayResume (arc_value p.0) p.1) }
        ensures fed { IfOk result (λ p. (start : Start) (bytes : List ℕ) → IsOwnedFed start self bytes → HavePaused start (arc_value p.0) p.1 bytes) }
        ensures keeps { IfOk result (λ p. KeepsOwned self → KeepsPaused p.1) }
        ensures cause { IfErr result (λ e. e ≡ ParseError.Stopped) }
        ensures stopped { OnErr result (IsOwnedStopped self) }
        ensures running { OnOk result (self.is_stopped ≡ false) }
    {
        let OwnedFeeder {
            table,
            stages,
            is_stopped,
        } = self;
        if is_stopped {
            return Err(ParseError::Stopped);
        }
        match stages {
            Some(stages) => Ok((table, stages)),
            None => Err(ParseError::Stopped),
        }
    }
}

/// Takes a piece of the input, by stages that go on.
fn fed(
    stages: PausedStages,
    table: &EntityTable,
    piece: &[u8],
) -> (PausedStages, Result<(), ParseError>)
    requires going { MayResume table.now stages }
    ensures going { OnOk result.1 (MayResume table.now result.0) }
    ensures fed { OnOk result.1 ((start : Start) (bytes : List ℕ) → HavePaused start table.now stages bytes → HavePaused start table.now result.0 (bytes ++ piece.now)) }
    ensures few { OnOk result.1 ((start : Start) (bytes : List ℕ) → HavePaused start table.now stages bytes → length (bytes ++ piece.now) ≤ 2 ^ 33) }
    ensures keeps { OnOk result.1 (KeepsPaused stages → KeepsPaused result.0) }
    ensures prompt { OnOk result.1 ((start : Start) (bytes : List ℕ) → HavePaused start table.now stages bytes
        → (tokens : List Token) × AreHandedOn start result.0.builder (bytes ++ piece.now) tokens) }
    ensures kept { OnOk result.1 ((start : Start) (bytes : List ℕ) → HavePaused start table.now stages bytes → KeepsPaused stages
        → AreHandedOn start result.0.builder (bytes ++ piece.now) result.0.kept.tokens) }
    ensures cause { IfErr result.1 (λ e. (start : Start) (bytes : List ℕ) → HavePaused start table.now stages bytes → IsFeedCause start (bytes ++ piece.now) e) }
    ensures told { IfErr result.1 (λ e. (start : Start) (bytes : List ℕ) → HavePaused start table.now stages bytes → IsToldIn start.limits result.0.builder.page e) }
    ensures running { result.1 ≢ Err ParseError.Stopped }
{
    let mut feeder = Feeder::of(stages.resume(table));
    let said = feeder.feed(piece);
    (feeder.stages.pause(), said)
}
