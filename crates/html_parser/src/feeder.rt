//! A parser under way: the stages, until a piece is refused or the input is ended.

ghost use Rattle.std.specs.Prelude.{◌≡◌, ◌↔◌, ◌++◌, ◌≤◌, ◌^◌, ℕ, List, [], true, false, Err, IfErr, IfOk, OnErr, OnOk, length};
ghost use Rattle.html_tokens.specs.declared.token.Token.{Token};
ghost use Rattle.html_parser.specs.Causes.{IsCause, IsFeedCause, IsToldIn};
ghost use Rattle.html_parser.specs.Feeding.{AreHandedOn};
ghost use Rattle.html_parser.specs.Staged.{AreStaged, IsBeginning, IsEnded, KeepsTokens};
ghost use Rattle.html_parser.specs.Start.{Start};

use crate::error::ParseError;
use crate::stages::Stages;
use html_builder::Builder;
use html_charref::EntityTable;
use html_input::Decoder;
use html_token_list::Tokens;
use html_tokens::TextMode;
use std::alloc::Global;

/// The stages, and whether they take no more.
#[derive(Drop)]
pub(crate) struct Feeder<'a> {
    pub stages: Stages<'a>,
    is_stopped: bool,
    ghost going: { is_stopped ≡ false → AreStaged stages },
}

impl<'a> Feeder<'a> {
    ghost use Rattle.html_parser.specs.Fed.{IsFed, IsStopped};

    /// Stages that were fed nothing. The text begins to be read in this mode.
    pub(crate) fn new(
        alloc: Global,
        table: &'a EntityTable,
        decoder: Decoder,
        mode: TextMode,
        builder: Builder,
    ) -> Result<Feeder<'a>, ParseError>
        requires begun { (start : Start) × IsBeginning start table.now mode decoder builder }
        ensures begun { IfOk result (λ p. (start : Start) → IsBeginning start table.entry.now mode decoder builder → IsFed start p []) }
        ensures keeps { IfOk result (λ p. KeepsTokens p.stages) }
        ensures empty { IfOk result (λ p. p.stages.kept.tokens ≡ []) }
        ensures cause { IfErr result (λ e. e ≡ ParseError.OutOfMemory) }
    {
        Ok(Feeder {
            stages: Stages::new(alloc, table, decoder, mode, builder)?,
            is_stopped: false,
        })
    }

    /// Stages that go on.
    pub(crate) fn of(stages: Stages<'a>) -> Feeder<'a>
        requires staged { AreStaged stages }
        ensures stages { result.stages ≡ stages.entry }
        ensures going { result.is_stopped ≡ false }
    {
        let is_stopped = false;
        Feeder { stages, is_stopped }
    }

    /// Keeps no more tokens.
    pub(crate) fn keep_no_tokens(&mut self)
        ensures fed { (start : Start) (bytes : List ℕ) → IsFed start self.old bytes → IsFed start self.new bytes }
        ensures stopped { IsStopped self.new ↔ IsStopped self.old }
    {
        self.stages.keep_no_tokens();
    }

    /// The tokens that were kept, all of which tree construction took.
    pub(crate) fn tokens(&self) -> &Tokens
        ensures value { result.now ≡ self.now.stages.kept.tokens }
    {
        self.stages.tokens()
    }

    /// Takes a piece of the input. After a refusal each later call answers `Stopped`.
    pub(crate) fn feed(&mut self, piece: &[u8]) -> Result<(), ParseError>
        ensures fed { OnOk result ((start : Start) (bytes : List ℕ) → IsFed start self.old bytes → IsFed start self.new (bytes ++ piece.now)) }
        ensures few { OnOk result ((start : Start) (bytes : List ℕ) → IsFed start self.old bytes → length (bytes ++ piece.now) ≤ 2 ^ 33) }
        ensures keeps { OnOk result (KeepsTokens self.old.stages → KeepsTokens self.new.stages) }
        ensures prompt { OnOk result ((start : Start) (bytes : List ℕ) → IsFed start self.old bytes
            → (tokens : List Token) × AreHandedOn start self.new.stages.builder (bytes ++ piece.now) tokens) }
        ensures kept { OnOk result ((start : Start) (bytes : List ℕ) → IsFed start self.old bytes → KeepsTokens self.old.stages
            → AreHandedOn start self.new.stages.builder (bytes ++ piece.now) self.new.stages.kept.tokens) }
        ensures cause { IfErr result (λ e. (start : Start) (bytes : List ℕ) → IsFed start self.old bytes → IsFeedCause start (bytes ++ piece.now) e) }
        ensures told { IfErr result (λ e. (start : Start) (bytes : List ℕ) → IsFed start self.old bytes → IsToldIn start.limits self.new.stages.builder.page e) }
        ensures refused { OnErr result (IsStopped self.new) }
        ensures stopped { (result ≡ Err ParseError.Stopped) ↔ IsStopped self.old }
    {
        if self.is_stopped {
            return Err(ParseError::Stopped);
        }
        self.is_stopped = true;
        self.stages.expect(piece.len());
        self.stages.take(piece)?;
        self.is_stopped = false;
        Ok(())
    }

    /// Ends the input. Each later call answers `Stopped`.
    pub(crate) fn end(&mut self) -> Result<(), ParseError>
        ensures ended { OnOk result ((start : Start) (bytes : List ℕ) → IsFed start self.old bytes → IsEnded start self.new.stages bytes) }
        ensures keeps { OnOk result (KeepsTokens self.old.stages → KeepsTokens self.new.stages) }
        ensures cause { IfErr result (λ e. (start : Start) (bytes : List ℕ) → IsFed start self.old bytes → IsCause start bytes e) }
        ensures stopped { (result ≡ Err ParseError.Stopped) ↔ IsStopped self.old }
    {
        if self.is_stopped {
            return Err(ParseError::Stopped);
        }
        self.is_stopped = true;
        self.stages.end()?;
        Ok(())
    }
}
