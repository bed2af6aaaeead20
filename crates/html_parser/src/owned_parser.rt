//! Bytes in pieces to a page, by a parser that borrows nothing.

ghost use Rattle.std.specs.Prelude.{◌≡◌, ◌↔◌, ◌++◌, ◌≤◌, ◌^◌, ℕ, List, [], Err, IfErr, IfOk, OnErr, OnOk, IsSomeAnd, length};
ghost use Rattle.std.specs.Arc.{arc_value};
ghost use Rattle.html_arena.specs.Walking.{IsRoot};
ghost use Rattle.html_parser.specs.Causes.{IsCause, IsFeedCause, IsToldIn};
ghost use Rattle.html_parser.specs.Feeding.{AreHandedOn};
ghost use Rattle.html_parser.specs.Options.{HasGoodContext, IsBeginCause, start_of};
ghost use Rattle.html_parser.specs.Owned.{IsKept, IsOwnedFed, IsOwnedStopped};
ghost use Rattle.html_parser.specs.Parsed.{IsPageOf};
ghost use Rattle.html_parser.specs.Paused.{HavePaused, KeepsPaused, MayResume};
ghost use Rattle.html_parser.specs.Start.{Start};

use crate::error::ParseError;
use crate::feeder::Feeder;
use crate::options::Options;
use crate::owned_feeder::OwnedFeeder;
use crate::page::Page;
use crate::parser::Parser;
use crate::paused::PausedStages;
use html_charref::EntityTable;
use std::alloc::Global;
use std::sync::Arc;

/// A parser like `Parser` that shares its table, and borrows nothing: it can be kept in a struct, or across the calls of another language.
#[derive(Drop)]
pub struct OwnedParser {
    pub(crate) feeder: OwnedFeeder,
    ghost keeps: { IsKept feeder },
}

impl OwnedParser {
    /// A parser as these options ask for.
    ///
    /// # Errors
    ///
    /// Those of `Parser::new`.
    pub fn new(
        alloc: Global,
        table: Arc<EntityTable>,
        options: &Options,
    ) -> Result<OwnedParser, ParseError>
        ensures begun { IfOk result (λ p. IsOwnedFed (start_of (arc_value table) options.now) p.feeder []) }
        ensures good { OnOk result (HasGoodContext options.now) }
        ensures cause { IfErr result (IsBeginCause options.now) }
    {
        let stages = begin(alloc, &table, options)?;
        Ok(OwnedParser {
            feeder: OwnedFeeder::of(table, stages),
        })
    }

    /// Takes a piece of the input. Each token that its code points decide is processed.
    ///
    /// # Errors
    ///
    /// Those of `Parser::feed`.
    pub fn feed(&mut self, piece: &[u8]) -> Result<(), ParseError>
        ensures fed { OnOk result ((start : Start) (bytes : List ℕ) → IsOwnedFed start self.old.feeder bytes → IsOwnedFed start self.new.feeder (bytes ++ piece.now)) }
        ensures few { OnOk result ((start : Start) (bytes : List ℕ) → IsOwnedFed start self.old.feeder bytes → length (bytes ++ piece.now) ≤ 2 ^ 33) }

        // At most three bytes are undecoded, and each token that ends far enough before the end of the decoded text was handed to tree construction and is among the tokens.
        ensures prompt { OnOk result ((start : Start) (bytes : List ℕ) → IsOwnedFed start self.old.feeder bytes
            → IsSomeAnd self.new.feeder.stages (λ s. AreHandedOn start s.builder (bytes ++ piece.now) s.kept.tokens)) }
        ensures cause { IfErr result (λ e. (start : Start) (bytes : List ℕ) → IsOwnedFed start self.old.feeder bytes → IsFeedCause start (bytes ++ piece.now) e) }
        ensures told { IfErr result (λ e. (start : Start) (bytes : List ℕ) → IsOwnedFed start self.old.feeder bytes
            → IsSomeAnd self.new.feeder.stages (λ s. IsToldIn start.limits s.builder.page e)) }
        ensures refused { OnErr result (IsOwnedStopped self.new.feeder) }
        ensures stopped { (result ≡ Err ParseError.Stopped) ↔ IsOwnedStopped self.old.feeder }
    {
        self.feeder.feed(piece)
    }

    /// Ends the input: the page of all that was fed.
    ///
    /// # Errors
    ///
    /// Those of `Parser::finish`.
    pub fn finish(self) -> Result<Page, ParseError>
        ensures page { IfOk result (λ page. (start : Start) (bytes : List ℕ) → IsOwnedFed start self.feeder bytes → IsPageOf start bytes page) }
        ensures root { IfOk result (λ page. IsRoot page.arena page.root) }
        ensures cause { IfErr result (λ e. (start : Start) (bytes : List ℕ) → IsOwnedFed start self.feeder bytes → IsCause start bytes e) }
        ensures stopped { IsOwnedStopped self.feeder → result ≡ Err ParseError.Stopped }
    {
        let OwnedParser { feeder } = self;
        let (table, stages) = feeder.into_parts()?;
        page_of(stages, &table)
    }
}

/// The stages of a parser as options ask for, which was fed nothing.
fn begin(alloc: Global, table: &EntityTable, options: &Options) -> Result<PausedStages, ParseError>
    ensures begun { IfOk result (λ s. HavePaused (start_of table.now options.now) table.now s []) }
    ensures keeps { IfOk result KeepsPaused }
    ensures good { OnOk result (HasGoodContext options.now) }
    ensures cause { IfErr result (IsBeginCause options.now) }
{
    let parser = Parser::new(alloc, table, options)?;
    Ok(parser.feeder.stages.pause())
}

/// Ends the input: the page of all that was fed to stages that go on.
fn page_of(stages: PausedStages, table: &EntityTable) -> Result<Page, ParseError>
    requires going { MayResume table.now stages }
    ensures page { IfOk result (λ page. (start : Start) (bytes : List ℕ) → HavePaused start table.now stages bytes → KeepsPaused stages → IsPageOf start bytes page) }
    ensures cause { IfErr result (λ e. (start : Start) (bytes : List ℕ) → HavePaused start table.now stages bytes → IsCause start bytes e) }
    ensures root { IfOk result (λ page. KeepsPaused stages → IsRoot page.arena page.root) }
{
    let feeder = Feeder::of(stages.resume(table));
    Parser { feeder }.finish()
}
