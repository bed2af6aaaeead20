//! Bytes in pieces to a tree without its ledger, by a parser that borrows nothing.

ghost use Rattle.std.specs.Prelude.{◌≡◌, ◌↔◌, ◌++◌, ◌≤◌, ◌^◌, ℕ, List, [], Err, IfErr, IfOk, OnErr, OnOk, IsSomeAnd, length};
ghost use Rattle.std.specs.Arc.{arc_value};
ghost use Rattle.html_arena.specs.Walking.{IsRoot};
ghost use Rattle.html_tokens.specs.declared.token.Token.{Token};
ghost use Rattle.html_parser.specs.Causes.{IsCause, IsFeedCause, IsToldIn};
ghost use Rattle.html_parser.specs.Feeding.{AreHandedOn};
ghost use Rattle.html_parser.specs.Options.{HasGoodContext, IsBeginCause, start_of};
ghost use Rattle.html_parser.specs.Owned.{IsOwnedFed, IsOwnedStopped};
ghost use Rattle.html_parser.specs.Parsed.{IsTreeOf};
ghost use Rattle.html_parser.specs.Paused.{HavePaused, MayResume};
ghost use Rattle.html_parser.specs.Start.{Start};

use crate::error::ParseError;
use crate::feeder::Feeder;
use crate::options::Options;
use crate::owned_feeder::OwnedFeeder;
use crate::page::Tree;
use crate::parser::Parser;
use crate::paused::PausedStages;
use crate::tree_parser::TreeParser;
use html_charref::EntityTable;
use std::alloc::Global;
use std::sync::Arc;

/// A parser like `OwnedParser`, which keeps no tokens.
#[derive(Drop)]
pub struct OwnedTreeParser {
    pub(crate) feeder: OwnedFeeder,
}

impl OwnedTreeParser {
    /// A parser as these options ask for.
    ///
    /// # Errors
    ///
    /// Those of `Parser::new`.
    pub fn new(
        alloc: Global,
        table: Arc<EntityTable>,
        options: &Options,
    ) -> Result<OwnedTreeParser, ParseError>
        ensures begun { IfOk result (λ p. IsOwnedFed (start_of (arc_value table) options.now) p.feeder []) }
        ensures good { OnOk result (HasGoodContext options.now) }
        ensures cause { IfErr result (IsBeginCause options.now) }
    {
        let stages = begin_tree(alloc, &table, options)?;
        Ok(OwnedTreeParser {
            feeder: OwnedFeeder::of(table, stages),
        })
    }

    /// Takes a piece of the input. Each token that its code points decide is processed.
    ///
    /// # Errors
    ///
    /// Those of `Parser::feed`.
    pub fn feed(&mut self, piece: &[u8]) -> Result<(), ParseError>
        ensures fed { OnOk result ((start : Start) (bytes : List ℕ) → IsOwnedFed start self.old.feeder bytes → IsOwnedFed start self.new.feeder (bytes ++ piece.now)) }
        ensures few { OnOk result ((start : Start) (bytes : List ℕ) → IsOwnedFed start self.old.feeder bytes → length (bytes ++ piece.now) ≤ 2 ^ 33) }

        // At most three bytes are undecoded, and each token that ends far enough before the end of the decoded text was handed to tree construction.
        ensures prompt { OnOk result ((start : Start) (bytes : List ℕ) → IsOwnedFed start self.old.feeder bytes
            → IsSomeAnd self.new.feeder.stages (λ s. (tokens : List Token) × AreHandedOn start s.builder (bytes ++ piece.now) tokens)) }
        ensures cause { IfErr result (λ e. (start : Start) (bytes : List ℕ) → IsOwnedFed start self.old.feeder bytes → IsFeedCause start (bytes ++ piece.now) e) }
        ensures told { IfErr result (λ e. (start : Start) (bytes : List ℕ) → IsOwnedFed start self.old.feeder bytes
            → IsSomeAnd self.new.feeder.stages (λ s. IsToldIn start.limits s.builder.page e)) }
        ensures refused { OnErr result (IsOwnedStopped self.new.feeder) }
        ensures stopped { (result ≡ Err ParseError.Stopped) ↔ IsOwnedStopped self.old.feeder }
    {
        self.feeder.feed(piece)
    }

    /// Ends the input: the tree of all that was fed.
    ///
    /// # Errors
    ///
    /// Those of `Parser::finish`.
    pub fn finish(self) -> Result<Tree, ParseError>
        ensures tree { IfOk result (λ tree. (start : Start) (bytes : List ℕ) → IsOwnedFed start self.feeder bytes → IsTreeOf start bytes tree) }
        ensures root { IfOk result (λ tree. IsRoot tree.arena tree.root) }
        ensures cause { IfErr result (λ e. (start : Start) (bytes : List ℕ) → IsOwnedFed start self.feeder bytes → IsCause start bytes e) }
        ensures stopped { IsOwnedStopped self.feeder → result ≡ Err ParseError.Stopped }
    {
        let OwnedTreeParser { feeder } = self;
        let (table, stages) = feeder.into_parts()?;
        tree_of(stages, &table)
    }
}

/// The stages of a parser as options ask for, which was fed nothing and keeps no tokens.
fn begin_tree(
    alloc: Global,
    table: &EntityTable,
    options: &Options,
) -> Result<PausedStages, ParseError>
    ensures begun { IfOk result (λ s. HavePaused (start_of table.now options.now) table.now s []) }
    ensures good { OnOk result (HasGoodContext options.now) }
    ensures cause { IfErr result (IsBeginCause options.now) }
{
    let parser = Parser::new(alloc, table, options)?;
    let parser = parser.without_ledger();
    Ok(parser.feeder.stages.pause())
}

/// Ends the input: the tree of all that was fed to stages that go on.
fn tree_of(stages: PausedStages, table: &EntityTable) -> Result<Tree, ParseError>
    requires going { MayResume table.now stages }
    ensures tree { IfOk result (λ tree. (start : Start) (bytes : List ℕ) → HavePaused start table.now stages bytes → IsTreeOf start bytes tree) }
    ensures cause { IfErr result (λ e. (start : Start) (bytes : List ℕ) → HavePaused start table.now stages bytes → IsCause start bytes e) }
    ensures root { IfOk result (λ tree. IsRoot tree.arena tree.root) }
{
    let feeder = Feeder::of(stages.resume(table));
    TreeParser { feeder }.finish()
}
