//! Bytes in pieces to a tree without its ledger.

ghost use Rattle.std.specs.Prelude.{◌≡◌, ◌↔◌, ◌++◌, ◌≤◌, ◌^◌, ℕ, List, Err, IfErr, IfOk, OnErr, OnOk, length};
ghost use Rattle.html_tokens.specs.declared.token.Token.{Token};
ghost use Rattle.html_parser.specs.Causes.{IsCause, IsFeedCause, IsToldIn};
ghost use Rattle.html_parser.specs.Feeding.{AreHandedOn};
ghost use Rattle.html_parser.specs.Parsed.{IsTreeOf};
ghost use Rattle.html_parser.specs.Start.{Start};

use crate::error::ParseError;
use crate::feeder::Feeder;
use crate::page::Tree;
use std::alloc::Global;

/// A parser like `Parser`, which keeps no tokens. It is made from one, by `Parser::without_ledger`.
#[derive(Drop)]
pub struct TreeParser<'a> {
    pub(crate) feeder: Feeder<'a>,
}

impl TreeParser<'_> {
    ghost use Rattle.html_parser.specs.Fed.{IsFed, IsStopped};

    /// Takes a piece of the input. Each token that its code points decide is processed.
    ///
    /// # Errors
    ///
    /// Those of `Parser::feed`.
    pub fn feed(&mut self, piece: &[u8]) -> Result<(), ParseError>
        ensures fed { OnOk result ((start : Start) (bytes : List ℕ) → IsFed start self.old.feeder bytes → IsFed start self.new.feeder (bytes ++ piece.now)) }
        ensures few { OnOk result ((start : Start) (bytes : List ℕ) → IsFed start self.old.feeder bytes → length (bytes ++ piece.now) ≤ 2 ^ 33) }

        // At most three bytes are undecoded, and each token that ends far enough before the end of the decoded text was handed to tree construction.
        ensures prompt { OnOk result ((start : Start) (bytes : List ℕ) → IsFed start self.old.feeder bytes
            → (tokens : List Token) × AreHandedOn start self.new.feeder.stages.builder (bytes ++ piece.now) tokens) }
        ensures cause { IfErr result (λ e. (start : Start) (bytes : List ℕ) → IsFed start self.old.feeder bytes → IsFeedCause start (bytes ++ piece.now) e) }
        ensures told { IfErr result (λ e. (start : Start) (bytes : List ℕ) → IsFed start self.old.feeder bytes → IsToldIn start.limits self.new.feeder.stages.builder.page e) }
        ensures refused { OnErr result (IsStopped self.new.feeder) }
        ensures stopped { (result ≡ Err ParseError.Stopped) ↔ IsStopped self.old.feeder }
    {
        self.feeder.feed(piece)
    }

    /// Ends the input: the tree of all that was fed.
    ///
    /// # Errors
    ///
    /// Those of `Parser::finish`.
    pub fn finish(self) -> Result<Tree, ParseError>
        ensures tree { IfOk result (λ tree. (start : Start) (bytes : List ℕ) → IsFed start self.entry.feeder bytes → IsTreeOf start bytes tree) }
        ensures cause { IfErr result (λ e. (start : Start) (bytes : List ℕ) → IsFed start self.entry.feeder bytes → IsCause start bytes e) }
        ensures stopped { IsStopped self.entry.feeder → result ≡ Err ParseError.Stopped }
    {
        let TreeParser { mut feeder } = self;
        feeder.end()?;
        feeder.stages.into_tree()
    }
}
