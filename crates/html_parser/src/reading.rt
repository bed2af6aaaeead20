//! A page from a reader.

ghost use Rattle.std.specs.Prelude.{ℕ, ◌≡◌, ◌⊎◌, [], List, None, Err, true, false, IfErr, IfOk, OnOk};
ghost use Rattle.std.specs.Io.KnownBytes.{Consumes, IsAtEnd};
ghost use Rattle.html_arena.specs.Walking.{IsRoot};
ghost use Rattle.html_parser.specs.Parsed.{IsPageOf, IsTreeOf};
ghost use Rattle.html_parser.specs.Reading.{IsPieceCause, IsReaderCause};
ghost use Rattle.html_parser.specs.Options.{HasGoodContext, IsBeginCause, start_of};
ghost use Rattle.html_parser.specs.Start.{Start, document_start};

use crate::error::ParseError;
use crate::options::Options;
use crate::page::{Page, Tree};
use crate::parser::Parser;
use crate::tree_parser::TreeParser;
use html_charref::EntityTable;
use html_device::{FeedAllError, Pieces, Source, feed_all};
use std::alloc::Global;

/// The page of all that a reader has. Any fault of the reader is `Read`, an interruption too.
///
/// # Errors
///
/// `Read` where the reader failed; those of `Parser::feed`.
pub fn parse_from<S: Source>(
    alloc: Global,
    table: &EntityTable,
    reader: &mut S,
) -> Result<Page, ParseError>
    ensures page { IfOk result (λ page. (bytes : List ℕ) × Consumes (S.remaining reader.old) (S.remaining reader.new) bytes
        × IsPageOf (document_start table.now None) bytes page) }
    ensures root { IfOk result (λ page. IsRoot page.arena page.root) }
    ensures end { OnOk result (IsAtEnd (S.remaining reader.new)) }
    ensures cause { IfErr result (IsReaderCause (document_start table.now None) (S.remaining reader.old) (S.remaining reader.new) (S.failed reader.new)) }
    // A reader that fails is told, whatever comes after.
    ensures failing { S.failed reader.old ≡ false → S.failed reader.new ≡ true → result ≡ Err ParseError.Read }
{
    let mut parser = Parser::document(alloc, table)?;
    parser.feed_from(reader)?;
    parser.finish()
}

/// The tree of all that a reader has, without its ledger. Any fault of the reader is `Read`, an interruption too.
///
/// # Errors
///
/// Those of `parse_from`.
pub fn parse_tree_from<S: Source>(
    alloc: Global,
    table: &EntityTable,
    reader: &mut S,
) -> Result<Tree, ParseError>
    ensures tree { IfOk result (λ tree. (bytes : List ℕ) × Consumes (S.remaining reader.old) (S.remaining reader.new) bytes
        × IsTreeOf (document_start table.now None) bytes tree) }
    ensures root { IfOk result (λ tree. IsRoot tree.arena tree.root) }
    ensures end { OnOk result (IsAtEnd (S.remaining reader.new)) }
    ensures cause { IfErr result (IsReaderCause (document_start table.now None) (S.remaining reader.old) (S.remaining reader.new) (S.failed reader.new)) }
    // A reader that fails is told, whatever comes after.
    ensures failing { S.failed reader.old ≡ false → S.failed reader.new ≡ true → result ≡ Err ParseError.Read }
{
    let parser = Parser::document(alloc, table)?;
    let mut parser = parser.without_ledger();
    parser.feed_from(reader)?;
    parser.finish()
}

/// The page of all that a reader has, as these options ask for. Any fault of the reader is `Read`, an interruption too.
///
/// # Errors
///
/// Those of `Parser::new`, before a byte is read; `Read` where the reader failed; those of `Parser::feed`.
pub fn parse_from_with<S: Source>(
    alloc: Global,
    table: &EntityTable,
    options: &Options,
    reader: &mut S,
) -> Result<Page, ParseError>
    ensures page { IfOk result (λ page. (bytes : List ℕ) × Consumes (S.remaining reader.old) (S.remaining reader.new) bytes
        × IsPageOf (start_of table.now options.now) bytes page) }
    ensures root { IfOk result (λ page. IsRoot page.arena page.root) }
    ensures end { OnOk result (IsAtEnd (S.remaining reader.new)) }
    ensures good { OnOk result (HasGoodContext options.now) }
    ensures cause { IfErr result (λ e. IsBeginCause options.now e
        ⊎ IsReaderCause (start_of table.now options.now) (S.remaining reader.old) (S.remaining reader.new) (S.failed reader.new) e) }
    // A reader that fails is told, whatever comes after.
    ensures failing { S.failed reader.old ≡ false → S.failed reader.new ≡ true → result ≡ Err ParseError.Read }
{
    let mut parser = Parser::new(alloc, table, options)?;
    parser.feed_from(reader)?;
    parser.finish()
}

/// The tree of all that a reader has, as these options ask for, without its ledger. Any fault of the reader is `Read`, an interruption too.
///
/// # Errors
///
/// Those of `parse_from_with`.
pub fn parse_tree_from_with<S: Source>(
    alloc: Global,
    table: &EntityTable,
    options: &Options,
    reader: &mut S,
) -> Result<Tree, ParseError>
    ensures tree { IfOk result (λ tree. (bytes : List ℕ) × Consumes (S.remaining reader.old) (S.remaining reader.new) bytes
        × IsTreeOf (start_of table.now options.now) bytes tree) }
    ensures root { IfOk result (λ tree. IsRoot tree.arena tree.root) }
    ensures end { OnOk result (IsAtEnd (S.remaining reader.new)) }
    ensures good { OnOk result (HasGoodContext options.now) }
    ensures cause { IfErr result (λ e. IsBeginCause options.now e
        ⊎ IsReaderCause (start_of table.now options.now) (S.remaining reader.old) (S.remaining reader.new) (S.failed reader.new) e) }
    // A reader that fails is told, whatever comes after.
    ensures failing { S.failed reader.old ≡ false → S.failed reader.new ≡ true → result ≡ Err ParseError.Read }
{
    let parser = Parser::new(alloc, table, options)?;
    let mut parser = parser.without_ledger();
    parser.feed_from(reader)?;
    parser.finish()
}

impl Parser<'_> {
    ghost use Rattle.html_parser.specs.Reading.{IsKeeping};

    /// Takes all that a reader has, by a parser that was fed nothing.
    ///
    /// # Errors
    ///
    /// `Read` where the reader failed; those of `feed`.
    pub fn feed_from<S: Source>(&mut self, reader: &mut S) -> Result<(), ParseError>
        requires new { (start : Start) × IsKeeping start self.old.feeder [] }
        ensures fed { OnOk result ((bytes : List ℕ) × Consumes (S.remaining reader.old) (S.remaining reader.new) bytes
            × ((start : Start) → IsKeeping start self.old.feeder [] → IsKeeping start self.new.feeder bytes)) }
        ensures end { OnOk result (IsAtEnd (S.remaining reader.new)) }
        ensures cause { IfErr result (λ e. (start : Start) → IsKeeping start self.old.feeder []
            → IsPieceCause start (S.remaining reader.old) (S.remaining reader.new) (S.failed reader.new) e) }
        ensures failing { S.failed reader.new ≡ true → result ≡ Err ParseError.Read }
    {
        match feed_all(reader, self) {
            Ok(()) => Ok(()),
            Err(FeedAllError::Read) => Err(ParseError::Read),
            Err(FeedAllError::Refused(error)) => Err(error),
        }
    }
}

impl TreeParser<'_> {
    ghost use Rattle.html_parser.specs.Fed.{IsFed};

    /// Takes all that a reader has, by a parser that was fed nothing.
    ///
    /// # Errors
    ///
    /// `Read` where the reader failed; those of `feed`.
    pub fn feed_from<S: Source>(&mut self, reader: &mut S) -> Result<(), ParseError>
        requires new { (start : Start) × IsFed start self.old.feeder [] }
        ensures fed { OnOk result ((bytes : List ℕ) × Consumes (S.remaining reader.old) (S.remaining reader.new) bytes
            × ((start : Start) → IsFed start self.old.feeder [] → IsFed start self.new.feeder bytes)) }
        ensures end { OnOk result (IsAtEnd (S.remaining reader.new)) }
        ensures cause { IfErr result (λ e. (start : Start) → IsFed start self.old.feeder []
            → IsPieceCause start (S.remaining reader.old) (S.remaining reader.new) (S.failed reader.new) e) }
        ensures failing { S.failed reader.new ≡ true → result ≡ Err ParseError.Read }
    {
        match feed_all(reader, self) {
            Ok(()) => Ok(()),
            Err(FeedAllError::Read) => Err(ParseError::Read),
            Err(FeedAllError::Refused(refusal)) => Err(refusal),
        }
    }
}

impl Pieces for Parser<'_> {
    ghost use Rattle.html_parser.specs.Start.{Start as StartType};
    ghost use Rattle.html_parser.specs.Reading.{IsKeeping};
    ghost use Rattle.html_parser.specs.Causes.{IsFeedCause};

    type Refusal = ParseError;

    ghost Start = { StartType };

    ghost Fed = { λ start parser bytes. IsKeeping start parser.feeder bytes };

    ghost Refuses = { λ start bytes error. IsFeedCause start bytes error };

    fn feed(&mut self, piece: &[u8]) -> Result<(), ParseError> {
        Parser::feed(self, piece)
    }
}

impl Pieces for TreeParser<'_> {
    ghost use Rattle.html_parser.specs.Start.{Start as StartType};
    ghost use Rattle.html_parser.specs.Fed.{IsFed};
    ghost use Rattle.html_parser.specs.Causes.{IsFeedCause};

    type Refusal = ParseError;

    ghost Start = { StartType };

    ghost Fed = { λ start parser bytes. IsFed start parser.feeder bytes };

    ghost Refuses = { λ start bytes error. IsFeedCause start bytes error };

    fn feed(&mut self, piece: &[u8]) -> Result<(), ParseError> {
        TreeParser::feed(self, piece)
    }
}
