//! Bytes in pieces to a page.

ghost use Rattle.std.specs.Prelude.{◌≡◌, ◌↔◌, ◌++◌, ◌≤◌, ◌<◌, ◌^◌, ◌⊎◌, ℕ, List, [], None, Some, Err, false, true, IfErr, IfOk, OnErr, OnOk, length};
ghost use Rattle.html_parser.specs.Causes.{IsCause, IsFeedCause, IsToldIn};
ghost use Rattle.html_parser.specs.Feeding.{AreHandedOn};
ghost use Rattle.html_parser.specs.Parsed.{IsPageOf};
ghost use Rattle.html_parser.specs.Staged.{KeepsTokens};
ghost use Rattle.html_builder.specs.Contexts.{IsGood, setting_of};
ghost use Rattle.html_builder.specs.Handed.{Handed, fates_of, is_stopped, parses_foreign};
ghost use Rattle.html_input.specs.Fed.{Fed as Decodes};
ghost use Rattle.html_ledger.specs.declared.setting.Setting.TheVariants.{Document};
ghost use Rattle.html_parser.specs.Options.{HasGoodContext, IsBeginCause, is_context, start_of};
ghost use Rattle.html_parser.specs.Making.{IsDocumentCause, IsFragmentCause};
ghost use Rattle.html_parser.specs.Start.{Start, document_start, fragment_start, most_within, parses, setting_in};

use crate::error::ParseError;
use crate::feeder::Feeder;
use crate::options::{Foreign, Options};
use crate::page::Page;
use crate::tree_parser::TreeParser;
use html_arena::Limits;
use html_builder::{BuildError, Builder, Context};
use html_charref::EntityTable;
use html_input::Decoder;
use html_token_list::Tokens;
use html_tokens::TextMode;
use std::alloc::Global;

/// A parser that takes its input in pieces, cut anywhere, and hands on what they decide at once: between calls at most three bytes are
/// undecoded. It keeps the tokens and what became of each. Once it refused a piece it takes no more. It reads named character references
/// by a table, which it borrows.
#[derive(Drop)]
pub struct Parser<'a> {
    pub(crate) feeder: Feeder<'a>,
}

impl<'a> Parser<'a> {
    ghost use Rattle.html_parser.specs.Fed.{IsFed, IsStopped};

    /// A parser as these options ask for.
    ///
    /// # Errors
    ///
    /// `BadContext` where the context is none that a fragment can have: where foreign content is refused no start tag can have its name, or the name is
    /// `svg` or `math`; where it is parsed it isn't that of an element of foreign content either. `NodeBudget` and `HeldBudget` at 0 where not even the
    /// first node is within the limits; `OutOfMemory`.
    pub fn new(
        alloc: Global,
        table: &'a EntityTable,
        options: &Options,
    ) -> Result<Parser<'a>, ParseError>
        ensures begun { IfOk result (λ p. IsFed (start_of table.entry.now options.now) p.feeder []) }
        ensures keeps { IfOk result (λ p. KeepsTokens p.feeder.stages) }
        ensures empty { IfOk result (λ p. p.feeder.stages.kept.tokens ≡ []) }
        ensures good { OnOk result (HasGoodContext options.now) }
        ensures cause { IfErr result (IsBeginCause options.now) }
    {
        let decoder = decoder_within(options.limits);
        let builder = builder_for(alloc, options)?;
        let mode = options.text_mode();
        let feeder = Feeder::new(alloc, table, decoder, mode, builder)?;
        Ok(Parser { feeder })
    }

    /// A parser of a document.
    ///
    /// # Errors
    ///
    /// `OutOfMemory`.
    pub fn document(alloc: Global, table: &'a EntityTable) -> Result<Parser<'a>, ParseError>
        ensures begun { IfOk result (λ p. IsFed (document_start table.entry.now None) p.feeder []) }
        ensures keeps { IfOk result (λ p. KeepsTokens p.feeder.stages) }
        ensures empty { IfOk result (λ p. p.feeder.stages.kept.tokens ≡ []) }
        ensures cause { IfErr result (λ e. e ≡ ParseError.OutOfMemory) }
    {
        let builder = Builder::document(alloc)?;
        let feeder = Feeder::new(alloc, table, Decoder::new(), TextMode::Data, builder)?;
        Ok(Parser { feeder })
    }

    /// A parser of a document within limits on nodes, on held code points, and on the code points of the input.
    ///
    /// # Errors
    ///
    /// `NodeBudget` at 0 where not even the document is within them; `OutOfMemory`.
    pub fn document_within(
        alloc: Global,
        table: &'a EntityTable,
        limits: Limits,
    ) -> Result<Parser<'a>, ParseError>
        ensures begun { IfOk result (λ p. IsFed (document_start table.entry.now (Some limits)) p.feeder []) }
        ensures keeps { IfOk result (λ p. KeepsTokens p.feeder.stages) }
        ensures empty { IfOk result (λ p. p.feeder.stages.kept.tokens ≡ []) }
        ensures cause { IfErr result (λ e. (e ≡ ParseError.OutOfMemory) ⊎ ((e ≡ ParseError.NodeBudget 0) × (limits.nodes < 1))) }
    {
        let decoder = Decoder::with_limit(limits.code_points);
        let builder = Builder::document_within(alloc, limits)?;
        let feeder = Feeder::new(alloc, table, decoder, TextMode::Data, builder)?;
        Ok(Parser { feeder })
    }

    /// A parser of a fragment in a context (13.4).
    ///
    /// # Errors
    ///
    /// `BadContext` where no start tag can have the name of the context, or the name is `svg` or `math`; `OutOfMemory`.
    pub fn fragment(
        alloc: Global,
        table: &'a EntityTable,
        context: &Context,
    ) -> Result<Parser<'a>, ParseError>
        ensures begun { IfOk result (λ p. IsFed (fragment_start table.entry.now context.now None) p.feeder []) }
        ensures keeps { IfOk result (λ p. KeepsTokens p.feeder.stages) }
        ensures empty { IfOk result (λ p. p.feeder.stages.kept.tokens ≡ []) }
        ensures good { OnOk result (IsGood context.now) }
        ensures cause { IfErr result (λ e. (e ≡ ParseError.OutOfMemory) ⊎ ((e ≡ ParseError.BadContext) × (IsGood context.now → ⊥))) }
    {
        let builder = Builder::fragment(alloc, context)?;
        let feeder = Feeder::new(alloc, table, Decoder::new(), context.text_mode(), builder)?;
        Ok(Parser { feeder })
    }

    /// A parser of a fragment in a context, within limits on nodes, on held code points, and on the code points of the input.
    ///
    /// # Errors
    ///
    /// `BadContext` as in `fragment`, before all else; `NodeBudget` and `HeldBudget` at 0 where not even the root is within the limits;
    /// `OutOfMemory`.
    pub fn fragment_within(
        alloc: Global,
        table: &'a EntityTable,
        context: &Context,
        limits: Limits,
    ) -> Result<Parser<'a>, ParseError>
        ensures begun { IfOk result (λ p. IsFed (fragment_start table.entry.now context.now (Some limits)) p.feeder []) }
        ensures keeps { IfOk result (λ p. KeepsTokens p.feeder.stages) }
        ensures empty { IfOk result (λ p. p.feeder.stages.kept.tokens ≡ []) }
        ensures good { OnOk result (IsGood context.now) }
        ensures cause { IfErr result (λ e. (e ≡ ParseError.OutOfMemory) ⊎ ((e ≡ ParseError.BadContext) × (IsGood context.now → ⊥))
            ⊎ ((e ≡ ParseError.NodeBudget 0) × (limits.nodes < 1)) ⊎ ((e ≡ ParseError.HeldBudget 0) × (limits.held < 4))) }
    {
        let decoder = Decoder::with_limit(limits.code_points);
        let builder = Builder::fragment_within(alloc, context, limits)?;
        let feeder = Feeder::new(alloc, table, decoder, context.text_mode(), builder)?;
        Ok(Parser { feeder })
    }

    /// The same parser, which from here on keeps no tokens and hands out a tree alone.
    pub fn without_ledger(self) -> TreeParser<'a>
        ensures fed { (start : Start) (bytes : List ℕ) → IsFed start self.entry.feeder bytes → IsFed start result.feeder bytes }
        ensures stopped { IsStopped result.feeder ↔ IsStopped self.entry.feeder }
    {
        let Parser { mut feeder } = self;
        feeder.keep_no_tokens();
        TreeParser { feeder }
    }

    /// Takes a piece of the input. Each token that its code points decide is processed.
    ///
    /// # Errors
    ///
    /// `InputTooLong` where the code points so far pass the limit; `ForeignContent` for a start tag `svg` or `math` that the rules of the
    /// body meet, where foreign content is refused; `NodeBudget` and `HeldBudget` where a token would pass a limit; `OutOfMemory`. After a refusal each later call answers
    /// `Stopped`.
    pub fn feed(&mut self, piece: &[u8]) -> Result<(), ParseError>
        ensures fed { OnOk result ((start : Start) (bytes : List ℕ) → IsFed start self.old.feeder bytes → IsFed start self.new.feeder (bytes ++ piece.now)) }
        ensures few { OnOk result ((start : Start) (bytes : List ℕ) → IsFed start self.old.feeder bytes → length (bytes ++ piece.now) ≤ 2 ^ 33) }
        ensures keeps { OnOk result (KeepsTokens self.old.feeder.stages → KeepsTokens self.new.feeder.stages) }

        // At most three bytes are undecoded, and each token that ends far enough before the end of the decoded text was handed to tree construction and is among the tokens.
        ensures prompt { OnOk result ((start : Start) (bytes : List ℕ) → IsFed start self.old.feeder bytes → KeepsTokens self.old.feeder.stages
            → AreHandedOn start self.new.feeder.stages.builder (bytes ++ piece.now) self.new.feeder.stages.kept.tokens) }
        ensures cause { IfErr result (λ e. (start : Start) (bytes : List ℕ) → IsFed start self.old.feeder bytes → IsFeedCause start (bytes ++ piece.now) e) }
        ensures told { IfErr result (λ e. (start : Start) (bytes : List ℕ) → IsFed start self.old.feeder bytes → IsToldIn start.limits self.new.feeder.stages.builder.page e) }
        ensures refused { OnErr result (IsStopped self.new.feeder) }
        ensures stopped { (result ≡ Err ParseError.Stopped) ↔ IsStopped self.old.feeder }
    {
        self.feeder.feed(piece)
    }

    /// The tokens that were processed.
    pub fn tokens(&self) -> &Tokens
        ensures value { result.now ≡ self.now.feeder.stages.kept.tokens }
    {
        self.feeder.tokens()
    }

    /// Ends the input: the page of all that was fed.
    ///
    /// # Errors
    ///
    /// Those of `feed`, and `Stopped` after a refusal.
    pub fn finish(self) -> Result<Page, ParseError>
        ensures page { IfOk result (λ page. (start : Start) (bytes : List ℕ) → IsFed start self.entry.feeder bytes → KeepsTokens self.entry.feeder.stages
            → IsPageOf start bytes page) }
        ensures cause { IfErr result (λ e. (start : Start) (bytes : List ℕ) → IsFed start self.entry.feeder bytes → IsCause start bytes e) }
        ensures stopped { IsStopped self.entry.feeder → result ≡ Err ParseError.Stopped }
    {
        let Parser { mut feeder } = self;
        feeder.end()?;
        feeder.stages.into_page()
    }
}

/// A decoder of at most as many code points as the limits allow, where there are any.
fn decoder_within(limits: Option<Limits>) -> Decoder
    ensures decodes { Decodes (most_within limits) false result [] [] }
{
    match limits {
        None => Decoder::new(),
        Some(limits) => Decoder::with_limit(limits.code_points),
    }
}

/// Tree construction as these options ask for.
fn builder_for(alloc: Global, options: &Options) -> Result<Builder, ParseError>
    ensures handed { IfOk result (λ b. Handed (setting_in options.now.context) options.now.limits [] b) }
    ensures fates { IfOk result (λ b. fates_of b ≡ []) }
    ensures fresh { IfOk result (λ b. is_stopped b ≡ false) }
    ensures parses { IfOk result (λ b. parses_foreign b ≡ parses options.now.foreign) }
    ensures good { OnOk result (HasGoodContext options.now) }
    ensures cause { IfErr result (IsBeginCause options.now) }
{
    match &options.context {
        None => {
            let builder = document_for(alloc, options.limits, options.foreign)?;
            Ok(builder)
        }
        Some(context) => {
            let builder = fragment_for(alloc, context, options.limits, options.foreign)?;
            Ok(builder)
        }
    }
}

/// Tree construction of a document.
fn document_for(
    alloc: Global,
    limits: Option<Limits>,
    foreign: Foreign,
) -> Result<Builder, BuildError>
    ensures handed { IfOk result (λ b. Handed Document limits [] b) }
    ensures fates { IfOk result (λ b. fates_of b ≡ []) }
    ensures fresh { IfOk result (λ b. is_stopped b ≡ false) }
    ensures parses { IfOk result (λ b. parses_foreign b ≡ parses foreign) }
    ensures cause { IfErr result (IsDocumentCause limits) }
{
    match foreign {
        Foreign::Parse => Builder::foreign_document(alloc, limits),
        Foreign::Refuse => match limits {
            None => Builder::document(alloc),
            Some(limits) => Builder::document_within(alloc, limits),
        },
    }
}

/// Tree construction of a fragment in a context.
fn fragment_for(
    alloc: Global,
    context: &Context,
    limits: Option<Limits>,
    foreign: Foreign,
) -> Result<Builder, BuildError>
    ensures handed { IfOk result (λ b. Handed (setting_of context.now) limits [] b) }
    ensures fates { IfOk result (λ b. fates_of b ≡ []) }
    ensures fresh { IfOk result (λ b. is_stopped b ≡ false) }
    ensures parses { IfOk result (λ b. parses_foreign b ≡ parses foreign) }
    ensures good { OnOk result (is_context foreign context.now.name ≡ true) }
    ensures cause { IfErr result (IsFragmentCause foreign context.now.name limits) }
{
    match foreign {
        Foreign::Parse => Builder::foreign_fragment(alloc, context, limits),
        Foreign::Refuse => match limits {
            None => Builder::fragment(alloc, context),
            Some(limits) => Builder::fragment_within(alloc, context, limits),
        },
    }
}
