//! The parser that a job asks for.

ghost use Rattle.std.specs.Prelude.{◌≡◌, ◌⊎◌, ℕ, [], List, true, false, Err, IfErr, IfOk, OnOk};
ghost use Rattle.std.specs.Io.KnownBytes.{Consumes, IsAtEnd};
ghost use Rattle.html_parser.specs.Causes.{IsCause};
ghost use Rattle.html_parser.specs.Fed.{IsFed};
ghost use Rattle.html_parser.specs.Parsed.{IsPageOf, IsTreeOf};
ghost use Rattle.html_parser.specs.Staged.{KeepsTokens};
ghost use Rattle.html_run.specs.Jobs.{context_for, encoding_for, foreign_for, limits_for, options_for, start_for};
ghost use Rattle.html_parser.specs.Options.{IsBeginCause};
ghost use Rattle.html_run.specs.Refused.{IsReadCause};

use html_device::{ReadAllError, read_all};
use html_job::Job;
use html_parser::{
    Context, EntityTable, Foreign, Limits, Options, Page, ParseError, Parser, Source, Str, Tree,
    parse_tree_with,
};
use std::alloc::{AllocError, Global};

/// The tree of all that a reader has, as the job asks for it.
pub(crate) fn tree_for<R: Source>(
    alloc: Global,
    job: &Job<'_>,
    table: &EntityTable,
    reader: &mut R,
) -> Result<Tree, ParseError>
    ensures tree { IfOk result (λ tree. (bytes : List ℕ) × Consumes (R.remaining reader.old) (R.remaining reader.new) bytes
        × IsTreeOf (start_for job.now table.now) bytes tree) }
    ensures end { OnOk result (IsAtEnd (R.remaining reader.new)) }
    ensures cause { IfErr result (IsReadCause job.now table.now (R.remaining reader.old) (R.remaining reader.new) (R.failed reader.new)) }
    ensures failing { R.failed reader.old ≡ false → R.failed reader.new ≡ true → result ≡ Err ParseError.Read }
{
    let parser = parser_for(alloc, job, table)?;
    let mut parser = parser.without_ledger();
    let fed = parser.feed_from(reader);
    fed.and(parser.finish())
}

/// The tree of all that a reader has, as the job asks for it, and these bytes.
pub(crate) fn tree_and_bytes_for<R: Source>(
    alloc: Global,
    job: &Job<'_>,
    table: &EntityTable,
    reader: &mut R,
) -> Result<(Tree, Vec<u8>), ParseError>
    ensures tree { IfOk result (λ r. Consumes (R.remaining reader.old) (R.remaining reader.new) r.1.items × IsTreeOf (start_for job.now table.now) r.1.items r.0) }
    ensures end { OnOk result (IsAtEnd (R.remaining reader.new)) }
    ensures cause { IfErr result (IsReadCause job.now table.now (R.remaining reader.old) (R.remaining reader.new) (R.failed reader.new)) }
    ensures failing { R.failed reader.old ≡ false → R.failed reader.new ≡ true → result ≡ Err ParseError.Read }
{
    let bytes = bytes_of(alloc, reader)?;
    match tree_of(alloc, job, table, bytes.as_slice()) {
        Ok(tree) => Ok((tree, bytes)),
        Err(error) => Err(error),
    }
}

/// The tree of an input, as the job asks for it.
fn tree_of(
    alloc: Global,
    job: &Job<'_>,
    table: &EntityTable,
    bytes: &[u8],
) -> Result<Tree, ParseError>
    ensures tree { IfOk result (IsTreeOf (start_for job.now table.now) bytes.now) }
    ensures cause { IfErr result (λ e. IsCause (start_for job.now table.now) bytes.now e ⊎ IsBeginCause (options_for job.now) e) }
{
    let options = options_of(alloc, job)?;
    parse_tree_with(alloc, table, &options, bytes)
}

/// All bytes that a reader has.
fn bytes_of<R: Source>(alloc: Global, reader: &mut R) -> Result<Vec<u8>, ParseError>
    ensures bytes { IfOk result (λ v. Consumes (R.remaining reader.old) (R.remaining reader.new) v.items) }
    ensures end { OnOk result (IsAtEnd (R.remaining reader.new)) }
    ensures cause { IfErr result (λ e. (e ≡ ParseError.OutOfMemory) ⊎ ((e ≡ ParseError.Read) × (R.failed reader.new ≡ true))) }
    ensures failing { R.failed reader.new ≡ true → result ≡ Err ParseError.Read }
{
    match read_all(alloc, reader) {
        Ok(bytes) => Ok(bytes),
        Err(ReadAllError::OutOfMemory) => Err(ParseError::OutOfMemory),
        Err(ReadAllError::Read) => Err(ParseError::Read),
    }
}

/// The page of all that a reader has, with its ledger, as the job asks for it.
pub(crate) fn page_for<R: Source>(
    alloc: Global,
    job: &Job<'_>,
    table: &EntityTable,
    reader: &mut R,
) -> Result<Page, ParseError>
    ensures page { IfOk result (λ page. (bytes : List ℕ) × Consumes (R.remaining reader.old) (R.remaining reader.new) bytes
        × IsPageOf (start_for job.now table.now) bytes page) }
    ensures end { OnOk result (IsAtEnd (R.remaining reader.new)) }
    ensures cause { IfErr result (IsReadCause job.now table.now (R.remaining reader.old) (R.remaining reader.new) (R.failed reader.new)) }
    ensures failing { R.failed reader.old ≡ false → R.failed reader.new ≡ true → result ≡ Err ParseError.Read }
{
    let mut parser = parser_for(alloc, job, table)?;
    let fed = parser.feed_from(reader);
    fed.and(parser.finish())
}

/// The parser for a job: of a document, or of a fragment in the context that the job names, within its limits, with what it asks for foreign content.
fn parser_for<'a>(
    alloc: Global,
    job: &Job<'_>,
    table: &'a EntityTable,
) -> Result<Parser<'a>, ParseError>
    ensures begun { IfOk result (λ p. IsFed (start_for job.now table.entry.now) p.feeder []) }
    ensures keeps { IfOk result (λ p. KeepsTokens p.feeder.stages) }
    ensures cause { IfErr result (IsBeginCause (options_for job.now)) }
{
    let options = options_of(alloc, job)?;
    Parser::new(alloc, table, &options)
}

/// The options of a job.
fn options_of(alloc: Global, job: &Job<'_>) -> Result<Options, AllocError>
    ensures value { IfOk result (λ o. o ≡ options_for job.now) }
{
    Ok(Options {
        limits: Some(limits_of(job)),
        foreign: foreign_of(job.foreign),
        context: context_of(alloc, job)?,
    })
}

/// The context of a job's page, where it is a fragment: in no form, and in no quirks mode.
fn context_of(alloc: Global, job: &Job<'_>) -> Result<Option<Context>, AllocError>
    ensures value { IfOk result (λ c. c ≡ context_for job.now) }
{
    match job.fragment {
        None => Ok(None),
        Some(name) => Ok(Some(Context {
            name: Str::of(alloc, name)?,
            in_form: false,
            quirks: false,
            encoding: encoding_of(alloc, job)?,
        })),
    }
}

/// The value of the attribute `encoding` of a job's context, if it has one.
fn encoding_of(alloc: Global, job: &Job<'_>) -> Result<Option<Str>, AllocError>
    ensures value { IfOk result (λ e. e ≡ encoding_for job.now) }
{
    match job.context_encoding {
        None => Ok(None),
        Some(value) => Ok(Some(Str::of(alloc, value)?)),
    }
}

/// What a job asks to be done with foreign content.
fn foreign_of(foreign: html_job::Foreign) -> Foreign
    ensures value { result ≡ foreign_for foreign }
{
    match foreign {
        html_job::Foreign::Refuse => Foreign::Refuse,
        html_job::Foreign::Parse => Foreign::Parse,
    }
}

/// The limits of a job; what it sets no limit on has the greatest that is told by 64 bits.
fn limits_of(job: &Job<'_>) -> Limits
    ensures value { result ≡ limits_for job.now }
{
    Limits {
        nodes: job.max_nodes.unwrap_or(u64::MAX),
        held: job.max_held.unwrap_or(u64::MAX),
        code_points: job.max_input.unwrap_or(u64::MAX),
        steps: job.max_steps.unwrap_or(u64::MAX),
    }
}
