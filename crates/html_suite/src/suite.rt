//! A file of cases, run and counted.

ghost use Rattle.std.specs.Prelude.{◌≡◌, ◌≢◌, ◌⊎◌, ◌++◌, true, ℕ, List, Option, IfOk, OnErr, OnOk, Err, decimal, codes};
ghost use Rattle.std.specs.Bool.{MatchBool};
ghost use Rattle.std.specs.Io.KnownBytes.{Appends};
ghost use Rattle.std.specs.List.{count_by};
ghost use Rattle.html_device.specs.Device.{AppendsFront};
ghost use Rattle.html_parser.specs.declared.error.ParseError.TheVariants.{OutOfMemory as NoMemory, Write as NotWritten};
ghost use Rattle.html_print.specs.Outcome.{line_of};
ghost use Rattle.html_print.specs.Told.{IsTold};
ghost use Rattle.html_suite.specs.Ended.{HasEnd, IsOfNoKind, malformed_line};
ghost use Rattle.html_suite.specs.Report.{HasRun, IsCountOf, IsReported, counts_line, difference_lines, failed_text, has_failed, texts_of};
ghost use Rattle.html_suite.specs.declared.counts.Outcome.{Outcome as OutcomeType};
ghost use Rattle.html_suite.specs.declared.suite.SuiteFault.TheVariants.{Malformed, OutOfMemory, Write as WriterFailed};

use crate::case::{SuiteOptions, run_case};
use crate::counts::{Counts, Difference, Outcome};
use crate::dat::cases_of;
use crate::texts::CaseFault;
use crate::tree_case::run_tree_case;
use html_device::{DeviceFault, Piece, write_pieces};
use html_parser::{EntityTable, ParseError};
use html_print::{DONE, FILE_FAULT, REFUSED, Sink, tell};
use serde_json::Value;
use std::alloc::{AllocError, Global};

/// The state of a test that names none.
const DATA_STATE: &str = "Data state";

/// Why a file was not run to its end.
enum SuiteFault {
    /// It is no file of cases.
    Malformed,
    OutOfMemory,
    Write,
}

/// Runs the cases of a file and answers the status: `DONE` where none failed, `REFUSED` where one failed or memory was
/// refused, `FILE_FAULT` where the bytes are no file of cases or the writer failed. For each failed case it writes
/// `NAME: case K failed`, where K counts the cases from 1, below it, where
/// `options` ask for it, what was expected and what came, and at the end `NAME: passed P, failed F, skipped S`.
///
/// A file whose name ends in `.test` has cases of tokens, as JSON: an object whose `tests` are objects with `input` and
/// `output`, and perhaps `initialStates`, `lastStartTag` and `doubleEscaped`. Each initial state is a case of its own. A
/// case is skipped where its state is none of the text modes, or its texts have halves of surrogate pairs; one that begins
/// in a CDATA section is run where `options` ask for it.
///
/// A file whose name ends in `.dat` has cases of trees: the input stands under a line `#data`, up to a line `#errors`, and
/// the tree under a line `#document`, as the command `tree` prints it; between them a line `#document-fragment` is followed
/// by the name of a context. A case is skipped where there is a line `#script-on`; and, unless `options` ask for foreign content,
/// where its context is no HTML element, or its page has foreign content.
pub fn suite_file<W: Sink, F: Sink>(
    alloc: Global,
    name: &str,
    bytes: &[u8],
    table: &EntityTable,
    options: SuiteOptions,
    writer: &mut W,
    faults: &mut F,
) -> u8
    // Where the cases were run, their lines are written and nothing is told; else one line tells why they were not.
    ensures done { result ≡ DONE → (F.taken faults.new ≡ F.taken faults.old)
        × ((cases : List OutcomeType) × (count_by has_failed cases ≡ 0) × IsReported options.verbose name.now cases (W.taken writer.old) (W.taken writer.new)) }
    ensures refused { result ≡ REFUSED → ((F.taken faults.new ≡ F.taken faults.old)
        × ((cases : List OutcomeType) × (count_by has_failed cases ≢ 0) × IsReported options.verbose name.now cases (W.taken writer.old) (W.taken writer.new)))
        ⊎ IsTold (F.taken faults.old) (F.taken faults.new) (F.failed faults.new) (F.stalled faults.new) (line_of NoMemory name.now) }
    ensures failed { result ≡ FILE_FAULT → (IsTold (F.taken faults.old) (F.taken faults.new) (F.failed faults.new) (F.stalled faults.new) (line_of NotWritten name.now)
        × ((W.failed writer.new ≡ true) ⊎ (W.stalled writer.new ≡ true)))
        ⊎ IsTold (F.taken faults.old) (F.taken faults.new) (F.failed faults.new) (F.stalled faults.new) (malformed_line name.now) }
    // Any bytes are cases of trees.
    ensures trees { HasEnd name.now (codes ".dat") → result ≡ FILE_FAULT
        → IsTold (F.taken faults.old) (F.taken faults.new) (F.failed faults.new) (F.stalled faults.new) (line_of NotWritten name.now) }
    ensures other { IsOfNoKind name.now → (result ≡ FILE_FAULT)
        × IsTold (F.taken faults.old) (F.taken faults.new) (F.failed faults.new) (F.stalled faults.new) (malformed_line name.now) }
    ensures status { (result ≡ DONE) ⊎ ((result ≡ REFUSED) ⊎ (result ≡ FILE_FAULT)) }
{
    match run_file(alloc, name, bytes, table, options, writer) {
        Ok(counts) => status_of(&counts),
        Err(SuiteFault::OutOfMemory) => tell(alloc, &ParseError::OutOfMemory, name, faults),
        Err(SuiteFault::Write) => tell(alloc, &ParseError::Write, name, faults),
        Err(SuiteFault::Malformed) => {
            tell_malformed(name, faults);
            FILE_FAULT
        }
    }
}

/// The status where the cases of a file were run.
fn status_of(counts: &Counts) -> u8
    ensures done { result ≡ DONE → counts.now.failed ≡ 0 }
    ensures refused { result ≡ REFUSED → counts.now.failed ≢ 0 }
    ensures either { (result ≡ DONE) ⊎ (result ≡ REFUSED) }
{
    if counts.failed == 0 { DONE } else { REFUSED }
}

/// Tells that a file is no file of cases.
fn tell_malformed<F: Sink>(name: &str, faults: &mut F)
    ensures { IsTold (F.taken faults.old) (F.taken faults.new) (F.failed faults.new) (F.stalled faults.new) (malformed_line name.now) }
{
    let _ = write_malformed(name, faults);
}

/// Writes the line that tells that a file is no file of cases.
fn write_malformed<F: Sink>(name: &str, faults: &mut F) -> Result<(), DeviceFault>
    ensures ok { OnOk result (Appends (F.taken faults.old) (F.taken faults.new) (malformed_line name.now)) }
    ensures err { OnErr result (AppendsFront (F.taken faults.old) (F.taken faults.new) (malformed_line name.now)) }
    ensures fault { OnErr result ((F.failed faults.new ≡ true) ⊎ (F.stalled faults.new ≡ true)) }
{
    write_pieces(
        faults,
        &[
            Piece::Text("fault: "),
            Piece::Text(name),
            Piece::Text(": not a test file\n"),
        ],
    )
}

/// Whether a name has this end.
fn has_end(name: &str, end: &str) -> bool
    ensures { MatchBool result (HasEnd name.now end.now) ((front : List ℕ) → name.now ≢ front ++ end.now) }
{
    name.ends_with(end)
}

/// Runs the cases of a file, and writes the line of how many ended how.
fn run_file<W: Sink>(
    alloc: Global,
    name: &str,
    bytes: &[u8],
    table: &EntityTable,
    options: SuiteOptions,
    writer: &mut W,
) -> Result<Counts, SuiteFault>
    ensures run { IfOk result (λ counts. (cases : List OutcomeType) × IsCountOf counts cases × IsReported options.verbose name.now cases (W.taken writer.old) (W.taken writer.new)) }
    ensures fault { result ≡ Err WriterFailed → (W.failed writer.new ≡ true) ⊎ (W.stalled writer.new ≡ true) }
    ensures trees { HasEnd name.now (codes ".dat") → result ≢ Err Malformed }
    ensures other { IsOfNoKind name.now → result ≡ Err Malformed }
{
    let counts = run_cases(alloc, name, bytes, table, options, writer)?;
    write_counts(name, &counts, writer)?;
    Ok(counts)
}

/// Runs the cases of a file, by the kind that its name tells.
fn run_cases<W: Sink>(
    alloc: Global,
    name: &str,
    bytes: &[u8],
    table: &EntityTable,
    options: SuiteOptions,
    writer: &mut W,
) -> Result<Counts, SuiteFault>
    ensures run { IfOk result (λ counts. HasRun options.verbose name.now (W.taken writer.old) (W.taken writer.new) counts) }
    ensures fault { result ≡ Err WriterFailed → (W.failed writer.new ≡ true) ⊎ (W.stalled writer.new ≡ true) }
    ensures trees { HasEnd name.now (codes ".dat") → result ≢ Err Malformed }
    ensures other { IsOfNoKind name.now → result ≡ Err Malformed }
{
    let mut counts = Counts::new();
    if has_end(name, ".dat") {
        run_trees(alloc, name, bytes, table, options, &mut counts, writer)?;
    } else if has_end(name, ".test") {
        run_tests(alloc, name, bytes, table, options, &mut counts, writer)?;
    } else {
        return Err(SuiteFault::Malformed);
    }
    Ok(counts)
}

/// Runs cases of tokens.
fn run_tests<W: Sink>(
    alloc: Global,
    name: &str,
    bytes: &[u8],
    table: &EntityTable,
    options: SuiteOptions,
    counts: &mut Counts,
    writer: &mut W,
) -> Result<(), SuiteFault>
    ensures run { (start : Option (List ℕ)) → HasRun options.verbose name.now start (W.taken writer.old) counts.old → OnOk result (HasRun options.verbose name.now start (W.taken writer.new) counts.new) }
    ensures fault { result ≡ Err WriterFailed → (W.failed writer.new ≡ true) ⊎ (W.stalled writer.new ≡ true) }
{
    let value = Value::from_slice(alloc, bytes)?;
    run_value(alloc, name, &value, table, options, counts, writer)
}

fn run_value<W: Sink>(
    alloc: Global,
    name: &str,
    value: &Value,
    table: &EntityTable,
    options: SuiteOptions,
    counts: &mut Counts,
    writer: &mut W,
) -> Result<(), SuiteFault>
    ensures run { (start : Option (List ℕ)) → HasRun options.verbose name.now start (W.taken writer.old) counts.old → OnOk result (HasRun options.verbose name.now start (W.taken writer.new) counts.new) }
    ensures fault { result ≡ Err WriterFailed → (W.failed writer.new ≡ true) ⊎ (W.stalled writer.new ≡ true) }
{
    if !value.is_object() {
        return Err(SuiteFault::Malformed);
    }
    let Some(tests) = value.get("tests") else {
        return Ok(());
    };
    let Some(tests) = tests.as_array() else {
        return Err(SuiteFault::Malformed);
    };
    'tests: for test in tests {
        run_test(alloc, name, test, table, options, counts, writer)?;
    }
    Ok(())
}

/// Runs cases of trees.
fn run_trees<W: Sink>(
    alloc: Global,
    name: &str,
    bytes: &[u8],
    table: &EntityTable,
    options: SuiteOptions,
    counts: &mut Counts,
    writer: &mut W,
) -> Result<(), SuiteFault>
    ensures run { (start : Option (List ℕ)) → HasRun options.verbose name.now start (W.taken writer.old) counts.old → OnOk result (HasRun options.verbose name.now start (W.taken writer.new) counts.new) }
    ensures fault { result ≡ Err WriterFailed → (W.failed writer.new ≡ true) ⊎ (W.stalled writer.new ≡ true) }
    ensures formed { result ≢ Err Malformed }
{
    let cases = cases_of(alloc, bytes)?;
    'cases: for case in &cases {
        let outcome = run_tree_case(alloc, case, table, options)?;
        count(name, options.verbose, counts, &outcome, writer)?;
    }
    Ok(())
}

/// Runs a test in each of its initial states.
fn run_test<W: Sink>(
    alloc: Global,
    name: &str,
    test: &Value,
    table: &EntityTable,
    options: SuiteOptions,
    counts: &mut Counts,
    writer: &mut W,
) -> Result<(), SuiteFault>
    ensures run { (start : Option (List ℕ)) → HasRun options.verbose name.now start (W.taken writer.old) counts.old → OnOk result (HasRun options.verbose name.now start (W.taken writer.new) counts.new) }
    ensures fault { result ≡ Err WriterFailed → (W.failed writer.new ≡ true) ⊎ (W.stalled writer.new ≡ true) }
{
    let Some(states) = test.get("initialStates") else {
        let outcome = run_case(alloc, test, DATA_STATE, table, options)?;
        return Ok(count(name, options.verbose, counts, &outcome, writer)?);
    };
    let Some(states) = states.as_array() else {
        return Err(SuiteFault::Malformed);
    };
    'states: for state in states {
        let outcome = run_case(alloc, test, state.as_str().unwrap_or(""), table, options)?;
        count(name, options.verbose, counts, &outcome, writer)?;
    }
    Ok(())
}

/// Counts a case, and tells of one that failed.
fn count<W: Sink>(
    name: &str,
    verbose: bool,
    counts: &mut Counts,
    outcome: &Outcome,
    writer: &mut W,
) -> Result<(), DeviceFault>
    ensures run { (start : Option (List ℕ)) → HasRun verbose name.now start (W.taken writer.old) counts.old → OnOk result (HasRun verbose name.now start (W.taken writer.new) counts.new) }
    ensures fault { OnErr result ((W.failed writer.new ≡ true) ⊎ (W.stalled writer.new ≡ true)) }
{
    counts.add(outcome);
    match outcome {
        Outcome::Failed(difference) => tell_failed(name, verbose, counts.all(), difference, writer),
        Outcome::Passed | Outcome::Skipped => Ok(()),
    }
}

/// Writes what is told of a case that failed.
fn tell_failed<W: Sink>(
    name: &str,
    verbose: bool,
    number: u64,
    difference: &Option<Difference>,
    writer: &mut W,
) -> Result<(), DeviceFault>
    ensures ok { OnOk result (Appends (W.taken writer.old) (W.taken writer.new) (failed_text name.now number ++ difference_lines verbose difference.now)) }
    ensures fault { OnErr result ((W.failed writer.new ≡ true) ⊎ (W.stalled writer.new ≡ true)) }
{
    write_failed(name, number, writer)?;
    write_difference(verbose, difference, writer)
}

/// Writes the line of a case that failed.
fn write_failed<W: Sink>(name: &str, number: u64, writer: &mut W) -> Result<(), DeviceFault>
    ensures ok { OnOk result (Appends (W.taken writer.old) (W.taken writer.new) (failed_text name.now number)) }
    ensures fault { OnErr result ((W.failed writer.new ≡ true) ⊎ (W.stalled writer.new ≡ true)) }
{
    write_pieces(
        writer,
        &[
            Piece::Text(name),
            Piece::Text(": case "),
            Piece::Number(number as u128),
            Piece::Text(" failed\n"),
        ],
    )
}

/// Writes what was expected of a case and what came of it, where that is asked for.
fn write_difference<W: Sink>(
    verbose: bool,
    difference: &Option<Difference>,
    writer: &mut W,
) -> Result<(), DeviceFault>
    ensures ok { OnOk result (Appends (W.taken writer.old) (W.taken writer.new) (difference_lines verbose difference.now)) }
    ensures fault { OnErr result ((W.failed writer.new ≡ true) ⊎ (W.stalled writer.new ≡ true)) }
{
    if !verbose {
        return Ok(());
    }
    match difference {
        Some(difference) => write_texts(difference, writer),
        None => Ok(()),
    }
}

/// Writes what was expected of a case, and what came of it.
fn write_texts<W: Sink>(difference: &Difference, writer: &mut W) -> Result<(), DeviceFault>
    ensures ok { OnOk result (Appends (W.taken writer.old) (W.taken writer.new) (texts_of difference.now)) }
    ensures fault { OnErr result ((W.failed writer.new ≡ true) ⊎ (W.stalled writer.new ≡ true)) }
{
    write_pieces(
        writer,
        &[
            Piece::Text("expected:\n"),
            Piece::Text(difference.expected.as_str()),
            Piece::Text("got:\n"),
            Piece::Text(difference.got.as_str()),
        ],
    )
}

/// Writes the line of how many cases ended how.
fn write_counts<W: Sink>(name: &str, counts: &Counts, writer: &mut W) -> Result<(), DeviceFault>
    ensures ok { (cases : List OutcomeType) → IsCountOf counts.now cases → OnOk result (Appends (W.taken writer.old) (W.taken writer.new) (counts_line name.now cases)) }
    ensures fault { OnErr result ((W.failed writer.new ≡ true) ⊎ (W.stalled writer.new ≡ true)) }
{
    write_pieces(
        writer,
        &[
            Piece::Text(name),
            Piece::Text(": passed "),
            Piece::Number(counts.passed as u128),
            Piece::Text(", failed "),
            Piece::Number(counts.failed as u128),
            Piece::Text(", skipped "),
            Piece::Number(counts.skipped as u128),
            Piece::Text("\n"),
        ],
    )
}

impl From<serde_json::Error> for SuiteFault {
    ghost use Rattle.std.specs.Prelude.{◌≡◌};
    ghost use Rattle.serde_json.specs.Errors.{IsMemory};
    ghost use Rattle.html_suite.specs.declared.suite.SuiteFault.TheVariants.{Malformed, OutOfMemory};

    ghost from_gives = { λ s e. (IsMemory s → e ≡ OutOfMemory) × (¬ IsMemory s → e ≡ Malformed) };

    fn from(error: serde_json::Error) -> Self {
        if error.is_memory() {
            SuiteFault::OutOfMemory
        } else {
            SuiteFault::Malformed
        }
    }
}

impl From<AllocError> for SuiteFault {
    ghost use Rattle.std.specs.Prelude.{◌≡◌};
    ghost use Rattle.html_suite.specs.declared.suite.SuiteFault.TheVariants.{OutOfMemory};

    ghost from_gives = { λ _ f. f ≡ OutOfMemory };

    fn from(_error: AllocError) -> Self {
        SuiteFault::OutOfMemory
    }
}

impl From<CaseFault> for SuiteFault {
    ghost use Rattle.std.specs.Prelude.{◌≡◌};
    ghost use Rattle.html_suite.specs.Ended.{fault_of};

    ghost from_gives = { λ c f. f ≡ fault_of c };

    fn from(fault: CaseFault) -> Self {
        match fault {
            CaseFault::Malformed | CaseFault::NotRun => SuiteFault::Malformed,
            CaseFault::OutOfMemory => SuiteFault::OutOfMemory,
        }
    }
}

impl From<DeviceFault> for SuiteFault {
    ghost use Rattle.std.specs.Prelude.{◌≡◌};
    ghost use Rattle.html_suite.specs.declared.suite.SuiteFault.TheVariants.{Write};

    ghost from_gives = { λ _ f. f ≡ Write };

    fn from(_fault: DeviceFault) -> Self {
        SuiteFault::Write
    }
}
