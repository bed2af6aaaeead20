//! One job, over any reader and writers.

ghost use Rattle.std.specs.Prelude.{◌≡◌, ◌≢◌, ◌<◌, ◌⊎◌, List, true, false, Err, IfOk, IfErr, OnOk};
ghost use Rattle.std.specs.Io.KnownBytes.{Appends};
ghost use Rattle.html_charref.specs.declared.table.Row.{Row};
ghost use Rattle.html_device.specs.Device.{AppendsFront};
ghost use Rattle.html_print.specs.Outcome.{line_of, status_of};
ghost use Rattle.html_print.specs.Told.{IsTableTold, IsTold};
ghost use Rattle.html_run.specs.Answers.{AreErrors, IsAnswer, IsAudited, IsLocated};
ghost use Rattle.html_run.specs.Jobs.{IsRead, start_for};
ghost use Rattle.html_run.specs.Refused.{AreRows, IsJobCause, IsTableCause};

use crate::making::{page_for, tree_and_bytes_for, tree_for};
use crate::writing::{list_audit, list_counts, list_errors, list_located, print};
use html_job::{Command, Job};
use html_parser::{EntityError, EntityTable, ParseError, Sink, Source};
use html_print::{DONE, FILE_FAULT, REFUSED, tell, tell_table};
use std::alloc::Global;

/// Does the job on one page and answers the program's status. `name` is that of the page's file, or `-`, and `entities` are the bytes of
/// the file of named character references, if the job has one. It reads `reader` to its end before it writes anything. What went wrong is
/// told in one line on `faults`; where that fails too, by the status alone. For `Suite`, whose files are other files, it reads the page and
/// prints nothing.
pub fn run<R: Source, W: Sink, F: Sink>(
    alloc: Global,
    job: &Job<'_>,
    name: &str,
    entities: Option<&[u8]>,
    reader: &mut R,
    writer: &mut W,
    faults: &mut F,
) -> u8
    ensures done { result ≡ DONE → (rows : List Row) × AreRows entities.entry rows × IsRead (start_for job.now rows) (R.remaining reader.old) (R.remaining reader.new) }

    // What the command writes of the page was written, or nothing, or a front of it.
    ensures answered { result ≡ DONE → (rows : List Row) × AreRows entities.entry rows
        × IsAnswer job.now.command job.now.lines job.now.profile (start_for job.now rows) (Appends (W.taken writer.old) (W.taken writer.new)) (R.remaining reader.old) (R.remaining reader.new) }
    ensures refused { result ≡ REFUSED → W.taken writer.new ≡ W.taken writer.old }
    ensures failed { result ≡ FILE_FAULT → (W.taken writer.new ≡ W.taken writer.old)
        ⊎ ((rows : List Row) × AreRows entities.entry rows
        × IsAnswer job.now.command job.now.lines job.now.profile (start_for job.now rows) (AppendsFront (W.taken writer.old) (W.taken writer.new)) (R.remaining reader.old) (R.remaining reader.new)) }

    // Nothing is told where the job was done; else the line of the cause, and the status is that of the cause.
    ensures quiet { result ≡ DONE → F.taken faults.new ≡ F.taken faults.old }
    ensures told { result ≢ DONE → ((e : EntityError) × IsTableCause entities.entry e × (result ≡ REFUSED)
        × IsTableTold (F.taken faults.old) (F.taken faults.new) (F.failed faults.new) (F.stalled faults.new) e)
        ⊎ ((e : ParseError) × (rows : List Row) × AreRows entities.entry rows
        × IsJobCause job.now rows (R.remaining reader.old) (R.remaining reader.new) (R.failed reader.new) (W.failed writer.new) (W.stalled writer.new) e × (result ≡ status_of e)
        × IsTold (F.taken faults.old) (F.taken faults.new) (F.failed faults.new) (F.stalled faults.new) (line_of e name.now)) }
    ensures status { result < 4 }

    // A reader that fails is told, and a writer that fails or takes no bytes.
    ensures read_failing { R.failed reader.old ≡ false → R.failed reader.new ≡ true → result ≡ FILE_FAULT }
    ensures write_failing { W.failed writer.old ≡ false → W.failed writer.new ≡ true → result ≡ FILE_FAULT }
    ensures write_stalling { W.stalled writer.old ≡ false → W.stalled writer.new ≡ true → result ≡ FILE_FAULT }
{
    let table = match table_of(alloc, entities) {
        Ok(table) => table,
        Err(error) => return tell_table(alloc, &error, faults),
    };
    match answer(alloc, job, &table, reader, writer) {
        Ok(()) => DONE,
        Err(error) => tell(alloc, &error, name, faults),
    }
}

/// Reads the page, and writes what the command asks for.
fn answer<R: Source, W: Sink>(
    alloc: Global,
    job: &Job<'_>,
    table: &EntityTable,
    reader: &mut R,
    writer: &mut W,
) -> Result<(), ParseError>
    ensures done { OnOk result (IsRead (start_for job.now table.now) (R.remaining reader.old) (R.remaining reader.new)) }
    ensures answered { OnOk result (IsAnswer job.now.command job.now.lines job.now.profile (start_for job.now table.now)
        (Appends (W.taken writer.old) (W.taken writer.new)) (R.remaining reader.old) (R.remaining reader.new)) }
    ensures failed { IfErr result (λ e. (W.taken writer.new ≡ W.taken writer.old)
        ⊎ ((e ≡ ParseError.Write) × IsAnswer job.now.command job.now.lines job.now.profile (start_for job.now table.now)
        (AppendsFront (W.taken writer.old) (W.taken writer.new)) (R.remaining reader.old) (R.remaining reader.new))) }
    ensures cause { IfErr result (IsJobCause job.now table.now (R.remaining reader.old) (R.remaining reader.new) (R.failed reader.new) (W.failed writer.new) (W.stalled writer.new)) }
    ensures read_failing { R.failed reader.old ≡ false → R.failed reader.new ≡ true → result ≡ Err ParseError.Read }
    ensures write_failing { W.failed writer.old ≡ false → W.failed writer.new ≡ true → result ≡ Err ParseError.Write }
    ensures write_stalling { W.stalled writer.old ≡ false → W.stalled writer.new ≡ true → result ≡ Err ParseError.Write }
{
    if matches!(job.command, Command::Audit) {
        return answer_audit(alloc, job, table, reader, writer);
    }
    if matches!(job.command, Command::Errors) {
        return answer_errors(alloc, job, table, reader, writer);
    }
    let tree = tree_for(alloc, job, table, reader)?;
    match job.command {
        Command::Tree => print(alloc, &tree, writer),
        Command::Counts => list_counts(&tree, writer),
        Command::Normalise => tree.serialise(job.profile, writer),
        Command::Errors | Command::Audit | Command::Suite => Ok(()),
    }
}

/// Prints the parse errors of a page, with lines and columns where the job asks for these.
fn answer_errors<R: Source, W: Sink>(
    alloc: Global,
    job: &Job<'_>,
    table: &EntityTable,
    reader: &mut R,
    writer: &mut W,
) -> Result<(), ParseError>
    ensures done { OnOk result (IsRead (start_for job.now table.now) (R.remaining reader.old) (R.remaining reader.new)) }
    ensures answered { OnOk result (AreErrors job.now.lines (start_for job.now table.now) (Appends (W.taken writer.old) (W.taken writer.new)) (R.remaining reader.old) (R.remaining reader.new)) }
    ensures failed { IfErr result (λ e. (W.taken writer.new ≡ W.taken writer.old)
        ⊎ ((e ≡ ParseError.Write) × AreErrors job.now.lines (start_for job.now table.now) (AppendsFront (W.taken writer.old) (W.taken writer.new)) (R.remaining reader.old) (R.remaining reader.new))) }
    ensures cause { IfErr result (IsJobCause job.now table.now (R.remaining reader.old) (R.remaining reader.new) (R.failed reader.new) (W.failed writer.new) (W.stalled writer.new)) }
    ensures read_failing { R.failed reader.old ≡ false → R.failed reader.new ≡ true → result ≡ Err ParseError.Read }
    ensures write_failing { W.failed writer.old ≡ false → W.failed writer.new ≡ true → result ≡ Err ParseError.Write }
    ensures write_stalling { W.stalled writer.old ≡ false → W.stalled writer.new ≡ true → result ≡ Err ParseError.Write }
{
    if job.lines {
        return answer_located(alloc, job, table, reader, writer);
    }
    let tree = tree_for(alloc, job, table, reader)?;
    list_errors(&tree, writer)
}

/// Prints the parse errors of a page, with lines and columns.
fn answer_located<R: Source, W: Sink>(
    alloc: Global,
    job: &Job<'_>,
    table: &EntityTable,
    reader: &mut R,
    writer: &mut W,
) -> Result<(), ParseError>
    ensures done { OnOk result (IsRead (start_for job.now table.now) (R.remaining reader.old) (R.remaining reader.new)) }
    ensures answered { OnOk result (IsLocated (start_for job.now table.now) (Appends (W.taken writer.old) (W.taken writer.new)) (R.remaining reader.old) (R.remaining reader.new)) }
    ensures failed { IfErr result (λ e. (W.taken writer.new ≡ W.taken writer.old)
        ⊎ ((e ≡ ParseError.Write) × IsLocated (start_for job.now table.now) (AppendsFront (W.taken writer.old) (W.taken writer.new)) (R.remaining reader.old) (R.remaining reader.new))) }
    ensures cause { IfErr result (IsJobCause job.now table.now (R.remaining reader.old) (R.remaining reader.new) (R.failed reader.new) (W.failed writer.new) (W.stalled writer.new)) }
    ensures read_failing { R.failed reader.old ≡ false → R.failed reader.new ≡ true → result ≡ Err ParseError.Read }
    ensures write_failing { W.failed writer.old ≡ false → W.failed writer.new ≡ true → result ≡ Err ParseError.Write }
    ensures write_stalling { W.stalled writer.old ≡ false → W.stalled writer.new ≡ true → result ≡ Err ParseError.Write }
{
    let read = tree_and_bytes_for(alloc, job, table, reader)?;
    list_located(&read.0, read.1.as_slice(), writer)
}

/// Prints what became of each token of a page.
fn answer_audit<R: Source, W: Sink>(
    alloc: Global,
    job: &Job<'_>,
    table: &EntityTable,
    reader: &mut R,
    writer: &mut W,
) -> Result<(), ParseError>
    ensures done { OnOk result (IsRead (start_for job.now table.now) (R.remaining reader.old) (R.remaining reader.new)) }
    ensures answered { OnOk result (IsAudited (start_for job.now table.now) (Appends (W.taken writer.old) (W.taken writer.new)) (R.remaining reader.old) (R.remaining reader.new)) }
    ensures failed { IfErr result (λ e. (W.taken writer.new ≡ W.taken writer.old)
        ⊎ ((e ≡ ParseError.Write) × IsAudited (start_for job.now table.now) (AppendsFront (W.taken writer.old) (W.taken writer.new)) (R.remaining reader.old) (R.remaining reader.new))) }
    ensures cause { IfErr result (IsJobCause job.now table.now (R.remaining reader.old) (R.remaining reader.new) (R.failed reader.new) (W.failed writer.new) (W.stalled writer.new)) }
    ensures read_failing { R.failed reader.old ≡ false → R.failed reader.new ≡ true → result ≡ Err ParseError.Read }
    ensures write_failing { W.failed writer.old ≡ false → W.failed writer.new ≡ true → result ≡ Err ParseError.Write }
    ensures write_stalling { W.stalled writer.old ≡ false → W.stalled writer.new ≡ true → result ≡ Err ParseError.Write }
{
    let page = page_for(alloc, job, table, reader)?;
    list_audit(&page, writer)
}

/// The table of a file of named character references, or without one the table of five names.
pub fn table_of(alloc: Global, entities: Option<&[u8]>) -> Result<EntityTable, EntityError>
    ensures table { IfOk result (λ table. AreRows entities.entry table) }
    ensures cause { IfErr result (IsTableCause entities.entry) }
{
    match entities {
        Some(bytes) => EntityTable::read(alloc, bytes),
        None => EntityTable::core(alloc),
    }
}
