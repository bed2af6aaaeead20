//! The line of a refusal. Where there is no memory for it, it is written piece by piece.

ghost use Rattle.std.specs.Prelude.{◌≡◌, ◌⊎◌, true, IfOk, IfSome, OnErr, OnOk};
ghost use Rattle.std.specs.Io.KnownBytes.{Appends};
ghost use Rattle.std.specs.String.{string_bytes};
ghost use Rattle.html_charref.specs.declared.read.EntityError.{EntityError as EntityErrorType};
ghost use Rattle.html_device.specs.Device.{AppendsFront};
ghost use Rattle.html_print.specs.Outcome.{budget_line, foreign_line, foreign_text, key_line, line_of, status_of, table_line_of};
ghost use Rattle.html_print.specs.Told.{IsKeyTold, IsTableTold, IsTold};

use crate::status::{FILE_FAULT, REFUSED};
use html_charref::EntityError;
use html_device::{DeviceFault, Piece, Sink, write_pieces};
use html_parser::{ForeignRoot, ParseError};
use html_text::Key;
use std::alloc::{AllocError, Global};

/// The status with which the program ends for want of a page, and the line that tells why, with its end; no line where memory for it was refused.
/// `input` is the name of the file, or `-`.
pub fn outcome(alloc: Global, error: &ParseError, input: &str) -> (u8, Option<String>)
    ensures status { result.0 ≡ status_of error.now }
    ensures line { IfSome result.1 (λ line. string_bytes line ≡ line_of error.now input.now) }
{
    (status(error), line(alloc, error, input).ok())
}

/// Tells on `faults`, in one line, why there is no page, and answers the status: both are those of `outcome`, and where that found no memory for
/// the line, it is written piece by piece. `input` is the name of the file, or `-`. Where the line can't be written, the status alone tells.
pub fn tell<F: Sink>(alloc: Global, error: &ParseError, input: &str, faults: &mut F) -> u8
    ensures status { result ≡ status_of error.now }
    ensures line { IsTold (F.taken faults.old) (F.taken faults.new) (F.failed faults.new) (F.stalled faults.new) (line_of error.now input.now) }
{
    let (status, line) = outcome(alloc, error, input);
    match line {
        Some(line) => {
            let _ = write_text(line.as_str(), faults);
        }
        None => {
            let _ = write_line(error, input, faults);
        }
    }
    status
}

/// Writes a text.
fn write_text<F: Sink>(text: &str, faults: &mut F) -> Result<(), DeviceFault>
    ensures ok { OnOk result (Appends (F.taken faults.old) (F.taken faults.new) text.now) }
    ensures err { OnErr result (AppendsFront (F.taken faults.old) (F.taken faults.new) text.now) }
    ensures fault { OnErr result ((F.failed faults.new ≡ true) ⊎ (F.stalled faults.new ≡ true)) }
{
    write_pieces(faults, &[Piece::Text(text)])
}

/// The line that tells why there is no page.
fn line(alloc: Global, error: &ParseError, input: &str) -> Result<String, AllocError>
    ensures { IfOk result (λ line. string_bytes line ≡ line_of error.now input.now) }
{
    match error {
        ParseError::OutOfMemory => format!(in alloc; "refused: out of memory\n"),
        ParseError::InputTooLong => format!(in alloc; "refused: input too long\n"),
        ParseError::ForeignContent { name, at } => line_of_foreign(alloc, *name, *at),
        ParseError::BadContext => format!(in alloc; "refused: bad context\n"),
        ParseError::Read => format!(in alloc; "fault: cannot read {input}\n"),
        ParseError::Write => format!(in alloc; "fault: cannot write\n"),
        ParseError::Stopped => format!(in alloc; "refused: stopped\n"),
        ParseError::NodeBudget { at } => line_of_budget(alloc, "node", *at),
        ParseError::HeldBudget { at } => line_of_budget(alloc, "held", *at),
        ParseError::StepBudget { at } => line_of_budget(alloc, "step", *at),
    }
}

/// The line of foreign content.
fn line_of_foreign(alloc: Global, name: ForeignRoot, at: u64) -> Result<String, AllocError>
    ensures { IfOk result (λ line. string_bytes line ≡ foreign_line name at) }
{
    let name = foreign_name(name);
    format!(in alloc; "refused: foreign {name} at {at}\n")
}

/// The line of a budget that would be passed.
fn line_of_budget(alloc: Global, budget: &str, at: u64) -> Result<String, AllocError>
    ensures { IfOk result (λ line. string_bytes line ≡ budget_line budget.now at) }
{
    format!(in alloc; "refused: {budget} budget at {at}\n")
}

/// Tells on `faults`, in one line, why there is no table of character references, and answers the status. Where memory
/// for a key is refused, the line tells that.
pub fn tell_table<F: Sink>(alloc: Global, error: &EntityError, faults: &mut F) -> u8
    ensures status { result ≡ REFUSED }
    ensures line { IsTableTold (F.taken faults.old) (F.taken faults.new) (F.failed faults.new) (F.stalled faults.new) error.now }
{
    match error {
        EntityError::Json => {
            let _ = write_pieces(faults, &[Piece::Text("refused: entities: json\n")]);
        }
        EntityError::Shape(key) => tell_key(alloc, "shape", key, faults),
        EntityError::Name(key) => tell_key(alloc, "name", key, faults),
        EntityError::Text(key) => tell_key(alloc, "text", key, faults),
        EntityError::OutOfMemory => {
            tell(alloc, &ParseError::OutOfMemory, "", faults);
        }
    }
    REFUSED
}

/// Tells which key breaks what rule, or that memory for the key was refused.
fn tell_key<F: Sink>(alloc: Global, rule: &str, key: &Key, faults: &mut F)
    ensures line { IsKeyTold (F.taken faults.old) (F.taken faults.new) (F.failed faults.new) (F.stalled faults.new) rule.now key.now }
{
    match key.to_string(alloc) {
        Ok(text) => {
            let _ = write_key(rule, text.as_str(), faults);
        }
        Err(_) => {
            tell(alloc, &ParseError::OutOfMemory, "", faults);
        }
    }
}

/// Writes the line of a key that breaks a rule.
fn write_key<'x, F: Sink>(rule: &'x str, key: &'x str, faults: &mut F) -> Result<(), DeviceFault>
    ensures ok { OnOk result (Appends (F.taken faults.old) (F.taken faults.new) (key_line rule.now key.now)) }
    ensures err { OnErr result (AppendsFront (F.taken faults.old) (F.taken faults.new) (key_line rule.now key.now)) }
    ensures fault { OnErr result ((F.failed faults.new ≡ true) ⊎ (F.stalled faults.new ≡ true)) }
{
    write_pieces(
        faults,
        &[
            Piece::Text("refused: entities: "),
            Piece::Text(rule),
            Piece::Text(" "),
            Piece::Text(key),
            Piece::Text("\n"),
        ],
    )
}

/// The status with which the program ends for want of a page.
fn status(error: &ParseError) -> u8
    ensures { result ≡ status_of error.now }
{
    match error {
        ParseError::Read | ParseError::Write => FILE_FAULT,
        _ => REFUSED,
    }
}

/// Writes the line that tells why there is no page.
fn write_line<F: Sink>(error: &ParseError, input: &str, faults: &mut F) -> Result<(), DeviceFault>
    ensures ok { OnOk result (Appends (F.taken faults.old) (F.taken faults.new) (line_of error.now input.now)) }
    ensures err { OnErr result (AppendsFront (F.taken faults.old) (F.taken faults.new) (line_of error.now input.now)) }
    ensures fault { OnErr result ((F.failed faults.new ≡ true) ⊎ (F.stalled faults.new ≡ true)) }
{
    match error {
        ParseError::OutOfMemory => write_pieces(faults, &[Piece::Text("refused: out of memory\n")]),
        ParseError::InputTooLong => write_pieces(
            faults,
            &[Piece::Text("refused: input too long\n")],
        ),
        ParseError::ForeignContent { name, at } => write_foreign(*name, *at, faults),
        ParseError::BadContext => write_pieces(faults, &[Piece::Text("refused: bad context\n")]),
        ParseError::Read => write_pieces(
            faults,
            &[
                Piece::Text("fault: cannot read "),
                Piece::Text(input),
                Piece::Text("\n"),
            ],
        ),
        ParseError::Write => write_pieces(faults, &[Piece::Text("fault: cannot write\n")]),
        ParseError::Stopped => write_pieces(faults, &[Piece::Text("refused: stopped\n")]),
        ParseError::NodeBudget { at } => write_budget("node", *at, faults),
        ParseError::HeldBudget { at } => write_budget("held", *at, faults),
        ParseError::StepBudget { at } => write_budget("step", *at, faults),
    }
}

/// Writes the line of foreign content.
fn write_foreign<F: Sink>(name: ForeignRoot, at: u64, faults: &mut F) -> Result<(), DeviceFault>
    ensures ok { OnOk result (Appends (F.taken faults.old) (F.taken faults.new) (foreign_line name at)) }
    ensures err { OnErr result (AppendsFront (F.taken faults.old) (F.taken faults.new) (foreign_line name at)) }
    ensures fault { OnErr result ((F.failed faults.new ≡ true) ⊎ (F.stalled faults.new ≡ true)) }
{
    write_pieces(
        faults,
        &[
            Piece::Text("refused: foreign "),
            Piece::Text(foreign_name(name)),
            Piece::Text(" at "),
            Piece::Number(at as u128),
            Piece::Text("\n"),
        ],
    )
}

/// Writes the line of a budget that would be passed.
fn write_budget<F: Sink>(budget: &str, at: u64, faults: &mut F) -> Result<(), DeviceFault>
    ensures ok { OnOk result (Appends (F.taken faults.old) (F.taken faults.new) (budget_line budget.now at)) }
    ensures err { OnErr result (AppendsFront (F.taken faults.old) (F.taken faults.new) (budget_line budget.now at)) }
    ensures fault { OnErr result ((F.failed faults.new ≡ true) ⊎ (F.stalled faults.new ≡ true)) }
{
    write_pieces(
        faults,
        &[
            Piece::Text("refused: "),
            Piece::Text(budget),
            Piece::Text(" budget at "),
            Piece::Number(at as u128),
            Piece::Text("\n"),
        ],
    )
}

fn foreign_name(name: ForeignRoot) -> &'static str
    ensures { result.now ≡ foreign_text name }
{
    match name {
        ForeignRoot::Svg => "svg",
        ForeignRoot::Math => "math",
    }
}
