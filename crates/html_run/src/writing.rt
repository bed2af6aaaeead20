//! What a command writes, whose faults are told as those of parsing.

ghost use Rattle.std.specs.Prelude.{◌≡◌, ◌⊎◌, true, false, Err, IfErr, OnErr, OnOk};
ghost use Rattle.std.specs.Io.KnownBytes.{Appends};
ghost use Rattle.std.specs.Str.{encode_utf8_all};
ghost use Rattle.html_arena.specs.Walking.{IsRoot};
ghost use Rattle.html_device.specs.Device.{AppendsFront};
ghost use Rattle.html_print.specs.Audit.{audit_lines};
ghost use Rattle.html_print.specs.Counts.{count_lines};
ghost use Rattle.html_print.specs.Errors.{error_lines, located_lines};
ghost use Rattle.html_print.specs.Printed.{IsPrinted};

use html_parser::{Page, ParseError, Sink, Tree};
use html_print::{
    PrintError, print_tree, write_audit, write_counts, write_errors, write_located_errors,
};
use std::alloc::Global;

/// Prints a tree.
pub(crate) fn print<W: Sink>(alloc: Global, tree: &Tree, writer: &mut W) -> Result<(), ParseError>
    requires root { IsRoot tree.now.arena tree.now.root }
    ensures ok { OnOk result (IsPrinted tree.now.arena tree.now.root (λ text. Appends (W.taken writer.old) (W.taken writer.new) (encode_utf8_all text))) }
    ensures err { IfErr result (λ e. (W.taken writer.new ≡ W.taken writer.old)
        ⊎ ((e ≡ ParseError.Write) × IsPrinted tree.now.arena tree.now.root (λ text. AppendsFront (W.taken writer.old) (W.taken writer.new) (encode_utf8_all text)))) }
    ensures cause { IfErr result (λ e. (e ≡ ParseError.OutOfMemory) ⊎ ((e ≡ ParseError.Write) × ((W.failed writer.new ≡ true) ⊎ (W.stalled writer.new ≡ true)))) }
    ensures failing { W.failed writer.old ≡ false → W.failed writer.new ≡ true → result ≡ Err ParseError.Write }
    ensures stalling { W.stalled writer.old ≡ false → W.stalled writer.new ≡ true → result ≡ Err ParseError.Write }
{
    match print_tree(alloc, &tree.arena, tree.root, writer) {
        Ok(()) => Ok(()),
        Err(PrintError::OutOfMemory) => Err(ParseError::OutOfMemory),
        Err(PrintError::Write) => Err(ParseError::Write),
    }
}

/// Lists the parse errors of a page.
pub(crate) fn list_errors<W: Sink>(tree: &Tree, writer: &mut W) -> Result<(), ParseError>
    ensures ok { OnOk result (Appends (W.taken writer.old) (W.taken writer.new) (error_lines tree.now.errors.items)) }
    ensures err { OnErr result (AppendsFront (W.taken writer.old) (W.taken writer.new) (error_lines tree.now.errors.items)) }
    ensures cause { IfErr result (λ e. e ≡ ParseError.Write) }
    ensures fault { OnErr result ((W.failed writer.new ≡ true) ⊎ (W.stalled writer.new ≡ true)) }
    ensures failing { W.failed writer.old ≡ false → W.failed writer.new ≡ true → result ≡ Err ParseError.Write }
    ensures stalling { W.stalled writer.old ≡ false → W.stalled writer.new ≡ true → result ≡ Err ParseError.Write }
{
    match write_errors(tree.errors.as_slice(), writer) {
        Ok(()) => Ok(()),
        Err(_) => Err(ParseError::Write),
    }
}

/// Lists the parse errors of a page whose bytes these are, with lines and columns.
pub(crate) fn list_located<W: Sink>(
    tree: &Tree,
    bytes: &[u8],
    writer: &mut W,
) -> Result<(), ParseError>
    ensures ok { OnOk result (Appends (W.taken writer.old) (W.taken writer.new) (located_lines bytes.now tree.now.errors.items)) }
    ensures err { OnErr result (AppendsFront (W.taken writer.old) (W.taken writer.new) (located_lines bytes.now tree.now.errors.items)) }
    ensures cause { IfErr result (λ e. e ≡ ParseError.Write) }
    ensures fault { OnErr result ((W.failed writer.new ≡ true) ⊎ (W.stalled writer.new ≡ true)) }
    ensures failing { W.failed writer.old ≡ false → W.failed writer.new ≡ true → result ≡ Err ParseError.Write }
    ensures stalling { W.stalled writer.old ≡ false → W.stalled writer.new ≡ true → result ≡ Err ParseError.Write }
{
    match write_located_errors(tree.errors.as_slice(), bytes, writer) {
        Ok(()) => Ok(()),
        Err(_) => Err(ParseError::Write),
    }
}

/// Lists how large a page is.
pub(crate) fn list_counts<W: Sink>(tree: &Tree, writer: &mut W) -> Result<(), ParseError>
    ensures ok { OnOk result (Appends (W.taken writer.old) (W.taken writer.new) (count_lines tree.now)) }
    ensures err { OnErr result (AppendsFront (W.taken writer.old) (W.taken writer.new) (count_lines tree.now)) }
    ensures cause { IfErr result (λ e. e ≡ ParseError.Write) }
    ensures fault { OnErr result ((W.failed writer.new ≡ true) ⊎ (W.stalled writer.new ≡ true)) }
    ensures failing { W.failed writer.old ≡ false → W.failed writer.new ≡ true → result ≡ Err ParseError.Write }
    ensures stalling { W.stalled writer.old ≡ false → W.stalled writer.new ≡ true → result ≡ Err ParseError.Write }
{
    match write_counts(tree, writer) {
        Ok(()) => Ok(()),
        Err(_) => Err(ParseError::Write),
    }
}

/// Lists what became of each token of a page.
pub(crate) fn list_audit<W: Sink>(page: &Page, writer: &mut W) -> Result<(), ParseError>
    ensures ok { OnOk result (Appends (W.taken writer.old) (W.taken writer.new) (audit_lines page.now.tokens page.now.fates)) }
    ensures err { OnErr result (AppendsFront (W.taken writer.old) (W.taken writer.new) (audit_lines page.now.tokens page.now.fates)) }
    ensures cause { IfErr result (λ e. e ≡ ParseError.Write) }
    ensures fault { OnErr result ((W.failed writer.new ≡ true) ⊎ (W.stalled writer.new ≡ true)) }
    ensures failing { W.failed writer.old ≡ false → W.failed writer.new ≡ true → result ≡ Err ParseError.Write }
    ensures stalling { W.stalled writer.old ≡ false → W.stalled writer.new ≡ true → result ≡ Err ParseError.Write }
{
    match write_audit(&page.tokens, &page.fates, writer) {
        Ok(()) => Ok(()),
        Err(_) => Err(ParseError::Write),
    }
}
