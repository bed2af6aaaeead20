//! A page from a reader, written as HTML.

ghost use Rattle.std.specs.Prelude.{◌≡◌, ◌⊎◌, None, Err, true, false, OnOk, IfErr};
ghost use Rattle.std.specs.Io.KnownBytes.{Appends};
ghost use Rattle.html_parser.specs.Normalised.{IsNormalised, IsNormaliseCause};
ghost use Rattle.html_parser.specs.Options.{HasGoodContext, IsBeginCause, start_of};
ghost use Rattle.html_parser.specs.Start.{document_start};

use crate::error::ParseError;
use crate::options::Options;
use crate::reading::{parse_tree_from, parse_tree_from_with};
use html_charref::EntityTable;
use html_device::{Sink, Source};
use html_page::Profile;
use std::alloc::Global;

/// Reads a page to its end, and writes the text of its tree. Nothing is written before all was read and parsed.
///
/// # Errors
///
/// Those of `parse_from`, after which nothing was written; and `Write` where the writer failed, or took no bytes. A front of the text was
/// written then.
pub fn normalise<S: Source, W: Sink>(
    alloc: Global,
    table: &EntityTable,
    profile: Profile,
    reader: &mut S,
    writer: &mut W,
) -> Result<(), ParseError>
    // The text of the tree of all that was read was written.
    ensures ok { OnOk result (IsNormalised (document_start table.now None) profile (Appends (W.taken writer.old) (W.taken writer.new))
        (S.remaining reader.old) (S.remaining reader.new)) }

    // It is the writer, the reader or the input that was at fault.
    ensures cause { IfErr result (IsNormaliseCause (document_start table.now None) profile (S.remaining reader.old) (S.remaining reader.new) (S.failed reader.new)
        (W.taken writer.old) (W.taken writer.new) (W.failed writer.new) (W.stalled writer.new)) }

    // A reader that fails is told, and a writer that fails or takes no bytes.
    ensures read_failing { S.failed reader.old ≡ false → S.failed reader.new ≡ true → result ≡ Err ParseError.Read }
    ensures write_failing { W.failed writer.old ≡ false → W.failed writer.new ≡ true → result ≡ Err ParseError.Write }
    ensures write_stalling { W.stalled writer.old ≡ false → W.stalled writer.new ≡ true → result ≡ Err ParseError.Write }
{
    match parse_tree_from(alloc, table, reader) {
        Ok(tree) => tree.serialise(profile, writer),
        Err(error) => Err(error),
    }
}

/// The same as these options ask for.
///
/// # Errors
///
/// Those of `parse_from_with`, after which nothing was written; and `Write` where the writer failed, or took no bytes. A front of the text was
/// written then.
pub fn normalise_with<S: Source, W: Sink>(
    alloc: Global,
    table: &EntityTable,
    options: &Options,
    profile: Profile,
    reader: &mut S,
    writer: &mut W,
) -> Result<(), ParseError>
    // The text of the tree of all that was read was written.
    ensures ok { OnOk result (IsNormalised (start_of table.now options.now) profile (Appends (W.taken writer.old) (W.taken writer.new))
        (S.remaining reader.old) (S.remaining reader.new)) }
    ensures good { OnOk result (HasGoodContext options.now) }

    // It is the writer, the reader, the input or the options that were at fault.
    ensures cause { IfErr result (λ e. (IsBeginCause options.now e × (W.taken writer.new ≡ W.taken writer.old))
        ⊎ IsNormaliseCause (start_of table.now options.now) profile (S.remaining reader.old) (S.remaining reader.new) (S.failed reader.new)
        (W.taken writer.old) (W.taken writer.new) (W.failed writer.new) (W.stalled writer.new) e) }

    // A reader that fails is told, and a writer that fails or takes no bytes.
    ensures read_failing { S.failed reader.old ≡ false → S.failed reader.new ≡ true → result ≡ Err ParseError.Read }
    ensures write_failing { W.failed writer.old ≡ false → W.failed writer.new ≡ true → result ≡ Err ParseError.Write }
    ensures write_stalling { W.stalled writer.old ≡ false → W.stalled writer.new ≡ true → result ≡ Err ParseError.Write }
{
    match parse_tree_from_with(alloc, table, options, reader) {
        Ok(page) => page.serialise(profile, writer),
        Err(error) => Err(error),
    }
}
