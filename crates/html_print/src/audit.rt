//! What became of each token.

ghost use Rattle.std.specs.Prelude.{◌≡◌, ◌⊎◌, ◌++◌, codes, decimal, true, OnErr, OnOk};
ghost use Rattle.std.specs.Io.KnownBytes.{Appends};
ghost use Rattle.html_device.specs.Device.{AppendsFront};
ghost use Rattle.html_device.specs.Pieces.{pieces_bytes};
ghost use Rattle.html_device.specs.Putting.{Puts, held};
ghost use Rattle.html_token_list.specs.Shown.{shown};
ghost use Rattle.html_print.specs.Audit.{audit_line, audit_lines, cause_text, fate_text, kind_text};

use html_device::{DeviceFault, Output, Piece, Sink};
use html_parser::{Cause, Fate, Fates, TokenRef, Tokens};
use html_tokens::TokenKind;

/// Writes tokens with their fates, a line each, to the last byte: where the token begins and ends, what it is, and what became of it.
///
/// # Errors
///
/// The writer failed, or took no bytes. A front of the lines was written then.
pub fn write_audit<W: Sink>(
    tokens: &Tokens,
    fates: &Fates,
    writer: &mut W,
) -> Result<(), DeviceFault>
    ensures ok { OnOk result (Appends (W.taken writer.old) (W.taken writer.new) (audit_lines tokens.now fates.now)) }
    ensures err { OnErr result (AppendsFront (W.taken writer.old) (W.taken writer.new) (audit_lines tokens.now fates.now)) }
    ensures fault { OnErr result ((W.failed writer.new ≡ true) ⊎ (W.stalled writer.new ≡ true)) }
    ensures failing { OnOk result (W.failed writer.new ≡ true → W.failed writer.old ≡ true) }
    ensures stalling { OnOk result (W.stalled writer.new ≡ true → W.stalled writer.old ≡ true) }
{
    let mut output = Output::new();
    put_audit(&mut output, writer, tokens, fates)?;
    output.flush(writer)
}

/// Puts the lines of tokens, as far as these have fates.
fn put_audit<W: Sink>(
    output: &mut Output,
    writer: &mut W,
    tokens: &Tokens,
    fates: &Fates,
) -> Result<(), DeviceFault>
    ensures bytes { Puts (W.taken writer.old) (held output.old) (W.taken writer.new) (held output.new) result (audit_lines tokens.now fates.now) }
    ensures fault { OnErr result ((W.failed writer.new ≡ true) ⊎ (W.stalled writer.new ≡ true)) }
    ensures failing { OnOk result (W.failed writer.new ≡ true → W.failed writer.old ≡ true) }
    ensures stalling { OnOk result (W.stalled writer.new ≡ true → W.stalled writer.old ≡ true) }
{
    let mut rest = fates.iter();
    'tokens: for token in tokens.iter() {
        let Some(fate) = rest.next() else {
            return Ok(());
        };
        put_token(output, writer, &token, fate)?;
    }
    Ok(())
}

/// Puts the line of a token.
fn put_token<W: Sink>(
    output: &mut Output,
    writer: &mut W,
    token: &TokenRef<'_>,
    fate: Fate,
) -> Result<(), DeviceFault>
    ensures bytes { Puts (W.taken writer.old) (held output.old) (W.taken writer.new) (held output.new) result (audit_line (shown token.now) fate) }
    ensures fault { OnErr result ((W.failed writer.new ≡ true) ⊎ (W.stalled writer.new ≡ true)) }
    ensures failing { OnOk result (W.failed writer.new ≡ true → W.failed writer.old ≡ true) }
    ensures stalling { OnOk result (W.stalled writer.new ≡ true → W.stalled writer.old ≡ true) }
{
    match token {
        TokenRef::Char { c, place } => put_line(
            output,
            writer,
            *place as u128,
            *place as u128 + 1,
            &char_pieces(*c),
            fate,
        ),
        TokenRef::Other(token) => put_line(
            output,
            writer,
            token.span.start as u128,
            token.span.end as u128,
            &kind_pieces(&token.kind),
            fate,
        ),
    }
}

/// Puts a line: where a token begins and ends, what it is, and what became of it.
fn put_line<W: Sink>(
    output: &mut Output,
    writer: &mut W,
    start: u128,
    end: u128,
    kind: &[Piece<'_>],
    fate: Fate,
) -> Result<(), DeviceFault>
    ensures bytes { Puts (W.taken writer.old) (held output.old) (W.taken writer.new) (held output.new) result
        (decimal start ++ (codes " " ++ (decimal end ++ (codes " " ++ (pieces_bytes kind.now ++ (fate_text fate ++ codes "\n")))))) }
    ensures fault { OnErr result ((W.failed writer.new ≡ true) ⊎ (W.stalled writer.new ≡ true)) }
    ensures failing { OnOk result (W.failed writer.new ≡ true → W.failed writer.old ≡ true) }
    ensures stalling { OnOk result (W.stalled writer.new ≡ true → W.stalled writer.old ≡ true) }
{
    output.put_pieces(
        writer,
        &[
            Piece::Number(start),
            Piece::Text(" "),
            Piece::Number(end),
            Piece::Text(" "),
        ],
    )?;
    output.put_pieces(writer, kind)?;
    output.put_pieces(writer, &fate_pieces(fate))?;
    output.put_pieces(writer, &[Piece::Text("\n")])
}

/// What a token is.
fn kind_pieces<'x>(kind: &'x TokenKind) -> [Piece<'x>; 2]
    ensures { pieces_bytes result ≡ kind_text kind.now }
{
    match kind {
        TokenKind::Start { name, .. } => [Piece::Text("start "), Piece::Text(name.as_str())],
        TokenKind::End { name } => [Piece::Text("end "), Piece::Text(name.as_str())],
        TokenKind::Char(c) => [Piece::Text("char U+"), Piece::Code(*c)],
        TokenKind::Comment(_) => [Piece::Text("comment"), Piece::Text("")],
        TokenKind::Doctype { .. } => [Piece::Text("doctype"), Piece::Text("")],
        TokenKind::Eof => [Piece::Text("eof"), Piece::Text("")],
    }
}

/// A code point, by its number.
fn char_pieces(c: char) -> [Piece<'static>; 2]
    ensures { pieces_bytes result ≡ kind_text (TokenKind.Char c) }
{
    [Piece::Text("char U+"), Piece::Code(c)]
}

/// What became of a token.
fn fate_pieces(fate: Fate) -> [Piece<'static>; 2]
    ensures { pieces_bytes result ≡ fate_text fate }
{
    match fate {
        Fate::Made(node) => [Piece::Text(" made "), Piece::Number(node.index() as u128)],
        Fate::Foreign(node) => [Piece::Text(" made "), Piece::Number(node.index() as u128)],
        Fate::Merged => [Piece::Text(" merged"), Piece::Text("")],
        Fate::Text(node) => [Piece::Text(" text "), Piece::Number(node.index() as u128)],
        Fate::Dropped(cause) => [Piece::Text(" dropped "), Piece::Text(cause_name(cause))],
        Fate::Ended => [Piece::Text(" ended"), Piece::Text("")],
    }
}

/// Why a token was dropped.
fn cause_name(cause: Cause) -> &'static str
    ensures { result.now ≡ cause_text cause }
{
    match cause {
        Cause::PrologSpace => "PrologSpace",
        Cause::Null => "Null",
        Cause::LeadingNewline => "LeadingNewline",
        Cause::InSelect => "InSelect",
        Cause::InFrameset => "InFrameset",
        Cause::Misplaced => "Misplaced",
        Cause::InColumnGroup => "InColumnGroup",
    }
}
