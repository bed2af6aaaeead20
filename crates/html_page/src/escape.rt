//! Texts with their escapes.

ghost use Rattle.std.specs.Prelude.{◌≡◌, ◌⊎◌, ◌∷◌, ◌++◌, [], true, MatchOption, OnErr, OnOk};
ghost use Rattle.std.specs.Str.{chars, encode_utf8_all};
ghost use Rattle.std.specs.List.{flat_map};
ghost use Rattle.html_device.specs.Putting.{Puts, held};
ghost use Rattle.html_page.specs.Escaped.{escaped};

use crate::profile::Profile;
use html_device::{DeviceFault, Output, Sink};

/// Where an escaped text stands: in an element, or in the value of an attribute.
#[derive(Clone, Copy, Debug, PartialEq, Eq)]
pub(crate) enum Escape {
    Text,
    Value(Profile),
}

/// What stands for a character, if not itself.
#[tactic(auto, unfolding(crate::specs::Html::escaped_in_text, crate::specs::Html::escaped_in_value))]
fn replacement(escape: Escape, c: char) -> Option<&'static str>
    ensures { MatchOption result (escaped escape c ≡ c ∷ []) (λ s. encode_utf8_all (escaped escape c) ≡ s.now) }
{
    match c {
        '&' => Some("&amp;"),
        '\u{a0}' => Some("&nbsp;"),
        '"' => match escape {
            Escape::Text => None,
            Escape::Value(_) => Some("&quot;"),
        },
        '<' => match escape {
            Escape::Text | Escape::Value(Profile::Two) => Some("&lt;"),
            Escape::Value(Profile::One) => None,
        },
        '>' => match escape {
            Escape::Text | Escape::Value(Profile::Two) => Some("&gt;"),
            Escape::Value(Profile::One) => None,
        },
        _ => None,
    }
}

/// Puts a text with its escapes. What stands between two escapes is put in one piece.
pub(crate) fn put_escaped<W: Sink>(
    output: &mut Output,
    writer: &mut W,
    escape: Escape,
    text: &str,
) -> Result<(), DeviceFault>
    ensures bytes { Puts (W.taken writer.old) (held output.old) (W.taken writer.new) (held output.new) result (encode_utf8_all (flat_map (escaped escape) (chars text.now))) }
    ensures fault { OnErr result ((W.failed writer.new ≡ true) ⊎ (W.stalled writer.new ≡ true)) }
    ensures failing { OnOk result (W.failed writer.new ≡ true → W.failed writer.old ≡ true) }
    ensures stalling { OnOk result (W.stalled writer.new ≡ true → W.stalled writer.old ≡ true) }
{
    let bytes = text.as_bytes();
    let mut start = 0;
    for (at, c) in text.char_indices() {
        if let Some(replacement) = replacement(escape, c) {
            let run = &bytes[start..at];
            output.put(writer, run)?;
            output.put(writer, replacement.as_bytes())?;
            start = at + c.len_utf8();
        }
    }
    let run = &bytes[start..];
    output.put(writer, run)
}
