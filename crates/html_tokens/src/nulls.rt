//! U+0000 in text, names, values and data.

ghost use Rattle.std.specs.Prelude.{◌≡◌};
ghost use Rattle.html_tokens.specs.Cut.{null_replaced};

/// U+FFFD for U+0000.
pub(crate) fn null_replaced(c: char) -> char
    ensures { result ≡ null_replaced c }
{
    if c == '\0' { '\u{FFFD}' } else { c }
}
