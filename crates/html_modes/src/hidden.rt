// Whether an input is hidden, by its attributes (13.2.6.4.7 and 13.2.6.4.9).
ghost use Rattle.std.specs.Prelude.{◌≡◌, codes};
ghost use Rattle.std.specs.Str.{bytes_eq};
ghost use Rattle.html_names.specs.Foreign.{is_lowered};
ghost use Rattle.html_construction.specs.Tokens.{attrs_of};
ghost use Rattle.html_construction.specs.Words.{is_hidden};

use html_tokens::{Attr, TokenKind};

/// Whether a start tag has the type `hidden`, ASCII case aside.
pub(crate) fn is_hidden(token: &TokenKind) -> bool
    ensures value { result ≡ is_hidden (attrs_of token.now) }
{
    match token {
        TokenKind::Start { attrs, .. } => has_hidden_type(attrs.as_slice()),
        TokenKind::End { .. }
        | TokenKind::Char(_)
        | TokenKind::Comment(_)
        | TokenKind::Doctype { .. }
        | TokenKind::Eof => false,
    }
}

fn has_hidden_type(attrs: &[Attr]) -> bool
    ensures { result ≡ is_hidden attrs.now }
{
    for attr in attrs {
        if is_type(attr) {
            return is_hidden_value(attr);
        }
    }
    false
}

fn is_type(attr: &Attr) -> bool
    ensures { result ≡ bytes_eq attr.now.name (codes "type") }
{
    is_type_name(attr.name.as_str())
}

fn is_type_name(name: &str) -> bool
    ensures { result ≡ bytes_eq name.now (codes "type") }
{
    name == "type"
}

fn is_hidden_value(attr: &Attr) -> bool
    ensures { result ≡ is_lowered attr.now.value (codes "hidden") }
{
    is_hidden_text(attr.value.as_str())
}

fn is_hidden_text(value: &str) -> bool
    ensures { result ≡ is_lowered value.now (codes "hidden") }
{
    is_lowered(value, "hidden")
}

/// Whether a text is another one in lower case.
fn is_lowered(capital: &str, lower: &str) -> bool
    ensures { result ≡ is_lowered capital.now lower.now }
{
    if capital.len() != lower.len() {
        return false;
    }
    let capital = capital.as_bytes();
    let lower = lower.as_bytes();
    for i in 0..capital.len() {
        if capital[i].to_ascii_lowercase() != lower[i] {
            return false;
        }
    }
    true
}
