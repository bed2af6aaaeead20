// Quirks mode, by the doctype (13.2.6.4.1, with a list of ids of this project's own).
ghost use Rattle.std.specs.Prelude.{◌≡◌, codes, is_some, not};
ghost use Rattle.std.specs.List.{list_any};
ghost use Rattle.std.specs.Str.{bytes_eq};
ghost use Rattle.html_construction.specs.Quirks.{is_html, is_quirky_public, is_quirky_public_id, is_quirky_system, is_set_to, public_fronts, public_fronts_alone, public_ids, quirky_system_id, sets_quirks, starts_with};

use html_tokens::{OptionalStr, TokenKind};

/// Whether a token sets quirks mode where a doctype is looked for: it is no doctype, or one that does.
pub(crate) fn sets_quirks(kind: &TokenKind) -> bool
    ensures value { result ≡ sets_quirks kind.now }
{
    match kind {
        TokenKind::Doctype {
            name,
            public,
            system,
            force_quirks,
        } => {
            *force_quirks
                || !is_html(name)
                || is_quirky_public(public, is_missing(system))
                || is_quirky_system(system)
        }
        TokenKind::Start { .. }
        | TokenKind::End { .. }
        | TokenKind::Char(_)
        | TokenKind::Comment(_)
        | TokenKind::Eof => true,
    }
}

fn is_missing(id: &OptionalStr) -> bool
    ensures value { result ≡ not (is_some id.now) }
{
    id.as_ref().is_none()
}

/// Whether the name of a doctype is `html`.
fn is_html(name: &OptionalStr) -> bool
    ensures value { result ≡ is_html name.now }
{
    match name.as_ref() {
        Some(name) => is_html_text(name.as_str()),
        None => false,
    }
}

fn is_html_text(name: &str) -> bool
    ensures value { result ≡ bytes_eq name.now (codes "html") }
{
    name == "html"
}

/// Whether a public id sets quirks mode, with a system id or alone.
fn is_quirky_public(public: &OptionalStr, alone: bool) -> bool
    ensures value { result ≡ is_quirky_public public.now alone }
{
    match public.as_ref() {
        Some(id) => is_quirky_public_id(id.as_str(), alone),
        None => false,
    }
}

fn is_quirky_public_id(id: &str, alone: bool) -> bool
    ensures value { result ≡ is_quirky_public_id id.now alone }
{
    is_public_id(id) || begins_public(id) || alone && begins_public_alone(id)
}

/// Whether a system id sets quirks mode.
fn is_quirky_system(system: &OptionalStr) -> bool
    ensures value { result ≡ is_quirky_system system.now }
{
    match system.as_ref() {
        Some(id) => is_system_id(id.as_str()),
        None => false,
    }
}

fn is_public_id(id: &str) -> bool
    ensures value { result ≡ list_any (λ it. is_set_to id.now it) public_ids }
{
    is_set_to(id, "-//W3O//DTD W3 HTML Strict 3.0//EN//")
        || is_set_to(id, "-/W3C/DTD HTML 4.0 Transitional/EN")
        || is_set_to(id, "HTML")
}

fn is_system_id(id: &str) -> bool
    ensures value { result ≡ is_set_to id.now quirky_system_id }
{
    is_set_to(
        id,
        "http://www.ibm.com/data/dtd/v11/ibmxhtml1-transitional.dtd",
    )
}

fn begins_public(id: &str) -> bool
    ensures value { result ≡ list_any (λ it. starts_with id.now it) public_fronts }
{
    starts_with(id, "-//IETF//DTD HTML")
        || starts_with(id, "-//W3C//DTD HTML 3")
        || starts_with(id, "-//W3C//DTD HTML 4.0 Frameset//")
        || starts_with(id, "-//W3C//DTD HTML 4.0 Transitional//")
}

/// So where there is no system id.
fn begins_public_alone(id: &str) -> bool
    ensures value { result ≡ list_any (λ it. starts_with id.now it) public_fronts_alone }
{
    starts_with(id, "-//W3C//DTD HTML 4.01 Frameset//")
        || starts_with(id, "-//W3C//DTD HTML 4.01 Transitional//")
}

/// Whether an id is set to another, ASCII case aside.
fn is_set_to(id: &str, other: &str) -> bool
    ensures value { result ≡ is_set_to id.now other.now }
{
    id.eq_ignore_ascii_case(other)
}

/// Whether an id starts with a front, ASCII case aside.
fn starts_with(id: &str, front: &str) -> bool
    ensures value { result ≡ starts_with id.now front.now }
{
    let (id, front) = (id.as_bytes(), front.as_bytes());
    if id.len() < front.len() {
        return false;
    }
    id[..front.len()].eq_ignore_ascii_case(front)
}
