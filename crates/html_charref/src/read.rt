//! Reading the table from a file in the form that the standard publishes (HTML 13.5, "Named character references").
ghost use Rattle.std.specs.Prelude.{◌≡◌, ◌⊎◌, nat_eq, ℕ, List, ◌++◌, is_some, option_map, Err, Ok, IfOk, IfErr, ◌≢◌, ◌≤◌, Some, string_bytes, slice_get, length};
ghost use Rattle.std.specs.Str.{chars};
ghost use Rattle.std.specs.List.{list_all};
ghost use Rattle.std.specs.Cmp.Lexicographic.{pointwise};
ghost use Rattle.std.specs.Char.{is_ascii_alphanumeric};
ghost use Rattle.serde_json.specs.View.{view, items_view, members_view};
ghost use Rattle.std.specs.BTreeMap.{IsOrdered};
ghost use Rattle.std.specs.Prelude.{string_cmp};
ghost use Rattle.serde_json.specs.Data.{Members, object};
ghost use Rattle.serde_json.specs.Find.{as_object};
ghost use Rattle.html_charref.specs.Table.{longest_len, NamesFit};
ghost use Rattle.html_charref.specs.Entities.{is_name, number_of, numbers_of, ref_text, codes_of, text_of, row_of, rows_of, entities_of, json_of, IsFirstBad, core_rows};

use crate::ranges::ranges_of;
use crate::table::{EntityTable, Name, RefText, Row};
use html_text::Key;
use serde_json::{Map, Value};
use std::alloc::{AllocFailed, Global};
use thiserror::Error;

/// Why a file holds no table. The key is the first bad one in byte order.
#[derive(Debug, Drop, Error)]
pub enum EntityError {
    /// The file is no JSON.
    #[error("no JSON")]
    Json,
    /// The value of this key is no object, its `codepoints` no list of whole numbers of 64 bits, or its `characters` no
    /// text. With the empty key: the file is no object.
    #[error("the entry {0} has another shape")]
    Shape(Key),
    /// This key is not an ampersand, one or more ASCII letters or digits, and at most one semicolon, or it is longer
    /// than 4,294,967,295 code points.
    #[error("the name {0} breaks the rule")]
    Name(Key),
    /// The `codepoints` of this key are not one or two scalar values, or not those of its `characters`.
    #[error("the text of {0} breaks the rule")]
    Text(Key),
    #[error("out of memory")]
    OutOfMemory,
}

// An ampersand, letters or digits, and perhaps a semicolon.
fn is_row_name(key: &[u8]) -> bool
    ensures { result ≡ is_name key.now }
{
    if key.len() < 2 || key.len() > u32::MAX as usize || key[0] != b'&' {
        return false;
    }
    let end = if key[key.len() - 1] == b';' {
        key.len() - 1
    } else {
        key.len()
    };
    1 < end && are_alphanumeric(&key[1..end])
}

fn are_alphanumeric(bytes: &[u8]) -> bool
    ensures { result ≡ list_all is_ascii_alphanumeric bytes.now }
{
    bytes.iter().all(|b| b.is_ascii_alphanumeric())
}

// Whether each is a whole number of 64 bits.
fn are_numbers(items: &[Value]) -> bool
    ensures { result ≡ is_some (numbers_of (items_view items.now)) }
{
    for item in items {
        if item.as_u64().is_none() {
            return false;
        }
    }
    true
}

// The one or two characters of a text.
fn read_characters(text: &str) -> Option<RefText>
    ensures { result ≡ ref_text (chars text.now) }
{
    let mut characters = text.chars();
    let first = characters.next();
    let second = characters.next();
    let third = characters.next();
    match (first, second, third) {
        (Some(first), second, None) => Some(RefText { first, second }),
        _ => None,
    }
}

fn is_number(value: &Value, c: char) -> bool
    ensures { (n : ℕ) → number_of (view value.now) ≡ Some n → result ≡ nat_eq n c }
{
    value.as_u64() == Some(u64::from(u32::from(c)))
}

// Whether the numbers are those of the characters.
fn are_characters(items: &[Value], text: RefText) -> bool
    ensures { (ns : List ℕ) → numbers_of (items_view items.now) ≡ Some ns → result ≡ pointwise nat_eq ns (codes_of text) }
{
    match (items, text.second) {
        ([a], None) => is_number(a, text.first),
        ([a, b], Some(second)) => is_number(a, text.first) && is_number(b, second),
        _ => false,
    }
}

// The text of a row, where its characters are these numbers.
fn read_text(items: &[Value], characters: &str) -> Option<RefText>
    ensures { (ns : List ℕ) → numbers_of (items_view items.now) ≡ Some ns → result ≡ text_of ns (chars characters.now) }
{
    let text = read_characters(characters)?;
    if are_characters(items, text) {
        Some(text)
    } else {
        None
    }
}

fn read_row(key: String, value: &Value) -> Result<Row, EntityError>
    ensures { result ≡ row_of (string_bytes key) (view value.now) }
{
    if !is_row_name(key.as_bytes()) {
        return Err(EntityError::Name(Key::of(key)));
    }
    let Some(items) = value.get("codepoints").and_then(Value::as_array) else {
        return Err(EntityError::Shape(Key::of(key)));
    };
    let Some(characters) = value.get("characters").and_then(Value::as_str) else {
        return Err(EntityError::Shape(Key::of(key)));
    };
    if !are_numbers(items) {
        return Err(EntityError::Shape(Key::of(key)));
    }
    match read_text(items, characters) {
        Some(text) => Ok(Row {
            name: Name::new(key),
            text,
        }),
        None => Err(EntityError::Text(Key::of(key))),
    }
}

impl<T: Drop> From<AllocFailed<T>> for EntityError {
    ghost use Rattle.std.specs.Prelude.{◌≡◌};
    ghost use Rattle.html_charref.specs.declared.read.EntityError.TheVariants.{OutOfMemory};

    ghost from_gives = { λ _ e. e ≡ OutOfMemory };

    fn from(_e: AllocFailed<T>) -> EntityError {
        EntityError::OutOfMemory
    }
}

impl From<serde_json::Error> for EntityError {
    ghost use Rattle.std.specs.Prelude.{◌≡◌};
    ghost use Rattle.serde_json.specs.Errors.{IsMemory};
    ghost use Rattle.html_charref.specs.declared.read.EntityError.TheVariants.{Json, OutOfMemory};

    ghost from_gives = { λ s e. (IsMemory s → e ≡ OutOfMemory) × (¬ IsMemory s → e ≡ Json) };

    fn from(e: serde_json::Error) -> EntityError {
        if e.is_memory() {
            EntityError::OutOfMemory
        } else {
            EntityError::Json
        }
    }
}

// The length of the longest name, or 0.
fn greatest_len(rows: &[Row]) -> u32
    requires { NamesFit rows.now }
    ensures { result ≡ longest_len rows.now }
{
    let mut greatest = 0;
    for row in rows {
        greatest = greatest.max(row.name.len() as u32);
    }
    greatest
}

// The members of an object.
fn into_members(value: Value) -> Option<Map<String, Value>>
    ensures { option_map (λ m. members_view m.entries) result ≡ as_object (view value) }
{
    match value {
        Value::Object(members) => Some(members),
        _other => None,
    }
}

fn read_rows(alloc: Global, members: Map<String, Value>) -> Result<EntityTable, EntityError>
    ensures order { IsOrdered string_cmp members }
    ensures ok { IfOk result (λ t. rows_of (members_view members.entries) ≡ Ok t) }
    ensures err { IfErr result (λ e. e ≢ EntityError.OutOfMemory → rows_of (members_view members.entries) ≡ Err e) }
{
    let mut rows = Vec::new(alloc);
    for (key, value) in members {
        let row = read_row(key, &value)?;
        rows.push(row)?;
    }
    let longest_name = greatest_len(rows.as_slice());
    let ranges = ranges_of(alloc, rows.as_slice())?;
    Ok(EntityTable {
        rows,
        longest_name,
        ranges,
    })
}

impl EntityTable {
    /// The table of a file: a JSON object that has for each name an object with `codepoints` and `characters`. Other
    /// members of that object are passed over, and a key that stands twice counts as `serde_json` holds it.
    pub fn read(alloc: Global, bytes: &[u8]) -> Result<EntityTable, EntityError>
        ensures ok { IfOk result (λ t. entities_of bytes.now ≡ Ok t) }
        ensures err { IfErr result (λ e. e ≢ EntityError.OutOfMemory → entities_of bytes.now ≡ Err e) }
        ensures first { IfErr result (λ e. e ≢ EntityError.OutOfMemory → (ms : Members)
            → json_of bytes.now ≡ Some (object ms) → IsFirstBad ms e) }
    {
        let value = Value::from_slice(alloc, bytes)?;
        match into_members(value) {
            Some(members) => read_rows(alloc, members),
            None => Err(EntityError::Shape(Key::of(String::new(alloc)))),
        }
    }

    /// The table of five names: `&amp;`, `&lt;`, `&gt;`, `&quot;` and `&nbsp;`.
    pub fn core(alloc: Global) -> Result<EntityTable, EntityError>
        ensures ok { IfOk result (λ t. t ≡ core_rows) }
        ensures err { IfErr result (λ e. e ≡ EntityError.OutOfMemory) }
    {
        EntityTable::read(alloc, CORE.as_bytes())
    }
}

const CORE: &str =
    "{\"&amp;\":{\"codepoints\":[38],\"characters\":\"&\"},\"&lt;\":{\"codepoints\":[60],\"characters\":\"<\"},\"&gt;\":{\"codepoints\":[62],\"characters\":\">\"},\"&quot;\":{\"codepoints\":[34],\"characters\":\"\\\"\"},\"&nbsp;\":{\"codepoints\":[160],\"characters\":\"\\u00A0\"}}";
