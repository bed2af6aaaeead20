//! Attributes in order.

ghost use Rattle.std.specs.Prelude.{◌≡◌, ◌⊎◌, ◌<◌, ◌≤◌, ◌+◌, ◌^◌, false, true, OnErr, OnOk, length, map};
ghost use Rattle.std.specs.Cmp.Lexicographic.{slice_cmp};
ghost use Rattle.std.specs.List.{flat_map};
ghost use Rattle.std.specs.Ordering.{nat_cmp};
ghost use Rattle.std.specs.Str.{chars, encode_utf8_all};
ghost use Rattle.std.specs.Vec.{vec_capacity};
ghost use Rattle.html_device.specs.Putting.{Puts, held};
ghost use Rattle.html_print.specs.Lines.{line, shown_attribute};
ghost use Rattle.html_print.specs.Order.{IsInOrder, code_units, printed_name, units_of_name};

use crate::line::put_line;
use html_device::{DeviceFault, Output, Sink};
use html_tokens::Attr;
use std::cmp::Ordering;

/// Puts attributes in order of the UTF-16 code units of their names, in foreign content or not. There is room for all of them.
pub(crate) fn arrange<'a>(ordered: &mut Vec<&'a Attr>, attrs: &'a [Attr], foreign: bool)
    requires room { length attrs.now ≤ vec_capacity ordered.old }
    ensures order { IsInOrder foreign attrs.now (map (λ a. a.now) ordered.new.items) }
    ensures capacity { vec_capacity ordered.old ≤ vec_capacity ordered.new }
{
    if foreign {
        arrange_foreign(ordered, attrs);
    } else {
        arrange_html(ordered, attrs);
    }
}

/// The same, of an element of HTML.
fn arrange_html<'a>(ordered: &mut Vec<&'a Attr>, attrs: &'a [Attr])
    requires room { length attrs.now ≤ vec_capacity ordered.old }
    ensures order { IsInOrder false attrs.now (map (λ a. a.now) ordered.new.items) }
    ensures capacity { vec_capacity ordered.old ≤ vec_capacity ordered.new }
{
    fill(ordered, attrs);
    ordered.sort_unstable_by(|a, b| compare(a, b, false));
}

/// The same, of an element of foreign content.
fn arrange_foreign<'a>(ordered: &mut Vec<&'a Attr>, attrs: &'a [Attr])
    requires room { length attrs.now ≤ vec_capacity ordered.old }
    ensures order { IsInOrder true attrs.now (map (λ a. a.now) ordered.new.items) }
    ensures capacity { vec_capacity ordered.old ≤ vec_capacity ordered.new }
{
    fill(ordered, attrs);
    ordered.sort_unstable_by(|a, b| compare(a, b, true));
}

/// Attributes in their own order. There is room for all of them.
fn fill<'a>(list: &mut Vec<&'a Attr>, attrs: &'a [Attr])
    requires room { length attrs.now ≤ vec_capacity list.old }
    ensures items { map (λ a. a.now) list.new.items ≡ attrs.now }
    ensures capacity { vec_capacity list.old ≤ vec_capacity list.new }
{
    list.clear();
    'attrs: for attr in attrs {
        let _ = list.push(attr);
    }
}

/// Which of two attributes comes first by its name.
fn compare(a: &Attr, b: &Attr, foreign: bool) -> Ordering
    ensures { result ≡ slice_cmp nat_cmp (units_of_name foreign a.now) (units_of_name foreign b.now) }
{
    compare_units(
        printed_name(a.name.as_str(), foreign),
        printed_name(b.name.as_str(), foreign),
    )
}

/// The name of an attribute as it is printed, in foreign content or not.
fn printed_name(name: &str, foreign: bool) -> &str
    ensures { chars result.now ≡ printed_name foreign (chars name.now) }
{
    if foreign { foreign_name(name) } else { name }
}

/// The name of an attribute of foreign content as it is printed.
fn foreign_name(name: &str) -> &str
    ensures { chars result.now ≡ printed_name true (chars name.now) }
{
    if name == "xmlns" {
        return "xmlns xmlns";
    }
    name
}

/// Which of two texts comes first in UTF-16.
fn compare_units(a: &str, b: &str) -> Ordering
    ensures { result ≡ slice_cmp nat_cmp (code_units (chars a.now)) (code_units (chars b.now)) }
{
    let mut first = a.encode_utf16();
    let mut second = b.encode_utf16();
    'units: while let Some(unit) = first.next() {
        let Some(other) = second.next() else {
            return Ordering::Greater;
        };
        if unit != other {
            return unit.cmp(&other);
        }
    }
    match second.next() {
        Some(_) => Ordering::Less,
        None => Ordering::Equal,
    }
}

/// Puts the lines of attributes.
pub(crate) fn put_attributes<W: Sink>(
    output: &mut Output,
    writer: &mut W,
    depth: u128,
    foreign: bool,
    attrs: &[&Attr],
) -> Result<(), DeviceFault>
    requires low { depth < 2 ^ 100 }
    ensures bytes { Puts (W.taken writer.old) (held output.old) (W.taken writer.new) (held output.new) result
        (encode_utf8_all (flat_map (λ a. line depth (shown_attribute foreign a)) (map (λ a. a.now) attrs.now))) }
    ensures fault { OnErr result ((W.failed writer.new ≡ true) ⊎ (W.stalled writer.new ≡ true)) }
    ensures failing { OnOk result (W.failed writer.new ≡ true → W.failed writer.old ≡ true) }
    ensures stalling { OnOk result (W.stalled writer.new ≡ true → W.stalled writer.old ≡ true) }
{
    'attrs: for attr in attrs {
        put_attribute(output, writer, depth, foreign, attr)?;
    }
    Ok(())
}

/// Puts the line of an attribute.
fn put_attribute<W: Sink>(
    output: &mut Output,
    writer: &mut W,
    depth: u128,
    foreign: bool,
    attr: &Attr,
) -> Result<(), DeviceFault>
    requires low { depth < 2 ^ 100 }
    ensures bytes { Puts (W.taken writer.old) (held output.old) (W.taken writer.new) (held output.new) result (encode_utf8_all (line depth (shown_attribute foreign attr.now))) }
    ensures fault { OnErr result ((W.failed writer.new ≡ true) ⊎ (W.stalled writer.new ≡ true)) }
    ensures failing { OnOk result (W.failed writer.new ≡ true → W.failed writer.old ≡ true) }
    ensures stalling { OnOk result (W.stalled writer.new ≡ true → W.stalled writer.old ≡ true) }
{
    put_line(
        output,
        writer,
        depth,
        &[
            printed_name(attr.name.as_str(), foreign),
            "=\"",
            attr.value.as_str(),
            "\"",
        ],
    )
}
