// The attributes of an element, and those of a later tag.
ghost use Rattle.std.specs.Prelude.{◌≡◌, ◌++◌, IfOk, OnOk, cond};
ghost use Rattle.html_arena.specs.Merge.{has_name, lacking, merged};
ghost use Rattle.html_arena.specs.Weight.{attr_weight, attrs_weight, capped};

use html_text::Str;
use html_tokens::{Attr, Attrs};
use std::alloc::{AllocError, Global};

/// The code points of the names and values of attributes.
pub(crate) fn attrs_held(attrs: &[Attr]) -> u128
    ensures { result ≡ capped (attrs_weight attrs.now) }
{
    let mut held: u128 = 0;
    for attr in attrs {
        let name = attr.name.len() as u128;
        let value = attr.value.len() as u128;
        held = held.saturating_add(name + value);
    }
    held
}

/// Whether one of the attributes has this name.
fn has_name_in(name: &Str, attrs: &[Attr]) -> bool
    ensures { result ≡ has_name name.now attrs.now }
{
    for attr in attrs {
        if attr.name == *name {
            return true;
        }
    }
    false
}

/// The code points of an attribute, if its name is not among an element's own.
fn lacking_one(own: &[Attr], attr: &Attr) -> u128
    ensures { result ≡ cond (has_name attr.now.name own.now) 0 (attr_weight attr.now) }
{
    if has_name_in(&attr.name, own) {
        return 0;
    }
    let name = attr.name.len() as u128;
    let value = attr.value.len() as u128;
    name + value
}

/// The code points of those attributes whose names are not among an element's own.
pub(crate) fn lacking_held(own: &[Attr], later: &[Attr]) -> u128
    ensures { result ≡ capped (attrs_weight (lacking own.now later.now)) }
{
    let mut held: u128 = 0;
    for attr in later {
        held = held.saturating_add(lacking_one(own, attr));
    }
    held
}

/// The same attributes, in memory of their own.
fn copies(alloc: Global, attrs: &[Attr]) -> Result<Vec<Attr>, AllocError>
    ensures { IfOk result (λ all. all.items ≡ attrs.now) }
{
    let mut all = Vec::new(alloc);
    for attr in attrs {
        let copy = attr.clone()?;
        all.push(copy)?;
    }
    Ok(all)
}

/// Adds copies of those attributes of a later tag whose names are not among an element's own.
fn add_lacking(all: &mut Vec<Attr>, own: &[Attr], later: &[Attr]) -> Result<(), AllocError>
    ensures { OnOk result (all.new.items ≡ all.old.items ++ lacking own.now later.now) }
{
    for attr in later {
        if !has_name_in(&attr.name, own) {
            let copy = attr.clone()?;
            all.push(copy)?;
        }
    }
    Ok(())
}

/// An element's own attributes, and after them those of a later tag whose names it lacks.
pub(crate) fn merge(alloc: Global, own: &[Attr], later: &[Attr]) -> Result<Attrs, AllocError>
    ensures { IfOk result (λ all. all ≡ merged own.now later.now) }
{
    let mut all = copies(alloc, own)?;
    add_lacking(&mut all, own, later)?;
    Attrs::from_vec(all)
}
