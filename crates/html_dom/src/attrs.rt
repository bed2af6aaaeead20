// Attributes of an element set, removed and replaced.
ghost use Rattle.std.specs.Prelude.{◌≡◌, ◌||◌, ◌&&◌, ◌++◌, ◌∷◌, [], None, Some, OnOk, OnErr, IfOk, IfErr, true, cond, is_some, map, not};
ghost use Rattle.std.specs.List.{list_all};
ghost use Rattle.std.specs.Str.{bytes_eq, chars};
ghost use Rattle.html_arena.specs.Data.{attrs_in};
ghost use Rattle.html_arena.specs.Merge.{has_name};
ghost use Rattle.html_arena.specs.Tree.{label_of, with_replaced};
ghost use Rattle.html_dom.specs.Attributes.{can_replace, chosen, has_distinct_names, is_own_or_good, with_value, without_name};
ghost use Rattle.html_dom.specs.Edits.{IsCause, element_fault, replace_fault, set_fault};

use crate::error::EditError;
use crate::names::{is_attr_name, is_same_text};
use crate::places::is_node;
use html_arena::{Arena, NodeData, NodeId};
use html_text::Str;
use html_tokens::{Attr, Attrs};
use std::alloc::{AllocError, Global};

/// Gives an element an attribute: its first one of this name gets the value, or there is a new one after its others.
///
/// # Errors
///
/// `NoNode`, `NotElement`; `BadName` where the element has no such attribute and no attribute of HTML can have the name; then those of memory and limits.
pub fn set_attr(arena: &mut Arena, node: NodeId, name: &str, value: &str) -> Result<(), EditError>
    ensures set { OnOk result (arena.new ≡ with_replaced arena.old node (with_value (chars name.now) (chars value.now) (attrs_in (label_of arena.old node)))) }
    ensures good { OnOk result (set_fault arena.old node (chars name.now) ≡ None) }
    ensures refused { OnErr result (arena.new ≡ arena.old) }
    ensures cause { IfErr result (IsCause (set_fault arena.old node (chars name.now))) }
{
    let attrs = attrs_with(arena, node, name, value)?;
    arena.set_attrs(node, attrs)?;
    Ok(())
}

/// Takes the attributes of this name from an element; where it has none, nothing but the count of steps changes.
///
/// # Errors
///
/// `NoNode`, `NotElement`; then those of memory.
pub fn remove_attr(arena: &mut Arena, node: NodeId, name: &str) -> Result<(), EditError>
    ensures removed { OnOk result (arena.new ≡ with_replaced arena.old node (without_name (chars name.now) (attrs_in (label_of arena.old node)))) }
    ensures good { OnOk result (element_fault arena.old node ≡ None) }
    ensures refused { OnErr result (arena.new ≡ arena.old) }
    ensures cause { IfErr result (IsCause (element_fault arena.old node)) }
{
    let attrs = attrs_without(arena, node, name)?;
    arena.set_attrs(node, attrs)?;
    Ok(())
}

/// Gives an element these attributes in place of its own.
///
/// # Errors
///
/// `NoNode`, `NotElement`; `BadName` where two have one name, or no attribute of HTML can have the name of one and none of the element's own has it;
/// then those of limits.
pub fn replace_attrs(arena: &mut Arena, node: NodeId, attrs: Attrs) -> Result<(), EditError>
    ensures replaced { OnOk result (arena.new ≡ with_replaced arena.old node attrs) }
    ensures good { OnOk result (replace_fault arena.old node attrs ≡ None) }
    ensures refused { OnErr result (arena.new ≡ arena.old) }
    ensures cause { IfErr result (IsCause (replace_fault arena.old node attrs)) }
{
    check_attrs(arena, node, attrs.as_slice())?;
    arena.set_attrs(node, attrs)?;
    Ok(())
}

/// The attributes of an element.
fn own_attrs(arena: &Arena, node: NodeId) -> Result<&[Attr], EditError>
    ensures own { IfOk result (λ own. own.now ≡ attrs_in (label_of arena.now node)) }
    ensures good { OnOk result (element_fault arena.now node ≡ None) }
    ensures cause { IfErr result (λ e. element_fault arena.now node ≡ Some e) }
{
    if !is_node(arena, node) {
        return Err(EditError::NoNode);
    }
    match arena.node(node) {
        NodeData::Element(element) => Ok(element.attrs.as_slice()),
        _ => Err(EditError::NotElement),
    }
}

/// The attributes of an element with one set.
fn attrs_with(arena: &Arena, node: NodeId, name: &str, value: &str) -> Result<Attrs, EditError>
    ensures with { IfOk result (λ all. all ≡ with_value (chars name.now) (chars value.now) (attrs_in (label_of arena.now node))) }
    ensures good { OnOk result (set_fault arena.now node (chars name.now) ≡ None) }
    ensures cause { IfErr result (IsCause (set_fault arena.now node (chars name.now))) }
{
    let own = own_attrs(arena, node)?;
    if !is_own_or_good(own, name) {
        return Err(EditError::BadName);
    }
    let all = copies_with(arena.allocator(), own, name, value)?;
    let attrs = Attrs::from_vec(all)?;
    Ok(attrs)
}

/// The attributes of an element without those of a name.
fn attrs_without(arena: &Arena, node: NodeId, name: &str) -> Result<Attrs, EditError>
    ensures without { IfOk result (λ all. all ≡ without_name (chars name.now) (attrs_in (label_of arena.now node))) }
    ensures good { OnOk result (element_fault arena.now node ≡ None) }
    ensures cause { IfErr result (IsCause (element_fault arena.now node)) }
{
    let own = own_attrs(arena, node)?;
    let all = copies_without(arena.allocator(), own, name)?;
    let attrs = Attrs::from_vec(all)?;
    Ok(attrs)
}

/// Whether an attribute of this name is there, or one of HTML can have it.
fn is_own_or_good(own: &[Attr], name: &str) -> bool
    ensures { result ≡ is_own_or_good own.now (chars name.now) }
{
    has_name(own, name) || is_attr_name(name)
}

/// Whether an attribute of this name is there.
fn has_name(attrs: &[Attr], name: &str) -> bool
    ensures { result ≡ has_name (chars name.now) attrs.now }
{
    for attr in attrs {
        if is_same_text(attr.name.as_str(), name) {
            return true;
        }
    }
    false
}

/// Refuses attributes that an element can't have in place of its own.
fn check_attrs(arena: &Arena, node: NodeId, attrs: &[Attr]) -> Result<(), EditError>
    ensures good { OnOk result (replace_fault arena.now node attrs.now ≡ None) }
    ensures cause { IfErr result (IsCause (replace_fault arena.now node attrs.now)) }
{
    let own = own_attrs(arena, node)?;
    if !(are_own_or_good(own, attrs) && has_distinct_names(attrs)) {
        return Err(EditError::BadName);
    }
    Ok(())
}

/// Whether each attribute has a name that is there, or that one of HTML can have.
fn are_own_or_good(own: &[Attr], attrs: &[Attr]) -> bool
    ensures { result ≡ list_all (λ a. is_own_or_good own.now a.name) attrs.now }
{
    for attr in attrs {
        if !is_own_or_good(own, attr.name.as_str()) {
            return false;
        }
    }
    true
}

/// Whether no two attributes have one name.
fn has_distinct_names(attrs: &[Attr]) -> bool
    ensures { result ≡ has_distinct_names attrs.now }
{
    let mut rest = attrs;
    'names: while let Some((first, others)) = rest.split_first() {
        if has_name(others, first.name.as_str()) {
            return false;
        }
        rest = others;
    }
    true
}

/// Copies of attributes, where that of a name has another value.
fn copies_chosen(
    alloc: Global,
    own: &[Attr],
    name: &str,
    value: &str,
) -> Result<Vec<Attr>, AllocError>
    ensures { IfOk result (λ all. all.items ≡ map (chosen (chars name.now) (chars value.now)) own.now) }
{
    let mut all = Vec::new(alloc);
    for attr in own {
        let copy = chosen(alloc, attr, name, value)?;
        all.push(copy)?;
    }
    Ok(all)
}

/// A copy of an attribute, with another value if it has this name.
fn chosen(alloc: Global, attr: &Attr, name: &str, value: &str) -> Result<Attr, AllocError>
    ensures { IfOk result (λ copy. copy ≡ chosen (chars name.now) (chars value.now) attr.now) }
{
    if is_same_text(attr.name.as_str(), name) {
        let set = new_attr(alloc, name, value)?;
        return Ok(set);
    }
    let copy = attr.clone()?;
    Ok(copy)
}

/// Copies of attributes, with one set.
fn copies_with(
    alloc: Global,
    own: &[Attr],
    name: &str,
    value: &str,
) -> Result<Vec<Attr>, AllocError>
    ensures { IfOk result (λ all. all.items ≡ with_value (chars name.now) (chars value.now) own.now) }
{
    if has_name(own, name) {
        let all = copies_chosen(alloc, own, name, value)?;
        return Ok(all);
    }
    let mut all = copies(alloc, own)?;
    let set = new_attr(alloc, name, value)?;
    all.push(set)?;
    Ok(all)
}

/// Copies of attributes.
fn copies(alloc: Global, own: &[Attr]) -> Result<Vec<Attr>, AllocError>
    ensures { IfOk result (λ all. all.items ≡ own.now) }
{
    let mut all = Vec::new(alloc);
    for attr in own {
        let copy = attr.clone()?;
        all.push(copy)?;
    }
    Ok(all)
}

fn new_attr(alloc: Global, name: &str, value: &str) -> Result<Attr, AllocError>
    ensures { IfOk result (λ attr. attr ≡ record { name = chars name.now; value = chars value.now }) }
{
    let name = Str::of(alloc, name)?;
    let value = Str::of(alloc, value)?;
    Ok(Attr { name, value })
}

/// Copies of attributes but for those of a name.
fn copies_without(alloc: Global, own: &[Attr], name: &str) -> Result<Vec<Attr>, AllocError>
    ensures { IfOk result (λ all. all.items ≡ without_name (chars name.now) own.now) }
{
    let mut all = Vec::new(alloc);
    for attr in own {
        if !is_same_text(attr.name.as_str(), name) {
            let copy = attr.clone()?;
            all.push(copy)?;
        }
    }
    Ok(all)
}
