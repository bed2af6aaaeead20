//! Edits of a page's nodes.

ghost use Rattle.std.specs.Prelude.{◌≡◌, [], None, length, nat_lt};
ghost use Rattle.std.specs.Str.{IsUtf8, chars};
ghost use Rattle.html_arena.specs.Data.{attrs_in, contents_in};
ghost use Rattle.html_arena.specs.Make.{made};
ghost use Rattle.html_arena.specs.Tree.{added, detached, label_of, parent_of, with_replaced};
ghost use Rattle.html_arena.specs.Weight.{capped, weight};
ghost use Rattle.html_arena.specs.declared.data.NewNode.TheVariants as new_node;
ghost use Rattle.html_arena.specs.declared.data.NodeData.TheVariants as node_data;
ghost use Rattle.html_arena.specs.declared.data.Origin.TheVariants as origin;
ghost use Rattle.html_dom.specs.Attributes.{with_value, without_name};
ghost use Rattle.html_dom.specs.Edits.{element_fault, set_fault, unless};
ghost use Rattle.html_dom.specs.Names.{is_element_name};
ghost use Rattle.html_dom.specs.declared.error.EditError.TheVariants.{BadName};
ghost use Rattle.zilqumet_c.specs.Edits.{IsEdit, IsEdited, fault_in};
ghost use Rattle.zilqumet_c.specs.Reads.{IfPage};

use crate::changes::{Edit, change};
use crate::held::Held;
use crate::slot::Slot;
use crate::status::BAD_TEXT;
use std::alloc::Global;
use zilqumet_rows::NO_NODE;

/// Gives an element an attribute: its first one of this name gets the value, or there is a new one behind its others.
#[unsafe(no_mangle)]
pub extern "C" fn proved_set_attr(
    alloc: Global,
    page: &mut Slot,
    node: u64,
    name: &[u8],
    value: &[u8],
) -> u32
    ensures edited { IsUtf8 name.now → IsUtf8 value.now → IsEdit page.old.value page.new.value (λ t r. set_fault t node (chars name.now))
        (λ a b. b ≡ with_replaced a node (with_value (chars name.now) (chars value.now) (attrs_in (label_of a node)))) result }
    ensures text { (IsUtf8 name.now × IsUtf8 value.now → ⊥) → (result ≡ 22) × (page.new.value ≡ page.old.value) }
{
    let Ok(name) = std::str::from_utf8(name) else {
        return BAD_TEXT;
    };
    let Ok(value) = std::str::from_utf8(value) else {
        return BAD_TEXT;
    };
    change(alloc, page, &Edit::SetAttr { node, name, value })
}

/// Takes the attributes of a name from an element.
#[unsafe(no_mangle)]
pub extern "C" fn proved_remove_attr(alloc: Global, page: &mut Slot, node: u64, name: &[u8]) -> u32
    ensures edited { IsUtf8 name.now → IsEdit page.old.value page.new.value (λ t r. element_fault t node)
        (λ a b. b ≡ with_replaced a node (without_name (chars name.now) (attrs_in (label_of a node)))) result }
    ensures text { (IsUtf8 name.now → ⊥) → (result ≡ 22) × (page.new.value ≡ page.old.value) }
{
    let Ok(name) = std::str::from_utf8(name) else {
        return BAD_TEXT;
    };
    change(alloc, page, &Edit::RemoveAttr { node, name })
}

/// Takes a node out of its tree, with all below it. It then stands alone, and can be linked again.
#[unsafe(no_mangle)]
pub extern "C" fn proved_remove(alloc: Global, page: &mut Slot, node: u64) -> u32
    ensures edited { IsEdit page.old.value page.new.value (fault_in (Edit.Remove node)) (IsEdited (Edit.Remove node)) result }
{
    change(alloc, page, &Edit::Remove { node })
}

/// Puts what is below an element in its place; of a template, what its contents hold. It then stands alone, with nothing below it.
#[unsafe(no_mangle)]
pub extern "C" fn proved_unwrap(alloc: Global, page: &mut Slot, node: u64) -> u32
    ensures edited { IsEdit page.old.value page.new.value (fault_in (Edit.Unwrap node)) (IsEdited (Edit.Unwrap node)) result }
{
    change(alloc, page, &Edit::Unwrap { node })
}

/// Takes a node from where it stands and makes it the last one just below another; below a template, in its contents.
#[unsafe(no_mangle)]
pub extern "C" fn proved_append(alloc: Global, page: &mut Slot, parent: u64, child: u64) -> u32
    ensures edited { IsEdit page.old.value page.new.value (fault_in (Edit.Append parent child)) (IsEdited (Edit.Append parent child)) result }
{
    change(alloc, page, &Edit::Append { parent, child })
}

/// Takes a node from where it stands and puts it just before another.
#[unsafe(no_mangle)]
pub extern "C" fn proved_insert_before(alloc: Global, page: &mut Slot, child: u64, next: u64) -> u32
    ensures edited { IsEdit page.old.value page.new.value (fault_in (Edit.InsertBefore child next)) (IsEdited (Edit.InsertBefore child next)) result }
{
    change(alloc, page, &Edit::InsertBefore { child, next })
}

/// Makes an element of HTML without attributes, which stands alone, and tells its number; a template with its contents, the next node.
#[unsafe(no_mangle)]
pub extern "C" fn proved_make_element(
    alloc: Global,
    page: &mut Slot,
    name: &[u8],
    number: &mut u64,
) -> u32
    ensures edited { IsUtf8 name.now → IsEdit page.old.value page.new.value (λ t r. unless (is_element_name (chars name.now)) BadName)
        (λ a b. b ≡ made a (new_node.Element (chars name.now) [] origin.Nothing)) result }
    ensures text { (IsUtf8 name.now → ⊥) → (result ≡ 22) × (page.new.value ≡ page.old.value) }
    ensures node { IsUtf8 name.now → IfPage page.old.value (λ t. number.new ≡ length t.arena.labels) }
{
    let Ok(name) = std::str::from_utf8(name) else {
        return BAD_TEXT;
    };
    *number = next_node(alloc, page);
    change(alloc, page, &Edit::MakeElement { name })
}

/// Makes a text, which stands alone, and tells its number.
#[unsafe(no_mangle)]
pub extern "C" fn proved_make_text(
    alloc: Global,
    page: &mut Slot,
    text: &[u8],
    number: &mut u64,
) -> u32
    ensures edited { IsUtf8 text.now → IsEdit page.old.value page.new.value (λ t r. None)
        (λ a b. b ≡ added a (node_data.Text (chars text.now)) (capped (weight (node_data.Text (chars text.now))))) result }
    ensures text { (IsUtf8 text.now → ⊥) → (result ≡ 22) × (page.new.value ≡ page.old.value) }
    ensures node { IsUtf8 text.now → IfPage page.old.value (λ t. number.new ≡ length t.arena.labels) }
{
    let Ok(text) = std::str::from_utf8(text) else {
        return BAD_TEXT;
    };
    *number = next_node(alloc, page);
    change(alloc, page, &Edit::MakeText { text })
}

/// The number that the next node of a page will have, or the greatest number of 64 bits where there is no page.
fn next_node(alloc: Global, page: &mut Slot) -> u64
    ensures kept { page.new.value ≡ page.old.value }
    ensures node { IfPage page.old.value (λ t. result ≡ length t.arena.labels) }
{
    let held = page.take(alloc);
    let node = match &held {
        Some(held) => node_count(held.as_ref()),
        None => NO_NODE,
    };
    page.restore(alloc, held);
    node
}

/// How many nodes a page has.
fn node_count(held: &Held) -> u64
    ensures { IfPage (Some held.now) (λ t. result ≡ length t.arena.labels) }
{
    match held {
        Held::Page(page) => page.tree.arena.len(),
        _ => NO_NODE,
    }
}
