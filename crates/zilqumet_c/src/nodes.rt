//! The nodes of a page, edited below its root.

ghost use Rattle.std.specs.Prelude.{◌≡◌, [], None, IfErr, IfSome, OnErr, OnOk, length, nat_lt};
ghost use Rattle.std.specs.Str.{chars};
ghost use Rattle.html_arena.specs.Data.{attrs_in, contents_in};
ghost use Rattle.html_arena.specs.Make.{made};
ghost use Rattle.html_arena.specs.Tree.{added, detached, label_of, parent_of, with_replaced};
ghost use Rattle.html_arena.specs.Walking.{IsRoot};
ghost use Rattle.html_arena.specs.Weight.{capped, weight};
ghost use Rattle.html_arena.specs.declared.data.NewNode.TheVariants as new_node;
ghost use Rattle.html_arena.specs.declared.data.NodeData.TheVariants as node_data;
ghost use Rattle.html_arena.specs.declared.data.Origin.TheVariants as origin;
ghost use Rattle.html_dom.specs.Attributes.{with_value, without_name};
ghost use Rattle.html_dom.specs.Edits.{IsCause, IsUnwrapped, append_fault, appended_to, element_fault, gathered, insert_fault, or_fault, put_to, set_fault, unless, unwrap_fault};
ghost use Rattle.html_dom.specs.Names.{is_element_name};
ghost use Rattle.html_dom.specs.declared.error.EditError.TheVariants.{NoNode, BadName};
ghost use Rattle.zilqumet_c.specs.Edits.{IsEdited, fault_in, host_or_self, root_fault};

use crate::changes::Edit;
use html_parser::dom::{self, EditError};
use html_parser::{Arena, NodeData, NodeId};

/// Changes nodes below a root, which stays a root.
pub(crate) fn edit_nodes(arena: &mut Arena, root: NodeId, edit: &Edit<'_>) -> Result<(), EditError>
    ensures good { OnOk result (fault_in edit.now arena.old root ≡ None) }
    ensures done { OnOk result (IsEdited edit.now arena.old arena.new) }
    ensures cause { IfErr result (IsCause (fault_in edit.now arena.old root)) }
    ensures kept { OnErr result (arena.new ≡ arena.old) }
    ensures root { IsRoot arena.old root → IsRoot arena.new root }
{
    match edit {
        Edit::SetAttr { node, name, value } => set_attr(arena, root, *node, name, value),
        Edit::RemoveAttr { node, name } => remove_attr(arena, root, *node, name),
        Edit::Remove { node } => remove(arena, root, *node),
        Edit::Unwrap { node } => unwrap(arena, root, *node),
        Edit::Append { parent, child } => append(arena, root, *parent, *child),
        Edit::InsertBefore { child, next } => insert_before(arena, root, *child, *next),
        Edit::MakeElement { name } => make_element(arena, root, name),
        Edit::MakeText { text } => make_text(arena, root, text),
    }
}

/// The node of a number.
fn id(node: u64) -> NodeId
    ensures { result ≡ node }
{
    NodeId::at(node as usize)
}

/// Gives an element an attribute.
fn set_attr(
    arena: &mut Arena,
    root: NodeId,
    node: u64,
    name: &str,
    value: &str,
) -> Result<(), EditError>
    ensures good { OnOk result (set_fault arena.old node (chars name.now) ≡ None) }
    ensures done { OnOk result (arena.new ≡ with_replaced arena.old node (with_value (chars name.now) (chars value.now) (attrs_in (label_of arena.old node)))) }
    ensures cause { IfErr result (IsCause (set_fault arena.old node (chars name.now))) }
    ensures kept { OnErr result (arena.new ≡ arena.old) }
    ensures root { IsRoot arena.old root → IsRoot arena.new root }
{
    dom::set_attr(arena, id(node), name, value)
}

/// Takes an attribute from an element.
fn remove_attr(arena: &mut Arena, root: NodeId, node: u64, name: &str) -> Result<(), EditError>
    ensures good { OnOk result (element_fault arena.old node ≡ None) }
    ensures done { OnOk result (arena.new ≡ with_replaced arena.old node (without_name (chars name.now) (attrs_in (label_of arena.old node)))) }
    ensures cause { IfErr result (IsCause (element_fault arena.old node)) }
    ensures kept { OnErr result (arena.new ≡ arena.old) }
    ensures root { IsRoot arena.old root → IsRoot arena.new root }
{
    dom::remove_attr(arena, id(node), name)
}

/// Takes a node out, with all below it.
fn remove(arena: &mut Arena, root: NodeId, node: u64) -> Result<(), EditError>
    ensures good { OnOk result (unless (nat_lt node (length arena.old.labels)) NoNode ≡ None) }
    ensures done { OnOk result (arena.new ≡ detached arena.old node (parent_of arena.old node)) }
    ensures cause { IfErr result (IsCause (unless (nat_lt node (length arena.old.labels)) NoNode)) }
    ensures kept { OnErr result (arena.new ≡ arena.old) }
    ensures root { IsRoot arena.old root → IsRoot arena.new root }
{
    dom::remove(arena, id(node))
}

/// Puts what is below an element in its place.
fn unwrap(arena: &mut Arena, root: NodeId, node: u64) -> Result<(), EditError>
    ensures good { OnOk result (unwrap_fault arena.old node ≡ None) }
    ensures done { OnOk result (IfSome (parent_of arena.old node) (λ p. IsUnwrapped (gathered arena.old node (contents_in (label_of arena.old node))) arena.new node p)) }
    ensures cause { IfErr result (IsCause (unwrap_fault arena.old node)) }
    ensures kept { OnErr result (arena.new ≡ arena.old) }
    ensures root { IsRoot arena.old root → IsRoot arena.new root }
{
    arena.forest();
    dom::unwrap(arena, id(node))
}

/// Makes a node that is not the root the last one below another.
fn append(arena: &mut Arena, root: NodeId, parent: u64, child: u64) -> Result<(), EditError>
    ensures good { OnOk result (or_fault (root_fault root child) (append_fault arena.old (host_or_self arena.old parent) child) ≡ None) }
    ensures done { OnOk result (arena.new ≡ appended_to arena.old (host_or_self arena.old parent) child) }
    ensures cause { IfErr result (IsCause (or_fault (root_fault root child) (append_fault arena.old (host_or_self arena.old parent) child))) }
    ensures kept { OnErr result (arena.new ≡ arena.old) }
    ensures root { IsRoot arena.old root → IsRoot arena.new root }
{
    let child = id(child);
    if child == root {
        return Err(EditError::NotLinkable);
    }
    let parent = host_or_self(arena, parent);
    dom::append(arena, parent, child)
}

/// The template of its contents, else the node itself: below a template is in its contents, and to append there is to append to it.
fn host_or_self(arena: &Arena, node: u64) -> NodeId
    ensures { result ≡ host_or_self arena.now node }
{
    match dom::get(arena, id(node)) {
        Some(NodeData::Contents { host }) => *host,
        _ => id(node),
    }
}

/// Puts a node that is not the root just before another.
fn insert_before(arena: &mut Arena, root: NodeId, child: u64, next: u64) -> Result<(), EditError>
    ensures good { OnOk result (or_fault (root_fault root child) (insert_fault arena.old child next) ≡ None) }
    ensures done { OnOk result (arena.new ≡ put_to arena.old child next) }
    ensures cause { IfErr result (IsCause (or_fault (root_fault root child) (insert_fault arena.old child next))) }
    ensures kept { OnErr result (arena.new ≡ arena.old) }
    ensures root { IsRoot arena.old root → IsRoot arena.new root }
{
    let child = id(child);
    if child == root {
        return Err(EditError::NotLinkable);
    }
    dom::insert_before(arena, child, id(next))
}

/// Makes an element, which stands alone.
fn make_element(arena: &mut Arena, root: NodeId, name: &str) -> Result<(), EditError>
    ensures good { OnOk result (unless (is_element_name (chars name.now)) BadName ≡ None) }
    ensures done { OnOk result (arena.new ≡ made arena.old (new_node.Element (chars name.now) [] origin.Nothing)) }
    ensures cause { IfErr result (IsCause (unless (is_element_name (chars name.now)) BadName)) }
    ensures kept { OnErr result (arena.new ≡ arena.old) }
    ensures root { IsRoot arena.old root → IsRoot arena.new root }
{
    let _made = dom::create_element(arena, name)?;
    Ok(())
}

/// Makes a text, which stands alone.
fn make_text(arena: &mut Arena, root: NodeId, text: &str) -> Result<(), EditError>
    ensures done { OnOk result (arena.new ≡ added arena.old (node_data.Text (chars text.now)) (capped (weight (node_data.Text (chars text.now))))) }
    ensures cause { IfErr result (IsCause None) }
    ensures kept { OnErr result (arena.new ≡ arena.old) }
    ensures root { IsRoot arena.old root → IsRoot arena.new root }
{
    let _made = dom::create_text(arena, text)?;
    Ok(())
}
