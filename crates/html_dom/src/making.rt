// New elements and texts.
ghost use Rattle.std.specs.Prelude.{◌≡◌, [], None, OnOk, OnErr, IfOk, IfErr, length, true};
ghost use Rattle.std.specs.Str.{chars};
ghost use Rattle.html_arena.specs.Make.{made};
ghost use Rattle.html_arena.specs.Tree.{added};
ghost use Rattle.html_arena.specs.Weight.{capped, weight};
ghost use Rattle.html_arena.specs.declared.data.NewNode.TheVariants as new;
ghost use Rattle.html_arena.specs.declared.data.NodeData.TheVariants as node;
ghost use Rattle.html_arena.specs.declared.data.Origin.TheVariants as origin;
ghost use Rattle.html_dom.specs.declared.error.EditError.TheVariants.{BadName};
ghost use Rattle.html_dom.specs.Edits.{IsCause, unless};
ghost use Rattle.html_dom.specs.Names.{is_element_name};

use crate::error::EditError;
use crate::names::is_element_name;
use html_arena::{Arena, NewNode, NodeId, Origin};
use html_text::{Str, WideStr};
use html_tokens::Attrs;
use std::alloc::{AllocError, Global};

/// Makes an element of HTML without attributes, which stands alone; a template with its Contents node, the next one.
///
/// # Errors
///
/// `BadName` where no start tag of HTML can have the name; then those of memory and limits.
pub fn create_element(arena: &mut Arena, name: &str) -> Result<NodeId, EditError>
    ensures id { IfOk result (λ id. id ≡ length arena.old.labels) }
    ensures good { OnOk result (is_element_name (chars name.now) ≡ true) }
    ensures made { OnOk result (arena.new ≡ made arena.old (new.Element (chars name.now) [] origin.Nothing)) }
    ensures refused { OnErr result (arena.new ≡ arena.old) }
    ensures cause { IfErr result (IsCause (unless (is_element_name (chars name.now)) BadName)) }
{
    if !is_element_name(name) {
        return Err(EditError::BadName);
    }
    let alloc = arena.allocator();
    let name = Str::of(alloc, name)?;
    let id = arena.make(NewNode::Element {
        name,
        attrs: Attrs::new(alloc),
        origin: Origin::Nothing,
    })?;
    Ok(id)
}

/// Makes a text, which stands alone. Below `script`, `style` and the like a text is written as it is, and may end its element.
///
/// # Errors
///
/// Those of memory and limits.
pub fn create_text(arena: &mut Arena, text: &str) -> Result<NodeId, EditError>
    ensures id { IfOk result (λ id. id ≡ length arena.old.labels) }
    ensures made { OnOk result (arena.new ≡ added arena.old (node.Text (chars text.now)) (capped (weight (node.Text (chars text.now))))) }
    ensures refused { OnErr result (arena.new ≡ arena.old) }
    ensures cause { IfErr result (IsCause None) }
{
    let text = wide(arena.allocator(), text)?;
    let id = arena.make_text_of(text)?;
    Ok(id)
}

/// A copy of a text.
fn wide(alloc: Global, text: &str) -> Result<WideStr, AllocError>
    ensures { IfOk result (λ wide. wide ≡ chars text.now) }
{
    let mut wide = WideStr::new(alloc);
    for c in text.chars() {
        wide.push(c)?;
    }
    Ok(wide)
}
