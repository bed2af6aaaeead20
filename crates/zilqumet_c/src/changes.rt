//! A page whose nodes are changed, and which keeps its root.

ghost use Rattle.std.specs.Prelude.{◌≡◌, ◌≢◌, None, Some};
ghost use Rattle.html_arena.specs.Walking.{IsRoot};
ghost use Rattle.html_dom.specs.Edits.{IsCause};
ghost use Rattle.html_dom.specs.declared.error.EditError.{EditError};
ghost use Rattle.zilqumet_c.specs.Edits.{IsEdit, IsEdited, edit_status, fault_in, with_nodes};

use crate::held::{Held, Rooted};
use crate::nodes::edit_nodes;
use crate::slot::Slot;
use crate::status::{
    BAD_HANDLE, BAD_INDEX, BAD_NAME, CYCLE, HELD_BUDGET, NO_PARENT, NODE_BUDGET, NOT_ELEMENT,
    NOT_LINKABLE, OK, OUT_OF_MEMORY,
};
use html_parser::Tree;
use html_parser::dom::EditError;
use std::alloc::Global;
use std::mem::replace;

/// What is asked of the nodes of a page. Nodes are numbers.
#[derive(Clone, Copy)]
pub enum Edit<'a> {
    SetAttr {
        node: u64,
        name: &'a str,
        value: &'a str,
    },
    RemoveAttr {
        node: u64,
        name: &'a str,
    },
    Remove {
        node: u64,
    },
    Unwrap {
        node: u64,
    },
    Append {
        parent: u64,
        child: u64,
    },
    InsertBefore {
        child: u64,
        next: u64,
    },
    MakeElement {
        name: &'a str,
    },
    MakeText {
        text: &'a str,
    },
}

/// Changes the nodes of the page in a handle, or tells why not.
pub(crate) fn change(alloc: Global, page: &mut Slot, edit: &Edit<'_>) -> u32
    ensures edited { IsEdit page.old.value page.new.value (fault_in edit.now) (IsEdited edit.now) result }
{
    let Some(mut held) = page.take(alloc) else {
        return BAD_HANDLE;
    };
    let said = change_held(alloc, held.as_mut(), edit);
    page.put(held);
    said
}

/// Changes the nodes of a page that is held.
fn change_held(alloc: Global, held: &mut Held, edit: &Edit<'_>) -> u32
    ensures edited { IsEdit (Some held.old) (Some held.new) (fault_in edit.now) (IsEdited edit.now) result }
{
    match replace(held, Held::Buffer(Vec::new(alloc))) {
        Held::Page(page) => {
            let (page, said) = change_page(page, edit);
            *held = Held::Page(page);
            said
        }
        other => {
            *held = other;
            BAD_HANDLE
        }
    }
}

/// Changes the nodes of a page.
fn change_page(page: Rooted, edit: &Edit<'_>) -> (Rooted, u32)
    ensures edited { IsEdit (Some (Held.Page page)) (Some (Held.Page result.0)) (fault_in edit.now) (IsEdited edit.now) result.1 }
{
    let Rooted { tree } = page;
    let mut tree = tree;
    let said = change_tree(&mut tree, edit);
    (Rooted { tree }, said)
}

/// Changes the nodes of a tree.
fn change_tree(tree: &mut Tree, edit: &Edit<'_>) -> u32
    ensures good { result ≡ 0 → fault_in edit.now tree.old.arena tree.old.root ≡ None }
    ensures done { result ≡ 0 → IsEdited edit.now tree.old.arena tree.new.arena }
    ensures rest { tree.new ≡ with_nodes tree.old tree.new.arena }
    ensures cause { result ≢ 0 → (e : EditError) × IsCause (fault_in edit.now tree.old.arena tree.old.root) e × (result ≡ edit_status e) }
    ensures kept { result ≢ 0 → tree.new ≡ tree.old }
    ensures root { IsRoot tree.old.arena tree.old.root → IsRoot tree.new.arena tree.new.root }
{
    let root = tree.root;
    match edit_nodes(&mut tree.arena, root, edit) {
        Ok(()) => OK,
        Err(error) => edit_status(error),
    }
}

/// The number of a refusal.
fn edit_status(error: EditError) -> u32
    ensures { result ≡ edit_status error }
{
    match error {
        EditError::NoNode => BAD_INDEX,
        EditError::NotElement => NOT_ELEMENT,
        EditError::BadName => BAD_NAME,
        EditError::NotLinkable => NOT_LINKABLE,
        EditError::NoParent => NO_PARENT,
        EditError::Cycle => CYCLE,
        EditError::OutOfMemory => OUT_OF_MEMORY,
        EditError::NodeBudget => NODE_BUDGET,
        EditError::HeldBudget => HELD_BUDGET,
    }
}
