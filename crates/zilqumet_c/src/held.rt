//! What a handle holds.

ghost use Rattle.html_arena.specs.Walking.{IsRoot};

use html_parser::{EntityTable, OwnedTreeParser, Tree};
use std::sync::Arc;
use zilqumet_rows::{Gathered, Ledger};

/// What a handle holds: a page, a table of references, which parsers share, a parser of an input that is not at its end, bytes, texts, or a ledger.
#[derive(Drop)]
pub enum Held {
    Page(Rooted),
    Entities(Arc<EntityTable>),
    Parser(OwnedTreeParser),
    Buffer(Vec<u8>),
    Texts(Gathered),
    Ledger(Ledger),
}

/// A tree from its root.
#[derive(Drop)]
pub struct Rooted {
    pub tree: Tree,
    ghost root: { IsRoot tree.arena tree.root },
}
