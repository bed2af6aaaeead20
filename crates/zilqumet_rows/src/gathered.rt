//! Texts one behind the other.

ghost use Rattle.std.specs.Prelude.{◌≡◌, ◌<◌, ◌∷◌, [], OnOk, length};
ghost use Rattle.std.specs.Str.{chars};
ghost use Rattle.html_arena.specs.Tree.{label_of};
ghost use Rattle.zilqumet_rows.specs.Texts.{Adds, AreTexts, all_texts, attr_texts, node_texts};

use html_arena::{Arena, NodeId};
use html_tokens::Attr;
use std::alloc::{AllocError, Global};

/// Texts one behind the other, and how many bytes there are up to the end of each.
#[derive(Drop)]
pub struct Gathered {
    pub bytes: Vec<u8>,
    pub ends: Vec<u64>,
}

impl Gathered {
    /// No texts.
    pub fn new(alloc: Global) -> Gathered
        ensures { AreTexts result.bytes.items result.ends.items [] }
    {
        Gathered {
            bytes: Vec::new(alloc),
            ends: Vec::new(alloc),
        }
    }

    /// Adds a text.
    fn add(&mut self, text: &str) -> Result<(), AllocError>
        ensures { OnOk result (Adds (chars text.now ∷ []) self.old self.new) }
    {
        self.bytes.extend_from_slice(text.as_bytes())?;
        self.ends.push(self.bytes.len() as u64)?;
        Ok(())
    }

    /// Adds the names and the values of attributes.
    fn add_attrs(&mut self, attrs: &[Attr]) -> Result<(), AllocError>
        ensures { OnOk result (Adds (attr_texts attrs.now) self.old self.new) }
    {
        'attrs: for i in 0..attrs.len() {
            let attr = &attrs[i];
            self.add(attr.name.as_str())?;
            self.add(attr.value.as_str())?;
        }
        Ok(())
    }

    /// Adds the texts of a node.
    fn add_node(&mut self, arena: &Arena, node: NodeId) -> Result<(), AllocError>
        requires { node < length arena.now.labels }
        ensures { OnOk result (Adds (node_texts (label_of arena.now node)) self.old self.new) }
    {
        self.add(arena.name(node))?;
        self.add(arena.text(node))?;
        self.add_attrs(arena.attrs(node))?;
        Ok(())
    }

    /// Adds the texts of all nodes.
    pub fn add_all(&mut self, arena: &Arena) -> Result<(), AllocError>
        ensures { OnOk result (Adds (all_texts arena.now.labels) self.old self.new) }
    {
        'nodes: for i in 0..arena.len() {
            self.add_node(arena, NodeId::at(i as usize))?;
        }
        Ok(())
    }
}
