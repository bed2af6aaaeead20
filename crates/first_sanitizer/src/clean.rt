// A page made clean.

ghost use Rattle.std.specs.Prelude.{◌≡◌, OnOk, true};
ghost use Rattle.std.specs.Io.KnownBytes.{Appends};
ghost use Rattle.std.specs.Str.{encode_utf8_all};
ghost use Rattle.html_parser.specs.Allowed.{are_allowed};
ghost use Rattle.html_parser.specs.Reads.{descendants_of};
ghost use Rattle.html_parser.specs.Serialised.{html_below};

use crate::policy::{is_dropped, may_stay};
use anyhow::{Result, bail};
use html_parser::dom::{self, AllowList};
use html_parser::{
    Arena, Context, ElementData, EntityTable, Foreign, NodeData, NodeId, Options, OverWrite,
    Profile, Sink, Str, Tree, parse_tree_with,
};
use std::alloc::Global;

/// Makes pieces of pages clean.
#[derive(Drop)]
pub(crate) struct Sanitizer<'a> {
    pub(crate) alloc: Global,
    pub(crate) table: &'a EntityTable,
    pub(crate) list: &'a AllowList,
}

impl<'a> Sanitizer<'a> {
    /// A piece of a page, without what may not stay. It is read again, and refused if something that may not stay is then there.
    pub(crate) fn sanitise(&self, piece: &[u8]) -> Result<Vec<u8>> {
        let mut tree = self.read(piece)?;
        let mut out = OverWrite::new(Vec::new(self.alloc));
        self.clean(&mut tree, &mut out)?;
        let written = out.into_inner();
        self.check(written.as_slice())?;
        Ok(written)
    }

    /// The tree of a piece of a page, as it is read in a `div`.
    fn read(&self, piece: &[u8]) -> Result<Tree> {
        let context = Context {
            name: Str::of(self.alloc, "div")?,
            in_form: false,
            quirks: false,
            encoding: None,
        };
        let options = Options::new()
            .with_foreign(Foreign::Parse)
            .with_context(context);
        Ok(parse_tree_with(self.alloc, self.table, &options, piece)?)
    }

    /// Takes from a tree what may not stay, and writes it.
    fn clean<W: Sink>(&self, tree: &mut Tree, out: &mut W) -> Result<()>
        ensures allowed { OnOk result (are_allowed self.now.list.now tree.new.arena (descendants_of tree.new.arena tree.new.root) ≡ true) }
        ensures written { OnOk result (Appends (W.taken out.old) (W.taken out.new) (encode_utf8_all (html_below Profile.Two tree.new.arena tree.new.root))) }
    {
        self.tidy_all(&mut tree.arena, tree.root)?;
        write_allowed(self.list, tree, out)
    }

    /// Refuses what was written if something that may not stay is read in it.
    fn check(&self, written: &[u8]) -> Result<()> {
        let tree = self.read(written)?;
        if !self.list.holds_below(&tree.arena, tree.root) {
            bail!("what was written is read otherwise");
        }
        Ok(())
    }

    /// Takes from below a node what may not stay.
    fn tidy_all(&self, arena: &mut Arena, root: NodeId) -> Result<()> {
        let mut nodes = Vec::new(self.alloc);
        for node in dom::descendants(arena, root) {
            nodes.push(node)?;
        }
        for node in &nodes {
            self.tidy(arena, *node)?;
        }
        Ok(())
    }

    /// Of a node, keeps texts, trims elements that are listed, unwraps others, and takes out the rest: comments, foreign content and what is dropped.
    fn tidy(&self, arena: &mut Arena, node: NodeId) -> Result<()> {
        match dom::get(arena, node) {
            Some(NodeData::Text { .. }) => {}
            Some(NodeData::Element(element)) if self.list.has_element(element.name.as_str()) => {
                let names = self.refused_names(element)?;
                for name in &names {
                    dom::remove_attr(arena, node, name.as_str())?;
                }
            }
            Some(NodeData::Element(element)) if !is_out(element) => dom::unwrap(arena, node)?,
            _ => dom::remove(arena, node)?,
        }
        Ok(())
    }

    /// The names of the attributes that may not stay.
    fn refused_names(&self, element: &ElementData) -> Result<Vec<Str>> {
        let mut names = Vec::new(self.alloc);
        for attr in element.attrs.as_slice() {
            if !may_stay(self.list, attr) {
                names.push(attr.name.clone()?)?;
            }
        }
        Ok(names)
    }
}

/// Whether an element that is not listed goes with all below it.
fn is_out(element: &ElementData) -> bool {
    element.tag.is_foreign() || is_dropped(element.name.as_str())
}

/// Writes what stands below the root of a tree, if all of it may stay.
fn write_allowed<W: Sink>(list: &AllowList, tree: &Tree, out: &mut W) -> Result<()>
    ensures allowed { OnOk result (are_allowed list.now tree.now.arena (descendants_of tree.now.arena tree.now.root) ≡ true) }
    ensures written { OnOk result (Appends (W.taken out.old) (W.taken out.new) (encode_utf8_all (html_below Profile.Two tree.now.arena tree.now.root))) }
{
    if !list.holds_below(&tree.arena, tree.root) {
        bail!("something is left that may not stay");
    }
    dom::inner_html(&tree.arena, tree.root, Profile::Two, out)?;
    Ok(())
}
