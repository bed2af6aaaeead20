// The attributes of a tag that is being read.
ghost use Rattle.html_tokens.specs.Places.{comparisons, few};
ghost use Rattle.html_tokens.specs.Tag.{has_name};
ghost use Rattle.std.specs.Prelude.{◌≡◌, ◌≤◌, ◌+◌, ◌∷◌, [], ◌++◌, length, take, true, false, IfOk, OnErr, OnOk};

use crate::attributes::{Attr, Attrs, search};
use crate::gathered::Gathered;
use html_text::Str;
use std::alloc::{AllocError, Global};
use std::collections::BTreeMap;
use std::marker::Model;

/// So many names are looked at one after another.
const FEW: usize = 16;

/// Attributes in order, seen as their list. The names after the first few have their places in a tree, so that a tag of
/// many attributes takes little time, whatever their names are.
#[derive(Drop)]
pub struct IndexedAttrs {
    alloc: Global,
    attrs: Gathered,
    places: BTreeMap<String, usize>,
}

impl Model for IndexedAttrs {
    ghost use Rattle.std.specs.Prelude.{List};
    ghost use Rattle.html_tokens.specs.declared.attributes.Attr.{Attr};
    ghost use Rattle.html_tokens.specs.Places.{AreFirst, AreFound};

    ghost Value = { List Attr };

    ghost use Rattle.html_tokens.specs.Shared.{gathered_in};

    ghost view = { λ a. gathered_in a.attrs };

    ghost invariant = { λ a. AreFound (gathered_in a.attrs) a.places × AreFirst (gathered_in a.attrs) a.places };
}

/// The first few attributes.
fn first_few(attrs: &[Attr]) -> &[Attr]
    ensures { result.now ≡ take few attrs.now }
{
    if attrs.len() < FEW {
        attrs
    } else {
        &attrs[..FEW]
    }
}

/// Whether an attribute of this name is there, and with how many names it is compared: all up to the first equal one, which
/// can stand at this place alone.
fn search_at(attrs: &[Attr], place: usize, name: &Str) -> (bool, usize)
    requires first { has_name name.now attrs.now ≡ true → comparisons name.now attrs.now ≡ place + 1 }
    ensures found { result.0 ≡ has_name name.now attrs.now }
    ensures count { result.1 ≡ comparisons name.now attrs.now }
{
    if let Some(attr) = attrs.get(place) {
        if attr.name == *name {
            return (true, place + 1);
        }
    }
    search(attrs, name)
}

impl IndexedAttrs {
    pub(crate) fn new(alloc: Global) -> IndexedAttrs
        ensures { result ≡ [] }
    {
        IndexedAttrs {
            alloc,
            attrs: Gathered::None,
            places: BTreeMap::new(alloc),
        }
    }

    /// Adds an attribute of a new name at the end, or leaves the list as it was.
    pub(crate) fn push(&mut self, attr: Attr) -> Result<(), AllocError>
        requires new { has_name attr.name self.old ≡ false }
        ensures ok { OnOk result (self.new ≡ self.old ++ attr ∷ []) }
        ensures err { OnErr result (self.new ≡ self.old) }
    {
        let place = self.attrs.as_slice().len();
        if place < FEW {
            return self.attrs.push(self.alloc, attr);
        }
        let name = attr.name.as_str().to_string(self.alloc)?;
        self.places.insert(name, place)?;
        self.attrs.push(self.alloc, attr)?;
        Ok(())
    }

    /// Whether an attribute of this name is there, and with how many names it is compared: all up to the first equal one.
    pub(crate) fn search(&self, name: &Str) -> (bool, usize)
        ensures found { result.0 ≡ has_name name.now self.now }
        ensures count { result.1 ≡ comparisons name.now self.now }
        ensures few { result.1 ≤ length self.now }
    {
        let attrs = self.attrs.as_slice();
        let (found, compared) = search(first_few(attrs), name);
        if found {
            return (true, compared);
        }
        match self.places.get(name.as_str()) {
            None => (false, attrs.len()),
            Some(place) => search_at(attrs, *place, name),
        }
    }

    pub(crate) fn len(&self) -> usize
        ensures { result ≡ length self.now }
    {
        self.attrs.as_slice().len()
    }

    /// The attributes without the places of their names.
    pub(crate) fn into_attrs(self) -> Result<Attrs, AllocError>
        ensures { IfOk result (λ attrs. attrs ≡ self) }
    {
        self.attrs.into_attrs(self.alloc)
    }
}
