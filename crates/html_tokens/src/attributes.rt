// The attributes of a tag.
ghost use Rattle.html_tokens.specs.Tag.{has_name};
ghost use Rattle.html_tokens.specs.Places.{comparisons};
ghost use Rattle.std.specs.Prelude.{◌≡◌, ◌∷◌, [], IfOk, length};

use html_text::Str;
use std::alloc::{AllocError, Global};
use std::marker::Model;
use std::rc::{Rc, RcSlice};

/// An attribute: its name, and its value, which is empty where none was written.
#[derive(Debug, Drop)]
pub struct Attr {
    pub name: Str,
    pub value: Str,
}

impl Clone for Attr {
    ghost is_clone = { λ attr copy. copy ≡ attr };

    fn clone(&self) -> Result<Attr, AllocError>
        ensures cases { IfOk result (λ copy. copy ≡ self.now) }
    {
        let name = self.name.clone()?;
        let value = self.value.clone()?;
        Ok(Attr { name, value })
    }
}

/// Whether an attribute of this name is there, and with how many names it was compared: all up to the first equal one.
pub(crate) fn search(attrs: &[Attr], name: &Str) -> (bool, usize)
    ensures found { result.0 ≡ has_name name.now attrs.now }
    ensures count { result.1 ≡ comparisons name.now attrs.now }
{
    let mut compared = 0;
    for attr in attrs {
        compared += 1;
        if attr.name == *name {
            return (true, compared);
        }
    }
    (false, compared)
}

/// Shared attributes. Most elements have but one, which is one piece of memory.
#[derive(Debug, Drop)]
enum Shared {
    None,
    One(Rc<Attr>),
    Many(RcSlice<Attr>),
}

/// Attributes in order, seen as their list. A share of them takes no memory of its own, nor does the empty list.
#[derive(Debug, Drop)]
pub struct Attrs {
    list: Shared,
}

impl Model for Attrs {
    ghost use Rattle.std.specs.Prelude.{List};
    ghost use Rattle.html_tokens.specs.declared.attributes.Attr.{Attr};

    ghost Value = { List Attr };

    ghost use Rattle.html_tokens.specs.Shared.{items_in};

    ghost view = { λ a. items_in a.list };
}

impl Attrs {
    /// No attributes, which takes no memory.
    pub fn new(_alloc: Global) -> Attrs
        ensures { result ≡ [] }
    {
        Attrs { list: Shared::None }
    }

    /// One attribute, which nothing shares yet.
    pub(crate) fn one(alloc: Global, attr: Attr) -> Result<Attrs, AllocError>
        ensures { IfOk result (λ shared. shared ≡ attr ∷ []) }
    {
        let one = Rc::new(alloc, attr)?;
        Ok(Attrs {
            list: Shared::One(one),
        })
    }

    /// The attributes of a `Vec`, which nothing shares yet.
    pub fn from_vec(attrs: Vec<Attr>) -> Result<Attrs, AllocError>
        ensures { IfOk result (λ shared. shared ≡ attrs.items) }
    {
        if attrs.is_empty() {
            return Ok(Attrs { list: Shared::None });
        }
        let list = RcSlice::from_vec(attrs)?;
        Ok(Attrs {
            list: Shared::Many(list),
        })
    }

    /// The same attributes, shared.
    pub fn share(&self) -> Result<Attrs, AllocError>
        ensures { IfOk result (λ shared. shared ≡ self.now) }
    {
        let list = match &self.list {
            Shared::None => Shared::None,
            Shared::One(one) => Shared::One(one.clone()?),
            Shared::Many(list) => Shared::Many(list.clone()?),
        };
        Ok(Attrs { list })
    }

    /// How many there are.
    pub fn len(&self) -> usize
        ensures { result ≡ length self.now }
    {
        self.as_slice().len()
    }

    /// The attributes as a slice.
    pub fn as_slice(&self) -> &[Attr]
        ensures { result.now ≡ self.now }
    {
        match &self.list {
            Shared::None => &[],
            Shared::One(one) => std::slice::from_ref(one.as_ref()),
            Shared::Many(list) => list.as_slice(),
        }
    }
}
