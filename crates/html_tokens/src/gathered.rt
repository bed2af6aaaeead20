// The attributes of a tag that is being read, without the places of their names.
ghost use Rattle.html_tokens.specs.Shared.{are_few, gathered_in};
ghost use Rattle.std.specs.Prelude.{◌≡◌, ◌∷◌, [], ◌++◌, true, IfOk, OnErr, OnOk};

use crate::attributes::{Attr, Attrs};
use std::alloc::{AllocError, Global};
use std::mem;

/// Attributes in order. Most tags have but one, which takes no memory of its own.
#[derive(Drop)]
pub enum Gathered {
    None,
    One(Attr),
    Many(Vec<Attr>),
}

impl Gathered {
    pub(crate) fn as_slice(&self) -> &[Attr]
        ensures { result.now ≡ gathered_in self.now }
    {
        match self {
            Gathered::None => &[],
            Gathered::One(attr) => std::slice::from_ref(attr),
            Gathered::Many(attrs) => attrs.as_slice(),
        }
    }

    /// Adds one at the end, or leaves the list as it was.
    pub(crate) fn push(&mut self, alloc: Global, attr: Attr) -> Result<(), AllocError>
        ensures ok { OnOk result (gathered_in self.new ≡ gathered_in self.old ++ attr ∷ []) }
        ensures err { OnErr result (gathered_in self.new ≡ gathered_in self.old) }
    {
        if let Gathered::Many(attrs) = self {
            attrs.push(attr)?;
            return Ok(());
        }
        self.push_few(alloc, attr)
    }

    /// Adds one behind none or one, or leaves the list as it was.
    fn push_few(&mut self, alloc: Global, attr: Attr) -> Result<(), AllocError>
        requires few { are_few self.old ≡ true }
        ensures ok { OnOk result (gathered_in self.new ≡ gathered_in self.old ++ attr ∷ []) }
        ensures err { OnErr result (gathered_in self.new ≡ gathered_in self.old) }
    {
        match mem::replace(self, Gathered::None) {
            Gathered::One(first) => self.put_second(alloc, first, attr),
            _ => {
                *self = Gathered::One(attr);
                Ok(())
            }
        }
    }

    /// Puts a second attribute behind the first, or the first back.
    fn put_second(&mut self, alloc: Global, first: Attr, second: Attr) -> Result<(), AllocError>
        ensures ok { OnOk result (gathered_in self.new ≡ first ∷ second ∷ []) }
        ensures err { OnErr result (gathered_in self.new ≡ first ∷ []) }
    {
        let Ok(mut pair) = Vec::with_capacity(alloc, 2) else {
            *self = Gathered::One(first);
            return Err(AllocError);
        };
        pair.push_reserved(first);
        pair.push_reserved(second);
        *self = Gathered::Many(pair);
        Ok(())
    }

    /// The same attributes, to be shared.
    pub(crate) fn into_attrs(self, alloc: Global) -> Result<Attrs, AllocError>
        ensures { IfOk result (λ attrs. attrs ≡ gathered_in self) }
    {
        match self {
            Gathered::None => Ok(Attrs::new(alloc)),
            Gathered::One(attr) => Attrs::one(alloc, attr),
            Gathered::Many(attrs) => Attrs::from_vec(attrs),
        }
    }
}
