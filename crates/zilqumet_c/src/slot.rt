//! A place for a box, which C keeps.

ghost use Rattle.std.specs.Prelude.{◌≡◌, Option, None, Some, MatchOption};
ghost use Rattle.std.specs.Coded.{coded_option};
ghost use Rattle.zilqumet_c.specs.declared.held.Held.{Held};
ghost use Rattle.zilqumet_c.specs.contracts.held.Held.{the_row};
ghost use Rattle.zilqumet_c.specs.Kept.{kept, unboxed};

use crate::held::Held;
use crate::loose::Loose;
use std::alloc::Global;
use std::marker::Model;
use std::mem::replace;
use std::ptr::null_mut;

/// A place that holds a box or nothing. To C it is a struct of one pointer, which is null where the place is empty.
#[repr(C)]
pub struct Slot {
    at: *mut u8,
    alloc: Global,
    pub ghost value: { Option Held } by { coded_option the_row.coded },
}

impl Model for Slot {
    ghost also_owns = { λ s. kept the_row s.alloc s.at s.value };
}

impl Slot {
    /// An empty place.
    pub fn empty(alloc: Global) -> Slot
        ensures { result.value ≡ None }
    {
        Slot {
            at: null_mut(),
            alloc,
        }
    }

    /// The place of a box that is taken apart.
    fn of_loose(loose: Loose<Held, Global>) -> Slot
        ensures { result.value ≡ Some loose.value }
    {
        let Loose { at, alloc } = loose;
        Slot {
            at: at as *mut u8,
            alloc,
        }
    }

    /// What the place holds, taken apart.
    fn into_loose(self) -> Option<Loose<Held, Global>>
        ensures { MatchOption result (self.value ≡ None) (λ l. self.value ≡ Some l.value) }
    {
        let Slot { at, alloc } = self;
        if at.is_null() {
            None
        } else {
            Some(Loose {
                at: at as *mut Held,
                alloc,
            })
        }
    }

    /// A place that holds a box.
    pub fn of(value: Box<Held>) -> Slot
        ensures { result.value ≡ Some value.value }
    {
        Slot::of_loose(Loose::of(value))
    }

    /// What the place holds.
    pub fn into_box(self) -> Option<Box<Held>>
        ensures { unboxed result ≡ self.value }
    {
        match self.into_loose() {
            Some(loose) => Some(loose.into_box()),
            None => None,
        }
    }

    /// Takes out what the place holds, which is empty then.
    pub fn take(&mut self, alloc: Global) -> Option<Box<Held>>
        ensures value { unboxed result ≡ self.old.value }
        ensures left { self.new.value ≡ None }
    {
        replace(self, Slot::empty(alloc)).into_box()
    }

    /// Puts a box into the place. What was there is let go.
    pub fn put(&mut self, value: Box<Held>)
        ensures { self.new.value ≡ Some value.value }
    {
        let _old = replace(self, Slot::of(value)).into_box();
    }

    /// Puts back what was taken out.
    pub fn restore(&mut self, alloc: Global, value: Option<Box<Held>>)
        ensures { self.new.value ≡ unboxed value }
    {
        match value {
            Some(value) => self.put(value),
            None => {
                let _old = self.take(alloc);
            }
        }
    }
}

/// Frees what a handle holds, and leaves it empty. An empty handle stays empty.
#[unsafe(no_mangle)]
pub extern "C" fn proved_free(alloc: Global, handle: &mut Slot)
    ensures { handle.new.value ≡ None }
{
    let _old = handle.take(alloc);
}
