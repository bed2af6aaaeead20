// The list of the parse errors that were told.
ghost use Rattle.std.specs.Prelude.{◌≡◌, ◌≤◌, ◌<◌, [], length, OnErr, OnOk};
ghost use Rattle.std.specs.List.Sorted.{IsNonDecreasingBy};
ghost use Rattle.std.specs.List.{AllWithin};
ghost use Rattle.html_tokens.specs.Order.{IsAdded};

use crate::faults::Fault;
use std::alloc::{AllocError, Global};
use std::marker::Model;

/// Parse errors in order of their places, and at one place in the order in which they were told; seen as their list.
#[derive(Drop)]
pub struct FaultList {
    list: Vec<Fault>,
}

impl Model for FaultList {
    ghost use Rattle.std.specs.Prelude.{List};
    ghost use Rattle.std.specs.List.Sorted.{IsNonDecreasingBy};
    ghost use Rattle.html_tokens.specs.declared.faults.Fault.{Fault};

    ghost Value = { List Fault };

    ghost view = { λ f. f.list.items };

    ghost invariant = { λ f. IsNonDecreasingBy (λ x. x.place) f.list.items };
}

/// How many errors at the front have no later place.
fn front_up_to(list: &[Fault], place: u64) -> usize
    requires ordered { IsNonDecreasingBy (λ x. x.place) list.now }
    ensures fit { result ≤ length list.now }
    ensures before { AllWithin (λ x. x.place ≤ place) list.now 0 result }
    ensures after { AllWithin (λ x. place < x.place) list.now result (length list.now) }
{
    let mut at = list.len();
    'back: while at > 0 && place < list[at - 1].place {
        at -= 1;
    }
    at
}

impl FaultList {
    pub(crate) fn new(alloc: Global) -> FaultList
        ensures { result ≡ [] }
    {
        FaultList {
            list: Vec::new(alloc),
        }
    }

    /// Adds an error behind those that have no later place, or leaves the list as it was.
    pub(crate) fn add(&mut self, fault: Fault) -> Result<(), AllocError>
        ensures ok { OnOk result (IsAdded self.old fault self.new) }
        ensures err { OnErr result (self.new ≡ self.old) }
    {
        let at = front_up_to(self.list.as_slice(), fault.place);
        self.list.insert(at, fault)?;
        Ok(())
    }

    /// The errors as a slice.
    pub(crate) fn as_slice(&self) -> &[Fault]
        ensures list { result.now ≡ self.now }
        ensures ordered { IsNonDecreasingBy (λ x. x.place) result.now }
    {
        self.list.as_slice()
    }
}
