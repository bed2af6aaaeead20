//! Where the tokens of a page begin.

ghost use Rattle.std.specs.Prelude.{◌≡◌, ◌<◌, ◌++◌, ℕ, [], IsTrue, OnOk, OnErr, length, slice_index_or};
ghost use Rattle.std.specs.List.{range_with_len};
ghost use Rattle.html_parser.specs.Stretches.{Adds, AreFrom, GoesOn, starts_in};

use std::alloc::{AllocError, Global};
use std::marker::Model;

/// Tokens of which each begins one place after the one before it: the number and the place of the first.
#[derive(Clone, Copy, Debug)]
pub(crate) struct Stretch {
    pub first: u64,
    pub place: u64,
}

/// The places where tokens begin, in order. Text takes as little room as one token.
#[derive(Drop)]
pub(crate) struct Starts {
    stretches: Vec<Stretch>,
    len: u64,
}

impl Model for Starts {
    ghost use Rattle.std.specs.Prelude.{ℕ, List};
    ghost use Rattle.html_parser.specs.Stretches.{AreStretches, starts_in};

    ghost Value = { List ℕ };

    ghost view = { λ s. starts_in s.stretches.items s.len };

    ghost invariant = { λ s. AreStretches s.stretches.items s.len };
}

impl Starts {
    /// No places, which takes no memory.
    pub(crate) fn new(alloc: Global) -> Starts
        ensures value { result ≡ [] }
    {
        Starts {
            stretches: Vec::new(alloc),
            len: 0,
        }
    }

    /// Asks for room for so many more stretches, which take no memory before they are added. A refusal changes nothing.
    pub(crate) fn reserve(&mut self, count: usize)
        ensures same { self.new ≡ self.old }
    {
        let _ = self.stretches.reserve(count);
    }

    /// The number of tokens.
    pub(crate) fn len(&self) -> u64
        ensures value { result ≡ length self.now }
    {
        self.len
    }

    /// Adds so many tokens, of which the first begins at a place and each other one at the next, or leaves the list as it was.
    pub(crate) fn push_run(&mut self, place: u64, count: u64) -> Result<(), AllocError>
        ensures added { OnOk result (self.new ≡ self.old ++ range_with_len place count) }
        ensures refused { OnErr result (self.new ≡ self.old) }
    {
        if count == 0 {
            return Ok(());
        }
        let Some(len) = self.len.checked_add(count) else {
            return Err(AllocError);
        };
        let Some(_end) = place.checked_add(count) else {
            return Err(AllocError);
        };
        add(&mut self.stretches, self.len, place)?;
        self.len = len;
        Ok(())
    }

    /// Where the token of this number begins; 0 where there is none.
    pub(crate) fn at(&self, number: u64) -> u64
        ensures value { result ≡ slice_index_or self.now number 0 }
    {
        if number < self.len {
            place_in(self.stretches.as_slice(), number)
        } else {
            0
        }
    }
}

/// Makes room for a token of this number that begins at this place.
fn add(stretches: &mut Vec<Stretch>, number: u64, place: u64) -> Result<(), AllocError>
    ensures added { OnOk result (Adds stretches.old.items stretches.new.items number place) }
    ensures refused { OnErr result (stretches.new.items ≡ stretches.old.items) }
{
    if goes_on(stretches.as_slice(), number, place) {
        return Ok(());
    }
    let first = number;
    stretches.push(Stretch { first, place })?;
    Ok(())
}

/// Whether a token of this number that begins at this place belongs to the last stretch.
fn goes_on(stretches: &[Stretch], number: u64, place: u64) -> bool
    ensures last { IsTrue result → GoesOn stretches.now number place }
{
    match stretches.last() {
        Some(last) => {
            last.first <= number && last.place <= place && number - last.first == place - last.place
        }
        None => false,
    }
}

/// Where the token of a number begins, by the last stretch whose first token is not after it.
fn place_in(stretches: &[Stretch], number: u64) -> u64
    ensures value { (len : ℕ) → AreFrom 0 stretches.now len → number < len → result ≡ slice_index_or (starts_in stretches.now len) number 0 }
{
    let above = stretches.partition_point(|stretch| stretch.first <= number);
    match stretches.get(above.saturating_sub(1)) {
        Some(stretch) => {
            let further = number.saturating_sub(stretch.first);
            stretch.place.saturating_add(further)
        }
        None => 0,
    }
}
