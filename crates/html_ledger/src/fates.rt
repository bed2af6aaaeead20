// The fates of the tokens so far.
ghost use Rattle.std.specs.Prelude.{◌≡◌, ◌+◌, ◌-◌, ◌<◌, ◌^◌, ◌∷◌, [], ◌++◌, ◌↔◌, IsTrue, length, replicate, slice_get, OnOk, OnErr};
ghost use Rattle.html_ledger.specs.Runs.{AllApart, AllFilled, last_of, spread};

use crate::fate::Fate;
use crate::iter::Iter;
use crate::runs::{Run, add, fate_at, last_fate};
use std::alloc::{AllocError, Global};
use std::marker::Model;

/// A list of fates, one for each token, in which equal neighbours are kept once.
#[derive(Drop)]
pub struct Fates {
    runs: Vec<Run>,
    len: u64,
}

impl Model for Fates {
    ghost use Rattle.std.specs.Prelude.{◌≡◌, List, length};
    ghost use Rattle.html_ledger.specs.declared.fate.Fate.{Fate};
    ghost use Rattle.html_ledger.specs.Runs.{AllApart, AllFilled, spread};

    ghost Value = { List Fate };

    ghost view = { λ f. spread f.runs.items };

    ghost invariant = { λ f. (f.len ≡ length (spread f.runs.items)) × AllFilled f.runs.items × AllApart f.runs.items };
}

impl Fates {
    /// No fates, which takes no memory.
    pub fn new(alloc: Global) -> Fates
        ensures value { result ≡ [] }
    {
        Fates {
            runs: Vec::new(alloc),
            len: 0,
        }
    }

    /// Asks for room for so many more runs of fates, which take no memory before they are added. A refusal changes nothing.
    pub fn reserve(&mut self, count: usize)
        ensures same { self.new ≡ self.old }
    {
        let _ = self.runs.reserve(count);
    }

    /// Adds the fate of one more token, or leaves the list as it was. A list holds at most 2^64 - 1 fates.
    pub fn push(&mut self, fate: &Fate) -> Result<(), AllocError>
        ensures added { OnOk result (self.new ≡ self.old ++ fate.now ∷ []) }
        ensures refused { OnErr result (self.new ≡ self.old) }
    {
        self.push_run(fate, 1)
    }

    /// Adds the fate of so many more tokens in constant time, or leaves the list as it was.
    #[inline(always)]
    pub fn push_run(&mut self, fate: &Fate, count: u64) -> Result<(), AllocError>
        ensures added { OnOk result (self.new ≡ self.old ++ replicate count fate.now) }
        ensures refused { OnErr result (self.new ≡ self.old) }
    {
        if count == 0 {
            return Ok(());
        }
        let Some(len) = self.len.checked_add(count) else {
            return Err(AllocError);
        };
        add(&mut self.runs, fate, count)?;
        self.len = len;
        Ok(())
    }

    /// The number of tokens that have a fate.
    pub fn len(&self) -> u64
        ensures value { result ≡ length self.now }
    {
        self.len
    }

    /// Whether no token has a fate.
    pub fn is_empty(&self) -> bool
        ensures value { IsTrue result ↔ (length self.now ≡ 0) }
    {
        self.len == 0
    }

    /// The fate of the last token that has one.
    pub fn last(&self) -> Option<Fate>
        ensures value { result ≡ last_of self.now }
    {
        last_fate(self.runs.as_slice())
    }

    /// The fate of the token of this number, if it has one. It goes through the runs before it.
    pub fn get(&self, index: u64) -> Option<Fate>
        ensures value { result ≡ slice_get self.now index }
    {
        fate_at(self.runs.as_slice(), index)
    }

    /// The fates, one by one.
    pub fn iter(&self) -> Iter<'_>
        ensures value { result ≡ self.now }
    {
        Iter::over(self.runs.as_slice())
    }

    /// The fates as runs, of which none is empty and no two neighbours have one fate.
    pub fn runs(&self) -> &[Run]
        ensures value { spread result.now ≡ self.now }
        ensures filled { AllFilled result.now }
        ensures apart { AllApart result.now }
    {
        self.runs.as_slice()
    }
}
