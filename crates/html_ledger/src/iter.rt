// The fates of a list, one by one.
ghost use Rattle.std.specs.Prelude.{◌≡◌};
ghost use Rattle.std.specs.Iterator.{YieldsFirst, item_count};

use crate::fate::Fate;
use crate::runs::Run;
use std::marker::Model;

/// The fates that are left of a list, one for each token.
#[derive(Drop)]
pub struct Iter<'a> {
    runs: &'a [Run],
    fate: Fate,
    left: u64,
}

impl<'a> Model for Iter<'a> {
    ghost use Rattle.std.specs.Prelude.{◌++◌, List, replicate};
    ghost use Rattle.html_ledger.specs.declared.fate.Fate.{Fate};
    ghost use Rattle.html_ledger.specs.Runs.{AllFilled, spread};

    ghost Value = { List Fate };

    ghost view = { λ it. replicate it.left it.fate ++ spread it.runs.now };

    ghost invariant = { λ it. AllFilled it.runs.now };
}

impl<'a> Iter<'a> {
    ghost use Rattle.html_ledger.specs.Runs.{AllFilled, spread};

    /// The fates of runs.
    pub(crate) fn over(runs: &'a [Run]) -> Iter<'a>
        requires filled { AllFilled runs.now }
        ensures value { result ≡ spread runs.now }
    {
        Iter {
            runs,
            fate: Fate::Ended,
            left: 0,
        }
    }
}

impl<'a> Iterator for Iter<'a> {
    type Item = Fate;

    ghost next_gives = { YieldsFirst (λ fates. fates) };

    ghost remaining = { item_count (λ fates. fates) };

    fn next(&mut self) -> Option<Fate> {
        if self.left > 0 {
            self.left -= 1;
            return Some(self.fate);
        }
        let (run, others) = self.runs.split_first()?;
        self.runs = others;
        self.fate = run.fate;
        self.left = run.count - 1;
        Some(run.fate)
    }
}
