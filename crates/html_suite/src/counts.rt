//! How cases ended.

ghost use Rattle.std.specs.Prelude.{◌++◌, ◌∷◌, [], List, length, ◌≡◌};
ghost use Rattle.html_suite.specs.declared.counts.Outcome.{Outcome as OutcomeType};
ghost use Rattle.html_suite.specs.Report.{IsCountOf, shown};

/// What was expected of a case that failed, and what came of it, as text.
#[derive(Drop)]
pub(crate) struct Difference {
    pub expected: String,
    pub got: String,
}

/// How a case ended.
#[derive(Drop)]
pub(crate) enum Outcome {
    Passed,
    /// With the difference, where that is to be shown and there is one.
    Failed(Option<Difference>),
    /// It asks for what is not run.
    Skipped,
}

/// How many cases of a file ended how.
#[derive(Clone, Copy, Debug)]
pub(crate) struct Counts {
    pub passed: u64,
    pub failed: u64,
    pub skipped: u64,
}

impl Counts {
    pub(crate) fn new() -> Counts
        ensures { IsCountOf result [] }
    {
        Counts {
            passed: 0,
            failed: 0,
            skipped: 0,
        }
    }

    pub(crate) fn add(&mut self, outcome: &Outcome)
        ensures { (cases : List OutcomeType) → IsCountOf self.old cases → IsCountOf self.new (cases ++ outcome.now ∷ []) }
    {
        match outcome {
            Outcome::Passed => self.passed = self.passed.saturating_add(1),
            Outcome::Failed(_) => self.failed = self.failed.saturating_add(1),
            Outcome::Skipped => self.skipped = self.skipped.saturating_add(1),
        }
    }

    /// How many cases there were.
    pub(crate) fn all(&self) -> u64
        ensures { (cases : List OutcomeType) → IsCountOf self.now cases → result ≡ shown (length cases) }
    {
        self.passed
            .saturating_add(self.failed)
            .saturating_add(self.skipped)
    }
}
