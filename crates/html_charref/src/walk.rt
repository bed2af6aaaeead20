//! A walk through the names of the table, one code point at a time.
ghost use Rattle.std.specs.Prelude.{◌≡◌, ◌+◌, ◌<◌, ◌≤◌, ℕ, List, [], ◌∷◌, ◌++◌, length};
ghost use Rattle.html_charref.specs.Table.{IsLowerBound};

use crate::ranges::lower_bound;
use crate::table::{EntityTable, RefText, RowRange};

/// What a step of a walk answers: some name goes on, or the longest name that began the text, with its length in code
/// points and what it stands for.
#[derive(Clone, Copy, PartialEq, Eq, Debug)]
pub enum Step {
    More,
    End(Option<(u32, RefText)>),
}

/// A text on its way through the names of a table. The rows from `start` to `end` are those whose names are longer
/// than the text so far and begin with it.
#[derive(Clone, Copy)]
pub struct Walk<'a> {
    table: &'a EntityTable,
    start: usize,
    end: usize,
    depth: usize,
    best: Option<(u32, RefText)>,
    ghost in_order: { start ≤ end },
    ghost within: { end ≤ length table.now },
}

impl<'a> Walk<'a> {
    ghost use Rattle.std.specs.Prelude.{◌≡◌, ◌+◌, ℕ, List, ◌∷◌, [], ◌++◌, Option};
    ghost use Rattle.html_charref.specs.Table.{longest, step_of, IsTable};
    ghost use Rattle.html_charref.specs.Walk.{HasWalked, HasNarrowed};

    /// Goes on by a code point. The answer is `More` where some name is longer than the text so far, this code point
    /// included, and begins with it; and else the longest name that begins that text. A step after an `End` gives the
    /// same `End`.
    pub fn step(&mut self, c: char) -> Step
        ensures walked { (text : List ℕ) → HasWalked self.old text → HasWalked self.new (text ++ c ∷ []) }
        ensures answer { (text : List ℕ) → HasWalked self.old text
            → result ≡ step_of self.old.table.now (text ++ c ∷ []) }
        ensures again { (text : List ℕ) (found : Option (ℕ × RefText)) → HasWalked self.old text
            → step_of self.old.table.now text ≡ Step.End found → result ≡ Step.End found }
        ensures table { self.new.table.now ≡ self.old.table.now }
    {
        self.narrow(c);
        self.settle();
        if self.start < self.end {
            Step::More
        } else {
            Step::End(self.best)
        }
    }

    /// The rows whose letter at the depth is this one. Behind the ampersand they are known, if no row was left out yet.
    fn rows_with(&self, letter: u32) -> RowRange
        requires { letter < 1114112 }
        ensures start { IsLowerBound self.now.table.now self.now.start self.now.end self.now.depth letter result.start }
        ensures end { IsLowerBound self.now.table.now result.start self.now.end self.now.depth (letter + 1) result.end }
        ensures rule { IsTable self.now.table.now }
    {
        let table = self.table;
        let rows = table.rows.as_slice();
        if self.depth == 1 && self.start == 0 && self.end == rows.len() {
            if let Some(range) = table.ranges.get(letter as usize) {
                return *range;
            }
        }
        let start = lower_bound(rows, self.start, self.end, self.depth, letter);
        let end = lower_bound(rows, start, self.end, self.depth, letter + 1);
        RowRange { start, end }
    }

    /// Keeps the rows whose letter at the depth is this one.
    fn narrow(&mut self, c: char)
        ensures narrowed { (text : List ℕ) → HasWalked self.old text → HasNarrowed self.new text c }
        ensures table { self.new.table.now ≡ self.old.table.now }
    {
        let RowRange { start, end } = self.rows_with(u32::from(c));
        self.end = end;
        self.start = start;
        if self.start < self.end {
            self.depth = self.depth.saturating_add(1);
        }
    }

    /// Takes the first row where its name is all of what was stepped.
    fn settle(&mut self)
        ensures walked { (text : List ℕ) (c : ℕ) → HasNarrowed self.old text c → HasWalked self.new (text ++ c ∷ []) }
        ensures table { self.new.table.now ≡ self.old.table.now }
    {
        let table = self.table;
        let rows = table.rows.as_slice();
        if self.start < self.end {
            let row = &rows[self.start];
            if row.name.len() == self.depth {
                self.best = Some((self.depth as u32, row.text));
                self.start += 1;
            }
        }
    }

    /// The longest name that begins the text so far.
    pub fn best(&self) -> Option<(u32, RefText)>
        ensures { (text : List ℕ) → HasWalked self.now text → result ≡ longest self.now.table.now text }
    {
        self.best
    }
}

impl EntityTable {
    ghost use Rattle.std.specs.Prelude.{◌≡◌, []};
    ghost use Rattle.html_charref.specs.Table.{longest, IsLongest, IsTable};
    ghost use Rattle.html_charref.specs.Walk.{HasWalked};

    /// A walk that has not been given a code point.
    pub fn walk(&self) -> Walk<'_>
        ensures walked { HasWalked result [] }
        ensures table { result.table.now ≡ self.now }
        ensures rule { IsTable self.now }
    {
        let end = self.rows.len();
        Walk {
            table: self,
            start: 0,
            end,
            depth: 0,
            best: None,
        }
    }

    /// The longest name that begins the text, with its length in code points and what it stands for.
    pub fn longest(&self, rest: &[char]) -> Option<(u32, RefText)>
        ensures value { result ≡ longest self.now rest.now }
        ensures maximum { IsLongest self.now rest.now result }
    {
        let mut walk = self.walk();
        for c in rest {
            if let Step::End(found) = walk.step(*c) {
                return found;
            }
        }
        walk.best()
    }
}
