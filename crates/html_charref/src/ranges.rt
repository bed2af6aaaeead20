//! Ranges of rows by a letter of their names.
ghost use Rattle.std.specs.Prelude.{◌≡◌, ◌≤◌, IfOk, length};
ghost use Rattle.html_charref.specs.Table.{letter_at, IsLowerBound, AreRanges};

use crate::table::{Row, RowRange};
use std::alloc::{AllocFailed, Global};

/// How many letters have a range: all of ASCII.
const LETTERS: u32 = 128;

/// The first row from `start` to `end` whose letter at `depth` is not below `limit`, or `end`.
pub(crate) fn lower_bound(rows: &[Row], start: usize, end: usize, depth: usize, limit: u32) -> usize
    requires in_order { start ≤ end }
    requires within { end ≤ length rows.now }
    ensures { IsLowerBound rows.now start end depth limit result }
{
    let mut low = start;
    let mut high = end;
    while low < high {
        let middle = low + (high - low) / 2;
        if rows[middle].name.letter(depth) < limit {
            low = middle + 1;
        } else {
            high = middle;
        }
    }
    low
}

/// For each letter of ASCII the rows that have it behind the ampersand.
pub(crate) fn ranges_of(alloc: Global, rows: &[Row]) -> Result<Vec<RowRange>, AllocFailed<RowRange>>
    ensures { IfOk result (λ ranges. AreRanges rows.now ranges.items) }
{
    let mut ranges = Vec::new(alloc);
    let all = rows.len();
    'letters: for letter in 0..LETTERS {
        let start = lower_bound(rows, 0, all, 1, letter);
        let end = lower_bound(rows, start, all, 1, letter + 1);
        ranges.push(RowRange { start, end })?;
    }
    Ok(ranges)
}
