//! The table of named character references.
ghost use Rattle.std.specs.Prelude.{◌≡◌, length, slice_index, string_bytes};

use std::marker::Model;

/// The name of a row, in ASCII, seen as the list of its code points.
#[derive(Drop)]
pub struct Name {
    text: String,
}

impl Model for Name {
    ghost use Rattle.std.specs.Prelude.{List, ℕ, string_bytes};

    ghost Value = { List ℕ };

    ghost view = { λ n. string_bytes n.text };
}

impl Name {
    pub(crate) fn new(text: String) -> Self
        ensures { result ≡ string_bytes text }
    {
        Name { text }
    }

    pub(crate) fn len(&self) -> usize
        ensures { result ≡ length self.now }
    {
        self.text.len()
    }

    /// The code point at a place, or 0 past the end.
    pub(crate) fn letter(&self, place: usize) -> u32
        ensures { result ≡ slice_index self.now place }
    {
        match self.text.as_bytes().get(place) {
            Some(byte) => u32::from(*byte),
            None => 0,
        }
    }
}

/// What a reference stands for: one code point or two.
#[derive(Clone, Copy, PartialEq, Eq, Debug)]
pub struct RefText {
    pub first: char,
    pub second: Option<char>,
}

/// A name with what it stands for.
#[derive(Drop)]
pub struct Row {
    pub name: Name,
    pub text: RefText,
}

/// The rows from `start` to `end`, which is left out.
#[derive(Clone, Copy)]
pub(crate) struct RowRange {
    pub start: usize,
    pub end: usize,
}

/// The table of named character references, seen as the list of its rows in the order of their names.
#[derive(Drop)]
pub struct EntityTable {
    pub(crate) rows: Vec<Row>,
    pub(crate) longest_name: u32,
    /// For each letter of ASCII the rows that have it behind the ampersand.
    pub(crate) ranges: Vec<RowRange>,
}

impl Model for EntityTable {
    ghost use Rattle.std.specs.Prelude.{List, ◌≡◌};
    ghost use Rattle.html_charref.specs.declared.table.Row.{Row};
    ghost use Rattle.html_charref.specs.Table.{AreRanges, IsTable, longest_len};

    ghost Value = { List Row };

    ghost view = { λ t. t.rows.items };

    ghost invariant = { λ t. IsTable t.rows.items × (t.longest_name ≡ longest_len t.rows.items) × AreRanges t.rows.items t.ranges.items };
}

impl EntityTable {
    ghost use Rattle.html_charref.specs.Table.{longest_len, IsTable};

    /// The length of the longest name in code points, or 0 of the empty table.
    pub fn longest_name(&self) -> u32
        ensures length { result ≡ longest_len self.now }
        ensures rule { IsTable self.now }
    {
        self.longest_name
    }
}
