// What rules look for among the open elements, and where they insert.
ghost use Rattle.std.specs.Prelude.{◌≡◌};
ghost use Rattle.html_tree.specs.Groups.{in_group, is_context, is_stop};

use html_names::{Scope, Tag};

/// Elements that a rule takes together.
#[derive(Clone, Copy, Debug, PartialEq, Eq)]
pub enum Group {
    /// Those of one name that some rule knows.
    Named(Tag),
    /// h1 to h6.
    Heading,
    /// tbody, tfoot and thead.
    Section,
    /// td and th.
    Cell,
    /// dd and dt.
    Definition,
}

impl Group {
    /// Whether elements of this tag belong to the group.
    pub fn has(self, tag: Tag) -> bool
        ensures { result ≡ in_group self tag }
    {
        match self {
            Group::Named(name) => tag.is(name),
            Group::Heading => tag.is_heading(),
            Group::Section => tag.is_section(),
            Group::Cell => tag.is_cell(),
            Group::Definition => tag.is_definition(),
        }
    }
}

/// Which elements end a search from the current node down the stack, where they are not what is sought.
#[derive(Clone, Copy, Debug, PartialEq, Eq)]
pub enum Stop {
    /// None.
    Never,
    /// Those that end a scope (13.2.4.2).
    EndOf(Scope),
    /// Every special element but address, div and p, as in the rules for list items (13.2.6.4.7).
    PastItem,
}

impl Stop {
    /// Whether an element of this tag ends the search.
    pub fn is_at(self, tag: Tag) -> bool
        ensures { result ≡ is_stop self tag }
    {
        match self {
            Stop::Never => false,
            Stop::EndOf(scope) => tag.ends_scope(scope),
            Stop::PastItem => tag.is_item_stop(),
        }
    }
}

/// What the stack is cleared back to.
#[derive(Clone, Copy, Debug, PartialEq, Eq)]
pub enum TableContext {
    /// A table (13.2.6.4.9).
    Table,
    /// A tbody, tfoot or thead (13.2.6.4.13).
    Body,
    /// A tr (13.2.6.4.14).
    Row,
}

impl TableContext {
    /// Whether the stack is cleared back to an element of this tag: the context, a template, or html.
    pub fn is_met(self, tag: Tag) -> bool
        ensures { result ≡ is_context self tag }
    {
        match self {
            TableContext::Table => tag.is_table_context(),
            TableContext::Body => tag.is_section_context(),
            TableContext::Row => tag.is_row_context(),
        }
    }
}

/// Where a new node goes.
#[derive(Clone, Copy, Debug, PartialEq, Eq)]
pub enum Target {
    /// To the appropriate place for the current node (13.2.6.1); with foster parenting where it says true.
    Current(bool),
    /// Last in the head, as if it were open again; in the first open element where there is none.
    Head,
    /// Last in the first open element.
    First,
    /// Last in the document.
    Document,
}
