//! Tree construction (13.2.6): the insertion modes of HTML, which make a tree of the tokens of a page, and keep a ledger of what became of
//! each token. The rules are functions over the state of tree construction; each ends with the token done with or to be reprocessed.
//! Imported by crates of this workspace.
//!
//! | Section | Insertion mode | File | Function |
//! |---|---|---|---|
//! | 13.2.6.4.1 | initial | `modes/initial.rt` | `initial` |
//! | 13.2.6.4.2 | before html | `modes/initial.rt` | `before_html` |
//! | 13.2.6.4.3 | before head | `modes/initial.rt` | `before_head` |
//! | 13.2.6.4.4 | in head | `modes/head.rt`, `modes/template.rt` | `in_head` |
//! | 13.2.6.4.5 | in head noscript | `modes/head.rt` | `in_head_noscript` |
//! | 13.2.6.4.6 | after head | `modes/head.rt` | `after_head` |
//! | 13.2.6.4.7 | in body | `modes/body.rt`, `modes/body_start.rt`, `modes/body_phrase.rt`, `modes/body_text.rt`, `modes/body_end.rt`, `modes/formatting.rt` | `in_body` |
//! | 13.2.6.4.8 | text | `modes/text.rt` | `text` |
//! | 13.2.6.4.9 | in table | `modes/table.rt` | `in_table` |
//! | 13.2.6.4.10 | in table text | `modes/table_text.rt` | `in_table_text` |
//! | 13.2.6.4.11 | in caption | `modes/table_parts.rt` | `in_caption` |
//! | 13.2.6.4.12 | in column group | `modes/table_parts.rt` | `in_column_group` |
//! | 13.2.6.4.13 | in table body | `modes/table_rows.rt` | `in_table_body` |
//! | 13.2.6.4.14 | in row | `modes/table_rows.rt` | `in_row` |
//! | 13.2.6.4.15 | in cell | `modes/cell.rt` | `in_cell` |
//! | 13.2.6.4.16 | in select | `modes/select.rt` | `in_select` |
//! | 13.2.6.4.17 | in select in table | `modes/select.rt` | `in_select_in_table` |
//! | 13.2.6.4.18 | in template | `modes/template.rt` | `in_template` |
//! | 13.2.6.4.19 | after body | `modes/after.rt` | `after_body` |
//! | 13.2.6.4.20 | in frameset | `modes/frameset.rt` | `in_frameset` |
//! | 13.2.6.4.21 | after frameset | `modes/frameset.rt` | `after_frameset` |
//! | 13.2.6.4.22 | after after body | `modes/after.rt` | `after_after_body` |
//! | 13.2.6.4.23 | after after frameset | `modes/frameset.rt` | `after_after_frameset` |
//!
//! The rules for parsing tokens in foreign content (13.2.6.5), and which tokens go by them (13.2.6), stand in `modes/foreign.rt`.
#![tactic(auto)]

mod guards;
mod hidden;
mod modes;
mod outcome;
mod plain_text;
mod process;
mod quirks;
mod runs;

pub use outcome::Foreign;
pub use plain_text::take_plain_front;
pub use process::take;
pub use runs::take_front;
