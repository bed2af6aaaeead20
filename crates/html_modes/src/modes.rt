// The insertion modes, in the order of the standard (13.2.6.4). The rules touch no field: they call operations on the state of tree
// construction, and each other.

pub(crate) mod after;
pub(crate) mod body;
pub(crate) mod body_end;
pub(crate) mod body_phrase;
pub(crate) mod body_start;
pub(crate) mod body_text;
pub(crate) mod cell;
pub(crate) mod foreign;
pub(crate) mod formatting;
pub(crate) mod frameset;
pub(crate) mod head;
pub(crate) mod initial;
pub(crate) mod select;
pub(crate) mod table;
pub(crate) mod table_parts;
pub(crate) mod table_rows;
pub(crate) mod table_text;
pub(crate) mod template;
pub(crate) mod text;
