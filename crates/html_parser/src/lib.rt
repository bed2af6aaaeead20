//! Pages from bytes to trees (13.2 to 13.4), as the bytes come: what the decoder puts out goes to the tokenizer at once, each token to
//! tree construction as soon as it is decided, and nothing is kept but the tree, its ledger, and what is undecided yet.
//! Imported by users, to whom it hands on what they need of the crates below.
#![tactic(auto)]

mod error;
mod faults;
mod feeder;
mod gathering;
mod kept;
mod made;
mod normalising;
mod options;
mod owned_feeder;
mod owned_parser;
mod owned_tree_parser;
mod page;
mod parser;
mod parsing;
mod paused;
mod reading;
mod stages;
mod starts;
mod tree_parser;

pub use error::ParseError;
pub use faults::{PageFault, PageFaultName};
pub use html_arena::{
    Arena, ArenaError, ElementData, Event, Kind, Limits, Meter, NewNode, NodeData, NodeId, Origin,
    Show, Walk,
};
pub use html_builder::{BuildError, Builder, Context, Foreign as ForeignRoot, Mode};
pub use html_charref::{EntityError, EntityTable, RefText, Row};
pub use html_device::{DeviceFault, FailAt, OverRead, OverWrite, Sink, Source};
// Reads and edits of nodes: `dom::attr`, `dom::remove` and the like.
pub use html_dom as dom;
pub use html_input::{Decoder, InputError, LIMIT, Lines, Position};
pub use html_ledger::{Cause, Fate, Fates};
pub use html_names::{AttrSpace, Space, Tag};
pub use html_page::{Profile, TokenList, TokenListError, serialise_tree, tokenize};
pub use html_text::{Str, WideStr};
pub use html_token_list::{TokenRef, Tokens};
pub use html_tokens::{
    Attr, Attrs, Fault, FaultName, OptionalStr, Span, TextMode, Token, TokenError, TokenKind,
    Tokenizer,
};
pub use normalising::{normalise, normalise_with};
pub use options::{Foreign, Options};
pub use owned_parser::OwnedParser;
pub use owned_tree_parser::OwnedTreeParser;
pub use page::{Page, Tree, serialise};
pub use parser::Parser;
pub use parsing::{parse, parse_fragment, parse_tree, parse_tree_with, parse_with, parse_within};
pub use reading::{parse_from, parse_from_with, parse_tree_from, parse_tree_from_with};
pub use tree_parser::TreeParser;
