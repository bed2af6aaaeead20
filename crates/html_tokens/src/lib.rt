//! The tokenizer of HTML: from code points in any pieces to tokens.
//! Imported by crates of this workspace.
#![tactic(auto)]

mod attributes;
mod bare_tag;
mod comment;
mod copied;
mod doctype;
mod doctype_faults;
mod fault_list;
mod fault_name;
mod faults;
mod fronts;
mod gathered;
mod indexed;
mod input;
mod machine;
mod marks;
mod nulls;
mod opener;
mod optional;
mod paused;
mod queue;
mod reference;
mod short;
mod tag;
mod token;
mod tokenizer;
mod whole_attr;
mod whole_tag;

pub use attributes::{Attr, Attrs};
pub use bare_tag::BareTag;
pub use fault_name::FaultName;
pub use faults::Fault;
pub use optional::OptionalStr;
pub use paused::PausedTokenizer;
pub use token::{Span, TextMode, Token, TokenKind};
pub use tokenizer::{TokenError, Tokenizer};
