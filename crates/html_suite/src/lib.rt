//! Files of test cases in html5lib's form, run against the tokenizer and the parser.
//! Imported by crates of this workspace.
#![tactic(auto)]

mod case;
mod counts;
mod dat;
mod entry;
mod escapes;
mod expected;
mod given;
mod suite;
mod texts;
mod tree_case;

pub use case::{ForeignCases, SuiteOptions};
pub use suite::suite_file;
