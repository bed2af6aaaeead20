//! Laws of parsing: what two runs of the rules of tree construction, and two answers for one input, have in common, and what a page has once.
//! Imported by nobody.
#![tactic(auto)]

mod laws;

pub use laws::{
    construction_has_one_outcome, pages_have_no_template_in_itself, pages_have_one_body,
    pages_have_one_root, parsing_has_one_outcome, rules_have_one_outcome,
};
