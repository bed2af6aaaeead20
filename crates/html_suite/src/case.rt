//! One case: read, run and compared.

use crate::counts::{Difference, Outcome};
use crate::entry::{Entry, are_same, shown};
use crate::expected::{expected, text};
use crate::given::given;
use crate::texts::{CaseFault, Texts};
use html_page::{EntityTable, TokenListError, tokenize};
use html_tokens::{TextMode, Token};
use serde_json::Value;
use std::alloc::{AllocError, Global};

/// A case without its state.
#[derive(Drop)]
struct Case {
    input: String,
    last_name: Option<String>,
    output: Vec<Entry>,
}

/// Whether cases of foreign content are run.
#[derive(Clone, Copy, Debug, PartialEq, Eq)]
pub enum ForeignCases {
    Skipped,
    Run,
}

/// What is asked of a run of cases.
#[derive(Clone, Copy, Debug)]
pub struct SuiteOptions {
    /// Whether cases of foreign content are run.
    pub foreign: ForeignCases,
    /// Whether what was expected of a case that failed, and what came of it, is written.
    pub verbose: bool,
}

/// How the text of a case begins to be read: its text mode, and what stands before it.
#[derive(Clone, Copy)]
struct Begin {
    mode: TextMode,
    opener: &'static str,
}

/// Runs a test in one of its initial states.
pub(crate) fn run_case(
    alloc: Global,
    test: &Value,
    state: &str,
    table: &EntityTable,
    options: SuiteOptions,
) -> Result<Outcome, CaseFault> {
    let Some(begin) = begin_of(state, options.foreign) else {
        return Ok(Outcome::Skipped);
    };
    match read_case(alloc, test) {
        Ok(case) => run_read(alloc, &case, begin, table, options.verbose),
        Err(CaseFault::NotRun) => Ok(Outcome::Skipped),
        Err(fault) => Err(fault),
    }
}

/// Runs a case that was read.
fn run_read(
    alloc: Global,
    case: &Case,
    begin: Begin,
    table: &EntityTable,
    verbose: bool,
) -> Result<Outcome, CaseFault> {
    let last_name = case.last_name.as_deref();
    let input = input_of(alloc, case, begin)?;
    match tokenize(alloc, table, begin.mode, last_name, input.as_bytes()) {
        Ok(list) => compared(
            alloc,
            list.tokens.as_slice(),
            case.output.as_slice(),
            verbose,
        ),
        Err(TokenListError::OutOfMemory) => Err(CaseFault::OutOfMemory),
        Err(_) => Ok(Outcome::Failed(None)),
    }
}

/// The input of a case behind what stands before it.
fn input_of(alloc: Global, case: &Case, begin: Begin) -> Result<String, AllocError> {
    let mut input = begin.opener.to_string(alloc)?;
    input.push_str(case.input.as_str())?;
    Ok(input)
}

/// Whether these are the tokens that are wanted.
fn compared(
    alloc: Global,
    tokens: &[Token],
    wanted: &[Entry],
    verbose: bool,
) -> Result<Outcome, CaseFault> {
    let given = given(alloc, tokens)?;
    if are_same(given.as_slice(), wanted) {
        Ok(Outcome::Passed)
    } else if verbose {
        Ok(Outcome::Failed(Some(difference(alloc, wanted, given.as_slice())?)))
    } else {
        Ok(Outcome::Failed(None))
    }
}

/// What was expected, and what came.
fn difference(alloc: Global, wanted: &[Entry], given: &[Entry]) -> Result<Difference, AllocError> {
    Ok(Difference {
        expected: shown(alloc, wanted)?,
        got: shown(alloc, given)?,
    })
}

fn read_case(alloc: Global, test: &Value) -> Result<Case, CaseFault> {
    let is_escaped = test
        .get("doubleEscaped")
        .and_then(Value::as_bool)
        .unwrap_or(false);
    let texts = Texts { is_escaped };
    let Some(input) = test.get("input") else {
        return Err(CaseFault::Malformed);
    };
    let Some(output) = test.get("output").and_then(Value::as_array) else {
        return Err(CaseFault::Malformed);
    };
    let input = text(alloc, input, texts)?;
    let output = expected(alloc, output, texts)?;
    let last_name = match test.get("lastStartTag") {
        Some(name) => Some(text(alloc, name, texts)?),
        None => None,
    };
    Ok(Case {
        input,
        last_name,
        output,
    })
}

/// How the text begins in an initial state, by the names that the cases use.
fn begin_of(state: &str, foreign: ForeignCases) -> Option<Begin> {
    if state == "CDATA section state" {
        return section_begin(foreign);
    }
    let mode = mode_of(state)?;
    Some(Begin { mode, opener: "" })
}

/// How a text begins that is the front of a section.
fn section_begin(foreign: ForeignCases) -> Option<Begin> {
    match foreign {
        ForeignCases::Skipped => None,
        ForeignCases::Run => Some(Begin {
            mode: TextMode::Foreign,
            opener: "<![CDATA[",
        }),
    }
}

/// The text mode of an initial state.
fn mode_of(state: &str) -> Option<TextMode> {
    match state {
        "Data state" => Some(TextMode::Data),
        "RCDATA state" => Some(TextMode::Rcdata),
        "RAWTEXT state" => Some(TextMode::Rawtext),
        "Script data state" => Some(TextMode::Script),
        "PLAINTEXT state" => Some(TextMode::Plaintext),
        _ => None,
    }
}
