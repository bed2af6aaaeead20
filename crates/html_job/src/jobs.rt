//! What the words of the command line ask for.

ghost use Rattle.std.specs.Prelude.{◌≡◌, ◌≢◌, IfSome, IsNone};
ghost use Rattle.html_job.specs.Read.{name_of};
ghost use Rattle.html_job.specs.declared.jobs.Command.{Command as CommandType};

use html_page::Profile;
use std::alloc::AllocError;
use thiserror::Error;

/// What the program is to do.
#[derive(Clone, Copy, Debug, PartialEq, Eq)]
pub enum Command {
    /// Print the tree of a page.
    Tree,
    /// Print the parse errors of a page.
    Errors,
    /// Print what became of each token of a page.
    Audit,
    /// Write a page as HTML.
    Normalise,
    /// Print how large a page is.
    Counts,
    /// Run files of test cases.
    Suite,
}

/// What is done with foreign content, SVG and MathML: a page is refused where it begins, or it is parsed.
#[derive(Clone, Copy, Debug, PartialEq, Eq)]
pub enum Foreign {
    Refuse,
    Parse,
}

/// A command with its options and files, as text borrowed from the words.
#[derive(Debug, Drop)]
pub struct Job<'a> {
    pub command: Command,
    /// The file of named character references. None is the table of five names.
    pub entities: Option<&'a str>,
    /// The name of the context, where the page is a fragment.
    pub fragment: Option<&'a str>,
    /// The value of the context's attribute `encoding`, if it has one.
    pub context_encoding: Option<&'a str>,
    /// What is done with foreign content; `Refuse` where the words do not say.
    pub foreign: Foreign,
    /// The most nodes that a page may have.
    pub max_nodes: Option<u64>,
    /// The most code points that a page's nodes may hold.
    pub max_held: Option<u64>,
    /// The most code points that the input may have.
    pub max_input: Option<u64>,
    /// The most steps that may be counted.
    pub max_steps: Option<u64>,
    /// How `Normalise` escapes; `One` where the words do not say, and for the other commands.
    pub profile: Profile,
    /// Whether `Errors` tells places by lines and columns; no for the other commands.
    pub lines: bool,
    /// Whether `Suite` shows what was expected of a case that failed, and what came of it; no for the other commands.
    pub verbose: bool,
    /// The files of pages, in order. `-` is standard input, and so is an empty list.
    pub inputs: Vec<&'a str>,
    /// The files of test cases, one or more, of `Suite`; else none.
    pub files: Vec<&'a str>,
}

/// Why the words are no job.
#[derive(Debug, Drop, Error)]
pub enum JobFault {
    /// The words are wrong, or ask for help: the text for the user.
    #[error("{0}")]
    Words(String),
    /// The words ask for the version: the text for the user.
    #[error("{0}")]
    Version(String),
    /// There is no memory to read the words.
    #[error("out of memory")]
    OutOfMemory,
}

impl Command {
    /// The command of a name.
    pub(crate) fn named(name: &str) -> Option<Command>
        ensures some { IfSome result (λ c. name_of c ≡ name.now) }
        ensures none { IsNone result → (c : CommandType) → name_of c ≢ name.now }
    {
        match name {
            "tree" => Some(Command::Tree),
            "errors" => Some(Command::Errors),
            "audit" => Some(Command::Audit),
            "normalise" => Some(Command::Normalise),
            "counts" => Some(Command::Counts),
            "suite" => Some(Command::Suite),
            _ => None,
        }
    }
}

impl From<AllocError> for JobFault {
    ghost use Rattle.std.specs.Prelude.{◌≡◌};
    ghost use Rattle.html_job.specs.declared.jobs.JobFault.TheVariants.{OutOfMemory};

    ghost from_gives = { λ _ e. e ≡ OutOfMemory };

    fn from(_: AllocError) -> JobFault {
        JobFault::OutOfMemory
    }
}
