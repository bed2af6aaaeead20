//! The words of the command line, read as a job.
//! Imported by crates of this workspace.
#![tactic(auto)]

mod jobs;
mod line;
mod words;

pub use html_page::Profile;
pub use jobs::{Command, Foreign, Job, JobFault};
pub use words::job;
