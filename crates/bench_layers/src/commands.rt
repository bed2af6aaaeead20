//! What the program is asked for.

use anyhow::{Context, Result};

/// What it can be asked for.
const WORDS: &str = "decoding, references FILE, tokens [NAME], or trees TIMES";

/// A measure, and what it is told.
#[derive(Clone, Copy)]
pub(crate) enum Command<'a> {
    /// A small run of each.
    Small,
    Decoding,
    References { path: &'a str },
    /// Tokens of the text of that name, or of each.
    Tokens { name: Option<&'a str> },
    Trees { times: u32 },
}

impl<'a> Command<'a> {
    /// Reads the program's name and the words behind it.
    pub(crate) fn read(words: &'a [String]) -> Result<Command<'a>> {
        match words {
            [_, name, rest @ ..] => named(name.as_str(), rest).context(WORDS),
            _ => Ok(Command::Small),
        }
    }
}

/// The command of that name, where the words behind it are those that it takes.
fn named<'a>(name: &str, rest: &'a [String]) -> Option<Command<'a>> {
    match name {
        "decoding" => Some(Command::Decoding),
        "references" => Some(Command::References {
            path: rest.first()?.as_str(),
        }),
        "tokens" => Some(Command::Tokens {
            name: rest.first().map(String::as_str),
        }),
        "trees" => Some(Command::Trees {
            times: number(rest.first()?)?,
        }),
        _ => None,
    }
}

fn number(word: &String) -> Option<u32> {
    word.as_str().parse::<u32>().ok()
}
