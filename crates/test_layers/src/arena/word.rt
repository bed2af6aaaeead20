//! The words of a row.

use super::refusal::Refusal;
use html_arena::{Mark, NodeId};

/// A word of a row: a name, and what stands after it and a colon, and after a second one.
#[derive(Clone, Copy)]
pub(crate) struct Word<'a> {
    pub name: &'a str,
    pub first: &'a str,
    pub second: &'a str,
}

impl<'a> Word<'a> {
    pub(crate) fn of(text: &'a str) -> Word<'a> {
        let (name, rest) = text.split_once(':').unwrap_or((text, ""));
        let (first, second) = rest.split_once(':').unwrap_or((rest, ""));
        Word {
            name,
            first,
            second,
        }
    }

    pub(crate) fn node(&self) -> Result<NodeId, Refusal> {
        Ok(NodeId::at(number(self.first)?))
    }

    pub(crate) fn other(&self) -> Result<NodeId, Refusal> {
        Ok(NodeId::at(number(self.second)?))
    }

    pub(crate) fn mark(&self) -> Mark {
        if self.second == "stack" {
            Mark::OnStack
        } else {
            Mark::InList
        }
    }
}

pub(crate) fn number(text: &str) -> Result<usize, Refusal> {
    text.parse::<usize>().map_err(|_| Refusal::NoNumber)
}
